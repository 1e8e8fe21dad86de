//! Usages and controls in the words of a row.

use hid_layout::{ControlId, Usage};
use test_rows::{RowFault, number_of, split};

fn half_of(text: &str) -> Result<u16, RowFault> {
    Ok(u16::from_str_radix(text, 16)?)
}

/// A usage by its page and its ID, in hex.
pub fn usage_of(text: &str) -> Result<Usage, RowFault> {
    let (page, id) = split(text, ':');
    Ok(Usage {
        page: half_of(page)?,
        id: half_of(id)?,
    })
}

/// A control by its item and its place there.
pub fn control_of(text: &str) -> Result<ControlId, RowFault> {
    let (item, index) = split(text, '.');
    Ok(ControlId {
        item: number_of(item)?,
        index: number_of(index)?,
    })
}
