//! Words and numbers of a row.

use crate::fault::RowFault;

/// What stands before and after a mark, without blanks round it; all of the text before, where the mark isn't there.
pub fn split<'a>(text: &'a str, mark: char) -> (&'a str, &'a str) {
    let (before, behind) = text.split_once(mark).unwrap_or((text, ""));
    (before.trim(), behind.trim())
}

pub fn number_of(text: &str) -> Result<usize, RowFault> {
    Ok(text.parse()?)
}

pub fn signed_of(text: &str) -> Result<i64, RowFault> {
    Ok(text.parse()?)
}

pub fn width_of(text: &str) -> Result<u32, RowFault> {
    Ok(text.parse()?)
}

/// A pattern of up to 32 bits, in hex.
pub fn pattern_of(text: &str) -> Result<u32, RowFault> {
    Ok(u32::from_str_radix(text, 16)?)
}
