//! The words of a row.

use hid_layout::{ControlId, ReportKind};
use std::alloc::Global;
use test_rows::{RowFault, Table, push_word};
use usbip_export::Change;

/// The words of a text.
pub fn words_in(alloc: Global, text: &str) -> Result<Vec<&str>, RowFault> {
    let words: Result<Vec<&str>, _> = text.split_whitespace().collect(alloc);
    match words {
        Ok(words) => Ok(words),
        Err(_) => Err(RowFault::Memory),
    }
}

/// The bytes that are encoded by words, which may be names of the table.
pub fn bytes_in(table: &Table<'_>, words: &[&str]) -> Result<Vec<u8>, RowFault> {
    let mut bytes = Vec::new(table.alloc);
    for word in words {
        push_word(&mut bytes, table.names, word)?;
    }
    Ok(bytes)
}

/// The control that is meant by its item and index.
fn control_of(item: &str, index: &str) -> Option<ControlId> {
    Some(ControlId {
        item: item.parse().ok()?,
        index: index.parse().ok()?,
    })
}

/// The change that words mean.
pub fn change_of(words: &[&str]) -> Option<Change> {
    match *words {
        ["press", item, index] => Some(Change::Press(control_of(item, index)?)),
        ["release", item, index] => Some(Change::Release(control_of(item, index)?)),
        ["move", item, index, by] => Some(Change::Move(control_of(item, index)?, by.parse().ok()?)),
        ["set", item, index, value] => {
            Some(Change::Set(control_of(item, index)?, value.parse().ok()?))
        }
        _ => None,
    }
}

pub fn kind_of(word: &str) -> Option<ReportKind> {
    match word {
        "input" => Some(ReportKind::Input),
        "output" => Some(ReportKind::Output),
        "feature" => Some(ReportKind::Feature),
        _ => None,
    }
}
