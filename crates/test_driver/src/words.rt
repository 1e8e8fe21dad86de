//! The words of a step.

use hid_driver::{Ask, ReportKind};
use std::alloc::Global;
use test_rows::{RowFault, Table, push_word};

/// The words of a text.
pub fn words_in(alloc: Global, text: &str) -> Result<Vec<&str>, RowFault> {
    let words: Result<Vec<&str>, _> = text.split_whitespace().collect(alloc);
    match words {
        Ok(words) => Ok(words),
        Err(_) => Err(RowFault::Memory),
    }
}

/// The bytes that are encoded by words, which may be names of the table.
pub fn bytes_in(table: &Table<'_>, words: &[&str]) -> Result<Vec<u8>, RowFault> {
    let mut bytes = Vec::new(table.alloc);
    for word in words {
        push_word(&mut bytes, table.names, word)?;
    }
    Ok(bytes)
}

fn kind_of(word: &str) -> Option<ReportKind> {
    match word {
        "input" => Some(ReportKind::Input),
        "output" => Some(ReportKind::Output),
        "feature" => Some(ReportKind::Feature),
        _ => None,
    }
}

/// What is asked, by its words and the bytes of a report that is set.
pub fn ask_of<'a>(words: &[&str], bytes: &'a [u8]) -> Option<Ask<'a>> {
    match *words {
        ["get", kind, id] => Some(Ask::GetReport {
            kind: kind_of(kind)?,
            id: id.parse().ok()?,
        }),
        ["set", kind, id, ..] => Some(Ask::SetReport {
            kind: kind_of(kind)?,
            id: id.parse().ok()?,
            bytes,
        }),
        ["idle", id, time] => Some(Ask::Idle {
            id: id.parse().ok()?,
            time: time.parse().ok()?,
        }),
        _ => None,
    }
}
