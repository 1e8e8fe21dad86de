//! What is printed of bytes.

use std::fmt::Write;
use test_rows::{RowFault, add};

/// The most bytes of one kind in a row that are printed one by one.
const FEW: usize = 8;

/// Appends n of the same byte in hex: more than eight as `07*9`.
fn add_run(printed: &mut String, byte: u8, run: usize) -> Result<(), RowFault> {
    if run > FEW {
        return Ok(write!(printed, " {byte:02X}*{run}")?);
    }
    for _ in 0..run {
        write!(printed, " {byte:02X}")?;
    }
    Ok(())
}

/// Appends bytes in hex, a blank before each.
pub fn add_bytes(printed: &mut String, bytes: &[u8]) -> Result<(), RowFault> {
    let mut last = 0;
    let mut run = 0usize;
    for byte in bytes {
        if *byte != last {
            add_run(printed, last, run)?;
            last = *byte;
            run = 0;
        }
        run = run.saturating_add(1);
    }
    add_run(printed, last, run)
}

/// Appends a word.
pub fn add_word(printed: &mut String, word: &str) -> Result<(), RowFault> {
    add(printed, " ")?;
    add(printed, word)
}
