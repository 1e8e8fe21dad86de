//! The output of a row: parts with commas between them, bytes in hex.

use crate::fault::RowFault;
use std::fmt::{Debug, Display, Write};

/// More equal bytes than this are printed as one with their count.
const FEW: usize = 16;

/// Begins a part.
pub(crate) fn part(printed: &mut String) -> Result<(), RowFault> {
    if !printed.is_empty() {
        printed.push_str(", ")?;
    }
    Ok(())
}

/// A part of plain text.
pub fn print(printed: &mut String, text: &str) -> Result<(), RowFault> {
    part(printed)?;
    Ok(printed.push_str(text)?)
}

/// A part: the first text where that holds, else the second.
pub fn print_whether(
    printed: &mut String,
    holds: bool,
    yes: &str,
    no: &str,
) -> Result<(), RowFault> {
    print(printed, if holds { yes } else { no })
}

/// Appends a text.
pub fn add(printed: &mut String, text: &str) -> Result<(), RowFault> {
    Ok(printed.push_str(text)?)
}

/// Appends what is shown. A text with several holes takes a proof of many seconds, and this no more than a call.
pub fn add_shown<D: Display>(printed: &mut String, shown: &D) -> Result<(), RowFault> {
    Ok(write!(printed, "{shown}")?)
}

/// Appends a value with its fields.
pub fn add_debug<D: Debug>(printed: &mut String, value: &D) -> Result<(), RowFault> {
    Ok(write!(printed, "{value:?}")?)
}

/// Appends a number in hex, of two digits at least.
pub fn add_hex(printed: &mut String, number: u32) -> Result<(), RowFault> {
    Ok(write!(printed, "{number:02X}")?)
}

/// A part that is shown.
pub fn print_shown<D: Display>(printed: &mut String, shown: &D) -> Result<(), RowFault> {
    part(printed)?;
    add_shown(printed, shown)
}

/// A part that is a value with its fields.
pub fn print_debug<D: Debug>(printed: &mut String, value: &D) -> Result<(), RowFault> {
    part(printed)?;
    add_debug(printed, value)
}

/// A part of numbers with blanks between them.
pub fn print_numbers(printed: &mut String, numbers: &[i64]) -> Result<(), RowFault> {
    part(printed)?;
    let mut between = "";
    for number in numbers {
        add(printed, between)?;
        add_shown(printed, number)?;
        between = " ";
    }
    Ok(())
}

/// A part of numbers in hex, with blanks between them.
pub fn print_hex(printed: &mut String, numbers: &[u32]) -> Result<(), RowFault> {
    part(printed)?;
    let mut between = "";
    for number in numbers {
        add(printed, between)?;
        add_hex(printed, *number)?;
        between = " ";
    }
    Ok(())
}

/// A part that is a number, or `none`.
pub fn print_number(printed: &mut String, number: Option<i64>) -> Result<(), RowFault> {
    part(printed)?;
    match number {
        Some(number) => add_shown(printed, &number),
        None => add(printed, "none"),
    }
}

/// A part that is a pattern in hex, or `none`.
pub fn print_pattern(printed: &mut String, pattern: Option<u32>) -> Result<(), RowFault> {
    part(printed)?;
    match pattern {
        Some(pattern) => Ok(write!(printed, "{pattern:X}")?),
        None => Ok(printed.push_str("none")?),
    }
}

fn print_each(printed: &mut String, bytes: &[u8]) -> Result<(), RowFault> {
    let mut between = "";
    for byte in bytes {
        add(printed, between)?;
        add_hex(printed, u32::from(*byte))?;
        between = " ";
    }
    Ok(())
}

/// Whether each byte is this one.
fn are_all(bytes: &[u8], wanted: u8) -> bool {
    for byte in bytes {
        if *byte != wanted {
            return false;
        }
    }
    true
}

/// A part of bytes in hex: `07 FF`, `03*256`, or `no byte`.
pub fn print_bytes(printed: &mut String, bytes: &[u8]) -> Result<(), RowFault> {
    part(printed)?;
    match bytes {
        [] => Ok(printed.push_str("no byte")?),
        [first, ..] if FEW < bytes.len() && are_all(bytes, *first) => {
            add_hex(printed, u32::from(*first))?;
            add(printed, "*")?;
            add_shown(printed, &bytes.len())
        }
        _ => print_each(printed, bytes),
    }
}
