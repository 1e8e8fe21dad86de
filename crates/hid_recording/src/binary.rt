//! A binary report descriptor, as the line of a recording that has its bytes.

ghost use Rattle.std.specs.Prelude.{◌≡◌, IfOk, string_bytes};
ghost use Rattle.hid_recording.specs.Binary.{descriptor_line};

use hid_notation::print_bytes;
use std::alloc::{AllocError, Global};

/// `R: COUNT HEX`: the line that has these bytes as its report descriptor, without its end.
///
/// # Errors
/// [`AllocError`] if memory runs out for the line.
pub fn descriptor_line(alloc: Global, bytes: &[u8]) -> Result<String, AllocError>
    ensures { IfOk result (λ text. string_bytes text ≡ descriptor_line bytes.now) }
{
    let mut text = String::new(alloc);
    let count = bytes.len();
    write!(text, "R: {count}")?;
    print_bytes(&mut text, bytes)?;
    Ok(text)
}
