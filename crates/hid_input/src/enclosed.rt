//! A list in brackets.
//! ```text
//!   u8 d[2] = { 0x05, 0x01, .. };      bytes([5, 1, 9, ..])      "ReportDescriptor" = <05010902..>
//! ```
//! It begins with the last bracket that opens, so that no other one is inside.

ghost use Rattle.std.specs.Prelude.{◌≡◌, ◌<◌, IfSome, length, position};
ghost use Rattle.hid_input.specs.Answer.{Reads};
ghost use Rattle.hid_input.specs.Head.{last_place};
ghost use Rattle.hid_input.specs.Enclosed.{opens, closes, are_brackets, list_answer};

use crate::fault::{InputCause, InputFault};
use crate::found::{Found, Shape};
use crate::head::{is_head, is_tail};
use crate::spelled::{found_whole, read_spelled, unread};
use crate::text::line_at;
use std::alloc::Global;

/// Whether a byte is a bracket that opens.
fn opens(byte: u8) -> bool
    ensures { result ≡ opens byte }
{
    matches!(byte, b'{' | b'[' | b'(' | b'<')
}

/// Whether a byte is a bracket that closes.
fn closes(byte: u8) -> bool
    ensures { result ≡ closes byte }
{
    matches!(byte, b'}' | b']' | b')' | b'>')
}

/// Where the last bracket of a text stands that opens.
fn opening_place(text: &[u8]) -> Option<usize>
    ensures place { result ≡ last_place opens text.now }
    ensures bound { IfSome result (λ place. place < length text.now) }
{
    let mut found = None;
    for (at, byte) in text.iter().enumerate() {
        if opens(*byte) {
            found = Some(at);
        }
    }
    found
}

/// Where the first bracket of a text stands that closes.
fn closing_place(text: &[u8]) -> Option<usize>
    ensures place { result ≡ position closes text.now }
    ensures bound { IfSome result (λ place. place < length text.now) }
{
    text.iter().position(|byte| closes(*byte))
}

/// Whether brackets belong together.
fn are_brackets(opening: u8, closing: u8) -> bool
    ensures { result ≡ are_brackets opening closing }
{
    match opening {
        b'{' => closing == b'}',
        b'[' => closing == b']',
        b'(' => closing == b')',
        _ => closing == b'>',
    }
}

/// The descriptor in the list of a text, from its last bracket that opens to the first one after it that closes. The fault is that of a text
/// without a list.
///
/// # Errors
/// The fault, [`InputCause::NoByte`], [`InputCause::Beside`], [`InputCause::NotWhole`], [`InputCause::Memory`].
pub fn read_list(alloc: Global, text: &[u8], fault: InputFault) -> Result<Found, InputFault>
    ensures { Reads (list_answer text.now) result }
{
    let Some(open) = opening_place(text) else {
        return Err(fault);
    };
    let (front, rest) = (&text[..open], &text[open + 1..]);
    let Some(length) = closing_place(rest) else {
        return Err(fault);
    };
    if !are_brackets(text[open], rest[length]) {
        return Err(fault);
    }
    let bytes = match read_spelled(alloc, &rest[..length])? {
        Ok(bytes) => bytes,
        Err(place) => return Err(unread(text, open + 1, place)),
    };
    let count = bytes.len() as u64;
    if !is_head(front, count) || !is_tail(&rest[length + 1..], count) {
        return Err(InputFault::of_line(line_at(text, open), InputCause::Beside));
    }
    let lines = (line_at(text, open), line_at(text, open + 1 + length));
    found_whole(bytes, Shape::List, Some(lines))
}
