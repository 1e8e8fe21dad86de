//! Text of bytes and separators alone.

ghost use Rattle.std.specs.Prelude.{◌≡◌, ◌==◌, None, Some, IfOk, MatchResult, is_some, false, Err, []};
ghost use Rattle.std.specs.List.{list_any};
ghost use Rattle.hid_input.specs.declared.fault.InputCause.TheVariants.{NoDescriptor};
ghost use Rattle.hid_input.specs.declared.words.Parting.TheVariants.{Commas};
ghost use Rattle.hid_input.specs.Answer.{Reads, names_itself};
ghost use Rattle.hid_input.specs.Faults.{of_text};
ghost use Rattle.hid_input.specs.Words.{text_bytes};
ghost use Rattle.hid_input.specs.Spelled.{is_part, is_loose_from, has_comma, hex_reading, spelled_bytes, some_answer};

use crate::fault::{InputCause, InputFault};
use crate::found::{Found, Shape};
use crate::text::is_empty_line;
use crate::whole::descriptor_fault;
use crate::words::{Parting, Reading, add_words, next_word};
use std::alloc::{AllocError, Global};

/// Whether a byte may be part of a word.
fn is_part(byte: u8) -> bool
    ensures { result ≡ is_part byte }
{
    byte != b',' && !byte.is_ascii_whitespace()
}

/// Where a text with commas doesn't have one between each two words: none, or several. Its last word may have one after it.
fn comma_place(text: &[u8]) -> Option<usize>
    ensures { is_some result ≡ is_loose_from false false text.now }
{
    let mut is_word = false;
    let mut has_word = false;
    for (at, byte) in text.iter().enumerate() {
        let is_new = is_part(*byte);
        if (*byte == b',' && !has_word) || (is_new && has_word && !is_word) {
            return Some(at);
        }
        is_word = is_new;
        has_word = *byte != b',' && (has_word || is_new);
    }
    None
}

/// Whether a text has a comma.
fn has_comma(text: &[u8]) -> bool
    ensures { result ≡ has_comma text.now }
{
    text.iter().any(|byte| *byte == b',')
}

/// How the words of a text of hex spell bytes: each one byte, if the first does.
fn hex_reading(text: &[u8]) -> Reading
    ensures { result ≡ hex_reading text.now }
{
    match next_word(text, Parting::Commas) {
        Some((word, _)) if word.len() == 2 => Reading::Pairs,
        _ => Reading::Joined,
    }
}

/// The bytes that a text spells in one reading, or the place of the first word that has none.
fn read_as(
    alloc: Global,
    text: &[u8],
    reading: Reading,
) -> Result<Result<Vec<u8>, usize>, AllocError>
    ensures { IfOk result (λ read. MatchResult read (λ bytes. text_bytes reading Commas text.now ≡ Some bytes.items) (λ _. text_bytes reading Commas text.now ≡ None)) }
{
    let mut bytes = Vec::new(alloc);
    match add_words(&mut bytes, text, reading, Parting::Commas)? {
        None => Ok(Ok(bytes)),
        Some(left) => Ok(Err(text.len().saturating_sub(left))),
    }
}

/// The bytes that a text spells, each word in the same way, or the place from which on none reads it.
///
/// # Errors
/// Out of memory.
pub fn read_spelled(alloc: Global, text: &[u8]) -> Result<Result<Vec<u8>, usize>, AllocError>
    ensures { IfOk result (λ read. MatchResult read (λ bytes. spelled_bytes text.now ≡ Some bytes.items) (λ _. spelled_bytes text.now ≡ None)) }
{
    if has_comma(text) {
        if let Some(place) = comma_place(text) {
            return Ok(Err(place));
        }
    }
    let hex = match read_as(alloc, text, hex_reading(text))? {
        Ok(bytes) => return Ok(Ok(bytes)),
        Err(place) => place,
    };
    match read_as(alloc, text, Reading::Elements)? {
        Ok(bytes) => Ok(Ok(bytes)),
        Err(place) => Ok(Err(place.max(hex))),
    }
}

/// The fault of a part of a text that begins at a place and spells bytes up to a length. A text without digits there has no descriptor.
pub fn unread(text: &[u8], from: usize, size: usize) -> InputFault {
    let place = from.saturating_add(size).min(text.len());
    let is_read = !is_empty_line(&text[from.min(place)..place]);
    match &text[place..] {
        [first, ..] if is_read || first.is_ascii_digit() => InputFault::no_byte(text, place),
        _ => InputFault::of_text(InputCause::NoDescriptor),
    }
}

/// What is found, if its bytes are one whole descriptor.
///
/// # Errors
/// [`InputCause::NoDescriptor`] without bytes, [`InputCause::NotWhole`].
pub fn found_whole(
    bytes: Vec<u8>,
    shape: Shape,
    lines: Option<(u64, u64)>,
) -> Result<Found, InputFault>
    requires { names_itself shape ≡ false }
    ensures answer { Reads (some_answer shape lines bytes.items) result }
    ensures empty { bytes.items ≡ [] → result ≡ Err (of_text NoDescriptor) }
{
    if bytes.is_empty() {
        return Err(InputFault::of_text(InputCause::NoDescriptor));
    }
    match descriptor_fault(bytes.as_slice()) {
        Some(fault) => Err(InputFault::of_text(InputCause::NotWhole(fault))),
        None => Ok(Found {
            bytes,
            shape,
            lines,
        }),
    }
}
