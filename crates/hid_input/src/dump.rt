//! Dumps: lines of an offset, bytes in hex, and perhaps their characters.
//! ```text
//!   00000000: 0501 0902 a101 0901 a100 0509 1901 2903  ..............).     xxd
//!   00000000  05 01 09 02 a1 01 09 01  a1 00 05 09 19 01 29 03  |......).|   hexdump -C
//!   0000020 15 00 25 01 95 03 75 01 81 02 95 01 75 05 81 01               od -t x1
//! ```
//! An offset is the number of bytes before its line, in hex, decimal or octal: the same in each line. Each byte is written, so
//! `*` for repeated lines isn't read.

ghost use Rattle.std.specs.Prelude.{◌≡◌, ◌==◌, ◌<◌, ◌||◌, [], false, IfOk, MatchResult, Some, None};
ghost use Rattle.std.specs.List.{list_all, zip};
ghost use Rattle.std.specs.Option.{option_copied};
ghost use Rattle.hid_input.specs.Text.{lines_of};
ghost use Rattle.hid_input.specs.Answer.{Reads};
ghost use Rattle.hid_input.specs.Dump.{without_last, offset_digits, is_dump, character_of, are_shown, inside_bars, shows_in_bars, shows, begins_word, row_bytes, is_whole, line_bytes, rows_bytes, bases_of, row_size, dump_answer};

use crate::fault::{InputCause, InputFault};
use crate::found::{Found, Shape};
use crate::spelled::found_whole;
use crate::text::{behind_part, first_word, is_empty_line, split_line, split_word, without_space};
use crate::words::{byte_of_pair, number_of};
use std::alloc::{AllocError, Global};

/// The bases in which an offset may be, by its first word: tools write decimal and octal ones with seven digits.
fn bases_of(word: &[u8]) -> &'static [u32]
    ensures { result.now ≡ bases_of word.now }
{
    if word.len() == 7 { &[16, 10, 8] } else { &[16] }
}

/// How many bytes each row has but the last, by the first word: where the base isn't known, 16.
fn row_size(word: &[u8]) -> u64
    ensures size { result ≡ row_size word.now }
    ensures some { 0 < result }
{
    if word.len() == 7 { 16 } else { 1 }
}

/// A text without a byte at its end.
fn without_last(text: &[u8], byte: u8) -> &[u8]
    ensures { result.now ≡ without_last byte text.now }
{
    if text.len() >= 1 && text[text.len() - 1] == byte {
        &text[..text.len() - 1]
    } else {
        text
    }
}

/// The digits of an offset: without `0x` before and a colon at the end.
fn offset_digits(word: &[u8]) -> &[u8]
    ensures { result.now ≡ offset_digits word.now }
{
    without_last(behind_part(word, b"0x").unwrap_or(word), b':')
}

/// Whether each digit is a zero.
fn are_zeros(digits: &[u8]) -> bool
    ensures { result ≡ list_all (λ byte. byte == 48) digits.now }
{
    digits.iter().all(|byte| *byte == b'0')
}

/// Whether the first word of a text is the offset 0: four zeros or more, or zeros with `0x` in front or a colon at the end.
pub fn is_dump(text: &[u8]) -> bool
    ensures { result ≡ is_dump text.now }
{
    let word = first_word(text);
    let digits = offset_digits(word);
    are_zeros(digits) && (digits.len() >= 4 || (digits.len() >= 1 && digits.len() < word.len()))
}

/// The character that shows a byte: itself, or a full stop if it isn't printed.
fn character_of(byte: u8) -> u8
    ensures { result ≡ character_of byte }
{
    if b' ' <= byte && byte <= b'~' {
        byte
    } else {
        b'.'
    }
}

/// Whether characters show the bytes beside them.
fn each_shown(characters: &[u8], bytes: &[u8]) -> bool
    ensures { result ≡ list_all (λ pair. pair.0 == character_of pair.1) (zip characters.now bytes.now) }
{
    characters
        .iter()
        .zip(bytes.iter())
        .all(|(character, byte)| *character == character_of(*byte))
}

/// Whether characters show bytes, one each.
fn are_shown(characters: &[u8], bytes: &[u8]) -> bool
    ensures { result ≡ are_shown characters.now bytes.now }
{
    characters.len() == bytes.len() && each_shown(characters, bytes)
}

/// What stands between `| |` or `> <`.
fn inside_bars(text: &[u8]) -> Option<&[u8]>
    ensures { option_copied result ≡ inside_bars text.now }
{
    let length = text.len();
    if length >= 2
        && ((text[0] == b'|' && text[length - 1] == b'|')
            || (text[0] == b'>' && text[length - 1] == b'<'))
    {
        Some(&text[1..length - 1])
    } else {
        None
    }
}

/// Whether the characters of bytes stand in bars after white space.
fn shows_in_bars(end: &[u8], bytes: &[u8]) -> bool
    ensures { result ≡ shows_in_bars end.now bytes.now }
{
    let text = without_space(end);
    match inside_bars(text) {
        Some(inside) => text.len() < end.len() && are_shown(inside, bytes),
        None => false,
    }
}

/// Whether the end of a row shows the bytes before it: their characters stand there in bars, or after two blanks.
fn shows(end: &[u8], bytes: &[u8]) -> bool
    ensures { result ≡ shows end.now bytes.now }
{
    let place = end.len().saturating_sub(bytes.len());
    let (blanks, characters) = end.split_at(place);
    shows_in_bars(end, bytes)
        || (place >= 2 && is_empty_line(blanks) && are_shown(characters, bytes))
}

/// Whether some word of a row has several bytes: an earlier one, or the next byte stands beside the last.
fn is_long(had_long: bool, more: &[u8]) -> bool
    ensures { result ≡ (had_long || begins_word more.now) }
{
    had_long || (more.len() >= 1 && !more[0].is_ascii_whitespace())
}

/// The bytes of a row: words of hex, up to their characters. Without these each word is one byte.
fn read_row(alloc: Global, row: &[u8]) -> Result<Result<Vec<u8>, InputCause>, AllocError>
    ensures { IfOk result (λ read. MatchResult read (λ bytes. row_bytes false [] row.now ≡ Some bytes.items) (λ _. row_bytes false [] row.now ≡ None)) }
{
    let mut bytes = Vec::new(alloc);
    let mut rest = without_space(row);
    let mut had_long = false;
    while rest.len() >= 2 {
        let (pair, more) = rest.split_at(2);
        let Some(byte) = byte_of_pair(pair) else {
            return Ok(Err(InputCause::DumpLine));
        };
        bytes.push(byte)?;
        if shows(more, bytes.as_slice()) {
            return Ok(Ok(bytes));
        }
        had_long = is_long(had_long, more);
        rest = without_space(more);
    }
    if rest.len() >= 1 {
        return Ok(Err(InputCause::DumpLine));
    }
    if had_long {
        return Ok(Err(InputCause::WordOrder));
    }
    Ok(Ok(bytes))
}

/// The bytes of a line whose offset is the number of bytes before it.
fn read_line(
    alloc: Global,
    base: u32,
    size: u64,
    count: u64,
    line: &[u8],
) -> Result<Result<Vec<u8>, InputCause>, AllocError>
    requires { 0 < size }
    ensures { IfOk result (λ read. MatchResult read (λ bytes. line_bytes base size count line.now ≡ Some bytes.items) (λ _. line_bytes base size count line.now ≡ None)) }
{
    let (word, row) = split_word(without_space(without_last(line, b'\r')));
    if word.is_empty() {
        return Ok(Ok(Vec::new(alloc)));
    }
    match number_of(offset_digits(word), base) {
        Some(offset) if offset == count && (count % size == 0 || is_empty_line(row)) => {
            read_row(alloc, row)
        }
        _ => Ok(Err(InputCause::Offset)),
    }
}

/// The bytes of a dump whose offsets are in this base; or the number of the line that is none, and why.
fn read_rows(
    alloc: Global,
    text: &[u8],
    base: u32,
    size: u64,
) -> Result<Result<Vec<u8>, (u64, InputCause)>, AllocError>
    requires { 0 < size }
    ensures { IfOk result (λ read. MatchResult read (λ bytes. rows_bytes base size [] (lines_of text.now) ≡ Some bytes.items) (λ _. rows_bytes base size [] (lines_of text.now) ≡ None)) }
{
    let mut bytes = Vec::new(alloc);
    let mut number = 1u64;
    let mut rest = text;
    loop {
        let (line, below) = split_line(rest);
        match read_line(alloc, base, size, bytes.len() as u64, line)? {
            Ok(row) => bytes.extend_from_slice(row.as_slice())?,
            Err(cause) => return Ok(Err((number, cause))),
        }
        match below {
            Some(below) => rest = below,
            None => return Ok(Ok(bytes)),
        }
        number += 1;
    }
}

/// The descriptor in a dump, in the first base of offsets in which each line is read. If none is, the line at which the last one fails.
///
/// # Errors
/// [`InputCause::Offset`], [`InputCause::DumpLine`] or [`InputCause::WordOrder`] of a line; [`InputCause::NotWhole`];
/// [`InputCause::Memory`].
pub fn read_dump(alloc: Global, text: &[u8]) -> Result<Found, InputFault>
    ensures { Reads (dump_answer text.now) result }
{
    let mut furthest = (0, InputCause::DumpLine);
    let word = first_word(text);
    for base in bases_of(word) {
        match read_rows(alloc, text, *base, row_size(word))? {
            Ok(bytes) => return found_whole(bytes, Shape::Dump, None),
            Err(fault) => furthest = if fault.0 < furthest.0 {
                furthest
            } else {
                fault
            },
        }
    }
    Err(InputFault::of_line(furthest.0, furthest.1))
}
