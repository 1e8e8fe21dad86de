//! Strings of escapes.
//! ```text
//!   b'\x05\x01\t\x02..'                "\x05\x01" "\x09\x02"     echo -ne \\x05\\x01\\x09.. > report_desc
//! ```
//! The first backslash of a text begins the first byte of the first string. Strings stand side by side, with white space between.

ghost use Rattle.std.specs.List.{list_any};
ghost use Rattle.std.specs.Prelude.{◌≡◌, ◌<◌, ◌++◌, Some, None, IfOk, OnOk, MatchResult, length, option_to_list};
ghost use Rattle.std.specs.Option.{option_map};
ghost use Rattle.hid_input.specs.Answer.{Reads};
ghost use Rattle.hid_input.specs.declared.strings.Spot.TheVariants.{Inside};
ghost use Rattle.hid_input.specs.Strings.{letter_byte, hex_digit, is_quotation, goes_on, inside_after, escape_after, outside_after, spot_after, is_end, escapes_from, is_command, character_back, quote_of, body_of, behind_body, ends_word, is_file, is_redirect, is_array, joins_lines, last_line, stands_alone, strings_answer};

use crate::fault::{InputCause, InputFault};
use crate::found::{Found, Shape};
use crate::head::{is_head, is_tail_byte};
use crate::spelled::found_whole;
use crate::text::{is_empty_line, is_one_of, line_at, split_word, trimmed_text, without_space};
use std::alloc::{AllocError, Global};

/// What encloses escapes.
#[derive(Clone, Copy, Debug, PartialEq, Eq)]
pub enum Quote {
    /// This quotation mark, of text. It has escapes alone, as languages read `$` in it, and C digits after an escape (C11, 6.4.4.4).
    Text(u8),
    /// This quotation mark, of bytes: `b".."`.
    Bytes(u8),
    /// This quotation mark, of a shell's word.
    Shell(u8),
    /// Nothing, in a shell's word, which has two backslashes for one.
    Double,
    /// Nothing.
    Bare,
}

/// Where a character of strings stands.
#[derive(Clone, Copy, Debug, PartialEq, Eq)]
pub enum Spot {
    /// In a string.
    Inside(Quote),
    /// In a string, after an escape of hex.
    Behind(Quote),
    /// Behind the first of two backslashes.
    First,
    /// Behind a backslash.
    Backslash(Quote),
    /// Behind `\x`.
    Hex(Quote),
    /// Behind `\x` and a digit of this value.
    Digit(Quote, u8),
    /// Behind a quotation mark that closes a string.
    Closed,
    /// Between strings, after white space.
    Between,
    /// There, after a `b`.
    Prefix,
    /// Behind what ends the statement of the strings.
    Tail,
}

/// The byte of an escape of one letter.
fn letter_byte(letter: u8) -> Option<u8>
    ensures { result ≡ letter_byte letter }
{
    match letter {
        b't' => Some(9),
        b'n' => Some(10),
        b'r' => Some(13),
        b'\\' | b'"' | b'\'' => Some(letter),
        _ => None,
    }
}

/// The value of a hex digit.
fn hex_digit(byte: u8) -> Option<u8>
    ensures { result ≡ hex_digit byte }
{
    let digit = char::from(byte).to_digit(16)?;
    Some(digit as u8)
}

/// Whether a character is a quotation mark.
fn is_quotation(byte: u8) -> bool
    ensures { result ≡ is_quotation byte }
{
    byte == b'"' || byte == b'\''
}

/// The next spot, without a byte.
fn goes_on(spot: Spot) -> Option<(Spot, Option<u8>)>
    ensures { result ≡ goes_on spot }
{
    Some((spot, None))
}

/// The next spot after a character in a string, and the byte that it is.
fn inside_after(quote: Quote, byte: u8) -> Option<(Spot, Option<u8>)>
    ensures { result ≡ inside_after quote byte }
{
    match quote {
        Quote::Text(mark) | Quote::Bytes(mark) | Quote::Shell(mark) if byte == mark => {
            goes_on(Spot::Closed)
        }
        Quote::Double if byte == b'\\' => goes_on(Spot::First),
        _ if byte == b'\\' => goes_on(Spot::Backslash(quote)),
        Quote::Bytes(_) if b' ' <= byte && byte <= b'~' => Some((Spot::Inside(quote), Some(byte))),
        Quote::Bare if byte.is_ascii_whitespace() => goes_on(Spot::Tail),
        _ => None,
    }
}

/// The next spot after a backslash and a character, and the byte of an escape of one letter.
fn escape_after(quote: Quote, byte: u8) -> Option<(Spot, Option<u8>)>
    ensures { result ≡ escape_after quote byte }
{
    match quote {
        _ if byte == b'x' => Some((Spot::Hex(quote), None)),
        Quote::Text(_) | Quote::Bytes(_) => Some((Spot::Inside(quote), Some(letter_byte(byte)?))),
        _ => None,
    }
}

/// The next spot after a character outside of strings.
fn outside_after(spot: Spot, byte: u8) -> Option<(Spot, Option<u8>)>
    ensures { result ≡ outside_after spot byte }
{
    match spot {
        Spot::Closed if byte.is_ascii_whitespace() => goes_on(Spot::Between),
        Spot::Between if byte.is_ascii_whitespace() => goes_on(Spot::Between),
        Spot::Between if is_quotation(byte) => goes_on(Spot::Inside(Quote::Text(byte))),
        Spot::Between if byte == b'b' => goes_on(Spot::Prefix),
        Spot::Prefix if is_quotation(byte) => goes_on(Spot::Inside(Quote::Bytes(byte))),
        Spot::Closed | Spot::Between | Spot::Tail if is_tail_byte(byte) => goes_on(Spot::Tail),
        _ => None,
    }
}

/// The next spot after a character, and the byte that ends with it, if strings go on so.
fn spot_after(spot: Spot, byte: u8) -> Option<(Spot, Option<u8>)>
    ensures { result ≡ spot_after spot byte }
{
    match spot {
        Spot::Behind(Quote::Text(_)) if byte.is_ascii_hexdigit() => None,
        Spot::Inside(quote) | Spot::Behind(quote) => inside_after(quote, byte),
        Spot::First if byte == b'\\' => Some((Spot::Backslash(Quote::Double), None)),
        Spot::First => None,
        Spot::Backslash(quote) => escape_after(quote, byte),
        Spot::Hex(quote) => Some((Spot::Digit(quote, hex_digit(byte)?), None)),
        Spot::Digit(quote, high) => {
            let low = hex_digit(byte)?;
            Some((Spot::Behind(quote), Some((high % 16) * 16 + low % 16)))
        }
        _ => outside_after(spot, byte),
    }
}

/// Whether strings may end there.
fn is_end(spot: Spot) -> bool
    ensures { result ≡ is_end spot }
{
    matches!(
        spot,
        Spot::Behind(Quote::Double | Quote::Bare) | Spot::Closed | Spot::Between | Spot::Tail
    )
}

/// Adds a byte, if there is one.
fn add_some(bytes: &mut Vec<u8>, byte: Option<u8>) -> Result<(), AllocError>
    ensures { OnOk result (bytes.new.items ≡ bytes.old.items ++ option_to_list byte) }
{
    if let Some(byte) = byte {
        bytes.push(byte)?;
    }
    Ok(())
}

/// The bytes of strings up to the end of a text, of which the first character stands in one, or where they don't go on so.
fn read_escapes(
    alloc: Global,
    text: &[u8],
    quote: Quote,
) -> Result<Result<Vec<u8>, usize>, AllocError>
    ensures { IfOk result (λ read. MatchResult read (λ bytes. escapes_from (Inside quote) text.now ≡ Some bytes.items) (λ _. escapes_from (Inside quote) text.now ≡ None)) }
{
    let mut bytes = Vec::new(alloc);
    let mut spot = Spot::Inside(quote);
    for (at, byte) in text.iter().enumerate() {
        let Some((next, found)) = spot_after(spot, *byte) else {
            return Ok(Err(at));
        };
        add_some(&mut bytes, found)?;
        spot = next;
    }
    if is_end(spot) {
        Ok(Ok(bytes))
    } else {
        Ok(Err(text.len()))
    }
}

/// The commands of a shell that write the bytes of escapes.
const COMMANDS: [&[u8]; 5] = [
    b"echo -ne",
    b"echo -en",
    b"echo -n -e",
    b"echo -e -n",
    b"printf",
];

/// Whether a text is such a command.
fn is_command(text: &[u8]) -> bool
    ensures { result ≡ is_command text.now }
{
    is_one_of(trimmed_text(text), &COMMANDS)
}

/// The character so many before the end of a text, or a blank.
fn character_back(text: &[u8], count: usize) -> u8
    ensures { result ≡ character_back text.now count }
{
    if count < text.len() {
        text[text.len() - 1 - count]
    } else {
        b' '
    }
}

/// What encloses the first escape after a text, and what stands before that.
fn quote_of(text: &[u8]) -> Option<(Quote, &[u8])>
    ensures { option_map (λ found. (found.0, found.1.now)) result ≡ quote_of text.now }
{
    let mark = character_back(text, 0);
    let head = &text[..text.len().saturating_sub(1)];
    if is_quotation(mark) {
        if character_back(text, 1) == b'b' {
            Some((Quote::Bytes(mark), &text[..text.len().saturating_sub(2)]))
        } else if is_command(head) {
            Some((Quote::Shell(mark), &[]))
        } else {
            Some((Quote::Text(mark), head))
        }
    } else if is_command(text) {
        Some((Quote::Double, &[]))
    } else if is_empty_line(text) {
        Some((Quote::Bare, &[]))
    } else {
        None
    }
}

/// The strings of a text, and what a shell has after its word.
fn split_body(text: &[u8], quote: Quote) -> (&[u8], &[u8])
    ensures body { result.0.now ≡ body_of quote text.now }
    ensures behind { result.1.now ≡ behind_body quote text.now }
{
    match quote {
        Quote::Shell(_) | Quote::Double => split_word(text),
        _ => (text, &[]),
    }
}

/// Whether a character ends a word of a shell.
fn ends_word(byte: u8) -> bool
    ensures { result ≡ ends_word byte }
{
    byte.is_ascii_whitespace() || matches!(byte, b'>' | b';' | b'|' | b'&')
}

/// Whether a text has such a character.
fn has_end(text: &[u8]) -> bool
    ensures { result ≡ list_any ends_word text.now }
{
    text.iter().any(|byte| ends_word(*byte))
}

/// Whether a text is one word of a shell that names a file.
fn is_file(text: &[u8]) -> bool
    ensures { result ≡ is_file text.now }
{
    !text.is_empty() && !has_end(text)
}

/// The last line of a text that has other characters than white space.
fn last_line(text: &[u8]) -> u64
    ensures { result ≡ last_line text.now }
{
    line_at(text, text.trim_ascii_end().len())
}

/// Whether a shell writes to a file what stands before a text: `> FILE` in the same line, or nothing.
fn is_redirect(text: &[u8]) -> bool
    ensures { result ≡ is_redirect text.now }
{
    match trimmed_text(text) {
        [] => true,
        [b'>', file @ ..] => last_line(text) == 1 && is_file(without_space(file)),
        _ => false,
    }
}

/// Whether a head has a bracket or `*`, as that of an array.
fn is_array(head: &[u8]) -> bool
    ensures { result ≡ is_array head.now }
{
    head.iter()
        .any(|byte| matches!(*byte, b']' | b'*' | b'(' | b'['))
}

/// Whether a language takes strings of several lines after a head for one: C, which has `[]` or `*` there and `;` at the end, or Python in
/// brackets. Strings without a head are those of no language.
fn joins_lines(head: &[u8], text: &[u8]) -> bool
    ensures { result ≡ joins_lines head.now text.now }
{
    if is_array(head) {
        is_tail_byte(character_back(trimmed_text(text), 0))
    } else {
        is_empty_line(head)
    }
}

/// Whether nothing beside strings from a place on, before this many bytes and after a shell's word, changes them.
fn stands_alone(text: &[u8], place: usize, head: &[u8], behind: &[u8], count: u64) -> bool
    ensures { result ≡ stands_alone text.now place head.now behind.now count }
{
    if line_at(text, place) != last_line(text) && !joins_lines(head, text) {
        return false;
    }
    is_head(head, count) && is_redirect(behind)
}

/// The descriptor in the strings of a text, whose first backslash stands at this place.
///
/// # Errors
/// [`InputCause::NoByte`], [`InputCause::Beside`], [`InputCause::NotWhole`], [`InputCause::Memory`].
pub fn read_strings(alloc: Global, text: &[u8], place: usize) -> Result<Found, InputFault>
    requires { place < length text.now }
    ensures { Reads (strings_answer text.now place) result }
{
    let (front, rest) = text.split_at(place);
    let Some((quote, head)) = quote_of(front) else {
        return Err(InputFault::no_byte(text, place));
    };
    let (body, behind) = split_body(rest, quote);
    let bytes = match read_escapes(alloc, body, quote)? {
        Ok(bytes) => bytes,
        Err(at) => return Err(InputFault::no_byte(text, place.saturating_add(at))),
    };
    let line = line_at(text, place);
    if !stands_alone(text, place, head, behind, bytes.len() as u64) {
        return Err(InputFault::of_line(line, InputCause::Beside));
    }
    found_whole(bytes, Shape::Escapes, Some((line, last_line(text))))
}
