//! What may stand before a list or strings and after them: nothing that changes bytes.
//! ```text
//!   static const u8 d[20] = {        let d: [u8; 20] = [        {"descriptor": [        d := []byte{        return bytes([
//!   ----------------------- -        ---------------- -         ------------- -         --- --------        --------------
//!        a declaration, = or :, and words that change nothing                                               those words alone
//! ```

ghost use Rattle.std.specs.Prelude.{◌≡◌, ◌<◌, length, not, position, IfSome};
ghost use Rattle.std.specs.List.{list_all, slice_split};
ghost use Rattle.hid_input.specs.Head.{is_type, parts_types, are_types, after_number, after_other, part_after, is_declaration, is_declared, is_sign, last_place, is_head, is_tail_byte, is_value, is_length, is_tail};
ghost use Rattle.hid_input.specs.Text.{split_at};

use crate::text::{is_empty_line, is_one_of, split_at_character, trimmed_text};
use crate::words::number_of;

/// Words of languages that change no bytes of a list or strings after them.
#[rattlefmt::skip]
const TYPES: [&[u8]; 13] = [
    b"bytes", b"bytearray", b"byte", b"new", b"Uint8Array", b"u8", b"uint8_t", b"BYTE", b"const", b"unsigned", b"char", b"return",
    b"vec!",
];

/// Whether a word is one of those, or none.
fn is_type(word: &[u8]) -> bool
    ensures { result ≡ is_type word.now }
{
    word.is_empty() || is_one_of(word, &TYPES)
}

/// Whether a character parts such words: white space, or a bracket.
fn parts_types(byte: u8) -> bool
    ensures { result ≡ parts_types byte }
{
    byte.is_ascii_whitespace() || matches!(byte, b'{' | b'[' | b'(' | b']')
}

/// Whether a text has nothing but such words.
fn are_type_words(text: &[u8]) -> bool
    ensures { result ≡ list_all is_type (slice_split parts_types text.now) }
{
    text.split(|byte| parts_types(*byte))
        .all(|word| is_type(word))
}

/// Whether a text has nothing but such words; or `&` alone, as a slice of Rust has.
fn are_types(text: &[u8]) -> bool
    ensures { result ≡ are_types text.now }
{
    are_type_words(text) || trimmed_text(text) == b"&".as_slice()
}

/// What stands last in a declaration.
#[derive(Clone, Copy, Debug, PartialEq, Eq)]
enum Part {
    /// White space, or a mark.
    Mark,
    /// A name.
    Name,
    /// A bracket `[` after a name, or a semicolon: a number of elements may follow.
    Open,
    /// A number of elements, so far.
    Number(u64),
    /// A bracket `]`.
    Closed,
}

/// What stands last after a number of elements and one more character. None of the numbers is less than this one.
fn after_number(number: u64, byte: u8, least: u64) -> Option<Part>
    ensures { result ≡ after_number least number byte }
{
    match byte {
        b'0'..=b'9' => Some(Part::Number(
            number
                .saturating_mul(10)
                .saturating_add(u64::from(byte % 16)),
        )),
        b']' if least <= number => Some(Part::Closed),
        _ => None,
    }
}

/// What stands last after another part and one more character.
fn after_other(part: Part, byte: u8) -> Option<Part>
    ensures { result ≡ after_other part byte }
{
    match byte {
        b'0'..=b'9' if part == Part::Name => Some(Part::Name),
        b'0'..=b'9' if part == Part::Open => Some(Part::Number(u64::from(byte % 16))),
        b'0'..=b'9' => None,
        b']' => Some(Part::Closed),
        b'[' if part == Part::Name || part == Part::Closed => Some(Part::Open),
        b';' => Some(Part::Open),
        b'[' | b'<' | b'>' | b'{' | b':' | b'&' | b'*' | b'"' | b'\'' => Some(Part::Mark),
        _ if byte.is_ascii_whitespace() && part == Part::Open => Some(Part::Open),
        _ if byte.is_ascii_whitespace() => Some(Part::Mark),
        _ if byte.is_ascii_alphabetic() || byte == b'_' || byte >= 128 => Some(Part::Name),
        _ => None,
    }
}

/// What stands last after one more character, if a declaration goes on so.
fn part_after(part: Part, byte: u8, least: u64) -> Option<Part>
    ensures { result ≡ part_after least part byte }
{
    match part {
        Part::Number(number) => after_number(number, byte, least),
        _ => after_other(part, byte),
    }
}

/// How many names a declaration has at most: fewer than a descriptor has bytes.
const NAMES: u8 = 6;

/// Whether a text is a declaration: a few names, marks, and numbers of elements, of which none is less than this one.
fn is_declaration(text: &[u8], least: u64) -> bool
    ensures { result ≡ is_declaration least text.now }
{
    let mut part = Part::Mark;
    let mut count = 0u8;
    for byte in text {
        let Some(next) = part_after(part, *byte, least) else {
            return false;
        };
        if next == Part::Name && part != Part::Name {
            count = count.saturating_add(1);
        }
        part = next;
    }
    count <= NAMES
}

/// Whether a declaration ends before this sign as one of what stands after: with a name, perhaps in quotation marks, or with `]`;
/// with a colon before `=`.
fn is_declared(text: &[u8], sign: u8) -> bool
    ensures { result ≡ is_declared sign text.now }
{
    let name = trimmed_text(text);
    if name.is_empty() {
        return false;
    }
    match name[name.len() - 1] {
        b':' => sign == b'=',
        b'_' | b']' | b'"' | b'\'' | 128.. => true,
        last => last.is_ascii_alphanumeric(),
    }
}

/// Where the last sign of a declaration stands, `=` or `:`.
fn sign_place(text: &[u8]) -> Option<usize>
    ensures place { result ≡ last_place is_sign text.now }
    ensures bound { IfSome result (λ place. place < length text.now) }
{
    let mut found = None;
    for (at, byte) in text.iter().enumerate() {
        if *byte == b'=' || *byte == b':' {
            found = Some(at);
        }
    }
    found
}

/// Whether a text may stand before this many bytes: it changes none of them.
pub fn is_head(text: &[u8], count: u64) -> bool
    ensures { result ≡ is_head count text.now }
{
    match sign_place(text) {
        Some(place) => {
            let (left, right) = (&text[..place], &text[place + 1..]);
            is_declaration(left, count) && is_declared(left, text[place]) && are_types(right)
        }
        None => are_types(text),
    }
}

/// Whether a character may stand after bytes: white space, a bracket that closes, or the end of a statement.
pub fn is_tail_byte(byte: u8) -> bool
    ensures { result ≡ is_tail_byte byte }
{
    byte.is_ascii_whitespace() || matches!(byte, b')' | b']' | b'}' | b'>' | b';' | b',')
}

/// Whether a text is a number, and the end of its statement.
fn is_value(text: &[u8], count: u64) -> bool
    ensures { result ≡ is_value count (split_at 59 text.now) }
{
    match split_at_character(text, b';') {
        Some((number, rest)) => {
            number_of(trimmed_text(number), 10) == Some(count) && is_empty_line(rest)
        }
        None => false,
    }
}

/// Whether a text declares a number, that of the bytes before it, as `xxd -i` does: `unsigned int d_len = 50;`.
fn is_length(text: &[u8], count: u64) -> bool
    ensures { result ≡ is_length count text.now }
{
    match split_at_character(text, b'=') {
        Some((left, right)) if text.starts_with(b"unsigned int ") => {
            is_declaration(left, 0) && is_declared(left, b'=') && is_value(right, count)
        }
        _ => false,
    }
}

/// Where the first character stands that may not.
fn tail_place(text: &[u8]) -> Option<usize>
    ensures place { result ≡ position (λ byte. not (is_tail_byte byte)) text.now }
    ensures bound { IfSome result (λ place. place < length text.now) }
{
    text.iter().position(|byte| !is_tail_byte(*byte))
}

/// Whether a text may stand after this many bytes: it changes none of them.
pub fn is_tail(text: &[u8], count: u64) -> bool
    ensures { result ≡ is_tail count text.now }
{
    match tail_place(text) {
        Some(place) => is_length(&text[place..], count),
        None => true,
    }
}
