//! Words of digits, and the bytes that they spell.

ghost use Rattle.std.specs.Prelude.{◌≡◌, ◌<◌, ◌≤◌, ◌+◌, length, if◌then◌else◌, IfOk, IfSome, Some, is_none, false, position};
ghost use Rattle.std.specs.Option.{option_map};
ghost use Rattle.std.specs.Char.{digit_value};
ghost use Rattle.hid_input.specs.Words.{is_digit_of, number_of, byte_in_base, byte_of_pair, element_byte, hex_byte, single_byte, after_joint, run_bytes, word_bytes, is_separator, is_no_separator, words_of, text_bytes, IsAdded, Parts};

use std::alloc::AllocError;

/// How a word spells bytes.
#[derive(Clone, Copy, Debug, PartialEq, Eq)]
pub enum Reading {
    /// One byte: `05`.
    Pairs,
    /// Two hex digits for each byte: `05`, `0501`.
    Runs,
    /// The same, with a colon or a hyphen after a byte: `05:01`, `05-01`.
    Joined,
    /// One byte: `0x05`, `05h`, or a decimal number.
    Elements,
}

/// What parts words.
#[derive(Clone, Copy, Debug, PartialEq, Eq)]
pub enum Parting {
    /// White space.
    Space,
    /// White space and commas.
    Commas,
}

/// The value of a digit, if it is one in this base.
fn digit_of(byte: u8, base: u32) -> Option<u32>
    ensures { result ≡ (if is_digit_of base byte then Some (digit_value byte) else None) }
{
    if base > 36 || base < 2 {
        return None;
    }
    char::from(byte).to_digit(base)
}

/// The number that digits spell, or the greatest of 64 bits where it is over that; none where there is no digit, or another
/// character.
#[tactic(auto, unfolding(crate::specs::Words::number_of))]
pub fn number_of(word: &[u8], base: u32) -> Option<u64>
    ensures { result ≡ number_of base word.now }
{
    if word.is_empty() {
        return None;
    }
    let mut number = 0u64;
    for byte in word {
        let digit = digit_of(*byte, base)?;
        number = number
            .saturating_mul(u64::from(base))
            .saturating_add(u64::from(digit));
    }
    Some(number)
}

/// The byte that digits spell.
fn byte_of(word: &[u8], base: u32) -> Option<u8>
    ensures { result ≡ byte_in_base base word.now }
{
    let number = number_of(word, base)?;
    if number <= 255 {
        Some(number as u8)
    } else {
        None
    }
}

/// The byte that two hex digits spell.
pub fn byte_of_pair(word: &[u8]) -> Option<u8>
    ensures { result ≡ byte_of_pair word.now }
{
    let [high, low] = word else {
        return None;
    };
    let high = char::from(*high).to_digit(16)?;
    let low = char::from(*low).to_digit(16)?;
    Some((high * 16 + low) as u8)
}

/// The byte that one or two hex digits spell.
#[tactic(auto, unfolding(crate::specs::Words::hex_byte))]
fn hex_byte(digits: &[u8]) -> Option<u8>
    ensures { result ≡ hex_byte digits.now }
{
    if digits.len() <= 2 {
        byte_of(digits, 16)
    } else {
        None
    }
}

/// The byte of an element of a list: in hex by `0x` and one or two digits, or by `h` after a digit or two characters; else in decimal,
/// without zeros in front, which C takes for octal (C11, 6.4.4.1).
pub fn element_byte(word: &[u8]) -> Option<u8>
    ensures { result ≡ element_byte word.now }
{
    match word {
        [b'0', b'x' | b'X', digits @ ..] => hex_byte(digits),
        [first, .., b'h' | b'H'] if word.len() == 3 || first.is_ascii_digit() => {
            byte_of(&word[..word.len() - 1], 16)
        }
        [b'0', _, ..] => None,
        _ => byte_of(word, 10),
    }
}

/// Adds a byte; false where there is none.
fn add_byte(bytes: &mut Vec<u8>, byte: Option<u8>) -> Result<bool, AllocError>
    ensures { IfOk result (λ is_read. IsAdded bytes.old.items (single_byte byte) is_read bytes.new.items) }
{
    match byte {
        Some(byte) => {
            bytes.push(byte)?;
            Ok(true)
        }
        None => Ok(false),
    }
}

/// A text without the colon or the hyphen before it, if those may join bytes.
fn after_joint(text: &[u8], is_joined: bool) -> &[u8]
    ensures rest { result.now ≡ after_joint is_joined text.now }
    ensures room { length result.now ≤ length text.now }
{
    match text {
        [b':' | b'-', rest @ ..] if is_joined => rest,
        _ => text,
    }
}

/// Adds the bytes of a run of hex digits, two for each; false where it is none.
fn add_run(bytes: &mut Vec<u8>, run: &[u8], is_joined: bool) -> Result<bool, AllocError>
    ensures { IfOk result (λ is_read. IsAdded bytes.old.items (run_bytes is_joined run.now) is_read bytes.new.items) }
{
    let mut rest = run;
    while rest.len() >= 2 {
        let (pair, more) = rest.split_at(2);
        match byte_of_pair(pair) {
            Some(byte) => bytes.push(byte)?,
            None => return Ok(false),
        }
        rest = after_joint(more, is_joined);
    }
    Ok(rest.is_empty())
}

/// Whether a byte parts words.
fn is_separator(byte: u8, parting: Parting) -> bool
    ensures { result ≡ is_separator parting byte }
{
    match parting {
        Parting::Space => byte.is_ascii_whitespace(),
        Parting::Commas => byte.is_ascii_whitespace() || byte == b',',
    }
}

/// Where the first separator of a text stands.
fn separator(text: &[u8], parting: Parting) -> Option<usize>
    ensures { result ≡ position (is_separator parting) text.now }
{
    text.iter().position(|byte| is_separator(*byte, parting))
}

/// Where the first byte of a text stands that is no separator.
fn no_separator(text: &[u8], parting: Parting) -> Option<usize>
    ensures { result ≡ position (is_no_separator parting) text.now }
{
    text.iter().position(|byte| !is_separator(*byte, parting))
}

/// The next word of a text and what stands after it, if it has one.
pub fn next_word(text: &[u8], parting: Parting) -> Option<(&[u8], &[u8])>
    ensures words { Parts parting (words_of parting text.now) (option_map (λ found. (found.0.now, found.1.now)) result) }
    ensures room { IfSome result (λ found. length found.0.now + length found.1.now ≤ length text.now) }
    ensures some { IfSome result (λ found. 0 < length found.0.now) }
{
    let start = no_separator(text, parting)?;
    let text = &text[start..];
    let end = separator(text, parting).unwrap_or(text.len());
    Some((&text[..end], &text[end..]))
}

/// Adds the bytes of a word; false where it has none.
fn add_word(bytes: &mut Vec<u8>, word: &[u8], reading: Reading) -> Result<bool, AllocError>
    ensures { IfOk result (λ is_read. IsAdded bytes.old.items (word_bytes reading word.now) is_read bytes.new.items) }
{
    match reading {
        Reading::Pairs => add_byte(bytes, byte_of_pair(word)),
        Reading::Runs => add_run(bytes, word, false),
        Reading::Joined => add_run(bytes, word, true),
        Reading::Elements => add_byte(bytes, element_byte(word)),
    }
}

/// Adds the bytes of the words of a text; if a word has none, how much of the text stands from there on.
///
/// # Errors
/// Out of memory.
pub fn add_words(
    bytes: &mut Vec<u8>,
    text: &[u8],
    reading: Reading,
    parting: Parting,
) -> Result<Option<usize>, AllocError>
    ensures { IfOk result (λ left. IsAdded bytes.old.items (text_bytes reading parting text.now) (is_none left) bytes.new.items) }
{
    let mut rest = text;
    while let Some((word, more)) = next_word(rest, parting) {
        if !add_word(bytes, word, reading)? {
            return Ok(Some(word.len().saturating_add(more.len())));
        }
        rest = more;
    }
    Ok(None)
}
