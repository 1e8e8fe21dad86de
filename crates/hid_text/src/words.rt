//! The words of a line, and the bytes that words of hex encode.

ghost use Rattle.std.specs.Prelude.{◌≡◌, ◌+◌, ◌*◌, ◌/◌, ◌<◌, ◌≤◌, IfOk, OnOk, IfErr, IfSome, map, length, position, is_ok, [], ◌++◌};
ghost use Rattle.std.specs.Option.{option_map};
ghost use Rattle.std.specs.Result.{result_unwrap_or};
ghost use Rattle.hex.specs.Hex.{decode_of, hex_digit_value};
ghost use Rattle.arrayvec.specs.ArrayVec.{array_vec_len};
ghost use Rattle.hid_text.specs.Words.{Parts, TwoParts, is_blank, is_no_blank, words_of, after_word, two_words, three_words, look_up as under, hex_of, pair_of, GivesHex, byte_count};

use super::fault::LineFault;
use super::line::HEX_LIMIT;
use arrayvec::ArrayVec;
use std::alloc::{AllocError, Global};

/// Whether a byte is a space or a tab.
fn is_blank(byte: u8) -> bool
    ensures { result ≡ is_blank byte }
{
    byte == b' ' || byte == b'\t'
}

/// Where the first blank of a text stands.
fn blank(text: &[u8]) -> Option<usize>
    ensures { result ≡ position is_blank text.now }
{
    text.iter().position(|byte| is_blank(*byte))
}

/// Where the first byte of a text stands that is no blank.
pub fn no_blank(text: &[u8]) -> Option<usize>
    ensures { result ≡ position is_no_blank text.now }
{
    text.iter().position(|byte| !is_blank(*byte))
}

/// The first word of a text and what stands after it, where the text has a word. No memory is taken.
pub fn first_word(text: &[u8]) -> Option<(&[u8], &[u8])>
    ensures words { Parts (words_of text.now) (option_map (λ found. (found.0.now, words_of found.1.now)) result) }
    ensures room { IfSome result (λ found. length found.0.now + length found.1.now ≤ length text.now) }
    ensures some { IfSome result (λ found. 0 < length found.0.now) }
    ensures after { IfSome result (λ found. found.1.now ≡ after_word text.now) }
{
    let start = no_blank(text)?;
    let text = &text[start..];
    let end = blank(text).unwrap_or(text.len());
    Some((&text[..end], &text[end..]))
}

/// The first two words of a text and what stands after them, where the text has two.
pub fn first_two_words(text: &[u8]) -> Option<(&[u8], &[u8], &[u8])>
    ensures words { TwoParts (words_of text.now) (option_map (λ found. (found.0.now, found.1.now, words_of found.2.now)) result) }
    ensures room { IfSome result (λ found. length found.2.now ≤ length text.now) }
{
    let (first, text) = first_word(text)?;
    let (second, text) = first_word(text)?;
    Some((first, second, text))
}

/// The two words of a text; none where there are more or fewer.
#[tactic(auto, unfolding(crate::specs::Words::two_words))]
pub fn two_words(text: &[u8]) -> Option<(&[u8], &[u8])>
    ensures { option_map (λ words. (words.0.now, words.1.now)) result ≡ two_words (words_of text.now) }
{
    let (first, second, more) = first_two_words(text)?;
    match first_word(more) {
        Some(_) => None,
        None => Some((first, second)),
    }
}

/// The three words of a text; none where there are more or fewer.
#[tactic(auto, unfolding(crate::specs::Words::two_words, crate::specs::Words::three_words))]
pub fn three_words(text: &[u8]) -> Option<(&[u8], &[u8], &[u8])>
    ensures { option_map (λ words. (words.0.now, words.1.now, words.2.now)) result ≡ three_words (words_of text.now) }
{
    let (first, text) = first_word(text)?;
    let (second, third) = two_words(text)?;
    Some((first, second, third))
}

/// The words between spaces and tabs.
///
/// # Errors
/// Out of memory.
pub fn words_of_line(alloc: Global, line: &[u8]) -> Result<Vec<&[u8]>, AllocError>
    ensures { IfOk result (λ words. map (λ word. word.now) words.items ≡ words_of line.now) }
{
    let mut words = Vec::new(alloc);
    let mut rest = line;
    while let Some((word, more)) = first_word(rest) {
        words.push(word)?;
        rest = more;
    }
    Ok(words)
}

/// What a table has under a word.
pub fn look_up<T: Copy>(table: &[(&[u8], T)], word: &[u8]) -> Option<T>
    ensures { result ≡ under (map (λ entry. (entry.0.now, entry.1)) table.now) word.now }
{
    for entry in table {
        let (name, value) = *entry;
        if word == name {
            return Some(value);
        }
    }
    None
}

/// The value of a hex digit, of either case.
fn hex_digit(byte: u8) -> Option<u8>
    ensures value { result ≡ hex_digit_value byte }
    ensures small { IfSome result (λ digit. digit < 16) }
{
    match byte {
        b'0'..=b'9' => Some(byte - b'0'),
        b'A'..=b'F' => Some(byte - b'A' + 10),
        b'a'..=b'f' => Some(byte - b'a' + 10),
        _ => None,
    }
}

/// The byte that two hex digits of either case encode.
pub fn hex_pair(high: u8, low: u8) -> Option<u8>
    ensures { result ≡ pair_of high low }
{
    let high = hex_digit(high)?;
    let low = hex_digit(low)?;
    Some(high * 16 + low)
}

/// How many bytes hex words encode, one for two digits, whatever the digits are.
pub fn count_bytes(text: &[u8]) -> usize
    ensures { result ≡ byte_count (words_of text.now) }
{
    let mut count = 0;
    let mut rest = text;
    while let Some((word, more)) = first_word(rest) {
        count += word.len() / 2;
        rest = more;
    }
    count
}

/// The bytes that the hex words of a text encode, joined. No blank is a digit, so each pair of digits is read where it stands.
///
/// # Errors
/// [`LineFault::BadHex`] where a word has a bad digit, or an odd number of digits.
pub fn read_hex(text: &[u8]) -> Result<ArrayVec<u8, HEX_LIMIT>, LineFault>
    requires { length text.now ≤ 1024 }
    ensures bytes { GivesHex result (hex_of (words_of text.now)) }
    ensures count { IfOk result (λ bytes. array_vec_len bytes ≡ byte_count (words_of text.now)) }
{
    let mut bytes = ArrayVec::new();
    let mut rest = text;
    while let [high, behind @ ..] = rest {
        if is_blank(*high) {
            rest = behind;
            continue;
        }
        let [low, more @ ..] = behind else {
            return Err(LineFault::BadHex);
        };
        match hex_pair(*high, *low) {
            Some(byte) => bytes.push(byte),
            None => return Err(LineFault::BadHex),
        }
        rest = more;
    }
    Ok(bytes)
}
