//! Bytes as words: pairs of hex digits, or a name. Where `*N` follows, the word is repeated, and `@@` in it is the number of
//! the turn, from 01 on.

use crate::fault::RowFault;
use crate::table::Table;

/// The byte of a pair of digits, in a turn.
fn byte_of(pair: &str, turn: u8) -> Result<u8, RowFault> {
    if pair == "@@" {
        return Ok(turn);
    }
    Ok(u8::from_str_radix(pair, 16)?)
}

fn push_digits(bytes: &mut Vec<u8>, digits: &str, turn: u8) -> Result<(), RowFault> {
    if digits.len() % 2 != 0 {
        return Err(RowFault::Unread);
    }
    for at in 0..digits.len() / 2 {
        let pair = digits.get(2 * at..2 * at + 2).unwrap_or("");
        bytes.extend_from_slice(&[byte_of(pair, turn)?])?;
    }
    Ok(())
}

/// The digits that a line gives to this name. Most lines fail at their first character, so that a word is looked up in little time.
fn digits_in<'a>(line: &'a str, name: &str) -> Option<&'a str> {
    line.strip_prefix(name)?.trim().strip_prefix("=")
}

/// The digits that these lines give to this name.
fn named<'a>(names: &'a str, name: &str) -> Option<&'a str> {
    for line in names.lines() {
        if let Some(digits) = digits_in(line, name) {
            return Some(digits);
        }
    }
    None
}

fn push_turn(bytes: &mut Vec<u8>, digits: &str, turn: u8) -> Result<(), RowFault> {
    for word in digits.split_whitespace() {
        push_digits(bytes, word, turn)?;
    }
    Ok(())
}

fn push_times(bytes: &mut Vec<u8>, digits: &str, times: usize) -> Result<(), RowFault> {
    let mut turn = 0u8;
    for _ in 0..times {
        turn = turn.wrapping_add(1);
        push_turn(bytes, digits, turn)?;
    }
    Ok(())
}

/// Appends the bytes of a word, which may be a name of these.
pub fn push_word(bytes: &mut Vec<u8>, names: &str, word: &str) -> Result<(), RowFault> {
    let (word, times) = word.split_once('*').unwrap_or((word, "1"));
    let digits = named(names, word).unwrap_or(word);
    push_times(bytes, digits, times.parse()?)
}

fn push_words(bytes: &mut Vec<u8>, table: &Table<'_>, words: &str) -> Result<(), RowFault> {
    for word in words.split_whitespace() {
        push_word(bytes, table.names, word)?;
    }
    Ok(())
}

/// The bytes that are encoded by words.
pub fn bytes_of(table: &Table<'_>, words: &str) -> Result<Vec<u8>, RowFault> {
    let mut bytes = Vec::new(table.alloc);
    push_words(&mut bytes, table, words)?;
    Ok(bytes)
}
