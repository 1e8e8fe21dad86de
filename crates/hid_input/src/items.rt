//! The items of a report descriptor as `lsusb -v` prints them, below `Report Descriptor: (length is 50)`.
//! ```text
//!             Item(Global): Usage Page, data= [ 0x01 ] 1
//!                             Generic Desktop Controls
//! ```

ghost use Rattle.std.specs.Prelude.{◌≡◌, map, IfOk, not};
ghost use Rattle.std.specs.List.{list_all, list_any};
ghost use Rattle.std.specs.Char.{is_ascii_hexdigit};
ghost use Rattle.std.specs.Option.{option_map, option_copied};
ghost use Rattle.hid_input.specs.Words.{IsAdded};
ghost use Rattle.hid_input.specs.Items.{prefix_in, prefix_of, data_words, item_parts, size_code, item_bytes, item_line_bytes, length_in, is_unavailable, is_long_hex, has_long_hex, is_code, is_lsusb};

use crate::text::{behind_part, split_at_character, trimmed_text, without_space};
use crate::words::{Parting, Reading, add_words, number_of};
use std::alloc::{AllocError, Global};

/// The names of items in lsusb, after `Item(` up to the comma, and their prefixes without the size of their data
/// (HID 1.11, 6.2.2.4, 6.2.2.7 and 6.2.2.8).
#[rattlefmt::skip]
const NAMES: [(&[u8], u8); 27] = [
    (b"Main  ): Input", 0x80), (b"Main  ): Output", 0x90), (b"Main  ): Feature", 0xB0), (b"Main  ): Collection", 0xA0),
    (b"Main  ): End Collection", 0xC0), (b"Global): Usage Page", 0x04), (b"Global): Logical Minimum", 0x14),
    (b"Global): Logical Maximum", 0x24), (b"Global): Physical Minimum", 0x34), (b"Global): Physical Maximum", 0x44),
    (b"Global): Unit Exponent", 0x54), (b"Global): Unit", 0x64), (b"Global): Report Size", 0x74), (b"Global): Report ID", 0x84),
    (b"Global): Report Count", 0x94), (b"Global): Push", 0xA4), (b"Global): Pop", 0xB4), (b"Local ): Usage", 0x08),
    (b"Local ): Usage Minimum", 0x18), (b"Local ): Usage Maximum", 0x28), (b"Local ): Designator Index", 0x38),
    (b"Local ): Designator Minimum", 0x48), (b"Local ): Designator Maximum", 0x58), (b"Local ): String Index", 0x78),
    (b"Local ): String Minimum", 0x88), (b"Local ): String Maximum", 0x98), (b"Local ): Delimiter", 0xA8),
];

/// The prefix beside a name in a table.
fn prefix_in(table: &[(&[u8], u8)], wanted: &[u8]) -> Option<u8>
    ensures { result ≡ prefix_in (map (λ row. (row.0.now, row.1)) table.now) wanted.now }
{
    for (name, prefix) in table {
        if *name == wanted {
            return Some(*prefix);
        }
    }
    None
}

/// The prefix of the items with this name.
#[tactic(auto, unfolding(crate::specs::Items::prefix_of))]
fn prefix_of(name: &[u8]) -> Option<u8>
    ensures { result ≡ prefix_of name.now }
{
    prefix_in(&NAMES, name)
}

/// The words of an item's data.
#[tactic(auto, unfolding(crate::specs::Items::data_words))]
fn data_words(text: &[u8]) -> Option<&[u8]>
    ensures { option_copied result ≡ data_words text.now }
{
    if text == b" data=none".as_slice() {
        return Some(b"");
    }
    let (words, _) = split_at_character(behind_part(text, b" data= [")?, b']')?;
    Some(words)
}

/// The prefix of an item, and the words of its data.
#[tactic(auto, unfolding(crate::specs::Items::item_parts))]
fn item_parts(item: &[u8]) -> Option<(u8, &[u8])>
    ensures { option_map (λ parts. (parts.0, parts.1.now)) result ≡ item_parts item.now }
{
    let (name, data) = split_at_character(item, b',')?;
    Some((prefix_of(name)?, data_words(data)?))
}

/// The code of the size of an item's data (HID 1.11, 6.2.2.2).
fn size_code(size: usize) -> Option<u8>
    ensures { result ≡ size_code size }
{
    match size {
        0..=2 => Some(size as u8),
        4 => Some(3),
        _ => None,
    }
}

/// Adds the bytes of an item; false where it is none.
fn add_item(alloc: Global, bytes: &mut Vec<u8>, item: &[u8]) -> Result<bool, AllocError>
    ensures { IfOk result (λ is_read. IsAdded bytes.old.items (item_bytes item.now) is_read bytes.new.items) }
{
    let Some((prefix, words)) = item_parts(item) else {
        return Ok(false);
    };
    let mut data = Vec::new(alloc);
    if add_words(&mut data, words, Reading::Elements, Parting::Space)?.is_some() {
        return Ok(false);
    }
    let Some(code) = size_code(data.len()) else {
        return Ok(false);
    };
    bytes.push(prefix | code)?;
    bytes.extend_from_slice(data.as_slice())?;
    Ok(true)
}

/// Adds the bytes of a line of an item; false where it has none. Of other lines nothing is added.
///
/// # Errors
/// Out of memory.
pub fn add_item_line(alloc: Global, bytes: &mut Vec<u8>, line: &[u8]) -> Result<bool, AllocError>
    ensures { IfOk result (λ is_read. IsAdded bytes.old.items (item_line_bytes line.now) is_read bytes.new.items) }
{
    match behind_part(trimmed_text(line), b"Item(") {
        Some(item) => add_item(alloc, bytes, item),
        None => Ok(true),
    }
}

/// The length in `Report Descriptor: (length is 50)`.
pub fn length_in(line: &[u8]) -> Option<u64>
    ensures { result ≡ length_in line.now }
{
    let behind = behind_part(trimmed_text(line), b"Report Descriptor: (length is ")?;
    let (number, _) = split_at_character(behind, b')')?;
    number_of(number, 10)
}

/// Whether lsusb says in a line that it couldn't read a report descriptor.
pub fn is_unavailable(line: &[u8]) -> bool
    ensures { result ≡ is_unavailable line.now }
{
    trimmed_text(line) == b"** UNAVAILABLE **".as_slice()
}

/// Whether a word has hex digits alone.
fn is_hex(word: &[u8]) -> bool
    ensures { result ≡ list_all is_ascii_hexdigit word.now }
{
    word.iter().all(|byte| byte.is_ascii_hexdigit())
}

/// Whether a word is as long as a descriptor in hex, which has seven bytes at least.
fn is_long_hex(word: &[u8]) -> bool
    ensures { result ≡ is_long_hex word.now }
{
    word.len() >= 14 && is_hex(word)
}

/// Whether a line has such a word.
fn has_long_hex(line: &[u8]) -> bool
    ensures { result ≡ has_long_hex line.now }
{
    line.split(|byte| byte.is_ascii_whitespace())
        .any(|word| is_long_hex(word))
}

/// Whether a character stands in code, but in none of lsusb's lines beside those of items.
fn is_code(byte: u8) -> bool
    ensures { result ≡ is_code byte }
{
    matches!(
        byte,
        b'{' | b'\\' | b'=' | b'"' | b'\'' | b'<' | b'|' | b'%'
    )
}

/// Whether a line has such a character.
fn has_code(line: &[u8]) -> bool
    ensures { result ≡ list_any is_code line.now }
{
    line.iter().any(|byte| is_code(*byte))
}

/// Whether a line is one that lsusb may print: of an item, or one that begins with no digit, and has no character of code and no long word
/// of hex.
pub fn is_lsusb(line: &[u8]) -> bool
    ensures { result ≡ is_lsusb line.now }
{
    if trimmed_text(line).starts_with(b"Item(") {
        return true;
    }
    match without_space(line) {
        [b'0'..=b'9', ..] => false,
        _ => !has_code(line) && !has_long_hex(line),
    }
}
