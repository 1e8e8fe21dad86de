//! The name of a usage that a misspelt one is near to.

ghost use Rattle.std.specs.Prelude.{◌≤◌, length};

use hid_names::{UsageName, page_name, usage_name};
use hid_text::read_number;
use std::alloc::{AllocError, Global};

/// The last page of the tables that has names.
const LAST_PAGE: u16 = 0xF0;

/// The greatest ID of the tables' rows.
const LAST_ROW: u16 = 0x1FFF;

/// A byte of a name or of a word: blanks are written `_`, and case means nothing.
fn fold(byte: u8) -> u8 {
    match byte {
        b' ' => b'_',
        b'A'..=b'Z' => byte + 32,
        _ => byte,
    }
}

/// How many bytes two words begin with alike.
fn common_start(name: &[u8], word: &[u8]) -> usize
    ensures name { result ≤ length name.now }
    ensures word { result ≤ length word.now }
{
    let most = name.len().min(word.len());
    for at in 0..most {
        if fold(name[at]) != fold(word[at]) {
            return at;
        }
    }
    most
}

/// How many bytes two words end with alike.
fn common_end(name: &[u8], word: &[u8]) -> usize
    ensures name { result ≤ length name.now }
    ensures word { result ≤ length word.now }
{
    let most = name.len().min(word.len());
    for at in 0..most {
        if fold(name[name.len() - 1 - at]) != fold(word[word.len() - 1 - at]) {
            return at;
        }
    }
    most
}

/// Whether two words begin with the same two bytes, the one way round and the other.
fn are_swapped(name: &[u8], word: &[u8]) -> bool {
    match (name, word) {
        ([a, b, ..], [c, d, ..]) => fold(*a) == fold(*d) && fold(*b) == fold(*c),
        _ => false,
    }
}

/// The fewest bytes of words that are compared: of fewer too many differ in one byte.
const LEAST: usize = 4;

/// Whether two words differ in one byte that is there, missing or another one, or in two that are swapped.
fn is_near(name: &[u8], word: &[u8]) -> bool {
    let most = name.len().max(word.len());
    let least = name.len().min(word.len());
    if most - least > 1 || least < LEAST {
        return false;
    }
    let start = common_start(name, word);
    let name = &name[start..];
    let word = &word[start..];
    let left = name.len().max(word.len()) - common_end(name, word);
    left < 2 || (left == 2 && most == least && are_swapped(name, word))
}

/// What stands in a name before a border, if that is there.
fn up_to<'a>(name: &'a [u8], border: &[u8]) -> &'a [u8] {
    for at in 0..name.len() {
        if name[at..].starts_with(border) {
            return &name[..at];
        }
    }
    name
}

/// Whether a word is near to a name of the tables, or to what stands in it before ` and ` or ` (`.
fn is_near_name(name: &[u8], word: &[u8]) -> bool {
    is_near(name, word) || is_near(up_to(name, b" and "), word) || is_near(up_to(name, b" ("), word)
}

/// The first name of a page that a word is near to.
fn near_on_page(page: u16, word: &[u8]) -> Option<&'static str> {
    for id in 0..=LAST_ROW {
        if let Some(UsageName::Known(name)) = usage_name(page, id) {
            if is_near_name(name.as_bytes(), word) {
                return Some(name);
            }
        }
    }
    None
}

/// The first name of the tables that a word is near to, which takes some milliseconds.
fn near_name(word: &[u8]) -> Option<&'static str> {
    for page in 0..=LAST_PAGE {
        if page_name(page).is_some() {
            if let Some(name) = near_on_page(page, word) {
                return Some(name);
            }
        }
    }
    None
}

/// The word before the number of a usage that has one, if a word is near to it (HID Usage Tables, 12 and 13).
fn near_numbered(front: &[u8]) -> Option<&'static str> {
    if is_near(b"Button ", front) {
        Some("Button")
    } else if is_near(b"Instance ", front) {
        Some("Instance")
    } else {
        None
    }
}

/// The name of a numbered usage that a word is near to, as `Buton_1` is: what stands before the number, and the number.
fn numbered_name(word: &[u8]) -> Option<(&'static str, u64)> {
    let digits = word.iter().position(|byte| byte.is_ascii_digit())?;
    let name = near_numbered(&word[..digits])?;
    match read_number(10, &word[digits..]) {
        Some(number @ 1..=0xFFFF) => Some((name, number)),
        _ => None,
    }
}

/// What keys are called that have other names in the tables, in lower case.
#[rattlefmt::skip]
const CALLED: [(&[u8], &str); 16] = [
    (b"enter", "Return"), (b"ctrl", "LeftControl"), (b"control", "LeftControl"), (b"shift", "LeftShift"), (b"alt", "LeftAlt"),
    (b"win", "Left_GUI"), (b"gui", "Left_GUI"), (b"esc", "ESCAPE"), (b"backspace", "DELETE"), (b"delete", "Delete_Forward"),
    (b"del", "Delete_Forward"), (b"space", "Spacebar"), (b"up", "UpArrow"), (b"down", "DownArrow"), (b"left", "LeftArrow"),
    (b"right", "RightArrow"),
];

/// The page of keys (HID Usage Tables, 10).
const KEYBOARD: u16 = 0x07;

/// What each name of a key begins with.
const KEY: &[u8] = b"Keyboard ";

/// Whether two words are the same, whatever their case.
fn is_folded(name: &[u8], word: &[u8]) -> bool {
    name.len() == word.len() && common_start(name, word) == name.len()
}

/// The first index from one on at which a word has no blank and no `_`; its length where there is none.
fn next_letter(word: &[u8], from: usize) -> usize {
    for at in from..word.len() {
        if !matches!(word[at], b' ' | b'_') {
            return at;
        }
    }
    word.len()
}

/// Whether two words have the same characters, blanks and `_` left out, whatever their case.
fn is_alike(name: &[u8], word: &[u8]) -> bool {
    let mut next = 0;
    for byte in name {
        if matches!(*byte, b' ' | b'_') {
            continue;
        }
        let at = next_letter(word, next);
        match word.get(at) {
            Some(other) if fold(*byte) == fold(*other) => next = at.saturating_add(1),
            _ => return false,
        }
    }
    next_letter(word, next) >= word.len()
}

/// What a name has in front of ` and ` or ` (`.
fn short_name(name: &[u8]) -> &[u8] {
    up_to(up_to(name, b" and "), b" (")
}

/// Whether a word is the name of a key without `Keyboard`, as `A` and `Left_Control` are.
fn is_key(name: &[u8], word: &[u8]) -> bool {
    match short_name(name).strip_prefix(KEY) {
        Some(key) => is_alike(key, word),
        None => false,
    }
}

/// The name of a key that a word is without `Keyboard`.
fn key_name(word: &[u8]) -> Option<&'static str> {
    for id in 0..=0xFF {
        if let Some(UsageName::Known(name)) = usage_name(KEYBOARD, id) {
            if is_key(name.as_bytes(), word) {
                return Some(name);
            }
        }
    }
    None
}

/// What follows `Keyboard_` in the name of a key that is called so.
fn called_key(word: &[u8]) -> Option<&'static str> {
    for (called, name) in CALLED {
        if is_folded(called, word) {
            return Some(name);
        }
    }
    None
}

/// Whether a name ends in a letter alone, as `Keyboard a`.
fn ends_in_letter(name: &[u8]) -> bool {
    matches!(name, [.., b' ', b'a'..=b'z'])
}

/// Adds a name as a script writes it: up to ` and ` or ` (`, with `_` for each blank, and a letter alone as a capital.
fn push_name(text: &mut String, name: &str) -> Result<(), AllocError> {
    let short = short_name(name.as_bytes());
    for at in 0..short.len() {
        let byte = match short[at] {
            b' ' => b'_',
            letter if at + 1 == short.len() && ends_in_letter(short) => letter.to_ascii_uppercase(),
            other => other,
        };
        text.push(char::from(byte))?;
    }
    Ok(())
}

/// A question for the name that was meant, as a script writes it, if there is one that is near; else nothing.
///
/// # Errors
/// Out of memory.
pub fn question(alloc: Global, word: &[u8]) -> Result<String, AllocError> {
    if let Some((name, number)) = numbered_name(word) {
        return format!(in alloc; ": is it {name}_{number}?");
    }
    if let Some(key) = called_key(word) {
        return format!(in alloc; ": is it Keyboard_{key}?");
    }
    let mut text = String::new(alloc);
    if let Some(name) = key_name(word).or(near_name(word)) {
        text.push_str(": is it ")?;
        push_name(&mut text, name)?;
        text.push_str("?")?;
    }
    Ok(text)
}
