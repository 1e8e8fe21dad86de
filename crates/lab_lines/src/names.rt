//! Usages by their names, as a script writes them.

ghost use Rattle.std.specs.Prelude.{◌≡◌, ◌+◌, ◌≤◌, ◌++◌, length, position, codes, IfSome, true};
ghost use Rattle.lab_lines.specs.Names.{fold, spells, place_of, spells_before, spells_second, is_space, calls, are_number, spells_number, names, IsName};
ghost use Rattle.hid_text.specs.Numbers.{number_of};

use hid_layout::Usage;
use hid_names::{UsageName, page_name, usage_name};
use hid_text::read_number;

/// A byte of a name or of a word: blanks are written `_`, and case means nothing.
fn fold(byte: u8) -> u8
    ensures { result ≡ fold byte }
{
    match byte {
        b' ' => b'_',
        b'A'..=b'Z' => byte + 32,
        _ => byte,
    }
}

/// Whether a word is this name.
fn is_spelled(name: &[u8], word: &[u8]) -> bool
    ensures { result ≡ spells name.now word.now }
{
    if name.len() != word.len() {
        return false;
    }
    for at in 0..name.len() {
        if fold(name[at]) != fold(word[at]) {
            return false;
        }
    }
    true
}

/// The first place where a text stands in a name.
fn place_of(name: &[u8], text: &[u8]) -> Option<usize>
    ensures place { result ≡ place_of text.now name.now }
    ensures room { IfSome result (λ place. place + length text.now ≤ length name.now) }
{
    for at in 0..name.len() {
        if name[at..].starts_with(text) {
            return Some(at);
        }
    }
    None
}

/// Whether a word is the name up to this border: `Keyboard Return (ENTER)` up to ` (`.
fn is_front(name: &[u8], border: &[u8], word: &[u8]) -> bool
    ensures { result ≡ spells_before name.now (place_of border.now name.now) word.now }
{
    match place_of(name, border) {
        Some(end) => is_spelled(&name[..end], word),
        None => false,
    }
}

/// Where the first blank of a name stands.
fn first_blank(name: &[u8]) -> Option<usize>
    ensures { result ≡ position is_space name.now }
{
    name.iter().position(|byte| *byte == b' ')
}

/// Whether a word is one text and then another.
fn is_both(first: &[u8], second: &[u8], word: &[u8]) -> bool
    ensures { result ≡ spells (first.now ++ second.now) word.now }
{
    if word.len() < first.len() {
        return false;
    }
    let (front, behind) = word.split_at(first.len());
    is_spelled(first, front) && is_spelled(second, behind)
}

/// Whether a word is the first word of a name and what stands after `and`: `Keyboard A` of `Keyboard a and A`.
fn is_second(name: &[u8], word: &[u8]) -> bool
    ensures { result
        ≡ spells_second name.now (position is_space name.now) (place_of (codes " and ") name.now) word.now }
{
    let Some(blank) = first_blank(name) else {
        return false;
    };
    let Some(border) = place_of(name, b" and ") else {
        return false;
    };
    is_both(&name[..blank + 1], &name[border + 5..], word)
}

/// Whether a word is a name of the tables: all of it, or a part of it that says enough.
#[tactic(auto, unfolding(crate::specs::Names::calls))]
fn is_known(name: &[u8], word: &[u8]) -> bool
    ensures { result ≡ calls name.now word.now }
{
    is_spelled(name, word)
        || is_front(name, b" and ", word)
        || is_front(name, b" (", word)
        || is_second(name, word)
}

/// Whether digits encode this number.
fn is_number(digits: &[u8], number: u16) -> bool
    ensures { result ≡ are_number number (number_of 10 digits.now) }
{
    match read_number(10, digits) {
        Some(read) => read == u64::from(number),
        None => false,
    }
}

/// Whether a word is a name that ends in this number: `Button_5`.
#[tactic(auto, unfolding(crate::specs::Names::spells_number))]
fn is_numbered(front: &[u8], number: u16, word: &[u8]) -> bool
    ensures { result ≡ spells_number front.now number word.now }
{
    if word.len() < front.len() {
        return false;
    }
    let (name, digits) = word.split_at(front.len());
    is_spelled(front, name) && is_number(digits, number)
}

/// Whether a word names a usage (HID Usage Tables): its name with `_` for each blank, in any case. Of a name with ` and ` in it
/// what stands before it, or its first word with what stands after it, names the usage too, and of one with ` (` what stands
/// before that: `Keyboard_A`, `Keyboard_!`, `Keyboard_Return`.
pub fn is_name_of(usage: Usage, word: &[u8]) -> bool
    ensures { result ≡ names usage word.now }
{
    match usage_name(usage.page, usage.id) {
        Some(UsageName::Known(name)) => is_known(name.as_bytes(), word),
        Some(UsageName::Button(number)) => is_numbered(b"Button ", number, word),
        Some(UsageName::Instance(number)) => is_numbered(b"Instance ", number, word),
        None => false,
    }
}

/// The last page of the tables that has names.
const LAST_PAGE: u16 = 0xF0;

/// The greatest ID of the tables' rows: Sensors go up to `0x1FFF`.
const LAST_ROW: u16 = 0x1FFF;

/// The greatest ID that has a name on a page: buttons and instances are numbered (HID Usage Tables, 12 and 13).
fn last_id(page: u16) -> u16 {
    match page {
        0x09 | 0x0A => u16::MAX,
        _ => LAST_ROW,
    }
}

/// Whether a word names a usage on a page, up to this ID.
fn names_on_page(page: u16, last: u16, word: &[u8]) -> bool
    ensures { result ≡ true → IsName word.now }
{
    for id in 0..=last {
        if is_name_of(Usage { page, id }, word) {
            return true;
        }
    }
    false
}

/// Whether a word names any usage of the tables, which takes some milliseconds: a word that doesn't is misspelt.
pub fn is_any_name(word: &[u8]) -> bool
    ensures { result ≡ true → IsName word.now }
{
    for page in 0..=LAST_PAGE {
        if page_name(page).is_some() && names_on_page(page, last_id(page), word) {
            return true;
        }
    }
    false
}
