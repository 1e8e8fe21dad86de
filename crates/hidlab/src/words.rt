//! Faults in words: which word of a line is wrong, and what came in place of what is expected.

ghost use Rattle.std.specs.Prelude.{◌<◌, ◌≤◌, length};

use super::near::question;
use command_words::{ShownBytes, is_escaped};
use hid_text::first_word;
use lab_expectations::{is_output_line, unknown_usage};
use lab_lines::{
    ControlName, Expected, LabLine, Unread, diagnose, is_any_name, read_control_name, read_lab_line,
};
use std::alloc::{AllocError, Global};

/// The most bytes of a word of a line, or of the name of a file, that a fault prints.
const LONGEST_WORD: usize = 256;

/// Where a long word is cut: before a character that goes on there.
fn cut_of(word: &[u8]) -> usize
    requires { LONGEST_WORD < length word.now }
    ensures { result ≤ length word.now }
{
    for back in 0..4 {
        let end = LONGEST_WORD - back;
        if word[end] & 0xC0 != 0x80 {
            return end;
        }
    }
    LONGEST_WORD
}

/// A word as it is printed: of a long one its first bytes, and two dots.
///
/// # Errors
/// Out of memory.
pub fn word_shown(alloc: Global, word: &[u8]) -> Result<String, AllocError> {
    if word.len() <= LONGEST_WORD {
        let word = ShownBytes(word);
        return format!(in alloc; "{word}");
    }
    let first = ShownBytes(&word[..cut_of(word)]);
    format!(in alloc; "{first}..")
}

/// What is wrong with a text that begins with these bytes, if they are a byte order mark (Unicode, 23.8).
pub fn mark_words(line: &[u8]) -> Option<&'static str> {
    match line {
        [0xEF, 0xBB, 0xBF, ..] => Some("a byte order mark: save the file without one"),
        [0xFF, 0xFE, ..] | [0xFE, 0xFF, ..] => {
            Some("a byte order mark of UTF-16: save the file as UTF-8")
        }
        _ => None,
    }
}

/// A character between quotes and its number, as in `"\u{E4}" (U+00E4)`; the number alone where it isn't printed as it is.
fn character_shown(alloc: Global, character: char) -> Result<String, AllocError> {
    let code = u32::from(character);
    if is_escaped(character) {
        format!(in alloc; "U+{code:04X}")
    } else {
        format!(in alloc; "\"{character}\" (U+{code:04X})")
    }
}

/// The first character of a text as it is printed; of a text that isn't UTF-8 its first byte.
fn first_shown(alloc: Global, text: &[u8]) -> Result<String, AllocError> {
    for chunk in text.utf8_chunks() {
        if let Some(character) = chunk.valid().chars().next() {
            return character_shown(alloc, character);
        }
        for byte in chunk.invalid() {
            return format!(in alloc; "\\x{byte:02X}");
        }
    }
    Ok(String::new(alloc))
}

/// That no key types the first character of a text, which a backslash may stand before.
fn untyped_words(alloc: Global, text: &[u8]) -> Result<String, AllocError> {
    let text = match text {
        [b'\\', escaped @ ..] => escaped,
        _ => text,
    };
    let character = first_shown(alloc, text)?;
    format!(in alloc; "{character}: no key of a US keyboard types it")
}

/// A word that isn't what is expected in its place, in words; an empty one where the line ends there.
fn wrong_word(alloc: Global, word: &[u8], expected: Expected) -> Result<String, AllocError> {
    if expected == Expected::Character {
        return untyped_words(alloc, word);
    }
    if word.is_empty() {
        return format!(in alloc; "expected: {expected}, found: the end of the line");
    }
    let shown = word_shown(alloc, word)?;
    if expected == Expected::Percent && word.ends_with(b"%") {
        return format!(in alloc; "{shown}: write the percentage without a sign");
    }
    format!(in alloc; "expected: {expected}, found: {shown}")
}

/// Which word of a line is wrong, and what was expected there, in words.
///
/// # Errors
/// Out of memory.
pub fn syntax_words(alloc: Global, line: &[u8]) -> Result<Option<String>, AllocError> {
    if let Some(words) = mark_words(line) {
        return Ok(Some(String::from_str(alloc, words)?));
    }
    let unread = match read_lab_line(line) {
        Err(unread) => unread,
        Ok(_) => diagnose(line),
    };
    match unread {
        Unread::Word(word, expected) => Ok(Some(wrong_word(alloc, word, expected)?)),
        Unread::TooLong => Ok(None),
    }
}

/// That the bytes of a device aren't hex (X3), in words that say how a file is named; none of other lines.
pub fn hex_words(line: &[u8]) -> Option<&'static str> {
    match first_word(line) {
        Some((b"device", _)) => Some("bytes in hex are pairs of digits; a file is named as @FILE"),
        _ => None,
    }
}

/// Why a word is no control, or no usage of an event.
#[derive(Clone, Copy)]
enum NameFault {
    /// No usage has this name.
    Unknown,
    /// It is one of several controls, or a place, and no usage alone.
    NotAlone,
}

/// Why a word names no control: no usage has its name.
fn control_fault(control: ControlName<'_>) -> Option<NameFault> {
    match control {
        ControlName::Named { name, .. } if !is_any_name(name) => Some(NameFault::Unknown),
        _ => None,
    }
}

/// Why a word is no usage of an event.
fn event_fault(word: &[u8]) -> NameFault {
    match read_control_name(word) {
        None => NameFault::Unknown,
        Some(control) => control_fault(control).unwrap_or(NameFault::NotAlone),
    }
}

/// The word of a line that stands for a control, or for the usage of an event, and why it is none.
fn wrong_name(line: &[u8]) -> Option<(&[u8], NameFault)> {
    let control = match read_lab_line(line) {
        Ok(LabLine::Change { control, .. }) => control,
        Ok(LabLine::Click { control, .. }) => control,
        Ok(LabLine::Expect(expected)) => {
            let word = unknown_usage(expected)?;
            return Some((word, event_fault(word)));
        }
        _ => return None,
    };
    match control {
        ControlName::Named { name, .. } => Some((name, control_fault(control)?)),
        _ => None,
    }
}

/// A name without the number of its control, as in `Button_1#2`.
fn without_number(word: &[u8]) -> &[u8] {
    match read_control_name(word) {
        Some(ControlName::Named { name, .. }) => name,
        _ => word,
    }
}

/// Why a name that stands in a line is none, in words.
///
/// # Errors
/// Out of memory.
pub fn name_words(alloc: Global, line: &[u8]) -> Result<Option<String>, AllocError> {
    let Some((name, fault)) = wrong_name(line) else {
        return Ok(None);
    };
    let shown = word_shown(alloc, name)?;
    match fault {
        NameFault::Unknown => {
            let question = question(alloc, without_number(name))?;
            Ok(Some(format!(in alloc; "{shown}: no usage has this name{question}")?))
        }
        NameFault::NotAlone => {
            let words = "a line of an event has the usage alone, as 07:04 or Keyboard_A";
            Ok(Some(format!(in alloc; "{shown}: {words}")?))
        }
    }
}

/// A text from its first byte on that is no blank and no tab.
fn without_blanks_before(text: &[u8]) -> &[u8] {
    let mut rest = text;
    while let [b' ' | b'\t', more @ ..] = rest {
        rest = more;
    }
    rest
}

/// A text without blanks and tabs before and after it.
fn without_blanks(text: &[u8]) -> &[u8] {
    let mut rest = without_blanks_before(text);
    while let [less @ .., b' ' | b'\t'] = rest {
        rest = less;
    }
    rest
}

/// What a line expects: a line, or none.
pub fn expected_of(line: &[u8]) -> &[u8] {
    match read_lab_line(line) {
        Ok(LabLine::Expect(expected)) => expected,
        _ => b"none",
    }
}

/// What is said of an event that is expected before any poll: that is where the host sees a change.
fn poll_hint(polls: u64, expected: &[u8]) -> &'static str {
    if polls == 0 && !is_output_line(expected) {
        " (a change is seen at a poll)"
    } else {
        ""
    }
}

/// What is expected after so many polls, and what came in its place, in words.
///
/// # Errors
/// Out of memory.
pub fn unmet_words(
    alloc: Global,
    came: &[u8],
    expected: &[u8],
    polls: u64,
) -> Result<String, AllocError> {
    let hint = poll_hint(polls, expected);
    let came = word_shown(alloc, came)?;
    let expected = word_shown(alloc, without_blanks(expected))?;
    format!(in alloc; "expected: {expected}, found: {came}{hint}")
}

/// That a test ended before all that was printed was expected, in words.
///
/// # Errors
/// Out of memory.
pub fn left_words(alloc: Global, came: &[u8]) -> Result<String, AllocError> {
    let came = word_shown(alloc, came)?;
    format!(in alloc;
        "expected: the end of the test, found: {came} (expect any says that the rest doesn't matter)"
    )
}

/// That a connection ended before what is expected, in words.
///
/// # Errors
/// Out of memory.
pub fn ended_words(alloc: Global, expected: &[u8]) -> Result<String, AllocError> {
    let expected = word_shown(alloc, without_blanks(expected))?;
    format!(in alloc; "expected: {expected}, found: the end of the connection")
}
