//! Files that aren't played, and are known for what they are.

ghost use Rattle.std.specs.Prelude.{◌≡◌, Bool};
ghost use Rattle.std.specs.List.{list_any};
ghost use Rattle.std.specs.Str.{bytes_eq};
ghost use Rattle.std.specs.Option.{unwrap_or};
ghost use Rattle.hid_text.specs.Words.{words_of};
ghost use Rattle.hidplay.specs.Other.{is_comment, is_count, begins_script, is_script, is_umockdev, says_nothing};

use hid_input::{KnownFile, begins_text, known_file};
use hid_layout::{Layout, LayoutFault, Limits};
use hid_report_descriptor::Cause;
use hid_text::{first_word, read_count, split_line};
use std::alloc::Global;
use std::fmt;

/// What a file is that isn't played.
#[derive(Clone, Copy, Debug)]
pub enum OtherFile {
    /// Known by its first bytes.
    Known(KnownFile),
    /// A script of `hidrun` or `hidlab`.
    Script,
    /// Text with control characters, or in another encoding than UTF-8.
    Text,
    /// Text without a line of a recording and without a descriptor.
    NoRecording,
    /// A recording of umockdev, whose lines of properties begin as those of reports.
    Umockdev,
}

impl fmt::Display for OtherFile {
    ghost use Rattle.std.specs.Prelude.{Some};
    ghost use Rattle.hidplay.specs.Other.{other_text};

    ghost output = { λ other. Some (other_text other) };

    fn fmt<W: fmt::Write>(&self, f: &mut fmt::Formatter<W>) -> fmt::Result {
        match self {
            OtherFile::Known(KnownFile::Capture) => {
                f.write_str("a capture, where a descriptor is wanted")
            }
            OtherFile::Known(known) => write!(f, "{known}"),
            OtherFile::Script => f.write_str("a script: hidlab runs it"),
            OtherFile::Text => f.write_str(
                "text, not a descriptor: write it without control characters, as UTF-8",
            ),
            OtherFile::NoRecording => f.write_str(
                "neither a recording nor a descriptor: hidplay --help says what is read",
            ),
            OtherFile::Umockdev => f.write_str(
                "a recording of umockdev, whose E: lines are properties: hid-recorder writes reports",
            ),
        }
    }
}

/// The words that lines of scripts begin with: those of `lab_lines` but for `end` (`tools/check/commands` compares them).
#[rattlefmt::skip]
const KEYWORDS: [&[u8]; 21] = [
    b"layout", b"values", b"device", b"press", b"release", b"set", b"null", b"move", b"frame", b"poll", b"begin", b"control",
    b"reset", b"halt", b"click", b"type", b"lose", b"repeat", b"expect", b"wait", b"include",
];

/// Whether a word is one of others.
fn is_one_of(words: &[&[u8]], word: &[u8]) -> bool
    ensures { result ≡ list_any (λ known. bytes_eq known.now word.now) words.now }
{
    words.iter().any(|known| *known == word)
}

/// Whether a word begins with `#`.
fn is_comment(word: &[u8]) -> bool
    ensures { result ≡ is_comment word.now }
{
    matches!(word, [b'#', ..])
}

/// Whether a text is one word alone that is a count, or none.
fn is_count(text: &[u8]) -> bool
    ensures { result ≡ is_count (words_of text.now) }
{
    match first_word(text) {
        None => true,
        Some((word, rest)) => match first_word(rest) {
            None => read_count(word).is_some(),
            Some(_) => false,
        },
    }
}

/// Whether a line begins a script; none where it says nothing.
fn begins_script(line: &[u8]) -> Option<bool>
    ensures { (later : Bool) → unwrap_or result later ≡ begins_script (words_of line.now) later }
{
    let (word, rest) = first_word(line)?;
    if is_comment(word) {
        return None;
    }
    if word == b"frame".as_slice() && !is_count(rest) {
        return Some(false);
    }
    Some(is_one_of(&KEYWORDS, word))
}

/// Whether a text is a script: its first word is one that lines of scripts begin with, comments left out. After `frame` nothing but a
/// count may stand: tshark prints such a word too.
pub fn is_script(text: &[u8]) -> bool
    ensures { result ≡ is_script text.now }
{
    let mut rest = text;
    while let Some((line, behind)) = split_line(rest) {
        if let Some(is_one) = begins_script(line) {
            return is_one;
        }
        rest = behind;
    }
    begins_script(rest).unwrap_or(false)
}

/// Whether a text begins as umockdev writes the path of a device.
pub fn is_umockdev(text: &[u8]) -> bool
    ensures { result ≡ is_umockdev text.now }
{
    text.starts_with(b"P: /devices")
}

/// Whether a line says nothing: it has no word, or is a comment.
pub fn says_nothing(line: &[u8]) -> bool
    ensures { result ≡ says_nothing (words_of line.now) }
{
    match first_word(line) {
        None => true,
        Some((word, _)) => is_comment(word),
    }
}

/// What the bytes of a descriptor are if they are known for another file: they are refused as a descriptor, or have no report.
pub fn other_of(alloc: Global, descriptor: &[u8]) -> Option<OtherFile> {
    let other = match known_file(descriptor) {
        Some(known) => OtherFile::Known(known),
        None if begins_text(descriptor) => OtherFile::Text,
        None => return None,
    };
    let has_reports = match Layout::parse_within(alloc, Limits::Real, descriptor) {
        Ok(layout) => !layout.reports().is_empty(),
        Err(LayoutFault { cause, .. }) => cause == Cause::Memory,
    };
    if has_reports { None } else { Some(other) }
}
