//! Text without what stands around the bytes: the marks of quoted lines, and comments. They become blanks, so that places stay.

ghost use Rattle.std.specs.Prelude.{◌≡◌, true, IfOk, nat_eq};
ghost use Rattle.std.specs.List.{list_all, list_any, starts_with};
ghost use Rattle.hid_input.specs.Text.{lines_of};
ghost use Rattle.hid_input.specs.declared.plain.Scene.TheVariants.{Blank};
ghost use Rattle.hid_input.specs.Plain.{is_marked, is_quoted, unmarked_from, is_space, is_other_end, scene_after_text, scene_after, are_text, is_shown, shown_from, end_from, is_clear, comment_sign, is_directive, has_open_line};

use crate::text::without_space;
use std::alloc::{AllocError, Global};

/// Whether a line begins with a mark, or is empty.
fn is_marked(line: &[u8], mark: u8) -> bool
    ensures { result ≡ is_marked mark line.now }
{
    match line {
        [] => true,
        [first, ..] => *first == mark || *first == b'\r',
    }
}

/// Whether each line of a text begins with a mark, or is empty.
fn are_marked(text: &[u8], mark: u8) -> bool
    ensures { result ≡ list_all (is_marked mark) (lines_of text.now) }
{
    text.split(|byte| *byte == b'\n')
        .all(|line| is_marked(line, mark))
}

/// Whether mail or a patch quotes each line of a text by the same mark.
pub fn is_quoted(text: &[u8]) -> bool
    ensures { result ≡ is_quoted text.now }
{
    match text.get(0).copied() {
        Some(mark) => (mark == b'>' || mark == b'+' || mark == b'|') && are_marked(text, mark),
        None => false,
    }
}

/// A text with a blank for the first character of each line.
///
/// # Errors
/// Out of memory.
pub fn without_marks(alloc: Global, text: &[u8]) -> Result<Vec<u8>, AllocError>
    ensures { IfOk result (λ read. read.items ≡ unmarked_from true text.now) }
{
    let mut unmarked = Vec::with_capacity(alloc, text.len())?;
    let mut is_first = true;
    for byte in text {
        unmarked.push(if is_first && *byte != b'\n' {
            b' '
        } else {
            *byte
        })?;
        is_first = *byte == b'\n';
    }
    Ok(unmarked)
}

/// Where a character stands.
#[derive(Clone, Copy, Debug, PartialEq, Eq)]
pub enum Scene {
    /// At the start of a text, or after white space.
    Blank,
    /// After another character.
    Text,
    /// In a string with this quotation mark.
    Quoted(u8),
    /// In such a string, after a backslash.
    Escaped(u8),
    /// After such a string.
    Closed,
    /// In a comment of `#` or `//`.
    Line,
    /// In such a comment, after a backslash.
    Backslash,
    /// At the second character of `/*`.
    Opening,
    /// In a comment of `/*`.
    Block,
    /// At the second character of `*/`.
    Closing,
    /// After a comment, a string or a line of which not all programs agree on the end.
    Unclear,
}

/// Whether a character is white space, or there is none.
fn is_space(byte: Option<u8>) -> bool
    ensures { result ≡ is_space byte }
{
    match byte {
        Some(byte) => byte.is_ascii_whitespace(),
        None => true,
    }
}

/// Whether a character ends a line of some programs alone: CR, or FF.
fn is_other_end(byte: u8, next: Option<u8>) -> bool
    ensures { result ≡ is_other_end byte next }
{
    byte == 0x0C || (byte == b'\r' && next != Some(b'\n'))
}

/// Where the next character stands after one of text, before the one that follows. The sign that begins comments is `#`, between
/// white space alone, or `/`.
fn scene_after_text(scene: Scene, sign: u8, byte: u8, next: Option<u8>) -> Scene
    ensures { result ≡ scene_after_text scene sign byte next }
{
    match byte {
        b'#' if sign == b'#' && scene == Scene::Blank && is_space(next) => Scene::Line,
        b'/' if sign == b'/' && next == Some(b'/') => Scene::Line,
        b'/' if sign == b'/' && next == Some(b'*') => Scene::Opening,
        b'"' | b'\'' if scene == Scene::Closed => Scene::Unclear,
        b'"' | b'\'' => Scene::Quoted(byte),
        _ if byte.is_ascii_whitespace() => Scene::Blank,
        _ => Scene::Text,
    }
}

/// Where the next character stands, after this one and before the one that follows.
fn scene_after(scene: Scene, sign: u8, byte: u8, next: Option<u8>) -> Scene
    ensures { result ≡ scene_after scene sign byte next }
{
    match scene {
        _ if is_other_end(byte, next) => Scene::Unclear,
        Scene::Blank | Scene::Text | Scene::Closed => scene_after_text(scene, sign, byte, next),
        Scene::Quoted(_) | Scene::Escaped(_) | Scene::Backslash if byte == b'\n' => Scene::Unclear,
        Scene::Quoted(quote) if byte == quote => Scene::Closed,
        Scene::Quoted(quote) if byte == b'\\' => Scene::Escaped(quote),
        Scene::Escaped(quote) => Scene::Quoted(quote),
        Scene::Line if byte == b'\n' => Scene::Blank,
        Scene::Line if byte == b'\\' => Scene::Backslash,
        Scene::Backslash if byte != b'\\' && !byte.is_ascii_whitespace() => Scene::Line,
        Scene::Opening if next == Some(b'/') => Scene::Unclear,
        Scene::Opening => Scene::Block,
        Scene::Block if byte == b'*' && next == Some(b'/') => Scene::Closing,
        Scene::Closing => Scene::Blank,
        _ => scene,
    }
}

/// Whether a character there is one of text or of a string.
fn are_text(scene: Scene) -> bool
    ensures { result ≡ are_text scene }
{
    matches!(
        scene,
        Scene::Blank | Scene::Text | Scene::Quoted(_) | Scene::Escaped(_) | Scene::Closed
    )
}

/// Whether a character isn't part of a comment.
fn is_shown(scene: Scene, sign: u8, byte: u8, next: Option<u8>) -> bool
    ensures { result ≡ is_shown scene sign byte next }
{
    byte == b'\n' || (are_text(scene) && are_text(scene_after(scene, sign, byte, next)))
}

/// A text with a blank for each character of a comment, and where its end stands.
///
/// # Errors
/// Out of memory.
pub fn without_comments(
    alloc: Global,
    sign: u8,
    text: &[u8],
) -> Result<(Vec<u8>, Scene), AllocError>
    ensures text { IfOk result (λ read. read.0.items ≡ shown_from Blank sign text.now) }
    ensures end { IfOk result (λ read. read.1 ≡ end_from Blank sign text.now) }
{
    let mut shown = Vec::with_capacity(alloc, text.len())?;
    let mut scene = Scene::Blank;
    for (at, byte) in text.iter().enumerate() {
        let next = text.get(at + 1).copied();
        shown.push(if is_shown(scene, sign, *byte, next) {
            *byte
        } else {
            b' '
        })?;
        scene = scene_after(scene, sign, *byte, next);
    }
    Ok((shown, scene))
}

/// Whether the end of a text stands in no string, and in no comment that may go on.
pub fn is_clear(end: Scene) -> bool
    ensures { result ≡ is_clear end }
{
    matches!(
        end,
        Scene::Blank | Scene::Text | Scene::Closed | Scene::Line
    )
}

/// The sign that begins the comments of a text: `#` or `/`, the one that stands first; a blank if it has neither.
pub fn comment_sign(text: &[u8]) -> u8
    ensures { result ≡ comment_sign text.now }
{
    for byte in text {
        if *byte == b'#' || *byte == b'/' {
            return *byte;
        }
    }
    b' '
}

/// How directives of C begin that leave bytes out or bring others.
const DIRECTIVES: [&[u8]; 7] = [
    b"if", b"elif", b"else", b"endif", b"include", b"import", b"embed",
];

/// Whether a word begins with one of these names.
fn begins_with_one(word: &[u8], names: &[&[u8]]) -> bool
    ensures { result ≡ list_any (λ name. starts_with nat_eq word.now name.now) names.now }
{
    names.iter().any(|name| word.starts_with(*name))
}

/// Whether a line is a directive of C with a blank after its `#`, which looks like a comment.
fn is_directive(line: &[u8]) -> bool
    ensures { result ≡ is_directive line.now }
{
    match without_space(line) {
        [b'#', rest @ ..] => begins_with_one(without_space(rest), &DIRECTIVES),
        _ => false,
    }
}

/// Whether some line of a text is such a directive.
pub fn has_directive(text: &[u8]) -> bool
    ensures { result ≡ list_any is_directive (lines_of text.now) }
{
    text.split(|byte| *byte == b'\n')
        .any(|line| is_directive(line))
}

/// Whether a line of a text ends with a byte, and the next character is a comma, or ends a list of a language in which `//` divides.
pub fn has_open_line(text: &[u8]) -> bool
    ensures { result ≡ has_open_line text.now }
{
    let mut last = b' ';
    let mut is_below = false;
    for byte in text {
        if is_below && last.is_ascii_alphanumeric() && matches!(*byte, b',' | b']' | b')') {
            return true;
        }
        is_below = *byte == b'\n' || (is_below && byte.is_ascii_whitespace());
        last = if byte.is_ascii_whitespace() {
            last
        } else {
            *byte
        };
    }
    false
}
