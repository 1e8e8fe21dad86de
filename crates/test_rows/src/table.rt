//! How rows are read: tables, rows and steps.

use crate::words::split;
use std::alloc::Global;

/// What each row may use.
#[derive(Clone, Copy)]
pub struct Table<'a> {
    pub alloc: Global,
    /// Lines `NAME = HEX`.
    pub names: &'a str,
}

/// A table: its title, and what is asked of its rows.
#[derive(Clone, Copy)]
pub struct Heading<'a> {
    pub title: &'a str,
    pub question: &'a str,
}

/// A row or a step: its line, what is given, and what is wanted.
#[derive(Clone, Copy)]
pub struct Line<'a> {
    pub text: &'a str,
    pub given: &'a str,
    pub wanted: &'a str,
}

/// The heading in a line, if it is one.
pub fn heading_in(line: &str) -> Option<Heading<'_>> {
    let (title, question) = split(line.strip_prefix("# ")?, ':');
    Some(Heading { title, question })
}

/// Whether a line says nothing: a remark, or an empty one.
pub fn is_remark(line: &str) -> bool {
    let line = line.trim();
    line.is_empty() || line == "--" || line.starts_with("-- ")
}

/// Whether a line stands below a row: it is indented by two blanks.
pub fn is_step(line: &str) -> bool {
    line.starts_with("  ")
}

/// What stands before and after `>`; all of the text before, where it isn't there.
fn parted(text: &str) -> (&str, &str) {
    match text.split_once(" > ") {
        Some((given, wanted)) => (given.trim(), wanted.trim()),
        None => (text.strip_suffix(" >").unwrap_or(text).trim(), ""),
    }
}

/// What is given, after a name.
fn unnamed(text: &str) -> &str {
    match text.split_once(": ") {
        Some((_, given)) => given.trim(),
        None if text.ends_with(':') => "",
        None => text,
    }
}

/// A row or a step in a line.
pub fn line_in(line: &str) -> Line<'_> {
    let text = line.trim();
    let (given, wanted) = parted(text);
    Line {
        text,
        given: unnamed(given),
        wanted,
    }
}

/// The steps in front of a text: its first lines, as far as they are indented.
pub fn steps_in(text: &str) -> &str {
    let mut length: usize = 0;
    for line in text.split('\n') {
        if !is_step(line) {
            break;
        }
        length = length.saturating_add(line.len()).saturating_add(1);
    }
    text.get(..length).unwrap_or(text)
}
