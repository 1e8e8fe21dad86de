//! The file of Output reports: a line for each, in a file that may grow.
//! ```text
//!   02                      LEDs of the first interface that has such a report: its bytes in hex, its ID first where it has one
//!   interface 1 04 FF       of the interface at place 1
//!   # a remark, or an empty line
//! ```

ghost use Rattle.std.specs.Prelude.{◌≡◌, [], IfOk};
ghost use Rattle.hid_text.specs.Words.{words_of};
ghost use Rattle.std.specs.Str.Lines.{strip_carriage_return};
ghost use Rattle.hidattach.specs.OutputLines.{Added, LineTaken, ReadsLine, interface_line, is_remark, line_of_words, place_of_word, report_line};

use hid_recording::{Cause, read_bytes};
use hid_text::{first_word, read_number, split_line};
use std::alloc::Global;

/// The longest line: a report of 16,384 bytes has some 49,200 characters.
const MAX_LINE: usize = 65_536;

/// What a line says.
#[derive(Drop)]
pub enum OutputLine {
    /// Nothing: it is empty, or a remark.
    Nothing,
    /// To take these bytes as an Output report.
    Bytes {
        /// The interface that is named, if one is.
        interface: Option<usize>,
        /// The report, its ID first where it has one.
        bytes: Vec<u8>,
    },
}

/// Why a line isn't read.
#[derive(Clone, Copy, Debug, PartialEq, Eq)]
pub enum LineFault {
    /// It has a word that isn't two hex digits, or names no interface.
    Unread,
    /// Memory ran out.
    Memory,
}

/// The bytes of a text's words in hex, for an interface.
fn read_report(
    alloc: Global,
    interface: Option<usize>,
    text: &[u8],
) -> Result<OutputLine, LineFault>
    ensures { ReadsLine result (report_line interface (words_of text.now)) }
{
    match read_bytes(alloc, text) {
        Ok(bytes) => Ok(OutputLine::Bytes { interface, bytes }),
        Err(Cause::Memory) => Err(LineFault::Memory),
        Err(_) => Err(LineFault::Unread),
    }
}

/// The interface that a word names: its place, in decimal digits.
fn read_place(word: &[u8]) -> Option<usize>
    ensures { result ≡ place_of_word word.now }
{
    Some(read_number(10, word)? as usize)
}

/// Whether a word begins with #.
fn is_remark(word: &[u8]) -> bool
    ensures { result ≡ is_remark word.now }
{
    match word.first() {
        Some(first) => *first == b'#',
        None => false,
    }
}

/// What the words after `interface` say: its place, and the bytes.
fn read_interface(alloc: Global, text: &[u8]) -> Result<OutputLine, LineFault>
    ensures { ReadsLine result (interface_line (words_of text.now)) }
{
    let Some((number, report)) = first_word(text) else {
        return Err(LineFault::Unread);
    };
    match read_place(number) {
        Some(place) => read_report(alloc, Some(place), report),
        None => Err(LineFault::Unread),
    }
}

/// What the words of a text say.
fn read_words(alloc: Global, text: &[u8]) -> Result<OutputLine, LineFault>
    ensures { ReadsLine result (line_of_words (words_of text.now)) }
{
    let Some((first, rest)) = first_word(text) else {
        return Ok(OutputLine::Nothing);
    };
    if is_remark(first) {
        return Ok(OutputLine::Nothing);
    }
    if first == b"interface".as_slice() {
        read_interface(alloc, rest)
    } else {
        read_report(alloc, None, text)
    }
}

/// A line without the one carriage return at its end, if it has one.
fn without_return(line: &[u8]) -> &[u8]
    ensures { result.now ≡ strip_carriage_return line.now }
{
    match line {
        [shorter @ .., b'\r'] => shorter,
        _ => line,
    }
}

/// What a line says. A carriage return at its end is no part of it.
///
/// # Errors
/// [`LineFault`].
pub fn read_line(alloc: Global, line: &[u8]) -> Result<OutputLine, LineFault>
    ensures { ReadsLine result (line_of_words (words_of (strip_carriage_return line.now))) }
{
    read_words(alloc, without_return(line))
}

/// The lines of a file that may grow: what came of it, and isn't read yet.
#[derive(Drop)]
pub struct Lines {
    bytes: Vec<u8>,
}

impl Lines {
    /// Nothing came yet.
    pub fn new(alloc: Global) -> Lines
        ensures { result.bytes.items ≡ [] }
    {
        Lines {
            bytes: Vec::new(alloc),
        }
    }

    /// More came of the file.
    ///
    /// # Errors
    /// [`LineFault::Unread`] where what came before is the beginning of a line that is too long, [`LineFault::Memory`].
    pub fn add(&mut self, more: &[u8]) -> Result<(), LineFault>
        ensures { Added result more.now self.old.bytes.items self.new.bytes.items }
    {
        if self.bytes.len() > MAX_LINE && split_line(&self.bytes).is_none() {
            return Err(LineFault::Unread);
        }
        match self.bytes.extend_from_slice(more) {
            Ok(()) => Ok(()),
            Err(_) => Err(LineFault::Memory),
        }
    }

    /// The next line that came whole, without its end, if there is one.
    ///
    /// # Errors
    /// [`LineFault::Memory`], and nothing changes.
    pub fn next_line(&mut self, alloc: Global) -> Result<Option<Vec<u8>>, LineFault>
        ensures { IfOk result (λ line. LineTaken line self.old.bytes.items self.new.bytes.items) }
    {
        let Some((line, _)) = split_line(&self.bytes) else {
            return Ok(None);
        };
        let Ok(line) = Vec::from_slice(alloc, line) else {
            return Err(LineFault::Memory);
        };
        self.bytes.drain(..line.len() + 1);
        Ok(Some(line))
    }
}
