//! The lines of a script.

ghost use Rattle.std.specs.Prelude.{◌≡◌, ◌≤◌, IsTrue, length};
ghost use Rattle.hid_text.specs.Arguments.{with_bytes};
ghost use Rattle.hid_text.specs.Words.{hex_of, words_of};
ghost use Rattle.hid_text.specs.Line.{keyword_of, meaning_of, line_meaning, words_meaning, device_meaning};

use super::arguments::{read_boot, read_start};
use super::fault::LineFault;
use super::requests::read_begin;
use super::short::{ShortLine, read_short_words};
use super::words::{first_two_words, first_word, look_up, no_blank, read_hex};
use arrayvec::ArrayVec;
use hid_bus::Start;
use hid_requests::{Boot, Request};

/// The most bytes of a line, without its end.
pub(crate) const MAX_LINE: usize = 1024;

/// The most bytes that the hex words of a line encode.
pub(crate) const HEX_LIMIT: usize = 512;

/// What a line says, with its words as values.
#[derive(Drop)]
pub enum Line {
    /// An empty line, or a comment.
    Nothing,
    /// `layout HEX`: a report descriptor.
    Layout {
        /// The descriptor.
        bytes: ArrayVec<u8, HEX_LIMIT>,
    },
    /// `values HEX`: the bytes of an Input report, with its ID byte where reports are numbered.
    Values {
        /// The report.
        bytes: ArrayVec<u8, HEX_LIMIT>,
    },
    /// `device START KIND HEX`: a device, with its report descriptor.
    Device {
        /// How device and host begin.
        start: Start,
        /// Whether its reports are those of the boot protocol.
        boot: Boot,
        /// The report descriptor.
        bytes: ArrayVec<u8, HEX_LIMIT>,
    },
    /// `begin D REQUEST`: a request that the host begins (USB 2.0, 9.4; HID 1.11, 7.2).
    Begin {
        /// The device, from 1.
        dev: u8,
        /// What the host asks, with the data that go with it.
        request: Request,
    },
    /// Any other line, as `press D U` and `poll D`.
    Step(ShortLine),
}

#[derive(Clone, Copy)]
pub(crate) enum Keyword {
    Layout,
    Values,
    Device,
    Press,
    Release,
    Null,
    Set,
    Move,
    Frame,
    Poll,
    Control,
    Begin,
    Reset,
    Halt,
}

/// The keyword that is this word.
pub(crate) fn read_keyword(word: &[u8]) -> Option<Keyword>
    ensures { result ≡ keyword_of word.now }
{
    match word.len() {
        3 => look_up(&[(b"set", Keyword::Set)], word),
        4 => look_up(
            &[
                (b"null", Keyword::Null),
                (b"move", Keyword::Move),
                (b"poll", Keyword::Poll),
                (b"halt", Keyword::Halt),
            ],
            word,
        ),
        5 => look_up(
            &[
                (b"press", Keyword::Press),
                (b"frame", Keyword::Frame),
                (b"begin", Keyword::Begin),
                (b"reset", Keyword::Reset),
            ],
            word,
        ),
        6 => look_up(
            &[
                (b"layout", Keyword::Layout),
                (b"values", Keyword::Values),
                (b"device", Keyword::Device),
            ],
            word,
        ),
        7 => look_up(
            &[
                (b"release", Keyword::Release),
                (b"control", Keyword::Control),
            ],
            word,
        ),
        _ => None,
    }
}

/// Whether a line, without its end, is empty or a comment, and not too long: `true` only where [`read_line`] gives `Nothing`.
#[tactic(auto, unfolding(crate::specs::Line::meaning_of))]
pub fn says_nothing(line: &[u8]) -> bool
    ensures { IsTrue result → meaning_of line.now ≡ Ok Line.Nothing }
{
    if MAX_LINE < line.len() {
        return false;
    }
    match no_blank(line) {
        None => true,
        Some(start) => line[start] == b'#',
    }
}

/// Reads one line, without its end. No memory is taken: the words are read where they stand.
///
/// # Errors
/// Of several causes the first that is looked for: X2, X1, X3.
#[inline(never)] // one place for what a line says
#[tactic(auto, unfolding(crate::specs::Line::meaning_of))]
pub fn read_line(line: &[u8]) -> Result<Line, LineFault>
    ensures exact { result ≡ meaning_of line.now }
{
    if line.len() > MAX_LINE {
        return Err(LineFault::LineTooLong);
    }
    read_words(line)
}

/// The meaning of a line's words.
#[tactic(auto, unfolding(crate::specs::Line::line_meaning))]
fn read_words(text: &[u8]) -> Result<Line, LineFault>
    requires { length text.now ≤ 1024 }
    ensures { result ≡ line_meaning (words_of text.now) }
{
    let Some((first, rest)) = first_word(text) else {
        return Ok(Line::Nothing);
    };
    if first[0] == b'#' {
        return Ok(Line::Nothing);
    }
    match read_keyword(first) {
        None => Err(LineFault::Syntax),
        Some(keyword) => read_arguments(keyword, rest),
    }
}

/// The meaning of the words after a keyword.
#[tactic(auto, unfolding(crate::specs::Line::words_meaning))]
fn read_arguments(keyword: Keyword, text: &[u8]) -> Result<Line, LineFault>
    requires { length text.now ≤ 1024 }
    ensures { result ≡ words_meaning keyword (words_of text.now) }
{
    match keyword {
        Keyword::Layout => read_layout(text),
        Keyword::Values => read_values(text),
        Keyword::Device => read_attachment(text),
        Keyword::Begin => read_begin(text),
        _ => match read_short_words(keyword, text) {
            Some(short) => Ok(Line::Step(short)),
            None => Err(LineFault::Syntax),
        },
    }
}

/// `HEX`: a report descriptor.
#[inline(never)] // no other line makes room for its bytes
fn read_layout(text: &[u8]) -> Result<Line, LineFault>
    requires { length text.now ≤ 1024 }
    ensures { result ≡ with_bytes Line.Layout (hex_of (words_of text.now)) }
{
    let bytes = read_hex(text)?;
    Ok(Line::Layout { bytes })
}

/// `HEX`: the bytes of an Input report.
#[inline(never)]
fn read_values(text: &[u8]) -> Result<Line, LineFault>
    requires { length text.now ≤ 1024 }
    ensures { result ≡ with_bytes Line.Values (hex_of (words_of text.now)) }
{
    let bytes = read_hex(text)?;
    Ok(Line::Values { bytes })
}

/// `START KIND HEX`: a device, with its report descriptor.
#[inline(never)]
#[tactic(auto, unfolding(crate::specs::Line::device_meaning))]
fn read_attachment(text: &[u8]) -> Result<Line, LineFault>
    requires { length text.now ≤ 1024 }
    ensures { result ≡ device_meaning (words_of text.now) }
{
    let Some((start, kind, hex)) = first_two_words(text) else {
        return Err(LineFault::Syntax);
    };
    let Some((start, boot)) = read_start(start).zip(read_boot(kind)) else {
        return Err(LineFault::Syntax);
    };
    let bytes = read_hex(hex)?;
    Ok(Line::Device { start, boot, bytes })
}
