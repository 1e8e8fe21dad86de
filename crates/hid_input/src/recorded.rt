//! Lines of hid-recorder, usbhid-dump and umockdev.

ghost use Rattle.std.specs.Prelude.{◌≡◌, not, MatchResult};
ghost use Rattle.std.specs.List.{find, list_any};
ghost use Rattle.std.specs.Option.{option_copied};
ghost use Rattle.hid_input.specs.Text.{lines_of};
ghost use Rattle.hid_input.specs.Recorded.{pairs_before, hex_of, recorded_bytes, IsFault, after_letter, after_property, is_record_letter, begins_with_letter, is_record, is_passed, is_beside_letter, is_beside, begins_recording, has_record, is_recording, is_descriptor, is_stream, has_time, is_libinput_line, is_libinput};

use crate::known::begins_text;
use crate::text::{
    behind_part, first_word, is_empty_line, is_text, split_word, trimmed_text, without_mark,
    without_space,
};
use crate::words::{Parting, Reading, add_words, byte_of_pair, number_of};
use std::alloc::{AllocError, Global};
use std::fmt;

/// Why the bytes of `COUNT HEX` can't be read.
#[derive(Clone, Copy, Debug, PartialEq, Eq)]
pub enum RecordedFault {
    /// The count is missing, or no number.
    NoCount,
    /// A byte isn't two hex digits; this many bytes are before it.
    BadHex { at: u64 },
    /// The count isn't that of the bytes.
    BadCount { said: u64, found: u64 },
    /// Memory ran out.
    Memory,
}

impl fmt::Display for RecordedFault {
    ghost use Rattle.std.specs.Prelude.{Some};
    ghost use Rattle.hid_input.specs.Faults.{recorded_text};

    ghost output = { λ fault. Some (recorded_text fault) };

    fn fmt<W: fmt::Write>(&self, f: &mut fmt::Formatter<W>) -> fmt::Result {
        match *self {
            RecordedFault::NoCount => f.write_str("the count is missing, or no number"),
            RecordedFault::BadHex { at } => write!(f, "byte {at} isn't two hex digits"),
            RecordedFault::BadCount { said, found } => {
                write!(f, "the count is {said}, that of the bytes {found}")
            }
            RecordedFault::Memory => f.write_str("out of memory"),
        }
    }
}

impl From<AllocError> for RecordedFault {
    ghost use Rattle.hid_input.specs.declared.recorded.RecordedFault.TheVariants.{Memory};

    ghost from_gives = { λ _ fault. fault ≡ Memory };

    fn from(_error: AllocError) -> RecordedFault {
        RecordedFault::Memory
    }
}

/// How many pairs of hex digits a text has before what is none.
fn pairs_before(text: &[u8]) -> u64
    ensures { result ≡ pairs_before text.now }
{
    let mut count = 0u64;
    let mut rest = without_space(text);
    while rest.len() >= 2 {
        let (pair, more) = rest.split_at(2);
        if byte_of_pair(pair).is_none() {
            return count;
        }
        count += 1;
        rest = without_space(more);
    }
    count
}

/// The bytes of words of hex, as tools write them after a mark.
///
/// # Errors
/// [`RecordedFault::BadHex`], [`RecordedFault::Memory`].
pub fn read_hex(alloc: Global, text: &[u8]) -> Result<Vec<u8>, RecordedFault>
    ensures { MatchResult result (λ bytes. hex_of text.now ≡ Ok bytes.items) (λ fault. IsFault fault (hex_of text.now)) }
{
    let mut bytes = Vec::new(alloc);
    match add_words(&mut bytes, text, Reading::Runs, Parting::Space)? {
        None => Ok(bytes),
        Some(_) => Err(RecordedFault::BadHex {
            at: pairs_before(text),
        }),
    }
}

/// The bytes of `COUNT HEX`, the text after `R:`: words of hex, as many bytes as the count says.
///
/// # Errors
/// [`RecordedFault::NoCount`], [`RecordedFault::BadHex`], [`RecordedFault::BadCount`], [`RecordedFault::Memory`].
pub fn read_recorded(alloc: Global, text: &[u8]) -> Result<Vec<u8>, RecordedFault>
    ensures { MatchResult result (λ bytes. recorded_bytes text.now ≡ Ok bytes.items) (λ fault. IsFault fault (recorded_bytes text.now)) }
{
    let (count, hex) = split_word(without_space(text));
    let Some(said) = number_of(count, 10) else {
        return Err(RecordedFault::NoCount);
    };
    let bytes = read_hex(alloc, hex)?;
    let found = bytes.len() as u64;
    if found != said {
        return Err(RecordedFault::BadCount { said, found });
    }
    Ok(bytes)
}

/// What stands after the `R:` of a line.
pub fn after_letter(line: &[u8]) -> Option<&[u8]>
    ensures { option_copied result ≡ after_letter line.now }
{
    behind_part(without_space(line), b"R:")
}

/// What stands after the `H: report_descriptor=` of a line of umockdev.
pub fn after_property(line: &[u8]) -> Option<&[u8]>
    ensures { option_copied result ≡ after_property line.now }
{
    behind_part(without_space(line), b"H: report_descriptor=")
}

/// Whether a byte is the letter of a line of hid-recorder.
fn is_record_letter(byte: u8) -> bool
    ensures { result ≡ is_record_letter byte }
{
    matches!(byte, b'D' | b'E' | b'I' | b'N' | b'P' | b'R')
}

/// Whether a line is one that usbhid-dump prints before a descriptor: `BUS:DEVICE:INTERFACE:DESCRIPTOR`.
pub fn is_descriptor(line: &[u8]) -> bool
    ensures { result ≡ is_descriptor line.now }
{
    first_word(line).ends_with(b":DESCRIPTOR")
}

/// Whether a line is one that usbhid-dump prints before reports.
pub fn is_stream(line: &[u8]) -> bool
    ensures { result ≡ is_stream line.now }
{
    first_word(line).ends_with(b":STREAM")
}

/// Whether after the first word of a line there is at most one more, of digits and points.
pub fn has_time(line: &[u8]) -> bool
    ensures { result ≡ has_time line.now }
{
    let (_, rest) = split_word(without_space(line));
    trimmed_text(rest)
        .iter()
        .all(|byte| byte.is_ascii_digit() || *byte == b'.')
}

/// Whether a line is one of a recording: `D:`, `E:`, `I:`, `N:`, `P:` or `R:`, or the head of a dump of usbhid-dump. One after
/// blanks is taken for such too, so that it isn't passed over: what plays recordings refuses it by name.
fn is_record(line: &[u8]) -> bool
    ensures { result ≡ is_record line.now }
{
    let text = without_space(line);
    (text.len() >= 2 && is_record_letter(text[0]) && text[1] == b':')
        || is_descriptor(line)
        || is_stream(line)
}

/// Whether a line says nothing: it is empty or a comment.
fn is_passed(line: &[u8]) -> bool
    ensures { result ≡ is_passed line.now }
{
    is_empty_line(line) || (line.len() >= 1 && line[0] == b'#')
}

/// Whether a byte is the letter of a line of hid-recorder or umockdev.
fn is_beside_letter(byte: u8) -> bool
    ensures { result ≡ is_beside_letter byte }
{
    is_record_letter(byte) || matches!(byte, b'A' | b'H' | b'L' | b'S')
}

/// Whether a line may be beside an `R:` line, whatever white space is in front: it begins with a letter and a colon, or says nothing.
pub fn is_beside(line: &[u8]) -> bool
    ensures { result ≡ is_beside line.now }
{
    let text = without_space(line);
    is_passed(text) || (text.len() >= 2 && is_beside_letter(text[0]) && text[1] == b':')
}

/// The first line that is neither empty nor a comment.
fn first_said(text: &[u8]) -> Option<&[u8]>
    ensures { option_copied result ≡ find (λ line. not (is_passed line)) (lines_of text.now) }
{
    text.split(|byte| *byte == b'\n')
        .find(|line| !is_passed(line))
}

/// Whether a line is `libinput:`.
fn is_libinput_line(line: &[u8]) -> bool
    ensures { result ≡ is_libinput_line line.now }
{
    trimmed_text(line) == b"libinput:".as_slice()
}

/// Whether some line of a text is `libinput:`.
fn has_libinput(text: &[u8]) -> bool
    ensures { result ≡ list_any is_libinput_line (lines_of text.now) }
{
    text.split(|byte| *byte == b'\n')
        .any(|line| is_libinput_line(line))
}

/// Whether a text is a libinput record: the first of its lines that is neither empty nor a comment is `version: N`, and one is `libinput:`.
pub fn is_libinput(text: &[u8]) -> bool
    ensures { result ≡ is_libinput text.now }
{
    match first_said(text) {
        Some(line) => line.starts_with(b"version: ") && has_libinput(text),
        None => false,
    }
}

/// Whether a text begins as recordings do: the first of its lines that is neither empty nor a comment is one of a recording.
/// So is a text that has no other lines yet.
pub fn begins_recording(text: &[u8]) -> bool
    ensures { result ≡ begins_recording text.now }
{
    match first_said(text) {
        Some(line) => is_record(line),
        None => true,
    }
}

/// Whether some line of a text is one of a recording.
fn has_record(text: &[u8]) -> bool
    ensures { result ≡ has_record text.now }
{
    text.split(|byte| *byte == b'\n')
        .any(|line| is_record(line))
}

/// Whether bytes are the text of a recording: some line is one that hid-recorder or usbhid-dump writes. Control characters may stand
/// in such a text, as in the name of a device, where its first eight bytes are characters.
pub fn is_recording(bytes: &[u8]) -> bool
    ensures { result ≡ is_recording bytes.now }
{
    let text = without_mark(bytes);
    (is_text(text) || begins_text(text)) && has_record(text)
}
