//! What a line of a recording says.

ghost use Rattle.std.specs.Prelude.{◌≡◌, ◌≢◌, None, Ok, Err, IfErr, IfSome, MatchResult, map};
ghost use Rattle.hid_text.specs.Words.{words_of};
ghost use Rattle.std.specs.Option.{option_map};
ghost use Rattle.hid_recording.specs.Words.{IsNone, decimal_of, spelled_bytes};
ghost use Rattle.hid_recording.specs.Records.{record_of, text_record, device_record, descriptor_record, meaning_of_record, Unread, report_record, Report, bytes_if_counted, miscount, only_word, dump_record, header_record, begins_at, dump_begin, time_record, ReadsRecord};
ghost use Rattle.hid_recording.specs.MemoryUse.{RunsOutIf, has_words};

use super::dump::{Address, Content};
use super::fault::{Cause, Refusal};
use super::line_fields::{
    DeviceNumber, next_count, next_time, parts_of_word, read_address, read_content, read_count,
    read_device, read_time,
};
use super::spelled::{put_pairs, put_spelled};
use hid_input::{RecordedFault, read_recorded};
use hid_text::first_word;
use std::alloc::Global;

/// What a line says.
#[derive(Drop)]
pub enum Record<'a> {
    /// `#`, and `N:`, `P:` and `I:`, which name a device.
    Nothing,
    /// An empty line, which ends a dump.
    Blank,
    /// `D: DEVICE`: what follows is of this device.
    Device(DeviceNumber),
    /// `R: COUNT BYTES`: the report descriptor of the device.
    Descriptor(Vec<u8>),
    /// A report descriptor whose bytes can't be read; or a refused head of a descriptor's dump, with its interface.
    Unread {
        interface: Option<Address>,
        refusal: Refusal,
    },
    /// `E: TIME COUNT BYTES`: a report of the device.
    Report {
        time: &'a str,
        bytes: Vec<u8>,
    },
    /// `BUS:DEVICE:INTERFACE:CONTENT TIME`: a dump begins.
    Begins {
        address: Address,
        content: Content,
        time: &'a str,
    },
    /// A space and HEX: bytes of a dump, or why there are none.
    Bytes(Result<Vec<u8>, Refusal>),
}

/// Reads one line, without its end.
///
/// # Errors
/// R1 and R3 to R6: the first refusal of what the line says, or R10 if memory runs out for its words or bytes. A line
/// without words takes no memory.
#[tactic(auto, unfolding(crate::specs::Records::record_of))]
pub fn read_record(alloc: Global, line: &[u8]) -> Result<Record<'_>, Cause>
    ensures read { ReadsRecord result (record_of line.now) }
    ensures memory { RunsOutIf (has_words line.now) result }
{
    match line {
        [] => Ok(Record::Blank),
        [b'#', ..] => Ok(Record::Nothing),
        [b' ', rest @ ..] => read_dumped(alloc, rest),
        [b'0'..=b'9', ..] => read_header(alloc, line),
        [letter, b':', rest @ ..] => read_words(alloc, *letter, rest),
        _ => Err(Cause::Refused(Refusal::Syntax)),
    }
}

/// Reads the text after the letter.
#[tactic(auto, unfolding(crate::specs::Records::text_record))]
fn read_words(alloc: Global, letter: u8, text: &[u8]) -> Result<Record<'_>, Cause>
    ensures { ReadsRecord result (text_record letter text.now) }
{
    match letter {
        b'N' | b'P' | b'I' => Ok(Record::Nothing),
        b'D' => read_selection(text),
        b'R' => read_descriptor(alloc, text),
        b'E' => read_reported(alloc, text),
        _ => Err(Cause::Refused(Refusal::Syntax)),
    }
}

/// The word of a text that has no other.
#[tactic(auto, unfolding(crate::specs::Records::only_word))]
fn only_word(text: &[u8]) -> Option<&[u8]>
    ensures { option_map (λ word. word.now) result ≡ only_word (words_of text.now) }
{
    let (word, more) = first_word(text)?;
    match first_word(more) {
        Some(_) => None,
        None => Some(word),
    }
}

/// Reads the words after `D:`, which are `DEVICE`.
fn read_selection(text: &[u8]) -> Result<Record<'_>, Cause>
    ensures read { ReadsRecord result (device_record (words_of text.now)) }
    ensures refusal { IfErr result (λ cause. cause ≢ Cause.Memory) }
{
    let Some(word) = only_word(text) else {
        return Err(Cause::Refused(Refusal::BadDevice));
    };
    match read_device(word) {
        Some(device) => Ok(Record::Device(device)),
        None => Err(Cause::Refused(Refusal::BadDevice)),
    }
}

/// Why a count, if there is one, isn't that of the bytes that were found.
fn miscount(said: Option<u64>, found: usize) -> Option<Refusal>
    ensures { result ≡ miscount said found }
{
    match said {
        None => Some(Refusal::NoCount),
        Some(said) if said == found as u64 => None,
        Some(said) => Some(Refusal::BadCount { said, found }),
    }
}

/// Puts the bytes that a text spells in place of those that were there, if they are as many as were counted.
fn put_counted(
    alloc: Global,
    bytes: &mut Vec<u8>,
    said: Option<u64>,
    text: &[u8],
) -> Result<(), Cause>
    ensures { MatchResult result
        (λ _. bytes_if_counted said (spelled_bytes text.now) ≡ Ok bytes.new.items)
        (λ cause. IsNone cause (bytes_if_counted said (spelled_bytes text.now))) }
{
    put_spelled(alloc, bytes, text)?;
    match miscount(said, bytes.len()) {
        None => Ok(()),
        Some(refusal) => Err(Cause::Refused(refusal)),
    }
}

/// A descriptor whose bytes can't be read.
fn unread<'a>(refusal: Refusal) -> Record<'a>
    ensures { meaning_of_record result ≡ Unread None refusal }
{
    Record::Unread {
        interface: None,
        refusal,
    }
}

/// Reads the text after `R:`, which is `COUNT BYTES`.
fn read_descriptor(alloc: Global, text: &[u8]) -> Result<Record<'_>, Cause>
    ensures { ReadsRecord result (Ok (descriptor_record text.now)) }
{
    match read_recorded(alloc, text) {
        Ok(bytes) => Ok(Record::Descriptor(bytes)),
        Err(RecordedFault::NoCount) => Ok(unread(Refusal::NoCount)),
        Err(RecordedFault::BadHex { at }) => Ok(unread(Refusal::BadHex { at: at as usize })),
        Err(RecordedFault::BadCount { said, found }) => {
            let found = found as usize;
            Ok(unread(Refusal::BadCount { said, found }))
        }
        Err(RecordedFault::Memory) => Err(Cause::Memory),
    }
}

/// Reads the text after `E:` in one pass, where it is as `hid-recorder` writes it: a time, a count and bytes of two digits, with a space
/// in front of each. None where it is any other text, or memory is missing for the bytes.
fn read_plain<'a>(bytes: &mut Vec<u8>, text: &'a [u8]) -> Option<&'a str>
    ensures { IfSome result (λ time. report_record text.now ≡ Ok (Report time.now bytes.new.items)) }
{
    let (time, behind) = next_time(text)?;
    let (said, hex) = next_count(behind)?;
    if put_pairs(bytes, hex) && said == bytes.len() as u64 {
        Some(time)
    } else {
        None
    }
}

/// Reads the text after `E:`, whatever stands in it.
#[inline(never)] // so that a text that is read in one pass costs less
fn read_any_report<'a>(alloc: Global, bytes: &mut Vec<u8>, text: &'a [u8]) -> Result<&'a str, Cause>
    ensures { MatchResult result
        (λ time. report_record text.now ≡ Ok (Report time.now bytes.new.items))
        (λ cause. IsNone cause (report_record text.now)) }
{
    let Some((time, behind)) = first_word(text) else {
        return Err(Cause::Refused(Refusal::NoCount));
    };
    let Some((count, hex)) = first_word(behind) else {
        return Err(Cause::Refused(Refusal::NoCount));
    };
    let Some(time) = read_time(time) else {
        return Err(Cause::Refused(Refusal::BadTime));
    };
    match put_counted(alloc, bytes, read_count(count), hex) {
        Ok(()) => Ok(time),
        Err(cause) => Err(cause),
    }
}

/// Reads the text after `E:`, which is `TIME COUNT BYTES`: gives the time, and puts the bytes in place of those that were there.
///
/// # Errors
/// R3 to R6: the first refusal of what the text says, or R10 if memory runs out for the bytes.
pub fn read_report<'a>(alloc: Global, bytes: &mut Vec<u8>, text: &'a [u8]) -> Result<&'a str, Cause>
    ensures { MatchResult result
        (λ time. report_record text.now ≡ Ok (Report time.now bytes.new.items))
        (λ cause. IsNone cause (report_record text.now)) }
{
    match read_plain(bytes, text) {
        Some(time) => Ok(time),
        None => read_any_report(alloc, bytes, text),
    }
}

/// Reads the text after `E:`, as a record of its own.
fn read_reported(alloc: Global, text: &[u8]) -> Result<Record<'_>, Cause>
    ensures { ReadsRecord result (report_record text.now) }
{
    let mut bytes = Vec::new(alloc);
    match read_report(alloc, &mut bytes, text) {
        Ok(time) => Ok(Record::Report { time, bytes }),
        Err(cause) => Err(cause),
    }
}

/// Reads the text after a space, which is bytes of a dump.
fn read_dumped(alloc: Global, text: &[u8]) -> Result<Record<'_>, Cause>
    ensures { ReadsRecord result (dump_record text.now) }
{
    let mut bytes = Vec::new(alloc);
    match put_spelled(alloc, &mut bytes, text) {
        Ok(()) => Ok(Record::Bytes(Ok(bytes))),
        Err(Cause::Refused(refusal)) => Ok(Record::Bytes(Err(refusal))),
        Err(cause) => Err(cause),
    }
}

/// Reads the head of a dump, `BUS:DEVICE:INTERFACE:CONTENT TIME`.
fn read_header(alloc: Global, text: &[u8]) -> Result<Record<'_>, Cause>
    ensures { ReadsRecord result (header_record (words_of text.now)) }
{
    let Some((address, time)) = first_word(text) else {
        return Err(Cause::Refused(Refusal::Syntax));
    };
    let parts = parts_of_word(alloc, address)?;
    read_begin(parts.as_slice(), time)
}

/// Reads the head of a dump from the parts of its address and the words after it.
fn read_begin<'a>(parts: &[&[u8]], time: &'a [u8]) -> Result<Record<'a>, Cause>
    ensures read { ReadsRecord result (begins_at (map (λ part. part.now) parts.now)
        (time_record (words_of time.now))) }
    ensures refusal { IfErr result (λ cause. cause ≢ Cause.Memory) }
{
    let [bus, device, interface, content] = parts else {
        return Err(Cause::Refused(Refusal::Syntax));
    };
    let Some(address) = read_address(bus, device, interface) else {
        return Err(Cause::Refused(Refusal::Syntax));
    };
    let Some(content) = read_content(content) else {
        return Err(Cause::Refused(Refusal::Syntax));
    };
    match read_begin_time(time) {
        Ok(time) => Ok(Record::Begins {
            address,
            content,
            time,
        }),
        Err(refusal) => refuse_begin(address, content, refusal),
    }
}

/// Reads the words after the address in the head of a dump, which are `TIME`.
fn read_begin_time(text: &[u8]) -> Result<&str, Refusal>
    ensures { MatchResult result
        (λ time. time_record (words_of text.now) ≡ Ok time.now)
        (λ refusal. time_record (words_of text.now) ≡ Err refusal) }
{
    let Some(time) = only_word(text) else {
        return Err(Refusal::Syntax);
    };
    match read_time(time) {
        Some(time) => Ok(time),
        None => Err(Refusal::BadTime),
    }
}

/// What the head of a dump says that is refused: of a descriptor, that its bytes can't be read.
fn refuse_begin<'a>(
    address: Address,
    content: Content,
    refusal: Refusal,
) -> Result<Record<'a>, Cause>
    ensures read { ReadsRecord result (dump_begin address content (Err refusal)) }
    ensures refusal { IfErr result (λ cause. cause ≢ Cause.Memory) }
{
    match content {
        Content::Descriptor => Ok(Record::Unread {
            interface: Some(address),
            refusal,
        }),
        Content::Stream => Err(Cause::Refused(refusal)),
    }
}
