//! What a word says by itself: bytes, a count, a device, a time, whose dump it is.

ghost use Rattle.std.specs.Prelude.{◌≡◌, ◌+◌, ◌*◌, ◌<◌, ◌≤◌, Some, Ok, IfOk, IfSome, MatchResult, length, map, position};
ghost use Rattle.std.specs.List.{slice_split};
ghost use Rattle.std.specs.Option.{option_map};
ghost use Rattle.hid_text.specs.Words.{words_of};
ghost use Rattle.hid_recording.specs.declared.line_fields.TheConstants.{MAX_DEVICES};
ghost use Rattle.hid_recording.specs.Words.{AddsBytes, AddsFirst, BeginsWithCount, BeginsWithPair, BeginsWithTime, IsNone, ends_word, bytes_before, bytes_of, decimal_of, in_devices, device_of_word, is_time_byte, is_no_time_byte, is_time, time_of, is_colon, address_of, content_of};

use super::dump::{Address, Content};
use super::fault::{Cause, Refusal};
use hex::FromHexError;
use hid_text::{first_word, hex_pair, read_number};
use std::alloc::{AllocError, Global};

/// How many devices a recording has room for (our choice).
pub const MAX_DEVICES: usize = 16;

/// The most bytes of a time (our choice): it is printed in front of each event of its report.
const MAX_TIME: usize = 32;

/// How many bytes of a word stand before the first that isn't two hex digits, or before its end.
fn bytes_before(word: &[u8]) -> usize
    ensures value { result ≡ bytes_before word.now }
    ensures room { 2 * result ≤ length word.now }
{
    let mut count = 0;
    let mut rest = word;
    while let [high, low, more @ ..] = rest {
        if hex_pair(*high, *low).is_none() {
            return count;
        }
        count += 1;
        rest = more;
    }
    count
}

/// Why a word after these bytes isn't pairs of hex digits.
fn bad_hex(bytes: &[u8], word: &[u8]) -> Refusal
    ensures { result ≡ Refusal.BadHex (length bytes.now + bytes_before word.now) }
{
    Refusal::BadHex {
        at: bytes.len() + bytes_before(word),
    }
}

/// Adds the bytes that a word of more or fewer than two digits encodes.
fn add_decoded(alloc: Global, bytes: &mut Vec<u8>, word: &[u8]) -> Result<(), Cause>
    ensures { AddsBytes bytes.old.items bytes.new.items word.now result }
{
    match hex::decode(alloc, word) {
        Ok(more) => {
            if bytes.extend_from_slice(more.as_slice()).is_err() {
                return Err(Cause::Memory);
            }
            Ok(())
        }
        Err(FromHexError::OutOfMemory) => Err(Cause::Memory),
        Err(
            FromHexError::InvalidHexCharacter { .. }
            | FromHexError::OddLength
            | FromHexError::InvalidStringLength,
        ) => Err(Cause::Refused(bad_hex(bytes, word))),
    }
}

/// Adds the bytes that a word encodes: two hex digits for each.
///
/// # Errors
/// R3 at the first byte that isn't two digits, R10 if memory runs out.
pub fn add_word(alloc: Global, bytes: &mut Vec<u8>, word: &[u8]) -> Result<(), Cause>
    ensures { AddsBytes bytes.old.items bytes.new.items word.now result }
{
    let [high, low] = word else {
        return add_decoded(alloc, bytes, word);
    };
    match hex_pair(*high, *low) {
        None => Err(Cause::Refused(bad_hex(bytes, word))),
        Some(byte) => {
            if bytes.push(byte).is_err() {
                return Err(Cause::Memory);
            }
            Ok(())
        }
    }
}

/// Whether a text has no byte, or begins with a space or a tab.
fn ends_word(text: &[u8]) -> bool
    ensures { result ≡ ends_word text.now }
{
    match text {
        [] => true,
        [next, ..] => *next == b' ' || *next == b'\t',
    }
}

/// The byte of two hex digits between blanks, the first of them a space, and what stands after the digits. It takes a fraction
/// of the time of [`first_word`]; most words of a recording are such.
pub fn next_pair(text: &[u8]) -> Option<(u8, &[u8])>
    ensures pair { IfSome result (λ found. BeginsWithPair (words_of text.now) found.0 (words_of found.1.now)) }
    ensures room { IfSome result (λ found. length found.1.now < length text.now) }
{
    let [b' ', high, low, more @ ..] = text else {
        return None;
    };
    if !ends_word(more) {
        return None;
    }
    let byte = hex_pair(*high, *low)?;
    Some((byte, more))
}

/// Adds the bytes that the first word of a text encodes. Returns what stands after it, or none where there is no word.
fn add_first<'a>(
    alloc: Global,
    bytes: &mut Vec<u8>,
    text: &'a [u8],
) -> Result<Option<&'a [u8]>, Cause>
    ensures added { AddsFirst bytes.old.items bytes.new.items (words_of text.now) result }
    ensures room { IfOk result (λ left. IfSome left (λ more. length more.now < length text.now)) }
{
    if let Some((byte, more)) = next_pair(text) {
        return match bytes.push(byte) {
            Ok(()) => Ok(Some(more)),
            Err(_) => Err(Cause::Memory),
        };
    }
    let Some((word, more)) = first_word(text) else {
        return Ok(None);
    };
    match add_word(alloc, bytes, word) {
        Ok(()) => Ok(Some(more)),
        Err(cause) => Err(cause),
    }
}

/// The bytes that the words of a text encode in hex, joined: two digits for each.
///
/// # Errors
/// R3 at the first byte that isn't two digits, R10 if memory runs out for the bytes before it.
pub fn read_bytes(alloc: Global, text: &[u8]) -> Result<Vec<u8>, Cause>
    ensures { MatchResult result
        (λ bytes. bytes_of (words_of text.now) ≡ Ok bytes.items)
        (λ cause. IsNone cause (bytes_of (words_of text.now))) }
{
    let mut bytes = Vec::new(alloc);
    let mut rest = text;
    loop {
        match add_first(alloc, &mut bytes, rest) {
            Ok(Some(more)) => rest = more,
            Ok(None) => return Ok(bytes),
            Err(cause) => return Err(cause),
        }
    }
}

/// The count that a word says, in decimal digits.
pub fn read_count(word: &[u8]) -> Option<u64>
    ensures { result ≡ decimal_of word.now }
{
    read_number(10, word)
}

/// The count of one digit between blanks, the first of them a space, and what stands after it.
fn next_digit(text: &[u8]) -> Option<(u64, &[u8])>
    ensures { IfSome result (λ found. BeginsWithCount text.now found.0 found.1.now) }
{
    let [b' ', digit @ b'0'..=b'9', more @ ..] = text else {
        return None;
    };
    if !ends_word(more) {
        return None;
    }
    Some((u64::from(*digit - b'0'), more))
}

/// The count that the first word of a text says, and what stands after it. Most reports have fewer than ten bytes: one digit takes a
/// fraction of the time of a word.
pub fn next_count(text: &[u8]) -> Option<(u64, &[u8])>
    ensures { IfSome result (λ found. BeginsWithCount text.now found.0 found.1.now) }
{
    if let Some(found) = next_digit(text) {
        return Some(found);
    }
    let (word, more) = first_word(text)?;
    match read_count(word) {
        Some(count) => Some((count, more)),
        None => None,
    }
}

/// The number of a device.
#[derive(Clone, Copy)]
pub struct DeviceNumber {
    pub number: u8,
    ghost small: { number < MAX_DEVICES },
}

/// The device of this number, if there is one.
pub fn device_of(number: u8) -> Option<DeviceNumber>
    ensures { option_map (λ device. device.number) result ≡ in_devices (Some number) }
{
    if usize::from(number) < MAX_DEVICES {
        Some(DeviceNumber { number })
    } else {
        None
    }
}

/// The device that a word names: decimal digits, 0 to 15.
pub fn read_device(word: &[u8]) -> Option<DeviceNumber>
    ensures value { option_map (λ device. device.number) result ≡ device_of_word word.now }
{
    match read_number(10, word)? {
        device @ 0..=15 => Some(DeviceNumber {
            number: device as u8,
        }),
        _ => None,
    }
}

/// Whether a byte is a digit or a point.
fn is_time_byte(byte: u8) -> bool
    ensures { result ≡ is_time_byte byte }
{
    matches!(byte, b'0'..=b'9' | b'.')
}

/// Whether a word is digits and points alone.
fn is_time(word: &[u8]) -> bool
    ensures { result ≡ is_time word.now }
{
    word.iter().all(|byte| is_time_byte(*byte))
}

/// The time that a word encodes: digits and points, at most [`MAX_TIME`].
pub fn read_time(word: &[u8]) -> Option<&str>
    ensures { option_map (λ time. time.now) result ≡ time_of word.now }
{
    if word.len() > MAX_TIME || !is_time(word) {
        return None;
    }
    std::str::from_utf8(word).ok()
}

/// Where the first byte of a text stands that is neither a digit nor a point.
fn time_end(text: &[u8]) -> Option<usize>
    ensures { result ≡ position is_no_time_byte text.now }
{
    text.iter().position(|byte| !is_time_byte(*byte))
}

/// The time of a text that begins with a space and a time, and what stands after it. It takes half the time of [`first_word`] and
/// [`read_time`]; nearly every report of a recording begins so.
pub fn next_time(text: &[u8]) -> Option<(&str, &[u8])>
    ensures { IfSome result (λ found. BeginsWithTime text.now found.0.now found.1.now) }
{
    let [b' ', rest @ ..] = text else {
        return None;
    };
    let end = time_end(rest).unwrap_or(rest.len());
    if end == 0 || end > MAX_TIME || !ends_word(&rest[end..]) {
        return None;
    }
    let time = std::str::from_utf8(&rest[..end]).ok()?;
    Some((time, &rest[end..]))
}

/// What stands between the colons of a word.
///
/// # Errors
/// [`AllocError`] if memory runs out for the places of the parts.
pub fn parts_of_word(alloc: Global, word: &[u8]) -> Result<Vec<&[u8]>, AllocError>
    ensures { IfOk result (λ parts. map (λ part. part.now) parts.items ≡ slice_split is_colon word.now) }
{
    word.split(|byte| *byte == b':').collect(alloc)
}

/// The interface that three numbers name: of a bus, of a device on it, and of the interface.
pub fn read_address(bus: &[u8], device: &[u8], interface: &[u8]) -> Option<Address>
    ensures { result ≡ address_of bus.now device.now interface.now }
{
    let bus = read_number(10, bus)?;
    let device = read_number(10, device)?;
    let interface = read_number(10, interface)?;
    Some(Address {
        bus,
        device,
        interface,
    })
}

/// What a dump is of, by its word.
pub fn read_content(word: &[u8]) -> Option<Content>
    ensures { result ≡ content_of word.now }
{
    if word == b"DESCRIPTOR".as_slice() {
        Some(Content::Descriptor)
    } else if word == b"STREAM".as_slice() {
        Some(Content::Stream)
    } else {
        None
    }
}
