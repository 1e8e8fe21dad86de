//! The header and the records of pcap files.

ghost use Rattle.std.specs.Prelude.{◌≡◌, ◌≤◌, length, IfOk};
ghost use Rattle.usb_capture.specs.Pcap.{header_reading, record_reading, record_time};
ghost use Rattle.usb_capture.specs.Reading.{HasFrame};

use super::extent::{PCAP_HEADER, RECORD_HEAD};
use super::fault::Cause;
use super::field::{ByteOrder, u16_at, u32_at};
use super::format::{Format, Fraction};
use super::reading::{FrameHead, Reading};

/// The version before the point.
const MAJOR_VERSION: u16 = 2;

/// The version after the point.
const MINOR_VERSION: u16 = 4;

/// How many values the lower half of the number has that begins with the link type.
const LINK_TYPES: u32 = 0x1_0000;

/// How many nanoseconds a second has.
const SECOND: u64 = 1_000_000_000;

/// How many nanoseconds a microsecond has.
const MICROSECOND: u64 = 1_000;

/// The header of a file.
///
/// # Errors
/// [`Cause::BadVersion`], of another version than 2.4; [`Cause::TooShort`], of less than a header.
#[tactic(auto, unfolding(crate::specs::Pcap::header_reading))]
pub(crate) fn read_header(
    order: ByteOrder,
    fraction: Fraction,
    block: &[u8],
) -> Result<Reading, Cause>
    ensures content { result ≡ header_reading order fraction block.now }
    ensures frame { IfOk result (λ content. HasFrame content (length block.now)) }
{
    if block.len() < PCAP_HEADER {
        return Err(Cause::TooShort);
    }
    if u16_at(order, block, 4) != MAJOR_VERSION || u16_at(order, block, 6) != MINOR_VERSION {
        return Err(Cause::BadVersion);
    }
    // The upper half is of check sequences, which captures of the bus have none of.
    let link = (u32_at(order, block, 20) % LINK_TYPES) as u16;
    Ok(Reading::Begins(Format::Pcap {
        order,
        fraction,
        link,
    }))
}

/// The time of a record, in nanoseconds since 1970.
#[tactic(auto, unfolding(crate::specs::Pcap::record_time))]
fn record_time(fraction: Fraction, seconds: u32, parts: u32) -> u64
    ensures { result ≡ record_time fraction seconds parts }
{
    let part = match fraction {
        Fraction::Microseconds => MICROSECOND,
        Fraction::Nanoseconds => 1,
    };
    seconds as u64 * SECOND + parts as u64 * part
}

/// A record.
#[tactic(auto, unfolding(crate::specs::Pcap::record_reading))]
pub(crate) fn read_record(order: ByteOrder, fraction: Fraction, link: u16, block: &[u8]) -> Reading
    requires { 16 ≤ length block.now }
    ensures content { result ≡ record_reading order fraction link block.now }
    ensures frame { HasFrame result (length block.now) }
{
    Reading::Captured(FrameHead {
        time: Some(record_time(fraction, u32_at(order, block, 0), u32_at(order, block, 4))),
        link,
        order,
        original_length: u32_at(order, block, 12),
        from: RECORD_HEAD,
        captured: block.len() - RECORD_HEAD,
    })
}
