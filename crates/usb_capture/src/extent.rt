//! How long the next block of a capture is, by its first bytes.

ghost use Rattle.std.specs.Prelude.{◌≡◌, ◌<◌, ◌≤◌, length};
ghost use Rattle.usb_capture.specs.Extent.{head_length, extent, pcap_kind, section_order, section_extent, block_extent, length_extent, is_capture};

use super::fault::Cause;
use super::field::{ByteOrder, u32_at};
use super::format::{Format, Fraction};

/// How many bytes a block has at most, and the frame of a pcap record.
pub const MAX_BLOCK: u32 = 16_777_216;

/// The block type of a section header, which reads the same in both byte orders.
pub(crate) const SECTION: u32 = 0x0A0D_0D0A;

/// The byte-order magic of a section.
const ORDER: u32 = 0x1A2B_3C4D;

/// The byte-order magic of a section in the other order, as it reads in this one.
const SWAPPED_ORDER: u32 = 0x4D3C_2B1A;

/// The bytes of a pcap header.
pub(crate) const PCAP_HEADER: usize = 24;

/// The bytes of a pcap record before its frame.
pub(crate) const RECORD_HEAD: usize = 16;

/// The bytes of a block that is nothing but its type, its length, four more bytes, or its length again.
const LEAST_BLOCK: u32 = 12;

/// How many bytes have the length of the next block.
pub(crate) fn head_length(format: Format) -> usize
    ensures { result ≡ head_length format }
{
    match format {
        Format::Unknown => 12,
        Format::Pcap { .. } => RECORD_HEAD,
        Format::Section { .. } => 12,
    }
}

/// The byte order and the fraction of a pcap file, by its magic number read with the lowest byte first.
#[tactic(auto, unfolding(crate::specs::Extent::pcap_kind))]
pub(crate) fn pcap_kind(magic: u32) -> Option<(ByteOrder, Fraction)>
    ensures { result ≡ pcap_kind magic }
{
    match magic {
        0xA1B2_C3D4 => Some((ByteOrder::Little, Fraction::Microseconds)),
        0xD4C3_B2A1 => Some((ByteOrder::Big, Fraction::Microseconds)),
        0xA1B2_3C4D => Some((ByteOrder::Little, Fraction::Nanoseconds)),
        0x4D3C_B2A1 => Some((ByteOrder::Big, Fraction::Nanoseconds)),
        _ => None,
    }
}

/// Whether a file that begins with these bytes is a capture: its first four are the magic number of pcap or pcapng.
pub fn is_capture(bytes: &[u8]) -> bool
    ensures { result ≡ is_capture bytes.now }
{
    if bytes.len() < 4 {
        return false;
    }
    let magic = u32_at(ByteOrder::Little, bytes, 0);
    pcap_kind(magic).is_some() || magic == SECTION
}

/// The byte order of a section, by its header.
#[tactic(auto, unfolding(crate::specs::Extent::section_order))]
pub(crate) fn section_order(head: &[u8]) -> Option<ByteOrder>
    requires { 12 ≤ length head.now }
    ensures { result ≡ section_order head.now }
{
    match u32_at(ByteOrder::Little, head, 8) {
        ORDER => Some(ByteOrder::Little),
        SWAPPED_ORDER => Some(ByteOrder::Big),
        _ => None,
    }
}

/// The length of a block that says that it is so long.
#[tactic(auto, unfolding(crate::specs::Extent::length_extent))]
fn length_extent(length: u32) -> Result<usize, Cause>
    ensures { result ≡ length_extent length }
{
    if length < LEAST_BLOCK || length % 4 != 0 {
        return Err(Cause::BadLength);
    }
    if length > MAX_BLOCK {
        return Err(Cause::TooLong);
    }
    Ok(length as usize)
}

/// The length of a section header.
fn section_extent(head: &[u8]) -> Result<usize, Cause>
    requires { 12 ≤ length head.now }
    ensures { result ≡ section_extent head.now }
{
    match section_order(head) {
        Some(order) => length_extent(u32_at(order, head, 4)),
        None => Err(Cause::BadOrder),
    }
}

/// The length of a block of pcapng.
fn block_extent(order: ByteOrder, head: &[u8]) -> Result<usize, Cause>
    requires { 12 ≤ length head.now }
    ensures { result ≡ block_extent order head.now }
{
    if u32_at(order, head, 0) == SECTION {
        return section_extent(head);
    }
    length_extent(u32_at(order, head, 4))
}

/// The length of the next block, whose first bytes are these.
///
/// # Errors
/// [`Cause::NotCapture`], [`Cause::BadOrder`], [`Cause::BadLength`] or [`Cause::TooLong`].
#[tactic(auto, unfolding(crate::specs::Extent::extent))]
pub(crate) fn extent(format: Format, head: &[u8]) -> Result<usize, Cause>
    requires { head_length format ≤ length head.now }
    ensures { result ≡ extent format head.now }
{
    match format {
        Format::Unknown => {
            let magic = u32_at(ByteOrder::Little, head, 0);
            if pcap_kind(magic).is_some() {
                return Ok(PCAP_HEADER);
            }
            if magic != SECTION {
                return Err(Cause::NotCapture);
            }
            section_extent(head)
        }
        Format::Pcap { order, .. } => {
            let captured = u32_at(order, head, 8);
            if captured > MAX_BLOCK {
                return Err(Cause::TooLong);
            }
            Ok(RECORD_HEAD + captured as usize)
        }
        Format::Section { order } => block_extent(order, head),
    }
}
