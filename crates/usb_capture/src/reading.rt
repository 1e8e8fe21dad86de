//! What a whole block says.

ghost use Rattle.std.specs.Prelude.{◌≡◌, ◌≤◌, length, IfOk};
ghost use Rattle.usb_capture.specs.Reading.{reading, HasFrame};
ghost use Rattle.usb_capture.specs.Extent.{head_length};

use super::extent::pcap_kind;
use super::fault::Cause;
use super::field::{ByteOrder, u32_at};
use super::format::{Format, Interface};
use super::pcap::{read_header, read_record};
use super::pcapng::{read_block, read_section};

/// A frame without its bytes.
#[derive(Clone, Copy, Debug, PartialEq, Eq)]
pub struct FrameHead {
    pub time: Option<u64>,
    pub link: u16,
    pub order: ByteOrder,
    /// How many bytes the frame had.
    pub original_length: u32,
    /// Where its bytes begin in the block.
    pub from: usize,
    /// How many bytes were captured.
    pub captured: usize,
}

/// What a block says.
#[derive(Clone, Copy, Debug, PartialEq, Eq)]
pub enum Reading {
    /// A file or a section begins.
    Begins(Format),
    /// The section has one more interface.
    Described(Interface),
    /// A frame was captured.
    Captured(FrameHead),
    /// Nothing that is needed.
    PassedOver,
}

/// What a whole block says, after those before it.
///
/// # Errors
/// Why it is refused; the cause that is looked for first decides (`specs/Reading.antt`).
#[tactic(auto, unfolding(crate::specs::Reading::reading))]
pub(crate) fn read(format: Format, interfaces: &[Interface], block: &[u8]) -> Result<Reading, Cause>
    requires { head_length format ≤ length block.now }
    ensures content { result ≡ reading format interfaces.now block.now }
    ensures frame { IfOk result (λ content. HasFrame content (length block.now)) }
{
    match format {
        Format::Unknown => match pcap_kind(u32_at(ByteOrder::Little, block, 0)) {
            Some((order, fraction)) => read_header(order, fraction, block),
            None => read_section(block),
        },
        Format::Pcap {
            order,
            fraction,
            link,
        } => Ok(read_record(order, fraction, link, block)),
        Format::Section { order } => read_block(order, interfaces, block),
    }
}
