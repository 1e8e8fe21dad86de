//! The blocks of pcapng files.

ghost use Rattle.std.specs.Prelude.{◌≡◌, ◌<◌, ◌≤◌, ◌+◌, length, IfOk};
ghost use Rattle.usb_capture.specs.Extent.{section_order};
ghost use Rattle.usb_capture.specs.Pcapng.{section_reading, section_by, block_reading, interface_reading, packet_reading, simple_reading};
ghost use Rattle.usb_capture.specs.Reading.{HasFrame};

use super::clock::{MICROSECONDS, time_of};
use super::extent::{SECTION, section_order};
use super::fault::Cause;
use super::field::{ByteOrder, u16_at, u32_at};
use super::format::{Format, Interface};
use super::options::read_clock;
use super::reading::{FrameHead, Reading};

/// How many interfaces a section has at most.
pub const MAX_INTERFACES: usize = 256;

/// The block type of an interface description.
const INTERFACE: u32 = 1;

/// The block type of the packet block that was used before the enhanced one.
const PACKET: u32 = 2;

/// The block type of a simple packet.
const SIMPLE_PACKET: u32 = 3;

/// The block type of an enhanced packet.
const ENHANCED_PACKET: u32 = 6;

/// The bytes of the length at the end of a block.
const TRAILER: usize = 4;

/// The bytes of a section header without options.
const SECTION_HEADER: usize = 28;

/// The version of a section before the point.
const MAJOR_VERSION: u16 = 1;

/// The first version of a section after the point.
const FIRST_MINOR_VERSION: u16 = 0;

/// A later version after the point, which readers treat as the first.
const LATER_MINOR_VERSION: u16 = 2;

/// The bytes of an interface description without options.
const INTERFACE_DESCRIPTION: usize = 20;

/// Where the options of an interface description begin.
const INTERFACE_OPTIONS: usize = 16;

/// The bytes of an enhanced packet, or of an old one, without its frame and its options.
const PACKET_WITHOUT_FRAME: usize = 32;

/// Where the frame of such a packet begins.
const PACKET_FRAME: usize = 28;

/// The bytes of a simple packet without its frame.
const SIMPLE_PACKET_WITHOUT_FRAME: usize = 16;

/// Where the frame of a simple packet begins.
const SIMPLE_PACKET_FRAME: usize = 12;

/// What the upper half of a timestamp counts.
const UPPER_HALF: u64 = 0x1_0000_0000;

/// The header of a section.
///
/// # Errors
/// [`Cause::BadOrder`], [`Cause::BadTrailer`], [`Cause::TooShort`] or [`Cause::BadVersion`].
#[tactic(auto, unfolding(crate::specs::Pcapng::section_by))]
pub(crate) fn read_section(block: &[u8]) -> Result<Reading, Cause>
    requires { 12 ≤ length block.now }
    ensures content { result ≡ section_reading block.now }
    ensures frame { IfOk result (λ content. HasFrame content (length block.now)) }
{
    let Some(order) = section_order(block) else {
        return Err(Cause::BadOrder);
    };
    if u32_at(order, block, block.len() - TRAILER) as usize != block.len() {
        return Err(Cause::BadTrailer);
    }
    if block.len() < SECTION_HEADER {
        return Err(Cause::TooShort);
    }
    let minor = u16_at(order, block, 14);
    if u16_at(order, block, 12) != MAJOR_VERSION
        || (minor != FIRST_MINOR_VERSION && minor != LATER_MINOR_VERSION)
    {
        return Err(Cause::BadVersion);
    }
    Ok(Reading::Begins(Format::Section { order }))
}

/// A block of a section.
///
/// # Errors
/// [`Cause::BadTrailer`], or those of its type.
#[tactic(auto, unfolding(crate::specs::Pcapng::block_reading, crate::specs::Pcapng::typed_reading, crate::specs::Pcapng::packet_reading))]
pub(crate) fn read_block(
    order: ByteOrder,
    interfaces: &[Interface],
    block: &[u8],
) -> Result<Reading, Cause>
    requires { 12 ≤ length block.now }
    ensures content { result ≡ block_reading order interfaces.now block.now }
    ensures frame { IfOk result (λ content. HasFrame content (length block.now)) }
{
    let kind = u32_at(order, block, 0);
    if kind == SECTION {
        return read_section(block);
    }
    if u32_at(order, block, block.len() - TRAILER) as usize != block.len() {
        return Err(Cause::BadTrailer);
    }
    match kind {
        INTERFACE => read_interface(order, interfaces.len(), block),
        PACKET => {
            if block.len() < PACKET_WITHOUT_FRAME {
                return Err(Cause::TooShort);
            }
            let interface = u16_at(order, block, 8) as usize;
            read_packet(order, interfaces, interface, block)
        }
        SIMPLE_PACKET => read_simple_packet(order, interfaces, block),
        ENHANCED_PACKET => {
            if block.len() < PACKET_WITHOUT_FRAME {
                return Err(Cause::TooShort);
            }
            let interface = u32_at(order, block, 8) as usize;
            read_packet(order, interfaces, interface, block)
        }
        _ => Ok(Reading::PassedOver),
    }
}

/// The description of an interface, after `count` others of its section.
#[tactic(auto, unfolding(crate::specs::Pcapng::interface_reading))]
fn read_interface(order: ByteOrder, count: usize, block: &[u8]) -> Result<Reading, Cause>
    ensures content { result ≡ interface_reading order count block.now }
    ensures frame { IfOk result (λ content. HasFrame content (length block.now)) }
{
    if block.len() < INTERFACE_DESCRIPTION {
        return Err(Cause::TooShort);
    }
    if count >= MAX_INTERFACES {
        return Err(Cause::TooManyInterfaces);
    }
    let clock = read_clock(
        order,
        MICROSECONDS,
        &block[INTERFACE_OPTIONS..block.len() - TRAILER],
    )?;
    Ok(Reading::Described(Interface {
        link: u16_at(order, block, 8),
        snap_len: u32_at(order, block, 12),
        clock,
    }))
}

/// An enhanced packet, or one of the old packet blocks, of this interface.
#[tactic(auto, unfolding(crate::specs::Pcapng::packet_reading))]
fn read_packet(
    order: ByteOrder,
    interfaces: &[Interface],
    interface: usize,
    block: &[u8],
) -> Result<Reading, Cause>
    requires { 32 ≤ length block.now }
    ensures content { result ≡ packet_reading order interfaces.now interface block.now }
    ensures frame { IfOk result (λ content. HasFrame content (length block.now)) }
{
    if interface >= interfaces.len() {
        return Err(Cause::NoInterface);
    }
    let captured = u32_at(order, block, 20) as usize;
    if block.len() < PACKET_WITHOUT_FRAME + captured {
        return Err(Cause::CutFrame);
    }
    let timestamp = u32_at(order, block, 12) as u64 * UPPER_HALF + u32_at(order, block, 16) as u64;
    Ok(Reading::Captured(FrameHead {
        time: time_of(interfaces[interface].clock, timestamp),
        link: interfaces[interface].link,
        order,
        original_length: u32_at(order, block, 24),
        from: PACKET_FRAME,
        captured,
    }))
}

/// A simple packet, which is of the first interface and has no time.
#[tactic(auto, unfolding(crate::specs::Pcapng::simple_reading))]
fn read_simple_packet(
    order: ByteOrder,
    interfaces: &[Interface],
    block: &[u8],
) -> Result<Reading, Cause>
    ensures content { result ≡ simple_reading order interfaces.now block.now }
    ensures frame { IfOk result (λ content. HasFrame content (length block.now)) }
{
    if block.len() < SIMPLE_PACKET_WITHOUT_FRAME {
        return Err(Cause::TooShort);
    }
    if interfaces.is_empty() {
        return Err(Cause::NoInterface);
    }
    let original_length = u32_at(order, block, 8);
    let snap_len = interfaces[0].snap_len;
    let captured = if snap_len == 0 || original_length < snap_len {
        original_length as usize
    } else {
        snap_len as usize
    };
    if block.len() < SIMPLE_PACKET_WITHOUT_FRAME + captured {
        return Err(Cause::CutFrame);
    }
    Ok(Reading::Captured(FrameHead {
        time: None,
        link: interfaces[0].link,
        order,
        original_length,
        from: SIMPLE_PACKET_FRAME,
        captured,
    }))
}
