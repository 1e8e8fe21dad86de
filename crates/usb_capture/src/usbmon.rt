//! The frames of Linux's usbmon (libpcap's usb.h; link types 220 and 189).

ghost use Rattle.std.specs.Prelude.{◌≡◌, ◌⊎◌, ◌≤◌, ◌+◌, ◌*◌, ◌^◌, length};
ghost use Rattle.usb_capture.specs.UrbRecord.{GivesUrb};
ghost use Rattle.usb_capture.specs.Usbmon.{usbmon_urb, usbmon_event, usbmon_setup, isochronous_bytes};

use super::field::{ByteOrder, byte_at, u16_at, u32_at, u64_at};
use super::urb::{Transfer, Urb, UrbEvent, direction_of, event_of, transfer_of};
use super::urb_fault::UrbFault;

/// Linux's -EPIPE in two's complement: the device answered STALL.
const STALL: u32 = 0xFFFF_FFE0;

/// The bytes of the description of an isochronous packet.
const DESCRIPTION: usize = 16;

/// What came of a URB, by the header's type and status.
#[tactic(auto, unfolding(crate::specs::Usbmon::usbmon_event))]
fn event_by(kind: u8, status: u32) -> Option<UrbEvent>
    ensures { result ≡ usbmon_event kind status }
{
    match kind {
        b'S' => Some(UrbEvent::Submitted),
        b'C' => Some(event_of(status, STALL)),
        b'E' => Some(UrbEvent::Failed { status }),
        _ => None,
    }
}

/// The SETUP packet: that of a control transfer that is submitted, where the header's flag is 0.
#[tactic(auto, unfolding(crate::specs::Usbmon::usbmon_setup))]
fn setup_in(transfer: Transfer, header: &[u8]) -> Option<[u8; 8]>
    requires { 48 ≤ length header.now }
    ensures { result ≡ usbmon_setup transfer header.now }
{
    if transfer != Transfer::Control || byte_at(header, 8) != b'S' || byte_at(header, 14) != 0 {
        return None;
    }
    let mut setup = [0u8; 8];
    setup.copy_from_slice(&header[40..48]);
    Some(setup)
}

/// The bytes of the descriptions of isochronous packets, which stand between a header of 64 bytes and the data.
#[tactic(auto, unfolding(crate::specs::Usbmon::isochronous_bytes))]
fn isochronous_bytes(order: ByteOrder, size: usize, transfer: Transfer, bytes: &[u8]) -> usize
    requires { size ≤ length bytes.now }
    ensures value { result ≡ isochronous_bytes order size transfer bytes.now }
    ensures most { result ≤ 16 * 2 ^ 32 }
{
    if size != 64 || transfer != Transfer::Isochronous {
        return 0;
    }
    DESCRIPTION * u32_at(order, bytes, 60) as usize
}

/// The URB of a frame with a header of `size` bytes.
///
/// # Errors
/// [`UrbFault::TooShort`], [`UrbFault::BadEvent`] or [`UrbFault::BadTransfer`].
#[tactic(auto, unfolding(crate::specs::Usbmon::usbmon_urb, crate::specs::Usbmon::usbmon_record))]
pub(crate) fn read_usbmon<'a>(
    order: ByteOrder,
    size: usize,
    bytes: &'a [u8],
    is_truncated: bool,
) -> Result<Urb<'a>, UrbFault>
    requires { (size ≡ 48) ⊎ (size ≡ 64) }
    ensures { GivesUrb result (usbmon_urb order size bytes.now is_truncated) }
{
    if bytes.len() < size {
        return Err(UrbFault::TooShort);
    }
    let Some(event) = event_by(byte_at(bytes, 8), u32_at(order, bytes, 28)) else {
        return Err(UrbFault::BadEvent);
    };
    let Some(transfer) = transfer_of(byte_at(bytes, 9)) else {
        return Err(UrbFault::BadTransfer);
    };
    let from = size + isochronous_bytes(order, size, transfer, bytes);
    if bytes.len() < from {
        return Err(UrbFault::TooShort);
    }
    let endpoint = byte_at(bytes, 10);
    Ok(Urb {
        id: u64_at(order, bytes, 0),
        bus: u16_at(order, bytes, 12),
        device: byte_at(bytes, 11) as u16,
        endpoint: endpoint % 128,
        direction: direction_of(endpoint),
        transfer,
        event,
        setup: setup_in(transfer, bytes),
        payload: &bytes[from..],
        is_truncated,
    })
}
