//! The frames of USBPcap (link type 249). Their numbers have the lowest byte first.

ghost use Rattle.std.specs.Prelude.{◌≡◌, ◌≤◌, true, length};
ghost use Rattle.usb_capture.specs.UrbRecord.{GivesUrb, urb_record};
ghost use Rattle.usb_capture.specs.Usbpcap.{usbpcap_urb, usbpcap_event, has_setup, header_least, usbpcap_record, usbpcap_data};

use super::field::{ByteOrder, byte_at, u16_at, u32_at, u64_at};
use super::urb::{Transfer, Urb, UrbEvent, direction_of, event_of, transfer_of};
use super::urb_fault::UrbFault;

/// The USBD status of a device that answered STALL.
const STALL: u32 = 0xC000_0004;

/// The bytes of the header that each transfer has.
const HEADER: usize = 27;

/// What came of a URB, by the header's flags and its status.
#[tactic(auto, unfolding(crate::specs::Usbpcap::usbpcap_event))]
fn event_by(info: u8, status: u32) -> UrbEvent
    ensures { result ≡ usbpcap_event info status }
{
    if info % 2 == 0 {
        UrbEvent::Submitted
    } else {
        event_of(status, STALL)
    }
}

/// The bytes that a header has at least: one more, the stage, where it is of a control transfer.
fn header_least(transfer: Transfer) -> usize
    ensures { result ≡ header_least transfer }
{
    if transfer == Transfer::Control {
        HEADER + 1
    } else {
        HEADER
    }
}

/// Whether the data begin with a SETUP packet: in the setup stage of a control transfer.
#[tactic(auto, unfolding(crate::specs::Usbpcap::has_setup))]
fn has_setup(transfer: Transfer, header: &[u8]) -> bool
    requires { header_least transfer ≤ length header.now }
    ensures { result ≡ has_setup transfer header.now }
{
    transfer == Transfer::Control && byte_at(header, 27) == 0
}

/// The URB of a frame.
///
/// # Errors
/// [`UrbFault::TooShort`] or [`UrbFault::BadTransfer`].
#[tactic(auto, unfolding(crate::specs::Usbpcap::usbpcap_urb))]
pub(crate) fn read_usbpcap<'a>(bytes: &'a [u8], is_truncated: bool) -> Result<Urb<'a>, UrbFault>
    ensures { GivesUrb result (usbpcap_urb bytes.now is_truncated) }
{
    if bytes.len() < HEADER {
        return Err(UrbFault::TooShort);
    }
    let Some(transfer) = transfer_of(byte_at(bytes, 22)) else {
        return Err(UrbFault::BadTransfer);
    };
    let size = u16_at(ByteOrder::Little, bytes, 0) as usize;
    if size < header_least(transfer) || bytes.len() < size {
        return Err(UrbFault::TooShort);
    }
    let event = event_by(byte_at(bytes, 16), u32_at(ByteOrder::Little, bytes, 10));
    let rest = &bytes[size..];
    if has_setup(transfer, bytes) {
        return urb_with_setup(bytes, is_truncated, transfer, event, rest);
    }
    Ok(urb_of(bytes, is_truncated, transfer, event, None, rest))
}

/// A URB whose data begin with the SETUP packet.
///
/// # Errors
/// [`UrbFault::TooShort`].
fn urb_with_setup<'a>(
    header: &'a [u8],
    is_truncated: bool,
    transfer: Transfer,
    event: UrbEvent,
    rest: &'a [u8],
) -> Result<Urb<'a>, UrbFault>
    requires { 27 ≤ length header.now }
    ensures { GivesUrb result (usbpcap_data header.now is_truncated transfer event true rest.now) }
{
    if rest.len() < 8 {
        return Err(UrbFault::TooShort);
    }
    let mut setup = [0u8; 8];
    setup.copy_from_slice(&rest[..8]);
    Ok(urb_of(
        header,
        is_truncated,
        transfer,
        event,
        Some(setup),
        &rest[8..],
    ))
}

/// A URB by its header, and by what was found out of it.
#[tactic(auto, unfolding(crate::specs::Usbpcap::usbpcap_record))]
fn urb_of<'a>(
    header: &'a [u8],
    is_truncated: bool,
    transfer: Transfer,
    event: UrbEvent,
    setup: Option<[u8; 8]>,
    payload: &'a [u8],
) -> Urb<'a>
    requires { 27 ≤ length header.now }
    ensures { urb_record result ≡ usbpcap_record header.now is_truncated transfer event setup payload.now }
{
    let endpoint = byte_at(header, 21);
    Urb {
        id: u64_at(ByteOrder::Little, header, 2),
        bus: u16_at(ByteOrder::Little, header, 17),
        device: u16_at(ByteOrder::Little, header, 19),
        endpoint: endpoint % 128,
        direction: direction_of(endpoint),
        transfer,
        event,
        setup,
        payload,
        is_truncated,
    }
}
