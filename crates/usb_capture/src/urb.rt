//! URBs, the transfers that a host's system hands to its controller.

ghost use Rattle.std.specs.Prelude.{◌≡◌};
ghost use Rattle.usb_capture.specs.UrbRecord.{GivesUrb, transfer_of, direction_of, event_of};
ghost use Rattle.usb_capture.specs.Urbs.{urb_of};
ghost use Rattle.usb_capture.specs.FrameRecord.{frame_record};

use super::frame::Frame;
use super::urb_fault::UrbFault;
use super::usbmon::read_usbmon;
use super::usbpcap::read_usbpcap;

/// The link type of usbmon's frames with a header of 64 bytes.
const USBMON_LONG: u16 = 220;

/// The link type of usbmon's frames with a header of 48 bytes.
const USBMON: u16 = 189;

/// The link type of USBPcap's frames.
const USBPCAP: u16 = 249;

/// The types of transfers (USB 2.0, 5.4).
#[derive(Clone, Copy, Debug, PartialEq, Eq)]
pub enum Transfer {
    Isochronous,
    Interrupt,
    Control,
    Bulk,
}

/// Which way the data go.
#[derive(Clone, Copy, Debug, PartialEq, Eq)]
pub enum Direction {
    /// To the device.
    Out,
    /// To the host.
    In,
}

/// What came of a URB.
#[derive(Clone, Copy, Debug, PartialEq, Eq)]
pub enum UrbEvent {
    /// The host hands it over; the data of an OUT transfer are there.
    Submitted,
    /// The transfer is done; the data of an IN transfer are there.
    Completed,
    /// The device answered STALL.
    Stalled,
    /// The transfer failed otherwise, and some data may be there. The status as the capture has it: usbmon has a negative number of
    /// Linux, in two's complement; USBPcap has a USBD status.
    Failed { status: u32 },
}

/// One event of a URB.
#[derive(Clone, Copy, Debug)]
pub struct Urb<'a> {
    /// Joins a completion to its submission; QEMU has 0 for all control transfers.
    pub id: u64,
    pub bus: u16,
    /// The device's address.
    pub device: u16,
    /// The number of the endpoint, from 0 to 15 on a bus as it should be.
    pub endpoint: u8,
    pub direction: Direction,
    pub transfer: Transfer,
    pub event: UrbEvent,
    /// The SETUP packet, where the frame has one.
    pub setup: Option<[u8; 8]>,
    /// The data that were captured.
    pub payload: &'a [u8],
    /// Whether fewer bytes of the frame were captured than it had: some of the data may be missing.
    pub is_truncated: bool,
}

/// The type of a transfer, by the number that usbmon and USBPcap have for it.
#[tactic(auto, unfolding(crate::specs::UrbRecord::transfer_of))]
pub(crate) fn transfer_of(number: u8) -> Option<Transfer>
    ensures { result ≡ transfer_of number }
{
    match number {
        0 => Some(Transfer::Isochronous),
        1 => Some(Transfer::Interrupt),
        2 => Some(Transfer::Control),
        3 => Some(Transfer::Bulk),
        _ => None,
    }
}

/// The direction of an endpoint, by its address.
pub(crate) fn direction_of(address: u8) -> Direction
    ensures { result ≡ direction_of address }
{
    if address < 128 {
        Direction::Out
    } else {
        Direction::In
    }
}

/// What came of a URB that ended with a status; 0 is success, and `stall` means STALL.
pub(crate) fn event_of(status: u32, stall: u32) -> UrbEvent
    ensures { result ≡ event_of status stall }
{
    if status == 0 {
        UrbEvent::Completed
    } else if status == stall {
        UrbEvent::Stalled
    } else {
        UrbEvent::Failed { status }
    }
}

/// The URB of a frame.
///
/// # Errors
/// Why the frame is no URB; the next frames may be some.
#[tactic(auto, unfolding(crate::specs::Urbs::urb_of))]
pub fn read_urb<'a>(frame: &Frame<'a>) -> Result<Urb<'a>, UrbFault>
    ensures { GivesUrb result (urb_of (frame_record frame.now)) }
{
    let is_truncated = frame.is_truncated();
    match frame.link {
        USBMON_LONG => read_usbmon(frame.order, 64, frame.bytes, is_truncated),
        USBMON => read_usbmon(frame.order, 48, frame.bytes, is_truncated),
        USBPCAP => read_usbpcap(frame.bytes, is_truncated),
        _ => Err(UrbFault::OtherLink),
    }
}
