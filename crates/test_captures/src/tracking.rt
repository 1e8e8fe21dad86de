//! What the URBs of a capture say of HID devices, step by step.

use hid_capture::{Content, Tracker};
use std::alloc::Global;
use test_rows::{RowFault, Subject, Table, bytes_of, print_debug, split};
use usb_capture::{Direction, Transfer, Urb, UrbEvent};

/// Linux's -ESHUTDOWN, in two's complement.
const SHUTDOWN: u32 = 0xFFFF_FF94;

/// A tracker that takes a URB in each step.
#[derive(Drop)]
pub struct TrackerSteps {
    tracker: Tracker,
}

impl TrackerSteps {
    /// A tracker to which no URB has come.
    pub fn new(alloc: Global) -> TrackerSteps {
        TrackerSteps {
            tracker: Tracker::new(alloc),
        }
    }

    /// Takes a URB, or a descriptor that is given for the interface of its endpoint.
    fn take(&mut self, is_given: bool, urb: &Urb<'_>) -> Result<Content, RowFault> {
        if is_given {
            Ok(self.tracker.adopt(urb.bus, urb.device, urb.endpoint)?)
        } else {
            Ok(self.tracker.take(urb)?)
        }
    }
}

/// The transfer that a word names, its direction, and what came of it.
fn event_of(word: &str) -> Result<(Transfer, Direction, UrbEvent), RowFault> {
    Ok(match word {
        "ask" => (Transfer::Control, Direction::In, UrbEvent::Submitted),
        "answer" => (Transfer::Control, Direction::In, UrbEvent::Completed),
        "stall" => (Transfer::Control, Direction::In, UrbEvent::Stalled),
        "poll" => (Transfer::Interrupt, Direction::In, UrbEvent::Submitted),
        "in" | "give" => (Transfer::Interrupt, Direction::In, UrbEvent::Completed),
        "out" => (Transfer::Interrupt, Direction::Out, UrbEvent::Completed),
        "bulk" => (Transfer::Bulk, Direction::In, UrbEvent::Completed),
        "fail" => (
            Transfer::Interrupt,
            Direction::In,
            UrbEvent::Failed { status: 5 },
        ),
        "gone" => (
            Transfer::Interrupt,
            Direction::In,
            UrbEvent::Failed { status: SHUTDOWN },
        ),
        _ => return Err(RowFault::Unread),
    })
}

/// The SETUP packet that bytes begin with, where a transfer has one.
fn setup_of(word: &str, bytes: &[u8]) -> Option<[u8; 8]> {
    if word != "ask" || bytes.len() < 8 {
        return None;
    }
    let mut setup = [0u8; 8];
    setup.copy_from_slice(&bytes[..8]);
    Some(setup)
}

impl Subject for TrackerSteps {
    /// `EVENT BUS.DEVICE NUMBER [truncated] | BYTES`: NUMBER is the id of a control transfer, or an endpoint's number. `undescribed`
    /// prints the endpoints whose data came without a report descriptor.
    fn step(
        &mut self,
        printed: &mut String,
        table: &Table<'_>,
        given: &str,
    ) -> Result<(), RowFault> {
        if given == "undescribed" {
            return print_debug(printed, &self.tracker.undescribed());
        }
        let (head, body) = split(given, '|');
        let bytes = bytes_of(table, body)?;
        let (word, place) = split(head, ' ');
        let (place, rest) = split(place, ' ');
        let (number, truncated) = split(rest, ' ');
        let (bus, device) = split(place, '.');
        let (transfer, direction, event) = event_of(word)?;
        let urb = Urb {
            id: number.parse()?,
            bus: bus.parse()?,
            device: device.parse()?,
            endpoint: number.parse()?,
            direction,
            transfer,
            event,
            setup: setup_of(word, &bytes),
            payload: &bytes,
            is_truncated: truncated == "truncated",
        };
        let content = self.take(word == "give", &urb)?;
        print_debug(printed, &content)
    }
}
