//! A driver beside virtual devices. What the driver asks is in USB 2.0, 9.4, and HID 1.11, 7; the events are worked out by hand
//! from the descriptors.

ghost use Rattle.std.specs.Prelude.{◌≡◌, ◌≤◌, IfSome, vec_len, vec_capacity};
ghost use Rattle.hid_driver.specs.Interfaces.{total_room};

use crate::{Ask, Config, Driver, DriverEvent, DriverFault, Gadget, report, settle};
use hid_gadget::{Boot, Change};
use hid_layout::boot::{KEYBOARD, MOUSE};
use hid_layout::{ControlId, ReportKind};
use hid_snapshots::Event;
use std::alloc::Global;

/// An Input report of 100 bytes, of which each that isn't 0 is a key of the keyboard's page that is down.
#[rattlefmt::skip]
const LONG: [u8; 24] = [
    0x05, 0x01, 0x09, 0x06, 0xA1, 0x01, 0x05, 0x07, 0x19, 0x00, 0x29, 0xFF,
    0x15, 0x00, 0x26, 0xFF, 0x00, 0x75, 0x08, 0x95, 0x64, 0x81, 0x00, 0xC0,
];

/// A driver and a gadget.
#[derive(Drop)]
struct Both {
    driver: Driver,
    gadget: Gadget,
}

/// A new driver beside a gadget. It promises nothing, so that what [`Gadget::new`] does is before the prover here alone.
fn beside(alloc: Global, boot: Boot, descriptor: &[u8]) -> Option<Both> {
    let config = Config {
        vendor: 0xFFFF,
        product: 0x0001,
        interval: 10,
        boot,
    };
    match Gadget::new(alloc, &config, descriptor) {
        Ok(gadget) => Some(Both {
            driver: Driver::new(alloc),
            gadget,
        }),
        Err(_) => None,
    }
}

/// How many control transfers are made.
fn settled(alloc: Global, both: &mut Both) -> Option<usize> {
    settle(alloc, &mut both.driver, &mut both.gadget).ok()
}

/// Whether a control transfer ends with STALL.
fn is_refused(alloc: Global, both: &mut Both) -> bool {
    match settle(alloc, &mut both.driver, &mut both.gadget) {
        Err(DriverFault::Stalled) => true,
        _ => false,
    }
}

/// Room for the events of a transfer.
fn room(alloc: Global, driver: &Driver) -> Option<Vec<DriverEvent>>
    ensures { IfSome result (λ events. (vec_len events ≡ 0)
        × (total_room driver.now.interfaces ≤ vec_capacity events)) }
{
    Vec::with_capacity(alloc, driver.max_events()).ok()
}

/// The usage that goes down: 0x7_0004 is ID 4 of page 7. None of any other event.
fn usage_down(event: &Event) -> Option<usize> {
    match event {
        Event::Down { usage, .. } => Some(usize::from(usage.page) << 16 | usize::from(usage.id)),
        _ => None,
    }
}

/// What events report: 0 where there is none, and of one the usage that goes down.
fn usage_reported(events: &[DriverEvent]) -> Option<usize> {
    if events.len() > 1 {
        return None;
    }
    match events.first() {
        Some(first) => usage_down(&first.event),
        None => Some(0),
    }
}

/// What an interrupt transfer reports.
fn reported(alloc: Global, both: &mut Both) -> Option<usize> {
    let mut events = room(alloc, &both.driver)?;
    match report(&mut both.driver, &mut both.gadget, &mut events) {
        Ok(_) => usage_reported(&events),
        Err(_) => None,
    }
}

/// Presses a control of item 0.
fn press(both: &mut Both, index: usize) {
    let _ = both
        .gadget
        .change(Change::Press(ControlId { item: 0, index }));
}

/// Asks for LEDs.
fn ask_for_lights(both: &mut Both, bytes: &[u8]) -> bool {
    let ask = Ask::SetReport {
        kind: ReportKind::Output,
        id: 0,
        bytes,
    };
    both.driver.ask(0, &ask).is_ok()
}

/// The LEDs that a keyboard has.
fn lights(gadget: &Gadget) -> Option<usize> {
    match gadget.outputs(ReportKind::Output, 0)?.first() {
        Some(byte) => Some(usize::from(*byte)),
        None => None,
    }
}

fn press_counts(alloc: Global, both: &mut Both) -> [Option<usize>; 5] {
    let up = settled(alloc, both);
    let again = settled(alloc, both);
    let before = reported(alloc, both);
    press(both, 0);
    let first = reported(alloc, both);
    let second = reported(alloc, both);
    [up, again, before, first, second]
}

/// Six transfers bring a driver up, and then it asks for nothing. A press of the left button is reported once.
#[test]
fn a_press_is_reported_once(rt: HostRuntime) {
    let counted = match beside(rt.alloc(), Boot::Mouse, &MOUSE) {
        Some(mut both) => press_counts(rt.alloc(), &mut both),
        None => [None; 5],
    };
    assert!(rt;
        counted == [Some(6), Some(0), Some(0), Some(0x9_0001), Some(0)],
        "a press"
    );
}

fn halt_counts(alloc: Global, both: &mut Both) -> [Option<usize>; 4] {
    let up = settled(alloc, both);
    both.gadget.halt();
    let stalled = reported(alloc, both);
    let cleared = settled(alloc, both);
    press(both, 0);
    let first = reported(alloc, both);
    [up, stalled, cleared, first]
}

/// A halt is cleared by the transfer that the driver asks for, and reports come again.
#[test]
fn a_halt_is_cleared(rt: HostRuntime) {
    let counted = match beside(rt.alloc(), Boot::Mouse, &MOUSE) {
        Some(mut both) => halt_counts(rt.alloc(), &mut both),
        None => [None; 4],
    };
    assert!(rt;
        counted == [Some(6), Some(0), Some(1), Some(0x9_0001)],
        "a halt"
    );
}

fn light_counts(alloc: Global, both: &mut Both) -> (bool, [Option<usize>; 3]) {
    let up = settled(alloc, both);
    let is_short_asked = ask_for_lights(both, &[]);
    let is_short_refused = is_refused(alloc, both);
    let _ = ask_for_lights(both, &[2]);
    let asked = settled(alloc, both);
    (
        is_short_asked && is_short_refused,
        [up, asked, lights(&both.gadget)],
    )
}

/// LEDs that are asked for are set with one transfer. A report that is too short is refused by a virtual device.
#[test]
fn lights_are_set(rt: HostRuntime) {
    let (is_refused, counted) = match beside(rt.alloc(), Boot::Keyboard, &KEYBOARD) {
        Some(mut both) => light_counts(rt.alloc(), &mut both),
        None => (false, [None; 3]),
    };
    assert!(rt; is_refused, "LEDs without a byte");
    assert!(rt; counted == [Some(6), Some(1), Some(2)], "LEDs");
}

fn long_counts(alloc: Global, both: &mut Both) -> [Option<usize>; 5] {
    let up = settled(alloc, both);
    press(both, 4);
    let first = reported(alloc, both);
    press(both, 5);
    let second = reported(alloc, both);
    let third = reported(alloc, both);
    let fourth = reported(alloc, both);
    [up, first, second, third, fourth]
}

/// A report of 100 bytes is read with its second packet; a key that went down in between comes with the next report.
#[test]
fn a_long_report_ends_with_its_second_packet(rt: HostRuntime) {
    let counted = match beside(rt.alloc(), Boot::No, &LONG) {
        Some(mut both) => long_counts(rt.alloc(), &mut both),
        None => [None; 5],
    };
    assert!(rt;
        counted == [Some(6), Some(0), Some(0x7_0004), Some(0), Some(0x7_0005)],
        "keys"
    );
}
