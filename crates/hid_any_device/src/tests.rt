//! The boot mouse, read packet by packet; the events are worked out by hand (USB 2.0, 8.5.4 and 8.6).

use crate::read_replies;
use arrayvec::ArrayVec;
use hid_host::StackFault;
use hid_layout::boot::MOUSE;
use hid_layout::{ControlId, Usage};
use hid_snapshots::Event;
use std::test::Fail;
use usb_packet::Packet;

fn control(item: usize, index: usize) -> ControlId {
    ControlId { item, index }
}

fn down() -> Event {
    Event::Down {
        control: control(0, 0),
        usage: Usage { page: 9, id: 1 },
    }
}

fn up() -> Event {
    Event::Up {
        control: control(0, 0),
        usage: Usage { page: 9, id: 1 },
    }
}

fn right(by: i64) -> Event {
    Event::Motion {
        control: control(2, 0),
        usage: Usage { page: 1, id: 0x30 },
        by,
    }
}

/// Data under this toggle.
fn data(one: bool, bytes: &[u8]) -> Option<Packet> {
    match ArrayVec::try_from(bytes) {
        Ok(payload) => Some(Packet::Data { one, payload }),
        Err(_) => None,
    }
}

#[test]
fn reports_give_events_once(rt: HostRuntime) -> Result<(), StackFault> {
    let replies = [
        Some(Packet::Nak),
        data(false, &[1, 5, 0]), // its acknowledgement is lost
        None, // the reply is lost
        data(false, &[1, 5, 0]),
        data(true, &[1]), // too short
        data(false, &[1, 5, 0]),
        data(true, &[0, 0, 0, 9]), // longer than it has to be
    ];
    let events = read_replies(rt.alloc(), 5, &MOUSE, &replies)?;
    assert_eq!(rt;
        events.as_slice(),
        [down(), right(5), right(5), up()].as_slice()
    );
    Ok(())
}
