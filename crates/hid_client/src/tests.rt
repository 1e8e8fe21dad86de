//! A boot keyboard, played on a bus of its own; the rows are worked out by hand (USB 2.0, 8.5.4 and 8.6).

use crate::{Played, play};
use hid_device::{Boot, Config, KEYBOARD};
use hid_layout::{ControlId, Usage};
use hid_stack::{Delivered, StackFault, Step};
use hid_usages::{Change, ChangeFault, Event};
use std::test::Fail;
use usb_transact::Fate;

const CONFIG: Config = Config {
    vendor: 0xFFFF,
    product: 0x0001,
    interval: 10,
    boot: Boot::Keyboard,
};

/// A key is a place of the keyboard's item 4, where a usage's place is its ID.
fn key(id: u16) -> ControlId {
    ControlId {
        item: 4,
        index: id as usize,
    }
}

fn press(id: u16) -> Step {
    Step::Change {
        dev: 1,
        change: Change::Press(key(id)),
    }
}

fn release(id: u16) -> Step {
    Step::Change {
        dev: 1,
        change: Change::Release(key(id)),
    }
}

fn poll(fate: Fate) -> Step {
    Step::Poll { dev: 1, fate }
}

fn down(id: u16) -> Delivered {
    Delivered {
        dev: 1,
        event: Event::Down {
            control: key(id),
            usage: Usage { page: 7, id },
        },
    }
}

fn up(id: u16) -> Delivered {
    Delivered {
        dev: 1,
        event: Event::Up {
            control: key(id),
            usage: Usage { page: 7, id },
        },
    }
}

/// What comes of these steps of a device.
fn played(
    rt: &HostRuntime,
    descriptor: &[u8],
    steps: &[Step],
    control: ControlId,
) -> Result<Played, StackFault> {
    play(rt.alloc(), &CONFIG, descriptor, steps, control)
}

/// A key that is pressed while an acknowledgement is lost is reported in the next round.
#[test]
fn each_key_is_told_once(rt: HostRuntime) -> Result<(), Fail> {
    let steps = [
        press(4),
        poll(Fate::AckLost),
        press(5),
        poll(Fate::Clean),
        poll(Fate::Clean),
    ];
    let played = played(&rt, &KEYBOARD, &steps, key(5))?;
    assert_eq!(rt; played.events.as_slice(), [down(4), down(5)].as_slice());
    assert!(rt; played.is_held);
    Ok(())
}

/// What the device releases is held on until the report that shows it has crossed.
#[test]
fn a_key_is_held_until_its_release_crosses(rt: HostRuntime) -> Result<(), Fail> {
    for (name, fate, is_held) in [
        ("the token is lost", Fate::TokenLost, true),
        ("the reply is lost", Fate::ReplyLost, true),
        ("the acknowledgement is lost", Fate::AckLost, false),
        ("nothing is lost", Fate::Clean, false),
    ] {
        let steps = [press(4), poll(Fate::Clean), release(4), poll(fate)];
        let played = played(&rt, &KEYBOARD, &steps, key(4))?;
        assert!(rt; played.is_held == is_held, "{name}");
    }
    Ok(())
}

/// A reset delivers that the key goes up, and a host that knows nothing holds nothing.
#[test]
fn a_reset_lets_a_key_go(rt: HostRuntime) -> Result<(), Fail> {
    let steps = [press(4), poll(Fate::Clean), Step::Reset { dev: 1 }];
    let played = played(&rt, &KEYBOARD, &steps, key(4))?;
    assert_eq!(rt; played.events.as_slice(), [down(4), up(4)].as_slice());
    assert!(rt; !played.is_held);
    Ok(())
}

#[test]
fn a_step_that_is_refused_ends_it(rt: HostRuntime) {
    let none = ControlId { item: 9, index: 0 };
    let steps = [
        press(4),
        Step::Change {
            dev: 1,
            change: Change::Press(none),
        },
        poll(Fate::Clean),
    ];
    let fault = played(&rt, &KEYBOARD, &steps, key(4)).err();
    assert_eq!(rt;
        fault,
        Some(StackFault::Refused(ChangeFault::NoSuchControl))
    );
}
