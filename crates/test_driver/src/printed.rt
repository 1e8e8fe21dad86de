//! What is printed of a driver.

use hid_driver::{
    DriverEvent, DriverFault, DriverState, Event, Interface, InterfaceState, Moved, Todo,
};
use std::fmt::Write;
use test_rows::{RowFault, add, add_debug, add_shown, print_bytes};

/// The request that is to be made, and its data.
pub fn print_todo(printed: &mut String, todo: &Todo<'_>) -> Result<(), RowFault> {
    match todo {
        Todo::Control { setup, data } => {
            print_bytes(printed, &setup.to_bytes())?;
            if !data.is_empty() {
                add(printed, " with")?;
                for byte in *data {
                    write!(printed, " {byte:02X}")?;
                }
            }
            Ok(())
        }
        Todo::Nothing => add(printed, "nothing"),
    }
}

fn print_place(printed: &mut String, word: &str, place: usize) -> Result<(), RowFault> {
    add(printed, word)?;
    add_shown(printed, &place)
}

fn print_move(printed: &mut String, moved: Moved) -> Result<(), RowFault> {
    match moved {
        Moved::Onward => add(printed, "onward"),
        Moved::Live { interface } => print_place(printed, "live ", interface),
        Moved::Refused { interface } => print_place(printed, "refused ", interface),
        Moved::Cleared { interface } => print_place(printed, "cleared ", interface),
        Moved::Stopped { interface } => print_place(printed, "stopped ", interface),
        Moved::Answered => add(printed, "answered"),
    }
}

/// What a request that is done led to.
pub fn print_moved(
    printed: &mut String,
    moved: Result<Moved, DriverFault>,
) -> Result<(), RowFault> {
    match moved {
        Ok(moved) => print_move(printed, moved),
        Err(fault) => add_shown(printed, &fault),
    }
}

/// A refusal, if there is one.
pub fn print_refusal(printed: &mut String, told: Result<(), DriverFault>) -> Result<(), RowFault> {
    match told {
        Ok(()) => Ok(()),
        Err(fault) => add_shown(printed, &fault),
    }
}

/// How far the driver has come.
pub fn print_state(printed: &mut String, state: DriverState) -> Result<(), RowFault> {
    match state {
        DriverState::Asked { .. } => add(printed, "Asked"),
        _ => add_debug(printed, &state),
    }
}

fn print_interface_state(printed: &mut String, state: InterfaceState) -> Result<(), RowFault> {
    match state {
        InterfaceState::Waiting => add(printed, "waiting"),
        InterfaceState::Live => add(printed, "live"),
        InterfaceState::Halted => add(printed, "halted"),
        InterfaceState::Stopped => add(printed, "stopped"),
        InterfaceState::Boot => add(printed, "boot"),
        InterfaceState::Refused(cause) => add_shown(printed, &cause),
    }
}

/// An interface: its number, subclass and protocol; the number of its endpoint, the size of a packet and the interval; its
/// state.
pub fn print_interface(printed: &mut String, interface: &Interface) -> Result<(), RowFault> {
    let info = interface.info();
    write!(
        printed,
        "{} {}.{} ",
        info.number, info.subclass, info.protocol
    )?;
    if let Some(endpoint) = info.endpoint {
        write!(
            printed,
            "endpoint {} {} {} ",
            endpoint.number, endpoint.packet_size, endpoint.interval
        )?;
    }
    print_interface_state(printed, interface.state())
}

fn print_event(printed: &mut String, told: &DriverEvent) -> Result<(), RowFault> {
    let (word, usage) = match told.event {
        Event::Down { usage, .. } => ("down", usage),
        Event::Up { usage, .. } => ("up", usage),
        Event::Value { usage, .. } => ("value", usage),
        Event::Null { usage, .. } => ("null", usage),
        Event::Motion { usage, .. } => ("motion", usage),
        Event::Dropped { usage, .. } => ("dropped", usage),
    };
    write!(printed, "{word} {:02X}:{:02X}", usage.page, usage.id)?;
    match told.event {
        Event::Value { value, .. } => Ok(write!(printed, " {value}")?),
        Event::Motion { by, .. } => Ok(write!(printed, " {by}")?),
        Event::Dropped { by, .. } => Ok(write!(printed, " {by}")?),
        Event::Down { .. } | Event::Up { .. } | Event::Null { .. } => Ok(()),
    }
}

/// Events, each with the place of its interface.
pub fn print_events(printed: &mut String, events: &[DriverEvent]) -> Result<(), RowFault> {
    for (at, told) in events.iter().enumerate() {
        if at > 0 {
            add(printed, ", ")?;
        }
        print_place(printed, "", told.interface)?;
        add(printed, " ")?;
        print_event(printed, told)?;
    }
    Ok(())
}
