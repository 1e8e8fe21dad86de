//! What is done with a gadget, in words, and how its transfers end:
//! ```text
//!   press 4 4, release 4 4        a control by its item and index: nothing, or why it can't be
//!   move 2 0 -200, set 2 0 1
//!   frame, frames 4               nothing
//!   bus reset, halt               nothing
//!   kept output 1                 the report that was set last: output, feature or input, and its ID
//!   ask 80 06 00 01 00 00 12 00   a control transfer of these setup data: the bytes read, or stalled; what it writes stands
//!                                 after them
//!   report 8                      an interrupt transfer with room for 8 bytes: its bytes, or nothing, stalled, too small
//! ```
//! A room is filled with FF before a transfer. Where a byte after what came isn't FF any more, that is appended.

use crate::device::change_of;
use crate::ends::{boot_of, config_of, without};
use crate::output::Output;
use crate::words::{kind_of, number, read_bytes, small, words_in};
use hid_gadget::{Change, Control, DeviceFault, Gadget, Poll, Setup};
use hid_requests::Boot;
use std::alloc::Global;
use test_rows::{RowFault, Subject, Table, bytes_of};

/// A gadget, and room for the bytes of a transfer.
#[derive(Drop)]
pub struct Exchange {
    gadget: Gadget,
    room: Vec<u8>,
}

/// The gadget of this descriptor, or why there is none. It promises nothing, so that what [`Gadget::new`] does is before the
/// prover here alone.
fn gadget_of(alloc: Global, boot: Boot, descriptor: &[u8]) -> Result<Gadget, DeviceFault> {
    Gadget::new(alloc, &config_of(boot, 10), descriptor)
}

/// The gadget that is given; `Unread` where there is none.
pub fn exchange_of(table: &Table<'_>, given: &str) -> Result<Exchange, RowFault> {
    let (name, is_plain) = without(given, "plain ");
    let boot = if is_plain { Boot::No } else { boot_of(name) };
    let descriptor = bytes_of(table, name)?;
    match gadget_of(table.alloc, boot, &descriptor) {
        Ok(gadget) => Ok(Exchange {
            gadget,
            room: Vec::new(table.alloc),
        }),
        Err(_) => Err(RowFault::Unread),
    }
}

/// Makes a change, and appends why it can't be made, if it can't.
fn print_change(gadget: &mut Gadget, change: Option<Change>, printed: &mut Output) {
    match change {
        Some(change) => {
            if let Err(fault) = gadget.change(change) {
                printed.show(fault);
            }
        }
        None => printed.unread(),
    }
}

/// Makes this the room: so many bytes FF. False where there is no memory.
fn is_made(room: &mut Vec<u8>, count: usize) -> bool {
    room.clear();
    room.resize(count, 0xFF).is_ok()
}

/// Appends the bytes that came into a room, and whether others were written.
fn print_room(room: &[u8], count: usize, printed: &mut Output) {
    printed.hex(room.get(..count).unwrap_or(&[]));
    for byte in room.get(count..).unwrap_or(&[]) {
        if *byte != 0xFF {
            printed.add("and more ");
        }
    }
}

/// Appends how a control transfer ends.
fn print_control(end: Control, room: &[u8], printed: &mut Output) {
    match end {
        Control::Done(count) => print_room(room, count, printed),
        Control::Stalled => {
            printed.add("stalled ");
            print_room(room, 0, printed);
        }
    }
}

/// Appends how an interrupt transfer ends.
fn print_poll(end: Poll, room: &[u8], printed: &mut Output) {
    let (word, count) = match end {
        Poll::Done(count) => ("", count),
        Poll::Nothing => ("nothing ", 0),
        Poll::Stalled => ("stalled ", 0),
        Poll::TooSmall => ("too small ", 0),
    };
    printed.add(word);
    print_room(room, count, printed);
}

/// A control transfer with room for wLength bytes; a write has as many of these data as its setup data say.
fn transfer(
    gadget: &mut Gadget,
    setup: &Setup,
    data: &[u8],
    room: &mut Vec<u8>,
    printed: &mut Output,
) {
    let length = usize::from(setup.length);
    let (sent, room_for) = if setup.is_read() {
        (0, length)
    } else {
        (length, 0)
    };
    if data.len() != sent || !is_made(room, room_for) || room.len() < room_for {
        return printed.unread();
    }
    let end = gadget.control(setup, data, room);
    print_control(end, room, printed);
}

/// The control transfer of setup data, and of what is sent after them.
fn print_request(gadget: &mut Gadget, bytes: &[u8], room: &mut Vec<u8>, printed: &mut Output) {
    match bytes.split_first_chunk::<8>() {
        Some((request, data)) => transfer(gadget, &Setup::from_bytes(request), data, room, printed),
        None => printed.unread(),
    }
}

/// An interrupt transfer with room for so many bytes.
fn print_report(
    gadget: &mut Gadget,
    count: Option<usize>,
    room: &mut Vec<u8>,
    printed: &mut Output,
) {
    match count {
        Some(count) if is_made(room, count) => {
            let end = gadget.report(room);
            print_poll(end, room, printed);
        }
        _ => printed.unread(),
    }
}

/// Appends a report that was set last.
fn print_kept(gadget: &Gadget, kind: &str, id: &str, printed: &mut Output) {
    match (kind_of(kind), small(id)) {
        (Some(kind), Some(id)) => printed.hex_if_any(gadget.outputs(kind, id)),
        _ => printed.unread(),
    }
}

fn pass_frames(gadget: &mut Gadget, count: Option<usize>, printed: &mut Output) {
    match count {
        Some(count) => {
            for _ in 0..count {
                gadget.frame();
            }
        }
        None => printed.unread(),
    }
}

/// Does what is one of these words; false where it is something else.
fn act(gadget: &mut Gadget, words: &[&str], printed: &mut Output) -> bool {
    match *words {
        ["frame"] => gadget.frame(),
        ["frames", count] => pass_frames(gadget, number(count), printed),
        ["bus", "reset"] => gadget.reset(),
        ["halt"] => gadget.halt(),
        ["kept", kind, id] => print_kept(gadget, kind, id, printed),
        ["press" | "release" | "move" | "set", ..] => print_change(
            gadget,
            change_of(words),
            printed,
        ),
        _ => return false,
    }
    true
}

/// Does what these words mean, and appends what comes of it.
fn carry_out(exchange: &mut Exchange, words: &[&str], bytes: &mut Vec<u8>, printed: &mut Output) {
    if act(&mut exchange.gadget, words, printed) {
        return;
    }
    match *words {
        ["report", count] => print_report(
            &mut exchange.gadget,
            number(count),
            &mut exchange.room,
            printed,
        ),
        ["ask", ref rest @ ..] if read_bytes(bytes, rest) => print_request(
            &mut exchange.gadget,
            bytes,
            &mut exchange.room,
            printed,
        ),
        _ => printed.unread(),
    }
}

impl Subject for Exchange {
    fn step(
        &mut self,
        printed: &mut String,
        table: &Table<'_>,
        given: &str,
    ) -> Result<(), RowFault> {
        let words = words_in(table.alloc, given)?;
        let mut bytes = Vec::new(table.alloc);
        let mut step = Output::new(table.alloc);
        carry_out(self, &words, &mut bytes, &mut step);
        step.give(printed)
    }
}
