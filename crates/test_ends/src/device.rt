//! What is done with a device, in words, and what it answers:
//! ```text
//!   press 4 4, release 4 4        a control by its item and index: nothing, or why it can't be
//!   move 2 0 -200, set 2 0 1
//!   configure, frame, frames 4    nothing
//!   bus reset, halt               nothing
//!   fixed 2 0                     the motion that is fixed of a control
//!   kept output 1                 the report that was set last: output, feature or input, and its ID
//!   reset, apply, answer          endpoint 0 is reset, carries out what is pending, or shows the answer that is fixed
//!   ask 80 06 00 01 00 00 12 00   a host's transfer of these setup data, each try clean: the bytes read, or the fault; what
//!                                 it writes stands after them
//!   69 81 00                      a packet: its answer
//! ```
//! After it, where a round is open, `round 0.1`: its report, and 1 where its data go out as DATA1; `piece 1` where that is not
//! the first of its pieces; and `halted` while the endpoint is halted. `07*9` are nine bytes 07, as more than eight of the
//! same are written.

use crate::output::Output;
use crate::words::{control_of, kind_of, number, read_bytes, small};
use hid_device::Device;
use hid_layout::{ControlId, ReportKind};
use hid_snapshots::Change;
use std::alloc::Global;
use usb_control::{HostTransfer, Outcome, Requests, Setup};
use usb_packet::{decode, encode};
use usb_transact::Fate;

/// Makes a change, and appends why it can't be made, if it can't.
fn print_change(device: &mut Device, change: Option<Change>, printed: &mut Output) {
    match change {
        Some(change) => {
            if let Err(fault) = device.change(change) {
                printed.show(fault);
            }
        }
        None => printed.unread(),
    }
}

fn pressed(item: &str, index: &str) -> Option<Change> {
    Some(Change::Press(control_of(item, index)?))
}

fn released(item: &str, index: &str) -> Option<Change> {
    Some(Change::Release(control_of(item, index)?))
}

fn moved(item: &str, index: &str, by: &str) -> Option<Change> {
    Some(Change::Move(control_of(item, index)?, by.parse().ok()?))
}

fn set(item: &str, index: &str, value: &str) -> Option<Change> {
    Some(Change::Set(control_of(item, index)?, value.parse().ok()?))
}

/// The change that is meant, if one is.
pub fn change_of(words: &[&str]) -> Option<Change> {
    match *words {
        ["press", item, index] => pressed(item, index),
        ["release", item, index] => released(item, index),
        ["move", item, index, by] => moved(item, index, by),
        ["set", item, index, value] => set(item, index, value),
        _ => None,
    }
}

/// Makes the change that is meant; false where none is.
fn change(device: &mut Device, words: &[&str], printed: &mut Output) -> bool {
    match *words {
        ["press" | "release" | "move" | "set", ..] => {
            print_change(device, change_of(words), printed);
            true
        }
        _ => false,
    }
}

/// Resets endpoint 0. It promises nothing, so that what is lent and given back is before the prover here alone.
fn reset_control(device: &mut Device) {
    device.control().reset();
}

/// Carries out what is pending at endpoint 0.
fn apply(device: &mut Device) {
    device.control().requests_mut().apply(&[]);
}

/// Does what is one of these words; false where they are something else.
fn act(device: &mut Device, words: &[&str]) -> bool {
    match *words {
        ["configure"] => device.configure(),
        ["frame"] => device.frame(),
        ["bus", "reset"] => device.reset(),
        ["halt"] => device.halt(),
        ["reset"] => reset_control(device),
        ["apply"] => apply(device),
        _ => return false,
    }
    true
}

fn pass_frames(device: &mut Device, count: Option<usize>, printed: &mut Output) {
    match count {
        Some(count) => {
            for _ in 0..count {
                device.frame();
            }
        }
        None => printed.unread(),
    }
}

/// Appends the fixed motion of a control.
fn print_motion(device: &Device, control: Option<ControlId>, printed: &mut Output) {
    match control {
        Some(control) => printed.show(device.fixed().motion(control)),
        None => printed.unread(),
    }
}

/// Appends a report that was set last.
fn print_kept(device: &Device, kind: Option<ReportKind>, id: Option<u8>, printed: &mut Output) {
    match (kind, id) {
        (Some(kind), Some(id)) => printed.hex_if_any(device.outputs(kind, id)),
        _ => printed.unread(),
    }
}

/// Appends the answer that is fixed at endpoint 0.
fn print_fixed_answer(device: &mut Device, printed: &mut Output) {
    printed.hex_if_any(device.control().requests().answer());
}

/// Appends what is one of these words; false where they are something else.
fn print_state(device: &mut Device, words: &[&str], printed: &mut Output) -> bool {
    match *words {
        ["frames", count] => pass_frames(device, number(count), printed),
        ["fixed", item, index] => print_motion(device, control_of(item, index), printed),
        ["kept", kind, id] => print_kept(device, kind_of(kind), small(id), printed),
        ["answer"] => print_fixed_answer(device, printed),
        _ => return false,
    }
    true
}

/// Tries until the transfer ends.
fn run(transfer: &mut HostTransfer, device: &mut Device) {
    for _ in 0..40 {
        match transfer.outcome() {
            Outcome::Running => {}
            Outcome::Done(_) | Outcome::Failed(_) => return,
        }
        transfer.step(device.control(), Fate::Clean);
    }
}

/// How a transfer ends: the bytes read, or the fault.
fn print_end(transfer: &HostTransfer, printed: &mut Output) {
    match transfer.outcome() {
        Outcome::Running => printed.add("running "),
        Outcome::Done(bytes) => printed.hex(bytes),
        Outcome::Failed(fault) => printed.show(fault),
    }
}

/// Runs a transfer, and appends how it ends.
fn print_run(transfer: &mut HostTransfer, device: &mut Device, printed: &mut Output) {
    run(transfer, device);
    print_end(transfer, printed);
}

/// Appends the end of a transfer of these setup data; a write has as many of these data as they say.
fn print_transfer(
    alloc: Global,
    device: &mut Device,
    setup: Setup,
    data: &[u8],
    printed: &mut Output,
) {
    let sent = if setup.is_read() {
        0
    } else {
        usize::from(setup.length)
    };
    if data.len() != sent {
        return printed.unread();
    }
    match HostTransfer::begin(alloc, 1, setup, data) {
        Ok(mut transfer) => print_run(&mut transfer, device, printed),
        Err(_) => printed.unread(),
    }
}

/// Appends the end of the transfer that these bytes ask for: setup data, and what is sent after them.
fn print_request(alloc: Global, device: &mut Device, bytes: &[u8], printed: &mut Output) {
    match bytes.split_first_chunk::<8>() {
        Some((request, data)) => print_transfer(
            alloc,
            device,
            Setup::from_bytes(request),
            data,
            printed,
        ),
        None => printed.unread(),
    }
}

/// Appends the answer to a packet, both as they are encoded.
fn print_answer(device: &mut Device, bytes: &[u8], printed: &mut Output) {
    match decode(bytes) {
        Ok(packet) => {
            if let Some(answer) = device.on_packet(&packet) {
                printed.hex(&encode(&answer));
            }
        }
        Err(_) => printed.unread(),
    }
}

/// Appends the answer to a packet, or the end of a transfer of setup data.
fn print_bytes(
    alloc: Global,
    device: &mut Device,
    words: &[&str],
    bytes: &mut Vec<u8>,
    printed: &mut Output,
) {
    match *words {
        ["ask", ref rest @ ..] if read_bytes(bytes, rest) => print_request(
            alloc, device, bytes, printed,
        ),
        _ if read_bytes(bytes, words) => print_answer(device, bytes, printed),
        _ => printed.unread(),
    }
}

/// Does what these words mean with a device, and appends the answer and the round after that.
pub fn print_device(
    alloc: Global,
    device: &mut Device,
    words: &[&str],
    bytes: &mut Vec<u8>,
    printed: &mut Output,
) {
    if !act(device, words)
        && !change(device, words, printed)
        && !print_state(device, words, printed)
    {
        print_bytes(alloc, device, words, bytes, printed);
    }
    print_round(device, printed);
}

/// Appends a round that is open: its report, its toggle and its piece.
fn print_open(report: usize, one: bool, piece: usize, printed: &mut Output) {
    printed.show(format_args!("round {report}.{}", u8::from(one)));
    if piece != 0 {
        printed.show(format_args!("piece {piece}"));
    }
}

/// Appends the open round, if there is one (something is armed for it), or that the endpoint is halted.
pub fn print_round(device: &Device, printed: &mut Output) {
    match (device.open_round(), device.piece(), device.pipe().armed()) {
        (None, None, None) if device.pipe().halted() => printed.add("halted"),
        (None, None, None) => {}
        (Some((report, one)), Some(piece), Some(_)) => print_open(report, one, piece, printed),
        _ => printed.add("armed without a round, or a round without"),
    }
}
