//! Which piece of a report of more than a packet goes out after each step (USB 2.0, 5.7.3, 8.5.4, 8.6 and 9.4.5),
//! worked out by hand from the definitions. What these steps print and deliver stands in tests/scripts/pieces.rows.

use super::{Act, Asks, CLEAN, CLEAR, PlainRequest, TRY, ask_all, attach_to, step_of, take_step};
use hid_device::Boot;
use hid_stack::{Delivered, Rig, StackFault, Start};
use std::test::Fail;
use test_rows::none_is_wrong;
use usb_transact::Fate;

/// 100 values of a byte each.
#[rattlefmt::skip]
const VALUES: [u8; 15] = [
    0x05, 0x01, 0x09, 0x30, 0x15, 0x00, 0x26, 0xFF, 0x00, 0x75, 0x08, 0x95, 0x64, 0x81, 0x02,
];

/// 100 motions of a byte each.
#[rattlefmt::skip]
const MOTIONS: [u8; 14] = [
    0x05, 0x01, 0x09, 0x30, 0x15, 0x81, 0x25, 0x7F, 0x75, 0x08, 0x95, 0x64, 0x81, 0x06,
];

/// A step of device 1, and which piece goes out after it.
type Row = (Act, Option<usize>);

/// The descriptor of a device, its steps, and those after the next configuration, if there is one.
type Schedule = (&'static [u8], &'static [Row], &'static [Row]);

#[rattlefmt::skip]
const SCHEDULES: [Schedule; 11] = [
    // a value that is set between two pieces goes in the next round
    (&VALUES, &[
        (Act::Set(0, 0, 7),        None),
        (Act::Poll(Fate::AckLost), Some(0)),
        (Act::Set(0, 0, 9),        Some(0)),
        (CLEAN,                    Some(1)),
        (CLEAN,                    None),
        (CLEAN,                    Some(1)),
        (CLEAN,                    None),
    ], &[]),
    // the last piece is taken once
    (&VALUES, &[
        (Act::Set(0, 0, 7),        None),
        (CLEAN,                    Some(1)),
        (Act::Poll(Fate::AckLost), Some(1)),
        (Act::Poll(Fate::AckLost), Some(1)),
        (CLEAN,                    None),
    ], &[]),
    // each piece may be lost
    (&VALUES, &[
        (Act::Set(0, 0, 7),          None),
        (Act::Poll(Fate::ReplyLost), Some(0)),
        (CLEAN,                      Some(1)),
        (Act::Poll(Fate::ReplyLost), Some(1)),
        (Act::Poll(Fate::TokenLost), Some(1)),
        (CLEAN,                      None),
    ], &[]),
    // a reset between two pieces
    (&MOTIONS, &[
        (Act::Move(0, 0, 5), None),
        (CLEAN,              Some(1)),
        (Act::Reset,         None),
    ], &[]),
    // a reset after the last piece
    (&MOTIONS, &[
        (Act::Move(0, 0, 5),       None),
        (CLEAN,                    Some(1)),
        (Act::Poll(Fate::AckLost), Some(1)),
        (Act::Reset,               None),
    ], &[]),
    // a halt between two pieces, and its end
    (&MOTIONS, &[
        (Act::Move(0, 0, 5),       None),
        (Act::Poll(Fate::AckLost), Some(0)),
        (Act::Halt,                None),
        (CLEAR,                    None),
        (TRY,                      None),
        (TRY,                      None),
        (CLEAN,                    Some(1)),
        (CLEAN,                    None),
    ], &[]),
    // a clear between two pieces, whose status is lost once
    (&VALUES, &[
        (Act::Set(0, 0, 7),             None),
        (CLEAN,                         Some(1)),
        (CLEAR,                         Some(1)),
        (TRY,                           Some(1)),
        (Act::Control(Fate::ReplyLost), None),
        (Act::Set(0, 0, 9),             None),
        (TRY,                           None),
        (CLEAN,                         Some(1)),
        (CLEAN,                         None),
    ], &[]),
    // a clear after the last piece, which had crossed
    (&MOTIONS, &[
        (Act::Move(0, 0, 5),       None),
        (CLEAN,                    Some(1)),
        (Act::Poll(Fate::AckLost), Some(1)),
        (CLEAR,                    Some(1)),
        (TRY,                      Some(1)),
        (TRY,                      None),
    ], &[]),
    // a value, and a reset
    (&VALUES, &[
        (Act::Set(0, 0, 7), None),
        (CLEAN,             Some(1)),
        (Act::Set(0, 0, 8), Some(1)),
        (Act::Reset,        None),
    ], &[
        (CLEAN, Some(1)),
        (CLEAN, None),
    ]),
    // a piece that closes later, and a reset
    (&VALUES, &[
        (Act::Set(0, 0, 7),        None),
        (Act::Poll(Fate::AckLost), Some(0)),
        (Act::Reset,               None),
        (Act::Set(0, 0, 8),        None),
    ], &[
        (Act::Poll(Fate::AckLost), Some(0)),
        (CLEAN,                    Some(1)),
        (CLEAN,                    None),
    ]),
    // a motion, and a reset
    (&MOTIONS, &[
        (Act::Move(0, 0, 5), None),
        (CLEAN,              Some(1)),
        (Act::Reset,         None),
        (Act::Move(0, 0, 3), None),
    ], &[
        (CLEAN, Some(1)),
        (CLEAN, None),
    ]),
];

/// The requests that bring such a device up: its report descriptor has 14 or 15 bytes, which go in two pieces of endpoint 0.
const BRINGS_UP: [Asks; 3] = [
    (PlainRequest::Config, 7),
    (PlainRequest::Report, 4),
    (PlainRequest::Configure, 2),
];

/// Whether each step leaves the piece that its row says.
fn are_left(rig: &mut Rig, rows: &[Row], out: &mut Vec<Delivered>) -> Result<bool, StackFault> {
    for (act, piece) in rows {
        take_step(rig, &step_of(1, *act), out)?;
        if rig.device(1)?.piece() != *piece {
            return Ok(false);
        }
    }
    Ok(true)
}

/// Whether a device's steps leave so, up to the end or to the next configuration, and after that.
fn goes(rig: &mut Rig, row: &Schedule, out: &mut Vec<Delivered>) -> Result<bool, StackFault> {
    let (descriptor, before, behind) = row;
    attach_to(rig, Boot::No, descriptor, Start::Ready)?;
    if !are_left(rig, before, out)? {
        return Ok(false);
    }
    if !behind.is_empty() {
        ask_all(rig, 1, &BRINGS_UP, out)?;
    }
    are_left(rig, behind, out)
}

/// Whether a device's steps leave so, on a bus of its own.
fn goes_alone(rt: &HostRuntime, row: &Schedule) -> Result<bool, StackFault> {
    let mut rig = Rig::new(rt.alloc())?;
    let mut out = Vec::new(rt.alloc());
    goes(&mut rig, row, &mut out)
}

/// The first schedule that goes otherwise.
fn first_wrong(rt: &HostRuntime, rows: &[Schedule]) -> Result<Option<usize>, StackFault> {
    for (at, row) in rows.iter().enumerate() {
        if !goes_alone(rt, row)? {
            return Ok(Some(at));
        }
    }
    Ok(None)
}

#[test]
fn a_step_leaves_a_piece(rt: HostRuntime) -> Result<(), Fail> {
    none_is_wrong(first_wrong(&rt, &SCHEDULES)?)
}
