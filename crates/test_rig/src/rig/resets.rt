//! How a reset of the bus leaves a device and its host, in each state of them, and a write that it ends (USB 2.0, 7.1.7.5 and
//! 9.1.1.3; HID 1.11, 7.2), worked out by hand from the definitions.

use super::{
    Act, Asks, Boots, CLEAN, PlainRequest, TRY, ask, ask_all, attach_all, state_of, step_of,
    take_all, take_step,
};
use arrayvec::ArrayVec;
use hid_device::{Boot, Device};
use hid_report_descriptor::ReportKind;
use hid_stack::{Delivered, HostState, Request, Rig, StackFault, Start, Step};
use std::test::Fail;
use test_rows::none_is_wrong;
use usb_control::ControlFault;
use usb_transact::Fate;

/// Whether a device has no open round and is at DATA0.
fn is_at_rest(device: &Device) -> bool {
    device.open_round().is_none() && !device.pipe().toggle()
}

/// Whether the host of a device knows nothing of it and runs no transfer, and the device is at rest.
fn is_forgotten(rig: &Rig, dev: u8) -> Result<bool, StackFault> {
    let runs_nothing = rig.transfer(dev) == Err(StackFault::Control(ControlFault::NoTransfer));
    let is_cold = state_of(rig, dev)? == HostState::Cold;
    Ok(is_cold && runs_nothing && is_at_rest(rig.device(dev)?))
}

#[rattlefmt::skip]
const POLLED: [Boots; 6] = [
    (Boot::Mouse, Start::Ready), (Boot::Mouse, Start::Ready),    (Boot::Mouse, Start::Ready),
    (Boot::Mouse, Start::Ready), (Boot::Keyboard, Start::Ready), (Boot::Keyboard, Start::Ready),
];

/// What each of them does before its reset.
#[rattlefmt::skip]
const BEFORE: [&[Act]; 6] = [
    &[Act::Move(2, 0, 5), Act::Poll(Fate::AckLost)],
    &[Act::Move(2, 0, 5), Act::Poll(Fate::ReplyLost), Act::Move(2, 0, 2), Act::Reset],
    &[Act::Move(2, 0, 5), Act::Poll(Fate::TokenLost)],
    &[Act::Move(2, 0, -200), CLEAN, Act::Poll(Fate::ReplyLost), Act::Move(2, 0, 1)],
    &[Act::Press(4, 4), CLEAN, Act::Press(4, 5), Act::Poll(Fate::ReplyLost)],
    &[CLEAN],
];

/// The first of these devices, from 1, that isn't forgotten after its acts and a reset.
fn first_remembered(
    rig: &mut Rig,
    rows: &[&'static [Act]],
    out: &mut Vec<Delivered>,
) -> Result<Option<usize>, StackFault> {
    for (dev, acts) in (1..8).zip(rows.iter()) {
        take_all(rig, dev, acts, out)?;
        take_step(rig, &step_of(dev, Act::Reset), out)?;
        if !is_forgotten(rig, dev)? {
            return Ok(Some(dev as usize));
        }
    }
    Ok(None)
}

fn are_forgotten(rt: &HostRuntime, rig: &mut Rig) -> Result<(), Fail> {
    attach_all(rig, &POLLED)?;
    let mut out = Vec::new(rt.alloc());
    none_is_wrong(first_remembered(rig, &BEFORE, &mut out)?)
}

#[test]
fn after_a_reset_the_host_knows_nothing_and_the_device_is_at_rest(
    rt: HostRuntime,
) -> Result<(), Fail> {
    let mut rig = Rig::new(rt.alloc())?;
    are_forgotten(&rt, &mut rig)
}

const COLD: [Boots; 4] = [(Boot::Keyboard, Start::Cold); 4];

/// The requests that bring a boot keyboard up, as far as its host is cold, described, parsed and ready: its configuration has
/// 34 bytes and its report descriptor 63, which go in pieces of 8.
#[rattlefmt::skip]
const FRONTS: [&[Asks]; 4] = [
    &[],
    &[(PlainRequest::Config, 7)],
    &[(PlainRequest::Config, 7), (PlainRequest::Report, 10)],
    &[(PlainRequest::Config, 7), (PlainRequest::Report, 10), (PlainRequest::Configure, 2)],
];

/// The first of these devices, from 1, of which a reset amid a transfer leaves anything.
fn first_not_reset(
    rig: &mut Rig,
    rows: &[&'static [Asks]],
    out: &mut Vec<Delivered>,
) -> Result<Option<usize>, StackFault> {
    for (dev, requests) in (1..8).zip(rows.iter()) {
        ask_all(rig, dev, requests, out)?;
        ask(rig, dev, (PlainRequest::Status, 1), out)?;
        take_step(rig, &step_of(dev, Act::Reset), out)?;
        if !is_forgotten(rig, dev)? {
            return Ok(Some(dev as usize));
        }
    }
    Ok(None)
}

fn are_reset(rt: &HostRuntime, rig: &mut Rig) -> Result<(), Fail> {
    attach_all(rig, &COLD)?;
    let mut out = Vec::new(rt.alloc());
    none_is_wrong(first_not_reset(rig, &FRONTS, &mut out)?)
}

#[test]
fn a_reset_ends_a_transfer_in_each_state(rt: HostRuntime) -> Result<(), Fail> {
    let mut rig = Rig::new(rt.alloc())?;
    are_reset(&rt, &mut rig)
}

/// A write that a reset ends: its tries, and the lights before the reset.
type Write = (&'static [Act], u8);

const REPLY: Act = Act::Control(Fate::ReplyLost);

/// The tries of a write of a keyboard's lights before a reset, its SETUP, its byte and its status, and the lights before the
/// reset: they were set once or not at all.
#[rattlefmt::skip]
const WRITES: [Write; 6] = [
    (&[],                                           0),
    (&[TRY],                                        0),
    (&[TRY, TRY],                                   0),
    (&[TRY, TRY, Act::Control(Fate::TokenLost)],    0),
    (&[TRY, TRY, REPLY],                            2),
    (&[TRY, TRY, TRY],                              2),
];

const WRITTEN: [Boots; 6] = [(Boot::Keyboard, Start::Ready); 6];

/// Whether the lights of a device are these.
fn are_lights(rig: &Rig, dev: u8, lights: u8) -> Result<bool, StackFault> {
    Ok(rig.device(dev)?.outputs(ReportKind::Output, 0) == Some([lights].as_slice()))
}

/// A write of the lights begins.
fn begin_lights(
    rig: &mut Rig,
    dev: u8,
    bytes: &[u8],
    out: &mut Vec<Delivered>,
) -> Result<(), Fail> {
    let request = Request::SetReport {
        kind: ReportKind::Output,
        id: 0,
        bytes: ArrayVec::try_from(bytes)?,
    };
    take_step(rig, &Step::Begin { dev, request }, out)?;
    Ok(())
}

/// Whether a reset ends the write after these tries, with these lights before it and none after.
fn is_ended(
    rig: &mut Rig,
    dev: u8,
    row: &Write,
    out: &mut Vec<Delivered>,
) -> Result<bool, StackFault> {
    let (tries, lights) = row;
    take_all(rig, dev, tries, out)?;
    let is_before = are_lights(rig, dev, *lights)?;
    take_step(rig, &step_of(dev, Act::Reset), out)?;
    Ok(is_before && are_lights(rig, dev, 0)? && is_forgotten(rig, dev)? && out.is_empty())
}

/// The first of these writes, from 1, that doesn't end so, each of a device of its own.
fn first_not_ended(
    rig: &mut Rig,
    rows: &[Write],
    out: &mut Vec<Delivered>,
) -> Result<Option<usize>, Fail> {
    for (dev, row) in (1..8).zip(rows.iter()) {
        begin_lights(rig, dev, &[2], out)?;
        if !is_ended(rig, dev, row, out)? {
            return Ok(Some(dev as usize));
        }
    }
    Ok(None)
}

fn are_ended(rt: &HostRuntime, rig: &mut Rig) -> Result<(), Fail> {
    attach_all(rig, &WRITTEN)?;
    let mut out = Vec::new(rt.alloc());
    none_is_wrong(first_not_ended(rig, &WRITES, &mut out)?)
}

#[test]
fn a_write_that_a_reset_ends_took_effect_or_did_not(rt: HostRuntime) -> Result<(), Fail> {
    let mut rig = Rig::new(rt.alloc())?;
    are_ended(&rt, &mut rig)
}
