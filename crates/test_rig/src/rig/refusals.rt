//! What a bus refuses, with the steps after it, which go on as if there had been none; and the codes that are
//! printed. By docs/FORMATS.md and docs/SCRIPT.md.

use super::{
    Act, Boots, CLEAN, CLEAR, NO_CONTROL, PlainRequest, TRY, attach_all, step_of, take_step,
};
use hid_device::{Boot, DeviceCause, DeviceFault};
use hid_layout::Cause;
use hid_stack::{Delivered, DescriptorFault, Rig, RunFault, StackFault, Start};
use hid_usages::{ChangeFault, ReportFault};
use std::fmt::Write;
use std::test::Fail;
use test_rows::{holds, none_is_wrong};
use usb_control::ControlFault;
use usb_transact::Fate;

const DEVICES: [Boots; 7] = [
    (Boot::Keyboard, Start::Cold),
    (Boot::Keyboard, Start::Ready),
    (Boot::Mouse, Start::Ready),
    (Boot::Mouse, Start::Ready),
    (Boot::Keyboard, Start::Ready),
    (Boot::Keyboard, Start::Ready),
    (Boot::Keyboard, Start::Ready),
];

const NO_DEVICE: Option<StackFault> = Some(StackFault::NoDevice);

const NOT_READY: Option<StackFault> = Some(StackFault::NotReady);

const NO_TRANSFER: Option<StackFault> = Some(StackFault::Control(ControlFault::NoTransfer));

const BUSY: Option<StackFault> = Some(StackFault::Control(ControlFault::Busy));

const LOST: Act = Act::Control(Fate::TokenLost);

/// A step of a device, and why it is refused, if it is.
type Answer = (u8, Act, Option<StackFault>);

/// Of a device whose host knows nothing of it; after a reset; of a clear that gets no answer, after which polls are
/// refused until another one is done; of a clear that a reset ends; and of devices that there aren't. No such device comes
/// first, then a transfer that runs, then the host's state.
#[rattlefmt::skip]
const ANSWERS: [Answer; 37] = [
    (1, CLEAN,                             NOT_READY),
    (1, TRY,                               NO_TRANSFER),
    (1, Act::Begin(PlainRequest::Configure),      NOT_READY),
    (8, Act::Begin(PlainRequest::Config),         NO_DEVICE),

    (2, Act::Reset,                        None),
    (0, Act::Reset,                        NO_DEVICE),
    (8, Act::Reset,                        NO_DEVICE),
    (2, Act::Poll(Fate::TokenLost),        NOT_READY),
    (2, TRY,                               NO_TRANSFER),
    (2, Act::Begin(PlainRequest::Report),         NOT_READY),
    (2, Act::Begin(PlainRequest::Configure),      NOT_READY),
    (2, Act::Begin(PlainRequest::GetIdle),        NOT_READY),
    (2, Act::Press(9, 0),                  Some(NO_CONTROL)),
    (2, Act::Begin(PlainRequest::Config),         None),
    (2, Act::Begin(PlainRequest::Report),         BUSY),
    (2, Act::Reset,                        None),
    (2, Act::Begin(PlainRequest::Report),         NOT_READY),

    (3, CLEAR,                             None),
    (3, CLEAN,                             NOT_READY),
    (3, Act::Begin(PlainRequest::Halt),           BUSY),
    (3, LOST,                              None),
    (3, LOST,                              None),
    (3, LOST,                              None),
    (3, CLEAN,                             NOT_READY),
    (3, CLEAR,                             None),
    (3, TRY,                               None),
    (3, TRY,                               None),
    (3, CLEAN,                             None),

    (4, CLEAR,                             None),
    (4, Act::Reset,                        None),
    (4, Act::Begin(PlainRequest::Halt),           NOT_READY),
    (4, CLEAR,                             NOT_READY),
    (4, Act::Begin(PlainRequest::EndpointStatus), NOT_READY),

    (8, CLEAN,                             NO_DEVICE),
    (8, Act::Move(2, 0, 1),                NO_DEVICE),
    (0, CLEAN,                             NO_DEVICE),
    (8, Act::Halt,                         NO_DEVICE),
];

/// Whether a step is refused so, or taken.
fn is_answer(rig: &mut Rig, row: &Answer, out: &mut Vec<Delivered>) -> bool {
    let (dev, act, wanted) = row;
    match (take_step(rig, &step_of(*dev, *act), out), wanted) {
        (Ok(_), None) => true,
        (Err(fault), Some(cause)) => fault == *cause,
        _ => false,
    }
}

/// The first step that is answered otherwise.
fn first_answer_otherwise(
    rig: &mut Rig,
    rows: &[Answer],
    out: &mut Vec<Delivered>,
) -> Option<usize> {
    for (at, row) in rows.iter().enumerate() {
        if !is_answer(rig, row, out) {
            return Some(at);
        }
    }
    None
}

/// Whether each step is answered as its row says, and none delivers an event.
fn are_in_place(rt: &HostRuntime, rig: &mut Rig) -> Result<(), Fail> {
    attach_all(rig, &DEVICES)?;
    let mut out = Vec::new(rt.alloc());
    none_is_wrong(first_answer_otherwise(rig, &ANSWERS, &mut out))
}

#[test]
fn steps_go_on_after_a_refusal(rt: HostRuntime) -> Result<(), Fail> {
    let mut rig = Rig::new(rt.alloc())?;
    are_in_place(&rt, &mut rig)
}

#[rattlefmt::skip]
const FAULTS: [StackFault; 9] = [
    StackFault::Refused(ChangeFault::MotionFull),
    StackFault::NoDevice,
    StackFault::NotReady,
    StackFault::Report(ReportFault::UnknownReport),
    StackFault::TooManyDevices,
    StackFault::Memory,
    StackFault::BadDescriptor(DescriptorFault::Device(DeviceFault { cause: DeviceCause::Layout(Cause::PopEmpty), at: 0 })),
    StackFault::BadDescriptor(DescriptorFault::Device(DeviceFault { cause: DeviceCause::RelativeWithoutZero, at: 0 })),
    StackFault::BadDescriptor(DescriptorFault::Device(DeviceFault { cause: DeviceCause::BadConfig, at: 0 })),
];

/// What they print, and what a run prints that the first of them stopped at its step 4.
const PRINTED: &str = "S3 U6\nS1\nS2\nS6 U9\nS7\nS8\nS5 V3 at 0\nS5 V19\nS5 V20\nstep 4: S3 U6\n";

/// What each of these prints, a line each.
fn print_all(faults: &[StackFault], text: &mut String) -> Result<(), Fail> {
    for fault in faults {
        writeln!(text, "{fault}")?;
    }
    Ok(())
}

/// What a run prints that was refused there.
fn print_stop(stopped: &RunFault, text: &mut String) -> Result<(), Fail> {
    writeln!(text, "{stopped}")?;
    Ok(())
}

fn are_printed(faults: &[StackFault], wanted: &str, text: &mut String) -> Result<(), Fail> {
    print_all(faults, text)?;
    if let [fault, ..] = faults {
        print_stop(
            &RunFault {
                at: 4,
                fault: *fault,
            },
            text,
        )?;
    }
    holds("what is printed", text.as_str() == wanted)
}

#[test]
fn a_fault_is_printed_as_its_code(rt: HostRuntime) -> Result<(), Fail> {
    let mut text = String::new(rt.alloc());
    are_printed(&FAULTS, PRINTED, &mut text)
}
