//! What no script shows of steps on a bus with boot keyboards and boot mice, worked out by hand from the definitions (USB
//! 2.0, 8.5.4 and 8.6): runs of steps, controls of events, and what a rig lets one look at.

use hid_device::{Boot, Config, Device, KEYBOARD, MOUSE};
use hid_layout::{ControlId, Usage};
use hid_stack::{
    Delivered, HostDevice, HostState, Request, Rig, RunFault, StackFault, Start, Step, Told,
};
use hid_usages::{Change, ChangeFault, Event};
use std::test::Fail;
use test_rows::{holds, none_is_wrong};
use usb_control::Outcome;
use usb_transact::Fate;

mod ends;
mod memory;
mod pieces;
mod refusals;
mod resets;

fn config(boot: Boot) -> Config {
    Config {
        vendor: 0xFFFF,
        product: 0x0001,
        interval: 10,
        boot,
    }
}

// Helpers without a contract: so the proofs of the tests aren't given what these calls say, nor these bytes. A test makes a
// bus and ends with the call of a helper that plays on it: each end of a function that owns a bus has a proof that it is
// given back.

fn keyboard() -> &'static [u8] {
    &KEYBOARD
}

fn mouse() -> &'static [u8] {
    &MOUSE
}

fn descriptor_of(boot: Boot) -> &'static [u8] {
    match boot {
        Boot::Mouse => mouse(),
        Boot::Keyboard | Boot::No => keyboard(),
    }
}

/// One device more.
fn attach_to(rig: &mut Rig, boot: Boot, descriptor: &[u8], start: Start) -> Result<u8, StackFault> {
    rig.attach(&config(boot), descriptor, start)
}

/// A boot device.
type Boots = (Boot, Start);

/// These devices, in turn.
fn attach_all(rig: &mut Rig, devices: &[Boots]) -> Result<(), StackFault> {
    for (boot, start) in devices {
        attach_to(rig, *boot, descriptor_of(*boot), *start)?;
    }
    Ok(())
}

/// A step of the bus.
fn take_step(rig: &mut Rig, step: &Step, out: &mut Vec<Delivered>) -> Result<Told, StackFault> {
    rig.step(step, out)
}

/// Steps up to the first that is refused.
fn take_steps(rig: &mut Rig, steps: &[Step], out: &mut Vec<Delivered>) -> Result<(), RunFault> {
    rig.run(steps, out)
}

/// A step of one device; a control by its item and index.
#[derive(Clone, Copy)]
enum Act {
    Press(usize, usize),
    Set(usize, usize, i64),
    Move(usize, usize, i32),
    Poll(Fate),
    /// The device halts by itself.
    Halt,
    Reset,
    Begin(PlainRequest),
    Control(Fate),
}

/// A request without bytes.
#[derive(Clone, Copy)]
enum PlainRequest {
    Config,
    Report,
    Configure,
    Status,
    GetConfiguration,
    GetIdle,
    Halt,
    Clear,
    EndpointStatus,
}

const CLEAN: Act = Act::Poll(Fate::Clean);

const TRY: Act = Act::Control(Fate::Clean);

const CLEAR: Act = Act::Begin(PlainRequest::Clear);

fn changes(dev: u8, change: Change) -> Step {
    Step::Change { dev, change }
}

fn request_of(asked: PlainRequest) -> Request {
    match asked {
        PlainRequest::Config => Request::Config,
        PlainRequest::Report => Request::Report,
        PlainRequest::Configure => Request::Configure,
        PlainRequest::Status => Request::Status,
        PlainRequest::GetConfiguration => Request::GetConfiguration,
        PlainRequest::GetIdle => Request::GetIdle { id: 0 },
        PlainRequest::Halt => Request::Halt,
        PlainRequest::Clear => Request::Clear,
        PlainRequest::EndpointStatus => Request::EndpointStatus,
    }
}

fn step_of(dev: u8, act: Act) -> Step {
    match act {
        Act::Press(item, index) => changes(dev, Change::Press(ControlId { item, index })),
        Act::Set(item, index, to) => changes(dev, Change::Set(ControlId { item, index }, to)),
        Act::Move(item, index, by) => changes(dev, Change::Move(ControlId { item, index }, by)),
        Act::Poll(fate) => Step::Poll { dev, fate },
        Act::Halt => Step::Halt { dev },
        Act::Reset => Step::Reset { dev },
        Act::Begin(asked) => Step::Begin {
            dev,
            request: request_of(asked),
        },
        Act::Control(fate) => Step::Control { dev, fate },
    }
}

/// Acts of a device, each of which is taken.
fn take_all(
    rig: &mut Rig,
    dev: u8,
    acts: &[Act],
    out: &mut Vec<Delivered>,
) -> Result<(), StackFault> {
    for act in acts {
        take_step(rig, &step_of(dev, *act), out)?;
    }
    Ok(())
}

/// A request, and how many tries it takes where nothing is lost.
type Asks = (PlainRequest, usize);

/// A request of a device with n tries.
fn ask(rig: &mut Rig, dev: u8, asks: Asks, out: &mut Vec<Delivered>) -> Result<(), StackFault> {
    let (asked, tries) = asks;
    take_step(rig, &step_of(dev, Act::Begin(asked)), out)?;
    for _ in 0..tries {
        take_step(rig, &step_of(dev, TRY), out)?;
    }
    Ok(())
}

/// Requests of a device, in turn.
fn ask_all(
    rig: &mut Rig,
    dev: u8,
    requests: &[Asks],
    out: &mut Vec<Delivered>,
) -> Result<(), StackFault> {
    for asks in requests {
        ask(rig, dev, *asks, out)?;
    }
    Ok(())
}

/// What the host of a device knows.
fn state_of(rig: &Rig, dev: u8) -> Result<HostState, StackFault> {
    Ok(rig.host(dev)?.state())
}

/// An event of a boot keyboard or a boot mouse.
#[derive(Clone, Copy)]
enum Given {
    /// A key of the keyboard's array, its item 4, where a usage's place is its ID.
    Down(u16),
    Up(u16),
    /// The mouse's first button, the first element of its item 0.
    ButtonDown,
    ButtonUp,
    /// Its X, the first element of its item 2.
    X(i64),
    Dropped(i64),
}

const X: ControlId = ControlId { item: 2, index: 0 };

const X_USAGE: Usage = Usage { page: 1, id: 0x30 };

const BUTTON: ControlId = ControlId { item: 0, index: 0 };

const BUTTON_USAGE: Usage = Usage { page: 9, id: 1 };

fn key(id: u16) -> ControlId {
    ControlId {
        item: 4,
        index: id as usize,
    }
}

fn event_of(given: Given) -> Event {
    match given {
        Given::Down(id) => Event::Down {
            control: key(id),
            usage: Usage { page: 7, id },
        },
        Given::Up(id) => Event::Up {
            control: key(id),
            usage: Usage { page: 7, id },
        },
        Given::ButtonDown => Event::Down {
            control: BUTTON,
            usage: BUTTON_USAGE,
        },
        Given::ButtonUp => Event::Up {
            control: BUTTON,
            usage: BUTTON_USAGE,
        },
        Given::X(by) => Event::Motion {
            control: X,
            usage: X_USAGE,
            by,
        },
        Given::Dropped(by) => Event::Dropped {
            control: X,
            usage: X_USAGE,
            by,
        },
    }
}

/// Whether these events are all that was delivered, in their order.
fn are_delivered(out: &[Delivered], wanted: &[(u8, Given)]) -> bool {
    out.len() == wanted.len()
        && out.iter().zip(wanted.iter()).all(|(delivered, (dev, given))| *delivered
            == Delivered {
                dev: *dev,
                event: event_of(*given),
            })
}

/// Steps, each with its device; at which of them the run stops, and why; and what is delivered.
type Run = (
    &'static [(u8, Act)],
    Result<(), RunFault>,
    &'static [(u8, Given)],
);

/// A keyboard and a mouse.
const TWO: [Boots; 2] = [(Boot::Keyboard, Start::Ready), (Boot::Mouse, Start::Ready)];

/// Runs of a keyboard and a mouse, one after the other.
#[rattlefmt::skip]
const RUNS: [Run; 6] = [
    (&[(1, Act::Press(4, 4)), (1, Act::Poll(Fate::AckLost)), (1, Act::Press(4, 5)), (1, CLEAN), (1, CLEAN)],
        Ok(()),                                                   &[(1, Given::Down(4)), (1, Given::Down(5))]),
    (&[(1, Act::Press(4, 6)), (1, CLEAN), (3, CLEAN), (1, Act::Press(4, 7))],
        Err(RunFault { at: 2, fault: StackFault::NoDevice }),     &[(1, Given::Down(6))]),
    (&[(2, Act::Press(0, 0)), (2, Act::Move(2, 0, 5)), (2, CLEAN), (2, Act::Move(2, 0, 6)), (2, Act::Poll(Fate::ReplyLost)), (2, Act::Reset)],
        Ok(()),                                                   &[(2, Given::ButtonDown), (2, Given::X(5)), (2, Given::ButtonUp), (2, Given::Dropped(6))]),
    (&[(1, Act::Reset), (1, Act::Press(4, 4)), (1, CLEAN)],
        Err(RunFault { at: 2, fault: StackFault::NotReady }),     &[(1, Given::Up(4)), (1, Given::Up(5)), (1, Given::Up(6))]),
    (&[(2, Act::Move(2, 0, i32::MAX))],
        Ok(()),                                                   &[]),
    (&[(2, Act::Move(2, 0, 1))],
        Err(RunFault { at: 0, fault: StackFault::Refused(ChangeFault::MotionFull) }), &[]),
];

/// Whether these acts run so, and deliver these events.
fn are_run(
    rig: &mut Rig,
    row: &Run,
    steps: &mut Vec<Step>,
    out: &mut Vec<Delivered>,
) -> Result<bool, Fail> {
    let (acts, wanted, events) = row;
    for (dev, act) in *acts {
        steps.push(step_of(*dev, *act))?;
    }
    Ok(take_steps(rig, steps, out) == *wanted && are_delivered(out, events))
}

fn runs(rt: &HostRuntime, rig: &mut Rig, row: &Run) -> Result<bool, Fail> {
    let mut steps = Vec::new(rt.alloc());
    let mut out = Vec::new(rt.alloc());
    are_run(rig, row, &mut steps, &mut out)
}

/// The place of the first run that ends otherwise, or delivers something else.
fn first_wrong_run(rt: &HostRuntime, rig: &mut Rig, rows: &[Run]) -> Result<Option<usize>, Fail> {
    for (at, row) in rows.iter().enumerate() {
        if !runs(rt, rig, row)? {
            return Ok(Some(at));
        }
    }
    Ok(None)
}

fn check_runs(rt: &HostRuntime, rig: &mut Rig) -> Result<(), Fail> {
    attach_all(rig, &TWO)?;
    none_is_wrong(first_wrong_run(rt, rig, &RUNS)?)
}

#[test]
fn a_run_ends_at_its_first_refusal(rt: HostRuntime) -> Result<(), Fail> {
    let mut rig = Rig::new(rt.alloc())?;
    check_runs(&rt, &mut rig)
}

/// The toggle that a host expects, once it is ready.
fn expects(host: &HostDevice) -> Option<bool> {
    match host.state() {
        HostState::Ready => Some(host.pipe().expects()),
        HostState::Cold | HostState::Described | HostState::Parsed => None,
    }
}

/// Whether a host is ready and holds a control.
fn holds_control(host: &HostDevice, control: ControlId) -> bool {
    match host.state() {
        HostState::Ready => host.view().held(control),
        HostState::Cold | HostState::Described | HostState::Parsed => false,
    }
}

/// The report of a boot keyboard with its key a pressed.
const A_PRESSED: [u8; 8] = [0, 0, 0x04, 0, 0, 0, 0, 0];

/// Whether the pipe of a device is at this toggle, and armed with this report.
fn is_pipe(device: &Device, toggle: bool, armed: Option<&[u8]>) -> bool {
    device.pipe().toggle() == toggle && device.pipe().armed() == armed
}

/// Whether the host of device 1 expects DATA1 and holds the key a, and the device's pipe stands so.
fn are_ends(rig: &Rig, toggle: bool, armed: Option<&[u8]>) -> Result<bool, StackFault> {
    let host = rig.host(1)?;
    let is_reported = expects(host) == Some(true) && holds_control(host, key(4));
    Ok(is_reported && is_pipe(rig.device(1)?, toggle, armed))
}

/// An ACK that is lost, and the next poll, which delivers nothing again.
#[rattlefmt::skip]
const APART: Run = (&[(1, Act::Press(4, 4)), (1, Act::Poll(Fate::AckLost))], Ok(()), &[(1, Given::Down(4))]);

const ALIKE: Run = (&[(1, CLEAN)], Ok(()), &[]);

/// Whether the ends stand apart where an ACK is lost, and the device holds the report at DATA0; and alike after the
/// next poll.
fn are_toggles_shown(rt: &HostRuntime, rig: &mut Rig) -> Result<(), Fail> {
    attach_all(rig, &TWO)?;
    let is_apart = runs(rt, rig, &APART)? && are_ends(rig, false, Some(A_PRESSED.as_slice()))?;
    let is_alike = runs(rt, rig, &ALIKE)? && are_ends(rig, true, None)?;
    holds("the toggles", is_apart && is_alike)
}

#[test]
fn the_two_ends_show_their_toggles(rt: HostRuntime) -> Result<(), Fail> {
    let mut rig = Rig::new(rt.alloc())?;
    are_toggles_shown(&rt, &mut rig)
}

/// Seven devices.
#[rattlefmt::skip]
const SEVEN: [Boots; 7] = [
    (Boot::Keyboard, Start::Ready), (Boot::Mouse, Start::Ready),   (Boot::Mouse, Start::Ready),    (Boot::Keyboard, Start::Ready),
    (Boot::Mouse, Start::Ready),    (Boot::Keyboard, Start::Cold), (Boot::Keyboard, Start::Ready),
];

fn find(rig: &Rig, dev: u8, usage: Usage) -> Result<ControlId, StackFault> {
    rig.find(dev, usage)
}

const Y_USAGE: Usage = Usage { page: 1, id: 0x31 };

const WHEEL: Usage = Usage { page: 1, id: 0x38 };

const NO_CONTROL: StackFault = StackFault::Refused(ChangeFault::NoSuchControl);

/// Usages looked for at a device of the seven.
#[rattlefmt::skip]
const FOUND: [(u8, Usage, Result<ControlId, StackFault>); 11] = [
    (1, X_USAGE, Err(NO_CONTROL)),
    (2, X_USAGE, Ok(X)),
    (3, X_USAGE, Ok(X)),
    (4, X_USAGE, Err(NO_CONTROL)),
    (5, X_USAGE, Ok(X)),
    (6, X_USAGE, Err(NO_CONTROL)),
    (7, X_USAGE, Err(NO_CONTROL)),
    (2, Y_USAGE, Ok(ControlId { item: 2, index: 1 })),
    (2, WHEEL,   Err(NO_CONTROL)),
    (8, Y_USAGE, Err(StackFault::NoDevice)),
    (0, Y_USAGE, Err(StackFault::NoDevice)),
];

/// The first row that is found otherwise.
fn first_found_otherwise(
    rig: &Rig,
    rows: &[(u8, Usage, Result<ControlId, StackFault>)],
) -> Option<usize> {
    for (at, (dev, usage, wanted)) in rows.iter().enumerate() {
        if find(rig, *dev, *usage) != *wanted {
            return Some(at);
        }
    }
    None
}

fn are_found(rig: &mut Rig) -> Result<(), Fail> {
    attach_all(rig, &SEVEN)?;
    none_is_wrong(first_found_otherwise(rig, &FOUND))
}

#[test]
fn a_control_is_found_at_its_own_device(rt: HostRuntime) -> Result<(), Fail> {
    let mut rig = Rig::new(rt.alloc())?;
    are_found(&mut rig)
}

/// Whether the transfer of device 6 has come so far.
fn is_transfer(rig: &Rig, wanted: &Outcome<'_>) -> bool {
    match rig.transfer(6) {
        Ok(outcome) => outcome == *wanted,
        Err(_) => false,
    }
}

/// Whether a configuration is read: its status is missing after two tries, and after the third it is 0.
fn is_read(rig: &mut Rig, out: &mut Vec<Delivered>) -> Result<(), Fail> {
    ask(rig, 6, (PlainRequest::GetConfiguration, 2), out)?;
    let is_running = is_transfer(rig, &Outcome::Running);
    take_step(rig, &step_of(6, TRY), out)?;
    holds(
        "the bytes",
        is_running && is_transfer(rig, &Outcome::Done(&[0])),
    )
}

fn is_read_cold(rt: &HostRuntime, rig: &mut Rig) -> Result<(), Fail> {
    attach_all(rig, &SEVEN)?;
    let mut out = Vec::new(rt.alloc());
    is_read(rig, &mut out)
}

#[test]
fn the_bytes_of_a_read_are_shown(rt: HostRuntime) -> Result<(), Fail> {
    let mut rig = Rig::new(rt.alloc())?;
    is_read_cold(&rt, &mut rig)
}
