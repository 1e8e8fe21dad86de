//! Calls of a rig that find no memory: each is made again, and gives what it gives at once with memory. These tests hold
//! whichever growth of theirs is refused: `rt try --test --fail-alloc N` refuses the Nth one of each.

use super::{Act, CLEAN, TRY, attach_to, changes, config, keyboard, step_of, take_step};
use hid_device::{Boot, Device, DeviceCause, DeviceFault};
use hid_layout::{Cause, ControlId, Layout, LayoutFault, Usage};
use hid_stack::{Delivered, HostState, Request, Rig, StackFault, Start, Step, Told};
use hid_usages::{Change, Event, Shown, Snapshot, View};
use std::test::Fail;
use test_rows::{holds, none_is_wrong};
use usb_control::{ControlFault, HostTransfer, Outcome, Progress, Setup};

const KEY: ControlId = ControlId { item: 4, index: 4 };

const KEY_USAGE: Usage = Usage { page: 7, id: 4 };

fn down() -> Delivered {
    Delivered {
        dev: 1,
        event: Event::Down {
            control: KEY,
            usage: KEY_USAGE,
        },
    }
}

fn up() -> Delivered {
    Delivered {
        dev: 1,
        event: Event::Up {
            control: KEY,
            usage: KEY_USAGE,
        },
    }
}

/// A bus without devices.
fn bus(rt: &HostRuntime) -> Result<Rig, StackFault> {
    match Rig::new(rt.alloc()) {
        Err(StackFault::Memory) => Rig::new(rt.alloc()),
        made => made,
    }
}

/// Attaches a boot keyboard. Where that is refused no device is there, and the next one has the same number.
fn attached(rig: &mut Rig, start: Start) -> Result<u8, StackFault> {
    match attach_to(rig, Boot::Keyboard, keyboard(), start) {
        Err(StackFault::Memory) if rig.device(1).is_err() => {
            attach_to(rig, Boot::Keyboard, keyboard(), start)
        }
        told => told,
    }
}

fn state(rig: &Rig) -> Option<HostState> {
    match rig.host(1) {
        Ok(host) => Some(host.state()),
        Err(_) => None,
    }
}

/// A step that is no try of a transfer. Where it is refused nothing is delivered, and the host stays as it is.
fn taken(rig: &mut Rig, step: &Step, out: &mut Vec<Delivered>) -> Result<Told, StackFault> {
    let before = out.len();
    let state_before = state(rig);
    match take_step(rig, step, out) {
        Err(StackFault::Memory) if out.len() == before && state(rig) == state_before => take_step(
            rig, step, out,
        ),
        told => told,
    }
}

/// Tries of the transfer that runs, up to its end.
fn ended(rig: &mut Rig, out: &mut Vec<Delivered>) -> Result<Told, StackFault> {
    for _ in 0..20 {
        match take_step(rig, &step_of(1, TRY), out)? {
            Told::Transfer(Progress::Running) => {}
            told => return Ok(told),
        }
    }
    Ok(Told::Quiet)
}

/// A request, begun and played to its end; it is asked once more where its answer finds no memory and the host stays as it is.
fn asked(rig: &mut Rig, request: &Request, out: &mut Vec<Delivered>) -> Result<Told, StackFault> {
    let state_before = state(rig);
    begun(rig, request, out)?;
    match ended(rig, out) {
        Err(StackFault::Memory) if state(rig) == state_before => {
            begun(rig, request, out)?;
            ended(rig, out)
        }
        told => told,
    }
}

/// A request begins.
fn begun(rig: &mut Rig, request: &Request, out: &mut Vec<Delivered>) -> Result<Told, StackFault> {
    let request = request.copied();
    taken(rig, &Step::Begin { dev: 1, request }, out)
}

/// Presses the key, and polls.
fn press_and_poll(rig: &mut Rig, out: &mut Vec<Delivered>) -> Result<(), StackFault> {
    take_step(rig, &changes(1, Change::Press(KEY)), out)?;
    taken(rig, &step_of(1, CLEAN), out)?;
    Ok(())
}

/// Whether a keyboard is attached, and its poll reports the key.
fn tells_the_key(rt: &HostRuntime, rig: &mut Rig) -> Result<bool, StackFault> {
    let mut out = Vec::new(rt.alloc());
    let dev = attached(rig, Start::Ready)?;
    press_and_poll(rig, &mut out)?;
    Ok(dev == 1 && out.as_slice() == [down()].as_slice())
}

fn is_polled(rt: &HostRuntime, rig: &mut Rig) -> Result<(), Fail> {
    holds("a key", tells_the_key(rt, rig)?)
}

#[test]
fn a_poll_is_made_again(rt: HostRuntime) -> Result<(), Fail> {
    let mut rig = bus(&rt)?;
    is_polled(&rt, &mut rig)
}

/// The requests that bring a device up, and what its host knows after each.
#[rattlefmt::skip]
const BRINGS_UP: [(Request, HostState); 3] = [
    (Request::Config,    HostState::Described),
    (Request::Report,    HostState::Parsed),
    (Request::Configure, HostState::Ready),
];

/// Whether a request is done, and the host knows this after it.
fn leads_to(rig: &mut Rig, request: &Request, wanted: HostState, out: &mut Vec<Delivered>) -> bool {
    let told = asked(rig, request, out);
    matches!(&told, Ok(Told::Transfer(Progress::Done))) && state(rig) == Some(wanted)
}

/// The first request that isn't done, or leads elsewhere.
fn first_elsewhere(
    rig: &mut Rig,
    rows: &[(Request, HostState)],
    out: &mut Vec<Delivered>,
) -> Option<usize> {
    for (at, (request, wanted)) in rows.iter().enumerate() {
        if !leads_to(rig, request, *wanted, out) {
            return Some(at);
        }
    }
    None
}

/// Whether a keyboard is attached, and brought up by these requests.
fn is_brought_up(
    rig: &mut Rig,
    rows: &[(Request, HostState)],
    out: &mut Vec<Delivered>,
) -> Result<(), Fail> {
    let dev = attached(rig, Start::Cold)?;
    let wrong = first_elsewhere(rig, rows, out);
    holds("the number of the device", dev == 1)?;
    none_is_wrong(wrong)
}

fn is_brought_up_by_each(rt: &HostRuntime, rig: &mut Rig) -> Result<(), Fail> {
    let mut out = Vec::new(rt.alloc());
    is_brought_up(rig, &BRINGS_UP, &mut out)
}

#[test]
fn a_device_is_brought_up_by_requests_that_are_begun_again(rt: HostRuntime) -> Result<(), Fail> {
    let mut rig = bus(&rt)?;
    is_brought_up_by_each(&rt, &mut rig)
}

/// Whether a reset lets the key go, and the host knows nothing after it.
fn lets_go(rt: &HostRuntime, rig: &mut Rig) -> Result<bool, StackFault> {
    let mut out = Vec::new(rt.alloc());
    taken(rig, &step_of(1, Act::Reset), &mut out)?;
    Ok(out.as_slice() == [up()].as_slice() && state(rig) == Some(HostState::Cold))
}

fn is_reset(rt: &HostRuntime, rig: &mut Rig) -> Result<(), Fail> {
    let is_reported = tells_the_key(rt, rig)?;
    let is_let_go = lets_go(rt, rig)?;
    holds("a key and a reset", is_reported && is_let_go)
}

#[test]
fn a_reset_is_made_again(rt: HostRuntime) -> Result<(), Fail> {
    let mut rig = bus(&rt)?;
    is_reset(&rt, &mut rig)
}

/// The layout of a descriptor.
fn layout(rt: &HostRuntime, descriptor: &[u8]) -> Result<Layout, LayoutFault> {
    match Layout::parse(rt.alloc(), descriptor) {
        Err(
            LayoutFault {
                cause: Cause::Memory,
                at: 0,
            },
        ) => Layout::parse(rt.alloc(), descriptor),
        made => made,
    }
}

/// A boot keyboard.
fn device(rt: &HostRuntime, descriptor: &[u8]) -> Result<Device, DeviceFault> {
    match Device::new(rt.alloc(), 1, &config(Boot::Keyboard), descriptor) {
        Err(
            DeviceFault {
                cause: DeviceCause::Memory | DeviceCause::Layout(Cause::Memory),
                at: 0,
            },
        ) => Device::new(rt.alloc(), 1, &config(Boot::Keyboard), descriptor),
        made => made,
    }
}

/// A transfer of a status, which reads two bytes.
fn transfer(rt: &HostRuntime) -> Result<HostTransfer, ControlFault> {
    let setup = Setup::from_bytes(&[0x80, 0, 0, 0, 0, 0, 2, 0]);
    match HostTransfer::begin(rt.alloc(), 1, setup, &[]) {
        Err(ControlFault::Memory) => HostTransfer::begin(rt.alloc(), 1, setup, &[]),
        begun => begun,
    }
}

/// Whether a blank report is made, and holds no motion.
fn makes_shown(rt: &HostRuntime, layout: &Layout) -> Result<bool, Fail> {
    let shown = match Shown::blank(rt.alloc(), layout) {
        Err(_) => Shown::blank(rt.alloc(), layout)?,
        Ok(shown) => shown,
    };
    Ok(shown.motion(KEY) == 0)
}

/// Whether a view is made, and holds no key.
fn makes_view(rt: &HostRuntime, layout: &Layout) -> Result<bool, Fail> {
    let view = match View::initial(rt.alloc(), layout) {
        Err(_) => View::initial(rt.alloc(), layout)?,
        Ok(view) => view,
    };
    Ok(!view.held(KEY))
}

/// Whether a snapshot is made, and its key is pressed.
fn makes_snapshot(rt: &HostRuntime, layout: &Layout) -> Result<bool, Fail> {
    let mut snapshot = match Snapshot::blank(rt.alloc(), layout) {
        Err(_) => Snapshot::blank(rt.alloc(), layout)?,
        Ok(snapshot) => snapshot,
    };
    Ok(snapshot.press(layout, KEY).is_ok())
}

/// Whether a device is made, with the five items of a boot keyboard.
fn makes_device(rt: &HostRuntime, descriptor: &[u8]) -> Result<bool, Fail> {
    Ok(device(rt, descriptor)?.layout().items().len() == 5)
}

/// Whether a transfer begins.
fn makes_transfer(rt: &HostRuntime) -> Result<bool, Fail> {
    Ok(transfer(rt)?.outcome() == Outcome::Running)
}

/// Whether what stands on a layout is made.
fn makes_each(rt: &HostRuntime, layout: &Layout) -> Result<bool, Fail> {
    Ok(makes_shown(rt, layout)? && makes_view(rt, layout)? && makes_snapshot(rt, layout)?)
}

/// Whether a layout is made, with the five items of a boot keyboard, and what stands on it.
fn makes_layout(rt: &HostRuntime, descriptor: &[u8]) -> Result<bool, Fail> {
    let layout = layout(rt, descriptor)?;
    Ok(layout.items().len() == 5 && makes_each(rt, &layout)?)
}

#[test]
fn what_takes_memory_is_made_again(rt: HostRuntime) -> Result<(), Fail> {
    let is_layout = makes_layout(&rt, keyboard())?;
    let is_device = makes_device(&rt, keyboard())?;
    let is_transfer = makes_transfer(&rt)?;
    holds("what takes memory", is_layout && is_device && is_transfer)
}
