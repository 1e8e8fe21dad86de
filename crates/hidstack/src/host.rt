//! The host of a real device: what is to be done, what came of it, and its events.

ghost use Rattle.std.specs.Prelude.{◌≡◌, None};
ghost use Rattle.hidstack.specs.Outcomes.{IsOutcome};
ghost use Rattle.hidstack.specs.Hosting.{AsksHost, MovesHost, OpensHost, ProtocolsHost, ReportsHost, ResetsHost, ShowsTodo, TodoIsReturned, move_status, move_told, no_result, result_of, result_status, told_result, told_status};
ghost use types.Logic.{sem};
ghost use denote.RawPtr.{Testable};
ghost use Rattle.core.specs.Ptr.{if_non_null, points_to};
ghost use Rattle.hidstack.specs.Closing.{closed_at};
ghost use Rattle.hidstack.specs.contracts.host_handle.HostHandle.{the_row};
ghost use Rattle.hidstack.specs.declared.host_handle.HostHandle.{HostHandle};

use crate::host_handle::HostHandle;
use crate::names::write_text;
use crate::setup::{HidSetup, setup_record};
use crate::status::{BUSY, CLOSED, MEMORY, NO_ROOM, NONE, OK, REFUSED, STALLED};
use hidstack_host::{
    Driver, DriverFault, HidAsk, HidHostEvent, HidMoved, Host, Moved, Outcome, Todo, Told, ask_of,
    detail_number, fault_number, moved_record, refused_record,
};
use std::alloc::Global;

/// The boot protocol (HID 1.11, 7.2.5).
pub const PROTOCOL_BOOT: u32 = 0;

/// The report protocol (HID 1.11, 7.2.5).
pub const PROTOCOL_REPORT: u32 = 1;

/// What a call of a host writes beside its status.
#[repr(C)]
#[derive(Clone, Copy)]
pub struct HidHostResult {
    /// How many events it gave; of a table that is too small, the room that it needs.
    pub count: u64,
    /// 1 for H1 to 16 for H16; 0 where nothing was refused.
    pub cause: u32,
    /// The number of its inner code: of H12 a U; else 0.
    pub detail: u32,
}

/// What came of a transfer, by a status.
fn outcome_of<'a>(status: u32, bytes: &'a [u8]) -> Outcome<'a>
    ensures { IsOutcome status bytes.now result }
{
    match status {
        OK => Outcome::Done(bytes),
        STALLED => Outcome::Stalled,
        _ => Outcome::Failed,
    }
}

/// The host of a device of which nothing is known, in a closed handle.
#[unsafe(no_mangle)]
pub extern "C" fn hidstack_host_open(alloc: Global, handle: &mut HostHandle) -> u32
    ensures { OpensHost handle.old.kept result handle.new.kept }
{
    if let Some(host) = handle.take(alloc) {
        *handle = HostHandle::of(host);
        return BUSY;
    }
    match Box::new(alloc, Host::new(alloc)) {
        Ok(host) => {
            *handle = HostHandle::of(host);
            OK
        }
        Err(_) => MEMORY,
    }
}

/// Writes the control transfer that is to be made, and what it sends.
fn write_todo(driver: &Driver, setup: &mut HidSetup, out: &mut [u8], length: &mut u64) -> u32
    requires { length.old ≡ 0 }
    ensures { TodoIsReturned driver.now setup.old out.old result setup.new out.new length.new }
{
    match driver.todo() {
        Todo::Control {
            setup: request,
            data,
        } => {
            let status = write_text(data, out, length);
            if status == OK {
                *setup = setup_record(request);
            }
            status
        }
        Todo::Nothing => NONE,
    }
}

/// The control transfer that is to be made, and what it sends.
#[unsafe(no_mangle)]
pub extern "C" fn hidstack_host_todo(
    alloc: Global,
    handle: &mut HostHandle,
    setup: &mut HidSetup,
    out: &mut [u8],
    length: &mut u64,
) -> u32
    ensures kept { handle.new.kept ≡ handle.old.kept }
    ensures shown { ShowsTodo handle.old.kept setup.old out.old result setup.new out.new length.new }
{
    *length = 0;
    let Some(host) = handle.take(alloc) else {
        return CLOSED;
    };
    let status = write_todo(host.driver(), setup, out, length);
    *handle = HostHandle::of(host);
    status
}

/// The status of what came of a control transfer.
fn move_status(answer: Result<Moved, DriverFault>) -> u32
    ensures { result ≡ move_status answer }
{
    match answer {
        Ok(_) => OK,
        Err(DriverFault::Memory) => MEMORY,
        Err(_) => REFUSED,
    }
}

/// The record of what came of a control transfer.
fn move_told(answer: Result<Moved, DriverFault>) -> HidMoved
    ensures { result ≡ move_told answer }
{
    match answer {
        Ok(moved) => moved_record(moved),
        Err(fault) => refused_record(fault),
    }
}

/// What came of the control transfer that was to be made.
#[unsafe(no_mangle)]
pub extern "C" fn hidstack_host_done(
    alloc: Global,
    handle: &mut HostHandle,
    outcome: u32,
    bytes: &[u8],
    moved: &mut HidMoved,
) -> u32
    ensures { MovesHost handle.old.kept outcome bytes.now moved.old result handle.new.kept moved.new }
{
    let Some(mut host) = handle.take(alloc) else {
        return CLOSED;
    };
    let answer = host.done(outcome_of(outcome, bytes));
    *handle = HostHandle::of(host);
    *moved = move_told(answer);
    move_status(answer)
}

/// No event, and no refusal.
fn no_result() -> HidHostResult
    ensures { result ≡ no_result }
{
    HidHostResult {
        count: 0,
        cause: 0,
        detail: 0,
    }
}

/// Writes the record of a call that gave so many events, and gives its status.
fn write_result(count: u64, answer: Result<(), DriverFault>, told: &mut HidHostResult) -> u32
    ensures told { told.new ≡ result_of count answer }
    ensures status { result ≡ result_status answer }
{
    match answer {
        Ok(()) => {
            *told = HidHostResult {
                count,
                cause: 0,
                detail: 0,
            };
            OK
        }
        Err(fault) => {
            *told = HidHostResult {
                count,
                cause: fault_number(fault),
                detail: detail_number(fault),
            };
            REFUSED
        }
    }
}

/// Writes the record of a call that gives events, of which there may be so many, and gives its status: none where the table is too
/// small.
fn write_told(room: usize, answer: Option<Told>, told: &mut HidHostResult) -> u32
    ensures told { told.new ≡ told_result room answer }
    ensures status { result ≡ told_status answer }
{
    match answer {
        Some(given) => write_result(given.count as u64, given.result, told),
        None => {
            *told = HidHostResult {
                count: room as u64,
                cause: 0,
                detail: 0,
            };
            NO_ROOM
        }
    }
}

/// What came of an interrupt transfer of an interface.
#[unsafe(no_mangle)]
pub extern "C" fn hidstack_host_report(
    alloc: Global,
    handle: &mut HostHandle,
    interface: u64,
    outcome: u32,
    bytes: &[u8],
    events: &mut [HidHostEvent],
    told: &mut HidHostResult,
) -> u32
    ensures { ReportsHost handle.old.kept interface outcome bytes.now events.old result handle.new.kept
        events.new told.new }
{
    let Some(mut host) = handle.take(alloc) else {
        *told = no_result();
        return CLOSED;
    };
    let room = host.driver().max_events();
    let answer = host.report(interface as usize, outcome_of(outcome, bytes), events);
    *handle = HostHandle::of(host);
    write_told(room, answer, told)
}

/// Asks something of an interface.
#[unsafe(no_mangle)]
pub extern "C" fn hidstack_host_ask(
    alloc: Global,
    handle: &mut HostHandle,
    interface: u64,
    ask: &HidAsk,
    bytes: &[u8],
    told: &mut HidHostResult,
) -> u32
    ensures { AsksHost handle.old.kept interface ask.now bytes.now result handle.new.kept told.new }
{
    let Some(mut host) = handle.take(alloc) else {
        *told = no_result();
        return CLOSED;
    };
    let Some(asked) = ask_of(ask, bytes) else {
        *handle = HostHandle::of(host);
        *told = no_result();
        return NONE;
    };
    let answer = host.ask(interface as usize, &asked);
    *handle = HostHandle::of(host);
    write_result(0, answer, told)
}

/// Asks an interface for a protocol.
#[unsafe(no_mangle)]
pub extern "C" fn hidstack_host_protocol(
    alloc: Global,
    handle: &mut HostHandle,
    interface: u64,
    protocol: u32,
    events: &mut [HidHostEvent],
    told: &mut HidHostResult,
) -> u32
    ensures { ProtocolsHost handle.old.kept interface protocol events.old result handle.new.kept events.new
        told.new }
{
    let Some(mut host) = handle.take(alloc) else {
        *told = no_result();
        return CLOSED;
    };
    let room = host.driver().max_events();
    let answer = host.set_protocol(interface as usize, protocol == PROTOCOL_BOOT, events);
    *handle = HostHandle::of(host);
    write_told(room, answer, told)
}

/// The device was unplugged, or its bus was reset.
#[unsafe(no_mangle)]
pub extern "C" fn hidstack_host_reset(
    alloc: Global,
    handle: &mut HostHandle,
    events: &mut [HidHostEvent],
    told: &mut HidHostResult,
) -> u32
    ensures { ResetsHost handle.old.kept events.old result handle.new.kept events.new told.new }
{
    let Some(mut host) = handle.take(alloc) else {
        *told = no_result();
        return CLOSED;
    };
    let room = host.driver().max_events();
    let answer = host.reset(events);
    *handle = HostHandle::of(host);
    write_told(room, answer, told)
}

/// Gives back what an open handle keeps. A closed one stays as it is.
fn close(alloc: Global, handle: &mut HostHandle)
    ensures { handle.new.kept ≡ None }
{
    drop(handle.take(alloc));
}

/// Gives back what an open handle keeps. A closed one stays as it is. A null pointer is to none.
///
/// # Safety
/// The pointer is null, or to a handle that nothing else uses.
#[unsafe(no_mangle)]
pub unsafe extern "C" fn hidstack_host_close(alloc: Global, handle: *mut HostHandle)
    ghost was: { HostHandle }
    requires testable { Testable handle }
    requires* open { sem 𝓛 (if_non_null handle (points_to the_row handle was)) }
    ensures* closed { sem 𝓛 (if_non_null handle (closed_at the_row (λ h. h.kept) handle)) }
{
    if handle.is_null() {
        return;
    }
    close(alloc, unsafe { &mut *handle });
}
