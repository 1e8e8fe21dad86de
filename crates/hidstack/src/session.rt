//! A handle is opened, fed and closed.

ghost use Rattle.std.specs.Prelude.{◌≡◌, ◌<◌, ◌≤◌, length, Some, None, Ok, Err, IfOk, IfErr};
ghost use Rattle.hidstack_session.specs.Causes.{cause_number};
ghost use Rattle.hidstack_session.specs.declared.session.FeedFault.TheVariants.{Refused};
ghost use Rattle.hidstack_session.specs.Sessions.{IsFirst};
ghost use Rattle.hidstack.specs.Opening.{Opens, Refuses, IsBusy, IsUnopened, opened_result};
ghost use Rattle.hidstack.specs.Feeding.{FeedsHandle, status_of};
ghost use Rattle.hidstack.specs.Writing.{ReleasesHandle};
ghost use types.Logic.{sem};
ghost use denote.RawPtr.{Testable};
ghost use Rattle.core.specs.Ptr.{if_non_null, points_to};
ghost use Rattle.hidstack.specs.Closing.{closed_at};
ghost use Rattle.hidstack.specs.contracts.handle.Handle.{the_row};
ghost use Rattle.hidstack.specs.declared.handle.Handle.{Handle};

use crate::handle::Handle;
use crate::status::{BUSY, CLOSED, NO_ROOM, OK, REFUSED, SHORT, UNKNOWN};
use hidstack_session::{
    Cause, FeedFault, HidEvent, LayoutFault, ReportFault, Session, cause_number,
};
use std::alloc::Global;

/// What `hidstack_open` writes beside its status.
#[repr(C)]
#[derive(Clone, Copy)]
pub struct HidOpened {
    /// Where the refused item begins, in bytes from the descriptor's first.
    pub at: u64,
    /// The room for events that `hidstack_feed` asks for.
    pub room: u64,
    /// How many reports the device has.
    pub reports: u64,
    /// How many listed items it has.
    pub items: u64,
    /// 1 for L1 to 17 for L17; 0 where nothing was refused.
    pub cause: u32,
    /// Whether the bytes of reports begin with their ID: 1, else 0.
    pub numbered: u32,
}

/// The counts of an opening that wrote nothing: all 0.
fn nothing_opened() -> HidOpened
    ensures { result ≡ record { at = 0; room = 0; reports = 0; items = 0; cause = 0; numbered = 0 } }
{
    HidOpened {
        at: 0,
        room: 0,
        reports: 0,
        items: 0,
        cause: 0,
        numbered: 0,
    }
}

/// A session in a block of its own. A descriptor of no byte has none.
fn open_box(alloc: Global, descriptor: &[u8]) -> Result<Box<Session>, LayoutFault>
    ensures ok { IfOk result (λ session. IsFirst descriptor.now session.value) }
    ensures some { IfOk result (λ session. 0 < length descriptor.now) }
    ensures err { IfErr result (λ f. IsUnopened descriptor.now f.cause f.at) }
{
    if descriptor.is_empty() {
        return Err(LayoutFault {
            cause: Cause::Truncated,
            at: 0,
        });
    }
    match Box::new(alloc, Session::open(alloc, descriptor)?) {
        Ok(session) => Ok(session),
        Err(_) => Err(LayoutFault::memory()),
    }
}

/// What an opening reports of its session.
fn opened_result(session: &Session) -> HidOpened
    ensures { result ≡ opened_result session.now }
{
    let layout = session.layout();
    HidOpened {
        at: 0,
        room: session.room() as u64,
        reports: layout.reports().len() as u64,
        items: layout.items().len() as u64,
        cause: 0,
        numbered: if layout.numbered() { 1 } else { 0 },
    }
}

/// Reads a report descriptor into a closed handle.
#[unsafe(no_mangle)]
pub extern "C" fn hidstack_open(
    alloc: Global,
    descriptor: &[u8],
    handle: &mut Handle,
    opened: &mut HidOpened,
) -> u32
    ensures status { result ≤ BUSY }
    ensures opened { result ≡ OK → Opens handle.old.kept descriptor.now handle.new.kept opened.new }
    ensures refused { result ≡ REFUSED
        → Refuses handle.old.kept descriptor.now handle.new.kept opened.new }
    ensures busy { result ≡ BUSY → IsBusy handle.old.kept handle.new.kept opened.old opened.new }
{
    if let Some(session) = handle.take(alloc) {
        *handle = Handle::of(session);
        return BUSY;
    }
    *opened = nothing_opened();
    match open_box(alloc, descriptor) {
        Ok(session) => {
            *opened = opened_result(&session);
            *handle = Handle::of(session);
            OK
        }
        Err(fault) => {
            opened.cause = cause_number(fault.cause);
            opened.at = fault.at as u64;
            REFUSED
        }
    }
}

/// The status for a report that is refused.
fn fault_status(fault: ReportFault) -> u32
    ensures { result ≡ status_of (Err (Refused fault)) }
{
    match fault {
        ReportFault::Short => SHORT,
        ReportFault::UnknownReport => UNKNOWN,
    }
}

/// Reads a report, and writes its events over the first places of the table. No memory is taken.
#[unsafe(no_mangle)]
pub extern "C" fn hidstack_feed(
    alloc: Global,
    handle: &mut Handle,
    report: &[u8],
    events: &mut [HidEvent],
    count: &mut u64,
) -> u32
    ensures { FeedsHandle handle.old.kept report.now events.old result handle.new.kept events.new
        count.new }
{
    let Some(mut session) = handle.take(alloc) else {
        *count = 0;
        return CLOSED;
    };
    let (status, told) = match session.feed(report, events) {
        Ok(told) => (OK, told),
        Err(FeedFault::NoRoom) => (NO_ROOM, session.room()),
        Err(FeedFault::Refused(fault)) => (fault_status(fault), 0),
    };
    *handle = Handle::of(session);
    *count = told as u64;
    status
}

/// Lets go of all that is held, as of a device that was unplugged, and writes the events over the first places of the table.
/// No memory is taken.
#[unsafe(no_mangle)]
pub extern "C" fn hidstack_release(
    alloc: Global,
    handle: &mut Handle,
    events: &mut [HidEvent],
    count: &mut u64,
) -> u32
    ensures { ReleasesHandle handle.old.kept events.old result handle.new.kept events.new count.new }
{
    let Some(mut session) = handle.take(alloc) else {
        *count = 0;
        return CLOSED;
    };
    let (status, released) = match session.release(events) {
        Some(released) => (OK, released),
        None => (NO_ROOM, session.room()),
    };
    *handle = Handle::of(session);
    *count = released as u64;
    status
}

/// Gives back what an open handle keeps. A closed one stays as it is.
fn close(alloc: Global, handle: &mut Handle)
    ensures { handle.new.kept ≡ None }
{
    drop(handle.take(alloc));
}

/// Gives back what an open handle keeps. A closed one stays as it is. A null pointer is to none.
///
/// # Safety
/// The pointer is null, or to a handle that nothing else uses.
#[unsafe(no_mangle)]
pub unsafe extern "C" fn hidstack_close(alloc: Global, handle: *mut Handle)
    ghost was: { Handle }
    requires testable { Testable handle }
    requires* open { sem 𝓛 (if_non_null handle (points_to the_row handle was)) }
    ensures* closed { sem 𝓛 (if_non_null handle (closed_at the_row (λ h. h.kept) handle)) }
{
    if handle.is_null() {
        return;
    }
    close(alloc, unsafe { &mut *handle });
}
