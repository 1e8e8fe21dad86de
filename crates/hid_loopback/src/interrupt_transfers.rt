//! The interrupt transfers of a gadget, taken by a driver.
ghost use Rattle.std.specs.Prelude.{◌≡◌, ◌+◌, ◌≤◌, ℕ, length, vec_len, vec_capacity};
ghost use Rattle.hid_driver.specs.Interfaces.{total_room};
ghost use Rattle.hid_gadget.specs.WholeReports.{bytes_taken, core_after_report, report_result};
ghost use Rattle.hid_loopback.specs.InterruptTransfers.{Reports, Takes, bytes_came};

use hid_driver::{Driver, DriverEvent, DriverFault, Outcome};
use hid_gadget::{Gadget, Poll};
use hid_snapshots::MAX_PIECE;

/// Gives a driver the end of an interrupt transfer: of one that is done, the first n bytes of the room.
fn take(
    driver: &mut Driver,
    end: Poll,
    bytes: &[u8],
    out: &mut Vec<DriverEvent>,
) -> Result<(), DriverFault>
    requires within { (n : ℕ) → end ≡ Poll.Done n → n ≤ length bytes.now }
    requires room { vec_len out.old + total_room driver.old.interfaces ≤ vec_capacity out.old }
    ensures takes { Takes end (bytes_came end bytes.now) driver.old out.old.items result driver.new
        out.new.items }
    ensures few { vec_len out.new ≤ vec_len out.old + total_room driver.old.interfaces }
    ensures room { vec_capacity out.new ≡ vec_capacity out.old }
{
    match end {
        Poll::Done(count) => driver.report(0, Outcome::Done(&bytes[..count]), out),
        Poll::Stalled => driver.report(0, Outcome::Stalled, out),
        Poll::Nothing | Poll::TooSmall => Ok(()),
    }
}

/// One interrupt transfer, of a full packet: the next piece of a report that is due goes to the driver, as one of its first
/// interface, and the driver appends the events of a report that ends with it (USB 2.0, 5.7.3 and 8.5.4). NAK is no outcome: the
/// driver gets none. There is reserved room for [`Driver::max_events`] more events; no memory is taken.
///
/// # Errors
/// Those of [`Driver::report`]. The gadget has gone on all the same.
pub fn report(
    driver: &mut Driver,
    gadget: &mut Gadget,
    out: &mut Vec<DriverEvent>,
) -> Result<Poll, DriverFault>
    requires room { vec_len out.old + total_room driver.old.interfaces ≤ vec_capacity out.old }
    ensures core { gadget.new ≡ core_after_report gadget.old 64 }
    ensures reports { Reports (report_result gadget.old 64) (bytes_taken gadget.old 64) driver.old
        out.old.items result driver.new out.new.items }
    ensures few { vec_len out.new ≤ vec_len out.old + total_room driver.old.interfaces }
    ensures room { vec_capacity out.new ≡ vec_capacity out.old }
{
    let mut bytes = [0; MAX_PIECE];
    let end = gadget.report(&mut bytes);
    match take(driver, end, &bytes, out) {
        Ok(()) => Ok(end),
        Err(fault) => Err(fault),
    }
}
