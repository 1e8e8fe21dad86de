//! The control transfers of a driver, carried out by a gadget.
ghost use Rattle.std.specs.Prelude.{◌≡◌, ◌<◌, ◌≤◌, ℕ, length, Some};
ghost use Rattle.hid_driver.specs.Driver.{driver_at_start};
ghost use Rattle.hid_loopback.specs.BringUp.{BringsUp};
ghost use Rattle.hid_loopback.specs.ControlTransfers.{CarriesOut, HandsOn, MakesTransfer, Settles, is_whole};

use hid_driver::{Driver, DriverFault, Moved, Outcome, Todo};
use hid_gadget::{Control, Gadget, Setup};
use hid_report_descriptor::laws::{accepted_or_refused, one_reading, real_accepts_bus};
use std::alloc::Global;

/// The most control transfers that [`settle`] makes: those that bring a driver up.
pub const MAX_TRANSFERS: usize = 6;

/// A gadget carries out a request. None if the data of a write aren't as long as it says.
fn carry_out(gadget: &mut Gadget, setup: &Setup, sends: &[u8], answer: &mut [u8]) -> Option<Control>
    requires room { setup.now.length ≤ length answer.old }
    ensures carries { CarriesOut (is_whole setup.now sends.now) gadget.old setup.now sends.now answer.old
        result answer.new gadget.new }
    ensures within { (n : ℕ) → result ≡ Some (Control.Done n) → n ≤ length answer.new }
{
    if setup.is_read() || sends.len() == usize::from(setup.length) {
        Some(gadget.control(setup, sends, answer))
    } else {
        None
    }
}

/// Gives a driver the end of a control transfer: of one that is done, the first n bytes of the room.
fn hand_on(driver: &mut Driver, end: Option<Control>, answer: &[u8]) -> Result<Moved, DriverFault>
    requires within { (n : ℕ) → end ≡ Some (Control.Done n) → n ≤ length answer.now }
    ensures { HandsOn end answer.now driver.old result driver.new }
{
    match end {
        Some(Control::Done(count)) => driver.done(Outcome::Done(&answer[..count])),
        Some(Control::Stalled) => driver.done(Outcome::Stalled),
        None => driver.done(Outcome::Failed),
    }
}

/// One control transfer: the one that the driver waits for, if it waits for one (USB 2.0, 8.5.3). It takes wLength bytes of
/// memory while it runs. `None` where the driver waits for none. What GET_REPORT gives is lost: a program that wants it makes
/// that transfer itself, by [`Driver::todo`], [`Gadget::control`] and [`Driver::done`].
///
/// # Errors
/// [`DriverFault::Memory`] where there is no memory for the answer, and both ends stay; else those of [`Driver::done`].
pub fn transfer(
    alloc: Global,
    driver: &mut Driver,
    gadget: &mut Gadget,
) -> Result<Option<Moved>, DriverFault>
    ensures { MakesTransfer driver.old gadget.old result driver.new gadget.new }
{
    let Todo::Control { setup, data } = driver.todo() else {
        return Ok(None);
    };
    let Ok(mut answer) = vec![in alloc; 0; usize::from(setup.length)] else {
        return Err(DriverFault::Memory);
    };
    let end = carry_out(gadget, &setup, data, &mut answer);
    match hand_on(driver, end, &answer) {
        Ok(moved) => Ok(Some(moved)),
        Err(fault) => Err(fault),
    }
}

/// Makes control transfers until the driver waits for none, at most [`MAX_TRANSFERS`].
fn make_transfers(
    alloc: Global,
    driver: &mut Driver,
    gadget: &mut Gadget,
) -> Result<usize, DriverFault>
    ensures { Settles MAX_TRANSFERS driver.old gadget.old result driver.new gadget.new }
{
    for count in 0..MAX_TRANSFERS {
        let moved = transfer(alloc, driver, gadget)?;
        if moved.is_none() {
            return Ok(count);
        }
    }
    Ok(MAX_TRANSFERS)
}

/// Control transfers, until the driver waits for none: how many were made, at most [`MAX_TRANSFERS`]. They bring a new driver up
/// beside any gadget (USB 2.0, 9.1.1; HID 1.11, 7.1), also one that is configured; after that they are those that the driver asks
/// for.
///
/// # Errors
/// Those of [`transfer`]. Where memory ran out the call may be made again: the driver goes on, but `up` says nothing of such a
/// call.
pub fn settle(alloc: Global, driver: &mut Driver, gadget: &mut Gadget) -> Result<usize, DriverFault>
    ensures settles { Settles MAX_TRANSFERS driver.old gadget.old result driver.new gadget.new }
    // Beside any gadget that has a report descriptor a new driver is ready after six transfers, with the gadget's layout, or
    // memory ran out.
    ensures up { driver.old ≡ driver_at_start → 0 < length gadget.old.descriptor
        → BringsUp gadget.old result driver.new gadget.new }
{
    // For the prover: what holds of every gadget, and of every descriptor that real devices may have.
    let _ = gadget.layout();
    one_reading();
    accepted_or_refused();
    real_accepts_bus();

    make_transfers(alloc, driver, gadget)
}
