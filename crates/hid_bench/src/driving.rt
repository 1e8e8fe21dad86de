//! The reports of a device, read by a driver.

ghost use Rattle.std.specs.Prelude.{◌≡◌, length, IfOk, OnOk};

use crate::fault::BenchFault;
use crate::stepping::CONFIG;
use crate::transferring::transferred;
use hid_driver::{Driver, DriverEvent, DriverFault, Outcome, Todo};
use hid_gadget::{Control, Gadget, Setup};
use std::alloc::Global;
use std::marker::Model;

/// More control transfers than bring up a device of one interface.
const MOST_TRANSFERS: usize = 16;

/// In bytes, the longest answer to a driver that is brought up: a report descriptor.
const LONGEST_ANSWER: usize = 4_096;

/// A driver that is brought up, and room for the events of a report.
#[derive(Drop)]
pub struct Driving {
    driver: Driver,
    events: Vec<DriverEvent>,
}

impl Model for Driving {
    ghost use Rattle.hid_driver.specs.Driver.{DriverValue};

    ghost Value = { DriverValue };

    ghost view = { λ d. d.driver };
}

/// The control transfer that a driver waits for. While it is brought up none sends data.
fn awaited(driver: &Driver) -> Option<Setup> {
    match driver.todo() {
        Todo::Control { setup, .. } => Some(setup),
        Todo::Nothing => None,
    }
}

/// Gives the end of a control transfer to a driver. Its answer stands at the front of the room.
fn give(driver: &mut Driver, end: Option<Control>, room: &[u8]) -> Result<(), BenchFault> {
    let outcome = match end {
        Some(Control::Done(count)) => Outcome::Done(room.get(..count).unwrap_or(room)),
        Some(Control::Stalled) => Outcome::Stalled,
        None => Outcome::Failed,
    };
    match driver.done(outcome) {
        Ok(_) => Ok(()),
        Err(DriverFault::Memory) => Err(BenchFault::Memory),
        Err(_) => Err(BenchFault::Descriptor),
    }
}

/// Makes the control transfers of a driver with a gadget, until it waits for none.
fn bring_up(driver: &mut Driver, gadget: &mut Gadget, room: &mut [u8]) -> Result<(), BenchFault> {
    for _ in 0..MOST_TRANSFERS {
        match awaited(driver) {
            Some(setup) => {
                let end = transferred(gadget, &setup, &[], room);
                give(driver, end, room)?;
            }
            None => return Ok(()),
        }
    }
    Ok(())
}

impl Driving {
    ghost use Rattle.hid_driver.specs.Driver.{driver_after_report, report_events};

    /// A driver that is brought up beside a gadget of this descriptor.
    ///
    /// # Errors
    /// [`BenchFault::Descriptor`] where no gadget can be made of it, and [`BenchFault::Memory`].
    pub fn open(alloc: Global, descriptor: &[u8]) -> Result<Driving, BenchFault> {
        let mut driver = Driver::new(alloc);
        let mut room = Vec::new(alloc);
        room.resize(LONGEST_ANSWER, 0)?;
        let mut gadget = Gadget::new(alloc, &CONFIG, descriptor)?;
        let up = bring_up(&mut driver, &mut gadget, room.as_mut_slice());
        drop(gadget);
        up?;
        let events = Vec::with_capacity(alloc, driver.max_events())?;
        Ok(Driving { driver, events })
    }

    /// Reads a transfer of the first interface, and returns its number of events.
    ///
    /// # Errors
    /// [`BenchFault::Report`] where it is refused, and [`BenchFault::Memory`] where there is no room for its events.
    pub fn read(&mut self, report: &[u8]) -> Result<usize, BenchFault>
        ensures after { OnOk result
            (self.new ≡ driver_after_report self.old 0 (Outcome.Done report.entry)) }
        ensures told { IfOk result
            (λ told. told ≡ length (report_events self.old 0 (Outcome.Done report.entry))) }
    {
        self.events.clear();
        if self.events.capacity() < self.driver.max_events() {
            return Err(BenchFault::Memory);
        }
        match self
            .driver
            .report(0, Outcome::Done(report), &mut self.events)
        {
            Ok(()) => Ok(self.events.len()),
            Err(_) => Err(BenchFault::Report),
        }
    }
}
