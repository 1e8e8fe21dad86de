//! The reports of a device, taken as whole transfers.

use crate::fault::BenchFault;
use crate::stepping::CONFIG;
use crate::transferring::transferred;
use crate::writing::control_of;
use hid_gadget::{Control, Gadget, Poll, Setup};
use hid_layout::ControlId;
use hid_usages::Change;
use std::alloc::Global;

/// In bytes, room for the longest report of a bus.
const ROOM: usize = 256;

/// SET_CONFIGURATION to configuration 1 (USB 2.0, 9.4.7).
const CONFIGURE: Setup = Setup {
    request_type: 0x00,
    request: 9,
    value: 1,
    index: 0,
    length: 0,
};

/// A gadget that is configured, and the controls that move in a turn.
#[derive(Drop)]
pub struct Reporting {
    gadget: Gadget,
    moving: Vec<ControlId>,
    room: Vec<u8>,
}

/// The controls that words name.
fn controls_of(
    alloc: Global,
    gadget: &Gadget,
    words: &[Vec<u8>],
) -> Result<Vec<ControlId>, BenchFault> {
    let mut controls = Vec::new(alloc);
    for word in words {
        if controls.push(control_of(gadget.layout(), word)?).is_err() {
            return Err(BenchFault::Memory);
        }
    }
    Ok(controls)
}

/// Moves each of these controls by 5.
fn shift(gadget: &mut Gadget, moving: &[ControlId]) -> Result<(), BenchFault> {
    for control in moving {
        if gadget.change(Change::Move(*control, 5)).is_err() {
            return Err(BenchFault::Control);
        }
    }
    Ok(())
}

impl Reporting {
    /// A gadget of this descriptor, configured. In a turn the relative controls of these usages move by 5, and then its report is
    /// taken.
    ///
    /// # Errors
    /// [`BenchFault::Descriptor`] where no gadget can be made of it; of the first usage with a fault that of [`control_of`];
    /// [`BenchFault::Memory`].
    pub fn open(
        alloc: Global,
        descriptor: &[u8],
        usages: &[Vec<u8>],
    ) -> Result<Reporting, BenchFault> {
        let mut room = Vec::new(alloc);
        room.resize(ROOM, 0)?;
        let mut gadget = Gadget::new(alloc, &CONFIG, descriptor)?;
        let moving = match controls_of(alloc, &gadget, usages) {
            Ok(moving) => moving,
            Err(fault) => {
                drop(gadget);
                return Err(fault);
            }
        };
        match transferred(&mut gadget, &CONFIGURE, &[], &mut []) {
            Some(Control::Done(_)) => Ok(Reporting {
                gadget,
                moving,
                room,
            }),
            Some(Control::Stalled) | None => {
                drop(gadget);
                Err(BenchFault::Descriptor)
            }
        }
    }

    /// Moves the controls of a turn and takes the report, and returns how many bytes it has.
    ///
    /// # Errors
    /// [`BenchFault::Control`] where a control can't move so.
    pub fn turn(&mut self) -> Result<usize, BenchFault> {
        shift(&mut self.gadget, self.moving.as_slice())?;
        match self.gadget.report(self.room.as_mut_slice()) {
            Poll::Done(count) => Ok(count),
            Poll::Nothing | Poll::Stalled | Poll::TooSmall => Ok(0),
        }
    }
}
