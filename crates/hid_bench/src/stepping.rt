//! A device on a bus of its own, which is polled.

ghost use Rattle.std.specs.Prelude.{◌≡◌, length, IfOk, OnOk};

use crate::fault::BenchFault;
use crate::writing::control_of;
use hid_device::{Boot, Config};
use hid_layout::ControlId;
use hid_stack::{Delivered, Rig, StackFault, Start, Step};
use hid_usages::Change;
use std::alloc::Global;
use std::marker::Model;
use usb_transact::Fate;

/// No boot device, which is polled each 10 ms.
pub(crate) const CONFIG: Config = Config {
    vendor: 0xFFFF,
    product: 0x0001,
    interval: 10,
    boot: Boot::No,
};

/// A bus with a device, the steps of a turn, and what they deliver.
#[derive(Drop)]
pub struct Stepping {
    rig: Rig,
    steps: Vec<Step>,
    events: Vec<Delivered>,
}

impl Model for Stepping {
    ghost use Rattle.hid_bench.specs.Stepping.{Turn};

    ghost Value = { Turn };

    ghost view = { λ s. record { members = s.rig; steps = s.steps.items } };
}

impl Stepping {
    ghost use Rattle.hid_stack.specs.Rig.{bus_after_all, deliveries_of_steps};

    /// Attaches a device, ready. In a turn the relative controls of these usages move by 5, and then it is polled once.
    ///
    /// # Errors
    /// [`BenchFault::Descriptor`] where no device can be made of the descriptor; of the first usage with a fault that
    /// of [`control_of`]; [`BenchFault::Memory`] where memory runs out.
    pub fn open(
        alloc: Global,
        descriptor: &[u8],
        usages: &[Vec<u8>],
    ) -> Result<Stepping, BenchFault> {
        let mut rig = Rig::new(alloc)?;
        let dev = rig.attach(&CONFIG, descriptor, Start::Ready)?;
        let mut steps = Vec::new(alloc);
        for usage in usages {
            let control = control_of(rig.device(dev)?.layout(), usage)?;
            if steps.push(moved(dev, control)).is_err() {
                return Err(BenchFault::Memory);
            }
        }
        let poll = Step::Poll {
            dev,
            fate: Fate::Clean,
        };
        if steps.push(poll).is_err() {
            return Err(BenchFault::Memory);
        }
        let events = Vec::new(alloc);
        Ok(Stepping { rig, steps, events })
    }

    /// Makes the steps of a turn, and says how many events they deliver.
    ///
    /// # Errors
    /// Why a step was refused: [`BenchFault::Control`] where it is a change, [`BenchFault::Memory`] where the events
    /// find no memory. The steps before it are done.
    pub fn turn(&mut self) -> Result<usize, BenchFault>
        ensures after { OnOk result (self.new.members ≡ bus_after_all self.old.members self.old.steps) }
        ensures told { IfOk result
            (λ told. told ≡ length (deliveries_of_steps self.old.members self.old.steps)) }
        ensures steps { self.new.steps ≡ self.old.steps }
    {
        self.events.clear();
        match self.rig.run(self.steps.as_slice(), &mut self.events) {
            Ok(()) => Ok(self.events.len()),
            Err(stopped) => Err(BenchFault::from(stopped.fault)),
        }
    }
}

/// The step that moves a control by 5.
fn moved(dev: u8, control: ControlId) -> Step {
    Step::Change {
        dev,
        change: Change::Move(control, 5),
    }
}

impl From<StackFault> for BenchFault {
    fn from(fault: StackFault) -> BenchFault {
        match fault {
            StackFault::Memory => BenchFault::Memory,
            StackFault::Refused(_) => BenchFault::Control,
            StackFault::NoDevice
            | StackFault::NotReady
            | StackFault::Control(_)
            | StackFault::BadDescriptor(_)
            | StackFault::Report(_)
            | StackFault::TooManyDevices => BenchFault::Descriptor,
        }
    }
}
