//! A driver with room of its own for events.
ghost use Rattle.std.specs.Prelude.{◌≡◌, ◌≤◌, ◌+◌, Ok, IfOk, IsSome, OnErr, OnOk, ℕ, vec_capacity};
ghost use Rattle.std.specs.Option.{option_copied};
ghost use Rattle.hid_driver.specs.Driver.{ask_answer, ask_outcome, driver_after_ask, driver_after_protocol, driver_after_report, driver_at_start, protocol_events, protocol_outcome, report_events, report_outcome};
ghost use Rattle.hid_driver.specs.Interfaces.{all_back_events, total_room};
ghost use Rattle.hidstack_host.specs.Hosts.{Delivers, HasRoomFor, HasRoomIn, HostMoves, descriptor_came};

use crate::event::{HidHostEvent, put_host_events, put_interface_events};
use hid_driver::{Ask, Driver, DriverEvent, DriverFault, DriverState, Event, Moved, Outcome};
use hid_layout::{Layout, Limits, laws};
use std::alloc::{AllocError, Global};
use std::marker::Model;

/// What a call that gives events came to.
#[derive(Clone, Copy, Debug)]
pub struct Told {
    /// How many events it gave.
    pub count: usize,
    /// Nothing, or why it is refused.
    pub result: Result<(), DriverFault>,
}

/// A driver, and room for the events of a transfer, and of a protocol or a reset. A contract sees the driver alone.
#[derive(Drop)]
pub struct Host {
    alloc: Global,
    driver: Driver,
    /// Of a transfer, which are of one interface.
    received: Vec<Event>,
    /// Of a protocol or a reset.
    events: Vec<DriverEvent>,
}

impl Model for Host {
    ghost use Rattle.std.specs.Prelude.{◌≤◌, vec_capacity};
    ghost use Rattle.hid_driver.specs.Driver.{DriverValue};
    ghost use Rattle.hid_driver.specs.Interfaces.{total_room};

    ghost Value = { DriverValue };

    ghost view = { λ h. h.driver };

    ghost invariant = { λ h. (total_room h.driver.interfaces ≤ vec_capacity h.received)
        × (total_room h.driver.interfaces ≤ vec_capacity h.events) };
}

/// Room for the events of a report by this report descriptor, none where it is refused.
fn descriptor_room(alloc: Global, descriptor: &[u8]) -> Result<usize, AllocError>
    ensures { IfOk result (λ most. HasRoomFor most descriptor.now) }
{
    // For the prover: a descriptor has one reading, and one that is accepted isn't refused.
    laws::one_reading();
    laws::accepted_or_refused();

    match Layout::parse_within(alloc, Limits::Real, descriptor) {
        Ok(layout) => {
            let most = layout.max_events();
            drop(layout);
            Ok(most)
        }
        Err(fault) => {
            if fault.cause.is_memory() {
                return Err(AllocError);
            }
            Ok(0)
        }
    }
}

/// The report descriptor that came as the outcome of a control transfer, if one was asked for and came.
fn descriptor_came<'a>(state: DriverState, outcome: Outcome<'a>) -> Option<&'a [u8]>
    ensures { option_copied result ≡ descriptor_came state outcome.entry }
{
    match (state, outcome) {
        (DriverState::Report { .. }, Outcome::Done(bytes)) => Some(bytes),
        _ => None,
    }
}

/// Makes room for the events of an interface with this report descriptor, beside those of the other interfaces.
fn make_room(
    alloc: Global,
    driver: &Driver,
    descriptor: &[u8],
    received: &mut Vec<Event>,
    events: &mut Vec<DriverEvent>,
) -> Result<(), AllocError>
    ensures ok { OnOk result ((most : ℕ) × HasRoomFor most descriptor.now
        × (total_room driver.now.interfaces + most ≤ vec_capacity received.new)
        × (total_room driver.now.interfaces + most ≤ vec_capacity events.new)) }
    ensures received { vec_capacity received.old ≤ vec_capacity received.new }
    ensures grows { vec_capacity events.old ≤ vec_capacity events.new }
{
    let more = descriptor_room(alloc, descriptor)?;
    let Some(most) = driver.max_events().checked_add(more) else {
        return Err(AllocError);
    };
    received.clear();
    received.reserve(most)?;
    events.clear();
    events.reserve(most)
}

/// Makes room for the events of what a driver reads from the outcome of a control transfer on. Memory is taken for a report
/// descriptor alone.
fn make_room_after(
    alloc: Global,
    driver: &Driver,
    outcome: Outcome<'_>,
    received: &mut Vec<Event>,
    events: &mut Vec<DriverEvent>,
) -> Result<(), AllocError>
    requires received { total_room driver.now.interfaces ≤ vec_capacity received.old }
    requires room { total_room driver.now.interfaces ≤ vec_capacity events.old }
    ensures ok { OnOk result ((most : ℕ) × HasRoomIn driver.now.state most outcome.entry
        × (total_room driver.now.interfaces + most ≤ vec_capacity received.new)
        × (total_room driver.now.interfaces + most ≤ vec_capacity events.new)) }
    ensures err { OnErr result (IsSome (descriptor_came driver.now.state outcome.entry)) }
    ensures received { vec_capacity received.old ≤ vec_capacity received.new }
    ensures grows { vec_capacity events.old ≤ vec_capacity events.new }
{
    match descriptor_came(driver.state(), outcome) {
        Some(descriptor) => make_room(alloc, driver, descriptor, received, events),
        None => Ok(()),
    }
}

impl Host {
    /// The host of a device of which nothing is known. No memory is taken.
    pub fn new(alloc: Global) -> Host
        ensures { result ≡ driver_at_start }
    {
        Host {
            alloc,
            driver: Driver::new(alloc),
            received: Vec::new(alloc),
            events: Vec::new(alloc),
        }
    }

    /// The driver.
    pub fn driver(&self) -> &Driver
        ensures { result.now ≡ self.now }
    {
        &self.driver
    }

    /// What came of the control transfer that was to be made: [`Driver::done`]. Where a report descriptor came, room for the events
    /// of its interface is made first.
    ///
    /// # Errors
    /// Those of [`Driver::done`]; and [`DriverFault::Memory`] where there is no such room: the host stays.
    pub fn done(&mut self, outcome: Outcome<'_>) -> Result<Moved, DriverFault>
        ensures { HostMoves self.old outcome.entry result self.new }
    {
        match make_room_after(
            self.alloc,
            &self.driver,
            outcome,
            &mut self.received,
            &mut self.events,
        ) {
            Ok(()) => self.driver.done(outcome),
            Err(_) => Err(DriverFault::Memory),
        }
    }

    /// Takes what came of an interrupt transfer of the interface at this place, and writes its events over the first places of the
    /// table. None where that has fewer places than [`Driver::max_events`]: nothing changes then. No memory is taken.
    pub fn report(
        &mut self,
        interface: usize,
        outcome: Outcome<'_>,
        out: &mut [HidHostEvent],
    ) -> Option<Told>
        ensures { Delivers self.old (report_events self.old interface outcome.entry)
            (report_outcome self.old interface outcome.entry)
            (driver_after_report self.old interface outcome.entry) out.old result self.new out.new }
    {
        if out.len() < self.driver.max_events() {
            return None;
        }
        self.received.clear();
        let result = self.driver.receive(interface, outcome, &mut self.received);
        put_interface_events(interface, &self.received, out);
        Some(Told {
            count: self.received.len(),
            result,
        })
    }

    /// Asks something of the interface at this place: [`Driver::ask`]. No memory is taken.
    ///
    /// # Errors
    /// Those of [`Driver::ask`].
    pub fn ask(&mut self, interface: usize, ask: &Ask<'_>) -> Result<(), DriverFault>
        ensures result { result ≡ ask_outcome (ask_answer self.old interface ask.now) }
        ensures after { self.new ≡ driver_after_ask self.old interface ask.now }
    {
        self.driver.ask(interface, ask)
    }

    /// Asks the interface at this place for the boot protocol, or the report protocol: [`Driver::set_protocol`]. The events that let
    /// go of what is held of it are written over the first places of the table. None where that has fewer places than
    /// [`Driver::max_events`]: nothing changes then. No memory is taken.
    pub fn set_protocol(
        &mut self,
        interface: usize,
        boot: bool,
        out: &mut [HidHostEvent],
    ) -> Option<Told>
        ensures { Delivers self.old (protocol_events self.old interface) (protocol_outcome self.old interface)
            (driver_after_protocol self.old interface boot) out.old result self.new out.new }
    {
        if out.len() < self.driver.max_events() {
            return None;
        }
        self.events.clear();
        let result = self.driver.set_protocol(interface, boot, &mut self.events);
        put_host_events(&self.events, out);
        Some(Told {
            count: self.events.len(),
            result,
        })
    }

    /// The device was unplugged, or its bus was reset: [`Driver::reset`]. The events that let go of what is held are written over the
    /// first places of the table. None where that has fewer places than [`Driver::max_events`]: nothing changes then. No memory is
    /// taken.
    pub fn reset(&mut self, out: &mut [HidHostEvent]) -> Option<Told>
        ensures { Delivers self.old (all_back_events 0 self.old.interfaces) (Ok tt) driver_at_start out.old
            result self.new out.new }
    {
        if out.len() < self.driver.max_events() {
            return None;
        }
        self.events.clear();
        self.driver.reset(&mut self.events);
        put_host_events(&self.events, out);
        Some(Told {
            count: self.events.len(),
            result: Ok(()),
        })
    }
}
