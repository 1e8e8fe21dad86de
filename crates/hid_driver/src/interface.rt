//! A HID interface of a device, and how far its driver has come with it.
ghost use Rattle.std.specs.Prelude.{◌≡◌, ◌≤◌, ◌+◌, ◌++◌, map, option_map, vec_len, vec_capacity};
ghost use Rattle.std.specs.Option.{option_copied};
ghost use Rattle.hid_driver.specs.Interfaces.{event_room, has_halt, is_boot, has_protocol, is_waiting, back_events, pipe_of, reading_events, reading_outcome, reading_after_outcome, state_shown, reading_with_flow};
ghost use Rattle.hid_driver.specs.Pipe.{event_of};

use crate::fault::{DriverFault, InterfaceCause};
use crate::outcome::{DriverEvent, Outcome};
use crate::pipe::{Flow, Pipe};
use hid_interfaces::InterfaceInfo;
use hid_layout::Layout;
use hid_snapshots::Event;
use hid_usages::View;
use std::mem;

/// How far a driver has come with an interface.
#[derive(Clone, Copy, Debug, PartialEq, Eq)]
pub enum InterfaceState {
    /// Its report descriptor wasn't read yet.
    Waiting,
    /// Its reports are read.
    Live,
    /// Its endpoint is halted: no reports of it are read until a CLEAR_FEATURE is done (USB 2.0, 9.4.5).
    Halted,
    /// Its endpoint is halted, and the device refused to clear it: no reports of it are read until a reset.
    Stopped,
    /// It sends boot reports, or may: none are read until a SET_PROTOCOL of the report protocol is done (HID 1.11, 7.2.6).
    Boot,
    /// It can't be read.
    Refused(InterfaceCause),
}

/// What is known of the reports of an interface.
#[derive(Drop)]
pub enum Reading {
    /// Its report descriptor wasn't read yet.
    Waiting,
    /// Its reports are laid out.
    Open(Pipe),
    /// It sends boot reports, or may.
    Boot,
    /// It can't be read.
    Refused(InterfaceCause),
}

/// A HID interface of a device.
#[derive(Drop)]
pub struct Interface {
    pub(crate) info: InterfaceInfo,
    pub(crate) reading: Reading,
}

impl Interface {
    /// What its descriptors say: its number, endpoint, interval, packet size, subclass and protocol.
    pub fn info(&self) -> &InterfaceInfo
        ensures { result.now ≡ self.now.info }
    {
        &self.info
    }

    /// How far the driver has come with it.
    pub fn state(&self) -> InterfaceState
        ensures { result ≡ state_shown self.now.reading }
    {
        match &self.reading {
            Reading::Waiting => InterfaceState::Waiting,
            Reading::Open(pipe) => match pipe.flow() {
                Flow::Live => InterfaceState::Live,
                Flow::Halted => InterfaceState::Halted,
                Flow::Stopped => InterfaceState::Stopped,
            },
            Reading::Boot => InterfaceState::Boot,
            Reading::Refused(cause) => InterfaceState::Refused(*cause),
        }
    }

    /// The layout of its reports, once its report descriptor is read.
    pub fn layout(&self) -> Option<&Layout>
        ensures { option_copied result ≡ option_map (λ pipe. pipe.receiving.layout) (pipe_of self.now.reading) }
    {
        match &self.reading {
            Reading::Open(pipe) => Some(pipe.layout()),
            Reading::Waiting | Reading::Boot | Reading::Refused(_) => None,
        }
    }

    /// The view of its controls, once its report descriptor is read.
    pub fn view(&self) -> Option<&View>
        ensures { option_copied result ≡ option_map (λ pipe. pipe.receiving.view) (pipe_of self.now.reading) }
    {
        match &self.reading {
            Reading::Open(pipe) => Some(pipe.view()),
            Reading::Waiting | Reading::Boot | Reading::Refused(_) => None,
        }
    }

    /// How many events a transfer, or a reset, gives of it at most.
    pub(crate) fn max_events(&self) -> usize
        ensures { result ≡ event_room self.now }
    {
        match &self.reading {
            Reading::Open(pipe) => pipe.max_events(),
            Reading::Waiting | Reading::Boot | Reading::Refused(_) => 0,
        }
    }

    /// Whether its report descriptor is still to be asked for.
    pub(crate) fn is_waiting(&self) -> bool
        ensures { result ≡ is_waiting self.now }
    {
        match &self.reading {
            Reading::Waiting => true,
            Reading::Open(_) | Reading::Boot | Reading::Refused(_) => false,
        }
    }

    /// Whether its endpoint is halted, and the halt is still to be cleared.
    pub(crate) fn has_halt(&self) -> bool
        ensures { result ≡ has_halt self.now }
    {
        match &self.reading {
            Reading::Open(pipe) => match pipe.flow() {
                Flow::Halted => true,
                Flow::Live | Flow::Stopped => false,
            },
            Reading::Waiting | Reading::Boot | Reading::Refused(_) => false,
        }
    }

    /// Takes what came of an interrupt transfer. There is reserved room for its events; no memory is taken.
    ///
    /// # Errors
    /// [`DriverFault::BootProtocol`] where it may send boot reports; [`DriverFault::NotRead`] where it isn't live for another
    /// cause; else [`DriverFault::LongTransfer`] or [`DriverFault::Report`].
    pub(crate) fn hear(
        &mut self,
        outcome: Outcome<'_>,
        out: &mut Vec<Event>,
    ) -> Result<(), DriverFault>
        requires room { vec_len out.old + event_room self.old ≤ vec_capacity out.old }
        ensures outcome { result ≡ reading_outcome self.old.reading outcome.entry }
        ensures after { self.new ≡ record self.old {
          reading = reading_after_outcome self.old.reading outcome.entry;
        } }
        ensures events { out.new.items ≡ out.old.items ++ reading_events self.old.reading outcome.entry }
        ensures few { vec_len out.new ≤ vec_len out.old + event_room self.old }
        ensures room { vec_capacity out.new ≡ vec_capacity out.old }
    {
        match &mut self.reading {
            Reading::Open(pipe) => pipe.hear(outcome, out),
            Reading::Boot => Err(DriverFault::BootProtocol),
            Reading::Waiting | Reading::Refused(_) => Err(DriverFault::NotRead),
        }
    }

    /// Takes what came of an interrupt transfer, and gives its events with the place of the interface. There is reserved room for
    /// them; no memory is taken.
    ///
    /// # Errors
    /// Those of [`Interface::hear`].
    pub(crate) fn report(
        &mut self,
        place: usize,
        outcome: Outcome<'_>,
        out: &mut Vec<DriverEvent>,
    ) -> Result<(), DriverFault>
        requires room { vec_len out.old + event_room self.old ≤ vec_capacity out.old }
        ensures outcome { result ≡ reading_outcome self.old.reading outcome.entry }
        ensures after { self.new ≡ record self.old {
          reading = reading_after_outcome self.old.reading outcome.entry;
        } }
        ensures events { out.new.items
            ≡ out.old.items ++ map (event_of place) (reading_events self.old.reading outcome.entry) }
        ensures few { vec_len out.new ≤ vec_len out.old + event_room self.old }
        ensures room { vec_capacity out.new ≡ vec_capacity out.old }
    {
        match &mut self.reading {
            Reading::Open(pipe) => pipe.report(place, outcome, out),
            Reading::Boot => Err(DriverFault::BootProtocol),
            Reading::Waiting | Reading::Refused(_) => Err(DriverFault::NotRead),
        }
    }

    /// Whether its reports are boot reports, or may be.
    pub(crate) fn is_boot(&self) -> bool
        ensures { result ≡ is_boot self.now.reading }
    {
        match &self.reading {
            Reading::Boot => true,
            Reading::Waiting | Reading::Open(_) | Reading::Refused(_) => false,
        }
    }

    /// Whether it may be asked for a protocol: its reports are laid out, or may be boot reports, and its endpoint isn't stopped.
    pub(crate) fn has_protocol(&self) -> bool
        ensures { result ≡ has_protocol self.now.reading }
    {
        match &self.reading {
            Reading::Open(pipe) => match pipe.flow() {
                Flow::Live | Flow::Halted => true,
                Flow::Stopped => false,
            },
            Reading::Boot => true,
            Reading::Waiting | Reading::Refused(_) => false,
        }
    }

    /// It is read, or refused, or in another protocol.
    pub(crate) fn settle(&mut self, reading: Reading)
        ensures { self.new ≡ record self.old { reading = reading } }
    {
        drop(mem::replace(&mut self.reading, reading));
    }

    /// Its endpoint is halted, or not.
    pub(crate) fn turn(&mut self, flow: Flow)
        ensures { self.new ≡ record self.old { reading = reading_with_flow flow self.old.reading } }
    {
        match &mut self.reading {
            Reading::Open(pipe) => pipe.turn(flow),
            Reading::Waiting | Reading::Boot | Reading::Refused(_) => {}
        }
    }

    /// Appends the events that lead back to its initial view. There is reserved room for them; no memory is taken.
    pub(crate) fn release(&mut self, place: usize, out: &mut Vec<DriverEvent>)
        requires room { vec_len out.old + event_room self.old ≤ vec_capacity out.old }
        ensures stays { self.new ≡ self.old }
        ensures events { out.new.items
            ≡ out.old.items ++ map (event_of place) (back_events self.old.reading) }
        ensures few { vec_len out.new ≤ vec_len out.old + event_room self.old }
        ensures room { vec_capacity out.new ≡ vec_capacity out.old }
    {
        match &mut self.reading {
            Reading::Open(pipe) => pipe.release(place, out),
            Reading::Waiting | Reading::Boot | Reading::Refused(_) => {}
        }
    }
}
