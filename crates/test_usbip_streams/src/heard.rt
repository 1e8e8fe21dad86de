//! What a session must make of the bytes of a server: read here a second time, and held against its events.

use crate::answering::Flight;
use crate::messages::{HEADER, word};
use crate::stop::{Stop, right};
use hid_driver::{DriverEvent, Event};
use hid_layout::ControlId;
use std::alloc::Global;

/// ESHUTDOWN: the device is gone.
const SHUTDOWN: u32 = 0xFFFF_FF94;

/// What comes next.
#[derive(Clone, Copy)]
enum Awaited {
    Head,
    Description,
    Header,
    Data(Flight, u32, u32),
    Nothing,
}

/// What a message may lead to.
#[derive(Clone, Copy, PartialEq, Eq)]
pub enum Leads {
    /// No events.
    On,
    /// Events of a report.
    Report,
    /// Events of what is released, as at a halt.
    Release,
    /// A refusal.
    Refused,
}

/// What came of a server's bytes, and what is held.
#[derive(Drop)]
pub struct Heard {
    awaited: Awaited,
    /// The submits in flight.
    flights: Vec<Flight>,
    held: Vec<(usize, ControlId)>,
    pub messages: u64,
    pub events: u64,
}

impl Heard {
    pub fn new(alloc: Global) -> Heard {
        Heard {
            awaited: Awaited::Head,
            flights: Vec::new(alloc),
            held: Vec::new(alloc),
            messages: 0,
            events: 0,
        }
    }

    /// A new session.
    pub fn begin(&mut self) {
        self.awaited = Awaited::Head;
        self.flights.clear();
        self.held.clear();
    }

    /// The session is over.
    pub fn end(&mut self) {
        self.awaited = Awaited::Nothing;
    }

    /// In bytes, what comes next.
    pub fn wants(&self) -> usize {
        match self.awaited {
            Awaited::Head => 8,
            Awaited::Description => 312,
            Awaited::Header => HEADER,
            Awaited::Data(_, _, length) => length as usize,
            Awaited::Nothing => 0,
        }
    }

    /// Whether the stream may end here: between two messages.
    pub fn is_between(&self) -> bool {
        matches!(self.awaited, Awaited::Header)
    }

    /// The session sent a message.
    pub fn asked(&mut self, bytes: &[u8]) -> Result<(), Stop> {
        if word(bytes, 0) != 1 {
            return Ok(());
        }
        let seqnum = word(bytes, 4);
        let is_known = self.flights.iter().any(|flight| flight.seqnum == seqnum);
        right(!is_known, "two submits of a number")?;
        self.flights.push(Flight {
            seqnum,
            is_read: word(bytes, 12) == 1,
            endpoint: word(bytes, 16),
            length: word(bytes, 24),
        })?;
        Ok(())
    }

    /// A message came whole: what it may lead to.
    pub fn took(&mut self, bytes: &[u8]) -> Leads {
        self.messages = self.messages.wrapping_add(1);
        match self.awaited {
            Awaited::Head if word(bytes, 0) == 0x0111_0003 && word(bytes, 4) == 0 => {
                self.go(Awaited::Description, Leads::On)
            }
            Awaited::Description => self.go(Awaited::Header, Leads::On),
            Awaited::Header if word(bytes, 0) == 3 => self.took_reply(bytes),
            Awaited::Data(flight, status, _) => self.go(Awaited::Header, leads_of(&flight, status)),
            Awaited::Head | Awaited::Header | Awaited::Nothing => {
                self.go(Awaited::Nothing, Leads::Refused)
            }
        }
    }

    fn go(&mut self, awaited: Awaited, leads: Leads) -> Leads {
        self.awaited = awaited;
        leads
    }

    /// RET_SUBMIT came: to a submit in flight, with no more bytes than it has room for.
    fn took_reply(&mut self, header: &[u8]) -> Leads {
        let seqnum = word(header, 4);
        let status = word(header, 20);
        let place = self
            .flights
            .iter()
            .position(|flight| flight.seqnum == seqnum);
        let flight = match place {
            Some(place) if place < self.flights.len() && status != SHUTDOWN => self
                .flights
                .remove(place),
            _ => return self.go(Awaited::Nothing, Leads::Refused),
        };
        let length = if flight.is_read { word(header, 24) } else { 0 };
        if length > flight.length {
            return self.go(Awaited::Nothing, Leads::Refused);
        }
        if length > 0 {
            return self.go(Awaited::Data(flight, status, length), Leads::On);
        }
        self.go(Awaited::Header, leads_of(&flight, status))
    }

    /// A control went down or up.
    fn see(&mut self, interface: usize, control: ControlId, is_down: bool) -> Result<(), Stop> {
        let place = self
            .held
            .iter()
            .position(|(of, held)| *of == interface && *held == control);
        match place {
            Some(place) if !is_down && place < self.held.len() => {
                self.held.remove(place);
                Ok(())
            }
            Some(_) => Err(Stop::Wrong("what is held goes down again")),
            None if is_down => Ok(self.held.push((interface, control))?),
            None => Err(Stop::Wrong("what isn't held goes up")),
        }
    }

    /// The events of a message.
    pub fn tell(&mut self, events: &[DriverEvent], leads: Leads) -> Result<(), Stop> {
        for told in events {
            self.events = self.events.wrapping_add(1);
            match told.event {
                Event::Down { control, .. } => {
                    right(leads == Leads::Report, "an event without a report")?;
                    self.see(told.interface, control, true)?;
                }
                Event::Up { control, .. } => {
                    right(
                        leads == Leads::Report || leads == Leads::Release,
                        "an event too many",
                    )?;
                    self.see(told.interface, control, false)?;
                }
                _ => right(
                    leads == Leads::Report || leads == Leads::Release,
                    "an event too many",
                )?,
            }
        }
        Ok(())
    }

    /// At the end nothing is held.
    pub fn is_released(&self) -> Result<(), Stop> {
        right(self.held.is_empty(), "a key that is held after the end")
    }
}

/// What the answer to a submit may lead to.
fn leads_of(flight: &Flight, status: u32) -> Leads {
    match (flight.endpoint, status) {
        (0, _) => Leads::On,
        (_, 0) => Leads::Report,
        _ => Leads::Release,
    }
}
