//! The submits that are in flight: those that were sent, and aren't answered yet.
ghost use Rattle.std.specs.Prelude.{◌≡◌, ◌<◌, [], ◌∷◌, ◌++◌, length, true, false, None, Some, MatchOption, slice_get, nat_lt, not};
ghost use Rattle.std.specs.List.{list_any, remove};
ghost use Rattle.usbip_import.specs.Flights.{flight_of, is_asked, is_in_flight, same_purpose, without};

use arrayvec::ArrayVec;
use std::marker::Model;

/// The most submits in flight: a control transfer, and a report of each of the 15 endpoints that a device can have
/// (USB 2.0, 5.3.1.2).
pub const MAX_FLIGHTS: usize = 16;

/// What a submit is for.
#[derive(Clone, Copy, Debug, Default, PartialEq, Eq)]
pub enum Purpose {
    /// The control transfer that the driver waits for.
    #[default]
    Control,
    /// A report of an interface.
    Report {
        /// Its place in the list of the driver.
        interface: usize,
    },
}

/// A submit in flight.
#[derive(Clone, Copy, Debug, Default, PartialEq, Eq)]
pub struct Flight {
    /// Its number.
    pub seqnum: u32,
    /// What it is for.
    pub purpose: Purpose,
    /// In bytes, the most that may follow its reply: 0 where its data go to the device.
    pub room: u32,
}

/// The submits in flight. A contract sees them as their list, oldest first.
#[derive(Drop)]
pub struct Flights {
    list: ArrayVec<Flight, 16>,
}

impl Model for Flights {
    ghost use Rattle.std.specs.Prelude.{List};
    ghost use Rattle.usbip_import.specs.declared.flight.Flight.{Flight};

    ghost Value = { List Flight };

    ghost view = { λ f. f.list.items };
}

impl Purpose {
    /// Whether it is the same purpose.
    fn is(self, other: Purpose) -> bool
        ensures { result ≡ same_purpose self other }
    {
        match self {
            Purpose::Control => match other {
                Purpose::Control => true,
                Purpose::Report { .. } => false,
            },
            Purpose::Report { interface } => match other {
                Purpose::Control => false,
                Purpose::Report { interface: place } => interface == place,
            },
        }
    }
}

/// The place of the oldest flight of a number.
fn place_of(flights: &[Flight], seqnum: u32) -> Option<usize>
    ensures { MatchOption result
        ((flight_of seqnum flights.now ≡ None) × (without seqnum flights.now ≡ flights.now))
        (λ i. (i < length flights.now) × (flight_of seqnum flights.now ≡ slice_get flights.now i)
        × (without seqnum flights.now ≡ remove flights.now i)) }
{
    for (place, flight) in flights.iter().enumerate() {
        if flight.seqnum == seqnum {
            return Some(place);
        }
    }
    None
}

impl Flights {
    /// None are in flight.
    pub fn new() -> Flights
        ensures { result ≡ [] }
    {
        Flights {
            list: ArrayVec::new(),
        }
    }

    /// Whether [`MAX_FLIGHTS`] are in flight.
    pub fn is_full(&self) -> bool
        ensures { result ≡ not (nat_lt (length self.now) MAX_FLIGHTS) }
    {
        self.list.len() >= MAX_FLIGHTS
    }

    /// How many are in flight.
    pub fn len(&self) -> usize
        ensures { result ≡ length self.now }
    {
        self.list.len()
    }

    /// Whether one of this number is in flight.
    pub fn holds(&self, seqnum: u32) -> bool
        ensures { result ≡ is_in_flight seqnum self.now }
    {
        place_of(&self.list, seqnum).is_some()
    }

    /// Whether one for this purpose is in flight.
    pub fn asks(&self, purpose: Purpose) -> bool
        ensures { result ≡ is_asked purpose self.now }
    {
        self.list.iter().any(|flight| purpose.is(flight.purpose))
    }

    /// One more is in flight.
    pub fn begin(&mut self, flight: Flight)
        requires { length self.old < MAX_FLIGHTS }
        ensures { self.new ≡ self.old ++ flight ∷ [] }
    {
        self.list.push(flight);
    }

    /// The flight of a number is answered: it is in flight no more.
    pub fn finish(&mut self, seqnum: u32) -> Option<Flight>
        ensures flight { result ≡ flight_of seqnum self.old }
        ensures left { self.new ≡ without seqnum self.old }
    {
        let place = place_of(&self.list, seqnum)?;
        Some(self.list.remove(place))
    }

    /// The connection is over: none are in flight.
    pub fn clear(&mut self)
        ensures { self.new ≡ [] }
    {
        self.list.clear();
    }
}
