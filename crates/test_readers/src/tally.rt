//! What was compared.

use std::fmt;

/// How much was compared.
#[derive(Clone, Copy, Debug, Default)]
pub struct Tally {
    pub accepted: u64,
    pub refused: u64,
    pub reports: u64,
    pub events: u64,
}

impl Tally {
    /// A descriptor was accepted.
    pub fn accept(&mut self) {
        self.accepted = self.accepted.saturating_add(1);
    }

    /// A descriptor was refused.
    pub fn refuse(&mut self) {
        self.refused = self.refused.saturating_add(1);
    }

    /// A report or a release had so many events.
    pub fn report(&mut self, events: usize) {
        self.reports = self.reports.saturating_add(1);
        self.events = self.events.saturating_add(events as u64);
    }
}

impl fmt::Display for Tally {
    fn fmt<W: fmt::Write>(&self, f: &mut fmt::Formatter<W>) -> fmt::Result {
        let Tally {
            accepted,
            refused,
            reports,
            events,
        } = *self;
        write!(
            f,
            "{accepted} descriptors, {refused} refused, {reports} reports, {events} events"
        )
    }
}
