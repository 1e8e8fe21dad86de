//! What a run counts.

use hid_text::ShortLine;
use std::fmt;
use usb_transact::Fate;

/// How often what happened. Counts stop at the greatest `u64`. Fates and repetitions are counted where a summary is asked for.
/// They are printed as two lines, of which the second has the fates.
#[derive(Clone, Copy, Debug, Default, PartialEq, Eq)]
pub struct Counts {
    /// Polls.
    pub polls: u64,
    /// Tries of transfers.
    pub tries: u64,
    /// Polls whose data the host had already.
    pub repeated: u64,
    /// Events.
    pub events: u64,
    /// Polls and tries of which nothing was lost.
    pub clean: u64,
    /// Those of which the first packet was lost.
    pub token: u64,
    /// Those of which the device's answer was lost.
    pub reply: u64,
    /// Those of which the acknowledgement was lost.
    pub ack: u64,
}

/// How many of these were lost, whichever packet was.
fn lost_of(token: u64, reply: u64, ack: u64) -> u64 {
    token.saturating_add(reply).saturating_add(ack)
}

/// So many more.
fn add(count: &mut u64, more: u64) {
    *count = count.saturating_add(more);
}

impl Counts {
    /// Counts what was lost of polls or of tries.
    fn add_fate(&mut self, fate: Fate, more: u64) {
        match fate {
            Fate::Clean => add(&mut self.clean, more),
            Fate::TokenLost => add(&mut self.token, more),
            Fate::ReplyLost => add(&mut self.reply, more),
            Fate::AckLost => add(&mut self.ack, more),
        }
    }

    /// Counts polls of which nothing but their number is asked for.
    pub fn add_polls(&mut self, count: u64) {
        add(&mut self.polls, count);
    }

    /// Counts the polls or the tries of a line, if it makes any, and nothing but their number.
    #[inline(always)] // two comparisons
    pub fn add_line(&mut self, line: &ShortLine) {
        match *line {
            ShortLine::Poll { count, .. } => self.add_polls(u64::from(count)),
            ShortLine::Control { count, .. } => add(&mut self.tries, u64::from(count)),
            _ => {}
        }
    }

    /// Counts a poll.
    pub fn add_poll(&mut self, fate: Fate, is_repeated: bool) {
        self.add_polls(1);
        self.add_fate(fate, 1);
        if is_repeated {
            add(&mut self.repeated, 1);
        }
    }

    /// Counts a try of a transfer.
    pub fn add_try(&mut self, fate: Fate) {
        add(&mut self.tries, 1);
        self.add_fate(fate, 1);
    }
}

impl fmt::Display for Counts {
    fn fmt<W: fmt::Write>(&self, f: &mut fmt::Formatter<W>) -> fmt::Result {
        let Counts {
            polls,
            tries,
            repeated,
            events,
            clean,
            token,
            reply,
            ack,
        } = *self;
        let lost = lost_of(token, reply, ack);
        write!(
            f,
            "polls {polls}, tries {tries}, lost {lost}, repeated {repeated}, events {events}\nclean {clean}, token {token}, reply {reply}, ack {ack}"
        )
    }
}
