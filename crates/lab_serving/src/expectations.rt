//! When the expectations of a script let it go on.

ghost use Rattle.std.specs.Prelude.{◌≡◌, ◌+◌, [], drop, OnOk, None, false};
ghost use Rattle.std.specs.Option.{option_copied, option_map};
ghost use Rattle.lab_expectations.specs.Expectations.{answer_of, waits};
ghost use Rattle.lab_serving.specs.Advancing.{AdvancesAt, Meets, Takes, advance_of, allowed_by, answer_next, awaited_from, came_of, expected_words, expects_report, is_next_met, last_set, next_of, others};

use crate::expecting::{ExpectedKind, Expecting};
use lab_expectations::{Expectation, Transcript};
use std::alloc::{AllocError, Global};

/// In milliseconds, how long an expectation is waited for.
pub const MOST_WAIT: u64 = 10_000;

/// Whether the script goes on.
#[derive(Clone, Copy, Debug, PartialEq, Eq)]
pub enum Advance {
    /// The next expectation is met, or isn't of the device that the host has: more actions may come.
    Goes,
    /// There is none more, or it is waited for.
    Waits,
    /// It wasn't met in time, or what may not be set was.
    Fails,
}

/// The expectations of a script, which of them is the next, and what the host set.
#[derive(Drop)]
pub struct Expectations {
    all: Vec<Expecting>,
    next: usize,
    /// In milliseconds, since when the next one is waited for.
    since: Option<u64>,
    transcript: Transcript,
}

/// Whether a report is expected.
fn expects_report(expecting: &Expecting) -> bool
    ensures { result ≡ expects_report expecting.now.kind }
{
    match expecting.kind {
        ExpectedKind::Report => true,
        ExpectedKind::Nothing | ExpectedKind::Anything => false,
    }
}

impl Expectations {
    /// None of them was met, and the host set nothing.
    pub fn new(alloc: Global, all: Vec<Expecting>) -> Self
        ensures all { result.all.items ≡ all.items }
        ensures first { (result.next ≡ 0) × (result.since ≡ None) }
        ensures nothing { (waits result.transcript ≡ []) × (result.transcript.is_cut ≡ false) }
    {
        Expectations {
            all,
            next: 0,
            since: None,
            transcript: Transcript::new(alloc),
        }
    }

    /// Keeps the line of a report that the host set, with its line feed: one that has to be expected, or one that may be.
    ///
    /// # Errors
    /// Out of memory.
    pub fn add(&mut self, line: &[u8], is_required: bool) -> Result<(), AllocError>
        ensures { OnOk result (Takes self.old self.new line.now is_required) }
    {
        if is_required {
            self.transcript.add(line)
        } else {
            self.transcript.add_optional(line)
        }
    }

    /// How many of the actions may come so far: those before the next expectation.
    pub fn allowed(&self) -> usize
        ensures { result ≡ allowed_by (next_of self.now) }
    {
        match self.all.get(self.next) {
            Some(expecting) => expecting.at,
            None => usize::MAX,
        }
    }

    /// The number of the line of the next expectation; none where there is none more.
    pub fn number(&self) -> Option<usize>
        ensures { result ≡ option_map (λ x. x.number) (next_of self.now) }
    {
        match self.all.get(self.next) {
            Some(expecting) => Some(expecting.number),
            None => None,
        }
    }

    /// The place of the first expectation from the next one on that isn't of another device than that at a place.
    fn after_others(&self, place: Option<usize>) -> usize
        ensures { result ≡ self.now.next + others place (drop self.now.next self.now.all.items) }
    {
        let mut at = self.next;
        while let Some(expecting) = self.all.get(at) {
            if !expecting.is_of_other(place) {
                return at;
            }
            at += 1;
        }
        at
    }

    /// Passes over the next expectations, as long as they are of other devices than that at a place.
    pub fn pass_others(&mut self, place: Option<usize>)
        ensures { self.new ≡ record self.old {
          next = self.old.next + others place (drop self.old.next self.old.all.items);
        } }
    {
        self.next = self.after_others(place);
    }

    /// What came of the next expectation.
    fn answer(&self) -> Expectation<'_>
        ensures { answer_of result ≡ answer_next self.now.transcript (next_of self.now) }
    {
        match self.all.get(self.next) {
            Some(expecting) => match expecting.kind {
                ExpectedKind::Report => self.transcript.answer(expecting.line.as_slice()),
                ExpectedKind::Nothing => self.transcript.answer_to_none(),
                ExpectedKind::Anything => Expectation::Met,
            },
            None => Expectation::Nothing,
        }
    }

    /// What the host set in place of what is expected next: the first report that has to be expected, or else the last one that it
    /// set, or `nothing`. It is empty where what is expected is there.
    pub fn came(&self) -> &[u8]
        ensures { result.now ≡ came_of (answer_next self.now.transcript (next_of self.now)) (last_set self.now.transcript) }
    {
        match self.answer() {
            Expectation::Met => b"",
            Expectation::Other(line) => line,
            Expectation::Nothing => self.transcript.last().unwrap_or(b"nothing"),
            Expectation::TooMuch => b"over 1 MiB since the last expect",
        }
    }

    /// What is expected next, as its line says it; empty where there is none more.
    pub fn expected(&self) -> &[u8]
        ensures { result.now ≡ expected_words (next_of self.now) }
    {
        match self.all.get(self.next) {
            Some(expecting) => match expecting.kind {
                ExpectedKind::Report => expecting.line.as_slice(),
                ExpectedKind::Nothing => b"none",
                ExpectedKind::Anything => b"any",
            },
            None => b"",
        }
    }

    /// The expectations from the next one on.
    fn left(&self) -> &[Expecting]
        ensures { result.now ≡ drop self.now.next self.now.all.items }
    {
        if self.next < self.all.len() {
            &self.all.as_slice()[self.next..]
        } else {
            &[]
        }
    }

    /// The next expectation of a report, if there is one.
    pub fn awaited(&self) -> Option<&Expecting>
        ensures { option_copied result ≡ awaited_from self.now }
    {
        self.left()
            .iter()
            .find(|expecting| expects_report(expecting))
    }

    /// Whether the next expectation is met, which takes what it expects then.
    fn meet(&mut self) -> bool
        ensures met { result ≡ is_next_met self.old.transcript (next_of self.old) }
        ensures left { Meets (next_of self.old) self.old.transcript self.new.transcript }
        ensures rest { self.new ≡ record self.old { transcript = self.new.transcript } }
    {
        match self.all.get(self.next) {
            Some(expecting) => match expecting.kind {
                ExpectedKind::Report => self.transcript.expect(expecting.line.as_slice()),
                ExpectedKind::Nothing => self.transcript.expect_none(),
                ExpectedKind::Anything => {
                    self.transcript.forget();
                    true
                }
            },
            None => false,
        }
    }

    /// Looks at the next expectation, of a host that has the device at this place, at a time in milliseconds. An expectation of
    /// another device is passed over. One that isn't met is waited for, [`MOST_WAIT`] from the first look on; that nothing is left
    /// to be expected is met at once, or never.
    pub fn advance(&mut self, place: Option<usize>, now: u64) -> Advance
        ensures says { result ≡ advance_of self.old place now }
        ensures leaves { AdvancesAt self.old self.new place now (next_of self.old) }
    {
        let Some(expecting) = self.all.get(self.next) else {
            return Advance::Waits;
        };
        let is_of_none = matches!(expecting.kind, ExpectedKind::Nothing);
        if expecting.is_of_other(place) || self.meet() {
            self.next += 1;
            self.since = None;
            return Advance::Goes;
        }
        let since = self.since.unwrap_or(now);
        self.since = Some(since);
        if is_of_none || now.saturating_sub(since) >= MOST_WAIT {
            Advance::Fails
        } else {
            Advance::Waits
        }
    }
}
