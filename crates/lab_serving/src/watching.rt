//! What stands by while a script of the bench is served.

ghost use Rattle.std.specs.Prelude.{◌≡◌};
ghost use Rattle.std.specs.Option.{option_copied};
ghost use Rattle.lab_serving.specs.Advancing.{answer_next, awaited_from, came_of, expected_words, last_set, next_of};

use crate::expectations::{Advance, Expectations};
use crate::expecting::Expecting;
use std::alloc::Global;
use std::io::Write;
use usbip_script::{LineCause, ServeFault, Watch};

/// The expectations of a script, and where what the host sets is printed, if it is.
#[derive(Drop)]
pub struct Watching<T> {
    expectations: Expectations,
    to: Option<T>,
}

/// The session ends at the expectation of a line, if there is one.
fn unmet(number: Option<usize>) -> Result<(), ServeFault> {
    match number {
        Some(number) => Err(ServeFault::Line(number, LineCause::Unmet)),
        None => Ok(()),
    }
}

impl<T: Write> Watching<T> {
    /// These are expected. What the host sets is printed to this, if it is printed; it has to be expected then, each report in its
    /// turn, and else it may be.
    pub fn new(alloc: Global, expected: Vec<Expecting>, to: Option<T>) -> Self {
        Watching {
            expectations: Expectations::new(alloc, expected),
            to,
        }
    }

    /// What the host set in place of what is expected next; empty where that is there.
    pub fn came(&self) -> &[u8]
        ensures { result.now ≡ came_of (answer_next self.now.expectations.transcript (next_of self.now.expectations))
            (last_set self.now.expectations.transcript) }
    {
        self.expectations.came()
    }

    /// What is expected next, as its line says it; empty where there is none more.
    pub fn expected(&self) -> &[u8]
        ensures { result.now ≡ expected_words (next_of self.now.expectations) }
    {
        self.expectations.expected()
    }

    /// The next expectation of a report, if there is one.
    pub fn awaited(&self) -> Option<&Expecting>
        ensures { option_copied result ≡ awaited_from self.now.expectations }
    {
        self.expectations.awaited()
    }
}

impl<T: Write> Watch for Watching<T> {
    fn hear(&mut self, line: &str) -> Result<(), ServeFault> {
        if let Some(to) = &mut self.to {
            if to.write_all(line.as_bytes()).is_err() || to.flush().is_err() {
                return Err(ServeFault::Told);
            }
        }
        match self.expectations.add(line.as_bytes(), self.to.is_some()) {
            Ok(()) => Ok(()),
            Err(_) => Err(ServeFault::Memory),
        }
    }

    fn allowed(&self) -> usize {
        self.expectations.allowed()
    }

    fn go_on(&mut self, place: Option<usize>, now: u64) -> Result<bool, ServeFault> {
        match self.expectations.advance(place, now) {
            Advance::Goes => Ok(true),
            Advance::Waits => Ok(false),
            Advance::Fails => {
                unmet(self.expectations.number())?;
                Ok(false)
            }
        }
    }

    fn end(&mut self, place: Option<usize>) -> Result<(), ServeFault> {
        if place.is_none() {
            return Err(ServeFault::NoHost);
        }
        self.expectations.pass_others(place);
        unmet(self.expectations.number())
    }
}
