//! The lines that were printed and haven't been expected yet.

ghost use Rattle.std.specs.Prelude.{◌≤◌};
ghost use Rattle.std.specs.Vec.{vec_len};

use super::looking::{Found, first_line, first_required, last_line, look};
use super::matching::is_output_line;
use std::alloc::{AllocError, Global};

/// The most bytes of lines that wait for an `expect`.
pub const MAX_TRANSCRIPT: usize = 1 << 20;

/// The first byte of a line that may be expected, and needn't: no line that is printed begins with it.
const OPTIONAL: u8 = b'+';

/// What came of an `expect`.
#[derive(Clone, Copy, Debug, PartialEq, Eq)]
pub enum Expectation<'a> {
    /// The line was printed.
    Met,
    /// Another line was printed.
    Other(&'a [u8]),
    /// Nothing was printed that hasn't been expected.
    Nothing,
    /// Over [`MAX_TRANSCRIPT`] bytes were printed since the last `expect`, so none of them is kept.
    TooMuch,
}

/// The lines that were printed and haven't been expected yet, with their line feeds.
#[derive(Debug, Drop)]
pub struct Transcript {
    text: Vec<u8>,
    from: usize,
    is_cut: bool,
    ghost within: { from ≤ vec_len text },
}

impl Transcript {
    ghost use Rattle.std.specs.Prelude.{◌≡◌, ◌+◌, ◌<◌, true, false, [], ◌∷◌, ◌++◌, None, length, OnOk, if◌then◌else◌};
    ghost use Rattle.std.specs.Option.{option_map};
    ghost use Rattle.lab_expectations.specs.Expectations.{Met, TooMuch, parts_of, outcome, first_required, last_line, waits, is_expected_at, is_none_at, answer_of, answer_at, answer_none, answer_unmet};

    /// Nothing was printed.
    pub fn new(alloc: Global) -> Self
        ensures waits { waits result ≡ [] }
        ensures cut { result.is_cut ≡ false }
    {
        Transcript {
            text: Vec::new(alloc),
            from: 0,
            is_cut: false,
        }
    }

    /// Takes the lines away that were expected.
    fn drop_front(&mut self) -> Result<(), AllocError>
        ensures { OnOk result ((waits self.new ≡ waits self.old) × (self.new.is_cut ≡ self.old.is_cut)
            × (vec_len self.new.text ≡ length (waits self.old))) }
    {
        let kept = Vec::from_slice(*self.text.allocator(), self.waiting())?;
        self.from = 0;
        self.text = kept;
        Ok(())
    }

    /// Makes room for so many bytes more, or forgets what was printed.
    fn make_room(&mut self, more: usize) -> Result<(), AllocError>
        ensures waits { OnOk result (self.new.is_cut ≡ false
            → (waits self.new ≡ waits self.old) × (self.old.is_cut ≡ false)) }
        ensures room { OnOk result (self.old.is_cut ≡ false
            → length (waits self.old) + more ≤ 1048576 → self.new.is_cut ≡ false) }
    {
        if self.text.len().saturating_add(more) <= MAX_TRANSCRIPT {
            return Ok(());
        }
        self.drop_front()?;
        if self.text.len().saturating_add(more) <= MAX_TRANSCRIPT {
            return Ok(());
        }
        self.is_cut = true;
        self.from = 0;
        self.text.clear();
        Ok(())
    }

    /// Adds lines that were printed, with their line feeds. Once too much was printed, nothing is kept.
    ///
    /// # Errors
    /// Out of memory.
    pub fn add(&mut self, lines: &[u8]) -> Result<(), AllocError>
        ensures waits { OnOk result (self.new.is_cut ≡ false
            → (waits self.new ≡ waits self.old ++ lines.now) × (self.old.is_cut ≡ false)) }
        ensures room { OnOk result (self.old.is_cut ≡ false
            → length (waits self.old) + length lines.now ≤ 1048576 → self.new.is_cut ≡ false) }
    {
        if self.is_cut {
            return Ok(());
        }
        self.make_room(lines.len())?;
        self.text.extend_from_slice(lines)?;
        Ok(())
    }

    /// Adds a line that may be expected, and needn't, with its line feed.
    ///
    /// # Errors
    /// Out of memory.
    pub fn add_optional(&mut self, line: &[u8]) -> Result<(), AllocError>
        ensures waits { OnOk result (self.new.is_cut ≡ false
            → (waits self.new ≡ waits self.old ++ 43 ∷ line.now) × (self.old.is_cut ≡ false)) }
        ensures room { OnOk result (self.old.is_cut ≡ false
            → length (waits self.old) + length line.now < 1048576 → self.new.is_cut ≡ false) }
    {
        if self.is_cut {
            return Ok(());
        }
        self.make_room(line.len().saturating_add(1))?;
        self.text.push(OPTIONAL)?;
        self.text.extend_from_slice(line)?;
        Ok(())
    }

    /// The lines that wait.
    fn waiting(&self) -> &[u8]
        ensures { result.now ≡ waits self.now }
    {
        &self.text.as_slice()[self.from.min(self.text.len())..]
    }

    /// Forgets lines that were all expected.
    fn forget_expected(&mut self)
        ensures waits { waits self.new ≡ waits self.old }
        ensures cut { self.new.is_cut ≡ self.old.is_cut }
    {
        if self.from >= self.text.len() {
            self.from = 0;
            self.text.clear();
        }
    }

    /// Whether the first line that isn't passed over is this one, which is taken then: it no longer waits. Otherwise nothing
    /// changes.
    pub fn expect(&mut self, expected: &[u8]) -> bool
        ensures met { result ≡ is_expected_at self.old expected.now }
        ensures left { result ≡ true
            → outcome expected.now (parts_of (waits self.old)) ≡ Met (parts_of (waits self.new)) }
        ensures same { result ≡ false → self.new ≡ self.old }
    {
        if self.is_cut {
            return false;
        }
        let Found::Met(rest) = look(expected, self.waiting()) else {
            return false;
        };
        let left = rest.len();
        self.from = self.text.len().saturating_sub(left);
        self.forget_expected();
        true
    }

    /// What came of an expectation of this line.
    pub fn answer(&self, expected: &[u8]) -> Expectation<'_>
        ensures { answer_of result ≡ answer_at self.now expected.now }
    {
        if self.is_cut {
            return Expectation::TooMuch;
        }
        match look(expected, self.waiting()) {
            Found::Met(_) => Expectation::Met,
            Found::Other(line) => Expectation::Other(line),
            Found::Nothing => Expectation::Nothing,
        }
    }

    /// What came in place of this line, which isn't the next one: of an Output report the first line that waits, also one that needn't
    /// be expected.
    pub fn answer_unmet(&self, expected: &[u8]) -> Expectation<'_>
        ensures { answer_of result ≡ answer_unmet self.now expected.now }
    {
        if self.is_cut || !is_output_line(expected) {
            return self.answer(expected);
        }
        match first_line(self.waiting()) {
            Some(line) => Expectation::Other(line),
            None => Expectation::Nothing,
        }
    }

    /// Whether no line waits but those that may be passed over, which no longer wait then. Otherwise nothing changes.
    pub fn expect_none(&mut self) -> bool
        ensures met { result ≡ is_none_at self.old }
        ensures left { result ≡ true → waits self.new ≡ [] }
        ensures same { result ≡ false → self.new ≡ self.old }
    {
        if self.is_cut || first_required(self.waiting()).is_some() {
            return false;
        }
        self.from = 0;
        self.text.clear();
        true
    }

    /// Passes over all that was printed, also where too much was.
    pub fn forget(&mut self)
        ensures waits { waits self.new ≡ [] }
        ensures cut { self.new.is_cut ≡ false }
    {
        self.is_cut = false;
        self.from = 0;
        self.text.clear();
    }

    /// What came where no line is expected.
    pub fn answer_to_none(&self) -> Expectation<'_>
        ensures { answer_of result ≡ (if self.now.is_cut then TooMuch
            else answer_none (first_required (parts_of (waits self.now)))) }
    {
        if self.is_cut {
            return Expectation::TooMuch;
        }
        match first_required(self.waiting()) {
            Some(line) => Expectation::Other(line),
            None => Expectation::Met,
        }
    }

    /// The last line that waits, also of those that needn't be expected.
    pub fn last(&self) -> Option<&[u8]>
        ensures { option_map (λ line. line.now) result ≡ last_line None (parts_of (waits self.now)) }
    {
        last_line(self.waiting())
    }
}
