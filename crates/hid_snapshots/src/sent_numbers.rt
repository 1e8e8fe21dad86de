//! The numbers by which a report shows what is kept of an item, drawn one after another.

ghost use Rattle.std.specs.Prelude.{◌≡◌, ◌<◌, ◌≤◌, ◌++◌, ◌^◌, ◌≤ℤ◌, neg_ℤ, pos, List, [], ◌∷◌, map, length, replicate, unwrap_or, IfSome};
ghost use Rattle.hid_snapshots.specs.Sending.{switch_number, pressed_places_from, IsPatternOf};
ghost use Rattle.hid_snapshots.specs.SentNumbers.{repeats};

use crate::control_state::{Motions, Values};
use crate::flags::Flags;
use crate::numbers::MAX_NUMBERS;
use std::marker::Model;

/// What numbers are drawn from.
#[derive(Clone, Copy)]
enum Source<'a> {
    /// The switches from an index on.
    Switches(&'a Flags, usize),
    /// The values from an index on, with a number for null.
    Values(&'a Values, usize, i64),
    /// The motions from an index on.
    Motions(&'a Motions, usize),
    /// The pressed keys from a place on, as numbers from the minimum on, and what the elements after them have.
    Keys(&'a Flags, usize, i64, Repeated),
    Same(Repeated),
}

/// A number, n times.
#[derive(Clone, Copy)]
struct Repeated {
    count: usize,
    number: i64,
}

/// The numbers of an item's elements that have yet to come. It takes no memory.
#[derive(Drop)]
pub(crate) struct Sending<'a> {
    source: Source<'a>,
}

impl<'a> Model for Sending<'a> {
    ghost use Rattle.std.specs.Prelude.{List, ℤ};

    ghost Value = { List ℤ };

    ghost use Rattle.hid_snapshots.specs.SentNumbers.{numbers_of, IsSource};

    ghost view = { λ s. numbers_of s.source };

    ghost invariant = { λ s. IsSource s.source };
}

impl<'a> Sending<'a> {
    /// No number.
    pub(crate) fn none() -> Sending<'a>
        ensures { result ≡ [] }
    {
        Sending::same(0, 0)
    }

    /// One number, n times.
    pub(crate) fn same(count: usize, number: i64) -> Sending<'a>
        ensures { result ≡ replicate count number }
    {
        Sending {
            source: Source::Same(Repeated { count, number }),
        }
    }

    /// 1 for each pressed switch, and 0 for each other.
    pub(crate) fn switches(flags: &'a Flags) -> Sending<'a>
        requires { length flags.now ≤ MAX_NUMBERS }
        ensures { result ≡ map switch_number flags.now }
    {
        Sending {
            source: Source::Switches(flags, 0),
        }
    }

    /// The values, with this number for null.
    pub(crate) fn values(values: &'a Values, null: i64) -> Sending<'a>
        requires { length values.now ≤ MAX_NUMBERS }
        ensures { result ≡ map (λ v. unwrap_or v null) values.now }
    {
        Sending {
            source: Source::Values(values, 0, null),
        }
    }

    /// Sends the amounts of motions, in order.
    pub(crate) fn motions(motions: &'a Motions) -> Sending<'a>
        requires { length motions.now ≤ MAX_NUMBERS }
        ensures { result ≡ motions.now }
    {
        Sending {
            source: Source::Motions(motions, 0),
        }
    }

    /// The pressed keys by rising place, as numbers from the minimum on, and after them the same number n times.
    pub(crate) fn keys(flags: &'a Flags, min: i64, rest: usize, empty: i64) -> Sending<'a>
        requires places { length flags.now ≤ MAX_NUMBERS }
        requires small { neg_ℤ (pos (2 ^ 32)) ≤ℤ min }
        requires not_large { min ≤ℤ pos (2 ^ 32) }
        ensures { result ≡ pressed_places_from min 0 flags.now ++ replicate rest empty }
    {
        let then = Repeated {
            count: rest,
            number: empty,
        };
        Sending {
            source: Source::Keys(flags, 0, min, then),
        }
    }

    /// The pattern of up to 32 switches, the first one lowest, if none has been drawn yet.
    pub(crate) fn pattern(&self) -> Option<u32>
        ensures { IfSome result (IsPatternOf self.now) }
    {
        match self.source {
            Source::Switches(flags, 0) => first_pattern(flags),
            _ => None,
        }
    }

    /// Draws the next number.
    pub(crate) fn next(&mut self) -> i64
        requires { 0 < length self.old }
        ensures { self.old ≡ result ∷ self.new }
    {
        match self.source {
            Source::Switches(flags, index) => {
                self.source = Source::Switches(flags, index + 1);
                switch_number(flags.get(index))
            }
            Source::Values(values, index, null) => {
                self.source = Source::Values(values, index + 1, null);
                values.get(index).unwrap_or(null)
            }
            Source::Motions(motions, index) => {
                self.source = Source::Motions(motions, index + 1);
                motions.get(index)
            }
            Source::Keys(flags, from, min, then) => match flags.next(from) {
                Some(place) => {
                    self.source = Source::Keys(flags, place + 1, min, then);
                    min + place as i64
                }
                None => {
                    self.source = Source::Same(one_fewer(then));
                    then.number
                }
            },
            Source::Same(then) => {
                self.source = Source::Same(one_fewer(then));
                then.number
            }
        }
    }
}

/// The pattern of up to 32 switches.
fn first_pattern(flags: &Flags) -> Option<u32>
    ensures { IfSome result (IsPatternOf (map switch_number flags.now)) }
{
    if flags.len() == 0 || flags.len() > 32 {
        return None;
    }
    Some(flags.words().first().copied().unwrap_or(0) as u32)
}

/// The number of a switch: 1 if it is pressed, else 0.
fn switch_number(pressed: bool) -> i64
    ensures { result ≡ switch_number pressed }
{
    if pressed { 1 } else { 0 }
}

/// The number, repeated once less.
fn one_fewer(repeated: Repeated) -> Repeated
    requires { 0 < repeated.count }
    ensures { repeats repeated ≡ repeated.number ∷ repeats result }
{
    Repeated {
        count: repeated.count - 1,
        number: repeated.number,
    }
}
