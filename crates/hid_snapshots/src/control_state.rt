//! What is kept of a listed item.

ghost use Rattle.std.specs.Prelude.{◌≡◌, ◌<◌, ◌-ℤ◌, negsuc, true, map, not, pos, length, slice_get, slice_set, replicate, Some, None, IfOk, unwrap_or};
ghost use Rattle.std.specs.List.{list_any};
ghost use Rattle.std.specs.Ordering.{int_eq};
ghost use Rattle.hid_snapshots.specs.ControlStates.{is_i32, are_motions};
ghost use Rattle.hid_snapshots.specs.Parts.{clamp, differences, same_values};

use crate::exact_capacity::full_of;
use crate::flags::Flags;
use std::alloc::{AllocError, Global};
use std::marker::Model;

/// A value or null for each element.
#[derive(Drop)]
pub struct Values {
    values: Vec<Option<i64>>,
}

impl Model for Values {
    ghost use Rattle.std.specs.Prelude.{List, Option, ℤ};
    ghost use Rattle.hid_snapshots.specs.ExactCapacity.{IsFull};

    ghost Value = { List (Option ℤ) };

    ghost view = { λ v. v.values.items };

    ghost invariant = { λ v. IsFull v.values };
}

impl Values {
    /// One value, or null, for each of n elements.
    ///
    /// # Errors
    /// Out of memory.
    pub fn new(alloc: Global, count: usize, first: Option<i64>) -> Result<Self, AllocError>
        ensures { IfOk result (λ v. v ≡ replicate count first) }
    {
        Ok(Values {
            values: full_of(alloc, first, count)?,
        })
    }

    /// How many there are.
    pub fn len(&self) -> usize
        ensures { result ≡ length self.now }
    {
        self.values.len()
    }

    /// The value at an index; none where it is null.
    pub fn get(&self, index: usize) -> Option<i64>
        requires { index < length self.now }
        ensures { slice_get self.now index ≡ Some result }
    {
        self.values[index]
    }

    /// The value at an index; none past the last.
    pub fn get_or_none(&self, index: usize) -> Option<i64>
        ensures { result ≡ unwrap_or (slice_get self.now index) None }
    {
        self.values.get(index).copied().unwrap_or(None)
    }

    /// Sets the value at an index, or null.
    pub fn set(&mut self, index: usize, value: Option<i64>)
        requires { index < length self.old }
        ensures { self.new ≡ slice_set self.old index value }
    {
        self.values[index] = value;
    }

    /// Copies the other's, which has the same length.
    pub(crate) fn copy_from(&mut self, other: &Values)
        requires { length self.old ≡ length other.now }
        ensures { self.new ≡ other.now }
    {
        self.values.copy_from_slice(&other.values);
    }

    /// Whether both have the same values and length.
    pub(crate) fn is_same(&self, other: &Values) -> bool
        ensures { result ≡ same_values self.now other.now }
    {
        self.values.as_slice() == other.values.as_slice()
    }
}

/// The motion of each element.
#[derive(Drop)]
pub struct Motions {
    amounts: Vec<i64>,
}

impl Model for Motions {
    ghost use Rattle.std.specs.Prelude.{List, ℤ};
    ghost use Rattle.hid_snapshots.specs.ExactCapacity.{IsFull};

    ghost Value = { List ℤ };

    ghost view = { λ m. m.amounts.items };

    ghost invariant = { λ m. IsFull m.amounts };
}

impl Motions {
    /// This many motions, all 0.
    ///
    /// # Errors
    /// Out of memory.
    pub fn new(alloc: Global, count: usize) -> Result<Self, AllocError>
        ensures { IfOk result (λ m. m ≡ replicate count (pos 0)) }
    {
        Ok(Motions {
            amounts: full_of(alloc, 0, count)?,
        })
    }

    /// How many there are.
    pub fn len(&self) -> usize
        ensures { result ≡ length self.now }
    {
        self.amounts.len()
    }

    /// The amount at an index.
    pub fn get(&self, index: usize) -> i64
        requires { index < length self.now }
        ensures { slice_get self.now index ≡ Some result }
    {
        self.amounts[index]
    }

    /// The amount at an index, 0 past the last.
    pub fn get_or_zero(&self, index: usize) -> i64
        ensures { result ≡ unwrap_or (slice_get self.now index) (pos 0) }
    {
        self.amounts.get(index).copied().unwrap_or(0)
    }

    /// Sets the amount at an index.
    pub fn set(&mut self, index: usize, amount: i64)
        requires { index < length self.old }
        ensures { self.new ≡ slice_set self.old index amount }
    {
        self.amounts[index] = amount;
    }

    /// Whether something has moved.
    pub(crate) fn any(&self) -> bool
        ensures { result ≡ list_any (λ m. not (int_eq m (pos 0))) self.now }
    {
        self.amounts.iter().any(|amount| *amount != 0)
    }

    /// Makes each amount what an element can carry of it: the least number where it is below that, the greatest where it is
    /// above.
    pub(crate) fn clamp(&mut self, least: &i64, greatest: &i64)
        ensures { self.new ≡ map (clamp least.now greatest.now) self.old }
    {
        clamp_all(&mut self.amounts, least, greatest);
    }

    /// Copies the other's, which has the same length.
    pub(crate) fn copy_from(&mut self, other: &Motions)
        requires { length self.old ≡ length other.now }
        ensures { self.new ≡ other.now }
    {
        self.amounts.copy_from_slice(&other.amounts);
    }

    /// Takes the amounts of the other from these.
    pub(crate) fn subtract(&mut self, other: &Motions)
        requires len { length self.old ≡ length other.now }
        requires amounts { are_motions (negsuc 0x7FFF_FFFF) (pos 0x7FFF_FFFF) self.old }
        requires others { are_motions (negsuc 0x7FFF_FFFF) (pos 0x7FFF_FFFF) other.now }
        ensures { self.new ≡ differences self.old other.now }
    {
        subtract_all(&mut self.amounts, &other.amounts);
    }
}

/// The amount at an index.
fn amount_at(amounts: &[i64], index: usize) -> i64
    requires { index < length amounts.now }
    ensures { slice_get amounts.now index ≡ Some result }
{
    amounts[index]
}

/// The nearest number to the amount within these bounds.
fn clamp_amount(amount: &i64, least: &i64, greatest: &i64) -> i64
    ensures { result ≡ clamp least.now greatest.now amount.now }
{
    (*amount).min(*greatest).max(*least)
}

/// Brings each amount to the nearest number within these bounds.
fn clamp_all(amounts: &mut [i64], least: &i64, greatest: &i64)
    ensures { amounts.new ≡ map (clamp least.now greatest.now) amounts.old }
{
    for index in 0..amounts.len() {
        let amount = amount_at(amounts, index);
        let carried = clamp_amount(&amount, least, greatest);
        amounts[index] = carried;
    }
}

/// Subtracts from each amount the other one at its index.
fn subtract_all(amounts: &mut [i64], others: &[i64])
    requires len { length amounts.old ≡ length others.now }
    requires amounts { are_motions (negsuc 0x7FFF_FFFF) (pos 0x7FFF_FFFF) amounts.old }
    requires others { are_motions (negsuc 0x7FFF_FFFF) (pos 0x7FFF_FFFF) others.now }
    ensures { amounts.new ≡ differences amounts.old others.now }
{
    for index in 0..amounts.len() {
        let amount = amount_at(amounts, index);
        let other = amount_at(others, index);
        let rest = difference(&amount, &other);
        amounts[index] = rest;
    }
}

/// The amount less the other one.
fn difference(amount: &i64, other: &i64) -> i64
    requires amount { is_i32 amount.now ≡ true }
    requires other { is_i32 other.now ≡ true }
    ensures { result ≡ amount.now -ℤ other.now }
{
    *amount - *other
}

/// What is kept of a listed item. A snapshot, the shown parts and a view are each a list of these.
#[derive(Drop)]
pub enum ControlState {
    /// The item has no controls.
    Absent,
    /// Of switches, by element; of an array, by place in its usage list.
    Switches(Flags),
    /// Of values, by element.
    Values(Values),
    /// Of relative controls, by element.
    Motions(Motions),
    /// An array with more pressed keys than elements, in a shown part alone.
    RollOver(Flags),
}
