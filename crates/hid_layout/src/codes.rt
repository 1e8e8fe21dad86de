//! The codes of an item: the numbers that stand for null, for no key, and for rollover (HID 1.11, 5.10 and 6.2.2.5). They are
//! worked out over whole ranges of usages, never place by place.

ghost use Rattle.std.specs.Prelude.{◌≡◌, ◌<◌, ◌≤◌, ◌+◌, ◌-◌, ◌*◌, ◌^◌, ◌+ℤ◌, ◌≤ℤ◌, ◌<ℤ◌, pos, ℤ, List, true, false, length, IfSome, IfNone};
ghost use Rattle.hid_report_descriptor.specs.Usages.{usage_list};
ghost use Rattle.std.specs.Bool.{OnTrue};
ghost use Rattle.std.specs.Int.{int_min};
ghost use Rattle.hid_layout.specs.Controls.{rollover_from, greatest_of, is_encodable};
ghost use Rattle.hid_report_descriptor.specs.Faults.{least_value, greatest_value};
ghost use Rattle.hid_layout.specs.Reports.{HasElements};
ghost use Rattle.hid_fields.specs.Value.{is_negative};
ghost use Rattle.hid_report_descriptor.specs.declared.usage.Usage.{Usage as Named};
ghost use Rattle.hid_layout.specs.EmptyCodes.{RollsOverAt, RollsOverIn, IsFirst, IsLeastNothing, NamesAll};
ghost use Rattle.hid_layout.specs.Codes.{is_in, AreCodes, names_nothing as names_nothing_at, number_of_pattern, empty_number, null_number, rollover_number};

use crate::main_item::MainItem;
use hid_fields::{null_pattern, to_value};
use hid_report_descriptor::{
    ERROR_ROLL_OVER, FIRST_KEY, KEYBOARD_PAGE, MAX_ENTRIES, MAX_KEYS, Usage, entry_count,
    greatest_value, least_value,
};

/// The numbers that stand for null, for no key, and for rollover; none where an item has no such number.
#[derive(Clone, Copy, Debug, PartialEq, Eq)]
pub struct Codes {
    /// Of an element with Null State: the least pattern out of the range (HID 1.11, 5.10).
    pub null: Option<i64>,
    /// Of an element of an array with no key: the least pattern that names neither a key nor an error (our choice).
    pub empty: Option<i64>,
    /// Of every element of an array with more keys than elements: the least place of ErrorRollOver.
    pub rollover: Option<i64>,
}

/// The codes of an item that has none.
pub(crate) const NO_CODES: Codes = Codes {
    null: None,
    empty: None,
    rollover: None,
};

/// The usages of one entry at their places in the usage list.
#[derive(Clone, Copy)]
struct EntryPlaces {
    low: Usage,
    /// The place of the first one, and the place after the last one.
    start: usize,
    end: usize,
    ghost small: { end < 2 ^ 40 },
    ghost ids: { low.id + (end - start) ≤ 2 ^ 16 },
}

impl EntryPlaces {
    ghost use Rattle.hid_layout.specs.EmptyCodes.{IsFirstNothing, usage_at_place};

    /// The usage at a place.
    fn usage(&self, place: usize) -> Usage
        requires low { self.now.start ≤ place }
        requires high { place < self.now.end }
        ensures { result ≡ usage_at_place self.now.low self.now.start place }
    {
        Usage {
            page: self.low.page,
            id: self.low.id + (place - self.start) as u16,
        }
    }

    /// The first place at or after `from` that names neither a key nor an error: at most the end, or `from` if that is
    /// past it.
    fn first_nothing(&self, from: usize) -> usize
        requires { self.now.start ≤ from }
        ensures { IsFirstNothing self.now.low self.now.start from self.now.end result }
    {
        if self.end <= from || (from == self.start && self.low.id == 0) {
            return from;
        }
        let next = from.max(MAX_KEYS);
        if next >= self.end {
            return self.end;
        }
        if !self.usage(next).is_keyboard_error() {
            return next;
        }
        self.end
            .min(self.start + (FIRST_KEY as usize - self.low.id as usize))
    }
}

/// The first place of a usage list from one on, also after its end, that names neither a key nor an error.
fn first_nothing(entries: &[(Usage, Usage)], from: usize) -> usize
    requires few { length entries.now ≤ MAX_ENTRIES }
    requires small { from ≤ 2 ^ 34 }
    ensures first { IsFirst (usage_list entries.now) from result }
    ensures small { result ≤ 2 ^ 35 }
{
    let mut start = 0;
    let mut next = from;
    for entry in entries {
        let end = start + entry_count(entry);
        let stretch = EntryPlaces {
            low: entry.0,
            start,
            end,
        };
        let found = stretch.first_nothing(next);
        if found < end {
            return found;
        }
        next = found;
        start = end;
    }
    next
}

/// Numbers from the first to below the end.
#[derive(Clone, Copy)]
struct Numbers {
    first: i64,
    end: i64,
}

/// The place that an element with the first of these numbers names.
fn place_of(item: &MainItem, numbers: &Numbers) -> usize
    requires elements { HasElements item.now }
    requires within { item.now.min ≤ℤ numbers.now.first }
    requires small { numbers.now.first ≤ℤ pos (2 ^ 32) }
    ensures place { (item.now.min +ℤ pos result) ≡ numbers.now.first }
    ensures small { result ≤ 2 ^ 34 }
{
    (numbers.first - item.min) as usize
}

/// The number by which an element names a place.
fn number_at(item: &MainItem, place: usize) -> i64
    requires elements { HasElements item.now }
    requires small { place ≤ 2 ^ 35 }
    ensures { result ≡ (item.now.min +ℤ pos place) }
{
    item.min + place as i64
}

/// Whether a number is in the item's logical range.
fn has_in_range(item: &MainItem, number: i64) -> bool
    ensures value { result ≡ is_in item.now.min item.now.max number }
    ensures inside { OnTrue result ((item.now.min ≤ℤ number) × (number ≤ℤ item.now.max)) }
{
    item.min <= number && number <= item.max
}

/// A number, or the first one over those that an element can carry, where that is less.
fn up_to_over(item: &MainItem, number: i64) -> i64
    requires { HasElements item.now }
    ensures { result ≡ int_min number (greatest_of item.now +ℤ pos 1) }
{
    number.min(item.greatest() + 1)
}

/// The least number from the first on by which an element names neither a key nor an error: it may be over the end.
fn unnamed_number(item: &MainItem, entries: &[(Usage, Usage)], numbers: &Numbers) -> i64
    requires elements { HasElements item.now }
    requires few { length entries.now ≤ MAX_ENTRIES }
    requires low { least_value item.now.min item.now.size ≤ℤ numbers.now.first }
    requires high { numbers.now.end ≤ℤ (greatest_value item.now.min item.now.size +ℤ pos 1) }
    requires some { numbers.now.first <ℤ numbers.now.end }
    ensures low { numbers.now.first ≤ℤ result }
    ensures nothing { result <ℤ numbers.now.end
        → names_nothing_at item.now (usage_list entries.now) result ≡ true }
    ensures named { (v : ℤ) → numbers.now.first ≤ℤ v → v <ℤ numbers.now.end → v <ℤ result
        → names_nothing_at item.now (usage_list entries.now) v ≡ false }
{
    if !has_in_range(item, numbers.first) {
        return numbers.first;
    }
    let place = first_nothing(entries, place_of(item, numbers));
    up_to_over(item, number_at(item, place))
}

/// The least of some numbers that an element of an array can carry and by which it names neither a key nor an error.
fn least_nothing(item: &MainItem, entries: &[(Usage, Usage)], numbers: &Numbers) -> Option<i64>
    requires elements { HasElements item.now }
    requires few { length entries.now ≤ MAX_ENTRIES }
    requires low { least_value item.now.min item.now.size ≤ℤ numbers.now.first }
    requires high { numbers.now.end ≤ℤ (greatest_value item.now.min item.now.size +ℤ pos 1) }
    requires some { numbers.now.first <ℤ numbers.now.end }
    ensures some { IfSome result
        (λ v. IsLeastNothing item.now
        (usage_list entries.now) numbers.now.first numbers.now.end v) }
    ensures none { IfNone result
        (NamesAll item.now (usage_list entries.now) numbers.now.first numbers.now.end) }
{
    let number = unnamed_number(item, entries, numbers);
    if number < numbers.end {
        Some(number)
    } else {
        None
    }
}

/// Whether elements stand for numbers below 0 too.
fn is_signed(item: &MainItem) -> bool
    ensures { result ≡ is_negative item.now.min }
{
    item.min < 0
}

/// The numbers from 0 on that elements can carry.
fn from_zero(item: &MainItem) -> Numbers
    requires { HasElements item.now }
    ensures first { result.first ≡ pos 0 }
    ensures end { result.end ≡ (greatest_value item.now.min item.now.size +ℤ pos 1) }
{
    Numbers {
        first: 0,
        end: greatest_value(item.min, item.size) + 1,
    }
}

/// The numbers below 0 that elements can carry.
fn below_zero(item: &MainItem) -> Numbers
    requires { HasElements item.now }
    ensures first { result.first ≡ least_value item.now.min item.now.size }
    ensures end { result.end ≡ pos 0 }
{
    Numbers {
        first: least_value(item.min, item.size),
        end: 0,
    }
}

/// The number of an element of an array without a key: of the least pattern that names neither a key nor an error.
/// Patterns from 0 up stand for the numbers from 0 up, and the rest for those below 0.
fn empty_number(item: &MainItem, entries: &[(Usage, Usage)]) -> Option<i64>
    requires elements { HasElements item.now }
    requires few { length entries.now ≤ MAX_ENTRIES }
    ensures { result ≡ empty_number item.now (usage_list entries.now) }
{
    let found = least_nothing(item, entries, &from_zero(item));
    if found.is_some() {
        return found;
    }
    if !is_signed(item) {
        return found;
    }
    least_nothing(item, entries, &below_zero(item))
}

/// The number that a pattern stands for.
fn number_of(item: &MainItem, pattern: u32) -> i64
    requires elements { HasElements item.now }
    requires pattern { pattern < 2 ^ item.now.size }
    ensures { result ≡ number_of_pattern item.now pattern }
{
    to_value(pattern, item.size, item.min < 0)
}

/// The number that stands for null in an item that isn't padding: that of the least pattern out of the logical range; none
/// where each pattern is in range (HID 1.11, 5.10).
#[tactic(auto, using(crate::proofs::NullLemmas::codes))]
pub fn null_number(item: &MainItem) -> Option<i64>
    requires { HasElements item.now }
    ensures { result ≡ null_number item.now }
{
    match null_pattern(item.size, item.min, item.max) {
        Some(pattern) => Some(number_of(item, pattern)),
        None => None,
    }
}

/// The place of ErrorRollOver among the usages of an entry that begins at a place.
fn error_place(entry: &(Usage, Usage), start: usize) -> Option<usize>
    requires { start ≤ MAX_ENTRIES * 2 ^ 16 }
    ensures { RollsOverAt entry.now start result }
{
    let (low, high) = *entry;
    if low.page == KEYBOARD_PAGE && low.id <= ERROR_ROLL_OVER && ERROR_ROLL_OVER <= high.id {
        Some(start + (ERROR_ROLL_OVER - low.id) as usize)
    } else {
        None
    }
}

/// Whether an element can carry the number by which it names a place.
pub(crate) fn is_encodable(item: &MainItem, place: usize) -> bool
    requires elements { HasElements item.now }
    requires small { place ≤ 2 ^ 35 }
    ensures { result ≡ is_encodable item.now (item.now.min +ℤ pos place) }
{
    let number = number_at(item, place);
    item.least() <= number && number <= item.greatest()
}

/// The place of ErrorRollOver, where an element can carry the number by which it names the place.
fn rollover_in(item: &MainItem, entry: &(Usage, Usage), start: usize) -> Option<usize>
    requires elements { HasElements item.now }
    requires small { start ≤ MAX_ENTRIES * 2 ^ 16 }
    ensures place { (us : List Named) → RollsOverIn item.now entry.now start us result }
    ensures small { IfSome result (λ place. place ≤ 2 ^ 35) }
{
    let Some(place) = error_place(entry, start) else {
        return None;
    };
    if is_encodable(item, place) {
        Some(place)
    } else {
        None
    }
}

/// The least place of ErrorRollOver that an element can name.
fn rollover_place(item: &MainItem, entries: &[(Usage, Usage)]) -> Option<usize>
    requires elements { HasElements item.now }
    requires few { length entries.now ≤ MAX_ENTRIES }
    ensures place { result ≡ rollover_from item.now 0 (usage_list entries.now) }
    ensures small { IfSome result (λ place. place ≤ 2 ^ 35) }
{
    let mut start = 0;
    for entry in entries {
        let found = rollover_in(item, entry, start);
        if found.is_some() {
            return found;
        }
        start += entry_count(entry);
    }
    None
}

/// The number that every element of an array has after a rollover.
fn rollover_number(item: &MainItem, entries: &[(Usage, Usage)]) -> Option<i64>
    requires elements { HasElements item.now }
    requires few { length entries.now ≤ MAX_ENTRIES }
    ensures { result ≡ rollover_number item.now (usage_list entries.now) }
{
    match rollover_place(item, entries) {
        Some(place) => Some(number_at(item, place)),
        None => None,
    }
}

/// The codes of an item with these usages.
#[inline(never)]
pub(crate) fn codes_of(item: &MainItem, entries: &[(Usage, Usage)]) -> Codes
    requires elements { HasElements item.now }
    requires few { length entries.now ≤ MAX_ENTRIES }
    ensures { AreCodes item.now (usage_list entries.now) result }
{
    Codes {
        null: null_number(item),
        empty: empty_number(item, entries),
        rollover: rollover_number(item, entries),
    }
}
