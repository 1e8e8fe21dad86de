//! The keys of an array that its elements name.

ghost use Rattle.std.specs.Prelude.{All, ◌≡◌, ◌==◌, ◌<◌, ◌≤◌, ◌*◌, ◌&&◌, ◌+ℤ◌, ℕ, pos, nat_lt, int_le, true, false, not, length, slice_get, Some, MatchOption, IfSome};
ghost use Rattle.hid_report_descriptor.specs.Usages.{is_rollover, is_keyboard_error};
ghost use Rattle.hid_usages.specs.Reading.{FitsFields};
ghost use Rattle.hid_usages.specs.KeyArrays.{usages_of_array, is_rollover_number, HasUsages, CanAdd, AddsKey, AddsNextKey, KeepsOtherFlags, AreClear, ReadsNumbers};

use crate::view_changes::listed_usage;
use hid_fields::FieldCodec;
use hid_layout::{Layout, MAX_KEYS, MainItem, Usage, usage_count};
use hid_report_descriptor::FIRST_KEY;
use hid_snapshots::{FieldRun, Flags};

/// The place that an element of this number names, if it can carry it.
#[inline(always)]
fn place_of(item: &MainItem, number: &i64) -> Option<usize>
    ensures { MatchOption result ((p : ℕ) → p < 64 * 65536
        → number.now ≡ (item.now.min +ℤ pos p) → int_le number.now item.now.max ≡ false)
        (λ p. (number.now ≡ item.now.min +ℤ pos p) × (int_le number.now item.now.max ≡ true)) }
{
    match number.checked_sub(item.min) {
        Some(place) => {
            if 0 <= place && *number <= item.max {
                Some(place as usize)
            } else {
                None
            }
        }
        None => None,
    }
}

/// Whether a usage is of a key: no usage and the errors of a keyboard aren't, whose IDs are the first.
#[inline(always)]
fn is_key_usage(usage: &Usage) -> bool
    ensures { result ≡ (not (usage.now.id == 0) && not (is_keyboard_error usage.now)) }
{
    FIRST_KEY <= usage.id || (usage.id != 0 && !usage.is_keyboard_error())
}

/// Whether a key with this usage can stand at a place.
#[inline(always)]
fn is_pressable(place: usize, usage: &Usage) -> bool
    ensures { result ≡ (nat_lt place 65536 && (not (usage.now.id == 0)
        && not (is_keyboard_error usage.now))) }
{
    place < MAX_KEYS && is_key_usage(usage)
}

/// An array's item at its place in a layout, with its ranges of usages.
#[derive(Clone, Copy)]
pub(crate) struct KeyArray<'a> {
    pub(crate) layout: &'a Layout,
    pub(crate) place: usize,
    pub(crate) item: &'a MainItem,
    pub(crate) entries: &'a [(Usage, Usage)],
}

/// Adds the key with this usage at the place that an element of this number names.
#[inline(always)]
fn set_key(array: &KeyArray<'_>, number: &i64, place: usize, usage: &Usage, named: &mut Flags)
    requires can { CanAdd array.now number.now named.old }
    requires number { number.now ≡ array.now.item.now.min +ℤ pos place }
    requires most { int_le number.now array.now.item.now.max ≡ true }
    requires usage { slice_get (usages_of_array array.now) place ≡ Some usage.now }
    ensures keys { AddsKey array.now number.now named.old named.new }
    ensures others { KeepsOtherFlags array.now named.old named.new }
{
    if is_pressable(place, usage) {
        named.set(place, true);
    }
}

/// Whether a usage is ErrorRollOver: its ID is looked at first, which no key has.
#[inline(always)]
fn reports_rollover(usage: &Usage) -> bool
    ensures { result ≡ is_rollover usage.now }
{
    usage.id < FIRST_KEY && usage.is_rollover()
}

/// Adds the key that an element of this number names; false where it names ErrorRollOver.
#[inline(always)]
fn add_key(array: &KeyArray<'_>, number: &i64, named: &mut Flags) -> bool
    requires listed { HasUsages array.now }
    requires few { length (usages_of_array array.now) ≤ 64 * 65536 }
    requires can { CanAdd array.now number.now named.old }
    ensures rolls { result ≡ not (is_rollover_number array.now number.now) }
    ensures keys { result ≡ true → AddsKey array.now number.now named.old named.new }
    ensures others { KeepsOtherFlags array.now named.old named.new }
{
    match place_of(array.item, number) {
        None => true,
        Some(place) => match listed_usage(array.layout, array.place, array.entries, place) {
            None => true,
            Some(usage) => {
                if reports_rollover(&usage) {
                    false
                } else {
                    set_key(array, number, place, &usage, named);
                    true
                }
            }
        },
    }
}

/// Adds the key that the next element's number names, unless it is the number before.
#[inline(always)]
fn add_next_key(array: &KeyArray<'_>, before: Option<i64>, number: &i64, named: &mut Flags) -> bool
    requires listed { HasUsages array.now }
    requires few { length (usages_of_array array.now) ≤ 64 * 65536 }
    requires can { CanAdd array.now number.now named.old }
    requires before { IfSome before (λ v. is_rollover_number array.now v ≡ false) }
    ensures rolls { result ≡ not (is_rollover_number array.now number.now) }
    ensures keys { result ≡ true → AddsNextKey array.now before number.now named.old named.new }
    ensures others { KeepsOtherFlags array.now named.old named.new }
{
    if before == Some(*number) {
        true
    } else {
        add_key(array, number, named)
    }
}

/// Sets the keys that these numbers name, of which none is set before; false where one names ErrorRollOver. Numbers of a byte
/// each are read by a loop of their own.
#[inline(always)]
pub(crate) fn read_keys<C: FieldCodec>(
    array: &KeyArray<'_>,
    numbers: &FieldRun<'_>,
    named: &mut Flags,
) -> bool
    requires listed { HasUsages array.now }
    requires entries { length array.now.entries.now ≤ 64 }
    requires fits { All (FitsFields array.now.item.now) numbers.now }
    requires clear { AreClear array.now named.old }
    ensures { ReadsNumbers array.now numbers.now result named.old named.new }
{
    match numbers.bytes(false) {
        Some(bytes) => read_each_key::<C>(array, &FieldRun::of_bytes(bytes, false), named),
        None => read_each_key::<C>(array, numbers, named),
    }
}

/// Sets the keys that these numbers name, one by one. Inlined twice: numbers of a byte each need no shifts.
#[inline(always)]
fn read_each_key<C: FieldCodec>(
    array: &KeyArray<'_>,
    numbers: &FieldRun<'_>,
    named: &mut Flags,
) -> bool
    requires listed { HasUsages array.now }
    requires entries { length array.now.entries.now ≤ 64 }
    requires fits { All (FitsFields array.now.item.now) numbers.now }
    requires clear { AreClear array.now named.old }
    ensures { ReadsNumbers array.now numbers.now result named.old named.new }
{
    // For the prover: how many usages there are at most.
    let _ = usage_count(array.entries);

    let mut last = None;
    for k in 0..numbers.len() {
        let number = numbers.number::<C>(k);
        if !add_next_key(array, last, &number, named) {
            return false;
        }
        last = Some(number);
    }
    true
}
