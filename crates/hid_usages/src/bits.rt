//! Switches of one bit each, side by side: they are read and compared as one pattern.

ghost use Rattle.std.specs.Prelude.{◌≡◌, ◌<◌, ◌≤◌, ◌^◌, ◌==◌, length};
ghost use Rattle.std.specs.Int.{bit_at};
ghost use Rattle.hid_layout.specs.Reports.{HasElements};
ghost use Rattle.hid_snapshots.specs.Words.{bits_in};
ghost use Rattle.hid_usages.specs.Appending.{HasSpace, Appends};
ghost use Rattle.hid_snapshots.specs.Events.{switch_events};
ghost use Rattle.hid_usages.specs.Bits.{are_bits};
ghost use Rattle.hid_usages.specs.EventSources.{IsSource, usages_of_source};

use crate::event_source::{EventSource, push_switch};
use hid_layout::{MainItem, Shape};
use hid_snapshots::{Event, Flags, lowest_from};

/// Whether the elements of an item with data are up to 32 switches of one bit each.
pub(crate) fn are_bits(item: &MainItem) -> bool
    requires { HasElements item.now }
    ensures { result ≡ are_bits item.now }
{
    match item.shape {
        Shape::Variable => item.size == 1 && (item.count <= 32 && item.element_kind().is_switch()),
        Shape::Array | Shape::Padding => false,
    }
}

/// Whether the bit at an index of the pattern is set.
fn is_bit(pattern: u32, index: usize) -> bool
    requires { index < 32 }
    ensures { result ≡ (bit_at pattern index == 1) }
{
    pattern >> index & 1 == 1
}

/// Appends an event for each switch that isn't held as its bit has it, by rising index.
fn push_bits(source: &EventSource<'_>, pattern: u32, held: &Flags, out: &mut Vec<Event>)
    requires source { IsSource source.now }
    requires held { length held.now ≡ length (usages_of_source source.now) }
    requires few { length held.now ≤ 32 }
    requires fits { pattern < 2 ^ length held.now }
    requires room { HasSpace out.old (switch_events source.now.item (usages_of_source source.now)
        held.now (bits_in (length held.now) pattern)) }
    ensures { Appends out.old (switch_events source.now.item (usages_of_source source.now)
        held.now (bits_in (length held.now) pattern)) out.new }
{
    let unlike = held.unlike(0, u64::from(pattern));
    let mut from = 0;
    while let Some(index) = lowest_from(unlike, from) {
        let is_pressed = is_bit(pattern, index);
        push_switch(source, index, !is_pressed, is_pressed, out);
        from = index + 1;
    }
}

/// Sets switches by the pattern of their bits, and appends their events.
#[inline(always)]
pub(crate) fn take_bits(
    source: &EventSource<'_>,
    pattern: u32,
    held: &mut Flags,
    out: &mut Vec<Event>,
)
    requires source { IsSource source.now }
    requires held { length held.old ≡ length (usages_of_source source.now) }
    requires few { length held.old ≤ 32 }
    requires fits { pattern < 2 ^ length held.old }
    requires room { HasSpace out.old (switch_events source.now.item (usages_of_source source.now)
        held.old (bits_in (length held.old) pattern)) }
    ensures held { held.new ≡ bits_in (length held.old) pattern }
    ensures appends { Appends out.old (switch_events source.now.item (usages_of_source source.now)
        held.old (bits_in (length held.old) pattern)) out.new }
{
    push_bits(source, pattern, held, out);
    held.set_word(u64::from(pattern));
}
