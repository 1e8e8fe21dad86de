//! What a report of any bytes makes of a view, and the events of it.

ghost use Rattle.std.specs.Prelude.{All, pos, ◌≡◌, ◌<◌, ◌≤◌, ◌^◌, ◌+◌, ◌++◌, ◌&&◌, ℕ, false, length, take, replicate};
ghost use Rattle.hid_layout.specs.Controls.{items_of, controls_of_form};
ghost use Rattle.hid_layout.specs.declared.control.Controls.TheVariants as head;
ghost use Rattle.hid_layout.specs.declared.control.ControlKind.TheVariants as ControlKind;
ghost use Rattle.hid_snapshots.specs.ControlStates.{HasRoom, FitsView};
ghost use Rattle.hid_snapshots.specs.Events.{element_events, key_events, ups, downs, usages_at, HasPlaces};
ghost use Rattle.hid_snapshots.specs.Words.{is_on};
ghost use Rattle.hid_snapshots.specs.Views.{motions_of};
ghost use Rattle.hid_usages.specs.Appending.{HasSpace, Appends};
ghost use Rattle.hid_usages.specs.Bits.{are_bits, read_bits};
ghost use Rattle.hid_usages.specs.EventSources.{AreUsages};
ghost use Rattle.hid_usages.specs.KeyArrays.{HasUsages, NoneSetFrom, flag_events, keys_by_array};
ghost use Rattle.hid_usages.specs.Reading.{FitsFields, keys_at};
ghost use Rattle.hid_usages.specs.Taking.{IsInReport, HasEventRoomAt, NoFlagSet, NoFlagSetFor, usages_in, keys_in, form_in, state_after_numbers, events_of_numbers, state_after_carried, motion_carried};
ghost use Rattle.hid_usages.specs.Taking.{IsReceived, ArePlacesOf, view_received, events_received, state_received, item_events_received};
ghost use Rattle.hid_usages.specs.Taking.{IsFilled, numbers_of_bytes, state_after_bytes, events_by_numbers, events_by_bytes};
ghost use Rattle.hid_usages.specs.Taking.{IsArrayAt, keys_by_entries, key_events_in};
ghost use Rattle.hid_layout.specs.Controls.{element_kind};
ghost use Rattle.hid_layout.specs.Reports.{first_bit};
ghost use Rattle.hid_usages.specs.Ranges.{LeaveOthers};

use crate::bits::take_bits;
use crate::changed_bits::{BitSpan, every_bit};
use crate::elements::{Carriable, ElementRange, take_switches, take_values};
use crate::event_source::{EventSource, ItemUsages};
use crate::key_array::{KeyArray, read_keys};
use crate::plan::planned_item;
use crate::take_plan::take_planned_item;
use crate::value_range::Bounds;
use crate::view_changes::{motions, usage_at};
use hid_fields::FieldCodec;
use hid_layout::{ControlId, ControlKind, Layout, MainItem, Usage};
use hid_snapshots::{ControlState, Event, FieldRun, Flags, next_bit};

/// The bytes of an Input report, with its layout and its number there.
#[derive(Clone, Copy)]
pub(crate) struct ReportBytes<'a> {
    pub(crate) layout: &'a Layout,
    pub(crate) report: usize,
    pub(crate) bytes: &'a [u8],
}

/// What is known of the report before, of the same number.
#[derive(Clone, Copy)]
pub(crate) struct LastReport<'a> {
    /// Its bytes: to read them again leaves the view.
    pub(crate) bytes: &'a [u8],
    /// The bits of the next report that aren't its own; all, where none is known.
    pub(crate) changed: BitSpan,
}

/// A listed item, with its layout and its place there.
#[derive(Clone, Copy)]
pub(crate) struct ListedItem<'a> {
    pub(crate) layout: &'a Layout,
    pub(crate) place: usize,
    pub(crate) item: &'a MainItem,
}

/// The numbers of a variable item's elements, with the kind and the usages of the elements, and the bounds that they are read by.
/// Outside of a range they leave the elements.
#[derive(Clone, Copy)]
pub(crate) struct ElementNumbers<'a> {
    pub(crate) kind: ControlKind,
    pub(crate) usages: &'a ItemUsages,
    pub(crate) bounds: Bounds,
    pub(crate) range: ElementRange,
    pub(crate) numbers: &'a FieldRun<'a>,
}

/// Reads the bytes of a report, whose items stand at these places, into what is kept of the layout's items, and appends the
/// events.
pub(crate) fn take_items<C: FieldCodec>(
    received: &ReportBytes<'_>,
    places: &[usize],
    states: &mut [ControlState],
    named: &mut Flags,
    out: &mut Vec<Event>,
)
    requires received { IsReceived received.now }
    requires places { ArePlacesOf received.now places.now }
    requires fits { FitsView (items_of received.now.layout.now) states.old }
    requires named { NoFlagSet states.old named.old }
    requires room { HasSpace out.old (events_received received.now states.old) }
    ensures view { states.new ≡ view_received received.now states.old }
    ensures named { named.new ≡ named.old }
    ensures appends { Appends out.old (events_received received.now states.old) out.new }
{
    // For the prover: what holds of every layout.
    let _ = received.layout.items();

    let last = LastReport {
        bytes: received.bytes,
        changed: every_bit(),
    };
    for place in places {
        let planned = planned_item(received.layout, *place);
        let i = planned.place;
        take_planned_item::<C>(received, &planned, &last, &mut states[i], named, out);
    }
}

/// Sets switches of one bit each by their pattern, and appends their events.
#[inline(always)]
pub(crate) fn take_pattern(
    listed: &ListedItem<'_>,
    usages: &ItemUsages,
    pattern: u32,
    state: &mut ControlState,
    out: &mut Vec<Event>,
)
    requires usages { AreUsages listed.now.layout.now listed.now.place usages.now }
    requires held { HasRoom (head.Elements ControlKind.Switch (pos 0) (pos 1)
        (length (usages_in listed.now))) state.old }
    requires few { length (usages_in listed.now) ≤ 32 }
    requires fits { pattern < 2 ^ length (usages_in listed.now) }
    requires room { HasSpace out.old (element_events listed.now.place
        (usages_in listed.now) state.old (read_bits pattern state.old)) }
    ensures state { state.new ≡ read_bits pattern state.old }
    ensures appends { Appends out.old (element_events listed.now.place
        (usages_in listed.now) state.old state.new) out.new }
{
    if let ControlState::Switches(held) = state {
        let source = EventSource {
            layout: listed.layout,
            item: listed.place,
            usages,
        };
        take_bits(&source, pattern, held, out);
    }
}

/// Sets the elements of a variable item by these numbers, and appends their events.
#[inline(always)]
pub(crate) fn take_elements<C: FieldCodec>(
    listed: &ListedItem<'_>,
    carried: &ElementNumbers<'_>,
    state: &mut ControlState,
    out: &mut Vec<Event>,
)
    requires usages { AreUsages listed.now.layout.now listed.now.place
        carried.now.usages.now }
    requires numbers { length carried.now.numbers.now ≡ length (usages_in listed.now) }
    requires held { HasRoom (head.Elements carried.now.kind carried.now.bounds.least
        carried.now.bounds.greatest (length (usages_in listed.now))) state.old }
    requires others { LeaveOthers carried.now.kind carried.now.bounds carried.now.numbers.now
        carried.now.range state.old }
    requires room { HasSpace out.old (element_events listed.now.place
        (usages_in listed.now) state.old (state_after_carried carried.now state.old)
        ++ motions_of listed.now.place (usages_in listed.now) (motion_carried carried.now)) }
    ensures state { state.new ≡ state_after_carried carried.now state.old }
    ensures appends { Appends out.old (element_events listed.now.place
        (usages_in listed.now) state.old state.new ++ motions_of listed.now.place
        (usages_in listed.now) (motion_carried carried.now)) out.new }
{
    let source = EventSource {
        layout: listed.layout,
        item: listed.place,
        usages: carried.usages,
    };
    match carried.kind {
        ControlKind::Switch => {
            if let ControlState::Switches(held) = state {
                take_switches::<C>(&source, carried.range, carried.numbers, held, out);
            }
        }
        ControlKind::Value | ControlKind::NullValue => {
            if let ControlState::Values(held) = state {
                let carriable = Carriable {
                    has_null: carried.kind.has_null(),
                    bounds: carried.bounds,
                };
                take_values::<C>(
                    &source,
                    &carriable,
                    carried.range,
                    carried.numbers,
                    held,
                    out,
                );
            }
        }
        ControlKind::Relative => {
            motions::<C>(&source, &carried.bounds, carried.numbers, out);
        }
    }
}

/// Sets the keys of an array by these numbers, and appends their events.
#[inline(always)]
pub(crate) fn take_array<C: FieldCodec>(
    listed: &ListedItem<'_>,
    entries: &[(Usage, Usage)],
    numbers: &FieldRun<'_>,
    state: &mut ControlState,
    named: &mut Flags,
    out: &mut Vec<Event>,
)
    requires array { IsArrayAt listed.now.layout.now listed.now.place listed.now.item.now
        entries.now }
    requires fits { All (FitsFields listed.now.item.now) numbers.now }
    requires held { HasPlaces state.old (length (keys_in listed.now)) }
    requires named { NoFlagSetFor state.old named.old }
    requires room { HasSpace out.old (key_events_in listed.now state.old
        (keys_by_entries listed.now entries.now state.old numbers.now)) }
    ensures state { state.new ≡ keys_by_entries listed.now entries.now state.old numbers.now }
    ensures named { named.new ≡ named.old }
    ensures appends { Appends out.old (key_events_in listed.now state.old state.new) out.new }
{
    let ListedItem {
        layout,
        place,
        item,
    } = *listed;
    let array = KeyArray {
        layout,
        place,
        item,
        entries,
    };
    if let ControlState::Switches(held) = state {
        take_keys::<C>(layout, place, &array, numbers, held, named, out);
    }
}

/// Sets the held keys of an array by these numbers, and appends their events. If a number names ErrorRollOver, the keys stay
/// (HID 1.11, appendix C).
#[inline(always)]
fn take_keys<C: FieldCodec>(
    layout: &Layout,
    place: usize,
    array: &KeyArray<'_>,
    numbers: &FieldRun<'_>,
    held: &mut Flags,
    named: &mut Flags,
    out: &mut Vec<Event>,
)
    requires array { IsArrayAt layout.now place array.now.item.now array.now.entries.now }
    requires listed { HasUsages array.now }
    requires fits { All (FitsFields array.now.item.now) numbers.now }
    requires held { length held.old ≡ length (keys_at layout.now place) }
    requires named { NoFlagSetFor (ControlState.Switches held.old) named.old }
    requires room { HasSpace out.old (key_events place (usages_at layout.now place)
        (ControlState.Switches held.old)
        (keys_by_array layout.now place array.now held.old numbers.now)) }
    ensures held { ControlState.Switches held.new
        ≡ keys_by_array layout.now place array.now held.old numbers.now }
    ensures named { named.new ≡ named.old }
    ensures appends { Appends out.old (key_events place (usages_at layout.now place)
        (ControlState.Switches held.old) (ControlState.Switches held.new)) out.new }
{
    if read_keys::<C>(array, numbers, named) {
        take_first(layout, place, held, named, out);
    } else {
        named.release_all();
    }
}

/// Sets keys by the first of these flags, appends the changes, and releases all of the flags.
#[inline(always)]
fn take_first(
    layout: &Layout,
    place: usize,
    held: &mut Flags,
    named: &mut Flags,
    out: &mut Vec<Event>,
)
    requires held { length held.old ≡ length (usages_at layout.now place) }
    requires places { length held.old ≤ length named.old }
    requires others { NoneSetFrom (length held.old) named.old }
    requires room { HasSpace out.old
        (flag_events place (usages_at layout.now place) held.old named.old) }
    ensures held { held.new ≡ take (length held.old) named.old }
    ensures named { named.new ≡ replicate (length named.old) false }
    ensures appends { Appends out.old (flag_events place (usages_at layout.now place) held.old
        named.old) out.new }
{
    take_releases(layout, place, held, named, out);
    take_presses(layout, place, held, named, out);
}

/// Releases the held keys that aren't named, by rising index, and appends their events. A word of keys is compared at a time.
#[inline(always)]
fn take_releases(
    layout: &Layout,
    place: usize,
    held: &mut Flags,
    named: &Flags,
    out: &mut Vec<Event>,
)
    requires held { length held.old ≡ length (usages_at layout.now place) }
    requires places { length held.old ≤ length named.now }
    requires room { HasSpace out.old
        (ups place (usages_at layout.now place) held.old named.now) }
    ensures held { (i : ℕ) → is_on held.new i ≡ (is_on held.old i && is_on named.now i) }
    ensures len { length held.new ≡ length held.old }
    ensures appends { Appends out.old (ups place (usages_at layout.now place) held.old named.now)
        out.new }
{
    let mut k = 0;
    while k < held.word_count() {
        let alone = held.alone(k, named);
        let mut from = 0;
        while let Some(bit) = next_bit(alone, from) {
            let index = 64 * k + bit;
            let control = ControlId { item: place, index };
            let usage = usage_at(layout, place, index);
            out.push_reserved(Event::Up { control, usage });
            from = bit + 1;
        }
        held.put(k, held.common(k, named));
        k = held.next_filled(k + 1);
    }
}

/// Presses the named keys, of which every held one is, by rising index, and appends their events; then none is named any more.
#[inline(always)]
fn take_presses(
    layout: &Layout,
    place: usize,
    held: &mut Flags,
    named: &mut Flags,
    out: &mut Vec<Event>,
)
    requires held { length held.old ≡ length (usages_at layout.now place) }
    requires places { length held.old ≤ length named.old }
    requires others { NoneSetFrom (length held.old) named.old }
    requires kept { (i : ℕ) → is_on named.old i ≡ false → is_on held.old i ≡ false }
    requires room { HasSpace out.old
        (downs place (usages_at layout.now place) held.old named.old) }
    ensures held { held.new ≡ take (length held.old) named.old }
    ensures named { named.new ≡ replicate (length named.old) false }
    ensures appends { Appends out.old (downs place (usages_at layout.now place) held.old named.old)
        out.new }
{
    let mut k = 0;
    while k < held.word_count() {
        let alone = named.alone(k, held);
        let mut from = 0;
        while let Some(bit) = next_bit(alone, from) {
            let index = 64 * k + bit;
            let control = ControlId { item: place, index };
            let usage = usage_at(layout, place, index);
            out.push_reserved(Event::Down { control, usage });
            from = bit + 1;
        }
        held.put(k, named.word(k));
        named.put(k, 0);
        k = named.next_filled(k + 1);
    }
}
