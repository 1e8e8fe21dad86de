//! A host's view of a device's controls.

ghost use Rattle.std.specs.Prelude.{false, ◌≡◌, ◌≤◌, ◌+◌, ◌++◌, ℕ, true, length, slice_get, Some, IfOk, vec_len, vec_capacity};
ghost use Rattle.hid_layout.specs.Controls.{items_of, max_events};
ghost use Rattle.hid_snapshots.specs.declared.control_state.ControlState.{ControlState as StateValue};
ghost use Rattle.hid_snapshots.specs.ExactCapacity.{IsFull};
ghost use Rattle.hid_snapshots.specs.ControlStates.{blank, FitsShown, FitsView};
ghost use Rattle.hid_snapshots.specs.Parts.{IsInput};
ghost use Rattle.hid_snapshots.specs.Snapshots.{is_pressed, state_at};
ghost use Rattle.hid_snapshots.specs.Keys.{keys_at, has_keys_at, key_words, AreKeyWords};
ghost use Rattle.hid_usages.specs.Appending.{Appends};
ghost use Rattle.hid_usages.specs.Known.{Knows};
ghost use Rattle.hid_usages.specs.Plans.{IsPlan};
ghost use Rattle.hid_usages.specs.Taking.{TakesReport, IsReceived, view_received, events_received, flag_places};
ghost use Rattle.hid_snapshots.specs.Views.{value_in, changes_between, drops_between};

use crate::dropped_motion::{Dropped, all_changes_and_drops};
use crate::plan::ReportPlan;
use crate::report_lookup::input_report;
use crate::reset_events::{all_changes_back, all_changes_back_and_drops};
use crate::take::{LastReport, ReportBytes, take_items};
use crate::take_plan::take_planned;
use crate::view_changes::all_changes;
use hid_fields::FieldCodec;
use hid_layout::{ControlId, Layout};
use hid_snapshots::{
    ControlState, Event, Flags, MemoryFault, ReportFault, Shown, blank_states, item_count,
    key_words, plan_of, reset_states, state_at as state_in,
};
use std::alloc::Global;
use std::marker::Model;

/// The switches that a host holds for pressed, and a value or null of each absolute control. Calls with a layout ask for
/// the one with which the view was made.
#[derive(Drop)]
pub struct View {
    states: Vec<ControlState>,
    /// Flags for the keys that a report names, as many as the most switches or keys of one item. Between two calls none is
    /// set.
    named: Flags,
    // There is room for these control states alone.
    ghost full: { IsFull states },
}

impl Model for View {
    ghost use Rattle.std.specs.Prelude.{List};
    ghost use Rattle.hid_snapshots.specs.declared.control_state.ControlState.{ControlState};

    ghost Value = { List ControlState };

    ghost view = { λ v. v.states.items };

    ghost use Rattle.hid_usages.specs.Taking.{NoFlagSet};

    ghost invariant = { λ v. NoFlagSet v.states.items v.named };
}

impl View {
    /// What a host holds before the first report: nothing is held; values are those of a blank snapshot.
    ///
    /// # Errors
    /// [`MemoryFault`], U10, for lack of memory.
    pub fn initial(alloc: Global, layout: &Layout) -> Result<Self, MemoryFault>
        ensures initial { IfOk result (λ view. view ≡ blank (items_of layout.now)) }
        ensures fits { IfOk result (λ view. FitsView (items_of layout.now) view) }
    {
        match blank_states(alloc, layout) {
            Ok(states) => match Flags::clear(alloc, most_places(&states)) {
                Ok(named) => Ok(View { states, named }),
                Err(_) => Err(MemoryFault),
            },
            Err(_) => Err(MemoryFault),
        }
    }

    /// Takes the bytes of an Input report, and appends what changes and what moves (HID 1.11, 5.6 and 8), item by item in
    /// layout order: what changes in the order of [`changes`], and of a relative item each motion by rising index. More bytes
    /// than the report has are ignored. There is reserved room for `max_events` more; no memory is taken.
    ///
    /// # Errors
    /// Those of [`input_report`], U8 and U9, which leave the view as it was.
    pub fn take_report<C: FieldCodec>(
        &mut self,
        layout: &Layout,
        bytes: &[u8],
        out: &mut Vec<Event>,
    ) -> Result<(), ReportFault>
        requires fits { FitsView (items_of layout.now) self.old }
        requires room { vec_len out.old + max_events (items_of layout.now) ≤ vec_capacity out.old }
        // The view read, and the events.
        ensures taken { TakesReport layout.now bytes.now self.old out.old.items result self.new
            out.new.items }
        ensures fits { FitsView (items_of layout.now) self.new }
        // At most `max_events` events, in the room that was there.
        ensures few { vec_len out.new ≤ vec_len out.old + max_events (items_of layout.now) }
        ensures room { vec_capacity out.new ≡ vec_capacity out.old }
    {
        match input_report(layout, bytes) {
            Ok(report) => {
                let received = ReportBytes {
                    layout,
                    report,
                    bytes,
                };
                self.take_named::<C>(&received, out);
                Ok(())
            }
            Err(fault) => Err(fault),
        }
    }

    /// Takes the bytes of an Input report, and appends what changes and what moves.
    pub(crate) fn take_named<C: FieldCodec>(
        &mut self,
        received: &ReportBytes<'_>,
        out: &mut Vec<Event>,
    )
        requires received { IsReceived received.now }
        requires fits { FitsView (items_of received.now.layout.now) self.old }
        requires room { vec_len out.old + max_events (items_of received.now.layout.now)
            ≤ vec_capacity out.old }
        ensures view { self.new ≡ view_received received.now self.old }
        ensures appends { Appends out.old (events_received received.now self.old) out.new }
        ensures fits { FitsView (items_of received.now.layout.now) self.new }
        ensures few { vec_len out.new
            ≤ vec_len out.old + max_events (items_of received.now.layout.now) }
    {
        let places = plan_of(received.layout, received.report);
        take_items::<C>(received, places, &mut self.states, &mut self.named, out);
    }

    /// Takes the bytes of an Input report by its plan, as [`View::take_report`] does. The bytes of the last one of its number
    /// leave the view.
    pub(crate) fn take_planned<C: FieldCodec>(
        &mut self,
        received: &ReportBytes<'_>,
        plan: &ReportPlan,
        last: &LastReport<'_>,
        out: &mut Vec<Event>,
    )
        requires received { IsReceived received.now }
        requires plan { IsPlan received.now.layout.now received.now.report plan.now }
        requires known { Knows received.now.layout.now received.now.report received.now.bytes.now
            last.now.bytes.now last.now.changed self.old }
        requires fits { FitsView (items_of received.now.layout.now) self.old }
        requires room { vec_len out.old + max_events (items_of received.now.layout.now)
            ≤ vec_capacity out.old }
        ensures view { self.new ≡ view_received received.now self.old }
        ensures appends { Appends out.old (events_received received.now self.old) out.new }
        ensures fits { FitsView (items_of received.now.layout.now) self.new }
        ensures few { vec_len out.new
            ≤ vec_len out.old + max_events (items_of received.now.layout.now) }
    {
        // For the prover: what holds of every layout.
        let _ = item_count(received.layout);

        take_planned::<C>(received, plan, last, &mut self.states, &mut self.named, out);
    }

    /// Appends what changes until the view is the initial one again, as [`changes`] does. There is reserved room for
    /// `max_events` more; no memory is taken.
    #[tactic(auto, using(crate::proofs::BackLemmas::few_back))]
    pub fn changes_back(&self, layout: &Layout, out: &mut Vec<Event>)
        requires fits { FitsView (items_of layout.now) self.now }
        requires room { vec_len out.old + max_events (items_of layout.now) ≤ vec_capacity out.old }
        ensures events { out.new.items
            ≡ out.old.items ++ changes_between (items_of layout.now) self.now (blank (items_of layout.now)) }
        ensures few { vec_len out.new ≤ vec_len out.old + max_events (items_of layout.now) }
        ensures room { vec_capacity out.new ≡ vec_capacity out.old }
    {
        all_changes_back(layout, &self.states, &self.named, out);
    }

    /// Makes the view the initial one again. No memory is taken.
    pub fn reset(&mut self, layout: &Layout)
        requires { FitsView (items_of layout.now) self.old }
        ensures initial { self.new ≡ blank (items_of layout.now) }
        ensures fits { FitsView (items_of layout.now) self.new }
    {
        reset_states(layout, &mut self.states);
    }

    /// Appends what [`View::changes_back`] does, and the motion of an Input report's part as dropped, as
    /// [`changes_and_drops`] does. There is reserved room for `max_events` more; no memory is taken.
    #[tactic(auto, using(crate::proofs::BackLemmas::drops_back))]
    pub fn changes_back_and_drops(
        &self,
        layout: &Layout,
        report: usize,
        shown: &Shown,
        out: &mut Vec<Event>,
    )
        requires input { IsInput layout.now report }
        requires fits { FitsView (items_of layout.now) self.now }
        requires shown { FitsShown (items_of layout.now) shown.now }
        requires room { vec_len out.old + max_events (items_of layout.now) ≤ vec_capacity out.old }
        ensures events { out.new.items ≡ out.old.items ++ drops_between (items_of layout.now) report
            self.now (blank (items_of layout.now)) shown.now }
        ensures few { vec_len out.new ≤ vec_len out.old + max_events (items_of layout.now) }
        ensures room { vec_capacity out.new ≡ vec_capacity out.old }
    {
        let dropped = Dropped {
            layout,
            report,
            shown,
        };
        all_changes_back_and_drops(&dropped, &self.states, &self.named, out);
    }

    /// Whether a switch is held; false for another kind.
    pub fn held(&self, control: ControlId) -> bool
        ensures { result ≡ is_pressed (state_at self.now control.item) control.index }
    {
        match self.states.get(control.item) {
            Some(ControlState::Switches(flags)) => flags.get_or_false(control.index),
            _ => false,
        }
    }

    /// The held keys of an Input array, by place in its usage list: bit i mod 64 of word i div 64 is 1 exactly where the
    /// key at place i is held.
    #[tactic(auto, using(hid_snapshots::proofs::KeyWordLemmas::view_words))]
    pub fn key_words(&self, layout: &Layout, item: usize) -> &[u64]
        requires fits { FitsView (items_of layout.now) self.now }
        requires array { has_keys_at (items_of layout.now) item ≡ true }
        ensures words { result.now ≡ key_words self.now item }
        ensures keys { AreKeyWords (length (keys_at layout.now item))
            (is_pressed (state_at self.now item)) result.now }
    {
        key_words(&self.states, item)
    }

    /// The value of an absolute control; none where it is null, and for another kind.
    pub fn value(&self, control: ControlId) -> Option<i64>
        ensures { result ≡ value_in (state_at self.now control.item) control.index }
    {
        match self.states.get(control.item) {
            Some(ControlState::Values(values)) => values.get_or_none(control.index),
            _ => None,
        }
    }
}

/// How many places of a control state can be pressed.
fn flag_places(state: &ControlState) -> usize
    ensures { result ≡ flag_places state.now }
{
    match state {
        ControlState::Switches(flags) | ControlState::RollOver(flags) => flags.len(),
        ControlState::Absent | ControlState::Values(_) | ControlState::Motions(_) => 0,
    }
}

/// The greater of a number and of how many places of a control state can be pressed.
fn more_places(most: usize, state: &ControlState) -> usize
    ensures most { most ≤ result }
    ensures places { flag_places state.now ≤ result }
{
    most.max(flag_places(state))
}

/// The greatest number of places of one control state that can be pressed, or more.
fn most_places(states: &[ControlState]) -> usize
    ensures { (i : ℕ) (state : StateValue) → slice_get states.now i ≡ Some state
        → flag_places state ≤ result }
{
    let mut most = 0;
    for i in 0..states.len() {
        most = more_places(most, state_in(states, i));
    }
    most
}

/// Appends what changes from one view to another, item by item in layout order: of a variable item by rising index, of an
/// array each release by rising index and then each press. Both views suit the layout. There is reserved room for
/// `max_events` more; no memory is taken.
#[tactic(auto, using(crate::proofs::ViewLemmas::few_changes))]
pub fn changes(layout: &Layout, before: &View, after: &View, out: &mut Vec<Event>)
    requires before { FitsView (items_of layout.now) before.now }
    requires after { FitsView (items_of layout.now) after.now }
    requires room { vec_len out.old + max_events (items_of layout.now) ≤ vec_capacity out.old }
    ensures events { out.new.items
        ≡ out.old.items ++ changes_between (items_of layout.now) before.now after.now }
    // At most `max_events` events, in the room that was there.
    ensures few { vec_len out.new ≤ vec_len out.old + max_events (items_of layout.now) }
    ensures room { vec_capacity out.new ≡ vec_capacity out.old }
{
    all_changes(layout, &before.states, &after.states, out);
}

/// Appends what [`changes`] does, and the motion of an Input report's part as dropped: the events of a host that forgets its
/// device when the report was sent and didn't reach it. Views and parts suit the layout. There is reserved room for
/// `max_events` more; no memory is taken.
#[tactic(auto, using(crate::proofs::DropLemmas::drops))]
pub fn changes_and_drops(
    layout: &Layout,
    before: &View,
    after: &View,
    report: usize,
    shown: &Shown,
    out: &mut Vec<Event>,
)
    requires input { IsInput layout.now report }
    requires before { FitsView (items_of layout.now) before.now }
    requires after { FitsView (items_of layout.now) after.now }
    requires shown { FitsShown (items_of layout.now) shown.now }
    requires room { vec_len out.old + max_events (items_of layout.now) ≤ vec_capacity out.old }
    ensures events { out.new.items ≡ out.old.items
        ++ drops_between (items_of layout.now) report before.now after.now shown.now }
    // At most `max_events` events, in the room that was there.
    ensures few { vec_len out.new ≤ vec_len out.old + max_events (items_of layout.now) }
    ensures room { vec_capacity out.new ≡ vec_capacity out.old }
{
    let dropped = Dropped {
        layout,
        report,
        shown,
    };
    all_changes_and_drops(&dropped, &before.states, &after.states, out);
}
