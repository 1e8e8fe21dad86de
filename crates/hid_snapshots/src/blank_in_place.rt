//! What is shown of the controls at first, once more in the same room.

ghost use Rattle.std.specs.Prelude.{◌≡◌, ◌<◌, Bool, List, false, length, pos, replicate};
ghost use Rattle.hid_layout.specs.Controls.{items_of, form_at, controls_of_form};
ghost use Rattle.hid_layout.specs.Reports.{IsLayout};
ghost use Rattle.hid_snapshots.specs.ControlStates.{blank, blank_state, FitsShown, FitsView, HasRoom};
ghost use Rattle.hid_snapshots.specs.Parts.{blank_parts, shown_state};

use crate::blank::first_value;
use crate::control_state::{ControlState, Motions, Values};
use crate::items::item_count;
use crate::parts::show_state;
use hid_layout::{Controls, Layout};
use std::mem;

/// Sets all values to this one.
fn fill(values: &mut Values, value: Option<i64>)
    ensures { values.new ≡ replicate (length values.old) value }
{
    for j in 0..values.len() {
        values.set(j, value);
    }
}

/// Makes what is kept of an item's values what it was at first.
fn reset_values(values: &mut Values, controls: &Controls)
    requires { HasRoom controls.now (ControlState.Values values.old) }
    ensures { ControlState.Values values.new ≡ blank_state controls.now }
{
    match controls {
        Controls::Elements {
            kind,
            least,
            greatest,
            ..
        } => fill(values, first_value(*kind, least, greatest)),
        Controls::None | Controls::Keys { .. } => {}
    }
}

/// Nothing has moved.
#[tactic(auto, using(crate::proofs::ResetLemmas::none_left))]
pub(crate) fn reset_motions(motions: &mut Motions)
    ensures { motions.new ≡ replicate (length motions.old) (pos 0) }
{
    motions.clamp(&0, &0);
}

/// None is pressed of an array that rolled over.
fn release_all(state: &mut ControlState)
    ensures { (ps : List Bool) → state.old ≡ ControlState.RollOver ps
        → state.new ≡ ControlState.Switches (replicate (length ps) false) }
{
    *state = match mem::replace(state, ControlState::Absent) {
        ControlState::RollOver(mut flags) => {
            flags.release_all();
            ControlState::Switches(flags)
        }
        other => other,
    };
}

/// Makes what is kept of a listed item what it was at first. The controls are looked up where it has values.
fn reset_state(layout: &Layout, i: usize, state: &mut ControlState)
    requires listed { i < length layout.now.items }
    requires room { HasRoom (controls_of_form (form_at (items_of layout.now) i)) state.old }
    ensures { state.new ≡ blank_state (controls_of_form (form_at (items_of layout.now) i)) }
{
    match state {
        ControlState::Absent => {}
        ControlState::Switches(flags) => flags.release_all(),
        ControlState::Values(values) => reset_values(values, &layout.controls(i)),
        ControlState::Motions(motions) => reset_motions(motions),
        ControlState::RollOver(_) => release_all(state),
    }
}

/// Makes what is shown of a listed item what it was at first. Of the initial control states motion alone is shown otherwise, where it
/// can't be 0.
#[tactic(auto, using(crate::proofs::ResetLemmas::shown_blank))]
fn reset_part(layout: &Layout, i: usize, part: &mut ControlState)
    requires listed { i < length layout.now.items }
    requires room { HasRoom (controls_of_form (form_at (items_of layout.now) i)) part.old }
    ensures { part.new ≡ shown_state (controls_of_form (form_at (items_of layout.now) i))
        (blank_state (controls_of_form (form_at (items_of layout.now) i))) }
{
    reset_state(layout, i, part);
    match part {
        ControlState::Motions(_) => show_state(part, &layout.controls(i)),
        ControlState::Absent
        | ControlState::Switches(_)
        | ControlState::Values(_)
        | ControlState::RollOver(_) => {}
    }
}

/// Makes what is shown of each item's controls what it was at first. No memory is taken.
pub(crate) fn reset_parts(layout: &Layout, parts: &mut [ControlState])
    requires { FitsShown (items_of layout.now) parts.old }
    ensures blank { parts.new ≡ blank_parts (items_of layout.now) }
    ensures layout { IsLayout layout.now }
{
    for i in 0..item_count(layout) {
        reset_part(layout, i, &mut parts[i]);
    }
}

/// Makes what a view keeps of each item's controls what it was at first. No memory is taken.
pub fn reset_states(layout: &Layout, states: &mut [ControlState])
    requires { FitsView (items_of layout.now) states.old }
    ensures { states.new ≡ blank (items_of layout.now) }
{
    for i in 0..item_count(layout) {
        reset_state(layout, i, &mut states[i]);
    }
}
