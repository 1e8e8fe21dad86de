//! What a report shows of what is kept, and when its controls call for it.

ghost use Rattle.std.specs.Prelude.{◌≡◌, ◌<◌, IsTrue, true, length, slice_get, Some};
ghost use Rattle.hid_layout.specs.Controls.{controls_of_form, form_at, items_of};
ghost use Rattle.hid_layout.specs.Reports.{IsLayout};
ghost use Rattle.hid_snapshots.specs.ControlStates.{FitsSnapshot, FitsShown};
ghost use Rattle.hid_snapshots.specs.Parts.{item_at, IsInput, is_of, shown_state, rolled_state, shown_parts, by_item, minus_motion, without_part_motion, has_motion, is_changed, has_zero, has_zeros, HasRoomOf, AreMotions, still_parts, without_motion, part_shown, without_motion_of, calls_for, is_shown};

use crate::blank_in_place::reset_motions;
use crate::control_state::ControlState;
use crate::flags::Flags;
use crate::items::{is_of, item_at as main_item_at, item_count, plan_of};
use hid_layout::{ControlKind, Controls, Layout, Shape};
use std::mem;

/// Puts pressed places in the room of an array that had rolled over.
#[inline(never)] // it is rare, and moves the control state
fn copy_to_rolled(from: &Flags, to: &mut ControlState)
    requires { HasRoomOf (ControlState.Switches from.now) to.old }
    ensures { to.new ≡ ControlState.Switches from.now }
{
    *to = match mem::replace(to, ControlState::Absent) {
        ControlState::Switches(mut flags) | ControlState::RollOver(mut flags) => {
            flags.copy_from(from);
            ControlState::Switches(flags)
        }
        other => other,
    };
}

/// Makes the part one of switches with these flags.
fn copy_flags(from: &Flags, to: &mut ControlState)
    requires { HasRoomOf (ControlState.Switches from.now) to.old }
    ensures { to.new ≡ ControlState.Switches from.now }
{
    match to {
        ControlState::Switches(flags) => flags.copy_from(from),
        ControlState::Absent
        | ControlState::Values(_)
        | ControlState::Motions(_)
        | ControlState::RollOver(_) => {
            copy_to_rolled(from, to);
        }
    }
}

/// Copies a state of a snapshot to a part.
fn copy_state(from: &ControlState, to: &mut ControlState)
    requires { HasRoomOf from.now to.old }
    ensures { to.new ≡ from.now }
{
    match from {
        ControlState::Switches(flags) => copy_flags(flags, to),
        ControlState::Values(values) => {
            if let ControlState::Values(room) = to {
                room.copy_from(values);
            }
        }
        ControlState::Motions(motions) => {
            if let ControlState::Motions(room) = to {
                room.copy_from(motions);
            }
        }
        ControlState::Absent | ControlState::RollOver(_) => {}
    }
}

/// An array with more pressed keys than elements shows that it rolled over.
fn roll_over(state: &mut ControlState, elements: usize)
    ensures { state.new ≡ rolled_state elements state.old }
{
    let rolls = match state {
        ControlState::Switches(flags) => elements < flags.count(),
        ControlState::Absent
        | ControlState::Values(_)
        | ControlState::Motions(_)
        | ControlState::RollOver(_) => false,
    };
    if rolls {
        *state = match mem::replace(state, ControlState::Absent) {
            ControlState::Switches(flags) => ControlState::RollOver(flags),
            other => other,
        };
    }
}

/// Makes a control state what its report shows of it.
pub(crate) fn show_state(state: &mut ControlState, controls: &Controls)
    ensures { state.new ≡ shown_state controls.now state.old }
{
    match controls {
        Controls::None => {}
        Controls::Elements {
            least,
            greatest,
            ..
        } => {
            if let ControlState::Motions(motions) = state {
                motions.clamp(least, greatest);
            }
        }
        Controls::Keys { elements, .. } => roll_over(state, *elements),
    }
}

/// Takes the motion that a part carries out of what is kept.
fn take_motion(state: &mut ControlState, part: &ControlState)
    requires room { HasRoomOf state.old part.now }
    requires amounts { AreMotions state.old }
    requires others { AreMotions part.now }
    ensures { state.new ≡ minus_motion state.old part.now }
{
    if let ControlState::Motions(motions) = state {
        if let ControlState::Motions(others) = part {
            motions.subtract(others);
        }
    }
}

/// Whether any control of the state has moved.
fn has_motion(state: &ControlState) -> bool
    ensures { result ≡ has_motion state.now }
{
    match state {
        ControlState::Motions(motions) => motions.any(),
        ControlState::Absent
        | ControlState::Switches(_)
        | ControlState::Values(_)
        | ControlState::RollOver(_) => false,
    }
}

/// Whether a part is still what its report shows of a control state, motion aside.
fn is_shown(state: &ControlState, controls: &Controls, part: &ControlState) -> bool
    ensures { result ≡ is_shown state.now controls.now part.now }
{
    match state {
        ControlState::Switches(flags) => is_shown_flags(flags, controls, part),
        ControlState::Values(values) => match part {
            ControlState::Values(others) => values.is_same(others),
            ControlState::Absent
            | ControlState::Switches(_)
            | ControlState::Motions(_)
            | ControlState::RollOver(_) => false,
        },
        ControlState::Motions(_) => matches!(part, ControlState::Motions(_)),
        ControlState::Absent => matches!(part, ControlState::Absent),
        ControlState::RollOver(_) => matches!(part, ControlState::RollOver(_)),
    }
}

/// Whether the part still shows switches with these flags.
fn is_shown_flags(flags: &Flags, controls: &Controls, part: &ControlState) -> bool
    ensures { result ≡ is_shown (ControlState.Switches flags.now) controls.now part.now }
{
    let rolls = match controls {
        Controls::Keys { elements, .. } => *elements < flags.count(),
        Controls::None | Controls::Elements { .. } => false,
    };
    match part {
        ControlState::Switches(others) => !rolls && flags.is_same(others),
        ControlState::RollOver(_) => rolls,
        ControlState::Absent | ControlState::Values(_) | ControlState::Motions(_) => false,
    }
}

/// Whether the controls can report that nothing has moved.
fn has_zero(controls: &Controls) -> bool
    ensures { result ≡ has_zero controls.now }
{
    match controls {
        Controls::Elements {
            kind: ControlKind::Relative,
            least,
            greatest,
            ..
        } => *least <= 0 && 0 <= *greatest,
        Controls::None | Controls::Elements { .. } | Controls::Keys { .. } => true,
    }
}

/// What is kept of the listed item at a place.
pub fn state_at(states: &[ControlState], i: usize) -> &ControlState
    requires { i < length states.now }
    ensures { slice_get states.now i ≡ Some result.now }
{
    &states[i]
}

/// Makes every motion of a part 0.
fn stop(part: &mut ControlState)
    ensures { part.new ≡ without_motion part.old }
{
    if let ControlState::Motions(motions) = part {
        reset_motions(motions);
    }
}

/// The controls of an item, where what is shown of a control state depends on them: motions by their limits, and keys by their number.
fn controls_for(layout: &Layout, i: usize, state: &ControlState) -> Controls
    requires { i < length layout.now.items }
    ensures { shown_state result state.now
        ≡ shown_state (controls_of_form (form_at (items_of layout.now) i)) state.now }
{
    match state {
        ControlState::Motions(_) => layout.controls(i),
        ControlState::Switches(_) => match main_item_at(layout, i).shape {
            Shape::Array => layout.controls(i),
            Shape::Variable | Shape::Padding => Controls::None,
        },
        ControlState::Absent | ControlState::Values(_) | ControlState::RollOver(_) =>
            Controls::None,
    }
}

/// Makes the part of an item what a report shows of it, or the still part of that, where the item stands in it.
fn show_item(
    layout: &Layout,
    i: usize,
    report: usize,
    state: &ControlState,
    part: &mut ControlState,
    still: bool,
)
    requires listed { i < length layout.now.items }
    requires input { IsInput layout.now report }
    requires room { HasRoomOf state.now part.old }
    ensures { part.new ≡ part_shown still report (item_at (items_of layout.now) i)
        state.now part.old }
{
    if is_of(layout, i, report) {
        copy_state(state, part);
        show_state(part, &controls_for(layout, i, state));
        if still {
            stop(part);
        }
    }
}

/// Makes the part of a report what it shows of these control states, or the still part of that.
fn show_each(
    layout: &Layout,
    report: usize,
    states: &[ControlState],
    parts: &mut [ControlState],
    still: bool,
)
    requires input { IsInput layout.now report }
    requires states { FitsSnapshot (items_of layout.now) states.now }
    requires parts { FitsShown (items_of layout.now) parts.old }
    ensures shown { parts.new
        ≡ by_item (part_shown still report) (items_of layout.now) states.now parts.old }
    ensures layout { IsLayout layout.now }
{
    for place in plan_of(layout, report) {
        let i = *place;
        show_item(layout, i, report, state_at(states, i), &mut parts[i], still);
    }
}

/// Makes the part of a report what it shows of these control states.
pub(crate) fn show_states(
    layout: &Layout,
    report: usize,
    states: &[ControlState],
    parts: &mut [ControlState],
)
    requires input { IsInput layout.now report }
    requires states { FitsSnapshot (items_of layout.now) states.now }
    requires parts { FitsShown (items_of layout.now) parts.old }
    ensures shown { parts.new ≡ shown_parts (items_of layout.now) report states.now parts.old }
    ensures layout { IsLayout layout.now }
{
    show_each(layout, report, states, parts, false);
}

/// Makes the part of a report its still part of these control states: what it shows of them, with every motion 0.
pub(crate) fn show_still(
    layout: &Layout,
    report: usize,
    states: &[ControlState],
    parts: &mut [ControlState],
)
    requires input { IsInput layout.now report }
    requires states { FitsSnapshot (items_of layout.now) states.now }
    requires parts { FitsShown (items_of layout.now) parts.old }
    ensures still { parts.new ≡ still_parts (items_of layout.now) report states.now parts.old }
    ensures layout { IsLayout layout.now }
{
    show_each(layout, report, states, parts, true);
}

/// Takes the motion that the part of an item carries out of its control state, where the item stands in the report.
fn take_item(
    layout: &Layout,
    i: usize,
    report: usize,
    state: &mut ControlState,
    part: &ControlState,
)
    requires listed { i < length layout.now.items }
    requires input { IsInput layout.now report }
    requires room { HasRoomOf state.old part.now }
    requires amounts { AreMotions state.old }
    requires others { IsTrue (is_of report (item_at (items_of layout.now) i))
        → AreMotions part.now }
    ensures { state.new
        ≡ without_motion_of report (item_at (items_of layout.now) i) state.old part.now }
{
    if is_of(layout, i, report) {
        take_motion(state, part);
    }
}

/// Whether the control state of an item calls for the report.
fn calls_for(
    layout: &Layout,
    i: usize,
    report: usize,
    state: &ControlState,
    part: &ControlState,
) -> bool
    requires listed { i < length layout.now.items }
    requires input { IsInput layout.now report }
    ensures { result ≡ calls_for report (item_at (items_of layout.now) i) state.now part.now }
{
    is_of(layout, i, report)
        && (has_motion(state) || !is_shown(state, &controls_for(layout, i, state), part))
}

/// Takes the motion that the part of a report carries out of these control states.
pub(crate) fn take_states(
    layout: &Layout,
    report: usize,
    states: &mut [ControlState],
    parts: &[ControlState],
)
    requires input { IsInput layout.now report }
    requires zeros { has_zeros (items_of layout.now) ≡ true }
    requires states { FitsSnapshot (items_of layout.now) states.old }
    requires parts { FitsShown (items_of layout.now) parts.now }
    requires part { parts.now ≡ shown_parts (items_of layout.now) report states.old parts.now }
    ensures { states.new ≡ without_part_motion (items_of layout.now) report states.old parts.now }
{
    for place in plan_of(layout, report) {
        let i = *place;
        take_item(layout, i, report, &mut states[i], state_at(parts, i));
    }
}

/// Whether some of these control states calls for the report.
pub(crate) fn is_changed(
    layout: &Layout,
    report: usize,
    states: &[ControlState],
    parts: &[ControlState],
) -> bool
    requires input { IsInput layout.now report }
    requires states { length states.now ≡ length (items_of layout.now) }
    requires parts { length parts.now ≡ length (items_of layout.now) }
    ensures { result ≡ is_changed (items_of layout.now) report states.now parts.now }
{
    for place in plan_of(layout, report) {
        let i = *place;
        if calls_for(layout, i, report, state_at(states, i), state_at(parts, i)) {
            return true;
        }
    }
    false
}

/// Whether every relative control can send 0: the condition on which motion that a field can't carry is kept for later.
pub fn has_zeros(layout: &Layout) -> bool
    ensures { result ≡ has_zeros (items_of layout.now) }
{
    for i in 0..item_count(layout) {
        if !has_zero(&layout.controls(i)) {
            return false;
        }
    }
    true
}
