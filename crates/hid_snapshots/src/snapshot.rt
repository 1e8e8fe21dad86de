//! Snapshots of a device's controls.

ghost use Rattle.std.specs.Prelude.{◌≡◌, true, length, IfOk};
ghost use Rattle.hid_layout.specs.Controls.{items_of};
ghost use Rattle.hid_snapshots.specs.ExactCapacity.{IsFull};
ghost use Rattle.hid_snapshots.specs.ControlStates.{is_i32, FitsSnapshot, FitsShown, blank};
ghost use Rattle.hid_snapshots.specs.Parts.{IsInput, is_changed, shown_parts, still_parts, without_part_motion, has_zeros};
ghost use Rattle.hid_snapshots.specs.Snapshots.{is_pressed, motion_in, with_pressed, with_value, with_motion, is_full, can_hold, has_direction, target, state_at, Changes, ChangesState, HasIndex};
ghost use Rattle.hid_snapshots.specs.Keys.{keys_at, has_keys_at, key_words, AreKeyWords};

use crate::blank::blank_states;
use crate::change::Change;
use crate::control_state::ControlState;
use crate::fault::{ChangeFault, MemoryFault};
use crate::keys::key_words;
use crate::parts::{is_changed, show_states, show_still, take_states};
use crate::shown::Shown;
use hid_layout::{ControlId, ControlKind, Controls, Layout};
use std::alloc::Global;
use std::marker::Model;

/// Whether the switch at an index is pressed; false for a state without switches.
fn is_pressed(state: &ControlState, index: usize) -> bool
    requires { HasIndex state.now index }
    ensures { result ≡ is_pressed state.now index }
{
    match state {
        ControlState::Switches(flags) => flags.get(index),
        ControlState::Absent
        | ControlState::Values(_)
        | ControlState::Motions(_)
        | ControlState::RollOver(_) => false,
    }
}

/// Sets the switch at an index; a state without switches stays.
fn set_pressed(state: &mut ControlState, index: usize, pressed: bool)
    requires { HasIndex state.old index }
    ensures { state.new ≡ with_pressed state.old index pressed }
{
    match state {
        ControlState::Switches(flags) => flags.set(index, pressed),
        ControlState::Absent
        | ControlState::Values(_)
        | ControlState::Motions(_)
        | ControlState::RollOver(_) => {}
    }
}

/// Sets the value at an index; a state without values stays.
fn set_value(state: &mut ControlState, index: usize, value: Option<i64>)
    requires { HasIndex state.old index }
    ensures { state.new ≡ with_value state.old index value }
{
    match state {
        ControlState::Values(values) => values.set(index, value),
        ControlState::Absent
        | ControlState::Switches(_)
        | ControlState::Motions(_)
        | ControlState::RollOver(_) => {}
    }
}

/// The motion at an index; 0 for a state without motions.
fn motion(state: &ControlState, index: usize) -> i64
    requires { HasIndex state.now index }
    ensures { result ≡ motion_in state.now index }
{
    match state {
        ControlState::Motions(motions) => motions.get(index),
        ControlState::Absent
        | ControlState::Switches(_)
        | ControlState::Values(_)
        | ControlState::RollOver(_) => 0,
    }
}

/// Sets the motion at an index; a state without motions stays.
#[tactic(auto, using(crate::proofs::ListLemmas::kept))]
fn set_motion(state: &mut ControlState, index: usize, amount: i64)
    requires { HasIndex state.old index }
    ensures { state.new ≡ with_motion state.old index amount }
{
    match state {
        ControlState::Motions(motions) => motions.set(index, amount),
        ControlState::Absent
        | ControlState::Switches(_)
        | ControlState::Values(_)
        | ControlState::RollOver(_) => {}
    }
}

/// Whether no further key can be pressed.
fn is_full(controls: &Controls, state: &ControlState) -> bool
    ensures { result ≡ is_full controls.now state.now }
{
    match (controls, state) {
        (
            Controls::Keys {
                elements,
                rolls_over,
                ..
            },
            ControlState::Switches(flags),
        ) => { !*rolls_over && *elements <= flags.count() }
        (
            Controls::Keys {
                elements,
                rolls_over,
                ..
            },
            _,
        ) => !*rolls_over && *elements == 0,
        (Controls::None | Controls::Elements { .. }, _) => false,
    }
}

/// Whether the value is in the range of the controls.
fn can_hold(controls: &Controls, value: i64) -> bool
    ensures { result ≡ can_hold controls.now value }
{
    match controls {
        Controls::Elements {
            least,
            greatest,
            ..
        } => *least <= value && value <= *greatest,
        Controls::None | Controls::Keys { .. } => false,
    }
}

/// Whether the controls can report motion in the direction of this amount.
fn has_direction(controls: &Controls, by: i64) -> bool
    ensures { result ≡ has_direction controls.now by }
{
    match controls {
        Controls::Elements {
            least,
            greatest,
            ..
        } => { by == 0 || (0 < by && 0 < *greatest) || (by < 0 && *least < 0) }
        Controls::None | Controls::Keys { .. } => false,
    }
}

/// Presses a switch or a key, unless its array is full.
fn press(
    state: &mut ControlState,
    controls: &Controls,
    control: ControlId,
) -> Result<(), ChangeFault>
    requires { HasIndex state.old control.index }
    ensures { ChangesState ControlKind.Switch controls.now state.old
        (Change.Press control) result state.new }
{
    if !is_pressed(state, control.index) && is_full(controls, state) {
        return Err(ChangeFault::ArrayFull);
    }
    set_pressed(state, control.index, true);
    Ok(())
}

/// Sets a value, unless it is out of range.
fn set(
    state: &mut ControlState,
    controls: &Controls,
    control: ControlId,
    value: i64,
) -> Result<(), ChangeFault>
    requires { HasIndex state.old control.index }
    ensures value { ChangesState ControlKind.Value controls.now state.old
        (Change.Set control value) result state.new }
    ensures null_value { ChangesState ControlKind.NullValue controls.now state.old
        (Change.Set control value) result state.new }
{
    if !can_hold(controls, value) {
        return Err(ChangeFault::OutOfRange);
    }
    set_value(state, control.index, Some(value));
    Ok(())
}

/// Adds to a motion, unless the controls can't report its direction or the sum is too large.
fn shift(
    state: &mut ControlState,
    controls: &Controls,
    control: ControlId,
    by: i32,
) -> Result<(), ChangeFault>
    requires { HasIndex state.old control.index }
    ensures { ChangesState ControlKind.Relative controls.now state.old
        (Change.Move control by) result state.new }
{
    if !has_direction(controls, by as i64) {
        return Err(ChangeFault::NoDirection);
    }
    let total = motion(state, control.index).checked_add(by as i64);
    match total {
        Some(total) if is_i32(total) => {
            set_motion(state, control.index, total);
            Ok(())
        }
        _ => Err(ChangeFault::MotionFull),
    }
}

/// Whether the number fits 32 bits in two's complement.
fn is_i32(number: i64) -> bool
    ensures { result ≡ is_i32 number }
{
    i32::MIN as i64 <= number && number <= i32::MAX as i64
}

/// Changes one control, of the kind given.
fn change_state(
    state: &mut ControlState,
    kind: ControlKind,
    controls: &Controls,
    change: &Change,
) -> Result<(), ChangeFault>
    requires { HasIndex state.old (target change.now).index }
    ensures { ChangesState kind controls.now state.old change.now result state.new }
{
    match change {
        Change::Press(control) => match kind {
            ControlKind::Switch => press(state, controls, *control),
            ControlKind::Value | ControlKind::NullValue | ControlKind::Relative => {
                Err(ChangeFault::WrongKind)
            }
        },
        Change::Release(control) => match kind {
            ControlKind::Switch => {
                set_pressed(state, control.index, false);
                Ok(())
            }
            ControlKind::Value | ControlKind::NullValue | ControlKind::Relative => {
                Err(ChangeFault::WrongKind)
            }
        },
        Change::Set(control, value) => match kind {
            ControlKind::Value | ControlKind::NullValue => set(state, controls, *control, *value),
            ControlKind::Switch | ControlKind::Relative => Err(ChangeFault::WrongKind),
        },
        Change::Null(control) => match kind {
            ControlKind::Value => Err(ChangeFault::NoNull),
            ControlKind::NullValue => {
                set_value(state, control.index, None);
                Ok(())
            }
            ControlKind::Switch | ControlKind::Relative => Err(ChangeFault::WrongKind),
        },
        Change::Move(control, by) => match kind {
            ControlKind::Relative => shift(state, controls, *control, *by),
            ControlKind::Switch | ControlKind::Value | ControlKind::NullValue => {
                Err(ChangeFault::WrongKind)
            }
        },
    }
}

/// The control that a change names.
fn target(change: &Change) -> ControlId
    ensures { result ≡ target change.now }
{
    match change {
        Change::Press(control) => *control,
        Change::Release(control) => *control,
        Change::Set(control, _) => *control,
        Change::Null(control) => *control,
        Change::Move(control, _) => *control,
    }
}

/// The pressed switches of a device, a value or null of each absolute control, and of each relative control the motion
/// that isn't reported yet. Calls with a layout ask for the one with which the snapshot was made.
#[derive(Drop)]
pub struct Snapshot {
    pub(crate) states: Vec<ControlState>,
    // There is room for these control states alone.
    ghost full: { IsFull states },
}

impl Model for Snapshot {
    ghost use Rattle.std.specs.Prelude.{List};
    ghost use Rattle.hid_snapshots.specs.declared.control_state.ControlState.{ControlState};

    ghost Value = { List ControlState };

    ghost view = { λ s. s.states.items };
}

impl Snapshot {
    /// Makes the snapshot of a device whose controls nobody has touched: nothing is pressed and nothing has moved; each
    /// value is null where it has null (HID 1.11, 5.10), else 0 where 0 can be sent, else the least value that can be sent.
    ///
    /// # Errors
    /// [`MemoryFault`], U10, for lack of memory.
    #[tactic(auto, using(crate::proofs::BlankLemmas::blank_fits))]
    pub fn blank(alloc: Global, layout: &Layout) -> Result<Self, MemoryFault>
        ensures blank { IfOk result (λ snapshot. snapshot ≡ blank (items_of layout.now)) }
        ensures fits { IfOk result (λ snapshot. FitsSnapshot (items_of layout.now) snapshot) }
    {
        match blank_states(alloc, layout) {
            Ok(states) => Ok(Snapshot { states }),
            Err(_) => Err(MemoryFault),
        }
    }

    /// Presses a switch, or a key of an array; one that is pressed stays so.
    ///
    /// # Errors
    /// The first of these that stands, which leaves the snapshot as it was: [`ChangeFault::NoSuchControl`] (U1) where the
    /// layout has no such control, [`ChangeFault::WrongKind`] (U2) where it isn't a switch, [`ChangeFault::ArrayFull`] (U7)
    /// where every element of its array is taken and the array has no code to report that more keys are pressed.
    pub fn press(&mut self, layout: &Layout, control: ControlId) -> Result<(), ChangeFault>
        requires { FitsSnapshot (items_of layout.now) self.old }
        ensures changes { Changes (items_of layout.now) self.old
            (Change.Press control) result self.new }
        ensures fits { FitsSnapshot (items_of layout.now) self.new }
    {
        self.change(layout, &Change::Press(control))
    }

    /// Releases a switch, or a key of an array; one that isn't pressed stays so.
    ///
    /// # Errors
    /// The first of these that stands, which leaves the snapshot as it was: [`ChangeFault::NoSuchControl`] (U1) where the
    /// layout has no such control, [`ChangeFault::WrongKind`] (U2) where it isn't a switch.
    pub fn release(&mut self, layout: &Layout, control: ControlId) -> Result<(), ChangeFault>
        requires { FitsSnapshot (items_of layout.now) self.old }
        ensures changes { Changes (items_of layout.now) self.old
            (Change.Release control) result self.new }
        ensures fits { FitsSnapshot (items_of layout.now) self.new }
    {
        self.change(layout, &Change::Release(control))
    }

    /// Sets an absolute value, in the units of its item.
    ///
    /// # Errors
    /// The first of these that stands, which leaves the snapshot as it was: [`ChangeFault::NoSuchControl`] (U1) where the
    /// layout has no such control, [`ChangeFault::WrongKind`] (U2) where it has no value, [`ChangeFault::OutOfRange`] (U3)
    /// where the value is out of the logical range, or no pattern of the element stands for it (HID 1.11, 5.8).
    pub fn set(
        &mut self,
        layout: &Layout,
        control: ControlId,
        value: i64,
    ) -> Result<(), ChangeFault>
        requires { FitsSnapshot (items_of layout.now) self.old }
        ensures changes { Changes (items_of layout.now) self.old
            (Change.Set control value) result self.new }
        ensures fits { FitsSnapshot (items_of layout.now) self.new }
    {
        self.change(layout, &Change::Set(control, value))
    }

    /// Sets a value to null (HID 1.11, 5.10).
    ///
    /// # Errors
    /// The first of these that stands, which leaves the snapshot as it was: [`ChangeFault::NoSuchControl`] (U1) where the
    /// layout has no such control, [`ChangeFault::WrongKind`] (U2) where it has no value, [`ChangeFault::NoNull`] (U4) where
    /// its value has no null.
    pub fn set_null(&mut self, layout: &Layout, control: ControlId) -> Result<(), ChangeFault>
        requires { FitsSnapshot (items_of layout.now) self.old }
        ensures changes { Changes (items_of layout.now) self.old
            (Change.Null control) result self.new }
        ensures fits { FitsSnapshot (items_of layout.now) self.new }
    {
        self.change(layout, &Change::Null(control))
    }

    /// Moves a relative control by an amount in the units of its item, which is added to the motion that isn't reported yet.
    ///
    /// # Errors
    /// The first of these that stands, which leaves the snapshot as it was: [`ChangeFault::NoSuchControl`] (U1) where the
    /// layout has no such control, [`ChangeFault::WrongKind`] (U2) where it isn't relative, [`ChangeFault::NoDirection`]
    /// (U5) where no number that its element can send has the sign of the amount, [`ChangeFault::MotionFull`] (U6) where
    /// the sum is no `i32`.
    pub fn shift(&mut self, layout: &Layout, control: ControlId, by: i32) -> Result<(), ChangeFault>
        requires { FitsSnapshot (items_of layout.now) self.old }
        ensures changes { Changes (items_of layout.now) self.old
            (Change.Move control by) result self.new }
        ensures fits { FitsSnapshot (items_of layout.now) self.new }
    {
        self.change(layout, &Change::Move(control, by))
    }

    /// Whether the controls of an Input report call for it: something has moved, or the still part isn't the one of
    /// `last`, the parts that were fixed last.
    pub fn due(&self, layout: &Layout, report: usize, last: &Shown) -> bool
        requires input { IsInput layout.now report }
        requires fits { FitsSnapshot (items_of layout.now) self.now }
        requires last { FitsShown (items_of layout.now) last.now }
        ensures { result ≡ is_changed (items_of layout.now) report self.now last.now }
    {
        is_changed(layout, report, &self.states, &last.states)
    }

    /// Sets the part of an Input report to what it shows of the snapshot; the parts of the others stay.
    pub fn shown(&self, layout: &Layout, report: usize, parts: &mut Shown)
        requires input { IsInput layout.now report }
        requires fits { FitsSnapshot (items_of layout.now) self.now }
        requires room { FitsShown (items_of layout.now) parts.old }
        ensures shown { parts.new ≡ shown_parts (items_of layout.now) report self.now parts.old }
        ensures part { parts.new ≡ shown_parts (items_of layout.now) report self.now parts.new }
        ensures fits { FitsShown (items_of layout.now) parts.new }
    {
        show_states(layout, report, &self.states, &mut parts.states);
    }

    /// Sets the part of an Input report to its still part: what it shows of the snapshot, with every motion 0. The
    /// parts of the others stay.
    pub fn still(&self, layout: &Layout, report: usize, parts: &mut Shown)
        requires input { IsInput layout.now report }
        requires zeros { has_zeros (items_of layout.now) ≡ true }
        requires fits { FitsSnapshot (items_of layout.now) self.now }
        requires room { FitsShown (items_of layout.now) parts.old }
        ensures still { parts.new ≡ still_parts (items_of layout.now) report self.now parts.old }
        ensures fits { FitsShown (items_of layout.now) parts.new }
    {
        show_still(layout, report, &self.states, &mut parts.states);
    }

    /// Takes the motion that the part of an Input report carries out of the snapshot. The part is the one that the
    /// report shows of it.
    pub fn take_motion(&mut self, layout: &Layout, report: usize, part: &Shown)
        requires input { IsInput layout.now report }
        requires zeros { has_zeros (items_of layout.now) ≡ true }
        requires fits { FitsSnapshot (items_of layout.now) self.old }
        requires part_fits { FitsShown (items_of layout.now) part.now }
        requires part { part.now ≡ shown_parts (items_of layout.now) report self.old part.now }
        ensures taken { self.new
            ≡ without_part_motion (items_of layout.now) report self.old part.now }
        ensures fits { FitsSnapshot (items_of layout.now) self.new }
    {
        take_states(layout, report, &mut self.states, &part.states);
    }

    /// The pressed keys of an Input array, by place in its usage list: bit i mod 64 of word i div 64 is 1 exactly where
    /// the key at place i is pressed.
    #[tactic(auto, using(crate::proofs::KeyWordLemmas::snapshot_words))]
    pub fn key_words(&self, layout: &Layout, item: usize) -> &[u64]
        requires fits { FitsSnapshot (items_of layout.now) self.now }
        requires array { has_keys_at (items_of layout.now) item ≡ true }
        ensures words { result.now ≡ key_words self.now item }
        ensures keys { AreKeyWords (length (keys_at layout.now item))
            (is_pressed (state_at self.now item)) result.now }
    {
        key_words(&self.states, item)
    }

    /// Makes a change, unless it is refused.
    fn change(&mut self, layout: &Layout, change: &Change) -> Result<(), ChangeFault>
        requires { FitsSnapshot (items_of layout.now) self.old }
        ensures changes { Changes (items_of layout.now) self.old change.now result self.new }
        ensures fits { FitsSnapshot (items_of layout.now) self.new }
    {
        let id = target(change);
        let Some(control) = layout.control(id) else {
            return Err(ChangeFault::NoSuchControl);
        };
        let controls = layout.controls(id.item);
        change_state(&mut self.states[id.item], control.kind, &controls, change)
    }
}
