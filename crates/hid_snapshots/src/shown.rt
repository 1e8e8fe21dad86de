//! What the reports of a device show of its controls.

ghost use Rattle.std.specs.Prelude.{◌≡◌, IfOk};
ghost use Rattle.hid_layout.specs.Controls.{items_of};
ghost use Rattle.hid_snapshots.specs.ExactCapacity.{IsFull};
ghost use Rattle.hid_snapshots.specs.ControlStates.{FitsShown};
ghost use Rattle.hid_snapshots.specs.Parts.{blank_parts, motion_of};

use crate::blank::blank_parts;
use crate::blank_in_place::reset_parts;
use crate::control_state::ControlState;
use crate::fault::MemoryFault;
use hid_layout::{ControlId, Layout};
use std::alloc::Global;
use std::marker::Model;

/// One part for each Input report: its pressed switches, its values, its motions as far as its elements can carry them,
/// and of an array with more pressed keys than elements that it rolled over.
#[derive(Drop)]
pub struct Shown {
    pub(crate) states: Vec<ControlState>,
    // There is room for these control states alone.
    ghost full: { IsFull states },
}

impl Model for Shown {
    ghost use Rattle.std.specs.Prelude.{List};
    ghost use Rattle.hid_snapshots.specs.declared.control_state.ControlState.{ControlState};

    ghost Value = { List ControlState };

    ghost view = { λ s. s.states.items };
}

impl Shown {
    /// The parts of a blank snapshot.
    ///
    /// # Errors
    /// [`MemoryFault`], U10, for lack of memory.
    #[tactic(auto, using(crate::proofs::ShownLemmas::blank_parts_fit))]
    pub fn blank(alloc: Global, layout: &Layout) -> Result<Self, MemoryFault>
        ensures blank { IfOk result (λ shown. shown ≡ blank_parts (items_of layout.now)) }
        ensures fits { IfOk result (λ shown. FitsShown (items_of layout.now) shown) }
    {
        match blank_parts(alloc, layout) {
            Ok(states) => Ok(Shown { states }),
            Err(_) => Err(MemoryFault),
        }
    }

    /// Makes the parts those of a blank snapshot once more. No memory is taken.
    pub fn reset(&mut self, layout: &Layout)
        requires { FitsShown (items_of layout.now) self.old }
        ensures blank { self.new ≡ blank_parts (items_of layout.now) }
        ensures fits { FitsShown (items_of layout.now) self.new }
    {
        reset_parts(layout, &mut self.states);
    }

    /// The motion of a relative control in its report's part; 0 for another kind.
    pub fn motion(&self, control: ControlId) -> i64
        ensures { result ≡ motion_of self.now control }
    {
        match self.states.get(control.item) {
            Some(ControlState::Motions(motions)) => motions.get_or_zero(control.index),
            _ => 0,
        }
    }
}
