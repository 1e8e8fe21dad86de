//! What is kept of the controls at first.

ghost use Rattle.std.specs.Prelude.{◌≡◌, IfOk};
ghost use Rattle.hid_layout.specs.Controls.{items_of};
ghost use Rattle.hid_layout.specs.Reports.{IsLayout};
ghost use Rattle.hid_snapshots.specs.ExactCapacity.{IsFull};
ghost use Rattle.hid_snapshots.specs.ControlStates.{FitsView, blank, blank_state, first_value};
ghost use Rattle.hid_snapshots.specs.Parts.{shown_state, blank_parts};

use crate::control_state::{ControlState, Motions, Values};
use crate::flags::Flags;
use crate::items::item_count;
use crate::parts::show_state;
use hid_layout::{ControlKind, Controls, Layout};
use std::alloc::{AllocError, Global};

/// What a value of an element is at first.
pub fn first_value(kind: ControlKind, least: &i64, greatest: &i64) -> Option<i64>
    ensures { result ≡ first_value kind least.now greatest.now }
{
    match kind {
        ControlKind::NullValue => None,
        ControlKind::Switch | ControlKind::Value | ControlKind::Relative => {
            if *least <= 0 && 0 <= *greatest {
                Some(0)
            } else {
                Some(*least)
            }
        }
    }
}

/// What is kept of an item's controls at first.
///
/// # Errors
/// Out of memory.
#[inline(always)] // it stands where its caller wants it
pub(crate) fn blank_state(alloc: Global, controls: &Controls) -> Result<ControlState, AllocError>
    ensures { IfOk result (λ state. state ≡ blank_state controls.now) }
{
    match controls {
        Controls::None => Ok(ControlState::Absent),
        Controls::Elements {
            kind,
            least,
            greatest,
            count,
        } => match kind {
            ControlKind::Switch => Ok(ControlState::Switches(Flags::clear(alloc, *count)?)),
            ControlKind::Value | ControlKind::NullValue => {
                let value = first_value(*kind, least, greatest);
                Ok(ControlState::Values(Values::new(alloc, *count, value)?))
            }
            ControlKind::Relative => Ok(ControlState::Motions(Motions::new(alloc, *count)?)),
        },
        Controls::Keys { count, .. } => Ok(ControlState::Switches(Flags::clear(alloc, *count)?)),
    }
}

/// What is kept of each item's controls at first.
///
/// # Errors
/// Out of memory.
pub fn blank_states(alloc: Global, layout: &Layout) -> Result<Vec<ControlState>, AllocError>
    ensures blank { IfOk result (λ states. states.items ≡ blank (items_of layout.now)) }
    ensures fits { IfOk result (λ states. FitsView (items_of layout.now) states.items) }
    ensures full { IfOk result (λ states. IsFull states) }
    ensures layout { IsLayout layout.now }
{
    let count = item_count(layout);
    let mut states = Vec::with_capacity(alloc, count)?;
    for i in 0..count {
        let controls = layout.controls(i);
        states.push_reserved(blank_state(alloc, &controls)?);
    }
    Ok(states)
}

/// What is shown of an item's controls at first.
fn blank_part(alloc: Global, controls: &Controls) -> Result<ControlState, AllocError>
    ensures { IfOk result (λ state. state ≡ shown_state controls.now (blank_state controls.now)) }
{
    let mut state = blank_state(alloc, controls)?;
    show_state(&mut state, controls);
    Ok(state)
}

/// What is shown of each item's controls at first.
///
/// # Errors
/// Out of memory.
pub(crate) fn blank_parts(alloc: Global, layout: &Layout) -> Result<Vec<ControlState>, AllocError>
    ensures blank { IfOk result (λ states. states.items ≡ blank_parts (items_of layout.now)) }
    ensures full { IfOk result (λ states. IsFull states) }
    ensures layout { IsLayout layout.now }
{
    let count = item_count(layout);
    let mut states = Vec::with_capacity(alloc, count)?;
    for i in 0..count {
        let controls = layout.controls(i);
        states.push_reserved(blank_part(alloc, &controls)?);
    }
    Ok(states)
}
