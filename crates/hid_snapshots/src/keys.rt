//! The pressed and held keys of an array, as words.

ghost use Rattle.std.specs.Prelude.{◌≡◌};
ghost use Rattle.hid_layout.specs.Controls.{items_of};
ghost use Rattle.hid_snapshots.specs.Keys.{has_keys_at, is_array_head, key_words, pressed_places};
ghost use Rattle.hid_snapshots.specs.Words.{switch_words};

use crate::control_state::ControlState;
use crate::items::item_count;
use crate::parts::state_at;
use hid_layout::{Controls, Layout};

/// Whether a listed item is an Input array, which `key_words` of a snapshot and of a view requires.
#[tactic(auto, using(crate::proofs::KeyWordLemmas::keys_found))]
pub fn has_keys(layout: &Layout, item: usize) -> bool
    ensures { result ≡ has_keys_at (items_of layout.now) item }
{
    if item < item_count(layout) {
        is_array(&layout.controls(item))
    } else {
        false
    }
}

/// Whether the controls are the keys of an array.
fn is_array(controls: &Controls) -> bool
    ensures { result ≡ is_array_head controls.now }
{
    match controls {
        Controls::Keys { .. } => true,
        Controls::None | Controls::Elements { .. } => false,
    }
}

/// The words of what is pressed at a listed item: bit i mod 64 of word i div 64 is 1 exactly where place i is pressed.
/// There is none for an item without switches and keys.
#[tactic(auto, using(crate::proofs::KeyWordLemmas::words_found))]
pub fn key_words(states: &[ControlState], item: usize) -> &[u64]
    ensures { result.now ≡ key_words states.now item }
{
    if item < states.len() {
        pressed_words(state_at(states, item))
    } else {
        &[]
    }
}

/// The words of the flags of a state's switches; none for another state.
#[tactic(auto, using(crate::proofs::KeyWordLemmas::words_found))]
fn pressed_words(state: &ControlState) -> &[u64]
    ensures { result.now ≡ switch_words (pressed_places state.now) }
{
    match state {
        ControlState::Switches(flags) => flags.words(),
        ControlState::Absent
        | ControlState::Values(_)
        | ControlState::Motions(_)
        | ControlState::RollOver(_) => &[],
    }
}
