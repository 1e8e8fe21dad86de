//! What brackets are called.

ghost use Rattle.std.specs.Prelude.{◌≡◌, ◌++◌, ◌-◌, slice_get, OnOk, string_bytes};
ghost use Rattle.hid_drawing.specs.BracketNames.{level_name, bracket_name};

use crate::brackets::Bracket;
use crate::captions::print_collection;
use hid_layout::{Collection, Layout};
use std::alloc::AllocError;

/// Adds the collection at a level of a path, where there is one.
fn print_level(text: &mut String, path: &[Collection], level: usize) -> Result<(), AllocError>
    ensures { OnOk result (string_bytes text.new
        ≡ string_bytes text.old ++ level_name (slice_get path.now (level - 1))) }
{
    let k = level.saturating_sub(1);
    if k >= path.len() {
        return Ok(());
    }
    print_collection(text, &path[k])
}

/// Adds what a bracket is called.
///
/// # Errors
/// Out of memory; part of the text may be added then.
#[tactic(auto, unfolding(crate::specs::BracketNames::bracket_name))]
pub fn print_bracket_name(
    text: &mut String,
    layout: &Layout,
    bracket: &Bracket,
) -> Result<(), AllocError>
    ensures { OnOk result (string_bytes text.new
        ≡ string_bytes text.old ++ bracket_name layout.now bracket.now) }
{
    if bracket.item >= layout.items().len() {
        return Ok(());
    }
    print_level(text, layout.path(bracket.item), bracket.level)
}
