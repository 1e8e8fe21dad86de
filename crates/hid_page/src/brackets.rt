//! The brackets of a report.

ghost use Rattle.std.specs.Prelude.{◌≡◌, IfOk};
ghost use Rattle.hid_drawing.specs.Brackets.{brackets_of};

use hid_drawing::{Bracket, Drawn};
use hid_items::Item;
use hid_layout::Layout;
use std::alloc::{AllocError, Global};

/// The brackets of the report r, for a layout with the items of its descriptor and the places of its main items.
///
/// # Errors
/// Out of memory.
pub fn brackets_in(
    alloc: Global,
    layout: &Layout,
    items: &[Item],
    mains: &[usize],
    r: usize,
) -> Result<Vec<Bracket>, AllocError>
    ensures { IfOk result (λ brackets. brackets.items
        ≡ brackets_of layout.now items.now mains.now r) }
{
    let drawn = Drawn {
        layout,
        items,
        mains,
        report: r,
    };
    drawn.brackets(alloc)
}
