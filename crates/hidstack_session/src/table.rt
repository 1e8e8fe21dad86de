//! All elements of a layout as a table of records.

ghost use Rattle.std.specs.Prelude.{◌≡◌, ◌≤◌, ◌++◌, length, drop, OnOk, IfOk};
ghost use Rattle.hidstack_session.specs.Tables.{one_or_none, elements_below, elements_of_item, elements_of};
ghost use Rattle.hidstack_session.specs.Elements.{element_at};

use crate::element::{HidElement, element_at};
use hid_layout::Layout;
use std::alloc::{AllocError, Global};

/// Adds the record of the element at a place of a listed item, where it has one.
fn list_element(
    table: &mut Vec<HidElement>,
    layout: &Layout,
    item: usize,
    j: usize,
) -> Result<(), AllocError>
    ensures { OnOk result (table.new.items
        ≡ table.old.items ++ one_or_none (element_at layout.now item j)) }
{
    if let Some(element) = element_at(layout, item, j) {
        table.push(element)?;
    }
    Ok(())
}

/// Adds the records of the first elements of a listed item.
fn list_first(
    table: &mut Vec<HidElement>,
    layout: &Layout,
    item: usize,
    count: usize,
) -> Result<(), AllocError>
    ensures { OnOk result (table.new.items
        ≡ table.old.items ++ elements_below layout.now item count) }
{
    for j in 0..count {
        list_element(table, layout, item, j)?;
    }
    Ok(())
}

/// Adds the records of a listed item's elements.
#[tactic(auto, unfolding(crate::specs::Tables::elements_of_item))]
fn list_item(table: &mut Vec<HidElement>, layout: &Layout, item: usize) -> Result<(), AllocError>
    ensures { OnOk result (table.new.items
        ≡ table.old.items ++ elements_of_item layout.now item) }
{
    match layout.items().get(item) {
        Some(main) => list_first(table, layout, item, main.count as usize),
        None => Ok(()),
    }
}

/// The records of a layout's data elements, item by item.
///
/// # Errors
/// Out of memory.
pub fn list_elements(alloc: Global, layout: &Layout) -> Result<Vec<HidElement>, AllocError>
    ensures { IfOk result (λ table. table.items ≡ elements_of layout.now (length layout.now.items)) }
{
    let mut table = Vec::new(alloc);
    for item in 0..layout.items().len() {
        list_item(&mut table, layout, item)?;
    }
    Ok(table)
}

/// Writes records over the first places of a table.
pub fn put_elements(elements: &[HidElement], out: &mut [HidElement])
    requires { length elements.now ≤ length out.old }
    ensures { out.new ≡ elements.now ++ drop (length elements.now) out.old }
{
    for i in 0..elements.len() {
        out[i] = elements[i];
    }
}
