//! The physical range of a field, in its unit (HID 1.11, 6.2.2.7).

ghost use Rattle.std.specs.Prelude.{◌≡◌, ◌++◌, All, OnOk, string_bytes};
ghost use Rattle.hid_drawing.specs.Items.{IsWholeItem};
ghost use Rattle.hid_page.specs.Page.{times_text, unit_at, physical_range, is_physical, physical_text};

use crate::item_numbers::{exponent_at, number_at, signed_number_at};
use crate::units::{UNIT, print_unit};
use hid_drawing::global_place;
use hid_items::Item;
use hid_report_descriptor::prefix;
use std::alloc::AllocError;

/// Adds the exponent of a unit, where it isn't 0.
fn print_times(text: &mut String, items: &[Item], place: Option<usize>) -> Result<(), AllocError>
    requires { All IsWholeItem items.now }
    ensures { OnOk result (string_bytes text.new
        ≡ string_bytes text.old ++ times_text items.now place) }
{
    if number_at(items, place) == 0 {
        return Ok(());
    }
    let exponent = exponent_at(items, place);
    write!(text, " &times; 10^{exponent}")
}

/// Adds the unit in force at the main item m, and its exponent.
#[tactic(auto, unfolding(crate::specs::Page::unit_at))]
fn print_unit_at(text: &mut String, items: &[Item], m: usize) -> Result<(), AllocError>
    requires { All IsWholeItem items.now }
    ensures { OnOk result (string_bytes text.new ≡ string_bytes text.old ++ unit_at items.now m) }
{
    let unit = number_at(items, global_place(items, m, UNIT));
    if unit == 0 {
        return Ok(());
    }
    print_unit(text, unit)?;
    print_times(text, items, global_place(items, m, prefix::UNIT_EXPONENT))
}

/// Adds a physical range with its unit.
#[tactic(auto, unfolding(crate::specs::Page::physical_range))]
fn print_physical_range(
    text: &mut String,
    items: &[Item],
    m: usize,
    low: Option<usize>,
    high: Option<usize>,
) -> Result<(), AllocError>
    requires { All IsWholeItem items.now }
    ensures { OnOk result (string_bytes text.new
        ≡ string_bytes text.old ++ physical_range items.now m low high) }
{
    let least = signed_number_at(items, low);
    let greatest = signed_number_at(items, high);
    write!(text, "<br>physical {least} to {greatest}")?;
    print_unit_at(text, items, m)
}

/// Whether a physical range is set: its ends aren't both 0.
fn is_physical(items: &[Item], low: Option<usize>, high: Option<usize>) -> bool
    requires { All IsWholeItem items.now }
    ensures { result ≡ is_physical items.now low high }
{
    !(number_at(items, low) == 0 && number_at(items, high) == 0)
}

/// Adds the physical range in force at the main item m, where one is set.
///
/// # Errors
/// Out of memory; part of the text may be added then.
#[tactic(auto, unfolding(crate::specs::Page::physical_text))]
pub fn print_physical(text: &mut String, items: &[Item], m: usize) -> Result<(), AllocError>
    requires { All IsWholeItem items.now }
    ensures { OnOk result (string_bytes text.new
        ≡ string_bytes text.old ++ physical_text items.now m) }
{
    let low = global_place(items, m, prefix::PHYSICAL_MINIMUM);
    let high = global_place(items, m, prefix::PHYSICAL_MAXIMUM);
    if is_physical(items, low, high) {
        print_physical_range(text, items, m, low, high)
    } else {
        Ok(())
    }
}
