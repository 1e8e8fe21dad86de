//! The values of a report, as they are printed.

ghost use Rattle.std.specs.Prelude.{◌≡◌, ◌++◌, ◌∷◌, ◌<◌, ◌≤◌, length, IfSome, OnOk, slice_get, string_bytes, codes};
ghost use Rattle.std.specs.Fmt.{decimal, signed_decimal};
ghost use Rattle.hid_report_descriptor.specs.Usages.{usage_list};
ghost use Rattle.hid_layout.specs.Reports.{report_bytes};
ghost use Rattle.hid_notation.specs.Text.{concat_below, usage_or_dash};
ghost use Rattle.hid_usages.specs.Reading.{usage_named};
ghost use Rattle.hid_text.specs.ValuesText.{usage_shown, value_line, value_at, values_at, values_text};

use hid_fields::WordCodec;
use hid_layout::{Layout, MainItem, Shape, Usage, usage_at, usage_of_element};
use hid_notation::{print_number, print_signed, print_usage_or_dash};
use hid_usages::element_value;
use std::alloc::AllocError;

/// The usage that a number names in an array.
fn usage_named(entries: &[(Usage, Usage)], item: &MainItem, number: i64) -> Option<Usage>
    ensures { result ≡ usage_named item.now (usage_list entries.now) number }
{
    if item.min <= number && number <= item.max {
        usage_at(entries, number.abs_diff(item.min) as usize)
    } else {
        None
    }
}

/// The usage that is printed for an element with this number.
pub(crate) fn usage_shown(
    item: &MainItem,
    entries: &[(Usage, Usage)],
    j: usize,
    number: i64,
) -> Option<Usage>
    requires { length entries.now ≤ 64 }
    ensures { result ≡ usage_shown item.now.shape item.now (usage_list entries.now) j number }
{
    match item.shape {
        Shape::Padding => None,
        Shape::Variable => usage_of_element(entries, j),
        Shape::Array => usage_named(entries, item, number),
    }
}

/// Adds what the line of a value begins with: `value 2.0`.
pub(crate) fn print_place(text: &mut String, i: usize, j: usize) -> Result<(), AllocError>
    ensures { OnOk result (string_bytes text.new
        ≡ string_bytes text.old ++ codes "value " ++ decimal i ++ 46 ∷ decimal j) }
{
    text.push_str("value ")?;
    print_number(text, i as u64)?;
    text.push('.')?;
    print_number(text, j as u64)
}

/// Adds a number, and the usage that it belongs to: ` -127 01:30`.
pub(crate) fn print_number_of(
    text: &mut String,
    number: i64,
    usage: Option<Usage>,
) -> Result<(), AllocError>
    ensures { OnOk result (string_bytes text.new ≡ string_bytes text.old
        ++ 32 ∷ signed_decimal number ++ 32 ∷ usage_or_dash usage) }
{
    text.push(' ')?;
    print_signed(text, number)?;
    text.push(' ')?;
    print_usage_or_dash(text, usage)
}

/// Adds the line of a value.
#[tactic(auto, unfolding(crate::specs::ValuesText::value_line))]
fn print_value(
    text: &mut String,
    i: usize,
    j: usize,
    number: i64,
    usage: Option<Usage>,
) -> Result<(), AllocError>
    ensures { OnOk result (string_bytes text.new
        ≡ string_bytes text.old ++ value_line i j number usage) }
{
    print_place(text, i, j)?;
    print_number_of(text, number, usage)?;
    text.push('\n')
}

/// Adds the line of the element j of the item i, where it is a data element.
///
/// # Errors
/// Out of memory; part of the text may be added then.
#[tactic(auto, unfolding(crate::specs::ValuesText::value_at))]
pub fn print_element(
    text: &mut String,
    layout: &Layout,
    bytes: &[u8],
    i: usize,
    j: usize,
) -> Result<(), AllocError>
    requires item { i < length layout.now.items }
    requires whole { IfSome (slice_get layout.now.items i)
        (λ item. report_bytes layout.now item.report ≤ length bytes.now) }
    ensures { OnOk result (string_bytes text.new
        ≡ string_bytes text.old ++ value_at layout.now bytes.now i j) }
{
    let item = &layout.items()[i];
    if layout.element(i, j).is_none() {
        return Ok(());
    }
    let number = element_value::<WordCodec>(layout, bytes, i, j);
    let usage = usage_shown(item, layout.entries(i), j, number);
    print_value(text, i, j, number, usage)
}

/// Adds a line for each data element of the first ones of the item i.
fn print_elements(
    text: &mut String,
    layout: &Layout,
    bytes: &[u8],
    i: usize,
    count: usize,
) -> Result<(), AllocError>
    requires item { i < length layout.now.items }
    requires whole { IfSome (slice_get layout.now.items i)
        (λ item. report_bytes layout.now item.report ≤ length bytes.now) }
    ensures { OnOk result (string_bytes text.new
        ≡ string_bytes text.old ++ concat_below count (value_at layout.now bytes.now i)) }
{
    for j in 0..count {
        print_element(text, layout, bytes, i, j)?;
    }
    Ok(())
}

/// Adds a line for each data element of the item i, where it stands in the report r.
#[tactic(auto, unfolding(crate::specs::ValuesText::values_at))]
fn print_values_at(
    text: &mut String,
    layout: &Layout,
    r: usize,
    bytes: &[u8],
    i: usize,
) -> Result<(), AllocError>
    requires item { i < length layout.now.items }
    requires whole { report_bytes layout.now r ≤ length bytes.now }
    ensures { OnOk result (string_bytes text.new
        ≡ string_bytes text.old ++ values_at layout.now r bytes.now i) }
{
    let item = &layout.items()[i];
    if item.report == r {
        print_elements(text, layout, bytes, i, item.count as usize)
    } else {
        Ok(())
    }
}

/// Adds a line for each data element of the report r, in the order of the layout.
///
/// # Errors
/// Out of memory; part of the text may be added then.
#[tactic(auto, unfolding(crate::specs::ValuesText::values_text))]
pub fn print_values(
    text: &mut String,
    layout: &Layout,
    r: usize,
    bytes: &[u8],
) -> Result<(), AllocError>
    requires { report_bytes layout.now r ≤ length bytes.now }
    ensures { OnOk result (string_bytes text.new
        ≡ string_bytes text.old ++ values_text layout.now r bytes.now) }
{
    for i in 0..layout.items().len() {
        print_values_at(text, layout, r, bytes, i)?;
    }
    Ok(())
}
