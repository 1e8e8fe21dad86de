//! A layout and the values of a report, with the names of usages.

ghost use Rattle.std.specs.Prelude.{◌≡◌, ◌++◌, ◌∷◌, ◌<◌, ◌≤◌, length, IfSome, OnOk, slice_get, string_bytes};
ghost use Rattle.hid_layout.specs.Reports.{report_bytes};
ghost use Rattle.hid_notation.specs.Text.{concat_below};
ghost use Rattle.hid_text.specs.NamedText.{named_usage, named_range, named_entries, named_details, named_or_dash, named_collection, named_collections, named_path, named_item, named_item_at, named_lines, named_layout, name_of_shown, named_value, named_value_at, named_values_at, named_values};

use crate::layout_text::{print_head, print_range, print_report_at};
use crate::values_text::{print_number_of, print_place, usage_shown};
use hid_fields::WordCodec;
use hid_layout::{Collection, Layout, MainItem, Report, Shape, Usage};
use hid_names::usage_name;
use hid_notation::{print_number, print_usage};
use hid_usages::element_value;
use std::alloc::AllocError;

/// Adds a usage, and its name in parentheses, where it has one: `01:30 (X)`.
fn print_named_usage(text: &mut String, usage: Usage) -> Result<(), AllocError>
    ensures { OnOk result (string_bytes text.new ≡ string_bytes text.old ++ named_usage usage) }
{
    print_usage(text, usage)?;
    match usage_name(usage.page, usage.id) {
        Some(name) => write!(text, " ({name})"),
        None => Ok(()),
    }
}

/// Adds a range of usages with their names, or the one usage of a range with equal ends.
#[tactic(auto, unfolding(crate::specs::NamedText::named_range))]
fn print_named_range(text: &mut String, range: (Usage, Usage)) -> Result<(), AllocError>
    ensures { OnOk result (string_bytes text.new ≡ string_bytes text.old ++ named_range range) }
{
    let (low, high) = range;
    print_named_usage(text, low)?;
    if low.page == high.page && low.id == high.id {
        return Ok(());
    }
    text.push('-')?;
    print_named_usage(text, high)
}

/// Adds a usage with its name, or `-` where there is none.
fn print_named_or_dash(text: &mut String, usage: Option<Usage>) -> Result<(), AllocError>
    ensures { OnOk result (string_bytes text.new ≡ string_bytes text.old ++ named_or_dash usage) }
{
    match usage {
        None => text.push('-'),
        Some(usage) => print_named_usage(text, usage),
    }
}

/// Adds each usage entry after a space.
fn print_named_entries(text: &mut String, entries: &[(Usage, Usage)]) -> Result<(), AllocError>
    ensures { OnOk result (string_bytes text.new
        ≡ string_bytes text.old ++ named_entries entries.now) }
{
    for entry in entries {
        text.push(' ')?;
        print_named_range(text, *entry)?;
    }
    Ok(())
}

/// Adds what is said of an item that is no padding.
fn print_named_details(
    text: &mut String,
    item: &MainItem,
    entries: &[(Usage, Usage)],
) -> Result<(), AllocError>
    ensures { OnOk result (string_bytes text.new
        ≡ string_bytes text.old ++ named_details item.now.shape item.now entries.now) }
{
    match item.shape {
        Shape::Padding => Ok(()),
        Shape::Variable | Shape::Array => {
            print_range(text, item)?;
            print_named_entries(text, entries)
        }
    }
}

/// Adds a collection, as its kind and its first usage with its name: `1/01:06 (Keyboard)`.
fn print_named_collection(text: &mut String, collection: &Collection) -> Result<(), AllocError>
    ensures { OnOk result (string_bytes text.new
        ≡ string_bytes text.old ++ named_collection collection.now) }
{
    print_number(text, u64::from(collection.kind))?;
    text.push('/')?;
    print_named_or_dash(text, collection.usage)
}

/// Adds collections, each after a space.
fn print_named_collections(text: &mut String, collections: &[Collection]) -> Result<(), AllocError>
    ensures { OnOk result (string_bytes text.new
        ≡ string_bytes text.old ++ named_collections collections.now) }
{
    for collection in collections {
        text.push(' ')?;
        print_named_collection(text, collection)?;
    }
    Ok(())
}

/// Adds the collections from the outermost on.
fn print_named_path(text: &mut String, path: &[Collection]) -> Result<(), AllocError>
    ensures { OnOk result (string_bytes text.new ≡ string_bytes text.old ++ named_path path.now) }
{
    match path {
        [] => Ok(()),
        [_, ..] => {
            text.push_str(" in")?;
            print_named_collections(text, path)
        }
    }
}

/// Adds the line of an item.
fn print_named_item(
    text: &mut String,
    i: usize,
    report: &Report,
    item: &MainItem,
    entries: &[(Usage, Usage)],
    path: &[Collection],
) -> Result<(), AllocError>
    ensures { OnOk result (string_bytes text.new
        ≡ string_bytes text.old ++ named_item i report.now item.now entries.now path.now) }
{
    print_head(text, i, report, item)?;
    print_named_details(text, item, entries)?;
    print_named_path(text, path)?;
    text.push('\n')
}

/// Adds the line of the item i.
fn print_named_item_at(text: &mut String, layout: &Layout, i: usize) -> Result<(), AllocError>
    requires { i < length layout.now.items }
    ensures { OnOk result (string_bytes text.new
        ≡ string_bytes text.old ++ named_item_at layout.now i (slice_get layout.now.items i)) }
{
    let item = &layout.items()[i];
    let report = &layout.reports()[item.report];
    print_named_item(text, i, report, item, layout.entries(i), layout.path(i))
}

/// Adds a line for each report, and then one for each item.
#[tactic(auto, unfolding(crate::specs::NamedText::named_lines))]
fn print_named_lines(text: &mut String, layout: &Layout) -> Result<(), AllocError>
    ensures { OnOk result (string_bytes text.new
        ≡ string_bytes text.old ++ named_lines layout.now) }
{
    for r in 0..layout.reports().len() {
        print_report_at(text, layout, r)?;
    }
    for i in 0..layout.items().len() {
        print_named_item_at(text, layout, i)?;
    }
    Ok(())
}

/// Adds what a layout is printed as, with the name of each usage.
///
/// # Errors
/// Out of memory; part of the text may be added then.
#[tactic(auto, unfolding(crate::specs::NamedText::named_layout))]
pub fn print_named_layout(text: &mut String, layout: &Layout) -> Result<(), AllocError>
    ensures { OnOk result (string_bytes text.new
        ≡ string_bytes text.old ++ named_layout layout.now) }
{
    if layout.reports().is_empty() {
        return text.push_str("no reports\n");
    }
    print_named_lines(text, layout)
}

/// Adds the name of a usage after a space, where it has one.
fn print_name_of(text: &mut String, usage: Option<Usage>) -> Result<(), AllocError>
    ensures { OnOk result (string_bytes text.new ≡ string_bytes text.old ++ name_of_shown usage) }
{
    let Some(usage) = usage else {
        return Ok(());
    };
    match usage_name(usage.page, usage.id) {
        Some(name) => write!(text, " {name}"),
        None => Ok(()),
    }
}

/// Adds the line of a value.
#[tactic(auto, unfolding(crate::specs::NamedText::named_value))]
fn print_named_value(
    text: &mut String,
    i: usize,
    j: usize,
    number: i64,
    usage: Option<Usage>,
) -> Result<(), AllocError>
    ensures { OnOk result (string_bytes text.new
        ≡ string_bytes text.old ++ named_value i j number usage) }
{
    print_place(text, i, j)?;
    print_number_of(text, number, usage)?;
    print_name_of(text, usage)?;
    text.push('\n')
}

/// Adds the line of the element j of the item i, where it is a data element, with the name of its usage.
///
/// # Errors
/// Out of memory; part of the text may be added then.
#[tactic(auto, unfolding(crate::specs::NamedText::named_value_at))]
pub fn print_named_element(
    text: &mut String,
    layout: &Layout,
    bytes: &[u8],
    i: usize,
    j: usize,
) -> Result<(), AllocError>
    requires item { i < length layout.now.items }
    requires whole { IfSome (slice_get layout.now.items i)
        (λ item. report_bytes layout.now item.report ≤ length bytes.now) }
    ensures { OnOk result (string_bytes text.new
        ≡ string_bytes text.old ++ named_value_at layout.now bytes.now i j) }
{
    let item = &layout.items()[i];
    if layout.element(i, j).is_none() {
        return Ok(());
    }
    let number = element_value::<WordCodec>(layout, bytes, i, j);
    let usage = usage_shown(item, layout.entries(i), j, number);
    print_named_value(text, i, j, number, usage)
}

/// Adds a line for each data element of the first ones of the item i.
fn print_named_elements(
    text: &mut String,
    layout: &Layout,
    bytes: &[u8],
    i: usize,
    count: usize,
) -> Result<(), AllocError>
    requires item { i < length layout.now.items }
    requires whole { IfSome (slice_get layout.now.items i)
        (λ item. report_bytes layout.now item.report ≤ length bytes.now) }
    ensures { OnOk result (string_bytes text.new
        ≡ string_bytes text.old ++ concat_below count (named_value_at layout.now bytes.now i)) }
{
    for j in 0..count {
        print_named_element(text, layout, bytes, i, j)?;
    }
    Ok(())
}

/// Adds a line for each data element of the item i, where it stands in the report r.
#[tactic(auto, unfolding(crate::specs::NamedText::named_values_at))]
fn print_named_values_at(
    text: &mut String,
    layout: &Layout,
    r: usize,
    bytes: &[u8],
    i: usize,
) -> Result<(), AllocError>
    requires item { i < length layout.now.items }
    requires whole { report_bytes layout.now r ≤ length bytes.now }
    ensures { OnOk result (string_bytes text.new
        ≡ string_bytes text.old ++ named_values_at layout.now r bytes.now i) }
{
    let item = &layout.items()[i];
    if item.report == r {
        print_named_elements(text, layout, bytes, i, item.count as usize)
    } else {
        Ok(())
    }
}

/// Adds a line for each data element of the report r, in the order of the layout, with the name of its usage.
///
/// # Errors
/// Out of memory; part of the text may be added then.
#[tactic(auto, unfolding(crate::specs::NamedText::named_values))]
pub fn print_named_values(
    text: &mut String,
    layout: &Layout,
    r: usize,
    bytes: &[u8],
) -> Result<(), AllocError>
    requires { report_bytes layout.now r ≤ length bytes.now }
    ensures { OnOk result (string_bytes text.new
        ≡ string_bytes text.old ++ named_values layout.now r bytes.now) }
{
    for i in 0..layout.items().len() {
        print_named_values_at(text, layout, r, bytes, i)?;
    }
    Ok(())
}
