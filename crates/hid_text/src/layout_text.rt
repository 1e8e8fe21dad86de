//! A layout, as it is printed.

ghost use Rattle.std.specs.Prelude.{◌≡◌, ◌++◌, ◌∷◌, ◌<◌, length, OnOk, slice_get, string_bytes, codes};
ghost use Rattle.std.specs.Fmt.{decimal, signed_decimal};
ghost use Rattle.hid_report_descriptor.specs.Flags.{has_flag, RELATIVE};
ghost use Rattle.hid_text.specs.LayoutText.{kind_word, report_name, collection_text, spaced_collections, collections_text, shape_word, range_words, entries_text, details_text, path_text, item_head, item_line, report_line, report_text_at, item_text_at, layout_lines, layout_text};

use hid_layout::{Collection, Layout, MainItem, Report, ReportKind, Shape, Usage};
use hid_notation::{print_number, print_signed, print_usage_or_dash, print_usages};
use std::alloc::AllocError;

/// The word for a kind of reports.
fn kind_word(kind: ReportKind) -> &'static str
    ensures { result.now ≡ kind_word kind }
{
    match kind {
        ReportKind::Input => "input",
        ReportKind::Output => "output",
        ReportKind::Feature => "feature",
    }
}

/// Adds kind and ID of a report: `input 0`.
fn print_name(text: &mut String, report: &Report) -> Result<(), AllocError>
    ensures { OnOk result (string_bytes text.new
        ≡ string_bytes text.old ++ report_name report.now) }
{
    text.push_str(kind_word(report.kind))?;
    text.push(' ')?;
    print_number(text, u64::from(report.id))
}

/// Adds a collection, as its kind and its first usage: `1/01:06`.
fn print_collection(text: &mut String, collection: &Collection) -> Result<(), AllocError>
    ensures { OnOk result (string_bytes text.new
        ≡ string_bytes text.old ++ collection_text collection.now) }
{
    print_number(text, u64::from(collection.kind))?;
    text.push('/')?;
    print_usage_or_dash(text, collection.usage)
}

/// The word for the shape of an item.
fn shape_word(item: &MainItem) -> &'static str
    ensures { result.now ≡ shape_word item.now.shape (has_flag RELATIVE item.now.flags.0) }
{
    match item.shape {
        Shape::Padding => "padding",
        Shape::Array => "array",
        Shape::Variable => {
            if item.flags.is_relative() {
                "relative"
            } else {
                "variable"
            }
        }
    }
}

/// Adds the least and the greatest value of an item: ` -127..127`.
fn print_bounds(text: &mut String, item: &MainItem) -> Result<(), AllocError>
    ensures { OnOk result (string_bytes text.new ≡ string_bytes text.old
        ++ 32 ∷ signed_decimal item.now.min ++ codes ".." ++ signed_decimal item.now.max) }
{
    text.push(' ')?;
    print_signed(text, item.min)?;
    text.push_str("..")?;
    print_signed(text, item.max)
}

/// Adds the range of an item.
pub(crate) fn print_range(text: &mut String, item: &MainItem) -> Result<(), AllocError>
    ensures { OnOk result (string_bytes text.new ≡ string_bytes text.old ++ range_words item.now) }
{
    if item.flags.has_null_state() {
        text.push_str(" null")?;
    }
    print_bounds(text, item)
}

/// Adds each usage entry after a space.
fn print_entries(text: &mut String, entries: &[(Usage, Usage)]) -> Result<(), AllocError>
    ensures { OnOk result (string_bytes text.new
        ≡ string_bytes text.old ++ entries_text entries.now) }
{
    for entry in entries {
        text.push(' ')?;
        print_usages(text, *entry)?;
    }
    Ok(())
}

/// Adds what is said of an item that is no padding.
fn print_details(
    text: &mut String,
    item: &MainItem,
    entries: &[(Usage, Usage)],
) -> Result<(), AllocError>
    ensures { OnOk result (string_bytes text.new
        ≡ string_bytes text.old ++ details_text item.now.shape item.now entries.now) }
{
    match item.shape {
        Shape::Padding => Ok(()),
        Shape::Variable | Shape::Array => {
            print_range(text, item)?;
            print_entries(text, entries)
        }
    }
}

/// Adds collections, each after a space.
fn print_spaced(text: &mut String, collections: &[Collection]) -> Result<(), AllocError>
    ensures { OnOk result (string_bytes text.new
        ≡ string_bytes text.old ++ spaced_collections collections.now) }
{
    for collection in collections {
        text.push(' ')?;
        print_collection(text, collection)?;
    }
    Ok(())
}

/// Adds the collections round an item, the outermost first: `1/0D:04 2/0D:22`; nothing where there is none.
///
/// # Errors
/// Out of memory; part of the text may be added then.
pub fn print_collections(text: &mut String, path: &[Collection]) -> Result<(), AllocError>
    ensures { OnOk result (string_bytes text.new
        ≡ string_bytes text.old ++ collections_text path.now) }
{
    match path {
        [] => Ok(()),
        [outermost, inner @ ..] => {
            print_collection(text, outermost)?;
            print_spaced(text, inner)
        }
    }
}

/// Adds the collections from the outermost on.
fn print_path(text: &mut String, path: &[Collection]) -> Result<(), AllocError>
    ensures { OnOk result (string_bytes text.new ≡ string_bytes text.old ++ path_text path.now) }
{
    match path {
        [] => Ok(()),
        [_, ..] => {
            text.push_str(" in")?;
            print_spaced(text, path)
        }
    }
}

/// Adds an item's number, and its report's name: `item 2 input 0`.
fn print_names(text: &mut String, i: usize, report: &Report) -> Result<(), AllocError>
    ensures { OnOk result (string_bytes text.new
        ≡ string_bytes text.old ++ codes "item " ++ decimal i ++ 32 ∷ report_name report.now) }
{
    text.push_str("item ")?;
    print_number(text, i as u64)?;
    text.push(' ')?;
    print_name(text, report)
}

/// Adds where the fields of an item begin, their size and their number: ` at 8 8x2`.
fn print_place(text: &mut String, item: &MainItem) -> Result<(), AllocError>
    ensures { OnOk result (string_bytes text.new
        ≡ string_bytes text.old ++ codes " at " ++ decimal item.now.offset
        ++ 32 ∷ decimal item.now.size ++ 120 ∷ decimal item.now.count) }
{
    text.push_str(" at ")?;
    print_number(text, item.offset as u64)?;
    text.push(' ')?;
    print_number(text, u64::from(item.size))?;
    text.push('x')?;
    print_number(text, u64::from(item.count))
}

/// Adds the shape of an item after a space.
fn print_shape(text: &mut String, item: &MainItem) -> Result<(), AllocError>
    ensures { OnOk result (string_bytes text.new ≡ string_bytes text.old
        ++ 32 ∷ shape_word item.now.shape (has_flag RELATIVE item.now.flags.0)) }
{
    text.push(' ')?;
    text.push_str(shape_word(item))
}

/// Adds what the line of an item begins with.
#[tactic(auto, unfolding(crate::specs::LayoutText::item_head))]
pub(crate) fn print_head(
    text: &mut String,
    i: usize,
    report: &Report,
    item: &MainItem,
) -> Result<(), AllocError>
    ensures { OnOk result (string_bytes text.new
        ≡ string_bytes text.old ++ item_head i report.now item.now) }
{
    print_names(text, i, report)?;
    print_place(text, item)?;
    print_shape(text, item)
}

/// Adds the line of an item.
fn print_item(
    text: &mut String,
    i: usize,
    report: &Report,
    item: &MainItem,
    entries: &[(Usage, Usage)],
    path: &[Collection],
) -> Result<(), AllocError>
    ensures { OnOk result (string_bytes text.new
        ≡ string_bytes text.old ++ item_line i report.now item.now entries.now path.now) }
{
    print_head(text, i, report, item)?;
    print_details(text, item, entries)?;
    print_path(text, path)?;
    text.push('\n')
}

/// Adds the line of the item i.
fn print_item_at(text: &mut String, layout: &Layout, i: usize) -> Result<(), AllocError>
    requires { i < length layout.now.items }
    ensures { OnOk result (string_bytes text.new
        ≡ string_bytes text.old ++ item_text_at layout.now i (slice_get layout.now.items i)) }
{
    let item = &layout.items()[i];
    let report = &layout.reports()[item.report];
    print_item(text, i, report, item, layout.entries(i), layout.path(i))
}

/// Adds the line of a report.
fn print_report(text: &mut String, report: &Report, size: usize) -> Result<(), AllocError>
    ensures { OnOk result (string_bytes text.new
        ≡ string_bytes text.old ++ report_line report.now size) }
{
    text.push_str("report ")?;
    print_name(text, report)?;
    text.push_str(" bytes ")?;
    print_number(text, size as u64)?;
    text.push('\n')
}

/// Adds the line of the report r.
pub(crate) fn print_report_at(
    text: &mut String,
    layout: &Layout,
    r: usize,
) -> Result<(), AllocError>
    requires { r < length layout.now.reports }
    ensures { OnOk result (string_bytes text.new
        ≡ string_bytes text.old ++ report_text_at layout.now r (slice_get layout.now.reports r)) }
{
    print_report(text, &layout.reports()[r], layout.report_bytes(r))
}

/// Adds a line for each report, and then one for each item.
#[tactic(auto, unfolding(crate::specs::LayoutText::layout_lines))]
fn print_lines(text: &mut String, layout: &Layout) -> Result<(), AllocError>
    ensures { OnOk result (string_bytes text.new
        ≡ string_bytes text.old ++ layout_lines layout.now) }
{
    for r in 0..layout.reports().len() {
        print_report_at(text, layout, r)?;
    }
    for i in 0..layout.items().len() {
        print_item_at(text, layout, i)?;
    }
    Ok(())
}

/// Adds what a layout is printed as.
///
/// # Errors
/// Out of memory; part of the text may be added then.
#[tactic(auto, unfolding(crate::specs::LayoutText::layout_text))]
pub fn print_layout(text: &mut String, layout: &Layout) -> Result<(), AllocError>
    ensures { OnOk result (string_bytes text.new
        ≡ string_bytes text.old ++ layout_text layout.now) }
{
    if layout.reports().is_empty() {
        return text.push_str("no reports\n");
    }
    print_lines(text, layout)
}
