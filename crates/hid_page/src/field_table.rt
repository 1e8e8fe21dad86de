//! The fields of a report as a table, and the rules by which a field marks the items that made it.

ghost use Rattle.std.specs.Prelude.{◌≡◌, ◌++◌, ◌<◌, All, length, OnOk, string_bytes};
ghost use Rattle.hid_drawing.specs.Origins.{origins_in_force};
ghost use Rattle.hid_drawing.specs.Items.{IsWholeItem};
ghost use Rattle.hid_drawing.specs.Pieces.{SliceLiesIn};
ghost use Rattle.hid_drawing.specs.Escape.{escaped_words};
ghost use Rattle.hid_drawing.specs.Words.{entry_text, collection_words};
ghost use Rattle.hid_page.specs.Page.{mark_head, mark_at, marks_of, mark_rule, mark_rules, number_cell, size_cell, usages_cell, meaning_cell, limits_text, physical_text, range_cell, path_cell, item_link, link_at, links_cell, place_cells, meaning_cells, origin_cells, field_row, field_row_of, field_rows, field_table};

use crate::item_table::TABLE_END;
use crate::physical::print_physical;
use hid_drawing::{
    InForce, first_bit_of, is_input_item, is_origin, item_at, main_at, origins_in_force, place_of,
    print_bit, print_collection, print_count, print_entry, print_flags, print_padding_name,
    push_escaped,
};
use hid_items::Item;
use hid_layout::{Collection, Layout, MainItem, Shape, Usage};
use std::alloc::{AllocError, Global};

/// What the table begins with.
pub const FIELDS_HEAD: &str =
    "<div class='x'><table><thead><tr><th scope='col'>Field</th><th scope='col'>From</th><th scope='col'>Size</th><th scope='col'>Usages</th><th scope='col'>Range</th><th scope='col'>Flags</th><th scope='col'>Collections</th><th scope='col'>Items at</th></tr></thead><tbody>\n";

/// Between two cells of a row.
pub const NEXT: &str = "</td><td>";

/// How a row is marked.
pub const MARK: &str = "){background:var(--mark)}\n";

/// Adds which row a field points at: its own.
#[tactic(auto, unfolding(crate::specs::Page::mark_head))]
fn print_mark_head(text: &mut String, i: usize) -> Result<(), AllocError>
    ensures { OnOk result (string_bytes text.new ≡ string_bytes text.old ++ mark_head i) }
{
    write!(
        text,
        "body:has(.f{i}:hover,.f{i}:focus,#f{i}:target) :is(#f{i}"
    )
}

/// Adds the row of an item, where it made fields of the main item m.
fn print_mark(
    text: &mut String,
    items: &[Item],
    found: &InForce,
    m: usize,
    k: usize,
) -> Result<(), AllocError>
    requires { found.now ≡ origins_in_force items.now m }
    ensures { OnOk result (string_bytes text.new ≡ string_bytes text.old ++ mark_at items.now m k) }
{
    if !is_origin(items, found, m, k) {
        return Ok(());
    }
    let at = place_of(items, k);
    write!(text, ",#at{at}")
}

/// Adds the rows of the items that made fields of the main item m.
#[tactic(auto, unfolding(crate::specs::Page::marks_of))]
fn print_marks(text: &mut String, items: &[Item], m: usize) -> Result<(), AllocError>
    ensures { OnOk result (string_bytes text.new ≡ string_bytes text.old ++ marks_of items.now m) }
{
    let found = origins_in_force(items, m);
    for k in 0..items.len() {
        print_mark(text, items, &found, m, k)?;
    }
    Ok(())
}

/// Adds what a field marks.
#[tactic(auto, unfolding(crate::specs::Page::mark_rule))]
fn print_mark_rule(
    text: &mut String,
    items: &[Item],
    mains: &[usize],
    i: usize,
) -> Result<(), AllocError>
    ensures { OnOk result (string_bytes text.new
        ≡ string_bytes text.old ++ mark_rule items.now mains.now i) }
{
    print_mark_head(text, i)?;
    print_marks(text, items, main_at(mains, i))?;
    text.push_str(MARK)
}

/// Adds what each field marks.
///
/// # Errors
/// Out of memory; part of the text may be added then.
#[tactic(auto, unfolding(crate::specs::Page::mark_rules))]
pub fn print_mark_rules(
    text: &mut String,
    items: &[Item],
    mains: &[usize],
) -> Result<(), AllocError>
    ensures { OnOk result (string_bytes text.new
        ≡ string_bytes text.old ++ mark_rules items.now mains.now) }
{
    for i in 0..mains.len() {
        print_mark_rule(text, items, mains, i)?;
    }
    Ok(())
}

/// Adds the number of a field.
#[tactic(auto, unfolding(crate::specs::Page::number_cell))]
fn print_number_cell(text: &mut String, i: usize) -> Result<(), AllocError>
    ensures { OnOk result (string_bytes text.new ≡ string_bytes text.old ++ number_cell i) }
{
    write!(
        text,
        "<tr id='f{i}' class='f{i}'><th scope='row'>{i}</th><td>"
    )
}

/// Adds how many elements of how many bits a field has.
#[tactic(auto, unfolding(crate::specs::Page::size_cell))]
fn print_size_cell(text: &mut String, item: &MainItem) -> Result<(), AllocError>
    ensures { OnOk result (string_bytes text.new ≡ string_bytes text.old ++ size_cell item.now) }
{
    let count = item.count;
    write!(text, "{count} &times; ")?;
    print_count(text, u64::from(item.size), "bit")
}

/// Adds a range of usages, as it stands in a page.
fn print_escaped_entry(
    alloc: Global,
    text: &mut String,
    entry: &(Usage, Usage),
) -> Result<(), AllocError>
    ensures { OnOk result (string_bytes text.new
        ≡ string_bytes text.old ++ escaped_words (entry_text entry.now)) }
{
    let mut name = String::new(alloc);
    print_entry(&mut name, entry.0, entry.1)?;
    push_escaped(text, name.as_bytes())
}

/// Adds the usages of a field.
#[tactic(auto, unfolding(crate::specs::Page::usages_cell))]
fn print_usages_cell(
    alloc: Global,
    text: &mut String,
    entries: &[(Usage, Usage)],
) -> Result<(), AllocError>
    ensures { OnOk result (string_bytes text.new
        ≡ string_bytes text.old ++ usages_cell entries.now) }
{
    for entry in entries {
        print_escaped_entry(alloc, text, entry)?;
        text.push_str("<br>")?;
    }
    Ok(())
}

/// Adds the usages of a field, or what padding is called.
fn print_meaning_cell(
    alloc: Global,
    text: &mut String,
    item: &MainItem,
    entries: &[(Usage, Usage)],
) -> Result<(), AllocError>
    ensures { OnOk result (string_bytes text.new
        ≡ string_bytes text.old ++ meaning_cell item.now item.now.shape entries.now) }
{
    match item.shape {
        Shape::Padding => print_padding_name(text, item),
        Shape::Variable | Shape::Array => print_usages_cell(alloc, text, entries),
    }
}

/// Adds a range, and whether its numbers have a sign.
#[tactic(auto, unfolding(crate::specs::Page::limits_text))]
fn print_limits(text: &mut String, item: &MainItem) -> Result<(), AllocError>
    ensures { OnOk result (string_bytes text.new ≡ string_bytes text.old ++ limits_text item.now) }
{
    let MainItem { min, max, .. } = *item;
    write!(text, "{min} to {max}")?;
    if min < 0 {
        text.push_str(", signed")
    } else {
        text.push_str(", unsigned")
    }
}

/// Adds the range of a field's numbers, and the physical one.
fn print_ranges(
    text: &mut String,
    items: &[Item],
    m: usize,
    item: &MainItem,
) -> Result<(), AllocError>
    requires { All IsWholeItem items.now }
    ensures { OnOk result (string_bytes text.new
        ≡ string_bytes text.old ++ limits_text item.now ++ physical_text items.now m) }
{
    print_limits(text, item)?;
    print_physical(text, items, m)
}

/// Adds the ranges of a field that isn't padding.
fn print_range_cell(
    text: &mut String,
    items: &[Item],
    m: usize,
    item: &MainItem,
) -> Result<(), AllocError>
    requires { All IsWholeItem items.now }
    ensures { OnOk result (string_bytes text.new
        ≡ string_bytes text.old ++ range_cell items.now m item.now.shape item.now) }
{
    match item.shape {
        Shape::Padding => Ok(()),
        Shape::Variable | Shape::Array => print_ranges(text, items, m, item),
    }
}

/// Adds a collection, as it stands in a page.
fn print_escaped_collection(
    alloc: Global,
    text: &mut String,
    collection: &Collection,
) -> Result<(), AllocError>
    ensures { OnOk result (string_bytes text.new
        ≡ string_bytes text.old ++ escaped_words (collection_words collection.now)) }
{
    let mut name = String::new(alloc);
    print_collection(&mut name, collection)?;
    push_escaped(text, name.as_bytes())
}

/// Adds the collections round a field.
#[tactic(auto, unfolding(crate::specs::Page::path_cell))]
fn print_path_cell(alloc: Global, text: &mut String, path: &[Collection]) -> Result<(), AllocError>
    ensures { OnOk result (string_bytes text.new ≡ string_bytes text.old ++ path_cell path.now) }
{
    for collection in path {
        print_escaped_collection(alloc, text, collection)?;
        text.push_str("<br>")?;
    }
    Ok(())
}

/// Adds a link to an item.
#[tactic(auto, unfolding(crate::specs::Page::item_link))]
fn print_item_link(text: &mut String, at: usize) -> Result<(), AllocError>
    ensures { OnOk result (string_bytes text.new ≡ string_bytes text.old ++ item_link at) }
{
    write!(text, "<a href='#at{at}'>{at}</a> ")
}

/// Adds a link to an item, where it made fields of the main item m.
fn print_link(
    text: &mut String,
    items: &[Item],
    found: &InForce,
    m: usize,
    k: usize,
) -> Result<(), AllocError>
    requires { found.now ≡ origins_in_force items.now m }
    ensures { OnOk result (string_bytes text.new ≡ string_bytes text.old ++ link_at items.now m k) }
{
    if !is_origin(items, found, m, k) {
        return Ok(());
    }
    print_item_link(text, place_of(items, k))
}

/// Adds links to the items that made fields of the main item m.
#[tactic(auto, unfolding(crate::specs::Page::links_cell))]
fn print_links_cell(text: &mut String, items: &[Item], m: usize) -> Result<(), AllocError>
    ensures { OnOk result (string_bytes text.new
        ≡ string_bytes text.old ++ links_cell items.now m) }
{
    let found = origins_in_force(items, m);
    for k in 0..items.len() {
        print_link(text, items, &found, m, k)?;
    }
    Ok(())
}

/// Adds where a field stands.
#[tactic(auto, unfolding(crate::specs::Page::place_cells))]
fn print_place_cells(
    text: &mut String,
    layout: &Layout,
    i: usize,
    item: &MainItem,
) -> Result<(), AllocError>
    requires { SliceLiesIn layout.now item.now }
    ensures { OnOk result (string_bytes text.new
        ≡ string_bytes text.old ++ place_cells layout.now i item.now) }
{
    print_number_cell(text, i)?;
    print_bit(text, first_bit_of(layout, item))?;
    text.push_str(NEXT)?;
    print_size_cell(text, item)?;
    text.push_str(NEXT)
}

/// Adds what a field means.
#[tactic(auto, unfolding(crate::specs::Page::meaning_cells))]
fn print_meaning_cells(
    alloc: Global,
    text: &mut String,
    items: &[Item],
    m: usize,
    input: bool,
    item: &MainItem,
    entries: &[(Usage, Usage)],
) -> Result<(), AllocError>
    requires { All IsWholeItem items.now }
    ensures { OnOk result (string_bytes text.new
        ≡ string_bytes text.old ++ meaning_cells items.now m input item.now entries.now) }
{
    print_meaning_cell(alloc, text, item, entries)?;
    text.push_str(NEXT)?;
    print_range_cell(text, items, m, item)?;
    text.push_str(NEXT)?;
    print_flags(text, input, item.flags)?;
    text.push_str(NEXT)
}

/// Adds where a field comes from.
#[tactic(auto, unfolding(crate::specs::Page::origin_cells))]
fn print_origin_cells(
    alloc: Global,
    text: &mut String,
    items: &[Item],
    m: usize,
    path: &[Collection],
) -> Result<(), AllocError>
    ensures { OnOk result (string_bytes text.new
        ≡ string_bytes text.old ++ origin_cells items.now m path.now) }
{
    print_path_cell(alloc, text, path)?;
    text.push_str(NEXT)?;
    print_links_cell(text, items, m)?;
    text.push_str("</td></tr>\n")
}

/// What a row is made of.
#[derive(Clone, Copy)]
struct Row<'a> {
    item: &'a MainItem,
    entries: &'a [(Usage, Usage)],
    path: &'a [Collection],
}

/// Adds the row of a field.
#[tactic(auto, unfolding(crate::specs::Page::field_row))]
fn print_field_row(
    alloc: Global,
    text: &mut String,
    layout: &Layout,
    items: &[Item],
    mains: &[usize],
    i: usize,
    row: Row<'_>,
) -> Result<(), AllocError>
    requires lies { SliceLiesIn layout.now row.item.now }
    requires whole { All IsWholeItem items.now }
    ensures { OnOk result (string_bytes text.new ≡ string_bytes text.old
        ++ field_row layout.now items.now mains.now i row.entry.item.now row.entry.entries.now row.entry.path.now) }
{
    print_place_cells(text, layout, i, row.item)?;
    let input = is_input_item(layout, row.item);
    let m = main_at(mains, i);
    print_meaning_cells(alloc, text, items, m, input, row.item, row.entries)?;
    print_origin_cells(alloc, text, items, m, row.path)
}

/// Adds the row of the listed item i, where it stands in the report.
fn print_field_row_at(
    alloc: Global,
    text: &mut String,
    layout: &Layout,
    items: &[Item],
    mains: &[usize],
    r: usize,
    i: usize,
) -> Result<(), AllocError>
    requires item { i < length layout.now.items }
    requires whole { All IsWholeItem items.now }
    ensures { OnOk result (string_bytes text.new
        ≡ string_bytes text.old ++ field_row_of layout.now items.now mains.now r i) }
{
    let item = item_at(layout, i);
    let entries = layout.entries(i);
    let path = layout.path(i);
    if item.report != r {
        return Ok(());
    }
    let row = Row {
        item,
        entries,
        path,
    };
    print_field_row(alloc, text, layout, items, mains, i, row)
}

/// Adds the rows of a report's fields.
#[tactic(auto, unfolding(crate::specs::Page::field_rows))]
fn print_field_rows(
    alloc: Global,
    text: &mut String,
    layout: &Layout,
    items: &[Item],
    mains: &[usize],
    r: usize,
) -> Result<(), AllocError>
    requires { All IsWholeItem items.now }
    ensures { OnOk result (string_bytes text.new
        ≡ string_bytes text.old ++ field_rows layout.now items.now mains.now r) }
{
    for i in 0..layout.items().len() {
        print_field_row_at(alloc, text, layout, items, mains, r, i)?;
    }
    Ok(())
}

/// Adds the fields of a report as a table.
///
/// # Errors
/// Out of memory; part of the text may be added then.
#[tactic(auto, unfolding(crate::specs::Page::field_table))]
pub fn print_field_table(
    alloc: Global,
    text: &mut String,
    layout: &Layout,
    items: &[Item],
    mains: &[usize],
    r: usize,
) -> Result<(), AllocError>
    requires { All IsWholeItem items.now }
    ensures { OnOk result (string_bytes text.new
        ≡ string_bytes text.old ++ field_table layout.now items.now mains.now r) }
{
    text.push_str(FIELDS_HEAD)?;
    print_field_rows(alloc, text, layout, items, mains, r)?;
    text.push_str(TABLE_END)
}
