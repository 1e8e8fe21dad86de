//! The page of a descriptor: pictures, the fields as tables, and the items with their places.

ghost use Rattle.std.specs.Prelude.{◌≡◌, ◌++◌, ◌<◌, ◌≤◌, All, length, slice_get, OnOk, string_bytes};
ghost use Rattle.hid_drawing.specs.Items.{IsWholeItem};
ghost use Rattle.hid_page.specs.Page.{heading, heading_at, svg_of, characters_of, figure_of, is_drawn, section, sections, page_of, refusal_page, refused_page};

use crate::brackets::brackets_in;
use crate::field_table::{print_field_table, print_mark_rules};
use crate::item_table::print_item_table;
use crate::windows::print_windows;
use hid_drawing::{
    MAX_DRAWN, pieces_of, print_count, print_picture, print_report_name, print_terminal,
    push_escaped, report_at,
};
use hid_items::Item;
use hid_layout::{Layout, Report};
use std::alloc::{AllocError, Global};

/// What a page begins with.
pub const HEAD: &str =
    "<!DOCTYPE html>\n<html lang='en'><head><meta charset='utf-8'><meta name='viewport' content='width=device-width'><title>Reports of a HID device</title>\n<style>.w{display:none}:root{color-scheme:light dark;--ink:#1b1b1b;--paper:#ffffff;--rule:#c4c4c4;--mark:#ffe9a8;--link:#0b4fa8}@media (prefers-color-scheme:dark){:root{--ink:#f0f0f0;--paper:#161616;--rule:#4a4a4a;--mark:#5c4a00;--link:#8ab8ff}}@media print{:root{--ink:#000;--paper:#fff;--mark:#fff;--link:#000}svg,tr{break-inside:avoid}h2{break-after:avoid}.x{overflow:visible}.w{display:block}.m:not(.w):has(+.w){display:none}html body{font-size:11px;margin:0}td code{font-size:10px}}body{font:15px/1.45 system-ui,sans-serif;color:var(--ink);background:var(--paper);margin:1.5em auto;max-width:76em;padding:0 1em}h1{font-size:1.5em}h2{font-size:1.2em;margin-top:2em}table{border-collapse:collapse}th,td{text-align:left;vertical-align:top;padding:.2em .8em .2em 0;border-bottom:1px solid var(--rule)}tr[class]>:nth-child(-n+3){white-space:nowrap}code{font:13px/1.5 ui-monospace,monospace}td a{color:var(--link)}.fault{font-weight:600}.x{overflow-x:auto}\n";

/// What stands in front of the reports.
pub const ACCEPTED: &str = "</style></head><body>\n<h1>Reports of a HID device</h1>\n";

/// What stands in front of a refusal.
pub const REFUSED: &str =
    "</style></head><body>\n<h1>A report descriptor that is refused</h1>\n<p class='fault'>";

/// What a page ends with.
pub const END: &str = "</body></html>\n";

/// What stands on a page in place of a picture.
pub const NO_PICTURE: &str = "<p>Not drawn: a picture has up to 1000 bytes.</p>\n";

/// Whether the report r is drawn: it has at most [`MAX_DRAWN`] bytes.
pub(crate) fn is_drawn(layout: &Layout, r: usize) -> bool
    requires { r < length layout.now.reports }
    ensures { result ≡ is_drawn layout.now r }
{
    layout.report_bytes(r) <= MAX_DRAWN
}

/// Adds the heading of a report.
#[tactic(auto, unfolding(crate::specs::Page::heading))]
fn print_heading(
    text: &mut String,
    numbered: bool,
    bytes: u64,
    report: &Report,
) -> Result<(), AllocError>
    ensures { OnOk result (string_bytes text.new
        ≡ string_bytes text.old ++ heading numbered bytes report.now) }
{
    text.push_str("<h2>")?;
    print_report_name(text, numbered, report)?;
    text.push_str(": ")?;
    print_count(text, bytes, "byte")?;
    text.push_str("</h2>\n")
}

/// Adds the heading of the report r.
fn print_heading_at(text: &mut String, layout: &Layout, r: usize) -> Result<(), AllocError>
    requires { r < length layout.now.reports }
    ensures { OnOk result (string_bytes text.new ≡ string_bytes text.old
        ++ heading_at layout.now r (slice_get layout.now.reports r)) }
{
    let report = report_at(layout, r);
    let bytes = layout.report_bytes(r) as u64;
    print_heading(text, layout.numbered(), bytes, report)
}

/// Adds the picture of the report r, for a layout with the items of its descriptor and the places of its main items.
///
/// # Errors
/// Out of memory; part of the text may be added then.
#[tactic(auto, unfolding(crate::specs::Page::svg_of))]
pub fn print_svg(
    alloc: Global,
    text: &mut String,
    layout: &Layout,
    items: &[Item],
    mains: &[usize],
    r: usize,
) -> Result<(), AllocError>
    requires { r < length layout.now.reports }
    ensures { OnOk result (string_bytes text.new
        ≡ string_bytes text.old ++ svg_of layout.now items.now mains.now r) }
{
    let brackets = brackets_in(alloc, layout, items, mains, r)?;
    let pieces = pieces_of(alloc, layout, r)?;
    print_picture(alloc, text, layout, r, &brackets, &pieces)
}

/// Adds the same picture in characters, for a terminal of so many columns.
///
/// # Errors
/// Out of memory; part of the text may be added then.
#[tactic(auto, unfolding(crate::specs::Page::characters_of))]
pub fn print_characters(
    alloc: Global,
    text: &mut String,
    width: u16,
    layout: &Layout,
    items: &[Item],
    mains: &[usize],
    r: usize,
) -> Result<(), AllocError>
    requires { r < length layout.now.reports }
    ensures { OnOk result (string_bytes text.new
        ≡ string_bytes text.old ++ characters_of width layout.now items.now mains.now r) }
{
    let brackets = brackets_in(alloc, layout, items, mains, r)?;
    let pieces = pieces_of(alloc, layout, r)?;
    print_terminal(alloc, text, width, layout, r, &brackets, &pieces)
}

/// Adds the picture of the report r and its windows, or that it isn't drawn.
fn print_figure(
    alloc: Global,
    text: &mut String,
    layout: &Layout,
    items: &[Item],
    mains: &[usize],
    r: usize,
) -> Result<(), AllocError>
    requires { r < length layout.now.reports }
    ensures { OnOk result (string_bytes text.new
        ≡ string_bytes text.old ++ figure_of layout.now items.now mains.now r) }
{
    if is_drawn(layout, r) {
        print_svg(alloc, text, layout, items, mains, r)?;
        print_windows(alloc, text, layout, items, mains, r)
    } else {
        text.push_str(NO_PICTURE)
    }
}

/// Adds what a page has of the report r.
#[tactic(auto, unfolding(crate::specs::Page::section))]
fn print_section(
    alloc: Global,
    text: &mut String,
    layout: &Layout,
    items: &[Item],
    mains: &[usize],
    r: usize,
) -> Result<(), AllocError>
    requires report { r < length layout.now.reports }
    requires whole { All IsWholeItem items.now }
    ensures { OnOk result (string_bytes text.new
        ≡ string_bytes text.old ++ section layout.now items.now mains.now r) }
{
    print_heading_at(text, layout, r)?;
    print_figure(alloc, text, layout, items, mains, r)?;
    print_field_table(alloc, text, layout, items, mains, r)
}

/// Adds what a page has of the reports.
#[tactic(auto, unfolding(crate::specs::Page::sections))]
fn print_sections(
    alloc: Global,
    text: &mut String,
    layout: &Layout,
    items: &[Item],
    mains: &[usize],
) -> Result<(), AllocError>
    requires { All IsWholeItem items.now }
    ensures { OnOk result (string_bytes text.new
        ≡ string_bytes text.old ++ sections layout.now items.now mains.now) }
{
    for r in 0..layout.reports().len() {
        print_section(alloc, text, layout, items, mains, r)?;
    }
    Ok(())
}

/// Adds the page of a layout, with the items of its descriptor and the places of its main items.
///
/// # Errors
/// Out of memory; part of the text may be added then.
#[tactic(auto, unfolding(crate::specs::Page::page_of))]
pub fn print_page(
    alloc: Global,
    text: &mut String,
    layout: &Layout,
    items: &[Item],
    mains: &[usize],
) -> Result<(), AllocError>
    requires { All IsWholeItem items.now }
    ensures { OnOk result (string_bytes text.new
        ≡ string_bytes text.old ++ page_of layout.now items.now mains.now) }
{
    text.push_str(HEAD)?;
    print_mark_rules(text, items, mains)?;
    text.push_str(ACCEPTED)?;
    print_sections(alloc, text, layout, items, mains)?;
    print_item_table(alloc, text, items)?;
    text.push_str(END)
}

/// Adds why a descriptor is refused.
#[tactic(auto, unfolding(crate::specs::Page::refusal_page))]
fn print_refusal(text: &mut String, words: &str) -> Result<(), AllocError>
    ensures { OnOk result
        (string_bytes text.new ≡ string_bytes text.old ++ refusal_page words.now) }
{
    push_escaped(text, words.as_bytes())?;
    text.push_str("</p>\n")
}

/// Adds the page of a descriptor that is refused, with its first items.
///
/// # Errors
/// Out of memory; part of the text may be added then.
#[tactic(auto, unfolding(crate::specs::Page::refused_page))]
pub fn print_refused(
    alloc: Global,
    text: &mut String,
    items: &[Item],
    count: usize,
    words: &str,
) -> Result<(), AllocError>
    requires within { count ≤ length items.now }
    requires whole { All IsWholeItem items.now }
    ensures { OnOk result (string_bytes text.new
        ≡ string_bytes text.old ++ refused_page items.now count words.now) }
{
    text.push_str(HEAD)?;
    text.push_str(REFUSED)?;
    print_refusal(text, words)?;
    print_item_table(alloc, text, &items[..count])?;
    text.push_str(END)
}
