//! The windows of a picture: its parts of n bytes, printed in its place, since a sheet of paper may be shorter than a
//! report.

ghost use Rattle.std.specs.Prelude.{◌≡◌, ◌++◌, ◌<◌, length, OnOk, string_bytes};
ghost use Rattle.hid_layout.specs.Reports.{report_bytes};
ghost use Rattle.hid_page.specs.Page.{windows_of};
ghost use Rattle.hid_page.specs.Windows.{window_count, cut_above, window_box, window_use, window, windows_by, windows};

use crate::brackets::brackets_in;
use hid_drawing::{
    RIGHT, bracket_depth, gap_of, name_left, pieces_of, report_at, row_top, rows_of,
};
use hid_items::Item;
use hid_layout::Layout;
use std::alloc::{AllocError, Global};

/// The bytes of a window: as many rows as the smaller of the usual sheets holds below a heading.
pub const WINDOW: u32 = 16;

/// What a window begins with. It is shown in print alone, where the picture isn't.
pub const WINDOW_HEAD: &str = "<svg class='m w' aria-hidden='true' viewBox='0 ";

/// The bytes of the report r.
fn bytes_of(layout: &Layout, r: usize) -> u32
    requires { r < length layout.now.reports }
    ensures { result ≡ report_bytes layout.now r }
{
    let bits = u64::from(report_at(layout, r).bits);
    let id_bytes = if layout.numbered() { 1 } else { 0 };
    ((bits + 7) / 8) as u32 + id_bytes
}

/// How many windows a report of n bytes has.
fn window_count(bytes: u32) -> u32
    ensures { result ≡ window_count bytes }
{
    if bytes > WINDOW {
        (bytes - 1) / WINDOW + 1
    } else {
        0
    }
}

/// Where a picture is cut above a byte.
fn cut_above(depth: usize, rows: &[u16], bytes: u32, byte: u64) -> u64
    ensures { result ≡ cut_above depth rows.now bytes byte }
{
    if byte == 0 {
        0
    } else if byte < u64::from(bytes) {
        row_top(depth, rows, byte as u32).saturating_sub(gap_of(depth) / 2)
    } else {
        row_top(depth, rows, bytes)
    }
}

/// Adds the numbers of a window.
#[tactic(auto, unfolding(crate::specs::Windows::window_box))]
fn print_box(text: &mut String, top: u64, width: u64, height: u64) -> Result<(), AllocError>
    ensures { OnOk result (string_bytes text.new
        ≡ string_bytes text.old ++ window_box top width height) }
{
    write!(text, "{top} {width} {height}")
}

/// Adds what a window shows.
#[tactic(auto, unfolding(crate::specs::Windows::window_use))]
fn print_use(text: &mut String, r: usize) -> Result<(), AllocError>
    ensures { OnOk result (string_bytes text.new ≡ string_bytes text.old ++ window_use r) }
{
    write!(text, "'><use href='#g{r}'/></svg>")
}

/// Adds a window of a picture.
#[tactic(auto, unfolding(crate::specs::Windows::window))]
fn print_window(
    text: &mut String,
    r: usize,
    depth: usize,
    rows: &[u16],
    bytes: u32,
    k: u32,
) -> Result<(), AllocError>
    ensures { OnOk result (string_bytes text.new
        ≡ string_bytes text.old ++ window r depth rows.now bytes k) }
{
    let top = cut_above(depth, rows, bytes, u64::from(WINDOW) * u64::from(k));
    let end = cut_above(depth, rows, bytes, u64::from(WINDOW) * (u64::from(k) + 1));
    text.push_str(WINDOW_HEAD)?;
    print_box(text, top, name_left(depth) + RIGHT, end.saturating_sub(top))?;
    print_use(text, r)?;
    text.push_str("\n")
}

/// Adds the windows of a picture, by the lines of its rows.
#[tactic(auto, unfolding(crate::specs::Windows::windows_by))]
fn print_windows_by(
    text: &mut String,
    r: usize,
    depth: usize,
    rows: &[u16],
    bytes: u32,
) -> Result<(), AllocError>
    ensures { OnOk result (string_bytes text.new
        ≡ string_bytes text.old ++ windows_by r depth rows.now bytes) }
{
    for k in 0..window_count(bytes) {
        print_window(text, r, depth, rows, bytes, k)?;
    }
    Ok(())
}

/// Adds the windows of a report's picture, for a layout with the items of its descriptor and the places of its main items.
///
/// # Errors
/// Out of memory; part of the text may be added then.
#[tactic(auto, unfolding(crate::specs::Windows::windows, crate::specs::Page::windows_of))]
pub fn print_windows(
    alloc: Global,
    text: &mut String,
    layout: &Layout,
    items: &[Item],
    mains: &[usize],
    r: usize,
) -> Result<(), AllocError>
    requires { r < length layout.now.reports }
    ensures { OnOk result (string_bytes text.new
        ≡ string_bytes text.old ++ windows_of layout.now items.now mains.now r) }
{
    let bytes = bytes_of(layout, r);
    let brackets = brackets_in(alloc, layout, items, mains, r)?;
    let pieces = pieces_of(alloc, layout, r)?;
    let rows = rows_of(alloc, layout, r, bytes, &brackets, &pieces)?;
    print_windows_by(text, r, bracket_depth(&brackets), &rows, bytes)
}
