//! The picture of a report: a row of eight bits for each byte, bit 7 at the left.

ghost use Rattle.std.specs.Prelude.{◌≡◌, ◌++◌, ◌<◌, ◌≤◌, ◌^◌, length, slice_get, Some, OnOk, string_bytes};
ghost use Rattle.hid_drawing.specs.Escape.{escaped_words};
ghost use Rattle.hid_drawing.specs.Brackets.{bracket_depth};
ghost use Rattle.hid_drawing.specs.Words.{piece_name};
ghost use Rattle.hid_drawing.specs.BracketNames.{bracket_name};
ghost use Rattle.hid_drawing.specs.Svg.{area_text, color_class, field_class, part_class, part_description, cell_title, line_class, line_head, text_line, text_lines, cell_words, edge_text, cell_head, cell_text, bracket_title, label_head, label_line, label_lines, bracket_label, bracket_backdrop, brackets_text, cells_text, bit_number, bit_ruler, byte_number, byte_ruler, rulers, measures, opening, description, picture_head, picture_by, picture_at};

use crate::areas::{
    Area, LINE, RIGHT, bit_middle, bracket_area, cell_height, left_of, name_left, piece_area,
    row_top,
};
use crate::bracket_names::print_bracket_name;
use crate::brackets::{Bracket, bracket_depth};
use crate::captions::{
    print_count, print_part_details, print_part_flags, print_piece_name, print_place,
    print_report_name,
};
use crate::escape::push_escaped;
use crate::lines::{
    Medium, NAME_COLUMNS, both_counts, columns_of, line_count, line_of, lines_in_front, rows_of,
};
use crate::lookups::{item_at, report_at};
use crate::pieces::{BitSource, ByteSlice};
use hid_layout::{Layout, MainItem, Report, Shape};
use std::alloc::{AllocError, Global};

/// What a picture begins with.
pub const OPENING: &str = "<svg xmlns='http://www.w3.org/2000/svg' class='m' role='group'";

/// The edge of a cell up to its height.
pub const EDGE: &str = "><rect x='0' y='1' width='100%' height='";

/// How a picture is drawn, also where it stands alone: each color plainly too, for programs that know no variables of CSS.
#[rattlefmt::skip]
pub const STYLE: &str = ".m{color-scheme:light dark;background:#fff;background:var(--paper);--paper:#fff;--ink:#1b1b1b;--soft:#5c5c5c;--line:#767676;--frame:#8a5a00;--pad:#eee;--k0:#cfe3ff;--k1:#ffe0bd;--k2:#d3f0c8;--k3:#f6d2e4;--k4:#e2daf8;--k5:#fdf0a6;font:12px system-ui,sans-serif;width:100%;max-width:1200px;height:auto}@media (prefers-color-scheme:dark){.m{--paper:#161616;--ink:#f0f0f0;--soft:#b4b4b4;--line:#9a9a9a;--frame:#e0b050;--pad:#2c2c2c;--k0:#1d3f6b;--k1:#6b431a;--k2:#24501a;--k3:#662344;--k4:#42337a;--k5:#5c5200}}@media print{.m{--paper:#fff;--ink:#000;--soft:#333;--line:#000;--frame:#555;--pad:#fff;--k0:#fff;--k1:#fff;--k2:#fff;--k3:#fff;--k4:#fff;--k5:#fff}}text{fill:#1b1b1b;fill:var(--ink)}.n{font-weight:600}.d{font-size:11px}.r{fill:#5c5c5c;fill:var(--soft);font-size:11px}text.o{fill:#8a5a00;fill:var(--frame);font-size:11px}rect{stroke:#767676;stroke:var(--line);stroke-width:1.5;fill:#eee;fill:var(--pad)}.p rect{stroke-dasharray:3 3}.k0 rect{fill:#cfe3ff;fill:var(--k0)}.k1 rect{fill:#ffe0bd;fill:var(--k1)}.k2 rect{fill:#d3f0c8;fill:var(--k2)}.k3 rect{fill:#f6d2e4;fill:var(--k3)}.k4 rect{fill:#e2daf8;fill:var(--k4)}.k5 rect{fill:#fdf0a6;fill:var(--k5)}rect.o{fill:none;stroke:#8a5a00;stroke:var(--frame)}a:hover rect,a:focus rect{stroke:#1b1b1b;stroke:var(--ink);stroke-width:4}";

/// Adds where an area lies, as attributes.
#[tactic(auto, unfolding(crate::specs::Svg::area_text))]
fn print_area(text: &mut String, area: Area) -> Result<(), AllocError>
    ensures { OnOk result (string_bytes text.new ≡ string_bytes text.old ++ area_text area) }
{
    let Area {
        x,
        y,
        width,
        height,
    } = area;
    write!(text, " x='{x}' y='{y}' width='{width}' height='{height}'")
}

/// Adds the color of a listed item: one of six, and another one for padding.
fn print_color(text: &mut String, item: usize, shape: Shape) -> Result<(), AllocError>
    ensures { OnOk result (string_bytes text.new
        ≡ string_bytes text.old ++ color_class item shape) }
{
    match shape {
        Shape::Padding => text.push_str("p"),
        Shape::Variable | Shape::Array => {
            let color = item % 6;
            write!(text, "k{color}")
        }
    }
}

/// Adds the class of a listed item, and where its cell leads.
fn print_field_class(text: &mut String, item: usize, main: &MainItem) -> Result<(), AllocError>
    ensures { OnOk result (string_bytes text.new
        ≡ string_bytes text.old ++ field_class item (Some main.now)) }
{
    text.push_str(" class='")?;
    print_color(text, item, main.shape)?;
    write!(text, " f{item}' href='#f{item}'")
}

/// Adds the class of a part. The edge of a Report ID is solid, as that of a field.
#[tactic(auto, unfolding(crate::specs::Svg::part_class))]
fn print_part_class(text: &mut String, layout: &Layout, part: BitSource) -> Result<(), AllocError>
    ensures { OnOk result (string_bytes text.new
        ≡ string_bytes text.old ++ part_class layout.now part) }
{
    match part {
        BitSource::ReportId => text.push_str(" class='i'"),
        BitSource::FinalPadding => text.push_str(" class='p'"),
        BitSource::Field { item, .. } => {
            if item >= layout.items().len() {
                return Ok(());
            }
            print_field_class(text, item, item_at(layout, item))
        }
    }
}

/// Adds what a piece is called, as it stands in a page.
fn print_escaped_name(
    alloc: Global,
    text: &mut String,
    layout: &Layout,
    piece: &ByteSlice,
) -> Result<(), AllocError>
    ensures { OnOk result (string_bytes text.new
        ≡ string_bytes text.old ++ escaped_words (piece_name layout.now piece.now)) }
{
    let mut name = String::new(alloc);
    print_piece_name(&mut name, layout, piece)?;
    push_escaped(text, name.as_bytes())
}

/// Adds what is said of a part after its place.
#[tactic(auto, unfolding(crate::specs::Svg::part_description))]
fn print_part_description(
    text: &mut String,
    layout: &Layout,
    r: usize,
    part: BitSource,
) -> Result<(), AllocError>
    requires { r < length layout.now.reports }
    ensures { OnOk result (string_bytes text.new
        ≡ string_bytes text.old ++ part_description layout.now r part) }
{
    match part {
        BitSource::FinalPadding => Ok(()),
        BitSource::ReportId => {
            text.push_str("; ")?;
            print_part_details(text, layout, r, part)
        }
        BitSource::Field { .. } => {
            text.push_str("; ")?;
            print_part_details(text, layout, r, part)?;
            text.push_str("; ")?;
            print_part_flags(text, layout, part)
        }
    }
}

/// Adds what a cell is read as.
#[tactic(auto, unfolding(crate::specs::Svg::cell_title))]
fn print_title(
    alloc: Global,
    text: &mut String,
    layout: &Layout,
    r: usize,
    piece: &ByteSlice,
) -> Result<(), AllocError>
    requires { r < length layout.now.reports }
    ensures { OnOk result (string_bytes text.new
        ≡ string_bytes text.old ++ cell_title layout.now r piece.now) }
{
    text.push_str("<title>")?;
    print_escaped_name(alloc, text, layout, piece)?;
    text.push_str(": ")?;
    print_place(text, piece)?;
    print_part_description(text, layout, r, piece.part)?;
    text.push_str("</title>")
}

/// The class of a line.
fn line_class(count: u16, k: u16) -> &'static str
    ensures { result.now ≡ line_class count k }
{
    if k < count { "n" } else { "d" }
}

/// Adds where a line of a cell begins.
#[tactic(auto, unfolding(crate::specs::Svg::line_head))]
fn print_line_head(text: &mut String, count: u16, k: u16, y: u64) -> Result<(), AllocError>
    ensures { OnOk result (string_bytes text.new
        ≡ string_bytes text.old ++ line_head count k y) }
{
    text.push_str("<text class='")?;
    text.push_str(line_class(count, k))?;
    text.push_str("' x='6' y='")?;
    write!(text, "{y}")?;
    text.push_str("'>")
}

/// Adds a line of two texts, one below the other.
#[tactic(auto, unfolding(crate::specs::Svg::text_line))]
fn print_text_line(
    text: &mut String,
    name: &[u8],
    details: &[u8],
    columns: usize,
    k: u16,
) -> Result<(), AllocError>
    ensures { OnOk result (string_bytes text.new
        ≡ string_bytes text.old ++ text_line name.now details.now columns k) }
{
    print_line_head(text, line_count(name, columns), k, 15 + LINE * u64::from(k))?;
    push_escaped(text, line_of(name, details, columns, k))?;
    text.push_str("</text>")
}

/// Adds the lines of two texts.
#[tactic(auto, unfolding(crate::specs::Svg::text_lines))]
fn print_text_lines(
    text: &mut String,
    name: &[u8],
    details: &[u8],
    columns: usize,
) -> Result<(), AllocError>
    ensures { OnOk result (string_bytes text.new
        ≡ string_bytes text.old ++ text_lines name.now details.now columns) }
{
    for k in 0..both_counts(name, details, columns) {
        print_text_line(text, name, details, columns, k)?;
    }
    Ok(())
}

/// Adds what a cell shows.
#[tactic(auto, unfolding(crate::specs::Svg::cell_words))]
fn print_words(
    alloc: Global,
    text: &mut String,
    layout: &Layout,
    r: usize,
    piece: &ByteSlice,
) -> Result<(), AllocError>
    requires { r < length layout.now.reports }
    ensures { OnOk result (string_bytes text.new
        ≡ string_bytes text.old ++ cell_words layout.now r piece.now) }
{
    let mut name = String::new(alloc);
    print_piece_name(&mut name, layout, piece)?;
    let mut details = String::new(alloc);
    print_part_details(&mut details, layout, r, piece.part)?;
    print_text_lines(
        text,
        name.as_bytes(),
        details.as_bytes(),
        columns_of(Medium::Svg, piece),
    )
}

/// Adds the edge of a cell.
#[tactic(auto, unfolding(crate::specs::Svg::edge_text))]
fn print_edge(text: &mut String, height: u64) -> Result<(), AllocError>
    ensures { OnOk result (string_bytes text.new ≡ string_bytes text.old ++ edge_text height) }
{
    let inner = height.saturating_sub(2);
    text.push_str(EDGE)?;
    write!(text, "{inner}")?;
    text.push_str("' rx='3'/>")
}

/// Adds the class of a cell and the area in which it lies.
#[tactic(auto, unfolding(crate::specs::Svg::cell_head))]
fn print_cell_head(
    text: &mut String,
    layout: &Layout,
    depth: usize,
    rows: &[u16],
    piece: &ByteSlice,
) -> Result<(), AllocError>
    ensures { OnOk result (string_bytes text.new
        ≡ string_bytes text.old ++ cell_head layout.now depth rows.now piece.now) }
{
    text.push_str("<a")?;
    print_part_class(text, layout, piece.part)?;
    text.push_str("><svg")?;
    print_area(text, piece_area(depth, rows, piece))?;
    print_edge(text, cell_height(rows, piece.byte))
}

/// Adds a cell, which stands where its piece says.
#[tactic(auto, unfolding(crate::specs::Svg::cell_text))]
fn print_cell(
    alloc: Global,
    text: &mut String,
    layout: &Layout,
    r: usize,
    depth: usize,
    rows: &[u16],
    piece: &ByteSlice,
) -> Result<(), AllocError>
    requires { r < length layout.now.reports }
    ensures { OnOk result (string_bytes text.new
        ≡ string_bytes text.old ++ cell_text layout.now r depth rows.now piece.now) }
{
    print_cell_head(text, layout, depth, rows, piece)?;
    print_title(alloc, text, layout, r, piece)?;
    print_words(alloc, text, layout, r, piece)?;
    text.push_str("</svg></a>\n")
}

/// Adds what a bracket is called, as it stands in a page.
fn print_escaped_bracket(
    alloc: Global,
    text: &mut String,
    layout: &Layout,
    bracket: &Bracket,
) -> Result<(), AllocError>
    ensures { OnOk result (string_bytes text.new
        ≡ string_bytes text.old ++ escaped_words (bracket_name layout.now bracket.now)) }
{
    let mut name = String::new(alloc);
    print_bracket_name(&mut name, layout, bracket)?;
    push_escaped(text, name.as_bytes())
}

/// Adds what a bracket is read as.
#[tactic(auto, unfolding(crate::specs::Svg::bracket_title))]
fn print_bracket_title(
    alloc: Global,
    text: &mut String,
    layout: &Layout,
    bracket: &Bracket,
) -> Result<(), AllocError>
    ensures { OnOk result (string_bytes text.new
        ≡ string_bytes text.old ++ bracket_title layout.now bracket.now) }
{
    let Bracket { first, last, .. } = *bracket;
    text.push_str("<g><title>")?;
    print_escaped_bracket(alloc, text, layout, bracket)?;
    write!(text, ": bytes {first} to {last}</title>")
}

/// Adds where a name begins.
#[tactic(auto, unfolding(crate::specs::Svg::label_head))]
fn print_label_head(text: &mut String, x: u64, y: u64) -> Result<(), AllocError>
    ensures { OnOk result (string_bytes text.new ≡ string_bytes text.old ++ label_head x y) }
{
    write!(text, "<text class='o' x='{x}' y='{y}'>")
}

/// Adds a line of the name beside a bracket.
#[tactic(auto, unfolding(crate::specs::Svg::label_line))]
fn print_label_line(
    text: &mut String,
    depth: usize,
    top: u64,
    name: &[u8],
    k: u16,
) -> Result<(), AllocError>
    requires { top ≤ 2 ^ 60 }
    ensures { OnOk result (string_bytes text.new
        ≡ string_bytes text.old ++ label_line depth top name.now k) }
{
    print_label_head(text, name_left(depth), top + LINE * u64::from(k))?;
    push_escaped(text, line_of(name, &[], NAME_COLUMNS, k))?;
    text.push_str("</text>")
}

/// Adds the name beside a bracket.
#[tactic(auto, unfolding(crate::specs::Svg::label_lines))]
fn print_label_lines(
    text: &mut String,
    depth: usize,
    top: u64,
    name: &[u8],
) -> Result<(), AllocError>
    requires { top ≤ 2 ^ 60 }
    ensures { OnOk result (string_bytes text.new
        ≡ string_bytes text.old ++ label_lines depth top name.now) }
{
    for k in 0..line_count(name, NAME_COLUMNS) {
        print_label_line(text, depth, top, name, k)?;
    }
    text.push_str("</g>\n")
}

/// Adds the name beside a bracket, below n other lines.
#[tactic(auto, unfolding(crate::specs::Svg::bracket_label))]
fn print_bracket_label(
    alloc: Global,
    text: &mut String,
    layout: &Layout,
    depth: usize,
    rows: &[u16],
    front: u16,
    bracket: &Bracket,
) -> Result<(), AllocError>
    ensures { OnOk result (string_bytes text.new
        ≡ string_bytes text.old ++ bracket_label layout.now depth rows.now front bracket.now) }
{
    let mut name = String::new(alloc);
    print_bracket_name(&mut name, layout, bracket)?;
    let top = row_top(depth, rows, bracket.first) + 11 + LINE * u64::from(front);
    print_label_lines(text, depth, top, name.as_bytes())
}

/// Adds the bracket of a collection, with its name beside it.
#[tactic(auto, unfolding(crate::specs::Svg::bracket_backdrop, crate::specs::Svg::bracket_text))]
fn print_bracket(
    alloc: Global,
    text: &mut String,
    layout: &Layout,
    depth: usize,
    rows: &[u16],
    brackets: &[Bracket],
    k: usize,
    bracket: &Bracket,
) -> Result<(), AllocError>
    requires { k ≤ length brackets.now }
    ensures { OnOk result (string_bytes text.new ≡ string_bytes text.old
        ++ bracket_backdrop layout.now depth rows.now brackets.now k (Some bracket.now)) }
{
    let front = lines_in_front(alloc, layout, brackets, bracket.first, k)?;
    print_bracket_title(alloc, text, layout, bracket)?;
    text.push_str("<rect class='o' rx='4'")?;
    print_area(text, bracket_area(depth, rows, bracket))?;
    text.push_str("/>")?;
    print_bracket_label(alloc, text, layout, depth, rows, front, bracket)
}

/// Adds the number above a bit.
#[tactic(auto, unfolding(crate::specs::Svg::bit_number))]
fn print_bit_number(text: &mut String, left: u64, k: u64) -> Result<(), AllocError>
    requires { left ≤ 1000 }
    ensures { OnOk result (string_bytes text.new ≡ string_bytes text.old ++ bit_number left k) }
{
    let x = bit_middle(left, k);
    write!(
        text,
        "<text class='r' text-anchor='middle' x='{x}' y='14'>{k}</text>"
    )
}

/// Adds the number beside a byte.
#[tactic(auto, unfolding(crate::specs::Svg::byte_number))]
fn print_byte_number(
    text: &mut String,
    depth: usize,
    rows: &[u16],
    b: u32,
) -> Result<(), AllocError>
    ensures { OnOk result (string_bytes text.new
        ≡ string_bytes text.old ++ byte_number depth rows.now b) }
{
    let y = row_top(depth, rows, b) + 22;
    write!(text, "<text class='r' x='0' y='{y}'>byte {b}</text>")
}

/// Adds the numbers above the bits.
#[tactic(auto, unfolding(crate::specs::Svg::bit_ruler))]
fn print_bit_ruler(text: &mut String, left: u64) -> Result<(), AllocError>
    requires { left ≤ 1000 }
    ensures { OnOk result (string_bytes text.new ≡ string_bytes text.old ++ bit_ruler left) }
{
    for k in 0..8u64 {
        print_bit_number(text, left, k)?;
    }
    Ok(())
}

/// Adds the numbers beside the bytes.
#[tactic(auto, unfolding(crate::specs::Svg::byte_ruler))]
fn print_byte_ruler(
    text: &mut String,
    depth: usize,
    rows: &[u16],
    bytes: u32,
) -> Result<(), AllocError>
    ensures { OnOk result (string_bytes text.new
        ≡ string_bytes text.old ++ byte_ruler depth rows.now bytes) }
{
    for b in 0..bytes {
        print_byte_number(text, depth, rows, b)?;
    }
    Ok(())
}

/// Adds the rulers of a report.
#[tactic(auto, unfolding(crate::specs::Svg::rulers))]
fn print_rulers(text: &mut String, depth: usize, rows: &[u16], bytes: u32) -> Result<(), AllocError>
    ensures { OnOk result (string_bytes text.new
        ≡ string_bytes text.old ++ rulers depth rows.now bytes) }
{
    print_bit_ruler(text, left_of(depth))?;
    print_byte_ruler(text, depth, rows, bytes)?;
    text.push_str("\n")
}

/// Adds the measures of a picture.
#[tactic(auto, unfolding(crate::specs::Svg::measures))]
fn print_measures(text: &mut String, width: u64, height: u64) -> Result<(), AllocError>
    ensures { OnOk result (string_bytes text.new
        ≡ string_bytes text.old ++ measures width height) }
{
    write!(text, " viewBox='0 0 {width} {height}'>")
}

/// Adds that a picture of this width and height begins.
#[tactic(auto, unfolding(crate::specs::Svg::opening))]
fn print_opening(text: &mut String, width: u64, height: u64) -> Result<(), AllocError>
    ensures { OnOk result (string_bytes text.new
        ≡ string_bytes text.old ++ opening width height) }
{
    text.push_str(OPENING)?;
    print_measures(text, width, height)
}

/// Adds what a picture is.
#[tactic(auto, unfolding(crate::specs::Svg::description))]
fn print_description(
    text: &mut String,
    numbered: bool,
    bytes: u64,
    report: &Report,
) -> Result<(), AllocError>
    ensures { OnOk result (string_bytes text.new
        ≡ string_bytes text.old ++ description numbered bytes report.now) }
{
    text.push_str("<title>")?;
    print_report_name(text, numbered, report)?;
    text.push_str("</title><desc>")?;
    print_count(text, bytes, "byte")?;
    text.push_str(", a row each, bit 7 at the left; each cell is a field.</desc>")
}

/// Adds what a picture begins with.
#[tactic(auto, unfolding(crate::specs::Svg::picture_head))]
fn print_head(
    text: &mut String,
    numbered: bool,
    depth: usize,
    rows: &[u16],
    bytes: u32,
    report: &Report,
) -> Result<(), AllocError>
    ensures { OnOk result (string_bytes text.new
        ≡ string_bytes text.old ++ picture_head numbered depth rows.now bytes report.now) }
{
    print_opening(text, name_left(depth) + RIGHT, row_top(depth, rows, bytes))?;
    print_description(text, numbered, u64::from(bytes), report)?;
    text.push_str("<style>")?;
    text.push_str(STYLE)?;
    text.push_str("</style>\n")
}

/// The bracket at a place.
fn bracket_at(brackets: &[Bracket], k: usize) -> &Bracket
    requires { k < length brackets.now }
    ensures { slice_get brackets.now k ≡ Some result.now }
{
    &brackets[k]
}

/// Adds the brackets of a report.
#[tactic(auto, unfolding(crate::specs::Svg::brackets_text))]
fn print_brackets(
    alloc: Global,
    text: &mut String,
    layout: &Layout,
    depth: usize,
    rows: &[u16],
    brackets: &[Bracket],
) -> Result<(), AllocError>
    ensures { OnOk result (string_bytes text.new
        ≡ string_bytes text.old ++ brackets_text layout.now depth rows.now brackets.now) }
{
    for k in 0..brackets.len() {
        print_bracket(
            alloc,
            text,
            layout,
            depth,
            rows,
            brackets,
            k,
            bracket_at(brackets, k),
        )?;
    }
    Ok(())
}

/// Adds the cells of a report.
#[tactic(auto, unfolding(crate::specs::Svg::cells_text))]
fn print_cells(
    alloc: Global,
    text: &mut String,
    layout: &Layout,
    r: usize,
    depth: usize,
    rows: &[u16],
    pieces: &[ByteSlice],
) -> Result<(), AllocError>
    requires { r < length layout.now.reports }
    ensures { OnOk result (string_bytes text.new
        ≡ string_bytes text.old ++ cells_text layout.now r depth rows.now pieces.now) }
{
    for piece in pieces {
        print_cell(alloc, text, layout, r, depth, rows, piece)?;
    }
    Ok(())
}

/// Adds the picture of a report by the lines of its rows.
#[tactic(auto, unfolding(crate::specs::Svg::picture_by))]
fn print_by(
    alloc: Global,
    text: &mut String,
    layout: &Layout,
    r: usize,
    bytes: u32,
    brackets: &[Bracket],
    pieces: &[ByteSlice],
    report: &Report,
    rows: &[u16],
) -> Result<(), AllocError>
    requires { r < length layout.now.reports }
    ensures { OnOk result (string_bytes text.new ≡ string_bytes text.old
        ++ picture_by layout.now r bytes brackets.now pieces.now report.now
        (bracket_depth brackets.now) rows.now) }
{
    let depth = bracket_depth(brackets);
    print_head(text, layout.numbered(), depth, rows, bytes, report)?;
    write!(text, "<g id='g{r}'>")?;
    print_rulers(text, depth, rows, bytes)?;
    print_brackets(alloc, text, layout, depth, rows, brackets)?;
    print_cells(alloc, text, layout, r, depth, rows, pieces)?;
    text.push_str("</g></svg>\n")
}

/// Adds the picture of a report, by its brackets and its pieces.
///
/// # Errors
/// Out of memory; part of the text may be added then.
#[tactic(auto, unfolding(crate::specs::Svg::picture_of))]
pub fn print_picture(
    alloc: Global,
    text: &mut String,
    layout: &Layout,
    r: usize,
    brackets: &[Bracket],
    pieces: &[ByteSlice],
) -> Result<(), AllocError>
    requires { r < length layout.now.reports }
    ensures { OnOk result (string_bytes text.new ≡ string_bytes text.old
        ++ picture_at layout.now r brackets.now pieces.now (slice_get layout.now.reports r)) }
{
    let report = report_at(layout, r);
    let bytes = layout.report_bytes(r) as u32;
    let rows = rows_of(alloc, layout, r, bytes, brackets, pieces)?;
    print_by(
        alloc, text, layout, r, bytes, brackets, pieces, report, &rows,
    )
}
