//! The picture of a report in characters: a row for each byte, and six to ten columns for each bit, as the width has room.

ghost use Rattle.std.specs.Prelude.{◌≡◌, ◌++◌, ◌<◌, codes, length, slice_get, Some, IfOk, OnOk, string_bytes};
ghost use Rattle.hid_notation.specs.Text.{concat_below};
ghost use Rattle.hid_drawing.specs.Pieces.{SliceLiesIn};
ghost use Rattle.hid_drawing.specs.Terminal.{padded_words, bit_columns, bit_line, bit_ruler, bracket_words, is_edge, is_edge_above, end_corner, corner, corner_at, edge_line, is_held, is_held_on, bracket_corner, bracket_corner_at, bracket_corners, side_at, sides, cell_line, byte_cell, cells_line, line_number, row_line, line_above, two_columns, row_number, row_text, bracket_line, bracket_lines, usage_lines, item_lines, field_lines, fields_text, terminal_head, rows_text, numbered_rows, drawn_text, terminal_of, terminal_at};

use crate::bracket_names::print_bracket_name;
use crate::brackets::{Bracket, bracket_depth};
use crate::captions::{
    is_input_item, print_bit, print_count, print_entry, print_flags, print_part_details,
    print_piece_name, print_report_name,
};
use crate::escape::push_printed;
use crate::glyphs::{
    BLANK, BRACKET_FIRST, BRACKET_LAST, CROSS, DOWNWARD, FLAT, LEFT_BOTH, LEFT_FIRST, LEFT_LAST,
    RIGHT_BOTH, RIGHT_FIRST, RIGHT_LAST, SIDE, UPWARD,
};
use crate::lines::{Medium, byte_at, columns_of, line_of, row_lines};
use crate::lookups::{first_bit_of, item_at, report_at};
use crate::pieces::{ByteSlice, piece_at};
use hid_layout::{Layout, MainItem, Report, Usage};
use std::alloc::{AllocError, Global};

/// The least columns of a bit: the word and the number of bit 7 have five.
pub const LEAST_COLUMNS: usize = 6;

/// The most columns of a bit (our choice): a row then has 84, and a bracket one more.
pub const MOST_COLUMNS: usize = 10;

/// The most bytes of a report that is drawn (our choice): the number of a byte has three columns.
pub const MAX_DRAWN: usize = 1000;

/// What stands in place of a picture.
pub const NO_PICTURE: &str = "not drawn: a picture has up to 1000 bytes\n";

/// Adds n columns of words: what has room, and spaces.
#[tactic(auto, unfolding(crate::specs::Terminal::padded_words))]
fn push_fitted(text: &mut String, words: &[u8], columns: usize) -> Result<(), AllocError>
    ensures { OnOk result (string_bytes text.new
        ≡ string_bytes text.old ++ padded_words words.now columns) }
{
    for k in 0..columns {
        push_printed(text, byte_at(words, k))?;
    }
    Ok(())
}

/// Whether a cell of a byte begins or ends in front of the bit k.
fn is_edge(pieces: &[ByteSlice], byte: u32, k: u32) -> bool
    ensures { result ≡ is_edge pieces.now byte k }
{
    pieces.iter().any(|piece| piece.byte == byte && (piece.low == k || piece.high == k))
}

/// Whether one of the byte in front does.
fn is_edge_above(pieces: &[ByteSlice], byte: u32, k: u32) -> bool
    ensures { result ≡ is_edge_above pieces.now byte k }
{
    0 < byte && is_edge(pieces, byte - 1, k)
}

/// The character at an end of the line above a byte.
fn end_corner(
    above: bool,
    below: bool,
    both: &'static str,
    first: &'static str,
    last: &'static str,
) -> &'static str
    ensures { result.now ≡ end_corner above below both.now first.now last.now }
{
    if above && below {
        both
    } else if below {
        first
    } else {
        last
    }
}

/// The character in front of the bit k on the line above a byte.
fn corner(k: u32, above: bool, below: bool) -> &'static str
    ensures { result.now ≡ corner k above below }
{
    if k == 8 {
        return end_corner(above, below, LEFT_BOTH, LEFT_FIRST, LEFT_LAST);
    }
    if k == 0 {
        return end_corner(above, below, RIGHT_BOTH, RIGHT_FIRST, RIGHT_LAST);
    }
    match (above, below) {
        (true, true) => CROSS,
        (true, false) => UPWARD,
        (false, true) => DOWNWARD,
        (false, false) => FLAT,
    }
}

/// Adds the corner in front of the bit k.
#[tactic(auto, unfolding(crate::specs::Terminal::corner_at))]
fn print_corner(
    text: &mut String,
    pieces: &[ByteSlice],
    byte: u32,
    k: u32,
) -> Result<(), AllocError>
    ensures { OnOk result (string_bytes text.new
        ≡ string_bytes text.old ++ corner_at pieces.now byte k) }
{
    let above = is_edge_above(pieces, byte, k);
    let below = is_edge(pieces, byte, k);
    text.push_str(corner(k, above, below))
}

/// How many columns a bit has in a picture of a width with brackets of a depth.
fn bit_columns(width: u16, depth: usize) -> u8
    ensures { result ≡ bit_columns width depth }
{
    let room = usize::from(width).saturating_sub(4).saturating_sub(depth) / 8;
    if room < LEAST_COLUMNS {
        LEAST_COLUMNS as u8
    } else if room < MOST_COLUMNS {
        room as u8
    } else {
        MOST_COLUMNS as u8
    }
}

/// Adds what stands after a corner, as wide as a bit with it.
#[tactic(auto, unfolding(crate::specs::Terminal::bit_line))]
fn print_bit_line(text: &mut String, columns: u8) -> Result<(), AllocError>
    ensures { OnOk result (string_bytes text.new ≡ string_bytes text.old ++ bit_line columns) }
{
    for _i in 0..columns.saturating_sub(1) {
        text.push_str(FLAT)?;
    }
    Ok(())
}

/// Adds the line above a byte, bit 7 first.
#[tactic(auto, unfolding(crate::specs::Terminal::edge_line))]
fn print_edge_line(
    text: &mut String,
    columns: u8,
    pieces: &[ByteSlice],
    byte: u32,
) -> Result<(), AllocError>
    ensures { OnOk result (string_bytes text.new
        ≡ string_bytes text.old ++ edge_line columns pieces.now byte) }
{
    for i in 0..8u32 {
        print_corner(text, pieces, byte, 8 - i)?;
        print_bit_line(text, columns)?;
    }
    print_corner(text, pieces, byte, 0)
}

/// Whether a bracket of a level holds a byte.
fn is_held(brackets: &[Bracket], level: usize, byte: u32) -> bool
    ensures { result ≡ is_held brackets.now level byte }
{
    brackets.iter().any(|bracket| bracket.level == level
        && (bracket.first <= byte && byte <= bracket.last))
}

/// Whether one bracket of a level holds a byte and the one in front of it.
fn is_held_on(brackets: &[Bracket], level: usize, byte: u32) -> bool
    ensures { result ≡ is_held_on brackets.now level byte }
{
    brackets.iter().any(|bracket| bracket.level == level
        && (bracket.first < byte && byte <= bracket.last))
}

/// The character of a bracket on the line above a byte.
fn bracket_corner(on: bool, above: bool, below: bool) -> &'static str
    ensures { result.now ≡ bracket_corner on above below }
{
    if on {
        return SIDE;
    }
    match (above, below) {
        (true, true) => RIGHT_BOTH,
        (true, false) => BRACKET_LAST,
        (false, true) => BRACKET_FIRST,
        (false, false) => BLANK,
    }
}

/// Adds the bracket of a level on the line above a byte.
#[tactic(auto, unfolding(crate::specs::Terminal::bracket_corner_at))]
fn print_bracket_corner(
    text: &mut String,
    brackets: &[Bracket],
    level: usize,
    byte: u32,
) -> Result<(), AllocError>
    ensures { OnOk result (string_bytes text.new
        ≡ string_bytes text.old ++ bracket_corner_at brackets.now level byte) }
{
    let on = is_held_on(brackets, level, byte);
    let above = 0 < byte && is_held(brackets, level, byte - 1);
    let below = is_held(brackets, level, byte);
    text.push_str(bracket_corner(on, above, below))
}

/// Adds the brackets on the line above a byte, the innermost first.
#[tactic(auto, unfolding(crate::specs::Terminal::bracket_corners))]
fn print_bracket_corners(
    text: &mut String,
    brackets: &[Bracket],
    depth: usize,
    byte: u32,
) -> Result<(), AllocError>
    ensures { OnOk result (string_bytes text.new
        ≡ string_bytes text.old ++ bracket_corners brackets.now depth byte) }
{
    for i in 0..depth {
        print_bracket_corner(text, brackets, depth - i, byte)?;
    }
    Ok(())
}

/// Adds the bracket of a level beside a byte.
fn print_side(
    text: &mut String,
    brackets: &[Bracket],
    level: usize,
    byte: u32,
) -> Result<(), AllocError>
    ensures { OnOk result (string_bytes text.new
        ≡ string_bytes text.old ++ side_at brackets.now level byte) }
{
    if is_held(brackets, level, byte) {
        text.push_str(SIDE)
    } else {
        text.push_str(BLANK)
    }
}

/// Adds the brackets beside a byte, the innermost first.
#[tactic(auto, unfolding(crate::specs::Terminal::sides))]
fn print_sides(
    text: &mut String,
    brackets: &[Bracket],
    depth: usize,
    byte: u32,
) -> Result<(), AllocError>
    ensures { OnOk result (string_bytes text.new
        ≡ string_bytes text.old ++ sides brackets.now depth byte) }
{
    for i in 0..depth {
        print_side(text, brackets, depth - i, byte)?;
    }
    Ok(())
}

/// Adds a line of a cell.
#[tactic(auto, unfolding(crate::specs::Terminal::cell_line))]
fn print_cell_line(
    alloc: Global,
    text: &mut String,
    columns: u8,
    layout: &Layout,
    r: usize,
    k: u16,
    piece: &ByteSlice,
) -> Result<(), AllocError>
    requires { r < length layout.now.reports }
    ensures { OnOk result (string_bytes text.new
        ≡ string_bytes text.old ++ cell_line columns layout.now r k piece.now) }
{
    let mut name = String::new(alloc);
    print_piece_name(&mut name, layout, piece)?;
    let mut details = String::new(alloc);
    print_part_details(&mut details, layout, r, piece.part)?;
    let width = columns_of(Medium::Characters(columns), piece);
    text.push_str(SIDE)?;
    push_fitted(
        text,
        line_of(name.as_bytes(), details.as_bytes(), width, k),
        width,
    )
}

/// Adds a line of a piece, where it lies in the byte.
fn print_byte_cell(
    alloc: Global,
    text: &mut String,
    columns: u8,
    layout: &Layout,
    r: usize,
    k: u16,
    byte: u32,
    piece: &ByteSlice,
) -> Result<(), AllocError>
    requires { r < length layout.now.reports }
    ensures { OnOk result (string_bytes text.new
        ≡ string_bytes text.old ++ byte_cell columns layout.now r k byte (Some piece.now)) }
{
    if piece.byte != byte {
        return Ok(());
    }
    print_cell_line(alloc, text, columns, layout, r, k, piece)
}

/// Adds a line of the cells of a byte, the last one first.
#[tactic(auto, unfolding(crate::specs::Terminal::cells_line))]
fn print_cells_line(
    alloc: Global,
    text: &mut String,
    columns: u8,
    layout: &Layout,
    r: usize,
    k: u16,
    byte: u32,
    pieces: &[ByteSlice],
) -> Result<(), AllocError>
    requires { r < length layout.now.reports }
    ensures { OnOk result (string_bytes text.new
        ≡ string_bytes text.old ++ cells_line columns layout.now r k byte pieces.now) }
{
    for i in 0..pieces.len() {
        let piece = piece_at(pieces, pieces.len() - 1 - i);
        print_byte_cell(alloc, text, columns, layout, r, k, byte, piece)?;
    }
    Ok(())
}

/// Adds the line above a row.
#[tactic(auto, unfolding(crate::specs::Terminal::line_above))]
fn print_line_above(
    text: &mut String,
    columns: u8,
    byte: u32,
    brackets: &[Bracket],
    pieces: &[ByteSlice],
) -> Result<(), AllocError>
    ensures { OnOk result (string_bytes text.new
        ≡ string_bytes text.old ++ line_above columns byte brackets.now pieces.now) }
{
    text.push_str("   ")?;
    print_edge_line(text, columns, pieces, byte)?;
    print_bracket_corners(text, brackets, bracket_depth(brackets), byte)?;
    text.push_str("\n")
}

/// Adds the number of a byte, at the right of two columns.
fn print_two_columns(text: &mut String, byte: u32) -> Result<(), AllocError>
    ensures { OnOk result (string_bytes text.new ≡ string_bytes text.old ++ two_columns byte) }
{
    if byte < 10 {
        return write!(text, " {byte}");
    }
    write!(text, "{byte}")
}

/// Adds the number of one of n bytes, in three columns.
#[tactic(auto, unfolding(crate::specs::Terminal::row_number))]
fn print_row_number(text: &mut String, bytes: u32, byte: u32) -> Result<(), AllocError>
    ensures { OnOk result (string_bytes text.new
        ≡ string_bytes text.old ++ row_number bytes byte) }
{
    if bytes <= 100 {
        print_two_columns(text, byte)?;
        return text.push_str(" ");
    }
    if byte < 100 {
        text.push_str(" ")?;
        return print_two_columns(text, byte);
    }
    write!(text, "{byte}")
}

/// Adds what stands in front of a line of a row.
fn print_line_number(text: &mut String, bytes: u32, byte: u32, k: u16) -> Result<(), AllocError>
    ensures { OnOk result (string_bytes text.new
        ≡ string_bytes text.old ++ line_number bytes byte k) }
{
    if k == 0 {
        print_row_number(text, bytes, byte)
    } else {
        text.push_str("   ")
    }
}

/// Adds a line of a row.
#[tactic(auto, unfolding(crate::specs::Terminal::row_line))]
fn print_row_line(
    alloc: Global,
    text: &mut String,
    columns: u8,
    layout: &Layout,
    r: usize,
    bytes: u32,
    brackets: &[Bracket],
    pieces: &[ByteSlice],
    byte: u32,
    k: u16,
) -> Result<(), AllocError>
    requires { r < length layout.now.reports }
    ensures { OnOk result (string_bytes text.new
        ≡ string_bytes text.old ++ row_line columns layout.now r bytes byte brackets.now pieces.now k) }
{
    print_line_number(text, bytes, byte, k)?;
    print_cells_line(alloc, text, columns, layout, r, k, byte, pieces)?;
    text.push_str(SIDE)?;
    print_sides(text, brackets, bracket_depth(brackets), byte)?;
    text.push_str("\n")
}

/// Adds a row: the line above it, and the lines of its cells.
#[tactic(auto, unfolding(crate::specs::Terminal::row_text))]
fn print_row(
    alloc: Global,
    text: &mut String,
    columns: u8,
    layout: &Layout,
    r: usize,
    bytes: u32,
    brackets: &[Bracket],
    pieces: &[ByteSlice],
    byte: u32,
) -> Result<(), AllocError>
    requires { r < length layout.now.reports }
    ensures { OnOk result (string_bytes text.new
        ≡ string_bytes text.old ++ row_text columns layout.now r bytes brackets.now pieces.now byte) }
{
    print_line_above(text, columns, byte, brackets, pieces)?;
    let medium = Medium::Characters(columns);
    let lines = row_lines(alloc, layout, r, medium, byte, pieces)?;
    for k in 0..lines {
        print_row_line(
            alloc, text, columns, layout, r, bytes, brackets, pieces, byte, k,
        )?;
    }
    Ok(())
}

/// Adds n steps of indentation.
fn print_indentation(text: &mut String, steps: usize) -> Result<(), AllocError>
    ensures { OnOk result (string_bytes text.new
        ≡ string_bytes text.old ++ concat_below steps (λ i. codes "  ")) }
{
    for _i in 0..steps {
        text.push_str("  ")?;
    }
    Ok(())
}

/// The name of a bracket and its bytes.
#[tactic(auto, unfolding(crate::specs::Terminal::bracket_words))]
fn bracket_words(alloc: Global, layout: &Layout, bracket: &Bracket) -> Result<String, AllocError>
    ensures { IfOk result (λ words. string_bytes words ≡ bracket_words layout.now bracket.now) }
{
    let Bracket { first, last, .. } = *bracket;
    let mut words = String::new(alloc);
    print_bracket_name(&mut words, layout, bracket)?;
    write!(words, ": bytes {first} to {last}")?;
    Ok(words)
}

/// Adds a bracket, indented by its level as far as the width has room.
#[tactic(auto, unfolding(crate::specs::Terminal::bracket_line))]
fn print_bracket_line(
    alloc: Global,
    text: &mut String,
    width: u16,
    layout: &Layout,
    bracket: &Bracket,
) -> Result<(), AllocError>
    ensures { OnOk result (string_bytes text.new
        ≡ string_bytes text.old ++ bracket_line width layout.now bracket.now) }
{
    let words = bracket_words(alloc, layout, bracket)?;
    let room = usize::from(width).saturating_sub(words.len()) / 2;
    print_indentation(text, bracket.level.saturating_sub(1).min(room))?;
    text.push_str(words.as_str())?;
    text.push_str("\n")
}

/// Adds the brackets of a report.
#[tactic(auto, unfolding(crate::specs::Terminal::bracket_lines))]
fn print_bracket_lines(
    alloc: Global,
    text: &mut String,
    width: u16,
    layout: &Layout,
    brackets: &[Bracket],
) -> Result<(), AllocError>
    ensures { OnOk result (string_bytes text.new
        ≡ string_bytes text.old ++ bracket_lines width layout.now brackets.now) }
{
    for bracket in brackets {
        print_bracket_line(alloc, text, width, layout, bracket)?;
    }
    Ok(())
}

/// Adds the usages of a field, a line each.
#[tactic(auto, unfolding(crate::specs::Terminal::usage_lines))]
fn print_usage_lines(text: &mut String, entries: &[(Usage, Usage)]) -> Result<(), AllocError>
    ensures { OnOk result (string_bytes text.new
        ≡ string_bytes text.old ++ usage_lines entries.now) }
{
    for entry in entries {
        text.push_str("  ")?;
        print_entry(text, entry.0, entry.1)?;
        text.push_str("\n")?;
    }
    Ok(())
}

/// Adds an item of the report: its number, where it begins, its flags and its usages.
#[tactic(auto, unfolding(crate::specs::Terminal::item_lines))]
fn print_item_lines(
    text: &mut String,
    layout: &Layout,
    i: usize,
    item: &MainItem,
    entries: &[(Usage, Usage)],
) -> Result<(), AllocError>
    requires { SliceLiesIn layout.now item.now }
    ensures { OnOk result (string_bytes text.new
        ≡ string_bytes text.old ++ item_lines layout.now i item.now entries.now) }
{
    write!(text, "field {i}: ")?;
    print_bit(text, first_bit_of(layout, item))?;
    text.push_str("\n  ")?;
    print_flags(text, is_input_item(layout, item), item.flags)?;
    text.push_str("\n")?;
    print_usage_lines(text, entries)
}

/// Adds the lines of an item, where it stands in the report.
fn print_field_lines(
    text: &mut String,
    layout: &Layout,
    r: usize,
    i: usize,
    item: &MainItem,
    entries: &[(Usage, Usage)],
) -> Result<(), AllocError>
    requires { SliceLiesIn layout.now item.now }
    ensures { OnOk result (string_bytes text.new ≡ string_bytes text.old
        ++ field_lines layout.now r i (Some item.now) (Some entries.now)) }
{
    if item.report != r {
        return Ok(());
    }
    print_item_lines(text, layout, i, item, entries)
}

/// Adds the fields of a report.
#[tactic(auto, unfolding(crate::specs::Terminal::fields_text))]
fn print_fields(text: &mut String, layout: &Layout, r: usize) -> Result<(), AllocError>
    ensures { OnOk result (string_bytes text.new
        ≡ string_bytes text.old ++ fields_text layout.now r) }
{
    for i in 0..layout.items().len() {
        print_field_lines(text, layout, r, i, item_at(layout, i), layout.entries(i))?;
    }
    Ok(())
}

/// Adds what the picture of a report begins with.
#[tactic(auto, unfolding(crate::specs::Terminal::terminal_head))]
fn print_head(
    text: &mut String,
    numbered: bool,
    bytes: u64,
    report: &Report,
) -> Result<(), AllocError>
    ensures { OnOk result (string_bytes text.new
        ≡ string_bytes text.old ++ terminal_head numbered bytes report.now) }
{
    print_report_name(text, numbered, report)?;
    text.push_str(": ")?;
    print_count(text, bytes, "byte")?;
    text.push_str("\n")
}

/// Adds the rows of a report of n bytes.
#[tactic(auto, unfolding(crate::specs::Terminal::rows_text))]
fn print_rows(
    alloc: Global,
    text: &mut String,
    columns: u8,
    layout: &Layout,
    r: usize,
    bytes: u32,
    brackets: &[Bracket],
    pieces: &[ByteSlice],
) -> Result<(), AllocError>
    requires { r < length layout.now.reports }
    ensures { OnOk result (string_bytes text.new
        ≡ string_bytes text.old ++ rows_text columns layout.now r bytes brackets.now pieces.now) }
{
    for byte in 0..bytes {
        print_row(
            alloc, text, columns, layout, r, bytes, brackets, pieces, byte,
        )?;
    }
    print_line_above(text, columns, bytes, brackets, pieces)
}

/// Adds the numbers of the bits, each where its bit begins.
#[tactic(auto, unfolding(crate::specs::Terminal::bit_ruler))]
fn print_bit_ruler(text: &mut String, columns: u8) -> Result<(), AllocError>
    ensures { OnOk result (string_bytes text.new ≡ string_bytes text.old ++ bit_ruler columns) }
{
    let columns = usize::from(columns);
    text.push_str("    ")?;
    push_fitted(text, b"bit 7", columns)?;
    for i in 0..6u8 {
        push_fitted(text, &[b'6' - i], columns)?;
    }
    text.push_str("0\n")
}

/// Adds the numbers of the bits, and the rows of a report of n bytes.
#[tactic(auto, unfolding(crate::specs::Terminal::numbered_rows))]
fn print_numbered_rows(
    alloc: Global,
    text: &mut String,
    columns: u8,
    layout: &Layout,
    r: usize,
    bytes: u32,
    brackets: &[Bracket],
    pieces: &[ByteSlice],
) -> Result<(), AllocError>
    requires { r < length layout.now.reports }
    ensures { OnOk result (string_bytes text.new
        ≡ string_bytes text.old ++ numbered_rows columns layout.now r bytes brackets.now pieces.now) }
{
    print_bit_ruler(text, columns)?;
    print_rows(alloc, text, columns, layout, r, bytes, brackets, pieces)
}

/// Adds the rows of a report of n bytes, or that it isn't drawn.
fn print_drawn(
    alloc: Global,
    text: &mut String,
    columns: u8,
    layout: &Layout,
    r: usize,
    bytes: u32,
    brackets: &[Bracket],
    pieces: &[ByteSlice],
) -> Result<(), AllocError>
    requires { r < length layout.now.reports }
    ensures { OnOk result (string_bytes text.new
        ≡ string_bytes text.old ++ drawn_text columns layout.now r bytes brackets.now pieces.now) }
{
    if bytes as usize > MAX_DRAWN {
        text.push_str(NO_PICTURE)
    } else {
        print_numbered_rows(alloc, text, columns, layout, r, bytes, brackets, pieces)
    }
}

/// Adds the picture of a report of n bytes.
#[tactic(auto, unfolding(crate::specs::Terminal::terminal_of))]
fn print_sized(
    alloc: Global,
    text: &mut String,
    width: u16,
    layout: &Layout,
    r: usize,
    bytes: u32,
    brackets: &[Bracket],
    pieces: &[ByteSlice],
    report: &Report,
) -> Result<(), AllocError>
    requires { r < length layout.now.reports }
    ensures { OnOk result (string_bytes text.new ≡ string_bytes text.old
        ++ terminal_of width layout.now r bytes brackets.now pieces.now report.now) }
{
    print_head(text, layout.numbered(), u64::from(bytes), report)?;
    let columns = bit_columns(width, bracket_depth(brackets));
    print_drawn(alloc, text, columns, layout, r, bytes, brackets, pieces)?;
    print_bracket_lines(alloc, text, width, layout, brackets)?;
    print_fields(text, layout, r)
}

/// Adds the picture of a report in characters, by its brackets and its pieces. Where the width has no room for six columns of
/// each bit, it is wider.
///
/// # Errors
/// Out of memory; part of the text may be added then.
pub fn print_terminal(
    alloc: Global,
    text: &mut String,
    width: u16,
    layout: &Layout,
    r: usize,
    brackets: &[Bracket],
    pieces: &[ByteSlice],
) -> Result<(), AllocError>
    requires { r < length layout.now.reports }
    ensures { OnOk result (string_bytes text.new ≡ string_bytes text.old
        ++ terminal_at width layout.now r brackets.now pieces.now (slice_get layout.now.reports r)) }
{
    let report = report_at(layout, r);
    let bytes = layout.report_bytes(r) as u32;
    print_sized(
        alloc, text, width, layout, r, bytes, brackets, pieces, report,
    )
}
