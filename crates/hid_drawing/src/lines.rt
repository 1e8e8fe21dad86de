//! Words in lines of n columns, and how high they make a row.

ghost use Rattle.std.specs.Prelude.{◌≡◌, ◌≤◌, ◌<◌, length, Some, IfOk};
ghost use Rattle.hid_drawing.specs.Lines.{byte_at, last_space, first_width, after_line, line_at, line_count, columns_of, both_counts, piece_lines, row_lines, name_line_of, name_lines, lines_in_front, rows_of};

use crate::bracket_names::print_bracket_name;
use crate::brackets::Bracket;
use crate::captions::{print_part_details, print_piece_name};
use crate::pieces::ByteSlice;
use hid_layout::Layout;
use std::alloc::{AllocError, Global};

/// The columns of a bracket's name.
pub const NAME_COLUMNS: usize = 24;

/// The least lines of a row.
pub const MIN_LINES: u16 = 2;

/// What cells are drawn in.
#[derive(Clone, Copy, Debug, PartialEq, Eq)]
pub enum Medium {
    /// Narrow letters, fourteen for each bit.
    Svg,
    /// So many columns for each bit, with the side of the cell.
    Characters(u8),
}

/// The byte at a place, and a space after the end.
pub fn byte_at(words: &[u8], k: usize) -> u8
    ensures { result ≡ byte_at words.now k }
{
    match words.get(k) {
        None => b' ',
        Some(byte) => *byte,
    }
}

/// The last place from 1 on, up to one after the columns, that has a space; 0 where none has one.
fn last_space(words: &[u8], columns: usize) -> usize
    ensures { result ≡ last_space words.now columns }
{
    let mut place = 0;
    for n in 0..columns {
        if byte_at(words, n + 1) == b' ' {
            place = n + 1;
        }
    }
    place
}

/// A line ends at the last space that has room, and where there is none it is full.
fn first_width(words: &[u8], columns: usize) -> usize
    ensures value { result ≡ first_width words.now columns }
    ensures within { result ≤ length words.now }
{
    let space = last_space(words, columns);
    let width = if space == 0 { columns } else { space };
    width.min(words.len())
}

/// What stands after the first line, and after the space at its end.
fn after_line(words: &[u8], columns: usize) -> &[u8]
    ensures { result.now ≡ after_line words.now columns }
{
    let rest = &words[first_width(words, columns)..];
    match rest {
        [] => rest,
        [first, behind @ ..] => { if *first == b' ' { behind } else { rest } }
    }
}

/// The line after k others.
fn line_at(words: &[u8], columns: usize, k: usize) -> &[u8]
    ensures { result.now ≡ line_at words.now columns k }
{
    let mut rest = words;
    for _i in 0..k {
        rest = after_line(rest, columns);
    }
    &rest[..first_width(rest, columns)]
}

/// How many lines words take.
pub fn line_count(words: &[u8], columns: usize) -> u16
    ensures { result ≡ line_count words.now columns }
{
    let mut rest = words;
    let mut count = 0u16;
    for _i in 0..words.len() {
        if rest.len() != 0 {
            count = count.saturating_add(1);
        }
        rest = after_line(rest, columns);
    }
    count
}

/// How many columns a cell has.
pub fn columns_of(medium: Medium, piece: &ByteSlice) -> usize
    ensures { result ≡ columns_of medium piece.now }
{
    let bits = u64::from(piece.high.saturating_sub(piece.low));
    match medium {
        Medium::Svg => (14 * bits).saturating_sub(2) as usize,
        Medium::Characters(columns) => { (u64::from(columns) * bits).saturating_sub(1) as usize }
    }
}

/// The line of two texts, one below the other.
pub fn line_of<'a>(name: &'a [u8], details: &'a [u8], columns: usize, k: u16) -> &'a [u8]
    ensures { result.now ≡ name_line_of name.now details.now columns k }
{
    let count = line_count(name, columns);
    if k < count {
        line_at(name, columns, usize::from(k))
    } else {
        line_at(details, columns, usize::from(k - count))
    }
}

/// How many lines two texts take, one below the other.
pub fn both_counts(name: &[u8], details: &[u8], columns: usize) -> u16
    ensures { result ≡ both_counts name.now details.now columns }
{
    line_count(name, columns).saturating_add(line_count(details, columns))
}

/// How many lines a cell has.
fn piece_lines(
    alloc: Global,
    layout: &Layout,
    r: usize,
    medium: Medium,
    piece: &ByteSlice,
) -> Result<u16, AllocError>
    requires { r < length layout.now.reports }
    ensures { IfOk result (λ lines. lines ≡ piece_lines layout.now r medium piece.now) }
{
    let columns = columns_of(medium, piece);
    let mut name = String::new(alloc);
    print_piece_name(&mut name, layout, piece)?;
    let mut details = String::new(alloc);
    print_part_details(&mut details, layout, r, piece.part)?;
    Ok(both_counts(name.as_bytes(), details.as_bytes(), columns))
}

/// How many lines a row has for its cells.
///
/// # Errors
/// Out of memory.
pub fn row_lines(
    alloc: Global,
    layout: &Layout,
    r: usize,
    medium: Medium,
    byte: u32,
    pieces: &[ByteSlice],
) -> Result<u16, AllocError>
    requires { r < length layout.now.reports }
    ensures { IfOk result (λ lines. lines ≡ row_lines layout.now r medium byte pieces.now) }
{
    let mut lines = MIN_LINES;
    for piece in pieces {
        if piece.byte == byte {
            lines = lines.max(piece_lines(alloc, layout, r, medium, piece)?);
        }
    }
    Ok(lines)
}

/// How many lines the name of a bracket has, where it begins in the byte.
fn name_lines(
    alloc: Global,
    layout: &Layout,
    byte: u32,
    bracket: &Bracket,
) -> Result<u16, AllocError>
    ensures { IfOk result (λ lines. lines ≡ name_lines layout.now byte (Some bracket.now)) }
{
    if bracket.first != byte {
        return Ok(0);
    }
    let mut name = String::new(alloc);
    print_bracket_name(&mut name, layout, bracket)?;
    Ok(line_count(name.as_bytes(), NAME_COLUMNS))
}

/// How many lines the names of the first brackets have beside the byte.
///
/// # Errors
/// Out of memory.
pub fn lines_in_front(
    alloc: Global,
    layout: &Layout,
    brackets: &[Bracket],
    byte: u32,
    count: usize,
) -> Result<u16, AllocError>
    requires { count ≤ length brackets.now }
    ensures { IfOk result (λ lines. lines ≡ lines_in_front layout.now brackets.now byte count) }
{
    let mut lines = 0u16;
    for k in 0..count {
        lines = lines.saturating_add(name_lines(alloc, layout, byte, &brackets[k])?);
    }
    Ok(lines)
}

/// The lines of the rows of a drawing, for cells and for the names of the brackets.
///
/// # Errors
/// Out of memory.
pub fn rows_of(
    alloc: Global,
    layout: &Layout,
    r: usize,
    bytes: u32,
    brackets: &[Bracket],
    pieces: &[ByteSlice],
) -> Result<Vec<u16>, AllocError>
    requires { r < length layout.now.reports }
    ensures { IfOk result (λ rows. rows.items
        ≡ rows_of layout.now r bytes brackets.now pieces.now) }
{
    let mut rows = Vec::new(alloc);
    for byte in 0..bytes {
        let cells = row_lines(alloc, layout, r, Medium::Svg, byte, pieces)?;
        let names = lines_in_front(alloc, layout, brackets, byte, brackets.len())?;
        rows.push(cells.max(names))?;
    }
    Ok(rows)
}
