//! Where the fields of a report stand, byte by byte.

ghost use Rattle.std.specs.Prelude.{◌≡◌, ◌++◌, ◌+◌, ◌<◌, ◌≤◌, ◌/◌, ◌%◌, ◌^◌, length, slice_get, Some, IfOk, OnOk};
ghost use Rattle.hid_layout.specs.Reports.{first_bit, element_of};
ghost use Rattle.hid_drawing.specs.Pieces.{SliceLiesIn, concat_lists, piece_of, segment_pieces, element_pieces, shape_pieces, item_pieces, id_pieces, padding_pieces, pieces_of};

use crate::lookups::{first_bit, first_bit_of, item_at, report_at};
use hid_layout::{Layout, MainItem, Shape};
use std::alloc::{AllocError, Global};

/// What some bits of a report are.
#[derive(Clone, Copy, Debug)]
pub enum BitSource {
    /// The Report ID.
    ReportId,
    /// An element of a listed item; of padding all of it.
    Field { item: usize, element: usize },
    /// What fills up the last byte.
    FinalPadding,
}

/// Bits of a report that lie after one another.
#[derive(Clone, Copy, Debug)]
pub struct Segment {
    pub part: BitSource,
    /// Where it begins, in bits of the report with its ID.
    pub bit: u32,
    pub width: u32,
}

/// What of a stretch lies in one byte.
#[derive(Clone, Copy, Debug)]
pub struct ByteSlice {
    pub part: BitSource,
    /// The byte of the report, its ID among them.
    pub byte: u32,
    /// Its lowest bit in that byte.
    pub low: u32,
    /// One more than its highest bit there.
    pub high: u32,
    /// How many bits of the stretch lie in front of it.
    pub front: u32,
    /// How many bits the stretch has.
    pub width: u32,
}

/// What of a stretch lies in the k-th byte that it touches.
fn piece_of(stretch: &Segment, k: u32) -> ByteSlice
    requires small { stretch.now.bit + stretch.now.width ≤ 2 ^ 18 }
    requires touched { k < (stretch.now.bit % 8 + stretch.now.width + 7) / 8 }
    ensures { result ≡ piece_of stretch.now k }
{
    let Segment { part, bit, width } = *stretch;
    let byte = bit / 8 + k;
    let low = if k == 0 { bit % 8 } else { 0 };
    ByteSlice {
        part,
        byte,
        low,
        high: (bit + width - 8 * byte).min(8),
        front: 8 * byte + low - bit,
        width,
    }
}

/// Adds the pieces of a stretch.
fn push_pieces(pieces: &mut Vec<ByteSlice>, stretch: &Segment) -> Result<(), AllocError>
    requires { stretch.now.bit + stretch.now.width ≤ 2 ^ 18 }
    ensures { OnOk result (pieces.new.items ≡ pieces.old.items ++ segment_pieces stretch.now) }
{
    for k in 0..(stretch.bit % 8 + stretch.width + 7) / 8 {
        pieces.push(piece_of(stretch, k))?;
    }
    Ok(())
}

/// Adds the pieces of a data field.
fn push_element(
    pieces: &mut Vec<ByteSlice>,
    layout: &Layout,
    i: usize,
    j: usize,
    item: &MainItem,
) -> Result<(), AllocError>
    requires at { slice_get layout.now.items i ≡ Some item.now }
    requires lies { SliceLiesIn layout.now item.now }
    ensures { OnOk result (pieces.new.items
        ≡ pieces.old.items ++ element_pieces layout.now i j (element_of layout.now i j)) }
{
    match layout.element(i, j) {
        None => Ok(()),
        Some(element) => push_pieces(
            pieces,
            &Segment {
                part: BitSource::Field {
                    item: i,
                    element: j,
                },
                bit: first_bit(layout) + element.bit as u32,
                width: element.width,
            },
        ),
    }
}

/// Adds the pieces of padding.
fn push_padding(
    pieces: &mut Vec<ByteSlice>,
    layout: &Layout,
    i: usize,
    item: &MainItem,
) -> Result<(), AllocError>
    requires { SliceLiesIn layout.now item.now }
    ensures { OnOk result (pieces.new.items
        ≡ pieces.old.items ++ shape_pieces layout.now i item.now Shape.Padding) }
{
    push_pieces(
        pieces,
        &Segment {
            part: BitSource::Field {
                item: i,
                element: 0,
            },
            bit: first_bit_of(layout, item),
            width: item.size * item.count,
        },
    )
}

/// Adds the pieces of each data field of an item.
fn push_elements(
    pieces: &mut Vec<ByteSlice>,
    layout: &Layout,
    i: usize,
    item: &MainItem,
) -> Result<(), AllocError>
    requires at { slice_get layout.now.items i ≡ Some item.now }
    requires lies { SliceLiesIn layout.now item.now }
    ensures { OnOk result (pieces.new.items
        ≡ pieces.old.items
        ++ concat_lists item.now.count
        (λ j. element_pieces layout.now i j (element_of layout.now i j))) }
{
    for j in 0..item.count as usize {
        push_element(pieces, layout, i, j, item)?;
    }
    Ok(())
}

/// Adds the pieces of an item, where it stands in the report.
fn push_item(
    pieces: &mut Vec<ByteSlice>,
    layout: &Layout,
    r: usize,
    i: usize,
    item: &MainItem,
) -> Result<(), AllocError>
    requires at { slice_get layout.now.items i ≡ Some item.now }
    requires lies { SliceLiesIn layout.now item.now }
    ensures { OnOk result (pieces.new.items
        ≡ pieces.old.items ++ item_pieces layout.now r i (Some item.now)) }
{
    if item.report != r {
        return Ok(());
    }
    match item.shape {
        Shape::Padding => push_padding(pieces, layout, i, item),
        Shape::Variable | Shape::Array => push_elements(pieces, layout, i, item),
    }
}

/// Adds the byte of the Report ID.
fn push_id(pieces: &mut Vec<ByteSlice>, layout: &Layout) -> Result<(), AllocError>
    ensures { OnOk result (pieces.new.items ≡ pieces.old.items ++ id_pieces layout.now) }
{
    if !layout.numbered() {
        return Ok(());
    }
    pieces.push(ByteSlice {
        part: BitSource::ReportId,
        byte: 0,
        low: 0,
        high: 8,
        front: 0,
        width: 8,
    })?;
    Ok(())
}

/// Adds the bits that fill up the last byte of a report.
fn push_last_padding(
    pieces: &mut Vec<ByteSlice>,
    layout: &Layout,
    r: usize,
) -> Result<(), AllocError>
    requires { r < length layout.now.reports }
    ensures { OnOk result (pieces.new.items
        ≡ pieces.old.items ++ padding_pieces layout.now (slice_get layout.now.reports r)) }
{
    let bits = report_at(layout, r).bits;
    if bits % 8 == 0 {
        return Ok(());
    }
    push_pieces(
        pieces,
        &Segment {
            part: BitSource::FinalPadding,
            bit: first_bit(layout) + bits,
            width: 8 - bits % 8,
        },
    )
}

/// The pieces of a report, from its first bit on.
///
/// # Errors
/// Out of memory.
#[tactic(auto, unfolding(crate::specs::Pieces::pieces_of))]
pub fn pieces_of(alloc: Global, layout: &Layout, r: usize) -> Result<Vec<ByteSlice>, AllocError>
    requires { r < length layout.now.reports }
    ensures { IfOk result (λ pieces. pieces.items ≡ pieces_of layout.now r) }
{
    let mut pieces = Vec::new(alloc);
    push_id(&mut pieces, layout)?;
    for i in 0..layout.items().len() {
        push_item(&mut pieces, layout, r, i, item_at(layout, i))?;
    }
    push_last_padding(&mut pieces, layout, r)?;
    Ok(pieces)
}

/// The piece at a place.
pub(crate) fn piece_at(pieces: &[ByteSlice], k: usize) -> &ByteSlice
    requires { k < length pieces.now }
    ensures { slice_get pieces.now k ≡ Some result.now }
{
    &pieces[k]
}
