//! Where the parts of a picture stand, in its units.

ghost use Rattle.std.specs.Prelude.{◌≡◌, ◌≤◌, ◌+◌, ◌*◌};
ghost use Rattle.hid_drawing.specs.Areas.{inset, gap_of, left_of, cell_height, row_top, piece_area, bracket_area, bit_middle, name_left};

use crate::brackets::Bracket;
use crate::pieces::ByteSlice;
use hid_layout::MAX_OPEN_COLLECTIONS;

/// The width of a bit.
pub const BIT: u64 = 112;

/// From one byte to the next, where two brackets have room.
pub const GAP: u64 = 12;

/// The height of a cell of two lines.
pub const CELL: u64 = 36;

/// The height of each more line.
pub const LINE: u64 = 14;

/// Above the first byte and its brackets.
pub const TOP: u64 = 28;

/// Left of the brackets.
pub const LEFT: u64 = 52;

/// From one bracket to the one in it.
pub const STEP: u64 = 6;

/// From where the names of the brackets begin to the right end of the picture.
pub const RIGHT: u64 = 182;

/// A rectangle by its upper left corner.
#[derive(Clone, Copy)]
pub struct Area {
    pub x: u64,
    pub y: u64,
    pub width: u64,
    pub height: u64,
}

/// What n brackets take at one side.
fn inset(level: usize) -> u64
    ensures value { result ≡ inset level }
    ensures bound { result ≤ 96 }
{
    STEP * level.min(MAX_OPEN_COLLECTIONS) as u64
}

/// The gap between two bytes.
pub fn gap_of(depth: usize) -> u64
    ensures value { result ≡ gap_of depth }
    ensures bound { result ≤ 96 }
{
    GAP.max(inset(depth))
}

/// Where the bits begin, right of the brackets.
#[tactic(auto, unfolding(crate::specs::Areas::left_of))]
pub fn left_of(depth: usize) -> u64
    ensures value { result ≡ left_of depth }
    ensures bound { result ≤ 1000 }
{
    LEFT + inset(depth)
}

/// The height of the cells of a byte.
pub fn cell_height(rows: &[u16], byte: u32) -> u64
    ensures value { result ≡ cell_height rows.now byte }
    ensures bound { result ≤ 1000000 }
{
    let lines = match rows.get(byte as usize) {
        None => 2,
        Some(lines) => *lines,
    };
    CELL + LINE * u64::from(lines.saturating_sub(2))
}

/// Where the cells of a byte begin.
pub fn row_top(depth: usize, rows: &[u16], byte: u32) -> u64
    ensures value { result ≡ row_top depth rows.now byte }
    ensures bound { result ≤ 1000 + 2000000 * byte }
{
    let mut top = TOP + gap_of(depth) / 2;
    for b in 0..byte {
        top += cell_height(rows, b) + gap_of(depth);
    }
    top
}

/// The area of a piece.
#[tactic(auto, unfolding(crate::specs::Areas::piece_area))]
pub fn piece_area(depth: usize, rows: &[u16], piece: &ByteSlice) -> Area
    ensures { result ≡ piece_area depth rows.now piece.now }
{
    Area {
        x: left_of(depth) + 8u64.saturating_sub(u64::from(piece.high)) * BIT,
        y: row_top(depth, rows, piece.byte),
        width: u64::from(piece.high.saturating_sub(piece.low)) * BIT,
        height: cell_height(rows, piece.byte),
    }
}

/// The area of a bracket.
#[tactic(auto, unfolding(crate::specs::Areas::bracket_area))]
pub fn bracket_area(depth: usize, rows: &[u16], bracket: &Bracket) -> Area
    ensures { result ≡ bracket_area depth rows.now bracket.now }
{
    let outer = bracket.level.saturating_sub(1);
    let room = inset(depth.saturating_sub(outer));
    let top = row_top(depth, rows, bracket.first);
    let bottom = row_top(depth, rows, bracket.last) + cell_height(rows, bracket.last);
    Area {
        x: LEFT + inset(outer),
        y: top.saturating_sub(room / 2),
        width: 8 * BIT + 2 * room,
        height: bottom.saturating_sub(top) + room,
    }
}

/// The middle of a bit.
#[tactic(auto, unfolding(crate::specs::Areas::bit_middle))]
pub fn bit_middle(left: u64, k: u64) -> u64
    requires { left ≤ 1000 }
    ensures { result ≡ bit_middle left k }
{
    left + 7u64.saturating_sub(k) * BIT + BIT / 2
}

/// Where the names of the brackets begin, right of all brackets.
#[tactic(auto, unfolding(crate::specs::Areas::name_left))]
pub fn name_left(depth: usize) -> u64
    ensures value { result ≡ name_left depth }
    ensures bound { result ≤ 2000 }
{
    LEFT + 2 * inset(depth) + 8 * BIT + 8
}
