//! The pieces in which an Input report goes (USB 2.0, 5.7.3).
ghost use Rattle.std.specs.Prelude.{◌≡◌, ◌≤◌, ◌<◌, ◌^◌, length, take, drop};
ghost use Rattle.hid_layout.specs.Controls.{items_of};
ghost use Rattle.hid_snapshots.specs.Parts.{IsInput};
ghost use Rattle.hid_snapshots.specs.Pieces.{piece_of, pieces_of};

use hid_layout::Layout;

/// In bytes, the longest piece, which each but the last of a report is: what a packet of an interrupt endpoint carries (USB
/// 2.0, 5.7.3; our choice, of 1 to 64 at full speed).
pub const MAX_PIECE: usize = 64;

/// In how many pieces an Input report goes: each but the last has 64 bytes, and there is one at least.
#[tactic(auto, using(crate::proofs::PieceLemmas::pieces_are))]
pub fn pieces_of(layout: &Layout, report: usize) -> usize
    requires { IsInput layout.now report }
    ensures pieces { result ≡ pieces_of (items_of layout.now) report }
    ensures some { 0 < result }
{
    // For the prover: what holds of every layout, as that each report has an item.
    let _ = layout.items();

    layout.report_bytes(report).saturating_sub(1) / MAX_PIECE + 1
}

/// At most [`MAX_PIECE`] bytes, from a place on.
fn piece_from(bytes: &[u8], start: usize) -> &[u8]
    ensures piece { result.now ≡ take 64 (drop start bytes.now) }
    ensures short { length result.now ≤ MAX_PIECE }
    ensures in_memory { length bytes.now < 2 ^ 64 }
{
    let rest = &bytes[start.min(bytes.len())..];
    &rest[..rest.len().min(MAX_PIECE)]
}

/// The piece at a place, from 0, of these bytes: at most 64 bytes, none after the last.
#[tactic(auto, using(crate::proofs::PieceLemmas::drop_min))]
pub fn piece_of(bytes: &[u8], piece: usize) -> &[u8]
    ensures piece { result.now ≡ piece_of bytes.now piece }
    ensures short { length result.now ≤ MAX_PIECE }
{
    piece_from(bytes, MAX_PIECE.saturating_mul(piece))
}
