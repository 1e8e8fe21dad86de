//! The frames of bytes, and why they end.

use std::alloc::Global;
use test_rows::{RowFault, add, add_shown, print, print_bytes, print_shown};
use usb_capture::{Capture, CaptureFault, Frame};

/// A frame as its place, its time in nanoseconds, its link type and its length; then its bytes.
fn print_frame(printed: &mut String, frame: &Frame<'_>) -> Result<(), RowFault> {
    print_shown(printed, &frame.at)?;
    add(printed, " ")?;
    match frame.time {
        Some(time) => add_shown(printed, &time)?,
        None => add(printed, "-")?,
    }
    add(printed, " ")?;
    add_shown(printed, &frame.link)?;
    add(printed, " ")?;
    add_shown(printed, &frame.original_length)?;
    print_bytes(printed, frame.bytes)
}

/// Takes a piece, and prints its frames. What refuses it is an answer.
fn take_piece(
    printed: &mut String,
    capture: &mut Capture,
    piece: &[u8],
) -> Result<Result<(), CaptureFault>, RowFault> {
    let mut rest = piece;
    for _ in 0..piece.len() {
        if rest.is_empty() {
            break;
        }
        match capture.take(rest) {
            Ok(taken) => rest = rest.get(taken..).unwrap_or(&[]),
            Err(fault) => return Ok(Err(fault)),
        }
        if let Some(frame) = capture.frame() {
            print_frame(printed, &frame)?;
        }
    }
    Ok(Ok(()))
}

/// Prints the frames of bytes that come in pieces of a size. What ends them early is an answer.
fn print_pieces(
    printed: &mut String,
    alloc: Global,
    bytes: &[u8],
    size: usize,
) -> Result<Result<(), CaptureFault>, RowFault> {
    let mut capture = Capture::new(alloc);
    for piece in bytes.chunks(size.max(1)) {
        if let Err(fault) = take_piece(printed, &mut capture, piece)? {
            return Ok(Err(fault));
        }
    }
    Ok(capture.finish())
}

/// The frames of bytes that come in pieces of a size, and what ends them early.
pub fn print_frames(
    printed: &mut String,
    alloc: Global,
    bytes: &[u8],
    size: usize,
) -> Result<(), RowFault> {
    match print_pieces(printed, alloc, bytes, size)? {
        Ok(()) => print(printed, "end"),
        Err(fault) => print_shown(printed, &fault),
    }
}

/// Whether pieces of each size give the same, and what the first `n` bytes give for each n: how many of them end a block,
/// and are taken for a whole capture.
pub fn print_cuts(printed: &mut String, alloc: Global, bytes: &[u8]) -> Result<(), RowFault> {
    let mut whole = String::new(alloc);
    print_frames(&mut whole, alloc, bytes, bytes.len())?;
    for size in 1..bytes.len() {
        let mut cut = String::new(alloc);
        print_frames(&mut cut, alloc, bytes, size)?;
        if cut.as_str() != whole.as_str() {
            print_shown(printed, &size)?;
        }
    }
    print(printed, "whole at")?;
    for length in 0..bytes.len() {
        let mut first = String::new(alloc);
        print_frames(&mut first, alloc, &bytes[..length], length)?;
        if first.as_str().ends_with("end") {
            add(printed, " ")?;
            add_shown(printed, &length)?;
        }
    }
    Ok(())
}

/// Whether bytes that were changed at a place have the frames before the block there, and are refused there or later, if
/// they are.
fn has_earlier_frames(
    alloc: Global,
    bytes: &[u8],
    changed: &[u8],
    at: usize,
) -> Result<bool, RowFault> {
    let before = bytes.get(..at).unwrap_or(&[]);
    let mut earlier = String::new(alloc);
    let block = match print_pieces(&mut earlier, alloc, before, before.len())? {
        Ok(()) => at as u64,
        Err(fault) => fault.at,
    };
    let mut frames = String::new(alloc);
    let is_later = match print_pieces(&mut frames, alloc, changed, changed.len())? {
        Ok(()) => true,
        Err(fault) => fault.at >= block,
    };
    Ok(is_later && frames.as_str().starts_with(earlier.as_str()))
}

/// The places at which another byte takes earlier frames away, or refuses an earlier block.
pub fn print_changes(printed: &mut String, alloc: Global, bytes: &[u8]) -> Result<(), RowFault> {
    for (at, byte) in bytes.iter().enumerate() {
        for value in [0u8, 1, 12, 127, 128, 255, byte ^ 4] {
            let mut changed = Vec::new(alloc);
            changed.extend_from_slice(bytes)?;
            if let Some(place) = changed.get_mut(at) {
                *place = value;
            }
            if !has_earlier_frames(alloc, bytes, &changed, at)? {
                print_shown(printed, &at)?;
            }
        }
    }
    print(printed, "all earlier frames")
}
