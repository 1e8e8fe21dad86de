//! Bytes of a report or a dump as a line spells them: words of hex with blanks between them.

ghost use Rattle.std.specs.Prelude.{◌≡◌, Ok, MatchResult};
ghost use Rattle.std.specs.Bool.{OnTrue};
ghost use Rattle.hid_recording.specs.Words.{IsNone, spelled_bytes};

use super::fault::Cause;
use super::line_fields::{next_pair, read_bytes};
use std::alloc::Global;
use std::mem;

/// Puts the bytes of a text that has two digits after each space in place of those that were there. Whether it is such a text, and
/// memory was there for them; else some of them may be there.
pub fn put_pairs(bytes: &mut Vec<u8>, text: &[u8]) -> bool
    ensures { OnTrue result (spelled_bytes text.now ≡ Ok bytes.new.items) }
{
    bytes.clear();
    let mut rest = text;
    while let Some((byte, more)) = next_pair(rest) {
        if bytes.push(byte).is_err() {
            return false;
        }
        rest = more;
    }
    rest.is_empty()
}

/// Puts the bytes that a text spells, joined, in place of those that were there.
///
/// # Errors
/// R3 at the first byte that isn't two digits, R10 if memory runs out. Some of the bytes may be there then.
pub fn put_spelled(alloc: Global, bytes: &mut Vec<u8>, text: &[u8]) -> Result<(), Cause>
    ensures { MatchResult result
        (λ _. spelled_bytes text.now ≡ Ok bytes.new.items)
        (λ cause. IsNone cause (spelled_bytes text.now)) }
{
    if put_pairs(bytes, text) {
        return Ok(());
    }
    let spelled = read_bytes(alloc, text)?;
    drop(mem::replace(bytes, spelled));
    Ok(())
}
