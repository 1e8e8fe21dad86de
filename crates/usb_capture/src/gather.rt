//! The bytes of one block, from bytes that come in pieces.

ghost use Rattle.std.specs.Prelude.{◌≡◌, ◌+◌, ◌-◌, ◌≤◌, ◌++◌, length, min, take, IfOk, IfErr};
ghost use Rattle.usb_capture.specs.Gathering.{IsPartial, Gathers};
ghost use Rattle.usb_capture.specs.declared.fault.Cause.TheVariants.{Memory};

use super::extent::{extent, head_length};
use super::fault::Cause;
use super::format::Format;

/// What came of the bytes of a piece.
pub(crate) enum Gathered {
    /// All were taken, and the block isn't whole.
    All,
    /// So many were taken, and the block is whole.
    Whole { taken: usize },
}

/// Adds bytes to the block until it has `size` of them, and answers how many.
///
/// # Errors
/// [`Cause::Memory`].
fn fill(block: &mut Vec<u8>, size: usize, bytes: &[u8]) -> Result<usize, Cause>
    ensures taken { IfOk result (λ n. n ≡ min (size - length block.old.items) (length bytes.now)) }
    ensures block { IfOk result (λ n. block.new.items ≡ block.old.items ++ take n bytes.now) }
    ensures memory { IfErr result (λ cause. cause ≡ Memory) }
{
    let wanted = size.saturating_sub(block.len()).min(bytes.len());
    block.extend_from_slice(&bytes[..wanted])?;
    Ok(wanted)
}

/// Adds bytes to the block until it is whole.
///
/// # Errors
/// Why the block is refused, by its first bytes, or [`Cause::Memory`].
#[tactic(auto, unfolding(crate::specs::Gathering::block_length))]
pub(crate) fn gather(format: Format, block: &mut Vec<u8>, bytes: &[u8]) -> Result<Gathered, Cause>
    requires { IsPartial format block.old.items }
    ensures { Gathers format block.old.items bytes.now result block.new.items }
{
    let head = head_length(format);
    let first = fill(block, head, bytes)?;
    if block.len() < head {
        return Ok(Gathered::All);
    }
    let size = extent(format, &block[..head])?;
    let second = fill(block, size, &bytes[first..])?;
    if block.len() < size {
        return Ok(Gathered::All);
    }
    Ok(Gathered::Whole {
        taken: first + second,
    })
}
