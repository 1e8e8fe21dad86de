//! A step: bytes are taken up to the end of a block, and the block is read.

ghost use Rattle.std.specs.Prelude.{ℕ};
ghost use Rattle.usb_capture.specs.Gathering.{IsPartial};
ghost use Rattle.usb_capture.specs.Step.{Stepped};

use super::accept::accept;
use super::fault::Cause;
use super::format::{Format, Interface};
use super::gather::{Gathered, gather};
use super::reading::FrameHead;

/// What came of the bytes of a piece.
pub(crate) enum Advanced {
    /// All were taken, and the block isn't whole.
    All,
    /// So many were taken, and the block is whole, with its frame where it has one.
    Whole {
        taken: usize,
        frame: Option<FrameHead>,
    },
}

/// Takes bytes up to the end of the block that has begun, and keeps what the block says.
///
/// # Errors
/// Why the block is refused, or [`Cause::Memory`].
pub(crate) fn advance(
    format: &mut Format,
    interfaces: &mut Vec<Interface>,
    block: &mut Vec<u8>,
    bytes: &[u8],
) -> Result<Advanced, Cause>
    requires { IsPartial format.old block.old.items }
    ensures { (at : ℕ) → Stepped (record {
      known = record { format = format.old; interfaces = interfaces.old.items };
      at = at;
      begun = block.old.items;
    }) bytes.now result
        (record { format = format.new; interfaces = interfaces.new.items }) block.new.items }
{
    match gather(*format, block, bytes)? {
        Gathered::All => Ok(Advanced::All),
        Gathered::Whole { taken } => {
            let frame = accept(format, interfaces, block)?;
            Ok(Advanced::Whole { taken, frame })
        }
    }
}
