//! What is known after a whole block.

ghost use Rattle.std.specs.Prelude.{◌≤◌, length};
ghost use Rattle.usb_capture.specs.Reading.{Accepts};
ghost use Rattle.usb_capture.specs.Extent.{head_length};

use super::fault::Cause;
use super::format::{Format, Interface};
use super::reading::{FrameHead, Reading, read};

/// Keeps what a whole block says, and answers its frame, if it has one.
///
/// # Errors
/// Why the block is refused, or [`Cause::Memory`], of the description of an interface alone.
pub(crate) fn accept(
    format: &mut Format,
    interfaces: &mut Vec<Interface>,
    block: &[u8],
) -> Result<Option<FrameHead>, Cause>
    requires { head_length format.old ≤ length block.now }
    ensures { Accepts format.old interfaces.old.items block.now result format.new interfaces.new.items }
{
    match read(*format, interfaces, block)? {
        Reading::Begins(begun) => {
            *format = begun;
            interfaces.clear();
            Ok(None)
        }
        Reading::Described(interface) => {
            if interfaces.push(interface).is_err() {
                return Err(Cause::Memory);
            }
            Ok(None)
        }
        Reading::Captured(head) => Ok(Some(head)),
        Reading::PassedOver => Ok(None),
    }
}
