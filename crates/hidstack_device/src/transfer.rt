//! A control transfer with memory of any length (USB 2.0, 8.5.3 and 9.3.5).

ghost use Rattle.std.specs.Prelude.{◌≡◌, ◌≤◌, true, false, length, take};
ghost use Rattle.usb_control.specs.SetupBytes.{reads};
ghost use Rattle.hidstack_device.specs.Transfers.{EndsGadget, Transfers};

use hid_gadget::{Control, Gadget};
use usb_control::Setup;

/// Why a control transfer isn't done.
#[derive(Clone, Copy, Debug, PartialEq, Eq)]
pub enum TransferFault {
    /// A read: there is room for fewer than wLength bytes.
    NoRoom,
    /// A write: there are fewer than wLength bytes.
    Short,
    /// The device refuses the request: STALL (USB 2.0, 8.5.3.4).
    Stalled,
}

/// A control transfer whose lengths fit.
fn carry_out(
    gadget: &mut Gadget,
    setup: &Setup,
    written: &[u8],
    answer: &mut [u8],
) -> Result<usize, TransferFault>
    requires room { reads setup.now ≡ true → setup.now.length ≤ length answer.old }
    requires whole { reads setup.now ≡ false → length written.now ≡ setup.now.length }
    ensures { EndsGadget gadget.old setup.now written.now answer.old result gadget.new answer.new }
{
    match gadget.control(setup, written, answer) {
        Control::Done(count) => Ok(count),
        Control::Stalled => Err(TransferFault::Stalled),
    }
}

/// The first bytes, or all where there are fewer.
fn first(bytes: &[u8], count: usize) -> &[u8]
    ensures { result.now ≡ take count bytes.now }
{
    if count < bytes.len() {
        &bytes[..count]
    } else {
        bytes
    }
}

/// A control transfer, whole. A read puts at most wLength bytes at the front of `answer`; of a write the first wLength bytes
/// of `written` are sent. It returns how many bytes were answered; of a write 0.
///
/// # Errors
/// [`TransferFault`]: of lengths that don't fit, before the request reaches the device, which stays as it is; and STALL, for
/// which a device forgets the request before it. `answer` stays as it was.
pub fn control(
    gadget: &mut Gadget,
    setup: &Setup,
    written: &[u8],
    answer: &mut [u8],
) -> Result<usize, TransferFault>
    ensures { Transfers gadget.old setup.now written.now answer.old result gadget.new answer.new }
{
    let wanted = usize::from(setup.length);
    if setup.is_read() && answer.len() < wanted {
        return Err(TransferFault::NoRoom);
    }
    if !setup.is_read() && written.len() < wanted {
        return Err(TransferFault::Short);
    }
    carry_out(gadget, setup, first(written, wanted), answer)
}
