//! What answers to polls and to tries of transfers say.

ghost use Rattle.std.specs.Prelude.{◌≡◌};
ghost use Rattle.lab_session.specs.Lines.{has_nothing};

use hid_stack::Told;
use usb_control::Progress;
use usb_transact::Took;

/// Whether an answer to a poll is that there is nothing to send.
pub fn has_nothing(told: &Told) -> bool
    ensures { result ≡ has_nothing told.now }
{
    match told {
        Told::Polled {
            took: Took::Nak,
            ..
        } => true,
        _ => false,
    }
}

/// Whether an answer to a poll is data that the host had already.
pub fn is_repeated(told: &Told) -> bool {
    matches!(
        told,
        Told::Polled {
            took: Took::Again,
            ..
        }
    )
}

/// Whether a try was the last one of its transfer, and the transfer is done.
pub fn ends_transfer(told: &Told) -> bool {
    matches!(told, Told::Transfer(Progress::Done))
}
