//! What answers requests: what one device does that another doesn't (USB 2.0, 9.2 and 9.4).
ghost use Rattle.std.specs.Prelude.{◌≡◌, ◌≤◌, true, false, Option, List, ℕ, Bool, IsSome};
ghost use Rattle.std.specs.Option.{option_copied};
ghost use Rattle.usb_control.specs.declared.device.TheConstants.{MAX_WRITE};
ghost use Rattle.usb_control.specs.declared.setup.Setup.{Setup as Request};
ghost use Rattle.usb_control.specs.SetupBytes.{reads};

use crate::setup::Setup;

/// Decides on requests, fixes the answers of reads, and carries writes out.
///
/// [`prepare`](Requests::prepare) is called at each SETUP that arrives. Then a read calls
/// [`answer`](Requests::answer) for each piece that it sends, and a write calls [`apply`](Requests::apply) once, when
/// its status is asked for. Nothing else is called, and by nothing else does endpoint 0 change it.
pub trait Requests {
    /// The answer that is fixed.
    ghost answer_of: { Self → Option (List ℕ) };

    /// What `prepare` may say of a request, and leave.
    ghost prepare_gives: { Self → Request → Bool → Self → Type 0 };

    /// What `apply` may leave.
    ghost apply_gives: { Self → List ℕ → Self → Type 0 };

    /// That two values differ at most in the answer, and in the request that `apply` will carry out.
    ghost same_but_request: { Self → Self → Type 0 };

    /// Decides on a request, and fixes its answer: whether it is accepted.
    fn prepare(&mut self, setup: &Setup) -> bool
        ensures { prepare_gives self.old setup.now result self.new };

    /// The answer that is fixed, whole: it is cut to wLength as it is sent.
    fn answer(&self) -> Option<&[u8]>
        ensures { option_copied result ≡ answer_of self.now };

    /// Carries out the write that was prepared, with its wLength bytes.
    fn apply(&mut self, bytes: &[u8])
        ensures { apply_gives self.old bytes.now self.new };

    /// A read that was accepted has an answer. As a value has one `answer_of`, it stays until that value changes.
    ghost read_has_answer: { (s t : Self) (setup : Request) → prepare_gives s setup true t
        → reads setup ≡ true → IsSome (answer_of t) };

    /// A write of more bytes than a device keeps is refused.
    ghost write_is_short: { (s t : Self) (setup : Request) → prepare_gives s setup true t
        → reads setup ≡ false → setup.length ≤ MAX_WRITE };

    /// Deciding changes nothing but the answer and the request that `apply` will carry out.
    ghost prepare_keeps: { (s t : Self) (setup : Request) (said : Bool) → prepare_gives s setup said t
        → same_but_request s t };

    /// What is decided doesn't depend on the answer, nor on the request that `apply` would carry out: so to decide again
    /// is to decide once.
    ghost prepare_forgets: { (s t u : Self) (setup : Request) (said : Bool) → same_but_request s t
        → prepare_gives t setup said u → prepare_gives s setup said u };

    /// After a read there is nothing to carry out.
    ghost read_has_no_effect: { (s t u : Self) (setup : Request) (bytes : List ℕ) → prepare_gives s setup true t
        → reads setup ≡ true → apply_gives t bytes u → u ≡ t };
}
