//! What follows for whole connections.
ghost use Rattle.std.specs.Prelude.{List};
ghost use Rattle.usbip.specs.declared.pending.PendingSubmit.{PendingSubmit as Waiting};
ghost use Rattle.usbip.specs.Pending.{Happening, IsAnsweredOnce};

/// Each submit that waits is answered once, whatever comes in whatever order: by RET_SUBMIT with its number, or by RET_UNLINK with
/// -104 in its place. Of each number as many as came, and waited before, are answered, or wait still.
#[tactic(auto, using(crate::proofs::PendingLemmas::answered_once))]
pub fn each_submit_is_answered_once()
    ensures { (waiting : List Waiting) (happenings : List Happening) → IsAnsweredOnce waiting happenings }
{}
