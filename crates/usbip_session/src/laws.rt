//! What follows for failures that go on.
ghost use Rattle.std.specs.Prelude.{◌≡◌, ◌≤◌, ◌+◌, ◌*◌, ℕ, List, ◌∷◌, length, None};
ghost use Rattle.usbip_session.specs.declared.timer.Answer.{Answer};
ghost use Rattle.usbip_session.specs.Failures.{AreApart, BringNoReport, GoesOn, failing_time, failure_times};

/// Failures of an interface that go on, with no report and no packet of one between them, make an endless row. Answers without a
/// report change nothing.
#[tactic(auto, using(crate::proofs::FailureLemmas::sixteen_end, crate::proofs::FailureLemmas::failures_end))]
pub fn failures_end()
    // Of failures over a second apart, however far, at most fifteen go by.
    ensures apart { (limit first : ℕ) (times : List ℕ) (answers : List (Answer × ℕ)) → BringNoReport answers
        → failure_times answers ≡ first ∷ times → AreApart 1001 first times
        → GoesOn limit None answers → length times ≤ 14 }
    // Whenever they come, they last at most 15 limits and 14 waits of 1,001 ms, if a longer wait counts as one of these.
    ensures all { (limit first : ℕ) (times : List ℕ) (answers : List (Answer × ℕ)) → BringNoReport answers
        → failure_times answers ≡ first ∷ times → AreApart 0 first times
        → GoesOn limit None answers → failing_time first times ≤ 15 * limit + 14 * 1001 }
{}
