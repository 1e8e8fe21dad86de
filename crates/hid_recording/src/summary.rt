//! What a run counts.

ghost use Rattle.std.specs.Prelude.{◌≡◌};

/// What was played. Counts stop at the greatest `u64`.
#[derive(Clone, Copy, Debug, PartialEq, Eq)]
pub struct Summary {
    /// All lines, empty ones and comments too.
    pub lines: u64,
    /// Descriptors that were accepted.
    pub descriptors: u64,
    /// Reports that were read.
    pub reports: u64,
    pub events: u64,
    /// Lines that were refused.
    pub refused: u64,
}

impl Summary {
    /// Nothing was played.
    pub fn none() -> Summary
        ensures { result ≡ record { lines = 0; descriptors = 0; reports = 0; events = 0; refused = 0 } }
    {
        Summary {
            lines: 0,
            descriptors: 0,
            reports: 0,
            events: 0,
            refused: 0,
        }
    }
}
