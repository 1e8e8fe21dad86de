//! What a run counts.

/// What a run that was not cut short counted.
#[derive(Clone, Copy, Debug, PartialEq, Eq)]
pub struct Summary {
    /// All lines, empty ones and comments too.
    pub lines: u64,
    /// The events of the lines, from polls, resets, halts and tries of transfers. The count stops at the greatest `u64`.
    pub events: u64,
}
