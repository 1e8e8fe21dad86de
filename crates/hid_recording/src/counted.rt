//! What a run counts, so that a refusal has a number.

/// What the number of a refusal counts.
#[derive(Clone, Copy, Debug, PartialEq, Eq)]
pub enum Counted {
    /// The lines of a recording.
    Lines,
    /// The frames of a capture.
    Frames,
    /// The reports of a live device.
    Reports,
}
