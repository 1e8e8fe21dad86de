//! What is printed.

/// What is printed beside what the lines print, and how.
#[derive(Clone, Copy, Debug, PartialEq, Eq)]
pub struct LabOptions {
    /// The layout of each device that is attached.
    pub layout: bool,
    /// A line for each poll, each try of a transfer, and each Output report that is set.
    pub trace: bool,
    /// The name of each event's usage.
    pub names: bool,
    /// Which control each event is of.
    pub places: bool,
    /// Lines of JSON.
    pub json: bool,
    /// Polls, losses and repetitions are counted.
    pub summary: bool,
    /// In place of the seed of each line `lose`.
    pub seed: Option<u64>,
}
