//! What a run is asked to print.

/// What is printed beside the output of the lines.
#[derive(Clone, Copy, Debug, PartialEq, Eq)]
pub struct Options {
    /// The layout of each device that is attached.
    pub layout: bool,
    /// A line for each poll, and for each try of a transfer.
    pub trace: bool,
}
