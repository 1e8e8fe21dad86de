//! What a run is asked to print.

/// What is printed beside the events, and whether what is refused ends the run.
#[derive(Clone, Copy, Debug, PartialEq, Eq)]
pub struct Options {
    /// The layout of each descriptor that is accepted.
    pub layout: bool,
    /// The values of each report.
    pub values: bool,
    /// The name of the usage of each event and of each value, and of those in a layout, where it has one.
    pub names: bool,
    /// Which control each event is of, after its usage: the place of its item, and its place there. JSON has both in any case.
    pub places: bool,
    /// The first refusal ends the run.
    pub strict: bool,
    /// Events and refusals are reported as JSON.
    pub json: bool,
}
