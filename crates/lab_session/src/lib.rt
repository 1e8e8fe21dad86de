//! The test bench: carries out its lines on the interpreter of scripts, and says what was printed (docs/LAB.md).
//! ```text
//!   LabLine --Bench::carry_out--> lines of a script, by the interpreter --> text --> what is printed, by option with names,
//!      |                              ^       |                                      places or as JSON --> writer
//!      | lose: Losses -- a fate ------+       +-- what was printed --> expect: Met, or what came in its place
//!      | click, type: press, polls until the device has nothing to send, release, polls again
//! ```
//! The rule to know: nothing here takes a step of the bus by itself. A new line is a list of parts, each a line of a script or the
//! change of one control by its place, and each part is carried out by `hid_script`.
//!
//! The promise: a line does and prints what its parts do and print, one after the other, by the clauses of
//! [`Interpreter`](hid_script::Interpreter) (`does` of [`Bench::carry_out`]). An expectation changes neither. A run carries out each line
//! of any text in turn (`carries` of [`run`], and of [`run_text`] of a whole text), and a script of `hidrun` as it is there, in whatever
//! pieces it comes (`script`).
#![tactic(auto)]

mod ahead;
mod answers;
mod asked;
mod bench;
mod controls;
mod counts;
mod draws;
mod expecting;
mod fault;
mod feed;
pub mod laws;
mod need;
mod options;
mod outputs;
mod printer;
mod runs;
mod scripted;
mod shown;
mod typing;
mod watch;
mod words;

pub use ahead::Ahead;
pub use asked::Asked;
pub use bench::Bench;
pub use controls::RefusedControl;
pub use counts::Counts;
pub use fault::LabCause;
pub use feed::{Feed, Incoming};
pub use need::Need;
pub use options::LabOptions;
pub use runs::{LabFault, Ran, RunEnd, run, run_text};
pub use watch::Watch;
pub use words::{CauseWords, cause_words};
