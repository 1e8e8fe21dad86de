//! Lines of the test bench whose devices a real machine has (docs/LAB.md, docs/USBIP.md).
//! ```text
//!   press 1 07:04            an action
//!   click 1 Keyboard_A       press 1 Keyboard_A, release 1 Keyboard_A
//!   type 1 "Hi"              press 1 07:E1, press 1 07:0B, release 1 07:0B, release 1 07:E1, press 1 07:0C, release 1 07:0C
//!   wait 500                 frame 500
//!   expect 1 output 0 02     an expectation: the actions after it come once the host has set this report
//!   expect any               another one: what the host set so far is passed over
//!   poll 1                   refused: the host polls
//! ```
//! The rule to know: a line is lines of a script (`parts_of`), and these are the actions of [`usbip_script`]. An expectation holds
//! back what comes after it, and changes nothing else of what is served.
//!
//! The promise: what a line gives, or why it is refused, is the clause of [`LabScript::take`], line by line; when an expectation lets
//! the script go on is that of [`Expectations::advance`]; that it only delays is [`laws::expectations_only_delay`].
#![tactic(auto)]

mod expectations;
mod expecting;
mod lab_script;
pub mod laws;
mod watching;

pub use expectations::{Advance, Expectations, MOST_WAIT};
pub use expecting::{ExpectedKind, Expecting};
pub use lab_script::{LabScript, MAX_ACTIONS, MAX_EXPECTATIONS};
pub use watching::Watching;
