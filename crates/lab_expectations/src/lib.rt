//! What was printed, and what is expected of it (docs/LAB.md).
//! ```text
//!   add("1 down 07:04\n")                  printed, and not expected yet
//!   add("1 up 07:04\n")
//!   expect("1 down 7:4")                   true: the first of them
//!   expect("1 * Keyboard_A")               true: `*` is any word, and a usage has its names
//!   expect_none()                          true
//!   expect("1 down 07:05")                 false: answer says that nothing was printed
//! ```
//! The rule to know: each `expect` takes the next line that was printed, and says whether it is the one that is expected. Lines that
//! may be expected, as those of output reports without `--trace`, are passed over where another one comes.
//!
//! The promise: an expectation changes nothing but which line comes next.
#![tactic(auto)]

mod looking;
mod matching;
mod transcript;

pub use matching::{is_expected_line, is_output_line, unknown_usage};
pub use transcript::{Expectation, MAX_TRANSCRIPT, Transcript};
