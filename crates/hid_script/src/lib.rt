//! The script language: its lines lay descriptors out, read reports and play devices on a bus, and print the results.
//! ```text
//!                           --read_short--> ShortLine --
//!   reader --> pieces --> lines                         carried out, by the rig --> text --> writer
//!                           --read_line---> Line -------
//!
//!   layout 05 01 09 30 15 81 25 7F 75 08 95 01 81 06    report input 0 bytes 1
//!                                                       item 0 input 0 at 0 8x1 relative -127..127 01:30
//!   values 81                                           value 0.0 -127 01:30
//!   device ready keyboard 05 01 09 06 A1 01 .. C0
//!   press 1 07:04
//!   poll 1                                              1 down 07:04
//!   begin 1 status
//!   control 1 clean 3                                   1 control done 00 00
//!   halt 1
//!   poll 1                                              (with `trace`) 1 poll STALL stall
//! ```
//! The rule to know: a line is read whole, by `read_short` of `hid_text` or else by `read_line`, and carried out, and then
//! its text is written (each time, for a line with a count). A refused line ends the run; the text of the lines before it
//! is written. [`parse_line`] says what a line means by itself.
//!
//! What reads lines of its own, as the test bench does, carries each out by an [`Interpreter`], which [`run`] is made of.
//!
//! The promise: [`run`] writes exactly the text of the script, by its clause. The lines of a device's events are the
//! text of all that happened to the device: law [`laws::histories_are_printed`].
#![tactic(auto)]

mod change_kind;
mod fault;
mod fault_text;
mod interpreter;
pub mod laws;
mod line;
mod options;
mod output;
mod runs;
mod script;
mod streams;
mod summary;

pub use fault::{Cause, ScriptFault, StepFault};
pub use fault_text::fault_line;
pub use hid_text::{Line, ShortLine};
pub use interpreter::Interpreter;
pub use line::parse_line;
pub use options::Options;
pub use output::write_text;
pub use runs::{MAX_READS, run};
pub use streams::{ReadResult, Sink, Source, WriteFailed};
pub use summary::Summary;
