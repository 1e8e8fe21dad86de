//! Scripts and recordings as text: lines that come in pieces, what a line says (docs/SCRIPT.md), and what is printed of
//! layouts, reports, polls and events.
//! ```text
//!           words_of_line                   read_line
//!   line ------------------> word by word ---------------> Line, or the first LineFault
//!
//!   press 1 07:04                        Press { dev: 1, usage: 07:04 }
//!   poll 1 ack 2                         Poll { dev: 1, fate: AckLost, count: 2 }
//!   begin 1 config                       Begin { dev: 1, request: Config }
//!   values 0a Ff10                       Values { bytes: 0A FF 10 }
//!   # a comment                          Nothing
//!   values 0                             BadHex
//!
//!   Layout ---------- print_layout ---> report input 0 bytes 1
//!                                       item 0 input 0 at 0 8x1 relative -127..127 01:30
//!   a report 81 ----- print_values ---> value 0.0 -127 01:30
//!   a step and
//!   its result ------ print_step -----> 1 poll DATA0 00 00 04 00 00 00 00 00 fresh
//!                                       1 down 07:04
//! ```
//! The rules to know: a line is read without its end, and alone: earlier lines don't change what it says. A call that prints
//! appends to its text; its only error is to run out of memory, and some of the text may be appended then.
//!
//! Most lines are short: [`read_short`] reads them into a smaller type.
//! Bytes that come in pieces, of a script or a recording, are cut into lines by [`split_line`] and a [`LineBuffer`].
//!
//! The promise: [`read_line`] gives exactly what the definition `meaning_of` says (`exact`), and takes no memory. What is
//! printed is the stated text, byte for byte: `layout_text`, `values_text` and `step_text` of `specs/`. How a line begins
//! distinguishes lines of events from others: law [`laws::event_lines_are_recognized`].
#![tactic(auto)]

mod arguments;
mod change_kind;
mod event_text;
mod fault;
pub mod laws;
mod layout_text;
mod line;
mod line_buffer;
mod named_text;
mod numbers;
mod poll_text;
mod requests;
mod short;
mod step_text;
mod transfer_text;
mod values_text;
mod words;

pub use arguments::{read_boot, read_start};
pub use change_kind::ChangeKind;
pub use event_text::{EventText, PlacedEventText};
pub use fault::LineFault;
pub use layout_text::{print_collections, print_layout};
pub use line::{Line, read_line, says_nothing};
pub use line_buffer::{LineBuffer, TooLong, split_line};
pub use named_text::{print_named_element, print_named_layout, print_named_values};
pub use numbers::{read_amount, read_count, read_device, read_number, read_signed, read_usage};
pub use short::{ShortLine, read_short};
pub use step_text::print_step;
pub use values_text::{print_element, print_values};
pub use words::{first_word, hex_pair, look_up, words_of_line};
