//! The player of rows: tests as text, which a program reads from standard input. Each row has its input and its expected
//! result. docs/TESTING.md, "Rows", has the whole language; a program of a crate reads this much of it:
//! ```text
//!   -- a remark
//!   MOUSE = 05 01 09 02 ..                     bytes that rows name, before the first table
//!   # a_report_gives_its_changes: view         a table: its title, and the question that its rows ask
//!   two keys: KEYBOARD | take 00*2 05 04 00*4 > down 4.4 07:04, down 4.5 07:05
//!                                              a row: a name, if it has one; the input; the expected result
//!   a key: plain KEYBOARD                      a row of steps: the input of all of them,
//!     a poll: 69 81 00 > 5A                    and the steps, which are played in turn
//! ```
//! A program ([`run`]) has a question for each sort of table ([`Answers`]). It prints each row with another result, then the
//! number of tables, of rows, of steps and of wrong ones, so a row that is lost is seen too.
//!
//! The rule to know: such rows cost no proof; the texts in a test function are each part of one.
#![tactic(auto)]

mod bytes;
mod fault;
mod outcome;
mod program;
mod results;
mod table;
mod verdict;
mod words;

pub use bytes::{bytes_of, push_word};
pub use fault::RowFault;
pub use outcome::{holds, none_is_wrong};
pub use program::run;
pub use results::{
    add, add_debug, add_hex, add_shown, print, print_bytes, print_debug, print_hex, print_number,
    print_numbers, print_pattern, print_shown, print_whether,
};
pub use table::Table;
pub use verdict::{Answers, Asked, Row, Subject, Verdict, judge, judge_steps};
pub use words::{number_of, pattern_of, signed_of, split, width_of};
