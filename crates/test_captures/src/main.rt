//! Plays the tables of standard input (`stdin`), which are worked out by hand, and prints the frames and URBs of the captures
//! that its arguments name (`data`), with the descriptors and reports among them, as tshark printed them (`stdout`): the tests of
//! `usb_capture` and `hid_capture`.
//! ```text
//!   stdin --> test_rows::run --> each row that is wrong, and how many tables and rows there were
//!                     |
//!                     +-- question, given --> Questions: frames, cuts, changes, urb; TrackerSteps: tracked
//!   data  --> usb_capture --> hid_capture --> a line for each frame
//! ```
//! The rule to know: `stdout` has the rows' last line and tshark's lines, so a row that is wrong or lost is seen.
#![tactic(auto)]

mod files;
mod frames;
mod questions;
mod tracking;
mod urbs;

use files::print_files;
use questions::Questions;
use std::process::ExitCode;
use test_rows::run;

fn main(rt: HostRuntime) -> ExitCode {
    let rows = run(&rt, rt.alloc(), rt.stdin(), &Questions);
    if print_files(&rt).is_err() {
        return ExitCode::FAILURE;
    }
    rows
}
