//! Plays the tables of standard input (`stdin`): the tests of packets, transactions and control transfers, through the
//! exports of `usb_packet`, `usb_transact` and `usb_control`.
//! ```text
//!   stdin --> test_rows::run --> each row that is wrong, and how many tables and rows there were
//!                     |
//!                     +-- question, given --> Answers: a file of src/ for each sort of question
//! ```
//! The rule to know: `stdout` has nothing but the last line, so a row that is wrong or lost is seen.
#![tactic(auto)]

mod descriptors;
mod device;
mod foreign;
mod keyboard;
mod packets;
mod questions;
mod requests;
mod sent;
mod transactions;
mod transfers;

use questions::Questions;
use std::process::ExitCode;
use test_rows::run;

fn main(rt: HostRuntime) -> ExitCode {
    run(&rt, rt.alloc(), rt.stdin(), &Questions)
}
