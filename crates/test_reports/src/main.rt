//! Plays the tables of standard input (`stdin`): the tests of items, fields, names, layouts, snapshots, views, boot reports
//! and sessions, through the exports of `hid_items`, `hid_fields`, `hid_names`, `hid_layout`, `hid_snapshots`, `hid_usages` and
//! `hidstack_session`.
//! ```text
//!   stdin --> test_rows::run --> each row that is wrong, and how many tables and rows there were
//!                     |
//!                     +-- question, given --> Answers: a file of src/ for each sort of question
//! ```
//! The rule to know: `stdout` has nothing but the last line, so a row that is wrong or lost is seen.
#![tactic(auto)]

mod boot;
mod controls;
mod events;
mod fields;
mod items;
mod layouts;
mod questions;
mod session;
mod snapshots;
mod views;
mod words;

use questions::Questions;
use std::process::ExitCode;
use test_rows::run;

fn main(rt: HostRuntime) -> ExitCode {
    run(&rt, rt.alloc(), rt.stdin(), &Questions)
}
