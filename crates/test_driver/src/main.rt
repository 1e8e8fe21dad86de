//! Plays rows of a driver of real devices, `hid_driver`, of what it reads of a configuration, `hid_interfaces`, and of a driver of
//! a device of a USB/IP server, `usbip_import`, through their exports. The rows stand in the file `stdin` beside this folder,
//! which `rt ci` gives to the program: so they cost no proof.
//! ```text
//!   # a_keyboard_comes_up: driver
//!   the boot keyboard: new                   a new driver
//!     its first request: todo > 80 06 00 01 00 00 12 00
//!     its answer: done DEVICE > onward
//! ```
//! `driven.rt` and `imported.rt` have the words of the steps. A row that can't be read is wrong.
//!
//! The exit status is 0 if no row is wrong, else 1; 2 if standard input can't be read or standard output written.
#![tactic(auto)]

mod driven;
mod imported;
mod printed;
mod words;

use driven::Questions;
use std::process::ExitCode;
use test_rows::run;

fn main(rt: HostRuntime) -> ExitCode {
    run(&rt, rt.alloc(), rt.stdin(), &Questions)
}
