//! Plays rows of devices that are served to a USB/IP client, `usbip_export`, through its exports. The rows stand in the file `stdin`
//! beside this folder, which `rt ci` gives to the program: so they cost no proof.
//! ```text
//!   # a_keyboard_is_imported: served
//!   keyboard KEYBOARD, plain LONG            devices 1-1 and 1-2, and two connections to them
//!     take 01 11 80 03 00*4 > nothing        nothing is answered yet
//!     1 press 4 4 >                          a key of device 1-1
//! ```
//! `served.rt` has the words of the steps. A row that can't be read is wrong.
//!
//! The exit status is 0 if no row is wrong, else 1; 2 if standard input can't be read or standard output written.
#![tactic(auto)]

mod printed;
mod served;
mod words;

use served::Questions;
use std::process::ExitCode;
use test_rows::run;

fn main(rt: HostRuntime) -> ExitCode {
    run(&rt, rt.alloc(), rt.stdin(), &Questions)
}
