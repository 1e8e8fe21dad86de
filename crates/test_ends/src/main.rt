//! Plays rows of the two ends of the bus, `hid_device` and `hid_host`, of a device by whole transfers, `hid_gadget`, and of the
//! requests of endpoint 0, `hid_requests`, through their exports. The rows stand in the file `stdin` beside this folder, which
//! `rt ci` gives to the program: so they cost no proof.
//! ```text
//!   # a_device_goes_through_its_rounds: ends
//!   a round: plain MOUSE                     a new device, and a new host
//!     a button: press 0 0 >                  nothing if the step is right; if not, the table, the step and its result
//!     a poll: 69 81 00 > C3 01 00 00 round 0.0
//! ```
//! A question of requests, descriptors and refusals is a row of one line: `requests.rt` and `creation.rt`. Both ends are played
//! by steps, with the whole result after `>`: `device.rt` has the words of a device, `host.rt`, `host/foreign.rt` and
//! `host/packets.rt` those of a host, and `ends.rt` how both are made. A table of `gadget` plays a device by whole transfers:
//! `gadget.rt`. A row that can't be read is wrong.
//!
//! The exit status is 0 if no row is wrong, else 1; 2 if standard input can't be read or standard output written.
#![tactic(auto)]

mod creation;
mod device;
mod ends;
mod gadget;
mod host;
mod output;
mod questions;
mod requests;
mod words;

use questions::Questions;
use std::process::ExitCode;
use test_rows::run;

fn main(rt: HostRuntime) -> ExitCode {
    run(&rt, rt.alloc(), rt.stdin(), &Questions)
}
