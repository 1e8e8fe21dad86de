//! Does one piece of the stack's work many times, so that its instructions can be counted.
//! ```text
//!   hid_bench parse TURNS DESCRIPTOR             reads a report descriptor, and drops its layout
//!   hid_bench read  TURNS DESCRIPTOR REPORT..    reads each Input report in turn by one reader
//!   hid_bench write TURNS DESCRIPTOR USAGE..     writes the report of the first usage, with each pressed, moved or set
//!   hid_bench step  TURNS DESCRIPTOR USAGE..     moves the controls of the usages, if there are any, and polls the device
//!   hid_bench drive TURNS DESCRIPTOR REPORT..    reads each Input report in turn by a driver, a transfer each
//!   hid_bench report TURNS DESCRIPTOR USAGE..    moves the controls of the usages, and takes the report as a whole transfer
//!   hid_bench transfer TURNS DESCRIPTOR SETUP..  makes each request as a whole transfer; of a write its data follow SETUP
//!   hid_bench try   TURNS DESCRIPTOR SETUP..     makes each request by its tries, packet by packet
//! ```
//! Descriptors and reports are hex digits; a usage has four digits of its page and four of its ID. The program prints how many
//! items were listed, events came, or bytes were written, taken or answered, in all turns together.
//!
//! The rule to know: the cost of a turn is the difference of two runs, divided by the difference of their turns, as `make
//! bench` counts.
//!
//! The exit status is 0; 1 if the descriptor, a report or a usage is refused; 2 for a wrong command line; 3 if memory runs out
//! or standard output can't be written.
#![tactic(auto)]

mod args;
mod driving;
mod fault;
mod reading;
mod reporting;
mod stepping;
mod transferring;
mod work;
mod writing;

use args::parse_args;
use fault::BenchFault;
use std::env;
use std::process::ExitCode;
use work::done;

/// Standard output or memory failed.
const OUTSIDE: u8 = 3;

fn main(rt: HostRuntime) -> ExitCode {
    let alloc = rt.alloc();
    let Ok(args) = env::args(&rt) else {
        return ExitCode::from(OUTSIDE);
    };
    let words: Result<Vec<String>, _> = args.collect(alloc);
    let Ok(words) = words else {
        return ExitCode::from(OUTSIDE);
    };
    match parse_args(alloc, words.as_slice()) {
        Ok(asked) => tell(&rt, done(alloc, &asked)),
        Err(fault) => tell(&rt, Err(fault)),
    }
}

/// Prints the result of the work, or why none was done.
fn tell(rt: &HostRuntime, told: Result<u64, BenchFault>) -> ExitCode {
    match told {
        Ok(told) => {
            if println!(rt; "{told}").is_ok() {
                ExitCode::SUCCESS
            } else {
                ExitCode::from(OUTSIDE)
            }
        }
        Err(fault) => {
            let _ = eprintln!(rt; "hid_bench: {fault}");
            ExitCode::from(fault.status())
        }
    }
}
