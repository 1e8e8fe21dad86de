//! Runs a script from standard input to standard output.
//! ```text
//!   hidrun [--layout] [--trace]
//!
//!   standard input --> hid_script::run --> a buffer --> standard output
//!                           |
//!                           +-- a fault --> standard error, as `line 2: X4 U8`, and an exit status
//! ```
//! The exit status is 0, or what [`exit_of`](status::exit_of) gives for the fault, or 2 for a wrong command line.
#![tactic(auto)]

mod args;
mod status;

use args::options_of;
use clap::error::ErrorKind;
use command_words::{print_unread_words, words_of};
use hid_script::{Cause, Options, ScriptFault, Summary, run};
use status::{OUTSIDE, WRONG_USAGE, exit_of};
use std::io::BufWriter;
use std::process::ExitCode;

const USAGE: &str = "usage: hidrun [--layout] [--trace]";

fn main(rt: HostRuntime) -> ExitCode {
    let alloc = rt.alloc();
    let words = match words_of(&rt) {
        Ok(words) => words,
        Err(fault) => return ExitCode::from(print_unread_words(&rt, "hidrun", &fault, "")),
    };
    match options_of(alloc, words.given.as_slice()) {
        Ok(options) => run_script(&rt, options),
        Err(error) => ExitCode::from(print_bad_words(&rt, &error)),
    }
}

/// Prints how the program is called, unless memory ran out for the words.
fn print_bad_words(rt: &HostRuntime, error: &clap::Error) -> u8 {
    match error.kind() {
        ErrorKind::OutOfMemory => OUTSIDE,
        _ => {
            let _ = eprintln!(rt; "{USAGE}");
            WRONG_USAGE
        }
    }
}

/// Runs the script, and prints its fault. The line of a fault takes no memory, so running out of it can't mask the original
/// fault.
fn run_script(rt: &HostRuntime, options: Options) -> ExitCode {
    match run_buffered(rt, options) {
        Ok(_) => ExitCode::SUCCESS,
        Err(fault) => {
            let ScriptFault { line, cause } = fault;
            let _ = eprintln!(rt; "line {line}: {cause}");
            ExitCode::from(exit_of(&fault))
        }
    }
}

/// Runs the script of standard input. Its output goes through a buffer, which `run` flushes.
fn run_buffered(rt: &HostRuntime, options: Options) -> Result<Summary, ScriptFault> {
    let Ok(mut output) = BufWriter::new(rt.alloc(), rt.stdout()) else {
        return Err(ScriptFault {
            line: 1,
            cause: Cause::Memory,
        });
    };
    run(rt.alloc(), &mut rt.stdin(), &mut output, options)
}
