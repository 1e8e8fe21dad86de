//! The test bench: plays USB HID devices on a bus that may lose packets, and tests what a host reports (docs/LAB.md).
//! ```text
//!   hidlab [OPTIONS] [FILE]
//!
//!   FILE, or standard input --> lines --> lab_lines --> lab_session: the rig of hidrun --> a buffer --> standard output
//!     include FILE, repeat .. end -^                       |
//!                                                          +-- a fault --> standard error, with words, and an exit status
//!
//!   --usbip: lines --> lab_serving: devices, actions, expectations --> usbip_script: standard input and output, a host's connection
//! ```
//! The exit status is 0, or what [`exit_of`](status::exit_of) gives for the fault, or 2 for a wrong command line.
#![tactic(auto)]

mod args;
mod near;
mod printing;
mod progress;
mod run;
mod served;
mod source;
mod status;
mod words;

use args::{CliArgs, parse_args};
use command_words::{FileName, print_refused_words, print_unread_words, words_of};
use hid_script::Cause;
use lab_session::{Bench, LabCause};
use printing::print_trouble;
use progress::Progress;
use run::{Trouble, run_all};
use served::serve_source;
use source::LabSource;
use status::{FINE, OUTSIDE, WRONG_USAGE};
use std::fs;
use std::io::{BufWriter, IsTerminal, Stderr, Write};
use std::process::ExitCode;

/// What can be done where a name isn't UTF-8.
const ADVICE: &str = ": give the script by < FILE";

fn main(rt: HostRuntime) -> ExitCode {
    let alloc = rt.alloc();
    let words = match words_of(&rt) {
        Ok(words) => words,
        Err(fault) => return ExitCode::from(print_unread_words(&rt, "hidlab", &fault, ADVICE)),
    };
    match parse_args(alloc, &words) {
        Ok(asked) if asked.is_served => ExitCode::from(serve_file(&rt, &asked)),
        Ok(asked) => ExitCode::from(run_file(&rt, &asked)),
        Err(error) => ExitCode::from(print_refused_words(&rt, "hidlab", &error)),
    }
}

/// The source that the words name; none where it can't be opened, which is printed.
fn open_source(rt: &HostRuntime, name: &str) -> Option<LabSource> {
    let alloc = rt.alloc();
    if name == "-" {
        return Some(LabSource::input(alloc, rt.stdin(), String::new(alloc)));
    }
    let file = match fs::open(rt, name) {
        Ok(file) => file,
        Err(error) => {
            let name = FileName(name);
            let _ = eprintln!(rt; "hidlab: {name}: it can't be read: {error}");
            return None;
        }
    };
    let path = String::from_str(alloc, name).ok()?;
    Some(LabSource::file(alloc, file, path))
}

/// Runs the script that the words name.
fn run_file(rt: &HostRuntime, asked: &CliArgs<'_>) -> u8 {
    let alloc = rt.alloc();
    let Some(source) = open_source(rt, asked.file) else {
        return OUTSIDE;
    };
    let mut sources = Vec::new(alloc);
    if sources.push(source).is_err() {
        return OUTSIDE;
    }
    match Bench::new(alloc, asked.options) {
        Ok(mut bench) => run_sources(rt, asked, &mut sources, &mut bench),
        Err(_) => OUTSIDE,
    }
}

/// Serves the devices of the script that the words name, over USB/IP.
fn serve_file(rt: &HostRuntime, asked: &CliArgs<'_>) -> u8 {
    if asked.file == "-" {
        let _ = eprintln!(rt; "hidlab: --usbip takes a FILE: standard input is the connection");
        return WRONG_USAGE;
    }
    match open_source(rt, asked.file) {
        Some(source) => serve_source(rt, asked.file, source, asked.options.trace),
        None => OUTSIDE,
    }
}

/// Where the progress is printed: on standard error, if it is a terminal and events go elsewhere.
fn terminal(rt: &HostRuntime) -> Option<Stderr> {
    if rt.stderr().is_terminal() && !rt.stdout().is_terminal() {
        Some(rt.stderr())
    } else {
        None
    }
}

/// Runs the lines of the sources, and prints what ended them early, and what was counted.
fn run_sources(
    rt: &HostRuntime,
    asked: &CliArgs<'_>,
    sources: &mut Vec<LabSource>,
    bench: &mut Bench,
) -> u8 {
    let Ok(mut output) = BufWriter::new(rt.alloc(), rt.stdout()) else {
        return OUTSIDE;
    };
    let mut progress = Progress::new(terminal(rt));
    let end = run_all(rt, sources, bench, &mut output, &mut progress);
    progress.clear();
    let end = match output.flush() {
        Ok(()) => end,
        Err(_) => Err(Trouble {
            line: line_of(&end),
            cause: LabCause::Script(Cause::Write),
            words: None,
        }),
    };
    if asked.options.summary {
        let counts = bench.counts();
        let _ = eprintln!(rt; "{counts}");
    }
    match end {
        Ok(_) => FINE,
        Err(trouble) => print_trouble(rt, sources.as_slice(), &trouble),
    }
}

/// The line at which a run ended: after the last one, where all were carried out.
fn line_of(end: &Result<usize, Trouble>) -> usize {
    match end {
        Ok(lines) => lines.saturating_add(1),
        Err(trouble) => trouble.line,
    }
}
