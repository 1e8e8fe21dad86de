//! Reads a device of a USB/IP server, whose connection is standard input and output, and prints the events that a host reads in
//! its reports.
//! ```text
//!   hidattach [OPTIONS] --output FILE BUSID
//!
//!   standard input  ---> Session of usbip_session --> events, as hidplay prints them --> FILE
//!   standard output <---    ^
//!   --leds FILE: each line, also those that come later
//!                           what is reported, and what ended the session --> standard error
//! ```
//! Where standard input doesn't block, an answer that takes too long ends the session. At the end what is held is released.
//! The exit status is 0 if the server closed the connection between two messages; 1 if the server, the device or an answer is
//! refused, or the end comes too early or too late; 2 for a wrong command line; 3 if a file or the connection can't be read or
//! written, or memory runs out.
#![tactic(auto)]

mod args;
mod codes;
mod event_lines;
mod output_lines;
mod status;
mod turns;

use args::{CliArgs, parse_args};
use command_words::{FileName, print_refused_words, print_unread_words, words_of};
use status::{WRONG_USAGE, exit_of};
use std::fs;
use std::process::ExitCode;
use turns::{Files, attach, open_requests};
use usbip_session::End;

fn main(rt: HostRuntime) -> ExitCode {
    let alloc = rt.alloc();
    let words = match words_of(&rt) {
        Ok(words) => words,
        Err(fault) => return ExitCode::from(print_unread_words(&rt, "hidattach", &fault, "")),
    };
    match parse_args(alloc, &words) {
        Ok(asked) => ExitCode::from(run(&rt, &asked)),
        Err(error) => ExitCode::from(print_refused_words(&rt, "hidattach", &error)),
    }
}

/// The bus ID of a word, if it has one to 31 bytes.
fn bus_id_of(word: &str) -> Option<[u8; 32]> {
    let bytes = word.as_bytes();
    if bytes.is_empty() || bytes.len() > 31 {
        return None;
    }
    let mut bus_id = [0; 32];
    for (place, byte) in bus_id.iter_mut().zip(bytes) {
        *place = *byte;
    }
    Some(bus_id)
}

/// Opens the files, and reads the device until the session ends.
fn run(rt: &HostRuntime, asked: &CliArgs<'_>) -> u8 {
    let Some(bus_id) = bus_id_of(asked.bus_id) else {
        let _ = eprintln!(rt; "error: a bus ID has 1 to 31 bytes");
        return WRONG_USAGE;
    };
    let end = match open_files(rt, asked) {
        Ok(mut files) => attach(rt, asked, &bus_id, &mut files),
        Err(end) => end,
    };
    let bus_id = FileName(asked.bus_id);
    let _ = eprintln!(rt; "{bus_id}: {end}");
    exit_of(end)
}

/// The file of Output reports, if one is named and is there, and the file that events are written to.
fn open_files(rt: &HostRuntime, asked: &CliArgs<'_>) -> Result<Files, End> {
    let requests = open_requests(rt, asked.leds)?;
    match fs::create(rt, asked.output) {
        Ok(output) => Ok(Files { output, requests }),
        Err(_) => {
            drop(requests);
            Err(End::Output)
        }
    }
}
