//! Serves the devices of a script to a USB/IP host: a filter between standard input and standard output, which a launcher makes its
//! connection.
//! ```text
//!   hidserve [--output FILE] SCRIPT
//!
//!   standard input --> usbip_script::serve --> standard output        a launcher as socat or systemd hands both to it
//!                          |             |
//!   SCRIPT --> devices, actions          +--> FILE, or standard error: what the host sets, as `1 output 0 02`
//! ```
//! Where standard input doesn't block (the launcher makes it so), the clock goes on while nothing comes.
//! The exit status is 0 where the connection ended; 1 where the script or a message of the host is refused; 2 for a wrong command
//! line; 3 where a file, a stream, the clock or memory failed.
#![tactic(auto)]

mod args;

use args::{CliArgs, parse_args};
use command_words::{FileName, print_refused_words, print_unread_words, words_of};
use std::fs;
use std::io::{self, Read};
use std::process::ExitCode;
use usbip_script::{FINE, MAX_SCRIPT, Script, ServeFault, Telling, exit_of, read_script, serve};

fn main(rt: HostRuntime) -> ExitCode {
    let alloc = rt.alloc();
    let words = match words_of(&rt) {
        Ok(words) => words,
        Err(fault) => return ExitCode::from(print_unread_words(&rt, "hidserve", &fault, "")),
    };
    match parse_args(alloc, &words) {
        Ok(asked) => ExitCode::from(serve_asked(&rt, &asked)),
        Err(error) => ExitCode::from(print_refused_words(&rt, "hidserve", &error)),
    }
}

/// The bytes of a file, up to one more than a script has.
fn read_file(rt: &HostRuntime, name: &str) -> io::Result<Vec<u8>> {
    let mut bytes = Vec::new(rt.alloc());
    fs::open(rt, name)?
        .take(MAX_SCRIPT as u64 + 1)
        .read_to_end(&mut bytes)?;
    Ok(bytes)
}

/// The script of a file.
fn script_of(rt: &HostRuntime, name: &str) -> Result<Script, ServeFault> {
    match read_file(rt, name) {
        Ok(bytes) if bytes.len() > MAX_SCRIPT => Err(ServeFault::TooLong),
        Ok(bytes) => read_script(rt.alloc(), bytes.as_slice()),
        Err(error) if error.kind() == io::ErrorKind::OutOfMemory => Err(ServeFault::Memory),
        Err(_) => Err(ServeFault::Script),
    }
}

/// Serves the script that is named, and prints what the host sets where that is wanted.
fn serve_file(rt: &HostRuntime, asked: &CliArgs<'_>) -> Result<(), ServeFault> {
    let mut script = script_of(rt, asked.script)?;
    let mut from = rt.stdin();
    let mut to = rt.stdout();
    let Some(name) = asked.output else {
        let mut watch = Telling::new(rt.stderr());
        let end = serve(rt, &mut script, &mut from, &mut to, &mut watch);
        drop(script);
        return end;
    };
    let Ok(told) = fs::create(rt, name) else {
        drop(script);
        return Err(ServeFault::Told);
    };
    let mut watch = Telling::new(told);
    let end = serve(rt, &mut script, &mut from, &mut to, &mut watch);
    drop(script);
    end
}

/// Serves the script that is named, and prints why that ended early.
fn serve_asked(rt: &HostRuntime, asked: &CliArgs<'_>) -> u8 {
    match serve_file(rt, asked) {
        Ok(()) => FINE,
        Err(fault) => {
            let name = FileName(asked.script);
            let _ = eprintln!(rt; "{name}: {fault}");
            exit_of(&fault)
        }
    }
}
