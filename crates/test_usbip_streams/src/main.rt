//! Plays random and changed streams of USB/IP to both ends, in one process: what a host might send to `usbip_serving`, with three
//! devices, what a server might send to `usbip_session`, with up to three interfaces, and when transfers of an interface fail.
//! ```text
//!   host 1 2000          2000 streams of hosts by seed 1        -->  host 1: 2000 streams, refused by N1 N2 .., 0 wrong
//!   server 1 2000        2000 streams of servers by seed 1      -->  server 1: 2000 streams, refused by A1 A2 .., 0 wrong
//!   failures 1 2000      2000 streams of answers by seed 1      -->  failures 1: 2000 streams, refused by A9, 0 wrong
//! ```
//! A second reading of the protocol, `ledger.rt` and `heard.rt`, says what each message must lead to: which are refused; that each
//! submit is answered once or waits still, and each unlink once; lengths and statuses; that the end frees the device, and releases
//! what is held. A stream is the same wherever it stands, but for what the devices hold. The first wrong one is printed in hex, with
//! its number and what is wrong. Counts are printed on standard error.
//!
//! The exit status is 0 if no stream is wrong, else 1; 2 if a line can't be read, memory runs out or standard output can't be written.
#![tactic(auto)]

mod answering;
mod attached;
mod dice;
mod failures;
mod heard;
mod host_stream;
mod ledger;
mod messages;
mod served;
mod stop;
mod tally;

use attached::Attached;
use dice::Dice;
use failures::Failures;
use heard::Heard;
use ledger::Ledger;
use served::Served;
use std::alloc::Global;
use std::fmt::Write;
use std::io;
use std::process::ExitCode;
use stop::Stop;
use tally::Tally;

/// A line can't be read, or memory or standard output failed.
const OUTSIDE: u8 = 2;

/// Whose streams are played.
#[derive(Clone, Copy)]
enum Sender {
    Host,
    Server,
    /// An interface whose transfers fail.
    Failures,
}

/// What is played: whose streams, by which seed, and how many.
#[derive(Clone, Copy)]
struct Asked {
    sender: Sender,
    seed: u64,
    count: u64,
}

/// A stream that is wrong.
#[derive(Drop)]
struct Wrong {
    stream: u64,
    cause: &'static str,
    bytes: String,
}

fn main(rt: HostRuntime) -> ExitCode {
    let Ok(text) = io::read_to_string(rt.alloc(), rt.stdin()) else {
        return ExitCode::from(OUTSIDE);
    };
    let mut is_wrong = false;
    for line in text.lines() {
        let Some(asked) = read_line(line) else {
            return ExitCode::from(OUTSIDE);
        };
        match play_line(&rt, &asked) {
            Ok(is_fine) => is_wrong = is_wrong || !is_fine,
            Err(_) => return ExitCode::from(OUTSIDE),
        }
    }
    if is_wrong {
        ExitCode::FAILURE
    } else {
        ExitCode::SUCCESS
    }
}

fn read_line(line: &str) -> Option<Asked> {
    let (sender, rest) = line.split_once(' ')?;
    let (seed, count) = rest.split_once(' ')?;
    let sender = match sender {
        "host" => Sender::Host,
        "server" => Sender::Server,
        "failures" => Sender::Failures,
        _ => return None,
    };
    Some(Asked {
        sender,
        seed: seed.parse().ok()?,
        count: count.parse().ok()?,
    })
}

/// Plays the streams of a line, and prints what came of them. Gives whether none was wrong.
fn play_line(rt: &HostRuntime, asked: &Asked) -> Result<bool, Stop> {
    let alloc = rt.alloc();
    let mut tally = Tally::new(alloc);
    let (sender, wrong) = match asked.sender {
        Sender::Host => ("host", play_hosts(rt, alloc, asked, &mut tally)?),
        Sender::Server => ("server", play_servers(rt, alloc, asked, &mut tally)?),
        Sender::Failures => ("failures", play_failures(alloc, asked, &mut tally)?),
    };
    let Asked { seed, count, .. } = *asked;
    let codes = tally.codes()?;
    let is_printed = match &wrong {
        None => println!(rt; "{sender} {seed}: {count} streams, refused by {codes}, 0 wrong"),
        Some(
            Wrong {
                stream,
                cause,
                bytes,
            },
        ) => { println!(rt; "{sender} {seed}: stream {stream} is wrong, {cause}: {bytes}") }
    };
    if is_printed.is_err() {
        Err(Stop::Memory)
    } else {
        Ok(wrong.is_none())
    }
}

/// Plays streams of hosts to one server. Gives the first that is wrong.
fn play_hosts(
    rt: &HostRuntime,
    alloc: Global,
    asked: &Asked,
    tally: &mut Tally,
) -> Result<Option<Wrong>, Stop> {
    let mut served = Served::new(alloc)?;
    for stream in 0..asked.count {
        let mut dice = Dice::new(asked.seed, stream);
        match served.play(&mut dice, tally) {
            Ok(()) => {}
            Err(Stop::Memory) => return Err(Stop::Memory),
            Err(Stop::Wrong(cause)) => {
                let bytes = hex_of(alloc, served.stream())?;
                return Ok(Some(Wrong {
                    stream,
                    cause,
                    bytes,
                }));
            }
        }
    }
    let Ledger {
        commands,
        answers,
        ..
    } = served.ledger();
    tell_counts(rt, &[("commands", *commands), ("answers", *answers)], tally);
    Ok(None)
}

/// Plays streams of servers, each to a session of its own. Gives the first that is wrong.
fn play_servers(
    rt: &HostRuntime,
    alloc: Global,
    asked: &Asked,
    tally: &mut Tally,
) -> Result<Option<Wrong>, Stop> {
    let mut attached = Attached::new(alloc);
    for stream in 0..asked.count {
        let mut dice = Dice::new(asked.seed, stream);
        match attached.play(&mut dice, tally) {
            Ok(()) => {}
            Err(Stop::Memory) => return Err(Stop::Memory),
            Err(Stop::Wrong(cause)) => {
                let bytes = hex_of(alloc, attached.stream())?;
                return Ok(Some(Wrong {
                    stream,
                    cause,
                    bytes,
                }));
            }
        }
    }
    let Heard {
        messages,
        events,
        ..
    } = attached.heard();
    tell_counts(rt, &[("messages", *messages), ("events", *events)], tally);
    Ok(None)
}

/// Plays streams of answers to a row of failures. Gives the first that is wrong.
fn play_failures(alloc: Global, asked: &Asked, tally: &mut Tally) -> Result<Option<Wrong>, Stop> {
    let mut failures = Failures::new(alloc);
    for stream in 0..asked.count {
        let mut dice = Dice::new(asked.seed, stream);
        match failures.play(&mut dice, tally) {
            Ok(()) => {}
            Err(Stop::Memory) => return Err(Stop::Memory),
            Err(Stop::Wrong(cause)) => {
                let bytes = hex_of(alloc, failures.answers())?;
                return Ok(Some(Wrong {
                    stream,
                    cause,
                    bytes,
                }));
            }
        }
    }
    Ok(None)
}

/// Prints counts on standard error, where nothing depends on them.
fn tell_counts(rt: &HostRuntime, counts: &[(&str, u64)], tally: &Tally) {
    for (word, count) in counts {
        let _ = eprintln!(rt; "{count} {word}");
    }
    for (code, count) in tally.refusals() {
        let _ = eprintln!(rt; "{count} {code}");
    }
}

/// Bytes in hex.
fn hex_of(alloc: Global, bytes: &[u8]) -> Result<String, Stop> {
    let mut text = String::new(alloc);
    for byte in bytes {
        if write!(text, "{byte:02X}").is_err() {
            return Err(Stop::Memory);
        }
    }
    Ok(text)
}
