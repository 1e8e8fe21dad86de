//! The words of the command line.

use super::codes::CODES;
use clap::error::ErrorKind;
use clap::{Arg, ArgAction, ArgMatches, Command, Error};
use command_words::{Words, matches_of};
use hid_recording::Options;
use std::alloc::{AllocError, Global};

/// In seconds, how long an answer may take where nothing else is asked for.
const SECONDS: u16 = 10;

/// What the words ask for.
#[derive(Clone, Copy)]
pub struct CliArgs<'a> {
    pub options: Options,
    /// The bus ID of the device.
    pub bus_id: &'a str,
    /// The file that events are written to.
    pub output: &'a str,
    /// The file of Output reports, if there is one.
    pub leds: Option<&'a str>,
    /// In seconds, how long an answer may take: at least 1.
    pub seconds: u16,
}

/// An option without a value.
fn flag<'a>(alloc: Global, name: &'a str, help: &'a str) -> Arg<'a> {
    Arg::new(alloc, name)
        .long(name)
        .action(ArgAction::SetTrue)
        .help(help)
}

/// An option with a value.
fn option<'a>(alloc: Global, name: &'a str, value: &'a str, help: &'a str) -> Arg<'a> {
    Arg::new(alloc, name)
        .long(name)
        .value_name(value)
        .action(ArgAction::Set)
        .help(help)
}

/// Adds an argument, if memory was there for the command.
fn add<'a>(
    command: Result<Command<'a>, AllocError>,
    arg: Arg<'a>,
) -> Result<Command<'a>, AllocError> {
    match command {
        Ok(command) => command.arg(arg),
        Err(error) => {
            drop(arg);
            Err(error)
        }
    }
}

/// The program, and what it prints of events.
fn printing<'a>(alloc: Global) -> Result<Command<'a>, AllocError> {
    let command = Command::new(alloc, "hidattach")
        .version("0.2.0")
        .about(
            "Reads a USB HID device of a USB/IP server, whose connection is standard input and output",
        )
        .after_help(CODES)
        .arg(flag(alloc, "names", "Print the name of each event's usage"));
    let command = add(
        command,
        flag(
            alloc,
            "places",
            "Print which control each event is of, as @ITEM.INDEX",
        ),
    );
    add(
        command,
        flag(alloc, "json", "Print each event as a line of JSON"),
    )
}

/// The files, and the bus ID.
fn command<'a>(alloc: Global) -> Result<Command<'a>, AllocError> {
    let command = add(
        printing(alloc),
        option(
            alloc,
            "output",
            "FILE",
            "Write the events to this file, as /dev/fd/3",
        )
        .required(true),
    );
    let command = add(
        command,
        option(
            alloc,
            "leds",
            "FILE",
            "Send each line of this file, which may grow, as an Output report",
        ),
    );
    let command = add(
        command,
        option(
            alloc,
            "seconds",
            "N",
            "End where an answer takes longer, and standard input doesn't block (10)",
        ),
    );
    add(
        command,
        Arg::new(alloc, "BUSID")
            .action(ArgAction::Set)
            .required(true)
            .help("The bus ID of the device, as 1-1"),
    )
}

/// What the words after the first ask for, which is the program's name.
///
/// # Errors
/// The error of clap: words that it refuses, help or version that they ask for, or out of memory.
pub fn parse_args<'a>(alloc: Global, words: &'a Words) -> Result<CliArgs<'a>, Error> {
    let matches = matches_of(command(alloc)?, words)?;
    let asked = read_matches(alloc, &matches);
    drop(matches);
    asked
}

/// The time that an answer may take, in seconds.
fn read_seconds(alloc: Global, word: Option<&str>) -> Result<u16, Error> {
    let Some(word) = word else {
        return Ok(SECONDS);
    };
    match word.parse() {
        Ok(seconds) if seconds > 0 => Ok(seconds),
        _ => Err(command(alloc)?.error(
            ErrorKind::ValueValidation,
            "--seconds is a number from 1 to 65535",
        )?),
    }
}

/// The arguments of the words that clap found.
fn read_matches<'a>(alloc: Global, matches: &ArgMatches<'a>) -> Result<CliArgs<'a>, Error> {
    Ok(CliArgs {
        options: Options {
            layout: false,
            values: false,
            names: matches.get_flag("names"),
            places: matches.get_flag("places"),
            strict: false,
            json: matches.get_flag("json"),
        },
        bus_id: matches.get_str("BUSID").unwrap_or(""),
        output: matches.get_str("output").unwrap_or(""),
        leds: matches.get_str("leds"),
        seconds: read_seconds(alloc, matches.get_str("seconds"))?,
    })
}
