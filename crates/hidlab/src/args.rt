//! The words of the command line.

use clap::{Arg, ArgAction, ArgMatches, Command, Error, value_parser};
use command_words::{Words, matches_of};
use lab_session::LabOptions;
use std::alloc::{AllocError, Global};

/// What the words ask for.
#[derive(Clone, Copy)]
pub struct CliArgs<'a> {
    pub options: LabOptions,
    /// Whether its devices are served over USB/IP.
    pub is_served: bool,
    /// The script; `-` is standard input.
    pub file: &'a str,
}

const MORE: &str =
    "The lines, and the codes of faults: docs/LAB.md, installed in\nshare/doc/rulohevian. Exit status: 1 a line is refused, 2 a wrong command line,\n3 a file or memory failed, 4 what is expected wasn't printed.";

/// An option without a value, which may be given any number of times.
fn flag<'a>(alloc: Global, name: &'a str, help: &'a str) -> Result<Arg<'a>, AllocError> {
    Arg::new(alloc, name)
        .long(name)
        .action(ArgAction::SetTrue)
        .help(help)
        .overrides_with(name)
}

/// Adds an argument, if memory was there for the command and for it.
fn add<'a>(
    command: Result<Command<'a>, AllocError>,
    made: Result<Arg<'a>, AllocError>,
) -> Result<Command<'a>, AllocError> {
    match command {
        Ok(command) => match made {
            Ok(arg) => command.arg(arg),
            Err(error) => {
                drop(command);
                Err(error)
            }
        },
        Err(error) => {
            drop(made);
            Err(error)
        }
    }
}

/// The option `--seed N`.
fn seed<'a>(alloc: Global) -> Result<Arg<'a>, AllocError> {
    Ok(
        Arg::new(alloc, "seed")
            .long("seed")
            .value_name("N")
            .value_parser(value_parser!(u64))
            .help("Draw losses from N, 0 to 18446744073709551615,\nin place of each line's seed"),
    )
}

/// The option `--usbip`, and those that say what the own hosts print.
fn usbip<'a>(alloc: Global) -> Result<Arg<'a>, AllocError> {
    flag(
        alloc,
        "usbip",
        "Serve the devices over USB/IP on standard input and output",
    )?
    .conflicts_with("layout")?
    .conflicts_with("names")?
    .conflicts_with("places")?
    .conflicts_with("json")?
    .conflicts_with("summary")?
    .conflicts_with("seed")
}

/// The argument FILE.
fn file<'a>(alloc: Global) -> Arg<'a> {
    Arg::new(alloc, "FILE").help("The script; - and no FILE are standard input")
}

/// The program, and what it prints.
fn printing<'a>(alloc: Global) -> Result<Command<'a>, AllocError> {
    let command = Command::new(alloc, "hidlab")
        .version("0.2.0")
        .about("Tests what hosts report of USB HID devices, on a bus that may lose packets")
        .after_help(MORE);
    let command = add(
        Ok(command),
        flag(
            alloc,
            "layout",
            "Print the layout of each device that is attached",
        ),
    );
    add(
        command,
        flag(
            alloc,
            "trace",
            "Print polls, tries of transfers, and Output reports",
        ),
    )
}

/// The command line.
fn command<'a>(alloc: Global) -> Result<Command<'a>, AllocError> {
    let command = add(
        printing(alloc),
        flag(alloc, "names", "Print the name of each event's usage"),
    );
    let command = add(
        command,
        flag(
            alloc,
            "places",
            "Print which control each event is of, as @ITEM.INDEX",
        ),
    );
    let command = add(command, flag(alloc, "json", "Print lines of JSON"));
    let command = add(
        command,
        flag(alloc, "summary", "Print how often what was polled and lost"),
    );
    let command = add(command, seed(alloc));
    let command = add(command, usbip(alloc));
    add(command, Ok(file(alloc)))
}

/// What the words after the first ask for, which is the program's name.
///
/// # Errors
/// The error of clap: words that it refuses, help or version that they ask for, or out of memory.
pub fn parse_args<'a>(alloc: Global, words: &'a Words) -> Result<CliArgs<'a>, Error> {
    let matches = matches_of(command(alloc)?, words)?;
    let asked = read_matches(&matches);
    drop(matches);
    Ok(asked)
}

/// The arguments of the words that clap found.
fn read_matches<'a>(matches: &ArgMatches<'a>) -> CliArgs<'a> {
    CliArgs {
        options: LabOptions {
            layout: matches.get_flag("layout"),
            trace: matches.get_flag("trace"),
            names: matches.get_flag("names"),
            places: matches.get_flag("places"),
            json: matches.get_flag("json"),
            summary: matches.get_flag("summary"),
            seed: matches.get_one::<u64>("seed"),
        },
        is_served: matches.get_flag("usbip"),
        file: matches.get_str("FILE").unwrap_or("-"),
    }
}
