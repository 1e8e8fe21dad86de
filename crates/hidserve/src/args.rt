//! The words of the command line.

use clap::{Arg, ArgMatches, Command, Error};
use command_words::{Words, matches_of};
use std::alloc::{AllocError, Global};

/// What the words ask for.
#[derive(Clone, Copy)]
pub struct CliArgs<'a> {
    /// The file with the script.
    pub script: &'a str,
    /// The file for the reports that the host sets; standard error, if none is named.
    pub output: Option<&'a str>,
}

const WORDS: &str =
    "Standard input and standard output are the connection, which a launcher makes:\nsocat, inetd or systemd. docs/USBIP.md has the commands, docs/SCRIPT.md the lines.\nBoth are installed in share/doc/rulohevian.";

/// The option `--output FILE`.
fn output<'a>(alloc: Global) -> Arg<'a> {
    Arg::new(alloc, "output")
        .long("output")
        .value_name("FILE")
        .help("Write the reports that the host sets to FILE; without it to standard error")
}

/// The argument SCRIPT.
fn script<'a>(alloc: Global) -> Arg<'a> {
    Arg::new(alloc, "SCRIPT").required(true).help(
        "The devices, and what happens at them once the host has one",
    )
}

/// The command line.
fn command<'a>(alloc: Global) -> Result<Command<'a>, AllocError> {
    Command::new(alloc, "hidserve")
        .version("0.2.0")
        .about("Serves the devices of a script to a USB/IP host")
        .after_help(WORDS)
        .arg(output(alloc))?
        .arg(script(alloc))
}

/// What the words after the first ask for, which is the program's name.
///
/// # Errors
/// The error of clap: words that it refuses, help or version that they ask for, or out of memory.
pub fn parse_args<'a>(alloc: Global, words: &'a Words) -> Result<CliArgs<'a>, Error> {
    let matches = matches_of(command(alloc)?, words)?;
    let asked = CliArgs {
        script: matches.get_str("SCRIPT").unwrap_or(""),
        output: matches.get_str("output"),
    };
    drop(matches);
    Ok(asked)
}
