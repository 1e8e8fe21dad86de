//! The words of the command line.

use clap::{Arg, ArgAction, ArgMatches, Command, Error};
use hid_script::Options;
use std::alloc::{AllocError, Global};

/// An option without a value, which may be given any number of times.
fn flag<'a>(alloc: Global, name: &'a str) -> Arg<'a> {
    Arg::new(alloc, name).long(name).action(ArgAction::Count)
}

/// The command line.
fn command<'a>(alloc: Global) -> Result<Command<'a>, AllocError> {
    Command::new(alloc, "hidrun")
        .disable_help_flag(true)
        .arg(flag(alloc, "layout"))?
        .arg(flag(alloc, "trace"))
}

/// The options that the words name after the first, which is the program's name: `--layout` and `--trace`, each any
/// number of times.
///
/// # Errors
/// The error of clap: other words, or out of memory.
pub fn options_of(alloc: Global, words: &[String]) -> Result<Options, Error> {
    let matches = command(alloc)?.try_get_matches_from(words)?;
    let options = options_in(&matches);
    drop(matches);
    Ok(options)
}

/// The options of the words that clap found.
fn options_in(matches: &ArgMatches<'_>) -> Options {
    Options {
        layout: matches.get_count("layout") > 0,
        trace: matches.get_count("trace") > 0,
    }
}
