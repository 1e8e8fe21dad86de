//! Words that a program refuses.

use crate::words::{OUTSIDE, WRONG_USAGE, Words};
use clap::error::ErrorKind;
use clap::{ArgMatches, Command, Error};

/// All was printed.
const FINE: u8 = 0;

/// What clap finds in the words.
///
/// # Errors
/// The error of clap: words that it refuses, with control characters as numbers; help or version that they ask for, or out of
/// memory.
pub fn matches_of<'a>(command: Command<'a>, words: &'a Words) -> Result<ArgMatches<'a>, Error> {
    let mut command = command;
    match command.try_get_matches_from_mut(words.given.as_slice()) {
        Ok(matches) => Ok(matches),
        Err(error) => Err(shown_error(command, words, error)),
    }
}

/// The error of the words as they are printed, of those that clap refuses with this error.
fn shown_error<'a>(command: Command<'a>, words: &'a Words, error: Error) -> Error {
    match command.try_get_matches_from(words.shown.as_slice()) {
        Ok(matches) => {
            drop(matches);
            error
        }
        Err(shown) => shown,
    }
}

/// Prints what clap says: help and version on standard output, and what is wrong with the words on standard error. The exit status
/// is 0, 2 for wrong words, and 3 where memory ran out or standard output can't be written.
pub fn print_refused_words(rt: &HostRuntime, program: &str, error: &Error) -> u8 {
    match error.kind() {
        ErrorKind::DisplayHelp | ErrorKind::DisplayVersion => {
            if print!(rt; "{error}").is_ok() {
                FINE
            } else {
                let _ = eprintln!(rt; "{program}: standard output can't be written");
                OUTSIDE
            }
        }
        ErrorKind::OutOfMemory => OUTSIDE,
        _ => {
            let _ = eprint!(rt; "{error}");
            WRONG_USAGE
        }
    }
}
