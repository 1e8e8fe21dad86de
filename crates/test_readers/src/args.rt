//! The words of the command line.

use crate::stop::Stop;
use std::alloc::Global;

/// What the words ask for.
#[derive(Drop)]
pub struct CliArgs<'a> {
    pub seed: u64,
    /// How many reports are read in all, the last device's to their end.
    pub reports: u64,
    /// The files that have descriptors of their own.
    pub files: Vec<&'a str>,
}

/// What the words after the first ask for, which is the program's name. Each option has a word after it.
///
/// # Errors
/// [`Stop::Usage`] where a word is no option or no number, and [`Stop::Memory`].
pub fn parse_args<'a>(alloc: Global, words: &'a [String]) -> Result<CliArgs<'a>, Stop> {
    let mut asked = CliArgs {
        seed: 1,
        reports: 1_000_000,
        files: Vec::new(alloc),
    };
    for pair in words.get(1..).unwrap_or(&[]).chunks(2) {
        let [option, value] = pair else {
            return Err(Stop::Usage);
        };
        match option.as_str() {
            "--seed" => asked.seed = number_of(value.as_str())?,
            "--reports" => asked.reports = number_of(value.as_str())?,
            "--descriptor" => asked.files.push(value.as_str())?,
            _ => return Err(Stop::Usage),
        }
    }
    Ok(asked)
}

/// The number of a word.
fn number_of(word: &str) -> Result<u64, Stop> {
    match word.parse::<u64>() {
        Ok(number) => Ok(number),
        Err(_) => Err(Stop::Usage),
    }
}
