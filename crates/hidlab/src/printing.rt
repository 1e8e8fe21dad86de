//! What is printed of a line that is refused: where it stands, and why.

use super::run::Trouble;
use super::source::LabSource;
use super::status::exit_of;
use command_words::FileName;
use lab_session::cause_words;

/// Prints the file of a line, if it is one, and its number: `FILE:LINE`, or `line LINE` of standard input, which has no name.
fn print_line(rt: &HostRuntime, name: &str, line: usize) {
    if name.is_empty() {
        let _ = eprint!(rt; "line {line}");
    } else {
        let name = FileName(name);
        let _ = eprint!(rt; "{name}:{line}");
    }
}

/// Prints where a line is: its file and its number.
pub fn print_place(rt: &HostRuntime, name: &str, line: usize) {
    print_line(rt, name, line);
    let _ = eprint!(rt; ": ");
}

/// The name of the file in which the last source is; an empty one of standard input.
fn last_name(sources: &[LabSource]) -> &str {
    match sources.last() {
        Some(source) => source.name.as_str(),
        None => "",
    }
}

/// Prints where a line of the last source is.
pub fn print_last_place(rt: &HostRuntime, sources: &[LabSource], line: usize) {
    print_place(rt, last_name(sources), line);
}

/// Prints where a line of the last source is, and the rounds of the bodies that it is in, the outer ones first.
fn print_round(rt: &HostRuntime, sources: &[LabSource], line: usize) {
    print_line(rt, last_name(sources), line);
    for source in sources {
        if let Some((round, rounds)) = source.round() {
            let _ = eprint!(rt; ", round {round} of {rounds}");
        }
    }
    let _ = eprint!(rt; ": ");
}

/// Prints why a line of the last source is refused: its file, its number, the rounds, the codes, and words; or what is wrong with the
/// script as a whole. Returns the exit status.
pub fn print_trouble(rt: &HostRuntime, sources: &[LabSource], trouble: &Trouble) -> u8 {
    let cause = trouble.cause;
    if let (0, Some(words)) = (trouble.line, &trouble.words) {
        let words = FileName(words.as_str());
        let _ = eprintln!(rt; "hidlab: {words}");
        return exit_of(cause);
    }
    print_round(rt, sources, trouble.line);
    match &trouble.words {
        Some(words) => {
            let words = FileName(words.as_str());
            let _ = eprintln!(rt; "{cause}: {words}");
        }
        None => {
            let words = cause_words(cause, None);
            let _ = eprintln!(rt; "{cause}: {words}");
        }
    }
    exit_of(cause)
}
