//! What a program of rows does but for its answers.

use crate::verdict::{Answers, Verdict, judge};
use std::alloc::Global;
use std::io::{self, Print, Read};
use std::process::ExitCode;

/// Plays the rows of an input, and prints those that are wrong and how many there were. It fails where one is wrong, or none
/// was played.
pub fn run<P: Print, R: Read + Drop, A: Answers>(
    rt: &P,
    alloc: Global,
    input: R,
    answers: &A,
) -> ExitCode {
    let Ok(text) = io::read_to_string(alloc, input) else {
        return ExitCode::FAILURE;
    };
    let mut verdict = Verdict::new(alloc);
    let judged = judge(answers, &mut verdict, alloc, &text);
    if judged.is_err() || print!(rt; "{}", verdict.report()).is_err() || verdict.is_wrong() {
        return ExitCode::FAILURE;
    }
    ExitCode::SUCCESS
}
