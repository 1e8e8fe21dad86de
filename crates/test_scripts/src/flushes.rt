//! In which order a run asks its reader and its writer, reads that are interrupted, and flushes that fail. Worked out by
//! hand from docs/SCRIPT.md. Running out of memory can't be had here: `make memory` refuses each allocation.

use crate::play::{QUIET, play};
use hid_script::{Cause, ScriptFault, StepFault, Summary};
use hid_snapshots::ReportFault;
use std::alloc::Global;
use std::cell::RefCell;
use std::io;
use std::io::{ErrorKind, Read, Write};
use std::test::Fail;
use test_rows::{holds, none_is_wrong};

/// What a run asks of its two ends.
#[derive(Clone, Copy, Debug, PartialEq, Eq)]
enum Call {
    Read,
    Write,
    Flush,
}

/// Keeps a record of a call, where one is kept.
fn record(calls: Option<&RefCell<Vec<Call>>>, call: Call) -> io::Result<()> {
    let Some(calls) = calls else {
        return Ok(());
    };
    match calls.try_borrow_mut() {
        Ok(mut calls) => {
            calls.push(call)?;
            Ok(())
        }
        Err(_) => Err(io::Error::from(ErrorKind::ResourceBusy)),
    }
}

/// How often it was called.
fn count(calls: &RefCell<Vec<Call>>, call: Call) -> usize {
    match calls.try_borrow() {
        Ok(calls) => calls.iter().filter(|made| **made == call).count(),
        Err(_) => 0,
    }
}

/// What a read gives.
#[derive(Clone, Copy, Debug)]
enum Given {
    Piece(&'static str),
    /// More bytes than a line has.
    Long,
    /// No byte: the script is at its end.
    End,
    Interrupted,
    Failed,
}

/// Gives these one after the other, and then one and the same for ever.
#[derive(Drop)]
struct Pieces<'a> {
    given: &'a [Given],
    then: Given,
    calls: Option<&'a RefCell<Vec<Call>>>,
}

impl Read for Pieces<'_> {
    fn read(&mut self, buf: &mut [u8]) -> io::Result<usize> {
        record(self.calls, Call::Read)?;
        let given = match self.given {
            [first, rest @ ..] => {
                self.given = rest;
                *first
            }
            [] => self.then,
        };
        match given {
            Given::Piece(text) => {
                let mut bytes = text.as_bytes();
                bytes.read(buf)
            }
            Given::Long => {
                buf.fill(b'#');
                Ok(buf.len())
            }
            Given::End => Ok(0),
            Given::Interrupted => Err(io::Error::from(ErrorKind::Interrupted)),
            Given::Failed => Err(io::Error::from(ErrorKind::Other)),
        }
    }
}

/// Takes all bytes, or none, and fails at the flush after n.
#[derive(Drop)]
struct Recorder<'a> {
    taken: Vec<u8>,
    takes: bool,
    flushes: usize,
    calls: Option<&'a RefCell<Vec<Call>>>,
}

impl Write for Recorder<'_> {
    fn write(&mut self, buf: &[u8]) -> io::Result<usize> {
        record(self.calls, Call::Write)?;
        if !self.takes {
            return Ok(0);
        }
        self.taken.extend_from_slice(buf)?;
        Ok(buf.len())
    }

    fn flush(&mut self) -> io::Result<()> {
        record(self.calls, Call::Flush)?;
        if self.flushes == 0 {
            return Err(io::Error::from(ErrorKind::Other));
        }
        self.flushes -= 1;
        Ok(())
    }
}

/// What is asked where two lines come in three reads, the third without its end: a flush before each read, a write for each
/// line that prints, and a flush at the end.
#[rattlefmt::skip]
const MADE: [Call; 12] = [
    Call::Flush, Call::Read, Call::Write,
    Call::Flush, Call::Read, Call::Write,
    Call::Flush, Call::Read,
    Call::Flush, Call::Read, Call::Write, Call::Flush,
];

const LAYOUTS: [Given; 3] = [
    Given::Piece("layout\nlay"),
    Given::Piece("out\n"),
    Given::Piece("layout"),
];

/// Whether these calls were made, in their order.
fn are_made(calls: &RefCell<Vec<Call>>, wanted: &[Call]) -> bool {
    match calls.try_borrow() {
        Ok(calls) => calls.as_slice() == wanted,
        Err(_) => false,
    }
}

/// A run whose calls are recorded, and whose flush after n fails.
fn recorded(
    alloc: Global,
    given: &[Given],
    flushes: usize,
    calls: &RefCell<Vec<Call>>,
) -> Result<Summary, ScriptFault> {
    let mut reader = Pieces {
        given,
        then: Given::End,
        calls: Some(calls),
    };
    let mut writer = Recorder {
        taken: Vec::new(alloc),
        takes: true,
        flushes,
        calls: Some(calls),
    };
    play(alloc, &mut reader, &mut writer, QUIET)
}

/// Whether three lines are read and printed in this order.
fn is_in_order(alloc: Global, given: &[Given], wanted: &[Call]) -> bool {
    let calls = RefCell::new(Vec::new(alloc));
    let end = recorded(alloc, given, usize::MAX, &calls);
    end == Ok(Summary {
        lines: 3,
        events: 0,
    }) && are_made(&calls, wanted)
}

#[test]
fn what_was_printed_is_flushed_before_each_read(rt: HostRuntime) -> Result<(), Fail> {
    holds("the calls", is_in_order(rt.alloc(), &LAYOUTS, &MADE))
}

/// How a run ends: after n lines, or at a line for a cause.
type End = Result<u64, (usize, Cause)>;

fn ending(end: End) -> Result<Summary, ScriptFault> {
    match end {
        Ok(lines) => Ok(Summary { lines, events: 0 }),
        Err((line, cause)) => Err(ScriptFault { line, cause }),
    }
}

/// What reads give, and how the run ends: a read that is interrupted is tried again; a line is refused after it;
/// another fault ends the run.
#[rattlefmt::skip]
const INTERRUPTED: [(&[Given], Given, End); 3] = [
    (&[Given::Interrupted, Given::Piece("layout\nlay"), Given::Interrupted, Given::Interrupted, Given::Piece("out\n")],
        Given::End, Ok(2)),
    (&[Given::Interrupted, Given::Piece("layout\n"), Given::Interrupted, Given::Piece("jump\n")],
        Given::End, Err((2, Cause::Syntax))),
    (&[Given::Piece("layout\n"), Given::Interrupted],
        Given::Failed, Err((2, Cause::Read))),
];

/// Whether a run ends so.
fn is_ended(alloc: Global, given: &[Given], then: Given, end: End) -> bool {
    let mut reader = Pieces {
        given,
        then,
        calls: None,
    };
    let mut written = Vec::new(alloc);
    play(alloc, &mut reader, &mut written, QUIET) == ending(end)
}

/// The first run that ends otherwise.
fn first_not_ended(alloc: Global, rows: &[(&'static [Given], Given, End)]) -> Option<usize> {
    for (at, (given, then, end)) in rows.iter().enumerate() {
        if !is_ended(alloc, given, *then, *end) {
            return Some(at);
        }
    }
    None
}

#[test]
fn an_interrupted_read_is_tried_again(rt: HostRuntime) -> Result<(), Fail> {
    none_is_wrong(first_not_ended(rt.alloc(), &INTERRUPTED))
}

/// Is interrupted so often, and then at its end.
#[derive(Drop)]
struct Disturbed {
    left: u32,
}

impl Read for Disturbed {
    fn read(&mut self, _buf: &mut [u8]) -> io::Result<usize> {
        if self.left == 0 {
            return Ok(0);
        }
        self.left -= 1;
        Err(io::Error::from(ErrorKind::Interrupted))
    }
}

const DISTURBED: [(u32, End); 3] = [
    (999_999, Ok(0)),
    (1_000_000, Err((1, Cause::TooManyReads))),
    (1_000_001, Err((1, Cause::TooManyReads))),
];

/// Whether a run that is interrupted so often ends so.
fn is_disturbed(alloc: Global, left: u32, end: End) -> bool {
    let mut written = Vec::new(alloc);
    play(alloc, &mut Disturbed { left }, &mut written, QUIET) == ending(end)
}

/// The first run that ends otherwise.
fn first_not_disturbed(alloc: Global, rows: &[(u32, End)]) -> Option<usize> {
    for (at, (left, end)) in rows.iter().enumerate() {
        if !is_disturbed(alloc, *left, *end) {
            return Some(at);
        }
    }
    None
}

#[test]
fn an_interrupted_read_counts_as_a_read(rt: HostRuntime) -> Result<(), Fail> {
    none_is_wrong(first_not_disturbed(rt.alloc(), &DISTURBED))
}

const TWO_LAYOUTS: [Given; 2] = [Given::Piece("layout\n"), Given::Piece("layout\n")];

/// After how many flushes one fails, and the line at which it ends the run.
const UNREAD: [(usize, usize); 3] = [(0, 1), (1, 2), (2, 3)];

/// Whether the flush after n ends a run that fails there, before the next read.
fn is_unread(alloc: Global, given: &[Given], flushes: usize, line: usize) -> bool {
    let calls = RefCell::new(Vec::new(alloc));
    let end = recorded(alloc, given, flushes, &calls);
    let lost = ScriptFault {
        line,
        cause: Cause::Write,
    };
    end == Err(lost)
        && count(&calls, Call::Read) == flushes
        && count(&calls, Call::Write) == flushes
}

/// The first row that it doesn't end so.
fn first_read(alloc: Global, given: &[Given], rows: &[(usize, usize)]) -> Option<usize> {
    for (at, (flushes, line)) in rows.iter().enumerate() {
        if !is_unread(alloc, given, *flushes, *line) {
            return Some(at);
        }
    }
    None
}

#[test]
fn a_flush_that_fails_before_a_read_ends_the_run_at_the_line_that_is_read(
    rt: HostRuntime,
) -> Result<(), Fail> {
    none_is_wrong(first_read(rt.alloc(), &TWO_LAYOUTS, &UNREAD))
}

/// How runs end: what reads give, how many there are, whether the writer takes bytes, the line, and the cause if there is
/// one.
type Ends = (&'static [Given], Given, usize, bool, usize, Option<Cause>);

/// A script that is accepted, X1 to X6 and X9, and a script without a line.
#[rattlefmt::skip]
const ENDS: [Ends; 9] = [
    (&[Given::Piece("layout\nlayout\n")],     Given::End,    2, true,  3, None),
    (&[Given::Piece("layout\njump\n")],       Given::End,    1, true,  2, Some(Cause::Syntax)),
    (&[Given::Piece("layout\n")],             Given::Long,   2, true,  2, Some(Cause::LineTooLong)),
    (&[Given::Piece("layout\nlayout 0\n")],   Given::End,    1, true,  2, Some(Cause::BadHex)),
    (&[Given::Piece("layout\nvalues 00\n")],  Given::End,    1, true,  2, Some(Cause::Step(StepFault::Report(ReportFault::UnknownReport)))),
    (&[Given::Piece("layout\n")],             Given::Failed, 2, true,  2, Some(Cause::Read)),
    (&[Given::Piece("# one\nlayout\n")],      Given::End,    1, false, 2, Some(Cause::Write)),
    (&[Given::Piece("# one\nvalues 00\n")],   Given::End,    1, true,  2, Some(Cause::NoLayout)),
    (&[],                                     Given::End,    1, true,  1, None),
];

/// How a run ends where the flush after n fails.
fn flushed(
    alloc: Global,
    given: &[Given],
    then: Given,
    takes: bool,
    flushes: usize,
) -> Result<Summary, ScriptFault> {
    let mut reader = Pieces {
        given,
        then,
        calls: None,
    };
    let mut writer = Recorder {
        taken: Vec::new(alloc),
        takes,
        flushes,
        calls: None,
    };
    play(alloc, &mut reader, &mut writer, QUIET)
}

/// Whether a run was ended by a write, at this line.
fn is_lost(end: &Result<Summary, ScriptFault>, line: usize) -> bool {
    let lost = ScriptFault {
        line,
        cause: Cause::Write,
    };
    *end == Err(lost)
}

/// Whether a last flush that fails is reported instead of how a run ends. One flush comes before each read, and one at the end.
fn is_reported(alloc: Global, row: &Ends) -> bool {
    let (given, then, reads, takes, line, cause) = *row;
    let fault = cause.map(|cause| ScriptFault { line, cause });
    let whole = flushed(alloc, given, then, takes, reads.saturating_add(1));
    let cut = flushed(alloc, given, then, takes, reads);
    whole.err() == fault && is_lost(&cut, line)
}

/// The first run of which it isn't.
fn first_wrong_row(alloc: Global, rows: &[Ends]) -> Option<usize> {
    for (at, row) in rows.iter().enumerate() {
        if !is_reported(alloc, row) {
            return Some(at);
        }
    }
    None
}

#[test]
fn a_last_flush_that_fails_is_reported_whatever_ended_the_run(rt: HostRuntime) -> Result<(), Fail> {
    none_is_wrong(first_wrong_row(rt.alloc(), &ENDS))
}

/// Whether it is reported after too many reads.
fn is_reported_after_reads(alloc: Global) -> bool {
    let end = flushed(alloc, &[], Given::Piece("\n"), true, 1_000_000);
    is_lost(&end, 1_000_001)
}

#[test]
fn a_last_flush_that_fails_after_too_many_reads_is_reported(rt: HostRuntime) -> Result<(), Fail> {
    holds("a million reads", is_reported_after_reads(rt.alloc()))
}
