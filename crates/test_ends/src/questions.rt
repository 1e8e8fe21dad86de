//! What a row asks, by the word of its table, and what its steps are played with.

use crate::creation::{print_makes, print_prints};
use crate::device::print_device;
use crate::ends::{Ends, begun, times_in};
use crate::gadget::exchange_of;
use crate::host;
use crate::output::Output;
use crate::requests::{print_asks, print_describes, print_encodes};
use crate::words::words_in;
use std::alloc::Global;
use test_rows::{Answers, Asked, Row, RowFault, Subject, Table, Verdict, judge_steps};

/// The questions of the tables.
pub struct Questions;

impl Answers for Questions {
    fn answer(&self, printed: &mut String, asked: &Asked<'_>) -> Result<(), RowFault> {
        let Asked { table, given, .. } = *asked;
        match asked.question {
            "encodes" => print_encodes(printed, table, given),
            "describes" => print_describes(printed, table, given),
            "prints" => print_prints(printed, table, given),
            _ => of_bytes(printed, asked, &asked.bytes()?),
        }
    }

    fn play(
        &self,
        verdict: &mut Verdict,
        table: &Table<'_>,
        row: &Row<'_>,
    ) -> Result<(), RowFault> {
        match row.question {
            "ends" => play_ends(verdict, table, row),
            "gadget" => play_gadget(verdict, table, row),
            _ => Err(RowFault::Unread),
        }
    }
}

/// Plays a row of both ends.
fn play_ends(verdict: &mut Verdict, table: &Table<'_>, row: &Row<'_>) -> Result<(), RowFault> {
    let (given, times) = times_in(row.given)?;
    let mut ends = begun(table, given)?;
    let end = play_times(&mut ends, verdict, table, row, times);
    drop(ends);
    end
}

/// Plays a row of a gadget.
fn play_gadget(verdict: &mut Verdict, table: &Table<'_>, row: &Row<'_>) -> Result<(), RowFault> {
    let mut exchange = exchange_of(table, row.given)?;
    let end = judge_steps(&mut exchange, verdict, table, row);
    drop(exchange);
    end
}

/// What is asked of bytes, and of the words after a `|`.
fn of_bytes(printed: &mut String, asked: &Asked<'_>, bytes: &[u8]) -> Result<(), RowFault> {
    let table = asked.table;
    let words = asked.words();
    match asked.question {
        "asks" => print_asks(printed, table, bytes),
        "makes" => print_makes(printed, table, bytes, words),
        _ => Err(RowFault::Unread),
    }
}

/// Plays the steps of a row so often, with the same ends.
fn play_times(
    ends: &mut Ends,
    verdict: &mut Verdict,
    table: &Table<'_>,
    row: &Row<'_>,
    times: usize,
) -> Result<(), RowFault> {
    for _ in 0..times {
        judge_steps(ends, verdict, table, row)?;
    }
    Ok(())
}

/// Does what these words mean, and appends the result.
fn carry_out(
    alloc: Global,
    ends: &mut Ends,
    words: &[&str],
    bytes: &mut Vec<u8>,
    printed: &mut Output,
) {
    if !host::print_host(alloc, ends, words, bytes, printed) {
        print_device(alloc, &mut ends.device, words, bytes, printed);
    }
}

impl Subject for Ends {
    fn step(
        &mut self,
        printed: &mut String,
        table: &Table<'_>,
        given: &str,
    ) -> Result<(), RowFault> {
        let words = words_in(table.alloc, given)?;
        let mut bytes = Vec::new(table.alloc);
        let mut step = Output::new(table.alloc);
        carry_out(table.alloc, self, &words, &mut bytes, &mut step);
        step.give(printed)
    }
}
