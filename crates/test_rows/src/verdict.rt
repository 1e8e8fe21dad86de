//! Which rows and steps are wrong, and how many there are.

use crate::bytes::bytes_of;
use crate::fault::RowFault;
use crate::results::{add, add_shown};
use crate::table::{Heading, Line, Table, heading_in, is_remark, is_step, line_in, steps_in};
use crate::words::split;
use std::alloc::Global;

/// What a row of one line asks: the question of its table, of what is given.
#[derive(Clone, Copy)]
pub struct Asked<'a> {
    pub table: &'a Table<'a>,
    pub question: &'a str,
    pub given: &'a str,
}

impl Asked<'_> {
    /// The bytes that are given, up to a `|`.
    pub fn bytes(&self) -> Result<Vec<u8>, RowFault> {
        bytes_of(self.table, split(self.given, '|').0)
    }

    /// The words that are given after a `|`.
    pub fn words(&self) -> &str {
        split(self.given, '|').1
    }
}

/// What a program answers to its rows.
pub trait Answers {
    /// Writes what is reported where this is asked.
    fn answer(&self, printed: &mut String, asked: &Asked<'_>) -> Result<(), RowFault>;

    /// Plays the steps of a row, by [`judge_steps`], with what its given words mean. Without it a program has no rows of steps.
    fn play(
        &self,
        _verdict: &mut Verdict,
        _sheet: &Table<'_>,
        _row: &Row<'_>,
    ) -> Result<(), RowFault> {
        Err(RowFault::Unread)
    }
}

/// What the steps of a row are played with.
pub trait Subject {
    /// Does what a step says, and writes what is reported.
    fn step(
        &mut self,
        printed: &mut String,
        table: &Table<'_>,
        given: &str,
    ) -> Result<(), RowFault>;
}

/// A row of steps: its table, what is given for all of them, and their lines.
#[derive(Clone, Copy)]
pub struct Row<'a> {
    pub title: &'a str,
    pub question: &'a str,
    pub given: &'a str,
    steps: &'a str,
}

/// How many tables, rows and steps were played, and a line for each row or step that is wrong.
#[derive(Drop)]
pub struct Verdict {
    report: String,
    tables: usize,
    rows: usize,
    steps: usize,
    wrong: usize,
}

impl Verdict {
    pub fn new(alloc: Global) -> Verdict {
        Verdict {
            report: String::new(alloc),
            tables: 0,
            rows: 0,
            steps: 0,
            wrong: 0,
        }
    }

    /// Whether a row is wrong, or none was played.
    pub fn is_wrong(&self) -> bool {
        self.wrong != 0 || self.rows == 0
    }

    /// The lines that are reported.
    pub fn report(&self) -> &str {
        self.report.as_str()
    }

    fn add_table(&mut self) {
        self.tables = self.tables.saturating_add(1);
    }

    fn add_row(&mut self) {
        self.rows = self.rows.saturating_add(1);
    }

    fn add_step(&mut self) {
        self.steps = self.steps.saturating_add(1);
    }

    /// Adds a line that is wrong.
    fn add_wrong(&mut self, title: &str, line: &str, printed: &str) -> Result<(), RowFault> {
        self.wrong = self.wrong.saturating_add(1);
        let report = &mut self.report;
        add(report, title)?;
        add(report, ": ")?;
        add(report, line)?;
        add(report, ", but ")?;
        add(report, printed)?;
        add(report, "\n")
    }

    /// Compares what is reported with what is wanted.
    fn compare(&mut self, title: &str, line: Line<'_>, printed: &str) -> Result<(), RowFault> {
        if printed == line.wanted {
            return Ok(());
        }
        self.add_wrong(title, line.text, printed)
    }

    /// Adds how many there were.
    fn add_count(&mut self) -> Result<(), RowFault> {
        let report = &mut self.report;
        add_shown(report, &self.tables)?;
        add(report, " tables, ")?;
        add_shown(report, &self.rows)?;
        add(report, " rows, ")?;
        add_shown(report, &self.steps)?;
        add(report, " steps, ")?;
        add_shown(report, &self.wrong)?;
        add(report, " wrong\n")
    }
}

/// Marks what is reported as unread, where a row or a step means nothing.
fn unread_in(printed: &mut String, end: Result<(), RowFault>) -> Result<(), RowFault> {
    match end {
        Err(RowFault::Unread) => Ok(printed.push_str(" unread")?),
        end => end,
    }
}

/// Plays a row of one line.
fn judge_row<A: Answers>(
    answers: &A,
    verdict: &mut Verdict,
    table: &Table<'_>,
    heading: Heading<'_>,
    line: Line<'_>,
) -> Result<(), RowFault> {
    let mut printed = String::new(table.alloc);
    let asked = Asked {
        table,
        question: heading.question,
        given: line.given,
    };
    let end = answers.answer(&mut printed, &asked);
    unread_in(&mut printed, end)?;
    verdict.compare(heading.title, line, &printed)
}

fn judge_step<S: Subject>(
    subject: &mut S,
    verdict: &mut Verdict,
    table: &Table<'_>,
    title: &str,
    line: Line<'_>,
) -> Result<(), RowFault> {
    let mut printed = String::new(table.alloc);
    let end = subject.step(&mut printed, table, line.given);
    unread_in(&mut printed, end)?;
    verdict.compare(title, line, &printed)
}

/// Plays the steps of a row once, in turn.
pub fn judge_steps<S: Subject>(
    subject: &mut S,
    verdict: &mut Verdict,
    table: &Table<'_>,
    row: &Row<'_>,
) -> Result<(), RowFault> {
    for line in row.steps.split('\n') {
        if !is_remark(line) {
            verdict.add_step();
            judge_step(subject, verdict, table, row.title, line_in(line))?;
        }
    }
    Ok(())
}

/// Plays a row of steps.
fn judge_played<A: Answers>(
    answers: &A,
    verdict: &mut Verdict,
    table: &Table<'_>,
    row: &Row<'_>,
    text: &str,
) -> Result<(), RowFault> {
    match answers.play(verdict, table, row) {
        Err(RowFault::Unread) => verdict.add_wrong(row.title, text, "unread"),
        end => end,
    }
}

/// Plays a row: with the steps that stand in these lines below it, if there are any.
fn judge_line<A: Answers>(
    answers: &A,
    verdict: &mut Verdict,
    table: &Table<'_>,
    heading: Heading<'_>,
    line: &str,
    steps: &str,
) -> Result<(), RowFault> {
    let line = line_in(line);
    verdict.add_row();
    if steps.is_empty() {
        return judge_row(answers, verdict, table, heading, line);
    }
    let row = Row {
        title: heading.title,
        question: heading.question,
        given: line.given,
        steps,
    };
    judge_played(answers, verdict, table, &row, line.text)
}

/// Plays the rows of all tables.
fn judge_tables<A: Answers>(
    answers: &A,
    verdict: &mut Verdict,
    table: &Table<'_>,
    tables: &str,
) -> Result<(), RowFault> {
    let mut heading = Heading {
        title: "",
        question: "",
    };
    let mut at: usize = 0;
    let mut below_row = false;
    for line in tables.split('\n') {
        at = at.saturating_add(line.len()).saturating_add(1);
        if is_step(line) {
            // The steps of a row were played with it; others mean nothing.
            if !below_row && !is_remark(line) {
                verdict.add_wrong(heading.title, line, "a step of no row")?;
            }
            continue;
        }
        below_row = false;
        if let Some(found) = heading_in(line) {
            heading = found;
            verdict.add_table();
        } else if !is_remark(line) {
            let steps = steps_in(tables.get(at..).unwrap_or(""));
            judge_line(answers, verdict, table, heading, line, steps)?;
            below_row = true;
        }
    }
    Ok(())
}

/// Plays a text: its names, up to the first heading, and then its tables. The last line says how many there were.
pub fn judge<A: Answers>(
    answers: &A,
    verdict: &mut Verdict,
    alloc: Global,
    text: &str,
) -> Result<(), RowFault> {
    let first = text.find("\n# ").unwrap_or(0);
    let names = text.get(..first).unwrap_or("");
    let tables = text.get(first..).unwrap_or("");
    judge_tables(answers, verdict, &Table { alloc, names }, tables)?;
    verdict.add_count()
}
