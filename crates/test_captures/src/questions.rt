//! What a row asks, by the word of its table.

use crate::frames::{print_changes, print_cuts, print_frames};
use crate::tracking::TrackerSteps;
use crate::urbs::print_asked_urb;
use test_rows::{Answers, Asked, Row, RowFault, Table, Verdict, judge_steps};

/// The questions of the tables.
pub struct Questions;

impl Answers for Questions {
    fn answer(&self, printed: &mut String, asked: &Asked<'_>) -> Result<(), RowFault> {
        let bytes = asked.bytes()?;
        let alloc = asked.table.alloc;
        match asked.question {
            "frames" => print_frames(printed, alloc, &bytes, bytes.len()),
            "cuts" => print_cuts(printed, alloc, &bytes),
            "changes" => print_changes(printed, alloc, &bytes),
            "urb" => print_asked_urb(printed, &bytes, asked.words()),
            _ => Err(RowFault::Unread),
        }
    }

    fn play(
        &self,
        verdict: &mut Verdict,
        table: &Table<'_>,
        row: &Row<'_>,
    ) -> Result<(), RowFault> {
        if row.question != "tracked" {
            return Err(RowFault::Unread);
        }
        let mut steps = TrackerSteps::new(table.alloc);
        judge_steps(&mut steps, verdict, table, row)
    }
}
