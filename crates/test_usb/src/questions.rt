//! What a row asks, by the word of its table.

use crate::descriptors::{print_changed, print_device, print_faults, print_joined, print_prefixes};
use crate::device::{print_heard, print_reset};
use crate::foreign::print_foreign;
use crate::packets::{print_alone, print_bodies, print_decoded, print_fitting};
use crate::requests::print_fields;
use crate::sent::print_sent;
use crate::transactions::{print_answers, print_ends, print_fate, print_stuck};
use crate::transfers::{print_state, print_transfer};
use test_rows::{Answers, Asked, RowFault};

/// The questions of the tables.
pub struct Questions;

impl Answers for Questions {
    fn answer(&self, printed: &mut String, asked: &Asked<'_>) -> Result<(), RowFault> {
        let Asked { table, given, .. } = *asked;
        match asked.question {
            "fits" => print_fitting(printed, given),
            "bodies" => print_bodies(printed, given),
            "ends" => print_ends(printed, table, given),
            "answers" => print_answers(printed, table, given),
            "fate" => print_fate(printed, given),
            "stuck" => print_stuck(printed, given),
            "changed" => print_changed(printed, given),
            "prefixes" => print_prefixes(printed, given),
            "device" => print_device(printed, given),
            "faults" => print_faults(printed),
            "heard" => print_heard(printed, table, given),
            "reset" => print_reset(printed, table, given),
            _ => of_bytes(printed, asked, &asked.bytes()?),
        }
    }
}

/// What is asked of bytes, and of the words after a `|`.
fn of_bytes(printed: &mut String, asked: &Asked<'_>, bytes: &[u8]) -> Result<(), RowFault> {
    let table = asked.table;
    let words = asked.words();
    match asked.question {
        "packet" => print_decoded(printed, bytes),
        "alone" => print_alone(printed, bytes),
        "joined" => print_joined(printed, bytes),
        "fields" => print_fields(printed, bytes),
        "foreign" => print_foreign(printed, table, bytes, words),
        "sent" => print_sent(printed, table, bytes, words),
        "transfer" => print_transfer(printed, table.alloc, bytes, words),
        "state" => print_state(printed, table.alloc, bytes),
        _ => Err(RowFault::Unread),
    }
}
