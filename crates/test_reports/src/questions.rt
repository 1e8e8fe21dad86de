//! What a row asks, by the word of its table: of words alone, of bytes, or of the layout of a descriptor. A descriptor that
//! is refused gives its refusal, whatever is asked.

use crate::boot::{print_boot, print_boot_reports, print_key, print_keyboard, print_mouse};
use crate::controls::{print_control, print_controls, print_least, print_plan, print_usage};
use crate::fields::{
    print_agreement, print_field, print_null, print_number_of, print_pattern_of, print_written,
};
use crate::items::{print_items, print_name};
use crate::layouts::{print_count, print_element, print_lists, print_parts};
use crate::session::{print_session, print_table};
use crate::snapshots::print_snapshot;
use crate::views::{print_awaited, print_between, print_forgotten, print_named, print_view};
use hid_layout::Layout;
use test_rows::{Answers, Asked, RowFault, print_shown};

/// The questions of the tables.
pub struct Questions;

impl Answers for Questions {
    fn answer(&self, printed: &mut String, asked: &Asked<'_>) -> Result<(), RowFault> {
        let given = asked.given;
        match asked.question {
            "boot" => print_boot(printed, given),
            "name" => print_name(printed, given),
            "number" => print_number_of(printed, given),
            "pattern" => print_pattern_of(printed, given),
            "null" => print_null(printed, given),
            "mouse" => print_mouse(printed, given),
            _ => of_bytes(printed, asked, &asked.bytes()?),
        }
    }
}

/// What is asked of bytes, and of the words after a `|`.
fn of_bytes(printed: &mut String, asked: &Asked<'_>, bytes: &[u8]) -> Result<(), RowFault> {
    let table = asked.table;
    let words = asked.words();
    match asked.question {
        "items" => print_items(printed, bytes),
        "field" => print_field(printed, bytes, words),
        "write" => print_written(printed, bytes, words),
        "codecs" => print_agreement(printed, bytes, words),
        "keyboard" => print_keyboard(printed, bytes),
        "key" => print_key(printed, bytes, words),
        "reports" => print_boot_reports(printed, bytes),
        "parts" => print_parts(printed, table.alloc, bytes, words),
        "session" => print_session(printed, table, bytes, words),
        "table" => print_table(printed, table, bytes, words),
        _ => with_layout(printed, asked, bytes),
    }
}

fn with_layout(printed: &mut String, asked: &Asked<'_>, descriptor: &[u8]) -> Result<(), RowFault> {
    match Layout::parse(asked.table.alloc, descriptor) {
        Ok(layout) => of_layout(printed, asked, &layout),
        Err(fault) => print_shown(printed, &fault),
    }
}

fn of_layout(printed: &mut String, asked: &Asked<'_>, layout: &Layout) -> Result<(), RowFault> {
    let words = asked.words();
    match asked.question {
        "count" => print_count(printed, layout),
        "element" => print_element(printed, layout, words),
        "lists" => print_lists(printed, layout),
        "controls" => print_controls(printed, layout, words),
        "control" => print_control(printed, layout, words),
        "plan" => print_plan(printed, layout, words),
        "least" => print_least(printed, layout, words),
        "usage" => print_usage(printed, layout, words),
        _ => of_device(printed, asked, layout),
    }
}

fn of_device(printed: &mut String, asked: &Asked<'_>, layout: &Layout) -> Result<(), RowFault> {
    let table = asked.table;
    let words = asked.words();
    match asked.question {
        "snapshot" => print_snapshot(printed, table.alloc, layout, words),
        "view" => print_view(printed, table, layout, words),
        "between" => print_between(printed, table, layout, words),
        "forgotten" => print_forgotten(printed, table, layout, words),
        "named" => print_named(printed, table, layout, words),
        "awaited" => print_awaited(printed, table, layout, words),
        _ => Err(RowFault::Unread),
    }
}
