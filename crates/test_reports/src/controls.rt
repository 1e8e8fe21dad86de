//! The controls and codes of items, plans of reports, and how usages are found.

use crate::events::{add_control, add_usage};
use crate::words::{control_of, usage_of};
use hid_layout::{Codes, Control, ControlId, Controls, Layout, Usage};
use test_rows::{RowFault, add, add_debug, number_of, print, print_debug, print_shown, split};

/// Appends the controls of an item and the least number out of its range, which stands for null; of an array also the numbers
/// that stand for no key and for too many.
fn print_codes(printed: &mut String, controls: &Controls, codes: &Codes) -> Result<(), RowFault> {
    print_debug(printed, controls)?;
    print_debug(printed, &codes.null)?;
    match controls {
        Controls::Keys { .. } => {
            add(printed, " ")?;
            add_debug(printed, &codes.empty)?;
            add(printed, " ")?;
            add_debug(printed, &codes.rollover)
        }
        Controls::None | Controls::Elements { .. } => Ok(()),
    }
}

fn controls_of(layout: &Layout, item: usize) -> Option<(Controls, Codes)> {
    if item < layout.items().len() {
        Some((layout.controls(item), layout.codes(item)))
    } else {
        None
    }
}

/// The controls and codes of an item.
pub fn print_controls(printed: &mut String, layout: &Layout, words: &str) -> Result<(), RowFault> {
    match controls_of(layout, number_of(words)?) {
        Some((controls, codes)) => print_codes(printed, &controls, &codes),
        None => print(printed, "no item"),
    }
}

fn print_found(printed: &mut String, usage: Option<Usage>) -> Result<(), RowFault> {
    match usage {
        Some(usage) => add_usage(printed, usage),
        None => print(printed, "none"),
    }
}

fn control_at(layout: &Layout, control: ControlId) -> Option<Control> {
    layout.control(control)
}

/// A control as its kind and its usage.
pub fn print_control(printed: &mut String, layout: &Layout, words: &str) -> Result<(), RowFault> {
    match control_at(layout, control_of(words)?) {
        Some(control) => {
            add_debug(printed, &control.kind)?;
            add(printed, " ")?;
            add_usage(printed, control.usage)
        }
        None => print(printed, "none"),
    }
}

fn starts(layout: &Layout, item: usize) -> &[u32] {
    if item < layout.items().len() {
        layout.starts(item)
    } else {
        &[]
    }
}

fn plan(layout: &Layout, report: usize) -> &[usize] {
    if report < layout.reports().len() {
        layout.plan(report)
    } else {
        &[]
    }
}

fn most_events(layout: &Layout) -> usize {
    layout.max_events()
}

/// Of an item and a report: where the ranges of the item's usages begin, the items of the report, and the most events that
/// one report gives.
pub fn print_plan(printed: &mut String, layout: &Layout, words: &str) -> Result<(), RowFault> {
    let (item, report) = split(words, ' ');
    let (item, report) = (number_of(item)?, number_of(report)?);
    print_debug(printed, &starts(layout, item))?;
    print_debug(printed, &plan(layout, report))?;
    print_shown(printed, &most_events(layout))
}

fn least(layout: &Layout, usage: Usage) -> Option<ControlId> {
    layout.find(usage)
}

/// The least control with a usage.
pub fn print_least(printed: &mut String, layout: &Layout, words: &str) -> Result<(), RowFault> {
    match least(layout, usage_of(words)?) {
        Some(control) => add_control(printed, control),
        None => print(printed, "none"),
    }
}

fn usage_at(layout: &Layout, index: usize) -> Option<Usage> {
    if layout.items().is_empty() {
        None
    } else {
        layout.usage(0, index)
    }
}

/// The usage at a place of the first item.
pub fn print_usage(printed: &mut String, layout: &Layout, words: &str) -> Result<(), RowFault> {
    print_found(printed, usage_at(layout, number_of(words)?))
}
