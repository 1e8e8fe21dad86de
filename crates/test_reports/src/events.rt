//! Events, as they are printed: what became of which control, with its usage.

use hid_layout::{ControlId, Usage};
use hid_usages::Event;
use test_rows::{RowFault, add, add_hex, add_shown, print};

/// Appends a control by its item and its place there.
pub fn add_control(printed: &mut String, control: ControlId) -> Result<(), RowFault> {
    add_shown(printed, &control.item)?;
    add(printed, ".")?;
    add_shown(printed, &control.index)
}

/// Appends a usage by its page and its ID, in hex.
pub fn add_usage(printed: &mut String, usage: Usage) -> Result<(), RowFault> {
    add_hex(printed, u32::from(usage.page))?;
    add(printed, ":")?;
    add_hex(printed, u32::from(usage.id))
}

/// A part: what became of a control, with its usage.
fn print_what(
    printed: &mut String,
    what: &str,
    control: ControlId,
    usage: Usage,
) -> Result<(), RowFault> {
    print(printed, what)?;
    add_control(printed, control)?;
    add(printed, " ")?;
    add_usage(printed, usage)
}

/// Appends an event of a control, with its usage and an amount.
fn print_amount(
    printed: &mut String,
    what: &str,
    control: ControlId,
    usage: Usage,
    amount: i64,
) -> Result<(), RowFault> {
    print_what(printed, what, control, usage)?;
    add(printed, " ")?;
    add_shown(printed, &amount)
}

fn print_event(printed: &mut String, event: &Event) -> Result<(), RowFault> {
    match *event {
        Event::Down { control, usage } => print_what(printed, "down ", control, usage),
        Event::Up { control, usage } => print_what(printed, "up ", control, usage),
        Event::Value {
            control,
            usage,
            value,
        } => print_amount(printed, "value ", control, usage, value),
        Event::Null { control, usage } => print_what(printed, "null ", control, usage),
        Event::Motion { control, usage, by } => print_amount(
            printed, "motion ", control, usage, by,
        ),
        Event::Dropped { control, usage, by } => print_amount(
            printed, "dropped ", control, usage, by,
        ),
    }
}

/// A part for each event; `no_dump` where there is none.
pub fn print_events(printed: &mut String, events: &[Event]) -> Result<(), RowFault> {
    if events.is_empty() {
        return print(printed, "nothing");
    }
    for event in events {
        print_event(printed, event)?;
    }
    Ok(())
}
