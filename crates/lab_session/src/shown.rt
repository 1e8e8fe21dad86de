//! What is printed of lines that were printed: as they are, with names and places, or as JSON.

ghost use Rattle.std.specs.Prelude.{◌≡◌};
ghost use Rattle.lab_session.specs.Printed.{is_styled};

use super::options::LabOptions;
use hid_layout::{ControlId, Usage};
use hid_names::usage_name;
use hid_snapshots::Event;
use hid_stack::Delivered;
use hid_text::{EventText, PlacedEventText, split_line};
use json::Writer;
use std::alloc::{AllocError, Global};

/// Whether lines are printed otherwise than as the interpreter prints them.
pub fn is_styled(options: &LabOptions) -> bool
    ensures { result ≡ is_styled options.now }
{
    options.names || options.places || options.json
}

/// The usage and the control of an event, its word, and its number if it has one.
fn parts_of(event: &Event) -> (Usage, ControlId, &'static str, Option<i64>) {
    match event {
        Event::Down { usage, control } => (*usage, *control, "down", None),
        Event::Up { usage, control } => (*usage, *control, "up", None),
        Event::Null { usage, control } => (*usage, *control, "null", None),
        Event::Value {
            usage,
            control,
            value,
        } => (*usage, *control, "value", Some(*value)),
        Event::Motion { usage, control, by } => (*usage, *control, "motion", Some(*by)),
        Event::Dropped { usage, control, by } => (*usage, *control, "dropped", Some(*by)),
    }
}

/// Writes a number with its name.
fn put_number(json: &mut Writer, name: &str, number: u64) -> Result<(), AllocError> {
    json.key(name)?;
    json.u64(number)
}

/// Writes a text with its name.
fn put_text(json: &mut Writer, name: &str, text: &str) -> Result<(), AllocError> {
    json.key(name)?;
    json.string(text)
}

/// Writes the members of an event.
fn put_event(
    json: &mut Writer,
    alloc: Global,
    options: &LabOptions,
    delivered: &Delivered,
) -> Result<(), AllocError> {
    let (usage, control, word, number) = parts_of(&delivered.event);
    put_number(json, "device", u64::from(delivered.dev))?;
    put_text(json, "event", word)?;
    put_number(json, "page", u64::from(usage.page))?;
    put_number(json, "id", u64::from(usage.id))?;
    put_number(json, "item", control.item as u64)?;
    put_number(json, "index", control.index as u64)?;
    if let Some(number) = number {
        json.key("value")?;
        json.i64(number)?;
    }
    if options.names {
        if let Some(name) = usage_name(usage.page, usage.id) {
            let words = format!(in alloc; "{name}")?;
            put_text(json, "name", words.as_str())?;
        }
    }
    Ok(())
}

/// Writes an event as an object.
fn put_object(
    json: &mut Writer,
    alloc: Global,
    options: &LabOptions,
    delivered: &Delivered,
) -> Result<(), AllocError> {
    json.begin_object()?;
    put_event(json, alloc, options, delivered)?;
    json.end_object()
}

/// Writes a line that is no event as an object.
fn put_line(json: &mut Writer, line: &str) -> Result<(), AllocError> {
    json.begin_object()?;
    put_text(json, "text", line)?;
    json.end_object()
}

/// Adds an object that was written, and the end of the line.
fn push_object(
    text: &mut Vec<u8>,
    json: Writer,
    written: Result<(), AllocError>,
) -> Result<(), AllocError> {
    let bytes = json.into_inner();
    written?;
    text.extend_from_slice(bytes.as_slice())?;
    text.push(b'\n')?;
    Ok(())
}

/// Adds an event as a line of JSON.
fn show_json(
    text: &mut Vec<u8>,
    alloc: Global,
    options: &LabOptions,
    delivered: &Delivered,
) -> Result<(), AllocError> {
    let mut json = Writer::new(Vec::new(alloc));
    let written = put_object(&mut json, alloc, options, delivered);
    push_object(text, json, written)
}

/// Adds an event for people, with its control and its name where they are asked for.
fn show_words(
    text: &mut Vec<u8>,
    alloc: Global,
    options: &LabOptions,
    delivered: &Delivered,
) -> Result<(), AllocError> {
    let Delivered { dev, event } = *delivered;
    let mut line = if options.places {
        let shown = PlacedEventText { dev, event };
        format!(in alloc; "{shown}")?
    } else {
        let shown = EventText { dev, event };
        format!(in alloc; "{shown}")?
    };
    if options.names {
        let (usage, _, _, _) = parts_of(&event);
        if let Some(name) = usage_name(usage.page, usage.id) {
            write!(line, " {name}")?;
        }
    }
    line.push_str("\n")?;
    text.extend_from_slice(line.as_bytes())
}

/// Adds an event, as it is asked for.
///
/// # Errors
/// Out of memory.
pub fn show_event(
    text: &mut Vec<u8>,
    alloc: Global,
    options: &LabOptions,
    delivered: &Delivered,
) -> Result<(), AllocError> {
    if options.json {
        show_json(text, alloc, options, delivered)
    } else {
        show_words(text, alloc, options, delivered)
    }
}

/// Adds a line that is no event, without its end.
fn show_line(
    text: &mut Vec<u8>,
    alloc: Global,
    options: &LabOptions,
    line: &[u8],
) -> Result<(), AllocError> {
    if options.json {
        let words = String::from_utf8_lossy(alloc, line)?;
        let mut json = Writer::new(Vec::new(alloc));
        let written = put_line(&mut json, words.as_str());
        return push_object(text, json, written);
    }
    text.extend_from_slice(line)?;
    text.push(b'\n')?;
    Ok(())
}

/// Adds lines of which these events are the last: events as they are asked for, and the lines before them.
///
/// # Errors
/// Out of memory.
pub fn show_lines(
    text: &mut Vec<u8>,
    alloc: Global,
    options: &LabOptions,
    lines: &[u8],
    delivered: &[Delivered],
) -> Result<(), AllocError> {
    let others = count_lines(lines).saturating_sub(delivered.len());
    let mut rest = lines;
    for _ in 0..others {
        let Some((line, more)) = split_line(rest) else {
            break;
        };
        show_line(text, alloc, options, line)?;
        rest = more;
    }
    for event in delivered {
        show_event(text, alloc, options, event)?;
    }
    Ok(())
}

/// How many lines end in a text.
fn count_lines(text: &[u8]) -> usize {
    text.iter().filter(|byte| **byte == b'\n').count()
}
