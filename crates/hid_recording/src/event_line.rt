//! Events of a report, as they are printed.

ghost use Rattle.std.specs.Prelude.{◌≡◌, ◌++◌, ◌∷◌, [], OnOk, string_bytes};
ghost use Rattle.std.specs.Fmt.{decimal, signed_decimal};
ghost use Rattle.hid_recording.specs.EventJson.{event_word};
ghost use Rattle.hid_recording.specs.Pieces.{Flows};
ghost use Rattle.hid_recording.specs.EventLines.{name_words, place_words, amount_words, shown_words, shown_event, plain_line, event_line, event_lines};

use super::event_json::{control_in, print_json, usage_in};
use super::fault::TextFault;
use super::options::Options;
use super::output::write_long;
use hid_layout::{ControlId, Layout, Usage};
use hid_names::usage_name;
use hid_notation::{print_number, print_signed, print_usage};
use hid_usages::Event;
use std::alloc::{AllocError, Global};
use std::io::Write;

/// When and of which device a report came, and what is asked for.
#[derive(Clone, Copy)]
pub struct Source<'a> {
    pub alloc: Global,
    pub time: &'a str,
    pub device: u8,
    pub options: Options,
}

/// Adds the name of a usage after a space, where it has one.
fn print_name(text: &mut String, usage: Usage) -> Result<(), AllocError>
    ensures { OnOk result (string_bytes text.new ≡ string_bytes text.old ++ name_words usage) }
{
    match usage_name(usage.page, usage.id) {
        Some(name) => write!(text, " {name}"),
        None => Ok(()),
    }
}

/// Adds what happened, as a word between spaces. To add each word by itself costs less: its length is known.
fn print_spaced_word(text: &mut String, event: &Event) -> Result<(), AllocError>
    ensures { OnOk result (string_bytes text.new ≡ string_bytes text.old ++ 32 ∷ event_word event.now ++ 32 ∷ []) }
{
    match event {
        Event::Down { .. } => text.push_str(" down "),
        Event::Up { .. } => text.push_str(" up "),
        Event::Value { .. } => text.push_str(" value "),
        Event::Null { .. } => text.push_str(" null "),
        Event::Motion { .. } => text.push_str(" motion "),
        Event::Dropped { .. } => text.push_str(" dropped "),
    }
}

/// Adds a control after a space, if places are asked for: ` @2.0`.
fn print_place(text: &mut String, places: bool, control: ControlId) -> Result<(), AllocError>
    ensures { OnOk result (string_bytes text.new ≡ string_bytes text.old ++ place_words places control) }
{
    if !places {
        return Ok(());
    }
    text.push_str(" @")?;
    print_number(text, control.item as u64)?;
    text.push('.')?;
    print_number(text, control.index as u64)
}

/// Adds a number after a space.
fn print_after_space(text: &mut String, number: i64) -> Result<(), AllocError>
    ensures { OnOk result (string_bytes text.new ≡ string_bytes text.old ++ 32 ∷ signed_decimal number) }
{
    text.push(' ')?;
    print_signed(text, number)
}

/// Adds the number of an event after a space, if it has one.
fn print_amount(text: &mut String, event: &Event) -> Result<(), AllocError>
    ensures { OnOk result (string_bytes text.new ≡ string_bytes text.old ++ amount_words event.now) }
{
    match event {
        Event::Value { value, .. } => print_after_space(text, *value),
        Event::Motion { by, .. } | Event::Dropped { by, .. } => print_after_space(text, *by),
        Event::Down { .. } | Event::Up { .. } | Event::Null { .. } => Ok(()),
    }
}

/// Adds what happened, after the number of the device. A formatter takes many times as long.
fn print_event_words(text: &mut String, places: bool, event: &Event) -> Result<(), AllocError>
    ensures { OnOk result (string_bytes text.new ≡ string_bytes text.old ++ shown_words places event.now) }
{
    print_spaced_word(text, event)?;
    print_usage(text, usage_in(event))?;
    print_place(text, places, control_in(event))?;
    print_amount(text, event)
}

/// Adds when a report came, and of which device it is.
///
/// # Errors
/// Out of memory.
#[inline(always)]
pub fn print_source(text: &mut String, source: &Source<'_>) -> Result<(), AllocError>
    ensures { OnOk result (string_bytes text.new
        ≡ string_bytes text.old ++ source.now.time.now ++ 32 ∷ decimal source.now.device) }
{
    text.push_str(source.time)?;
    text.push(' ')?;
    print_number(text, u64::from(source.device))
}

/// Adds when an event is, and the event, with its control if places are asked for.
fn print_shown(text: &mut String, source: &Source<'_>, event: &Event) -> Result<(), AllocError>
    ensures { OnOk result (string_bytes text.new ≡ string_bytes text.old ++ source.now.time.now
        ++ 32 ∷ shown_event source.now.options.places source.now.device event.now) }
{
    print_source(text, source)?;
    print_event_words(text, source.options.places, event)
}

/// Adds an event as a line for people.
fn print_plain(text: &mut String, source: &Source<'_>, event: &Event) -> Result<(), AllocError>
    ensures { OnOk result (string_bytes text.new
        ≡ string_bytes text.old ++ plain_line source.now.time.now source.now.device source.now.options event.now) }
{
    print_shown(text, source, event)?;
    if source.options.names {
        print_name(text, usage_in(event))?;
    }
    text.push_str("\n")
}

/// Adds the line of an event of a device with this layout.
///
/// # Errors
/// [`AllocError`] if memory runs out for the line.
#[tactic(auto, unfolding(crate::specs::EventLines::event_line))]
pub fn print_event(
    text: &mut String,
    source: &Source<'_>,
    layout: &Layout,
    event: &Event,
) -> Result<(), AllocError>
    ensures { OnOk result (string_bytes text.new ≡ string_bytes text.old
        ++ event_line source.now.time.now source.now.device source.now.options layout.now event.now) }
{
    if source.options.json {
        print_json(text, source, layout, event)
    } else {
        print_plain(text, source, event)
    }
}

/// Adds a line for each event of a device with this layout, and writes what is long.
///
/// # Errors
/// R10 if memory runs out for a line, R9 if the writer fails.
pub fn print_events<W: Write>(
    text: &mut String,
    writer: &mut W,
    source: &Source<'_>,
    layout: &Layout,
    events: &[Event],
) -> Result<(), TextFault>
    ensures { Flows (W.contents writer.old) (W.contents writer.new) (string_bytes text.old)
        (event_lines source.now.time.now source.now.device source.now.options layout.now events.now) result
        (string_bytes text.new) }
{
    for event in events {
        print_event(text, source, layout, event)?;
        write_long(text, writer)?;
    }
    Ok(())
}
