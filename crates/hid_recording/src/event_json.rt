//! Events and refusals as lines of JSON.

ghost use Rattle.std.specs.Prelude.{◌≡◌, ◌++◌, [], Some, OnOk, string_bytes};
ghost use Rattle.hid_names.specs.Names.{name_of_value, name_of};
ghost use Rattle.hid_recording.specs.EventJson.{usage_in, control_in, path_round, event_word, source_tokens, usage_tokens, place_tokens, path_tokens, control_tokens, number_tokens, value_tokens, named_tokens, name_tokens, event_members, event_tokens, counted_word, refusal_members, refusal_tokens, json_text};
ghost use Rattle.hid_recording.specs.Refusals.{refusal_text};

use super::counted::Counted;
use super::event_line::Source;
use super::fault::Refusal;
use hid_layout::{Collection, ControlId, Layout, Usage};
use hid_names::{UsageName, usage_name};
use hid_text::print_collections;
use hid_usages::Event;
use json::Writer;
use std::alloc::{AllocError, Global};

/// The usage of an event's control.
pub fn usage_in(event: &Event) -> Usage
    ensures { result ≡ usage_in event.now }
{
    match event {
        Event::Down { usage, .. }
        | Event::Up { usage, .. }
        | Event::Value { usage, .. }
        | Event::Null { usage, .. }
        | Event::Motion { usage, .. }
        | Event::Dropped { usage, .. } => *usage,
    }
}

/// The control that an event is of.
pub fn control_in(event: &Event) -> ControlId
    ensures { result ≡ control_in event.now }
{
    match event {
        Event::Down { control, .. }
        | Event::Up { control, .. }
        | Event::Value { control, .. }
        | Event::Null { control, .. }
        | Event::Motion { control, .. }
        | Event::Dropped { control, .. } => *control,
    }
}

/// The collections round the item of a control, the outermost first.
fn path_round(layout: &Layout, control: ControlId) -> &[Collection]
    ensures { result.now ≡ path_round layout.now control }
{
    if control.item >= layout.items().len() {
        return &[];
    }
    layout.path(control.item)
}

/// The word for the kind of an event.
fn event_word(event: &Event) -> &'static str
    ensures { result.now ≡ event_word event.now }
{
    match event {
        Event::Down { .. } => "down",
        Event::Up { .. } => "up",
        Event::Value { .. } => "value",
        Event::Null { .. } => "null",
        Event::Motion { .. } => "motion",
        Event::Dropped { .. } => "dropped",
    }
}

/// Writes when and of which device an event is.
fn put_source(json: &mut Writer, time: &str, device: u8) -> Result<(), AllocError>
    ensures tokens { OnOk result (json.new.tokens ≡ json.old.tokens ++ source_tokens time.now device) }
    ensures before { json.new.before ≡ json.old.before }
{
    json.key("time")?;
    json.string(time)?;
    json.key("device")?;
    json.u64(u64::from(device))
}

/// Writes what an event is called, and its usage.
fn put_usage(json: &mut Writer, word: &str, usage: Usage) -> Result<(), AllocError>
    ensures tokens { OnOk result (json.new.tokens ≡ json.old.tokens ++ usage_tokens word.now usage) }
    ensures before { json.new.before ≡ json.old.before }
{
    json.key("event")?;
    json.string(word)?;
    json.key("page")?;
    json.u64(u64::from(usage.page))?;
    json.key("id")?;
    json.u64(u64::from(usage.id))
}

/// Writes the places of a control's item and of itself.
fn put_place(json: &mut Writer, control: ControlId) -> Result<(), AllocError>
    ensures tokens { OnOk result (json.new.tokens ≡ json.old.tokens ++ place_tokens control) }
    ensures before { json.new.before ≡ json.old.before }
{
    json.key("item")?;
    json.u64(control.item as u64)?;
    json.key("index")?;
    json.u64(control.index as u64)
}

/// Writes the collections round a control.
fn put_path(json: &mut Writer, alloc: Global, path: &[Collection]) -> Result<(), AllocError>
    ensures tokens { OnOk result (json.new.tokens ≡ json.old.tokens ++ path_tokens path.now) }
    ensures before { json.new.before ≡ json.old.before }
{
    let mut collections = String::new(alloc);
    print_collections(&mut collections, path)?;
    json.key("path")?;
    json.string(collections.as_str())
}

/// Writes which control an event is of.
fn put_control(
    json: &mut Writer,
    alloc: Global,
    layout: &Layout,
    control: ControlId,
) -> Result<(), AllocError>
    ensures tokens { OnOk result (json.new.tokens ≡ json.old.tokens ++ control_tokens layout.now control) }
    ensures before { json.new.before ≡ json.old.before }
{
    put_place(json, control)?;
    put_path(json, alloc, path_round(layout, control))
}

/// Writes a number as the value of an event.
fn put_number(json: &mut Writer, value: i64) -> Result<(), AllocError>
    ensures tokens { OnOk result (json.new.tokens ≡ json.old.tokens ++ number_tokens value) }
    ensures before { json.new.before ≡ json.old.before }
{
    json.key("value")?;
    json.i64(value)
}

/// Writes the value of an event, if it has one.
fn put_value(json: &mut Writer, event: &Event) -> Result<(), AllocError>
    ensures tokens { OnOk result (json.new.tokens ≡ json.old.tokens ++ value_tokens event.now) }
    ensures before { json.new.before ≡ json.old.before }
{
    match event {
        Event::Value { value, .. } => put_number(json, *value),
        Event::Motion { by, .. } | Event::Dropped { by, .. } => put_number(json, *by),
        Event::Down { .. } | Event::Up { .. } | Event::Null { .. } => Ok(()),
    }
}

/// Writes the name of a usage.
fn put_words(json: &mut Writer, alloc: Global, name: UsageName) -> Result<(), AllocError>
    ensures tokens { OnOk result
        (json.new.tokens ≡ json.old.tokens ++ named_tokens (Some (name_of_value name))) }
    ensures before { json.new.before ≡ json.old.before }
{
    let words = format!(in alloc; "{name}")?;
    json.key("name")?;
    json.string(words.as_str())
}

/// Writes the name of a usage, if names are asked for and there is one.
fn put_name(json: &mut Writer, source: &Source<'_>, usage: Usage) -> Result<(), AllocError>
    ensures tokens { OnOk result (json.new.tokens
        ≡ json.old.tokens ++ name_tokens source.now.options.names (name_of usage.page usage.id)) }
    ensures before { json.new.before ≡ json.old.before }
{
    if !source.options.names {
        return Ok(());
    }
    match usage_name(usage.page, usage.id) {
        Some(name) => put_words(json, source.alloc, name),
        None => Ok(()),
    }
}

/// Writes the members of an event.
fn put_event_members(
    json: &mut Writer,
    source: &Source<'_>,
    layout: &Layout,
    event: &Event,
) -> Result<(), AllocError>
    ensures tokens { OnOk result (json.new.tokens ≡ json.old.tokens
        ++ event_members source.now.time.now source.now.device source.now.options.names layout.now event.now) }
    ensures before { json.new.before ≡ json.old.before }
{
    let usage = usage_in(event);
    put_source(json, source.time, source.device)?;
    put_usage(json, event_word(event), usage)?;
    put_control(json, source.alloc, layout, control_in(event))?;
    put_value(json, event)?;
    put_name(json, source, usage)
}

/// Writes an event as an object.
fn put_event(
    json: &mut Writer,
    source: &Source<'_>,
    layout: &Layout,
    event: &Event,
) -> Result<(), AllocError>
    ensures tokens { OnOk result (json.new.tokens ≡ json.old.tokens
        ++ event_tokens source.now.time.now source.now.device source.now.options.names layout.now event.now) }
    ensures before { json.new.before ≡ json.old.before }
{
    json.begin_object()?;
    put_event_members(json, source, layout, event)?;
    json.end_object()
}

/// What is counted, in a word.
pub fn counted_word(counted: Counted) -> &'static str
    ensures { result.now ≡ counted_word counted }
{
    match counted {
        Counted::Lines => "line",
        Counted::Frames => "frame",
        Counted::Reports => "report",
    }
}

/// Writes the members of a refusal.
fn put_refusal_members(
    json: &mut Writer,
    counted: Counted,
    place: u64,
    words: &str,
) -> Result<(), AllocError>
    ensures tokens { OnOk result (json.new.tokens
        ≡ json.old.tokens ++ refusal_members counted place words.now) }
    ensures before { json.new.before ≡ json.old.before }
{
    json.key(counted_word(counted))?;
    json.u64(place)?;
    json.key("refused")?;
    json.string(words)
}

/// Writes a refusal as an object.
fn put_refusal(
    json: &mut Writer,
    counted: Counted,
    place: u64,
    words: &str,
) -> Result<(), AllocError>
    ensures tokens { OnOk result (json.new.tokens
        ≡ json.old.tokens ++ refusal_tokens counted place words.now) }
    ensures before { json.new.before ≡ json.old.before }
{
    json.begin_object()?;
    put_refusal_members(json, counted, place, words)?;
    json.end_object()
}

/// Adds an object that was written, and the end of the line.
fn push_line(text: &mut String, json: Writer) -> Result<(), AllocError>
    requires { json.before ≡ [] }
    ensures { OnOk result (string_bytes text.new ≡ string_bytes text.old ++ json_text json.tokens) }
{
    let line = String::from_utf8(json.into_inner()).unwrap();
    text.push_str(line.as_str())?;
    text.push_str("\n")
}

/// Adds an event of a device with this layout as a line of JSON.
///
/// # Errors
/// [`AllocError`] if memory runs out for the line.
pub fn print_json(
    text: &mut String,
    source: &Source<'_>,
    layout: &Layout,
    event: &Event,
) -> Result<(), AllocError>
    ensures { OnOk result (string_bytes text.new ≡ string_bytes text.old ++ json_text
        (event_tokens source.now.time.now source.now.device source.now.options.names layout.now event.now)) }
{
    let mut json = Writer::new(Vec::new(source.alloc));
    match put_event(&mut json, source, layout, event) {
        Ok(()) => push_line(text, json),
        Err(error) => Err(error),
    }
}

/// Adds a refusal as a line of JSON.
///
/// # Errors
/// [`AllocError`] if memory runs out for the line.
pub fn print_refusal_json(
    text: &mut String,
    alloc: Global,
    counted: Counted,
    place: u64,
    refusal: Refusal,
) -> Result<(), AllocError>
    ensures { OnOk result (string_bytes text.new ≡ string_bytes text.old
        ++ json_text (refusal_tokens counted place (refusal_text refusal))) }
{
    let words = format!(in alloc; "{refusal}")?;
    let mut json = Writer::new(Vec::new(alloc));
    match put_refusal(&mut json, counted, place, words.as_str()) {
        Ok(()) => push_line(text, json),
        Err(error) => Err(error),
    }
}
