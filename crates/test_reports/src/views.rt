//! Reports of any bytes in a view, as steps with `;` between them: `take HEX` prints the events of a report, or its refusal,
//! `bits HEX` too, bit by bit, and `feed HEX` a refusal alone; `held C`, `value C` and `keys I` print the view.

ghost use Rattle.std.specs.Prelude.{◌≤◌, ◌+◌, IfOk, vec_len, vec_capacity};
ghost use Rattle.hid_layout.specs.Controls.{items_of, max_events};
ghost use Rattle.hid_snapshots.specs.ControlStates.{FitsSnapshot, FitsShown, FitsView};

use crate::events::print_events;
use crate::snapshots::{blank_parts, blank_snapshot, change, fix};
use crate::words::control_of;
use hid_fields::{BitCodec, WordCodec};
use hid_layout::Layout;
use hid_usages::{
    Change, Event, ReportFault, Shown, Snapshot, View, bytes_awaited, changes, changes_and_drops,
    has_keys, input_report, is_input,
};
use std::alloc::Global;
use test_rows::{
    RowFault, Table, bytes_of, number_of, print, print_debug, print_number, print_shown,
    print_whether, split,
};

fn initial_view(alloc: Global, layout: &Layout) -> Result<View, RowFault>
    ensures { IfOk result (λ view. FitsView (items_of layout.now) view) }
{
    match View::initial(alloc, layout) {
        Ok(view) => Ok(view),
        Err(_) => Err(RowFault::Memory),
    }
}

/// Room for the events of a report.
fn room_of(alloc: Global, layout: &Layout) -> Result<Vec<Event>, RowFault>
    ensures { IfOk result (λ events. vec_len events + max_events (items_of layout.now)
        ≤ vec_capacity events) }
{
    Ok(Vec::with_capacity(alloc, layout.max_events())?)
}

/// Takes a report, by words or bit by bit.
fn take(
    layout: &Layout,
    view: &mut View,
    report: &[u8],
    by_words: bool,
    events: &mut Vec<Event>,
) -> Result<(), ReportFault>
    requires view { FitsView (items_of layout.now) view.old }
    requires room { vec_len events.old + max_events (items_of layout.now) ≤ vec_capacity events.old }
    ensures { FitsView (items_of layout.now) view.new }
{
    if by_words {
        view.take_report::<WordCodec>(layout, report, events)
    } else {
        view.take_report::<BitCodec>(layout, report, events)
    }
}

/// Appends the events of a report or its refusal, if they are asked for.
fn print_taken(
    printed: &mut String,
    taken: Result<(), ReportFault>,
    verb: &str,
    events: &[Event],
) -> Result<(), RowFault> {
    match taken {
        Ok(()) if verb == "feed" => Ok(()),
        Ok(()) => print_events(printed, events),
        Err(fault) => print_shown(printed, &fault),
    }
}

fn take_bytes(
    printed: &mut String,
    alloc: Global,
    layout: &Layout,
    view: &mut View,
    verb: &str,
    report: &[u8],
) -> Result<(), RowFault>
    requires { FitsView (items_of layout.now) view.old }
    ensures { FitsView (items_of layout.now) view.new }
{
    let mut events = room_of(alloc, layout)?;
    let taken = take(layout, view, report, verb != "bits", &mut events);
    print_taken(printed, taken, verb, &events)
}

fn take_words(
    printed: &mut String,
    table: &Table<'_>,
    layout: &Layout,
    view: &mut View,
    verb: &str,
    words: &str,
) -> Result<(), RowFault>
    requires { FitsView (items_of layout.now) view.old }
    ensures { FitsView (items_of layout.now) view.new }
{
    let report = bytes_of(table, words)?;
    take_bytes(printed, table.alloc, layout, view, verb, &report)
}

/// The held keys of an array, as words.
fn print_keys(
    printed: &mut String,
    layout: &Layout,
    view: &View,
    item: usize,
) -> Result<(), RowFault>
    requires { FitsView (items_of layout.now) view.now }
{
    if !has_keys(layout, item) {
        return print(printed, "no array");
    }
    print_debug(printed, &view.key_words(layout, item))
}

fn play_step(
    printed: &mut String,
    table: &Table<'_>,
    layout: &Layout,
    view: &mut View,
    step: &str,
) -> Result<(), RowFault>
    requires { FitsView (items_of layout.now) view.old }
    ensures { FitsView (items_of layout.now) view.new }
{
    let (verb, words) = split(step, ' ');
    match verb {
        "take" | "bits" | "feed" => take_words(printed, table, layout, view, verb, words),
        "held" => print_whether(printed, view.held(control_of(words)?), "held", "not held"),
        "value" => print_number(printed, view.value(control_of(words)?)),
        "keys" => print_keys(printed, layout, view, number_of(words)?),
        _ => Err(RowFault::Unread),
    }
}

fn play(
    printed: &mut String,
    table: &Table<'_>,
    layout: &Layout,
    view: &mut View,
    steps: &str,
) -> Result<(), RowFault>
    requires { FitsView (items_of layout.now) view.old }
    ensures { FitsView (items_of layout.now) view.new }
{
    for step in steps.split(';') {
        play_step(printed, table, layout, view, step.trim())?;
    }
    Ok(())
}

/// Appends the results of the steps, from the initial view on.
pub fn print_view(
    printed: &mut String,
    table: &Table<'_>,
    layout: &Layout,
    steps: &str,
) -> Result<(), RowFault> {
    let mut view = initial_view(table.alloc, layout)?;
    play(printed, table, layout, &mut view, steps)
}

fn print_changes(
    printed: &mut String,
    alloc: Global,
    layout: &Layout,
    old: &View,
    new: &View,
) -> Result<(), RowFault>
    requires old { FitsView (items_of layout.now) old.now }
    requires new { FitsView (items_of layout.now) new.now }
{
    let mut events = room_of(alloc, layout)?;
    changes(layout, old, new, &mut events);
    print_events(printed, &events)
}

fn play_between(
    printed: &mut String,
    table: &Table<'_>,
    layout: &Layout,
    old: &mut View,
    new: &mut View,
    words: &str,
) -> Result<(), RowFault>
    requires old { FitsView (items_of layout.now) old.old }
    requires new { FitsView (items_of layout.now) new.old }
{
    let (before, after) = split(words, ';');
    take_words(printed, table, layout, old, "feed", before)?;
    take_words(printed, table, layout, new, "feed", after)?;
    print_changes(printed, table.alloc, layout, old, new)
}

/// The events that lead from the view of one report to that of another, `HEX; HEX`.
pub fn print_between(
    printed: &mut String,
    table: &Table<'_>,
    layout: &Layout,
    words: &str,
) -> Result<(), RowFault> {
    let mut old = initial_view(table.alloc, layout)?;
    let mut new = initial_view(table.alloc, layout)?;
    play_between(printed, table, layout, &mut old, &mut new, words)
}

fn print_drops(
    printed: &mut String,
    alloc: Global,
    layout: &Layout,
    view: &View,
    initial: &View,
    parts: &Shown,
    report: usize,
) -> Result<(), RowFault>
    requires view { FitsView (items_of layout.now) view.now }
    requires initial { FitsView (items_of layout.now) initial.now }
    requires parts { FitsShown (items_of layout.now) parts.now }
{
    if !is_input(layout, report) {
        return print(printed, "no report");
    }
    let mut events = room_of(alloc, layout)?;
    changes_and_drops(layout, view, initial, report, parts, &mut events);
    print_events(printed, &events)
}

/// Takes a report, and appends the events that lead back from there to the initial view.
fn forget(
    printed: &mut String,
    table: &Table<'_>,
    layout: &Layout,
    parts: &Shown,
    bytes: &str,
    report: usize,
) -> Result<(), RowFault>
    requires { FitsShown (items_of layout.now) parts.now }
{
    let mut view = initial_view(table.alloc, layout)?;
    let initial = initial_view(table.alloc, layout)?;
    take_words(printed, table, layout, &mut view, "feed", bytes)?;
    print_drops(printed, table.alloc, layout, &view, &initial, parts, report)
}

/// Moves a control, and fixes the part of a report.
fn move_and_fix(
    printed: &mut String,
    layout: &Layout,
    snapshot: &mut Snapshot,
    parts: &mut Shown,
    moved: &str,
    report: usize,
) -> Result<(), RowFault>
    requires snapshot { FitsSnapshot (items_of layout.now) snapshot.old }
    requires parts { FitsShown (items_of layout.now) parts.old }
    ensures { FitsShown (items_of layout.now) parts.new }
{
    let (control, by) = split(moved, ' ');
    let moved = Change::Move(control_of(control)?, by.parse()?);
    change(printed, layout, snapshot, &moved)?;
    print_whether(
        printed,
        fix(layout, snapshot, parts, report, false),
        "shown",
        "no report",
    )
}

/// What leads from the view of a report back to the initial one, where a motion was made since then, a report shows it and one
/// is dropped, `HEX; C BY; R; R`.
pub fn print_forgotten(
    printed: &mut String,
    table: &Table<'_>,
    layout: &Layout,
    words: &str,
) -> Result<(), RowFault> {
    let (bytes, words) = split(words, ';');
    let (moved, words) = split(words, ';');
    let (shows, drops) = split(words, ';');
    let (shows, drops) = (number_of(shows)?, number_of(drops)?);
    let mut snapshot = blank_snapshot(table.alloc, layout)?;
    let mut parts = blank_parts(table.alloc, layout)?;
    move_and_fix(printed, layout, &mut snapshot, &mut parts, moved, shows)?;
    forget(printed, table, layout, &parts, bytes, drops)
}

fn print_report(printed: &mut String, layout: &Layout, bytes: &[u8]) -> Result<(), RowFault> {
    match input_report(layout, bytes) {
        Ok(report) => print_shown(printed, &report),
        Err(fault) => print_shown(printed, &fault),
    }
}

/// The number of the Input report that these bytes are.
pub fn print_named(
    printed: &mut String,
    table: &Table<'_>,
    layout: &Layout,
    words: &str,
) -> Result<(), RowFault> {
    let bytes = bytes_of(table, words)?;
    print_report(printed, layout, &bytes)
}

/// How many bytes the Input report has that begins with these.
pub fn print_awaited(
    printed: &mut String,
    table: &Table<'_>,
    layout: &Layout,
    words: &str,
) -> Result<(), RowFault> {
    let bytes = bytes_of(table, words)?;
    print_shown(printed, &bytes_awaited(layout, &bytes))
}
