//! Changes of snapshots, what reports show of them, and when these are due, as steps with `;` between them:
//!
//! - `press C`, `release C`, `set C V`, `null C`, `move C BY` change a control, and print a refusal;
//! - `show R` and `still R` set the part of a report, or its still part, and print its bytes; `fix R` prints nothing;
//! - `take R` sets the part, and takes its motion out of the snapshot; `reset` makes all parts blank again;
//! - `due R`, `motion C`, `keys I`, `input R` and `codes` print the state.

ghost use Rattle.std.specs.Prelude.{◌≤◌, IfOk};
ghost use Rattle.std.specs.Bool.{OnTrue};
ghost use Rattle.hid_report_descriptor.specs.declared.limits.TheConstants.{MAX_REPORT_BYTES};
ghost use Rattle.hid_layout.specs.Controls.{items_of};
ghost use Rattle.hid_layout.specs.Reports.{report_bytes};
ghost use Rattle.hid_snapshots.specs.ControlStates.{FitsSnapshot, FitsShown};

use crate::words::control_of;
use arrayvec::ArrayVec;
use hid_fields::{BitCodec, FieldCodec, WordCodec};
use hid_layout::{Layout, MAX_REPORT_BYTES};
use hid_snapshots::{
    Change, ChangeFault, Shown, Snapshot, encode_report, has_empty_codes, has_keys, has_zeros,
    is_input,
};
use std::alloc::Global;
use test_rows::{
    RowFault, number_of, print, print_bytes, print_debug, print_number, print_shown, print_whether,
    signed_of, split,
};

/// A blank snapshot.
pub fn blank_snapshot(alloc: Global, layout: &Layout) -> Result<Snapshot, RowFault>
    ensures { IfOk result (λ snapshot. FitsSnapshot (items_of layout.now) snapshot) }
{
    match Snapshot::blank(alloc, layout) {
        Ok(snapshot) => Ok(snapshot),
        Err(_) => Err(RowFault::Memory),
    }
}

/// The parts of a blank snapshot.
pub fn blank_parts(alloc: Global, layout: &Layout) -> Result<Shown, RowFault>
    ensures { IfOk result (λ parts. FitsShown (items_of layout.now) parts) }
{
    match Shown::blank(alloc, layout) {
        Ok(parts) => Ok(parts),
        Err(_) => Err(RowFault::Memory),
    }
}

/// The change that words name.
fn change_of(verb: &str, words: &str) -> Result<Change, RowFault> {
    let (control, amount) = split(words, ' ');
    let control = control_of(control)?;
    Ok(match verb {
        "press" => Change::Press(control),
        "release" => Change::Release(control),
        "null" => Change::Null(control),
        "set" => Change::Set(control, signed_of(amount)?),
        _ => Change::Move(control, amount.parse()?),
    })
}

fn make(snapshot: &mut Snapshot, layout: &Layout, change: &Change) -> Result<(), ChangeFault>
    requires { FitsSnapshot (items_of layout.now) snapshot.old }
    ensures { FitsSnapshot (items_of layout.now) snapshot.new }
{
    match change {
        Change::Press(control) => snapshot.press(layout, *control),
        Change::Release(control) => snapshot.release(layout, *control),
        Change::Set(control, value) => snapshot.set(layout, *control, *value),
        Change::Null(control) => snapshot.set_null(layout, *control),
        Change::Move(control, by) => snapshot.shift(layout, *control, *by),
    }
}

/// Changes a control, and appends a refusal.
pub fn change(
    printed: &mut String,
    layout: &Layout,
    snapshot: &mut Snapshot,
    change: &Change,
) -> Result<(), RowFault>
    requires { FitsSnapshot (items_of layout.now) snapshot.old }
    ensures { FitsSnapshot (items_of layout.now) snapshot.new }
{
    match make(snapshot, layout, change) {
        Ok(()) => Ok(()),
        Err(fault) => print_shown(printed, &fault),
    }
}

/// Sets the part of a report, or its still part; false where it has none.
pub fn fix(
    layout: &Layout,
    snapshot: &Snapshot,
    parts: &mut Shown,
    report: usize,
    still: bool,
) -> bool
    requires snapshot { FitsSnapshot (items_of layout.now) snapshot.now }
    requires parts { FitsShown (items_of layout.now) parts.old }
    ensures { FitsShown (items_of layout.now) parts.new }
{
    if !is_input(layout, report) || !has_zeros(layout) {
        return false;
    }
    if still {
        snapshot.still(layout, report, parts);
    } else {
        snapshot.shown(layout, report, parts);
    }
    true
}

/// Whether a report has at most the bytes of one of a virtual device.
fn is_short(layout: &Layout, report: usize) -> bool
    ensures { OnTrue result (report_bytes layout.now report ≤ MAX_REPORT_BYTES) }
{
    report < layout.reports().len() && layout.report_bytes(report) <= MAX_REPORT_BYTES as usize
}

/// The bytes of a report's part; none where it has none.
fn encoded<F: FieldCodec>(layout: &Layout, parts: &Shown, report: usize) -> ArrayVec<u8, 256>
    requires { FitsShown (items_of layout.now) parts.now }
{
    let fits = is_input(layout, report) && is_short(layout, report);
    if fits && has_zeros(layout) && has_empty_codes(layout) {
        encode_report::<F>(layout, report, parts)
    } else {
        ArrayVec::new()
    }
}

/// The bytes of a report's part, by both codecs.
fn print_part(
    printed: &mut String,
    layout: &Layout,
    parts: &Shown,
    report: usize,
) -> Result<(), RowFault>
    requires { FitsShown (items_of layout.now) parts.now }
{
    let by_words = encoded::<WordCodec>(layout, parts, report);
    let by_bits = encoded::<BitCodec>(layout, parts, report);
    if by_words == by_bits {
        print_bytes(printed, &by_words)
    } else {
        print(printed, "codecs differ")
    }
}

/// Sets a part, and appends its bytes unless it is only fixed.
fn show(
    printed: &mut String,
    layout: &Layout,
    snapshot: &Snapshot,
    parts: &mut Shown,
    verb: &str,
    report: usize,
) -> Result<(), RowFault>
    requires snapshot { FitsSnapshot (items_of layout.now) snapshot.now }
    requires parts { FitsShown (items_of layout.now) parts.old }
    ensures { FitsShown (items_of layout.now) parts.new }
{
    if !fix(layout, snapshot, parts, report, verb == "still") {
        return print(printed, "no report");
    }
    if verb == "fix" {
        Ok(())
    } else {
        print_part(printed, layout, parts, report)
    }
}

/// Sets a part, and takes its motion out of the snapshot.
fn take(
    printed: &mut String,
    layout: &Layout,
    snapshot: &mut Snapshot,
    parts: &mut Shown,
    report: usize,
) -> Result<(), RowFault>
    requires snapshot { FitsSnapshot (items_of layout.now) snapshot.old }
    requires parts { FitsShown (items_of layout.now) parts.old }
    ensures snapshot { FitsSnapshot (items_of layout.now) snapshot.new }
    ensures parts { FitsShown (items_of layout.now) parts.new }
{
    if !is_input(layout, report) || !has_zeros(layout) {
        return print(printed, "no report");
    }
    snapshot.shown(layout, report, parts);
    snapshot.take_motion(layout, report, parts);
    Ok(())
}

fn print_due(
    printed: &mut String,
    layout: &Layout,
    snapshot: &Snapshot,
    parts: &Shown,
    report: usize,
) -> Result<(), RowFault>
    requires snapshot { FitsSnapshot (items_of layout.now) snapshot.now }
    requires parts { FitsShown (items_of layout.now) parts.now }
{
    if !is_input(layout, report) {
        return print(printed, "no report");
    }
    print_whether(
        printed,
        snapshot.due(layout, report, parts),
        "due",
        "not due",
    )
}

/// The pressed keys of an array, as words.
fn print_keys(
    printed: &mut String,
    layout: &Layout,
    snapshot: &Snapshot,
    item: usize,
) -> Result<(), RowFault>
    requires { FitsSnapshot (items_of layout.now) snapshot.now }
{
    if !has_keys(layout, item) {
        return print(printed, "no array");
    }
    print_debug(printed, &snapshot.key_words(layout, item))
}

/// Appends the state that the words ask for.
fn print_state(
    printed: &mut String,
    layout: &Layout,
    snapshot: &Snapshot,
    parts: &Shown,
    step: &str,
) -> Result<(), RowFault>
    requires snapshot { FitsSnapshot (items_of layout.now) snapshot.now }
    requires parts { FitsShown (items_of layout.now) parts.now }
{
    let (verb, word) = split(step, ' ');
    match verb {
        "due" => print_due(printed, layout, snapshot, parts, number_of(word)?),
        "motion" => print_number(printed, Some(parts.motion(control_of(word)?))),
        "keys" => print_keys(printed, layout, snapshot, number_of(word)?),
        "input" => print_whether(printed, is_input(layout, number_of(word)?), "input", "none"),
        "codes" => print_whether(printed, has_empty_codes(layout), "codes", "no code"),
        _ => Err(RowFault::Unread),
    }
}

fn play_step(
    printed: &mut String,
    layout: &Layout,
    snapshot: &mut Snapshot,
    parts: &mut Shown,
    step: &str,
) -> Result<(), RowFault>
    requires snapshot { FitsSnapshot (items_of layout.now) snapshot.old }
    requires parts { FitsShown (items_of layout.now) parts.old }
    ensures snapshot { FitsSnapshot (items_of layout.now) snapshot.new }
    ensures parts { FitsShown (items_of layout.now) parts.new }
{
    let (verb, words) = split(step, ' ');
    match verb {
        "press" | "release" | "set" | "null" | "move" => {
            change(printed, layout, snapshot, &change_of(verb, words)?)
        }
        "show" | "still" | "fix" => {
            show(printed, layout, snapshot, parts, verb, number_of(words)?)
        }
        "take" => take(printed, layout, snapshot, parts, number_of(words)?),
        "reset" => {
            parts.reset(layout);
            Ok(())
        }
        _ => print_state(printed, layout, snapshot, parts, step),
    }
}

fn play(
    printed: &mut String,
    layout: &Layout,
    snapshot: &mut Snapshot,
    parts: &mut Shown,
    steps: &str,
) -> Result<(), RowFault>
    requires snapshot { FitsSnapshot (items_of layout.now) snapshot.old }
    requires parts { FitsShown (items_of layout.now) parts.old }
{
    for step in steps.split(';') {
        play_step(printed, layout, snapshot, parts, step.trim())?;
    }
    Ok(())
}

/// Appends the results of the steps, from a blank snapshot and blank parts on.
pub fn print_snapshot(
    printed: &mut String,
    alloc: Global,
    layout: &Layout,
    steps: &str,
) -> Result<(), RowFault> {
    let mut snapshot = blank_snapshot(alloc, layout)?;
    let mut parts = blank_parts(alloc, layout)?;
    play(printed, layout, &mut snapshot, &mut parts, steps)
}
