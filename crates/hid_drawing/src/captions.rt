//! What is said of fields, collections and reports, in words.

ghost use Rattle.std.specs.Prelude.{◌≡◌, ◌++◌, ◌*◌, ◌<◌, ◌≤◌, [], if◌then◌else◌, length, Some, OnOk, string_bytes};
ghost use Rattle.std.specs.List.{flat_map};
ghost use Rattle.hid_report_descriptor.specs.declared.limits.TheConstants.{MAX_ENTRIES, MAX_REAL_REPORT_BYTES};
ghost use Rattle.hid_drawing.specs.Words.{flag_words, bit_7_words, flags_text, is_input_report, is_input_item, kind_name, report_title, count_text, collection_name, purpose_text, collection_words, entry_text, choice_from, choice_text, field_usage, usage_words, padding_name, name_in, part_name, share_text, piece_name, range_words, details_in, part_details, part_flags, bit_text, place_text};

use crate::label::UsageLabel;
use crate::lookups::{item_at, report_at};
use crate::pieces::{BitSource, ByteSlice};
use hid_layout::{
    Collection, Layout, MAX_WIDTH, MainFlags, MainItem, Report, ReportKind, Shape, Usage,
    usage_count,
};
use std::alloc::AllocError;

/// A flag with what it says where it is 0, and where it is 1 (HID 1.11, 6.2.2.5).
#[rattlefmt::skip]
pub static FLAG_WORDS: [(u16, &str, &str); 7] = [
    (0x001, "data", "constant"),
    (0x002, ", array", ", variable"),
    (0x004, ", absolute", ", relative"),
    (0x008, "", ", wrap"),
    (0x010, "", ", nonlinear"),
    (0x020, "", ", no preferred"),
    (0x040, "", ", null state"),
];

/// Adds what a flag says.
fn print_flag(
    text: &mut String,
    flags: u16,
    flag: u16,
    clear: &str,
    set: &str,
) -> Result<(), AllocError>
    ensures { OnOk result (string_bytes text.new
        ≡ string_bytes text.old ++ flag_words flags flag clear.now set.now) }
{
    if flags & flag == 0 {
        text.push_str(clear)
    } else {
        text.push_str(set)
    }
}

/// Adds what the flags of these rows say.
fn print_rows(
    text: &mut String,
    flags: u16,
    rows: &[(u16, &'static str, &'static str)],
) -> Result<(), AllocError>
    ensures { OnOk result (string_bytes text.new
        ≡ string_bytes text.old
        ++ flat_map (λ row. flag_words flags row.0 row.1.now row.2.now) rows.now) }
{
    for row in rows {
        print_flag(text, flags, row.0, row.1, row.2)?;
    }
    Ok(())
}

/// What bit 7 says where it is 1.
fn bit_7_words(input: bool) -> &'static str
    ensures { result.now ≡ bit_7_words input }
{
    if input { ", reserved" } else { ", volatile" }
}

/// Adds what the flags of an Input item say, or of an Output or Feature item.
///
/// # Errors
/// Out of memory; part of the text may be added then.
#[tactic(auto, unfolding(crate::specs::Words::flags_text))]
pub fn print_flags(text: &mut String, input: bool, flags: MainFlags) -> Result<(), AllocError>
    ensures { OnOk result (string_bytes text.new
        ≡ string_bytes text.old ++ flags_text input flags.0) }
{
    print_rows(text, flags.0, &FLAG_WORDS)?;
    print_flag(text, flags.0, 0x080, "", bit_7_words(input))?;
    print_flag(text, flags.0, 0x100, "", ", buffered bytes")
}

/// Whether it is the kind of Input reports.
fn is_input(kind: ReportKind) -> bool
    ensures { result ≡ is_input_report kind }
{
    match kind {
        ReportKind::Input => true,
        ReportKind::Output | ReportKind::Feature => false,
    }
}

/// Whether an item stands in an Input report.
pub fn is_input_item(layout: &Layout, item: &MainItem) -> bool
    ensures { result ≡ is_input_item layout.now item.now }
{
    match layout.reports().get(item.report) {
        None => false,
        Some(report) => is_input(report.kind),
    }
}

/// The name of a kind of reports.
fn kind_name(kind: ReportKind) -> &'static str
    ensures { result.now ≡ kind_name kind }
{
    match kind {
        ReportKind::Input => "Input",
        ReportKind::Output => "Output",
        ReportKind::Feature => "Feature",
    }
}

/// Adds `Input report 1`, or `Input report` where reports have no IDs.
///
/// # Errors
/// Out of memory; part of the text may be added then.
#[tactic(auto, unfolding(crate::specs::Words::report_title))]
pub fn print_report_name(
    text: &mut String,
    numbered: bool,
    report: &Report,
) -> Result<(), AllocError>
    ensures { OnOk result (string_bytes text.new
        ≡ string_bytes text.old ++ report_title numbered report.now) }
{
    let kind = kind_name(report.kind);
    write!(text, "{kind} report")?;
    if !numbered {
        return Ok(());
    }
    let id = report.id;
    write!(text, " {id}")
}

/// Adds a number of things: `3 bytes`.
///
/// # Errors
/// Out of memory; part of the text may be added then.
#[tactic(auto, unfolding(crate::specs::Words::count_text))]
pub fn print_count(text: &mut String, count: u64, thing: &str) -> Result<(), AllocError>
    ensures { OnOk result (string_bytes text.new
        ≡ string_bytes text.old ++ count_text count thing.now) }
{
    write!(text, "{count} {thing}")?;
    if count == 1 {
        return Ok(());
    }
    text.push_str("s")
}

/// The name of a collection's kind (HID 1.11, 6.2.2.6).
pub fn collection_name(kind: u8) -> &'static str
    ensures { result.now ≡ collection_name kind }
{
    match kind {
        0 => "Physical",
        1 => "Application",
        2 => "Logical",
        3 => "Report",
        4 => "Named Array",
        5 => "Usage Switch",
        6 => "Usage Modifier",
        7..=127 => "Reserved",
        _ => "Vendor-defined",
    }
}

/// Adds what a collection is for.
fn print_purpose(text: &mut String, usage: Option<Usage>) -> Result<(), AllocError>
    ensures { OnOk result (string_bytes text.new ≡ string_bytes text.old ++ purpose_text usage) }
{
    match usage {
        None => Ok(()),
        Some(usage) => {
            let label = UsageLabel(usage);
            write!(text, "{label} ")
        }
    }
}

/// Adds a collection: `Mouse (Application)`.
///
/// # Errors
/// Out of memory; part of the text may be added then.
#[tactic(auto, unfolding(crate::specs::Words::collection_words))]
pub fn print_collection(text: &mut String, collection: &Collection) -> Result<(), AllocError>
    ensures { OnOk result (string_bytes text.new
        ≡ string_bytes text.old ++ collection_words collection.now) }
{
    print_purpose(text, collection.usage)?;
    let name = collection_name(collection.kind);
    write!(text, "({name})")
}

/// Adds a range of usages: `Button 1 to Button 3`.
///
/// # Errors
/// Out of memory; part of the text may be added then.
#[tactic(auto, unfolding(crate::specs::Words::entry_text))]
pub fn print_entry(text: &mut String, low: Usage, high: Usage) -> Result<(), AllocError>
    ensures { OnOk result (string_bytes text.new
        ≡ string_bytes text.old ++ entry_text (low, high)) }
{
    let first = UsageLabel(low);
    if low.page == high.page && low.id == high.id {
        return write!(text, "{first}");
    }
    let last = UsageLabel(high);
    write!(text, "{first} to {last}")
}

/// Adds what lies from the first usage of a range to the last one of the ranges after it.
fn print_choice_from(
    text: &mut String,
    first: Usage,
    last: Usage,
    more: &[(Usage, Usage)],
) -> Result<(), AllocError>
    ensures { OnOk result (string_bytes text.new
        ≡ string_bytes text.old ++ choice_from first last more.now) }
{
    let mut end = last;
    for entry in more {
        end = entry.1;
    }
    print_entry(text, first, end)
}

/// Adds what the fields of an array choose from.
fn print_choice(text: &mut String, entries: &[(Usage, Usage)]) -> Result<(), AllocError>
    ensures { OnOk result (string_bytes text.new
        ≡ string_bytes text.old ++ choice_text entries.now) }
{
    match entries {
        [] => Ok(()),
        [entry, more @ ..] => print_choice_from(text, entry.0, entry.1, more),
    }
}

/// The usage of a field of a variable item: the last one again where they are fewer.
fn field_usage(layout: &Layout, i: usize, j: usize, entries: &[(Usage, Usage)]) -> Option<Usage>
    requires there { i < length layout.now.items }
    requires few { length entries.now ≤ MAX_ENTRIES }
    ensures { result ≡ field_usage layout.now i j entries.now }
{
    layout.usage(i, j.min(usage_count(entries).saturating_sub(1)))
}

/// Adds the text of a usage; nothing where there is none.
fn print_usage(text: &mut String, usage: Option<Usage>) -> Result<(), AllocError>
    ensures { OnOk result (string_bytes text.new ≡ string_bytes text.old ++ usage_words usage) }
{
    match usage {
        None => Ok(()),
        Some(usage) => {
            let label = UsageLabel(usage);
            write!(text, "{label}")
        }
    }
}

/// Adds what fields without controls are called.
///
/// # Errors
/// Out of memory; part of the text may be added then.
#[tactic(auto, unfolding(crate::specs::Words::padding_name))]
pub fn print_padding_name(text: &mut String, main: &MainItem) -> Result<(), AllocError>
    ensures { OnOk result (string_bytes text.new ≡ string_bytes text.old ++ padding_name main.now) }
{
    if main.size > MAX_WIDTH && !main.flags.is_constant() {
        text.push_str("too wide to be a number")
    } else {
        text.push_str("padding")
    }
}

/// Adds what a field is called.
fn print_field_name(
    text: &mut String,
    layout: &Layout,
    i: usize,
    j: usize,
    main: &MainItem,
    entries: &[(Usage, Usage)],
) -> Result<(), AllocError>
    requires there { i < length layout.now.items }
    requires few { length entries.now ≤ MAX_ENTRIES }
    ensures { OnOk result (string_bytes text.new
        ≡ string_bytes text.old ++ name_in layout.now i j main.now main.now.shape entries.now) }
{
    match main.shape {
        Shape::Padding => print_padding_name(text, main),
        Shape::Variable => print_usage(text, field_usage(layout, i, j, entries)),
        Shape::Array => print_choice(text, entries),
    }
}

/// Adds what a part of a report is called.
fn print_part_name(text: &mut String, layout: &Layout, part: BitSource) -> Result<(), AllocError>
    ensures { OnOk result (string_bytes text.new
        ≡ string_bytes text.old ++ part_name layout.now part) }
{
    match part {
        BitSource::ReportId => text.push_str("Report ID"),
        BitSource::FinalPadding => text.push_str("unused"),
        BitSource::Field { item, element } => {
            if item >= layout.items().len() {
                return Ok(());
            }
            let main = item_at(layout, item);
            print_field_name(text, layout, item, element, main, layout.entries(item))
        }
    }
}

/// Adds which bits of its field a piece has, where it hasn't all of them.
fn print_share(text: &mut String, piece: &ByteSlice) -> Result<(), AllocError>
    ensures { OnOk result (string_bytes text.new ≡ string_bytes text.old ++ share_text piece.now) }
{
    let bits = piece.high.saturating_sub(piece.low);
    if bits == piece.width {
        return Ok(());
    }
    let first = piece.front;
    let last = (u64::from(first) + u64::from(bits)).saturating_sub(1);
    write!(text, ", bits {first} to {last}")
}

/// Adds what a piece is called.
#[tactic(auto, unfolding(crate::specs::Words::piece_name))]
pub(crate) fn print_piece_name(
    text: &mut String,
    layout: &Layout,
    piece: &ByteSlice,
) -> Result<(), AllocError>
    ensures { OnOk result (string_bytes text.new
        ≡ string_bytes text.old ++ piece_name layout.now piece.now) }
{
    print_part_name(text, layout, piece.part)?;
    print_share(text, piece)
}

/// Adds words where they hold.
fn print_where(text: &mut String, holds: bool, words: &str) -> Result<(), AllocError>
    ensures { OnOk result (string_bytes text.new
        ≡ string_bytes text.old ++ (if holds then words.now else [])) }
{
    if holds { text.push_str(words) } else { Ok(()) }
}

/// Adds a range, and what sets its numbers apart: `-127..127 relative`.
fn print_range(text: &mut String, item: &MainItem) -> Result<(), AllocError>
    ensures { OnOk result (string_bytes text.new ≡ string_bytes text.old ++ range_words item.now) }
{
    let MainItem { min, max, .. } = *item;
    write!(text, "{min}..{max}")?;
    print_where(text, item.flags.is_relative(), " relative")?;
    print_where(text, item.flags.has_null_state(), " null")
}

/// Adds what is said of an item's fields.
fn print_details(text: &mut String, item: &MainItem) -> Result<(), AllocError>
    requires { item.now.size * item.now.count ≤ 8 * MAX_REAL_REPORT_BYTES }
    ensures { OnOk result (string_bytes text.new
        ≡ string_bytes text.old ++ details_in item.now.shape item.now) }
{
    match item.shape {
        Shape::Padding => print_count(text, u64::from(item.size * item.count), "bit"),
        Shape::Variable | Shape::Array => print_range(text, item),
    }
}

/// Adds what is said of a part of the report r.
#[tactic(auto, unfolding(crate::specs::Words::part_details))]
pub(crate) fn print_part_details(
    text: &mut String,
    layout: &Layout,
    r: usize,
    part: BitSource,
) -> Result<(), AllocError>
    requires { r < length layout.now.reports }
    ensures { OnOk result (string_bytes text.new
        ≡ string_bytes text.old ++ part_details layout.now r part) }
{
    match part {
        BitSource::ReportId => {
            let id = report_at(layout, r).id;
            write!(text, "{id}")
        }
        BitSource::FinalPadding => Ok(()),
        BitSource::Field { item, .. } => {
            if item >= layout.items().len() {
                return Ok(());
            }
            print_details(text, item_at(layout, item))
        }
    }
}

/// Adds the flags of a part.
#[tactic(auto, unfolding(crate::specs::Words::part_flags))]
pub(crate) fn print_part_flags(
    text: &mut String,
    layout: &Layout,
    part: BitSource,
) -> Result<(), AllocError>
    ensures { OnOk result (string_bytes text.new
        ≡ string_bytes text.old ++ part_flags layout.now part) }
{
    match part {
        BitSource::ReportId | BitSource::FinalPadding => Ok(()),
        BitSource::Field { item, .. } => {
            if item >= layout.items().len() {
                return Ok(());
            }
            let main = item_at(layout, item);
            print_flags(text, is_input_item(layout, main), main.flags)
        }
    }
}

/// Adds where a bit stands.
///
/// # Errors
/// Out of memory; part of the text may be added then.
#[tactic(auto, unfolding(crate::specs::Words::bit_text))]
pub fn print_bit(text: &mut String, at: u32) -> Result<(), AllocError>
    ensures { OnOk result (string_bytes text.new ≡ string_bytes text.old ++ bit_text at) }
{
    let byte = at / 8;
    let bit = at % 8;
    write!(text, "byte {byte}, bit {bit}")
}

/// Adds the bits of a byte that a piece has.
#[tactic(auto, unfolding(crate::specs::Words::place_text))]
pub(crate) fn print_place(text: &mut String, piece: &ByteSlice) -> Result<(), AllocError>
    ensures { OnOk result (string_bytes text.new ≡ string_bytes text.old ++ place_text piece.now) }
{
    let ByteSlice {
        byte,
        low,
        high,
        ..
    } = *piece;
    write!(text, "byte {byte}")?;
    if high.saturating_sub(low) == 1 {
        return write!(text, ", bit {low}");
    }
    let last = high.saturating_sub(1);
    write!(text, ", bits {low} to {last}")
}
