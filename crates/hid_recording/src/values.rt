//! The values of a report, as they are printed.

ghost use Rattle.std.specs.Prelude.{◌≡◌, ◌++◌, ◌<◌, ◌≤◌, ◌&&◌, true, is_ok, length, IfSome, OnOk, slice_get, string_bytes};
ghost use Rattle.hid_layout.specs.Reports.{report_bytes};
ghost use Rattle.hid_notation.specs.Text.{concat_below};
ghost use Rattle.hid_usages.specs.Reading.{report_named};
ghost use Rattle.hid_recording.specs.LineOutput.{value_shown, values_shown_at, values_shown, values_output, values_asked};
ghost use Rattle.hid_recording.specs.Pieces.{Flows};

use super::event_line::{Source, print_source};
use super::fault::TextFault;
use super::output::write_long;
use hid_layout::Layout;
use hid_text::{print_element, print_named_element};
use hid_usages::input_report;
use std::alloc::AllocError;
use std::io::Write;

/// Adds the line of the element j of the item i, where it is a data element, with the name of its usage or without.
fn print_value(
    text: &mut String,
    names: bool,
    layout: &Layout,
    bytes: &[u8],
    i: usize,
    j: usize,
) -> Result<(), AllocError>
    requires item { i < length layout.now.items }
    requires whole { IfSome (slice_get layout.now.items i)
        (λ item. report_bytes layout.now item.report ≤ length bytes.now) }
    ensures { OnOk result (string_bytes text.new
        ≡ string_bytes text.old ++ value_shown names layout.now bytes.now i j) }
{
    if names {
        print_named_element(text, layout, bytes, i, j)
    } else {
        print_element(text, layout, bytes, i, j)
    }
}

/// Adds a line for each data element of the first ones of the item i, and writes what is long.
fn print_values<W: Write>(
    text: &mut String,
    writer: &mut W,
    names: bool,
    layout: &Layout,
    bytes: &[u8],
    i: usize,
    count: usize,
) -> Result<(), TextFault>
    requires item { i < length layout.now.items }
    requires whole { IfSome (slice_get layout.now.items i)
        (λ item. report_bytes layout.now item.report ≤ length bytes.now) }
    ensures { Flows (W.contents writer.old) (W.contents writer.new) (string_bytes text.old)
        (concat_below count (value_shown names layout.now bytes.now i)) result (string_bytes text.new) }
{
    for j in 0..count {
        print_value(text, names, layout, bytes, i, j)?;
        write_long(text, writer)?;
    }
    Ok(())
}

/// Adds a line for each data element of the item i, where it stands in the report r, and writes what is long.
fn print_values_at<W: Write>(
    text: &mut String,
    writer: &mut W,
    names: bool,
    layout: &Layout,
    r: usize,
    bytes: &[u8],
    i: usize,
) -> Result<(), TextFault>
    requires item { i < length layout.now.items }
    requires whole { report_bytes layout.now r ≤ length bytes.now }
    ensures { Flows (W.contents writer.old) (W.contents writer.new) (string_bytes text.old)
        (values_shown_at names layout.now r bytes.now i) result (string_bytes text.new) }
{
    let item = &layout.items()[i];
    if item.report == r {
        print_values(text, writer, names, layout, bytes, i, item.count as usize)
    } else {
        Ok(())
    }
}

/// Adds a line for each data element of the report r, in the order of the layout, and writes what is long.
fn print_all_values<W: Write>(
    text: &mut String,
    writer: &mut W,
    names: bool,
    layout: &Layout,
    r: usize,
    bytes: &[u8],
) -> Result<(), TextFault>
    requires { report_bytes layout.now r ≤ length bytes.now }
    ensures { Flows (W.contents writer.old) (W.contents writer.new) (string_bytes text.old)
        (values_shown names layout.now r bytes.now) result (string_bytes text.new) }
{
    for i in 0..layout.items().len() {
        print_values_at(text, writer, names, layout, r, bytes, i)?;
    }
    Ok(())
}

/// Adds the values of a report, where the bytes are one, and writes what is long.
fn print_report<W: Write>(
    text: &mut String,
    writer: &mut W,
    layout: &Layout,
    source: &Source<'_>,
    bytes: &[u8],
) -> Result<(), TextFault>
    ensures { Flows (W.contents writer.old) (W.contents writer.new) (string_bytes text.old)
        (values_output source.now.options source.now.time.now source.now.device layout.now
        (report_named layout.now bytes.now) bytes.now) result (string_bytes text.new) }
{
    match input_report(layout, bytes) {
        Err(_) => Ok(()),
        Ok(report) => {
            print_source(text, source)?;
            text.push_str(" report\n")?;
            print_all_values(text, writer, source.options.names, layout, report, bytes)
        }
    }
}

/// Adds the values of a report, where they are asked for, and writes what is long.
///
/// # Errors
/// R10 if memory runs out for a line, R9 if the writer fails.
pub fn print_asked<W: Write>(
    text: &mut String,
    writer: &mut W,
    layout: &Layout,
    source: &Source<'_>,
    bytes: &[u8],
) -> Result<(), TextFault>
    ensures { Flows (W.contents writer.old) (W.contents writer.new) (string_bytes text.old)
        (values_asked source.now.options source.now.time.now source.now.device layout.now
        (report_named layout.now bytes.now) bytes.now) result (string_bytes text.new) }
{
    if source.options.values {
        print_report(text, writer, layout, source, bytes)
    } else {
        Ok(())
    }
}
