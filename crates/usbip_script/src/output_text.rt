//! The line of a report that a host set.

ghost use Rattle.std.specs.Prelude.{◌≡◌, ◌++◌, OnOk, string_bytes};
ghost use Rattle.usbip_script.specs.OutputText.{after_id, kind_word, output_text};

use hid_layout::ReportKind;
use hid_notation::print_bytes;
use std::alloc::AllocError;
use usbip_serving::SetReport;

/// The word of a kind of report.
fn kind_word(kind: ReportKind) -> &'static str
    ensures { result.now ≡ kind_word kind }
{
    match kind {
        ReportKind::Input => "input",
        ReportKind::Output => "output",
        ReportKind::Feature => "feature",
    }
}

/// The bytes of a report after its ID, which is the first where it has one.
fn after_id(id: u8, bytes: &[u8]) -> &[u8]
    ensures { result.now ≡ after_id id bytes.now }
{
    if id == 0 || bytes.is_empty() {
        bytes
    } else {
        &bytes[1..]
    }
}

/// Adds the line of a report that was set, with these bytes: `1 output 0 02`.
///
/// # Errors
/// Out of memory; part of the line may be added then.
pub fn print_output(text: &mut String, set: &SetReport, bytes: &[u8]) -> Result<(), AllocError>
    ensures { OnOk result (string_bytes text.new ≡ string_bytes text.old ++ output_text set.now bytes.now) }
{
    let SetReport { place, kind, id } = *set;
    let number = place.saturating_add(1);
    let word = kind_word(kind);
    write!(text, "{number} {word} {id}")?;
    print_bytes(text, after_id(id, bytes))?;
    writeln!(text)
}
