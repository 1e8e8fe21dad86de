//! The reports that a host sets, by their kind and ID as numbers (HID 1.11, 5.6 and 7.2.2).

ghost use Rattle.std.specs.Prelude.{◌≡◌};
ghost use Rattle.std.specs.Option.{option_copied};
ghost use Rattle.hidstack_device.specs.Outputs.{kind_with, output_with};

use hid_gadget::Gadget;
use hid_layout::ReportKind;

/// The report kind of a number: 0 Input, 1 Output, 2 Feature; none over 2.
fn kind_with(number: u32) -> Option<ReportKind>
    ensures { result ≡ kind_with number }
{
    match number {
        0 => Some(ReportKind::Input),
        1 => Some(ReportKind::Output),
        2 => Some(ReportKind::Feature),
        _ => None,
    }
}

/// The Output or Feature report of this kind and ID, as a host set it last, its ID first where it has one; at first zeros after
/// the ID. None where there is no such report, and of Input reports.
pub fn output(gadget: &Gadget, kind: u32, id: u8) -> Option<&[u8]>
    ensures { option_copied result ≡ output_with gadget.now kind id }
{
    match kind_with(kind) {
        Some(found) => gadget.outputs(found, id),
        None => None,
    }
}
