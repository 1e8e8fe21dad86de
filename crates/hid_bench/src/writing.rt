//! A device whose report is written.

ghost use Rattle.std.specs.Prelude.{◌≡◌, ◌<◌, true, IfOk};
ghost use Rattle.hid_layout.specs.Controls.{items_of};
ghost use Rattle.hid_snapshots.specs.Parts.{IsInput, has_zeros};
ghost use Rattle.hid_snapshots.specs.Codes.{has_empty_codes};
ghost use Rattle.hid_usages.specs.ControlStates.{FitsSnapshot, FitsShown};

use crate::fault::BenchFault;
use crate::reading::parsed;
use arrayvec::ArrayVec;
use hid_fields::WordCodec;
use hid_layout::{Control, ControlId, ControlKind, Layout, Usage};
use hid_snapshots::write_report;
use hid_usages::{Shown, Snapshot, has_empty_codes, has_zeros, is_input};
use std::alloc::Global;
use std::marker::Model;

/// A device's layout, one of its Input reports, and what that shows of its controls.
#[derive(Drop)]
pub struct Writing {
    layout: Layout,
    report: usize,
    shown: Shown,
}

impl Model for Writing {
    ghost use Rattle.std.specs.Prelude.{◌≡◌, true};
    ghost use Rattle.hid_layout.specs.Controls.{items_of};
    ghost use Rattle.hid_layout.specs.Reports.{IsOfBus};
    ghost use Rattle.hid_usages.specs.ControlStates.{FitsShown};
    ghost use Rattle.hid_snapshots.specs.Parts.{IsInput, has_zeros};
    ghost use Rattle.hid_snapshots.specs.Codes.{has_empty_codes};
    ghost use Rattle.hid_bench.specs.Writing.{Part};

    ghost Value = { Part };

    ghost view = { λ w. record { layout = w.layout; report = w.report; shown = w.shown } };

    ghost invariant = { λ w. IsInput w.layout w.report × FitsShown (items_of w.layout) w.shown
        × (has_empty_codes w.layout ≡ true) × (has_zeros (items_of w.layout) ≡ true)
        × IsOfBus w.layout };
}

/// Presses a switch, moves a relative control by 5, or sets a value to 1.
fn touch(layout: &Layout, snapshot: &mut Snapshot, control: ControlId) -> Result<(), BenchFault>
    requires { FitsSnapshot (items_of layout.now) snapshot.old }
    ensures { FitsSnapshot (items_of layout.now) snapshot.new }
{
    let Some(Control { kind, .. }) = layout.control(control) else {
        return Err(BenchFault::Control);
    };
    let changed = match kind {
        ControlKind::Switch => snapshot.press(layout, control),
        ControlKind::Relative => snapshot.shift(layout, control, 5),
        ControlKind::Value | ControlKind::NullValue => snapshot.set(layout, control, 1),
    };
    match changed {
        Ok(()) => Ok(()),
        Err(_) => Err(BenchFault::Control),
    }
}

/// Presses, moves or sets the controls of these usages.
fn touch_all(layout: &Layout, snapshot: &mut Snapshot, usages: &[Vec<u8>]) -> Result<(), BenchFault>
    requires { FitsSnapshot (items_of layout.now) snapshot.old }
    ensures { FitsSnapshot (items_of layout.now) snapshot.new }
{
    for usage in usages {
        touch(layout, snapshot, control_of(layout, usage)?)?;
    }
    Ok(())
}

/// The usage of four bytes: its page, and its ID.
fn usage_of(bytes: &[u8]) -> Option<Usage> {
    match *bytes {
        [a, b, c, d] => Some(Usage {
            page: u16::from_be_bytes([a, b]),
            id: u16::from_be_bytes([c, d]),
        }),
        _ => None,
    }
}

/// The control that a word of the command line names by its usage.
///
/// # Errors
/// [`BenchFault::Usage`] where the word isn't four bytes, and [`BenchFault::Control`] where no control has the usage.
pub fn control_of(layout: &Layout, word: &[u8]) -> Result<ControlId, BenchFault> {
    let Some(usage) = usage_of(word) else {
        return Err(BenchFault::Usage);
    };
    layout.find(usage).ok_or(BenchFault::Control)
}

impl Writing {
    ghost use Rattle.hid_snapshots.specs.PartBytes.{part_bytes};

    /// Reads a report descriptor, changes the controls of these usages, and shows them in the report of the first one.
    ///
    /// # Errors
    /// [`BenchFault::Descriptor`] where the descriptor is refused, or its reports can't say that nothing is pressed or
    /// moved; [`BenchFault::Usage`] where there is no usage, or one isn't four bytes; [`BenchFault::Control`] where no
    /// control has a usage, it can't change so, or the first one is in no Input report; [`BenchFault::Memory`].
    pub fn open(
        alloc: Global,
        descriptor: &[u8],
        usages: &[Vec<u8>],
    ) -> Result<Writing, BenchFault> {
        let layout = parsed(alloc, descriptor)?;
        let report = match first_report(&layout, usages) {
            Ok(report) => report,
            Err(fault) => {
                drop(layout);
                return Err(fault);
            }
        };
        match shown_in(alloc, &layout, report, usages) {
            Ok(shown) => Ok(Writing {
                layout,
                report,
                shown,
            }),
            Err(fault) => {
                drop(layout);
                Err(fault)
            }
        }
    }

    /// Writes the report, in place of what stands in these bytes.
    pub fn write(&self, bytes: &mut ArrayVec<u8, 256>)
        ensures { bytes.new.items ≡ part_bytes self.now.layout self.now.report self.now.shown }
    {
        write_report::<WordCodec>(&self.layout, self.report, &self.shown, bytes);
    }
}

/// The Input report that a control stands in.
fn report_of(layout: &Layout, control: ControlId) -> Result<usize, BenchFault>
    ensures { IfOk result (λ report. IsInput layout.now report) }
{
    match layout.items().get(control.item) {
        Some(item) => {
            if is_input(layout, item.report) {
                Ok(item.report)
            } else {
                Err(BenchFault::Control)
            }
        }
        None => Err(BenchFault::Control),
    }
}

/// The Input report that the control of the first usage stands in, of a layout whose controls can be changed.
fn first_report(layout: &Layout, usages: &[Vec<u8>]) -> Result<usize, BenchFault>
    ensures input { IfOk result (λ report. IsInput layout.now report) }
    ensures codes { IfOk result (λ _. has_empty_codes layout.now ≡ true) }
    ensures zeros { IfOk result (λ _. has_zeros (items_of layout.now) ≡ true) }
{
    let [first, ..] = usages else {
        return Err(BenchFault::Usage);
    };
    let report = report_of(layout, control_of(layout, first)?)?;
    if !(has_empty_codes(layout) && has_zeros(layout)) {
        return Err(BenchFault::Descriptor);
    }
    Ok(report)
}

/// What the report shows once the controls of these usages are changed.
fn shown_in(
    alloc: Global,
    layout: &Layout,
    report: usize,
    usages: &[Vec<u8>],
) -> Result<Shown, BenchFault>
    requires { IsInput layout.now report }
    ensures { IfOk result (λ shown. FitsShown (items_of layout.now) shown) }
{
    let Ok(mut snapshot) = Snapshot::blank(alloc, layout) else {
        return Err(BenchFault::Memory);
    };
    touch_all(layout, &mut snapshot, usages)?;
    let Ok(mut shown) = Shown::blank(alloc, layout) else {
        return Err(BenchFault::Memory);
    };
    snapshot.shown(layout, report, &mut shown);
    Ok(shown)
}
