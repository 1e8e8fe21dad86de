//! The report that an item makes too long, for a message that names it.

ghost use Rattle.std.specs.Prelude.{◌≡◌, ◌≤◌, length, Some, IfOk, IfErr};
ghost use Rattle.hid_report_descriptor.specs.Faults.{Explains};
ghost use Rattle.hid_report_descriptor.specs.LongReports.{IsReportAt, NamesReport, kind_words, long_report_text};

use crate::fault::{Cause, LayoutFault};
use crate::limits::{Limits, MAX_DESCRIPTOR};
use crate::parser::Parser;
use crate::report::ReportKind;
use hid_items::Items;
use std::alloc::{AllocError, Global};
use std::fmt;

/// A report with the bits of the item that makes it too long. It is printed as in `Feature report 68 has 20000 bytes, over
/// 16384`.
#[derive(Clone, Copy, Debug, PartialEq, Eq)]
pub struct LongReport {
    /// Which way it goes, and what for.
    pub kind: ReportKind,
    /// The Report ID in force at the item, 0 where none is.
    pub id: u8,
    /// Its bits up to the end of the item, without those of the ID byte.
    pub bits: u64,
    /// The limits that it is over.
    pub limits: Limits,
}

impl LongReport {
    ghost use Rattle.std.specs.Prelude.{◌≡◌};
    ghost use Rattle.hid_report_descriptor.specs.LongReports.{whole_bytes};

    /// Its bytes with its ID.
    fn bytes(&self) -> u64
        ensures { result ≡ whole_bytes self.now }
    {
        let id_bytes = if self.id == 0 { 0 } else { 1 };
        self.bits.div_ceil(8) + id_bytes
    }
}

/// The kind of a report in words.
fn kind_words(kind: ReportKind) -> &'static str
    ensures { result.now ≡ kind_words kind }
{
    match kind {
        ReportKind::Input => "Input",
        ReportKind::Output => "Output",
        ReportKind::Feature => "Feature",
    }
}

impl fmt::Display for LongReport {
    ghost output = { λ report. Some (long_report_text report) };

    fn fmt<W: fmt::Write>(&self, f: &mut fmt::Formatter<W>) -> fmt::Result {
        let kind = kind_words(self.kind);
        let bytes = self.bytes();
        let most = self.limits.report_bytes();
        let id = self.id;
        write!(f, "{kind} report {id} has {bytes} bytes, over {most}")
    }
}

/// The report of the Input, Output or Feature item at a place of a descriptor, where the items before it are accepted.
fn read_long_report(
    alloc: Global,
    limits: Limits,
    descriptor: &[u8],
    at: usize,
) -> Result<LongReport, AllocError>
    requires { length descriptor.now ≤ MAX_DESCRIPTOR }
    ensures { IfOk result (IsReportAt limits descriptor.now at) }
{
    let mut parser = Parser::new(alloc)?;
    for next in Items::new(descriptor) {
        let Ok(item) = next else {
            return Err(AllocError); // not reached: the item at the place is whole
        };
        if item.at == at {
            return parser.report_at(limits, &item).ok_or(AllocError); // such an item stands there
        }
        match parser.take(limits, &item) {
            Ok(()) => {}
            Err(_) => return Err(AllocError), // an item before the place is accepted
        }
    }
    Err(AllocError) // not reached: an item stands at the place
}

/// The report for which a descriptor is refused, given the fault with which it is: that of L15, up to the end of the item at
/// which it gets too long. None where the fault is another.
///
/// # Errors
/// Out of memory, at L15 alone: the descriptor is read once more.
pub fn long_report(
    alloc: Global,
    limits: Limits,
    descriptor: &[u8],
    fault: LayoutFault,
) -> Result<Option<LongReport>, AllocError>
    requires { Explains limits descriptor.now fault.cause fault.at }
    ensures report { IfOk result (NamesReport limits descriptor.now fault) }
    ensures memory { IfErr result (λ _. fault.cause ≡ Cause.ReportTooLong) }
{
    match fault.cause {
        Cause::ReportTooLong => match read_long_report(alloc, limits, descriptor, fault.at) {
            Ok(report) => Ok(Some(report)),
            Err(error) => Err(error),
        },
        _ => Ok(None),
    }
}
