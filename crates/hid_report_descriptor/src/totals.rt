//! The bits of each report so far, and the report IDs so far.

ghost use Rattle.std.specs.Prelude.{◌≡◌, ◌<◌, ◌≤◌, ◌+◌, ◌^◌, [], length, slice_get, true, IfOk, IfErr, OnOk};
ghost use Rattle.hid_report_descriptor.specs.Totals.{bits_in_report, with_bits, with_id, comes_before, is_report, has_report, place_for, are_in_order, IsFound, IsAbsent};

use crate::report::{Report, ReportKind};
use std::alloc::{AllocError, Global};

impl Report {
    /// Whether this is the report of that kind with that ID.
    pub fn is_of(&self, kind: ReportKind, id: u8) -> bool
        ensures { result ≡ is_report kind id self.now }
    {
        self.kind.is(kind) && self.id == id
    }

    /// Whether this report stands before the one of that kind with that ID.
    fn comes_before(&self, kind: ReportKind, id: u8) -> bool
        ensures { result ≡ comes_before kind id self.now }
    {
        self.kind.rank() < kind.rank() || (self.kind.is(kind) && self.id < id)
    }
}

/// Up to this many reports a linear search is quicker than bisection.
const FEW_REPORTS: usize = 4;

/// Where the first report stands that doesn't come before the one of that kind with that ID, found by a walk.
fn place_by_walk(reports: &[Report], kind: ReportKind, id: u8) -> usize
    ensures within { result ≤ length reports.now }
    ensures first { result ≡ place_for kind id reports.now }
{
    for (i, report) in reports.iter().enumerate() {
        if !report.comes_before(kind, id) {
            return i;
        }
    }
    reports.len()
}

/// The place of a report among reports by kind and then by ID, found by halving.
fn place_by_halving(reports: &[Report], kind: ReportKind, id: u8) -> usize
    requires { are_in_order reports.now ≡ true }
    ensures within { result ≤ length reports.now }
    ensures first { result ≡ place_for kind id reports.now }
{
    let mut low = 0;
    let mut high = reports.len();
    while low < high {
        let middle = low + (high - low) / 2;
        if reports[middle].comes_before(kind, id) {
            low = middle + 1;
        } else {
            high = middle;
        }
    }
    low
}

/// The place of a report, found by a walk where the reports are few, and by halving where they are more.
fn place(reports: &[Report], kind: ReportKind, id: u8) -> usize
    requires { are_in_order reports.now ≡ true }
    ensures within { result ≤ length reports.now }
    ensures first { result ≡ place_for kind id reports.now }
{
    if reports.len() <= FEW_REPORTS {
        place_by_walk(reports, kind, id)
    } else {
        place_by_halving(reports, kind, id)
    }
}

/// Whether the report at a place is there and is the one of that kind with that ID.
fn is_at(reports: &[Report], i: usize, kind: ReportKind, id: u8) -> bool
    ensures { result ≡ has_report kind id (slice_get reports.now i) }
{
    match reports.get(i) {
        Some(report) => report.is_of(kind, id),
        None => false,
    }
}

/// The place of the report of a kind with an ID (HID 1.11, 5.6), among reports that stand by kind and then by ID, no two
/// of them alike.
///
/// # Errors
/// Where it isn't among them, the place where it would stand.
#[inline(always)] // so that no Result is made and taken apart
pub fn find_report(reports: &[Report], kind: ReportKind, id: u8) -> Result<usize, usize>
    requires { are_in_order reports.now ≡ true }
    ensures found { IfOk result (IsFound kind id reports.now) }
    ensures absent { IfErr result (IsAbsent kind id reports.now) }
{
    let i = place(reports, kind, id);
    if is_at(reports, i, kind, id) {
        Ok(i)
    } else {
        Err(i)
    }
}

/// The reports for which room is made at first.
const FIRST_REPORTS: usize = 4;

/// The reports that have bits so far, by kind and then by ID.
#[derive(Drop)]
pub(crate) struct ReportTotals {
    pub(crate) list: Vec<Report>,
    ghost ordered: { are_in_order list.items ≡ true },
}

impl ReportTotals {
    /// No report, with some room.
    pub(crate) fn new(alloc: Global) -> Result<ReportTotals, AllocError>
        ensures { IfOk result (λ reports. reports.list.items ≡ []) }
    {
        Ok(ReportTotals {
            list: Vec::with_capacity(alloc, FIRST_REPORTS)?,
        })
    }

    /// The bits so far of the report of a kind with an ID.
    pub(crate) fn bits(&self, kind: ReportKind, id: u8) -> u32
        ensures { result ≡ bits_in_report kind id self.now.list.items }
    {
        match find_report(&self.list, kind, id) {
            Ok(i) => self.list[i].bits,
            Err(_) => 0,
        }
    }

    /// Adds bits to the report of a kind with an ID, which begins with them where it had none.
    pub(crate) fn add(&mut self, kind: ReportKind, id: u8, bits: u32) -> Result<(), AllocError>
        requires { bits_in_report kind id self.old.list.items + bits < 2 ^ 32 }
        ensures { OnOk result (self.new.list.items ≡ with_bits kind id bits self.old.list.items) }
    {
        match find_report(&self.list, kind, id) {
            Ok(i) => self.list[i].bits += bits,
            Err(i) => self.list.insert(i, Report { kind, id, bits })?,
        }
        Ok(())
    }
}

/// The report IDs but 0 that fields have, each once.
#[derive(Drop)]
pub(crate) struct ReportIds {
    pub(crate) list: Vec<u8>,
}

impl ReportIds {
    /// No Report ID.
    pub(crate) fn new(alloc: Global) -> ReportIds
        ensures { result.list.items ≡ [] }
    {
        ReportIds {
            list: Vec::new(alloc),
        }
    }

    /// Adds an ID, unless it is there or 0.
    pub(crate) fn add(&mut self, id: u8) -> Result<(), AllocError>
        ensures { OnOk result (self.new.list.items ≡ with_id id self.old.list.items) }
    {
        if id != 0 && !self.list.contains(&id) {
            self.list.push(id)?;
        }
        Ok(())
    }
}
