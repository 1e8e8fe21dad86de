//! An Input report with its plan, and what is kept of the last one of its number.

ghost use Rattle.std.specs.Prelude.{◌≡◌, ◌<◌, ◌≤◌, ◌^◌, length, take, IfOk};
ghost use Rattle.std.specs.Bool.{OnTrue, OnFalse};
ghost use Rattle.hid_usages.specs.ChangedBits.{kept_bytes, IsOneWord};
ghost use Rattle.hid_usages.specs.PlannedReports.{IsPlannedAnew, IsStill, Keeps, KeepsBytes, KnowsOutside, without_last};

use crate::changed_bits::{BitSpan, are_same_bits, changed_bits, every_bit, keep_bytes};
use crate::plan::{ReportPlan, plan_items};
use hid_layout::Layout;
use hid_snapshots::full_of;
use std::alloc::{AllocError, Global};

/// A report with its plan, and what is kept of the last one of its number.
#[derive(Drop)]
pub(crate) struct PlannedReport {
    pub(crate) plan: ReportPlan,
    /// Its bytes, with its ID where there are IDs.
    pub(crate) room: usize,
    /// The bytes of the last one, and some more that fill words of eight.
    pub(crate) last: Vec<u8>,
    /// Whether one came, so that the view is as its bytes left it.
    pub(crate) is_known: bool,
    /// Whether the last one gave no event, and would give none again.
    pub(crate) is_silent: bool,
}

impl PlannedReport {
    /// Keeps the bytes of a report. The word is that of [`one_word`](crate::changed_bits::one_word).
    #[inline(always)]
    pub(crate) fn keep(&mut self, bytes: &[u8], word: u64, is_silent: bool)
        requires room { self.old.room ≤ length bytes.now }
        requires kept { KeepsBytes self.old }
        requires word { IsOneWord (take self.old.room bytes.now) word }
        ensures { Keeps self.old bytes.now is_silent self.new }
    {
        keep_bytes(&mut self.last, &bytes[..self.room], word);
        self.is_known = true;
        self.is_silent = is_silent;
    }

    /// The span of the bits of a report that aren't known to be those of the last one. The word is that of
    /// [`one_word`](crate::changed_bits::one_word).
    #[inline(always)]
    pub(crate) fn changed(&self, bytes: &[u8], word: u64) -> BitSpan
        requires kept { kept_bytes (length bytes.now) ≤ length self.now.last.items }
        requires short { length bytes.now < 2 ^ 50 }
        requires word { IsOneWord bytes.now word }
        ensures { KnowsOutside self.now bytes.now result }
    {
        if self.is_known {
            changed_bits(&self.last, bytes, word)
        } else {
            every_bit()
        }
    }

    /// Whether these are fewer bytes than the report has.
    #[inline(always)]
    pub(crate) fn is_short(&self, bytes: &[u8]) -> bool
        ensures short { OnTrue result (length bytes.now < self.now.room) }
        ensures whole { OnFalse result (self.now.room ≤ length bytes.now) }
    {
        bytes.len() < self.room
    }

    /// Whether these are enough bytes, with the bits of the last one, which gave no event.
    #[inline(always)]
    pub(crate) fn is_still(&self, bytes: &[u8]) -> bool
        requires { KeepsBytes self.now }
        ensures { OnTrue result (IsStill self.now bytes.now) }
    {
        if !self.is_silent {
            return false;
        }
        if !self.is_known || bytes.len() < self.room {
            return false;
        }
        are_same_bits(&self.last, &bytes[..self.room])
    }

    /// Forgets the last one.
    pub(crate) fn forget(&mut self)
        ensures { self.new ≡ without_last self.old }
    {
        self.is_known = false;
    }
}

/// Plans a report, of which none came yet.
///
/// # Errors
/// Out of memory.
pub(crate) fn plan_report(
    alloc: Global,
    layout: &Layout,
    report: usize,
) -> Result<PlannedReport, AllocError>
    requires { report < length layout.now.reports }
    ensures { IfOk result (IsPlannedAnew layout.now report) }
{
    // For the prover: what holds of every layout.
    let _ = layout.items();

    let plan = plan_items(alloc, layout, report)?;
    let room = layout.report_bytes(report);
    let last = full_of(alloc, 0, 8 * (room / 8) + 8)?;
    Ok(PlannedReport {
        plan,
        room,
        last,
        is_known: false,
        is_silent: false,
    })
}
