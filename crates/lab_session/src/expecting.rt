//! What a line expects of the lines that were printed.

ghost use Rattle.std.specs.Prelude.{◌≡◌, Ok, Err, IfErr, OnOk};
ghost use Rattle.lab_expectations.specs.Expectations.{answer_of};
ghost use Rattle.lab_session.specs.Expecting.{came_words};

use super::bench::Bench;
use super::controls::no_control;
use super::fault::LabCause;
use hid_script::Cause;
use lab_expectations::{Expectation, unknown_usage};
use std::alloc::AllocError;

impl Bench {
    ghost use Rattle.lab_session.specs.Bench.{moment_of};
    ghost use Rattle.lab_session.specs.Calls.{LabNeedsNoCall};
    ghost use Rattle.lab_session.specs.Expecting.{Expects, ExpectsNone, IsForgotten};

    /// Whether the next line that was printed is this one. The name of no usage is refused as in other lines.
    pub(super) fn expect(&mut self, expected: &[u8]) -> Result<(), LabCause>
        ensures moment { moment_of self.new ≡ moment_of self.old }
        ensures options { self.new.options ≡ self.old.options }
        ensures expects { Expects expected.now self.old.printer.transcript
            self.new.printer.transcript self.new.came.items result }
        ensures settled { result ≡ Err LabCause.Unsettled → ⊥ }
        ensures quiet { IfErr result LabNeedsNoCall }
    {
        self.is_test = true;
        if self.printer.expect(expected) {
            return Ok(());
        }
        if unknown_usage(expected).is_some() {
            return Err(LabCause::Script(no_control()));
        }
        match keep_answer(self.printer.answer_unmet(expected), &mut self.came) {
            Ok(()) => Err(LabCause::Unmet),
            Err(_) => Err(LabCause::Script(Cause::Memory)),
        }
    }

    /// Passes over all that was printed.
    pub(super) fn expect_any(&mut self) -> Result<(), LabCause>
        ensures moment { moment_of self.new ≡ moment_of self.old }
        ensures options { self.new.options ≡ self.old.options }
        ensures result { result ≡ Ok tt }
        ensures expects { IsForgotten self.new.printer.transcript }
    {
        self.is_test = true;
        self.printer.forget();
        Ok(())
    }

    /// Whether all that was printed has been expected.
    pub(super) fn expect_none(&mut self) -> Result<(), LabCause>
        ensures moment { moment_of self.new ≡ moment_of self.old }
        ensures options { self.new.options ≡ self.old.options }
        ensures expects { ExpectsNone self.old.printer.transcript self.new.printer.transcript
            self.new.came.items result }
        ensures settled { result ≡ Err LabCause.Unsettled → ⊥ }
        ensures quiet { IfErr result LabNeedsNoCall }
    {
        self.is_test = true;
        if self.printer.expect_none() {
            return Ok(());
        }
        match keep_answer(self.printer.answer_to_none(), &mut self.came) {
            Ok(()) => Err(LabCause::Unmet),
            Err(_) => Err(LabCause::Script(Cause::Memory)),
        }
    }
}

/// Keeps what came in place of what is expected.
fn keep_answer(answer: Expectation<'_>, came: &mut Vec<u8>) -> Result<(), AllocError>
    ensures { OnOk result (came.new.items ≡ came_words (answer_of answer.entry)) }
{
    came.clear();
    match answer {
        Expectation::Met => Ok(()),
        Expectation::Other(line) => came.extend_from_slice(line),
        Expectation::Nothing => came.extend_from_slice(b"nothing"),
        Expectation::TooMuch => came.extend_from_slice(b"over 1 MiB since the last expect"),
    }
}
