//! What is printed of the parts of a line, and is expected.

ghost use Rattle.std.specs.Prelude.{◌≡◌, ◌∷◌, Ok, OnOk, IfErr, [], true, false};
ghost use Rattle.std.specs.Io.KnownBytes.{Appends};
ghost use Rattle.lab_session.specs.Calls.{EndsStep, IsOfLine};
ghost use Rattle.lab_session.specs.Printed.{is_styled, IsPlain, WritesText, PrintsPart, kept_cause};

use super::options::LabOptions;
use super::shown::{is_styled, show_lines};
use hid_script::{Cause, Sink, write_text};
use hid_stack::Delivered;
use lab_expectations::{Expectation, Transcript};
use std::alloc::Global;

/// Why a part ended early whose text was kept first: where there was no room to keep it, memory ran out.
pub fn kept_cause(cause: Cause) -> Cause
    ensures { result ≡ kept_cause cause }
{
    match cause {
        Cause::Write => Cause::Memory,
        _ => cause,
    }
}

/// The lines that were printed and not expected yet, and room for lines that are printed with names, places or as JSON.
#[derive(Drop)]
pub struct Printer {
    alloc: Global,
    transcript: Transcript,
    shown: Vec<u8>,
}

impl Printer {
    ghost use Rattle.lab_expectations.specs.Expectations.{Met, answer_of, answer_unmet, is_expected_at, is_none_at, outcome, parts_of, waits};
    ghost use Rattle.lab_session.specs.Expecting.{IsForgotten, Keeps, answer_to_none};

    /// Nothing was printed.
    pub fn new(alloc: Global) -> Self
        ensures { IsForgotten result.transcript }
    {
        Printer {
            alloc,
            transcript: Transcript::new(alloc),
            shown: Vec::new(alloc),
        }
    }

    /// Prints lines, and keeps them for expectations. Lines of these events are the last of them.
    ///
    /// # Errors
    /// X7: nothing is printed. X6: the writer took some of it.
    #[inline(always)] // most steps print nothing
    pub fn print<W: Sink>(
        &mut self,
        options: &LabOptions,
        text: &[u8],
        events: &[Delivered],
        writer: &mut W,
    ) -> Result<(), Cause>
        ensures written { is_styled options.now ≡ false
            → WritesText (W.contents writer.old) (W.contents writer.new) text.now result }
        ensures kept { OnOk result (Keeps self.old.transcript self.new.transcript text.now) }
        ensures calls { EndsStep W.calls writer.old writer.new result }
    {
        if text.is_empty() {
            return Ok(());
        }
        self.print_some(options, text, events, writer)
    }

    /// Prints lines that are there, and keeps them.
    #[inline(never)]
    fn print_some<W: Sink>(
        &mut self,
        options: &LabOptions,
        text: &[u8],
        events: &[Delivered],
        writer: &mut W,
    ) -> Result<(), Cause>
        ensures written { is_styled options.now ≡ false
            → WritesText (W.contents writer.old) (W.contents writer.new) text.now result }
        ensures kept { OnOk result (Keeps self.old.transcript self.new.transcript text.now) }
        ensures calls { EndsStep W.calls writer.old writer.new result }
    {
        if self.transcript.add(text).is_err() {
            return Err(Cause::Memory);
        }
        if !is_styled(options) {
            return write_text(writer, text);
        }
        self.shown.clear();
        if show_lines(&mut self.shown, self.alloc, options, text, events).is_err() {
            return Err(Cause::Memory);
        }
        write_text(writer, self.shown.as_slice())
    }

    /// Prints what a part of a line printed, however it ended.
    ///
    /// # Errors
    /// Why the part ended early; X7 where there was no room for its text, and nothing is printed; X6.
    #[inline(always)] // most steps print nothing
    pub fn print_part<W: Sink>(
        &mut self,
        options: &LabOptions,
        part: Result<(), Cause>,
        text: &[u8],
        events: &[Delivered],
        writer: &mut W,
    ) -> Result<(), Cause>
        ensures written { is_styled options.now ≡ false
            → PrintsPart (W.contents writer.old) (W.contents writer.new) text.now part result }
        ensures ok { OnOk result (part ≡ Ok tt) }
        ensures kept { OnOk result (Keeps self.old.transcript self.new.transcript text.now) }
        ensures calls { IfErr part IsOfLine → EndsStep W.calls writer.old writer.new result }
    {
        match part {
            Ok(()) => self.print(options, text, events, writer),
            Err(Cause::Write) => Err(Cause::Memory),
            Err(cause) => {
                self.print(options, text, events, writer)?;
                Err(cause)
            }
        }
    }

    /// Prints the line of an Output report where polls and tries are printed. Else it may be expected, and needn't.
    ///
    /// # Errors
    /// X7 or X6.
    pub fn print_output<W: Sink>(
        &mut self,
        options: &LabOptions,
        text: &[u8],
        writer: &mut W,
    ) -> Result<(), Cause>
        ensures quiet { options.now.trace ≡ false
            → Appends (W.contents writer.old) (W.contents writer.new) [] }
        ensures memory { options.now.trace ≡ false
            → IfErr result (λ cause. cause ≡ Cause.Memory) }
        ensures kept { OnOk result (options.now.trace ≡ true
            → Keeps self.old.transcript self.new.transcript text.now) }
        ensures optional { OnOk result (options.now.trace ≡ false
            → Keeps self.old.transcript self.new.transcript (43 ∷ text.now)) }
        ensures calls { EndsStep W.calls writer.old writer.new result }
    {
        if options.trace {
            return self.print(options, text, &[], writer);
        }
        if self.transcript.add_optional(text).is_err() {
            return Err(Cause::Memory);
        }
        Ok(())
    }

    /// Whether the next line that was printed is this one, which is taken then. Otherwise nothing changes.
    pub fn expect(&mut self, line: &[u8]) -> bool
        ensures met { result ≡ is_expected_at self.old.transcript line.now }
        ensures left { result ≡ true → outcome line.now (parts_of (waits self.old.transcript))
            ≡ Met (parts_of (waits self.new.transcript)) }
        ensures same { result ≡ false → self.new ≡ self.old }
    {
        self.transcript.expect(line)
    }

    /// What came in place of this line, which isn't the next one: of an Output report also one that needn't be expected.
    pub fn answer_unmet(&self, line: &[u8]) -> Expectation<'_>
        ensures { answer_of result ≡ answer_unmet self.now.transcript line.now }
    {
        self.transcript.answer_unmet(line)
    }

    /// Whether all that was printed has been expected; what needn't be expected is taken then. Otherwise nothing changes.
    pub fn expect_none(&mut self) -> bool
        ensures met { result ≡ is_none_at self.old.transcript }
        ensures left { result ≡ true → waits self.new.transcript ≡ [] }
        ensures same { result ≡ false → self.new ≡ self.old }
    {
        self.transcript.expect_none()
    }

    /// Passes over all that was printed.
    pub fn forget(&mut self)
        ensures { IsForgotten self.new.transcript }
    {
        self.transcript.forget();
    }

    /// What came where no line is expected.
    pub fn answer_to_none(&self) -> Expectation<'_>
        ensures { answer_of result ≡ answer_to_none self.now.transcript }
    {
        self.transcript.answer_to_none()
    }
}
