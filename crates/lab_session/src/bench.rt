//! The bench between two lines, and how a line is carried out.

ghost use Rattle.std.specs.Prelude.{◌≡◌, ◌||◌, true, ℕ, List, Option, None, Err, IfOk, IfErr, OnOk, is_some};
ghost use Rattle.std.specs.Option.{option_map};
ghost use Rattle.hid_text.specs.declared.change_kind.ChangeKind.TheVariants.{Press, Release};
ghost use Rattle.hid_bus.specs.declared.step.Step.TheVariants as Taking;
ghost use Rattle.hid_text.specs.declared.line.Line.TheVariants as Lines;
ghost use Rattle.hid_text.specs.declared.short.ShortLine.TheVariants as Shorts;
ghost use Rattle.hid_text.specs.Words.{words_of};
ghost use Rattle.hid_script.specs.LineOutput.{Begins, CarriesOut, LineBegins, LineOutcomeOnce, LinePrints, times};
ghost use Rattle.hid_script.specs.Place.{AppendsOnce, AppendsOutput};
ghost use Rattle.lab_session.specs.Asking.{asked_said};
ghost use Rattle.lab_lines.specs.LabLines.{Short};
ghost use Rattle.lab_session.specs.Expecting.{IsForgotten, LineExpects, ReadExpects};
ghost use Rattle.lab_session.specs.Parts.{Says, Changes, LaysOut, ShowsValues, Attaches};
ghost use Rattle.lab_session.specs.Printed.{IsPlain, is_styled};

use super::answers::{ends_transfer, has_nothing, is_repeated};
use super::asked::{Asked, asked_of, unread_cause};
use super::controls::{RefusedControl, control_at, no_control, refused_control};
use super::counts::Counts;
use super::draws::Draws;
use super::fault::LabCause;
use super::options::LabOptions;
use super::outputs::Outputs;
use super::printer::{Printer, kept_cause};
use super::shown::is_styled;
use hid_layout::{ControlId, Usage};
use hid_requests::Boot;
use hid_script::{Cause, Interpreter, Options, Sink};
use hid_stack::{StackFault, Start, Step};
use hid_text::{ChangeKind, Line, ShortLine, read_line, read_short};
use lab_lines::{ControlName, LabLine, find_control, read_hex, read_longer};
use std::alloc::Global;
use usb_transact::Fate;

/// The interpreter of scripts, how fates are drawn, what is printed and expected, and room that is used again.
#[derive(Drop)]
pub struct Bench {
    alloc: Global,
    options: LabOptions,
    interpreter: Interpreter,
    draws: Draws,
    outputs: Outputs,
    pub(super) printer: Printer,
    counts: Counts,
    /// What the interpreter prints of a part.
    text: Vec<u8>,
    /// The control of a change that was refused.
    control: Option<RefusedControl>,
    /// Whether a line expected something.
    pub(super) is_test: bool,
    /// What came in place of a line that was expected.
    pub(super) came: Vec<u8>,
}

impl Bench {
    ghost use Rattle.hid_script.specs.Interpreter.{session_of};
    ghost use Rattle.hid_script.specs.Session.{Repeats, at_first};
    ghost use Rattle.hid_script.specs.Steps.{StepPrints};
    ghost use Rattle.hid_text.specs.Line.{meaning_of, short_of};
    ghost use Rattle.lab_session.specs.Bench.{Does, DoesLine, DoesSaid, EndsPart, moment_of};
    ghost use Rattle.lab_session.specs.Scripts.{IsScripts, IsUndrawn, PrintsAs, PrintsSaid, end_of};
    ghost use Rattle.lab_session.specs.Calls.{EndsLab, EndsStep, IsOfLine, LabNeedsNoCall, NeedsNoCall};
    ghost use Rattle.lab_session.specs.Chances.{chance_at};
    ghost use Rattle.lab_session.specs.Outputs.{SetsNoOutput, awaited_at};
    ghost use Rattle.hid_stack.specs.Attaching.{Finds};
    ghost use Rattle.hid_stack.specs.Rig.{member_at};
    ghost use Rattle.hid_script.specs.LineOutput.{stack_cause};
    ghost use Rattle.lab_session.specs.Lines.{DoesBytes, DoesPart, IsOnePart, Loses, NamesControl, Often, PollLineDoes, Polls, PollsOnce, ScriptLineDoes, LineUnsettled, ShortLineDoes, StaysUnsettled, Tries, seed_by};
    ghost use Rattle.lab_lines.specs.ControlNames.{named_of};
    ghost use Rattle.lab_lines.specs.LabLines.{lab_meaning, said_of};

    /// A bench without devices.
    ///
    /// # Errors
    /// X7.
    pub fn new(alloc: Global, options: LabOptions) -> Result<Bench, LabCause>
        ensures options { IfOk result (λ bench. bench.options ≡ options) }
        ensures session { IfOk result (λ bench. session_of bench.interpreter
            ≡ at_first (record { layout = options.layout; trace = options.trace })) }
        ensures undrawn { IfOk result (λ bench. IsUndrawn (moment_of bench)) }
        ensures waits { IfOk result (λ bench. IsForgotten bench.printer.transcript) }
        ensures memory { IfErr result (λ cause. cause ≡ LabCause.Script Cause.Memory) }
    {
        let printed = Options {
            layout: options.layout,
            trace: options.trace,
        };
        let interpreter = Interpreter::new(alloc, printed)?;
        Ok(Bench {
            alloc,
            options,
            interpreter,
            draws: Draws::new(),
            outputs: Outputs::new(),
            printer: Printer::new(alloc),
            counts: Counts::default(),
            text: Vec::new(alloc),
            control: None,
            is_test: false,
            came: Vec::new(alloc),
        })
    }

    /// What was counted: of polls no more than their number, unless a summary is asked for or each is made by itself.
    pub fn counts(&self) -> Counts {
        let mut counts = self.counts;
        counts.events = self.events();
        counts
    }

    /// How many polls were made.
    pub fn poll_count(&self) -> u64 {
        self.counts.polls
    }

    /// How many events were delivered.
    pub fn events(&self) -> u64
        ensures { result ≡ (session_of self.now.interpreter).events }
    {
        self.interpreter.events()
    }

    /// The control of the last change that was refused, if it is known.
    pub fn control(&self) -> Option<RefusedControl> {
        self.control
    }

    /// Whether a line expected something, so that all that is printed has to be expected.
    pub fn is_test(&self) -> bool {
        self.is_test
    }

    /// Whether a device was attached.
    pub fn has_device(&self) -> bool {
        self.interpreter.rig().device(1).is_ok()
    }

    /// What came in place of the line that was expected last, if another one came; without its end.
    pub fn came(&self) -> &[u8] {
        self.came.as_slice()
    }

    /// Reads a line, without its end, and carries it out. What a line asks for that the bench doesn't have, other lines or a file,
    /// is given back.
    ///
    /// # Errors
    /// X1 or X2 where no line of the bench stands there; else why it is not carried out. What it printed before stands.
    #[inline(never)] // run_line sets none of its locals to zero for an empty line
    pub fn line<'a, W: Sink>(
        &mut self,
        line: &'a [u8],
        writer: &mut W,
    ) -> Result<Option<Asked<'a>>, LabCause>
        ensures does { IfOk result (λ asked. DoesLine line.now (option_map asked_said asked) self.old
            self.new (W.contents writer.old) (W.contents writer.new)) }
        ensures prints { IsPlain self.old.options → IsUndrawn (moment_of self.old) → IsScripts line.now
            → PrintsAs (W.contents writer.old) (W.contents writer.new) (meaning_of line.now)
            (session_of self.old.interpreter) (end_of result) (session_of self.new.interpreter) }
        ensures expects { ReadExpects (lab_meaning line.now) self.old.printer.transcript
            self.new.printer.transcript self.new.came.items (end_of result) }
        ensures unsettled { end_of result ≡ Err LabCause.Unsettled
            → (dev : ℕ) × StaysUnsettled dev (moment_of self.new) }
        ensures calls { EndsLab W.calls writer.old writer.new result }
    {
        let Some(short) = read_short(line) else {
            return self.longer_line(line, writer);
        };
        if !self.is_one_part(&short) {
            return self.some_parts(&short, writer);
        }
        self.counts.add_line(&short);
        self.text.clear();
        let part = self.interpreter.repeat(&short, &mut self.text);
        if part.is_ok() && self.text.as_slice().is_empty() {
            return Ok(None);
        }
        self.end_part(&short, part, writer)
    }

    /// Whether a short line is one part: none of its polls and tries is made by itself.
    #[inline(always)] // a few comparisons
    fn is_one_part(&self, short: &ShortLine) -> bool
        ensures undrawn { result ≡ true → IsOnePart (moment_of self.now) short.now }
        ensures unawaited { result ≡ true → SetsNoOutput self.now.outputs short.now }
    {
        match *short {
            ShortLine::Poll { dev, .. } => !self.polls_singly(dev),
            ShortLine::Control { dev, .. } => !self.tries_singly(dev),
            ShortLine::Press { .. }
            | ShortLine::Release { .. }
            | ShortLine::Null { .. }
            | ShortLine::Set { .. }
            | ShortLine::Move { .. }
            | ShortLine::Frame { .. }
            | ShortLine::Reset { .. }
            | ShortLine::Halt { .. } => true,
        }
    }

    /// Carries out any short line.
    #[inline(never)] // most are one part
    fn some_parts<'a, W: Sink>(
        &mut self,
        short: &ShortLine,
        writer: &mut W,
    ) -> Result<Option<Asked<'a>>, LabCause>
        ensures does { IfOk result (λ asked. (asked ≡ None) × Does (ShortLineDoes short.now) self.old
            self.new (W.contents writer.old) (W.contents writer.new)) }
        ensures prints { IsPlain self.old.options → IsUndrawn (moment_of self.old)
            → PrintsSaid (W.contents writer.old) (W.contents writer.new) (Short short.now)
            (session_of self.old.interpreter) (end_of result) (session_of self.new.interpreter) }
        ensures settled { end_of result ≡ Err LabCause.Unsettled → ⊥ }
        ensures calls { EndsLab W.calls writer.old writer.new result }
    {
        self.short_line(short, writer)?;
        Ok(None)
    }

    /// Prints what a short line printed, and notes the control of a change that is refused.
    #[inline(never)] // most short lines print nothing
    fn end_part<'a, W: Sink>(
        &mut self,
        short: &ShortLine,
        part: Result<(), Cause>,
        writer: &mut W,
    ) -> Result<Option<Asked<'a>>, LabCause>
        ensures ends { EndsPart self.old self.new (W.contents writer.old) (W.contents writer.new) part result }
        ensures calls { IfErr part IsOfLine → EndsLab W.calls writer.old writer.new result }
    {
        self.control = refused_control(self.interpreter.rig(), short, &part);
        self.printer.print_part(
            &self.options,
            part,
            self.text.as_slice(),
            self.interpreter.delivered(),
            writer,
        )?;
        Ok(None)
    }

    /// Reads a line that isn't short, and carries it out.
    #[inline(never)] // a line of `hidrun` makes no room for what another one says
    pub(super) fn long_line<'a, W: Sink>(
        &mut self,
        line: &'a [u8],
        writer: &mut W,
    ) -> Result<Option<Asked<'a>>, LabCause>
        requires { short_of (meaning_of line.now) ≡ None }
        ensures does { IfOk result (λ asked. DoesLine line.now (option_map asked_said asked) self.old
            self.new (W.contents writer.old) (W.contents writer.new)) }
        ensures prints { IsPlain self.old.options → IsUndrawn (moment_of self.old) → IsScripts line.now
            → PrintsAs (W.contents writer.old) (W.contents writer.new) (meaning_of line.now)
            (session_of self.old.interpreter) (end_of result) (session_of self.new.interpreter) }
        ensures expects { ReadExpects (lab_meaning line.now) self.old.printer.transcript
            self.new.printer.transcript self.new.came.items (end_of result) }
        ensures unsettled { end_of result ≡ Err LabCause.Unsettled
            → (dev : ℕ) × StaysUnsettled dev (moment_of self.new) }
        ensures calls { EndsLab W.calls writer.old writer.new result }
    {
        match read_longer(line) {
            Ok(said) => {
                self.carry_out(&said, writer)?;
                Ok(asked_of(said))
            }
            Err(unread) => Err(LabCause::Script(unread_cause(unread))),
        }
    }

    /// Carries out a line. Of `repeat`, `end`, `include` and a descriptor in a file nothing: who gives the lines does that.
    ///
    /// # Errors
    /// Why the line is not carried out; what it printed before stands.
    #[tactic(auto, unfolding(crate::specs::Lines::LineDoes))]
    pub fn carry_out<W: Sink>(&mut self, line: &LabLine<'_>, writer: &mut W) -> Result<(), LabCause>
        ensures does { OnOk result (DoesSaid (said_of line.now) self.old self.new
            (W.contents writer.old) (W.contents writer.new)) }
        ensures prints { IsPlain self.old.options → IsUndrawn (moment_of self.old)
            → PrintsSaid (W.contents writer.old) (W.contents writer.new) (said_of line.now)
            (session_of self.old.interpreter) result (session_of self.new.interpreter) }
        ensures expects { LineExpects line.now self.old.printer.transcript
            self.new.printer.transcript self.new.came.items result }
        ensures unsettled { LineUnsettled (said_of line.now) result (moment_of self.new) }
        ensures calls { EndsLab W.calls writer.old writer.new result }
    {
        match *line {
            LabLine::Nothing
            | LabLine::Repeat { .. }
            | LabLine::End
            | LabLine::Include(_)
            | LabLine::DeviceFile { .. } => Ok(()),
            LabLine::Script(text) => Ok(self.script_line(text, writer)?),
            LabLine::Short(short) => Ok(self.short_line(&short, writer)?),
            LabLine::Wait { count } => Ok(self.short_part(&ShortLine::Frame { count }, writer)?),
            LabLine::Layout(hex) => Ok(self.lay_out_hex(hex, writer)?),
            LabLine::Values(hex) => Ok(self.print_values_hex(hex, writer)?),
            LabLine::Device { start, boot, hex } => Ok(self.attach_hex(start, boot, hex, writer)?),
            LabLine::Change {
                dev,
                control,
                wanted,
            } => {
                let control = self.find(dev, &control)?;
                Ok(self.change(dev, control, wanted, writer)?)
            }
            LabLine::Click { dev, control } => {
                let control = self.find(dev, &control)?;
                self.click(dev, control, writer)
            }
            LabLine::Type { dev, text } => self.type_text(dev, text, writer),
            LabLine::Lose { dev, percent, seed } => { Ok(self.lose(dev, percent, seed)?) }
            LabLine::Expect(expected) => self.expect(expected),
            LabLine::ExpectNone => self.expect_none(),
            LabLine::ExpectAny => self.expect_any(),
        }
    }

    /// A line of a script that isn't short.
    pub(super) fn script_line<W: Sink>(&mut self, line: &[u8], writer: &mut W) -> Result<(), Cause>
        ensures prints { IsPlain self.old.options → AppendsOutput (W.contents writer.old)
            (W.contents writer.new) (LinePrints (session_of self.old.interpreter) line.now)
            (LineBegins (session_of self.old.interpreter) line.now) result
            (session_of self.new.interpreter) }
        ensures does { OnOk result (Does (ScriptLineDoes line.now) self.old self.new
            (W.contents writer.old) (W.contents writer.new)) }
        ensures calls { EndsStep W.calls writer.old writer.new result }
    {
        match &read_line(line) {
            Ok(said) => self.said_line(said, writer),
            Err(fault) => Err(Cause::from(*fault)),
        }
    }

    /// A line of a script that was read, and isn't short.
    fn said_line<W: Sink>(&mut self, said: &Line, writer: &mut W) -> Result<(), Cause>
        ensures prints { IsPlain self.old.options → AppendsOutput (W.contents writer.old)
            (W.contents writer.new) (CarriesOut (session_of self.old.interpreter) said.now)
            (Begins (times said.now) (LineOutcomeOnce said.now) (session_of self.old.interpreter))
            result (session_of self.new.interpreter) }
        ensures does { OnOk result (Does (DoesPart (Says said.now)) self.old self.new
            (W.contents writer.old) (W.contents writer.new)) }
        ensures calls { EndsStep W.calls writer.old writer.new result }
    {
        self.text.clear();
        let part = self.interpreter.carry_out(said, &mut self.text);
        self.outputs.note(self.interpreter.rig(), said);
        self.printer
            .print_part(&self.options, part, self.text.as_slice(), &[], writer)
    }

    /// A short line of a script, whose fates are those that it says.
    fn short_part<W: Sink>(&mut self, short: &ShortLine, writer: &mut W) -> Result<(), Cause>
        ensures prints { IsPlain self.old.options → AppendsOutput (W.contents writer.old)
            (W.contents writer.new)
            (CarriesOut (session_of self.old.interpreter) (Lines.Step short.now))
            (Begins (times (Lines.Step short.now)) (LineOutcomeOnce (Lines.Step short.now))
            (session_of self.old.interpreter)) result (session_of self.new.interpreter) }
        ensures does { OnOk result (Does (DoesPart (Says (Lines.Step short.now))) self.old self.new
            (W.contents writer.old) (W.contents writer.new)) }
        ensures calls { EndsStep W.calls writer.old writer.new result }
    {
        self.text.clear();
        let part = self.interpreter.repeat(short, &mut self.text);
        self.printer.print_part(
            &self.options,
            part,
            self.text.as_slice(),
            self.interpreter.delivered(),
            writer,
        )
    }

    /// `layout HEX`, of any length.
    fn lay_out_hex<W: Sink>(&mut self, hex: &[u8], writer: &mut W) -> Result<(), Cause>
        ensures does { OnOk result (Does (DoesBytes LaysOut (words_of hex.now)) self.old self.new
            (W.contents writer.old) (W.contents writer.new)) }
        ensures calls { EndsStep W.calls writer.old writer.new result }
    {
        match read_hex(self.alloc, hex)? {
            Some(bytes) => self.lay_out(bytes.as_slice(), writer),
            None => Err(Cause::BadHex),
        }
    }

    /// Lays a descriptor out.
    fn lay_out<W: Sink>(&mut self, descriptor: &[u8], writer: &mut W) -> Result<(), Cause>
        ensures does { OnOk result (Does (DoesPart (LaysOut descriptor.now)) self.old self.new
            (W.contents writer.old) (W.contents writer.new)) }
        ensures calls { EndsStep W.calls writer.old writer.new result }
    {
        self.text.clear();
        let part = self.interpreter.lay_out(descriptor, &mut self.text);
        self.printer
            .print_part(&self.options, part, self.text.as_slice(), &[], writer)
    }

    /// `values HEX`, of any length.
    fn print_values_hex<W: Sink>(&mut self, hex: &[u8], writer: &mut W) -> Result<(), Cause>
        ensures does { OnOk result (Does (DoesBytes ShowsValues (words_of hex.now)) self.old
            self.new (W.contents writer.old) (W.contents writer.new)) }
        ensures calls { EndsStep W.calls writer.old writer.new result }
    {
        match read_hex(self.alloc, hex)? {
            Some(bytes) => self.print_values(bytes.as_slice(), writer),
            None => Err(Cause::BadHex),
        }
    }

    /// Prints the values of a report.
    fn print_values<W: Sink>(&mut self, report: &[u8], writer: &mut W) -> Result<(), Cause>
        ensures does { OnOk result (Does (DoesPart (ShowsValues report.now)) self.old self.new
            (W.contents writer.old) (W.contents writer.new)) }
        ensures calls { EndsStep W.calls writer.old writer.new result }
    {
        self.text.clear();
        let part = self.interpreter.print_values_of(report, &mut self.text);
        self.printer
            .print_part(&self.options, part, self.text.as_slice(), &[], writer)
    }

    /// `device START KIND HEX`, of any length.
    fn attach_hex<W: Sink>(
        &mut self,
        start: Start,
        boot: Boot,
        hex: &[u8],
        writer: &mut W,
    ) -> Result<(), Cause>
        ensures does { OnOk result (Does (DoesBytes (Attaches start boot) (words_of hex.now)) self.old
            self.new (W.contents writer.old) (W.contents writer.new)) }
        ensures calls { EndsStep W.calls writer.old writer.new result }
    {
        match read_hex(self.alloc, hex)? {
            Some(bytes) => self.attach_device(start, boot, bytes.as_slice(), writer),
            None => Err(Cause::BadHex),
        }
    }

    /// Attaches a device with this descriptor.
    fn attach_device<W: Sink>(
        &mut self,
        start: Start,
        boot: Boot,
        descriptor: &[u8],
        writer: &mut W,
    ) -> Result<(), Cause>
        ensures does { OnOk result (Does (DoesPart (Attaches start boot descriptor.now)) self.old self.new
            (W.contents writer.old) (W.contents writer.new)) }
        ensures calls { EndsStep W.calls writer.old writer.new result }
    {
        self.text.clear();
        let part = self
            .interpreter
            .attach(start, boot, descriptor, &mut self.text);
        self.printer
            .print_part(&self.options, part, self.text.as_slice(), &[], writer)
    }

    /// Attaches a device with this descriptor.
    ///
    /// # Errors
    /// X4 where there is no such device; X6 or X7.
    pub fn attach<W: Sink>(
        &mut self,
        start: Start,
        boot: Boot,
        descriptor: &[u8],
        writer: &mut W,
    ) -> Result<(), LabCause>
        ensures does { OnOk result (Does (DoesPart (Attaches start boot descriptor.now)) self.old self.new
            (W.contents writer.old) (W.contents writer.new)) }
        ensures calls { EndsLab W.calls writer.old writer.new result }
    {
        Ok(self.attach_device(start, boot, descriptor, writer)?)
    }

    /// A short line of a script, with the fates that are drawn.
    #[tactic(auto, unfolding(crate::specs::Lines::ShortLineDoes))]
    fn short_line<W: Sink>(&mut self, short: &ShortLine, writer: &mut W) -> Result<(), Cause>
        ensures prints { IsPlain self.old.options → IsUndrawn (moment_of self.old)
            → AppendsOutput (W.contents writer.old) (W.contents writer.new)
            (CarriesOut (session_of self.old.interpreter) (Lines.Step short.now))
            (Begins (times (Lines.Step short.now)) (LineOutcomeOnce (Lines.Step short.now))
            (session_of self.old.interpreter)) result (session_of self.new.interpreter) }
        ensures does { OnOk result (Does (ShortLineDoes short.now) self.old self.new
            (W.contents writer.old) (W.contents writer.new)) }
        ensures calls { EndsStep W.calls writer.old writer.new result }
    {
        match *short {
            ShortLine::Poll { dev, fate, count } => self.poll_line(dev, fate, count, writer),
            ShortLine::Control { dev, fate, count } => self.tries(dev, fate, count, writer),
            ShortLine::Press { .. }
            | ShortLine::Release { .. }
            | ShortLine::Null { .. }
            | ShortLine::Set { .. }
            | ShortLine::Move { .. }
            | ShortLine::Frame { .. }
            | ShortLine::Reset { .. }
            | ShortLine::Halt { .. } => {
                let end = self.short_part(short, writer);
                self.control = refused_control(self.interpreter.rig(), short, &end);
                end
            }
        }
    }

    /// Whether each poll of a device has to be made by itself: something of it is drawn, counted, or printed otherwise.
    fn polls_singly(&self, dev: u8) -> bool
        ensures { result ≡ (self.now.options.summary || is_styled self.now.options
            || is_some (chance_at self.now.draws dev)) }
    {
        self.options.summary || is_styled(&self.options) || self.draws.are_drawn(dev)
    }

    /// Whether each try of a device has to be made by itself: as of polls, or since an Output report may take effect by it.
    fn tries_singly(&self, dev: u8) -> bool
        ensures { result ≡ ((self.now.options.summary || is_styled self.now.options
            || is_some (chance_at self.now.draws dev))
            || is_some (awaited_at self.now.outputs dev)) }
    {
        self.polls_singly(dev) || self.outputs.awaits(dev)
    }

    /// `poll D FATE N`.
    fn poll_line<W: Sink>(
        &mut self,
        dev: u8,
        fate: Fate,
        count: u16,
        writer: &mut W,
    ) -> Result<(), Cause>
        ensures prints { IsPlain self.old.options → chance_at self.old.draws dev ≡ None
            → AppendsOutput (W.contents writer.old) (W.contents writer.new)
            (CarriesOut (session_of self.old.interpreter) (Lines.Step (Shorts.Poll dev fate count)))
            (Begins (times (Lines.Step (Shorts.Poll dev fate count)))
            (LineOutcomeOnce (Lines.Step (Shorts.Poll dev fate count)))
            (session_of self.old.interpreter)) result (session_of self.new.interpreter) }
        ensures does { OnOk result (Does (PollLineDoes dev fate count) self.old self.new
            (W.contents writer.old) (W.contents writer.new)) }
        ensures calls { EndsStep W.calls writer.old writer.new result }
    {
        if self.polls_singly(dev) {
            return self.polls(dev, fate, count, writer);
        }
        self.counts.add_polls(u64::from(count));
        self.short_part(&ShortLine::Poll { dev, fate, count }, writer)
    }

    /// Polls a device so often, with what is lost of each.
    #[inline(never)] // most polls are not made singly
    fn polls<W: Sink>(
        &mut self,
        dev: u8,
        fate: Fate,
        count: u16,
        writer: &mut W,
    ) -> Result<(), Cause>
        ensures does { OnOk result (Does (Often count (Polls dev fate)) self.old self.new
            (W.contents writer.old) (W.contents writer.new)) }
        ensures calls { EndsStep W.calls writer.old writer.new result }
    {
        for _ in 0..count {
            let _is_idle = self.poll(dev, fate, writer)?;
        }
        Ok(())
    }

    /// Polls a device once. Whether it answered that it has nothing to send.
    #[inline(always)] // a poll of a device that has nothing to send does little
    pub(super) fn poll<W: Sink>(
        &mut self,
        dev: u8,
        said: Fate,
        writer: &mut W,
    ) -> Result<bool, Cause>
        ensures does { IfOk result (λ idle. Does (PollsOnce dev said idle) self.old self.new
            (W.contents writer.old) (W.contents writer.new)) }
        ensures calls { EndsStep W.calls writer.old writer.new result }
    {
        let fate = self.draws.next_fate(dev, said);
        self.text.clear();
        let step = Step::Poll { dev, fate };
        let told = match self.interpreter.take_step(&step, &mut self.text) {
            Ok(told) => told,
            Err(cause) => return Err(kept_cause(cause)),
        };
        self.counts.add_poll(fate, is_repeated(&told));
        self.printer.print(
            &self.options,
            self.text.as_slice(),
            self.interpreter.delivered(),
            writer,
        )?;
        Ok(has_nothing(&told))
    }

    /// Makes so many tries of the transfer that runs, with what is lost of each.
    #[inline(never)] // most lines are no tries
    fn tries<W: Sink>(
        &mut self,
        dev: u8,
        fate: Fate,
        count: u16,
        writer: &mut W,
    ) -> Result<(), Cause>
        ensures prints { IsPlain self.old.options → chance_at self.old.draws dev ≡ None
            → AppendsOutput (W.contents writer.old) (W.contents writer.new)
            (Repeats count (StepPrints (Taking.Control dev fate)) (session_of self.old.interpreter))
            (Begins count (StepPrints (Taking.Control dev fate)) (session_of self.old.interpreter))
            result (session_of self.new.interpreter) }
        ensures does { OnOk result (Does (Often count (Tries dev fate)) self.old self.new
            (W.contents writer.old) (W.contents writer.new)) }
        ensures calls { EndsStep W.calls writer.old writer.new result }
    {
        for _ in 0..count {
            self.try_once(dev, fate, writer)?;
        }
        Ok(())
    }

    /// Makes a try of the transfer that runs, and prints the Output report that it set.
    fn try_once<W: Sink>(&mut self, dev: u8, said: Fate, writer: &mut W) -> Result<(), Cause>
        ensures prints { IsPlain self.old.options → chance_at self.old.draws dev ≡ None
            → AppendsOnce (W.contents writer.old) (W.contents writer.new)
            (StepPrints (Taking.Control dev said) (session_of self.old.interpreter)) result
            (session_of self.new.interpreter) }
        ensures does { OnOk result (Does (Tries dev said) self.old self.new
            (W.contents writer.old) (W.contents writer.new)) }
        ensures calls { EndsStep W.calls writer.old writer.new result }
    {
        let fate = self.draws.next_fate(dev, said);
        self.text.clear();
        let step = Step::Control { dev, fate };
        let told = match self.interpreter.take_step(&step, &mut self.text) {
            Ok(told) => told,
            Err(cause) => return Err(kept_cause(cause)),
        };
        self.counts.add_try(fate);
        self.printer.print(
            &self.options,
            self.text.as_slice(),
            self.interpreter.delivered(),
            writer,
        )?;
        let is_done = ends_transfer(&told);
        match self
            .outputs
            .take_effect(self.alloc, self.interpreter.rig(), dev, is_done)
        {
            Ok(Some(text)) => self
                .printer
                .print_output(&self.options, text.as_bytes(), writer),
            Ok(None) => Ok(()),
            Err(_) => Err(Cause::Memory),
        }
    }

    /// The control of a device that is named.
    fn find(&self, dev: u8, name: &ControlName<'_>) -> Result<ControlId, Cause>
        ensures found { IfOk result (NamesControl (session_of self.now.interpreter).members dev
            (named_of name.now)) }
        ensures err { IfErr result NeedsNoCall }
    {
        let device = match self.interpreter.rig().device(dev) {
            Ok(device) => device,
            Err(fault) => return Err(Cause::from(fault)),
        };
        match find_control(device.layout(), name) {
            Some(control) => Ok(control),
            None => Err(no_control()),
        }
    }

    /// Changes a control.
    pub(super) fn change<W: Sink>(
        &mut self,
        dev: u8,
        control: ControlId,
        wanted: ChangeKind,
        writer: &mut W,
    ) -> Result<(), Cause>
        ensures does { OnOk result (Does (DoesPart (Changes dev control wanted)) self.old self.new
            (W.contents writer.old) (W.contents writer.new)) }
        ensures calls { EndsStep W.calls writer.old writer.new result }
    {
        self.text.clear();
        if let Err(cause) = self
            .interpreter
            .change_at(dev, control, wanted, &mut self.text)
        {
            self.control = control_at(self.interpreter.rig(), dev, control);
            return Err(kept_cause(cause));
        }
        self.printer.print(
            &self.options,
            self.text.as_slice(),
            self.interpreter.delivered(),
            writer,
        )
    }

    /// The least control with a usage.
    pub(super) fn find_usage(&self, dev: u8, usage: Usage) -> Result<ControlId, LabCause>
        ensures found { IfOk result
            (λ control. Finds (session_of self.now.interpreter).members dev usage (Ok control)) }
        ensures err { result ≡ Err LabCause.Unsettled → ⊥ }
        ensures quiet { IfErr result LabNeedsNoCall }
    {
        match self.interpreter.rig().find(dev, usage) {
            Ok(control) => Ok(control),
            Err(fault) => Err(LabCause::Script(Cause::from(fault))),
        }
    }

    /// From now on draws what is lost of a device's polls and tries.
    fn lose(&mut self, dev: u8, percent: u8, seed: u64) -> Result<(), Cause>
        ensures does { OnOk result ((bytes : Option (List ℕ)) → Does (Loses dev percent
            (seed_by self.old.options.seed seed)) self.old self.new bytes bytes) }
        ensures err { IfErr result (λ cause. (cause ≡ stack_cause StackFault.NoDevice)
            × (member_at (session_of self.old.interpreter).members dev ≡ None)
            × (self.new ≡ self.old)) }
    {
        if let Err(fault) = self.interpreter.rig().device(dev) {
            return Err(Cause::from(fault));
        }
        let seed = match self.options.seed {
            Some(other) => other,
            None => seed,
        };
        self.draws.lose(dev, percent, seed);
        Ok(())
    }
}
