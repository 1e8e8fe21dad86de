//! Lines that aren't short: of most of them it is known by the first word that `hidrun` alone has them.

ghost use Rattle.std.specs.Prelude.{◌≡◌, ℕ, None, Err, IfOk};
ghost use Rattle.std.specs.Option.{option_map};
ghost use Rattle.hid_script.specs.Interpreter.{session_of};
ghost use Rattle.hid_text.specs.Line.{meaning_of, short_of};
ghost use Rattle.lab_lines.specs.LabLines.{lab_meaning};
ghost use Rattle.lab_session.specs.Asking.{asked_said};
ghost use Rattle.lab_session.specs.Expecting.{ReadExpects};
ghost use Rattle.lab_session.specs.Printed.{IsPlain};

use super::asked::Asked;
use super::bench::Bench;
use super::fault::LabCause;
use hid_script::Sink;
use lab_lines::begins_line_of_hidrun;

impl Bench {
    ghost use Rattle.lab_session.specs.Bench.{DoesLine, moment_of};
    ghost use Rattle.lab_session.specs.Calls.{EndsLab};
    ghost use Rattle.lab_session.specs.Scripts.{IsScripts, IsUndrawn, PrintsAs, end_of};
    ghost use Rattle.lab_session.specs.Lines.{StaysUnsettled};

    /// Carries out a line that isn't short: as one that `hidrun` alone has where its first word says so, else as one of the bench.
    #[inline(never)] // a short line makes no room for what another one says
    pub(super) fn longer_line<'a, W: Sink>(
        &mut self,
        line: &'a [u8],
        writer: &mut W,
    ) -> Result<Option<Asked<'a>>, LabCause>
        requires { short_of (meaning_of line.now) ≡ None }
        ensures does { IfOk result (λ asked. DoesLine line.now (option_map asked_said asked) self.old
            self.new (W.contents writer.old) (W.contents writer.new)) }
        ensures prints { IsPlain self.old.options → IsUndrawn (moment_of self.old) → IsScripts line.now
            → PrintsAs (W.contents writer.old) (W.contents writer.new) (meaning_of line.now)
            (session_of self.old.interpreter) (end_of result) (session_of self.new.interpreter) }
        ensures expects { ReadExpects (lab_meaning line.now) self.old.printer.transcript
            self.new.printer.transcript self.new.came.items (end_of result) }
        ensures unsettled { end_of result ≡ Err LabCause.Unsettled
            → (dev : ℕ) × StaysUnsettled dev (moment_of self.new) }
        ensures calls { EndsLab W.calls writer.old writer.new result }
    {
        if !begins_line_of_hidrun(line) {
            return self.long_line(line, writer);
        }
        match self.script_line(line, writer) {
            Ok(()) => Ok(None),
            Err(cause) => Err(LabCause::Script(cause)),
        }
    }
}
