//! Laws of the definitions that the contracts of the bench cite.

ghost use Rattle.lab_session.specs.Laws.{ClicksAreParts, KeysAreParts, ShortLinesAreParts, LinesAreParts, LinesOfScripts, PartsJoin, PartsPrintLives, PollsHaveFates, RunsAreOne, ScriptsThatEndWell};

use hid_script::laws::one_outcome;

/// Each new line is a list of parts: what it does and prints is what the parts do and print, one after the other. A short line
/// of a script is too, whatever is drawn of its polls and tries.
pub fn lines_are_parts()
    ensures clicks { ClicksAreParts }
    ensures keys { KeysAreParts }
    ensures short { ShortLinesAreParts }
    ensures any { LinesAreParts }
{}

/// What lines do in turn is what their parts do, one list after the other.
pub fn parts_join()
    ensures { PartsJoin }
{}

/// After `lose D PERCENT SEED` the polls of the device of which nothing is said have the fates that follow from PERCENT and SEED: a
/// list that is a function of them.
pub fn losses_are_listed()
    ensures { PollsHaveFates }
{}

/// The headline, of the text that parts print: for each device of a run, the lines printed of its events are the texts of the
/// events of its history since its attach, in order, and no lines are printed of other devices.
pub fn histories_are_printed()
    ensures { PartsPrintLives }
{}

/// A script that `hidrun` carries out to its end is one that the bench carries out as there, whatever stands in it: each of its
/// lines says the same to the bench ([`run_text`](super::run_text)).
pub fn scripts_are_no_news()
    ensures lines { LinesOfScripts }
    ensures scripts { ScriptsThatEndWell }
{}

/// Two runs of the same lines, by `hidrun` or by the bench, write the same and end the same, unless memory, the reader or the writer
/// ended one of them.
pub fn runs_are_one()
    ensures { RunsAreOne }
{
    one_outcome();
}
