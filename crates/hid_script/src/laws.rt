//! Laws of the definitions that the contract of `run` cites: they pin what it writes, up to where it ends.

ghost use Rattle.hid_script.specs.Laws.{LineHasOneOutcome, LinesPrintOneText, BeginsWithPrefixes, LinesAgree, LinesPrintLives, PollsBringToRest, RunsPrintLives};

use hid_layout::laws::{accepted_or_refused, one_reading, one_refusal};
use hid_stack::laws::{one_attaching, one_finding, one_telling};

/// A line has at most one text and one end: it is accepted or refused, and for one cause.
pub fn one_outcome()
    ensures { LineHasOneOutcome }
{
    one_reading();
    accepted_or_refused();
    one_refusal();
    one_telling();
    one_finding();
    one_attaching();
}

/// Lines that are all accepted have at most one text, and lead to one state.
pub fn one_text()
    ensures { LinesPrintOneText }
{
    one_outcome();
}

/// What running out of memory or the writer leaves of a line's text is a prefix of it.
pub fn prefixes()
    ensures { BeginsWithPrefixes }
{
    one_reading();
    accepted_or_refused();
    one_refusal();
    one_telling();
    one_finding();
    one_attaching();
}

/// The headline, of the text that is printed: for each device of a script, the lines printed of its events are the texts of
/// the events of its history since its attach, in order. If a run ends early, this holds of the lines before the last one, and
/// of the times of the last one that were done. No lines are printed of other devices.
pub fn histories_are_printed()
    ensures lines { LinesPrintLives }
    ensures runs { RunsPrintLives }
{}

/// No key is left stuck in a script. After lines that are all accepted, the host of each device that has nothing to send has
/// what is pressed. Last lines that poll a device cleanly as often as it needs bring it there; in between they may lose polls of
/// it, step other devices, and pass frames if it has no idle time.
pub fn devices_agree_after_lines()
    ensures agree { LinesAgree }
    ensures rest { PollsBringToRest }
{}
