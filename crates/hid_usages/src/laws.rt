//! Laws of the definitions that contracts cite.

ghost use Rattle.std.specs.Prelude.{◌≡◌, ℤ, List, map};
ghost use Rattle.hid_snapshots.specs.ControlStates.{are_motions};
ghost use Rattle.hid_usages.specs.PartsReadBack.{PartsAreReadBack, PartsAreTaken, SeenIsView};
ghost use Rattle.hid_usages.specs.NumbersReadBack.{ReadsBack};
ghost use Rattle.hid_usages.specs.OneReport.{SeesOneReport, IsOneReportsOwn, ShowsOneReport};
ghost use Rattle.hid_usages.specs.Reading.{read_motion};

/// Reading the numbers that a part of an item is sent as gives the view that sees the part, and the part's motions.
#[tactic(auto, using(crate::proofs::LawLemmas::back))]
pub fn reads_back()
    ensures view { ReadsBack }
    ensures motions { (least greatest : ℤ) (ms : List ℤ) → are_motions least greatest ms
        → map (read_motion least greatest) ms ≡ ms }
{}

/// Reading the bytes by which an Input report shows a part names the report, and gives the view that sees the part and
/// the events of the part: its changes and its motions, and no others. What a view sees of parts is a view again.
pub fn parts_are_read_back()
    ensures read { PartsAreReadBack }
    ensures taken { PartsAreTaken }
    ensures view { SeenIsView }
{}

/// A report shows its own part alone: parts of other reports change neither its bytes, nor the view, nor the events.
pub fn one_report_is_shown()
    ensures sees { SeesOneReport }
    ensures tells { IsOneReportsOwn }
    ensures shows { ShowsOneReport }
{}
