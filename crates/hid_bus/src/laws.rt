//! Laws of device histories, which hold whatever runs the bus.

ghost use Rattle.std.specs.Prelude.{◌≡◌, ◌≤◌, ℕ, List, None, Ok, Some, true, false};
ghost use Rattle.std.specs.List.{filter, list_any};
ghost use Rattle.hid_layout.specs.Controls.{Item};
ghost use Rattle.hid_snapshots.specs.declared.control_state.ControlState.{ControlState};
ghost use Rattle.hid_snapshots.specs.ControlStates.{blank, FitsSnapshot, FitsShown, FitsView};
ghost use Rattle.hid_snapshots.specs.declared.change.Change.{Change};
ghost use Rattle.hid_snapshots.specs.Pieces.{pieces_for};
ghost use Rattle.hid_snapshots.specs.Snapshots.{snapshot_after};
ghost use Rattle.usb_transact.specs.declared.transaction.Fate.{Fate};
ghost use Rattle.hid_bus.specs.HistoryState.{HistoryHolds, IsQuietPoll, StandsByRounds, StandsInEpoch, history_from};
ghost use Rattle.hid_bus.specs.AbortedRounds.{HasAbortFlags, OpensNext, StaysDue};
ghost use Rattle.hid_bus.specs.DeviceHistory.{Clears, BusEvent, Halts, AreWithinEpoch, outcomes_of_events, ended_rounds, events_of_outcomes, events_of_history, state_after_all};
ghost use Rattle.hid_bus.specs.Motion.{HasMotions, KeepsMotion, KeepsAccepted, KeepsThroughHistory, AreBetweenRounds, are_accepted};
ghost use Rattle.hid_bus.specs.Convergence.{AgreesAfterCleanPolls, AgreesInTime, AreSendable, HasWhatWasPressed, RestsAfterCleanPolls, RestsInTime};
ghost use Rattle.hid_bus.specs.Agreement.{AgreesAtNak, AnswersNak, HasNothingToSend, IsUnmoved};
ghost use Rattle.hid_bus.specs.Rounds.{OwnStep, Round, reaches_host, is_clean, has_crossed, has_closed, rounds, events_of_rounds, events_of_epoch, initial_history};
ghost use Rattle.hid_bus.specs.LinkState.{LinkState, OpenRound, HasPieces, is_last, initial_link, state_after_steps, events_of_steps};

/// Over all that happens to a device, from any link state without an open round on, what is reported is the events of
/// what came of it, and the link state stands after it as that says: the view, the open round, and both toggles.
#[tactic(auto, using(crate::proofs::HistoryEventLemmas::delivers_life))]
pub fn histories_give_events()
    ensures history { (items : List Item) (from : LinkState) (bus_events : List BusEvent)
        → from.current ≡ None → HistoryHolds items from bus_events }
    ensures fresh { (items : List Item) (snapshot : List ControlState) (idle : List ℕ)
        (bus_events : List BusEvent)
        → events_of_history items (initial_link items snapshot idle) bus_events
        ≡ events_of_outcomes items (blank items)
        (outcomes_of_events items bus_events (initial_history items snapshot idle)) }
{}

/// The own steps of a device that was just configured deliver the events of its epoch.
#[tactic(auto, using(crate::proofs::ScheduleLemmas::schedules))]
pub fn epochs_give_events()
    ensures { (items : List Item) (snapshot : List ControlState) (idle : List ℕ)
        (steps : List OwnStep)
        → events_of_steps items (initial_link items snapshot idle) steps
        ≡ events_of_epoch items snapshot idle steps }
{}

/// The rounds of a device's own steps say all, from any link state without an open round on: what the steps deliver,
/// and how the link state stands after them.
#[tactic(auto, using(crate::proofs::ScheduleLemmas::schedules))]
pub fn rounds_say_all()
    ensures events { (items : List Item) (from : LinkState) (steps : List OwnStep)
        → from.current ≡ None → events_of_steps items from steps
        ≡ events_of_rounds items from.view
        (filter has_crossed (rounds items steps (history_from from))) }
    ensures stands { (items : List Item) (from : LinkState) (steps : List OwnStep)
        → from.current ≡ None
        → StandsByRounds items from steps (state_after_steps items from steps) }
{}

/// The rounds of an epoch say all too where idle times are set in it, also while a round is open: what is reported is
/// the events of the rounds that crossed, and both ends stand after it as the rounds say.
#[tactic(auto, using(crate::proofs::ScheduleLemmas::epochs))]
pub fn rounds_say_all_of_an_epoch()
    ensures events { (items : List Item) (from : LinkState) (bus_events : List BusEvent)
        → from.current ≡ None → AreWithinEpoch bus_events → events_of_history items from bus_events
        ≡ events_of_rounds items from.view (filter has_crossed
        (ended_rounds (outcomes_of_events items bus_events (history_from from)))) }
    ensures stands { (items : List Item) (from : LinkState) (bus_events : List BusEvent)
        → from.current ≡ None → AreWithinEpoch bus_events
        → StandsInEpoch items from bus_events (state_after_all items from bus_events) }
{}

/// A report is delivered whole or not at all: a poll of a piece before the last delivers nothing and keeps the view, whatever
/// is lost. (When the last piece crosses, the part that was fixed as the round opened is delivered:
/// `histories_give_events`.)
#[tactic(auto, using(crate::proofs::PieceLemmas::pieces))]
pub fn reports_cross_whole()
    ensures { (items : List Item) (s : LinkState) (round : OpenRound) (fate : Fate)
        → s.current ≡ Some round → is_last round ≡ false → IsQuietPoll items s fate }
{}

/// A report of at most 64 bytes is one piece, and its round crosses at the first poll that reaches the host, and closes at
/// the first of which nothing is lost.
#[tactic(auto, using(crate::proofs::PieceLemmas::pieces))]
pub fn short_reports_are_one_piece()
    ensures pieces { (bytes : ℕ) → bytes ≤ 64 → pieces_for bytes ≡ 1 }
    ensures crosses { (round : Round) → round.pieces ≡ 1
        → has_crossed round ≡ list_any reaches_host round.polls }
    ensures closes { (round : Round) → round.pieces ≡ 1
        → has_closed round ≡ list_any is_clean round.polls }
{}

/// The piece at hand is one of its report's, after any history from a configuration on.
pub fn open_rounds_have_a_piece()
    ensures fresh { (items : List Item) (snapshot : List ControlState) (idle : List ℕ)
        → HasPieces items (initial_link items snapshot idle) }
    ensures lived { (items : List Item) (s : LinkState) (bus_events : List BusEvent)
        → HasPieces items s
        → HasPieces items (state_after_all items s bus_events) }
{}

/// A halt or a clear loses no report: where it aborts a round, whether that had crossed or not, its report is due
/// after it, through any changes, frames, idle times, further halts and clears, and polls that are lost, silent or of
/// other reports, until a round of it opens. That is so of each link state with an abort flag for each report, as those are
/// after any history from a configuration on; and where a report is due, no round is open and the endpoint isn't
/// halted, the next token that arrives opens a round, of that report or of a due one before it.
pub fn halts_lose_nothing()
    ensures halts { (items : List Item) (s : LinkState) (bus_events : List BusEvent)
        → StaysDue items s Halts bus_events }
    ensures clears { (items : List Item) (s : LinkState) (bus_events : List BusEvent)
        → StaysDue items s Clears bus_events }
    ensures next { (items : List Item) (s : LinkState) (report : ℕ) → OpensNext items s report }
    ensures fresh { (items : List Item) (snapshot : List ControlState) (idle : List ℕ)
        → HasAbortFlags (initial_link items snapshot idle) }
    ensures lived { (items : List Item) (s : LinkState) (bus_events : List BusEvent)
        → HasAbortFlags s
        → HasAbortFlags (state_after_all items s bus_events) }
{}

/// Steps neither lose nor double the motion of a control: what a link state had of it and what accepted moves added is
/// what was delivered of it and what the link state still has. A link state keeps its motions after any steps. Idle times
/// that are set lose no motion either. Halts, clears and resets lose none, since what they drop is delivered as dropped.
/// Configurations lose none where no round is open.
#[tactic(auto, using(crate::proofs::MotionLemmas::keeps))]
pub fn motion_is_kept()
    ensures kept { (items : List Item) (s : LinkState) → HasMotions items s → (steps : List OwnStep)
        → KeepsMotion items s steps }
    ensures accepted { (items : List Item) (s : LinkState) → HasMotions items s
        → (steps : List OwnStep) → are_accepted items s steps ≡ true → KeepsAccepted items s steps }
    ensures suits { (items : List Item) (s : LinkState) → FitsSnapshot items s.reports.snapshot
        → FitsShown items s.reports.fixed → FitsView items s.view → HasMotions items s }
    ensures fresh { (items : List Item) (idle : List ℕ)
        → HasMotions items (initial_link items (blank items) idle) }
    ensures after { (items : List Item) (s : LinkState) (steps : List OwnStep) → HasMotions items s
        → HasMotions items (state_after_steps items s steps) }
    ensures history { (items : List Item) (s : LinkState) → HasMotions items s
        → (bus_events : List BusEvent)
        → AreBetweenRounds items s bus_events → KeepsThroughHistory items s bus_events }
    ensures lived { (items : List Item) (s : LinkState) (bus_events : List BusEvent)
        → HasMotions items s
        → HasMotions items (state_after_all items s bus_events) }
{}

/// No key is left stuck. After any history of a device that was just configured, if a poll is answered by NAK, the host has what is
/// pressed and each value, and no motion is left to report. (It keeps the keys that it had of an array with more keys pressed than
/// elements.) A poll is answered by NAK exactly if the device has nothing to send. Such a poll delivers nothing and changes neither
/// end.
pub fn no_key_is_left_stuck()
    ensures nak { (items : List Item) (s : LinkState) → AnswersNak items s → HasNothingToSend items s }
    ensures silent { (items : List Item) (s : LinkState) → HasNothingToSend items s → AnswersNak items s }
    ensures quiet { (items : List Item) (s : LinkState) (fate : Fate) → IsUnmoved items s fate }
    ensures agrees { (items : List Item) (snapshot : List ControlState) (idle : List ℕ)
        (bus_events : List BusEvent) → AgreesAtNak items snapshot idle bus_events }
{}

/// A device comes to rest. If its controls stay as they are, its endpoint isn't halted and frames pass only if no idle time is set,
/// a number of polls that lose nothing is enough: one for each piece that the open round has left, and the pieces of each report,
/// once for each round that its motions need, and once at least if it is due. After that many the device has nothing to send, and
/// its host agrees. If at most `most_lost` polls in a row lose something, `most_lost + 1` times as many polls are enough. Polls and
/// frames leave what is pressed, so the host then has what was pressed when changes stopped (`kept`).
pub fn devices_come_to_rest()
    ensures clean { (items : List Item) (snapshot : List ControlState) (idle : List ℕ)
        (bus_events : List BusEvent) (rounds : ℕ → ℕ) (steps : List OwnStep)
        → RestsAfterCleanPolls items snapshot idle bus_events rounds steps }
    ensures fair { (most_lost : ℕ) (items : List Item) (snapshot : List ControlState)
        (idle : List ℕ) (bus_events : List BusEvent) (rounds : ℕ → ℕ) (steps : List OwnStep)
        → RestsInTime most_lost items snapshot idle bus_events rounds steps }
    ensures counted { (items : List Item) (snapshot : List ControlState) (idle : List ℕ)
        (bus_events : List BusEvent) (steps : List OwnStep)
        → AgreesAfterCleanPolls items snapshot idle bus_events steps }
    ensures needed { (most_lost : ℕ) (items : List Item) (snapshot : List ControlState)
        (idle : List ℕ) (bus_events : List BusEvent) (steps : List OwnStep)
        → AgreesInTime most_lost items snapshot idle bus_events steps }
    ensures kept { (items : List Item) (snapshot : List ControlState) (idle : List ℕ)
        (bus_events : List BusEvent) (steps : List OwnStep)
        → HasWhatWasPressed items snapshot idle bus_events steps }
    ensures blank { (items : List Item) → AreSendable items (blank items) }
    ensures changed { (items : List Item) (snapshot after : List ControlState) (change : Change)
        → AreSendable items snapshot → snapshot_after items snapshot change ≡ Ok after
        → AreSendable items after }
{}
