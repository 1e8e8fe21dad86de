//! Worked values of the laws of agreement and rest, with what the premises leave out. A row is one clause; read from the top.

ghost use Rattle.std.specs.Prelude.{◌≡◌, [], ◌∷◌, ◌++◌, true, false, Some, None, pos, negsuc};
ghost use Rattle.hid_layout.specs.declared.control.ControlKind.TheVariants.{Relative};
ghost use Rattle.hid_layout.specs.Controls.{Elements, input_item};
ghost use Rattle.hid_snapshots.specs.ControlStates.{blank};
ghost use Rattle.hid_snapshots.specs.Parts.{has_zeros};
ghost use Rattle.hid_snapshots.specs.Samples.{keyboard, mouse, wheel_and_button, byte_values, usage};
ghost use Rattle.hid_snapshots.specs.Snapshots.{is_pressed, state_at};
ghost use Rattle.usb_transact.specs.declared.transaction.Fate.TheVariants as fate;
ghost use Rattle.hid_bus.specs.Agreement.{has_too_many_keys};
ghost use Rattle.hid_bus.specs.Convergence.{polls_needed, rounds_needed};
ghost use Rattle.hid_bus.specs.DeviceHistory.{Clears, Configures, Halts, Idles, steps_as_events};
ghost use Rattle.hid_bus.specs.LinkState.{initial_link, state_after_steps};
ghost use Rattle.hid_bus.specs.ReportState.{first_due};
ghost use Rattle.hid_bus.specs.Rounds.{Frame, Polls};
ghost use Rattle.hid_bus.specs.WorkedHistories.{state_after_events, state_after_own_steps, press, release, move, set};

/// A pressed key is pressed at the host too once nothing is due, whatever was lost or halted before; until then it may not be.
pub fn keys_agree_where_nothing_is_due()
    ensures rests_after_a_lost_ack { first_due keyboard (state_after_own_steps keyboard (press 4 4 ∷ Polls fate.AckLost ∷ Polls fate.Clean ∷ [])).reports ≡ None }
    ensures pressed_then { is_pressed (state_at (state_after_own_steps keyboard (press 4 4 ∷ Polls fate.AckLost ∷ Polls fate.Clean ∷ [])).view 4) 4 ≡ true }
    ensures not_yet_in_a_round { is_pressed (state_at (state_after_own_steps keyboard (press 4 4 ∷ Polls fate.ReplyLost ∷ [])).view 4) 4 ≡ false }
    ensures stuck_until_a_round { is_pressed (state_at (state_after_own_steps keyboard (press 4 4 ∷ Polls fate.Clean ∷ release 4 4 ∷ [])).view 4) 4 ≡ true }
    ensures due_until_then { first_due keyboard (state_after_own_steps keyboard (press 4 4 ∷ Polls fate.Clean ∷ release 4 4 ∷ [])).reports ≡ Some 0 }
    ensures released_in_a_halt { is_pressed (state_at (state_after_events keyboard 0
        (steps_as_events (press 4 4 ∷ Polls fate.Clean ∷ press 4 5 ∷ Polls fate.ReplyLost ∷ []) ++ Halts
        ∷ steps_as_events (release 4 4 ∷ release 4 5 ∷ []) ++ Clears ∷ steps_as_events (Polls fate.Clean ∷ []))).view 4) 4 ≡ false }
{}

/// What the premises leave out: keys of an array with too many pressed, reports beyond those that have frames, and idle times that
/// are set for too few reports. Nothing is due then, and the host doesn't have the key, or still has one that was released.
pub fn premises_of_agreement_are_needed()
    ensures too_many { has_too_many_keys keyboard (state_after_own_steps keyboard
        (press 4 4 ∷ press 4 5 ∷ press 4 6 ∷ press 4 7 ∷ press 4 8 ∷ press 4 9 ∷ press 4 10 ∷ Polls fate.Clean ∷ [])).reports.snapshot 4 ≡ true }
    ensures rolled_over_is_not_due { first_due keyboard (state_after_own_steps keyboard
        (press 4 4 ∷ press 4 5 ∷ press 4 6 ∷ press 4 7 ∷ press 4 8 ∷ press 4 9 ∷ press 4 10 ∷ Polls fate.Clean ∷ [])).reports ≡ None }
    ensures rolled_over_is_not_seen { is_pressed (state_at (state_after_own_steps keyboard
        (press 4 4 ∷ press 4 5 ∷ press 4 6 ∷ press 4 7 ∷ press 4 8 ∷ press 4 9 ∷ press 4 10 ∷ Polls fate.Clean ∷ [])).view 4) 4 ≡ false }
    ensures released_in_rollover_is_not_due { first_due keyboard (state_after_own_steps keyboard
        (press 4 4 ∷ Polls fate.Clean ∷ press 4 5 ∷ press 4 6 ∷ press 4 7 ∷ press 4 8 ∷ press 4 9 ∷ press 4 10 ∷ press 4 11
        ∷ Polls fate.Clean ∷ release 4 4 ∷ Polls fate.Clean ∷ [])).reports ≡ None }
    ensures released_in_rollover_stays { is_pressed (state_at (state_after_own_steps keyboard
        (press 4 4 ∷ Polls fate.Clean ∷ press 4 5 ∷ press 4 6 ∷ press 4 7 ∷ press 4 8 ∷ press 4 9 ∷ press 4 10 ∷ press 4 11
        ∷ Polls fate.Clean ∷ release 4 4 ∷ Polls fate.Clean ∷ [])).view 4) 4 ≡ true }
    ensures no_frames_for_its_report { first_due wheel_and_button
        (state_after_own_steps wheel_and_button (press 1 0 ∷ Polls fate.Clean ∷ [])).reports ≡ None }
    ensures never_seen { is_pressed (state_at
        (state_after_own_steps wheel_and_button (press 1 0 ∷ Polls fate.Clean ∷ [])).view 1) 0 ≡ false }
    ensures idle_times_of_no_report { first_due keyboard (state_after_events keyboard 0
        (Idles [] ∷ Configures ∷ steps_as_events (press 4 4 ∷ []))).reports ≡ None }
{}

/// The polls that a device needs: none at rest, one for a key, one for each 127 that a mouse moves, and one for each piece.
pub fn polls_are_counted()
    ensures at_rest { polls_needed keyboard (state_after_own_steps keyboard []) ≡ 0 }
    ensures one_for_keys { polls_needed keyboard (state_after_own_steps keyboard (press 4 4 ∷ press 4 5 ∷ [])) ≡ 1 }
    ensures one_in_a_round { polls_needed keyboard (state_after_own_steps keyboard (press 4 4 ∷ Polls fate.AckLost ∷ [])) ≡ 1 }
    ensures two_where_more_came { polls_needed keyboard (state_after_own_steps keyboard (press 4 4 ∷ Polls fate.AckLost ∷ press 4 5 ∷ [])) ≡ 2 }
    ensures two_for_200 { polls_needed mouse (state_after_own_steps mouse (move 2 0 (pos 200) ∷ [])) ≡ 2 }
    ensures two_the_other_way { polls_needed mouse (state_after_own_steps mouse (move 2 1 (negsuc 199) ∷ [])) ≡ 2 }
    ensures seventy_nine { rounds_needed mouse (state_after_own_steps mouse (move 2 0 (pos 10000) ∷ [])).reports 0 ≡ 79 }
    ensures rests_after_two { first_due mouse (state_after_own_steps mouse (move 2 0 (pos 200) ∷ Polls fate.Clean ∷ Polls fate.Clean ∷ [])).reports ≡ None }
    ensures not_after_one { first_due mouse (state_after_own_steps mouse (move 2 0 (pos 200) ∷ Polls fate.Clean ∷ [])).reports ≡ Some 0 }
    ensures two_pieces { polls_needed (byte_values 65) (state_after_own_steps (byte_values 65) (set 0 0 (pos 5) ∷ [])) ≡ 2 }
    ensures one_piece_left { polls_needed (byte_values 65) (state_after_own_steps (byte_values 65) (set 0 0 (pos 5) ∷ Polls fate.Clean ∷ [])) ≡ 1 }
{}

/// What the premises of rest leave out: a button of a later report waits while the wheel turns, or while the idle time of an earlier
/// report is over at each poll; and a control that can't report 0 is due for ever.
pub fn premises_of_rest_are_needed()
    ensures later_report_waits { is_pressed (state_at
        (state_after_steps wheel_and_button (initial_link wheel_and_button (blank wheel_and_button) (0 ∷ 0 ∷ []))
        (press 1 0 ∷ move 0 0 (pos 1) ∷ Polls fate.Clean ∷ move 0 0 (pos 1) ∷ Polls fate.Clean ∷ move 0 0 (pos 1) ∷ Polls fate.Clean ∷ [])).view 1) 0 ≡ false }
    ensures it_crosses_then { is_pressed (state_at
        (state_after_steps wheel_and_button (initial_link wheel_and_button (blank wheel_and_button) (0 ∷ 0 ∷ []))
        (press 1 0 ∷ move 0 0 (pos 1) ∷ Polls fate.Clean ∷ move 0 0 (pos 1) ∷ Polls fate.Clean ∷ Polls fate.Clean ∷ [])).view 1) 0 ≡ true }
    ensures report_waits_for_idle_time { is_pressed (state_at
        (state_after_steps wheel_and_button (initial_link wheel_and_button (blank wheel_and_button) (1 ∷ 0 ∷ []))
        (press 1 0 ∷ Polls fate.Clean ∷ release 1 0 ∷ Frame ∷ Frame ∷ Frame ∷ Frame ∷ Polls fate.Clean ∷ Frame ∷ Frame ∷ Frame ∷ Frame ∷ Polls fate.Clean ∷ [])).view 1) 0 ≡ true }
    ensures no_zero { has_zeros (input_item 0 2 (Elements Relative (pos 1) (pos 127) (usage 1 0x30 ∷ usage 1 0x31 ∷ [])) ∷ []) ≡ false }
    ensures due_again { first_due (input_item 0 2 (Elements Relative (pos 1) (pos 127) (usage 1 0x30 ∷ usage 1 0x31 ∷ [])) ∷ [])
        (state_after_own_steps (input_item 0 2 (Elements Relative (pos 1) (pos 127) (usage 1 0x30 ∷ usage 1 0x31 ∷ [])) ∷ [])
        (move 0 0 (pos 1) ∷ Polls fate.Clean ∷ Polls fate.Clean ∷ Polls fate.Clean ∷ [])).reports ≡ Some 0 }
{}
