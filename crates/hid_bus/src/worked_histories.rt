//! Worked histories: each row is worked out by hand, and a wrong one fails the check. A row is one clause; read from the top.

ghost use Rattle.std.specs.Prelude.{◌≡◌, [], ◌∷◌, ◌++◌, replicate, true, false, Some, None, pos};
ghost use Rattle.hid_snapshots.specs.Events.{control_at};
ghost use Rattle.hid_snapshots.specs.Samples.{keyboard, mouse, wheel_and_button, byte_values, byte_motions};
ghost use Rattle.usb_transact.specs.declared.transaction.Fate.TheVariants as fate;
ghost use Rattle.hid_bus.specs.DeviceHistory.{Clears, Configures, Halts, Idles, Resets, steps_as_events};
ghost use Rattle.hid_bus.specs.Motion.{link_motion};
ghost use Rattle.hid_bus.specs.Rounds.{Frame as AFrame, Polls};
ghost use Rattle.hid_bus.specs.WorkedHistories.{HistoryGives, state_after_events, with_frames, press, release, move, set, key_down, key_up, button_down, button_up, motion_x, drop_x, value_x, first_motion_x, first_drop_x, open_at, state_after_own_steps};
ghost use Rattle.hid_bus.specs.ReportState.{after_frame, due_where, first_due, with_abort, with_idle};
ghost use Rattle.hid_bus.specs.LinkState.{expected_toggle};

/// A lost acknowledgement: the report is sent again and delivered once.
pub fn acknowledgement_is_lost()
    ensures told_once { HistoryGives keyboard 0
        (steps_as_events
        (press 4 4 ∷ Polls fate.AckLost ∷ press 4 5 ∷ Polls fate.Clean ∷ Polls fate.Clean
        ∷ []))
        (key_down 4 ∷ key_down 5 ∷ []) }
    ensures host_is_ahead { expected_toggle
        (state_after_own_steps keyboard (press 4 4 ∷ Polls fate.AckLost ∷ []))
        ≡ true }
    ensures device_is_not { (state_after_own_steps keyboard (press 4 4 ∷ Polls fate.AckLost ∷ [])).toggle
        ≡ false }
{}

/// A second configuration restarts both ends: pressed keys are reported again, and those that were released meanwhile are
/// reported no more.
pub fn device_is_configured_again()
    ensures pressed_still { HistoryGives keyboard 0
        (steps_as_events (press 4 4 ∷ Polls fate.Clean ∷ []) ++ Configures
        ∷ steps_as_events (Polls fate.Clean ∷ []))
        (key_down 4 ∷ key_down 4 ∷ []) }
    ensures let_go_meanwhile { HistoryGives keyboard 0
        (steps_as_events (press 4 4 ∷ Polls fate.Clean ∷ release 4 4 ∷ []) ++ Configures
        ∷ steps_as_events (Polls fate.Clean ∷ press 4 5 ∷ Polls fate.Clean ∷ []))
        (key_down 4 ∷ key_down 5 ∷ []) }
    ensures odd_before { (state_after_own_steps keyboard (press 4 4 ∷ Polls fate.Clean ∷ [])).toggle
        ≡ true }
    ensures even_after { (state_after_events keyboard 0
        (steps_as_events (press 4 4 ∷ Polls fate.Clean ∷ []) ++ Configures ∷ [])).toggle ≡ false }
{}

/// A configuration ends the round that is open: its part is delivered if it crossed, and only then.
pub fn device_is_configured_in_a_round()
    ensures crossed { HistoryGives mouse 0
        (steps_as_events (press 0 0 ∷ move 2 0 (pos 5) ∷ Polls fate.AckLost ∷ []) ++ Configures
        ∷ steps_as_events (Polls fate.Clean ∷ []))
        (button_down ∷ motion_x (pos 5) ∷ button_down
        ∷ []) }
    ensures its_motion_is_lost { HistoryGives mouse 0
        (steps_as_events (press 0 0 ∷ move 2 0 (pos 5) ∷ Polls fate.ReplyLost ∷ []) ++ Configures
        ∷ steps_as_events (Polls fate.Clean ∷ []))
        (button_down ∷ []) }
    ensures nothing_is_left { link_motion mouse (state_after_events mouse 0
        (steps_as_events (move 2 0 (pos 5) ∷ Polls fate.ReplyLost ∷ []) ++ Configures ∷ []))
        (control_at 2 0) ≡ pos 0 }
    ensures no_round_is_open { (state_after_events mouse 0
        (steps_as_events (move 2 0 (pos 5) ∷ Polls fate.ReplyLost ∷ []) ++ Configures ∷ [])).current
        ≡ None }
    ensures motion_between_rounds_stays { HistoryGives mouse 0
        (steps_as_events (move 2 0 (pos 5) ∷ []) ++ Configures
        ∷ steps_as_events (Polls fate.Clean ∷ []))
        (motion_x (pos 5) ∷ []) }
{}

/// The bus is reset: pressed keys go up at the host and are reported again after the next configuration. Motion of a round
/// is delivered once, or dropped once if the round hadn't crossed; motion that no round carried stays. No idle time and
/// no odd toggle is left, and a second reset delivers nothing.
pub fn bus_is_reset()
    ensures crossed { HistoryGives mouse 0
        (steps_as_events (press 0 0 ∷ move 2 0 (pos 5) ∷ Polls fate.AckLost ∷ []) ++ Resets
        ∷ Configures
        ∷ steps_as_events (Polls fate.Clean ∷ []))
        (button_down ∷ motion_x (pos 5) ∷ button_up ∷ button_down ∷ []) }
    ensures not_crossed { HistoryGives mouse 0
        (steps_as_events (move 2 0 (pos 5) ∷ Polls fate.ReplyLost ∷ []) ++ Resets ∷ [])
        (drop_x (pos 5) ∷ []) }
    ensures rest_stays { HistoryGives mouse 0
        (steps_as_events
        (press 0 0 ∷ Polls fate.Clean ∷ move 2 0 (pos 200) ∷ Polls fate.ReplyLost ∷ [])
        ++ Resets ∷ Configures ∷ steps_as_events (Polls fate.Clean ∷ []))
        (button_down ∷ button_up ∷ drop_x (pos 127) ∷ button_down ∷ motion_x (pos 73) ∷ []) }
    ensures nothing_is_left { link_motion mouse (state_after_events mouse 0
        (steps_as_events (move 2 0 (pos 5) ∷ Polls fate.ReplyLost ∷ []) ++ Resets ∷ [])) (control_at 2 0)
        ≡ pos 0 }
    ensures never_goes_again { (state_after_events keyboard 1
        (steps_as_events (press 4 4 ∷ []) ++ Resets ∷ Configures
        ∷ steps_as_events (Polls fate.Clean ∷ replicate 4 AFrame ++ Polls fate.Clean ∷ []))).toggle
        ≡ true }
    ensures host_is_even { expected_toggle (state_after_events keyboard 0
        (steps_as_events (press 4 4 ∷ Polls fate.AckLost ∷ []) ++ Resets ∷ [])) ≡ false }
    ensures nothing_twice { HistoryGives keyboard 0
        (steps_as_events (press 4 4 ∷ Polls fate.Clean ∷ []) ++ Resets ∷ Resets ∷ [])
        (key_down 4 ∷ key_up 4 ∷ []) }
{}

/// The endpoint is halted in a round: its motion is dropped if the round hadn't crossed, and delivered once if it had. After
/// the clear pressed keys are reported, a key that was released meanwhile goes up, and a press that never crossed is never
/// reported.
pub fn endpoint_is_halted_in_a_round()
    ensures not_crossed { HistoryGives mouse 0
        (steps_as_events (press 0 0 ∷ move 2 0 (pos 5) ∷ Polls fate.ReplyLost ∷ []) ++ Halts
        ∷ steps_as_events (Polls fate.Clean ∷ []) ++ Clears
        ∷ steps_as_events (Polls fate.Clean ∷ []))
        (drop_x (pos 5) ∷ button_down ∷ []) }
    ensures crossed { HistoryGives mouse 0
        (steps_as_events (move 2 0 (pos 5) ∷ Polls fate.AckLost ∷ []) ++ Halts ∷ Clears
        ∷ steps_as_events (Polls fate.Clean ∷ []))
        (motion_x (pos 5) ∷ []) }
    ensures no_key_is_lost { HistoryGives keyboard 0
        (steps_as_events (press 4 4 ∷ Polls fate.Clean ∷ press 4 5 ∷ Polls fate.ReplyLost ∷ [])
        ++ Halts
        ∷ steps_as_events (release 4 4 ∷ Polls fate.Clean ∷ []) ++ Clears
        ∷ steps_as_events (Polls fate.Clean ∷ []))
        (key_down 4 ∷ key_up 4 ∷ key_down 5 ∷ []) }
    ensures never_seen { HistoryGives keyboard 0
        (steps_as_events (press 4 4 ∷ Polls fate.ReplyLost ∷ []) ++ Halts
        ∷ steps_as_events (release 4 4 ∷ []) ++ Clears
        ∷ steps_as_events (Polls fate.Clean ∷ [])) [] }
    ensures rest_goes_on { HistoryGives mouse 0
        (steps_as_events (move 2 0 (pos 200) ∷ Polls fate.ReplyLost ∷ []) ++ Halts ∷ Clears
        ∷ steps_as_events (Polls fate.Clean ∷ []))
        (drop_x (pos 127) ∷ motion_x (pos 73) ∷ []) }
    ensures nothing_twice { HistoryGives mouse 0
        (steps_as_events (move 2 0 (pos 5) ∷ Polls fate.ReplyLost ∷ []) ++ Halts ∷ Halts ∷ Clears
        ∷ [])
        (drop_x (pos 5) ∷ []) }
    ensures nothing_is_left { link_motion mouse (state_after_events mouse 0
        (steps_as_events (move 2 0 (pos 5) ∷ Polls fate.ReplyLost ∷ []) ++ Halts ∷ [])) (control_at 2 0)
        ≡ pos 0 }
{}

/// A halted endpoint opens no round, whatever is due, until it is cleared, configured or reset. After a clear or a
/// configuration the first poll reports what is pressed.
pub fn halted_endpoint_is_silent()
    ensures no_round_opens { (state_after_events keyboard 0
        (Halts ∷ steps_as_events (press 4 4 ∷ Polls fate.AckLost ∷ []))).current ≡ None }
    ensures key_is_due { first_due keyboard (state_after_events keyboard 0
        (Halts ∷ steps_as_events (press 4 4 ∷ Polls fate.Clean ∷ []))).reports ≡ Some 0 }
    ensures none_goes { due_where keyboard true (state_after_events keyboard 0
        (Halts ∷ steps_as_events (press 4 4 ∷ []))).reports ≡ None }
    ensures nothing_is_told { HistoryGives keyboard 0
        (Halts ∷ steps_as_events (press 4 4 ∷ Polls fate.Clean ∷ Polls fate.AckLost ∷ [])) [] }
    ensures cleared { HistoryGives keyboard 0
        (Halts ∷ steps_as_events (press 4 4 ∷ Polls fate.Clean ∷ []) ++ Clears
        ∷ steps_as_events (Polls fate.Clean ∷ []))
        (key_down 4 ∷ []) }
    ensures configured { HistoryGives keyboard 0
        (Halts ∷ steps_as_events (press 4 4 ∷ []) ++ Configures
        ∷ steps_as_events (Polls fate.Clean ∷ []))
        (key_down 4 ∷ []) }
    ensures reset { (state_after_events keyboard 0 (Halts ∷ Resets ∷ [])).halted ≡ false }
    ensures frames_count { (state_after_events keyboard 0
        (Halts ∷ steps_as_events (replicate 3 AFrame))).reports.frames ≡ 3 ∷ [] }
{}

/// The report whose round was aborted is due, though nothing of it changed: one round of it opens after a clear,
/// which may deliver nothing, and then it is due no more. A configuration and a reset forget it.
pub fn aborted_round_is_due()
    ensures due { first_due mouse (state_after_events mouse 0
        (steps_as_events (move 2 0 (pos 5) ∷ Polls fate.AckLost ∷ []) ++ Halts ∷ [])).reports
        ≡ Some 0 }
    ensures one_round_more { (state_after_events mouse 0
        (steps_as_events (move 2 0 (pos 5) ∷ Polls fate.AckLost ∷ []) ++ Halts ∷ Clears
        ∷ steps_as_events (Polls fate.Clean ∷ Polls fate.Clean ∷ []))).toggle ≡ true }
    ensures due_no_more { first_due mouse (state_after_events mouse 0
        (steps_as_events (move 2 0 (pos 5) ∷ Polls fate.AckLost ∷ []) ++ Clears
        ∷ steps_as_events (Polls fate.ReplyLost ∷ []))).reports ≡ None }
    ensures configuration_forgets { first_due mouse (state_after_events mouse 0
        (steps_as_events (move 2 0 (pos 5) ∷ Polls fate.AckLost ∷ []) ++ Halts ∷ Configures
        ∷ [])).reports
        ≡ None }
    ensures reset_forgets { first_due mouse (state_after_events mouse 0
        (steps_as_events (move 2 0 (pos 5) ∷ Polls fate.AckLost ∷ []) ++ Halts ∷ Resets
        ∷ [])).reports ≡ None }
    ensures of_the_second_report_alone { first_due wheel_and_button
        (with_abort (Some 1) (with_frames wheel_and_button (0 ∷ 0 ∷ []))) ≡ Some 1 }
    ensures nothing_was_open { first_due mouse
        (state_after_events mouse 0 (Halts ∷ Clears ∷ [])).reports ≡ None }
{}

/// A halt leaves the device's toggle, and a clear begins both ends at DATA0, also where nothing was halted; rounds are counted
/// from there.
pub fn toggles_restart_at_a_clear()
    ensures halt_leaves_it { (state_after_events keyboard 0
        (steps_as_events (press 4 4 ∷ Polls fate.Clean ∷ press 4 5 ∷ Polls fate.AckLost ∷ [])
        ++ Halts
        ∷ [])).toggle ≡ true }
    ensures clear_is_even { (state_after_events keyboard 0
        (steps_as_events (press 4 4 ∷ Polls fate.Clean ∷ []) ++ Halts ∷ Clears ∷ [])).toggle
        ≡ false }
    ensures host_is_even { expected_toggle (state_after_events keyboard 0
        (steps_as_events (press 4 4 ∷ Polls fate.AckLost ∷ []) ++ Clears ∷ [])) ≡ false }
    ensures counted_again { (state_after_events mouse 0
        (steps_as_events (move 2 0 (pos 1) ∷ Polls fate.Clean ∷ []) ++ Clears
        ∷ steps_as_events (move 2 0 (pos 2) ∷ Polls fate.Clean ∷ []))).toggle ≡ true }
    ensures both_are_told { HistoryGives mouse 0
        (steps_as_events (move 2 0 (pos 1) ∷ Polls fate.Clean ∷ []) ++ Clears
        ∷ steps_as_events (move 2 0 (pos 2) ∷ Polls fate.Clean ∷ []))
        (motion_x (pos 1) ∷ motion_x (pos 2) ∷ []) }
{}

/// A report of a hundred bytes goes in two pieces, of 64 bytes and of 36: it is reported once, with its last piece,
/// whatever is lost on the way, and as it was when its round opened; what is set meanwhile goes into the next round.
pub fn report_goes_in_pieces()
    ensures as_it_was { HistoryGives (byte_values 100) 0
        (steps_as_events (set 0 0 (pos 7) ∷ Polls fate.AckLost ∷ set 0 0 (pos 9) ∷ Polls fate.Clean
        ∷ Polls fate.Clean ∷ []))
        (value_x (pos 7) ∷ []) }
    ensures next_round { HistoryGives (byte_values 100) 0
        (steps_as_events (set 0 0 (pos 7) ∷ Polls fate.AckLost ∷ set 0 0 (pos 9) ∷ Polls fate.Clean
        ∷ replicate 4 (Polls fate.Clean)))
        (value_x (pos 7) ∷ value_x (pos 9) ∷ []) }
    ensures nothing_before_the_last { HistoryGives (byte_values 100) 0
        (steps_as_events (set 0 0 (pos 7) ∷ Polls fate.Clean ∷ Polls fate.ReplyLost ∷ [])) [] }
    ensures last_piece_twice { HistoryGives (byte_values 100) 0
        (steps_as_events
        (set 0 0 (pos 7) ∷ Polls fate.Clean ∷ Polls fate.AckLost ∷ Polls fate.AckLost
        ∷ Polls fate.Clean ∷ []))
        (value_x (pos 7) ∷ []) }
    ensures motion_once { HistoryGives (byte_motions 100) 0
        (steps_as_events (move 0 0 (pos 200) ∷ Polls fate.AckLost ∷ replicate 3 (Polls fate.Clean)))
        (first_motion_x (pos 127) ∷ []) }
{}

/// Each piece crosses and closes by itself, and changes the toggles of both ends.
pub fn each_piece_changes_the_toggle()
    ensures second_is_at_hand { (state_after_own_steps (byte_values 100)
        (set 0 0 (pos 7) ∷ Polls fate.Clean ∷ [])).current ≡ Some (open_at 2 1 false) }
    ensures first_has_crossed { (state_after_own_steps (byte_values 100)
        (set 0 0 (pos 7) ∷ Polls fate.AckLost ∷ [])).current ≡ Some (open_at 2 0 true) }
    ensures device_at_data1 { (state_after_own_steps (byte_values 100)
        (set 0 0 (pos 7) ∷ Polls fate.Clean ∷ [])).toggle ≡ true }
    ensures host_is_ahead { expected_toggle (state_after_own_steps (byte_values 100)
        (set 0 0 (pos 7) ∷ Polls fate.AckLost ∷ [])) ≡ true }
    ensures host_at_data0 { expected_toggle (state_after_own_steps (byte_values 100)
        (set 0 0 (pos 7) ∷ Polls fate.Clean ∷ Polls fate.AckLost ∷ [])) ≡ false }
    ensures even_after_two { (state_after_own_steps (byte_values 100)
        (set 0 0 (pos 7) ∷ Polls fate.Clean ∷ Polls fate.Clean ∷ [])).toggle ≡ false }
    ensures odd_after_three { (state_after_own_steps (byte_values 129)
        (set 0 0 (pos 7) ∷ replicate 3 (Polls fate.Clean))).toggle ≡ true }
    ensures closed_after_three { (state_after_own_steps (byte_values 129)
        (set 0 0 (pos 7) ∷ replicate 3 (Polls fate.Clean))).current ≡ None }
{}

/// A report of 64 bytes is one piece, and one of 65 bytes two; the longest one has four.
pub fn full_packet_is_one_piece()
    ensures one_piece { HistoryGives (byte_values 64) 0
        (steps_as_events
        (set 0 0 (pos 7) ∷ Polls fate.Clean ∷ set 0 0 (pos 9) ∷ Polls fate.Clean ∷ []))
        (value_x (pos 7) ∷ value_x (pos 9) ∷ []) }
    ensures two_pieces { HistoryGives (byte_values 65) 0
        (steps_as_events (set 0 0 (pos 7) ∷ Polls fate.Clean ∷ [])) [] }
    ensures three_of_four { HistoryGives (byte_values 256) 0
        (steps_as_events (set 0 0 (pos 7) ∷ replicate 3 (Polls fate.Clean))) [] }
    ensures four_of_four { HistoryGives (byte_values 256) 0
        (steps_as_events (set 0 0 (pos 7) ∷ replicate 4 (Polls fate.Clean)))
        (value_x (pos 7) ∷ []) }
{}

/// A reset, a halt and a clear between the pieces of a report: its motion is dropped, also if each piece so far had
/// crossed, and nothing else of the report is delivered. After a clear the report is sent again from its first piece, so
/// that no report is made of two rounds.
pub fn round_ends_between_its_pieces()
    ensures reset { HistoryGives (byte_motions 100) 0
        (steps_as_events (move 0 0 (pos 5) ∷ Polls fate.Clean ∷ []) ++ Resets ∷ [])
        (first_drop_x (pos 5) ∷ []) }
    ensures reset_after_the_last { HistoryGives (byte_motions 100) 0
        (steps_as_events (move 0 0 (pos 5) ∷ Polls fate.Clean ∷ Polls fate.AckLost ∷ []) ++ Resets
        ∷ [])
        (first_motion_x (pos 5) ∷ []) }
    ensures halted { HistoryGives (byte_motions 100) 0
        (steps_as_events (move 0 0 (pos 5) ∷ Polls fate.AckLost ∷ []) ++ Halts ∷ Clears
        ∷ steps_as_events (Polls fate.Clean ∷ Polls fate.Clean ∷ []))
        (first_drop_x (pos 5) ∷ []) }
    ensures from_its_first_piece { HistoryGives (byte_values 100) 0
        (steps_as_events (set 0 0 (pos 7) ∷ Polls fate.Clean ∷ []) ++ Clears
        ∷ steps_as_events (set 0 0 (pos 9) ∷ Polls fate.Clean ∷ [])) [] }
    ensures as_it_is_then { HistoryGives (byte_values 100) 0
        (steps_as_events (set 0 0 (pos 7) ∷ Polls fate.Clean ∷ []) ++ Clears
        ∷ steps_as_events (set 0 0 (pos 9) ∷ Polls fate.Clean ∷ Polls fate.Clean ∷ []))
        (value_x (pos 9) ∷ []) }
    ensures counted_again { (state_after_events (byte_values 100) 0
        (steps_as_events (set 0 0 (pos 7) ∷ Polls fate.Clean ∷ []) ++ Clears ∷ [])).toggle ≡ false }
    ensures its_motion_is_kept_till_then { link_motion (byte_motions 100)
        (state_after_events (byte_motions 100) 0
        (steps_as_events (move 0 0 (pos 200) ∷ Polls fate.Clean ∷ []))) (control_at 0 0) ≡ pos 200 }
    ensures rest_stays { link_motion (byte_motions 100) (state_after_events (byte_motions 100) 0
        (steps_as_events (move 0 0 (pos 200) ∷ Polls fate.Clean ∷ []) ++ Halts ∷ [])) (control_at 0 0)
        ≡ pos 73 }
    ensures configured { HistoryGives (byte_values 100) 0
        (steps_as_events (set 0 0 (pos 7) ∷ Polls fate.Clean ∷ []) ++ Configures
        ∷ steps_as_events (Polls fate.Clean ∷ Polls fate.Clean ∷ []))
        (value_x (pos 7) ∷ []) }
{}

/// A configuration keeps the idle time: four frames after a report it is sent again, and delivers nothing new. Two rounds
/// closed since then, but only one if there is no idle time.
pub fn idle_time_outlives_a_configuration()
    ensures nothing_new { HistoryGives keyboard 1
        (steps_as_events (press 4 4 ∷ Polls fate.Clean ∷ []) ++ Configures
        ∷ steps_as_events (Polls fate.Clean ∷ replicate 4 AFrame ++ Polls fate.Clean ∷ []))
        (key_down 4 ∷ key_down 4 ∷ []) }
    ensures goes_again { (state_after_events keyboard 1
        (steps_as_events (press 4 4 ∷ Polls fate.Clean ∷ []) ++ Configures
        ∷ steps_as_events (Polls fate.Clean ∷ replicate 4 AFrame ++ Polls fate.Clean ∷ []))).toggle
        ≡ false }
    ensures once_without { (state_after_events keyboard 0
        (steps_as_events (press 4 4 ∷ Polls fate.Clean ∷ []) ++ Configures
        ∷ steps_as_events (Polls fate.Clean ∷ replicate 4 AFrame ++ Polls fate.Clean ∷ []))).toggle
        ≡ true }
{}

/// An idle time of four frames is set: four frames after its round opened the report is sent again, and delivers nothing new.
pub fn idle_time_is_set()
    ensures nothing_new { HistoryGives keyboard 0
        (Idles (1 ∷ []) ∷ steps_as_events (press 4 4 ∷ Polls fate.Clean
        ∷ replicate 3 AFrame ++ Polls fate.Clean ∷ AFrame ∷ Polls fate.Clean ∷ []))
        (key_down 4 ∷ []) }
    ensures three_frames_are_few { (state_after_events keyboard 0
        (Idles (1 ∷ []) ∷ steps_as_events (press 4 4 ∷ Polls fate.Clean
        ∷ replicate 3 AFrame ++ Polls fate.Clean ∷ []))).toggle ≡ true }
    ensures four_are_enough { (state_after_events keyboard 0
        (Idles (1 ∷ []) ∷ steps_as_events (press 4 4 ∷ Polls fate.Clean
        ∷ replicate 3 AFrame ++ Polls fate.Clean ∷ AFrame ∷ Polls fate.Clean ∷ []))).toggle
        ≡ false }
    ensures of_the_second_report_alone { first_due wheel_and_button
        (after_frame (with_idle (0 ∷ 1 ∷ []) (with_frames wheel_and_button (3 ∷ 3 ∷ []))))
        ≡ Some 1 }
    ensures ended_by_none { (state_after_events keyboard 1
        (steps_as_events (replicate 4 AFrame) ++ Idles (0 ∷ [])
        ∷ steps_as_events (Polls fate.Clean ∷ []))).toggle ≡ false }
{}

/// An idle time is set while a round is open: its part and its motion stay, and its report goes once more where the
/// time since the round opened is over.
pub fn idle_time_is_set_in_a_round()
    ensures crossed { HistoryGives mouse 0
        (steps_as_events (press 0 0 ∷ move 2 0 (pos 5) ∷ Polls fate.AckLost ∷ []) ++ Idles (1 ∷ [])
        ∷ steps_as_events (move 2 0 (pos 3) ∷ Polls fate.Clean ∷ Polls fate.Clean ∷ []))
        (button_down ∷ motion_x (pos 5) ∷ motion_x (pos 3) ∷ []) }
    ensures not_crossed { HistoryGives mouse 0
        (steps_as_events (move 2 0 (pos 5) ∷ Polls fate.ReplyLost ∷ []) ++ Idles (1 ∷ [])
        ∷ steps_as_events (move 2 0 (pos 3) ∷ Polls fate.Clean ∷ []))
        (motion_x (pos 5) ∷ []) }
    ensures its_motion_is_kept { link_motion mouse (state_after_events mouse 0
        (steps_as_events (move 2 0 (pos 5) ∷ Polls fate.ReplyLost ∷ []) ++ Idles (1 ∷ []) ∷ []))
        (control_at 2 0) ≡ pos 5 }
    ensures goes_again { (state_after_events keyboard 0
        (steps_as_events (press 4 4 ∷ Polls fate.AckLost ∷ []) ++ Idles (1 ∷ [])
        ∷ steps_as_events (replicate 4 AFrame ++ Polls fate.Clean ∷ Polls fate.Clean ∷ []))).toggle
        ≡ false }
    ensures nothing_new { HistoryGives keyboard 0
        (steps_as_events (press 4 4 ∷ Polls fate.AckLost ∷ []) ++ Idles (1 ∷ [])
        ∷ steps_as_events (replicate 4 AFrame ++ Polls fate.Clean ∷ Polls fate.Clean ∷ []))
        (key_down 4 ∷ []) }
{}

/// Frames are counted on where an idle time is set, so that it may be over at once, and up to 1,020, where the longest
/// is over.
pub fn frames_are_counted_on()
    ensures over_at_once { (state_after_events keyboard 0
        (steps_as_events (replicate 8 AFrame) ++ Idles (2 ∷ [])
        ∷ steps_as_events (Polls fate.Clean ∷ []))).toggle ≡ true }
    ensures not_yet { (state_after_events keyboard 0
        (steps_as_events (replicate 7 AFrame) ++ Idles (2 ∷ [])
        ∷ steps_as_events (Polls fate.Clean ∷ []))).toggle ≡ false }
    ensures counted_out { (state_after_events keyboard 0 (steps_as_events (replicate 1030 AFrame))).reports.frames
        ≡ 1020 ∷ [] }
    ensures longest_is_over { (state_after_events keyboard 0
        (steps_as_events (replicate 1030 AFrame) ++ Idles (255 ∷ [])
        ∷ steps_as_events (Polls fate.Clean ∷ Polls fate.Clean ∷ []))).toggle ≡ true }
    ensures a_frame_short { (state_after_events keyboard 255
        (steps_as_events (replicate 1019 AFrame ++ Polls fate.Clean ∷ []))).toggle ≡ false }
{}
