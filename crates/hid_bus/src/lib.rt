//! What can happen on a bus of devices and their hosts: the steps of the bus with their results, and a model of one device and
//! its host (USB 2.0, 7.1.7.5, 8.4.3, 8.5.3, 8.5.4, 8.6, 9.1.1, 9.4.5 and 9.4.7; HID 1.11, 7.2.4). Types, definitions and their
//! laws; no code.
//! ```text
//!   Step                       what is sent                     Told                 Delivered, each with its device
//!   Change, Frame, Begin       nothing                          Quiet                nothing
//!   Poll                       a transaction, under a fate      Polled: reply, took  1 down 07:04
//!   Control                    a try of a transfer              Transfer: progress   1 dropped 01:30 5
//!   Halt, Reset                nothing                          Quiet                1 up 07:04
//!
//!   what happens to a device                its outcome                events of its host
//!   press, frame, poll, idle times,     a round ended, both ends       down 07:04
//!   configuration, halt, clear, reset       begin again                    ^
//!          |                                ^        |                   |
//!          +--- RoundHistory: round --------+        +-events_of_outcomes+
//!          |        no toggle, no view                                   |
//!          +--- LinkState: round, toggle, view ------ events_of_history -+
//! ```
//! Devices are numbered from 1, and each step but a frame names its device. `hid_stack` says what steps make of a bus, and
//! `hid_text` prints them without knowing the bus.
//!
//! A round history keeps whole rounds, with the fates of their polls. A link state keeps what both ends know, and no more.
//!
//! The rule to know: a round's part is the one that was fixed when the round opened, and it gives its events where it crossed,
//! once. A report of over 64 bytes goes in pieces, each with its own toggle, and its round crosses with the last one. A halt
//! and a clear abort the open round: its report is due again, and motion that hadn't crossed is dropped.
//!
//! The promise, for every list of bus events:
//! - The link state delivers the outcomes of the round history, and its state follows from them:
//! [`laws::histories_give_events`].
//! - Motion is neither lost nor doubled: [`laws::motion_is_kept`].
//! - A report whose round was aborted is due until one opens: [`laws::halts_lose_nothing`].
//! - A report is delivered whole or not at all: [`laws::reports_cross_whole`].
//! - No key is left stuck: if a poll is answered by NAK, the host has what is pressed: [`laws::no_key_is_left_stuck`].
//! - If nothing changes any more, a device comes to rest within a number of polls: [`laws::devices_come_to_rest`].
//! - Two lists, one after the other, deliver of a device what the first delivers, and then what the second does.
#![tactic(auto)]

pub mod laws;
mod start;
mod step;
pub mod worked_agreement;
pub mod worked_histories;

pub use start::Start;
pub use step::{Delivered, Step, Told};
