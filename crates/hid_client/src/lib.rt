//! A client of the rig: what a program knows of a device by the public contracts of `hid_stack` alone (USB 2.0, 8.5.4 and
//! 8.6).
//! ```text
//!   play(alloc, &config, &KEYBOARD, &steps, key)      Rig::new, attach, run, host; HostDevice::view; View::held
//!     press 07:04, poll with a lost ACK,
//!     press 07:05, poll, poll          ------------>  Played { events: down 07:04, down 07:05; is_held: true }
//! ```
//! It attaches one device to a bus of its own, runs steps, and looks at one control in the host's view.
//!
//! The rule to know: its promise follows from the clauses `new` and `memory` on `Rig::new`, `attached` and `attaches` on
//! `Rig::attach`, `headline`, `rounds` and `stops` on `Rig::run`, and `shows` and `none` on `Rig::host`, and from nothing
//! inside them.
//!
//! The promise, for every descriptor that is accepted and steps without transfers, halts and resets: the events are those of
//! the rounds that crossed, and the control is held exactly where the view that took their parts holds it: `played` on
//! [`play`]. On `Err` memory ran out, or the device or a step was refused: `refused`.
#![tactic(auto)]

mod playing;

pub use playing::{Played, play};

#[cfg(test)]
mod tests;
