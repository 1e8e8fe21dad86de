//! Devices that change while a USB/IP host has them: a connection to exported devices, the clock, and a list of actions.
//! ```text
//!   host                                  Serving                         ExportedDevice
//!   CMD_SUBMIT for a report           ->  take: 0, it waits
//!                                         turn: Acted                     a key goes down
//!   RET_SUBMIT, 00 00 04 00 ..        <-  turn: Sends(56)                 the report is taken
//!                                         turn: Waits                     nobody asks
//!   CMD_SUBMIT for a report           ->  take: 0, it waits
//!                                         turn: Acted                     the key goes up
//!   RET_SUBMIT, 00 00 00 00 ..        <-  turn: Sends(56)
//!   CMD_SUBMIT, 21 09 00 02 .., 02    ->  take: its reply, and that the Output report 0 was set
//!                                         pass: so many frames            idle times go on
//! ```
//! It reads and writes nothing itself, never waits, and takes no memory: the caller has the bytes, the devices and the time.
//!
//! The rule to know: **an action comes once the host asks for a report and none is due**, so all that happened before it was taken.
//! None is lost in another, and none is merged with another, however many come in a row.
//!
//! The promise: what a turn does, when it does it, and which change is refused, is the clause of [`Serving::turn`]. What comes of
//! bytes, and which report they set, are `taken` and `told` on [`Serving::take`]; that frames pass by the clock is `devices` on
//! [`Serving::pass`].
//! ```text
//!   let mut serving = Serving::new();
//!   serving.wants();                                             // 8
//!   serving.take(&mut devices, &bytes, &mut room)?;              // Taken { length: 0, set: None }
//!   serving.turn(&mut devices, &actions, 0, &mut room)?;         // Turn::Waits: no device is imported
//! ```
#![tactic(auto)]

mod action;
mod serving;
mod set_report;
mod words;

pub use action::{Action, Turn};
pub use serving::{MAX_FRAMES, Serving};
pub use set_report::{SetReport, Taken};
pub use words::export_words;
