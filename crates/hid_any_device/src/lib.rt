//! Any device that keeps to the toggle protocol, and what its host delivers of it (USB 2.0, 5.7.3, 8.5.4 and 8.6). Definitions
//! and laws, and one function that uses them.
//! ```text
//!   any device                          bus                 its host
//!   reports of any bytes, queued
//!     | cut into packets
//!     v
//!   current piece  ---- DATA0 01 05 00 --------------->  takes it: a report that ends is read, and gives events
//!     | acknowledged  <------------ ACK ----- lost: sent again, and dropped, for the toggle is the other one
//!     v
//!   next piece     ---- DATA1 01 05 00 --- lost: sent again, and taken then
//! ```
//! The device of `hid_device` is one of them: [`laws::virtual_devices_are_any`].
//!
//! The rule to know: a report ends at its host with a packet that isn't full, or with as many bytes as its first byte and the
//! layout say. Nothing is promised of a device whose reports don't end there with their last packet.
//!
//! The promise: whatever such a device sends, and whatever the bus loses, its host delivers the changes between the reports that
//! crossed, in order, each once: `reports` on [`laws::any_device_is_read`]; and while no halt is cleared, each report that was
//! queued crosses once, in order, or waits: `once` on [`laws::reports_cross_once`]. None waits for ever: if at most k polls in a row
//! lose something or meet a device that doesn't send, k + 1 polls for each queued packet bring all across (`in_time`). [`read_replies`] uses public clauses alone.
#![tactic(auto)]

pub mod laws;
mod replies;

pub use replies::read_replies;

#[cfg(test)]
mod tests;
