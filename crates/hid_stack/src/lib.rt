//! The rig that joins devices and hosts on one bus (USB 2.0, 8.5.4 and 8.6; HID 1.11, 5 to 8). (The C library is the crate
//! `hidstack`.)
//! ```text
//!   Rig                     bus                              Device                    HostDevice
//!   Step::Change ---------------------------------------->   change
//!   Step::Frame  ---------------------------------------->   frame
//!   Step::Begin                                                                        begin: a request, nothing is sent
//!   Step::Control           <---- SETUP, IN or OUT ------------------------------------ control_step: one try
//!                           ---------------------------->    endpoint 0 answers
//!   Step::Poll              <---- IN 69 81 00 ----------------------------------------- token
//!                           ---------------------------->    receive_poll: a round opens if a report is due
//!                           <---- DATA0 C3 00 00 04 .. ---   poll_response: armed until it is acknowledged
//!                           ------------------------------------------------------->   reply_ref: Down 07:04
//!                           ---- ACK 0xD2 --------------->   on_packet
//!   Step::Halt   ---------------------------------------->   halt: STALL from then on  drop_aborted_motion: Dropped 01:30 5
//!   Step::Reset  ---------------------------------------->   reset                     reset: Up 07:04
//! ```
//! Each packet goes as its bytes, and is decoded from the bytes that arrive: [`poll`] says so packet by packet, over any bus.
//! A rig's step is such a poll, and a [`Fate`](usb_transact::Fate) says what is lost of it.
//!
//! The rule to know: a device's events come from its polls, from halts and clears, which drop the motion of the round that
//! they end, and from its resets, which lead the host's view back to the initial one. A round's part is the one that was
//! fixed when the round opened.
//!
//! The promise, for every report descriptor that both ends accept:
//! - Over every list of changes, frames and polls the events delivered are exactly the changes between the successive parts
//!   that crossed, in order, none twice: `headline` on [`Rig::run`]. With transfers, halts and resets between the polls this
//!   holds from each configuration on: `history`.
//! - Each step has the result of its definition: `told`, `after` and `events` on [`Rig::step`].
//! - Each device is independent of the others: `isolated`, and over lists of attaches and steps
//!   [`laws::devices_depend_on_own_steps`].
//! - A halt or a clear loses no report: [`laws::halts_lose_nothing`]. Motion is neither lost nor doubled: `conserves`.
//! - A host is ready only while its device is configured, and only with its layout: `shows` on [`Rig::host`]. The toggle that
//!   it expects is the parity of the pieces that crossed: `toggles` on [`Rig::run`].
#![tactic(auto)]

mod fault;
mod halts;
pub mod laws;
mod polls;
mod resets;
mod rig;
mod slot;
mod transfers;

pub use fault::RunFault;
pub use hid_bus::{Delivered, Start, Step, Told};
pub use hid_host::{DescriptorFault, HostDevice, HostState, StackFault};
pub use hid_requests::Request;
pub use polls::poll;
pub use rig::{MAX_DEVICES, Rig};
