//! Control transfers of endpoint 0, at the host and at the device (USB 2.0, 8.5.3), and the descriptors that a host reads
//! by them (9.6).
//!
//! A read, here of 10 bytes. A token begins each try, of which one packet may be lost:
//! ```text
//!   HostTransfer                                          DevControl
//!   token, payload  -- SETUP, DATA0 80 06 .. 0A 00 ---->  prepare: decides, and fixes the answer
//!   take            <- ACK -----------------------------  lost: tried again, and decided and fixed again
//!   token           -- IN ----------------------------->
//!   take: 8 bytes   <- DATA1, 8 bytes ------------------  lost: the device sends it again
//!                   -- ACK ---------------------------->  lost: it comes again, and the host throws it away
//!   token           -- IN ----------------------------->
//!   take: 2 bytes   <- DATA0, 2 bytes ------------------  lost: as above
//!                   -- ACK ---------------------------->  lost: the status below ends the data stage too (8.5.3.3)
//!   token, payload  -- OUT, DATA1 without a byte ------>
//!   take: Done      <- ACK -----------------------------  lost: tried again, and acknowledged again
//! ```
//! A write, here of one byte. Without any byte the second try is missing:
//! ```text
//!   token, payload  -- SETUP, DATA0 21 09 .. 01 00 ---->  prepare: decides
//!   take            <- ACK -----------------------------  lost: tried again, and decided again
//!   token, payload  -- OUT, DATA1 02 ------------------>
//!   take            <- ACK -----------------------------  lost: it comes again, and the device throws it away
//!   token           -- IN ----------------------------->  apply: the first that arrives, and no other
//!   take: Done      <- DATA1 without a byte ------------  lost: the device sends it again
//!                   -- ACK ---------------------------->  lost: nothing more is tried
//! ```
//! The third try in a row without an answer ends a transfer with C2. A STALL to its data or its status, which refuses the
//! request, ends it with C1; to SETUP it is no answer.
//!
//! The rule to know: what a device can do is a [`Requests`], which decides at SETUP, fixes the answer then, and carries a
//! write out when its status is asked for. All else here is the same for every device.
//!
//! The promise, whatever is lost: a read that is done gave the answer as fixed at the last SETUP that arrived, cut to
//! what was asked for; a write that is done took effect exactly once, one that failed once or not at all, and
//! one that was refused never: `tried` on [`HostTransfer::step`], with [`laws::outcomes_are_true`] for whole
//! transfers. Over any packets: `took` on [`HostTransfer::take`] and `does` on [`DevControl::on_packet`], over any bus
//! [`send_token`] and [`send_ack`], with
//! [`laws::reads_are_joined`] and [`laws::writes_are_joined`]. Of descriptors `value` on [`ConfigInfo::read`] and
//! [`DeviceInfo::read`]. Only [`HostTransfer::begin`] takes memory.
#![tactic(auto)]

mod descriptor_list;
mod descriptors;
mod device;
mod fault;
mod host;
pub mod laws;
mod pieces;
mod requests;
mod setup;
mod transaction;

pub use descriptors::{ConfigInfo, DeviceInfo};
pub use device::{DevControl, MAX_WRITE};
pub use fault::{ControlFault, InfoFault};
pub use host::{HostTransfer, Outcome, Progress};
pub use requests::Requests;
pub use setup::Setup;
pub use transaction::{send_ack, send_token};
