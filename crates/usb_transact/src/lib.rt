//! Transactions of an interrupt-IN pipe, the data toggles at its two ends, and halts (USB 2.0, 8.5.4, 8.6 and 9.4.5).
//! ```text
//!   HostPipe                          bus                          DevPipe
//!   token          ---- IN 69 81 00 ------------------------->     lost: TokenLost
//!   take           <--- DATA0 C3 .. where armed, else NAK 5A --    answer          lost: ReplyLost
//!   Fresh, Again   ---- ACK 0xD2 ---------------------------->     acknowledged    lost: AckLost
//! ```
//! The device sends what is armed under its toggle, again and again, until an acknowledgement arrives. Data under
//! the toggle that the host expects are fresh. Data under the other one are a repeat: the host acknowledges them
//! once more and throws them away. A halted endpoint ([`DevPipe::halt`]) has nothing armed and answers STALL, until
//! [`DevPipe::restart`].
//!
//! The rule to know: [`DevPipe::arm`] asks that nothing is armed and that the pipe isn't halted, so a retry never carries
//! other bytes.
//!
//! The promise: one transaction is its row of the table on [`exchange`]: `took`, `host` and `device`, and packet by
//! packet over the bytes `packets`. By single packets: `took` and `pipe` on [`HostPipe::take`], `answer` on
//! [`DevPipe::answer`], `closed` on [`DevPipe::acknowledged`]; for packets that borrow their payloads,
//! [`HostPipe::take_ref`] and [`DevPipe::answer_ref`]. No call takes memory.
//!
//! The polls of `hid_stack` are built from the single calls and not from [`exchange`], since a device takes the ACK there
//! and decides what is armed next.
#![tactic(auto)]

mod bus;
mod device;
mod host;
mod transaction;

pub use bus::{Bus, Phase, decode_received, send_packet, send_reply};
pub use device::DevPipe;
pub use host::{HostPipe, Took};
pub use transaction::{Fate, exchange};
