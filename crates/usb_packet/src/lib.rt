//! Packets of the bus, and the bytes that encode them (USB 2.0, 8.3 and 8.4).
//! ```text
//!             encode                 decode
//!   Packet ------------> bytes ------------> Packet, or the first PacketFault
//!
//!   token       PID | address, 7 bits | endpoint, 4 bits | zeros, 5 bits
//!   data        PID | payload, 0 to 64 bytes
//!   handshake   PID
//! ```
//! A PID is one byte: the type of the packet in its low half, and the complement of that in its high half.
//! No CRC is carried: a packet that a CRC would refuse is one that was lost.
//!
//! A [`PacketRef`] borrows its payload, as from the bytes that arrived: [`decode_ref`] decodes one, and [`encode_ref_into`] encodes one.
//!
//! The rule to know: only a packet that [`fits`] has an encoding, and [`encode`] asks for one. Packets that aren't tokens
//! fit: a payload has at most 64 bytes, of a [`Packet`] by its type, of a [`PacketRef`] where a call asks for that.
//!
//! The promise: `decode` accepts exactly the encodings and gives their packets: `found`, `complete` and `fault` on [`decode`].
//! No call takes memory.
#![tactic(auto)]

mod decoding;
mod encoding;
mod fault;
mod packet;
mod pid;

pub use decoding::{decode, decode_ref};
pub use encoding::{encode, encode_into, encode_ref_into};
pub use fault::PacketFault;
pub use packet::{MAX_ADDRESS, MAX_ENDPOINT, MAX_PAYLOAD, Packet, PacketRef, TokenKind, fits};
