//! Captures of a bus: the frames of pcap and pcapng files, and the URBs in them.
//! ```text
//!   bytes, in any pieces                            after a block that has a frame
//!     |                                                 |
//!     +--> Capture::take --> how many were taken        +--> Capture::frame --> Frame --read_urb--> Urb
//!     |
//!     +--> Capture::finish, at the end of the bytes
//!
//!   pcap      header, 24 bytes | record: 16 bytes, the frame | record | ..
//!   pcapng    section header | interface description | packet block | any other block | packet block | ..
//! ```
//! A capture reads nothing itself, so a file, a pipe and a test feed it alike. It keeps the one block that has begun,
//! of at most [`MAX_BLOCK`] bytes, and what the section said of at most [`MAX_INTERFACES`] interfaces.
//! ```text
//!   let mut rest = piece;
//!   while !rest.is_empty() {
//!       let taken = capture.take(rest)?;
//!       if let Some(frame) = capture.frame() {
//!           .. read_urb(&frame) ..
//!       }
//!       rest = &rest[taken..];
//!   }
//! ```
//! The rule to know: a call of `take` ends with the block that its bytes complete, and `frame` is of that block.
//!
//! The promise: the frames are exactly those of the blocks that stand one after another in the bytes, however these
//! were cut: `taken` of [`Capture::take`], with [`laws::one_reading`] and [`laws::any_cut`].
#![tactic(auto)]

mod accept;
mod advance;
mod capture;
mod clock;
mod extent;
mod fault;
mod fault_text;
mod field;
mod format;
mod frame;
mod gather;
pub mod laws;
mod options;
mod pcap;
mod pcapng;
mod reading;
mod urb;
mod urb_fault;
mod usbmon;
mod usbpcap;

pub use capture::Capture;
pub use extent::{MAX_BLOCK, is_capture};
pub use fault::{CaptureFault, Cause};
pub use field::ByteOrder;
pub use frame::Frame;
pub use pcapng::MAX_INTERFACES;
pub use urb::{Direction, Transfer, Urb, UrbEvent, read_urb};
pub use urb_fault::UrbFault;
