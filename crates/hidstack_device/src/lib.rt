//! A virtual device by whole transfers, as the plain records that C sees.
//! ```text
//!   configuration, descriptor --make-------> Gadget, or a DeviceFault; its cause as a number: 1 for V1 to 21 for V21
//!
//!   a usage, and which of it --find_nth----> a control's place, by which the gadget is changed
//!   all that is pressed      --release_all-> is let go of
//!   setup, data, room         --control-----> how a control transfer ends; what doesn't fit is refused
//!   a kind and an ID          --output------> the Output or Feature report that a host set last
//! ```
//! The rules to know: places are those of [`hid_layout`], an item among the listed items and an element or a key there. A record
//! has only numbers of fixed width, naturally aligned, so its bytes are the same to each compiler.
//!
//! The promise: whatever numbers, lengths and rooms a caller gives, each call does what the gadget's definitions say, or refuses
//! and changes nothing: the clauses on [`make`], [`find_nth`], [`release_all`], [`control`] and [`output`].
#![tactic(auto)]

mod cause;
mod config;
mod find;
mod outputs;
mod release;
mod transfer;

pub use cause::device_cause_number;
pub use config::{HidConfig, make};
pub use find::find_nth;
pub use hid_gadget::{Change, ChangeFault, DeviceCause, DeviceFault, Gadget, Poll};
pub use hid_layout::{ControlId, Usage};
pub use outputs::output;
pub use release::release_all;
pub use transfer::{TransferFault, control};
pub use usb_control::Setup;
