//! A driver and a virtual device in one program: whole transfers are moved between `hid_driver` and `hid_gadget` (USB 2.0, 5.5,
//! 5.7 and 9.1.1). It reads and writes nothing, and never waits.
//! ```text
//!   Driver                              loopback                              Gadget
//!   todo: 80 06 00 01 .. -------------> transfer, settle ------------------> control
//!   done: 12 01 00 02 .. <-------------                  <------------------ Done(18)
//!
//!                                                                             change: a key goes down
//!   report: 00 00 04 .. <-------------- report <---------------------------- report: Done(8)
//!   events: 07:04 goes down
//! ```
//! The rule to know: one control transfer after another brings the driver up ([`settle`]), and then each interrupt transfer has
//! the next packet of the reports ([`report`]). In between the gadget changes as its program wants, and the driver may ask.
//!
//! The promise: beside a gadget whose report descriptor has at least a byte, a new driver is ready after six transfers, with the
//! gadget's layout, or memory ran out (`up` on [`settle`]). From then on the events of the driver are the changes between the
//! reports of the gadget's rounds that crossed, in order, none twice ([`laws::events_cross_once`]), while nothing ends a round
//! but its last piece: no halt or clear, no reset, no other configuration or protocol. Meanwhile the program may ask the driver
//! for something ([`laws::asks_are_quiet`]). A gadget takes an empty report descriptor too; a driver refuses its interface (B4).
//! ```text
//!   settle(alloc, &mut driver, &mut mouse)?;                         // Ok(6)
//!   mouse.change(Change::Press(ControlId { item: 0, index: 0 }));    // Ok(())
//!   report(&mut driver, &mut mouse, &mut events)?;                   // Ok(Poll::Done(3)), and 09:01 goes down
//! ```
#![tactic(auto)]

mod control_transfers;
mod interrupt_transfers;
pub mod laws;

pub use control_transfers::{MAX_TRANSFERS, settle, transfer};
pub use hid_driver::{Ask, Driver, DriverEvent, DriverFault, DriverState, Moved, Todo};
pub use hid_gadget::{Config, Control, DeviceFault, Gadget, Poll};
pub use interrupt_transfers::report;

#[cfg(test)]
mod tests;
