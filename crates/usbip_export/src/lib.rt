//! Devices served to a USB/IP client, as Linux's `usbip attach`: up to seven gadgets, and connections to them.
//! ```text
//!   host                                          Connection                        ExportedDevice
//!   01 11 80 05 00 00 00 00                   ->  Operation: the list, then Over
//!   01 11 80 03 00 00 00 00                   ->  Operation
//!   "1-1", 29 zeros                           ->  BusId: the description            imported
//!   CMD_SUBMIT, endpoint 0, 80 06 00 01 ..    ->  Command: RET_SUBMIT, 18 bytes     Gadget::control
//!   CMD_SUBMIT, endpoint 0, 21 09 00 02 ..    ->  Command: its data follow
//!   02                                        ->  Data: RET_SUBMIT                  Gadget::control
//!   CMD_SUBMIT, endpoint 1, room for 8 bytes  ->  Command: nothing yet              the submit waits
//!                                             <-  report: RET_SUBMIT, 8 bytes       Gadget::report
//!   CMD_UNLINK                                ->  Command: RET_UNLINK               it waits no more
//! ```
//! It reads and writes nothing itself, never waits, and takes no memory but for a device: the caller has the bytes and the time.
//!
//! The rule to know: a connection says how many bytes it takes next ([`Connection::wants`]), and gets exactly as many
//! ([`Connection::take`]), so nothing is kept of a message that is half there. Between its messages, and whenever something happened
//! at its device, it is asked for a report ([`Connection::report`]).
//!
//! The promise: what comes of any bytes at any stage, and what is answered, byte by byte (`taken` on [`Connection::take`], clauses of
//! [`Connection::report`] and [`Connection::end`]). Over whatever happens at a device each submit is answered once,
//! or waits still, and each unlink is answered once ([`laws::each_command_is_answered_once`]). A reply has the data that it says,
//! and no more than was asked for ([`laws::replies_have_their_payloads`]). An unlink takes no report
//! ([`laws::an_unlink_takes_no_report`]). No device has two connections ([`laws::no_device_is_shared`]).
//! ```text
//!   let mut devices = [ExportedDevice::new(alloc, &config, &KEYBOARD)?];
//!   let mut connection = Connection::new();
//!   connection.wants();                                     // 8
//!   connection.take(&mut devices, &bytes, &mut room)?;      // 0: of an import the bus ID follows
//!   connection.wants();                                     // 32
//! ```
#![tactic(auto)]

mod answer;
mod connection;
mod description;
mod exported_device;
mod fault;
pub mod laws;

pub use answer::Answer;
pub use connection::{Connection, Stage};
pub use description::{BUS, MAX_DEVICES};
pub use exported_device::{ExportedDevice, MAX_ANSWER, MAX_ROOM};
pub use fault::ExportFault;
pub use hid_gadget::{
    Boot, Change, ChangeFault, Config, DeviceCause, DeviceFault, KEYBOARD, MOUSE,
};
pub use hid_layout::{ControlId, ReportKind, Usage};
