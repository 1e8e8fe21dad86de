//! The HID interfaces of a configuration, as a real device describes them (USB 2.0, 9.5 and 9.6; HID 1.11, 6.2.1).
//! ```text
//!   09 02 3B 00 02 01 00 A0 32              the configuration: 59 bytes, number 1
//!     09 04 00 00 01 03 01 01 00            interface 0: HID, a boot keyboard
//!       09 21 11 01 00 01 22 3F 00            a report descriptor of 63 bytes
//!       07 05 81 03 08 00 0A                  endpoint 1, interrupt to the host, packets of 8 bytes
//!     09 04 01 00 01 03 00 00 00            interface 1: HID
//!       09 21 11 01 00 01 22 34 00
//!       07 05 82 03 04 00 0A                  endpoint 2, packets of 4 bytes
//! ```
//! A host asks for the first nine bytes, and then for as many as [`total_length`] finds there. [`Configuration::read`] lists
//! every HID interface of them in its first setting, with what its descriptors say; [`interface_fault`] says why one of them
//! can't be read.
//!
//! The rule to know: the descriptors of an interface are those between it and the next interface. Whatever other interfaces
//! and descriptors stand there is passed over.
//!
//! The promise: any bytes are read by their descriptors, or refused with the one cause: `read` and `refused` on
//! [`Configuration::read`]. The list of interfaces alone takes memory.
#![tactic(auto)]

mod configuration;
mod descriptors;
mod fault;
mod interface;

pub use configuration::{Configuration, MAX_CONFIGURATION, total_length};
pub use fault::{ConfigurationFault, InterfaceFault};
pub use interface::{EndpointInfo, InterfaceInfo, MAX_PACKET_SIZE, interface_fault};
