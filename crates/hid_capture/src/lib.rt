//! The HID devices of a capture: which URB has a report descriptor, and which a report.
//! ```text
//!   capture --usb_capture--> Urb --Tracker::take--> Content
//!
//!   80 06 00 02 ..  and its answer    a configuration: which endpoints of which HID interfaces send reports
//!   00 09 01 00 ..  and its answer    the configuration that is set
//!   81 06 00 22 ..  and its answer    Content::Descriptor, of an interface, which has a number from then on
//!   21 0B 00 00 ..  and its answer    the interface is in the boot protocol: its reports are left alone
//!   A3 00 ..  and its answer          the device is a hub: its endpoints say which ports changed, and need no report descriptor
//!   an interrupt IN transfer          Content::Report, where its endpoint and the interface's descriptor are known
//!   00 05 04 00 ..  and its answer    Content::DeviceDisconnected, where interfaces there had a descriptor
//!   an endpoint that is gone          Content::InterfaceDisconnected, where its interface had a descriptor
//! ```
//! A request and its answer come in two URBs, which are joined by bus, device and the URB's id. QEMU has one id for all
//! control transfers, which are one after another there. A device is known by bus and address. SET_ADDRESS of another device to
//! its address forgets the device. A change of its configuration forgets its descriptors. An endpoint that is gone forgets its
//! interface's descriptor. A player releases then what the device or the interface holds. Firmware speaks to a
//! device first, and mostly reads no report descriptor: its reports are left alone.
//!
//! [`Tracker::adopt`] gives an interface a descriptor that isn't in the capture. Content::Undescribed is of a HID interface
//! without one. Content::Unknown is of an endpoint that no configuration has that was read: a hub's status comes like this too,
//! so that the user has to name the endpoint. [`Tracker::undescribed`] has the first sixteen endpoints of both, with the count of
//! their transfers.
//!
//! The rule to know: what wasn't completed without an error says nothing, whatever bytes it has.
//!
//! The promise: a URB says exactly what the definition says, by `content` on [`Tracker::take`]. So the transfers of an interface
//! are its reports, in order, from its descriptor on; a truncated frame is never read; and a new device at an address sends no
//! report before its descriptor: [`laws`].
#![tactic(auto)]

mod configuration;
pub mod laws;
mod request;
mod tables;
mod tracker;
mod undescribed;

pub use tables::{MAX_INTERFACES, TrackedInterface};
pub use tracker::{Content, Tracker};
pub use undescribed::{MAX_UNDESCRIBED, UndescribedEndpoint};
