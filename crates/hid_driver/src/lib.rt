//! The host's end of any real device, by whole transfers: it asks for what it needs to know, and reads the reports of every HID
//! interface (USB 2.0, 8.5, 9.1.1 and 9.4; HID 1.11, 5.6, 7.1 and 7.2). It reads and writes nothing, and never waits: a program
//! moves the bytes.
//! ```text
//!   program                                                 Driver
//!   <--- todo: Control { setup, data } ------------------- what it waits for
//!   a control transfer by any controller or library
//!   ---- done: Done(bytes), Stalled or Failed -----------> goes on by the table of DriverState
//!
//!   an interrupt transfer of a live interface
//!   ---- report: Done(bytes), Stalled or Failed ---------> joins the pieces of a report, and reads it
//!   <--- events: interface 0: down 07:04 ------------------
//! ```
//! The rule to know: at most one control transfer is made at a time, the one that [`Driver::todo`] gives, and [`Driver::done`] is
//! given its outcome once. Interrupt transfers go beside it, one at a time for each interface that is live, of wMaxPacketSize bytes
//! each. After a [`Driver::reset`] the outcomes of transfers that were begun before it aren't passed on.
//!
//! The promise, whatever comes of the transfers: each call returns, and the driver goes on by its table, the definition `Moves`:
//! [`Driver::done`]. A report is read where it ends, by its bytes joined, and its events are those of a `Reader` of `hid_usages`
//! (`events` on [`Driver::report`], and on [`Driver::receive`], which gives them without the place of the interface). An interface
//! that is refused leaves the others. What is held is released at a reset (`events` on [`Driver::reset`]). Room is made by
//! [`Driver::done`] alone, and where memory runs out nothing changes.
//! ```text
//!   let mut driver = Driver::new(alloc);
//!   while let Todo::Control { setup, data } = driver.todo() {
//!       let outcome = transfer(&setup, data);          // of the program
//!       driver.done(outcome)?;
//!   }
//!   driver.report(0, Outcome::Done(&[0, 0, 4, 0, 0, 0, 0, 0]), &mut events)?;      // 07:04 goes down
//! ```
#![tactic(auto)]

mod answers;
mod ask;
mod driver;
mod fault;
mod interface;
pub mod laws;
mod outcome;
mod pipe;
mod requests;
mod state;

pub use ask::Ask;
pub use driver::{Driver, Todo};
pub use fault::{DriverFault, InterfaceCause};
pub use hid_interfaces::{ConfigurationFault, EndpointInfo, InterfaceFault, InterfaceInfo};
pub use hid_layout::{Layout, ReportKind};
pub use hid_snapshots::{Event, ReportFault};
pub use hid_usages::View;
pub use interface::{Interface, InterfaceState};
pub use outcome::{DriverEvent, Outcome};
pub use state::{DriverState, Moved};
pub use usb_control::{DeviceInfo, InfoFault, Setup};
