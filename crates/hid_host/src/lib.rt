//! The host of one human interface device: it configures the device by transfers of endpoint 0, and reads the reports that
//! answer its polls (USB 2.0, 8.5 and 9.1.1; HID 1.11, 5.6, 7.1 and 7.2).
//! ```text
//!   state       begin(Request::..)     when the request is done           next state
//!   Cold        Config                 the configuration is read         -> Described
//!   Described   Report                 the report descriptor is laid out -> Parsed
//!   Parsed      Configure              the device is configured          -> Ready
//!   Ready       token, reply           Input reports: events
//!   Ready       Halt, Clear            STALL to polls; no poll, and DATA0 again
//!   each        reset                  the device is forgotten           -> Cold
//! ```
//! A try of a transfer by single packets, from a token to ACK:
//! ```text
//!   HostDevice                                 bus
//!   control_token, control_payload    ---- SETUP 2D 01 00, C3 80 06 .. --->   or OUT with data, or IN
//!   control_take: (Running, false)    <--- ACK ----------------------------   or data, NAK, STALL, nothing
//!   control_take: (Running, true)     ---- ACK --------------------------->   after data
//! ```
//! `Device`, `Status` and `GetConfiguration` may begin in every state, `Protocol` in `Parsed`, the other requests of reports
//! in `Parsed` and `Ready`, and `EndpointStatus` where `Halt` and `Clear` may; the state stays. One transfer runs at a time;
//! [`control_step`](HostDevice::control_step) makes one such try with a device, and the state moves where it is done.
//!
//! The rule to know: an answer that can't be read (B1 to B6, L1 to L16) and running out of memory end the transfer and leave
//! the state; the request may begin again. From the begin of a `Clear` until one is done the host doesn't poll, also after one
//! that failed: it may have taken effect.
//!
//! The promise, with any device:
//! - A request begins exactly where none runs and its state is the one of the table: `refused` and `only` on
//!   [`begin`](HostDevice::begin).
//! - Each try goes packet by packet, and the state moves by the table where the request is done, and never else:
//!   [`control_step`](HostDevice::control_step), and by single packets [`control_token`](HostDevice::control_token),
//!   [`control_payload`](HostDevice::control_payload) and [`control_take`](HostDevice::control_take), of which it is made.
//! - Polls: `outcome`, `after` and `events` on [`reply`](HostDevice::reply). Resets of the bus: `events` on
//!   [`reset`](HostDevice::reset). A round that a halt or its end aborts: `events` on
//!   [`drop_aborted_motion`](HostDevice::drop_aborted_motion) and [`report_drops`](HostDevice::report_drops).
//! - Only `ready`, `begin`, and a `control_take` that ends `Report` or `Configure` take memory.
//!
//! With a virtual device the host is ready only while the device is configured, and has its layout: laws of `hid_stack`.
#![tactic(auto)]

mod conclusions;
mod fault;
mod host;
mod phase;
mod ready;

pub use fault::{DescriptorFault, StackFault};
pub use host::HostDevice;
pub use phase::HostState;
