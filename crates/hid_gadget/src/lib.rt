//! A virtual device by whole transfers (USB 2.0, 5.5, 5.7 and 8.5; HID 1.11, 4 to 8): for a controller that takes a transfer
//! whole, as most chips, Linux's URBs, libusb and USB/IP do. Toggles, retries, handshakes and packets are the controller's own.
//! ```text
//!   controller                           Gadget                            Core of hid_device
//!   80 06 00 01 00 00 40 00, room 64 ->  control: Done(18), the answer     prepare, answer
//!   21 09 00 02 00 00 01 00, data 02 ->  control: Done(0), taken once      prepare, apply
//!   80 06 00 06 00 00 0A 00, room 10 ->  control: Stalled                  prepare
//!
//!                                        change: a key goes down           its report is due
//!   endpoint 1 IN, room 8 ------------>  report: Done(8), 00 00 04 ..      a round opens, and its pieces are taken
//!   endpoint 1 IN, room 8 ------------>  report: Nothing (NAK)             nothing is due
//! ```
//! It reads and writes nothing itself, and never waits: the caller has the bytes and the time. Nothing is lost between it and
//! its caller.
//!
//! The rule to know: an interrupt transfer takes the whole report that is due where its room is as long, else the pieces of 64
//! bytes that fit. The next transfer goes on after them.
//!
//! The promise: a control transfer is its list of pieces of which none is lost, from any state of endpoint 0: a read that is
//! accepted gives its answer, cut to wLength; a write that is accepted takes effect exactly once, and one that is refused never
//! (`core`, `result`, `answer` and `tries` on [`Gadget::control`]). An interrupt transfer is the polls of its pieces, of which
//! none is lost (`core`, `result` and `bytes` on [`Gadget::report`]; [`laws::reports_are_polls`]). A `Receiver` of the reports
//! gives the events of the rounds that crossed, whatever room they have, while nothing but changes, frames, these transfers and
//! control transfers that end no round happens ([`laws::receivers_give_events`]); a `Reader` does where each comes whole
//! ([`laws::reports_give_events`]). [`Gadget::new`] reserves exactly what a gadget holds.
//! ```text
//!   let mut mouse = Gadget::new(alloc, &config, &MOUSE)?;            // or Err, printed as `V10 at 12`
//!   mouse.control(&configure, &[], &mut []);                         // Control::Done(0)
//!   mouse.change(Change::Press(ControlId { item: 0, index: 0 }));    // Ok(())
//!   mouse.report(&mut bytes);                                        // Poll::Done(3), of 01 00 00
//! ```
#![tactic(auto)]

mod gadget;
pub mod laws;
mod outcomes;

pub use gadget::{ADDRESS, Gadget};
pub use hid_device::{Boot, Config, DeviceCause, DeviceFault, KEYBOARD, MOUSE};
pub use hid_snapshots::{Change, ChangeFault};
pub use outcomes::{Control, Poll};
pub use usb_control::Setup;
