//! A virtual human interface device at the far end of the bus (USB 2.0, 8.4.6.1, 8.5.3, 8.5.4, 8.6
//! and 9.4; HID 1.11, 5 to 8).
//! ```text
//!   host                 Device::on_packet, or receive_poll and poll_response  Core
//!   IN 69 81 00 ------>  no round open: the lowest due report? -------->  Snapshot::due, idle times
//!                            its part is fixed                             Snapshot::shown -> fixed
//!                            its motion is taken out                       Snapshot::take_motion
//!                            its frames are counted from 0                 frames
//!                            its bytes are kept, and the first 64 armed    write_report -> DevPipe::arm
//!              <-------  what is armed under the toggle, else NAK          DevPipe::answer_ref; STALL while it is halted
//!   ACK 0xD2 --------->  directly after data: the next 64 bytes are        DevPipe::acknowledged, DevPipe::arm
//!                            armed, and after the last the round is closed
//!
//!   SETUP 2D 01 00, DATA0 80 08 .. -->  endpoint 0: DevControl           Core::prepare: decides, fixes the answer
//!   IN 69 01 00 ------>  the answer, or STALL; or what is pending            Core::answer, Core::apply
//!                            takes effect
//!
//!   Device::change       the snapshot alone; the open round stays as it was fixed
//!   Device::frame        a frame more for each report, up to 1,020
//!   Device::configure    DATA0, nothing armed, no round, blank parts, no frames; the snapshot stays
//!   Device::halt         nothing armed, no round, its report due; STALL until the halt ends
//!   Device::reset        all as it was at first but the snapshot, and its address
//! ```
//! The rule to know: a round's part is fixed when the round opens. Its bytes go out in pieces of 64, each again and again
//! under the same toggle, until its acknowledgement arrives. What changes meanwhile goes into a later round, and motion
//! that its field can't carry stays in the snapshot for one.
//!
//! A new device isn't configured: it answers no poll, and at endpoint 0 what the standards have for that state. All that
//! endpoint 0 reads and writes stands in [`Core`], beside the address and the wait for an ACK. What it reads of a report is
//! the report of now, without motion: nothing is fixed, and no round opens.
//!
//! The promise: a device is made exactly where no cause of [`DeviceCause`] stands ([`Device::new`]); a packet does to it
//! what `device_after` says, and is answered as `device_answer` says (`device` and `answer` on [`Device::on_packet`]), of
//! which `specs/Rounds.antt` of `hid_bus` makes rounds and their events; something is armed exactly while a round is open,
//! and it is a piece of the bytes of the part that was fixed for it (`armed` on [`Device::pipe`]); and the two endpoints
//! leave one another as they were ([`laws::ends_are_apart`]). No call takes memory but [`Device::new`].
//! ```text
//!   let mut mouse = Device::new(alloc, 1, &config, &MOUSE)?;         // or Err, printed as `V10 at 12`
//!   mouse.configure();
//!   mouse.change(Change::Press(ControlId { item: 0, index: 0 }));    // Ok(())
//!   mouse.on_packet(&token);                                         // DATA0 01 00 00, of the round (0, false)
//!   mouse.on_packet(&Packet::Ack);                                   // no answer, and no round is open
//! ```
#![tactic(auto)]

mod config;
mod decisions;
mod device;
mod device_core;
mod frames;
mod inputs;
pub mod laws;
mod outputs;
mod storage;

pub use config::Config;
pub use device::Device;
pub use device_core::Core;
pub use hid_layout::boot::{KEYBOARD, MOUSE};
pub use hid_requests::{Boot, DeviceCause, DeviceFault};
