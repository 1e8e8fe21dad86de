//! The host's end of a device of a USB/IP server, read by a driver. It reads and writes nothing, and never waits: a program moves
//! the bytes.
//! ```text
//!   program                                            Import                              Driver of hid_driver
//!   <--- send: OP_REQ_IMPORT, 40 bytes --------------- Start
//!   ---- take: OP_REP_IMPORT, 8 and 312 bytes -------> Requested, Described
//!   <--- send: CMD_SUBMIT 1, 80 06 00 01 .. ---------- Attached  <------------------------ todo
//!   ---- take: RET_SUBMIT 1, 48 bytes, and 18 -------> Attached, Answering  -------------> done
//!   <--- send: CMD_SUBMIT 9, endpoint 1, 8 bytes ----- for each live interface  <--------- interfaces
//!   ---- take: RET_SUBMIT 9, and 8 bytes ------------>  ---------------------------------> report
//!   <--- events: interface 0: down 07:04 --------------------------------------------------
//! ```
//! One control transfer is in flight at a time, and one transfer for a report of each live interface. A reply is to the submit of
//! its number, in whatever order replies come. Each packet is a transfer of its own: the length of its submit is wMaxPacketSize.
//!
//! The rule to know: [`Import::wants`] says how many bytes come next, and [`Import::take`] takes exactly these. So the caller has
//! the buffer, of at most 65,535 bytes, and the time. After each call of `take` there may be something to send.
//!
//! The promise, whatever the server sends: each submit that was sent is answered to the driver once at most, in its place
//! (`takes` on [`Import::take`]; [`laws::each_submit_is_answered_once`]); a reply to none is refused by its name, and so are more
//! bytes than were asked for. What is delivered are the driver's events. Nothing that is held is forgotten
//! ([`laws::runs_stay_in_order`]). At the end nothing is in flight, and what is held is released ([`Import::end`]).
//! ```text
//!   let mut import = Import::new(alloc, &bus_id);
//!   import.send(&mut bytes)?;                           // true: the request for the device
//!   import.take(&head, &mut events)?;                   // Told::Onward, or Err, printed as `A2`
//!   import.end(&mut events);                            // 07:04 goes up
//! ```
#![tactic(auto)]

mod fault;
mod flight;
mod import;
pub mod laws;
mod stage;
mod submits;

pub use fault::ImportFault;
pub use flight::{Flight, Flights, MAX_FLIGHTS, Purpose};
pub use import::Import;
pub use stage::{Stage, Told};
pub use submits::Due;
