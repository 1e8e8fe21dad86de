//! A host's session with a USB/IP server, about one device: the bytes that come and go, and what ends it. It reads and writes
//! nothing, never waits and knows no clock: a program moves the bytes.
//! ```text
//!   program                                     Session                                    Import of usbip_import
//!   <--- fill, unsent, sent ------------------- what is to be sent, as far as it went  <--- send
//!   ---- lacks, take: some of a message ------> what came of it
//!                     the rest of it ---------> the whole message  -----------------------> take
//!   <--- events, layouts ---------------------- what a host reads, and how it is laid out
//!   ---- request: an Output report -----------> its interface, by its layout  ------------> ask
//!   <--- release ------------------------------ what is held goes up  <-------------------- end
//! ```
//! The rule to know: [`Session::lacks`] says how many bytes the next message lacks, and [`Session::take`] takes at most these, in
//! pieces of any length. So what a piece brings depends on the bytes alone, and never on how they were cut.
//!
//! The promise, whatever the server sends: a message is taken where its last byte comes, once, as [`Import`] takes it
//! ([`Session::take`]). [`Session::end_after`] and [`Session::end_of_stream`] say what ends the session, and [`Session::release`]
//! releases what is held then. A [`Timer`] is late where an answer, or the rest of a message, takes longer than a limit, and a
//! [`FailedRow`] says whether transfers fail without an end: failures that go on end the session ([`laws::failures_end`]).
#![tactic(auto)]

mod end;
pub mod laws;
mod notice;
mod session;
mod timer;
mod words;

pub use end::End;
pub use notice::Notice;
pub use session::{Laid, Session};
pub use timer::{
    Answer, FailedRow, MAX_BURSTS, Timer, is_endless, is_late, notice_of_row, row_after,
};
pub use usbip_import::{Import, ImportFault, Told};
pub use words::{cause_words, driver_words, import_words};
