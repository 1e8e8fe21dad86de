//! Scripts over USB/IP: what their lines do at devices that a real machine has, and the session that serves these.
//! ```text
//!   SCRIPT --> read_script --> Script: devices, actions          what a host sets, as `1 output 0 02`
//!                                  |                                 ^
//!   standard input --> serve: usbip_serving::Serving, the clock --> Watch: hears it, and lets the script go on
//!                                  |
//!                                  +--> standard output
//! ```
//! The rule to know: a line is an [action](usbip_serving::Action), and comes by the rule of [`usbip_serving`]: once the host asks
//! for a report and none is due. A [`Watch`] may hold the script back; it changes nothing else of what is served.
//!
//! The promise: which devices and actions the lines of a script give, and which line is refused and why, are the clauses of
//! [`read_script`] and [`Script::take`]. [`serve`] moves bytes, reads the clock, and is tried by scenes alone.
#![tactic(auto)]

mod fault;
mod output_text;
mod script;
mod session;
mod status;
mod watch;

pub use fault::{LineCause, ServeFault};
pub use output_text::print_output;
pub use script::{MAX_SCRIPT, Script, place_of, read_script};
pub use session::serve;
pub use status::{FINE, OUTSIDE, REFUSED, UNMET, WRONG_USAGE, exit_of};
pub use watch::{Telling, Watch};
