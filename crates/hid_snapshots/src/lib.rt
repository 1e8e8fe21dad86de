//! What both ends keep of controls: their states, a device's snapshots, the parts of them that reports show and the bytes of
//! these, and the definitions of views and events (HID 1.11, 5.6, 5.8, 5.10, 6.2.2.5 and 8).
//! ```text
//!   press, release, set,   --> Snapshot --shown--> Shown --encode_report--> 02 00 04 00 00 00 00 00
//!   set_null, shift                <--take_motion--
//!
//!   Snapshot::blank          nothing is pressed, nothing has moved
//!   Snapshot::due            whether what a report shows differs from the part shown last, or it has motion
//!   Snapshot::shown          motions clamped to what elements carry; an array with too many keys rolled over
//!   Snapshot::still          as `shown`, with every motion 0
//!   Snapshot::take_motion    takes out the motion that a part carries
//!
//!   ControlState of an item  Absent | Switches | Values | Motions | RollOver
//! ```
//! A snapshot, the shown parts of a device and a host's view (`View` of `hid_usages`) each have one [`ControlState`] for each listed
//! item of a layout, so a control's ID addresses its state.
//!
//! It also has what both sides and the bus name: [`Event`], why a report can't be read ([`ReportFault`]), and the definitions of
//! views and their events; `hid_usages` has the code of these.
//!
//! The rule to know: `FitsSnapshot`, `FitsShown` and `FitsView` say that a list of control states belongs to a layout. A call with a
//! layout requires the one with which its other values were made.
//!
//! The promise: the bytes of a part are the only ones that show it (`shows` and `only` on [`encode_report`]). Only calls with
//! an allocator take memory.
#![tactic(auto)]

mod blank;
mod blank_in_place;
mod change;
mod control_state;
mod empty_codes;
mod encode;
mod event;
mod exact_capacity;
mod fault;
mod flags;
mod items;
mod keys;
mod numbers;
mod parts;
mod pieces;
mod sent_numbers;
mod shown;
mod snapshot;

pub use blank::{blank_states, first_value};
pub use blank_in_place::reset_states;
pub use change::Change;
pub use control_state::{ControlState, Motions, Values};
pub use empty_codes::has_empty_codes;
pub use encode::{bare_report, encode_report, first_bit, write_report};
pub use event::Event;
pub use exact_capacity::{full_from, full_of};
pub use fault::{ChangeFault, MemoryFault, ReportFault};
pub use flags::{Flags, lowest_from, next_bit};
pub use items::{is_input, is_of, item_at, item_count, plan_of};
pub use keys::{has_keys, key_words};
pub use numbers::FieldRun;
pub use parts::{has_zeros, state_at};
pub use pieces::{MAX_PIECE, piece_of, pieces_of};
pub use shown::Shown;
pub use snapshot::Snapshot;
