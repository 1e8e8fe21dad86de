//! The host's side of reports: a view of a device's controls, and the events of the reports that it takes (HID 1.11, 5.6, 5.10,
//! 6.2.2.5 and 8). It exports what users need of the device's side, `hid_snapshots`.
//! ```text
//!   press, move, set --> Snapshot --shown--> Shown --encode_report--> 02 00 04 00 00 00 00 00
//!                                                                        |
//!   Down 07:04, Down 07:E1 <----- events ------ View <----take_report----+
//!
//!   an element of 07:01 in an array    the keys of that array stay as they were
//!   a number out of its range          null where the control has null, else nothing changes
//! ```
//! A [`Snapshot`], a [`Shown`] and a [`View`] each have one control state for each listed item of their layout, so a control's ID
//! addresses its state.
//!
//! The rule to know: a call with a layout requires the one with which its other values were made, by the conditions
//! `FitsSnapshot`, `FitsShown` and `FitsView`; `blank` and `initial` make them, and every call keeps them.
//!
//! Pressed and held keys are words of 64 bits: `key_words` of a [`Snapshot`] and of a [`View`]. A [`Reader`] owns a layout with
//! its view; of a report it reads the items whose bits aren't those of the last one of its number. A
//! [`Receiver`] reads reports out of the packets in which they come.
//!
//! The promise: any bytes give one view and one list of events (`taken` on [`View::take_report`]). The reports of the boot
//! keyboard and mouse give the same without a layout ([`boot::laws`]). No call takes memory but `Snapshot::blank`,
//! `Shown::blank`, `View::initial`, `PlannedView::initial` and `first_view`; events go into reserved room.
#![tactic(auto)]

mod bits;
pub mod boot;
mod changed_bits;
mod dropped_motion;
mod elements;
mod event_source;
mod key_array;
pub mod laws;
mod plan;
mod planned_report;
mod reader;
mod receiver;
mod report_index;
mod report_lookup;
mod report_plans;
mod reset_events;
mod take;
mod take_plan;
mod value_range;
mod view;
mod view_changes;

pub use hid_snapshots::{
    Change, ChangeFault, Event, MAX_PIECE, MemoryFault, ReportFault, Shown, Snapshot,
    encode_report, has_empty_codes, has_keys, has_zeros, is_input,
};
pub use reader::Reader;
pub use receiver::{Arrived, Receiver, is_whole};
pub use report_lookup::{bytes_awaited, element_value, input_report};
pub use report_plans::{PlannedView, first_view};
pub use view::{View, changes, changes_and_drops};
