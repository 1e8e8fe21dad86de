//! A device whose reports a host reads, as the plain records that C sees.
//! ```text
//!   descriptor --Session::open--> Session: layout, view, room for the events of a report
//!
//!   report     --Session::feed--> events as records: kind, control, usage, value
//!   a place    --element_at-----> an element: bit, width, sign, range, usage, flags, report
//! ```
//! The rules to know: places are those of [`hid_layout`], an item among the listed items and an element or a key there. A
//! record has only numbers of fixed width, naturally aligned, so its bytes are the same to each compiler.
//!
//! The promise: a session is opened and fed by the definitions of its layout and view: `ok` and `err` on [`Session::open`],
//! and the clause on [`Session::feed`].
#![tactic(auto)]

mod cause;
mod element;
mod event;
mod records;
mod session;
mod table;
mod writing;

pub use cause::{cause_number, cause_with};
pub use element::{FEATURE, HidElement, INPUT, OUTPUT, element_at, number_in};
pub use event::{DOWN, DROPPED, HidEvent, MOTION, NULL, UP, VALUE, event_of, put_events};
pub use hid_layout::{Cause, ControlId, LayoutFault};
pub use hid_usages::ReportFault;
pub use records::{HidCollection, HidReport, HidUsage, collection_at, report_at, usage_at};
pub use session::{FeedFault, Session};
pub use table::{list_elements, put_elements};
pub use writing::{PutFault, put_blank_report, put_number, report_with};
