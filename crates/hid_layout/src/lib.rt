//! The layout of a device's reports, by its report descriptor (HID 1.11, 5 and 6.2.2).
//! ```text
//!               hid_report_descriptor: list_fields            lay_out
//!   descriptor ------------------------------------> fields ------------> Layout
//!                                                             the items of each report
//!                                                             the codes of each item
//!
//!   reports   by kind, then by ID       Input 0: 24 bits
//!   items     in descriptor order       buttons         padding      motion
//!             in their report           bits 0 to 2     3 to 7       8 to 15 and 16 to 23
//!             usages                    09:01-09:03     none         01:30 01:31
//!             open collections          1/01:02 0/01:01
//! ```
//! The rule to know: an item is named by its place among the listed items, the Input, Output and Feature
//! items that have bits, and a control by its item and its place there. What is read often, as the items of
//! a report, is computed once, when the layout is made.
//!
//! The promise: unless memory runs out, [`Layout::parse`] accepts exactly the descriptors in which no cause
//! of [`Cause`] stands within the limits of a virtual device ([`Layout::parse_within`]: within other
//! [`Limits`]), and gives the layout of the definitions in `specs/` (`ok`). It refuses all others
//! with the cause and the place that come first in the order (`err`). By [`laws`] this leaves one result.
//! Every reader gives the definition's value and takes no memory.
//! ```text
//!   let layout = Layout::parse(alloc, &descriptor)?;    // or Err, printed as `L10 at 12`
//!   layout.report_bytes(0);                             // 3
//!   layout.usage(0, 2);                                 // Some(Usage { page: 9, id: 3 })
//!   layout.element(2, 1);                               // 8 bits at bit 16, from -127 to 127
//!   layout.control(ControlId { item: 0, index: 2 });    // Some, a switch with usage 09:03
//!   layout.find(Usage { page: 1, id: 0x31 });           // Some(ControlId { item: 2, index: 1 })
//! ```
#![tactic(auto)]

mod array_codes;
pub mod boot;
mod codes;
mod control;
mod controls;
mod layout;
mod main_item;
mod plans;
mod search;

pub use codes::{Codes, null_number};
pub use control::{Control, ControlId, ControlKind, Controls};
pub use controls::{usage_at, usage_count, usage_of_element};
pub use hid_report_descriptor::{
    Cause, Collection, LayoutFault, Limits, LongReport, MAX_DESCRIPTOR, MAX_ELEMENTS, MAX_ENTRIES,
    MAX_ITEMS, MAX_KEYS, MAX_OPEN_COLLECTIONS, MAX_OPEN_PUSHES, MAX_REAL_ELEMENTS,
    MAX_REAL_REPORT_BYTES, MAX_REPORT_BYTES, MAX_REPORT_IDS, MAX_WIDTH, MainFlags, Report,
    ReportKind, Shape, Usage, laws, long_report,
};
pub use layout::Layout;
pub use main_item::{Element, MainItem};
