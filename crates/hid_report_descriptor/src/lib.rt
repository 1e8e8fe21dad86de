//! The state of a report descriptor's items, and the fields that they list (HID 1.11, 6.2.2).
//! ```text
//!                 hid_items            Parser::take, item by item              list_fields
//!   descriptor -------------> items ---------------------------------> kept ------------> ListedFields
//!                                     globals in force, open Pushes
//!                                     local items, open collections
//!                                     the bits of each report so far
//!
//!   05 09 19 01 29 03 .. 95 03 75 01 81 02     Input 0, 3 fields of 1 bit from bit 0, 09:01-09:03
//!   95 01 75 05 81 01                          Input 0, 1 field of 5 bits from bit 3, padding
//!   05 01 09 30 09 31 .. 75 08 95 02 81 06     Input 0, 2 fields of 8 bits from bit 8, 01:30 01:31
//! ```
//! The rule to know: what a main item means is settled at the main item, by looking back. The Usage
//! Page, the sign of the Logical Maximum and every other global are those in force there, and a Pop
//! brings back the globals of its matching Push, but never a usage.
//!
//! The promise: unless memory runs out, [`list_fields`] accepts exactly the descriptors in which no cause of
//! [`Cause`] stands within its [`Limits`], and gives the fields of the definitions in `specs/` (`ok`). It refuses all others with
//! the cause and the place that come first in the order (`err`). By [`laws`] this leaves one result. The
//! reports and controls that the fields make are defined in `hid_layout`, and never here.
#![tactic(auto)]

mod collection;
mod fault;
mod field;
mod field_list;
mod flags;
mod globals;
mod item_lists;
pub mod laws;
mod limits;
mod listing;
mod locals;
mod long_reports;
mod parse;
mod parser;
mod path;
pub mod prefix;
mod range_ends;
mod report;
mod shape;
mod span;
mod totals;
mod usage;
mod values;

pub use collection::Collection;
pub use fault::{Cause, LayoutFault};
pub use field::KeptField;
pub use flags::MainFlags;
pub use item_lists::ItemLists;
pub use limits::{
    Limits, MAX_DESCRIPTOR, MAX_ELEMENTS, MAX_ENTRIES, MAX_ITEMS, MAX_KEYS, MAX_OPEN_COLLECTIONS,
    MAX_OPEN_PUSHES, MAX_REAL_ELEMENTS, MAX_REAL_REPORT_BYTES, MAX_REPORT_BYTES, MAX_REPORT_IDS,
    MAX_WIDTH,
};
pub use listing::{ListedFields, list_fields};
pub use long_reports::{LongReport, long_report};
pub use report::{Report, ReportKind};
pub use shape::Shape;
pub use totals::find_report;
pub use usage::{ERROR_ROLL_OVER, FIRST_KEY, KEYBOARD_PAGE, Usage, entry_count};
pub use values::{greatest_value, least_value};
