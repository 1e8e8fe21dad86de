//! What is drawn of a descriptor: a page, the picture of one report, or all of them in characters.
//! ```text
//!   pictures, fields, items --> a page
//!   a refusal, items ---------> a page of the items up to its place
//!
//!   <h2>Input report: 3 bytes</h2>   the picture, a cell for each field
//!   the fields as a table            each with links to the items that made it
//!   the items with their places      those of the field under the pointer are marked
//! ```
//! The rule to know: all that is drawn is defined part by part in `specs/Page.antt` and `specs/ItemTable.antt`, and each
//! `print_` call adds one part.
//!
//! The promise: [`draw`] gives exactly the stated text (`IsDrawn`), and [`draw_refused`] the page of a refusal (`IsDrawingRefusal`).
#![tactic(auto)]

mod brackets;
mod drawing;
mod field_table;
mod item_numbers;
mod item_table;
mod page;
mod physical;
mod units;
mod windows;

pub use drawing::{Form, draw, draw_refused};
pub use hid_drawing::MAX_DRAWN;
