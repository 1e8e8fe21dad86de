//! Names of usages (HID Usage Tables).
//! ```text
//!   page 01, ID 30 --usage_name--> Known("X")          a row of the tables
//!   page 07, ID 04 --usage_name--> Known("Keyboard a and A")
//!   page 09, ID 05 --usage_name--> Button(5)           printed as `Button 5`: its ID is its number
//!   page FF00      --usage_name--> none
//!   page 07        --page_name---> "Keyboard/Keypad"
//! ```
//! The rule to know: the rows rise by page and ID, so no usage is named twice ([`laws::rises`]). They are those of Debian's
//! list of USB IDs and some more, with the names of the HID Usage Tables; on 0C, 0F and 20 all of the Tables' 1.5.
//!
//! The promise: a usage has the name of its row, if there is one: `name` on [`usage_name`]. So has a page:
//! the clause of [`page_name`].
#![tactic(auto)]

pub mod laws;
mod names;
mod page_names;
mod pages;
mod table;

pub use names::{UsageName, usage_name};
pub use page_names::page_name;
