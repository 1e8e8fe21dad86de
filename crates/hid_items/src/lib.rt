//! The items of a report descriptor, in order (HID 1.11, 6.2.2).
//! ```text
//!   report descriptor    05 01      09 02      A1 01      FE 02 10 AA BB      C0
//!                        |  |       short      short      |  |  |  |          short, no data
//!                        |  data                          |  |  |  2 bytes of data
//!                        first byte: tag, type, size      |  |  tag
//!                                                         |  size of the data
//!                                                         the first byte of every long item
//! ```
//! An item is a slice of the descriptor: nothing is copied, and no call takes memory. What an item means is
//! defined in `hid_report_descriptor`, and never here.
//!
//! The promise: [`Items`] gives exactly the items whose bytes, one after another, are the descriptor, each
//! with its place: `next_gives` of its `Iterator`, with [`laws::one_reading`]. If the bytes left over are no
//! whole item, it ends with [`ItemFault::Truncated`].
//! ```text
//!   for item in Items::new(&[0x09, 0x02, 0x25]) {      // Ok(Item { at: 0, .. }), whose unsigned() is 2,
//!       ..                                             // then Err(ItemFault::Truncated { at: 2 })
//!   }
//! ```
#![tactic(auto)]

mod encoding;
mod fault;
pub mod laws;
mod reading;

pub use encoding::{Item, ItemKind};
pub use fault::ItemFault;
pub use reading::Items;
