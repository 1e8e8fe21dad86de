//! Fields of bits in the bytes of a report, and the numbers that they stand for
//! (HID 1.11, 5.8, 5.10 and 8).
//! ```text
//!   byte           0        1        2
//!                  BC       3A       12
//!   bit 7 to 0     10111100 00111010 00010010
//!   bits 12 to 23           0011     00010010     get(bytes, 12, 12) is 0x123
//!
//!             get                to_value
//!   bytes ----------> pattern ------------> number
//!         <----------         <------------
//!             put                to_pattern
//!
//!   null_pattern    the least pattern that stands for no number of a range, sent for a null
//! ```
//! ```
//! let mut bytes = [0xFF, 0xFF];
//! WordCodec::put(&mut bytes, 3, 5, 0);
//! assert!(bytes == [0x07, 0xFF]);
//! ```
//! The rule to know: that a field has 1 to 32 bits and lies in the slice, and that a pattern fits its width, are
//! preconditions. No call refuses anything or takes memory.
//!
//! The promise: after `put` the field has the pattern, and every other bit is as before: `field` and `others` on
//! [`FieldCodec::put`]. `BitCodec` and `WordCodec` are proved by the same clauses, so they agree.
#![tactic(auto)]

mod bit_codec;
mod codec;
mod value;
mod word_codec;

pub use bit_codec::BitCodec;
pub use codec::{FieldCodec, MAX_WIDTH};
pub use value::{null_pattern, to_pattern, to_value};
pub use word_codec::WordCodec;
