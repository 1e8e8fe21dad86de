//! How numbers, bytes, usages and refusals of descriptors are printed.
//! ```text
//!   HexText(0x0A)                   0A
//!   print_number(10)                10
//!   print_signed(-10)               -10
//!   print_bytes(&[0x05, 0x01])       05 01
//!   UsageText(page 1, ID 30)        01:30
//!   print_usages(09:01, 09:03)      09:01-09:03
//!   RefusalText(L3 at 0)            L3 at 0: a Pop without a Push
//! ```
//! The promise: each call prints the stated text, byte for byte (`specs/Text.antt`, `specs/Causes.antt`). If a writer fails,
//! the call returns its error, and some of the text may be written.
#![tactic(auto)]

mod causes;
mod printing;
mod text;

pub use causes::{RefusalText, layout_words};
pub use printing::{
    print_bytes, print_number, print_signed, print_usage, print_usage_or_dash, print_usages,
};
pub use text::{HexText, UsageText};
