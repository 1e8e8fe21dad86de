//! Why the items of a descriptor end before its bytes do.

use std::fmt;
use std::fmt::Write;

/// Why no further item can be read.
#[derive(Clone, Copy, Debug, PartialEq, Eq)]
pub enum ItemFault {
    /// I1: the bytes from this place on, in bytes from 0, are the beginning of an item that the
    /// descriptor doesn't finish (HID 1.11, 6.2.2.2 and 6.2.2.3).
    Truncated { at: usize },
}

impl fmt::Display for ItemFault {
    ghost use Rattle.std.specs.Prelude.{Some};
    ghost use Rattle.hid_items.specs.Fault.{item_fault_text};

    ghost output = { λ fault. Some (item_fault_text fault) };

    fn fmt<W: Write>(&self, f: &mut fmt::Formatter<W>) -> fmt::Result {
        let ItemFault::Truncated { at } = self;
        write!(f, "I1 at {at}")
    }
}
