//! What groups the items of a descriptor (HID 1.11, 6.2.2.6).

use crate::usage::Usage;

/// A collection that is open round an item.
#[derive(Clone, Copy, Debug, Default, PartialEq, Eq)]
pub struct Collection {
    /// 0 Physical, 1 Application, 2 Logical, 3 Report, 4 Named Array, 5 Usage Switch, 6 Usage Modifier; other
    /// numbers as they stand.
    pub kind: u8,
    /// The first usage of its Collection item.
    pub usage: Option<Usage>,
}
