//! What fields are for (HID 1.11, 6.2.2.4 and 6.2.2.5).

/// What the fields of a main item are.
#[derive(Clone, Copy, Debug, PartialEq, Eq)]
pub enum Shape {
    /// Bits that mean nothing: the item is Constant, or it has no usage.
    Padding,
    /// Each field is a control of its own.
    Variable,
    /// Each field names a control of a list.
    Array,
}
