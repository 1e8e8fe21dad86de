//! Changes of controls.

use hid_layout::ControlId;

/// A change of one control of a device.
#[derive(Clone, Copy, Debug, PartialEq, Eq)]
pub enum Change {
    /// A switch is pressed.
    Press(ControlId),
    /// A switch is released.
    Release(ControlId),
    /// A value is set.
    Set(ControlId, i64),
    /// A value is set to null.
    Null(ControlId),
    /// A relative control moves by an amount.
    Move(ControlId, i32),
}
