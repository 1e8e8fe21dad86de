//! What a line does with a control.

/// A change, without the control that changes.
#[derive(Clone, Copy)]
pub enum ChangeKind {
    /// A switch is pressed.
    Press,
    /// A switch is released.
    Release,
    /// A value is set to null.
    Null,
    /// A value is set.
    Set(i64),
    /// A relative control moves by an amount.
    Move(i32),
}
