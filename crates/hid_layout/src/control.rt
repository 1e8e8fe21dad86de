//! The controls of a layout (HID 1.11, 6.2.2.5 and 8).

ghost use Rattle.std.specs.Prelude.{◌≡◌};
ghost use Rattle.hid_layout.specs.ControlKinds.{has_null, is_switch};

use hid_report_descriptor::Usage;

/// Names a control.
#[derive(Clone, Copy, Debug, PartialEq, Eq)]
pub struct ControlId {
    /// The place of its item among the listed items.
    pub item: usize,
    /// The place of its element, or its place in an array's usage list.
    pub index: usize,
}

/// What a control reports.
#[derive(Clone, Copy, Debug, PartialEq, Eq)]
pub enum ControlKind {
    /// Pressed or not: a variable element with range 0 to 1 that is absolute and has no null state, or a key of an array.
    Switch,
    /// A number.
    Value,
    /// A number, or null: its item has Null State, and some pattern lies out of the range.
    NullValue,
    /// A motion: its item has Relative.
    Relative,
}

impl ControlKind {
    /// Whether a control of this kind has a null state (HID 1.11, 5.10).
    pub fn has_null(self) -> bool
        ensures { result ≡ has_null self }
    {
        match self {
            ControlKind::NullValue => true,
            ControlKind::Switch | ControlKind::Value | ControlKind::Relative => false,
        }
    }

    /// Whether a control of this kind is pressed or not.
    pub fn is_switch(self) -> bool
        ensures { result ≡ is_switch self }
    {
        match self {
            ControlKind::Switch => true,
            ControlKind::Value | ControlKind::NullValue | ControlKind::Relative => false,
        }
    }
}

/// What a control is and means.
#[derive(Clone, Copy, Debug, PartialEq, Eq)]
pub struct Control {
    /// What the control reports.
    pub kind: ControlKind,
    /// What it is for.
    pub usage: Usage,
}

/// The controls of a listed item, without their usages.
#[derive(Clone, Copy, Debug, PartialEq, Eq)]
pub enum Controls {
    /// Padding, and items of Output and Feature reports.
    None,
    /// One for each element of a variable item.
    Elements {
        /// What each control reports.
        kind: ControlKind,
        /// The least number that an element can carry.
        least: i64,
        /// The greatest number that an element can carry.
        greatest: i64,
        /// The number of elements.
        count: usize,
    },
    /// The keys of an array.
    Keys {
        /// The number of elements.
        elements: usize,
        /// Whether the array can report that more keys are pressed than it has elements.
        rolls_over: bool,
        /// The places of its usage list at which a key can stand.
        count: usize,
    },
}
