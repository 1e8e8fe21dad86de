//! The events of a view.
use hid_layout::{ControlId, Usage};

/// What became of one control, with its usage. Numbers are in the units of the control's item.
#[derive(Clone, Copy, Debug, PartialEq, Eq)]
pub enum Event {
    /// A switch or a key that was up is held now.
    Down {
        /// The switch or the key.
        control: ControlId,
        /// Its usage, as the report descriptor gives it.
        usage: Usage,
    },
    /// A switch or a key that was held is up now.
    Up {
        /// The switch or the key.
        control: ControlId,
        /// Its usage, as the report descriptor gives it.
        usage: Usage,
    },
    /// An absolute control has this value now.
    Value {
        /// The control.
        control: ControlId,
        /// Its usage, as the report descriptor gives it.
        usage: Usage,
        /// Its value, in the logical range (HID 1.11, 5.8).
        value: i64,
    },
    /// An absolute control has no value now (HID 1.11, 5.10).
    Null {
        /// The control.
        control: ControlId,
        /// Its usage, as the report descriptor gives it.
        usage: Usage,
    },
    /// A relative control moved by this amount.
    Motion {
        /// The control.
        control: ControlId,
        /// Its usage, as the report descriptor gives it.
        usage: Usage,
        /// The amount, never 0.
        by: i64,
    },
    /// A relative control had moved by this amount in a report that a reset, a halt or a clear ended before it reached the
    /// host: no report brings it again.
    Dropped {
        /// The control.
        control: ControlId,
        /// Its usage, as the report descriptor gives it.
        usage: Usage,
        /// The amount, never 0.
        by: i64,
    },
}
