//! The range of the numbers that an element is read by.

/// The least and the greatest number that an element is read by.
#[derive(Clone, Copy)]
pub(crate) struct Bounds {
    pub(crate) least: i64,
    pub(crate) greatest: i64,
}
