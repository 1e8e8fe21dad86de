//! Where a list stands in a longer one.

/// The place of a list among all values: from the start to before the end.
#[derive(Clone, Copy, Debug)]
pub(crate) struct Span {
    pub(crate) start: usize,
    pub(crate) end: usize,
}
