//! Why a row can't be played.

use std::alloc::AllocError;
use std::num::ParseIntError;

/// Why a row can't be played.
#[derive(Clone, Copy, Debug, PartialEq, Eq)]
pub enum RowFault {
    /// A word can't be read, or there is no such question.
    Unread,
    Memory,
}

impl From<AllocError> for RowFault {
    fn from(_error: AllocError) -> RowFault {
        RowFault::Memory
    }
}

impl From<ParseIntError> for RowFault {
    fn from(_error: ParseIntError) -> RowFault {
        RowFault::Unread
    }
}
