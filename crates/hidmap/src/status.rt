//! Exit statuses.

/// All was drawn.
pub const FINE: u8 = 0;

/// The descriptor, or its text, is refused.
pub const REFUSED: u8 = 1;

/// The command line is wrong, or there is no such report.
pub const WRONG_USAGE: u8 = 2;

/// A file, standard output or memory failed.
pub const OUTSIDE: u8 = 3;
