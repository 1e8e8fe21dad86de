//! The characters of lines and corners.

/// The upper left corner of a box.
pub const LEFT_FIRST: &str = "┌";

/// The left end of an edge between two rows.
pub const LEFT_BOTH: &str = "├";

/// The lower left corner of a box.
pub const LEFT_LAST: &str = "└";

/// The upper right corner of a box.
pub const RIGHT_FIRST: &str = "┐";

/// The right end of an edge between two rows.
pub const RIGHT_BOTH: &str = "┤";

/// The lower right corner of a box.
pub const RIGHT_LAST: &str = "┘";

/// An edge from which a side goes down.
pub const DOWNWARD: &str = "┬";

/// An edge to which a side comes from above.
pub const UPWARD: &str = "┴";

/// An edge through which a side goes.
pub const CROSS: &str = "┼";

/// An edge without a side.
pub const FLAT: &str = "─";

/// The side of a cell or a bracket.
pub const SIDE: &str = "│";

/// The first corner of a bracket.
pub const BRACKET_FIRST: &str = "╮";

/// The last corner of a bracket.
pub const BRACKET_LAST: &str = "╯";

/// No line.
pub const BLANK: &str = " ";
