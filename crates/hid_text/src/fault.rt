//! Why a line says nothing.

/// Why a line says nothing. Of several causes the first is reported, in this order: its length, its words, its digits.
#[derive(Clone, Copy, Debug, PartialEq, Eq)]
pub enum LineFault {
    /// X2: over 1,024 bytes, without the line's end.
    LineTooLong,
    /// X1: no line of the script language.
    Syntax,
    /// X3: a word of hex with a bad digit, or with an odd number of digits.
    BadHex,
}
