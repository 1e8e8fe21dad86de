//! What is found in a file, and where.

/// How a file has its descriptor.
#[derive(Clone, Copy, Debug, PartialEq, Eq)]
pub enum Shape {
    /// The bytes of the file are the descriptor.
    Binary,
    /// Lines of an offset and bytes.
    Dump,
    /// A line `R: COUNT HEX` of hid-recorder, or `H: report_descriptor=HEX` of umockdev.
    Recording,
    /// Lines below a heading of usbhid-dump.
    Block,
    /// Items as `lsusb -v` prints them.
    Items,
    /// A list in brackets.
    List,
    /// Escapes, as in strings of C and Python.
    Escapes,
    /// Hex or numbers, and nothing else but comments.
    Hex,
}

/// The descriptor of a file.
#[derive(Debug, Drop)]
pub struct Found {
    /// The bytes of the descriptor.
    pub bytes: Vec<u8>,
    /// How the file has them.
    pub shape: Shape,
    /// The first and the last line that they were read from, from 1 on, of a shape among other lines.
    pub lines: Option<(u64, u64)>,
}
