//! What is expected where a line can't be read.

use std::fmt;

/// What is expected in the place of a word.
#[derive(Clone, Copy, Debug, PartialEq, Eq)]
pub enum Expected {
    /// The first word of a line.
    Keyword,
    Device,
    Control,
    /// A number that a control is set to.
    Number,
    /// By how much a control moves.
    Amount,
    Count,
    /// A Report ID or an idle time.
    Byte,
    /// Which of a device's reports.
    ReportKind,
    /// The protocol that a host sets.
    Protocol,
    /// The bytes of a report that is set.
    Report,
    Fate,
    Start,
    Kind,
    Hex,
    Request,
    Percent,
    Seed,
    /// A text between quotes.
    Text,
    /// A character that a key types.
    Character,
    /// The end of the line after a text.
    TextEnd,
    /// A line that was printed, or `none`.
    Line,
    /// The name of a file.
    File,
    /// The words of this request.
    Arguments,
    /// The end of the line.
    End,
}

impl fmt::Display for Expected {
    fn fmt<W: fmt::Write>(&self, f: &mut fmt::Formatter<W>) -> fmt::Result {
        f.write_str(match self {
            Expected::Keyword => "a line's first word, such as press or poll",
            Expected::Device => "a device from 1 to 7",
            Expected::Control =>
                "a control: 07:04, 0D:42#2, a place 7.0 or a name such as Keyboard_A",
            Expected::Number => "a decimal number of up to 18 digits",
            Expected::Amount => "a number from -2147483648 to 2147483647",
            Expected::Byte => "a number from 0 to 255",
            Expected::ReportKind => "input, output or feature",
            Expected::Protocol => "boot or report",
            Expected::Report => "a report of at most 256 bytes",
            Expected::Count => "a count from 1 to 10000",
            Expected::Fate => "a fate: clean, token, reply or ack",
            Expected::Start => "ready or cold",
            Expected::Kind => "plain, keyboard or mouse",
            Expected::Hex => "bytes in hex, or @FILE",
            Expected::Request => "a request, such as config or set-report",
            Expected::Percent => "a percentage from 0 to 100",
            Expected::Seed => "a seed of up to 18 digits",
            Expected::Text => "a text between quotes",
            Expected::Character => "a character that a key of a US keyboard types",
            Expected::TextEnd => "the end of the line; a quote inside a text is \\\"",
            Expected::Line => "a line that is printed, none, or any",
            Expected::File => "the name of a file",
            Expected::Arguments => "what this request takes",
            Expected::End => "the end of the line",
        })
    }
}
