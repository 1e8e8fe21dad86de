//! The first line that isn't passed over.

ghost use Rattle.std.specs.Prelude.{◌≡◌, None};
ghost use Rattle.std.specs.Option.{option_map};
ghost use Rattle.lab_expectations.specs.Expectations.{parts_of, is_optional, plain, outcome, first_line, first_required, last_line, found_of, EndsThere};

use super::matching::is_expected_line;
use hid_text::split_line;

/// What an expectation finds.
#[derive(Clone, Copy)]
pub(crate) enum Found<'a> {
    /// The line, before what is left.
    Met(&'a [u8]),
    /// Another line.
    Other(&'a [u8]),
    /// No line that has to be expected.
    Nothing,
}

/// Whether a line may be expected, and needn't.
fn is_optional(line: &[u8]) -> bool
    ensures { result ≡ is_optional line.now }
{
    match line.first() {
        Some(byte) => *byte == b'+',
        None => false,
    }
}

/// A line without the mark of one that may be expected.
pub(crate) fn plain_line(line: &[u8]) -> &[u8]
    ensures { result.now ≡ plain line.now }
{
    if is_optional(line) { &line[1..] } else { line }
}

/// Looks for an expected line among those that wait, each with its line feed.
pub(crate) fn look<'a>(expected: &[u8], waiting: &'a [u8]) -> Found<'a>
    ensures found { found_of result ≡ outcome expected.now (parts_of waiting.now) }
    ensures end { EndsThere result waiting.now }
{
    let mut rest = waiting;
    loop {
        match split_line(rest) {
            None => return Found::Nothing,
            Some((line, more)) => {
                if is_expected_line(expected, plain_line(line)) {
                    return Found::Met(more);
                }
                if !is_optional(line) {
                    return Found::Other(line);
                }
                rest = more;
            }
        }
    }
}

/// The first line that has to be expected, of those that wait.
pub(crate) fn first_required(waiting: &[u8]) -> Option<&[u8]>
    ensures { option_map (λ line. line.now) result ≡ first_required (parts_of waiting.now) }
{
    let mut rest = waiting;
    loop {
        match split_line(rest) {
            None => return None,
            Some((line, more)) => {
                if !is_optional(line) {
                    return Some(line);
                }
                rest = more;
            }
        }
    }
}

/// The first line of those that wait.
pub(crate) fn first_line(waiting: &[u8]) -> Option<&[u8]>
    ensures { option_map (λ line. line.now) result ≡ first_line (parts_of waiting.now) }
{
    match split_line(waiting) {
        Some((line, _)) => Some(plain_line(line)),
        None => None,
    }
}

/// The last line of those that wait.
pub(crate) fn last_line(waiting: &[u8]) -> Option<&[u8]>
    ensures { option_map (λ line. line.now) result ≡ last_line None (parts_of waiting.now) }
{
    let mut rest = waiting;
    let mut last = None;
    while let Some((line, more)) = split_line(rest) {
        last = Some(plain_line(line));
        rest = more;
    }
    last
}
