//! Whether a line that was printed is the one that is expected.

ghost use Rattle.std.specs.Prelude.{◌≡◌, IfSome, None, Some};
ghost use Rattle.std.specs.Option.{option_map};
ghost use Rattle.hid_text.specs.Words.{words_of};
ghost use Rattle.hid_text.specs.Numbers.{usage_of_word};
ghost use Rattle.lab_expectations.specs.Matching.{is_event, is_output, is_usage_of, is_word, matches, usage_place};

use hid_text::{first_word, read_usage};
use lab_lines::{is_any_name, is_name_of};

/// Whether a word that was printed is a usage that another word says: in other digits, or by its name.
fn is_usage_of(expected: &[u8], word: &[u8]) -> bool
    ensures { result ≡ is_usage_of expected.now (usage_of_word word.now) }
{
    match read_usage(word) {
        None => false,
        Some(usage) => match read_usage(expected) {
            Some(other) => usage.page == other.page && usage.id == other.id,
            None => is_name_of(usage, expected),
        },
    }
}

/// Whether a word that was printed is the expected one.
#[tactic(auto, unfolding(crate::specs::Matching::is_word))]
fn is_word(expected: &[u8], word: &[u8]) -> bool
    ensures { result ≡ is_word expected.now word.now }
{
    expected == b"*".as_slice() || expected == word || is_usage_of(expected, word)
}

/// Whether a line that was printed is the one that is expected, word by word.
#[tactic(auto, unfolding(crate::specs::Matching::matches))]
pub fn is_expected_line(expected: &[u8], line: &[u8]) -> bool
    ensures { result ≡ matches expected.now line.now }
{
    let mut wanted = expected;
    let mut rest = line;
    loop {
        match first_word(wanted) {
            None => return first_word(rest).is_none(),
            Some((word, more)) => match first_word(rest) {
                None => return false,
                Some((printed, after)) => {
                    if !is_word(word, printed) {
                        return false;
                    }
                    wanted = more;
                    rest = after;
                }
            },
        }
    }
}

/// Whether a line is one of an Output report: its second word is `output`.
pub fn is_output_line(line: &[u8]) -> bool
    ensures { result ≡ is_output (words_of line.now) }
{
    let Some((_, rest)) = first_word(line) else {
        return false;
    };
    match first_word(rest) {
        Some((word, _)) => word == b"output".as_slice(),
        None => false,
    }
}

/// Whether a word is that of an event.
fn is_event(word: &[u8]) -> bool
    ensures { result ≡ is_event word.now }
{
    word == b"down".as_slice()
        || word == b"up".as_slice()
        || word == b"value".as_slice()
        || word == b"null".as_slice()
        || word == b"motion".as_slice()
        || word == b"dropped".as_slice()
}

/// The word of an expected line in which the usage of an event stands, if the line is one of an event.
#[tactic(auto, unfolding(crate::specs::Matching::usage_place))]
fn usage_place(expected: &[u8]) -> Option<&[u8]>
    ensures { option_map (λ word. word.now) result ≡ usage_place (words_of expected.now) }
{
    let (_, rest) = first_word(expected)?;
    let (event, rest) = first_word(rest)?;
    if !is_event(event) {
        return None;
    }
    let (usage, _) = first_word(rest)?;
    Some(usage)
}

/// The word of an expected line in which the usage of an event stands and that says none, if it is so: no line that is printed is
/// that one. It takes some milliseconds.
pub fn unknown_usage(expected: &[u8]) -> Option<&[u8]>
    ensures place { IfSome result (λ word. usage_place (words_of expected.now) ≡ Some word.now) }
    ensures none { IfSome result (λ word. usage_of_word word.now ≡ None) }
{
    let word = usage_place(expected)?;
    if word == b"*".as_slice() || read_usage(word).is_some() || is_any_name(word) {
        return None;
    }
    Some(word)
}
