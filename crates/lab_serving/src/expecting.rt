//! What is expected of a host.

ghost use Rattle.std.specs.Prelude.{◌≡◌, codes};
ghost use Rattle.hid_text.specs.Words.{words_of};
ghost use Rattle.lab_serving.specs.Expecting.{device_said, is_of_other, is_report, refusal_of_device, refusal_of_report, refusal_of_words};

use hid_text::{first_word, read_device};
use usbip_script::LineCause;

/// What is expected.
#[derive(Clone, Copy, Debug, PartialEq, Eq)]
pub enum ExpectedKind {
    /// A report.
    Report,
    /// Nothing: all that the host set has been expected.
    Nothing,
    /// Anything: all that the host set is passed over.
    Anything,
}

/// What is expected of the host, once the actions before it were done.
#[derive(Drop)]
pub struct Expecting {
    /// How many actions come before it.
    pub at: usize,
    /// The number of its line.
    pub number: usize,
    /// What is expected.
    pub kind: ExpectedKind,
    /// The line of the report that is expected; nothing where none is.
    pub line: Vec<u8>,
}

/// Whether a word is one of the kinds of reports that a host sets, or any word.
fn is_report(word: &[u8]) -> bool
    ensures { result ≡ is_report word.now }
{
    word == b"output".as_slice() || word == b"feature".as_slice() || word == b"*".as_slice()
}

/// Why a word names no device of so many, if it does: `*` is any.
fn device_refusal(count: usize, word: &[u8]) -> Option<LineCause>
    ensures { result ≡ refusal_of_device count word.now }
{
    if word == b"*".as_slice() {
        return None;
    }
    match read_device(word) {
        Some(dev) if usize::from(dev) <= count => None,
        Some(_) => Some(LineCause::NoDevice),
        None => Some(LineCause::NotServed),
    }
}

/// Why a second word is no kind of report, if it isn't.
fn report_refusal(text: &[u8]) -> Option<LineCause>
    ensures { result ≡ refusal_of_report (words_of text.now) }
{
    match first_word(text) {
        Some((word, _)) if is_report(word) => None,
        _ => Some(LineCause::NotServed),
    }
}

/// Why a line can't be expected of the host of so many devices, if it can't: it sets reports, and reports no events.
pub(crate) fn expected_refusal(count: usize, line: &[u8]) -> Option<LineCause>
    ensures { result ≡ refusal_of_words count (words_of line.now) }
{
    let Some((word, rest)) = first_word(line) else {
        return Some(LineCause::NotServed);
    };
    match device_refusal(count, word) {
        Some(cause) => Some(cause),
        None => report_refusal(rest),
    }
}

/// The device of which a line is expected; none where it may be any.
fn device_said(line: &[u8]) -> Option<u8>
    ensures { result ≡ device_said (words_of line.now) }
{
    match first_word(line) {
        Some((word, _)) => read_device(word),
        None => None,
    }
}

impl Expecting {
    /// Whether it is expected of another device than that at this place.
    pub(crate) fn is_of_other(&self, place: Option<usize>) -> bool
        ensures { result ≡ is_of_other place self.now }
    {
        match (device_said(self.line.as_slice()), place) {
            (Some(dev), Some(place)) => usize::from(dev) != place.saturating_add(1),
            _ => false,
        }
    }
}
