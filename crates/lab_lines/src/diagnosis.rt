//! Which word of a line that `hidrun` has is wrong.

use super::expected::Expected;
use super::lab_line::Unread;
use hid_text::{first_word, look_up, read_boot, read_count, read_device, read_number, read_start};

/// The words that a line may begin with.
const KEYWORDS: [&[u8]; 14] = [
    b"layout", b"values", b"device", b"press", b"release", b"null", b"set", b"move", b"frame",
    b"poll", b"control", b"begin", b"reset", b"halt",
];

/// The requests.
const REQUESTS: [&[u8]; 15] = [
    b"device",
    b"config",
    b"report",
    b"configure",
    b"status",
    b"get-configuration",
    b"idle",
    b"get-idle",
    b"protocol",
    b"get-protocol",
    b"get-report",
    b"set-report",
    b"halt",
    b"clear",
    b"endpoint-status",
];

/// Which of a device's reports is meant.
const REPORT_KINDS: [&[u8]; 3] = [b"input", b"output", b"feature"];

/// The protocols that a host sets.
const PROTOCOLS: [&[u8]; 2] = [b"boot", b"report"];

/// Whether a word is one of these.
fn is_one_of(words: &[&[u8]], word: &[u8]) -> bool {
    words.iter().any(|known| *known == word)
}

/// Whether a word is what is expected.
fn is_as(expected: Expected, word: &[u8]) -> bool {
    match expected {
        Expected::Device => read_device(word).is_some(),
        Expected::Count => read_count(word).is_some(),
        Expected::Start => read_start(word).is_some(),
        Expected::Kind => read_boot(word).is_some(),
        Expected::Fate => look_up(
            &[(b"clean", ()), (b"token", ()), (b"reply", ()), (b"ack", ())],
            word,
        )
        .is_some(),
        Expected::Request => is_one_of(&REQUESTS, word),
        Expected::Byte => matches!(read_number(10, word), Some(0..=0xFF)),
        Expected::ReportKind => is_one_of(&REPORT_KINDS, word),
        Expected::Protocol => is_one_of(&PROTOCOLS, word),
        _ => true,
    }
}

/// The words of `frame`.
static FRAME: [Expected; 1] = [Expected::Count];

/// The words of `poll` and `control`.
static TRIES: [Expected; 3] = [Expected::Device, Expected::Fate, Expected::Count];

/// The words of `reset` and `halt`.
static ONE_DEVICE: [Expected; 1] = [Expected::Device];

/// The words of `device`, before those of its descriptor.
static ATTACHMENT: [Expected; 2] = [Expected::Start, Expected::Kind];

/// The words of `begin`, before those that its request takes.
static REQUEST: [Expected; 2] = [Expected::Device, Expected::Request];

/// The words of `idle`.
static IDLE_TIME: [Expected; 2] = [Expected::Byte, Expected::Byte];

/// The words of `get-idle`.
static REPORT_ID: [Expected; 1] = [Expected::Byte];

/// The words of `protocol`.
static PROTOCOL: [Expected; 1] = [Expected::Protocol];

/// The words of `get-report`, and of `set-report` before its bytes.
static WHICH_REPORT: [Expected; 2] = [Expected::ReportKind, Expected::Byte];

/// What the words after a request are, each in its place; all of them have to be there.
fn places_of_request(request: &[u8]) -> &'static [Expected] {
    match request {
        b"idle" => &IDLE_TIME[..],
        b"get-idle" => &REPORT_ID[..],
        b"protocol" => &PROTOCOL[..],
        b"get-report" => &WHICH_REPORT[..],
        b"set-report" => &WHICH_REPORT[..],
        _ => &[],
    }
}

/// What is wrong with the words after a request.
fn diagnose_request<'a>(request: &[u8], text: &'a [u8]) -> Unread<'a> {
    let places = places_of_request(request);
    let rest = match wrong_word(places, places.len(), text) {
        Err(unread) => return unread,
        Ok(rest) => rest,
    };
    let expected = if request == b"set-report".as_slice() {
        Expected::Report
    } else {
        Expected::End
    };
    match first_word(rest) {
        Some((word, _)) => Unread::Word(word, expected),
        None => Unread::Word(b"", expected),
    }
}

/// What is wrong with the words after `begin`.
fn diagnose_begin(text: &[u8]) -> Unread<'_> {
    if let Err(unread) = wrong_word(&REQUEST, REQUEST.len(), text) {
        return unread;
    }
    let Some((_, text)) = first_word(text) else {
        return Unread::Word(b"", Expected::Device);
    };
    match first_word(text) {
        Some((request, rest)) => diagnose_request(request, rest),
        None => Unread::Word(b"", Expected::Request),
    }
}

/// What the words after a keyword are, each in its place.
fn places_of(keyword: &[u8]) -> &'static [Expected] {
    match keyword {
        b"frame" => &FRAME[..],
        b"poll" => &TRIES[..],
        b"control" => &TRIES[..],
        b"reset" => &ONE_DEVICE[..],
        b"halt" => &ONE_DEVICE[..],
        b"device" => &ATTACHMENT[..],
        _ => &[],
    }
}

/// How many of them have to be there, at most as many as there are.
fn needed_of(keyword: &[u8]) -> usize {
    match keyword {
        b"frame" => 0,
        b"device" => 2,
        _ => 1,
    }
}

/// Whether words may stand after the last place of these lines.
fn goes_on(keyword: &[u8]) -> bool {
    let keywords: [&[u8]; 3] = [b"layout", b"values", b"device"];
    is_one_of(&keywords, keyword)
}

/// The first word of these that isn't what is expected in its place.
fn wrong_word<'a>(
    places: &[Expected],
    needed: usize,
    text: &'a [u8],
) -> Result<&'a [u8], Unread<'a>> {
    let mut rest = text;
    for at in 0..places.len() {
        let expected = places[at];
        let Some((word, more)) = first_word(rest) else {
            return if at < needed {
                Err(Unread::Word(b"", expected))
            } else {
                Ok(rest)
            };
        };
        if !is_as(expected, word) {
            return Err(Unread::Word(word, expected));
        }
        rest = more;
    }
    Ok(rest)
}

/// What is wrong with a line that `hidrun` refuses as none of its lines (X1).
pub fn diagnose(line: &[u8]) -> Unread<'_> {
    let Some((first, text)) = first_word(line) else {
        return Unread::Word(b"", Expected::Keyword);
    };
    if !is_one_of(&KEYWORDS, first) {
        return Unread::Word(first, Expected::Keyword);
    }
    if first == b"begin".as_slice() {
        return diagnose_begin(text);
    }
    match wrong_word(places_of(first), needed_of(first), text) {
        Err(unread) => unread,
        Ok(rest) => match first_word(rest) {
            Some((word, _)) if !goes_on(first) => Unread::Word(word, Expected::End),
            Some((word, _)) => Unread::Word(word, Expected::Arguments),
            None => Unread::Word(b"", Expected::Arguments),
        },
    }
}
