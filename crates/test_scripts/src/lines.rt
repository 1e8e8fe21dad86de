//! What a line says that nothing prints, worked out by hand from docs/SCRIPT.md. What a script shows of the other lines
//! stands in tests/scripts/lines.rows, and so do lines that are none.

use hid_bus::Start;
use hid_report_descriptor::Usage;
use hid_requests::Boot;
use hid_script::{Cause, Line, ShortLine, parse_line};
use std::test::Fail;
use test_rows::{holds, none_is_wrong};
use usb_transact::Fate;

/// Whether a line sets this value.
fn sets(line: &[u8], to: i64) -> bool {
    let named = Usage {
        page: 0xFF00,
        id: 1,
    };
    match parse_line(line) {
        Ok(Line::Step(ShortLine::Set { dev, usage, value })) => dev == 7
            && usage == named
            && value == to,
        _ => false,
    }
}

#[test]
fn a_line_sets_a_number_of_18_digits(_rt: HostRuntime) -> Result<(), Fail> {
    holds(
        "the number",
        sets(
            b"set 7 fF00:1 -999999999999999999",
            -999_999_999_999_999_999,
        ),
    )
}

/// Whether a line says nothing.
fn is_comment(line: &[u8]) -> bool {
    matches!(parse_line(line), Ok(Line::Nothing))
}

#[test]
fn a_comment_may_be_one_word(_rt: HostRuntime) -> Result<(), Fail> {
    holds("a comment", is_comment(b" #layout"))
}

/// The keyboard of HID 1.11, E.6.
#[rattlefmt::skip]
const KEYBOARD: [u8; 63] = [
    0x05, 0x01, 0x09, 0x06, 0xA1, 0x01, 0x05, 0x07, 0x19, 0xE0, 0x29, 0xE7, 0x15, 0x00, 0x25, 0x01,
    0x75, 0x01, 0x95, 0x08, 0x81, 0x02, 0x95, 0x01, 0x75, 0x08, 0x81, 0x01, 0x95, 0x05, 0x75, 0x01,
    0x05, 0x08, 0x19, 0x01, 0x29, 0x05, 0x91, 0x02, 0x95, 0x01, 0x75, 0x03, 0x91, 0x01, 0x95, 0x06,
    0x75, 0x08, 0x15, 0x00, 0x25, 0x65, 0x05, 0x07, 0x19, 0x00, 0x29, 0x65, 0x81, 0x00, 0xC0,
];

/// The lines of a script in which a key of that keyboard is pressed, and polled.
#[rattlefmt::skip]
const PRESSED: [&[u8]; 3] = [
    b"device ready keyboard 05 01 09 06 A1 01 05 07 19 E0 29 E7 15 00 25 01 75 01 95 08 81 02 95 01 75 08 81 01 95 05 75 01 05 08 19 01 29 05 91 02 95 01 75 03 91 01 95 06 75 08 15 00 25 65 05 07 19 00 29 65 81 00 C0",
    b"press 1 07:04",
    b"poll 1",
];

/// Whether a line attaches a keyboard with this descriptor, ready at once.
fn attaches(line: &[u8], descriptor: &[u8]) -> bool {
    match parse_line(line) {
        Ok(Line::Device { start, boot, bytes }) => {
            start == Start::Ready && boot == Boot::Keyboard && bytes.as_slice() == descriptor
        }
        _ => false,
    }
}

/// Whether a line presses a key of the first device.
fn presses(line: &[u8], key: Usage) -> bool {
    match parse_line(line) {
        Ok(Line::Step(ShortLine::Press { dev, usage })) => dev == 1 && usage == key,
        _ => false,
    }
}

/// Whether a line polls the first device once, and nothing is lost.
fn polls_once(line: &[u8]) -> bool {
    match parse_line(line) {
        Ok(Line::Step(ShortLine::Poll { dev, fate, count })) => {
            dev == 1 && fate == Fate::Clean && count == 1
        }
        _ => false,
    }
}

/// The first of three lines that doesn't say this.
fn first_otherwise(lines: &[&[u8]], descriptor: &[u8], key: Usage) -> Option<usize> {
    let [device, press, poll] = lines else {
        return Some(0);
    };
    if !attaches(device, descriptor) {
        return Some(1);
    }
    if !presses(press, key) {
        return Some(2);
    }
    if !polls_once(poll) {
        return Some(3);
    }
    None
}

#[test]
fn a_keyboard_is_attached_and_its_key_pressed_and_polled(_rt: HostRuntime) -> Result<(), Fail> {
    let key = Usage { page: 7, id: 4 };
    none_is_wrong(first_otherwise(&PRESSED, &KEYBOARD, key))
}

/// Lines that say nothing, and the cause that is looked for first.
#[rattlefmt::skip]
const REFUSED: [(&[u8], Cause); 3] = [
    (b"press 1 7", Cause::Syntax),
    (b"values 0", Cause::BadHex),
    (b"begin 1 set-report 2 0 0", Cause::Syntax),
];

/// The first line that is refused for another cause, or not at all.
fn first_not_refused(rows: &[(&'static [u8], Cause)]) -> Option<usize> {
    for (at, (line, cause)) in rows.iter().enumerate() {
        match parse_line(line) {
            Err(why) if why == *cause => {}
            _ => return Some(at),
        }
    }
    None
}

#[test]
fn a_line_that_says_nothing_has_its_cause(_rt: HostRuntime) -> Result<(), Fail> {
    none_is_wrong(first_not_refused(&REFUSED))
}
