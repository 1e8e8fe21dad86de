//! The boot keyboard and the boot mouse: their descriptors and their reports.

use hid_usages::boot::{KEYBOARD, KeyboardReport, MOUSE, MouseReport};
use test_rows::{
    RowFault, number_of, pattern_of, print, print_bytes, print_numbers, print_shown, print_whether,
    signed_of, split,
};

/// The bytes of a boot descriptor.
pub fn print_boot(printed: &mut String, name: &str) -> Result<(), RowFault> {
    match name {
        "KEYBOARD" => print_bytes(printed, &KEYBOARD),
        "MOUSE" => print_bytes(printed, &MOUSE),
        _ => Err(RowFault::Unread),
    }
}

/// Whether a key is held, by its ID in hex.
pub fn print_key(printed: &mut String, bytes: &[u8], words: &str) -> Result<(), RowFault> {
    let id = (pattern_of(words)? % 256) as u8;
    match KeyboardReport::read(bytes) {
        Ok(report) => print_whether(printed, report.holds(id), "held", "not held"),
        Err(fault) => print_shown(printed, &fault),
    }
}

/// What a keyboard's report of these modifiers and keys is written as, and whether it is rolled over.
pub fn print_keyboard(printed: &mut String, bytes: &[u8]) -> Result<(), RowFault> {
    let [modifiers, a, b, c, d, e, f] = *bytes else {
        return Err(RowFault::Unread);
    };
    let report = KeyboardReport {
        modifiers,
        keys: [a, b, c, d, e, f],
    };
    let written = report.write();
    print_bytes(printed, &written)?;
    if KeyboardReport::read(&written) != Ok(report) {
        return print(printed, "read otherwise");
    }
    print_whether(printed, report.rolled(), "rolled over", "not rolled over")
}

fn print_mouse_report(printed: &mut String, report: &MouseReport) -> Result<(), RowFault> {
    let MouseReport { buttons, x, y } = *report;
    print_numbers(printed, &[i64::from(buttons), i64::from(x), i64::from(y)])
}

/// The report of a mouse in these bytes.
fn print_mouse_in(printed: &mut String, bytes: &[u8]) -> Result<(), RowFault> {
    match MouseReport::read(bytes) {
        Ok(report) => print_mouse_report(printed, &report),
        Err(fault) => print_shown(printed, &fault),
    }
}

/// What the report of a mouse is written as, by its buttons and its motion, and what is read of that.
pub fn print_mouse(printed: &mut String, words: &str) -> Result<(), RowFault> {
    let (buttons, words) = split(words, ' ');
    let (x, y) = split(words, ' ');
    let report = MouseReport {
        buttons: (number_of(buttons)? % 8) as u8,
        x: signed_of(x)?.clamp(-128, 127) as i8,
        y: signed_of(y)?.clamp(-128, 127) as i8,
    };
    let written = report.write();
    print_bytes(printed, &written)?;
    print_mouse_in(printed, &written)
}

/// What these bytes are as a report of a keyboard, and as one of a mouse.
pub fn print_boot_reports(printed: &mut String, bytes: &[u8]) -> Result<(), RowFault> {
    match KeyboardReport::read(bytes) {
        Ok(report) => print_bytes(printed, &report.keys)?,
        Err(fault) => print_shown(printed, &fault)?,
    }
    print_mouse_in(printed, bytes)
}
