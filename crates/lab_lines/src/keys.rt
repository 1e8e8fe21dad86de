//! The keys of a US keyboard (HID Usage Tables, 10).

ghost use Rattle.std.specs.Prelude.{◌≡◌};
ghost use Rattle.lab_lines.specs.Keys.{keyboard_key, key_under, key_of};

use hid_layout::Usage;

/// The page of keys.
const KEYBOARD_PAGE: u16 = 0x07;

/// Keyboard LeftShift.
pub const LEFT_SHIFT: Usage = Usage {
    page: KEYBOARD_PAGE,
    id: 0xE1,
};

/// The key that types a character.
#[derive(Clone, Copy, Debug, PartialEq, Eq)]
pub struct Key {
    /// The key.
    pub usage: Usage,
    /// Whether Shift is held meanwhile.
    pub is_shifted: bool,
}

/// Characters that are no letters and no digits, each with its key and whether Shift is held.
#[rattlefmt::skip]
const SIGNS: [(u8, u16, bool); 35] = [
    (b'\n', 0x28, false), (b'\t', 0x2B, false), (b' ', 0x2C, false),
    (b'-', 0x2D, false), (b'=', 0x2E, false), (b'[', 0x2F, false), (b']', 0x30, false), (b'\\', 0x31, false),
    (b';', 0x33, false), (b'\'', 0x34, false), (b'`', 0x35, false), (b',', 0x36, false), (b'.', 0x37, false),
    (b'/', 0x38, false),
    (b'!', 0x1E, true), (b'@', 0x1F, true), (b'#', 0x20, true), (b'$', 0x21, true), (b'%', 0x22, true),
    (b'^', 0x23, true), (b'&', 0x24, true), (b'*', 0x25, true), (b'(', 0x26, true), (b')', 0x27, true),
    (b'_', 0x2D, true), (b'+', 0x2E, true), (b'{', 0x2F, true), (b'}', 0x30, true), (b'|', 0x31, true),
    (b':', 0x33, true), (b'"', 0x34, true), (b'~', 0x35, true), (b'<', 0x36, true), (b'>', 0x37, true),
    (b'?', 0x38, true),
];

/// A key of page 07, with Shift or without.
fn keyboard_key(id: u16, is_shifted: bool) -> Key
    ensures { result ≡ keyboard_key id is_shifted }
{
    Key {
        usage: Usage {
            page: KEYBOARD_PAGE,
            id,
        },
        is_shifted,
    }
}

/// The key of a character in a table.
fn key_under(rows: &[(u8, u16, bool)], character: u8) -> Option<Key>
    ensures { result ≡ key_under rows.now character }
{
    for row in rows {
        let (sign, id, is_shifted) = *row;
        if sign == character {
            return Some(keyboard_key(id, is_shifted));
        }
    }
    None
}

/// The key that types a character on a US keyboard (HID Usage Tables, 10); none where no key does.
#[tactic(auto, unfolding(crate::specs::Keys::key_of))]
pub fn key_of(character: u8) -> Option<Key>
    ensures { result ≡ key_of character }
{
    match character {
        b'a'..=b'z' => Some(keyboard_key(0x04 + u16::from(character - b'a'), false)),
        b'A'..=b'Z' => Some(keyboard_key(0x04 + u16::from(character - b'A'), true)),
        b'1'..=b'9' => Some(keyboard_key(0x1E + u16::from(character - b'1'), false)),
        b'0' => Some(keyboard_key(0x27, false)),
        _ => key_under(&SIGNS, character),
    }
}
