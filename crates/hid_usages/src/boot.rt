//! The reports of the boot keyboard and the boot mouse, which are read without a layout (HID 1.11, appendix B).

ghost use Rattle.std.specs.Prelude.{◌≡◌, ◌≤◌, ℕ, List, length};
ghost use Rattle.hid_fields.specs.Value.{pattern_for};
ghost use Rattle.hid_layout.specs.Controls.{items_of};
ghost use Rattle.hid_usages.specs.Boot.{keyboard_in, keyboard_bytes, is_rolled, is_boot_key_held, mouse_in, mouse_bytes, boot_motion, keyboard_layout, mouse_layout, GivesOnly, ReportsKeys, ReportsButtons, KeyboardReadsBack, MouseReadsBack};
ghost use Rattle.hid_snapshots.specs.ControlStates.{FitsView};
ghost use Rattle.hid_snapshots.specs.Encoding.{AreBytes};
ghost use Rattle.hid_snapshots.specs.declared.control_state.ControlState.{ControlState};

use hid_fields::{to_pattern, to_value};
pub use hid_layout::boot::{KEYBOARD, MOUSE};
use hid_layout::laws::one_reading;
use hid_snapshots::ReportFault;

/// The Input report of the boot keyboard (HID 1.11, B.1).
#[derive(Clone, Copy, Debug, PartialEq, Eq)]
pub struct KeyboardReport {
    /// One bit for each of the usages 07:E0 to 07:E7, from bit 0 on.
    pub modifiers: u8,
    /// The IDs of keys of page 07 that are held, 0 where there is none; 1 in each where there are more than six.
    pub keys: [u8; 6],
}

impl KeyboardReport {
    /// The report in these bytes: modifiers in byte 0, keys in bytes 2 to 7. More than 8 bytes are ignored.
    ///
    /// # Errors
    /// [`ReportFault::Short`] (U8) under 8 bytes.
    pub fn read(bytes: &[u8]) -> Result<KeyboardReport, ReportFault>
        ensures { result ≡ keyboard_in bytes.now }
    {
        if bytes.len() < 8 {
            return Err(ReportFault::Short);
        }
        Ok(KeyboardReport {
            modifiers: bytes[0],
            keys: [bytes[2], bytes[3], bytes[4], bytes[5], bytes[6], bytes[7]],
        })
    }

    /// The bytes that the report is read from, with 0 in the reserved byte.
    pub fn write(&self) -> [u8; 8]
        ensures { result ≡ keyboard_bytes self.now }
    {
        let [a, b, c, d, e, f] = self.keys;
        [self.modifiers, 0, a, b, c, d, e, f]
    }

    /// Whether more keys are held than the report can name: some key is ErrorRollOver, 07:01.
    pub fn rolled(&self) -> bool
        ensures { result ≡ is_rolled self.now }
    {
        self.keys.contains(&1)
    }

    /// Whether 07:id is held, of the modifiers E0 to E7 and the keys 04 to 65 (in hex); false for another ID. After a
    /// rollover the report has no key.
    pub fn holds(&self, id: u8) -> bool
        ensures { result ≡ is_boot_key_held self.now id }
    {
        match id {
            0xE0..=0xE7 => self.modifiers >> (id - 0xE0) & 1 == 1,
            0x04..=0x65 => !self.rolled() && self.keys.contains(&id),
            _ => false,
        }
    }
}

/// The Input report of the boot mouse (HID 1.11, B.2).
#[derive(Clone, Copy, Debug, PartialEq, Eq)]
pub struct MouseReport {
    /// One bit for each of the buttons 09:01 to 09:03, from bit 0 on.
    pub buttons: u8,
    /// Motion to the right.
    pub x: i8,
    /// Motion downwards.
    pub y: i8,
}

impl MouseReport {
    /// The report in these bytes: buttons in the low three bits of byte 0, x and y in bytes 1 and 2. -128 is out of the range
    /// of a motion and reads as 0. More than 3 bytes are ignored.
    ///
    /// # Errors
    /// [`ReportFault::Short`] (U8) under 3 bytes.
    pub fn read(bytes: &[u8]) -> Result<MouseReport, ReportFault>
        ensures { result ≡ mouse_in bytes.now }
    {
        if bytes.len() < 3 {
            return Err(ReportFault::Short);
        }
        Ok(MouseReport {
            buttons: bytes[0] % 8,
            x: motion_in(bytes[1]),
            y: motion_in(bytes[2]),
        })
    }

    /// The bytes that the report is read from. It has no more buttons than three.
    pub fn write(&self) -> [u8; 3]
        requires { self.now.buttons ≤ 7 }
        ensures { result ≡ mouse_bytes self.now }
    {
        [self.buttons, motion_byte(self.x), motion_byte(self.y)]
    }
}

/// The motion that a byte stands for: two's complement, and 0 where it is out of the range.
fn motion_in(byte: u8) -> i8
    ensures { result ≡ boot_motion byte }
{
    if byte == 0x80 {
        0
    } else {
        to_value(u32::from(byte), 8, true) as i8
    }
}

/// The byte of a motion, in two's complement.
fn motion_byte(motion: i8) -> u8
    ensures { result ≡ pattern_for motion 8 }
{
    to_pattern(i64::from(motion), 8) as u8
}

/// These reports mean what a host reads by the layouts of the two descriptors, and a report that is written is read back.
pub fn laws()
    // The two descriptors are accepted, with these layouts and no others.
    ensures keyboard { GivesOnly KEYBOARD keyboard_layout }
    ensures mouse { GivesOnly MOUSE mouse_layout }

    // The events of any bytes, whatever was held before.
    ensures keys { (bytes : List ℕ) (view : List ControlState) → AreBytes bytes → 8 ≤ length bytes
        → FitsView (items_of keyboard_layout) view
        → ReportsKeys bytes view }
    ensures buttons { (bytes : List ℕ) (view : List ControlState) → AreBytes bytes
        → 3 ≤ length bytes
        → FitsView (items_of mouse_layout) view
        → ReportsButtons bytes view }

    // What is written is read again, save a motion of -128.
    ensures keyboard_back { KeyboardReadsBack }
    ensures mouse_back { MouseReadsBack }
{
    one_reading();
}
