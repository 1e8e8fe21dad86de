//! What a control is for (HID 1.11, 5.5).

ghost use Rattle.std.specs.Prelude.{◌≡◌, ◌≤◌, ◌^◌, ◌+◌};
ghost use Rattle.hid_report_descriptor.specs.Usages.{entry_count, is_keyboard_error, is_rollover};

/// The page of keyboards (HID Usage Tables, Keyboard/Keypad Page).
pub const KEYBOARD_PAGE: u16 = 0x07;

/// The usage ID ErrorRollOver of that page; POSTFail and ErrorUndefined follow it.
pub const ERROR_ROLL_OVER: u16 = 0x01;

/// The first usage ID of that page that is a key.
pub const FIRST_KEY: u16 = 0x04;

/// What a control is for: a page of the usage tables, and the number on that page.
#[derive(Clone, Copy, Debug, PartialEq, Eq)]
pub struct Usage {
    /// The Usage Page.
    pub page: u16,
    /// The Usage ID, its number on that page.
    pub id: u16,
}

impl Usage {
    /// Whether it is ErrorRollOver of a keyboard, 07:01: more keys are held than the array can name (HID Usage Tables,
    /// Keyboard/Keypad Page).
    pub fn is_rollover(self) -> bool
        ensures { result ≡ is_rollover self }
    {
        self.page == KEYBOARD_PAGE && self.id == ERROR_ROLL_OVER
    }

    /// Whether the usage is an error of a keyboard: ErrorRollOver, POSTFail or ErrorUndefined, 07:01 to 07:03 (HID Usage
    /// Tables, Keyboard/Keypad Page).
    pub fn is_keyboard_error(self) -> bool
        ensures { result ≡ is_keyboard_error self }
    {
        self.page == KEYBOARD_PAGE && (ERROR_ROLL_OVER <= self.id && self.id < FIRST_KEY)
    }
}

/// How many usages a range has, from its first to its last usage by rising ID: 0 to 65,536 (HID 1.11, 6.2.2.8).
pub fn entry_count(entry: &(Usage, Usage)) -> usize
    ensures value { result ≡ entry_count entry.now }
    ensures few { result ≤ 2 ^ 16 }
    ensures within { entry.now.0.id + result ≤ 2 ^ 16 }
{
    (entry.1.id as usize + 1).saturating_sub(entry.0.id as usize)
}
