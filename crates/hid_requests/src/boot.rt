//! Whether a device has the boot protocol (HID 1.11, 4.2, 4.3 and appendix B).
ghost use Rattle.std.specs.Prelude.{◌≡◌};
ghost use Rattle.hid_requests.specs.Boot.{is_boot, protocol_of, subclass_of};

/// Whether the reports of a device are those of the boot protocol (HID 1.11, 4.2 and appendix B).
#[derive(Clone, Copy, Debug, PartialEq, Eq)]
pub enum Boot {
    /// They are its own.
    No,
    /// Those of a keyboard: its descriptor is `KEYBOARD` of `hid_layout`.
    Keyboard,
    /// Those of a mouse: its descriptor is `MOUSE` of `hid_layout`.
    Mouse,
}

impl Boot {
    /// Whether it has the boot protocol (HID 1.11, 4.2).
    pub fn is_boot(self) -> bool
        ensures { result ≡ is_boot self }
    {
        match self {
            Boot::No => false,
            Boot::Keyboard | Boot::Mouse => true,
        }
    }

    /// bInterfaceSubClass (HID 1.11, 4.2).
    pub fn subclass(self) -> u8
        ensures { result ≡ subclass_of self }
    {
        match self {
            Boot::No => 0,
            Boot::Keyboard | Boot::Mouse => 1,
        }
    }

    /// bInterfaceProtocol (HID 1.11, 4.3).
    pub fn protocol(self) -> u8
        ensures { result ≡ protocol_of self }
    {
        match self {
            Boot::No => 0,
            Boot::Keyboard => 1,
            Boot::Mouse => 2,
        }
    }
}
