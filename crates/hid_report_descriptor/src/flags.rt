//! The flags of Input, Output and Feature items (HID 1.11, 6.2.2.5).

ghost use Rattle.std.specs.Prelude.{⊤, ◌≡◌, ◌%◌, [], ◌∷◌, codes};
ghost use Rattle.hid_report_descriptor.specs.Flags.{has_flag, CONSTANT, VARIABLE, RELATIVE, NULL_STATE, FLAGS};
ghost use Rattle.hid_items.specs.ItemEncoding.{data_of, unsigned_of};
ghost use Rattle.hid_items.specs.Reading.{IsShort};

use bitflags::{Flag, Flags, bitflag_items};
use hid_items::Item;

/// The flags of a main item: bits 0 to 8 of its data. Higher bits are dropped, so that no item of a layout has them.
#[derive(Clone, Copy, Debug, PartialEq, Eq)]
pub struct MainFlags(pub u16);

bitflag_items! {
    impl MainFlags: u16 {
        const CONSTANT = 0x001;
        const VARIABLE = 0x002;
        const RELATIVE = 0x004;
        const WRAP = 0x008;
        const NONLINEAR = 0x010;
        const NO_PREFERRED = 0x020;
        const NULL_STATE = 0x040;
        const VOLATILE = 0x080;
        const BUFFERED_BYTES = 0x100;
    }
}

impl Flags for MainFlags {
    type Bits = u16;

    ghost exact = { ⊤ };

    ghost table = { (codes "CONSTANT", 0x001) ∷ (codes "VARIABLE", 0x002) ∷ (codes "RELATIVE", 0x004)
        ∷ (codes "WRAP", 0x008) ∷ (codes "NONLINEAR", 0x010) ∷ (codes "NO_PREFERRED", 0x020)
        ∷ (codes "NULL_STATE", 0x040) ∷ (codes "VOLATILE", 0x080) ∷ (codes "BUFFERED_BYTES", 0x100) ∷ [] };

    ghost set_of = { λ flags. flags.0 };

    fn flags<'a>() -> &'a [Flag<MainFlags>] {
        MainFlags::FLAGS
    }

    fn bits(&self) -> u16 {
        self.0
    }

    fn from_bits_retain(bits: u16) -> MainFlags {
        MainFlags(bits)
    }
}

impl MainFlags {
    /// The flags of an Input, Output or Feature item.
    pub(crate) fn of(item: &Item) -> MainFlags
        requires { IsShort item.now }
        ensures { result.0 ≡ unsigned_of (data_of item.now.bytes.now) % FLAGS }
    {
        MainFlags((item.unsigned() % 0x200) as u16)
    }

    /// Whether the fields are padding, or else data.
    pub fn is_constant(self) -> bool
        ensures { result ≡ has_flag CONSTANT self.0 }
    {
        self.contains(MainFlags::CONSTANT)
    }

    /// Whether each field is a control of its own, or else the fields are an array.
    pub(crate) fn is_variable(self) -> bool
        ensures { result ≡ has_flag VARIABLE self.0 }
    {
        self.contains(MainFlags::VARIABLE)
    }

    /// Whether values are changes, or else positions.
    pub fn is_relative(self) -> bool
        ensures { result ≡ has_flag RELATIVE self.0 }
    {
        self.contains(MainFlags::RELATIVE)
    }

    /// Whether a control has a state in which it sends no meaningful value.
    pub fn has_null_state(self) -> bool
        ensures { result ≡ has_flag NULL_STATE self.0 }
    {
        self.contains(MainFlags::NULL_STATE)
    }
}
