//! Numbers in the bytes of a capture.

ghost use Rattle.std.specs.Prelude.{◌≡◌, ◌+◌, ◌^◌, ◌<◌, ◌≤◌, length};
ghost use Rattle.usb_capture.specs.Fields.{field, byte};

use byteorder::{BigEndian, ByteOrder as _, LittleEndian};

/// The order of a number's bytes.
#[derive(Clone, Copy, Debug, PartialEq, Eq)]
pub enum ByteOrder {
    /// The lowest byte comes first.
    Little,
    /// The highest byte comes first.
    Big,
}

/// The byte at the place `at`.
pub(crate) fn byte_at(bytes: &[u8], at: usize) -> u8
    requires { at < length bytes.now }
    ensures { result ≡ byte at bytes.now }
{
    bytes[at]
}

/// The number of 16 bits from the place `at` on.
#[tactic(auto, unfolding(crate::specs::Fields::field))]
pub(crate) fn u16_at(order: ByteOrder, bytes: &[u8], at: usize) -> u16
    requires { at + 2 ≤ length bytes.now }
    ensures { result ≡ field order at 2 bytes.now }
{
    match order {
        ByteOrder::Little => LittleEndian::read_u16(&bytes[at..]),
        ByteOrder::Big => BigEndian::read_u16(&bytes[at..]),
    }
}

/// The number of 32 bits from the place `at` on.
#[tactic(auto, unfolding(crate::specs::Fields::field))]
pub(crate) fn u32_at(order: ByteOrder, bytes: &[u8], at: usize) -> u32
    requires { at + 4 ≤ length bytes.now }
    ensures { result ≡ field order at 4 bytes.now }
{
    match order {
        ByteOrder::Little => LittleEndian::read_u32(&bytes[at..]),
        ByteOrder::Big => BigEndian::read_u32(&bytes[at..]),
    }
}

/// The number of 64 bits from the place `at` on.
#[tactic(auto, unfolding(crate::specs::Fields::field))]
pub(crate) fn u64_at(order: ByteOrder, bytes: &[u8], at: usize) -> u64
    requires { at + 8 ≤ length bytes.now }
    ensures { result ≡ field order at 8 bytes.now }
{
    match order {
        ByteOrder::Little => LittleEndian::read_u64(&bytes[at..]),
        ByteOrder::Big => BigEndian::read_u64(&bytes[at..]),
    }
}
