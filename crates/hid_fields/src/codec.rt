//! What a codec of fields is, and its laws.
ghost use Rattle.std.specs.Prelude.{◌≡◌, ◌+◌, ◌*◌, ◌^◌, ◌<◌, ◌≤◌, ℕ, length};
ghost use Rattle.hid_fields.specs.Field.{bit_of, pattern_of, IsOutside};

/// In bits: the widest field of data (our choice; HID 1.11, 6.2.2.7 sets no limit to Report Size).
pub const MAX_WIDTH: u32 = 32;

/// Reads and writes fields of 1 to 32 bits in the bytes of a report, the least significant bit
/// first (HID 1.11, 5.8 and 8).
///
/// A field begins at bit `at` and is `width` bits wide: bit 0 is the lowest one of the first byte.
/// It may span five bytes (our choice; HID 1.11, 8.4 asks for four). No call takes memory.
pub trait FieldCodec {
    /// The pattern of the field.
    fn get(bytes: &[u8], at: usize, width: u32) -> u32
        requires some { 0 < width }
        requires width { width ≤ MAX_WIDTH }
        requires inside { at + width ≤ 8 * length bytes.now }

        ensures pattern { result ≡ pattern_of bytes.now at width }
        ensures fits { result < 2 ^ width };

    /// Makes this the pattern of the field, and leaves every other bit of the slice.
    fn put(bytes: &mut [u8], at: usize, width: u32, pattern: u32)
        requires some { 0 < width }
        requires width { width ≤ MAX_WIDTH }
        requires inside { at + width ≤ 8 * length bytes.old }
        requires fits { pattern < 2 ^ width }

        ensures field { pattern_of bytes.new at width ≡ pattern }
        ensures others { (n : ℕ) → IsOutside at width n → bit_of bytes.new n ≡ bit_of bytes.old n };
}
