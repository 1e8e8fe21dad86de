//! The codec by bits: the plain program of the definition.
ghost use Rattle.std.specs.Prelude.{◌≡◌, ◌≢◌, ◌+◌, ◌*◌, ◌<◌, ℕ, length, if◌then◌else◌};
ghost use Rattle.hid_fields.specs.Field.{bit_of};

use crate::codec::FieldCodec;

/// Reads and writes a field bit by bit.
pub struct BitCodec;

/// Where a bit of a slice stands.
#[derive(Clone, Copy)]
struct Place {
    byte: usize,
    /// 0 is the lowest bit of the byte.
    bit: usize,
    ghost in_byte: { bit < 8 },
}

/// The place of bit `at + index`, a sum that need not fit a `usize`.
fn place_of(at: usize, index: u32) -> Place
    ensures { 8 * result.byte + result.bit ≡ at + index }
{
    let bit = at % 8 + index as usize;
    Place {
        byte: at / 8 + bit / 8,
        bit: bit % 8,
    }
}

/// The bit at a place, 0 or 1.
fn read_bit(bytes: &[u8], place: Place) -> u32
    requires { place.byte < length bytes.now }
    ensures { result ≡ bit_of bytes.now (8 * place.byte + place.bit) }
{
    u32::from(bytes[place.byte] >> place.bit & 1)
}

/// Sets or clears the bit at a place, and keeps all others.
fn write_bit(bytes: &mut [u8], place: Place, one: bool)
    requires { place.byte < length bytes.old }
    ensures bit { bit_of bytes.new (8 * place.byte + place.bit) ≡ (if one then 1 else 0) }
    ensures others { (n : ℕ) → n ≢ 8 * place.byte + place.bit
        → bit_of bytes.new n ≡ bit_of bytes.old n }
{
    let mask = 1u8 << place.bit;
    let byte = &mut bytes[place.byte];
    if one {
        *byte |= mask;
    } else {
        *byte &= !mask;
    }
}

impl FieldCodec for BitCodec {
    #[tactic(auto, using(crate::proofs::FieldLemmas::pattern_fits))]
    fn get(bytes: &[u8], at: usize, width: u32) -> u32 {
        let mut pattern = 0;
        for index in 0..width {
            pattern |= read_bit(bytes, place_of(at, index)) << index;
        }
        pattern
    }

    fn put(bytes: &mut [u8], at: usize, width: u32, pattern: u32) {
        for index in 0..width {
            write_bit(bytes, place_of(at, index), pattern >> index & 1 == 1);
        }
    }
}
