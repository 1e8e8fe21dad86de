//! The codec by words: the bytes that a field touches, five at most, are taken as one word; to read one of several bytes,
//! eight are taken at once where there are as many.
ghost use Rattle.std.specs.Prelude.{◌≡◌, ◌+◌, ◌*◌, ◌%◌, ◌^◌, ◌<◌, ◌≤◌, ℕ, length};
ghost use Rattle.hid_fields.specs.Field.{bit_of, pattern_of, IsOutside};
ghost use Rattle.hid_fields.specs.Word.{splice};

use crate::codec::{FieldCodec, MAX_WIDTH};

/// In bytes: the most that a field touches, 32 bits from the last bit of a byte on.
const MAX_TOUCHED: usize = 5;

/// In bytes: what a word has.
const WORD_BYTES: usize = 8;

/// Gathers the bytes that a field touches, or eight of which they are some, into a 64-bit word, shifts and masks.
pub struct WordCodec;

/// How many bytes a field of this width touches that begins at this bit of a byte.
fn touched_bytes(shift: usize, width: u32) -> usize
    requires shift { shift < 8 }
    requires width { width ≤ MAX_WIDTH }
    ensures enough { shift + width ≤ 8 * result }
    ensures few { 8 * result < shift + width + 8 }
{
    (shift + width as usize).div_ceil(8)
}

/// The bytes as a word, the first one lowest.
fn gather(bytes: &[u8]) -> u64
    requires { length bytes.now ≤ MAX_TOUCHED }
    ensures { result ≡ pattern_of bytes.now 0 (8 * length bytes.now) }
{
    match *bytes {
        [] => 0,
        [a] => u64::from(a),
        [a, b] => u64::from_le_bytes([a, b, 0, 0, 0, 0, 0, 0]),
        [a, b, c] => u64::from_le_bytes([a, b, c, 0, 0, 0, 0, 0]),
        [a, b, c, d] => u64::from_le_bytes([a, b, c, d, 0, 0, 0, 0]),
        [a, b, c, d, e, ..] => u64::from_le_bytes([a, b, c, d, e, 0, 0, 0]),
    }
}

/// Eight bytes as a word, the first one lowest.
#[inline(always)]
fn gather_eight(bytes: &[u8]) -> u64
    requires { length bytes.now ≡ 8 }
    ensures { result ≡ pattern_of bytes.now 0 (8 * length bytes.now) }
{
    match *bytes {
        [a, b, c, d, e, f, g, h] => u64::from_le_bytes([a, b, c, d, e, f, g, h]),
        _ => 0,
    }
}

/// The pattern of a field that lies in one byte.
#[inline(always)]
fn byte_pattern(bytes: &[u8], at: usize, width: u32) -> u32
    requires some { 0 < width }
    requires one { at % 8 + width ≤ 8 }
    requires inside { at + width ≤ 8 * length bytes.now }
    ensures { result ≡ pattern_of bytes.now at width }
{
    let byte = u64::from(bytes[at / 8]);
    (byte >> (at % 8) & ((1u64 << width) - 1)) as u32
}

/// The pattern of a field, of the bytes that it touches.
fn touched_pattern(bytes: &[u8], at: usize, width: u32) -> u32
    requires some { 0 < width }
    requires width { width ≤ MAX_WIDTH }
    requires inside { at + width ≤ 8 * length bytes.now }
    ensures { result ≡ pattern_of bytes.now at width }
{
    let (first, shift) = (at / 8, at % 8);
    let word = gather(&bytes[first..first + touched_bytes(shift, width)]);
    (word >> shift & ((1u64 << width) - 1)) as u32
}

/// The pattern of a field, of eight bytes: those from its first one on, or the last ones.
#[inline(always)]
fn word_pattern(bytes: &[u8], at: usize, width: u32) -> u32
    requires some { 0 < width }
    requires width { width ≤ MAX_WIDTH }
    requires inside { at + width ≤ 8 * length bytes.now }
    requires long { WORD_BYTES ≤ length bytes.now }
    ensures { result ≡ pattern_of bytes.now at width }
{
    let first = (at / 8).min(bytes.len() - WORD_BYTES);
    let word = gather_eight(&bytes[first..first + WORD_BYTES]);
    (word >> (at - 8 * first) & ((1u64 << width) - 1)) as u32
}

/// Makes the bytes those of the word.
fn scatter(bytes: &mut [u8], word: u64)
    requires count { length bytes.old ≤ MAX_TOUCHED }
    requires fits { word < 2 ^ (8 * length bytes.old) }
    ensures { pattern_of bytes.new 0 (8 * length bytes.new) ≡ word }
{
    let [a, b, c, d, e, ..] = word.to_le_bytes();
    match bytes.len() {
        0 => {}
        1 => bytes[0] = a,
        2 => (bytes[0], bytes[1]) = (a, b),
        3 => (bytes[0], bytes[1], bytes[2]) = (a, b, c),
        4 => (bytes[0], bytes[1], bytes[2], bytes[3]) = (a, b, c, d),
        _ => (bytes[0], bytes[1], bytes[2], bytes[3], bytes[4]) = (a, b, c, d, e),
    }
}

/// The word with this field of it replaced.
fn splice(word: u64, shift: usize, width: u32, pattern: u32) -> u64
    requires word { word < 2 ^ (8 * MAX_TOUCHED) }
    requires shift { shift < 8 }
    requires width { width ≤ MAX_WIDTH }
    requires fits { pattern < 2 ^ width }
    ensures { result ≡ splice shift width pattern word }
{
    let low = word & ((1u64 << shift) - 1);
    let high = word >> (shift + width as usize);
    (high << width | u64::from(pattern)) << shift | low
}

/// Makes this the pattern of a field, in the word of the bytes that it touches.
fn put_spliced(bytes: &mut [u8], at: usize, width: u32, pattern: u32)
    requires some { 0 < width }
    requires width { width ≤ MAX_WIDTH }
    requires inside { at + width ≤ 8 * length bytes.old }
    requires fits { pattern < 2 ^ width }
    ensures field { pattern_of bytes.new at width ≡ pattern }
    ensures others { (n : ℕ) → IsOutside at width n → bit_of bytes.new n ≡ bit_of bytes.old n }
{
    let (first, shift) = (at / 8, at % 8);
    let field = &mut bytes[first..first + touched_bytes(shift, width)];
    let word = splice(gather(field), shift, width, pattern);
    scatter(field, word);
}

impl FieldCodec for WordCodec {
    #[tactic(auto, using(crate::proofs::FieldLemmas::pattern_fits))]
    #[inline(always)]
    fn get(bytes: &[u8], at: usize, width: u32) -> u32 {
        if at % 8 + width as usize <= 8 {
            byte_pattern(bytes, at, width)
        } else if bytes.len() < WORD_BYTES {
            touched_pattern(bytes, at, width)
        } else {
            word_pattern(bytes, at, width)
        }
    }

    #[inline(always)]
    fn put(bytes: &mut [u8], at: usize, width: u32, pattern: u32) {
        if width == 8 && at % 8 == 0 {
            bytes[at / 8] = pattern as u8; // a whole byte
        } else {
            put_spliced(bytes, at, width, pattern);
        }
    }
}
