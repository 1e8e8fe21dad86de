//! Fields and numbers of `hid_fields`, each field by both codecs.

ghost use Rattle.std.specs.Prelude.{◌≤◌, ◌<◌, ◌+◌, ◌*◌, length};
ghost use Rattle.std.specs.Bool.{OnTrue};

use hid_fields::{BitCodec, FieldCodec, MAX_WIDTH, WordCodec, null_pattern, to_pattern, to_value};
use test_rows::{
    RowFault, number_of, pattern_of, print, print_bytes, print_number, print_pattern, signed_of,
    split, width_of,
};

/// In bytes: the longest slice that a row gives.
const LONGEST: usize = 10;

/// Whether a field of 1 to 32 bits lies in these bytes.
fn lies(bytes: &[u8], at: usize, width: u32) -> bool
    ensures some { OnTrue result (0 < width) }
    ensures width { OnTrue result (width ≤ MAX_WIDTH) }
    ensures inside { OnTrue result (at + width ≤ 8 * length bytes.now) }
{
    0 < width
        && width <= MAX_WIDTH
        && bytes.len() <= LONGEST
        && at <= 8 * LONGEST
        && at + width as usize <= 8 * bytes.len()
}

/// The pattern of a field, where it lies in these bytes.
fn read<C: FieldCodec>(bytes: &[u8], at: usize, width: u32) -> Option<u32> {
    if lies(bytes, at, width) {
        Some(C::get(bytes, at, width))
    } else {
        None
    }
}

/// Writes a field, where it lies in these bytes and the pattern fits; false where not.
fn write<C: FieldCodec>(bytes: &mut [u8], at: usize, width: u32, pattern: u32) -> bool {
    if !lies(bytes, at, width) || u64::from(pattern) >= 1u64 << width {
        return false;
    }
    C::put(bytes, at, width, pattern);
    true
}

/// The pattern that both codecs read.
fn print_read(printed: &mut String, bytes: &[u8], at: usize, width: u32) -> Result<(), RowFault> {
    let by_bits = read::<BitCodec>(bytes, at, width);
    if by_bits == read::<WordCodec>(bytes, at, width) {
        print_pattern(printed, by_bits)
    } else {
        print(printed, "codecs differ")
    }
}

/// The pattern of a field, by its place and its width.
pub fn print_field(printed: &mut String, bytes: &[u8], words: &str) -> Result<(), RowFault> {
    let (at, width) = split(words, ' ');
    print_read(printed, bytes, number_of(at)?, width_of(width)?)
}

/// These bytes and 0 after them, with a field written.
fn written<C: FieldCodec>(
    before: &[u8],
    at: usize,
    width: u32,
    pattern: u32,
) -> Option<[u8; LONGEST]> {
    let mut buffer = [0; LONGEST];
    let bytes = buffer.get_mut(..before.len())?;
    bytes.copy_from_slice(before);
    if write::<C>(bytes, at, width, pattern) {
        Some(buffer)
    } else {
        None
    }
}

/// The bytes that both codecs write, and the pattern that both read there.
fn print_after(
    printed: &mut String,
    before: &[u8],
    at: usize,
    width: u32,
    pattern: u32,
) -> Result<(), RowFault> {
    let by_bits = written::<BitCodec>(before, at, width, pattern);
    if by_bits != written::<WordCodec>(before, at, width, pattern) {
        return print(printed, "codecs differ");
    }
    let Some(buffer) = by_bits else {
        return Err(RowFault::Unread);
    };
    let after = buffer.get(..before.len()).unwrap_or(&[]);
    print_bytes(printed, after)?;
    print_read(printed, after, at, width)
}

/// The bytes once a field is written, by its place, its width and the pattern in hex; and the pattern that is read then.
pub fn print_written(printed: &mut String, before: &[u8], words: &str) -> Result<(), RowFault> {
    let (at, words) = split(words, ' ');
    let (width, pattern) = split(words, ' ');
    print_after(
        printed,
        before,
        number_of(at)?,
        width_of(width)?,
        pattern_of(pattern)?,
    )
}

/// Whether both codecs write a pattern alike, and each reads what the other wrote.
fn agree(before: &[u8], at: usize, width: u32, pattern: u32) -> bool {
    let by_bits = written::<BitCodec>(before, at, width, pattern);
    let by_words = written::<WordCodec>(before, at, width, pattern);
    match (by_bits, by_words) {
        (Some(bits), Some(words)) => {
            bits == words
                && read::<BitCodec>(&words, at, width) == Some(pattern)
                && read::<WordCodec>(&bits, at, width) == Some(pattern)
        }
        _ => false,
    }
}

/// The low bits of a pattern, n.
fn low_bits(pattern: u32, width: u32) -> u32 {
    if width < 32 {
        pattern % (1 << width)
    } else {
        pattern
    }
}

/// The least width at a place at which they don't agree, of the fields that lie in the bytes.
fn first_apart(before: &[u8], at: usize, pattern: u32) -> Option<u32> {
    for width in 1..=MAX_WIDTH {
        if lies(before, at, width) && !agree(before, at, width, low_bits(pattern, width)) {
            return Some(width);
        }
    }
    None
}

/// Whether both codecs agree on the low bits of a pattern in hex, at every place and width in these bytes.
pub fn print_agreement(printed: &mut String, before: &[u8], words: &str) -> Result<(), RowFault> {
    let pattern = pattern_of(words)?;
    for at in 0..8 * LONGEST {
        if first_apart(before, at, pattern).is_some() {
            return print_number(printed, Some(at as i64));
        }
    }
    print(printed, "agree")
}

/// The number of a pattern of 1 to 32 bits.
fn value_of(pattern: u32, width: u32, signed: bool) -> Option<i64> {
    if width == 0 || width > MAX_WIDTH || u64::from(pattern) >= 1u64 << width {
        return None;
    }
    Some(to_value(pattern, width, signed))
}

/// The number of a pattern in hex, by its width and `signed` or `unsigned`.
pub fn print_number_of(printed: &mut String, words: &str) -> Result<(), RowFault> {
    let (pattern, words) = split(words, ' ');
    let (width, sign) = split(words, ' ');
    let number = value_of(pattern_of(pattern)?, width_of(width)?, sign == "signed");
    print_number(printed, number)
}

/// The pattern of a number, of 1 to 32 bits that it fits with or without a sign.
fn pattern_for(number: i64, width: u32) -> Option<u32> {
    if width == 0 || width > MAX_WIDTH {
        return None;
    }
    if number < -(1i64 << (width - 1)) || number >= 1i64 << width {
        return None;
    }
    Some(to_pattern(number, width))
}

/// The pattern of a number, by its width.
pub fn print_pattern_of(printed: &mut String, words: &str) -> Result<(), RowFault> {
    let (number, width) = split(words, ' ');
    let pattern = pattern_for(signed_of(number)?, width_of(width)?);
    print_pattern(printed, pattern)
}

/// The pattern of the null, by a width, a minimum and a maximum.
pub fn print_null(printed: &mut String, words: &str) -> Result<(), RowFault> {
    let (width, words) = split(words, ' ');
    let (min, max) = split(words, ' ');
    let (width, min, max) = (width_of(width)?, signed_of(min)?, signed_of(max)?);
    if width == 0 || width > MAX_WIDTH {
        return Err(RowFault::Unread);
    }
    print_pattern(printed, null_pattern(width, min, max))
}
