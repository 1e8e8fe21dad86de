//! How one item is encoded, and the number that its data is.

ghost use Rattle.std.specs.Prelude.{◌≡◌, ◌^◌, ◌<◌, ◌≤◌, length, take, IfSome, IfNone};
ghost use Rattle.hid_items.specs.ItemEncoding.{data_length, data_of, IsItemEncoding, IsCut, unsigned_of, two's_complement, signed_of};

/// The first byte of a long item (HID 1.11, 6.2.2.3).
const LONG_ITEM: u8 = 0xFE;

/// The bytes of a long item before its data: the first byte, the size and the tag.
const LONG_HEAD: usize = 3;

/// How an item is encoded.
#[derive(Clone, Copy, Debug, PartialEq, Eq)]
pub enum ItemKind {
    /// A short item, by its prefix: the first byte with the two bits of its size cleared, which
    /// leaves its tag and type (HID 1.11, 6.2.2.2).
    Short { prefix: u8 },
    /// A long item, by its tag (HID 1.11, 6.2.2.3).
    Long { tag: u8 },
}

/// An item at its place in the descriptor.
#[derive(Clone, Copy, Debug)]
pub struct Item<'a> {
    /// The place of its first byte in the descriptor, from 0.
    pub at: usize,
    /// Short, with its prefix, or long, with its tag.
    pub kind: ItemKind,
    /// The whole encoding, from the first byte to the last byte of its data.
    pub bytes: &'a [u8],
}

/// The number of data bytes of a short item: sizes 0, 1, 2 and 3 mean 0, 1, 2 and 4 bytes.
fn data_length(first: u8) -> usize
    ensures { result ≡ data_length first }
{
    match first % 4 {
        3 => 4,
        size => size as usize,
    }
}

/// The length in bytes of the item that the bytes begin with, where they have all of it.
pub(crate) fn encoding_length(rest: &[u8]) -> Option<usize>
    requires { 0 < length rest.now }
    ensures within { IfSome result (λ n. n ≤ length rest.now) }
    ensures whole { IfSome result (λ n. IsItemEncoding (take n rest.now)) }
    ensures cut { IfNone result (IsCut rest.now) }
{
    let length = if rest[0] == LONG_ITEM {
        if rest.len() < LONG_HEAD {
            return None;
        }
        LONG_HEAD + rest[1] as usize
    } else {
        1 + data_length(rest[0])
    };
    if length <= rest.len() {
        Some(length)
    } else {
        None
    }
}

/// The kind of the item with this encoding.
pub(crate) fn kind_of(bytes: &[u8]) -> ItemKind
    requires { IsItemEncoding bytes.now }
    ensures { result ≡ first_kind bytes.now }
{
    if bytes[0] == LONG_ITEM {
        ItemKind::Long { tag: bytes[2] }
    } else {
        ItemKind::Short {
            prefix: bytes[0] - bytes[0] % 4,
        }
    }
}

/// The number that one of n bit patterns stands for in two's complement.
fn twos_complement(patterns: u64, pattern: u64) -> i64
    requires one_of_them { pattern < patterns }
    requires width { patterns ≤ 2 ^ 32 }
    ensures { result ≡ two's_complement patterns pattern }
{
    if 2 * pattern < patterns {
        pattern as i64
    } else {
        pattern as i64 - patterns as i64
    }
}

ghost use Rattle.hid_items.specs.Reading.{first_kind};

impl<'a> Item<'a> {
    ghost use Rattle.hid_items.specs.Reading.{IsShort};

    /// The data of a short item, lowest byte first, as a number without sign; without data it is 0
    /// (HID 1.11, 5.8). At most 32 bits.
    pub fn unsigned(&self) -> u64
        requires { IsShort self.now }
        ensures value { result ≡ unsigned_of (data_of self.now.bytes.now) }
        ensures fits { result < 256 ^ length (data_of self.now.bytes.now) }
        ensures small { result < 2 ^ 32 }
    {
        match self.bytes {
            [_] => 0,
            [_, a] => *a as u64,
            [_, a, b] => *a as u64 + 256 * *b as u64,
            [_, a, b, c, d] => {
                *a as u64 + 256 * (*b as u64 + 256 * (*c as u64 + 256 * *d as u64))
            }
            _ => unreachable!(),
        }
    }

    /// The data of a short item, lowest byte first, as a number in two's complement of its own
    /// size; without data it is 0 (HID 1.11, 5.8).
    pub fn signed(&self) -> i64
        requires { IsShort self.now }
        ensures { result ≡ signed_of (data_of self.now.bytes.now) }
    {
        let patterns = match self.bytes.len() {
            1 => 1,
            2 => 0x100,
            3 => 0x1_0000,
            _ => 0x1_0000_0000,
        };
        twos_complement(patterns, self.unsigned())
    }
}
