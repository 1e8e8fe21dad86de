//! The numbers that patterns stand for (HID 1.11, 5.8), and the pattern of a null (5.10).
ghost use Rattle.std.specs.Prelude.{◌<◌, ◌≤◌, ◌^◌, ◌<ℤ◌, ◌≤ℤ◌, ◌≡◌, neg_ℤ, pos, ℕ, Bool, IfSome, IfNone};
ghost use Rattle.std.specs.Bool.{OnTrue, OnFalse};
ghost use Rattle.hid_fields.specs.Value.{value_of, pattern_for, FitsField, FitsEitherSign, is_negative, IsFirstOver, IsWithin, IsLeastOutside};

use crate::codec::MAX_WIDTH;

/// How many patterns there are of `width` bits.
pub(crate) fn pattern_count(bits: u32) -> u64
    requires { bits ≤ MAX_WIDTH }
    ensures value { result ≡ 2 ^ bits }
    ensures small { result ≤ 2 ^ MAX_WIDTH }
{
    1u64 << bits
}

/// The number that a pattern of `width` bits, 1 to 32, stands for: in two's complement where it is
/// signed, else as it is.
#[inline(always)]
pub fn to_value(pattern: u32, width: u32, signed: bool) -> i64
    requires some { 0 < width }
    requires width { width ≤ MAX_WIDTH }
    requires fits { pattern < 2 ^ width }
    ensures { result ≡ value_of pattern width signed }
{
    let number = i64::from(pattern);
    if signed && pattern >> (width - 1) & 1 == 1 {
        number - (1i64 << width)
    } else {
        number
    }
}

/// The number modulo 2 to the width.
fn wrap(value: i64, width: u32) -> u32
    requires some { 0 < width }
    requires width { width ≤ MAX_WIDTH }
    requires fits { FitsEitherSign value width }
    ensures { result ≡ pattern_for value width }
{
    if value < 0 {
        (value + pattern_count(width) as i64) as u32
    } else {
        value as u32
    }
}

/// The one pattern of `width` bits, 1 to 32, that stands for a number. The number fits them, with
/// or without sign: it is at least -2 to the width less 1, and below 2 to the width.
pub fn to_pattern(value: i64, width: u32) -> u32
    requires some { 0 < width }
    requires width { width ≤ MAX_WIDTH }
    requires fits { FitsEitherSign value width }

    // It is a pattern of the width, the number modulo 2 to the width.
    ensures fits { result < 2 ^ width }
    ensures pattern { result ≡ pattern_for value width }

    // It stands for the number, and no other pattern does.
    ensures value { (signed : Bool) → FitsField value width signed
        → value_of result width signed ≡ value }
    ensures only { (signed : Bool) (pattern : ℕ) → pattern < 2 ^ width
        → value_of pattern width signed ≡ value → result ≡ pattern }
{
    wrap(value, width)
}

/// The least number from 0 up to this end that is over the maximum.
fn first_over(max: i64, end: u64) -> Option<u32>
    requires { end ≤ 2 ^ MAX_WIDTH }
    ensures some { IfSome result (λ n. (n < end) × IsFirstOver max n) }
    ensures none { IfNone result ((n : ℕ) → n < end → pos n ≤ℤ max) }
{
    let over = if max < 0 { 0 } else { max as u64 + 1 };
    if over < end { Some(over as u32) } else { None }
}

/// Whether the least number of a signed field is under the minimum: `half` is half of its patterns.
fn goes_under(half: u64, min: i64) -> bool
    requires { half ≤ 2 ^ MAX_WIDTH }
    ensures under { OnTrue result (neg_ℤ (pos half) <ℤ min) }
    ensures not_under { OnFalse result (min ≤ℤ neg_ℤ (pos half)) }
{
    -(half as i64) < min
}

/// The least pattern of `width` bits, 1 to 32, whose number is out of the range, where there is one:
/// what a null is sent as (our choice; HID 1.11, 5.10 asks only for one out of the range). Patterns
/// are signed exactly where the minimum is negative (6.2.2.7).
pub fn null_pattern(width: u32, min: i64, max: i64) -> Option<u32>
    requires some { 0 < width }
    requires width { width ≤ MAX_WIDTH }
    ensures some { IfSome result (IsLeastOutside width min max) }
    ensures none { IfNone result ((pattern : ℕ) → pattern < 2 ^ width
        → IsWithin min max (value_of pattern width (is_negative min))) }
{
    if min < 0 {
        let half = pattern_count(width - 1);
        match first_over(max, half) {
            Some(pattern) => Some(pattern),
            None if goes_under(half, min) => Some(half as u32),
            None => None,
        }
    } else if min == 0 {
        first_over(max, pattern_count(width))
    } else {
        Some(0)
    }
}
