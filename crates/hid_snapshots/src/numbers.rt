//! The numbers that stand in a run of fields.
ghost use Rattle.std.specs.Prelude.{◌≡◌, ◌<◌, ◌≤◌, ◌+◌, ◌*◌, Bool, length, slice_get, Some, IfSome, All};
ghost use Rattle.hid_report_descriptor.specs.declared.limits.TheConstants.{MAX_REAL_REPORT_BYTES};
ghost use Rattle.hid_fields.specs.Field.{pattern_of};
ghost use Rattle.hid_fields.specs.Value.{FitsEitherSign, FitsField};
ghost use Rattle.hid_snapshots.specs.Numbers.{IsRun, IsWordOf, byte_numbers, number_at, numbers_in, KeepsOutside};

use crate::sent_numbers::Sending;
use hid_fields::{FieldCodec, to_pattern, to_value};
use std::marker::Model;

/// The most numbers of one item: each has a bit at least, and a report has 16,384 bytes at most.
pub(crate) const MAX_NUMBERS: usize = 131_072;

/// The fields of an item's elements, one after the other in the bytes of a report. A contract sees the numbers that
/// stand in them.
#[derive(Drop)]
pub struct FieldRun<'a> {
    bytes: &'a [u8],
    /// In bits, where the first one stands.
    at: usize,
    /// In bits, of each.
    width: u32,
    is_signed: bool,
    count: usize,
}

impl<'a> Model for FieldRun<'a> {
    ghost use Rattle.std.specs.Prelude.{List, ℤ, ◌<◌, ◌≤◌, ◌+◌, ◌*◌, length};
    ghost use Rattle.hid_snapshots.specs.Numbers.{numbers_in, IsRun};

    ghost Value = { List ℤ };

    ghost view = { λ f. numbers_in f.bytes.now f.at f.width f.is_signed f.count };

    ghost invariant = { λ f. IsRun f.bytes.now f.at f.width f.count };
}

impl<'a> FieldRun<'a> {
    /// Fields of this width in bits, from this bit of the bytes on, as many as `count` says.
    pub fn new(
        bytes: &'a [u8],
        at: usize,
        width: u32,
        is_signed: bool,
        count: usize,
    ) -> FieldRun<'a>
        requires { IsRun bytes.now at width count }
        ensures { result ≡ numbers_in bytes.now at width is_signed count }
    {
        FieldRun {
            bytes,
            at,
            width,
            is_signed,
            count,
        }
    }

    /// At most the bytes of the longest report, each of them a field, in two's complement where they have a sign.
    #[inline(always)]
    pub fn of_bytes(bytes: &'a [u8], is_signed: bool) -> FieldRun<'a>
        requires { length bytes.now ≤ MAX_REAL_REPORT_BYTES }
        ensures { result ≡ byte_numbers is_signed bytes.now }
    {
        FieldRun::new(bytes, 0, 8, is_signed, bytes.len())
    }

    /// How many there are.
    #[tactic(auto, using(crate::proofs::NumberLemmas::run_numbers))]
    pub fn len(&self) -> usize
        ensures { result ≡ length self.now }
    {
        self.count
    }

    /// The number of the field at an index.
    #[tactic(auto, using(crate::proofs::NumberLemmas::run_numbers))]
    #[inline(always)]
    pub fn number<C: FieldCodec>(&self, index: usize) -> i64
        requires { index < length self.now }
        ensures { slice_get self.now index ≡ Some result }
    {
        let pattern = C::get(
            self.bytes,
            self.at + self.width as usize * index,
            self.width,
        );
        to_value(pattern, self.width, self.is_signed)
    }

    /// The number of the field at an index, as [`FieldRun::number`] gives it. It takes less where the compiler sees that the
    /// fields are bytes from the first one on, as of [`FieldRun::of_bytes`].
    #[tactic(auto, using(crate::proofs::NumberLemmas::run_numbers))]
    #[inline(always)]
    pub fn number_by_byte<C: FieldCodec>(&self, index: usize) -> i64
        requires { index < length self.now }
        ensures { slice_get self.now index ≡ Some result }
    {
        if self.width == 8 && self.at == 0 {
            to_value(u32::from(self.bytes[index]), 8, self.is_signed)
        } else {
            self.number::<C>(index)
        }
    }

    /// The fields as bytes, where each is a whole byte and they have a sign exactly if asked for; none of other fields.
    pub fn bytes(&self, is_signed: bool) -> Option<&[u8]>
        ensures { IfSome result (λ bytes. (self.now ≡ byte_numbers is_signed bytes.now)
            × (length bytes.now ≤ MAX_REAL_REPORT_BYTES)) }
    {
        if self.is_signed != is_signed {
            None
        } else if self.width == 8 && self.at % 8 == 0 {
            Some(part_of(self.bytes, self.at / 8, self.count))
        } else {
            None
        }
    }

    /// Of fields of one bit without sign, the numbers from 64 times the index on, up to 64, as a word: the first one lowest,
    /// and 0 after the last. None of other fields.
    #[inline(always)]
    pub fn word<C: FieldCodec>(&self, index: usize) -> Option<u64>
        requires { 64 * index < length self.now }
        ensures { IfSome result (IsWordOf self.now index) }
    {
        if self.width == 1 && !self.is_signed {
            let rest = self.count - 64 * index;
            Some(wide_pattern::<C>(self.bytes, self.at + 64 * index, rest.min(64)))
        } else {
            None
        }
    }
}

/// The bytes from one on, as many as asked for.
fn part_of(bytes: &[u8], first: usize, count: usize) -> &[u8]
    requires { first + count ≤ length bytes.now }
    ensures numbers { (signed : Bool) → numbers_in bytes.now (8 * first) 8 signed count
        ≡ byte_numbers signed result.now }
    ensures count { length result.now ≡ count }
{
    &bytes[first..first + count]
}

/// The pattern of a field of up to 64 bits.
fn wide_pattern<C: FieldCodec>(bytes: &[u8], at: usize, width: usize) -> u64
    requires some { 0 < width }
    requires width { width ≤ 64 }
    requires inside { at + width ≤ 8 * length bytes.now }
    requires short { at + width ≤ 8 * MAX_REAL_REPORT_BYTES }
    ensures { result ≡ pattern_of bytes.now at width }
{
    if width <= 32 {
        u64::from(C::get(bytes, at, width as u32))
    } else {
        let low = C::get(bytes, at, 32);
        let high = C::get(bytes, at + 32, (width - 32) as u32);
        u64::from(high) << 32 | u64::from(low)
    }
}

/// Makes this the number of the field, and leaves every other bit.
fn put_number<C: FieldCodec>(bytes: &mut [u8], at: usize, width: u32, number: i64)
    requires some { 0 < width }
    requires width { width ≤ 32 }
    requires inside { at + width ≤ 8 * length bytes.old }
    requires fits { FitsEitherSign number width }
    ensures number { (signed : Bool) → FitsField number width signed
        → number_at bytes.new at width signed ≡ number }
    ensures others { KeepsOutside at width bytes.old bytes.new }
{
    let pattern = to_pattern(number, width);
    C::put(bytes, at, width, pattern);
}

/// Makes these the numbers of the fields, and leaves every other bit.
pub(crate) fn put_all<C: FieldCodec>(
    bytes: &mut [u8],
    at: usize,
    width: u32,
    count: usize,
    mut numbers: Sending,
)
    requires some { 0 < width }
    requires width { width ≤ 32 }
    requires one_each { length numbers ≡ count }
    requires inside { at + width * count ≤ 8 * length bytes.old }
    requires short { length bytes.old ≤ MAX_REAL_REPORT_BYTES }
    requires fits { All (λ v. FitsEitherSign v width) numbers }
    ensures numbers { (signed : Bool) → All (λ v. FitsField v width signed) numbers.entry
        → numbers_in bytes.new at width signed count ≡ numbers.entry }
    ensures others { KeepsOutside at (width * count) bytes.old bytes.new }
{
    if width == 1 {
        if let Some(pattern) = numbers.pattern() {
            C::put(bytes, at, count as u32, pattern);
            return;
        }
    }
    for k in 0..count {
        put_number::<C>(bytes, at + width as usize * k, width, numbers.next());
    }
}
