//! Which bits of a report aren't those of the one before. Its bytes are kept, and compared by words of 64 bits (our choice).

ghost use Rattle.std.specs.Prelude.{◌≡◌, ◌<◌, ◌≤◌, ◌+◌, ◌-◌, ◌*◌, ◌^◌, ℕ, length, IfSome};
ghost use Rattle.std.specs.Bool.{OnTrue};
ghost use Rattle.std.specs.Int.{bit_at};
ghost use Rattle.hid_fields.specs.Field.{bit_of, pattern_of};
ghost use Rattle.hid_usages.specs.ChangedBits.{kept_bytes, IsOneWord, IsOutsideSpan, SameFrom, SameOutside, HoldBits, Grows};
ghost use Rattle.hid_usages.specs.SameWords.{FindsUnlike};

/// Bits of a report: from a first one up to an end, which is 0 where there are none.
#[derive(Clone, Copy)]
pub(crate) struct BitSpan {
    pub(crate) first: usize,
    pub(crate) end: usize,
}

/// The span of all bits.
pub(crate) fn every_bit() -> BitSpan
    ensures { (n : ℕ) → n + 1 < 2 ^ 64 → IsOutsideSpan result n → ⊥ }
{
    BitSpan {
        first: 0,
        end: usize::MAX,
    }
}

/// Up to eight bytes as a word, the first one lowest.
#[inline(always)]
fn word_of(bytes: &[u8]) -> u64
    requires { length bytes.now ≤ 8 }
    ensures { result ≡ pattern_of bytes.now 0 (8 * length bytes.now) }
{
    match *bytes {
        [] => 0,
        [a] => u64::from(a),
        [a, b] => u64::from_le_bytes([a, b, 0, 0, 0, 0, 0, 0]),
        [a, b, c] => u64::from_le_bytes([a, b, c, 0, 0, 0, 0, 0]),
        [a, b, c, d] => u64::from_le_bytes([a, b, c, d, 0, 0, 0, 0]),
        [a, b, c, d, e] => u64::from_le_bytes([a, b, c, d, e, 0, 0, 0]),
        [a, b, c, d, e, f] => u64::from_le_bytes([a, b, c, d, e, f, 0, 0]),
        [a, b, c, d, e, f, g] => u64::from_le_bytes([a, b, c, d, e, f, g, 0]),
        [a, b, c, d, e, f, g, h, ..] => u64::from_le_bytes([a, b, c, d, e, f, g, h]),
    }
}

/// Eight bytes as a word, the first one lowest.
#[inline(always)]
fn eight_bytes(bytes: &[u8]) -> u64
    requires { length bytes.now ≡ 8 }
    ensures { result ≡ pattern_of bytes.now 0 (8 * length bytes.now) }
{
    match *bytes {
        [a, b, c, d, e, f, g, h] => u64::from_le_bytes([a, b, c, d, e, f, g, h]),
        _ => 0,
    }
}

/// The eight bytes of the word at an index.
#[inline(always)]
fn whole_word(bytes: &[u8], index: usize) -> u64
    requires { 8 * index + 8 ≤ length bytes.now }
    ensures { result ≡ pattern_of bytes.now (64 * index) 64 }
{
    word_of(&bytes[8 * index..8 * index + 8])
}

/// The last bytes as a word, fewer than eight after others: the highest of the last eight.
#[inline(always)]
fn rest_word(bytes: &[u8], index: usize) -> u64
    requires some { 8 * index < length bytes.now }
    requires few { length bytes.now < 8 * index + 8 }
    requires long { 8 ≤ length bytes.now }
    ensures { result ≡ pattern_of bytes.now (64 * index) (8 * (length bytes.now - 8 * index)) }
{
    let first = bytes.len() - 8;
    let word = word_at(bytes, first);
    word >> (8 * (8 * index - first))
}

/// The first bit of a span, or this one where there is none.
#[inline(always)]
fn first_of(span: BitSpan, lowest: usize) -> usize
    ensures empty { span.end ≡ 0 → result ≡ lowest }
    ensures begun { 0 < span.end → result ≡ span.first }
{
    if span.end == 0 { lowest } else { span.first }
}

/// The span with the bits of the word at an index that aren't the same in two words.
#[inline(always)]
fn grow(span: BitSpan, index: usize, before: u64, now: u64) -> BitSpan
    requires order { span.first ≤ span.end }
    requires end { span.end ≤ 64 * index }
    requires small { index < 2 ^ 50 }
    ensures { Grows span result index before now }
{
    let unlike = before ^ now;
    if unlike == 0 {
        return span;
    }
    BitSpan {
        first: first_of(span, 64 * index + unlike.trailing_zeros() as usize),
        end: 64 * index + (64 - unlike.leading_zeros() as usize),
    }
}

/// The first word from one on, before an end, that isn't the same in both.
#[inline(always)]
fn next_unlike(last: &[u8], bytes: &[u8], from: usize, end: usize) -> Option<usize>
    requires last { 8 * end ≤ length last.now }
    requires bytes { 8 * end ≤ length bytes.now }
    ensures from { IfSome result (λ k. from ≤ k) }
    ensures end { IfSome result (λ k. k < end) }
    ensures same { FindsUnlike last.now bytes.now from end result }
{
    for k in from..end {
        let before = whole_word(last, k);
        let now = whole_word(bytes, k);
        if before != now {
            return Some(k);
        }
    }
    None
}

/// The span of the bits of a report that aren't those of the last one, of more than eight bytes. Words that are the same are
/// passed over.
#[inline(always)]
fn changed_words(last: &[u8], bytes: &[u8]) -> BitSpan
    requires kept { kept_bytes (length bytes.now) ≤ length last.now }
    requires short { length bytes.now < 2 ^ 50 }
    requires long { 8 < length bytes.now }
    ensures { SameOutside last.now bytes.now result }
{
    let whole = bytes.len() / 8;
    let mut span = BitSpan { first: 0, end: 0 };
    let mut from = 0;
    while let Some(k) = next_unlike(last, bytes, from, whole) {
        let before = whole_word(last, k);
        let now = whole_word(bytes, k);
        span = grow(span, k, before, now);
        from = k + 1;
    }
    if 8 * whole < bytes.len() {
        let kept = whole_word(last, whole);
        let rest = rest_word(bytes, whole);
        grow(span, whole, kept, rest)
    } else {
        span
    }
}

/// Eight bytes from one on as a word, the first one lowest.
#[inline(always)]
fn word_at(bytes: &[u8], first: usize) -> u64
    requires { first + 8 ≤ length bytes.now }
    ensures { result ≡ pattern_of bytes.now (8 * first) 64 }
{
    eight_bytes(&bytes[first..first + 8])
}

/// Whether eight bytes from one on are those of the last report.
#[inline(always)]
fn is_same_word(last: &[u8], bytes: &[u8], first: usize) -> bool
    requires last { first + 8 ≤ length last.now }
    requires bytes { first + 8 ≤ length bytes.now }
    ensures { OnTrue result (SameFrom last.now bytes.now (8 * first) (8 * first + 64)) }
{
    word_at(last, first) == word_at(bytes, first)
}

/// Whether 32 bytes from one on are those of the last report.
#[inline(always)]
fn are_same_four(last: &[u8], bytes: &[u8], first: usize) -> bool
    requires last { first + 32 ≤ length last.now }
    requires bytes { first + 32 ≤ length bytes.now }
    ensures { OnTrue result (SameFrom last.now bytes.now (8 * first) (8 * first + 256)) }
{
    is_same_word(last, bytes, first)
        && is_same_word(last, bytes, first + 8)
        && is_same_word(last, bytes, first + 16)
        && is_same_word(last, bytes, first + 24)
}

/// Whether the first words are those of the last report.
#[inline(always)]
fn are_same_words(last: &[u8], bytes: &[u8], words: usize) -> bool
    requires last { 8 * words ≤ length last.now }
    requires bytes { 8 * words ≤ length bytes.now }
    ensures { OnTrue result (SameFrom last.now bytes.now 0 (64 * words)) }
{
    for k in 0..words {
        if !is_same_word(last, bytes, 8 * k) {
            return false;
        }
    }
    true
}

/// Whether the first words, four at a time, are those of the last report.
#[inline(always)]
fn are_same_fours(last: &[u8], bytes: &[u8], fours: usize) -> bool
    requires last { 32 * fours ≤ length last.now }
    requires bytes { 32 * fours ≤ length bytes.now }
    ensures { OnTrue result (SameFrom last.now bytes.now 0 (256 * fours)) }
{
    for k in 0..fours {
        if !are_same_four(last, bytes, 32 * k) {
            return false;
        }
    }
    true
}

/// Whether more than eight bytes are those of the last report. The last word, or the last four, may have bytes that are compared
/// twice.
#[inline(always)]
fn are_same_bytes(last: &[u8], bytes: &[u8]) -> bool
    requires kept { kept_bytes (length bytes.now) ≤ length last.now }
    requires long { 8 < length bytes.now }
    ensures { OnTrue result (HoldBits last.now bytes.now) }
{
    let count = bytes.len();
    if count < 32 {
        are_same_words(last, bytes, (count - 1) / 8) && is_same_word(last, bytes, count - 8)
    } else {
        are_same_fours(last, bytes, (count - 1) / 32) && are_same_four(last, bytes, count - 32)
    }
}

/// Whether the bits of a report are those of the last one, whose bytes are kept.
#[inline(always)]
pub(crate) fn are_same_bits(last: &[u8], bytes: &[u8]) -> bool
    requires kept { kept_bytes (length bytes.now) ≤ length last.now }
    ensures { OnTrue result (HoldBits last.now bytes.now) }
{
    if bytes.len() <= 8 {
        whole_word(last, 0) == one_word(bytes)
    } else {
        are_same_bytes(last, bytes)
    }
}

/// The bytes of a report as a word, if they are at most eight, as those of most reports are; 0 where they are more.
#[inline(always)]
pub(crate) fn one_word(bytes: &[u8]) -> u64
    ensures { IsOneWord bytes.now result }
{
    let count = bytes.len();
    if 8 < count {
        0
    } else if count < 4 {
        word_of(bytes)
    } else {
        word_of(&bytes[..4]) | word_of(&bytes[count - 4..]) << (8 * (count - 4))
    }
}

/// The span of the bits of a report that aren't those of the last one, whose bytes are kept. The word is that of
/// [`one_word`].
#[inline(always)]
pub(crate) fn changed_bits(last: &[u8], bytes: &[u8], word: u64) -> BitSpan
    requires kept { kept_bytes (length bytes.now) ≤ length last.now }
    requires short { length bytes.now < 2 ^ 50 }
    requires word { IsOneWord bytes.now word }
    ensures { SameOutside last.now bytes.now result }
{
    if bytes.len() <= 8 {
        let none = BitSpan { first: 0, end: 0 };
        grow(none, 0, whole_word(last, 0), word)
    } else {
        changed_words(last, bytes)
    }
}

/// Keeps the bytes of a word as the first eight, one by one: the compiler makes one write of them.
#[inline(always)]
fn keep_word(last: &mut [u8], word: u64)
    requires { 8 ≤ length last.old }
    ensures { (n : ℕ) → n < 64 → bit_of last.new n ≡ bit_at word n }
{
    let [a, b, c, d, e, f, g, h] = word.to_le_bytes();
    last[0] = a;
    last[1] = b;
    last[2] = c;
    last[3] = d;
    last[4] = e;
    last[5] = f;
    last[6] = g;
    last[7] = h;
}

/// Keeps the bytes of a report as those of the last one. The word is that of [`one_word`].
#[inline(always)]
pub(crate) fn keep_bytes(last: &mut [u8], bytes: &[u8], word: u64)
    requires kept { kept_bytes (length bytes.now) ≤ length last.old }
    requires word { IsOneWord bytes.now word }
    ensures { HoldBits last.new bytes.now }
{
    if bytes.len() <= 8 {
        keep_word(last, word);
    } else {
        last[..bytes.len()].copy_from_slice(bytes);
    }
}
