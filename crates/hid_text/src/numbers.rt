//! What a word says by itself: a device, a usage, a count, a number.

ghost use Rattle.std.specs.Prelude.{◌≡◌, ◌+◌, ◌-◌, ◌*◌, ◌^◌, ◌<◌, ◌≤◌, min, position, IfSome};
ghost use Rattle.std.specs.Option.{option_map};
ghost use Rattle.hid_text.specs.Numbers.{device_of, number_of, hex_number_of, is_colon, usage_of_word, count_of, byte_of, short_number_of, signed_of_word, amount_of};

use hid_report_descriptor::Usage;

/// A device: one digit, 1 to 7.
pub fn read_device(word: &[u8]) -> Option<u8>
    ensures { result ≡ device_of word.now }
{
    match word {
        [digit @ b'1'..=b'7'] => Some(*digit - b'0'),
        _ => None,
    }
}

/// The number that digits encode, cut at the greatest `u64`.
#[tactic(auto, unfolding(crate::specs::Numbers::number_of))]
pub fn read_number(base: u8, word: &[u8]) -> Option<u64>
    requires { (2 ≤ base) × (base ≤ 16) }
    ensures { result ≡ option_map (λ n. min n (2 ^ 64 - 1)) (number_of base word.now) }
{
    if word.is_empty() {
        return None;
    }
    let mut value: u64 = 0;
    for byte in word {
        let digit = char::from(*byte).to_digit(u32::from(base))?;
        value = value
            .saturating_mul(u64::from(base))
            .saturating_add(u64::from(digit));
    }
    Some(value)
}

/// A number of one to four hex digits, of either case.
fn read_hex_number(word: &[u8]) -> Option<u16>
    ensures { result ≡ hex_number_of word.now }
{
    if word.len() > 4 {
        return None;
    }
    let value = read_number(16, word)?;
    Some(value as u16)
}

/// The place of the first colon.
fn colon(word: &[u8]) -> Option<usize>
    ensures { result ≡ position is_colon word.now }
{
    word.iter().position(|byte| *byte == b':')
}

/// A usage: page and ID in hex, joined by a colon.
#[tactic(auto, unfolding(crate::specs::Numbers::usage_of_word))]
pub fn read_usage(word: &[u8]) -> Option<Usage>
    ensures { result ≡ usage_of_word word.now }
{
    let colon = colon(word)?;
    let page = read_hex_number(&word[..colon])?;
    let id = read_hex_number(&word[colon + 1..])?;
    Some(Usage { page, id })
}

/// How often a step is taken, 1 to 10,000.
#[tactic(auto, unfolding(crate::specs::Numbers::count_of))]
pub fn read_count(word: &[u8]) -> Option<u16>
    ensures { result ≡ count_of word.now }
{
    match read_number(10, word) {
        Some(count @ 1..=10_000) => Some(count as u16),
        _ => None,
    }
}

/// A Report ID or an idle time, 0 to 255.
#[tactic(auto, unfolding(crate::specs::Numbers::byte_of))]
pub fn read_byte(word: &[u8]) -> Option<u8>
    ensures { result ≡ byte_of word.now }
{
    match read_number(10, word) {
        Some(byte @ 0..=0xFF) => Some(byte as u8),
        _ => None,
    }
}

/// A number of at most 18 digits.
fn read_short_number(word: &[u8]) -> Option<u64>
    ensures value { result ≡ short_number_of word.now }
    ensures small { IfSome result (λ n. n < 10 ^ 18) }
{
    if word.len() > 18 {
        return None;
    }
    let value = read_number(10, word)?;
    Some(value)
}

/// A number of at most 18 digits, which a minus may precede.
#[tactic(auto, unfolding(crate::specs::Numbers::signed_of_word))]
pub fn read_signed(word: &[u8]) -> Option<i64>
    ensures { result ≡ signed_of_word word.now }
{
    match word {
        [] => None,
        [b'-', digits @ ..] => {
            let value = read_short_number(digits)?;
            Some(-(value as i64))
        }
        _ => {
            let value = read_short_number(word)?;
            Some(value as i64)
        }
    }
}

/// By how much a control moves: a number that an `i32` holds.
#[tactic(auto, unfolding(crate::specs::Numbers::amount_of))]
pub fn read_amount(word: &[u8]) -> Option<i32>
    ensures { result ≡ amount_of word.now }
{
    match read_signed(word) {
        Some(by @ -0x8000_0000..=0x7FFF_FFFF) => Some(by as i32),
        _ => None,
    }
}
