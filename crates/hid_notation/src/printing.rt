//! Numbers, bytes and usages, added to a text digit by digit: a formatter takes many times as long.

ghost use Rattle.std.specs.Prelude.{◌≡◌, ◌++◌, ◌<◌, ◌∷◌, [], true, OnOk, string_bytes};
ghost use Rattle.std.specs.Fmt.{decimal, signed_decimal, digit_glyph};
ghost use Rattle.hid_notation.specs.Text.{hex_text, bytes_text, usage_text, usage_or_dash, range_text};

use crate::text::HexText;
use hid_layout::Usage;
use itoa::Buffer;
use std::alloc::AllocError;

/// Adds a number in decimal, of any length.
#[inline(never)] // so that one digit makes no room for more
fn print_digits(text: &mut String, number: u64) -> Result<(), AllocError>
    ensures { OnOk result (string_bytes text.new ≡ string_bytes text.old ++ decimal number) }
{
    let mut digits = Buffer::new();
    text.push_str(digits.format(number))
}

/// Adds a number in decimal.
///
/// # Errors
/// Out of memory.
#[tactic(auto, using(std::proofs::lemmas::Fmt::decimal_digit))]
pub fn print_number(text: &mut String, number: u64) -> Result<(), AllocError>
    ensures { OnOk result (string_bytes text.new ≡ string_bytes text.old ++ decimal number) }
{
    if number < 10 {
        return text.push(char::from(b'0' + number as u8));
    }
    print_digits(text, number)
}

/// Adds a number in decimal, after `-` where it is below zero.
///
/// # Errors
/// Out of memory; part of the text may be added then.
pub fn print_signed(text: &mut String, number: i64) -> Result<(), AllocError>
    ensures { OnOk result (string_bytes text.new ≡ string_bytes text.old ++ signed_decimal number) }
{
    if number < 0 {
        text.push('-')?;
    }
    print_number(text, number.unsigned_abs())
}

/// Adds a number below 16 in upper-case hex.
fn push_digit(text: &mut String, digit: u8) -> Result<(), AllocError>
    requires { digit < 16 }
    ensures { OnOk result (string_bytes text.new ≡ string_bytes text.old ++ digit_glyph true digit ∷ []) }
{
    let zero = if digit < 10 { b'0' } else { b'A' - 10 };
    text.push(char::from(zero + digit))
}

/// Adds a number in upper-case hex, of two digits at least, by a formatter.
#[inline(never)] // so that two digits make no room for more
fn print_long_hex(text: &mut String, number: u16) -> Result<(), AllocError>
    ensures { OnOk result (string_bytes text.new ≡ string_bytes text.old ++ hex_text number) }
{
    let digits = HexText(number);
    write!(text, "{digits}")
}

/// Adds a number in upper-case hex, of two digits at least.
fn print_hex(text: &mut String, number: u16) -> Result<(), AllocError>
    ensures { OnOk result (string_bytes text.new ≡ string_bytes text.old ++ hex_text number) }
{
    if number >= 0x100 {
        return print_long_hex(text, number);
    }
    push_digit(text, (number / 16) as u8)?;
    push_digit(text, (number % 16) as u8)
}

/// Adds a byte after a space.
fn push_byte(text: &mut String, byte: u8) -> Result<(), AllocError>
    ensures { OnOk result (string_bytes text.new ≡ string_bytes text.old ++ 32 ∷ hex_text byte) }
{
    text.push(' ')?;
    print_hex(text, u16::from(byte))
}

/// Adds each byte after a space.
///
/// # Errors
/// Out of memory; part of the text may be added then.
pub fn print_bytes(text: &mut String, bytes: &[u8]) -> Result<(), AllocError>
    ensures { OnOk result (string_bytes text.new ≡ string_bytes text.old ++ bytes_text bytes.now) }
{
    for byte in bytes {
        push_byte(text, *byte)?;
    }
    Ok(())
}

/// Adds a usage, as page and ID: `01:30`.
///
/// # Errors
/// Out of memory; part of the text may be added then.
pub fn print_usage(text: &mut String, usage: Usage) -> Result<(), AllocError>
    ensures { OnOk result (string_bytes text.new ≡ string_bytes text.old ++ usage_text usage) }
{
    print_hex(text, usage.page)?;
    text.push(':')?;
    print_hex(text, usage.id)
}

/// Adds a usage, or `-` where there is none.
///
/// # Errors
/// Out of memory; part of the text may be added then.
pub fn print_usage_or_dash(text: &mut String, usage: Option<Usage>) -> Result<(), AllocError>
    ensures { OnOk result (string_bytes text.new ≡ string_bytes text.old ++ usage_or_dash usage) }
{
    match usage {
        None => text.push('-'),
        Some(usage) => print_usage(text, usage),
    }
}

/// Adds a range of usages, `09:01-09:03`, or the one usage of a range with equal ends.
///
/// # Errors
/// Out of memory; part of the text may be added then.
#[tactic(auto, unfolding(crate::specs::Text::range_text))]
pub fn print_usages(text: &mut String, range: (Usage, Usage)) -> Result<(), AllocError>
    ensures { OnOk result (string_bytes text.new ≡ string_bytes text.old ++ range_text range) }
{
    let (low, high) = range;
    print_usage(text, low)?;
    if low.page == high.page && low.id == high.id {
        return Ok(());
    }
    text.push('-')?;
    print_usage(text, high)
}
