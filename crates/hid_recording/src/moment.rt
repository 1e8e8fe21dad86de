//! The time of a frame, as it is printed.

ghost use Rattle.std.specs.Prelude.{◌≡◌, ◌<◌, ◌≤◌, ◌++◌, ◌∷◌, [], OnOk, string_bytes};
ghost use Rattle.hid_recording.specs.Moments.{digit_of, three_digits, fraction_text, time_text};

use hid_notation::print_number;
use std::alloc::AllocError;

/// A second, in nanoseconds.
const SECOND: u64 = 1_000_000_000;

/// Adds a digit of a time.
fn push_digit(text: &mut String, time: u64, value: u64) -> Result<(), AllocError>
    requires { 0 < value }
    ensures { OnOk result (string_bytes text.new ≡ string_bytes text.old ++ digit_of time value ∷ []) }
{
    text.push(char::from(b'0' + (time / value % 10) as u8))
}

/// Adds three digits of a time, of which the last counts so many nanoseconds.
fn push_three(text: &mut String, time: u64, value: u64) -> Result<(), AllocError>
    requires some { 0 < value }
    requires small { value ≤ 1000000 }
    ensures { OnOk result (string_bytes text.new ≡ string_bytes text.old ++ three_digits time value) }
{
    push_digit(text, time, 100 * value)?;
    push_digit(text, time, 10 * value)?;
    push_digit(text, time, value)
}

/// Adds the nine digits after the point of a time in nanoseconds.
fn print_fraction(text: &mut String, time: u64) -> Result<(), AllocError>
    ensures { OnOk result (string_bytes text.new ≡ string_bytes text.old ++ fraction_text time) }
{
    push_three(text, time, 1_000_000)?;
    push_three(text, time, 1_000)?;
    push_three(text, time, 1)
}

/// Puts a time in nanoseconds into a text, as seconds with nine digits after the point.
///
/// # Errors
/// Out of memory.
pub fn put_time(text: &mut String, time: u64) -> Result<(), AllocError>
    ensures { OnOk result (string_bytes text.new ≡ time_text time) }
{
    text.clear();
    print_number(text, time / SECOND)?;
    text.push('.')?;
    print_fraction(text, time)
}
