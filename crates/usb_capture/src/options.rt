//! The options of an interface, which say how its clock counts.

ghost use Rattle.std.specs.Prelude.{◌≡◌, ◌<◌, ◌≤◌, ◌+◌, length, IfOk};
ghost use Rattle.usb_capture.specs.Options.{padded_length, clock_with, clock_after};

use super::clock::clock_rate;
use super::fault::Cause;
use super::field::{ByteOrder, byte_at, u16_at, u64_at};
use super::format::Clock;

/// The option that ends the options.
const END: u16 = 0;

/// if_tsresol: how many ticks a second has.
const RESOLUTION: u16 = 9;

/// if_tsoffset: seconds to be added to each time.
const OFFSET: u16 = 14;

/// The bytes of an option before its value: its code and its length.
const OPTION_HEAD: usize = 4;

/// A length with the bytes that fill it up to a multiple of four.
#[tactic(auto, unfolding(crate::specs::Options::padded_length))]
pub(crate) fn padded_length(length: usize) -> usize
    requires { length < 65536 }
    ensures value { result ≡ padded_length length }
    ensures least { length ≤ result }
    ensures most { result ≤ length + 3 }
{
    (length + 3) / 4 * 4
}

/// The clock after an option with this code and value.
#[tactic(auto, unfolding(crate::specs::Options::clock_with))]
fn clock_with(order: ByteOrder, clock: Clock, code: u16, value: &[u8]) -> Result<Clock, Cause>
    ensures { result ≡ clock_with order clock code value.now }
{
    match code {
        RESOLUTION => {
            if value.len() != 1 {
                return Err(Cause::BadOption);
            }
            let rate = clock_rate(byte_at(value, 0))?;
            Ok(Clock {
                rate,
                offset: clock.offset,
            })
        }
        OFFSET => {
            if value.len() != 8 {
                return Err(Cause::BadOption);
            }
            Ok(Clock {
                rate: clock.rate,
                offset: u64_at(order, value, 0),
            })
        }
        _ => Ok(clock),
    }
}

/// The clock that these options give.
///
/// # Errors
/// [`Cause::BadOption`] or [`Cause::BadClock`], of the option that comes first.
pub(crate) fn read_clock(order: ByteOrder, clock: Clock, options: &[u8]) -> Result<Clock, Cause>
    ensures { result ≡ clock_after (length options.now) order clock options.now }
{
    let mut latest = clock;
    let mut rest = options;
    'options: while rest.len() >= OPTION_HEAD {
        let code = u16_at(order, rest, 0);
        let length = u16_at(order, rest, 2) as usize;
        if code == END {
            return Ok(latest);
        }
        let size = padded_length(length);
        if rest.len() < OPTION_HEAD + size {
            return Err(Cause::BadOption);
        }
        latest = clock_with(
            order,
            latest,
            code,
            &rest[OPTION_HEAD..OPTION_HEAD + length],
        )?;
        rest = &rest[OPTION_HEAD + size..];
    }
    Ok(latest)
}
