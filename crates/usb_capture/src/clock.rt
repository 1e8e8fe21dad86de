//! Times of pcapng, in nanoseconds.

ghost use Rattle.std.specs.Prelude.{◌≡◌};
ghost use Rattle.usb_capture.specs.Times.{time_of, clock_rate};

use super::fault::Cause;
use super::format::Clock;

/// How many nanoseconds a second has.
const SECOND: u128 = 1_000_000_000;

/// The least offset that is below 0.
const NEGATIVE: u64 = 1 << 63;

/// How many patterns an offset has.
const PATTERNS: u128 = 1 << 64;

/// A clock counts microseconds since 1970, where no option says something else.
pub(crate) const MICROSECONDS: Clock = Clock {
    rate: 1_000_000,
    offset: 0,
};

/// A timestamp, which counts the clock's ticks, in nanoseconds since 1970. None where 64 bits have no such number, and of a clock
/// that doesn't tick.
#[tactic(auto, unfolding(crate::specs::Times::time_of))]
pub(crate) fn time_of(clock: Clock, timestamp: u64) -> Option<u64>
    ensures { result ≡ time_of clock timestamp }
{
    let since = (timestamp as u128 * SECOND).checked_div(clock.rate as u128)?;
    let time = if clock.offset < NEGATIVE {
        since + clock.offset as u128 * SECOND
    } else {
        since.checked_sub((PATTERNS - clock.offset as u128) * SECOND)?
    };
    u64::try_from(time).ok()
}

/// The ticks of a second, by the byte of the option if_tsresol: 10 to its power; with the highest bit, 2 to the rest's.
///
/// # Errors
/// [`Cause::BadClock`] where 64 bits have no such number.
#[tactic(auto, unfolding(crate::specs::Times::clock_rate))]
pub(crate) fn clock_rate(resolution: u8) -> Result<u64, Cause>
    ensures { result ≡ clock_rate resolution }
{
    if resolution < 20 {
        Ok(10u64.pow(resolution as u32))
    } else if resolution < 128 || resolution >= 192 {
        Err(Cause::BadClock)
    } else {
        Ok(1 << (resolution - 128))
    }
}
