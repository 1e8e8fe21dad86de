//! The numbers that patterns of some width stand for (HID 1.11, 5.8).

ghost use Rattle.std.specs.Prelude.{◌≡◌, ◌≤◌, ◌<◌, ◌^◌, pos};
ghost use Rattle.hid_report_descriptor.specs.Faults.{least_value, greatest_value};

use crate::limits::MAX_WIDTH;

/// The power of two, 2^n.
fn power_of_two(n: u32) -> i64
    requires { n ≤ MAX_WIDTH }
    ensures { result ≡ pos (2 ^ n) }
{
    (1u64 << n) as i64
}

/// The least value of a field of this width in bits, in two's complement where the minimum is negative.
pub fn least_value(min: i64, width: u32) -> i64
    requires positive { 0 < width }
    requires narrow { width ≤ MAX_WIDTH }
    ensures { result ≡ least_value min width }
{
    if min < 0 { -power_of_two(width - 1) } else { 0 }
}

/// The greatest value of a field of this width in bits, in two's complement where the minimum is negative.
pub fn greatest_value(min: i64, width: u32) -> i64
    requires positive { 0 < width }
    requires narrow { width ≤ MAX_WIDTH }
    ensures { result ≡ greatest_value min width }
{
    if min < 0 {
        power_of_two(width - 1) - 1
    } else {
        power_of_two(width) - 1
    }
}
