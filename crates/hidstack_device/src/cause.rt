//! The causes of refusals of a device as numbers.

ghost use Rattle.std.specs.Prelude.{◌≡◌};
ghost use Rattle.hidstack_device.specs.Causes.{device_cause_number};

use hid_gadget::DeviceCause;
use hidstack_session::cause_number;

/// 1 for V1 to 21 for V21.
pub fn device_cause_number(cause: DeviceCause) -> u32
    ensures { result ≡ device_cause_number cause }
{
    match cause {
        DeviceCause::Layout(found) => cause_number(found),
        DeviceCause::NoEmptyCode => 18,
        DeviceCause::RelativeWithoutZero => 19,
        DeviceCause::BadConfig => 20,
        DeviceCause::Memory => 21,
    }
}
