//! The configuration of a device as a record, and the device that is made of it (USB 2.0, 9.6; HID 1.11, 4.2 and 4.3).

ghost use Rattle.std.specs.Prelude.{◌≡◌};
ghost use Rattle.hidstack_device.specs.Making.{MakesDevice, boot_of, config_of};

use hid_gadget::{Boot, Config, DeviceCause, DeviceFault, Gadget};
use std::alloc::Global;

/// What the standard descriptors say of a device.
#[repr(C)]
#[derive(Clone, Copy, Debug)]
pub struct HidConfig {
    /// idVendor.
    pub vendor: u16,
    /// idProduct.
    pub product: u16,
    /// bInterval, in frames of 1 ms, 1 to 255.
    pub interval: u8,
    /// bInterfaceProtocol of a boot device: 1 of a keyboard, 2 of a mouse; else 0.
    pub boot: u8,
    /// 0. It is kept for a later version.
    pub spare: u16,
}

/// The boot device of a bInterfaceProtocol; none over 2.
fn boot_of(protocol: u8) -> Option<Boot>
    ensures { result ≡ boot_of protocol }
{
    match protocol {
        0 => Some(Boot::No),
        1 => Some(Boot::Keyboard),
        2 => Some(Boot::Mouse),
        _ => None,
    }
}

/// The configuration of a record; none where no boot device has its protocol, or its spare field isn't 0.
fn config_of(given: &HidConfig) -> Option<Config>
    ensures { result ≡ config_of given.now }
{
    if given.spare != 0 {
        return None;
    }
    match boot_of(given.boot) {
        Some(boot) => Some(Config {
            vendor: given.vendor,
            product: given.product,
            interval: given.interval,
            boot,
        }),
        None => None,
    }
}

/// A gadget of a record and a report descriptor. It makes all room that the other calls fill.
///
/// # Errors
/// V20 where no boot device has the record's protocol, or its spare field isn't 0; else those of [`Gadget::new`].
pub fn make(alloc: Global, given: &HidConfig, descriptor: &[u8]) -> Result<Gadget, DeviceFault>
    ensures { MakesDevice given.now descriptor.now result }
{
    match config_of(given) {
        Some(config) => Gadget::new(alloc, &config, descriptor),
        None => Err(DeviceFault {
            cause: DeviceCause::BadConfig,
            at: 0,
        }),
    }
}
