//! What a device is beside its report descriptor.

ghost use Rattle.std.specs.Prelude.{◌≡◌};
ghost use Rattle.hid_device.specs.Config.{is_config, suits_boot};
ghost use Rattle.hid_device.specs.RequestTable.{config_info, device_info};

use hid_layout::boot::{KEYBOARD, MOUSE};
use hid_requests::{Boot, REPORT_ENDPOINT};
use usb_control::{ConfigInfo, DeviceInfo};
use usb_packet::MAX_ADDRESS;

/// What the standard descriptors say of a device (USB 2.0, 9.6).
#[derive(Clone, Copy, Debug, PartialEq, Eq)]
pub struct Config {
    /// idVendor (USB 2.0, 9.6.1).
    pub vendor: u16,
    /// idProduct.
    pub product: u16,
    /// bInterval of its interrupt endpoint, in frames of 1 ms, 1 to 255 (USB 2.0, 9.6.6).
    pub interval: u8,
    /// Its subclass and protocol.
    pub boot: Boot,
}

impl Config {
    /// What a host reads of its device descriptor.
    pub(crate) fn device_info(&self) -> DeviceInfo
        ensures { result ≡ device_info self.now }
    {
        DeviceInfo {
            vendor: self.vendor,
            product: self.product,
        }
    }

    /// What a host reads of its configuration, where its report descriptor has this length.
    pub(crate) fn config_info(&self, report_length: u16) -> ConfigInfo
        ensures { result ≡ config_info self.now report_length }
    {
        ConfigInfo {
            report_length,
            endpoint: REPORT_ENDPOINT,
            subclass: self.boot.subclass(),
            protocol: self.boot.protocol(),
        }
    }
}

/// Whether a descriptor is the one of its kind of boot device.
fn suits_boot(boot: Boot, descriptor: &[u8]) -> bool
    ensures { result ≡ suits_boot boot descriptor.now }
{
    match boot {
        Boot::No => true,
        Boot::Keyboard => descriptor == KEYBOARD.as_slice(),
        Boot::Mouse => descriptor == MOUSE.as_slice(),
    }
}

/// Whether a device can have this address and this configuration.
pub(crate) fn is_config(addr: u8, config: &Config, descriptor: &[u8]) -> bool
    ensures { result ≡ is_config addr config.now descriptor.now }
{
    (1 <= addr && addr <= MAX_ADDRESS)
        && (config.interval != 0 && suits_boot(config.boot, descriptor))
}
