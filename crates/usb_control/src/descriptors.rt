//! The descriptors that a host reads (USB 2.0, 9.5 and 9.6; HID 1.11, 6.2.1).
ghost use Rattle.std.specs.Prelude.{◌≡◌, ◌<◌, ◌≤◌, Ok, Err, IfOk, true, List, ℕ, length, slice_index, find, option_and_then};
ghost use Rattle.std.specs.List.{before_first};
ghost use Rattle.usb_control.specs.Descriptors.{HasWalk, IsDevice, IsWalk, ReadsConfig, configuration_of, device_info_of, info_of, is_hid, is_hid_interface, is_interface, is_interrupt_in, report_length};

use crate::descriptor_list::{Wanted, first, is_walk};
use crate::fault::InfoFault;
use usb_packet::MAX_ENDPOINT;

/// In bytes, a device descriptor (USB 2.0, table 9-8).
const DEVICE_LENGTH: usize = 18;

/// In bytes, a configuration descriptor (USB 2.0, table 9-10).
const CONFIGURATION_LENGTH: u8 = 9;

/// The type of a device descriptor (USB 2.0, table 9-5).
const DEVICE: u8 = 0x01;

/// The type of a configuration descriptor (USB 2.0, table 9-5).
const CONFIGURATION: u8 = 0x02;

/// The type of a report descriptor, in the entries of a HID descriptor (HID 1.11, 7.1).
const REPORT: u8 = 0x22;

/// What a host reads of a device descriptor (USB 2.0, table 9-8).
#[derive(Clone, Copy, Debug, PartialEq, Eq)]
pub struct DeviceInfo {
    /// idVendor.
    pub vendor: u16,
    /// idProduct.
    pub product: u16,
}

impl DeviceInfo {
    /// Reads the answer to GET_DESCRIPTOR for a device, 18 bytes and whatever follows them.
    ///
    /// # Errors
    /// The first of these that stands: [`InfoFault::TooShort`] under 18 bytes, [`InfoFault::WrongType`] where the
    /// second byte isn't 01.
    pub fn read(bytes: &[u8]) -> Result<DeviceInfo, InfoFault>
        ensures value { 18 ≤ length bytes.now → IsDevice bytes.now
            → result ≡ Ok (device_info_of bytes.now) }

        // Each refusal, exactly where its cause is the first.
        ensures short { length bytes.now < 18 → result ≡ Err InfoFault.TooShort }
        ensures wrong { 18 ≤ length bytes.now → ¬ IsDevice bytes.now
            → result ≡ Err InfoFault.WrongType }
    {
        if bytes.len() < DEVICE_LENGTH {
            return Err(InfoFault::TooShort);
        }
        if bytes[1] != DEVICE {
            return Err(InfoFault::WrongType);
        }
        Ok(DeviceInfo {
            vendor: u16::from_le_bytes([bytes[8], bytes[9]]),
            product: u16::from_le_bytes([bytes[10], bytes[11]]),
        })
    }
}

/// What a host reads of the descriptors of a configuration: of its first HID interface.
#[derive(Clone, Copy, Debug, PartialEq, Eq)]
pub struct ConfigInfo {
    /// In bytes, the report descriptor: wDescriptorLength (HID 1.11, 6.2.1).
    pub report_length: u16,
    /// The number of the interrupt-IN endpoint, 0 to 15 (USB 2.0, table 9-13).
    pub endpoint: u8,
    /// bInterfaceSubClass: 1 where the device has the boot protocol (HID 1.11, 4.2).
    pub subclass: u8,
    /// bInterfaceProtocol: of a boot device, 1 for a keyboard and 2 for a mouse (HID 1.11, 4.3).
    pub protocol: u8,
}

impl ConfigInfo {
    /// Reads the answer to GET_DESCRIPTOR for a configuration: descriptors one after another, each as long as its
    /// first byte says.
    ///
    /// It takes the first interface of class 03, and of the descriptors between it and the next interface the first
    /// HID descriptor and, before or after that, the first interrupt-IN endpoint.
    ///
    /// # Errors
    /// The first [`InfoFault`] that stands, in the order of its variants.
    pub fn read(bytes: &[u8]) -> Result<ConfigInfo, InfoFault>
        // What the descriptors say, and the refusals but the first.
        ensures value { (descriptors : List (List ℕ)) → IsWalk bytes.now descriptors → 9 ≤ slice_index bytes.now 0
            → result ≡ configuration_of descriptors }

        // The first refusal.
        ensures short { ¬ (HasWalk bytes.now × (9 ≤ slice_index bytes.now 0))
            → result ≡ Err InfoFault.TooShort }

        // One of the two stands; an endpoint has four bits.
        ensures reads { ReadsConfig bytes.now result }
        ensures endpoint { IfOk result (λ info. info.endpoint ≤ MAX_ENDPOINT) }
    {
        let [size, kind, ..] = bytes else {
            return Err(InfoFault::TooShort);
        };
        if *size < CONFIGURATION_LENGTH || !is_walk(bytes) {
            return Err(InfoFault::TooShort);
        }
        if *kind != CONFIGURATION {
            return Err(InfoFault::WrongType);
        }
        let Some(interface) = first(bytes, Wanted::HidInterface) else {
            return Err(InfoFault::NoHidInterface);
        };
        config_info(interface.found, stretch(interface.behind))
    }
}

/// What stands before the next interface, of the bytes after one.
fn stretch(behind: &[u8]) -> &[u8]
    ensures { (descriptors : List (List ℕ)) → IsWalk behind.now descriptors
        → IsWalk result.now (before_first is_interface descriptors) }
{
    match first(behind, Wanted::Interface) {
        Some(next) => next.before,
        None => behind,
    }
}

/// What is read of an interface of class 03 and the descriptors that belong to it.
fn config_info(interface: &[u8], stretch: &[u8]) -> Result<ConfigInfo, InfoFault>
    requires { is_hid_interface interface.now ≡ true }
    ensures info { (descriptors : List (List ℕ)) → IsWalk stretch.now descriptors
        → result ≡ info_of interface.now
        (option_and_then report_length (find is_hid descriptors)) (find is_interrupt_in descriptors) }
    ensures endpoint { IfOk result (λ info. info.endpoint ≤ MAX_ENDPOINT) }
{
    let Some(hid) = first(stretch, Wanted::Hid) else {
        return Err(InfoFault::NoReportDescriptor);
    };
    let Some(report_length) = report_length(hid.found) else {
        return Err(InfoFault::NoReportDescriptor);
    };
    let Some(endpoint) = first(stretch, Wanted::InterruptIn) else {
        return Err(InfoFault::NoEndpoint);
    };
    Ok(ConfigInfo {
        report_length,
        endpoint: endpoint.found[2] % 16,
        subclass: interface[6],
        protocol: interface[7],
    })
}

/// The length that a HID descriptor gives its report descriptor: of the entries of three bytes from byte 6 on, a type
/// and a word, the first of type 22.
fn report_length(hid: &[u8]) -> Option<u16>
    ensures { result ≡ report_length hid.now }
{
    let mut entries = &hid[hid.len().min(6)..];
    while let [kind, low, high, rest @ ..] = entries {
        if *kind == REPORT {
            return Some(u16::from_le_bytes([*low, *high]));
        }
        entries = rest;
    }
    None
}
