//! A configuration, and how it is read.
ghost use Rattle.std.specs.Prelude.{◌≡◌, ◌<◌, List, [], ℕ, length, Ok, Err, IfOk, IfErr};
ghost use Rattle.usb_control.specs.Descriptors.{IsWalk};
ghost use Rattle.hid_interfaces.specs.Interfaces.{interfaces_of};
ghost use Rattle.hid_interfaces.specs.Configuration.{IsConfiguration, Refuses, total_length, whole_length};

use crate::descriptors::{is_listed, is_walk, next_descriptor};
use crate::fault::ConfigurationFault;
use crate::interface::{InterfaceInfo, interface_info};
use std::alloc::{AllocError, Global};

/// In bytes, the longest configuration with all descriptors that belong to it (our choice).
pub const MAX_CONFIGURATION: u16 = 4096;

/// In bytes, a configuration descriptor (USB 2.0, table 9-10).
const CONFIGURATION_LENGTH: u8 = 9;

/// The type of a configuration descriptor (USB 2.0, table 9-5).
const CONFIGURATION: u8 = 0x02;

/// What a host reads of a configuration: its number, and its HID interfaces.
#[derive(Debug, Drop)]
pub struct Configuration {
    /// bConfigurationValue: what SET_CONFIGURATION chooses it by, 1 to 255 (USB 2.0, 9.4.7 and table 9-10).
    pub number: u8,
    /// Each interface of class 03 in its first setting, in order; there is one at least.
    pub interfaces: Vec<InterfaceInfo>,
}

/// In bytes, a configuration with all descriptors that belong to it, by its first nine bytes: wTotalLength (USB 2.0,
/// 9.6.3), 9 to 4,096.
///
/// # Errors
/// The first of these that stands: [`ConfigurationFault::TooShort`] under nine bytes, or where the first byte says so;
/// [`ConfigurationFault::WrongType`]; [`ConfigurationFault::TotalLength`] where it is out of that range.
pub fn total_length(bytes: &[u8]) -> Result<u16, ConfigurationFault>
    ensures { result ≡ total_length bytes.now }
{
    let [size, kind, low, high, _, _, _, _, _, ..] = bytes else {
        return Err(ConfigurationFault::TooShort);
    };
    if *size < CONFIGURATION_LENGTH {
        return Err(ConfigurationFault::TooShort);
    }
    if *kind != CONFIGURATION {
        return Err(ConfigurationFault::WrongType);
    }
    let total = u16::from_le_bytes([*low, *high]);
    if total < u16::from(CONFIGURATION_LENGTH) || total > MAX_CONFIGURATION {
        return Err(ConfigurationFault::TotalLength);
    }
    Ok(total)
}

/// Whether as many bytes came as the first nine of them say.
fn whole_length(bytes: &[u8]) -> Result<(), ConfigurationFault>
    ensures value { result ≡ whole_length bytes.now }
    ensures long { IfOk result (λ _. 5 < length bytes.now) }
{
    match total_length(bytes) {
        Ok(total) => {
            if usize::from(total) != bytes.len() {
                return Err(ConfigurationFault::TotalLength);
            }
            Ok(())
        }
        Err(fault) => Err(fault),
    }
}

/// The HID interfaces among these descriptors, in order.
fn list_interfaces(alloc: Global, bytes: &[u8]) -> Result<Vec<InterfaceInfo>, AllocError>
    ensures { IfOk result (λ listed. (descriptors : List (List ℕ)) → IsWalk bytes.now descriptors
        → listed.items ≡ interfaces_of descriptors) }
{
    let mut listed = Vec::new(alloc);
    let mut rest = bytes;
    while let Some((found, behind)) = next_descriptor(rest) {
        if is_listed(found) {
            listed.push(interface_info(found, behind))?;
        }
        rest = behind;
    }
    Ok(listed)
}

impl Configuration {
    /// Reads the answer to GET_DESCRIPTOR for a configuration, all wTotalLength bytes of it: descriptors one after another,
    /// each as long as its first byte says.
    ///
    /// # Errors
    /// The first [`ConfigurationFault`] that stands, in the order of its variants.
    pub fn read(alloc: Global, bytes: &[u8]) -> Result<Configuration, ConfigurationFault>
        ensures read { IfOk result (λ configuration. IsConfiguration bytes.now configuration) }
        ensures refused { IfErr result (λ fault. Refuses bytes.now fault) }
    {
        match whole_length(bytes) {
            Ok(()) => {}
            Err(fault) => return Err(fault),
        }
        if !is_walk(bytes) {
            return Err(ConfigurationFault::NoDescriptors);
        }
        let number = bytes[5];
        if number == 0 {
            return Err(ConfigurationFault::NoNumber);
        }
        let interfaces = match list_interfaces(alloc, bytes) {
            Ok(interfaces) => interfaces,
            Err(_) => return Err(ConfigurationFault::Memory),
        };
        if interfaces.is_empty() {
            drop(interfaces);
            return Err(ConfigurationFault::NoHidInterface);
        }
        Ok(Configuration { number, interfaces })
    }
}
