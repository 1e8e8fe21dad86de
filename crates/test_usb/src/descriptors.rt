//! What a host reads of descriptors: a keyboard's, those bytes with some of them changed, and descriptors in some order.

use crate::keyboard::{CONFIG, DEVICE};
use test_rows::{RowFault, number_of, pattern_of, print_hex, print_numbers, print_shown, split};
use usb_control::{ConfigInfo, ControlFault, DeviceInfo, InfoFault};

/// Each fault of a transfer.
const FAULTS: [ControlFault; 6] = [
    ControlFault::Stalled,
    ControlFault::BusFault,
    ControlFault::Overrun,
    ControlFault::NoTransfer,
    ControlFault::Busy,
    ControlFault::Memory,
];

/// The codes of the faults of a transfer.
pub fn print_faults(printed: &mut String) -> Result<(), RowFault> {
    for fault in FAULTS {
        print_shown(printed, &fault)?;
    }
    Ok(())
}

fn print_configuration(printed: &mut String, info: &ConfigInfo) -> Result<(), RowFault> {
    let ConfigInfo {
        report_length,
        endpoint,
        subclass,
        protocol,
    } = info;
    let (length, endpoint) = (i64::from(*report_length), i64::from(*endpoint));
    print_numbers(
        printed,
        &[length, endpoint, i64::from(*subclass), i64::from(*protocol)],
    )
}

fn configuration_in(bytes: &[u8]) -> Result<ConfigInfo, InfoFault> {
    ConfigInfo::read(bytes)
}

/// What is read of a configuration: the length of the report descriptor, the endpoint, and subclass and protocol; or the
/// fault.
pub fn print_joined(printed: &mut String, bytes: &[u8]) -> Result<(), RowFault> {
    match configuration_in(bytes) {
        Ok(info) => print_configuration(printed, &info),
        Err(fault) => print_shown(printed, &fault),
    }
}

/// A place and a byte in hex that a sign parts.
fn change_of(word: &str) -> Result<(usize, u8), RowFault> {
    let (at, byte) = split(word, '=');
    Ok((number_of(at)?, (pattern_of(byte)? % 256) as u8))
}

fn change(bytes: &mut [u8], words: &str) -> Result<(), RowFault> {
    for word in words.split_whitespace() {
        let (at, byte) = change_of(word)?;
        match bytes.get_mut(at) {
            Some(place) => *place = byte,
            None => return Err(RowFault::Unread),
        }
    }
    Ok(())
}

/// What is read of the keyboard's descriptors with some bytes changed, `PLACE=HEX`.
pub fn print_changed(printed: &mut String, words: &str) -> Result<(), RowFault> {
    let mut bytes = CONFIG;
    change(&mut bytes, words)?;
    print_joined(printed, &bytes)
}

/// What is read of the first bytes of the keyboard's descriptors, n.
pub fn print_prefixes(printed: &mut String, words: &str) -> Result<(), RowFault> {
    for word in words.split_whitespace() {
        match CONFIG.get(..number_of(word)?) {
            Some(front) => print_joined(printed, front)?,
            None => return Err(RowFault::Unread),
        }
    }
    Ok(())
}

fn device_in(bytes: &[u8]) -> Result<DeviceInfo, InfoFault> {
    DeviceInfo::read(bytes)
}

/// What is read of these bytes: vendor and product, or the fault.
fn print_device_in(printed: &mut String, bytes: &[u8]) -> Result<(), RowFault> {
    match device_in(bytes) {
        Ok(DeviceInfo { vendor, product }) => {
            print_hex(printed, &[u32::from(vendor), u32::from(product)])
        }
        Err(fault) => print_shown(printed, &fault),
    }
}

/// What is read of n of the device's bytes, two after them included, with this type of descriptor.
pub fn print_device(printed: &mut String, words: &str) -> Result<(), RowFault> {
    let (count, kind) = split(words, ' ');
    let mut bytes = [0; 20];
    bytes[..18].copy_from_slice(&DEVICE);
    bytes[1] = (pattern_of(kind)? % 256) as u8;
    match bytes.get(..number_of(count)?) {
        Some(front) => print_device_in(printed, front),
        None => Err(RowFault::Unread),
    }
}
