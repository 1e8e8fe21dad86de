//! Both ends of the bus, made again for each row of steps as the row gives them, and what a foreign device answers:
//! ```text
//!   KEYBOARD                a boot keyboard that isn't configured, and a host that knows nothing of it; so MOUSE
//!   plain MOUSE             the same descriptor without the boot protocol
//!   TWO_REPORTS             a plain device of the descriptor that has this name
//!   MOUSE at 127            a device at another address
//!   ready KEYBOARD          a host that is ready for the descriptor; the device isn't configured
//!   KEYBOARD, 100 times     the steps are played so often
//! ```

use hid_device::{Boot, Config, Device, DeviceFault};
use hid_host::{HostDevice, StackFault};
use std::alloc::Global;
use test_rows::{RowFault, Table, bytes_of, number_of};

/// What a foreign device has in place of descriptors: any bytes.
#[derive(Drop)]
pub struct Answers {
    pub configuration: Vec<u8>,
    pub report: Vec<u8>,
}

/// A device at address 1, if not at another, and a host of address 1, with the report descriptor of the device.
#[derive(Drop)]
pub struct Ends {
    pub device: Device,
    pub host: HostDevice,
    pub descriptor: Vec<u8>,
    pub answers: Answers,
}

/// A device of vendor FEFF and product 0001.
pub fn config_of(boot: Boot, interval: u8) -> Config {
    Config {
        vendor: 0xFEFF,
        product: 0x0001,
        interval,
        boot,
    }
}

/// The device at this address, or why there is none. It promises nothing, so that what [`Device::new`] does is before the
/// prover here alone.
pub fn device_at(
    alloc: Global,
    addr: u8,
    config: &Config,
    descriptor: &[u8],
) -> Result<Device, DeviceFault> {
    Device::new(alloc, addr, config, descriptor)
}

/// A host that knows nothing yet of the device at address 1.
pub fn cold(alloc: Global) -> HostDevice {
    HostDevice::cold(alloc, 1)
}

/// A host of address 1 that is ready.
pub fn ready(alloc: Global, descriptor: &[u8]) -> Result<HostDevice, StackFault> {
    HostDevice::ready(alloc, 1, descriptor)
}

fn host_of(alloc: Global, is_ready: bool, descriptor: &[u8]) -> Option<HostDevice> {
    if is_ready {
        ready(alloc, descriptor).ok()
    } else {
        Some(cold(alloc))
    }
}

/// Both ends, of this device, which is polled each 10 frames; nothing where there is no such device or host.
fn ends_of(
    alloc: Global,
    addr: u8,
    boot: Boot,
    is_ready: bool,
    descriptor: Vec<u8>,
) -> Option<Ends> {
    let device = device_at(alloc, addr, &config_of(boot, 10), &descriptor).ok()?;
    let Some(host) = host_of(alloc, is_ready, &descriptor) else {
        drop(device);
        return None;
    };
    Some(Ends {
        device,
        host,
        descriptor,
        answers: Answers {
            configuration: Vec::new(alloc),
            report: Vec::new(alloc),
        },
    })
}

/// What is given without how often its steps are played, and how often.
pub fn times_in(given: &str) -> Result<(&str, usize), RowFault> {
    let Some((given, often)) = given.split_once(", ") else {
        return Ok((given, 1));
    };
    match often.split_once(' ') {
        Some((count, "times")) => Ok((given, number_of(count)?)),
        _ => Err(RowFault::Unread),
    }
}

/// The boot device of this descriptor, by its name.
pub fn boot_of(name: &str) -> Boot {
    match name {
        "KEYBOARD" => Boot::Keyboard,
        "MOUSE" => Boot::Mouse,
        _ => Boot::No,
    }
}

/// A name without this word before it, and whether the word stands there.
pub fn without<'a>(name: &'a str, word: &str) -> (&'a str, bool) {
    match name.strip_prefix(word) {
        Some(rest) => (rest, true),
        None => (name, false),
    }
}

/// The ends that are given; `Unread` where there is no such device or host.
pub fn begun(table: &Table<'_>, given: &str) -> Result<Ends, RowFault> {
    let (kind, is_ready) = without(given, "ready ");
    let (kind, is_plain) = without(kind, "plain ");
    let (name, addr) = kind.split_once(" at ").unwrap_or((kind, "1"));
    let boot = if is_plain { Boot::No } else { boot_of(name) };
    let addr = addr.parse()?;
    let descriptor = bytes_of(table, name)?;
    match ends_of(table.alloc, addr, boot, is_ready, descriptor) {
        Some(ends) => Ok(ends),
        None => Err(RowFault::Unread),
    }
}
