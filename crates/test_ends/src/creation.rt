//! Which devices there are, why others aren't, and what refusals are printed as:
//! ```text
//!   makes: 05 01 09 02 | 1 10 plain   what is made of a descriptor, an address, an interval and a kind: the number of its
//!                                     reports; or the refusal, and its place
//!   prints: device Memory             the cause of that name, and the refusal for it at 7
//!   prints: host NotReady             the refusal of that name
//! ```

use crate::device::print_round;
use crate::ends::{config_of, device_at};
use crate::output::Output;
use crate::words::{small, words_in};
use hid_device::{Boot, Config, Device, DeviceCause, DeviceFault};
use hid_host::{DescriptorFault, StackFault};
use hid_layout::{Cause, LayoutFault};
use hid_usages::ReportFault;
use std::alloc::Global;
use test_rows::{RowFault, Table};
use usb_control::{ControlFault, InfoFault};

/// Appends how many reports a device has, and its open round, if it has one; or the refusal and its place.
fn print_made(made: &Result<Device, DeviceFault>, printed: &mut Output) {
    match made {
        Ok(device) => {
            printed.show(format_args!("{} reports", device.layout().reports().len()));
            print_round(device, printed);
        }
        Err(fault) => printed.show(format_args!("{fault} ({})", fault.at)),
    }
}

/// Appends the device of an address, a configuration and a descriptor, or its refusal.
fn print_made_at(
    alloc: Global,
    addr: u8,
    config: &Config,
    descriptor: &[u8],
    printed: &mut Output,
) {
    let made = device_at(alloc, addr, config, descriptor);
    print_made(&made, printed);
}

fn boot_of(kind: &str) -> Option<Boot> {
    match kind {
        "plain" => Some(Boot::No),
        "keyboard" => Some(Boot::Keyboard),
        "mouse" => Some(Boot::Mouse),
        _ => None,
    }
}

/// Appends the device of words for an address, an interval and a kind, and of a descriptor, or its refusal.
fn print_made_of(
    alloc: Global,
    addr: &str,
    interval: &str,
    kind: &str,
    descriptor: &[u8],
    printed: &mut Output,
) {
    match (small(addr), small(interval), boot_of(kind)) {
        (Some(addr), Some(interval), Some(boot)) => print_made_at(
            alloc,
            addr,
            &config_of(boot, interval),
            descriptor,
            printed,
        ),
        _ => printed.unread(),
    }
}

/// Appends a cause, and the refusal for this cause at 7.
fn print_cause(cause: Option<DeviceCause>, printed: &mut Output) {
    match cause {
        Some(cause) => {
            printed.show(cause);
            printed.show(DeviceFault { cause, at: 7 });
        }
        None => printed.unread(),
    }
}

/// What rows of devices leave of the codes.
fn cause_of(name: &str) -> Option<DeviceCause> {
    match name {
        "TooMany" => Some(DeviceCause::Layout(Cause::TooMany)),
        "LayoutMemory" => Some(DeviceCause::Layout(Cause::Memory)),
        "Memory" => Some(DeviceCause::Memory),
        _ => None,
    }
}

fn fault_of(name: &str) -> Option<StackFault> {
    match name {
        "NoDevice" => Some(StackFault::NoDevice),
        "NotReady" => Some(StackFault::NotReady),
        "NoTransfer" => Some(StackFault::Control(ControlFault::NoTransfer)),
        "NoEndpoint" => Some(StackFault::BadDescriptor(DescriptorFault::Info(
            InfoFault::NoEndpoint,
        ))),
        "ReportLength" => Some(StackFault::BadDescriptor(DescriptorFault::ReportLength)),
        "PopEmptyAt4" => Some(StackFault::BadDescriptor(DescriptorFault::Layout(LayoutFault {
            cause: Cause::PopEmpty,
            at: 4,
        }))),
        "UnknownReport" => Some(StackFault::Report(ReportFault::UnknownReport)),
        "TooManyDevices" => Some(StackFault::TooManyDevices),
        "Memory" => Some(StackFault::Memory),
        _ => None,
    }
}

fn print_fault(fault: Option<StackFault>, printed: &mut Output) {
    match fault {
        Some(fault) => printed.show(fault),
        None => printed.unread(),
    }
}

/// Appends the device of an address, an interval and a kind in words, or its refusal.
fn print_made_by(alloc: Global, words: &[&str], descriptor: &[u8], printed: &mut Output) {
    match *words {
        [addr, interval, kind] => print_made_of(alloc, addr, interval, kind, descriptor, printed),
        _ => printed.unread(),
    }
}

/// What is made of a descriptor and, in words, an address, an interval and a kind.
pub fn print_makes(
    printed: &mut String,
    table: &Table<'_>,
    descriptor: &[u8],
    given: &str,
) -> Result<(), RowFault> {
    let words = words_in(table.alloc, given)?;
    let mut row = Output::new(table.alloc);
    print_made_by(table.alloc, &words, descriptor, &mut row);
    row.give(printed)
}

/// What the cause or the refusal of a name is printed as.
pub fn print_prints(printed: &mut String, table: &Table<'_>, given: &str) -> Result<(), RowFault> {
    let mut row = Output::new(table.alloc);
    match given.split_once(' ') {
        Some(("device", name)) => print_cause(cause_of(name), &mut row),
        Some(("host", name)) => print_fault(fault_of(name), &mut row),
        _ => row.unread(),
    }
    row.give(printed)
}
