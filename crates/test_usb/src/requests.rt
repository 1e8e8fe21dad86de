//! Requests by their bytes, how a transfer of one begins, and where it stands.

ghost use Rattle.std.specs.Prelude.{◌≤◌};

use crate::keyboard::{CONFIG, DEVICE, REPORT};
use std::alloc::Global;
use test_rows::{RowFault, print, print_bytes, print_hex, print_shown};
use usb_control::{ControlFault, HostTransfer, Outcome, Setup};
use usb_packet::MAX_ADDRESS;

/// The eight bytes of a request.
pub fn request_in(bytes: &[u8]) -> Result<[u8; 8], RowFault> {
    match <[u8; 8]>::try_from(bytes) {
        Ok(request) => Ok(request),
        Err(_) => Err(RowFault::Unread),
    }
}

fn print_setup(printed: &mut String, setup: &Setup) -> Result<(), RowFault> {
    let Setup {
        request_type,
        request,
        value,
        index,
        length,
    } = setup;
    let (request_type, request) = (u32::from(*request_type), u32::from(*request));
    let (value, index, length) = (u32::from(*value), u32::from(*index), u32::from(*length));
    print_hex(printed, &[request_type, request, value, index, length])
}

/// The fields of a request, and whether it reads; nothing where its bytes aren't those that it was read from.
pub fn print_fields(printed: &mut String, bytes: &[u8]) -> Result<(), RowFault> {
    let request = request_in(bytes)?;
    let setup = Setup::from_bytes(&request);
    if setup.to_bytes() != request {
        return print(printed, "encoded otherwise");
    }
    print_setup(printed, &setup)?;
    print(printed, if setup.is_read() { "reads" } else { "writes" })
}

fn print_read(printed: &mut String, bytes: &[u8]) -> Result<(), RowFault> {
    if bytes.is_empty() {
        return Ok(());
    }
    if bytes == DEVICE.as_slice() {
        return print(printed, "DEVICE");
    }
    if bytes == CONFIG.as_slice() {
        return print(printed, "CONFIG");
    }
    if bytes == REPORT.as_slice() {
        return print(printed, "REPORT");
    }
    print_bytes(printed, bytes)
}

/// Where a transfer stands: `running`, its fault, or `done` and the bytes read. Those of the whole descriptors of the
/// keyboard have names.
pub fn print_outcome(printed: &mut String, transfer: &HostTransfer) -> Result<(), RowFault> {
    match transfer.outcome() {
        Outcome::Running => print(printed, "running"),
        Outcome::Failed(fault) => print_shown(printed, &fault),
        Outcome::Done(bytes) => {
            print(printed, "done")?;
            print_read(printed, bytes)
        }
    }
}

/// A transfer that isn't begun.
pub fn print_refused(printed: &mut String, fault: ControlFault) -> Result<(), RowFault> {
    print(printed, "not begun")?;
    print_shown(printed, &fault)
}

/// Whether a transfer runs.
pub fn runs(transfer: &HostTransfer) -> bool {
    matches!(transfer.outcome(), Outcome::Running)
}

/// A transfer of this request with a device. A write sends the first of these data.
pub fn begin(
    alloc: Global,
    addr: u8,
    request: &[u8; 8],
    sends: &[u8],
) -> Result<HostTransfer, ControlFault>
    requires addr { addr ≤ MAX_ADDRESS }
{
    let setup = Setup::from_bytes(request);
    if setup.is_read() {
        return HostTransfer::begin(alloc, addr, setup, &[]);
    }
    match sends.get(..usize::from(setup.length)) {
        Some(sends) => HostTransfer::begin(alloc, addr, setup, sends),
        None => Err(ControlFault::NoTransfer),
    }
}
