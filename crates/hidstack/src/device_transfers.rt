//! The transfers of a virtual device, and the reports that its host set.

ghost use Rattle.std.specs.Prelude.{◌≡◌};
ghost use Rattle.hidstack_device.specs.Outputs.{output_with};
ghost use Rattle.hidstack.specs.Devices.{ControlsDevice, OutputsDevice, ReportsDevice};
ghost use Rattle.hidstack.specs.Writing.{BytesAreReturned};

use crate::device_handle::DeviceHandle;
use crate::names::write_text;
use crate::setup::{HidSetup, setup_of};
use crate::status::{CLOSED, NO_ROOM, NONE, OK, SHORT, STALLED};
use hidstack_device::{Gadget, Poll, TransferFault, control, output};
use std::alloc::Global;

/// The room in which any piece of a report fits: a packet of full speed (USB 2.0, 5.7.3).
const PIECE: u64 = 64;

/// A control transfer, whole.
#[unsafe(no_mangle)]
pub extern "C" fn hidstack_device_control(
    alloc: Global,
    device: &mut DeviceHandle,
    setup: &HidSetup,
    written: &[u8],
    answer: &mut [u8],
    answered: &mut u64,
) -> u32
    ensures { ControlsDevice device.old.kept setup.now written.now answer.old result
        device.new.kept answer.new answered.new }
{
    *answered = 0;
    let Some(mut gadget) = device.take(alloc) else {
        return CLOSED;
    };
    let ended = control(&mut gadget, &setup_of(setup), written, answer);
    *device = DeviceHandle::of(gadget);
    match ended {
        Ok(count) => {
            *answered = count as u64;
            OK
        }
        Err(TransferFault::NoRoom) => {
            *answered = u64::from(setup.length);
            NO_ROOM
        }
        Err(TransferFault::Short) => SHORT,
        Err(TransferFault::Stalled) => STALLED,
    }
}

/// An interrupt transfer from the device, whole.
#[unsafe(no_mangle)]
pub extern "C" fn hidstack_device_report(
    alloc: Global,
    device: &mut DeviceHandle,
    report: &mut [u8],
    length: &mut u64,
) -> u32
    ensures { ReportsDevice device.old.kept report.old result device.new.kept report.new
        length.new }
{
    *length = 0;
    let Some(mut gadget) = device.take(alloc) else {
        return CLOSED;
    };
    let ended = gadget.report(report);
    *device = DeviceHandle::of(gadget);
    match ended {
        Poll::Done(count) => {
            *length = count as u64;
            OK
        }
        Poll::Nothing => NONE,
        Poll::Stalled => STALLED,
        Poll::TooSmall => {
            *length = PIECE;
            NO_ROOM
        }
    }
}

/// Writes the report of this kind and ID that a host set over the first bytes of a room, and its length.
fn write_output(gadget: &Gadget, kind: u32, id: u8, out: &mut [u8], length: &mut u64) -> u32
    requires { length.old ≡ 0 }
    ensures { BytesAreReturned (output_with gadget.now kind id) out.old result out.new length.new }
{
    match output(gadget, kind, id) {
        Some(bytes) => write_text(bytes, out, length),
        None => NONE,
    }
}

/// Writes an Output or Feature report as the host set it last.
#[unsafe(no_mangle)]
pub extern "C" fn hidstack_device_output(
    alloc: Global,
    device: &mut DeviceHandle,
    kind: u32,
    id: u8,
    out: &mut [u8],
    length: &mut u64,
) -> u32
    ensures kept { device.new.kept ≡ device.old.kept }
    ensures output { OutputsDevice device.old.kept kind id out.old result out.new length.new }
{
    *length = 0;
    let Some(gadget) = device.take(alloc) else {
        return CLOSED;
    };
    let status = write_output(&gadget, kind, id, out, length);
    *device = DeviceHandle::of(gadget);
    status
}
