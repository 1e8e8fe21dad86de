//! A virtual device is opened, searched, and closed; and what happens to it beside its transfers.

ghost use Rattle.std.specs.Prelude.{◌≡◌, ◌≤◌, None, Ok, Err, IfOk, IfErr};
ghost use Rattle.hid_device.specs.Core.{framed_core, reset_core};
ghost use Rattle.hid_gadget.specs.Gadgets.{halted_gadget};
ghost use Rattle.hidstack_device.specs.Making.{MakesDevice};
ghost use Rattle.hidstack.specs.Devices.{FindsControl, GoesOn, IsDeviceBusy, OpensDevice, RefusesDevice, ShowsConfigured};
ghost use types.Logic.{sem};
ghost use denote.RawPtr.{Testable};
ghost use Rattle.core.specs.Ptr.{if_non_null, points_to};
ghost use Rattle.hidstack.specs.Closing.{closed_at};
ghost use Rattle.hidstack.specs.contracts.device_handle.DeviceHandle.{the_row};
ghost use Rattle.hidstack.specs.declared.device_handle.DeviceHandle.{DeviceHandle};

use crate::device_handle::DeviceHandle;
use crate::status::{BUSY, CLOSED, NONE, OK, REFUSED};
use hidstack_device::{
    DeviceCause, DeviceFault, Gadget, HidConfig, Usage, device_cause_number, find_nth, make,
};
use std::alloc::Global;

/// What `hidstack_device_open` writes beside its status.
#[repr(C)]
#[derive(Clone, Copy)]
pub struct HidDeviceOpened {
    /// Where the refused item begins, in bytes from the descriptor's first.
    pub at: u64,
    /// 1 for V1 to 21 for V21; 0 where nothing was refused.
    pub cause: u32,
    /// 0.
    pub spare: u32,
}

/// A device in a block of its own.
fn make_box(
    alloc: Global,
    config: &HidConfig,
    descriptor: &[u8],
) -> Result<Box<Gadget>, DeviceFault>
    ensures ok { IfOk result (λ gadget. MakesDevice config.now descriptor.now (Ok gadget.value)) }
    ensures err { IfErr result (λ fault. MakesDevice config.now descriptor.now (Err fault)) }
{
    match Box::new(alloc, make(alloc, config, descriptor)?) {
        Ok(gadget) => Ok(gadget),
        Err(_) => Err(DeviceFault {
            cause: DeviceCause::Memory,
            at: 0,
        }),
    }
}

/// Makes a virtual device of a configuration and a report descriptor in a closed handle.
#[unsafe(no_mangle)]
pub extern "C" fn hidstack_device_open(
    alloc: Global,
    config: &HidConfig,
    descriptor: &[u8],
    device: &mut DeviceHandle,
    opened: &mut HidDeviceOpened,
) -> u32
    ensures status { result ≤ BUSY }
    ensures opened { result ≡ OK
        → OpensDevice device.old.kept config.now descriptor.now device.new.kept opened.new }
    ensures refused { result ≡ REFUSED
        → RefusesDevice device.old.kept config.now descriptor.now device.new.kept opened.new }
    ensures busy { result ≡ BUSY
        → IsDeviceBusy device.old.kept device.new.kept opened.old opened.new }
{
    if let Some(gadget) = device.take(alloc) {
        *device = DeviceHandle::of(gadget);
        return BUSY;
    }
    *opened = HidDeviceOpened {
        at: 0,
        cause: 0,
        spare: 0,
    };
    match make_box(alloc, config, descriptor) {
        Ok(gadget) => {
            *device = DeviceHandle::of(gadget);
            OK
        }
        Err(fault) => {
            opened.cause = device_cause_number(fault.cause);
            opened.at = fault.at as u64;
            REFUSED
        }
    }
}

/// Gives back what an open handle keeps. A closed one stays as it is.
fn close(alloc: Global, device: &mut DeviceHandle)
    ensures { device.new.kept ≡ None }
{
    drop(device.take(alloc));
}

/// Gives back what an open handle keeps. A closed one stays as it is. A null pointer is to none.
///
/// # Safety
/// The pointer is null, or to a handle that nothing else uses.
#[unsafe(no_mangle)]
pub unsafe extern "C" fn hidstack_device_close(alloc: Global, device: *mut DeviceHandle)
    ghost was: { DeviceHandle }
    requires testable { Testable device }
    requires* open { sem 𝓛 (if_non_null device (points_to the_row device was)) }
    ensures* closed { sem 𝓛 (if_non_null device (closed_at the_row (λ h. h.kept) device)) }
{
    if device.is_null() {
        return;
    }
    close(alloc, unsafe { &mut *device });
}

/// The place of the control that has a usage, and comes after this many that have it.
#[unsafe(no_mangle)]
pub extern "C" fn hidstack_device_find(
    alloc: Global,
    device: &mut DeviceHandle,
    page: u16,
    id: u16,
    nth: u64,
    item: &mut u64,
    index: &mut u64,
) -> u32
    ensures kept { device.new.kept ≡ device.old.kept }
    ensures found { FindsControl device.old.kept (record { page = page; id = id }) nth item.old
        index.old result item.new index.new }
{
    let Some(gadget) = device.take(alloc) else {
        return CLOSED;
    };
    let found = find_nth(gadget.layout(), Usage { page, id }, nth);
    *device = DeviceHandle::of(gadget);
    match found {
        Some(control) => {
            *item = control.item as u64;
            *index = control.index as u64;
            OK
        }
        None => NONE,
    }
}

/// Whether a host has configured the device: 1, else 0.
#[unsafe(no_mangle)]
pub extern "C" fn hidstack_device_configured(
    alloc: Global,
    device: &mut DeviceHandle,
    configured: &mut u32,
) -> u32
    ensures kept { device.new.kept ≡ device.old.kept }
    ensures shown { ShowsConfigured device.old.kept configured.old result configured.new }
{
    let Some(gadget) = device.take(alloc) else {
        return CLOSED;
    };
    let is_configured = gadget.is_configured();
    *device = DeviceHandle::of(gadget);
    *configured = if is_configured { 1 } else { 0 };
    OK
}

/// A frame of 1 ms passes.
#[unsafe(no_mangle)]
pub extern "C" fn hidstack_device_frame(alloc: Global, device: &mut DeviceHandle) -> u32
    ensures { GoesOn framed_core device.old.kept result device.new.kept }
{
    let Some(mut gadget) = device.take(alloc) else {
        return CLOSED;
    };
    gadget.frame();
    *device = DeviceHandle::of(gadget);
    OK
}

/// Halts the endpoint of the device's Input reports.
#[unsafe(no_mangle)]
pub extern "C" fn hidstack_device_halt(alloc: Global, device: &mut DeviceHandle) -> u32
    ensures { GoesOn halted_gadget device.old.kept result device.new.kept }
{
    let Some(mut gadget) = device.take(alloc) else {
        return CLOSED;
    };
    gadget.halt();
    *device = DeviceHandle::of(gadget);
    OK
}

/// A reset of the bus.
#[unsafe(no_mangle)]
pub extern "C" fn hidstack_device_reset(alloc: Global, device: &mut DeviceHandle) -> u32
    ensures { GoesOn reset_core device.old.kept result device.new.kept }
{
    let Some(mut gadget) = device.take(alloc) else {
        return CLOSED;
    };
    gadget.reset();
    *device = DeviceHandle::of(gadget);
    OK
}
