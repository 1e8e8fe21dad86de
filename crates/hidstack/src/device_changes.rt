//! The controls of a virtual device change.

ghost use Rattle.std.specs.Prelude.{◌≡◌, Err};
ghost use Rattle.hid_snapshots.specs.declared.change.Change.TheVariants.{Move, Null, Press, Release, Set};
ghost use Rattle.hid_layout.specs.declared.control.ControlId.{ControlId};
ghost use Rattle.hidstack_device.specs.Releasing.{released_core};
ghost use Rattle.hidstack.specs.Devices.{ChangesDevice, GoesOn, fault_status};

use crate::device_handle::DeviceHandle;
use crate::status::{CLOSED, FULL, NO_DIRECTION, NO_NULL, NONE, OK, RANGE, WRONG_KIND};
use hidstack_device::{Change, ChangeFault, ControlId, release_all};
use std::alloc::Global;

/// The status for a change that is refused.
fn fault_status(fault: ChangeFault) -> u32
    ensures { result ≡ fault_status fault }
{
    match fault {
        ChangeFault::NoSuchControl => NONE,
        ChangeFault::WrongKind => WRONG_KIND,
        ChangeFault::OutOfRange => RANGE,
        ChangeFault::NoNull => NO_NULL,
        ChangeFault::NoDirection => NO_DIRECTION,
        ChangeFault::MotionFull | ChangeFault::ArrayFull => FULL,
    }
}

/// The control at a place.
fn control_at(item: u64, index: u64) -> ControlId
    ensures { result ≡ record { item = item; index = index } }
{
    ControlId {
        item: item as usize,
        index: index as usize,
    }
}

/// Changes a control of an open device.
fn change_device(alloc: Global, device: &mut DeviceHandle, change: Change) -> u32
    ensures { ChangesDevice device.old.kept change result device.new.kept }
{
    let Some(mut gadget) = device.take(alloc) else {
        return CLOSED;
    };
    let answer = gadget.change(change);
    *device = DeviceHandle::of(gadget);
    match answer {
        Ok(()) => OK,
        Err(fault) => fault_status(fault),
    }
}

/// Presses a switch or a key.
#[unsafe(no_mangle)]
pub extern "C" fn hidstack_device_press(
    alloc: Global,
    device: &mut DeviceHandle,
    item: u64,
    index: u64,
) -> u32
    ensures { ChangesDevice device.old.kept (Press (record { item = item; index = index })) result
        device.new.kept }
{
    change_device(alloc, device, Change::Press(control_at(item, index)))
}

/// Releases a switch or a key.
#[unsafe(no_mangle)]
pub extern "C" fn hidstack_device_release(
    alloc: Global,
    device: &mut DeviceHandle,
    item: u64,
    index: u64,
) -> u32
    ensures { ChangesDevice device.old.kept (Release (record { item = item; index = index })) result
        device.new.kept }
{
    change_device(alloc, device, Change::Release(control_at(item, index)))
}

/// Sets the value of an absolute control.
#[unsafe(no_mangle)]
pub extern "C" fn hidstack_device_set(
    alloc: Global,
    device: &mut DeviceHandle,
    item: u64,
    index: u64,
    value: i64,
) -> u32
    ensures { ChangesDevice device.old.kept (Set (record { item = item; index = index }) value)
        result device.new.kept }
{
    change_device(alloc, device, Change::Set(control_at(item, index), value))
}

/// Sets an absolute control to null.
#[unsafe(no_mangle)]
pub extern "C" fn hidstack_device_null(
    alloc: Global,
    device: &mut DeviceHandle,
    item: u64,
    index: u64,
) -> u32
    ensures { ChangesDevice device.old.kept (Null (record { item = item; index = index })) result
        device.new.kept }
{
    change_device(alloc, device, Change::Null(control_at(item, index)))
}

/// Moves a relative control by an amount.
#[unsafe(no_mangle)]
pub extern "C" fn hidstack_device_move(
    alloc: Global,
    device: &mut DeviceHandle,
    item: u64,
    index: u64,
    by: i32,
) -> u32
    ensures { ChangesDevice device.old.kept (Move (record { item = item; index = index }) by)
        result device.new.kept }
{
    change_device(alloc, device, Change::Move(control_at(item, index), by))
}

/// Releases all that is pressed.
#[unsafe(no_mangle)]
pub extern "C" fn hidstack_device_release_all(alloc: Global, device: &mut DeviceHandle) -> u32
    ensures { GoesOn released_core device.old.kept result device.new.kept }
{
    let Some(mut gadget) = device.take(alloc) else {
        return CLOSED;
    };
    release_all(&mut gadget);
    *device = DeviceHandle::of(gadget);
    OK
}
