//! What a host knows of its device: interfaces, the elements of their reports, and what is held.

ghost use Rattle.std.specs.Prelude.{◌≡◌, Some, option_map};
ghost use Rattle.hidstack_host.specs.Finding.{element_found};
ghost use Rattle.hidstack_host.specs.Info.{host_info, interface_at};
ghost use Rattle.hidstack_host.specs.Reading.{element_shown, held_shown, value_shown};
ghost use Rattle.hidstack_session.specs.Elements.{one_of};
ghost use Rattle.hidstack.specs.HostReading.{BlanksHost, HostBlankIsReturned, ShowsHost};

use crate::host_handle::HostHandle;
use crate::status::{CLOSED, NONE, OK};
use crate::writing::write_blank;
use hidstack_device::Usage;
use hidstack_host::{
    Driver, HidHostInfo, HidInterface, element_at, find_element, held_at, host_info, interface_at,
    layout_at, value_at,
};
use hidstack_session::{ControlId, HidElement};
use std::alloc::Global;

/// What is known of the device.
#[unsafe(no_mangle)]
pub extern "C" fn hidstack_host_device(
    alloc: Global,
    handle: &mut HostHandle,
    device: &mut HidHostInfo,
) -> u32
    ensures kept { handle.new.kept ≡ handle.old.kept }
    ensures shown { ShowsHost (λ h. Some (host_info h)) handle.old.kept device.old result device.new }
{
    let Some(host) = handle.take(alloc) else {
        return CLOSED;
    };
    *device = host_info(host.driver());
    *handle = HostHandle::of(host);
    OK
}

/// What is known of the interface at a place.
#[unsafe(no_mangle)]
pub extern "C" fn hidstack_host_interface(
    alloc: Global,
    handle: &mut HostHandle,
    interface: u64,
    info: &mut HidInterface,
) -> u32
    ensures kept { handle.new.kept ≡ handle.old.kept }
    ensures shown { ShowsHost (λ h. interface_at h interface) handle.old.kept info.old result info.new }
{
    let Some(host) = handle.take(alloc) else {
        return CLOSED;
    };
    let shown = interface_at(host.driver(), interface as usize);
    *handle = HostHandle::of(host);
    match shown {
        Some(found) => {
            *info = found;
            OK
        }
        None => NONE,
    }
}

/// The data element at a place of a listed item of an interface.
#[unsafe(no_mangle)]
pub extern "C" fn hidstack_host_element(
    alloc: Global,
    handle: &mut HostHandle,
    interface: u64,
    item: u64,
    index: u64,
    element: &mut HidElement,
) -> u32
    ensures kept { handle.new.kept ≡ handle.old.kept }
    ensures shown { ShowsHost (λ h. element_shown h interface item index) handle.old.kept element.old
        result element.new }
{
    let Some(host) = handle.take(alloc) else {
        return CLOSED;
    };
    let shown = element_at(
        host.driver(),
        interface as usize,
        item as usize,
        index as usize,
    );
    *handle = HostHandle::of(host);
    match shown {
        Some(found) => {
            *element = found;
            OK
        }
        None => NONE,
    }
}

/// The data element of an interface that stands in a report of this kind, has this usage, and comes after this many that do.
#[unsafe(no_mangle)]
pub extern "C" fn hidstack_host_find(
    alloc: Global,
    handle: &mut HostHandle,
    interface: u64,
    kind: u32,
    page: u16,
    id: u16,
    nth: u64,
    element: &mut HidElement,
) -> u32
    ensures kept { handle.new.kept ≡ handle.old.kept }
    ensures shown { ShowsHost (λ h. element_found h interface kind (record { page = page; id = id }) nth)
        handle.old.kept element.old result element.new }
{
    let Some(host) = handle.take(alloc) else {
        return CLOSED;
    };
    let found = find_element(
        host.driver(),
        interface as usize,
        kind,
        Usage { page, id },
        nth,
    );
    *handle = HostHandle::of(host);
    match found {
        Some(shown) => {
            *element = shown;
            OK
        }
        None => NONE,
    }
}

/// Whether a switch or a key of an interface is held: 1, else 0; 0 of another control too, and where there is none.
#[unsafe(no_mangle)]
pub extern "C" fn hidstack_host_held(
    alloc: Global,
    handle: &mut HostHandle,
    interface: u64,
    item: u64,
    index: u64,
    held: &mut u32,
) -> u32
    ensures kept { handle.new.kept ≡ handle.old.kept }
    ensures shown { ShowsHost (λ h. option_map one_of (held_shown h interface item index)) handle.old.kept
        held.old result held.new }
{
    let Some(host) = handle.take(alloc) else {
        return CLOSED;
    };
    let control = ControlId {
        item: item as usize,
        index: index as usize,
    };
    let shown = held_at(host.driver(), interface as usize, control);
    *handle = HostHandle::of(host);
    match shown {
        Some(is_held) => {
            *held = if is_held { 1 } else { 0 };
            OK
        }
        None => NONE,
    }
}

/// The value of an absolute control of an interface.
#[unsafe(no_mangle)]
pub extern "C" fn hidstack_host_value(
    alloc: Global,
    handle: &mut HostHandle,
    interface: u64,
    item: u64,
    index: u64,
    value: &mut i64,
) -> u32
    ensures kept { handle.new.kept ≡ handle.old.kept }
    ensures shown { ShowsHost (λ h. value_shown h interface item index) handle.old.kept value.old result
        value.new }
{
    let Some(host) = handle.take(alloc) else {
        return CLOSED;
    };
    let control = ControlId {
        item: item as usize,
        index: index as usize,
    };
    let shown = value_at(host.driver(), interface as usize, control);
    *handle = HostHandle::of(host);
    match shown {
        Some(number) => {
            *value = number;
            OK
        }
        None => NONE,
    }
}

/// Writes the report of zeros of this kind and ID of an interface over the first bytes of a room, and its length.
fn write_host_blank(
    driver: &Driver,
    place: usize,
    kind: u32,
    id: u8,
    out: &mut [u8],
    length: &mut u64,
) -> u32
    requires { length.old ≡ 0 }
    ensures { HostBlankIsReturned driver.now place kind id out.old result out.new length.new }
{
    match layout_at(driver, place) {
        Some(layout) => write_blank(layout, kind, id, out, length),
        None => NONE,
    }
}

/// Writes a report of zeros of an interface, after its ID where reports have IDs.
#[unsafe(no_mangle)]
pub extern "C" fn hidstack_host_blank(
    alloc: Global,
    handle: &mut HostHandle,
    interface: u64,
    kind: u32,
    id: u8,
    out: &mut [u8],
    length: &mut u64,
) -> u32
    ensures kept { handle.new.kept ≡ handle.old.kept }
    ensures blank { BlanksHost handle.old.kept interface kind id out.old result out.new length.new }
{
    *length = 0;
    let Some(host) = handle.take(alloc) else {
        return CLOSED;
    };
    let status = write_host_blank(host.driver(), interface as usize, kind, id, out, length);
    *handle = HostHandle::of(host);
    status
}
