//! Reports written: a report of zeros, and an element's number in a report; and the boot descriptors.

ghost use Rattle.std.specs.Prelude.{◌≡◌};
ghost use Rattle.hidstack.specs.Writing.{BlankIsReturned, BlanksHandle, BootIsReturned, PutAnswers};

use crate::handle::Handle;
use crate::names::{put_text, write_text};
use crate::status::{CLOSED, NO_ROOM, NONE, OK, RANGE, SHORT, UNKNOWN};
use hid_layout::Layout;
use hid_layout::boot::{KEYBOARD, MOUSE};
use hidstack_session::{
    HidElement, PutFault, ReportFault, put_blank_report, put_number, report_with,
};
use std::alloc::Global;

/// A boot keyboard: its bInterfaceProtocol (HID 1.11, 4.3).
pub const BOOT_KEYBOARD: u32 = 1;

/// A boot mouse: its bInterfaceProtocol.
pub const BOOT_MOUSE: u32 = 2;

/// Makes this the number of an element in the bytes of a report.
#[unsafe(no_mangle)]
pub extern "C" fn hidstack_put(element: &HidElement, report: &mut [u8], value: i64) -> u32
    ensures { PutAnswers element.now value report.old result report.new }
{
    match put_number(element, report, value) {
        Ok(()) => OK,
        Err(PutFault::Refused(ReportFault::Short)) => SHORT,
        Err(PutFault::Refused(ReportFault::UnknownReport)) => UNKNOWN,
        Err(PutFault::OutOfRange) => RANGE,
    }
}

/// Writes the report of zeros of this kind and ID over the first bytes of a room, and its length.
pub(crate) fn write_blank(
    layout: &Layout,
    kind: u32,
    id: u8,
    out: &mut [u8],
    length: &mut u64,
) -> u32
    requires { length.old ≡ 0 }
    ensures { BlankIsReturned layout.now kind id out.old result out.new length.new }
{
    let Some(report) = report_with(layout, kind, id) else {
        return NONE;
    };
    let count = layout.report_bytes(report);
    *length = count as u64;
    if count > out.len() {
        return NO_ROOM;
    }
    put_blank_report(layout, report, out);
    OK
}

/// Writes a report of zeros, after its ID where reports have IDs.
#[unsafe(no_mangle)]
pub extern "C" fn hidstack_blank(
    alloc: Global,
    handle: &mut Handle,
    kind: u32,
    id: u8,
    out: &mut [u8],
    length: &mut u64,
) -> u32
    ensures kept { handle.new.kept ≡ handle.old.kept }
    ensures blank { BlanksHandle handle.old.kept kind id out.old result out.new length.new }
{
    *length = 0;
    let Some(session) = handle.take(alloc) else {
        return CLOSED;
    };
    let status = write_blank(session.layout(), kind, id, out, length);
    *handle = Handle::of(session);
    status
}

/// Writes the report descriptor of a boot keyboard or a boot mouse (HID 1.11, E.6 and E.10), by its bInterfaceProtocol.
#[unsafe(no_mangle)]
pub extern "C" fn hidstack_boot_descriptor(protocol: u32, out: &mut [u8], length: &mut u64) -> u32
    ensures { BootIsReturned protocol out.old result out.new length.new }
{
    *length = 0;
    match protocol {
        BOOT_KEYBOARD => write_text(&KEYBOARD, out, length),
        BOOT_MOUSE => write_text(&MOUSE, out, length),
        _ => NONE,
    }
}
