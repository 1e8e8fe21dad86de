//! A descriptor's elements with no handle, and an element's number in a report.

ghost use Rattle.std.specs.Prelude.{◌≡◌, IfOk, IfErr};
ghost use Rattle.hid_report_descriptor.specs.Real.{Explains};
ghost use Rattle.hidstack.specs.Tables.{TablesElements, Tabled, Misses, Refuses, TableHasElements, NumberAnswers};

use crate::status::{NO_ROOM, OK, REFUSED, SHORT, UNKNOWN};
use hid_layout::{Layout, Limits};
use hidstack_session::{
    HidElement, LayoutFault, ReportFault, cause_number, list_elements, number_in, put_elements,
};
use std::alloc::Global;

/// What `hidstack_table` writes beside its status.
#[repr(C)]
#[derive(Clone, Copy)]
pub struct HidTabled {
    /// Where the refused item begins, in bytes from the descriptor's first.
    pub at: u64,
    /// How many elements the descriptor has.
    pub elements: u64,
    /// 1 for L1 to 17 for L17; 0 where nothing was refused.
    pub cause: u32,
    /// 0.
    pub spare: u32,
}

/// The elements of a descriptor.
fn read_elements(alloc: Global, descriptor: &[u8]) -> Result<Vec<HidElement>, LayoutFault>
    ensures ok { IfOk result (λ elements. TableHasElements descriptor.now elements.items) }
    ensures err { IfErr result (λ f. Explains descriptor.now f.cause f.at) }
{
    let layout = Layout::parse_within(alloc, Limits::Real, descriptor)?;
    match list_elements(alloc, &layout) {
        Ok(elements) => Ok(elements),
        Err(_) => Err(LayoutFault::memory()),
    }
}

/// Reads a report descriptor, and writes its elements over the first places of the table.
#[unsafe(no_mangle)]
pub extern "C" fn hidstack_table(
    alloc: Global,
    descriptor: &[u8],
    table: &mut [HidElement],
    tabled: &mut HidTabled,
) -> u32
    ensures status { TablesElements result }
    ensures tabled { result ≡ OK → Tabled descriptor.now table.old table.new tabled.new }
    ensures missed { result ≡ NO_ROOM → Misses descriptor.now table.old table.new tabled.new }
    ensures refused { result ≡ REFUSED → Refuses descriptor.now table.old table.new tabled.new }
{
    *tabled = HidTabled {
        at: 0,
        elements: 0,
        cause: 0,
        spare: 0,
    };
    match read_elements(alloc, descriptor) {
        Ok(elements) => {
            tabled.elements = elements.len() as u64;
            if elements.len() > table.len() {
                return NO_ROOM;
            }
            put_elements(&elements, table);
            OK
        }
        Err(fault) => {
            tabled.cause = cause_number(fault.cause);
            tabled.at = fault.at as u64;
            REFUSED
        }
    }
}

/// The number of an element in the bytes of a report.
#[unsafe(no_mangle)]
pub extern "C" fn hidstack_number(element: &HidElement, report: &[u8], value: &mut i64) -> u32
    ensures { NumberAnswers element.now report.now value.old result value.new }
{
    match number_in(element, report) {
        Ok(number) => {
            *value = number;
            OK
        }
        Err(ReportFault::Short) => SHORT,
        Err(ReportFault::UnknownReport) => UNKNOWN,
    }
}
