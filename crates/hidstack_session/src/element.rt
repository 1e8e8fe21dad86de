//! Elements as records, and their numbers in the bytes of a report (HID 1.11, 5.8 and 6.2.2.5).

ghost use Rattle.std.specs.Prelude.{◌≡◌, ◌≤◌, ◌<◌, ◌*◌, length};
ghost use Rattle.hid_report_descriptor.specs.Kinds.{rank};
ghost use Rattle.hid_report_descriptor.specs.Usages.{usage_list};
ghost use Rattle.hid_layout.specs.Reports.{report_id, IsLayout};
ghost use Rattle.hidstack_session.specs.Elements.{usage_number, element_at, kind_at, element_record, one_of, IsFound, HoldsNumber};

use hid_fields::{FieldCodec, MAX_WIDTH, WordCodec, to_value};
use hid_layout::{
    Element, Layout, MAX_ENTRIES, MAX_REAL_REPORT_BYTES, MainItem, ReportKind, Shape, Usage,
    usage_count, usage_of_element,
};
use hid_usages::ReportFault;

/// From the device to the host.
pub const INPUT: u8 = 0;

/// From the host to the device.
pub const OUTPUT: u8 = 1;

/// Settings, either way.
pub const FEATURE: u8 = 2;

/// A data element of a report.
#[repr(C)]
#[derive(Clone, Copy, Debug)]
pub struct HidElement {
    /// Logical Minimum.
    pub min: i64,
    /// Logical Maximum.
    pub max: i64,
    /// The place of its item among the listed items.
    pub item: u64,
    /// Its place in the item.
    pub index: u64,
    /// How many collections are open round it.
    pub collections: u64,
    /// Where it begins in the bytes of its report, in bits; a Report ID is counted.
    pub bit: u32,
    /// In bits, 1 to 32.
    pub width: u32,
    /// How many usages its item lists.
    pub usages: u32,
    /// The page of its usage; 0 of an array.
    pub page: u16,
    /// The ID of that usage; 0 of an array.
    pub id: u16,
    /// The flags of its item, bits 0 to 8 (HID 1.11, 6.2.2.5).
    pub flags: u16,
    /// The kind of its report: [`INPUT`], [`OUTPUT`] or [`FEATURE`].
    pub kind: u8,
    /// The Report ID, with which the bytes of its report begin; 0 where reports have none.
    pub report: u8,
    /// Whether it is read in two's complement: 1, else 0.
    pub is_signed: u8,
    /// Whether its number names one of its item's usages: 1, else 0.
    pub is_array: u8,
    /// 0.
    pub spare: u16,
}

/// 1 or 0.
pub(crate) fn one_of(holds: bool) -> u8
    ensures { result ≡ one_of holds }
{
    if holds { 1 } else { 0 }
}

/// The number of a report kind.
pub(crate) fn kind_number(kind: ReportKind) -> u8
    ensures { result ≡ rank kind }
{
    match kind {
        ReportKind::Input => INPUT,
        ReportKind::Output => OUTPUT,
        ReportKind::Feature => FEATURE,
    }
}

/// The kind and the ID of a report.
fn report_of(layout: &Layout, r: usize) -> (u8, u8)
    ensures kind { result.0 ≡ kind_at layout.now r }
    ensures id { result.1 ≡ report_id layout.now r }
{
    match layout.reports().get(r) {
        Some(report) => (kind_number(report.kind), report.id),
        None => (0, 0),
    }
}

/// The usage of an element of a variable item; page 0 and ID 0 for other items.
fn usage_number(entries: &[(Usage, Usage)], shape: Shape, j: usize) -> Usage
    requires { length entries.now ≤ MAX_ENTRIES }
    ensures { result ≡ usage_number shape (usage_list entries.now) j }
{
    let none = Usage { page: 0, id: 0 };
    match shape {
        Shape::Padding => none,
        Shape::Array => none,
        Shape::Variable => match usage_of_element(entries, j) {
            Some(usage) => usage,
            None => none,
        },
    }
}

/// The record of a data element.
fn element_record(
    layout: &Layout,
    item: usize,
    j: usize,
    main: &MainItem,
    element: &Element,
) -> HidElement
    requires layout { IsLayout layout.now }
    requires listed { item < length layout.now.items }
    requires short { element.now.bit ≤ 8 * MAX_REAL_REPORT_BYTES }
    ensures { result ≡ element_record layout.now item j main.now element.now }
{
    let entries = layout.entries(item);
    let usage = usage_number(entries, main.shape, j);
    let (kind, report) = report_of(layout, main.report);
    let first = if layout.numbered() { 8 } else { 0 };
    HidElement {
        min: element.min,
        max: element.max,
        item: item as u64,
        index: j as u64,
        collections: layout.path(item).len() as u64,
        bit: first + element.bit as u32,
        width: element.width,
        usages: usage_count(entries) as u32,
        page: usage.page,
        id: usage.id,
        flags: main.flags.0,
        kind,
        report,
        is_signed: one_of(element.signed),
        is_array: match main.shape {
            Shape::Array => 1,
            Shape::Padding | Shape::Variable => 0,
        },
        spare: 0,
    }
}

/// The record of the data element at a place of a listed item; none of padding, past the last, and where no item is.
pub fn element_at(layout: &Layout, item: usize, j: usize) -> Option<HidElement>
    ensures { result ≡ element_at layout.now item j }
{
    let Some(main) = layout.items().get(item) else {
        return None;
    };
    match layout.element(item, j) {
        Some(element) => Some(element_record(layout, item, j, main, &element)),
        None => None,
    }
}

/// Whether an element has 1 to 32 bits, which lie in the bytes of its report.
///
/// # Errors
/// [`ReportFault::Short`] where the element doesn't lie in the bytes, or has no width from 1 to 32; then
/// [`ReportFault::UnknownReport`] where the first byte is another Report ID.
pub(crate) fn look_for(element: &HidElement, bytes: &[u8]) -> Result<(), ReportFault>
    ensures { IsFound element.now bytes.now result }
{
    let width = element.width;
    let end = element.bit as usize + width as usize;
    if width == 0 || width > MAX_WIDTH || end.div_ceil(8) > bytes.len() {
        return Err(ReportFault::Short);
    }
    if element.report != 0 && bytes[0] != element.report {
        return Err(ReportFault::UnknownReport);
    }
    Ok(())
}

/// The number of an element in the bytes of a report (HID 1.11, 5.8). Bytes of another Report ID are not its report's,
/// and a field of 0 or over 32 bits lies in no bytes.
///
/// # Errors
/// [`ReportFault::Short`] where the element doesn't lie in the bytes, or has no width from 1 to 32; then
/// [`ReportFault::UnknownReport`] where the first byte is another Report ID.
pub fn number_in(element: &HidElement, bytes: &[u8]) -> Result<i64, ReportFault>
    ensures { HoldsNumber element.now bytes.now result }
{
    look_for(element, bytes)?;
    let pattern = WordCodec::get(bytes, element.bit as usize, element.width);
    Ok(to_value(pattern, element.width, element.is_signed != 0))
}
