//! Reports, collections and usages as records (HID 1.11, 5.6, 6.2.2.6 and 6.2.2.8).

ghost use Rattle.std.specs.Prelude.{◌≡◌};
ghost use Rattle.hidstack_session.specs.Records.{report_at, collection_at, collection_record, usage_record_at};

use crate::element::{kind_number, one_of};
use hid_layout::{Collection, Layout, Usage};

/// A report that has at least one bit.
#[repr(C)]
#[derive(Clone, Copy, Debug)]
pub struct HidReport {
    /// Its bytes, with a Report ID.
    pub bytes: u64,
    /// The bits of its items, without those of a Report ID.
    pub bits: u32,
    /// [`crate::INPUT`], [`crate::OUTPUT`] or [`crate::FEATURE`].
    pub kind: u8,
    /// The Report ID, with which its bytes begin; 0 where reports have none.
    pub id: u8,
    /// 0.
    pub spare: u16,
}

/// A collection that is open round an item.
#[repr(C)]
#[derive(Clone, Copy, Debug)]
pub struct HidCollection {
    /// 0 Physical, 1 Application, 2 Logical, 3 Report, 4 Named Array, 5 Usage Switch, 6 Usage Modifier; other numbers
    /// as they stand.
    pub kind: u8,
    /// Whether it has a usage: 1, else 0.
    pub has_usage: u8,
    /// The page of its usage, else 0.
    pub page: u16,
    /// The ID of its usage, else 0.
    pub id: u16,
}

/// A usage.
#[repr(C)]
#[derive(Clone, Copy, Debug)]
pub struct HidUsage {
    pub page: u16,
    pub id: u16,
}

/// The record of the report at a place; none past the last.
pub fn report_at(layout: &Layout, r: usize) -> Option<HidReport>
    ensures { result ≡ report_at layout.now r }
{
    if r >= layout.reports().len() {
        return None;
    }
    let report = &layout.reports()[r];
    Some(HidReport {
        bytes: layout.report_bytes(r) as u64,
        bits: report.bits,
        kind: kind_number(report.kind),
        id: report.id,
        spare: 0,
    })
}

/// The record of a collection.
fn collection_record(collection: &Collection) -> HidCollection
    ensures { result ≡ collection_record collection.now }
{
    let usage = match collection.usage {
        Some(usage) => usage,
        None => Usage { page: 0, id: 0 },
    };
    HidCollection {
        kind: collection.kind,
        has_usage: one_of(collection.usage.is_some()),
        page: usage.page,
        id: usage.id,
    }
}

/// The record of a collection that is open round a listed item, from 0 for the outermost one; none past the innermost,
/// and where no item is.
pub fn collection_at(layout: &Layout, item: usize, level: usize) -> Option<HidCollection>
    ensures { result ≡ collection_at layout.now item level }
{
    if item >= layout.items().len() {
        return None;
    }
    match layout.path(item).get(level) {
        Some(collection) => Some(collection_record(collection)),
        None => None,
    }
}

/// The record of the usage at a place of a listed item's usage list; none past the last, and where no item is.
pub fn usage_at(layout: &Layout, item: usize, index: usize) -> Option<HidUsage>
    ensures { result ≡ usage_record_at layout.now item index }
{
    if item >= layout.items().len() {
        return None;
    }
    match layout.usage(item, index) {
        Some(usage) => Some(HidUsage {
            page: usage.page,
            id: usage.id,
        }),
        None => None,
    }
}
