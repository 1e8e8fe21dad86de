//! What a handle's layout shows: reports, elements, usages and collections.

ghost use Rattle.std.specs.Prelude.{◌≡◌};
ghost use Rattle.hidstack_session.specs.Elements.{element_at};
ghost use Rattle.hidstack_session.specs.Records.{report_at, collection_at, usage_record_at};
ghost use Rattle.hidstack.specs.Accessors.{ShowsLayout};

use crate::handle::Handle;
use crate::status::{CLOSED, NONE, OK};
use hidstack_session::{
    HidCollection, HidElement, HidReport, HidUsage, collection_at, element_at, report_at, usage_at,
};
use std::alloc::Global;

/// The report at a place.
#[unsafe(no_mangle)]
pub extern "C" fn hidstack_report(
    alloc: Global,
    handle: &mut Handle,
    place: u64,
    report: &mut HidReport,
) -> u32
    ensures kept { handle.new.kept ≡ handle.old.kept }
    ensures shown { ShowsLayout (λ layout. report_at layout place) handle.old.kept report.old result
        report.new }
{
    let Some(session) = handle.take(alloc) else {
        return CLOSED;
    };
    let shown = report_at(session.layout(), place as usize);
    *handle = Handle::of(session);
    match shown {
        Some(found) => {
            *report = found;
            OK
        }
        None => NONE,
    }
}

/// The data element at a place of a listed item.
#[unsafe(no_mangle)]
pub extern "C" fn hidstack_element(
    alloc: Global,
    handle: &mut Handle,
    item: u64,
    index: u64,
    element: &mut HidElement,
) -> u32
    ensures kept { handle.new.kept ≡ handle.old.kept }
    ensures shown { ShowsLayout (λ layout. element_at layout item index) handle.old.kept element.old
        result element.new }
{
    let Some(session) = handle.take(alloc) else {
        return CLOSED;
    };
    let shown = element_at(session.layout(), item as usize, index as usize);
    *handle = Handle::of(session);
    match shown {
        Some(found) => {
            *element = found;
            OK
        }
        None => NONE,
    }
}

/// The usage at a place of a listed item's usage list.
#[unsafe(no_mangle)]
pub extern "C" fn hidstack_usage(
    alloc: Global,
    handle: &mut Handle,
    item: u64,
    index: u64,
    usage: &mut HidUsage,
) -> u32
    ensures kept { handle.new.kept ≡ handle.old.kept }
    ensures shown { ShowsLayout
        (λ layout. usage_record_at layout item index) handle.old.kept usage.old
        result usage.new }
{
    let Some(session) = handle.take(alloc) else {
        return CLOSED;
    };
    let shown = usage_at(session.layout(), item as usize, index as usize);
    *handle = Handle::of(session);
    match shown {
        Some(found) => {
            *usage = found;
            OK
        }
        None => NONE,
    }
}

/// A collection that is open round a listed item, from 0 for the outermost one.
#[unsafe(no_mangle)]
pub extern "C" fn hidstack_collection(
    alloc: Global,
    handle: &mut Handle,
    item: u64,
    level: u64,
    collection: &mut HidCollection,
) -> u32
    ensures kept { handle.new.kept ≡ handle.old.kept }
    ensures shown { ShowsLayout (λ layout. collection_at layout item level) handle.old.kept
        collection.old result collection.new }
{
    let Some(session) = handle.take(alloc) else {
        return CLOSED;
    };
    let shown = collection_at(session.layout(), item as usize, level as usize);
    *handle = Handle::of(session);
    match shown {
        Some(found) => {
            *collection = found;
            OK
        }
        None => NONE,
    }
}
