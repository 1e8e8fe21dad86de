//! Which items made the fields of a main item: those that are in force at it. Items are known by their places among the
//! items.

ghost use Rattle.std.specs.Prelude.{◌≡◌, ◌==◌, ◌&&◌, ◌+◌, ◌-◌, ◌<◌, ◌≤◌, ◌^◌, length, IfOk};
ghost use Rattle.hid_report_descriptor.specs.Items.{is, is_main, is_field, PUSH, POP, COLLECTION, END_COLLECTION};
ghost use Rattle.hid_report_descriptor.specs.Matching.{waiting_after};
ghost use Rattle.hid_drawing.specs.Origins.{is_global, is_local, global_place, locals_start, closing_place, lies_in, is_at, origins_in_force, is_origin, is_positive_at, is_listed, listed_places};

use crate::items::{is_positive, item_encoding_at, prefix_of};
use hid_items::Item;
use hid_report_descriptor::prefix;
use std::alloc::{AllocError, Global};

/// Whether the prefix is that of a Local item.
fn is_local(prefix: u8) -> bool
    ensures { result ≡ is_local prefix }
{
    prefix / 4 % 4 == 2
}

/// Whether an item is an Input, Output or Feature item.
pub fn is_field(encoded: &[u8]) -> bool
    ensures { result ≡ is_field encoded.now }
{
    matches!(
        prefix_of(encoded),
        prefix::INPUT | prefix::OUTPUT | prefix::FEATURE
    )
}

/// Whether an item is one of the five main items.
pub fn is_main(encoded: &[u8]) -> bool
    ensures { result ≡ is_main encoded.now }
{
    is_field(encoded)
        || matches!(
            prefix_of(encoded),
            prefix::COLLECTION | prefix::END_COLLECTION
        )
}

/// Going over an item: how many closing items wait for their opening one.
fn waiting_after(opening: u8, closing: u8, waiting: usize, encoded: &[u8]) -> usize
    requires { waiting < 2 ^ 64 - 1 }
    ensures value { result ≡ waiting_after opening closing waiting encoded.now }
    ensures bound { result ≤ waiting + 1 }
{
    let prefix = prefix_of(encoded);
    if prefix == closing {
        waiting + 1
    } else if prefix == opening {
        waiting.saturating_sub(1)
    } else {
        waiting
    }
}

/// Going back over an item: how many Pops wait for the Push that they match.
fn pops_after(waiting: usize, encoded: &[u8]) -> usize
    requires { waiting < 2 ^ 64 - 1 }
    ensures value { result ≡ waiting_after PUSH POP waiting encoded.now }
    ensures bound { result ≤ waiting + 1 }
{
    waiting_after(prefix::PUSH, prefix::POP, waiting, encoded)
}

/// How many collections are open after an item.
pub fn collections_after(count: usize, encoded: &[u8]) -> usize
    requires { count < 2 ^ 64 - 1 }
    ensures value { result ≡ waiting_after END_COLLECTION COLLECTION count encoded.now }
    ensures bound { result ≤ count + 1 }
{
    waiting_after(prefix::END_COLLECTION, prefix::COLLECTION, count, encoded)
}

/// Whether an item is an End Collection.
pub fn ends_collection(encoded: &[u8]) -> bool
    ensures { result ≡ is END_COLLECTION encoded.now }
{
    prefix_of(encoded) == prefix::END_COLLECTION
}

/// Whether an item has the prefix, where nothing waits.
fn is_sought(prefix: u8, waiting: usize, encoded: &[u8]) -> bool
    ensures { result ≡ (waiting == 0) && is prefix encoded.now }
{
    waiting == 0 && prefix_of(encoded) == prefix
}

/// The place of the item that sets a global in force at the place m.
pub fn global_place(items: &[Item], m: usize, prefix: u8) -> Option<usize>
    ensures { result ≡ global_place items.now m prefix }
{
    let mut waiting = 0;
    for back in 0..m {
        let k = m - 1 - back;
        let encoded = item_encoding_at(items, k);
        if is_sought(prefix, waiting, encoded) {
            return Some(k);
        }
        waiting = pops_after(waiting, encoded);
    }
    None
}

/// The number of items before the locals of the place m.
fn locals_start(items: &[Item], m: usize) -> usize
    ensures { result ≡ locals_start items.now m }
{
    for back in 0..m {
        let k = m - 1 - back;
        if is_main(item_encoding_at(items, k)) {
            return k + 1;
        }
    }
    0
}

/// Where the collection ends whose items are the rest, the first of them at a place.
fn closing_place(rest: &[Item], place: usize) -> usize
    requires { place + length rest.now < 2 ^ 64 }
    ensures { result ≡ closing_place 0 place rest.now }
{
    let mut waiting = 0;
    let mut at = place;
    for item in rest {
        if is_sought(prefix::END_COLLECTION, waiting, item.bytes) {
            return at;
        }
        waiting = collections_after(waiting, item.bytes);
        at += 1;
    }
    at
}

/// Whether the place m lies in the collection that the item c opens.
pub fn lies_in(items: &[Item], c: usize, m: usize) -> bool
    ensures { result ≡ lies_in items.now c m }
{
    prefix_of(item_encoding_at(items, c)) == prefix::COLLECTION
        && c < items.len()
        && c < m
        && m < closing_place(&items[c + 1..], c + 1)
}

/// Whether the place is this one; false for none.
fn is_at(place: Option<usize>, k: usize) -> bool
    ensures { result ≡ is_at place k }
{
    match place {
        None => false,
        Some(found) => found == k,
    }
}

/// What is in force at a main item: the places of the items that set its globals, and after how many items its locals
/// begin.
#[derive(Clone, Copy)]
pub struct InForce {
    pub page: Option<usize>,
    pub min: Option<usize>,
    pub max: Option<usize>,
    pub size: Option<usize>,
    pub id: Option<usize>,
    pub count: Option<usize>,
    pub locals: usize,
}

/// What is in force at the main item m.
pub fn origins_in_force(items: &[Item], m: usize) -> InForce
    ensures { result ≡ origins_in_force items.now m }
{
    InForce {
        page: global_place(items, m, prefix::USAGE_PAGE),
        min: global_place(items, m, prefix::LOGICAL_MINIMUM),
        max: global_place(items, m, prefix::LOGICAL_MAXIMUM),
        size: global_place(items, m, prefix::REPORT_SIZE),
        id: global_place(items, m, prefix::REPORT_ID),
        count: global_place(items, m, prefix::REPORT_COUNT),
        locals: locals_start(items, m),
    }
}

/// Whether the item k has the prefix of a global, and sets it in force at the main item m.
fn is_in_force(items: &[Item], found: &InForce, m: usize, prefix: u8, k: usize) -> bool
    requires { found.now ≡ origins_in_force items.now m }
    ensures { result ≡ is_global prefix && is_at (global_place items.now m prefix) k }
{
    match prefix {
        prefix::USAGE_PAGE => is_at(found.page, k),
        prefix::LOGICAL_MINIMUM => is_at(found.min, k),
        prefix::LOGICAL_MAXIMUM => is_at(found.max, k),
        prefix::REPORT_SIZE => is_at(found.size, k),
        prefix::REPORT_ID => is_at(found.id, k),
        prefix::REPORT_COUNT => is_at(found.count, k),
        _ => false,
    }
}

/// Whether the item k made fields of the main item m, by what is in force there.
pub fn is_origin(items: &[Item], found: &InForce, m: usize, k: usize) -> bool
    requires { found.now ≡ origins_in_force items.now m }
    ensures { result ≡ is_origin items.now m k }
{
    let prefix = prefix_of(item_encoding_at(items, k));
    k == m
        || is_in_force(items, found, m, prefix, k)
        || (is_local(prefix) && (found.locals <= k && k < m))
        || lies_in(items, k, m)
}

/// Whether some byte of the data of the item at the place isn't 0; false for no place.
fn is_positive_at(items: &[Item], place: Option<usize>) -> bool
    ensures { result ≡ is_positive_at items.now place }
{
    match place {
        None => false,
        Some(k) => is_positive(item_encoding_at(items, k)),
    }
}

/// Whether an item is an Input, Output or Feature item with bits.
fn is_listed(items: &[Item], m: usize) -> bool
    ensures { result ≡ is_listed items.now m }
{
    is_field(item_encoding_at(items, m))
        && is_positive_at(items, global_place(items, m, prefix::REPORT_SIZE))
        && is_positive_at(items, global_place(items, m, prefix::REPORT_COUNT))
}

/// The places of the items that have bits.
///
/// # Errors
/// Out of memory.
pub fn listed_places(alloc: Global, items: &[Item]) -> Result<Vec<usize>, AllocError>
    ensures { IfOk result (λ places. places.items ≡ listed_places items.now (length items.now)) }
{
    let mut places = Vec::new(alloc);
    for m in 0..items.len() {
        if is_listed(items, m) {
            places.push(m)?;
        }
    }
    Ok(places)
}
