//! The items of a descriptor by their places among the items.

ghost use Rattle.std.specs.Prelude.{◌≡◌, ◌==◌, ◌<◌, ◌^◌, not, length, slice_get, IfOk};
ghost use Rattle.std.specs.List.{list_any};
ghost use Rattle.hid_items.specs.ItemEncoding.{prefix_of};
ghost use Rattle.hid_drawing.specs.Items.{AreItemsOf, item_encoding_at, item_place, is_positive};

use hid_items::{Item, Items};
use std::alloc::{AllocError, Global};

/// The items with which a descriptor begins, up to its end or to where it is cut off.
///
/// # Errors
/// Out of memory.
pub fn read_items(alloc: Global, descriptor: &[u8]) -> Result<Vec<Item<'_>>, AllocError>
    requires { length descriptor.now < 2 ^ 64 }
    ensures { IfOk result (λ items. AreItemsOf descriptor.now items.items) }
{
    let mut items = Vec::new(alloc);
    for item in Items::new(descriptor) {
        match item {
            Ok(item) => items.push(item)?,
            Err(_) => return Ok(items),
        }
    }
    Ok(items)
}

/// The prefix of an item: its first byte without the size.
pub fn prefix_of(encoded: &[u8]) -> u8
    ensures { result ≡ prefix_of encoded.now }
{
    match encoded {
        [] => 0,
        [first, ..] => *first - *first % 4,
    }
}

/// How the item at a place is encoded; no bytes where there is none.
pub fn item_encoding_at<'a>(items: &[Item<'a>], k: usize) -> &'a [u8]
    ensures { result.now ≡ item_encoding_at items.now k }
{
    match items.get(k) {
        None => &[],
        Some(item) => item.bytes,
    }
}

/// The byte of the descriptor at which an item begins.
pub fn place_of(items: &[Item], k: usize) -> usize
    ensures { result ≡ item_place (slice_get items.now k) }
{
    match items.get(k) {
        None => 0,
        Some(item) => item.at,
    }
}

/// Whether some byte isn't 0.
fn is_any_set(bytes: &[u8]) -> bool
    ensures { result ≡ list_any (λ byte. not (byte == 0)) bytes.now }
{
    bytes.iter().any(|byte| *byte != 0)
}

/// Whether some byte of an item's data isn't 0.
pub fn is_positive(encoded: &[u8]) -> bool
    ensures { result ≡ is_positive encoded.now }
{
    match encoded {
        [] => false,
        [_, data @ ..] => is_any_set(data),
    }
}
