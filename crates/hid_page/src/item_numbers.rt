//! The numbers of items.

ghost use Rattle.std.specs.Prelude.{◌≡◌, ◌<◌, ◌^◌, All, length, slice_get, Some};
ghost use Rattle.hid_drawing.specs.Items.{IsWholeItem};
ghost use Rattle.hid_page.specs.ItemNumbers.{item_number, signed_number, exponent_of, item_number_at, signed_number_at, exponent_at};

use hid_drawing::prefix_of;
use hid_items::Item;

/// The prefix of long items, and of a reserved short one.
pub const LONG: u8 = 0xFC;

/// An item that is encoded whole.
pub fn whole_at<'a, 'b>(items: &'a [Item<'b>], k: usize) -> &'a Item<'b>
    requires there { k < length items.now }
    requires whole { All IsWholeItem items.now }
    ensures at { slice_get items.now k ≡ Some result.now }
    ensures whole { IsWholeItem result.now }
{
    &items[k]
}

/// The number of a short item; 0 of a long one.
pub fn number_of(item: &Item) -> u64
    requires { IsWholeItem item.now }
    ensures value { result ≡ item_number item.now.bytes.now }
    ensures small { result < 2 ^ 32 }
{
    if prefix_of(item.bytes) == LONG {
        return 0;
    }
    item.unsigned()
}

/// The number of a short item in two's complement; 0 of a long one.
pub fn signed_number(item: &Item) -> i64
    requires { IsWholeItem item.now }
    ensures { result ≡ signed_number item.now.bytes.now }
{
    if prefix_of(item.bytes) == LONG {
        return 0;
    }
    item.signed()
}

/// An exponent: codes of four bits from 8 on are -8 to -1 (HID 1.11, 6.2.2.7).
pub fn exponent_of(code: u64, number: i64) -> i64
    ensures { result ≡ exponent_of code number }
{
    if 8 <= code && code <= 15 {
        code as i64 - 16
    } else {
        number
    }
}

/// The number of the item at an optional place; 0 where there is none.
pub fn number_at(items: &[Item], place: Option<usize>) -> u64
    requires { All IsWholeItem items.now }
    ensures { result ≡ item_number_at items.now place }
{
    match place {
        None => 0,
        Some(k) => {
            if k >= items.len() {
                return 0;
            }
            number_of(whole_at(items, k))
        }
    }
}

/// The number of the item at an optional place in two's complement; 0 where there is none.
pub fn signed_number_at(items: &[Item], place: Option<usize>) -> i64
    requires { All IsWholeItem items.now }
    ensures { result ≡ signed_number_at items.now place }
{
    match place {
        None => 0,
        Some(k) => {
            if k >= items.len() {
                return 0;
            }
            signed_number(whole_at(items, k))
        }
    }
}

/// The exponent of the item at an optional place; 0 where there is none.
pub fn exponent_at(items: &[Item], place: Option<usize>) -> i64
    requires { All IsWholeItem items.now }
    ensures { result ≡ exponent_at items.now place }
{
    exponent_of(number_at(items, place), signed_number_at(items, place))
}
