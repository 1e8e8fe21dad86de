//! The items of a descriptor, one after another.

use crate::encoding::{Item, encoding_length, kind_of};
use crate::fault::ItemFault;

/// The items of a descriptor that have yet to come. After a fault no item comes.
#[derive(Clone, Drop)]
pub struct Items<'a> {
    at: usize,
    rest: &'a [u8],
}

impl<'a> Items<'a> {
    ghost use Rattle.hid_items.specs.Reading.{StartsAt};

    /// The items of this report descriptor, the first of them at place 0 (HID 1.11, 6.2.2).
    pub fn new(descriptor: &'a [u8]) -> Items<'a>
        ensures { StartsAt result 0 descriptor.now }
    {
        Items {
            at: 0,
            rest: descriptor,
        }
    }
}

impl<'a> Iterator for Items<'a> {
    ghost use Rattle.std.specs.Prelude.{◌+◌, ◌<◌, ◌^◌, length};
    ghost use Rattle.std.specs.Iterator.{at_most};
    ghost use Rattle.hid_items.specs.Reading.{GivesNext, place, remaining_bytes};

    type Item = Result<Item<'a>, ItemFault>;

    ghost next_gives = { GivesNext };

    ghost remaining = { λ items. at_most (length (remaining_bytes items)) };

    ghost can_next = { λ items. place items + length (remaining_bytes items) < 2 ^ 64 };

    fn next(&mut self) -> Option<Result<Item<'a>, ItemFault>> {
        if self.rest.is_empty() {
            return None;
        }
        let at = self.at;
        let Some(length) = encoding_length(self.rest) else {
            self.rest = &self.rest[..0];
            return Some(Err(ItemFault::Truncated { at }));
        };
        let (bytes, rest) = self.rest.split_at(length);
        self.rest = rest;
        self.at += length;
        let kind = kind_of(bytes);
        Some(Ok(Item { at, kind, bytes }))
    }
}
