//! The collections that are open.

ghost use Rattle.std.specs.Prelude.{◌≡◌, ◌<◌, List, [], ◌∷◌, map, slice_get, length};
ghost use Rattle.std.specs.Bool.{OnTrue, OnFalse};
ghost use Rattle.hid_items.specs.ItemEncoding.{prefix_of};
ghost use Rattle.hid_items.specs.Reading.{IsShort};
ghost use Rattle.hid_report_descriptor.specs.Items.{EncodedItem, COLLECTION, END_COLLECTION};
ghost use Rattle.hid_report_descriptor.specs.Usages.{usage_list, entries};
ghost use Rattle.hid_report_descriptor.specs.Path.{path};
ghost use Rattle.hid_report_descriptor.specs.Locals.{entry_on_page};

use crate::collection::Collection;
use crate::limits::MAX_OPEN_COLLECTIONS;
use crate::locals::NamedUsage;
use crate::usage::Usage;
use arrayvec::ArrayVec;
use hid_items::Item;

/// The first usage of the entries written out, with this page in force.
fn first_usage(entries: &[(NamedUsage, NamedUsage)], page: u16) -> Option<Usage>
    ensures { result ≡ slice_get (usage_list (map (entry_on_page page) entries.now)) 0 }
{
    for e in entries {
        if e.0.id <= e.1.id {
            return Some(e.0.on_page(page));
        }
    }
    None
}

#[derive(Drop)]
pub(crate) struct OpenCollections {
    pub(crate) open: ArrayVec<Collection, MAX_OPEN_COLLECTIONS>,
}

impl OpenCollections {
    /// No open collection.
    pub(crate) fn new() -> OpenCollections
        ensures { result.open.items ≡ path [] }
    {
        OpenCollections {
            open: ArrayVec::new(),
        }
    }

    /// Takes a Collection with its usages, and with the page in force.
    pub(crate) fn begin(&mut self, item: &Item, usages: &[(NamedUsage, NamedUsage)], page: u16)
        requires short { IsShort item.now }
        requires room { length self.old.open.items < MAX_OPEN_COLLECTIONS }
        ensures { (before : List EncodedItem) → prefix_of item.now.bytes.now ≡ COLLECTION
            → map (entry_on_page page) usages.now ≡ entries before
            → self.old.open.items ≡ path before
            → self.new.open.items ≡ path (item.now.bytes.now ∷ before) }
    {
        let collection = Collection {
            kind: (item.unsigned() % 0x100) as u8,
            usage: first_usage(usages, page),
        };
        self.open.push(collection);
    }

    /// Takes an End Collection, and says whether a Collection matches it.
    pub(crate) fn end(&mut self) -> bool
        ensures matched { (before : List EncodedItem) (item : EncodedItem) → prefix_of item ≡ END_COLLECTION
            → self.old.open.items ≡ path before
            → OnTrue result (self.new.open.items ≡ path (item ∷ before)) }
        ensures alone { OnFalse result (self.old.open.items ≡ []) }
        ensures among { OnTrue result (0 < length self.old.open.items) }
    {
        match self.open.pop() {
            Some(_) => true,
            None => false,
        }
    }
}
