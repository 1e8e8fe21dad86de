//! The global items in force.

ghost use Rattle.std.specs.Prelude.{◌≡◌, ◌≢◌, ◌<◌, List, [], ◌∷◌, OnOk, length};
ghost use Rattle.hid_items.specs.ItemEncoding.{prefix_of, data_of, unsigned_of};
ghost use Rattle.hid_items.specs.Reading.{IsShort};
ghost use Rattle.hid_report_descriptor.specs.Items.{EncodedItem, PUSH, POP, REPORT_ID};
ghost use Rattle.std.specs.Bool.{OnTrue, OnFalse};

use crate::prefix;
use hid_items::Item;
use std::alloc::{AllocError, Global};

#[derive(Clone, Copy)]
pub(crate) struct Globals {
    pub(crate) page: u16,
    pub(crate) minimum: i64,
    pub(crate) maximum_signed: i64,
    pub(crate) maximum_unsigned: u32,
    pub(crate) size: u32,
    pub(crate) count: u32,
    pub(crate) id: u8,
}

impl Globals {
    ghost use Rattle.hid_report_descriptor.specs.State.{globals_at, maximum_of};

    /// Before all items every global is 0.
    pub(crate) fn new() -> Globals
        ensures { result ≡ globals_at [] }
    {
        Globals {
            page: 0,
            minimum: 0,
            maximum_signed: 0,
            maximum_unsigned: 0,
            size: 0,
            count: 0,
            id: 0,
        }
    }

    /// The Logical Maximum, read without sign where the minimum isn't negative.
    pub(crate) fn maximum(&self) -> i64
        ensures { result ≡ maximum_of self.now }
    {
        if 0 <= self.minimum {
            self.maximum_unsigned as i64
        } else {
            self.maximum_signed
        }
    }

    /// Takes a short item that is no Push and no Pop. It changes at most the global that the item sets.
    pub(crate) fn set(&mut self, prefix: u8, item: &Item)
        requires short { IsShort item.now }
        requires prefix { prefix ≡ prefix_of item.now.bytes.now }
        requires no_push { prefix ≢ PUSH }
        requires no_pop { prefix ≢ POP }
        requires small_id { prefix ≡ REPORT_ID → unsigned_of (data_of item.now.bytes.now) < 256 }
        ensures { (before : List EncodedItem) → self.old ≡ globals_at before
            → self.new ≡ globals_at (item.now.bytes.now ∷ before) }
    {
        match prefix {
            prefix::USAGE_PAGE => self.page = (item.unsigned() % 0x1_0000) as u16,
            prefix::LOGICAL_MINIMUM => self.minimum = item.signed(),
            prefix::LOGICAL_MAXIMUM => {
                self.maximum_signed = item.signed();
                self.maximum_unsigned = item.unsigned() as u32;
            }
            prefix::REPORT_SIZE => self.size = item.unsigned() as u32,
            prefix::REPORT_ID => self.id = item.unsigned() as u8,
            prefix::REPORT_COUNT => self.count = item.unsigned() as u32,
            _ => {}
        }
    }
}

/// The globals in force, and those that open Pushes saved.
#[derive(Drop)]
pub(crate) struct SavedGlobals {
    pub(crate) now: Globals,
    pub(crate) saved: Vec<Globals>,
}

impl SavedGlobals {
    ghost use Rattle.hid_report_descriptor.specs.State.{AreGlobals};
    ghost use Rattle.hid_report_descriptor.specs.Globals.{open_pushes};

    /// The globals before the first item.
    pub(crate) fn new(alloc: Global) -> SavedGlobals
        ensures { AreGlobals [] result }
    {
        SavedGlobals {
            now: Globals::new(),
            saved: Vec::new(alloc),
        }
    }

    /// Takes a Push.
    pub(crate) fn push(&mut self) -> Result<(), AllocError>
        ensures { OnOk result ((before : List EncodedItem) (item : EncodedItem) → prefix_of item ≡ PUSH
            → AreGlobals before self.old → AreGlobals (item ∷ before) self.new) }
    {
        self.saved.push(self.now)?;
        Ok(())
    }

    /// Takes a Pop, and says whether a Push matches it.
    pub(crate) fn pop(&mut self) -> bool
        ensures matched { (before : List EncodedItem) (item : EncodedItem) → prefix_of item ≡ POP
            → AreGlobals before self.old → OnTrue result (AreGlobals (item ∷ before) self.new) }
        ensures alone { (before : List EncodedItem) → AreGlobals before self.old
            → OnFalse result (open_pushes before ≡ []) }
        ensures among { (before : List EncodedItem) → AreGlobals before self.old
            → OnTrue result (0 < length (open_pushes before)) }
    {
        match self.saved.pop() {
            Some(globals) => {
                self.now = globals;
                true
            }
            None => false,
        }
    }
}
