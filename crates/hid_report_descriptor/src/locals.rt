//! The usages after the last main item.

ghost use Rattle.std.specs.Prelude.{◌≡◌, List, [], ◌∷◌, ◌++◌, true, false, OnOk, IfOk, slice_get, length, ◌==◌};
ghost use Rattle.std.specs.Option.{option_map};
ghost use Rattle.hid_items.specs.ItemEncoding.{prefix_of};
ghost use Rattle.hid_items.specs.Reading.{IsShort};
ghost use Rattle.hid_report_descriptor.specs.Items.{EncodedItem, is_main};
ghost use Rattle.hid_report_descriptor.specs.Usages.{to_list};
ghost use Rattle.hid_report_descriptor.specs.Locals.{entry_on_page};

use crate::prefix;
use crate::range_ends::RangeEnds;
use crate::usage::Usage;
use hid_items::Item;
use std::alloc::{AllocError, Global};

/// The entries for which room is made at first.
const FIRST_ENTRIES: usize = 8;

/// A usage as an item names it: with a page of its own, or to be put on the Usage Page in force.
#[derive(Clone, Copy)]
pub(crate) struct NamedUsage {
    pub(crate) page: Option<u16>,
    pub(crate) id: u16,
}

impl NamedUsage {
    ghost use Rattle.hid_report_descriptor.specs.Locals.{named_usage, on_page};

    /// The usage that an item names: with a page if it has 4 bytes of data.
    pub(crate) fn of(item: &Item) -> NamedUsage
        requires { IsShort item.now }
        ensures { result ≡ named_usage item.now.bytes.now }
    {
        let n = item.unsigned();
        if item.bytes.len() == 5 {
            NamedUsage {
                page: Some((n / 0x1_0000) as u16),
                id: (n % 0x1_0000) as u16,
            }
        } else {
            NamedUsage {
                page: None,
                id: n as u16,
            }
        }
    }

    /// The usage, on this page if it names none.
    pub(crate) fn on_page(self, page: u16) -> Usage
        ensures { result ≡ on_page page self }
    {
        Usage {
            page: self.page.unwrap_or(page),
            id: self.id,
        }
    }
}

/// The usages of an entry, on this page if they name none.
pub(crate) fn entry_on_page(entry: &(NamedUsage, NamedUsage), page: u16) -> (Usage, Usage)
    ensures { result ≡ entry_on_page page entry.now }
{
    (entry.0.on_page(page), entry.1.on_page(page))
}

/// The local items that count, since the last main item.
#[derive(Drop)]
pub(crate) struct Locals {
    /// The ranges from a first to a last usage.
    pub(crate) entries: Vec<(NamedUsage, NamedUsage)>,
    pub(crate) minima: RangeEnds,
    pub(crate) maxima: RangeEnds,
}

impl Locals {
    ghost use Rattle.hid_report_descriptor.specs.Locals.{AreLocals, AddsLocal, named_usage};

    /// The locals before the first item.
    pub(crate) fn new(alloc: Global) -> Result<Locals, AllocError>
        ensures { IfOk result (AreLocals []) }
    {
        Ok(Locals {
            entries: Vec::with_capacity(alloc, FIRST_ENTRIES)?,
            minima: RangeEnds::new(alloc),
            maxima: RangeEnds::new(alloc),
        })
    }

    /// Whether each Usage Minimum has its Usage Maximum.
    pub(crate) fn are_paired(&self) -> bool
        ensures { result ≡ (length self.now.minima == length self.now.maxima) }
    {
        self.minima.len() == self.maxima.len()
    }

    /// Adds a Usage Minimum; with its Maximum, if that came already, it is an entry.
    fn add_minimum(&mut self, low: NamedUsage) -> Result<(), AllocError>
        ensures minima { OnOk result (self.new.minima ≡ self.old.minima ++ low ∷ []) }
        ensures maxima { self.new.maxima ≡ self.old.maxima }
        ensures entries { OnOk result (self.new.entries.items
            ≡ self.old.entries.items
            ++ to_list (option_map (λ high. (low, high))
            (slice_get self.old.maxima (length self.old.minima)))) }
    {
        if let Some(high) = self.maxima.get(self.minima.len()) {
            self.entries.push((low, high))?;
        }
        self.minima.push(low)?;
        Ok(())
    }

    /// Adds a Usage Maximum; with its Minimum, if that came already, it is an entry.
    fn add_maximum(&mut self, high: NamedUsage) -> Result<(), AllocError>
        ensures maxima { OnOk result (self.new.maxima ≡ self.old.maxima ++ high ∷ []) }
        ensures minima { self.new.minima ≡ self.old.minima }
        ensures entries { OnOk result (self.new.entries.items
            ≡ self.old.entries.items
            ++ to_list (option_map (λ low. (low, high))
            (slice_get self.old.minima (length self.old.maxima)))) }
    {
        if let Some(low) = self.minima.get(self.maxima.len()) {
            self.entries.push((low, high))?;
        }
        self.maxima.push(high)?;
        Ok(())
    }

    /// Adds the usage that a local item names; another item has none that is read.
    fn add(&mut self, prefix: u8, item: &Item) -> Result<(), AllocError>
        requires { IsShort item.now }
        ensures { OnOk result
            (AddsLocal prefix (named_usage item.now.bytes.now) self.old self.new) }
    {
        match prefix {
            prefix::USAGE => {
                let usage = NamedUsage::of(item);
                self.entries.push((usage, usage))?;
                Ok(())
            }
            prefix::USAGE_MINIMUM => self.add_minimum(NamedUsage::of(item)),
            prefix::USAGE_MAXIMUM => self.add_maximum(NamedUsage::of(item)),
            _ => Ok(()),
        }
    }

    /// Takes an item that is no main item.
    pub(crate) fn take(&mut self, prefix: u8, item: &Item) -> Result<(), AllocError>
        requires short { IsShort item.now }
        requires prefix { prefix ≡ prefix_of item.now.bytes.now }
        ensures { OnOk result ((before : List EncodedItem) → is_main item.now.bytes.now ≡ false
            → AreLocals before self.old → AreLocals (item.now.bytes.now ∷ before) self.new) }
    {
        self.add(prefix, item)
    }

    /// Ends the locals, at a main item.
    pub(crate) fn clear(&mut self)
        ensures { (before : List EncodedItem) (item : EncodedItem) → is_main item ≡ true
            → AreLocals (item ∷ before) self.new }
    {
        self.entries.clear();
        self.minima.clear();
        self.maxima.clear();
    }
}
