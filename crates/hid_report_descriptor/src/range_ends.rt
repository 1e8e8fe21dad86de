//! The usages of Usage Minimums, or of Usage Maximums, which end ranges (HID 1.11, 6.2.2.8).

ghost use Rattle.std.specs.Prelude.{◌≡◌, [], ◌∷◌, ◌++◌, length, slice_get, OnOk};

use crate::locals::NamedUsage;
use std::alloc::{AllocError, Global};
use std::marker::Model;

/// Some ends of ranges, in order. The first takes no memory, since most items have one range.
#[derive(Drop)]
pub(crate) struct RangeEnds {
    first: Option<NamedUsage>,
    further: Vec<NamedUsage>,
}

impl Model for RangeEnds {
    ghost use Rattle.std.specs.Prelude.{◌≡◌, List, [], ◌++◌, None};
    ghost use Rattle.hid_report_descriptor.specs.Usages.{to_list};
    ghost use Rattle.hid_report_descriptor.specs.declared.locals.NamedUsage.{NamedUsage};

    ghost Value = { List NamedUsage };

    ghost view = { λ e. to_list e.first ++ e.further.items };

    ghost invariant = { λ e. e.first ≡ None → e.further.items ≡ [] };
}

impl RangeEnds {
    /// No range end.
    pub(crate) fn new(alloc: Global) -> RangeEnds
        ensures { result ≡ [] }
    {
        RangeEnds {
            first: None,
            further: Vec::new(alloc),
        }
    }

    /// How many range ends there are.
    pub(crate) fn len(&self) -> usize
        ensures { result ≡ length self.now }
    {
        match self.first {
            Some(_) => self.further.len() + 1,
            None => 0,
        }
    }

    /// The range end at an index.
    pub(crate) fn get(&self, n: usize) -> Option<NamedUsage>
        ensures { result ≡ slice_get self.now n }
    {
        if n == 0 {
            self.first
        } else {
            self.further.get(n - 1).copied()
        }
    }

    /// Appends a range end.
    pub(crate) fn push(&mut self, usage: NamedUsage) -> Result<(), AllocError>
        ensures { OnOk result (self.new ≡ self.old ++ usage ∷ []) }
    {
        match self.first {
            Some(_) => {
                self.further.push(usage)?;
            }
            None => self.first = Some(usage),
        }
        Ok(())
    }

    /// Removes all range ends.
    pub(crate) fn clear(&mut self)
        ensures { self.new ≡ [] }
    {
        self.first = None;
        self.further.clear();
    }
}
