//! The listed fields, with the totals that the limits ask for.

ghost use Rattle.std.specs.Prelude.{◌≡◌, ◌≢◌, ◌≤◌, ◌+◌, ◌*◌, List, [], ◌∷◌, ◌++◌, ◌<◌, ◌==◌, IfOk, OnOk, vec_len, length, map};
ghost use Rattle.std.specs.List.{list_any};
ghost use Rattle.hid_report_descriptor.specs.Totals.{bits_in_report};
ghost use Rattle.hid_report_descriptor.specs.declared.limits.TheConstants.{MAX_ITEMS, MAX_REAL_REPORT_BYTES};
ghost use Rattle.hid_report_descriptor.specs.KeptFields.{whole_field};
ghost use Rattle.hid_report_descriptor.specs.Locals.{entry_on_page};

use crate::collection::Collection;
use crate::fault::Cause;
use crate::field::KeptField;
use crate::item_lists::ItemLists;
use crate::limits::{Limits, MAX_ENTRIES, MAX_ITEMS, MAX_REAL_REPORT_BYTES, MAX_REPORT_IDS};
use crate::locals::NamedUsage;
use crate::totals::{ReportIds, ReportTotals};
use std::alloc::{AllocError, Global};

/// The items for which room is made at first.
const FIRST_ITEMS: usize = 8;

/// The bytes that an Input, Output or Feature item takes in a descriptor that has many, with its usages.
const BYTES_OF_ITEM: usize = 8;

/// The listed fields, in order.
#[derive(Drop)]
pub(crate) struct KeptFields {
    pub(crate) list: Vec<KeptField>,
    pub(crate) lists: ItemLists,
    pub(crate) reports: ReportTotals,
    /// Data fields of all kinds and reports, without padding.
    pub(crate) elements: u32,
    pub(crate) ids: ReportIds,
    ghost bounded: { vec_len list ≤ MAX_ITEMS },
    ghost counted: { elements ≤ 8 * MAX_REAL_REPORT_BYTES * vec_len list },
}

impl KeptFields {
    ghost use Rattle.hid_report_descriptor.specs.FieldList.{AreKept, Keeps};
    ghost use Rattle.hid_report_descriptor.specs.Fields.{Field};
    ghost use Rattle.hid_report_descriptor.specs.Faults.{are_too_many};

    /// No fields, with some room.
    pub(crate) fn new(alloc: Global) -> Result<KeptFields, AllocError>
        ensures { IfOk result (AreKept []) }
    {
        Ok(KeptFields {
            list: Vec::with_capacity(alloc, FIRST_ITEMS)?,
            lists: ItemLists::new(alloc)?,
            reports: ReportTotals::new(alloc)?,
            elements: 0,
            ids: ReportIds::new(alloc),
        })
    }

    /// Reserves room for the fields of a descriptor of this length.
    #[inline(never)]
    pub(crate) fn reserve(&mut self, length: usize) -> Result<(), AllocError>
        ensures { (fs : List Field) → AreKept fs self.old → AreKept fs self.new }
    {
        self.list.reserve(length / BYTES_OF_ITEM)?;
        self.lists.reserve(length / BYTES_OF_ITEM)?;
        Ok(())
    }

    /// Whether some fields have no report ID.
    pub(crate) fn lack_id(&self) -> bool
        ensures { result ≡ list_any (λ field. field.id == 0) self.now.list.items }
    {
        self.list.iter().any(|field| field.id == 0)
    }

    /// Whether the fields are more than the limits allow.
    pub(crate) fn are_too_many(&self, limits: Limits) -> bool
        ensures { (fs : List Field) → AreKept fs self.now → result ≡ are_too_many limits fs }
    {
        self.elements > limits.elements() || self.ids.list.len() > MAX_REPORT_IDS
    }

    /// Lists fields with their usages and collections.
    fn add(
        &mut self,
        field: &KeptField,
        entries: &[(NamedUsage, NamedUsage)],
        page: u16,
        path: &[Collection],
    ) -> Result<(), AllocError>
        requires room { vec_len self.old.list < MAX_ITEMS }
        requires few { length entries.now ≤ MAX_ENTRIES }
        requires some { field.now.size * field.now.count ≢ 0 }
        requires short { field.now.offset + field.now.size * field.now.count
            ≤ 8 * MAX_REAL_REPORT_BYTES }
        requires place { field.now.offset
            ≡ bits_in_report field.now.kind field.now.id self.old.reports.list.items }
        ensures { OnOk result ((fs : List Field) → AreKept fs self.old
            → AreKept (fs ++ whole_field field.now (map (entry_on_page page) entries.now) path.now
            ∷ []) self.new) }
    {
        self.list.push(*field)?;
        self.elements += field.elements();
        self.lists.push(entries, page, path)?;
        self.reports
            .add(field.kind, field.id, field.size * field.count)?;
        // The ID of a report that had bits is there already.
        if field.offset == 0 {
            self.ids.add(field.id)?;
        }
        Ok(())
    }

    /// Lists fields with their usages and collections, unless the fields are too many with them.
    pub(crate) fn keep(
        &mut self,
        limits: Limits,
        field: &KeptField,
        entries: &[(NamedUsage, NamedUsage)],
        page: u16,
        path: &[Collection],
    ) -> Result<(), Cause>
        requires few { length entries.now ≤ MAX_ENTRIES }
        requires some { field.now.size * field.now.count ≢ 0 }
        requires short { field.now.offset + field.now.size * field.now.count
            ≤ 8 * MAX_REAL_REPORT_BYTES }
        requires place { field.now.offset
            ≡ bits_in_report field.now.kind field.now.id self.old.reports.list.items }
        ensures { (fs : List Field) → AreKept fs self.old
            → Keeps limits fs (whole_field field.now (map (entry_on_page page) entries.now) path.now)
            result self.new }
    {
        if self.list.len() >= MAX_ITEMS {
            return Err(Cause::TooMany);
        }
        self.add(field, entries, page, path)?;
        if self.are_too_many(limits) {
            return Err(Cause::TooMany);
        }
        Ok(())
    }
}
