//! Layouts, and how they are read.

ghost use Rattle.std.specs.Prelude.{◌≡◌, ◌^◌, true, false, ◌<◌, ◌≤◌, ℕ, List, length, map, slice_get, IfOk, IfErr, Some};
ghost use Rattle.hid_report_descriptor.specs.Items.{EncodedItem};
ghost use Rattle.hid_report_descriptor.specs.Listing.{ListsFields};
ghost use Rattle.hid_layout.specs.Reports.{report_bytes, usage_of, element_of, IsLayout};
ghost use Rattle.hid_report_descriptor.specs.Usages.{Entry, usage_list, starts_of};
ghost use Rattle.hid_report_descriptor.specs.Fields.{is_padding};
ghost use Rattle.hid_layout.specs.Codes.{AreCodes};
ghost use Rattle.hid_layout.specs.ArrayCodes.{plan_of};
ghost use Rattle.hid_report_descriptor.specs.Bus.{Accepts, Explains};
ghost use Rattle.hid_report_descriptor.specs.Totals.{report_place, are_in_order};
ghost use Rattle.hid_layout.specs.Layout.{item_of, layout_of};

use crate::array_codes::all_codes;
use crate::codes::{Codes, NO_CODES, codes_of};
use crate::control::{Control, ControlId, Controls};
use crate::main_item::{Element, MainItem};
use crate::plans::Plans;
use crate::search::{holds, usage_by_starts};
use hid_report_descriptor::{
    Collection, ItemLists, KeptField, LayoutFault, Limits, ListedFields, Report, ReportKind, Shape,
    Usage, find_report, list_fields,
};
use std::alloc::{AllocError, Global};
use std::marker::Model;

/// The reports of a device, and the fields that its main items put into them.
#[derive(Debug, Drop)]
pub struct Layout {
    reports: Vec<Report>,
    numbered: bool,
    items: Vec<MainItem>,
    lists: ItemLists,
    plans: Plans,
    /// The codes of arrays, each at its item's place; none at other places, nor after the last array.
    codes: Vec<Codes>,
}

impl Model for Layout {
    ghost use Rattle.std.specs.Prelude.{◌≡◌, ◌≤◌, length};
    ghost use Rattle.hid_layout.specs.Layout.{Contents};
    ghost use Rattle.hid_layout.specs.Reports.{IsLayout};
    ghost use Rattle.hid_layout.specs.ArrayCodes.{IsIndexed};
    ghost use Rattle.hid_report_descriptor.specs.declared.limits.TheConstants.{MAX_ITEMS};

    ghost Value = { Contents };

    ghost view = { λ l. record {
      reports = l.reports.items;
      numbered = l.numbered;
      items = l.items.items;
      entries = l.lists.entries;
      paths = l.lists.paths;
    } };

    ghost invariant = { λ l. let layout : Contents = record {
      reports = l.reports.items;
      numbered = l.numbered;
      items = l.items.items;
      entries = l.lists.entries;
      paths = l.lists.paths;
    } in (length l.lists.paths ≡ length l.items.items) × IsLayout layout
        × IsIndexed layout l.plans l.codes.items × (length l.items.items ≤ MAX_ITEMS) };
}

impl Layout {
    /// The reports, by kind and then by ID.
    pub fn reports(&self) -> &[Report]
        ensures { result.now ≡ self.now.reports }
    {
        &self.reports
    }

    /// Whether reports begin with their ID.
    pub fn numbered(&self) -> bool
        ensures { result ≡ self.now.numbered }
    {
        self.numbered
    }

    /// The listed items, in descriptor order: the Input, Output and Feature items that have bits.
    pub fn items(&self) -> &[MainItem]
        ensures items { result.now ≡ self.now.items }
        ensures layout { IsLayout self.now }
    {
        &self.items
    }

    /// The usages of a listed item as ranges from a first to a last usage; none of padding.
    pub fn entries(&self, item: usize) -> &[(Usage, Usage)]
        requires { item < length self.now.items }
        ensures { slice_get self.now.entries item ≡ Some result.now }
    {
        self.lists.entries(item)
    }

    /// The bytes of a report, with its ID where there are IDs.
    pub fn report_bytes(&self, r: usize) -> usize
        requires { r < length self.now.reports }
        ensures { result ≡ report_bytes self.now r }
    {
        let id_bytes = if self.numbered { 1 } else { 0 };
        (self.reports[r].bits as usize + 7) / 8 + id_bytes
    }

    /// The usage at a place of the usages of a listed item, its ranges written out by rising ID.
    pub fn usage(&self, item: usize, index: usize) -> Option<Usage>
        requires { item < length self.now.items }
        ensures { result ≡ usage_of self.now item index }
    {
        usage_by_starts(self.lists.entries(item), self.lists.starts(item), index)
    }

    /// A data field of a listed item; none of padding, and none past the last.
    pub fn element(&self, item: usize, j: usize) -> Option<Element>
        requires { item < length self.now.items }
        ensures { result ≡ element_of self.now item j }
    {
        self.items[item].element(j)
    }

    /// The collections that are open round a listed item, the outermost first.
    pub fn path(&self, item: usize) -> &[Collection]
        requires { item < length self.now.items }
        ensures { slice_get self.now.paths item ≡ Some result.now }
    {
        self.lists.path(item)
    }
}

impl Layout {
    /// For each entry of a listed item how many usages stand before it.
    pub fn starts(&self, item: usize) -> &[u32]
        requires { item < length self.now.items }
        ensures { slice_get (map starts_of self.now.entries) item ≡ Some result.now }
    {
        self.lists.starts(item)
    }

    /// The places of a report's items among the listed items, in order.
    pub fn plan(&self, r: usize) -> &[usize]
        requires { r < length self.now.reports }
        ensures { result.now ≡ plan_of self.now r }
    {
        self.plans.get(r)
    }

    /// The numbers that stand for null, for no key, and for rollover in the elements of a listed item.
    pub fn codes(&self, item: usize) -> Codes
        requires { item < length self.now.items }
        ensures { (main : MainItem) (es : List Entry) → slice_get self.now.items item ≡ Some main
            → slice_get self.now.entries item ≡ Some es → is_padding main.shape ≡ false
            → AreCodes main (usage_list es) result }
    {
        let main = &self.items[item];
        match main.shape {
            Shape::Padding => NO_CODES,
            Shape::Variable => codes_of(main, self.lists.entries(item)),
            Shape::Array => self.codes[item],
        }
    }
}

impl Layout {
    ghost use Rattle.hid_layout.specs.Controls.{is_input, items_of, form_at, controls_of_form, control_of, events_in, max_events};

    /// Whether an item stands in an Input report.
    fn is_input(&self, item: &MainItem) -> bool
        ensures { result ≡ is_input self.now.reports item.now.report }
    {
        match self.reports.get(item.report) {
            Some(report) => report.kind.is(ReportKind::Input),
            None => false,
        }
    }

    /// The controls of a listed item, without their usages.
    pub fn controls(&self, item: usize) -> Controls
        requires { item < length self.now.items }
        ensures { result ≡ controls_of_form (form_at (items_of self.now) item) }
    {
        let main = &self.items[item];
        if self.is_input(main) {
            main.controls(self.lists.entries(item), &self.codes, item)
        } else {
            Controls::None
        }
    }

    /// The control at a place; none of padding, of Output and Feature items and past the last.
    pub fn control(&self, id: ControlId) -> Option<Control>
        ensures { result ≡ control_of (items_of self.now) id }
    {
        if id.item >= self.items.len() {
            return None;
        }
        let main = &self.items[id.item];
        if self.is_input(main) {
            let entries = self.lists.entries(id.item);
            main.control(entries, self.lists.starts(id.item), id.index)
        } else {
            None
        }
    }

    /// How many events a reading of an item gives at most.
    fn events(&self, item: usize) -> usize
        requires { item < length self.now.items }
        ensures value { result ≡ events_in (form_at (items_of self.now) item) }
        ensures small { result < 2 ^ 33 }
    {
        let main = &self.items[item];
        if !self.is_input(main) {
            return 0;
        }
        match main.shape {
            Shape::Padding => 0,
            Shape::Variable => main.count as usize,
            Shape::Array => 2 * main.count as usize,
        }
    }

    /// How many events the reading of reports gives at most: one for each element of a variable Input item, and two for
    /// each element of an array, whose key goes up and another one down.
    pub fn max_events(&self) -> usize
        ensures { result ≡ max_events (items_of self.now) }
    {
        let mut events = 0;
        for i in 0..self.items.len() {
            events += self.events(i);
        }
        events
    }
}

impl Layout {
    ghost use Rattle.hid_layout.specs.Finding.{control_usage, usage_in_form};
    ghost use Rattle.hid_layout.specs.Controls.{items_of, form_at};
    ghost use Rattle.std.specs.Prelude.{IfSome, IfNone, ◌⊎◌};

    /// The least place of a listed item whose control has a usage.
    fn find_in(&self, item: usize, usage: Usage) -> Option<usize>
        requires { item < length self.now.items }
        ensures found { IfSome result (λ j. usage_in_form (form_at (items_of self.now) item) j
            ≡ Some usage) }
        ensures least { IfSome result (λ j. (i : ℕ) → i < j
            → usage_in_form (form_at (items_of self.now) item) i ≡ Some usage → ⊥) }
        ensures none { IfNone result ((i : ℕ)
            → usage_in_form (form_at (items_of self.now) item) i ≡ Some usage → ⊥) }
    {
        let entries = self.lists.entries(item);
        let starts = self.lists.starts(item);
        for i in 0..entries.len() {
            let entry = &entries[i];
            if holds(entry, usage) {
                let index = starts[i] as usize + (usage.id - entry.0.id) as usize;
                if let Some(control) = self.control(ControlId { item, index }) {
                    if control.usage == usage {
                        return Some(index);
                    }
                }
            }
        }
        None
    }

    /// The least control with a usage: the first item that has one, and its least place there.
    pub fn find(&self, usage: Usage) -> Option<ControlId>
        ensures found { IfSome result (λ c. control_usage (items_of self.now) c ≡ Some usage) }
        ensures least { IfSome result (λ c. (d : ControlId)
            → (d.item < c.item) ⊎ ((d.item ≡ c.item) × (d.index < c.index))
            → control_usage (items_of self.now) d ≡ Some usage → ⊥) }
        ensures none { IfNone result
            ((d : ControlId) → control_usage (items_of self.now) d ≡ Some usage
            → ⊥) }
    {
        for item in 0..self.items.len() {
            if let Some(index) = self.find_in(item, usage) {
                return Some(ControlId { item, index });
            }
        }
        None
    }
}

/// The place of the report of a kind with an ID.
fn place_of(reports: &[Report], kind: ReportKind, id: u8) -> usize
    requires { are_in_order reports.now ≡ true }
    ensures { result ≡ report_place kind id reports.now }
{
    match find_report(reports, kind, id) {
        Ok(i) => i,
        Err(_) => reports.len(),
    }
}

/// The listed items, by their fields.
fn items_of(
    alloc: Global,
    reports: &[Report],
    fields: &[KeptField],
) -> Result<Vec<MainItem>, AllocError>
    requires { are_in_order reports.now ≡ true }
    ensures { IfOk result (λ items. items.items ≡ map (item_of reports.now) fields.now) }
{
    let mut items = Vec::with_capacity(alloc, fields.len())?;
    for field in fields {
        items.push_reserved(MainItem {
            report: place_of(reports, field.kind, field.id),
            offset: field.offset as usize,
            size: field.size,
            count: field.count,
            flags: field.flags,
            min: field.min,
            max: field.max,
            shape: field.shape,
        });
    }
    Ok(items)
}

/// Puts the fields together.
fn lay_out(alloc: Global, listed: ListedFields) -> Result<Layout, AllocError>
    requires { (before : List EncodedItem) × ListsFields before listed × IsLayout (layout_of before) }
    ensures { IfOk result (λ layout. (before : List EncodedItem) → ListsFields before listed
        → layout ≡ layout_of before) }
{
    let items = items_of(alloc, &listed.reports, &listed.fields)?;
    let ListedFields {
        reports,
        lists,
        numbered,
        ..
    } = listed;
    let plans = Plans::of(alloc, reports.len(), &items)?;
    let codes = all_codes(alloc, &items, &lists)?;
    Ok(Layout {
        reports,
        numbered,
        items,
        lists,
        plans,
        codes,
    })
}

impl Layout {
    ghost use Rattle.hid_report_descriptor.specs.Faults as within;
    ghost use Rattle.hid_layout.specs.Reports.{KeepsTo, IsOfBus};

    /// The layout that a report descriptor gives within limits.
    ///
    /// # Errors
    /// A descriptor that is too long is refused before its items are looked at. Otherwise the first item with a cause
    /// decides, by the first of its causes in the order in which an item is looked at ([`Cause`](crate::Cause)); after the
    /// last item Unclosed comes before MixedReportId. Where memory runs out the cause is Memory, at 0.
    pub fn parse_within(
        alloc: Global,
        limits: Limits,
        descriptor: &[u8],
    ) -> Result<Layout, LayoutFault>
        // The descriptor's items are accepted, and the layout is theirs.
        ensures ok { IfOk result (λ layout. (before : List EncodedItem)
            × within.Accepts limits descriptor.now before × (layout ≡ layout_of before)) }
        ensures short { IfOk result (KeepsTo limits) }
        // Memory ran out, or this is the one refusal.
        ensures err { IfErr result (λ f. within.Explains limits descriptor.now f.cause f.at) }
    {
        let listed = match list_fields(alloc, limits, descriptor) {
            Ok(listed) => listed,
            Err(f) => return Err(f),
        };
        match lay_out(alloc, listed) {
            Ok(layout) => Ok(layout),
            Err(_) => Err(LayoutFault::memory()),
        }
    }

    /// The layout that a report descriptor gives to a virtual device and its host.
    ///
    /// # Errors
    /// Those of [`Layout::parse_within`], at [`Limits::Bus`].
    pub fn parse(alloc: Global, descriptor: &[u8]) -> Result<Layout, LayoutFault>
        // The descriptor's items are accepted, and the layout is theirs.
        ensures ok { IfOk result (λ layout. (before : List EncodedItem) × Accepts descriptor.now before
            × (layout ≡ layout_of before)) }
        ensures bus { IfOk result IsOfBus }
        // Memory ran out, or this is the one refusal.
        ensures err { IfErr result (λ f. Explains descriptor.now f.cause f.at) }
    {
        Layout::parse_within(alloc, Limits::Bus, descriptor)
    }
}
