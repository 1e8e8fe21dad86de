//! The usages and the collections of the listed items, kept one after the other in a few pieces of memory.

ghost use Rattle.std.specs.Prelude.{◌≡◌, ◌<◌, ◌≤◌, ◌++◌, length, map, slice_get, slice_range, IfOk, OnOk, OnErr, Some};
ghost use Rattle.std.specs.Bool.{OnTrue};
ghost use Rattle.hid_report_descriptor.specs.Usages.{starts_of};
ghost use Rattle.hid_report_descriptor.specs.Locals.{entry_on_page};
ghost use Rattle.hid_report_descriptor.specs.Faults.{numbers_from};
ghost use Rattle.hid_report_descriptor.specs.ItemLists.{AreSingle, AddsStarts};

use crate::collection::Collection;
use crate::limits::MAX_ENTRIES;
use crate::locals::{NamedUsage, entry_on_page};
use crate::span::Span;
use crate::usage::{Usage, entry_count};
use std::alloc::{AllocError, Global};
use std::marker::Model;

/// The ranges, the collections of paths and the items for which room is made at first.
const FIRST_ENTRIES: usize = 8;

const FIRST_COLLECTIONS: usize = 16;

const FIRST_ITEMS: usize = 8;

/// The collections that are put into a path one by one.
const FEW_COLLECTIONS: usize = 4;

/// The first numbers, as many as an item has ranges at most. An item's ranges begin at them where each but the last has
/// one usage, as most items' do.
#[rattlefmt::skip]
const FIRST_NUMBERS: [u32; MAX_ENTRIES] = [
    0, 1, 2, 3, 4, 5, 6, 7, 8, 9, 10, 11, 12, 13, 14, 15,
    16, 17, 18, 19, 20, 21, 22, 23, 24, 25, 26, 27, 28, 29, 30, 31,
    32, 33, 34, 35, 36, 37, 38, 39, 40, 41, 42, 43, 44, 45, 46, 47,
    48, 49, 50, 51, 52, 53, 54, 55, 56, 57, 58, 59, 60, 61, 62, 63,
];

/// The places of an item's lists.
#[derive(Clone, Copy, Debug)]
struct ItemSpans {
    entries: Span,
    path: Span,
    /// Where the starts of its ranges stand; none where they are the first numbers.
    starts: Option<usize>,
}

/// For each listed item its usages, as ranges, and the collections round it.
#[derive(Debug, Drop)]
pub struct ItemLists {
    entries: Vec<(Usage, Usage)>,
    /// For each range of some items how many usages of its item stand before it.
    starts: Vec<u32>,
    paths: Vec<Collection>,
    spans: Vec<ItemSpans>,
}

impl Model for ItemLists {
    ghost use Rattle.hid_report_descriptor.specs.ItemLists.{Listed, lists_of_spans, AreListed};

    ghost Value = { Listed };

    ghost view = { λ l. lists_of_spans l.entries.items l.paths.items l.spans.items };

    ghost invariant = { λ l. AreListed l.entries.items l.starts.items l.paths.items l.spans.items };
}

impl ItemLists {
    ghost use Rattle.hid_report_descriptor.specs.ItemLists.{no_lists, lists_with};

    /// Empty lists, with some room.
    pub(crate) fn new(alloc: Global) -> Result<ItemLists, AllocError>
        ensures { IfOk result (λ lists. lists ≡ no_lists) }
    {
        Ok(ItemLists {
            entries: Vec::with_capacity(alloc, FIRST_ENTRIES)?,
            starts: Vec::new(alloc),
            paths: Vec::with_capacity(alloc, FIRST_COLLECTIONS)?,
            spans: Vec::with_capacity(alloc, FIRST_ITEMS)?,
        })
    }

    /// The usages of an item as ranges from a first to a last usage; none of padding (HID 1.11, 6.2.2.8).
    pub fn entries(&self, item: usize) -> &[(Usage, Usage)]
        requires { item < length self.now.entries }
        ensures { slice_get self.now.entries item ≡ Some result.now }
    {
        part(&self.entries, spans_of(&self.spans, item).entries)
    }

    /// For each of these ranges how many usages stand before it.
    pub fn starts(&self, item: usize) -> &[u32]
        requires { item < length self.now.entries }
        ensures { slice_get (map starts_of self.now.entries) item ≡ Some result.now }
    {
        let spans = spans_of(&self.spans, item);
        let count = spans.entries.end - spans.entries.start;
        match spans.starts {
            Some(start) => part(
                &self.starts,
                Span {
                    start,
                    end: start + count,
                },
            ),
            None => first_numbers(count),
        }
    }

    /// The collections that are open round an item, the outermost first (HID 1.11, 6.2.2.6).
    pub fn path(&self, item: usize) -> &[Collection]
        requires { item < length self.now.paths }
        ensures { slice_get self.now.paths item ≡ Some result.now }
    {
        part(&self.paths, spans_of(&self.spans, item).path)
    }

    /// Makes room for the lists of n more items, with two ranges each.
    pub(crate) fn reserve(&mut self, items: usize) -> Result<(), AllocError>
        ensures { self.new ≡ self.old }
    {
        self.spans.reserve(items)?;
        self.entries.reserve(items.saturating_mul(2))?;
        Ok(())
    }

    /// Adds the lists of one more item, at which this page is in force.
    pub(crate) fn push(
        &mut self,
        entries: &[(NamedUsage, NamedUsage)],
        page: u16,
        path: &[Collection],
    ) -> Result<(), AllocError>
        requires { length entries.now ≤ MAX_ENTRIES }
        ensures { OnOk result (self.new
            ≡ lists_with self.old (map (entry_on_page page) entries.now) path.now) }
    {
        self.spans.reserve(1)?;
        let path_start = self.paths.len();
        add_path(path, &mut self.paths)?;
        let starts = add_starts(entries, page, &mut self.starts)?;
        let start = self.entries.len();
        add_ranges(entries, page, &mut self.entries)?;
        let spans = ItemSpans {
            entries: Span {
                start,
                end: self.entries.len(),
            },
            path: Span {
                start: path_start,
                end: self.paths.len(),
            },
            starts,
        };
        self.spans.push_reserved(spans);
        Ok(())
    }
}

/// The places of an item's lists.
fn spans_of(spans: &[ItemSpans], item: usize) -> ItemSpans
    requires { item < length spans.now }
    ensures { slice_get spans.now item ≡ Some result }
{
    spans[item]
}

/// The numbers from 0 up to a count.
fn first_numbers<'a>(count: usize) -> &'a [u32]
    requires { count ≤ MAX_ENTRIES }
    ensures { result.now ≡ numbers_from 0 count }
{
    &FIRST_NUMBERS[..count]
}

/// The list at a place among the values.
fn part<T>(values: &[T], span: Span) -> &[T]
    requires ordered { span.start ≤ span.end }
    requires within { span.end ≤ length values.now }
    ensures { result.now ≡ slice_range values.now span.start span.end }
{
    &values[span.start..span.end]
}

/// Adds collections. A few of them cost less one by one than as a copied piece of memory.
fn add_path(path: &[Collection], paths: &mut Vec<Collection>) -> Result<(), AllocError>
    ensures more { OnOk result (paths.new.items ≡ paths.old.items ++ path.now) }
    ensures kept { OnErr result (paths.new.items ≡ paths.old.items) }
{
    if path.len() > FEW_COLLECTIONS {
        return paths.extend_from_slice(path);
    }
    paths.reserve(path.len())?;
    for collection in path {
        paths.push_reserved(*collection);
    }
    Ok(())
}

/// Adds ranges on a page.
fn add_ranges(
    named: &[(NamedUsage, NamedUsage)],
    page: u16,
    entries: &mut Vec<(Usage, Usage)>,
) -> Result<(), AllocError>
    ensures more { OnOk result (entries.new.items
        ≡ entries.old.items ++ map (entry_on_page page) named.now) }
    ensures kept { OnErr result (entries.new.items ≡ entries.old.items) }
{
    entries.reserve(named.len())?;
    for entry in named {
        entries.push_reserved(entry_on_page(entry, page));
    }
    Ok(())
}

/// Whether each range but the last has one usage.
fn are_single(named: &[(NamedUsage, NamedUsage)]) -> bool
    ensures { OnTrue result (AreSingle named.now) }
{
    for i in 1..named.len() {
        let entry = &named[i - 1];
        if entry.0.id != entry.1.id {
            return false;
        }
    }
    true
}

/// Adds how many usages stand before each range, unless these are the first numbers, and says where.
fn add_starts(
    named: &[(NamedUsage, NamedUsage)],
    page: u16,
    starts: &mut Vec<u32>,
) -> Result<Option<usize>, AllocError>
    requires { length named.now ≤ MAX_ENTRIES }
    ensures added { IfOk result (λ at. AddsStarts (map (entry_on_page page) named.now)
        at starts.old.items starts.new.items) }
    ensures kept { OnErr result (starts.new.items ≡ starts.old.items) }
{
    if are_single(named) {
        return Ok(None);
    }
    let at = starts.len();
    starts.reserve(named.len())?;
    let mut before = 0;
    for entry in named {
        starts.push_reserved(before as u32);
        before += entry_count(&entry_on_page(entry, page));
    }
    Ok(Some(at))
}
