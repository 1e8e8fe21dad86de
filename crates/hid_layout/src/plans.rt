//! For each report the places of its items.

ghost use Rattle.std.specs.Prelude.{◌≡◌, ◌<◌, ◌≤◌, ◌^◌, ℕ, List, [], length, map, slice_get, slice_range, IfOk, Some};
ghost use Rattle.hid_report_descriptor.specs.Faults.{numbers_from};
ghost use Rattle.hid_layout.specs.declared.main_item.MainItem.{MainItem};
ghost use Rattle.hid_layout.specs.ArrayCodes.{places_from};
ghost use Rattle.hid_layout.specs.Plans.{AreIn, count_of, begin_of, end_of, ArePut};

use crate::main_item::MainItem;
use std::alloc::{AllocError, Global};
use std::marker::Model;

/// For some reports the places of their items, in one piece of memory.
#[derive(Debug, Drop)]
pub(crate) struct Plans {
    reports: usize,
    /// Where the places of each report begin among all places, and where those of the last one end; then all places,
    /// one report after the other.
    bounds_and_places: Vec<usize>,
}

impl Model for Plans {
    ghost use Rattle.std.specs.Prelude.{ℕ, List};
    ghost use Rattle.hid_layout.specs.Plans.{plans_in, ArePlans};

    ghost Value = { List (List ℕ) };

    ghost view = { λ p. plans_in p.reports p.bounds_and_places.items };

    ghost invariant = { λ p. ArePlans p.reports p.bounds_and_places.items };
}

impl Plans {
    /// Of n reports with these items: the items of each are counted, so that it is known where its places begin.
    pub(crate) fn of(alloc: Global, reports: usize, items: &[MainItem]) -> Result<Plans, AllocError>
        requires few { reports < 2 ^ 63 }
        requires there { AreIn reports items.now }
        ensures { IfOk result (λ plans. plans
            ≡ map (λ r. places_from 0 r items.now) (numbers_from 0 reports)) }
    {
        let mut kept = vec![in alloc; 0; 1 + reports + items.len()]?;
        let (_, ends_and_places) = kept.split_at_mut(1);
        let (ends, places) = ends_and_places.split_at_mut(reports);
        count_items(items, ends);
        begin_places(ends);
        put_places(items, ends, places);
        Ok(Plans {
            reports,
            bounds_and_places: kept,
        })
    }

    /// The places of a report's items.
    pub(crate) fn get(&self, r: usize) -> &[usize]
        requires { r < length self.now }
        ensures { slice_get self.now r ≡ Some result.now }
    {
        let (bounds, places) = self.bounds_and_places.split_at(self.reports + 1);
        part(places, bounds[r], bounds[r + 1])
    }
}

/// The places from one to before another one.
fn part(places: &[usize], start: usize, end: usize) -> &[usize]
    requires ordered { start ≤ end }
    requires within { end ≤ length places.now }
    ensures { result.now ≡ slice_range places.now start end }
{
    &places[start..end]
}

/// Counts the items of each report.
fn count_items(items: &[MainItem], counts: &mut [usize])
    requires there { AreIn (length counts.old) items.now }
    requires none { counts.old ≡ map (count_of []) (numbers_from 0 (length counts.old)) }
    ensures { counts.new ≡ map (count_of items.now) (numbers_from 0 (length counts.old)) }
{
    for item in items {
        counts[item.report] += 1;
    }
}

/// Puts in place of each count where the places of that report begin: after those of the reports before it.
fn begin_places(counts: &mut [usize])
    requires { (items : List MainItem) × (length items < 2 ^ 64)
        × (counts.old ≡ map (count_of items) (numbers_from 0 (length counts.old))) }
    ensures { (items : List MainItem)
        → counts.old ≡ map (count_of items) (numbers_from 0 (length counts.old))
        → counts.new ≡ map (begin_of items) (numbers_from 0 (length counts.old)) }
{
    let mut start = 0;
    for count in counts.iter_mut() {
        let end = start + *count;
        *count = start;
        start = end;
    }
}

/// Puts each place after those that its report has so far.
fn put_places(items: &[MainItem], ends: &mut [usize], places: &mut [usize])
    requires there { AreIn (length ends.old) items.now }
    requires begun { ends.old ≡ map (begin_of items.now) (numbers_from 0 (length ends.old)) }
    requires room { length places.old ≡ length items.now }
    ensures ends { ends.new ≡ map (end_of items.now items.now) (numbers_from 0 (length ends.old)) }
    ensures places { ArePut (length ends.old) items.now items.now places.new }
{
    for (i, item) in items.iter().enumerate() {
        let end = ends[item.report];
        places[end] = i;
        ends[item.report] = end + 1;
    }
}
