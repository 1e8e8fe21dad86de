//! The usage at a place of a usage list, found by halving.

ghost use Rattle.std.specs.Prelude.{◌≡◌, ◌<◌, ◌≤◌, ◌-◌, length, slice_get, slice_index};
ghost use Rattle.hid_report_descriptor.specs.Usages.{usage_list, starts_of};
ghost use Rattle.hid_layout.specs.Finding.{holds};

use hid_report_descriptor::{Usage, entry_count};

/// How many ranges begin at a place or before it.
fn entries_up_to(starts: &[u32], place: usize) -> usize
    ensures within { result ≤ length starts.now }
    ensures last { 0 < result → slice_index starts.now (result - 1) ≤ place }
    ensures next { result < length starts.now → place < slice_index starts.now result }
{
    let mut low = 0;
    let mut high = starts.len();
    while low < high {
        let middle = low + (high - low) / 2;
        if starts[middle] as usize <= place {
            low = middle + 1;
        } else {
            high = middle;
        }
    }
    low
}

/// The usage at a place of the list that the ranges write out, by where each of them begins.
pub(crate) fn usage_by_starts(
    entries: &[(Usage, Usage)],
    starts: &[u32],
    index: usize,
) -> Option<Usage>
    requires { starts.now ≡ starts_of entries.now }
    ensures { result ≡ slice_get (usage_list entries.now) index }
{
    let ranges = entries_up_to(starts, index);
    if ranges == 0 {
        return None;
    }
    let entry = &entries[ranges - 1];
    let rest = index - starts[ranges - 1] as usize;
    if rest < entry_count(entry) {
        Some(Usage {
            page: entry.0.page,
            id: entry.0.id + rest as u16,
        })
    } else {
        None
    }
}

/// How many usages there are in the ranges, by where the last of them begins.
pub(crate) fn count_by_starts(entries: &[(Usage, Usage)], starts: &[u32]) -> usize
    requires { starts.now ≡ starts_of entries.now }
    ensures { result ≡ length (usage_list entries.now) }
{
    let ranges = entries.len();
    if ranges == 0 {
        return 0;
    }
    starts[ranges - 1] as usize + entry_count(&entries[ranges - 1])
}

/// Whether a usage is one of a range.
pub(crate) fn holds(entry: &(Usage, Usage), usage: Usage) -> bool
    ensures { result ≡ holds entry.now usage }
{
    entry.0.page == usage.page && (entry.0.id <= usage.id && usage.id <= entry.1.id)
}
