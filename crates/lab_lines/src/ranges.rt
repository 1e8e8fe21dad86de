//! Places of a usage list, range by range: where a usage is in a range of 65,536, no place of it is walked over.

ghost use Rattle.std.specs.Prelude.{◌≡◌, ◌≤◌};
ghost use Rattle.hid_report_descriptor.specs.Usages.{starts_of, usage_list};
ghost use Rattle.lab_lines.specs.Names.{names};
ghost use Rattle.lab_lines.specs.ControlNames.{ArePassed, IsFirstPlace, IsSought, same_usage, sought_by};

use crate::control_name::Sought;
use crate::names::is_name_of;
use hid_layout::Usage;
use hid_report_descriptor::entry_count;

/// The place of a usage in a range, if it isn't before this one.
fn place_of_usage(entry: &(Usage, Usage), from: usize, usage: Usage) -> Option<usize>
    ensures { IsFirstPlace (λ u. same_usage u usage) entry.now from result }
{
    if entry.0.page != usage.page || usage.id < entry.0.id || entry.1.id < usage.id {
        return None;
    }
    let place = (usage.id - entry.0.id) as usize;
    if place < from { None } else { Some(place) }
}

/// The first place of a range, from this one on, whose usage has a name.
fn place_of_name(entry: &(Usage, Usage), from: usize, name: &[u8]) -> Option<usize>
    ensures { IsFirstPlace (λ u. names u name.now) entry.now from result }
{
    for place in from..entry_count(entry) {
        let usage = Usage {
            page: entry.0.page,
            id: entry.0.id + place as u16,
        };
        if is_name_of(usage, name) {
            return Some(place);
        }
    }
    None
}

/// The first place of a range, from this one on, whose usage is looked for.
fn place_in_range(entry: &(Usage, Usage), from: usize, sought: Sought<'_>) -> Option<usize>
    ensures { IsFirstPlace (λ u. sought_by sought.entry u) entry.now from result }
{
    match sought {
        Sought::This(usage) => place_of_usage(entry, from, usage),
        Sought::Named(name) => place_of_name(entry, from, name),
    }
}

/// The first place, from this one on, whose usage is looked for; where there is none, one past the list.
pub(crate) fn next_place(
    entries: &[(Usage, Usage)],
    starts: &[u32],
    from: usize,
    sought: Sought<'_>,
) -> usize
    requires { starts.now ≡ starts_of entries.now }
    ensures order { from ≤ result }
    ensures found { IsSought (λ u. sought_by sought.entry u) (usage_list entries.now) result }
    ensures passed { ArePassed (λ u. sought_by sought.entry u) (usage_list entries.now) from result }
{
    let mut next = from;
    for i in 0..entries.len() {
        let start = starts[i] as usize;
        let end = start + entry_count(&entries[i]);
        if let Some(place) = place_in_range(&entries[i], next - start, sought) {
            return start + place;
        }
        next = next.max(end);
    }
    next
}
