//! The controls that a layout gives.

ghost use Rattle.std.specs.Prelude.{◌≡◌, false, ◌<◌, ◌≤◌, ◌*◌, ◌^◌, length, slice_get, Some};
ghost use Rattle.hid_report_descriptor.specs.Usages.{usage_list};
ghost use Rattle.hid_layout.specs.Controls.{least_of, greatest_of, has_outside, element_kind, is_key, usage_of_element};

use crate::codes::{Codes, is_encodable};
use crate::control::{Control, ControlKind, Controls};
use crate::main_item::MainItem;
use crate::search::{count_by_starts, usage_by_starts};
use hid_report_descriptor::{
    MAX_ENTRIES, MAX_KEYS, MAX_WIDTH, Shape, Usage, entry_count, greatest_value, least_value,
};

/// How many usages there are in the ranges.
pub fn usage_count(entries: &[(Usage, Usage)]) -> usize
    requires { length entries.now ≤ MAX_ENTRIES }
    ensures value { result ≡ length (usage_list entries.now) }
    ensures few { result ≤ MAX_ENTRIES * 2 ^ 16 }
{
    let mut count = 0;
    for entry in entries {
        count += entry_count(entry);
    }
    count
}

/// The usage at a place of the list that the ranges write out.
pub fn usage_at(entries: &[(Usage, Usage)], index: usize) -> Option<Usage>
    ensures { result ≡ slice_get (usage_list entries.now) index }
{
    let mut rest = index;
    for entry in entries {
        let count = entry_count(entry);
        if rest < count {
            return Some(Usage {
                page: entry.0.page,
                id: entry.0.id + rest as u16,
            });
        }
        rest -= count;
    }
    None
}

/// The usage of an element of a variable item: the last of the list that the ranges write out is for all elements that have
/// none of their own (HID 1.11, 6.2.2.8). None where the list is empty.
#[tactic(auto, unfolding(crate::specs::Controls::usage_of_element))]
pub fn usage_of_element(entries: &[(Usage, Usage)], index: usize) -> Option<Usage>
    requires { length entries.now ≤ MAX_ENTRIES }
    ensures { result ≡ usage_of_element (usage_list entries.now) index }
{
    let last = usage_count(entries).saturating_sub(1);
    usage_at(entries, index.min(last))
}

impl MainItem {
    /// The least value that an element can carry.
    pub(crate) fn least(&self) -> i64
        requires some { 0 < self.now.size }
        requires narrow { self.now.size ≤ MAX_WIDTH }
        ensures { result ≡ least_of self.now }
    {
        self.min.max(least_value(self.min, self.size))
    }

    /// The greatest value that an element can carry.
    pub(crate) fn greatest(&self) -> i64
        requires some { 0 < self.now.size }
        requires narrow { self.now.size ≤ MAX_WIDTH }
        ensures { result ≡ greatest_of self.now }
    {
        self.max.min(greatest_value(self.min, self.size))
    }

    /// Whether some number that fits the item's fields is out of its logical range.
    fn has_outside(&self) -> bool
        requires some { 0 < self.now.size }
        requires narrow { self.now.size ≤ MAX_WIDTH }
        ensures { result ≡ has_outside self.now }
    {
        least_value(self.min, self.size) < self.min
            || self.max < greatest_value(self.min, self.size)
    }

    /// Of what kind the elements are.
    pub fn element_kind(&self) -> ControlKind
        requires some { 0 < self.now.size }
        requires narrow { self.now.size ≤ MAX_WIDTH }
        ensures { result ≡ element_kind self.now }
    {
        let null_state = self.flags.has_null_state();
        if self.flags.is_relative() {
            ControlKind::Relative
        } else if self.min == 0 && self.max == 1 && !null_state {
            ControlKind::Switch
        } else if null_state && self.has_outside() {
            ControlKind::NullValue
        } else {
            ControlKind::Value
        }
    }
}

impl MainItem {
    ghost use Rattle.hid_layout.specs.Controls.{form_of, controls_of_form, control_in};
    ghost use Rattle.hid_report_descriptor.specs.Fields.{is_padding};
    ghost use Rattle.hid_layout.specs.Reports.{HasElements};
    ghost use Rattle.hid_layout.specs.Codes.{AreCodes};
    ghost use Rattle.hid_report_descriptor.specs.Usages.{starts_of};

    /// The controls of an item of an Input report, without their usages. An array's codes are those at a place.
    pub(crate) fn controls(
        &self,
        entries: &[(Usage, Usage)],
        codes: &[Codes],
        place: usize,
    ) -> Controls
        requires elements { is_padding self.now.shape ≡ false → HasElements self.now }
        requires few { length entries.now ≤ MAX_ENTRIES }
        requires some { is_padding self.now.shape ≡ false → 0 < length (usage_list entries.now) }
        requires kept { self.now.shape ≡ Shape.Array → place < length codes.now }
        requires codes { (kept : Codes) → slice_get codes.now place ≡ Some kept
            → self.now.shape ≡ Shape.Array → AreCodes self.now (usage_list entries.now) kept }
        ensures { result
            ≡ controls_of_form (form_of self.now (usage_list entries.now) self.now.shape) }
    {
        match self.shape {
            Shape::Padding => Controls::None,
            Shape::Variable => Controls::Elements {
                kind: self.element_kind(),
                least: self.least(),
                greatest: self.greatest(),
                count: self.count as usize,
            },
            Shape::Array => Controls::Keys {
                elements: self.count as usize,
                rolls_over: codes[place].rollover.is_some(),
                count: usage_count(entries).min(MAX_KEYS),
            },
        }
    }

    /// Whether an element can press the key with this usage at a place of the usage list.
    fn is_key(&self, place: usize, usage: Usage) -> bool
        requires elements { HasElements self.now }
        requires small { place ≤ 2 ^ 35 }
        ensures { result ≡ is_key self.now place usage }
    {
        is_encodable(self, place)
            && (place < MAX_KEYS && (usage.id != 0 && !usage.is_keyboard_error()))
    }

    /// The control at an element of a variable item: the last usage is that of all further elements.
    fn element_control(
        &self,
        entries: &[(Usage, Usage)],
        starts: &[u32],
        index: usize,
    ) -> Option<Control>
        requires elements { HasElements self.now }
        requires starts { starts.now ≡ starts_of entries.now }
        requires some { 0 < length (usage_list entries.now) }
        ensures { result
            ≡ control_in (form_of self.now (usage_list entries.now) Shape.Variable) index }
    {
        if index >= self.count as usize {
            return None;
        }
        let last = count_by_starts(entries, starts) - 1;
        match usage_by_starts(entries, starts, index.min(last)) {
            Some(usage) => Some(Control {
                kind: self.element_kind(),
                usage,
            }),
            None => None,
        }
    }

    /// The key at a place of an array's usage list.
    fn key_control(
        &self,
        entries: &[(Usage, Usage)],
        starts: &[u32],
        index: usize,
    ) -> Option<Control>
        requires elements { HasElements self.now }
        requires starts { starts.now ≡ starts_of entries.now }
        ensures { result
            ≡ control_in (form_of self.now (usage_list entries.now) Shape.Array) index }
    {
        if index >= MAX_KEYS {
            return None;
        }
        match usage_by_starts(entries, starts, index) {
            Some(usage) if self.is_key(index, usage) => Some(Control {
                kind: ControlKind::Switch,
                usage,
            }),
            _ => None,
        }
    }

    /// The control at a place of an item of an Input report.
    pub(crate) fn control(
        &self,
        entries: &[(Usage, Usage)],
        starts: &[u32],
        index: usize,
    ) -> Option<Control>
        requires elements { is_padding self.now.shape ≡ false → HasElements self.now }
        requires starts { starts.now ≡ starts_of entries.now }
        requires some { is_padding self.now.shape ≡ false → 0 < length (usage_list entries.now) }
        ensures { result
            ≡ control_in (form_of self.now (usage_list entries.now) self.now.shape) index }
    {
        match self.shape {
            Shape::Padding => None,
            Shape::Variable => self.element_control(entries, starts, index),
            Shape::Array => self.key_control(entries, starts, index),
        }
    }
}
