//! Controls by their usage, by their name, or by their place.

ghost use Rattle.std.specs.Prelude.{◌≡◌, ◌+◌, ◌<◌, length, position, slice_get, slice_index, IfSome, MatchResult};
ghost use Rattle.std.specs.List.{filter};
ghost use Rattle.std.specs.Option.{option_map};
ghost use Rattle.hid_layout.specs.Controls.{items_of, control_of, form_at, controls_of_form};
ghost use Rattle.lab_lines.specs.Names.{names};
ghost use Rattle.lab_lines.specs.ControlNames.{named_of, mark_after, last_mark, split_number, index_of, is_point, place_of_word, is_letter, control_name_of, item_controls, controls_of_layout, sought_by, is_found, places_of, control_named};

use super::names::is_name_of;
use super::ranges::next_place;
use hid_layout::{ControlId, Controls, Layout, Usage};
use hid_text::{read_count, read_number, read_usage};

/// The most digits of a place: an item has at most 65,536 places.
const MAX_DIGITS: usize = 5;

/// How a line names a control.
#[derive(Clone, Copy, Debug, PartialEq, Eq)]
pub enum ControlName<'a> {
    /// `07:04`, `0D:42#2`: of the controls with a usage the n-th, from 1.
    Usage {
        /// The usage.
        usage: Usage,
        /// Which of them, from 1.
        nth: u16,
    },
    /// `7.0`: the place of its item, and its own there.
    Place(ControlId),
    /// `Keyboard_A`, `Tip_Switch#2`: of the controls whose usage has this name the n-th.
    Named {
        /// The word.
        name: &'a [u8],
        /// Which of them, from 1.
        nth: u16,
    },
}

/// Where the last `#` so far stands, after one more byte.
fn mark_after(mark: Option<usize>, at: usize, byte: u8) -> Option<usize>
    ensures { result ≡ mark_after mark at byte }
{
    if byte == b'#' { Some(at) } else { mark }
}

/// Where the last `#` of a word stands.
fn last_mark(word: &[u8]) -> Option<usize>
    ensures mark { result ≡ last_mark word.now }
    ensures room { IfSome result (λ mark. mark < length word.now) }
{
    let mut mark = None;
    for at in 0..word.len() {
        mark = mark_after(mark, at, word[at]);
    }
    mark
}

/// A word without its number, and the number: 1 where none stands there, as in `Keyboard_#`.
fn split_number(word: &[u8]) -> (&[u8], u16)
    ensures { (result.0.now, result.1) ≡ split_number word.now }
{
    let Some(mark) = last_mark(word) else {
        return (word, 1);
    };
    let Some(nth) = read_count(&word[mark + 1..]) else {
        return (word, 1);
    };
    if mark > 0 {
        (&word[..mark], nth)
    } else {
        (word, 1)
    }
}

/// A number of a place.
fn read_index(digits: &[u8]) -> Option<usize>
    ensures { result ≡ index_of digits.now }
{
    if digits.len() > MAX_DIGITS {
        return None;
    }
    let index = read_number(10, digits)?;
    Some(index as usize)
}

/// Where the first point of a word stands.
fn point(word: &[u8]) -> Option<usize>
    ensures { result ≡ position is_point word.now }
{
    word.iter().position(|byte| *byte == b'.')
}

/// A place: `7.0`.
#[tactic(auto, unfolding(crate::specs::ControlNames::place_of_word))]
fn read_place(word: &[u8]) -> Option<ControlId>
    ensures { result ≡ place_of_word word.now }
{
    let point = point(word)?;
    let item = read_index(&word[..point])?;
    let index = read_index(&word[point + 1..])?;
    Some(ControlId { item, index })
}

/// Whether a byte is a letter.
fn is_letter(byte: u8) -> bool
    ensures { result ≡ is_letter byte }
{
    (b'A' <= byte && byte <= b'Z') || (b'a' <= byte && byte <= b'z')
}

/// Whether a word begins with a letter.
fn begins_with_letter(word: &[u8]) -> bool
    ensures { result ≡ is_letter (slice_index word.now 0) }
{
    match word.first() {
        Some(byte) => is_letter(*byte),
        None => false,
    }
}

/// Reads how a word names a control; none where it can't be one.
#[tactic(auto, unfolding(crate::specs::ControlNames::control_name_of))]
pub fn read_control_name(word: &[u8]) -> Option<ControlName<'_>>
    ensures { option_map (λ name. named_of name) result ≡ control_name_of word.now }
{
    let (name, nth) = split_number(word);
    if let Some(usage) = read_usage(name) {
        return Some(ControlName::Usage { usage, nth });
    }
    if let Some(place) = read_place(word) {
        return Some(ControlName::Place(place));
    }
    if begins_with_letter(name) {
        Some(ControlName::Named { name, nth })
    } else {
        None
    }
}

/// Which usages are looked for.
#[derive(Clone, Copy)]
pub(crate) enum Sought<'a> {
    This(Usage),
    Named(&'a [u8]),
}

/// Whether a usage is looked for.
fn is_sought(sought: Sought<'_>, usage: Usage) -> bool
    ensures { result ≡ sought_by sought.entry usage }
{
    match sought {
        Sought::This(this) => usage.page == this.page && usage.id == this.id,
        Sought::Named(name) => is_name_of(usage, name),
    }
}

/// Whether a control that is looked for stands at a place.
fn is_found(layout: &Layout, id: ControlId, sought: Sought<'_>) -> bool
    ensures { result ≡ is_found sought.entry (control_of (items_of layout.now) id) }
{
    match layout.control(id) {
        Some(control) => is_sought(sought, control.usage),
        None => false,
    }
}

/// How many places controls of an item may have.
fn place_count(controls: Controls) -> usize
    ensures { result ≡ places_of controls }
{
    match controls {
        Controls::None => 0,
        Controls::Elements { count, .. } => count,
        Controls::Keys { count, .. } => count,
    }
}

/// The control of an item that is looked for, after so many others; else how many are still to be passed over.
fn control_in_item(
    layout: &Layout,
    item: usize,
    before: usize,
    sought: Sought<'_>,
) -> Result<ControlId, usize>
    requires { item < length layout.now.items }
    ensures { let found = filter (λ c. sought_by sought.entry c.1) (item_controls (form_at (items_of layout.now) item) item) in
        MatchResult result (λ id. option_map (λ c. c.0) (slice_get found before) ≡ Some id)
        (λ left. before ≡ length found + left) }
{
    let count = place_count(layout.controls(item));
    let entries = layout.entries(item);
    let starts = layout.starts(item);
    let mut left = before;
    let mut index = next_place(entries, starts, 0, sought);
    while index < count {
        let id = ControlId { item, index };
        if is_found(layout, id, sought) {
            if left == 0 {
                return Ok(id);
            }
            left -= 1;
        }
        index = next_place(entries, starts, index + 1, sought);
    }
    Err(left)
}

/// The control of a layout that is looked for, after so many others.
fn control_after(layout: &Layout, before: usize, sought: Sought<'_>) -> Option<ControlId>
    ensures { result ≡ option_map (λ c. c.0)
        (slice_get (filter (λ c. sought_by sought.entry c.1) (controls_of_layout layout.now)) before) }
{
    let mut left = before;
    for item in 0..layout.items().len() {
        match control_in_item(layout, item, left, sought) {
            Ok(control) => return Some(control),
            Err(more) => left = more,
        }
    }
    None
}

/// The control that is named, by item and then by place in it; none where the layout has no such control.
#[tactic(auto, unfolding(crate::specs::ControlNames::control_named))]
pub fn find_control(layout: &Layout, name: &ControlName<'_>) -> Option<ControlId>
    ensures { result ≡ control_named layout.now (named_of name.now) }
{
    match *name {
        ControlName::Usage { usage, nth } => {
            control_after(
                layout,
                usize::from(nth).saturating_sub(1),
                Sought::This(usage),
            )
        }
        ControlName::Named { name, nth } => {
            control_after(
                layout,
                usize::from(nth).saturating_sub(1),
                Sought::Named(name),
            )
        }
        ControlName::Place(control) => match layout.control(control) {
            Some(_) => Some(control),
            None => None,
        },
    }
}
