//! The collections of a report, and the bytes that they take.

ghost use Rattle.std.specs.Prelude.{◌≡◌, ◌+◌, ◌++◌, ◌<◌, ◌≤◌, length, slice_get, Some, IfOk, OnOk};
ghost use Rattle.hid_drawing.specs.Pieces.{SliceLiesIn};
ghost use Rattle.hid_drawing.specs.Brackets.{first_byte_of_bracket, last_byte, main_at, extended_bracket, bracket_with, bracket_below, open_below, round_at, bracket_at, brackets_of, bracket_depth};

use crate::items::item_encoding_at;
use crate::lookups::{first_bit_of, item_at};
use crate::origins::{collections_after, ends_collection, lies_in};
use hid_items::Item;
use hid_layout::{Layout, MainItem};
use std::alloc::{AllocError, Global};

/// A collection of which a report has items.
#[derive(Clone, Copy, Debug)]
pub struct Bracket {
    /// How many collections there are from the outermost one to it.
    pub level: usize,
    /// The first listed item of the report that lies in it.
    pub item: usize,
    /// The first byte that holds bits of it, and the last one.
    pub first: u32,
    pub last: u32,
}

/// A report with the items of its descriptor, and of each listed item the place of its main item.
#[derive(Clone, Copy)]
pub struct Drawn<'a> {
    pub layout: &'a Layout,
    pub items: &'a [Item<'a>],
    pub mains: &'a [usize],
    pub report: usize,
}

/// The first byte in which an item has bits.
fn first_byte(layout: &Layout, item: &MainItem) -> u32
    requires { SliceLiesIn layout.now item.now }
    ensures { result ≡ first_byte_of_bracket layout.now item.now }
{
    first_bit_of(layout, item) / 8
}

/// The last one.
fn last_byte(layout: &Layout, item: &MainItem) -> u32
    requires { SliceLiesIn layout.now item.now }
    ensures { result ≡ last_byte layout.now item.now }
{
    (first_bit_of(layout, item) + item.size * item.count).saturating_sub(1) / 8
}

/// The place of the main item of a listed item.
pub fn main_at(mains: &[usize], i: usize) -> usize
    ensures { result ≡ main_at mains.now i }
{
    match mains.get(i) {
        None => 0,
        Some(place) => *place,
    }
}

/// A bracket that reaches to one more item, or begins with it.
fn reaching(layout: &Layout, i: usize, item: &MainItem, bracket: Option<Bracket>) -> Bracket
    requires { SliceLiesIn layout.now item.now }
    ensures { result ≡ extended_bracket layout.now i item.now bracket }
{
    let last = last_byte(layout, item);
    match bracket {
        None => Bracket {
            level: 0,
            item: i,
            first: first_byte(layout, item),
            last,
        },
        Some(begun) => Bracket { last, ..begun },
    }
}

impl Drawn<'_> {
    /// The bracket of the collection c once the item i has come.
    fn bracket_with(&self, c: usize, i: usize, bracket: Option<Bracket>) -> Option<Bracket>
        requires { i < length self.now.layout.now.items }
        ensures { result
            ≡ bracket_with self.now.layout.now self.now.items.now self.now.mains.now self.now.report c i bracket (slice_get self.now.layout.now.items i) }
    {
        let item = item_at(self.layout, i);
        if item.report == self.report && lies_in(self.items, c, main_at(self.mains, i)) {
            Some(reaching(self.layout, i, item, bracket))
        } else {
            bracket
        }
    }

    /// The bracket of the collection c.
    fn bracket_below(&self, c: usize) -> Option<Bracket>
        ensures { result
            ≡ bracket_below self.now.layout.now self.now.items.now self.now.mains.now self.now.report c (length self.now.layout.now.items) }
    {
        let mut bracket = None;
        for i in 0..self.layout.items().len() {
            bracket = self.bracket_with(c, i, bracket);
        }
        bracket
    }

    /// Adds the bracket of the collection c, where the report has an item in it.
    fn push_bracket(&self, brackets: &mut Vec<Bracket>, c: usize) -> Result<(), AllocError>
        requires { c < length self.now.items.now }
        ensures { OnOk result (brackets.new.items
            ≡ brackets.old.items ++ bracket_at self.now.layout.now self.now.items.now self.now.mains.now self.now.report c) }
    {
        match self.bracket_below(c) {
            None => Ok(()),
            Some(bracket) => {
                let level = round_at(self.items, c) + 1;
                brackets.push(Bracket { level, ..bracket })?;
                Ok(())
            }
        }
    }

    /// The brackets of the report, in the order of the descriptor.
    ///
    /// # Errors
    /// Out of memory.
    pub fn brackets(&self, alloc: Global) -> Result<Vec<Bracket>, AllocError>
        ensures { IfOk result (λ brackets. brackets.items
            ≡ brackets_of self.now.layout.now self.now.items.now self.now.mains.now self.now.report) }
    {
        let mut brackets = Vec::new(alloc);
        for c in 0..self.items.len() {
            self.push_bracket(&mut brackets, c)?;
        }
        Ok(brackets)
    }
}

/// How many collections are open after the first items.
fn open_below(items: &[Item], end: usize) -> usize
    ensures value { result ≡ open_below items.now end }
    ensures few { result ≤ end }
{
    let mut count = 0;
    for k in 0..end {
        count = collections_after(count, item_encoding_at(items, k));
    }
    count
}

/// How many collections are round the place c.
pub fn round_at(items: &[Item], c: usize) -> usize
    ensures value { result ≡ round_at items.now c }
    ensures few { result ≤ c }
{
    let count = open_below(items, c);
    if ends_collection(item_encoding_at(items, c)) {
        count.saturating_sub(1)
    } else {
        count
    }
}

/// How many brackets stand in one another.
pub fn bracket_depth(brackets: &[Bracket]) -> usize
    ensures { result ≡ bracket_depth brackets.now }
{
    let mut level = 0;
    for bracket in brackets {
        level = level.max(bracket.level);
    }
    level
}
