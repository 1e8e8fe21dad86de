//! Random report descriptors, most of which are accepted: several report IDs or none, fields of any width and range, switches,
//! arrays, null values, motions and padding, in few items or many; reports of one element; arrays of many keys beside other items.

use crate::dice::Dice;
use crate::stop::Stop;
use crate::writer::{Item, Writer};
use std::alloc::Global;

/// Usage pages: generic desktop, keyboard, LED, buttons, consumer, digitizers and a vendor's (HID Usage Tables 1.3).
const PAGES: [u32; 8] = [0x01, 0x01, 0x07, 0x08, 0x09, 0x0C, 0x0D, 0xFF00];

/// Flags of main items: padding, arrays, variables, motions, null values and what changes nothing (HID 1.11, 6.2.2.5).
#[rattlefmt::skip]
const FLAGS: [u32; 16] = [
    0x01, 0x03, 0x00, 0x00, 0x40, 0x04, 0x02, 0x02, 0x02, 0x02, 0x02, 0x06, 0x06, 0x42, 0x62, 0x102,
];

/// Flags of arrays: without a null value, and with one (HID 1.11, 6.2.2.5).
const ARRAYS: [u32; 2] = [0x00, 0x40];

/// What a descriptor is like.
#[derive(Clone, Copy, Debug)]
struct Manner {
    /// How many main items it has.
    items: u32,
    /// How many fields an item has at most.
    most: u32,
    /// How many report IDs it has; 0 where reports have none.
    ids: u32,
    /// Once in so many items the size and the range of fields change.
    steady: u32,
}

/// What a descriptor is like: few items or many, of few fields or many.
fn some_manner(dice: &mut Dice) -> Manner {
    let (items, most, steady) = match dice.below(8) {
        0 => (1, 504, 1),
        1 => (dice.within(200, 504), 1, 40),
        2 => (dice.within(20, 99), 4, 4),
        3 => (dice.within(1, 3), 64, 1),
        _ => (dice.within(1, 12), 8, 2),
    };
    let ids = match dice.below(8) {
        0..=3 => 0,
        4 => 1,
        5 => 64,
        _ => dice.within(2, 7),
    };
    Manner {
        items,
        most,
        ids,
        steady,
    }
}

/// A descriptor in the making.
#[derive(Drop)]
struct Draft {
    writer: Writer,
    /// How many collections and how many Pushes are open.
    collections: u32,
    pushes: u32,
}

/// A random report descriptor.
pub fn some_descriptor(alloc: Global, dice: &mut Dice) -> Result<Writer, Stop> {
    let mut draft = Draft {
        writer: Writer::new(alloc),
        collections: 0,
        pushes: 0,
    };
    let manner = some_manner(dice);
    draft.begin(dice)?;
    match dice.below(8) {
        0 => draft.single_elements(dice, manner.ids)?,
        1 => draft.wide_arrays(dice, manner.ids)?,
        _ => draft.main_items(dice, &manner)?,
    }
    draft.end()?;
    let Draft { writer, .. } = draft;
    Ok(writer)
}

impl Draft {
    /// Begins the application collection.
    fn begin(&mut self, dice: &mut Dice) -> Result<(), Stop> {
        let page = dice.one_of(&PAGES);
        self.writer.number(Item::UsagePage, page)?;
        self.writer.number(Item::Usage, dice.within(1, 8))?;
        self.open(1)
    }

    /// Opens a collection.
    fn open(&mut self, kind: u32) -> Result<(), Stop> {
        self.collections = self.collections.saturating_add(1);
        self.writer.number(Item::Collection, kind)
    }

    /// Ends all collections.
    fn end(&mut self) -> Result<(), Stop> {
        for _ in 0..self.collections {
            self.writer.bare(Item::EndCollection)?;
        }
        Ok(())
    }

    /// Adds main items of any kind.
    fn main_items(&mut self, dice: &mut Dice, manner: &Manner) -> Result<(), Stop> {
        for k in 0..manner.items {
            self.structure(dice, k, manner)?;
            self.main_item(dice, k, manner)?;
        }
        Ok(())
    }

    /// Adds what stands between main items: a report ID, collections, Push and Pop, another page.
    fn structure(&mut self, dice: &mut Dice, k: u32, manner: &Manner) -> Result<(), Stop> {
        if manner.ids > 0 && (k == 0 || dice.one_in(3)) {
            self.writer
                .number(Item::ReportId, dice.within(1, manner.ids))?;
        }
        match dice.below(24) {
            0 if self.collections < 8 => self.open(dice.below(3)),
            1 if self.collections > 1 => {
                self.collections = self.collections.saturating_sub(1);
                self.writer.bare(Item::EndCollection)
            }
            2 if self.pushes < 4 => {
                self.pushes = self.pushes.saturating_add(1);
                self.writer.bare(Item::Push)
            }
            3 if self.pushes > 0 => {
                self.pushes = self.pushes.saturating_sub(1);
                self.writer.bare(Item::Pop)
            }
            4..=6 => self.writer.number(Item::UsagePage, dice.one_of(&PAGES)),
            _ => Ok(()),
        }
    }

    /// Adds a main item with what it needs.
    fn main_item(&mut self, dice: &mut Dice, k: u32, manner: &Manner) -> Result<(), Stop> {
        let count = dice.within(1, manner.most);
        if k == 0 || dice.one_in(manner.steady) {
            self.fields(dice)?;
        }
        if k == 0 || manner.most > 1 {
            self.writer.number(Item::ReportCount, count)?;
        }
        self.usages(dice, count)?;
        let flags = dice.one_of(&FLAGS);
        match dice.below(12) {
            0 => self.writer.number(Item::Output, flags),
            1 => self.writer.number(Item::Feature, flags),
            _ => self.writer.number(Item::Input, flags),
        }
    }

    /// Adds reports of one element each, by rising IDs, or one without an ID.
    fn single_elements(&mut self, dice: &mut Dice, ids: u32) -> Result<(), Stop> {
        if ids == 0 {
            return self.single_element(dice);
        }
        for id in 1..=ids.min(8) {
            self.writer.number(Item::ReportId, id)?;
            self.single_element(dice)?;
        }
        Ok(())
    }

    /// Adds a report of one element of any kind, padding after it or none, and seldom before it.
    fn single_element(&mut self, dice: &mut Dice) -> Result<(), Stop> {
        if dice.one_in(8) {
            self.padding(dice)?;
        }
        match dice.below(8) {
            0 | 1 => self.single_switch(dice)?,
            2 => self.single_variable(dice, 0x02)?,
            3 => self.single_variable(dice, 0x42)?,
            4 => self.single_variable(dice, 0x06)?,
            5 => self.wide_array(dice, 1)?,
            _ => self.single_key(dice)?,
        }
        for _ in 0..dice.below(3) {
            self.padding(dice)?;
        }
        Ok(())
    }

    /// Adds a switch of one bit or of several.
    fn single_switch(&mut self, dice: &mut Dice) -> Result<(), Stop> {
        let size = match dice.below(4) {
            0 | 1 => 1,
            2 => 8,
            _ => dice.within(2, 32),
        };
        self.range(size, 0, 1)?;
        self.usage_range(dice, 1)?;
        self.input(1, 0x02)
    }

    /// Adds an element of any range with these flags.
    fn single_variable(&mut self, dice: &mut Dice, flags: u32) -> Result<(), Stop> {
        self.fields(dice)?;
        self.usage_range(dice, 1)?;
        self.input(1, flags)
    }

    /// Adds an array of one element, for keys of any page.
    fn single_key(&mut self, dice: &mut Dice) -> Result<(), Stop> {
        self.fields(dice)?;
        let count = dice.within(1, 300);
        self.usage_range(dice, count)?;
        self.input(1, dice.one_of(&ARRAYS))
    }

    /// Adds so many fields of an Input report.
    fn input(&mut self, count: u32, flags: u32) -> Result<(), Stop> {
        self.writer.number(Item::ReportCount, count)?;
        self.writer.number(Item::Input, flags)
    }

    /// Adds bits that mean nothing.
    fn padding(&mut self, dice: &mut Dice) -> Result<(), Stop> {
        self.writer.number(Item::ReportSize, dice.within(1, 16))?;
        self.input(dice.within(1, 3), 0x01)
    }

    /// Adds arrays of many keys, beside other items or alone, in one report or several.
    fn wide_arrays(&mut self, dice: &mut Dice, ids: u32) -> Result<(), Stop> {
        let manner = Manner {
            items: dice.within(1, 5),
            most: 8,
            ids: ids.min(3),
            steady: 1,
        };
        for k in 0..manner.items {
            self.structure(dice, k, &manner)?;
            if dice.one_in(2) {
                self.main_item(dice, k, &manner)?;
            } else {
                let count = some_count(dice);
                self.wide_array(dice, count)?;
            }
        }
        let count = some_count(dice);
        self.wide_array(dice, count)
    }

    /// Adds an array of over 512 keys, mostly with ErrorRollOver among them: of fields that name all of them or few, and from a
    /// number on that may be far below those that the fields can hold.
    fn wide_array(&mut self, dice: &mut Dice, count: u32) -> Result<(), Stop> {
        let least = dice.below(3);
        let more = dice.within(513, 700);
        let size = match dice.below(7) {
            0..=2 => 8,
            3 => 16,
            4 => dice.within(1, 6),
            _ => dice.within(7, 20),
        };
        let first = if dice.one_in(3) {
            dice.between(-600, -1)
        } else {
            i64::from(dice.below(2))
        };
        let (_, greatest) = ends(size, first < 0);
        self.range(size, first, greatest.min(1000))?;
        self.few_usages(dice, least)?;
        self.keyboard_usages(least, least.saturating_add(more))?;
        self.input(count, dice.one_of(&ARRAYS))
    }

    /// Adds, in front of a long range of keys, none, one or many short ones, some of which have ErrorRollOver.
    fn few_usages(&mut self, dice: &mut Dice, least: u32) -> Result<(), Stop> {
        let ranges = match dice.below(8) {
            0 | 1 => 1,
            2 | 3 => dice.within(2, 40),
            _ => 0,
        };
        for _ in 0..ranges {
            let first = if dice.one_in(2) {
                least
            } else {
                dice.within(4, 90)
            };
            self.keyboard_usages(first, first.saturating_add(dice.below(9)))?;
        }
        Ok(())
    }

    /// Adds a range of usages of the keyboard page (HID Usage Tables, Keyboard/Keypad Page).
    fn keyboard_usages(&mut self, least: u32, greatest: u32) -> Result<(), Stop> {
        const PAGE: u32 = 0x0007_0000;
        self.writer
            .number(Item::UsageMinimum, PAGE.saturating_add(least))?;
        self.writer
            .number(Item::UsageMaximum, PAGE.saturating_add(greatest))
    }

    /// Adds the size and the range of fields.
    fn fields(&mut self, dice: &mut Dice) -> Result<(), Stop> {
        match dice.below(9) {
            0 | 1 => self.range(1, 0, 1),
            2 => self.range(8, -127, 127),
            3 => self.range(8, 0, 255),
            4 => self.range(4, 0, 7),
            5 => self.range(16, -32_768, 32_767),
            6 => self.range(8, 1, dice.between(1, 255)),
            7 => self.whole_range(dice),
            _ => self.part_range(dice),
        }
    }

    /// Adds this size and this range.
    fn range(&mut self, size: u32, least: i64, greatest: i64) -> Result<(), Stop> {
        self.writer.number(Item::ReportSize, size)?;
        self.writer.signed(Item::LogicalMinimum, clamped(least))?;
        self.writer.signed(Item::LogicalMaximum, clamped(greatest))
    }

    /// Adds any size, with all numbers that it has, with a sign or without.
    fn whole_range(&mut self, dice: &mut Dice) -> Result<(), Stop> {
        let size = dice.within(1, 32);
        let (least, greatest) = ends(size, dice.one_in(2));
        self.range(size, least, greatest)
    }

    /// Adds any size, with some of the numbers that it has.
    fn part_range(&mut self, dice: &mut Dice) -> Result<(), Stop> {
        let size = dice.within(1, 32);
        let (least, greatest) = ends(size, dice.one_in(2));
        let one = dice.between(least, greatest);
        let other = dice.between(least, greatest);
        self.range(size, one.min(other), one.max(other))
    }

    /// Adds the usages of so many fields: more or fewer, by ranges, by themselves or both, or none.
    fn usages(&mut self, dice: &mut Dice, count: u32) -> Result<(), Stop> {
        match dice.below(8) {
            0 => Ok(()),
            1..=3 => self.usage_range(dice, count),
            4 => {
                self.usage_range(dice, count / 2)?;
                self.single_usages(dice, 2)
            }
            5 => self
                .writer
                .number(Item::Usage, dice.within(0x000C_0000, 0x000C_02FF)),
            _ => self.single_usages(dice, count.min(12)),
        }
    }

    /// Adds a range of usages, for so many fields, for a few more, or of as many as an array of many keys has.
    fn usage_range(&mut self, dice: &mut Dice, count: u32) -> Result<(), Stop> {
        let least = dice.below(5);
        let more = match dice.below(16) {
            0 => dice.within(513, 65_000),
            1..=4 => dice.below(250),
            _ => 0,
        };
        let greatest = least.saturating_add(count).saturating_add(more);
        self.writer.number(Item::UsageMinimum, least)?;
        self.writer.number(Item::UsageMaximum, greatest)
    }

    /// Adds so many usages, not always different.
    fn single_usages(&mut self, dice: &mut Dice, count: u32) -> Result<(), Stop> {
        for _ in 0..count {
            self.writer.number(Item::Usage, dice.within(0x30, 0x3F))?;
        }
        Ok(())
    }
}

/// How many elements an array of many keys has: one, as many as a keyboard's, or up to more than are compared with each other.
fn some_count(dice: &mut Dice) -> u32 {
    match dice.below(5) {
        0 => 1,
        1 | 2 => dice.within(2, 6),
        3 => dice.within(1, 40),
        _ => dice.within(33, 70),
    }
}

/// The least and the greatest number of so many bits.
fn ends(size: u32, is_signed: bool) -> (i64, i64) {
    let half = 1i64.wrapping_shl(size.saturating_sub(1));
    let below = half.wrapping_sub(1);
    if is_signed {
        (half.wrapping_neg(), below)
    } else {
        (0, below.wrapping_add(half))
    }
}

/// A number, within those of 32 bits with a sign.
fn clamped(number: i64) -> i32 {
    match i32::try_from(number) {
        Ok(number) => number,
        Err(_) => i32::MAX,
    }
}
