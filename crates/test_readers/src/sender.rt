//! What a device sends: reports that are random, and alike enough that much of them stays; arrays that name ErrorRollOver, and
//! then the same keys again, or others.

use crate::dice::Dice;
use crate::stop::Stop;
use hid_layout::{Element, Layout, ReportKind, Shape, usage_at};
use std::alloc::Global;

/// An Input report of a device.
#[derive(Drop)]
struct Sent {
    /// Its place among the reports of the layout.
    report: usize,
    /// Its bytes, as it was sent last.
    bytes: Vec<u8>,
    /// Its bytes before an array of it named ErrorRollOver; empty where none does.
    held: Vec<u8>,
}

/// What a device sends next.
#[derive(Clone, Copy, Debug, PartialEq, Eq)]
pub enum Turn {
    Report,
    /// Nothing more until it is connected anew.
    Release,
}

/// The Input reports of a device, and the one that it sends next.
#[derive(Drop)]
pub struct Sender {
    inputs: Vec<Sent>,
    /// The place of the report that was sent last.
    current: usize,
    bytes: Vec<u8>,
}

/// The first bytes of an Input report: its ID, if there are IDs, and zeros.
fn blank_bytes(alloc: Global, layout: &Layout, report: usize, id: u8) -> Result<Vec<u8>, Stop> {
    let mut bytes = Vec::new(alloc);
    if report < layout.reports().len() {
        for _ in 0..layout.report_bytes(report) {
            bytes.push(0)?;
        }
    }
    if layout.numbered() {
        set_first(&mut bytes, id);
    }
    Ok(bytes)
}

/// Sets the first byte, if there is one.
fn set_first(bytes: &mut [u8], byte: u8) {
    if let Some(first) = bytes.first_mut() {
        *first = byte;
    }
}

/// Sets a bit, if there is one.
fn set_bit(bytes: &mut [u8], at: usize, is_set: bool) {
    const BITS: [u8; 8] = [1, 2, 4, 8, 16, 32, 64, 128];
    if let Some(byte) = bytes.get_mut(at / 8) {
        *byte = if is_set {
            *byte | BITS[at % 8]
        } else {
            *byte & !BITS[at % 8]
        };
    }
}

/// Changes a bit, if there is one.
fn turn_bit(bytes: &mut [u8], at: usize) {
    const BITS: [u8; 8] = [1, 2, 4, 8, 16, 32, 64, 128];
    if let Some(byte) = bytes.get_mut(at / 8) {
        *byte ^= BITS[at % 8];
    }
}

/// Writes the lowest bits of a number in two's complement.
fn set_bits(bytes: &mut [u8], at: usize, width: u32, number: i64) {
    let mut pattern = number.cast_unsigned();
    for k in 0..width {
        set_bit(bytes, at.saturating_add(k as usize), pattern % 2 == 1);
        pattern /= 2;
    }
}

/// A number of an element: one of its range, an end of it, a small one, or any.
fn number_of(dice: &mut Dice, element: &Element) -> i64 {
    let Element { min, max, .. } = *element;
    match dice.below(10) {
        0 => min,
        1 => max,
        2 => max.wrapping_add(1),
        3 => min.wrapping_sub(1),
        4 => i64::from(dice.word()),
        5 => dice.between(0, 3),
        _ => dice.between(min, max),
    }
}

/// Changes an element of a report, if the item at the place has some.
fn change_element(dice: &mut Dice, layout: &Layout, place: usize, bytes: &mut [u8]) {
    let Some(item) = layout.items().get(place) else {
        return;
    };
    let j = dice.place(item.count as usize);
    if place >= layout.items().len() {
        return;
    }
    if let Some(element) = layout.element(place, j) {
        let number = number_of(dice, &element);
        set_element(layout, &element, number, bytes);
    }
}

/// Writes the number of an element.
fn set_element(layout: &Layout, element: &Element, number: i64, bytes: &mut [u8]) {
    let first = if layout.numbered() { 8 } else { 0 };
    set_bits(
        bytes,
        element.bit.saturating_add(first),
        element.width,
        number,
    );
}

/// The number by which an element of an item names ErrorRollOver, if its first usages have it.
fn rollover_number(layout: &Layout, place: usize) -> Option<i64> {
    const FIRST_USAGES: usize = 4;
    let item = layout.items().get(place)?;
    if item.shape != Shape::Array {
        return None;
    }
    let least = item.min;
    if place >= layout.items().len() {
        return None;
    }
    let entries = layout.entries(place);
    for k in 0..FIRST_USAGES {
        if usage_at(entries, k).is_some_and(|usage| usage.is_rollover()) {
            return Some(least.saturating_add(k as i64));
        }
    }
    None
}

/// Makes elements of an array name ErrorRollOver: all, or one of them.
fn roll_over(dice: &mut Dice, layout: &Layout, place: usize, bytes: &mut [u8]) {
    let (Some(number), Some(item)) = (rollover_number(layout, place), layout.items().get(place))
    else {
        return;
    };
    let count = item.count as usize;
    let one = dice.place(count);
    let are_all = !dice.one_in(4);
    if place >= layout.items().len() {
        return;
    }
    for j in 0..count {
        if are_all || j == one {
            if let Some(element) = layout.element(place, j) {
                set_element(layout, &element, number, bytes);
            }
        }
    }
}

impl Sent {
    /// Changes a bit that isn't of the ID.
    fn change_bit(&mut self, dice: &mut Dice, numbered: bool) {
        let bits = self.bytes.len().saturating_mul(8);
        let at = dice.place(bits);
        if !numbered || at >= 8 {
            turn_bit(&mut self.bytes, at);
        }
    }

    /// Changes so many elements.
    fn change_elements(&mut self, dice: &mut Dice, layout: &Layout, count: u32) {
        if self.report >= layout.reports().len() {
            return;
        }
        let places = layout.plan(self.report);
        for _ in 0..count {
            if let Some(place) = places.get(dice.place(places.len())) {
                change_element(dice, layout, *place, &mut self.bytes);
            }
        }
    }

    /// Makes all bytes random, but for the ID.
    fn change_all(&mut self, dice: &mut Dice, numbered: bool) {
        let id = self.bytes.first().copied().unwrap_or(0);
        for byte in self.bytes.iter_mut() {
            *byte = dice.byte();
        }
        if numbered {
            set_first(&mut self.bytes, id);
        }
    }

    /// Makes all bytes zero, but for the ID.
    fn clear(&mut self, numbered: bool) {
        let id = self.bytes.first().copied().unwrap_or(0);
        for byte in self.bytes.iter_mut() {
            *byte = 0;
        }
        if numbered {
            set_first(&mut self.bytes, id);
        }
    }

    /// Makes all arrays, or some of them, name ErrorRollOver; the bytes before are kept.
    fn roll_over(&mut self, dice: &mut Dice, layout: &Layout) -> Result<(), Stop> {
        if self.report >= layout.reports().len() {
            return Ok(());
        }
        if self.held.is_empty() {
            self.held.extend_from_slice(&self.bytes)?;
        }
        let are_all = dice.one_in(2);
        for place in layout.plan(self.report) {
            if are_all || dice.one_in(2) {
                roll_over(dice, layout, *place, &mut self.bytes);
            }
        }
        Ok(())
    }

    /// Goes back to the bytes before an array named ErrorRollOver, if one did.
    fn roll_back(&mut self) -> Result<(), Stop> {
        if !self.held.is_empty() {
            self.bytes.clear();
            self.bytes.extend_from_slice(&self.held)?;
            self.held.clear();
        }
        Ok(())
    }

    /// Changes what is sent, or nothing of it; arrays may name ErrorRollOver, or no more.
    fn change(&mut self, dice: &mut Dice, layout: &Layout) -> Result<(), Stop> {
        let has_rolled_over = !self.held.is_empty();
        match dice.below(12) {
            0 => self.roll_over(dice, layout),
            1..=3 if has_rolled_over => self.roll_back(),
            4 | 5 if has_rolled_over => {
                self.roll_back()?;
                self.change_some(dice, layout);
                Ok(())
            }
            _ => {
                self.change_some(dice, layout);
                Ok(())
            }
        }
    }

    /// Changes some bits or elements, or none.
    fn change_some(&mut self, dice: &mut Dice, layout: &Layout) {
        let numbered = layout.numbered();
        match dice.below(16) {
            0..=3 => {}
            4..=6 => self.change_bit(dice, numbered),
            7..=11 => self.change_elements(dice, layout, 1),
            12 => {
                let count = dice.within(2, 7);
                self.change_elements(dice, layout, count);
            }
            13 => self.change_elements(dice, layout, 100),
            14 => self.change_all(dice, numbered),
            _ => self.clear(numbered),
        }
    }
}

impl Sender {
    /// The Input reports of a layout, of which none was sent.
    pub fn new(alloc: Global, layout: &Layout) -> Result<Sender, Stop> {
        let mut inputs = Vec::new(alloc);
        for (place, report) in layout.reports().iter().enumerate() {
            if report.kind == ReportKind::Input {
                let bytes = blank_bytes(alloc, layout, place, report.id)?;
                inputs.push(Sent {
                    report: place,
                    bytes,
                    held: Vec::new(alloc),
                })?;
            }
        }
        Ok(Sender {
            inputs,
            current: 0,
            bytes: Vec::new(alloc),
        })
    }

    /// The bytes that were sent last.
    pub fn bytes(&self) -> &[u8] {
        &self.bytes
    }

    /// What the device sends next; its bytes are there then.
    pub fn next(&mut self, dice: &mut Dice, layout: &Layout) -> Result<Turn, Stop> {
        if dice.one_in(60) {
            return Ok(Turn::Release);
        }
        if dice.one_in(3) {
            self.current = dice.place(self.inputs.len());
        }
        self.bytes.clear();
        if let Some(sent) = self.inputs.get_mut(self.current) {
            sent.change(dice, layout)?;
            self.bytes.extend_from_slice(&sent.bytes)?;
        }
        if dice.one_in(20) {
            self.damage(dice)?;
        }
        Ok(Turn::Report)
    }

    /// Cuts off the end, adds bytes, or changes the first byte, which may be the ID.
    fn damage(&mut self, dice: &mut Dice) -> Result<(), Stop> {
        match dice.below(4) {
            0 => self.bytes.truncate(dice.place(self.bytes.len())),
            1 => set_first(&mut self.bytes, dice.byte()),
            _ => {
                for _ in 0..dice.below(5) {
                    self.bytes.push(dice.byte())?;
                }
            }
        }
        Ok(())
    }
}
