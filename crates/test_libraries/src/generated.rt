//! Made descriptors of up to 4,200 bytes, more than a script's line can hold: random bytes, random items, boot
//! descriptors and a few items again and again, each with up to three of its bytes changed. Each is laid out within the
//! limits, or refused at a place that it has, and never for lack of memory. Each run makes the same descriptors.

use hid_layout::boot::{KEYBOARD, MOUSE};
use hid_layout::{Cause, Layout, LayoutFault, MAX_DESCRIPTOR, MAX_ITEMS, MAX_REPORT_BYTES};
use std::alloc::Global;
use std::mem::replace;
use std::test::Fail;

/// The most bytes that a made descriptor has, some more than are accepted.
const MOST: u32 = 4_200;

/// How many bytes descriptors are taken from.
const SUPPLY: usize = 16_384;

/// Numbers that follow each other as if at random (D. E. Knuth's MMIX: a linear congruence of 64 bits).
#[derive(Drop)]
struct Numbers {
    state: u64,
}

impl Numbers {
    /// The next one, below `end`; 0 where that is 0.
    fn below(&mut self, end: u32) -> u32 {
        self.state = self
            .state
            .wrapping_mul(6_364_136_223_846_793_005)
            .wrapping_add(1_442_695_040_888_963_407);
        ((self.state >> 33) as u32).checked_rem(end).unwrap_or(0)
    }

    /// The next one, below `end`, as a byte.
    fn byte(&mut self, end: u32) -> u8 {
        (self.below(end) % 256) as u8
    }
}

/// The first bytes of items that are more often right than wrong.
#[rattlefmt::skip]
const PREFIXES: [u8; 26] = [
    0x05, 0x09, 0x09, 0x09, 0x15, 0x19, 0x25, 0x29, 0x75, 0x81, 0x81, 0x81, 0x91,
    0x95, 0xA1, 0xA4, 0xB1, 0xB4, 0xC0, 0x85, 0x35, 0x45, 0x55, 0x65, 0x26, 0x27,
];

/// How many bytes of data an item has by its first byte (HID 1.11, 6.2.2.2).
fn data_bytes(prefix: u8) -> usize {
    match prefix % 4 {
        3 => 4,
        count => count as usize,
    }
}

/// An item of these numbers: a size, a count and an ID are below 12, and mostly right.
fn push_item(numbers: &mut Numbers, supply: &mut Vec<u8>) -> Result<(), Fail> {
    let prefix = PREFIXES[numbers.below(26) as usize % 26];
    supply.push(prefix)?;
    let end = match prefix {
        0x75 | 0x85 | 0x95 => 12,
        _ => 256,
    };
    for _ in 0..data_bytes(prefix) {
        supply.push(numbers.byte(end))?;
    }
    Ok(())
}

/// Random items.
fn items(alloc: Global) -> Result<Vec<u8>, Fail> {
    let mut numbers = Numbers { state: 1 };
    let mut supply = Vec::new(alloc);
    for _ in 0..SUPPLY / 2 {
        push_item(&mut numbers, &mut supply)?;
    }
    Ok(supply)
}

/// Random bytes.
fn bytes(alloc: Global) -> Result<Vec<u8>, Fail> {
    let mut numbers = Numbers { state: 2 };
    let mut supply = Vec::new(alloc);
    for _ in 0..SUPPLY {
        supply.push(numbers.byte(256))?;
    }
    Ok(supply)
}

/// These bytes again and again.
fn repeated(alloc: Global, unit: &[u8]) -> Result<Vec<u8>, Fail> {
    let mut supply = Vec::new(alloc);
    for _ in 0..SUPPLY.checked_div(unit.len()).unwrap_or(0) {
        supply.extend_from_slice(unit)?;
    }
    Ok(supply)
}

/// Whether a descriptor of n bytes can be read so.
fn can_be(length: usize, told: &Result<Layout, LayoutFault>) -> bool {
    let is_long = length > MAX_DESCRIPTOR;
    match told {
        Ok(layout) => {
            let fits = |report| layout.report_bytes(report) <= MAX_REPORT_BYTES as usize;
            !is_long && layout.items().len() <= MAX_ITEMS && (0..layout.reports().len()).all(fits)
        }
        Err(fault) if is_long => fault.cause == Cause::TooLong && fault.at == MAX_DESCRIPTOR,
        Err(fault) => !matches!(fault.cause, Cause::TooLong | Cause::Memory) && fault.at <= length,
    }
}

/// Changes a byte to a random one, or none: where, and what stood there.
fn change(numbers: &mut Numbers, descriptor: &mut [u8]) -> (usize, u8) {
    let at = numbers.below(2 * MOST) as usize;
    let byte = numbers.byte(256);
    match descriptor.get_mut(at) {
        Some(place) => (at, replace(place, byte)),
        None => (at, 0),
    }
}

/// Puts a byte back.
fn undo(descriptor: &mut [u8], changed: (usize, u8)) {
    let (at, byte) = changed;
    if let Some(place) = descriptor.get_mut(at) {
        *place = byte;
    }
}

/// The greatest multiple of a unit up to a number.
fn whole(number: u32, unit: usize) -> usize {
    let number = number as usize;
    number.saturating_sub(number.checked_rem(unit).unwrap_or(0))
}

/// Reads n descriptors, taken from the supply where units begin and end: how many are accepted, or the first that
/// is read as it cannot be.
fn read(alloc: Global, supply: &mut [u8], unit: usize, count: u32) -> Result<u32, u32> {
    let mut numbers = Numbers { state: 3 };
    let mut accepted: u32 = 0;
    for number in 0..count {
        let start = whole(numbers.below(SUPPLY as u32 - MOST), unit);
        let length = whole(numbers.below(MOST + 1), unit);
        let Some(descriptor) = supply.get_mut(start..start.saturating_add(length)) else {
            return Err(number);
        };
        let first = change(&mut numbers, descriptor);
        let second = change(&mut numbers, descriptor);
        let third = change(&mut numbers, descriptor);
        let told = Layout::parse(alloc, descriptor);
        if !can_be(length, &told) {
            return Err(number);
        }
        accepted = accepted.saturating_add(u32::from(told.is_ok()));
        undo(descriptor, third);
        undo(descriptor, second);
        undo(descriptor, first);
    }
    Ok(accepted)
}

#[test]
fn any_bytes_are_read_or_refused(rt: HostRuntime) -> Result<(), Fail> {
    let mut supply = bytes(rt.alloc())?;
    let told = read(rt.alloc(), &mut supply, 1, 120_000);
    assert!(rt; matches!(told, Ok(1..120_000)), "{told:?}");
    Ok(())
}

#[test]
fn any_items_are_read_or_refused(rt: HostRuntime) -> Result<(), Fail> {
    let mut supply = items(rt.alloc())?;
    let told = read(rt.alloc(), &mut supply, 1, 100_000);
    assert!(rt; matches!(told, Ok(1..100_000)), "{told:?}");
    Ok(())
}

/// Reads n boot descriptors, one after the other, with some bytes changed.
fn read_boot(alloc: Global, boot: &[u8], count: u32) -> Result<Result<u32, u32>, Fail> {
    let mut supply = repeated(alloc, boot)?;
    Ok(read(alloc, &mut supply, boot.len(), count))
}

#[test]
fn changed_mice_are_read_or_refused(rt: HostRuntime) -> Result<(), Fail> {
    let told = read_boot(rt.alloc(), &MOUSE, 10_000)?;
    assert!(rt; matches!(told, Ok(1..10_000)), "{told:?}");
    Ok(())
}

#[test]
fn changed_keyboards_are_read_or_refused(rt: HostRuntime) -> Result<(), Fail> {
    let told = read_boot(rt.alloc(), &KEYBOARD, 10_000)?;
    assert!(rt; matches!(told, Ok(1..10_000)), "{told:?}");
    Ok(())
}

/// Items that reach a limit when they are repeated, or that cost a reader most.
#[rattlefmt::skip]
const UNITS: [(&str, &[u8]); 12] = [
    ("Push",                       &[0xA4]),
    ("Push and Pop",               &[0xA4, 0xB4]),
    ("Pop",                        &[0xB4]),
    ("Collection",                 &[0xA1, 0x01]),
    ("Collection and its end",     &[0xA1, 0x01, 0xC0]),
    ("Usage",                      &[0x09, 0x30]),
    ("a range of 65,535 usages",   &[0x19, 0x01, 0x2A, 0xFF, 0xFF]),
    ("a usage and a bit of Input", &[0x09, 0x30, 0x75, 0x01, 0x95, 0x01, 0x81, 0x02]),
    ("a usage and no Output",      &[0x09, 0x30, 0x95, 0x01, 0x91, 0x02]),
    ("a bit of padding",           &[0x75, 0x01, 0x95, 0x01, 0x81, 0x01]),
    ("two Report IDs",             &[0x85, 0x01, 0x85, 0x02]),
    ("a long item",                &[0xFE, 0x01, 0xF0, 0x55]),
];

/// The first of these units that isn't read or refused as it has to be, and its result.
fn first_misread(
    alloc: Global,
    units: &[(&'static str, &'static [u8])],
) -> Result<Option<(&'static str, Result<u32, u32>)>, Fail> {
    for (name, unit) in units {
        let mut supply = repeated(alloc, unit)?;
        let told = read(alloc, &mut supply, unit.len(), 800);
        if !matches!(told, Ok(0..800)) {
            return Ok(Some((*name, told)));
        }
    }
    Ok(None)
}

#[test]
fn repeated_items_are_read_or_refused(rt: HostRuntime) -> Result<(), Fail> {
    assert_eq!(rt; first_misread(rt.alloc(), &UNITS)?, None);
    Ok(())
}
