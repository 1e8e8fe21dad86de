//! A report descriptor as it is written, item by item (HID 1.11, 6.2.2).

use crate::stop::Stop;
use std::alloc::Global;

/// The tags and types of items, with no data (HID 1.11, 6.2.2.4 to 6.2.2.8).
#[derive(Clone, Copy, Debug, PartialEq, Eq)]
pub enum Item {
    Input,
    Output,
    Feature,
    Collection,
    EndCollection,
    UsagePage,
    LogicalMinimum,
    LogicalMaximum,
    ReportSize,
    ReportId,
    ReportCount,
    Push,
    Pop,
    Usage,
    UsageMinimum,
    UsageMaximum,
}

impl Item {
    fn prefix(self) -> u8 {
        match self {
            Item::Input => 0x80,
            Item::Output => 0x90,
            Item::Feature => 0xB0,
            Item::Collection => 0xA0,
            Item::EndCollection => 0xC0,
            Item::UsagePage => 0x04,
            Item::LogicalMinimum => 0x14,
            Item::LogicalMaximum => 0x24,
            Item::ReportSize => 0x74,
            Item::ReportId => 0x84,
            Item::ReportCount => 0x94,
            Item::Push => 0xA4,
            Item::Pop => 0xB4,
            Item::Usage => 0x08,
            Item::UsageMinimum => 0x18,
            Item::UsageMaximum => 0x28,
        }
    }
}

/// The bytes of a descriptor so far.
#[derive(Drop)]
pub struct Writer {
    bytes: Vec<u8>,
}

impl Writer {
    pub fn new(alloc: Global) -> Writer {
        Writer {
            bytes: Vec::new(alloc),
        }
    }

    pub fn bytes(&self) -> &[u8] {
        &self.bytes
    }

    /// Adds an item without data.
    pub fn bare(&mut self, item: Item) -> Result<(), Stop> {
        Ok(self.bytes.push(item.prefix())?)
    }

    /// Adds an item with a number, in as few bytes as it has without a sign.
    pub fn number(&mut self, item: Item, number: u32) -> Result<(), Stop> {
        let data = number.to_le_bytes();
        if number < 256 {
            self.data(item, 1, &data[..1])
        } else if number < 65_536 {
            self.data(item, 2, &data[..2])
        } else {
            self.data(item, 3, &data)
        }
    }

    /// Adds an item with a number, in as few bytes as it has with a sign.
    pub fn signed(&mut self, item: Item, number: i32) -> Result<(), Stop> {
        let data = number.to_le_bytes();
        if -128 <= number && number < 128 {
            self.data(item, 1, &data[..1])
        } else if -32_768 <= number && number < 32_768 {
            self.data(item, 2, &data[..2])
        } else {
            self.data(item, 3, &data)
        }
    }

    fn data(&mut self, item: Item, code: u8, data: &[u8]) -> Result<(), Stop> {
        self.bytes.push(item.prefix() | code)?;
        Ok(self.bytes.extend_from_slice(data)?)
    }
}
