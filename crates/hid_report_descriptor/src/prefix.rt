//! The prefixes of the short items (HID 1.11, 6.2.2).

/// Input, a main item (6.2.2.4).
pub const INPUT: u8 = 0x80;

/// Output, a main item (6.2.2.4).
pub const OUTPUT: u8 = 0x90;

/// Feature, a main item (6.2.2.4).
pub const FEATURE: u8 = 0xB0;

/// Collection, a main item (6.2.2.4).
pub const COLLECTION: u8 = 0xA0;

/// End Collection, a main item (6.2.2.4).
pub const END_COLLECTION: u8 = 0xC0;

/// Usage Page, a global item (6.2.2.7).
pub const USAGE_PAGE: u8 = 0x04;

/// Logical Minimum, a global item (6.2.2.7).
pub const LOGICAL_MINIMUM: u8 = 0x14;

/// Logical Maximum, a global item (6.2.2.7).
pub const LOGICAL_MAXIMUM: u8 = 0x24;

/// Physical Minimum, a global item (6.2.2.7).
pub const PHYSICAL_MINIMUM: u8 = 0x34;

/// Physical Maximum, a global item (6.2.2.7).
pub const PHYSICAL_MAXIMUM: u8 = 0x44;

/// Unit Exponent, a global item (6.2.2.7).
pub const UNIT_EXPONENT: u8 = 0x54;

/// Report Size, a global item (6.2.2.7).
pub const REPORT_SIZE: u8 = 0x74;

/// Report ID, a global item (6.2.2.7).
pub const REPORT_ID: u8 = 0x84;

/// Report Count, a global item (6.2.2.7).
pub const REPORT_COUNT: u8 = 0x94;

/// Push, a global item (6.2.2.7).
pub const PUSH: u8 = 0xA4;

/// Pop, a global item (6.2.2.7).
pub const POP: u8 = 0xB4;

/// Usage, a local item (6.2.2.8).
pub const USAGE: u8 = 0x08;

/// Usage Minimum, a local item (6.2.2.8).
pub const USAGE_MINIMUM: u8 = 0x18;

/// Usage Maximum, a local item (6.2.2.8).
pub const USAGE_MAXIMUM: u8 = 0x28;

/// Delimiter, a local item (6.2.2.8).
pub const DELIMITER: u8 = 0xA8;
