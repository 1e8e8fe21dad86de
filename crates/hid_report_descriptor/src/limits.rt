//! How much of a descriptor is read. The definitions cite these limits too.

/// The longest descriptor, in bytes (our choice).
pub const MAX_DESCRIPTOR: usize = 4096;

/// The most listed items (our choice).
pub const MAX_ITEMS: usize = 512;

/// The most usage entries of an item (our choice).
pub const MAX_ENTRIES: usize = 64;

/// The most Pushes that are open at a time (our choice).
pub const MAX_OPEN_PUSHES: usize = 8;

/// The most collections that are open at a time (our choice).
pub const MAX_OPEN_COLLECTIONS: usize = 16;

/// The most Report IDs that fields have (our choice).
pub const MAX_REPORT_IDS: usize = 64;

/// The widest data field that is read as a number, in bits (our choice).
pub const MAX_WIDTH: u32 = 32;

/// No key of an array stands at this place of its usage list or after it (our choice).
pub const MAX_KEYS: usize = 65_536;

/// The most data fields of all listed items of a virtual device together (our choice).
pub const MAX_ELEMENTS: u32 = 4096;

/// The longest report of a virtual device and its host, in bytes with its ID (our choice).
pub const MAX_REPORT_BYTES: u32 = 256;

/// The longest report of a real device that is read, in bytes with its ID (that of Linux).
pub const MAX_REAL_REPORT_BYTES: u32 = 16_384;

/// The most data fields of all listed items of a real device together (our choice).
pub const MAX_REAL_ELEMENTS: u32 = 65_536;

/// How much of a descriptor is read.
#[derive(Clone, Copy, Debug, PartialEq, Eq)]
pub enum Limits {
    /// That of a virtual device and its host.
    Bus,
    /// That of readers of real devices.
    Real,
}

impl Limits {
    ghost use Rattle.std.specs.Prelude.{◌≡◌};
    ghost use Rattle.hid_report_descriptor.specs.Limits.{longest_report, most_elements, widest_field};

    /// The longest report, in bytes with its ID.
    pub fn report_bytes(self) -> u32
        ensures { result ≡ longest_report self }
    {
        match self {
            Limits::Bus => MAX_REPORT_BYTES,
            Limits::Real => MAX_REAL_REPORT_BYTES,
        }
    }

    /// The most data fields of all listed items together.
    pub fn elements(self) -> u32
        ensures { result ≡ most_elements self }
    {
        match self {
            Limits::Bus => MAX_ELEMENTS,
            Limits::Real => MAX_REAL_ELEMENTS,
        }
    }

    /// The widest data field, in bits. One of over [`MAX_WIDTH`] is padding.
    pub fn width(self) -> u32
        ensures { result ≡ widest_field self }
    {
        match self {
            Limits::Bus => MAX_WIDTH,
            Limits::Real => 8 * MAX_REAL_REPORT_BYTES,
        }
    }
}
