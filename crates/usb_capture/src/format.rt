//! What a capture has said of itself so far.

use super::field::ByteOrder;

/// What the fraction of a second in a pcap file counts.
#[derive(Clone, Copy, Debug, PartialEq, Eq)]
pub enum Fraction {
    Microseconds,
    Nanoseconds,
}

/// The form of a capture, as its first block says.
#[derive(Clone, Copy, Debug, PartialEq, Eq)]
pub enum Format {
    /// No block has come.
    Unknown,
    /// A pcap file: the order of its numbers, what its times count, and the link type of each frame.
    Pcap {
        order: ByteOrder,
        fraction: Fraction,
        link: u16,
    },
    /// A section of a pcapng file: the order of its numbers.
    Section {
        order: ByteOrder,
    },
}

/// How an interface counts the time.
#[derive(Clone, Copy, Debug, PartialEq, Eq)]
pub struct Clock {
    /// How many ticks a second has.
    pub rate: u64,
    /// Seconds to be added to each time, in two's complement.
    pub offset: u64,
}

/// An interface of a section.
#[derive(Clone, Copy, Debug, PartialEq, Eq)]
pub struct Interface {
    /// The link type of its frames.
    pub link: u16,
    /// SnapLen: how many bytes of a frame are captured at most; 0 is no limit.
    pub snap_len: u32,
    pub clock: Clock,
}
