//! Who follows how far a run is.

/// Learns how far a run is, before each read.
pub trait Watch {
    /// So many lines of a source were taken, and so many polls made in all.
    fn tell(&mut self, lines: usize, polls: u64);
}
