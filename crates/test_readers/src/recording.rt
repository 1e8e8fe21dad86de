//! What a device sent, as hid-recorder writes it.

use crate::stop::Stop;
use std::alloc::Global;
use std::fmt::Write;

/// The lines of a recording so far.
#[derive(Drop)]
pub struct Recording {
    text: String,
    reports: u64,
}

impl Recording {
    pub fn new(alloc: Global) -> Recording {
        Recording {
            text: String::new(alloc),
            reports: 0,
        }
    }

    pub fn text(&self) -> &str {
        self.text.as_str()
    }

    /// Adds the line of a descriptor.
    pub fn describe(&mut self, descriptor: &[u8]) -> Result<(), Stop> {
        let count = descriptor.len();
        write!(self.text, "R: {count}")?;
        self.bytes(descriptor)
    }

    /// Adds the line of a report; its time is its number.
    pub fn add(&mut self, bytes: &[u8]) -> Result<(), Stop> {
        self.reports = self.reports.saturating_add(1);
        let number = self.reports;
        let count = bytes.len();
        write!(self.text, "E: {number:06}.000000 {count}")?;
        self.bytes(bytes)
    }

    /// Adds bytes in hex, and the end of the line.
    fn bytes(&mut self, bytes: &[u8]) -> Result<(), Stop> {
        for byte in bytes {
            write!(self.text, " {byte:02x}")?;
        }
        writeln!(self.text)?;
        Ok(())
    }
}
