//! How far a file is played, as a line that is written over and over.

use hid_recording::{Summary, Watch};
use std::io::Write;

/// The line is written once for each `STEP` bytes.
const STEP: u64 = 1 << 20;

/// A line on a terminal, or none where there is no terminal.
#[derive(Drop)]
pub struct Progress<W> {
    terminal: Option<W>,
    /// The bytes of the file, where they are known.
    size: Option<u64>,
    /// Until n bytes are read nothing is written.
    next: u64,
    is_shown: bool,
}

impl<W: Write> Progress<W> {
    /// No progress yet.
    pub fn new(terminal: Option<W>, size: Option<u64>) -> Self {
        Progress {
            terminal,
            size,
            next: STEP,
            is_shown: false,
        }
    }

    /// Takes the line away.
    pub fn clear(&mut self) {
        if !self.is_shown {
            return;
        }
        if let Some(terminal) = &mut self.terminal {
            let _ = write!(terminal, "\r\x1b[K");
        }
        self.is_shown = false;
    }
}

impl<W: Write> Watch for Progress<W> {
    fn see(&mut self, bytes: u64, summary: &Summary) {
        if bytes < self.next {
            return;
        }
        self.next = bytes.saturating_add(STEP);
        let reports = summary.reports;
        if let Some(terminal) = &mut self.terminal {
            let _ = match self.size {
                Some(size) => write!(terminal, "\r{bytes} of {size} bytes, {reports} reports"),
                None => write!(terminal, "\r{bytes} bytes, {reports} reports"),
            };
            self.is_shown = true;
        }
    }
}
