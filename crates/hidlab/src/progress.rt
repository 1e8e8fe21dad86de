//! How far a run is, as a line that is written over and over.

use lab_session::Watch;
use std::io::Write;

/// The line is written once for so many polls and lines that were carried out.
const STEP: u64 = 100_000;

/// A line on a terminal, or none where there is no terminal.
#[derive(Drop)]
pub struct Progress<W> {
    terminal: Option<W>,
    /// The lines of all sources, up to the last read.
    lines: u64,
    /// Those of the source that runs.
    of_source: usize,
    /// At how many polls and lines the line is written next.
    next: u64,
    is_shown: bool,
}

impl<W: Write> Progress<W> {
    /// No line was carried out yet.
    pub fn new(terminal: Option<W>) -> Self {
        Progress {
            terminal,
            lines: 0,
            of_source: 0,
            next: STEP,
            is_shown: false,
        }
    }

    /// Another source runs, of which so many lines were counted.
    pub fn begin(&mut self, lines: usize) {
        self.of_source = lines;
    }

    /// Shows the progress: these polls were made so far.
    fn show(&mut self, polls: u64) {
        let lines = self.lines;
        if let Some(terminal) = &mut self.terminal {
            let _ = write!(terminal, "\r{polls} polls, {lines} lines");
            self.is_shown = true;
        }
    }

    /// Takes the line away.
    pub fn clear(&mut self) {
        if !self.is_shown {
            return;
        }
        if let Some(terminal) = &mut self.terminal {
            let _ = write!(terminal, "\r\x1b[K");
        }
        self.is_shown = false;
    }
}

impl<W: Write> Watch for Progress<W> {
    fn tell(&mut self, lines: usize, polls: u64) {
        let more = lines.saturating_sub(self.of_source) as u64;
        self.of_source = lines;
        self.lines = self.lines.saturating_add(more);
        let done = self.lines.saturating_add(polls);
        if done >= self.next {
            self.next = done.saturating_add(STEP);
            self.show(polls);
        }
    }
}
