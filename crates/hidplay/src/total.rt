//! What all files together had.

ghost use Rattle.std.specs.Prelude.{◌≡◌, Some};
ghost use Rattle.hidplay.specs.Total.{total_text, with_result, with_summary};

use super::end_line::refusals_of;
use super::fault::FileFault;
use hid_recording::Summary;
use std::fmt;

/// Files that were played to their end, and counts over these and over what was played of others. They stop at the greatest
/// `u64`.
#[derive(Clone, Copy, Debug, Default)]
pub struct Total {
    files: u64,
    descriptors: u64,
    reports: u64,
    events: u64,
    refused: u64,
}

impl Total {
    /// Adds a file that was played to its end, or what was played of another, with what ended it.
    pub fn add(&mut self, end: &Result<Summary, FileFault>)
        ensures { self.new ≡ with_result self.old end.now }
    {
        match end {
            Ok(summary) => {
                self.files = self.files.saturating_add(1);
                self.count(summary);
            }
            Err(fault) => self.count(&Summary {
                refused: refusals_of(fault),
                ..fault.played
            }),
        }
    }

    /// Adds what was played of a file.
    fn count(&mut self, summary: &Summary)
        ensures { self.new ≡ with_summary self.old summary.now }
    {
        self.descriptors = self.descriptors.saturating_add(summary.descriptors);
        self.reports = self.reports.saturating_add(summary.reports);
        self.events = self.events.saturating_add(summary.events);
        self.refused = self.refused.saturating_add(summary.refused);
    }
}

impl fmt::Display for Total {
    ghost output = { λ total. Some (total_text total) };

    fn fmt<W: fmt::Write>(&self, f: &mut fmt::Formatter<W>) -> fmt::Result {
        let Total {
            files,
            descriptors,
            reports,
            events,
            refused,
        } = *self;
        write!(
            f,
            "files {files}, descriptors {descriptors}, reports {reports}, events {events}, refused {refused}"
        )
    }
}
