//! The output of a row or a step.

use std::alloc::Global;
use std::fmt::{Display, Write};
use test_rows::{RowFault, add};

/// The output of a row, and whether the row could be read. No call of it fails: if memory runs out, the row counts as one that
/// can't be read.
#[derive(Drop)]
pub struct Output {
    text: String,
    is_read: bool,
}

impl Output {
    pub fn new(alloc: Global) -> Output {
        Output {
            text: String::new(alloc),
            is_read: true,
        }
    }

    /// The row, or a word of it, means nothing.
    pub fn unread(&mut self) {
        self.is_read = false;
    }

    /// Appends a text.
    pub fn add(&mut self, text: &str) {
        if self.text.push_str(text).is_err() {
            self.is_read = false;
        }
    }

    /// Appends what is shown, and a blank.
    pub fn show<D: Display + Drop>(&mut self, shown: D) {
        if write!(self.text, "{shown} ").is_err() {
            self.is_read = false;
        }
    }

    /// Appends n of the same byte in hex, a blank after each: more than eight as `07*9`.
    fn run(&mut self, byte: u8, run: usize) {
        if run > 8 {
            if write!(self.text, "{byte:02X}*{run} ").is_err() {
                self.is_read = false;
            }
            return;
        }
        for _ in 0..run {
            if write!(self.text, "{byte:02X} ").is_err() {
                self.is_read = false;
            }
        }
    }

    /// Appends bytes in hex, a blank after each.
    pub fn hex(&mut self, bytes: &[u8]) {
        let mut last = 0;
        let mut run = 0usize;
        for byte in bytes {
            if *byte != last {
                self.run(last, run);
                last = *byte;
                run = 0;
            }
            run = run.saturating_add(1);
        }
        self.run(last, run);
    }

    /// Appends bytes in hex, or that there are none.
    pub fn hex_if_any(&mut self, bytes: Option<&[u8]>) {
        match bytes {
            Some(bytes) => self.hex(bytes),
            None => self.add("none "),
        }
    }

    /// Appends what is reported to a text, if the row could be read.
    pub fn give(&self, text: &mut String) -> Result<(), RowFault> {
        add(text, self.text.as_str().trim())?;
        if self.is_read {
            return Ok(());
        }
        Err(RowFault::Unread)
    }
}
