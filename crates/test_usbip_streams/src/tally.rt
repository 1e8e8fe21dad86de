//! What streams led to.

use crate::stop::Stop;
use std::alloc::Global;
use std::fmt::{Display, Write};

/// The codes of the refusals that came, and how many there were.
#[derive(Drop)]
pub struct Tally {
    alloc: Global,
    refusals: Vec<(String, u64)>,
}

impl Tally {
    pub fn new(alloc: Global) -> Tally {
        Tally {
            alloc,
            refusals: Vec::new(alloc),
        }
    }

    /// A stream was refused.
    pub fn refuse<T: Display>(&mut self, fault: &T) -> Result<(), Stop> {
        let mut code = String::new(self.alloc);
        if write!(code, "{fault}").is_err() {
            return Err(Stop::Memory);
        }
        for (known, count) in self.refusals.iter_mut() {
            if known.as_str() == code.as_str() {
                *count = count.wrapping_add(1);
                return Ok(());
            }
        }
        self.refusals.push((code, 1))?;
        self.refusals.sort()?;
        Ok(())
    }

    /// The codes, and how many streams each ended.
    pub fn refusals(&self) -> &[(String, u64)] {
        &self.refusals
    }

    /// The codes, with blanks between them.
    pub fn codes(&self) -> Result<String, Stop> {
        let mut text = String::new(self.alloc);
        for (code, _) in &self.refusals {
            if !text.is_empty() {
                text.push(' ')?;
            }
            text.push_str(code)?;
        }
        Ok(text)
    }
}
