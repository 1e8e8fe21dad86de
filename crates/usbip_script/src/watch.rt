//! What stands by while a script is served.

use crate::fault::ServeFault;
use std::io::Write;

/// What hears what the host sets, and says how far the script may go on.
pub trait Watch {
    /// Hears that the host set a report: `1 output 0 02`, with a line feed at its end.
    ///
    /// # Errors
    /// What ends the session.
    fn hear(&mut self, line: &str) -> Result<(), ServeFault>;

    /// How many of the actions may come so far.
    fn allowed(&self) -> usize;

    /// The actions that may come were all done, and the next one might come, by a time in milliseconds since the session began. The
    /// host has the device at this place. Whether more may come, or may be asked for at once.
    ///
    /// # Errors
    /// What ends the session.
    fn go_on(&mut self, place: Option<usize>, now: u64) -> Result<bool, ServeFault>;

    /// The connection ended, of a host that had the device at this place, if it had one.
    ///
    /// # Errors
    /// What is reported instead, where the end is not a good one.
    fn end(&mut self, place: Option<usize>) -> Result<(), ServeFault>;
}

/// Writes what the host sets, and never holds the script back.
#[derive(Drop)]
pub struct Telling<T> {
    to: T,
}

impl<T: Write> Telling<T> {
    /// What the host sets is written to this.
    pub fn new(to: T) -> Self {
        Telling { to }
    }
}

impl<T: Write> Watch for Telling<T> {
    fn hear(&mut self, line: &str) -> Result<(), ServeFault> {
        if self.to.write_all(line.as_bytes()).is_err() || self.to.flush().is_err() {
            return Err(ServeFault::Told);
        }
        Ok(())
    }

    fn allowed(&self) -> usize {
        usize::MAX
    }

    fn go_on(&mut self, _place: Option<usize>, _now: u64) -> Result<bool, ServeFault> {
        Ok(false)
    }

    fn end(&mut self, _place: Option<usize>) -> Result<(), ServeFault> {
        Ok(())
    }
}
