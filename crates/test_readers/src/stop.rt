//! Why a run isn't played to its end.

use std::alloc::{AllocError, AllocFailed};
use std::io;

/// Why a run isn't played to its end.
#[derive(Clone, Copy, Debug)]
pub enum Stop {
    /// The words of the command line say nothing that can be done.
    Usage,
    /// A file can't be read, or has no descriptor.
    File,
    Memory,
    Output,
}

impl From<AllocError> for Stop {
    fn from(_error: AllocError) -> Stop {
        Stop::Memory
    }
}

impl<T: Drop> From<AllocFailed<T>> for Stop {
    fn from(_error: AllocFailed<T>) -> Stop {
        Stop::Memory
    }
}

impl From<io::Error> for Stop {
    fn from(_error: io::Error) -> Stop {
        Stop::Output
    }
}

impl Stop {
    /// What is said of it on standard error.
    pub fn words(self) -> &'static str {
        match self {
            Stop::Usage => "test_readers [--seed N] [--reports N] [--descriptor FILE]..",
            Stop::File => "no descriptor that is accepted",
            Stop::Memory => "out of memory",
            Stop::Output => "standard output can't be written",
        }
    }
}
