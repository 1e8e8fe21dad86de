//! Why a stream isn't played to its end.

use std::alloc::{AllocError, AllocFailed};

/// Why a stream isn't played to its end.
#[derive(Clone, Copy, Debug)]
pub enum Stop {
    Memory,
    /// What is wrong with an answer, an event or a refusal.
    Wrong(&'static str),
}

impl From<AllocError> for Stop {
    fn from(_error: AllocError) -> Stop {
        Stop::Memory
    }
}

impl<T: Drop> From<AllocFailed<T>> for Stop {
    fn from(_error: AllocFailed<T>) -> Stop {
        Stop::Memory
    }
}

/// Goes on where something holds.
pub fn right(holds: bool, wrong: &'static str) -> Result<(), Stop> {
    if holds {
        Ok(())
    } else {
        Err(Stop::Wrong(wrong))
    }
}
