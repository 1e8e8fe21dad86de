//! What a run waits for: what a line asks for that the bench doesn't have.

ghost use Rattle.std.specs.Prelude.{◌≡◌, IfOk};
ghost use Rattle.lab_session.specs.Asking.{asked_said};

use super::asked::Asked;
use hid_requests::Boot;
use hid_stack::Start;
use std::alloc::{AllocError, Global};

/// What a line asks for, with a name of its own.
#[derive(Drop)]
pub enum Need {
    /// The lines up to its `end` come next, so often: 1 to 10,000.
    Repeat {
        /// How often.
        count: u16,
    },
    /// The end of a `repeat`.
    End,
    /// The lines of a file come next.
    Include(Vec<u8>),
    /// A device is attached, whose descriptor is in a file.
    Device {
        /// How device and host begin.
        start: Start,
        /// Whether its reports are those of the boot protocol.
        boot: Boot,
        /// The name of the file.
        name: Vec<u8>,
    },
}

impl Need {
    ghost use Rattle.lab_session.specs.Feeds.{need_said};

    /// What a line asks for.
    ///
    /// # Errors
    /// Out of memory.
    pub fn of(alloc: Global, asked: Asked<'_>) -> Result<Need, AllocError>
        ensures { IfOk result (λ need. need_said need ≡ asked_said asked.entry) }
    {
        match asked {
            Asked::Repeat { count } => Ok(Need::Repeat { count }),
            Asked::End => Ok(Need::End),
            Asked::Include(name) => {
                let name = Vec::from_slice(alloc, name)?;
                Ok(Need::Include(name))
            }
            Asked::Device { start, boot, name } => {
                let name = Vec::from_slice(alloc, name)?;
                Ok(Need::Device { start, boot, name })
            }
        }
    }
}
