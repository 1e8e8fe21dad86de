//! Where a run of a rig stops. Why a step is refused, [`StackFault`], stands in `hid_host`: the calls of a host answer it too.
ghost use Rattle.std.specs.Prelude.{Some};
ghost use Rattle.hid_stack.specs.Faults.{run_text};

use hid_host::StackFault;
use std::error::Error;
use std::fmt;

/// Where and why a run stopped. It is printed as the place and the codes, as in `step 4: S3 U6`.
#[derive(Clone, Copy, Debug, PartialEq, Eq)]
pub struct RunFault {
    /// The place of the refused step in the list, from 0. The steps before it are done.
    pub at: usize,
    /// Why that step was refused.
    pub fault: StackFault,
}

impl fmt::Display for RunFault {
    ghost output = { λ fault. Some (run_text fault.at fault.fault) };

    fn fmt<W: fmt::Write>(&self, f: &mut fmt::Formatter<W>) -> fmt::Result {
        let RunFault { at, fault } = *self;
        write!(f, "step {at}: {fault}")
    }
}

impl Error for RunFault {}
