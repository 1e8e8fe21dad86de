//! What came of a control transfer, as a record.
ghost use Rattle.std.specs.Prelude.{◌≡◌};
ghost use Rattle.hidstack_host.specs.Moved.{move_record, moved_record, refused_record};

use crate::cause::{detail_number, fault_number};
use hid_driver::{DriverFault, Moved};

/// The next step of bringing the device up.
pub const MOVE_ONWARD: u32 = 0;

/// The reports of an interface are read from now on.
pub const MOVE_LIVE: u32 = 1;

/// An interface is refused.
pub const MOVE_REFUSED: u32 = 2;

/// The halt of an interface's endpoint is cleared: its reports are read again.
pub const MOVE_CLEARED: u32 = 3;

/// The halt of an interface's endpoint couldn't be cleared.
pub const MOVE_STOPPED: u32 = 4;

/// What was asked for is done.
pub const MOVE_ANSWERED: u32 = 5;

/// What a request that was done led to, or why it is refused.
#[repr(C)]
#[derive(Clone, Copy, Debug)]
pub struct HidMoved {
    /// The place of the interface that moved, else 0.
    pub interface: u64,
    /// One of the six above, from [`MOVE_ONWARD`] to [`MOVE_ANSWERED`]; 0 where it is refused.
    pub step: u32,
    /// 1 for H1 to 16 for H16; 0 where nothing was refused.
    pub cause: u32,
    /// The number of its inner code: of H10 and H11 a B; else 0.
    pub detail: u32,
    /// 0.
    pub spare: u32,
}

/// The record of a step of an interface.
fn move_record(step: u32, interface: usize) -> HidMoved
    ensures { result ≡ move_record step interface }
{
    HidMoved {
        interface: interface as u64,
        step,
        cause: 0,
        detail: 0,
        spare: 0,
    }
}

/// The record of what a request led to.
pub fn moved_record(moved: Moved) -> HidMoved
    ensures { result ≡ moved_record moved }
{
    match moved {
        Moved::Onward => move_record(MOVE_ONWARD, 0),
        Moved::Live { interface } => move_record(MOVE_LIVE, interface),
        Moved::Refused { interface } => move_record(MOVE_REFUSED, interface),
        Moved::Cleared { interface } => move_record(MOVE_CLEARED, interface),
        Moved::Stopped { interface } => move_record(MOVE_STOPPED, interface),
        Moved::Answered => move_record(MOVE_ANSWERED, 0),
    }
}

/// The record of a refusal.
pub fn refused_record(fault: DriverFault) -> HidMoved
    ensures { result ≡ refused_record fault }
{
    HidMoved {
        interface: 0,
        step: 0,
        cause: fault_number(fault),
        detail: detail_number(fault),
        spare: 0,
    }
}
