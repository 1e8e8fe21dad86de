//! Why the run of a capture ends early.

use super::fault::Cause;
use super::summary::Summary;
use usb_capture::CaptureFault;

/// Why the run of a capture ends early.
#[derive(Clone, Copy, Debug, PartialEq, Eq)]
pub enum CaptureCause {
    /// What ends a recording too: a refusal of a strict run, the reader, the writer, or memory.
    Run(Cause),
    /// The bytes can't be read as a capture from this place on.
    Format(CaptureFault),
}

/// Where and why the run of a capture ended early, and what was played before.
#[derive(Clone, Copy, Debug, PartialEq, Eq)]
pub struct CaptureRunFault {
    /// The frame that was being read or played, from 1.
    pub frame: u64,
    pub cause: CaptureCause,
    /// What was played before that frame.
    pub played: Summary,
}
