//! What the run of a capture gives.

use super::capture_fault::CaptureRunFault;
use super::summary::Summary;
use hid_capture::UndescribedEndpoint;

/// What the run of a capture gives.
#[derive(Debug, Drop)]
pub struct PlayedCapture {
    /// What was played, or what ended the run early.
    pub end: Result<Summary, CaptureRunFault>,
    /// The endpoints whose data came without a report descriptor, and that weren't given one: the first sixteen, in the order
    /// in which they came; of a run that ended early, as far as it came.
    pub undescribed: Vec<UndescribedEndpoint>,
}
