//! What is answered to a request for an operation, as a host reads it.
ghost use Rattle.std.specs.Prelude.{◌≡◌, Ok, IfOk, IfErr};
ghost use Rattle.usbip.specs.Operations.{reply_code};
ghost use Rattle.usbip.specs.OperationReplies.{IsOperationReply, IsOperationReplyFault, device_number, operation_status_of};

use crate::fault::UsbipFault;
use crate::operation::{Operation, OperationStatus, VERSION};

impl OperationStatus {
    /// The status of a word: one without a name of its own is a failure.
    pub fn of_word(word: u32) -> OperationStatus
        ensures { result ≡ operation_status_of word }
    {
        match word {
            0 => OperationStatus::Success,
            2 => OperationStatus::Busy,
            4 => OperationStatus::NoDevice,
            _ => OperationStatus::Failed,
        }
    }
}

/// The status that the head of a reply to an operation has. Of an import that is done the device follows, 312 bytes.
///
/// # Errors
/// Where it is no reply to the operation, the first [`UsbipFault`] that stands: [`UsbipFault::BadVersion`] or
/// [`UsbipFault::UnknownOperation`].
pub fn decode_operation_reply(
    operation: Operation,
    head: &[u8; 8],
) -> Result<OperationStatus, UsbipFault>
    // What is read stands at its offsets, and whatever stands so is read.
    ensures found { IfOk result (λ status. IsOperationReply head.now operation status) }
    ensures complete { (status : OperationStatus) → IsOperationReply head.now operation status → result ≡ Ok status }
    // Each refusal has its cause.
    ensures fault { IfErr result (λ fault. IsOperationReplyFault fault head.now operation) }
{
    if u16::from_be_bytes([head[0], head[1]]) != VERSION {
        return Err(UsbipFault::BadVersion);
    }
    if u16::from_be_bytes([head[2], head[3]]) != operation.reply_code() {
        return Err(UsbipFault::UnknownOperation);
    }
    let word = u32::from_be_bytes([head[4], head[5], head[6], head[7]]);
    Ok(OperationStatus::of_word(word))
}

/// The number in commands of a described device: that of its bus times 65,536, and its own. Of each the low half counts.
pub fn decode_device_number(description: &[u8; 312]) -> u32
    ensures { result ≡ device_number description.now }
{
    u32::from_be_bytes([
        description[290],
        description[291],
        description[294],
        description[295],
    ])
}
