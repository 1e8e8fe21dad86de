//! USB/IP, as Linux speaks it: its messages and their bytes, and the submits that wait at a server.
//! ```text
//!   host                                              server
//!   OP_REQ_DEVLIST, 8 bytes                       ->  decode_operation
//!                              OP_REP_DEVLIST     <-  encode_operation_reply, encode_description of each device
//!   OP_REQ_IMPORT, 8 bytes, and a bus ID of 32    ->  decode_operation
//!                              OP_REP_IMPORT      <-  encode_operation_reply, encode_description
//!   decode_operation_reply, decode_device_number
//!   CMD_SUBMIT, 48 bytes, and data to the device  ->  decode_command; PendingSubmits::submit where it waits for a report
//!                              RET_SUBMIT, data   <-  PendingSubmits::answer, encode_reply
//!   CMD_UNLINK, 48 bytes                          ->  decode_command; PendingSubmits::unlink
//!                              RET_UNLINK         <-  encode_reply
//! ```
//! It reads and writes nothing itself, never waits, and takes no memory: the caller has the bytes and the time.
//!
//! The rule to know: there is no framing but the lengths. After the header of a submit to the device its `length` bytes of data
//! follow, and after a reply to a submit from the device those of the reply. So what would make a length unknown is refused, and
//! the connection is over then. Where Linux and its programs fill a field otherwise (start_frame, number_of_packets, the status of
//! a request, the direction of an unlink), the field isn't looked at.
//!
//! The promise: `decode_command`, `decode_reply` and `decode_operation` accept exactly what has its fields at their offsets, and
//! give them (`found`, `complete` and `fault`); what was encoded is read again (`read` on [`encode_command`], [`encode_reply`] and
//! [`encode_operation`]). Each submit that waits is answered once ([`laws::each_submit_is_answered_once`]).
//! ```text
//!   let submit = decode_command(&header)?;                  // Command::Submit, or Err, printed as `N3`
//!   waiting.submit(&submit);                                // None: it waits
//!   waiting.unlink(&unlink);                                // UnlinkReply { status: Status::Unlinked, .. }
//!   waiting.answer(Status::Success, 8);                     // None: nothing waits any more
//! ```
#![tactic(auto)]

mod decoding;
mod encoding;
mod fault;
pub mod laws;
mod message;
mod operation;
mod operation_reply;
mod pending;

pub use decoding::{decode_command, decode_reply};
pub use encoding::{encode_command, encode_reply};
pub use fault::UsbipFault;
pub use message::{
    Command, Direction, HEADER, MAX_DATA, Reply, Status, Submit, SubmitReply, Unlink, UnlinkReply,
};
pub use operation::{
    DeviceDescription, Operation, OperationStatus, Speed, VERSION, decode_operation,
    encode_description, encode_operation, encode_operation_reply,
};
pub use operation_reply::{decode_device_number, decode_operation_reply};
pub use pending::{MAX_PENDING, PendingSubmit, PendingSubmits};
