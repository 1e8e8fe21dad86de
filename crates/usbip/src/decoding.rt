//! From bytes to the message that they encode.
ghost use Rattle.std.specs.Prelude.{◌≡◌, ◌+◌, ◌≤◌, List, Ok, IfOk, IfErr};
ghost use Rattle.usbip.specs.Messages.{IsCommand, IsReply, IsSubmit, IsSubmitReply, IsUnlink, IsUnlinkReply, eight_at, word_at};
ghost use Rattle.usbip.specs.Faults.{IsCommandFault, IsReplyFault};

use crate::fault::UsbipFault;
use crate::message::{
    Command, Direction, MAX_DATA, Reply, Status, Submit, SubmitReply, Unlink, UnlinkReply,
};

/// The word at an offset, its highest byte first.
fn word(header: &[u8; 48], at: usize) -> u32
    requires { at + 4 ≤ 48 }
    ensures { result ≡ word_at header.now at }
{
    u32::from_be_bytes([header[at], header[at + 1], header[at + 2], header[at + 3]])
}

/// The setup data of a submit.
fn setup(header: &[u8; 48]) -> [u8; 8]
    ensures { result ≡ eight_at header.now 40 }
{
    let mut setup = [0; 8];
    setup.copy_from_slice(&header[40..]);
    setup
}

/// The submit of a header whose command is CMD_SUBMIT.
fn submit(header: &[u8; 48]) -> Result<Submit, UsbipFault>
    requires { word_at header.now 0 ≡ 1 }
    ensures found { IfOk result (λ submit. IsSubmit header.now submit) }
    ensures complete { (submit : Submit) → IsSubmit header.now submit → result ≡ Ok submit }
    ensures fault { IfErr result (λ fault. IsCommandFault fault header.now) }
{
    let direction = Direction::of_word(word(header, 12)).ok_or(UsbipFault::BadDirection)?;
    let length = word(header, 24);
    if direction == Direction::Out && length > MAX_DATA {
        return Err(UsbipFault::TooLong);
    }
    Ok(Submit {
        seqnum: word(header, 4),
        device: word(header, 8),
        direction,
        endpoint: word(header, 16),
        flags: word(header, 20),
        length,
        interval: word(header, 36),
        setup: setup(header),
    })
}

/// The unlink of a header whose command is CMD_UNLINK.
fn unlink(header: &[u8; 48]) -> Unlink
    requires { word_at header.now 0 ≡ 2 }
    ensures found { IsUnlink header.now result }
    ensures only { (unlink : Unlink) → IsUnlink header.now unlink → result ≡ unlink }
{
    Unlink {
        seqnum: word(header, 4),
        device: word(header, 8),
        submit: word(header, 20),
    }
}

/// The command of a header.
///
/// # Errors
/// Where it is none, the first [`UsbipFault`] that stands.
pub fn decode_command(header: &[u8; 48]) -> Result<Command, UsbipFault>
    // What is read stands at its offsets, and whatever stands so is read.
    ensures found { IfOk result (λ command. IsCommand header.now command) }
    ensures complete { (command : Command) → IsCommand header.now command → result ≡ Ok command }
    // Each refusal has its cause.
    ensures fault { IfErr result (λ fault. IsCommandFault fault header.now) }
{
    match word(header, 0) {
        1 => Ok(Command::Submit(submit(header)?)),
        2 => Ok(Command::Unlink(unlink(header))),
        _ => Err(UsbipFault::UnknownCommand),
    }
}

/// The reply of a header.
///
/// # Errors
/// [`UsbipFault::UnknownCommand`] where it is none.
pub fn decode_reply(header: &[u8; 48]) -> Result<Reply, UsbipFault>
    // What is read stands at its offsets, and whatever stands so is read.
    ensures found { IfOk result (λ reply. IsReply header.now reply) }
    ensures complete { (reply : Reply) → IsReply header.now reply → result ≡ Ok reply }
    // Each refusal has its cause.
    ensures fault { IfErr result (λ fault. IsReplyFault fault header.now) }
{
    let seqnum = word(header, 4);
    let status = Status::of_word(word(header, 20));
    match word(header, 0) {
        3 => Ok(Reply::Submit(SubmitReply {
            seqnum,
            status,
            length: word(header, 24),
        })),
        4 => Ok(Reply::Unlink(UnlinkReply { seqnum, status })),
        _ => Err(UsbipFault::UnknownCommand),
    }
}
