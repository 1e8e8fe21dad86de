//! From a message to its bytes.
ghost use Rattle.std.specs.Prelude.{◌≡◌, ℕ, ◌+◌, ◌^◌, ◌<◌, ◌≤◌, ◌++◌, length, slice_index};
ghost use Rattle.std.specs.Int.{w32, to_be_bytes};
ghost use Rattle.usbip.specs.declared.message.TheConstants.{MAX_DATA};
ghost use Rattle.usbip.specs.Messages.{HasNamedStatus, IsCommand, IsNamed, IsReply, IsShort, IsSubmit, IsSubmitReply, IsUnlink, IsUnlinkReply, command_bytes, data_length, header_bytes, no_setup, reply_bytes, submit_reply_words, submit_words, unlink_reply_words, unlink_words};

use crate::message::{Command, Reply, Submit, SubmitReply, Unlink, UnlinkReply};
use arrayvec::ArrayVec;

/// Appends a word, its highest byte first.
fn put_word(bytes: &mut ArrayVec<u8, 48>, word: u32)
    requires { length bytes.old.items + 4 ≤ 48 }
    ensures { bytes.new.items ≡ bytes.old.items ++ to_be_bytes w32 word }
{
    let [first, second, third, fourth] = word.to_be_bytes();
    bytes.push(first);
    bytes.push(second);
    bytes.push(third);
    bytes.push(fourth);
}

// For the prover: each word fits 32 bits.
fn are_words(words: &[u32])
    ensures { (i : ℕ) → slice_index words.now i < 2 ^ 32 }
{
    let _words = words;
}

/// Ten words, and eight bytes after them.
fn header(words: &[u32; 10], last: &[u8; 8]) -> ArrayVec<u8, 48>
    ensures bytes { result.items ≡ header_bytes words.now last.now }
    ensures fit { (i : ℕ) → slice_index words.now i < 2 ^ 32 }
{
    // For the prover: each word fits 32 bits.
    are_words(words.as_slice());

    let mut bytes = ArrayVec::new();
    for word in words {
        put_word(&mut bytes, *word);
    }
    bytes.try_extend_from_slice(last).unwrap();
    bytes
}

/// The header of a submit.
fn encode_submit(submit: &Submit) -> ArrayVec<u8, 48>
    ensures encoded { result.items ≡ header_bytes (submit_words submit.now) submit.now.setup }
    ensures read { data_length submit.now.direction submit.now.length ≤ MAX_DATA
        → IsSubmit result.items submit.now }
{
    let Submit {
        seqnum,
        device,
        direction,
        endpoint,
        flags,
        length,
        interval,
        setup,
    } = *submit;
    let words = [
        1,
        seqnum,
        device,
        direction.word(),
        endpoint,
        flags,
        length,
        0,
        0,
        interval,
    ];
    header(&words, &setup)
}

/// The header of an unlink.
fn encode_unlink(unlink: &Unlink) -> ArrayVec<u8, 48>
    ensures encoded { result.items ≡ header_bytes (unlink_words unlink.now) no_setup }
    ensures read { IsUnlink result.items unlink.now }
{
    let Unlink {
        seqnum,
        device,
        submit,
    } = *unlink;
    let words = [2, seqnum, device, 0, 0, submit, 0, 0, 0, 0];
    header(&words, &[0; 8])
}

/// The header of a reply to a submit.
fn encode_submit_reply(reply: &SubmitReply) -> ArrayVec<u8, 48>
    ensures encoded { result.items ≡ header_bytes (submit_reply_words reply.now) no_setup }
    ensures read { IsNamed reply.now.status → IsSubmitReply result.items reply.now }
{
    let SubmitReply {
        seqnum,
        status,
        length,
    } = *reply;
    let words = [3, seqnum, 0, 0, 0, status.word(), length, 0, 0, 0];
    header(&words, &[0; 8])
}

/// The header of a reply to an unlink.
fn encode_unlink_reply(reply: &UnlinkReply) -> ArrayVec<u8, 48>
    ensures encoded { result.items ≡ header_bytes (unlink_reply_words reply.now) no_setup }
    ensures read { IsNamed reply.now.status → IsUnlinkReply result.items reply.now }
{
    let UnlinkReply { seqnum, status } = *reply;
    let words = [4, seqnum, 0, 0, 0, status.word(), 0, 0, 0, 0];
    header(&words, &[0; 8])
}

/// The header of a command.
pub fn encode_command(command: &Command) -> ArrayVec<u8, 48>
    ensures encoded { result.items ≡ command_bytes command.now }
    // It is read again, if its data aren't too long.
    ensures read { IsShort command.now → IsCommand result.items command.now }
{
    match command {
        Command::Submit(submit) => encode_submit(submit),
        Command::Unlink(unlink) => encode_unlink(unlink),
    }
}

/// The header of a reply.
pub fn encode_reply(reply: &Reply) -> ArrayVec<u8, 48>
    ensures encoded { result.items ≡ reply_bytes reply.now }
    // It is read again, if its status isn't a number that has a name.
    ensures read { HasNamedStatus reply.now → IsReply result.items reply.now }
{
    match reply {
        Reply::Submit(submitted) => encode_submit_reply(submitted),
        Reply::Unlink(unlinked) => encode_unlink_reply(unlinked),
    }
}
