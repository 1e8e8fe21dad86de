//! Polls, as they are printed.

ghost use Rattle.std.specs.Prelude.{◌≡◌, ◌++◌, OnOk, string_bytes};
ghost use Rattle.std.specs.Option.{option_copied};
ghost use Rattle.hid_text.specs.PollText.{packet_words, reply_words, reply_text, verdict_word, poll_text};

use hid_notation::print_bytes;
use std::alloc::AllocError;
use usb_packet::{Packet, decode};
use usb_transact::Took;

/// Adds the name of a packet that a device sends, and of data each byte.
fn print_packet(text: &mut String, packet: &Packet) -> Result<(), AllocError>
    ensures { OnOk result (string_bytes text.new
        ≡ string_bytes text.old ++ packet_words packet.now) }
{
    match packet {
        Packet::Data { one, payload } => {
            text.push_str(if *one { "DATA1" } else { "DATA0" })?;
            print_bytes(text, payload.as_slice())
        }
        Packet::Nak => text.push_str("NAK"),
        Packet::Stall => text.push_str("STALL"),
        Packet::Ack | Packet::Token { .. } => text.push_str("none"),
    }
}

/// Adds what the bytes encode that a device sent.
fn print_reply(text: &mut String, bytes: &[u8]) -> Result<(), AllocError>
    ensures { OnOk result (string_bytes text.new ≡ string_bytes text.old ++ reply_words bytes.now) }
{
    match decode(bytes) {
        Ok(packet) => print_packet(text, &packet),
        Err(_) => text.push_str("none"),
    }
}

/// Adds what a device sent, or `none`.
fn print_sent(text: &mut String, reply: Option<&[u8]>) -> Result<(), AllocError>
    ensures { OnOk result (string_bytes text.new
        ≡ string_bytes text.old ++ reply_text (option_copied reply.entry)) }
{
    match reply {
        None => text.push_str("none"),
        Some(bytes) => print_reply(text, bytes),
    }
}

/// What the host made of the reply.
fn verdict_word(took: &Took) -> &'static str
    ensures { result.now ≡ verdict_word took.now }
{
    match took {
        Took::Fresh(_) => "fresh",
        Took::Again => "again",
        Took::Nak => "nak",
        Took::Stall => "stall",
        Took::Silent => "silent",
    }
}

/// Adds the line of a poll: what the device sent, also where it was lost, and what the host made of it.
///
/// # Errors
/// Out of memory; part of the text may be added then.
#[tactic(auto, unfolding(crate::specs::PollText::poll_text))]
pub fn print_poll(
    text: &mut String,
    dev: u8,
    reply: Option<&[u8]>,
    took: &Took,
) -> Result<(), AllocError>
    ensures { OnOk result (string_bytes text.new
        ≡ string_bytes text.old ++ poll_text dev (option_copied reply.entry) took.now) }
{
    write!(text, "{dev} poll ")?;
    print_sent(text, reply)?;
    let verdict = verdict_word(took);
    writeln!(text, " {verdict}")
}
