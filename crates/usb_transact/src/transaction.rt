//! One transaction over a bus that may lose packets (USB 2.0, 8.5.4).
ghost use Rattle.std.specs.Prelude.{◌≡◌, IfSome};
ghost use Rattle.std.specs.Option.{option_copied};
ghost use Rattle.usb_packet.specs.PacketEncoding.{Fits};
ghost use Rattle.usb_transact.specs.Replies.{host_after};
ghost use Rattle.usb_transact.specs.Fate.{arrives_under};
ghost use Rattle.usb_transact.specs.Exchange.{took_of, pipe_after};
ghost use Rattle.usb_transact.specs.Transaction.{Acknowledges, Transacts, answer_to_token};

use crate::bus::{Bus, Phase, send_packet, send_reply};
use crate::device::DevPipe;
use crate::host::{HostPipe, Took};
use arrayvec::ArrayVec;
use usb_packet::{Packet, TokenKind};

/// Which packet of a transaction is lost: each other one arrives as it was sent. In SETUP and OUT transactions the
/// device's answer is its handshake, and `ReplyLost` and `AckLost` both lose it.
#[derive(Clone, Copy, Debug, PartialEq, Eq)]
pub enum Fate {
    /// None is lost.
    Clean,
    /// What the host sends first: the token, or token and data.
    TokenLost,
    /// The device's answer.
    ReplyLost,
    /// The host's acknowledgement. Where an IN transaction has none (NAK, STALL), this is the same as `Clean`.
    AckLost,
}

impl Bus for Fate {
    ghost use Rattle.usb_transact.specs.Fate.{arrives_under};

    ghost arrives = { arrives_under };

    fn transmit(&self, phase: Phase, _bytes: &mut ArrayVec<u8, 65>) -> bool {
        match (self, phase) {
            (Fate::TokenLost, Phase::Token | Phase::HostData)
            | (Fate::ReplyLost, Phase::Reply | Phase::Handshake)
            | (Fate::AckLost, Phase::Handshake | Phase::Acknowledgement) => false,
            _ => true,
        }
    }
}

/// The device's answer, where it has read an IN token.
fn answer_token(token: Option<&Packet>, device: &DevPipe) -> Option<Packet>
    ensures answer { result ≡ answer_to_token (option_copied token.entry) device.now }
    ensures fits { IfSome result Fits }
{
    match token? {
        Packet::Token {
            kind: TokenKind::In,
            ..
        } => Some(device.answer()),
        _ => None,
    }
}

/// Sends ACK for data, fresh or not, and lets the device have what arrives of it.
fn acknowledge<B: Bus>(bus: &B, took: &Took, device: &mut DevPipe)
    ensures { Acknowledges (B.arrives bus.now) took.now device.old device.new }
{
    if matches!(took, Took::Fresh(_) | Took::Again) {
        let arrived = send_packet(bus, Phase::Acknowledgement, &Packet::Ack);
        if matches!(arrived, Some(Packet::Ack)) {
            device.acknowledged();
        }
    }
}

/// One transaction over any bus.
fn transact<B: Bus>(bus: &B, host: &mut HostPipe, device: &mut DevPipe) -> Took
    ensures { Transacts (B.arrives bus.now) host.old device.old result host.new device.new }
{
    let token = send_packet(bus, Phase::Token, &host.token());
    let answer = answer_token(token.as_ref(), device);
    let reply = send_reply(bus, Phase::Reply, answer.as_ref());
    let took = host.take(reply.as_ref());
    acknowledge(bus, &took, device);
    took
}

/// One transaction (USB 2.0, 8.5.4): the host's IN token, the device's answer, and ACK for data, fresh or not. Each
/// packet goes as its bytes.
///
/// | fate | armed | host takes | then |
/// |---|---|---|---|
/// | `TokenLost`, `ReplyLost` | any | `Silent` | nothing changes |
/// | `Clean`, `AckLost` | the endpoint is halted | `Stall` | nothing changes |
/// | `Clean`, `AckLost` | nothing | `Nak` | nothing changes |
/// | `Clean`, `AckLost` | under the expected toggle | `Fresh` with the bytes | the host's toggle changes |
/// | `Clean`, `AckLost` | under the other toggle | `Again` | the host's toggle stays |
/// | `Clean` | data, under either toggle | as above | and the device's toggle changes, and nothing is armed |
pub fn exchange(host: &mut HostPipe, device: &mut DevPipe, fate: Fate) -> Took
    // Packet by packet: each is sent as its bytes, and its end acts on what it reads of those that arrive.
    ensures packets { Transacts
        (arrives_under fate) host.old device.old result host.new device.new }

    // The table.
    ensures took { result ≡ took_of fate host.old device.old }
    ensures host { host.new ≡ host_after result host.old }
    ensures device { device.new ≡ pipe_after fate device.old }
{
    transact(&fate, host, device)
}
