//! What carries packets between the two ends: a packet goes as its bytes, and is read from the bytes that arrive.
ghost use Rattle.std.specs.Prelude.{IfSome};
ghost use Rattle.std.specs.Option.{option_copied, option_map};
ghost use Rattle.usb_packet.specs.PacketRef.{to_owned, PayloadFits};
ghost use Rattle.usb_packet.specs.PacketEncoding.{Fits};
ghost use Rattle.usb_transact.specs.Bus.{received_bytes, Carries, IsDecoded, Replies};

use arrayvec::ArrayVec;
use usb_packet::{Packet, PacketRef, decode, decode_ref, encode_into};

/// The phases of a transaction, by the packet that is sent in each (USB 2.0, 8.5). An interrupt-IN transaction has the
/// token, the reply and the acknowledgement (8.5.4), a SETUP or OUT transaction the token, the host's data and the
/// handshake (8.5.3).
#[derive(Clone, Copy, PartialEq, Eq)]
pub enum Phase {
    /// The host's token.
    Token,
    /// The host's data, after SETUP or OUT.
    HostData,
    /// The device's answer to IN: data, or a handshake in their place.
    Reply,
    /// The device's handshake for data of the host.
    Handshake,
    /// The host's handshake for data of the device.
    Acknowledgement,
}

/// Hands bytes on to the other end. A transaction is proved for every bus, also for one that changes bytes, so it
/// cannot pass a packet by them. The bus of this model is [`Fate`](crate::Fate).
pub trait Bus {
    ghost use Rattle.std.specs.Prelude.{◌≡◌, ℕ, List, Option};
    ghost use Rattle.usb_transact.specs.declared.bus.Phase.{Phase};
    ghost use Rattle.usb_transact.specs.Bus.{received_bytes};

    // What arrives of the bytes that are sent in a phase.
    ghost arrives: { Self → Phase → List ℕ → Option (List ℕ) };

    /// Whether something arrives of these bytes. What does stands in their place.
    fn transmit(&self, phase: Phase, bytes: &mut ArrayVec<u8, 65>) -> bool
        ensures { received_bytes result bytes.new.items ≡ arrives self.now phase bytes.old.items };
}

/// What an end reads of bytes, where they arrived; none where they encode no packet.
pub fn decode_received(has_arrived: bool, bytes: &[u8]) -> Option<PacketRef<'_>>
    ensures read { IsDecoded (received_bytes has_arrived bytes.now) (option_map to_owned result) }
    ensures short { IfSome result PayloadFits }
{
    if has_arrived {
        decode_ref(bytes).ok()
    } else {
        None
    }
}

/// What the other end reads of a packet that is sent.
pub fn send_packet<B: Bus>(bus: &B, phase: Phase, packet: &Packet) -> Option<Packet>
    requires fits { Fits packet.now }
    ensures { Carries (B.arrives bus.now) phase packet.now result }
{
    let mut bytes = ArrayVec::new();
    encode_into(packet, &mut bytes);
    if !bus.transmit(phase, &mut bytes) {
        return None;
    }
    decode(&bytes).ok()
}

/// What the other end reads of an answer, where there is one.
#[inline(never)] // it saves a copy of the packet
pub fn send_reply<B: Bus>(bus: &B, phase: Phase, answer: Option<&Packet>) -> Option<Packet>
    requires fits { IfSome (option_copied answer) Fits }
    ensures { Replies (B.arrives bus.now) phase (option_copied answer.entry) result }
{
    match answer {
        Some(answer) => send_packet(bus, phase, answer),
        None => None,
    }
}
