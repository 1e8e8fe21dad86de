//! From bytes to the packet that they encode (USB 2.0, 8.3 and 8.4).
ghost use Rattle.std.specs.Prelude.{◌≡◌, ◌∷◌, Ok, IfOk, IfErr};
ghost use Rattle.usb_packet.specs.PacketEncoding.{Encodes, IsHandshake, token_pid, data_pid, pid_of};
ghost use Rattle.usb_packet.specs.Fault.{Decodes, IsFault};
ghost use Rattle.usb_packet.specs.PacketRef.{to_owned, to_owned_or_fault};

use crate::fault::PacketFault;
use crate::packet::{MAX_PAYLOAD, Packet, PacketRef, TokenKind};
use crate::pid;

/// A token with this kind, from what follows its PID.
fn token(kind: TokenKind, body: &[u8]) -> Result<PacketRef<'_>, PacketFault>
    ensures { Decodes (to_owned_or_fault result) (token_pid kind ∷ body.now) }
{
    let [low, high] = body else {
        return Err(PacketFault::BadLength);
    };
    let fields = u16::from_le_bytes([*low, *high]);
    if fields >> 11 != 0 {
        return Err(PacketFault::BadReserved);
    }
    Ok(PacketRef::Token {
        kind,
        addr: (fields & 0x7f) as u8,
        endp: (fields >> 7) as u8,
    })
}

/// A data packet with this toggle, from what follows its PID.
fn data(one: bool, body: &[u8]) -> Result<PacketRef<'_>, PacketFault>
    ensures { Decodes (to_owned_or_fault result) (data_pid one ∷ body.now) }
{
    if body.len() <= MAX_PAYLOAD {
        Ok(PacketRef::Data { one, payload: body })
    } else {
        Err(PacketFault::BadLength)
    }
}

/// This handshake, from what follows its PID.
fn handshake<'a>(packet: PacketRef<'a>, body: &[u8]) -> Result<PacketRef<'a>, PacketFault>
    requires handshake { IsHandshake (to_owned packet) }
    ensures { Decodes (to_owned_or_fault result) (pid_of (to_owned packet.entry) ∷ body.now) }
{
    if body.is_empty() {
        Ok(packet)
    } else {
        Err(PacketFault::BadLength)
    }
}

/// The packet that the bytes encode, with its payload where it stands: as [`decode`] gives it (USB 2.0, 8.3 and 8.4).
///
/// # Errors
/// Where they encode none, the first [`PacketFault`] that stands, in the order of its variants.
#[inline(always)]
pub fn decode_ref(bytes: &[u8]) -> Result<PacketRef<'_>, PacketFault>
    ensures found { IfOk (to_owned_or_fault result) (λ packet. Encodes packet bytes.now) }
    ensures complete { (packet : Packet) → Encodes packet bytes.now
        → to_owned_or_fault result ≡ Ok packet }
    ensures fault { IfErr (to_owned_or_fault result) (λ fault. IsFault fault bytes.now) }
{
    let [first, body @ ..] = bytes else {
        return Err(PacketFault::Empty);
    };
    if first >> 4 != 0x0f - (first & 0x0f) {
        return Err(PacketFault::BadCheck);
    }
    match *first {
        pid::OUT => token(TokenKind::Out, body),
        pid::IN => token(TokenKind::In, body),
        pid::SETUP => token(TokenKind::Setup, body),
        pid::DATA0 => data(false, body),
        pid::DATA1 => data(true, body),
        pid::ACK => handshake(PacketRef::Ack, body),
        pid::NAK => handshake(PacketRef::Nak, body),
        pid::STALL => handshake(PacketRef::Stall, body),
        _ => Err(PacketFault::UnknownPid),
    }
}

/// The packet that the bytes encode (USB 2.0, 8.3 and 8.4), for all bytes of any number.
///
/// # Errors
/// Where they encode none, the first [`PacketFault`] that stands, in the order of its variants.
pub fn decode(bytes: &[u8]) -> Result<Packet, PacketFault>
    // It answers `Ok` exactly on an encoding, with the one packet that it encodes.
    ensures found { IfOk result (λ packet. Encodes packet bytes.now) }
    ensures complete { (packet : Packet) → Encodes packet bytes.now → result ≡ Ok packet }

    // On all other bytes, the first fault.
    ensures fault { IfErr result (λ fault. IsFault fault bytes.now) }
{
    match decode_ref(bytes) {
        Ok(packet) => Ok(packet.to_owned()),
        Err(fault) => Err(fault),
    }
}
