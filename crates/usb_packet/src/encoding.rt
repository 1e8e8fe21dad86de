//! From a packet to its bytes (USB 2.0, 8.3 and 8.4).
ghost use Rattle.std.specs.Prelude.{◌≡◌, []};
ghost use Rattle.usb_packet.specs.PacketRef.{to_owned, PayloadFits};
ghost use Rattle.usb_packet.specs.PacketEncoding.{Fits, Encodes, token_pid, data_pid};

use crate::packet::{Packet, PacketRef, TokenKind};
use crate::pid;
use arrayvec::ArrayVec;

/// The PID of a token.
fn pid_of_token(kind: TokenKind) -> u8
    ensures { result ≡ token_pid kind }
{
    match kind {
        TokenKind::Out => pid::OUT,
        TokenKind::In => pid::IN,
        TokenKind::Setup => pid::SETUP,
    }
}

/// The PID of data: DATA1 or DATA0.
fn pid_of_data(one: bool) -> u8
    ensures { result ≡ data_pid one }
{
    if one { pid::DATA1 } else { pid::DATA0 }
}

/// The bytes that encode the packet, 1 to 65: its PID, then the two bytes of a token or the payload of a data
/// packet. Fields go from the least significant bit upwards, and bytes from the least significant one (USB 2.0,
/// 8.1).
pub fn encode(packet: &Packet) -> ArrayVec<u8, 65>
    requires fits { Fits packet.now }
    ensures encoded { Encodes packet.now result.items }
{
    let mut bytes = ArrayVec::new();
    encode_into(packet, &mut bytes);
    bytes
}

/// Writes the bytes that encode the packet where none are yet, as [`encode`] gives them.
pub fn encode_into(packet: &Packet, bytes: &mut ArrayVec<u8, 65>)
    requires fits { Fits packet.now }
    requires empty { bytes.old.items ≡ [] }
    ensures encoded { Encodes packet.now bytes.new.items }
{
    encode_ref_into(packet.as_ref(), bytes);
}

/// Writes the bytes that encode a borrowed packet, with a payload of at most 64 bytes, as [`encode_into`] does.
pub fn encode_ref_into(packet: PacketRef, bytes: &mut ArrayVec<u8, 65>)
    requires fits { Fits (to_owned packet) }
    requires short { PayloadFits packet }
    requires empty { bytes.old.items ≡ [] }
    ensures encoded { Encodes (to_owned packet.entry) bytes.new.items }
{
    match packet {
        PacketRef::Token { kind, addr, endp } => {
            let fields = u16::from(endp) << 7 | u16::from(addr);
            let [low, high] = fields.to_le_bytes();
            bytes.push(pid_of_token(kind));
            bytes.push(low);
            bytes.push(high);
        }
        PacketRef::Data { one, payload } => {
            bytes.push(pid_of_data(one));
            bytes.try_extend_from_slice(payload).unwrap();
        }
        PacketRef::Ack => bytes.push(pid::ACK),
        PacketRef::Nak => bytes.push(pid::NAK),
        PacketRef::Stall => bytes.push(pid::STALL),
    }
}
