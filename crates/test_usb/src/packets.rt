//! Packets of `usb_packet`. A sweep tests each token body against its two fields.

use test_rows::{RowFault, pattern_of, print, print_bytes, print_numbers, print_shown, split};
use usb_packet::{Packet, PacketFault, TokenKind, decode, encode, fits};

const KINDS: [TokenKind; 3] = [TokenKind::Out, TokenKind::In, TokenKind::Setup];

/// What bytes are read as: without a contract, so that no proof above is given what it says.
pub fn read(bytes: &[u8]) -> Result<Packet, PacketFault> {
    decode(bytes)
}

/// A packet: a token with its address and its endpoint, data under their toggle, or a handshake.
pub fn print_packet(printed: &mut String, packet: &Packet) -> Result<(), RowFault> {
    match packet {
        Packet::Token { kind, addr, endp } => print_token(printed, *kind, *addr, *endp),
        Packet::Data { one, payload } => {
            print(printed, if *one { "DATA1" } else { "DATA0" })?;
            print_bytes(printed, payload)
        }
        Packet::Ack => print(printed, "ACK"),
        Packet::Nak => print(printed, "NAK"),
        Packet::Stall => print(printed, "STALL"),
    }
}

fn print_token(printed: &mut String, kind: TokenKind, addr: u8, endp: u8) -> Result<(), RowFault> {
    let kind = match kind {
        TokenKind::Out => "OUT",
        TokenKind::In => "IN",
        TokenKind::Setup => "SETUP",
    };
    print(printed, kind)?;
    print_numbers(printed, &[i64::from(addr), i64::from(endp)])
}

/// Whether a packet fits, and is encoded so.
fn is_encoded(packet: &Packet, bytes: &[u8]) -> bool {
    fits(packet) && encode(packet).as_slice() == bytes
}

/// The packet that bytes are, where it is encoded by them; or their fault.
pub fn print_decoded(printed: &mut String, bytes: &[u8]) -> Result<(), RowFault> {
    match read(bytes) {
        Ok(packet) if is_encoded(&packet, bytes) => print_packet(printed, &packet),
        Ok(_) => print(printed, "encoded otherwise"),
        Err(fault) => print_shown(printed, &fault),
    }
}

/// What each of these bytes is by itself.
pub fn print_alone(printed: &mut String, bytes: &[u8]) -> Result<(), RowFault> {
    for byte in bytes {
        print_decoded(printed, &[*byte])?;
    }
    Ok(())
}

/// How many kinds of token with an address and an endpoint fit.
fn fitting(addr: u8, endp: u8) -> usize {
    let mut count: usize = 0;
    for kind in KINDS {
        if fits(&Packet::Token { kind, addr, endp }) {
            count = count.saturating_add(1);
        }
    }
    count
}

/// Whether a token of each kind fits, or of none, by an address and an endpoint.
pub fn print_fitting(printed: &mut String, words: &str) -> Result<(), RowFault> {
    let (addr, endp) = split(words, ' ');
    let count = fitting(addr.parse()?, endp.parse()?);
    print_shown(printed, &count)
}

/// Whether a token's body is read as its two fields, or refused where one of its five high bits is set.
fn is_body(kind: TokenKind, pid: u8, low: u8, high: u8) -> bool {
    let printed = read(&[pid, low, high]);
    if high >= 8 {
        return printed == Err(PacketFault::BadReserved);
    }
    printed
        == Ok(Packet::Token {
            kind,
            addr: low % 128,
            endp: low / 128 + high * 2,
        })
}

/// The first low byte with which that isn't so.
fn first_low(kind: TokenKind, pid: u8, high: u8) -> Option<u8> {
    for low in 0..=255u8 {
        if !is_body(kind, pid, low, high) {
            return Some(low);
        }
    }
    None
}

/// How many of the 256 high bytes are read so with each low one.
fn bodies(kind: TokenKind, pid: u8) -> usize {
    let mut count: usize = 0;
    for high in 0..=255u8 {
        if first_low(kind, pid, high).is_none() {
            count = count.saturating_add(1);
        }
    }
    count
}

/// How many high bytes of a token's body are read as they have to be with each low byte, by a kind and its PID.
pub fn print_bodies(printed: &mut String, words: &str) -> Result<(), RowFault> {
    let (kind, pid) = split(words, ' ');
    let kind = match kind {
        "OUT" => TokenKind::Out,
        "IN" => TokenKind::In,
        "SETUP" => TokenKind::Setup,
        _ => return Err(RowFault::Unread),
    };
    let count = bodies(kind, (pattern_of(pid)? % 256) as u8);
    print_shown(printed, &count)
}
