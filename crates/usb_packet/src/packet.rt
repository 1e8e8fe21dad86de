//! What a packet is (USB 2.0, 8.4).
ghost use Rattle.std.specs.Prelude.{◌≡◌, ◌↔◌, IsTrue};
ghost use Rattle.usb_packet.specs.PacketRef.{to_owned, PayloadFits};
ghost use Rattle.usb_packet.specs.PacketEncoding.{Fits};

use arrayvec::ArrayVec;

/// The greatest address of a device: an address takes seven bits (USB 2.0, 8.3.2.1).
pub const MAX_ADDRESS: u8 = 127;

/// The greatest number of an endpoint: it takes four bits (USB 2.0, 8.3.2.2).
pub const MAX_ENDPOINT: u8 = 15;

/// In bytes, the longest payload of an interrupt endpoint at full speed (USB 2.0, 5.7.3).
pub const MAX_PAYLOAD: usize = 64;

/// What a token announces (USB 2.0, 8.4.1).
#[derive(Clone, Copy, Debug, PartialEq, Eq)]
pub enum TokenKind {
    /// Data from the host.
    Out,
    /// Data from the device.
    In,
    /// Eight bytes from the host, which begin a control transfer.
    Setup,
}

/// A packet of a control or interrupt transaction (USB 2.0, 8.4).
#[derive(Debug, Drop, PartialEq, Eq)]
pub enum Packet {
    /// From the host: begins a transaction with one endpoint of one device (8.4.1).
    Token {
        /// What the token announces.
        kind: TokenKind,
        /// The device, 0 to [`MAX_ADDRESS`].
        addr: u8,
        /// Its endpoint, 0 to [`MAX_ENDPOINT`].
        endp: u8,
    },
    /// From either end: DATA1 where `one`, else DATA0 (8.4.4).
    Data {
        /// The data toggle.
        one: bool,
        /// 0 to [`MAX_PAYLOAD`] bytes.
        payload: ArrayVec<u8, 64>,
    },
    /// The data arrived (8.4.5).
    Ack,
    /// From the device: there is nothing to send, or no room (8.4.5).
    Nak,
    /// From the device: the endpoint is halted, or the request is refused (8.4.5).
    Stall,
}

/// A packet whose payload is borrowed, so that passing it copies a few bytes; [`PacketRef::to_owned`] is the packet.
#[derive(Clone, Copy)]
pub enum PacketRef<'a> {
    /// From the host: begins a transaction with one endpoint of one device (8.4.1).
    Token {
        /// What the token announces.
        kind: TokenKind,
        /// The device, 0 to [`MAX_ADDRESS`].
        addr: u8,
        /// Its endpoint, 0 to [`MAX_ENDPOINT`].
        endp: u8,
    },
    /// From either end: DATA1 where `one`, else DATA0 (8.4.4).
    Data {
        /// The data toggle.
        one: bool,
        /// 0 to [`MAX_PAYLOAD`] bytes.
        payload: &'a [u8],
    },
    /// The data arrived (8.4.5).
    Ack,
    /// From the device: there is nothing to send, or no room (8.4.5).
    Nak,
    /// From the device: the endpoint is halted, or the request is refused (8.4.5).
    Stall,
}

impl Packet {
    /// The packet, with its payload where it stands.
    #[inline(always)]
    pub fn as_ref(&self) -> PacketRef<'_>
        ensures packet { to_owned result ≡ self.now }
        ensures short { PayloadFits result }
    {
        match self {
            Packet::Token { kind, addr, endp } => PacketRef::Token {
                kind: *kind,
                addr: *addr,
                endp: *endp,
            },
            Packet::Data { one, payload } => PacketRef::Data {
                one: *one,
                payload: payload.as_slice(),
            },
            Packet::Ack => PacketRef::Ack,
            Packet::Nak => PacketRef::Nak,
            Packet::Stall => PacketRef::Stall,
        }
    }
}

impl<'a> PacketRef<'a> {
    /// The packet, with a payload of its own.
    pub fn to_owned(self) -> Packet
        requires { PayloadFits self }
        ensures { result ≡ to_owned self.entry }
    {
        match self {
            PacketRef::Token { kind, addr, endp } => Packet::Token { kind, addr, endp },
            PacketRef::Data { one, payload } => Packet::Data {
                one,
                payload: ArrayVec::try_from(payload).unwrap(),
            },
            PacketRef::Ack => Packet::Ack,
            PacketRef::Nak => Packet::Nak,
            PacketRef::Stall => Packet::Stall,
        }
    }
}

/// Whether the packet has an encoding: the address of a token is at most [`MAX_ADDRESS`] and its endpoint at most
/// [`MAX_ENDPOINT`] (USB 2.0, 8.3.2).
pub fn fits(packet: &Packet) -> bool
    ensures { IsTrue result ↔ Fits packet.now }
{
    match packet {
        Packet::Token { addr, endp, .. } => *addr <= MAX_ADDRESS && *endp <= MAX_ENDPOINT,
        Packet::Data { .. } | Packet::Ack | Packet::Nak | Packet::Stall => true,
    }
}
