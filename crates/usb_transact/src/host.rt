//! The host's end of the pipe (USB 2.0, 8.5.4 and 8.6).
ghost use Rattle.std.specs.Prelude.{◌≡◌, ◌≤◌, false, IfSome};
ghost use Rattle.std.specs.Option.{option_copied, option_map};
ghost use Rattle.usb_packet.specs.PacketRef.{to_owned, PayloadFits};
ghost use Rattle.usb_packet.specs.PacketEncoding.{Fits};
ghost use Rattle.usb_transact.specs.Host.{host_at_start, token_to};
ghost use Rattle.usb_transact.specs.Replies.{reply_outcome, host_after};

use arrayvec::ArrayVec;
use std::marker::Model;
use usb_packet::{MAX_ADDRESS, MAX_ENDPOINT, Packet, PacketRef, TokenKind};

/// What the host made of a transaction. It acknowledges exactly `Fresh` and `Again`.
#[derive(Debug, Drop, PartialEq, Eq)]
pub enum Took {
    /// Data under the expected toggle (USB 2.0, 8.6.2).
    Fresh(ArrayVec<u8, 64>),
    /// Data under the other toggle, which the host has taken before (USB 2.0, 8.6.4).
    Again,
    /// The device has nothing to send.
    Nak,
    /// The endpoint is halted.
    Stall,
    /// Nothing came, or nothing that answers a token.
    Silent,
}

/// The host's end: the endpoint that it asks, and the toggle that it expects. A contract sees it as `addr`, `endp`
/// and `expects`.
#[derive(Debug, Drop)]
pub struct HostPipe {
    addr: u8,
    endp: u8,
    expects: bool,
}

impl Model for HostPipe {
    ghost use Rattle.std.specs.Prelude.{◌≤◌};
    ghost use Rattle.usb_packet.specs.declared.packet.TheConstants.{MAX_ADDRESS, MAX_ENDPOINT};
    ghost use Rattle.usb_transact.specs.Host.{HostPipeState};

    ghost Value = { HostPipeState };

    ghost view = { λ p. record { addr = p.addr; endp = p.endp; expects = p.expects } };

    ghost invariant = { λ p. (p.addr ≤ MAX_ADDRESS) × (p.endp ≤ MAX_ENDPOINT) };
}

impl HostPipe {
    /// A pipe to this endpoint, 0 to [`MAX_ENDPOINT`], of the device at this address, 0 to [`MAX_ADDRESS`]. It expects
    /// DATA0.
    pub fn new(addr: u8, endp: u8) -> HostPipe
        requires addr { addr ≤ MAX_ADDRESS }
        requires endp { endp ≤ MAX_ENDPOINT }
        ensures { result ≡ host_at_start addr endp }
    {
        HostPipe {
            addr,
            endp,
            expects: false,
        }
    }

    /// Expects DATA0 again, as after a configuration (USB 2.0, 9.1.1.5).
    pub fn restart(&mut self)
        ensures { self.new ≡ record self.old { expects = false } }
    {
        self.expects = false;
    }

    /// Whether DATA1 is expected.
    pub fn expects(&self) -> bool
        ensures { result ≡ self.now.expects }
    {
        self.expects
    }

    /// The IN token of this endpoint (USB 2.0, 8.4.1).
    pub fn token(&self) -> Packet
        ensures token { result ≡ token_to self.now }
        ensures fits { Fits result }
    {
        Packet::Token {
            kind: TokenKind::In,
            addr: self.addr,
            endp: self.endp,
        }
    }

    /// What the host makes of the packet that came after its token, if one did. Only `Fresh` changes the toggle that it
    /// expects (USB 2.0, 8.6).
    pub fn take(&mut self, packet: Option<&Packet>) -> Took
        ensures took { result ≡ reply_outcome self.old.expects (option_copied packet.entry) }
        ensures pipe { self.new ≡ host_after result self.old }
    {
        match packet {
            Some(packet) => self.take_ref(Some(packet.as_ref())),
            None => Took::Silent,
        }
    }

    /// Takes a packet whose payload, of at most 64 bytes, stands elsewhere: as [`HostPipe::take`] does.
    pub fn take_ref(&mut self, packet: Option<PacketRef>) -> Took
        requires { IfSome packet PayloadFits }
        ensures took { result ≡ reply_outcome self.old.expects (option_map to_owned packet.entry) }
        ensures pipe { self.new ≡ host_after result self.old }
    {
        match packet {
            Some(PacketRef::Data { one, payload }) => {
                if one != self.expects {
                    return Took::Again;
                }
                self.expects = !self.expects;
                Took::Fresh(ArrayVec::try_from(payload).unwrap())
            }
            Some(PacketRef::Nak) => Took::Nak,
            Some(PacketRef::Stall) => Took::Stall,
            _ => Took::Silent,
        }
    }
}
