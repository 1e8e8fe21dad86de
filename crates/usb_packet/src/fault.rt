//! Why bytes encode no packet.
use std::fmt;

/// Why bytes encode no packet: the first of these that stands. It is printed as its code.
#[derive(Clone, Copy, Debug, PartialEq, Eq)]
pub enum PacketFault {
    /// P1: there is no PID (USB 2.0, 8.3.1).
    Empty,
    /// P2: the high half of the PID is not the complement of its low half (USB 2.0, 8.3.1).
    BadCheck,
    /// P3: no packet of a control or interrupt transaction has this PID (USB 2.0, table 8-1).
    UnknownPid,
    /// P4: no packet with this PID is as long: after it a token has two bytes, data 0 to 64, a handshake none
    /// (USB 2.0, 8.4).
    BadLength,
    /// P5: a token has a bit set above its endpoint, where this encoding has zeros (our choice: no CRC5).
    BadReserved,
}

impl fmt::Display for PacketFault {
    ghost use Rattle.std.specs.Prelude.{Some};
    ghost use Rattle.usb_packet.specs.Fault.{packet_fault_code};

    ghost output = { λ fault. Some (packet_fault_code fault) };

    fn fmt<W: fmt::Write>(&self, f: &mut fmt::Formatter<W>) -> fmt::Result {
        f.write_str(match self {
            PacketFault::Empty => "P1",
            PacketFault::BadCheck => "P2",
            PacketFault::UnknownPid => "P3",
            PacketFault::BadLength => "P4",
            PacketFault::BadReserved => "P5",
        })
    }
}
