//! The PID bytes of table 8-1 (USB 2.0, 8.3.1): the type in the low half, its complement in the high half.

/// The PID of an OUT token.
pub const OUT: u8 = 0xE1;

/// The PID of an IN token.
pub const IN: u8 = 0x69;

/// The PID of a SETUP token.
pub const SETUP: u8 = 0x2D;

/// The PID of a data packet under toggle 0.
pub const DATA0: u8 = 0xC3;

/// The PID of a data packet under toggle 1.
pub const DATA1: u8 = 0x4B;

/// The PID of the handshake ACK.
pub const ACK: u8 = 0xD2;

/// The PID of the handshake NAK.
pub const NAK: u8 = 0x5A;

/// The PID of the handshake STALL.
pub const STALL: u8 = 0x1E;
