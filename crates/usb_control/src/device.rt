//! The device's end of endpoint 0 (USB 2.0, 8.5.3).
ghost use Rattle.std.specs.Prelude.{◌≡◌, ◌≤◌, ◌+◌, None, Some, Option, ℕ, Bool, true, false, length, IfSome};
ghost use Rattle.usb_packet.specs.PacketEncoding.{Fits};
ghost use Rattle.usb_control.specs.SetupBytes.{reads};
ghost use Rattle.usb_control.specs.Device.{Answers, Does, effect, effect_of_data_packet, effect_of_in, effect_of_out, read_piece, stage_after_ack, stage_after_decision, write_length};

use crate::pieces::{MAX_PACKET, cut_to_length, piece_from};
use crate::requests::Requests;
use crate::setup::Setup;
use arrayvec::ArrayVec;
use std::marker::Model;
use usb_packet::{Packet, TokenKind};

/// In bytes, the longest write that a device keeps: a report (our choice).
pub const MAX_WRITE: usize = 256;

/// What endpoint 0 awaits. A SETUP that arrives leads from each stage to the first of its request.
///
/// | stage | what is known | leads on |
/// |---|---|---|
/// | `Idle` | no request, or one that was refused, broken or ended | nothing but a SETUP |
/// | `ReadData` | an accepted read, and what was acknowledged of it | an ACK to its last piece, or its status, to `StatusOut` |
/// | `StatusOut` | a read whose data stage is over | nothing but a SETUP |
/// | `WriteData` | an accepted write, and the bytes that came | its status, after the last byte, to `StatusIn` |
/// | `StatusIn` | a write that took effect, or a read of no bytes | an ACK to `Idle` |
///
/// What answers nothing here gets STALL and leads to `Idle`.
#[derive(Drop)]
pub enum Stage {
    /// No request is open: none came, or it was refused or broken, or its status was acknowledged.
    Idle,
    /// The data of a read.
    ReadData {
        /// wLength: in bytes, what may be sent.
        length: usize,
        /// In bytes, what was acknowledged.
        sent: usize,
        /// Whether the next bytes go out as DATA1.
        one: bool,
    },
    /// A read has sent its data, or its status has come.
    StatusOut,
    /// The data of a write.
    WriteData {
        /// wLength: in bytes, what was announced.
        length: usize,
        /// Whether DATA1 is expected.
        one: bool,
        /// What came so far.
        bytes: ArrayVec<u8, 256>,
        /// Whether the data stage lasts: neither all bytes came nor a short packet.
        more: bool,
    },
    /// The status of a write that took effect, or of a read of no bytes.
    StatusIn,
}

impl Stage {
    /// Takes data after an OUT token, and answers them.
    fn give(&mut self, one: bool, payload: &[u8]) -> Packet
        requires { write_length self.old ≤ MAX_WRITE }
        ensures given { effect_of_out self.old one payload.now
            ≡ Answers (Some result) self.new LastPacket.Nothing }
        ensures short { write_length self.new ≤ MAX_WRITE }
    {
        match self {
            Stage::ReadData { .. } | Stage::StatusOut if one && payload.is_empty() => {
                *self = Stage::StatusOut;
                Packet::Ack
            }
            Stage::WriteData { one: expected, .. } if one != *expected => Packet::Ack,
            Stage::WriteData {
                length,
                one: expected,
                bytes,
                more,
            } if *more && payload.len() <= MAX_PACKET && bytes.len() + payload.len() <= *length => {
                bytes.try_extend_from_slice(payload).unwrap();
                *expected = !one;
                *more = payload.len() == MAX_PACKET && bytes.len() < *length;
                Packet::Ack
            }
            _ => {
                *self = Stage::Idle;
                Packet::Stall
            }
        }
    }
}

/// The last packet received or sent, as far as the next one depends on it.
#[derive(Clone, Copy, PartialEq, Eq)]
pub enum LastPacket {
    /// Nothing that counts.
    Nothing,
    /// A SETUP token.
    Setup,
    /// An OUT token.
    Out,
    /// An IN token that was answered with data.
    Answered,
}

/// Endpoint 0 of a device, over what answers its requests. A contract sees it as `requests`, `stage` and `last_packet`.
///
/// It looks at no address and no endpoint: the device above hands it the packets that are for it.
#[derive(Drop)]
pub struct DevControl<R> {
    requests: R,
    stage: Stage,
    last_packet: LastPacket,
}

impl<R> Model for DevControl<R> {
    ghost use Rattle.std.specs.Prelude.{◌≤◌};
    ghost use Rattle.usb_control.specs.declared.device.TheConstants.{MAX_WRITE};
    ghost use Rattle.usb_control.specs.Device.{DevControlState, write_length};

    ghost Value = { DevControlState R };

    ghost view = { λ c. record { requests = c.requests; stage = c.stage; last_packet = c.last_packet } };

    ghost invariant = { λ c. write_length c.stage ≤ MAX_WRITE };
}

impl<R: Requests> DevControl<R> {
    ghost use Rattle.std.specs.Borrow.{sem};
    ghost use Rattle.usb_control.specs.Device.{idle_control};
    ghost use Rattle.usb_control.specs.RequestsBorrow.{lends_requests};

    /// Endpoint 0 with no request open.
    pub fn new(requests: R) -> DevControl<R>
        ensures { result ≡ idle_control requests }
    {
        DevControl {
            requests,
            stage: Stage::Idle,
            last_packet: LastPacket::Nothing,
        }
    }

    /// Ends the request that is open, as a reset of the bus does (USB 2.0, 7.1.7.5). What answers requests stays.
    pub fn reset(&mut self)
        ensures { self.new ≡ idle_control self.old.requests }
    {
        self.stage = Stage::Idle; // whatever was open
        self.last_packet = LastPacket::Nothing;
    }

    /// What answers the requests.
    pub fn requests(&self) -> &R
        ensures { result.now ≡ self.now.requests }
    {
        &self.requests
    }

    /// What answers the requests, to be changed. The request that is open goes on: the change must leave its answer, and
    /// what `apply` will carry out.
    pub fn requests_mut(&mut self) -> &mut R
        ensures* writes_back { sem 𝓛 (lends_requests R.row self.entry result) }
        ensures value { result.now ≡ self.old.requests }
    {
        &mut self.requests
    }

    /// Decides on a request.
    #[inline(never)] // no other packet makes room for what a write will bring
    fn decide(&mut self, setup: &Setup)
        ensures decided { (said : Bool) × R.prepare_gives self.old.requests setup.now said self.new.requests
            × (self.new.stage ≡ stage_after_decision said (reads setup.now) setup.now.length) }
        ensures last_packet { self.new.last_packet ≡ self.old.last_packet }
    {
        let length = usize::from(setup.length);
        if !self.requests.prepare(setup) {
            self.refuse();
        } else if !setup.is_read() {
            self.begin_write(length);
        } else if length == 0 {
            self.begin_status();
        } else {
            self.begin_read(length);
        }
    }

    // Each stage is made where it stands, in a function of its own: else all of them make room at each decision.

    /// Goes on with no request.
    #[inline(never)]
    fn refuse(&mut self)
        ensures { self.new ≡ record self.old { stage = Stage.Idle } }
    {
        self.stage = Stage::Idle;
    }

    /// Awaits the status of a read of no bytes.
    #[inline(never)]
    fn begin_status(&mut self)
        ensures { self.new ≡ record self.old { stage = Stage.StatusIn } }
    {
        self.stage = Stage::StatusIn;
    }

    /// Sends the data of a read.
    #[inline(never)]
    fn begin_read(&mut self, length: usize)
        ensures { self.new ≡ record self.old { stage = Stage.ReadData length 0 true } }
    {
        self.stage = Stage::ReadData {
            length,
            sent: 0,
            one: true,
        };
    }

    /// Awaits the data of a write.
    #[inline(never)]
    fn begin_write(&mut self, length: usize)
        requires { length ≤ MAX_WRITE }
        ensures { self.new ≡ record self.old { stage = stage_after_decision true false length } }
    {
        self.stage = Stage::WriteData {
            length,
            one: true,
            bytes: ArrayVec::new(),
            more: 0 < length,
        };
    }

    /// The piece of a read that begins at a place.
    fn read_piece(&self, limit: usize, sent: usize) -> &[u8]
        ensures value { result.now ≡ read_piece (R.answer_of self.now.requests) limit sent }
        ensures short { length result.now ≤ MAX_PACKET }
        ensures within { sent ≤ limit → sent + length result.now ≤ limit }
    {
        let answer = self.requests.answer().unwrap_or(&[]);
        piece_from(cut_to_length(answer, limit), sent)
    }

    /// Answers an IN token. The first for the status of a write carries the write out.
    fn answer_in(&mut self) -> Packet
        ensures { Does R.prepare_gives R.apply_gives
            (effect_of_in (R.answer_of self.old.requests) self.old.stage)
            self.old.requests self.new (Some result) }
    {
        self.last_packet = LastPacket::Nothing;
        match &self.stage {
            Stage::ReadData { length, sent, one } => {
                let (length, sent, one) = (*length, *sent, *one);
                let payload = ArrayVec::try_from(self.read_piece(length, sent)).unwrap();
                self.last_packet = LastPacket::Answered;
                Packet::Data { one, payload }
            }
            Stage::WriteData { length, bytes, .. } if bytes.len() == *length => {
                self.requests.apply(bytes.as_slice());
                self.stage = Stage::StatusIn;
                self.last_packet = LastPacket::Answered;
                Packet::Data {
                    one: true,
                    payload: ArrayVec::new(),
                }
            }
            Stage::StatusIn => {
                self.last_packet = LastPacket::Answered;
                Packet::Data {
                    one: true,
                    payload: ArrayVec::new(),
                }
            }
            Stage::Idle | Stage::StatusOut | Stage::WriteData { .. } => {
                self.stage = Stage::Idle;
                Packet::Stall
            }
        }
    }

    /// Answers data after an OUT token.
    fn answer_out(&mut self, one: bool, payload: &[u8]) -> Packet
        ensures { Does R.prepare_gives R.apply_gives (effect_of_out self.old.stage one payload.now)
            self.old.requests self.new (Some result) }
    {
        self.last_packet = LastPacket::Nothing;
        self.stage.give(one, payload)
    }

    /// Goes on after an ACK to data.
    fn acknowledged(&mut self)
        ensures { self.new ≡ record self.old {
          stage = stage_after_ack (R.answer_of self.old.requests) self.old.stage;
        } }
    {
        match &self.stage {
            Stage::ReadData { length, sent, one } => {
                let count = self.read_piece(*length, *sent).len();
                self.stage = if count == MAX_PACKET && *sent + count < *length {
                    Stage::ReadData {
                        length: *length,
                        sent: *sent + count,
                        one: !*one,
                    }
                } else {
                    Stage::StatusOut
                };
            }
            Stage::StatusIn => self.stage = Stage::Idle,
            _ => {}
        }
    }

    /// Hears a token, and answers IN.
    fn receive_token(&mut self, kind: TokenKind) -> Option<Packet>
        ensures does { (addr endp : ℕ) → Does R.prepare_gives R.apply_gives
            (effect (R.answer_of self.old.requests) self.old.stage self.old.last_packet (Packet.Token kind addr endp))
            self.old.requests self.new result }
        ensures fits { IfSome result Fits }
    {
        match kind {
            TokenKind::Setup => {
                self.last_packet = LastPacket::Setup;
                None
            }
            TokenKind::Out => {
                self.last_packet = LastPacket::Out;
                None
            }
            TokenKind::In => Some(self.answer_in()),
        }
    }

    /// Receives data, by the packet before them.
    fn receive_data(&mut self, last_packet: LastPacket, one: bool, payload: &[u8]) -> Option<Packet>
        requires { self.old.last_packet ≡ LastPacket.Nothing }
        ensures does { Does R.prepare_gives R.apply_gives
            (effect_of_data_packet self.old.stage last_packet one payload.now)
            self.old.requests self.new result }
        ensures fits { IfSome result Fits }
    {
        match last_packet {
            LastPacket::Setup => {
                if one {
                    return None;
                }
                let Ok(bytes) = <&[u8; 8]>::try_from(payload) else {
                    return None;
                };
                self.decide(&Setup::from_bytes(bytes));
                Some(Packet::Ack)
            }
            LastPacket::Out => Some(self.answer_out(one, payload)),
            LastPacket::Nothing | LastPacket::Answered => None,
        }
    }

    /// Ignores a packet that isn't for this endpoint, and forgets the one before it.
    pub fn ignore_packet(&mut self)
        ensures { self.new ≡ record self.old { last_packet = LastPacket.Nothing } }
    {
        self.last_packet = LastPacket::Nothing;
    }

    /// Receives any packet, and gives the answer to it, if it has one (USB 2.0, 8.5.3).
    ///
    /// | received | answer |
    /// |---|---|
    /// | a token but IN | none |
    /// | DATA0 with eight bytes, directly after SETUP | ACK, whatever is decided |
    /// | IN, in the data stage of a read | the next piece, until it is acknowledged |
    /// | IN, at the status of a write with all its bytes | DATA1 without a byte |
    /// | the expected toggle directly after OUT, in the data stage of a write, at most 8 bytes, and at most wLength in all | ACK |
    /// | the other toggle directly after OUT, in a write | ACK: they are thrown away |
    /// | DATA1 without a byte directly after OUT, in a read | ACK: the data stage is over |
    /// | another IN, and other data directly after OUT | STALL, until the next SETUP |
    /// | ACK directly after data | none: the next piece is due, or the transfer is over |
    /// | all else | none: it is ignored |
    ///
    /// What answers requests changes only by `prepare` at a SETUP, and by `apply` at the first IN for the status of a
    /// write. An ACK counts only directly after the data that it answers.
    pub fn on_packet(&mut self, packet: &Packet) -> Option<Packet>
        ensures does { Does R.prepare_gives R.apply_gives
            (effect (R.answer_of self.old.requests) self.old.stage self.old.last_packet packet.now)
            self.old.requests self.new result }
        ensures fits { IfSome result Fits }
    {
        let last_packet = self.last_packet;
        self.last_packet = LastPacket::Nothing;
        match packet {
            Packet::Token { kind, .. } => self.receive_token(*kind),
            Packet::Data { one, payload } => self.receive_data(
                last_packet,
                *one,
                payload.as_slice(),
            ),
            Packet::Ack => {
                if last_packet == LastPacket::Answered {
                    self.acknowledged();
                }
                None
            }
            Packet::Nak | Packet::Stall => None,
        }
    }
}
