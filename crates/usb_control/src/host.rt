//! The host's end of a control transfer (USB 2.0, 8.5.3).
ghost use Rattle.std.specs.Prelude.{◌≡◌, ◌≤◌, ◌+◌, not, IfOk, IfErr, [], length, if◌then◌else◌};
ghost use Rattle.std.specs.Option.{option_copied};
ghost use Rattle.usb_packet.specs.PacketEncoding.{Fits};
ghost use Rattle.usb_control.specs.SetupBytes.{IsEncoded, reads};
ghost use Rattle.usb_control.specs.Pieces.{piece_from};
ghost use Rattle.usb_control.specs.Host.{IsRunning, IsOutcomeOf, acknowledges, acknowledges_at, after_write_piece, with_stage, at_start, data_in, handshake, after_in_answer, is_overrun, with_payload, after_other_answer, payload_of, progress_of, sent_length, after_setup_answer, status_in, token_of, transfer_after_reply, after_no_answer};

use crate::fault::ControlFault;
use crate::pieces::{MAX_PACKET, piece_from};
use crate::setup::Setup;
use arrayvec::ArrayVec;
use std::alloc::Global;
use std::marker::Model;
use usb_packet::{MAX_ADDRESS, Packet, TokenKind};

/// How often in a row the host tries a transaction that has no answer (USB 2.0, 10.2.6: three times).
pub const MAX_TRIES: u8 = 3;

/// How far a transfer has come.
#[derive(Clone, Copy, Debug, PartialEq, Eq)]
pub enum Progress {
    /// There is another try to make.
    Running,
    /// The status has come, or its handshake.
    Done,
    /// It ended with C1, C2 or C3.
    Failed(ControlFault),
}

/// How far a transfer has come, with the bytes of a read that is done.
#[derive(Clone, Copy, Debug, PartialEq, Eq)]
pub enum Outcome<'a> {
    /// There is another try to make.
    Running,
    /// The bytes of a read, at most wLength. Of a write none.
    Done(&'a [u8]),
    /// It ended with C1, C2 or C3.
    Failed(ControlFault),
}

/// What the host tries next.
///
/// | stage | what is known | leads on |
/// |---|---|---|
/// | `Setup` | the request | an ACK, to the first data packet, or without data to `StatusIn` |
/// | `DataIn` | a read's bytes so far | data under the expected toggle: the last to `StatusOut` |
/// | `DataOut` | what was acknowledged of a write | an ACK: to the last data to `StatusIn` |
/// | `StatusIn` | a write's data were taken, or there were none | DATA1 without a byte, to `Done` |
/// | `StatusOut` | all bytes of a read | an ACK, to `Done` |
/// | `Done`, `Failed` | how it ended | nothing |
///
/// Each but the last two leads to `Failed` too: with C1 at a STALL but to SETUP, with C2 at the third try in a row
/// without an answer, with C3 where too much came.
#[derive(Clone, Copy)]
pub enum HostStage {
    /// SETUP, and DATA0 with the request.
    Setup,
    /// IN, for the data of a read.
    DataIn {
        /// Whether DATA1 is expected.
        one: bool,
    },
    /// OUT, and data of a write.
    DataOut {
        /// In bytes, what was acknowledged.
        sent: usize,
        /// Whether the next bytes go out as DATA1.
        one: bool,
    },
    /// IN, for the status of a write, or of a read of no bytes.
    StatusIn,
    /// OUT, and DATA1 without a byte: the status of a read.
    StatusOut,
    /// It is over.
    Done,
    /// It ended with a fault.
    Failed(ControlFault),
}

/// A control transfer at the host. A contract sees it as `addr`, `setup`, `bytes` (those that a write sends, or that a
/// read has got), `stage` and `tries` (how many in a row had no answer).
#[derive(Drop)]
pub struct HostTransfer {
    addr: u8,
    setup: Setup,
    bytes: Vec<u8>,
    stage: HostStage,
    tries: u8,
}

impl Model for HostTransfer {
    ghost use Rattle.std.specs.Prelude.{◌≤◌};
    ghost use Rattle.std.specs.Vec.{vec_capacity};
    ghost use Rattle.usb_packet.specs.declared.packet.TheConstants.{MAX_ADDRESS};
    ghost use Rattle.usb_control.specs.SetupBytes.{IsEncoded};
    ghost use Rattle.usb_control.specs.Host.{HostTransferState};

    ghost Value = { HostTransferState };

    ghost view = { λ t. record {
      addr = t.addr;
      setup = t.setup;
      bytes = t.bytes.items;
      stage = t.stage;
      tries = t.tries;
    } };

    ghost invariant = { λ t. (t.addr ≤ MAX_ADDRESS) × (t.setup.length ≤ vec_capacity t.bytes) × IsEncoded t.setup };
}

impl HostTransfer {
    /// A transfer that has yet to begin, with the device at this address, 0 to [`MAX_ADDRESS`]. A write sends these
    /// wLength bytes, and a read is given none.
    ///
    /// It takes the memory for wLength bytes. No later call takes any.
    ///
    /// # Errors
    /// [`ControlFault::Memory`] where there is none: nothing has begun.
    pub fn begin(
        alloc: Global,
        addr: u8,
        setup: Setup,
        sends: &[u8],
    ) -> Result<HostTransfer, ControlFault>
        requires addr { addr ≤ MAX_ADDRESS }
        requires sends { length sends.now ≡ sent_length setup }
        ensures begun { IfOk result (λ transfer. transfer ≡ at_start addr setup sends.now) }
        ensures memory { IfErr result (λ fault. fault ≡ ControlFault.Memory) }
    {
        let room = usize::from(setup.length);
        let Ok(mut bytes) = Vec::with_capacity(alloc, room) else {
            return Err(ControlFault::Memory);
        };
        bytes.extend_from_slice(sends).unwrap();
        Ok(HostTransfer {
            addr,
            setup,
            bytes,
            stage: HostStage::Setup,
            tries: 0,
        })
    }

    /// The token of the next try, to endpoint 0 (USB 2.0, 8.5.3).
    pub fn token(&self) -> Packet
        requires { IsRunning self.now.stage }
        ensures token { result ≡ token_of self.now }
        ensures fits { Fits result }
    {
        let kind = match self.stage {
            HostStage::Setup => TokenKind::Setup,
            HostStage::DataIn { .. } | HostStage::StatusIn => TokenKind::In,
            _ => TokenKind::Out,
        };
        Packet::Token {
            kind,
            addr: self.addr,
            endp: 0,
        }
    }

    /// The data packet that goes with the token, after SETUP and OUT: the request under DATA0, the next bytes of a
    /// write, DATA1 first, or the status of a read.
    pub fn payload(&self) -> Option<Packet>
        requires { IsRunning self.now.stage }
        ensures { result ≡ payload_of self.now }
    {
        match self.stage {
            HostStage::Setup => {
                let payload = ArrayVec::try_from(self.setup.to_bytes().as_slice()).unwrap();
                Some(Packet::Data {
                    one: false,
                    payload,
                })
            }
            HostStage::DataOut { sent, one } => {
                let payload = ArrayVec::try_from(piece_from(&self.bytes, sent)).unwrap();
                Some(Packet::Data { one, payload })
            }
            HostStage::StatusOut => Some(Packet::Data {
                one: true,
                payload: ArrayVec::new(),
            }),
            _ => None,
        }
    }

    /// Goes on after an answer.
    fn advance_to(&mut self, stage: HostStage)
        ensures { self.new ≡ with_stage stage self.old }
    {
        self.stage = stage;
        self.tries = 0;
    }

    /// One try more without an answer: the third in a row is the last.
    fn count_silence(&mut self)
        ensures { self.new ≡ after_no_answer self.old }
    {
        if self.tries < MAX_TRIES - 1 {
            self.tries += 1;
        } else {
            self.stage = HostStage::Failed(ControlFault::BusFault);
        }
    }

    /// Takes what takes the transfer no further.
    fn take_other_answer(&mut self, packet: Option<&Packet>)
        ensures { self.new ≡ after_other_answer (option_copied packet.entry) self.old }
    {
        match packet {
            Some(Packet::Nak) => self.tries = 0,
            Some(Packet::Stall) => self.stage = HostStage::Failed(ControlFault::Stalled),
            _ => self.count_silence(),
        }
    }

    /// Takes a handshake for data, after whose ACK this stage follows.
    fn handshake(&mut self, packet: Option<&Packet>, next: HostStage)
        ensures { self.new ≡ handshake (option_copied packet.entry) next self.old }
    {
        match packet {
            Some(Packet::Ack) => self.advance_to(next),
            _ => self.take_other_answer(packet),
        }
    }

    /// Takes data of a read under the toggle that is expected: whether they aren't too much.
    fn join(&mut self, one: bool, payload: &[u8]) -> bool
        ensures joined { self.new ≡ with_payload one payload.now self.old }
        ensures taken { result ≡ not (is_overrun self.new.stage) }
    {
        let length = usize::from(self.setup.length);
        let got = self.bytes.len();
        let count = payload.len();
        if count > MAX_PACKET || got + count > length {
            self.stage = HostStage::Failed(ControlFault::Overrun);
            return false;
        }
        self.bytes.extend_from_slice(payload).unwrap();
        self.advance_to(if count == MAX_PACKET && got + count < length {
            HostStage::DataIn { one: !one }
        } else {
            HostStage::StatusOut
        });
        true
    }

    /// Takes an answer to SETUP: only ACK is one.
    fn take_setup(&mut self, packet: Option<&Packet>)
        ensures { self.new ≡ after_setup_answer (option_copied packet.entry) self.old }
    {
        let Some(Packet::Ack) = packet else {
            self.count_silence();
            return;
        };
        let setup = self.setup;
        self.advance_to(if setup.length == 0 {
            HostStage::StatusIn
        } else if setup.is_read() {
            HostStage::DataIn { one: true }
        } else {
            HostStage::DataOut { sent: 0, one: true }
        });
    }

    /// What follows the piece of a write that begins at a place, under this toggle.
    fn after_piece(&self, sent: usize, one: bool) -> HostStage
        ensures { result ≡ after_write_piece (sent + length (piece_from self.now.bytes sent))
            (length self.now.bytes) one }
    {
        let bytes = self.bytes.as_slice();
        let sent = sent + piece_from(bytes, sent).len();
        if sent == bytes.len() {
            HostStage::StatusIn
        } else {
            HostStage::DataOut { sent, one: !one }
        }
    }

    /// Takes an answer to IN in the data stage, where this toggle is expected: whether ACK is sent.
    fn take_data(&mut self, packet: Option<&Packet>, expected: bool) -> bool
        requires { self.old.stage ≡ HostStage.DataIn expected }
        ensures taken { self.new
            ≡ after_in_answer (option_copied packet.entry) (data_in expected) self.old }
        ensures acknowledged { result
            ≡ acknowledges_at self.old.stage (option_copied packet.entry) self.new.stage }
    {
        match packet {
            Some(Packet::Data { one, payload }) => {
                if *one != expected {
                    self.tries = 0;
                    return true;
                }
                self.join(*one, payload.as_slice())
            }
            _ => {
                self.take_other_answer(packet);
                false
            }
        }
    }

    /// Takes an answer to IN in the status stage: whether ACK is sent.
    fn take_status(&mut self, packet: Option<&Packet>) -> bool
        requires { self.old.stage ≡ HostStage.StatusIn }
        ensures taken { self.new ≡ after_in_answer (option_copied packet.entry) status_in self.old }
        ensures acknowledged { result
            ≡ acknowledges_at self.old.stage (option_copied packet.entry) self.new.stage }
    {
        match packet {
            Some(Packet::Data { one, payload }) => {
                if !*one {
                    self.tries = 0;
                    return true;
                }
                if !payload.is_empty() {
                    self.stage = HostStage::Failed(ControlFault::Overrun);
                    return false;
                }
                self.advance_to(HostStage::Done);
                true
            }
            _ => {
                self.take_other_answer(packet);
                false
            }
        }
    }

    /// Takes what came after the token, if something did: whether ACK is sent (USB 2.0, 8.5.3 and 8.6).
    ///
    /// | next was | came | then |
    /// |---|---|---|
    /// | SETUP | ACK | goes on |
    /// | SETUP | all else, NAK and STALL too | a try without an answer |
    /// | data or status OUT | ACK | goes on |
    /// | data IN | the expected toggle, with at most 8 bytes, and wLength in all | ACK, joins the bytes, goes on |
    /// | data IN | the expected toggle, with more | fails with C3 |
    /// | status IN | DATA1 without a byte | ACK, is done |
    /// | status IN | DATA1 with a byte | fails with C3 |
    /// | data or status IN | the other toggle | ACK, and it is thrown away |
    /// | all but SETUP | NAK | an answer: tried again |
    /// | all but SETUP | STALL | fails with C1 |
    /// | any | all else, and nothing | a try without an answer: the third in a row fails with C2 |
    pub fn take(&mut self, packet: Option<&Packet>) -> bool
        requires { IsRunning self.old.stage }
        ensures took { self.new ≡ transfer_after_reply (option_copied packet.entry) self.old }
        ensures same { (self.new.setup ≡ self.old.setup) × (self.new.addr ≡ self.old.addr) }
        ensures acknowledged { result ≡ acknowledges (option_copied packet.entry) self.old }
    {
        let stage = self.stage;
        match stage {
            HostStage::Setup => {
                self.take_setup(packet);
                false
            }
            HostStage::DataOut { sent, one } => {
                let next = self.after_piece(sent, one);
                self.handshake(packet, next);
                false
            }
            HostStage::StatusOut => {
                self.handshake(packet, HostStage::Done);
                false
            }
            HostStage::DataIn { one } => self.take_data(packet, one),
            HostStage::StatusIn => self.take_status(packet),
            HostStage::Done | HostStage::Failed(_) => false,
        }
    }

    /// How far the transfer has come.
    pub(crate) fn progress(&self) -> Progress
        ensures progress { result ≡ progress_of self.now.stage }
        ensures encoded { IsEncoded self.now.setup }
    {
        match self.stage {
            HostStage::Done => Progress::Done,
            HostStage::Failed(fault) => Progress::Failed(fault),
            _ => Progress::Running,
        }
    }

    /// How far the transfer has come, with the bytes of a read that is done.
    pub fn outcome(&self) -> Outcome<'_>
        ensures { IsOutcomeOf result self.now.stage
            (if reads self.now.setup then self.now.bytes else []) }
    {
        match self.stage {
            HostStage::Done if self.setup.is_read() => Outcome::Done(&self.bytes),
            HostStage::Done => Outcome::Done(&[]),
            HostStage::Failed(fault) => Outcome::Failed(fault),
            _ => Outcome::Running,
        }
    }
}
