//! The device's end of the pipe (USB 2.0, 8.5.4, 8.6 and 9.4.5).
ghost use Rattle.std.specs.Prelude.{◌≡◌, ◌≤◌, false, Some, IsNone, length};
ghost use Rattle.std.specs.Option.{option_copied};
ghost use Rattle.usb_packet.specs.PacketRef.{to_owned, PayloadFits};
ghost use Rattle.usb_packet.specs.PacketEncoding.{Fits};
ghost use Rattle.usb_transact.specs.Device.{device_at_start, answer_of, after_acknowledgement, halted_pipe};

use arrayvec::ArrayVec;
use std::marker::Model;
use usb_packet::{MAX_PAYLOAD, Packet, PacketRef};

/// The device's end: its toggle, the data that it sends until they are acknowledged, and whether the endpoint is halted. A
/// contract sees it as `toggle`, `armed` and `halted`.
#[derive(Debug, Drop)]
pub struct DevPipe {
    toggle: bool,
    armed: Option<ArrayVec<u8, 64>>,
    halted: bool,
}

impl Model for DevPipe {
    ghost use Rattle.std.specs.Option.{option_map};
    ghost use Rattle.usb_transact.specs.Device.{DevPipeState};

    ghost Value = { DevPipeState };

    ghost view = { λ p. record {
      toggle = p.toggle;
      armed = option_map (λ bytes. bytes.items) p.armed;
      halted = p.halted;
    } };
}

impl Default for DevPipe {
    ghost is_default = { λ p. p ≡ device_at_start };

    fn default() -> DevPipe {
        DevPipe::new()
    }
}

impl DevPipe {
    /// A pipe at DATA0 with nothing armed, which isn't halted.
    pub fn new() -> DevPipe
        ensures { result ≡ device_at_start }
    {
        DevPipe {
            toggle: false,
            armed: None,
            halted: false,
        }
    }

    /// Goes back to DATA0 with nothing armed, as a configuration does (USB 2.0, 9.1.1.5), and as the end of a halt does
    /// (9.4.5). Where it was halted, it is no more.
    pub fn restart(&mut self)
        ensures { self.new ≡ device_at_start }
    {
        *self = DevPipe::new();
    }

    /// Whether data go out as DATA1.
    pub fn toggle(&self) -> bool
        ensures { result ≡ self.now.toggle }
    {
        self.toggle
    }

    /// Halts: what was armed is done with, and the answer is STALL until [`DevPipe::restart`] (USB 2.0, 9.4.5 and 9.4.9). The
    /// toggle stays.
    pub fn halt(&mut self)
        ensures { self.new ≡ halted_pipe self.old }
    {
        self.armed = None;
        self.halted = true;
    }

    /// Whether the endpoint is halted.
    pub fn halted(&self) -> bool
        ensures { result ≡ self.now.halted }
    {
        self.halted
    }

    /// Puts in the bytes that go out until they are acknowledged, 0 to [`MAX_PAYLOAD`].
    pub fn arm(&mut self, bytes: &[u8])
        requires idle { IsNone self.old.armed }
        requires going { self.old.halted ≡ false }
        requires fits { length bytes.now ≤ MAX_PAYLOAD }
        ensures { self.new ≡ record self.old { armed = Some bytes.now } }
    {
        self.armed = Some(ArrayVec::try_from(bytes).unwrap());
    }

    /// The bytes that wait for an acknowledgement.
    pub fn armed(&self) -> Option<&[u8]>
        ensures { option_copied result ≡ self.now.armed }
    {
        match &self.armed {
            Some(bytes) => Some(bytes.as_slice()),
            None => None,
        }
    }

    /// The answer to an IN token: STALL while it is halted, else what is armed under the toggle, else NAK (USB 2.0, 8.4.6.1).
    pub fn answer(&self) -> Packet
        ensures answer { result ≡ answer_of self.now }
        ensures fits { Fits result }
    {
        self.answer_ref().to_owned()
    }

    /// The answer, as [`DevPipe::answer`] gives it, with its payload where it stands.
    pub fn answer_ref(&self) -> PacketRef<'_>
        ensures answer { to_owned result ≡ answer_of self.now }
        ensures fits { Fits (to_owned result) }
        ensures short { PayloadFits result }
    {
        if self.halted {
            return PacketRef::Stall;
        }
        match &self.armed {
            Some(bytes) => PacketRef::Data {
                one: self.toggle,
                payload: bytes.as_slice(),
            },
            None => PacketRef::Nak,
        }
    }

    /// An acknowledgement has arrived: what was armed is done with, and the toggle changes (USB 2.0, 8.6.2). With
    /// nothing armed it changes nothing.
    pub fn acknowledged(&mut self)
        ensures closed { self.new ≡ after_acknowledgement self.old }
    {
        if self.armed.is_some() {
            self.toggle = !self.toggle;
            self.armed = None;
        }
    }
}
