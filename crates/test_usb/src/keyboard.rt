//! What answers the requests of the tests: a keyboard that answers standard requests (USB 2.0, 9.4) and keeps an output
//! report (HID 1.11, 7.2.2).
use arrayvec::ArrayVec;
use usb_control::{Requests, Setup};

/// A device descriptor: vendor FEFF, product 0001 (USB 2.0, table 9-8).
#[rattlefmt::skip]
pub const DEVICE: [u8; 18] = [
    0x12, 0x01, 0x00, 0x02, 0x00, 0x00, 0x00, 0x08, 0xFF, 0xFE, 0x01, 0x00, 0x00, 0x01, 0x00, 0x00, 0x00, 0x01,
];

/// The descriptors of its configuration: configuration, interface, HID, endpoint.
#[rattlefmt::skip]
pub const CONFIG: [u8; 34] = [
    0x09, 0x02, 0x22, 0x00, 0x01, 0x01, 0x00, 0x80, 0x32,
    0x09, 0x04, 0x00, 0x00, 0x01, 0x03, 0x01, 0x01, 0x00,
    0x09, 0x21, 0x11, 0x01, 0x00, 0x01, 0x22, 0x3F, 0x00,
    0x07, 0x05, 0x81, 0x03, 0x40, 0x00, 0x0A,
];

/// Its report descriptor (HID 1.11, B.1).
#[rattlefmt::skip]
pub const REPORT: [u8; 63] = [
    0x05, 0x01, 0x09, 0x06, 0xA1, 0x01, 0x05, 0x07, 0x19, 0xE0, 0x29, 0xE7, 0x15, 0x00, 0x25, 0x01,
    0x75, 0x01, 0x95, 0x08, 0x81, 0x02, 0x95, 0x01, 0x75, 0x08, 0x81, 0x01, 0x95, 0x05, 0x75, 0x01,
    0x05, 0x08, 0x19, 0x01, 0x29, 0x05, 0x91, 0x02, 0x95, 0x01, 0x75, 0x03, 0x91, 0x01, 0x95, 0x06,
    0x75, 0x08, 0x15, 0x00, 0x25, 0x65, 0x05, 0x07, 0x19, 0x00, 0x29, 0x65, 0x81, 0x00, 0xC0,
];

/// The write that waits for its status.
#[derive(Clone, Copy, Debug, PartialEq, Eq)]
pub enum Prepared {
    Nothing,
    Configure,
    Report,
}

#[derive(Drop)]
pub struct Keyboard {
    pub configured: bool,
    pub output: ArrayVec<u8, 256>,
    /// How often a write took effect.
    pub effects: u32,
    /// How often a request was decided on.
    pub decisions: u32,
    answer: ArrayVec<u8, 64>,
    prepared: Prepared,
}

impl Keyboard {
    pub fn new() -> Keyboard {
        Keyboard {
            configured: false,
            output: ArrayVec::new(),
            effects: 0,
            decisions: 0,
            answer: ArrayVec::new(),
            prepared: Prepared::Nothing,
        }
    }

    /// The answer to a read, whole.
    fn read(&self, setup: &Setup) -> Option<&'static [u8]> {
        match (setup.request_type, setup.request, setup.value, setup.index) {
            (0x80, 0x00, 0, 0) => Some(&[0, 0]),
            (0x81, 0x00, 0, 0) if self.configured => Some(&[0, 0]),
            (0x82, 0x00, 0, 0x00) => Some(&[0, 0]),
            (0x82, 0x00, 0, 0x80) => Some(&[0, 0]),
            (0x82, 0x00, 0, 0x81) if self.configured => Some(&[0, 0]),
            (0x80, 0x06, 0x0100, 0) => Some(&DEVICE),
            (0x80, 0x06, 0x0200, 0) => Some(&CONFIG),
            (0x81, 0x06, 0x2200, 0) => Some(&REPORT),
            (0x80, 0x08, 0, 0) => Some(if self.configured { &[1] } else { &[0] }),
            (0x81, 0x0A, 0, 0) if self.configured => Some(&[0]),
            _ => None,
        }
    }

    /// What a write is for.
    fn write(setup: &Setup) -> Prepared {
        match (setup.request_type, setup.request, setup.value, setup.length) {
            (0x00, 0x09, 1, 0) => Prepared::Configure,
            (0x21, 0x09, 0x0200, _) => Prepared::Report,
            _ => Prepared::Nothing,
        }
    }
}

impl Requests for Keyboard {
    ghost use Rattle.std.specs.Prelude.{◌≡◌, ◌≤◌, Some, true, false};
    ghost use Rattle.std.proofs.Common.{rules, ap, ◌∙◌};
    ghost use Rattle.usb_control.specs.SetupBytes.{reads};
    ghost use Rattle.test_usb.specs.declared.keyboard.Prepared.TheVariants as prepared_for;
    ghost use Rattle.test_usb.specs.declared.keyboard.Keyboard.{Keyboard};

    ghost answer_of = { λ k. Some k.answer.items };

    ghost prepare_gives = { λ s r said t. (t ≡ record s { answer = t.answer; prepared = t.prepared; decisions = t.decisions })
        × (said ≡ true → reads r ≡ false → r.length ≤ 256) × (reads r ≡ true → t.prepared ≡ prepared_for.Nothing) };

    ghost apply_gives = { λ s bytes t. s.prepared ≡ prepared_for.Nothing → t ≡ s };

    ghost same_but_request = { λ s t. t ≡ record s { answer = t.answer; prepared = t.prepared; decisions = t.decisions } };

    ghost read_has_answer = { Prim.search rules };

    ghost write_is_short = { Prim.search rules };

    ghost prepare_keeps = { Prim.search rules };

    ghost prepare_forgets = { λ s t u setup said same gives. (gives.0 ∙ ap (λ (k : Keyboard). record k { answer = u.answer; prepared = u.prepared; decisions = u.decisions }) same, gives.1, gives.2) };

    ghost read_has_no_effect = { Prim.search rules };

    fn prepare(&mut self, setup: &Setup) -> bool {
        self.decisions = self.decisions.saturating_add(1);
        self.prepared = Prepared::Nothing;
        if !setup.is_read() {
            self.prepared = Keyboard::write(setup);
            return self.prepared != Prepared::Nothing && setup.length <= 256;
        }
        match self.read(setup) {
            Some(bytes) => match ArrayVec::try_from(bytes) {
                Ok(answer) => {
                    self.answer = answer;
                    true
                }
                Err(_) => false,
            },
            None => false,
        }
    }

    fn answer(&self) -> Option<&[u8]> {
        Some(self.answer.as_slice())
    }

    fn apply(&mut self, bytes: &[u8]) {
        match self.prepared {
            Prepared::Nothing => return,
            Prepared::Configure => self.configured = true,
            Prepared::Report => {
                if let Ok(output) = ArrayVec::try_from(bytes) {
                    self.output = output;
                }
            }
        }
        self.effects = self.effects.saturating_add(1);
    }
}
