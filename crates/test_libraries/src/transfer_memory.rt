//! Out of memory, where a transfer begins: the test is also run with each of its allocations refused in turn.

use std::alloc::Global;
use usb_control::{ControlFault, DevControl, HostTransfer, Outcome, Requests, Setup};
use usb_transact::Fate;

/// GET_STATUS of a device (USB 2.0, 9.4.5).
const GET_STATUS: [u8; 8] = [0x80, 0x00, 0x00, 0x00, 0x00, 0x00, 0x02, 0x00];

/// Answers each read with two zeros, and refuses writes.
#[derive(Drop)]
struct Zeros {
    /// How often a request was decided on.
    decisions: u32,
}

impl Requests for Zeros {
    ghost use Rattle.std.specs.Prelude.{◌≡◌, Some, ◌∷◌, []};
    ghost use Rattle.std.proofs.Common.{rules};
    ghost use Rattle.usb_control.specs.SetupBytes.{reads};

    ghost answer_of = { λ _. Some (0 ∷ 0 ∷ []) };

    ghost prepare_gives = { λ s r said t. said ≡ reads r };

    ghost apply_gives = { λ s bytes t. t ≡ s };

    ghost same_but_request = { λ s t. t ≡ t };

    ghost read_has_answer = { Prim.search rules };

    ghost write_is_short = { Prim.search rules };

    ghost prepare_keeps = { Prim.search rules };

    ghost prepare_forgets = { Prim.search rules };

    ghost read_has_no_effect = { Prim.search rules };

    fn prepare(&mut self, setup: &Setup) -> bool {
        self.decisions = self.decisions.saturating_add(1);
        setup.is_read()
    }

    fn answer(&self) -> Option<&[u8]> {
        Some(&[0, 0])
    }

    fn apply(&mut self, _bytes: &[u8]) {}
}

fn begin(alloc: Global) -> Result<HostTransfer, ControlFault> {
    let setup = Setup::from_bytes(&GET_STATUS);
    if setup.is_read() {
        HostTransfer::begin(alloc, 1, setup, &[])
    } else {
        Err(ControlFault::NoTransfer)
    }
}

/// How many clean tries it takes until the transfer ends.
fn tries(transfer: &mut HostTransfer, control: &mut DevControl<Zeros>) -> usize {
    for at in 0..100 {
        if !matches!(transfer.outcome(), Outcome::Running) {
            return at;
        }
        transfer.step(control, Fate::Clean);
    }
    100
}

fn is_read(transfer: &HostTransfer) -> bool {
    transfer.outcome() == Outcome::Done(&[0, 0])
}

/// Whether a read begins and is done by one decision; or memory runs out, and the device received nothing.
fn is_read_or_wants(alloc: Global, control: &mut DevControl<Zeros>) -> bool {
    let before = control.requests().decisions;
    match begin(alloc) {
        Ok(mut transfer) => {
            tries(&mut transfer, control) == 3
                && is_read(&transfer)
                && control.requests().decisions == before.saturating_add(1)
        }
        Err(fault) => fault == ControlFault::Memory && control.requests().decisions == before,
    }
}

/// With memory a read begins and is done. Without it, it is refused, and nothing has begun: the device received nothing, and
/// the next may begin.
#[test]
fn want_of_memory_begins_nothing(rt: HostRuntime) {
    let mut control = DevControl::new(Zeros { decisions: 0 });
    assert!(rt; is_read_or_wants(rt.alloc(), &mut control));
    assert!(rt; is_read_or_wants(rt.alloc(), &mut control));
    assert!(rt; is_read_or_wants(rt.alloc(), &mut control));
}
