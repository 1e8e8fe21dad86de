//! A device by whole transfers.
ghost use Rattle.std.specs.Prelude.{◌≡◌, ℕ, Bool, ◌≤◌, ◌+◌, ◌/◌, ◌++◌, nat_le, length, take, true, false, Some, IsSome, if◌then◌else◌};
ghost use Rattle.std.specs.Option.{option_copied};
ghost use Rattle.hid_layout.specs.Controls.{items_of};
ghost use Rattle.hid_layout.specs.Reports.{IsLayout};
ghost use Rattle.hid_snapshots.specs.Pieces.{pieces_for};
ghost use Rattle.hid_snapshots.specs.Snapshots.{Changes};
ghost use Rattle.usb_control.specs.declared.device.Stage.{Stage};
ghost use Rattle.usb_control.specs.declared.device.LastPacket.{LastPacket};
ghost use Rattle.usb_control.specs.SetupBytes.{reads};
ghost use Rattle.hid_device.specs.Core.{IsSound, changed_core, core_at_poll, framed_core, reset_core};
ghost use Rattle.hid_device.specs.RequestTable.{core_table, output_of};
ghost use Rattle.hid_gadget.specs.Gadgets.{FindsControl, MakesGadget, halted_gadget};
ghost use Rattle.hid_gadget.specs.Rooms.{with_front};
ghost use Rattle.hid_gadget.specs.WholeTransfers.{EndsAfter, IsOfTries, after_transfer, control_result, room_after_transfer};
ghost use Rattle.hid_gadget.specs.WholeReports.{bytes_fitting, bytes_left, bytes_taken, core_after_poll, core_after_polls, core_after_report, end_of_round, piece_at_hand, pieces_fitting, report_result};

use crate::outcomes::{Control, Poll};
use hid_device::{Config, Device, DeviceFault};
use hid_layout::{ControlId, Layout, ReportKind, Usage};
use hid_requests::REPORT_ENDPOINT;
use hid_snapshots::{Change, ChangeFault, MAX_PIECE};
use std::alloc::Global;
use std::marker::Model;
use usb_control::{Requests, Setup};
use usb_packet::{Packet, PacketRef, TokenKind};

/// The address of the device inside a gadget (our choice of 1 to 127). A controller answers SET_ADDRESS by itself, and gives
/// its bus another one.
pub const ADDRESS: u8 = 1;

/// A virtual device by whole transfers. A contract sees it as the core of its device.
#[derive(Drop)]
pub struct Gadget {
    device: Device,
}

impl Model for Gadget {
    ghost use Rattle.std.specs.Prelude.{◌≡◌};
    ghost use Rattle.hid_device.specs.Core.{CoreState};
    ghost use Rattle.hid_device.specs.Device.{core_of};
    ghost use Rattle.hid_gadget.specs.declared.gadget.TheConstants.{ADDRESS};

    ghost Value = { CoreState };

    ghost view = { λ g. core_of g.device };

    ghost invariant = { λ g. g.device.addr ≡ ADDRESS };
}

/// Writes bytes into a room from a place on.
fn put(room: &mut [u8], at: usize, bytes: &[u8])
    requires { at + length bytes.now ≤ length room.old }
    ensures { room.new
        ≡ with_front (take at room.old ++ bytes.now) room.old }
{
    room[at..at + bytes.len()].copy_from_slice(bytes);
}

/// Carries out a control transfer of which nothing is lost: the request is decided on, and then a read that is accepted gives its
/// answer, and a write takes effect.
fn transfer<R: Requests>(
    requests: &mut R,
    setup: &Setup,
    sends: &[u8],
    answer: &mut [u8],
) -> Control
    requires room { reads setup.now ≡ true → setup.now.length ≤ length answer.old }
    ensures ended { (said : Bool) × (decided : R)
        × R.prepare_gives requests.old setup.now said decided
        × EndsAfter R.apply_gives (R.answer_of decided) setup.now sends.now said decided
        requests.new answer.old result answer.new }
{
    if !requests.prepare(setup) {
        return Control::Stalled;
    }
    if setup.is_read() {
        let whole = requests.answer().unwrap_or(&[]);
        let bytes = &whole[..whole.len().min(usize::from(setup.length))];
        put(answer, 0, bytes);
        Control::Done(bytes.len())
    } else {
        requests.apply(sends);
        Control::Done(0)
    }
}

impl Gadget {
    /// A gadget that isn't configured yet: nothing is pressed and nothing has moved. It makes all room that the other calls
    /// fill.
    ///
    /// # Errors
    /// Those of [`Device::new`].
    pub fn new(alloc: Global, config: &Config, descriptor: &[u8]) -> Result<Gadget, DeviceFault>
        ensures { MakesGadget config.now descriptor.now result }
    {
        match Device::new(alloc, ADDRESS, config, descriptor) {
            Ok(device) => Ok(Gadget { device }),
            Err(fault) => Err(fault),
        }
    }

    /// A control transfer, whole: SETUP, data and status, of which nothing is lost (USB 2.0, 8.5.3). Of a read `answer` has room
    /// for wLength bytes, and of a write `sends` has wLength bytes.
    ///
    /// A read puts at most wLength bytes at the front of `answer`. A write of the bytes `sends` takes effect once, and one that
    /// is refused never. `Stalled` leaves `answer` as it was.
    pub fn control(&mut self, setup: &Setup, sends: &[u8], answer: &mut [u8]) -> Control
        requires room { reads setup.now ≡ true → setup.now.length ≤ length answer.old }
        requires whole { reads setup.now ≡ false → length sends.now ≡ setup.now.length }

        // What it makes of the device, how it ends, and the bytes of the answer.
        ensures core { self.new ≡ after_transfer core_table self.old setup.now sends.now }
        ensures result { result ≡ control_result core_table self.old setup.now }
        ensures answer { answer.new ≡ room_after_transfer core_table self.old setup.now answer.old }
        ensures within { (n : ℕ) → result ≡ Control.Done n → n ≤ setup.now.length }

        // It is the transfer's tries by packets, of which nothing is lost, wherever endpoint 0 stood.
        ensures tries { (stage : Stage) (last_packet : LastPacket)
            → IsOfTries core_table self.old stage last_packet setup.now sends.now self.new }
    {
        // For the prover: a request is encoded by its bytes.
        let _ = setup.to_bytes();

        transfer(self.device.control().requests_mut(), setup, sends, answer)
    }

    /// An interrupt transfer from the device, whole: a report is opened where none is open and one is due, and what fits
    /// of it is put at the front of `report`: all that is left of it, else as many pieces of 64 bytes as there is room for (USB
    /// 2.0, 5.7.3 and 8.5.4).
    ///
    /// Where no piece fits, the report is open from then on, as it is now, and nothing of it is taken. `Done` has at most as many
    /// bytes as `report`.
    pub fn report(&mut self, report: &mut [u8]) -> Poll
        ensures result { result ≡ report_result self.old (length report.old) }
        ensures core { self.new ≡ core_after_report self.old (length report.old) }
        ensures bytes { report.new
            ≡ with_front (bytes_taken self.old (length report.old)) report.old }
        ensures within { (n : ℕ) → result ≡ Poll.Done n → n ≤ length report.old }
        ensures sound { self.old.is_configured ≡ true → IsSound (core_at_poll self.old) }
    {
        if !self.is_configured() {
            return Poll::Nothing;
        }
        self.device.receive_poll();
        match self.device.open_round() {
            Some((number, _)) => self.take_pieces(number, report),
            None => self.without_round(),
        }
    }

    /// Changes a control.
    ///
    /// # Errors
    /// The first of [`ChangeFault`] that stands: U1 to U7. A change that is refused changes nothing.
    pub fn change(&mut self, change: Change) -> Result<(), ChangeFault>
        ensures changes { Changes (items_of self.old.layout) self.old.reports.snapshot change result
            self.new.reports.snapshot }
        ensures core { self.new ≡ changed_core self.old change }
    {
        self.device.change(change)
    }

    /// A frame of 1 ms passes: it counts for each Input report, up to 1,020.
    pub fn frame(&mut self)
        ensures { self.new ≡ framed_core self.old }
    {
        self.device.frame();
    }

    /// Halts the endpoint of its Input reports, as [`Device::halt`] does: an interrupt transfer ends with STALL until the
    /// host clears the halt, or configures or resets the device. The round that is open ends, and its report is due again. On a
    /// gadget that isn't configured it changes nothing.
    pub fn halt(&mut self)
        ensures { self.new ≡ halted_gadget self.old }
    {
        self.device.halt();
    }

    /// A reset of the bus, as [`Device::reset`] takes it: the gadget isn't configured any more, its Output and Feature reports are
    /// zeros, and no idle time is set. The snapshot stays, and no memory is taken.
    pub fn reset(&mut self)
        ensures { self.new ≡ reset_core self.old }
    {
        self.device.reset();
    }

    /// Whether SET_CONFIGURATION took effect.
    pub fn is_configured(&self) -> bool
        ensures { result ≡ self.now.is_configured }
    {
        self.device.is_poll(PacketRef::Token {
            kind: TokenKind::In,
            addr: ADDRESS,
            endp: REPORT_ENDPOINT,
        })
    }

    /// The Output or Feature report of this kind and ID, as SET_REPORT set it last, its ID first where it has one; at first
    /// zeros after the ID. None where there is no such report.
    pub fn outputs(&self, kind: ReportKind, id: u8) -> Option<&[u8]>
        ensures { option_copied result ≡ output_of self.now kind id }
    {
        self.device.outputs(kind, id)
    }

    /// The layout of its reports.
    pub fn layout(&self) -> &Layout
        ensures layout { result.now ≡ self.now.layout }
        ensures sound { IsSound self.now }
    {
        self.device.layout()
    }

    /// The least control with a usage.
    pub fn find(&self, usage: Usage) -> Option<ControlId>
        ensures { FindsControl self.now.layout usage result }
    {
        self.device.layout().find(usage)
    }
}

impl Gadget {
    /// How an interrupt transfer ends where no round is open.
    fn without_round(&self) -> Poll
        ensures ended { result ≡ (if self.now.halted then Poll.Stalled else Poll.Nothing) }
        ensures sound { IsSound self.now }
    {
        // For the prover: what holds of every device.
        let _ = self.device.layout();

        if self.device.pipe().halted() {
            Poll::Stalled
        } else {
            Poll::Nothing
        }
    }

    /// In bytes, what is left of the open round of a report.
    fn left(&self, number: usize) -> usize
        requires { self.now.current ≡ Some number }
        ensures left { result ≡ length (bytes_left self.now number) }
        ensures sound { IsSound self.now }
        ensures laid { IsLayout self.now.layout }
    {
        // For the prover: what holds of every layout.
        let _ = self.device.layout().items();

        let piece = self.device.piece().unwrap_or(0);
        self.device
            .layout()
            .report_bytes(number)
            .saturating_sub(piece.saturating_mul(MAX_PIECE))
    }

    /// Takes the pieces of the open round of a report that fit.
    fn take_pieces(&mut self, number: usize, report: &mut [u8]) -> Poll
        requires configured { self.old.is_configured ≡ true }
        requires open { self.old.current ≡ Some number }
        ensures result { result ≡ end_of_round (length report.old) self.old (Some number) }
        ensures core { self.new ≡ core_after_polls
            (pieces_fitting (length report.old) self.old (Some number)) self.old }
        ensures bytes { report.new ≡ with_front
            (bytes_fitting (length report.old) self.old (Some number)) report.old }
        ensures sound { IsSound self.old }
    {
        let count = fitting(self.left(number), report.len());
        if count == 0 {
            return Poll::TooSmall;
        }
        let mut taken = 0;
        for piece in 0..count {
            taken += self.take_piece(report, taken);
        }
        Poll::Done(taken)
    }

    /// Takes the piece that goes out of the open round, and acknowledges it. Gives its length.
    fn take_piece(&mut self, report: &mut [u8], at: usize) -> usize
        requires configured { self.old.is_configured ≡ true }
        requires open { IsSome self.old.current }
        requires room { at + length (piece_at_hand self.old) ≤ length report.old }
        ensures core { self.new ≡ core_after_poll self.old }
        ensures bytes { report.new
            ≡ with_front (take at report.old ++ piece_at_hand self.old) report.old }
        ensures count { result ≡ length (piece_at_hand self.old) }
    {
        let bytes = self.device.pipe().armed().unwrap_or(&[]);
        let count = bytes.len();
        put(report, at, bytes);
        self.device.receive_poll();
        self.device.on_packet(&Packet::Ack);
        count
    }
}

/// How many pieces of n bytes fit a room: all where the bytes do, else full ones.
fn fitting(left: usize, room: usize) -> usize
    ensures { result ≡ (if nat_le left room then pieces_for left else room / 64) }
{
    if left <= room {
        left.saturating_sub(1) / MAX_PIECE + 1
    } else {
        room / MAX_PIECE
    }
}
