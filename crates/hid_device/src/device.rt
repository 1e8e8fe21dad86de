//! A device on the bus: which packets reach its pipe, and which its endpoint 0.

ghost use Rattle.std.specs.Prelude.{◌≡◌, true, IfSome};
ghost use Rattle.std.specs.Option.{option_copied};
ghost use Rattle.hid_layout.specs.Controls.{items_of};
ghost use Rattle.hid_snapshots.specs.Snapshots.{Changes};
ghost use Rattle.usb_packet.specs.PacketRef.{to_owned, PayloadFits};
ghost use Rattle.usb_packet.specs.PacketEncoding.{Fits};
ghost use Rattle.hid_device.specs.Core.{IsSound, armed_bytes, core_at_poll, piece_at, poll_response, round_of};
ghost use Rattle.hid_device.specs.Device.{is_poll, device_after, device_answer, configured_device, halted_device, device_after_effect, core_of, changed_device, effect_of, framed_device, after_ignored_packet, device_after_poll, reset_device};
ghost use Rattle.hid_device.specs.RequestTable.{output_of};
ghost use Rattle.hid_device.specs.Creation.{MakesDevice};

use crate::config::{Config, is_config};
use crate::device_core::Core;
use hid_layout::{Layout, ReportKind};
use hid_requests::{DeviceCause, DeviceFault, REPORT_ENDPOINT};
use hid_snapshots::{Change, ChangeFault, Shown};
use std::alloc::Global;
use std::marker::Model;
use std::mem;
use usb_control::DevControl;
use usb_packet::{Packet, PacketRef, TokenKind};
use usb_transact::DevPipe;

/// A virtual device. A contract sees it as `addr`, `control` and `awaits_ack`. [`Core`] is its state; this type decides
/// which packets reach it and which ACK counts.
#[derive(Drop)]
pub struct Device {
    addr: u8,
    control: DevControl<Core>,
    /// Whether the last packet was a poll that was answered with data, so that an ACK is its own.
    awaits_ack: bool,
}

impl Model for Device {
    ghost use Rattle.hid_device.specs.Device.{DeviceState};

    ghost Value = { DeviceState };

    ghost view = { λ d. record { addr = d.addr; control = d.control; awaits_ack = d.awaits_ack } };
}

impl Device {
    ghost use Rattle.std.specs.Prelude.{false};
    ghost use Rattle.std.specs.Borrow.{Lends, sem};
    ghost use Rattle.usb_control.specs.contracts.device.DevControl.{the_row as control_row};
    ghost use Rattle.hid_device.specs.contracts.device.Device.{the_row as device_row};
    ghost use Rattle.hid_device.specs.contracts.device_core.Core.{the_row as core_row};

    /// A device at this address that isn't configured yet: nothing is pressed and nothing has moved. It makes all room that
    /// the other calls fill.
    ///
    /// # Errors
    /// The first that stands of V20, where the address, the interval or the descriptor of a boot device doesn't fit; V1 to V17,
    /// where the descriptor has no layout, or no memory is found for it; V18 and V19, where a report can't send that nothing is
    /// pressed or has moved; and V21, where no memory is found for what is kept beside the layout. [`DeviceCause`] has them.
    pub fn new(
        alloc: Global,
        addr: u8,
        config: &Config,
        descriptor: &[u8],
    ) -> Result<Device, DeviceFault>
        ensures { MakesDevice addr config.now descriptor.now result }
    {
        if !is_config(addr, config, descriptor) {
            return Err(DeviceFault {
                cause: DeviceCause::BadConfig,
                at: 0,
            });
        }
        let core = Core::new(alloc, config, descriptor)?;
        Ok(Device {
            addr,
            control: DevControl::new(core),
            awaits_ack: false,
        })
    }

    /// Takes effect as SET_CONFIGURATION does (USB 2.0, 9.1.1.5 and 9.4.7): the pipe goes back to DATA0, the open round
    /// ends, a halt ends, parts last fixed are blank and frames are counted from 0. The snapshot and the idle times stay.
    pub fn configure(&mut self)
        ensures { self.new ≡ configured_device self.old }
    {
        self.control.requests_mut().configure();
        self.awaits_ack = false;
    }

    /// Halts the endpoint of its Input reports, as SET_FEATURE of ENDPOINT_HALT does (USB 2.0, 9.4.5 and 9.4.9): a poll is
    /// answered with STALL until the halt ends, by CLEAR_FEATURE, a configuration or a reset. The round that is open ends, its
    /// report is due from then on, and the toggle stays. On a device that isn't configured it changes nothing.
    pub fn halt(&mut self)
        ensures { self.new ≡ halted_device self.old }
    {
        if self.control.requests().is_configured() {
            self.control.requests_mut().halt();
            self.awaits_ack = false;
        }
    }

    /// A reset of the bus (USB 2.0, 7.1.7.5 and 9.1.1.3). It ends the configuration, the open request, the open round and a
    /// halt. Parts last fixed are blank; counts of frames, idle times, and Output and Feature reports are 0. The report
    /// protocol is set. The snapshot and the address stay. No memory is taken.
    pub fn reset(&mut self)
        ensures { self.new ≡ reset_device self.old }
    {
        self.control.requests_mut().reset();
        self.control.reset();
        self.awaits_ack = false;
    }

    /// Changes a control.
    ///
    /// # Errors
    /// The first of [`ChangeFault`] that stands: U1 to U7. A change that is refused changes nothing.
    pub fn change(&mut self, change: Change) -> Result<(), ChangeFault>
        // It is done exactly where no fault stands, else it is refused for the first fault that stands.
        ensures changes { Changes
            (items_of (core_of self.old).layout) (core_of self.old).reports.snapshot change result
            (core_of self.new).reports.snapshot }
        ensures device { self.new ≡ changed_device self.old change }
        ensures sound { IsSound (core_of self.new) }
    {
        self.control.requests_mut().change(change)
    }

    /// A frame of 1 ms passes: it counts for each Input report, up to 1,020.
    pub fn frame(&mut self)
        ensures { self.new ≡ framed_device self.old }
    {
        self.control.requests_mut().frame();
    }

    /// Endpoint 0, to be given packets, or the control of a host's transfer. A wait of the pipe for an ACK ends.
    pub fn control(&mut self) -> &mut DevControl<Core>
        ensures* lends { sem 𝓛 (Lends device_row (control_row core_row) self.entry result
            (λ w. record { addr = self.old.addr; control = w; awaits_ack = false })) }
        ensures now { result.now ≡ self.old.control }
    {
        self.awaits_ack = false; // an ACK is endpoint 0's from now on
        &mut self.control
    }

    /// What the device makes of a packet that arrives. It answers a poll, an IN token to its address and [`REPORT_ENDPOINT`], once
    /// it is configured, and its endpoint 0 answers as a control transfer goes; nothing else is answered (USB 2.0,
    /// 8.4.6.1, 8.5.3 and 8.5.4).
    ///
    /// | packet | who receives it |
    /// |---|---|
    /// | a token to its address and endpoint 0 | endpoint 0 |
    /// | IN to its address and [`REPORT_ENDPOINT`], once it is configured | the pipe: a poll |
    /// | data | endpoint 0, which checks that its token came directly before |
    /// | ACK directly after the data of a poll | the pipe: the piece is closed, and with the last one its round |
    /// | another ACK | endpoint 0 |
    /// | all else | none; it ends what either waits for |
    pub fn on_packet(&mut self, packet: &Packet) -> Option<Packet>
        // A poll opens a round where none is open and some report is due; an ACK directly after its data closes the
        // piece that they are.
        ensures device { self.new ≡ device_after self.old packet.now }
        ensures answer { result ≡ device_answer self.old packet.now }

        // An answer has an encoding, and can be read back.
        ensures fits { IfSome result (λ answer. Fits answer) }
        ensures sound { IfSome result (λ _. IsSound (core_of self.new)) }
    {
        let waited = mem::replace(&mut self.awaits_ack, false);
        match packet {
            Packet::Token { addr, endp, .. } if *addr == self.addr && *endp == 0 => self.receive(
                packet,
            ),
            Packet::Token {
                kind: TokenKind::In,
                addr,
                endp,
            } if self.is_poll_token(*addr, *endp) => Some(self.poll()),
            Packet::Ack if waited => {
                self.ignore_packet();
                self.control.requests_mut().acknowledged();
                None
            }
            Packet::Data { .. } | Packet::Ack => self.receive(packet),
            Packet::Token { .. } | Packet::Nak | Packet::Stall => {
                self.ignore_packet();
                None
            }
        }
    }

    /// Whether a packet that arrives is a poll.
    pub fn is_poll(&self, packet: PacketRef) -> bool
        ensures { result ≡ is_poll self.now (to_owned packet.entry) }
    {
        match packet {
            PacketRef::Token {
                kind: TokenKind::In,
                addr,
                endp,
            } => self.is_poll_token(addr, endp),
            _ => false,
        }
    }

    /// A poll has arrived, as [`Device::is_poll`] found: a round is opened where none is open and some report is due.
    /// [`Device::on_packet`] does this too, and then answers by [`Device::poll_response`].
    pub fn receive_poll(&mut self)
        requires configured { (core_of self.old).is_configured ≡ true }
        ensures device { self.new ≡ device_after_poll self.old (core_at_poll (core_of self.old)) }
    {
        self.ignore_packet();
        self.control.requests_mut().open_if_due();
        self.awaits_ack = self.control.requests().open_round().is_some();
    }

    /// The answer to a poll that [`Device::receive_poll`] took, with its payload where it stands.
    pub fn poll_response(&self) -> PacketRef<'_>
        requires configured { (core_of self.now).is_configured ≡ true }
        ensures answer { to_owned result ≡ poll_response (core_of self.now) }
        ensures fits { Fits (to_owned result) }
        ensures short { PayloadFits result }
        ensures sound { IsSound (core_of self.now) }
    {
        self.control.requests().poll_response()
    }

    /// The layout of its reports.
    pub fn layout(&self) -> &Layout
        ensures layout { result.now ≡ (core_of self.now).layout }
        ensures sound { IsSound (core_of self.now) }
    {
        self.control.requests().layout()
    }

    /// The report of the open round, and whether its data go out as DATA1.
    pub fn open_round(&self) -> Option<(usize, bool)>
        ensures { result ≡ round_of (core_of self.now) }
    {
        self.control.requests().open_round()
    }

    /// Which piece of the open round goes out, from 0: its bytes go in pieces of 64, of which the last one has the rest.
    pub fn piece(&self) -> Option<usize>
        ensures { result ≡ piece_at (core_of self.now) }
    {
        self.control.requests().piece()
    }

    /// The parts that were fixed last, blank where none was since the configuration.
    pub fn fixed(&self) -> &Shown
        ensures { result.now ≡ (core_of self.now).reports.fixed }
    {
        self.control.requests().fixed()
    }

    /// The Output or Feature report of this kind and ID, as SET_REPORT set it last, its ID first where it has one; at first
    /// zeros after the ID. None where there is no such report.
    pub fn outputs(&self, kind: ReportKind, id: u8) -> Option<&[u8]>
        ensures { option_copied result ≡ output_of (core_of self.now) kind id }
    {
        self.control.requests().output(kind, id)
    }

    /// The pipe of its Input reports: something is armed exactly while a round is open, and it is the piece that goes out of
    /// the bytes of the part that was fixed for it. It is halted while the endpoint is.
    pub fn pipe(&self) -> &DevPipe
        ensures toggle { result.now.toggle ≡ (core_of self.now).toggle }
        ensures halted { result.now.halted ≡ (core_of self.now).halted }
        ensures armed { result.now.armed ≡ armed_bytes (core_of self.now) }
    {
        self.control.requests().pipe()
    }
}

impl Device {
    ghost use Rattle.std.specs.Prelude.{false};
    ghost use Rattle.usb_packet.specs.declared.packet.Packet.TheVariants.{Token};
    ghost use Rattle.usb_packet.specs.declared.packet.TokenKind.TheVariants.{In};
    ghost use Rattle.usb_control.specs.TryFunctions.{answer_to};

    /// Whether an IN token to this endpoint polls the device.
    fn is_poll_token(&self, addr: u8, endp: u8) -> bool
        ensures { result ≡ is_poll self.now (Token In addr endp) }
    {
        self.control.requests().is_configured() && (addr == self.addr && endp == REPORT_ENDPOINT)
    }

    /// Endpoint 0 receives a packet.
    fn receive(&mut self, packet: &Packet) -> Option<Packet>
        requires { self.old.awaits_ack ≡ false }
        ensures device { self.new ≡ device_after_effect self.old (effect_of self.old packet.now) }
        ensures answer { result ≡ answer_to (effect_of self.old packet.now) }
        ensures fits { IfSome result Fits }
        ensures sound { IsSound (core_of self.new) }
    {
        let answer = self.control.on_packet(packet);
        // For the prover: what holds of every device.
        let _ = self.control.requests().layout();

        answer
    }

    /// Endpoint 0 ignores a packet of another endpoint, and forgets the packet before it.
    fn ignore_packet(&mut self)
        ensures { self.new ≡ after_ignored_packet self.old (core_of self.old) self.old.awaits_ack }
    {
        self.control.ignore_packet();
    }

    /// The answer to a poll, once a round was opened for it.
    fn poll(&mut self) -> Packet
        requires configured { (core_of self.old).is_configured ≡ true }
        ensures device { self.new ≡ device_after_poll self.old (core_at_poll (core_of self.old)) }
        ensures answer { result ≡ poll_response (core_at_poll (core_of self.old)) }
        ensures fits { Fits result }
        ensures sound { IsSound (core_of self.new) }
    {
        self.receive_poll();
        self.poll_response().to_owned()
    }
}
