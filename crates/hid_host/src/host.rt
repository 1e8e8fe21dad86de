//! The host of one device: the requests that it makes, and its polls.
ghost use Rattle.std.specs.Prelude.{◌≡◌, ◌⊎◌, false, ◌≤◌, ◌<◌, ◌+◌, ◌++◌, length, IfSome, IfOk, IfErr, vec_len, vec_capacity};
ghost use Rattle.std.specs.Option.{option_copied, option_map};
ghost use Rattle.hid_layout.specs.Controls.{items_of, max_events};
ghost use Rattle.hid_layout.specs.Layout.{Contents};
ghost use Rattle.hid_snapshots.specs.ControlStates.{FitsShown};
ghost use Rattle.hid_snapshots.specs.Parts.{IsInput};
ghost use Rattle.usb_packet.specs.PacketRef.{to_owned, PayloadFits};
ghost use Rattle.usb_packet.specs.PacketEncoding.{Fits};
ghost use Rattle.usb_transact.specs.Replies.{reply_outcome};
ghost use Rattle.hid_layout.specs.Parsing.{ParsesTo};
ghost use Rattle.hid_host.specs.Conclusions.{IsNoLayout};
ghost use Rattle.hid_host.specs.Host.{ConcludesAt, clearing_after, cold_host, host_after_reply, is_ack_sent, is_clear, may_abort_round, polls_with, read_bytes_of, ready_host};
ghost use Rattle.hid_host.specs.Phase.{HasEndpoint, IsReady, IfReady, may_poll, state_of};
ghost use Rattle.hid_host.specs.Ready.{outcome_of, events_after};
ghost use Rattle.hid_host.specs.ResetEvents.{SuitsRound, awaited_at, reported_drops, host_abort_events, host_reset_events};

use crate::conclusions::{conclude, layout_of};
use crate::fault::StackFault;
use crate::phase::{HostPhase, HostState};
use crate::ready::{ROOM, ReadyHost};
use hid_requests::{REPORT_ENDPOINT, Request};
use hid_snapshots::{Event, Shown};
use hid_usages::{PlannedView, Receiver, View};
use std::alloc::Global;
use std::marker::Model;
use usb_control::{
    ControlFault, DevControl, HostTransfer, Outcome, Progress, Requests, send_ack, send_token,
};
use usb_packet::{MAX_ADDRESS, Packet, PacketRef, TokenKind};
use usb_transact::{Fate, HostPipe, Took};

/// A transfer of a host, and the request that it plays.
#[derive(Drop)]
pub(crate) struct Transfer {
    pub(crate) request: Request,
    pub(crate) ends: HostTransfer,
}

/// Whether a request ends a halt of the endpoint that is polled.
fn is_clear(request: &Request) -> bool
    ensures { result ≡ is_clear request.now }
{
    matches!(request, Request::Clear)
}

/// The host of one device. A contract sees it as `addr`, `phase`, `transfer`, the one that it began last, and `clearing`,
/// whether a `Clear` is pending.
#[derive(Drop)]
pub struct HostDevice {
    alloc: Global,
    addr: u8,
    phase: HostPhase,
    transfer: Option<Transfer>,
    clearing: bool,
}

impl Model for HostDevice {
    ghost use Rattle.std.specs.Prelude.{◌≤◌, ◌<◌};
    ghost use Rattle.usb_packet.specs.declared.packet.TheConstants.{MAX_ADDRESS};
    ghost use Rattle.hid_host.specs.Host.{HostDeviceState};
    ghost use Rattle.hid_host.specs.Phase.{HasEndpoint};

    ghost Value = { HostDeviceState };

    ghost view = { λ h. record { addr = h.addr; phase = h.phase; transfer = h.transfer; clearing = h.clearing } };

    ghost invariant = { λ h. (0 < h.addr) × (h.addr ≤ MAX_ADDRESS) × HasEndpoint h.phase };
}

impl HostDevice {
    /// A host that knows nothing yet of the device at this address, 1 to [`MAX_ADDRESS`].
    pub fn cold(alloc: Global, addr: u8) -> HostDevice
        requires above { 0 < addr }
        requires addr { addr ≤ MAX_ADDRESS }
        ensures { result ≡ cold_host addr }
    {
        HostDevice {
            alloc,
            addr,
            phase: HostPhase::Cold,
            transfer: None,
            clearing: false,
        }
    }

    /// A host that is ready from the start: it has the layout of this report descriptor, expects DATA0, and polls endpoint
    /// 1 of the device at this address, 1 to [`MAX_ADDRESS`].
    ///
    /// # Errors
    /// [`StackFault::BadDescriptor`] with the layout's cause and place, or [`StackFault::Memory`].
    pub fn ready(alloc: Global, addr: u8, descriptor: &[u8]) -> Result<HostDevice, StackFault>
        requires above { 0 < addr }
        requires addr { addr ≤ MAX_ADDRESS }
        ensures ready { IfOk result (λ host. (layout : Contents) × ParsesTo descriptor.now layout
            × (host ≡ ready_host addr layout)) }
        ensures is_ready { IfOk result (λ host. IsReady host.phase) }
        ensures refused { IfErr result (λ fault. IsNoLayout descriptor.now fault) }
    {
        let layout = layout_of(alloc, descriptor)?;
        let Ok(view) = PlannedView::initial(alloc, &layout) else {
            drop(layout);
            return Err(StackFault::Memory);
        };
        let Ok(room) = Vec::with_capacity(alloc, ROOM) else {
            drop(layout);
            return Err(StackFault::Memory);
        };
        let receiver = Receiver::new(layout, view, room);
        let host = ReadyHost::new(addr, REPORT_ENDPOINT, receiver);
        Ok(HostDevice {
            alloc,
            addr,
            phase: HostPhase::Ready(host),
            transfer: None,
            clearing: false,
        })
    }

    /// How far the host has come with its device.
    pub fn state(&self) -> HostState
        ensures { result ≡ state_of self.now.phase }
    {
        self.phase.state()
    }

    /// How many events a reply gives at most.
    pub fn max_events(&self) -> usize
        requires { IsReady self.now.phase }
        ensures { IfReady self.now.phase (λ host. result ≡ max_events (items_of host.layout)) }
    {
        let HostPhase::Ready(host) = &self.phase else {
            unreachable!()
        };
        host.max_events()
    }

    /// Whether the host polls: it has configured its device, and no `Clear` is pending (USB 2.0, 9.4.5).
    pub fn may_poll(&self) -> bool
        ensures { result ≡ may_poll (state_of self.now.phase) self.now.clearing }
    {
        self.phase.state().polls(self.clearing)
    }

    /// The IN token of a poll (USB 2.0, 8.4.1).
    ///
    /// # Errors
    /// [`StackFault::NotReady`] where the host hasn't configured its device, and from the begin of a `Clear` until one is
    /// done: it may take effect at any try, and a poll after that would meet another toggle than the host expects.
    pub fn token(&self) -> Result<Packet, StackFault>
        ensures token { result ≡ polls_with self.now }
        ensures fits { IfOk result Fits }
        ensures is_ready { IfOk result (λ _. IsReady self.now.phase × (self.now.clearing ≡ false)) }
    {
        if self.clearing {
            return Err(StackFault::NotReady);
        }
        match &self.phase {
            HostPhase::Cold | HostPhase::Described(_) | HostPhase::Parsed(..) => Err(
                StackFault::NotReady,
            ),
            HostPhase::Ready(host) => Ok(host.token()),
        }
    }

    /// Takes what came after the token, if something did (USB 2.0, 8.6). Fresh data are joined until an Input report ends:
    /// with its last byte (its first byte gives the length) or with a packet that isn't full (5.7.3). Then the report is read
    /// and its events are appended. There is reserved room for `max_events` more; no memory is taken.
    ///
    /// # Errors
    /// [`StackFault::Report`] if the bytes are no Input report: the toggle has moved on, the bytes are forgotten, and the view
    /// stays.
    pub fn reply(
        &mut self,
        packet: Option<&Packet>,
        out: &mut Vec<Event>,
    ) -> Result<Took, StackFault>
        requires ready { IsReady self.old.phase }
        requires room { IfReady self.old.phase (λ host. vec_len out.old
            + max_events (items_of host.layout) ≤ vec_capacity out.old) }
        // What is reported, what the host keeps, and the events.
        ensures outcome { IfReady self.old.phase (λ host. result
            ≡ outcome_of host (reply_outcome host.pipe.expects (option_copied packet.entry))) }
        ensures after { IfReady self.old.phase (λ host. self.new
            ≡ host_after_reply self.old host
            (reply_outcome host.pipe.expects (option_copied packet.entry))) }
        ensures events { IfReady self.old.phase (λ host. out.new.items
            ≡ out.old.items
            ++ events_after host (reply_outcome host.pipe.expects (option_copied packet.entry))) }

        ensures few { IfReady self.old.phase (λ host. length out.new.items
            ≤ length out.old.items + max_events (items_of host.layout)) }
        ensures room { vec_capacity out.new ≡ vec_capacity out.old }
        ensures is_ready { IsReady self.new.phase }
    {
        let packet_ref = match packet {
            Some(packet) => Some(packet.as_ref()),
            None => None,
        };
        self.reply_ref(packet_ref, out)
    }

    /// Takes a packet whose payload, of at most 64 bytes, stands elsewhere: as [`HostDevice::reply`] does.
    ///
    /// # Errors
    /// As of [`HostDevice::reply`].
    pub fn reply_ref(
        &mut self,
        packet: Option<PacketRef>,
        out: &mut Vec<Event>,
    ) -> Result<Took, StackFault>
        requires short { IfSome packet PayloadFits }
        requires ready { IsReady self.old.phase }
        requires room { IfReady self.old.phase (λ host. vec_len out.old
            + max_events (items_of host.layout) ≤ vec_capacity out.old) }
        ensures outcome { IfReady self.old.phase (λ host. result
            ≡ outcome_of host
            (reply_outcome host.pipe.expects (option_map to_owned packet.entry))) }
        ensures after { IfReady self.old.phase (λ host. self.new
            ≡ host_after_reply self.old host
            (reply_outcome host.pipe.expects (option_map to_owned packet.entry))) }
        ensures events { IfReady self.old.phase (λ host. out.new.items
            ≡ out.old.items
            ++ events_after host
            (reply_outcome host.pipe.expects (option_map to_owned packet.entry))) }
        ensures few { IfReady self.old.phase (λ host. length out.new.items
            ≤ length out.old.items + max_events (items_of host.layout)) }
        ensures room { vec_capacity out.new ≡ vec_capacity out.old }
        ensures is_ready { IsReady self.new.phase }
    {
        let HostPhase::Ready(host) = &mut self.phase else {
            unreachable!()
        };
        host.reply(packet, out)
    }

    /// The bus was reset: the host forgets its device and its transfer, and is cold. A ready host appends the changes back to
    /// the initial view, and as dropped the motion of the open round that it hasn't received whole. `round`, `piece` and
    /// `fixed` are the device's, from before its reset. Room for `max_events` more is reserved; no memory is taken.
    pub fn reset(
        &mut self,
        round: Option<(usize, bool)>,
        piece: Option<usize>,
        fixed: &Shown,
        out: &mut Vec<Event>,
    )
        requires suits { IfReady self.old.phase (λ host. SuitsRound host.layout round fixed.now) }
        requires room { IfReady self.old.phase (λ host. vec_len out.old
            + max_events (items_of host.layout) ≤ vec_capacity out.old) }
        ensures host { self.new ≡ cold_host self.old.addr }
        ensures events { out.new.items
            ≡ out.old.items ++ host_reset_events self.old.phase round piece fixed.now }
        ensures few { IfReady self.old.phase (λ host. length out.new.items
            ≤ length out.old.items + max_events (items_of host.layout)) }
        ensures room { vec_capacity out.new ≡ vec_capacity out.old }
    {
        if let HostPhase::Ready(host) = &self.phase {
            host.release_all(round, piece, fixed, out); // any other has reported nothing
        }
        self.forget();
    }

    /// The host forgets its device and its transfer.
    fn forget(&mut self)
        ensures { self.new ≡ cold_host self.old.addr }
    {
        self.phase.go_on(HostPhase::Cold);
        self.transfer = None;
        self.clearing = false;
    }

    /// Appends what a halt, or its end, drops: the motion of the round that was open, unless all of its data arrived. It is
    /// given that round with whether its data go out as DATA1, the current piece, and the parts fixed last, all from before.
    /// A host that isn't ready appends nothing. Room for `max_events` more is reserved; no memory is taken.
    pub fn drop_aborted_motion(
        &self,
        round: Option<(usize, bool)>,
        piece: Option<usize>,
        fixed: &Shown,
        out: &mut Vec<Event>,
    )
        requires suits { IfReady self.now.phase (λ host. SuitsRound host.layout round fixed.now) }
        requires room { IfReady self.now.phase (λ host. vec_len out.old
            + max_events (items_of host.layout) ≤ vec_capacity out.old) }
        ensures events { out.new.items
            ≡ out.old.items ++ host_abort_events self.now.phase round piece fixed.now }
        ensures few { IfReady self.now.phase (λ host. length out.new.items
            ≤ length out.old.items + max_events (items_of host.layout)) }
        ensures room { vec_capacity out.new ≡ vec_capacity out.old }
    {
        if let HostPhase::Ready(host) = &self.phase {
            host.drop_aborted_motion(round, piece, fixed, out);
        }
    }

    /// The report of the round that is open at the device, where the host is ready and hasn't received all of its data. It is
    /// given that round with whether its data go out as DATA1, and the current piece.
    pub fn awaited_report(
        &self,
        round: Option<(usize, bool)>,
        piece: Option<usize>,
    ) -> Option<usize>
        requires input { IfReady self.now.phase
            (λ host. IfSome round (λ it. IsInput host.layout it.0)) }
        ensures awaited { result ≡ awaited_at self.now.phase round piece }
    {
        match &self.phase {
            HostPhase::Ready(host) => host.awaited_report(round, piece),
            HostPhase::Cold | HostPhase::Described(_) | HostPhase::Parsed(..) => None,
        }
    }

    /// Appends the motion of this [awaited](HostDevice::awaited_report) report as dropped: its round was aborted. The host is
    /// given the parts fixed last; one that isn't ready appends nothing. Room for `max_events` more is reserved; no memory is
    /// taken.
    pub fn report_drops(&self, report: usize, fixed: &Shown, out: &mut Vec<Event>)
        requires input { IfReady self.now.phase (λ host. IsInput host.layout report) }
        requires fits { IfReady self.now.phase (λ host. FitsShown (items_of host.layout) fixed.now) }
        requires room { IfReady self.now.phase (λ host. vec_len out.old
            + max_events (items_of host.layout) ≤ vec_capacity out.old) }
        ensures events { out.new.items ≡ out.old.items ++ reported_drops self.now.phase report fixed.now }
        ensures few { IfReady self.now.phase (λ host. length out.new.items
            ≤ length out.old.items + max_events (items_of host.layout)) }
        ensures room { vec_capacity out.new ≡ vec_capacity out.old }
    {
        if let HostPhase::Ready(host) = &self.phase {
            host.report_drops(report, fixed, out);
        }
    }

    /// The pipe that the host polls.
    pub fn pipe(&self) -> &HostPipe
        requires { IsReady self.now.phase }
        ensures { IfReady self.now.phase (λ host. result.now ≡ host.pipe) }
    {
        let HostPhase::Ready(host) = &self.phase else {
            unreachable!()
        };
        host.pipe()
    }

    /// The host's view of the controls.
    pub fn view(&self) -> &View
        requires { IsReady self.now.phase }
        ensures { IfReady self.now.phase (λ host. result.now ≡ host.view) }
    {
        let HostPhase::Ready(host) = &self.phase else {
            unreachable!()
        };
        host.view()
    }
}

impl HostDevice {
    ghost use Rattle.std.specs.Prelude.{Ok, Err, Some, None, OnOk, OnErr, is_some};
    ghost use Rattle.hid_requests.specs.RequestSetup.{FitsRequest};
    ghost use Rattle.hid_host.specs.declared.fault.StackFault.{StackFault as Refusal};
    ghost use Rattle.hid_host.specs.Host.{ControlSteps, ShowsLast, TakesControl, begin_refusal, control_payload_of, control_token_of, host_after_begin, running, transfer_of};
    ghost use Rattle.hid_host.specs.Phase.{asking_at};

    /// Whether a transfer runs.
    fn is_busy(&self) -> bool
        ensures { result ≡ is_some (running self.now.transfer) }
    {
        match &self.transfer {
            Some(transfer) => matches!(transfer.ends.outcome(), Outcome::Running),
            None => false,
        }
    }

    /// Whether a try of the transfer that runs may abort the round that is open at the device: it is one of `Halt` or `Clear`.
    pub fn may_abort_round(&self) -> bool
        ensures { result ≡ may_abort_round (running self.now.transfer) }
    {
        match &self.transfer {
            Some(transfer) => {
                matches!(transfer.ends.outcome(), Outcome::Running)
                    && matches!(transfer.request, Request::Halt | Request::Clear)
            }
            None => false,
        }
    }

    /// A transfer of a request that has yet to make its first try.
    fn transfer_of(&self, request: &Request) -> Result<Transfer, StackFault>
        ensures transfer { IfOk result (λ transfer.
            transfer ≡ transfer_of self.now.addr (asking_at self.now.phase) request.now) }
        ensures memory { IfErr result (λ e. e ≡ Refusal.Memory) }
        ensures fits { FitsRequest request.now }
    {
        let setup = request.setup(&self.phase.asking());
        match HostTransfer::begin(self.alloc, self.addr, setup, request.sends()) {
            Ok(ends) => Ok(Transfer {
                request: request.copied(),
                ends,
            }),
            Err(_) => Err(StackFault::Memory),
        }
    }

    /// Begins a transfer of a request. Nothing is sent yet, and a call that is refused changes nothing. It takes the memory
    /// for wLength bytes. From the begin of a `Clear` until one is done the host doesn't poll.
    ///
    /// # Errors
    /// [`StackFault::Control`] with [`ControlFault::Busy`] where another transfer runs; then [`StackFault::NotReady`]
    /// where the request needs another state, by the table of [`HostState`]; then [`StackFault::Memory`].
    pub fn begin(&mut self, request: &Request) -> Result<(), StackFault>
        ensures begun { OnOk result ((begin_refusal self.old request.now ≡ None)
            × (self.new ≡ host_after_begin self.old request.now)) }
        ensures refused { (e : Refusal) → begin_refusal self.old request.now ≡ Some e → result ≡ Err e }
        ensures only { IfErr result (λ e. (begin_refusal self.old request.now ≡ Some e)
            ⊎ ((begin_refusal self.old request.now ≡ None) × (e ≡ Refusal.Memory))) }
        ensures err { OnErr result (self.new ≡ self.old) }
        ensures fits { IfOk result (λ _. FitsRequest request.now) }
    {
        if self.is_busy() {
            return Err(StackFault::Control(ControlFault::Busy));
        }
        if !self.phase.state().allows(request) {
            return Err(StackFault::NotReady);
        }
        let transfer = self.transfer_of(request)?;
        self.transfer = Some(transfer);
        self.clearing = is_clear(request) || self.clearing;
        Ok(())
    }

    /// The token of the next try of the transfer that runs, to endpoint 0 (USB 2.0, 8.5.3). [`HostDevice::control_payload`] has
    /// the data that go with it, and [`HostDevice::control_take`] takes what comes back.
    ///
    /// A try of a `Halt` or a `Clear` may abort the open round of a device. Who reports the motion that this drops reserves the
    /// room for it before the token is sent, where [`HostDevice::may_abort_round`] says so.
    ///
    /// # Errors
    /// [`StackFault::Control`] with [`ControlFault::NoTransfer`] where no transfer runs: nothing is to be sent.
    pub fn control_token(&self) -> Result<Packet, StackFault>
        ensures token { result ≡ control_token_of (running self.now.transfer) }
        ensures fits { IfOk result Fits }
    {
        if !self.is_busy() {
            return Err(StackFault::Control(ControlFault::NoTransfer));
        }
        match &self.transfer {
            Some(transfer) => Ok(transfer.ends.token()),
            None => unreachable!(),
        }
    }

    /// The data packet that goes with the token of the next try, after SETUP and OUT: the request under DATA0, the next bytes
    /// of a write, DATA1 first, or the status of a read. Nothing where no transfer runs.
    pub fn control_payload(&self) -> Option<Packet>
        ensures payload { result ≡ control_payload_of (running self.now.transfer) }
        ensures fits { IfSome result Fits }
    {
        if !self.is_busy() {
            return None;
        }
        match &self.transfer {
            Some(transfer) => transfer.ends.payload(),
            None => unreachable!(),
        }
    }

    /// Takes what came after the token of a try and its data, if something did (USB 2.0, 8.5.3 and 8.6): how far the transfer
    /// has come, and whether ACK is sent. Where the request is done, its answer is read, and the host goes on to the next state,
    /// by the table of [`HostState`]. Each call counts as a try.
    ///
    /// # Errors
    /// [`StackFault::Control`] with [`ControlFault::NoTransfer`] where no transfer runs: nothing changes. Where the request is
    /// done, [`StackFault::BadDescriptor`] where its answer can't be read, and [`StackFault::Memory`] where a layout or a
    /// view finds none: the transfer is over, and the host is in the state in which it was. Then ACK is sent exactly where the
    /// token was IN. Nothing is refused of a `Halt` and a `Clear`.
    pub fn control_take(&mut self, packet: Option<&Packet>) -> Result<(Progress, bool), StackFault>
        ensures { TakesControl (option_copied packet.entry) self.old result self.new }
    {
        if !self.is_busy() {
            return Err(StackFault::Control(ControlFault::NoTransfer));
        }
        match &mut self.transfer {
            Some(transfer) => {
                let acknowledges = transfer.ends.take(packet);
                let progress = conclude_try(
                    self.alloc,
                    self.addr,
                    transfer,
                    &mut self.phase,
                    &mut self.clearing,
                )?;
                Ok((progress, acknowledges))
            }
            None => unreachable!(),
        }
    }

    /// One try of the transfer that runs, with the device's endpoint 0; one packet of it may be lost. Where the request is
    /// done, its answer is read, and the host goes on to the next state, by the table of [`HostState`].
    ///
    /// # Errors
    /// [`StackFault::Control`] with [`ControlFault::NoTransfer`] where none runs: nothing is sent. Where the request is
    /// done, [`StackFault::BadDescriptor`] where its answer can't be read, and [`StackFault::Memory`] where a layout or a
    /// view finds none: the transfer is over, and the host is in the state in which it was.
    pub fn control_step<R: Requests>(
        &mut self,
        control: &mut DevControl<R>,
        fate: Fate,
    ) -> Result<Progress, StackFault>
        ensures { ControlSteps R.prepare_gives R.apply_gives R.answer_of fate
            self.old control.old result self.new control.new }
    {
        let token = self.control_token()?;
        let reply = send_token(&fate, &token, self.control_payload().as_ref(), control);
        let taken = self.control_take(reply.as_ref());
        send_ack(&fate, acknowledges(&taken, &token), control);
        match taken {
            Ok((progress, _)) => Ok(progress),
            Err(fault) => Err(fault),
        }
    }

    /// How far the transfer has come that was begun last, with the bytes of a read that is done.
    ///
    /// # Errors
    /// [`StackFault::Control`] with [`ControlFault::NoTransfer`] where none was begun.
    pub fn outcome(&self) -> Result<Outcome<'_>, StackFault>
        ensures { ShowsLast self.now.transfer result }
    {
        match &self.transfer {
            Some(transfer) => Ok(transfer.ends.outcome()),
            None => Err(StackFault::Control(ControlFault::NoTransfer)),
        }
    }
}

/// Whether ACK is sent after a try, by what was taken: where the answer was refused, if the token was IN.
fn acknowledges(taken: &Result<(Progress, bool), StackFault>, token: &Packet) -> bool
    ensures { result ≡ is_ack_sent taken.now token.now }
{
    match taken {
        Ok((_, is_sent)) => *is_sent,
        Err(_) => matches!(
            token,
            Packet::Token {
                kind: TokenKind::In,
                ..
            }
        ),
    }
}

/// What is reported after a try of a transfer. Where it is done, the host goes on by its answer.
fn conclude_try(
    alloc: Global,
    addr: u8,
    transfer: &Transfer,
    phase: &mut HostPhase,
    clearing: &mut bool,
) -> Result<Progress, StackFault>
    requires addr { addr ≤ MAX_ADDRESS }
    requires endpoint { HasEndpoint phase.old }
    ensures concludes { ConcludesAt transfer.now.ends.stage addr transfer.now.request
        phase.old (read_bytes_of transfer.now.ends) result phase.new }
    ensures clearing { clearing.new
        ≡ clearing_after transfer.now.ends.stage transfer.now.request clearing.old }
    ensures endpoint { HasEndpoint phase.new }
{
    match transfer.ends.outcome() {
        Outcome::Running => Ok(Progress::Running),
        Outcome::Failed(fault) => Ok(Progress::Failed(fault)),
        Outcome::Done(bytes) => {
            *clearing = !is_clear(&transfer.request) && *clearing;
            conclude(alloc, addr, &transfer.request, bytes, phase)?;
            Ok(Progress::Done)
        }
    }
}
