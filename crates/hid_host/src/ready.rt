//! What a ready host keeps: the pipe that it polls, and the receiver of what comes there.
ghost use Rattle.std.specs.Prelude.{◌≡◌, ◌≤◌, ◌+◌, ◌++◌, [], not, length, unwrap_or, vec_len, vec_capacity, IfSome};
ghost use Rattle.std.specs.Option.{option_map};
ghost use Rattle.hid_layout.specs.Controls.{items_of, max_events};
ghost use Rattle.hid_snapshots.specs.ControlStates.{FitsShown, blank};
ghost use Rattle.hid_snapshots.specs.Parts.{IsInput};
ghost use Rattle.hid_snapshots.specs.Views.{drops_between};
ghost use Rattle.usb_packet.specs.PacketRef.{to_owned, PayloadFits};
ghost use Rattle.usb_packet.specs.PacketEncoding.{Fits};
ghost use Rattle.usb_transact.specs.Replies.{reply_outcome};
ghost use Rattle.usb_transact.specs.Host.{token_to};
ghost use Rattle.hid_snapshots.specs.Pieces.{is_last_piece};
ghost use Rattle.hid_host.specs.Ready.{HasRoom, events_after, outcome_of, ready_host_after, ready_host_after_clear, ready_host_at_start};
ghost use Rattle.hid_host.specs.ResetEvents.{SuitsRound, awaited_report, known_abort_events, known_release_events};

use crate::fault::StackFault;
use hid_fields::WordCodec;
use hid_snapshots::{Event, Shown, pieces_of};
use hid_usages::{MAX_PIECE, Receiver, View, changes_and_drops};
use std::marker::Model;
use usb_packet::{MAX_ADDRESS, MAX_ENDPOINT, Packet, PacketRef};
use usb_transact::{HostPipe, Took};

/// Room for what comes of the longest report of a bus, and a packet.
pub(crate) const ROOM: usize = 320;

/// What a ready host keeps. A contract sees it as `layout`, `pipe`, `view` and `collected`.
#[derive(Drop)]
pub struct ReadyHost {
    receiver: Receiver,
    pipe: HostPipe,
}

impl Model for ReadyHost {
    ghost use Rattle.hid_host.specs.Ready.{HasRoom, ReadyHostState};

    ghost Value = { ReadyHostState };

    ghost view = { λ h. record {
      layout = h.receiver.state.layout;
      pipe = h.pipe;
      view = h.receiver.state.view;
      collected = h.receiver.state.collected;
    } };

    ghost invariant = { λ h. HasRoom h.receiver };
}

impl ReadyHost {
    /// A host that polls this endpoint from the initial view on.
    pub(crate) fn new(addr: u8, endpoint: u8, receiver: Receiver) -> ReadyHost
        requires addr { addr ≤ MAX_ADDRESS }
        requires endpoint { endpoint ≤ MAX_ENDPOINT }
        requires view { receiver.state.view ≡ blank (items_of receiver.state.layout) }
        requires none { receiver.state.collected ≡ [] }
        requires room { HasRoom receiver }
        ensures { result ≡ ready_host_at_start addr endpoint receiver.state.layout }
    {
        ReadyHost {
            receiver,
            pipe: HostPipe::new(addr, endpoint),
        }
    }

    /// The IN token of a poll.
    pub(crate) fn token(&self) -> Packet
        ensures token { result ≡ token_to self.now.pipe }
        ensures fits { Fits result }
    {
        self.pipe.token()
    }

    /// The endpoint that is polled.
    pub(crate) fn endpoint(&self) -> u8
        ensures { result ≡ self.now.pipe.endp }
    {
        match self.pipe.token() {
            Packet::Token { endp, .. } => endp,
            _ => unreachable!(),
        }
    }

    /// A halt of the endpoint was ended: DATA0 is expected (USB 2.0, 9.4.5), and what came of a report before is forgotten.
    pub(crate) fn restart(&mut self)
        ensures { self.new ≡ ready_host_after_clear self.old }
    {
        self.pipe.restart();
        self.receiver.forget(); // its device sends that report no further
    }

    /// How many events a reply gives at most.
    pub(crate) fn max_events(&self) -> usize
        ensures { result ≡ max_events (items_of self.now.layout) }
    {
        self.receiver.max_events()
    }

    /// The pipe that is polled.
    pub(crate) fn pipe(&self) -> &HostPipe
        ensures { result.now ≡ self.now.pipe }
    {
        &self.pipe
    }

    /// The view of the controls.
    pub(crate) fn view(&self) -> &View
        ensures { result.now ≡ self.now.view }
    {
        self.receiver.view()
    }

    /// Takes what came after a token, if something did. There is reserved room for `max_events` more.
    pub(crate) fn reply(
        &mut self,
        packet: Option<PacketRef>,
        out: &mut Vec<Event>,
    ) -> Result<Took, StackFault>
        requires short { IfSome packet PayloadFits }
        requires room { vec_len out.old + max_events (items_of self.old.layout)
            ≤ vec_capacity out.old }
        ensures outcome { result
            ≡ outcome_of self.old
            (reply_outcome self.old.pipe.expects (option_map to_owned packet.entry)) }
        ensures after { self.new
            ≡ ready_host_after self.old
            (reply_outcome self.old.pipe.expects (option_map to_owned packet.entry)) }
        ensures events { out.new.items
            ≡ out.old.items
            ++ events_after self.old
            (reply_outcome self.old.pipe.expects (option_map to_owned packet.entry)) }
        ensures few { length out.new.items
            ≤ length out.old.items + max_events (items_of self.old.layout) }
        ensures room { vec_capacity out.new ≡ vec_capacity out.old }
    {
        let took = self.pipe.take_ref(packet);
        if let Took::Fresh(payload) = &took {
            match self
                .receiver
                .take::<WordCodec>(MAX_PIECE, payload.as_slice(), out)
            {
                Ok(_) => {}
                Err(fault) => return Err(StackFault::Report(fault)),
            }
        }
        Ok(took)
    }

    /// Whether a piece of a report is followed by another.
    fn is_followed(&self, report: usize, piece: Option<usize>) -> bool
        requires { IsInput self.now.layout report }
        ensures { result ≡ not (is_last_piece (items_of self.now.layout) report (unwrap_or piece 0)) }
    {
        piece.unwrap_or(0) < pieces_of(self.receiver.layout(), report) - 1
    }

    /// The report of the round that is open at the device, where its data haven't all come: those of this piece go out under
    /// the toggle that is expected, or others are after them.
    pub(crate) fn awaited_report(
        &self,
        round: Option<(usize, bool)>,
        piece: Option<usize>,
    ) -> Option<usize>
        requires { IfSome round (λ it. IsInput self.now.layout it.0) }
        ensures { result
            ≡ awaited_report (items_of self.now.layout) self.now.pipe.expects round piece }
    {
        match round {
            Some((report, one)) => {
                if one == self.pipe.expects() || self.is_followed(report, piece) {
                    Some(report)
                } else {
                    None
                }
            }
            None => None,
        }
    }

    /// Appends the events that lead back to the initial view. The motion of the device's open round is appended as dropped if
    /// its data haven't all come. There is reserved room for `max_events` more.
    pub(crate) fn release_all(
        &self,
        round: Option<(usize, bool)>,
        piece: Option<usize>,
        fixed: &Shown,
        out: &mut Vec<Event>,
    )
        requires suits { SuitsRound self.now.layout round fixed.now }
        requires room { vec_len out.old + max_events (items_of self.now.layout)
            ≤ vec_capacity out.old }
        ensures events { out.new.items
            ≡ out.old.items ++ known_release_events self.now round piece fixed.now }
        ensures few { length out.new.items
            ≤ length out.old.items + max_events (items_of self.now.layout) }
        ensures room { vec_capacity out.new ≡ vec_capacity out.old }
    {
        let (layout, view) = (self.receiver.layout(), self.receiver.view());
        match self.awaited_report(round, piece) {
            Some(report) => view.changes_back_and_drops(layout, report, fixed, out),
            None => view.changes_back(layout, out),
        }
    }

    /// Drops the motion of the round that was open at the device, where its data haven't all come: a halt, or its end, cuts it.
    /// There is reserved room for `max_events` more.
    pub(crate) fn drop_aborted_motion(
        &self,
        round: Option<(usize, bool)>,
        piece: Option<usize>,
        fixed: &Shown,
        out: &mut Vec<Event>,
    )
        requires suits { SuitsRound self.now.layout round fixed.now }
        requires room { vec_len out.old + max_events (items_of self.now.layout)
            ≤ vec_capacity out.old }
        ensures events { out.new.items ≡ out.old.items
            ++ known_abort_events self.now round piece fixed.now }
        ensures few { length out.new.items
            ≤ length out.old.items + max_events (items_of self.now.layout) }
        ensures room { vec_capacity out.new ≡ vec_capacity out.old }
    {
        if let Some(report) = self.awaited_report(round, piece) {
            self.report_drops(report, fixed, out);
        }
    }

    /// Drops the motion of a report's part: the view stays. There is reserved room for `max_events` more.
    pub(crate) fn report_drops(&self, report: usize, fixed: &Shown, out: &mut Vec<Event>)
        requires input { IsInput self.now.layout report }
        requires fits { FitsShown (items_of self.now.layout) fixed.now }
        requires room { vec_len out.old + max_events (items_of self.now.layout)
            ≤ vec_capacity out.old }
        ensures events { out.new.items ≡ out.old.items
            ++ drops_between (items_of self.now.layout) report self.now.view self.now.view fixed.now }
        ensures few { length out.new.items
            ≤ length out.old.items + max_events (items_of self.now.layout) }
        ensures room { vec_capacity out.new ≡ vec_capacity out.old }
    {
        let view = self.receiver.view();
        changes_and_drops(self.receiver.layout(), view, view, report, fixed, out);
    }
}
