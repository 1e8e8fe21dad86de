//! The reports of one interface, out of the interrupt transfers in which they come.
ghost use Rattle.std.specs.Prelude.{◌≡◌, ◌<◌, ◌≤◌, ◌+◌, ◌++◌, false, ℕ, length, map, IfOk, vec_len, vec_capacity};
ghost use Rattle.hid_layout.specs.Controls.{items_of, max_events};
ghost use Rattle.hid_layout.specs.Reports.{IsLayout, report_bytes};
ghost use Rattle.hid_report_descriptor.specs.declared.limits.TheConstants.{MAX_REAL_REPORT_BYTES};
ghost use Rattle.hid_snapshots.specs.ControlStates.{FitsView};
ghost use Rattle.hid_usages.specs.Reading.{report_named};
ghost use Rattle.hid_usages.specs.Receiving.{events_of_report, view_after_report, whole_outcome};
ghost use Rattle.std.specs.Bool.{OnTrue};
ghost use Rattle.hid_driver.specs.Pipe.{EndsAtOnce, event_of, events_back, full_size, has_packet_past, pipe_events, pipe_outcome, pipe_after_outcome, is_full, is_long, length_begun, longest_report, pipe_at_start, pipe_of_parts, pipe_of_receiver, pipe_with_flow, receiving_after_transfer, report_end, transfer_events, transfer_outcome, transfer_result, transfer_room, unnumbered_length};

use crate::ask::report_size;
use crate::fault::DriverFault;
use crate::outcome::{DriverEvent, Outcome};
use hid_fields::WordCodec;
use hid_layout::{Layout, MAX_REPORT_BYTES, ReportKind};
use hid_snapshots::Event;
use hid_usages::{Receiver, View, first_view};
use std::alloc::{AllocError, Global};
use std::marker::Model;

/// Whether reports come out of the endpoint of an interface.
#[derive(Clone, Copy, Debug, PartialEq, Eq)]
pub enum Flow {
    /// They do.
    Live,
    /// It is halted until a CLEAR_FEATURE is done (USB 2.0, 9.4.5).
    Halted,
    /// It is halted, and the device refused to clear it.
    Stopped,
}

/// The receiver of an interface's reports, and room for the events of one. A contract sees all but the room.
#[derive(Drop)]
pub struct Pipe {
    flow: Flow,
    /// In bytes, a full packet: wMaxPacketSize (USB 2.0, 9.6.6).
    packet_size: u16,
    /// In bytes, the Input report of a layout without Report IDs, where there is one: it isn't looked up for each transfer.
    fixed_length: Option<u16>,
    /// It has room for the longest report and a packet.
    receiver: Receiver,
    events: Vec<Event>,
}

impl Model for Pipe {
    ghost use Rattle.std.specs.Prelude.{◌≡◌, ◌<◌, ◌≤◌, vec_capacity};
    ghost use Rattle.hid_layout.specs.Controls.{items_of, max_events};
    ghost use Rattle.hid_driver.specs.Pipe.{PipeState, transfer_room, unnumbered_length};

    ghost Value = { PipeState };

    ghost view = { λ p. record {
      flow = p.flow;
      packet_size = p.packet_size;
      receiving = p.receiver.state;
    } };

    ghost invariant = { λ p. (0 < p.packet_size)
        × (transfer_room p.packet_size p.receiver.state.layout ≤ p.receiver.room)
        × (max_events (items_of p.receiver.state.layout) ≤ vec_capacity p.events)
        × (p.fixed_length ≡ unnumbered_length p.receiver.state.layout) };
}

/// In bytes, the longest report of a layout, and at least the longest report of a bus.
pub(crate) fn longest_report(layout: &Layout) -> usize
    ensures longest { result ≡ longest_report layout.now }
    ensures all { (r : ℕ) → r < length layout.now.reports → report_bytes layout.now r ≤ result }
    ensures most { result ≤ MAX_REAL_REPORT_BYTES }
{
    // For the prover: what holds of every layout, as that its reports are short.
    let _ = layout.items();

    let mut longest = MAX_REPORT_BYTES as usize;
    for r in 0..layout.reports().len() {
        longest = longest.max(layout.report_bytes(r));
    }
    longest
}

/// Whether a transfer of n bytes has full packets alone (USB 2.0, 5.7.3).
fn is_full(packet_size: u16, came: usize) -> bool
    requires { 0 < packet_size }
    ensures { result ≡ is_full packet_size came }
{
    came != 0 && came % usize::from(packet_size) == 0
}

/// In bytes, the Input report that begins with these, if there is one.
fn length_begun(layout: &Layout, bytes: &[u8]) -> Option<u16>
    ensures { result ≡ length_begun layout.now bytes.now }
{
    if !layout.numbered() {
        return report_size(layout, ReportKind::Input, 0);
    }
    match bytes.first() {
        Some(id) => report_size(layout, ReportKind::Input, *id),
        None => None,
    }
}

/// In bytes, the Input report of a layout without Report IDs, where there is one (HID 1.11, 5.6).
fn unnumbered_length(layout: &Layout) -> Option<u16>
    ensures { result ≡ unnumbered_length layout.now }
{
    if layout.numbered() {
        return None;
    }
    report_size(layout, ReportKind::Input, 0)
}

/// In bytes, the Input report that begins with what came of it before, and with these, if there is one.
fn length_with(layout: &Layout, collected: &[u8], bytes: &[u8]) -> Option<u16>
    ensures { result ≡ length_begun layout.now (collected.now ++ bytes.now) }
{
    let begin = if collected.is_empty() {
        bytes
    } else {
        collected
    };
    length_begun(layout, begin)
}

/// With what size of a full packet a transfer is received, so that one of full packets alone of an Input report is a full
/// packet, and any other a short one, which ends its report.
fn full_size(packet_size: u16, begun: Option<u16>, bytes: &[u8]) -> usize
    requires { 0 < packet_size }
    ensures { result ≡ full_size packet_size begun (length bytes.now) }
{
    if is_full(packet_size, bytes.len()) && begun.is_some() {
        bytes.len()
    } else {
        bytes.len() + 1
    }
}

/// In bytes, the end of a report, at least 1; where it is no Input report, the longest report of a bus.
fn report_end(begun: Option<u16>) -> u16
    ensures { result ≡ report_end begun }
{
    match begun {
        Some(length) => length.max(1),
        None => MAX_REPORT_BYTES as u16,
    }
}

/// Whether a whole packet or more lies past the end of a report of which n bytes came.
fn has_packet_past(packet_size: u16, begun: Option<u16>, came: usize) -> bool
    ensures { result ≡ has_packet_past packet_size begun came }
{
    usize::from(report_end(begun)) + usize::from(packet_size.max(1)) <= came
}

/// Whether a transfer is too long.
fn is_long(packet_size: u16, begun: Option<u16>, receiver: &Receiver, bytes: &[u8]) -> bool
    requires begun { begun ≡ length_begun receiver.now.state.layout
        (receiver.now.state.collected ++ bytes.now) }
    requires size { 0 < packet_size }
    ensures long { result ≡ is_long (pipe_of_receiver packet_size receiver.now.state) bytes.now }
    ensures room { result ≡ false → length (receiver.now.state.collected ++ bytes.now)
        ≤ transfer_room packet_size receiver.now.state.layout }
{
    has_packet_past(packet_size, begun, receiver.collected().len() + bytes.len())
}

/// Hands events on under the place of their interface, into reserved room.
fn deliver(interface: usize, events: &[Event], out: &mut Vec<DriverEvent>)
    requires { vec_len out.old + length events.now ≤ vec_capacity out.old }
    ensures items { out.new.items ≡ out.old.items ++ map (event_of interface) events.now }
    ensures len { vec_len out.new ≡ vec_len out.old + length events.now }
    ensures capacity { vec_capacity out.new ≡ vec_capacity out.old }
{
    for event in events {
        out.push_reserved(DriverEvent {
            interface,
            event: *event,
        });
    }
}

/// Whether a report ends with its first transfer, whatever it begins with. No report is looked up.
fn ends_at_once(
    packet_size: u16,
    fixed_length: &Option<u16>,
    receiver: &Receiver,
    bytes: &[u8],
) -> bool
    requires { fixed_length.now ≡ unnumbered_length receiver.now.state.layout }
    ensures { OnTrue result
        (EndsAtOnce (pipe_of_receiver packet_size receiver.now.state) bytes.now) }
{
    if !receiver.collected().is_empty() {
        return false;
    }
    if bytes.len() < usize::from(packet_size) {
        return true;
    }
    match fixed_length {
        Some(length) => usize::from(*length) == bytes.len(),
        None => false,
    }
}

/// Reads a transfer that is a report, where it lies.
fn read(receiver: &mut Receiver, bytes: &[u8], out: &mut Vec<Event>) -> Result<(), DriverFault>
    requires room { vec_len out.old + max_events (items_of receiver.old.state.layout)
        ≤ vec_capacity out.old }
    ensures outcome { result
        ≡ transfer_result (whole_outcome (report_named receiver.old.state.layout bytes.now)) }
    ensures layout { receiver.new.state.layout ≡ receiver.old.state.layout }
    ensures view { receiver.new.state.view
        ≡ view_after_report receiver.old.state.layout bytes.now receiver.old.state.view }
    ensures collected { receiver.new.state.collected ≡ receiver.old.state.collected }
    ensures kept { receiver.new.room ≡ receiver.old.room }
    ensures events { out.new.items ≡ out.old.items
        ++ events_of_report receiver.old.state.layout bytes.now receiver.old.state.view }
    ensures few { vec_len out.new ≤ vec_len out.old + max_events (items_of receiver.old.state.layout) }
    ensures room { vec_capacity out.new ≡ vec_capacity out.old }
{
    match receiver.take_report::<WordCodec>(bytes, out) {
        Ok(()) => Ok(()),
        Err(fault) => Err(DriverFault::Report(fault)),
    }
}

/// Receives a transfer of a report that may have several, for which there is room where it isn't too long.
#[inline(never)]
fn join(
    packet_size: u16,
    receiver: &mut Receiver,
    bytes: &[u8],
    out: &mut Vec<Event>,
) -> Result<(), DriverFault>
    requires size { 0 < packet_size }
    requires place { transfer_room packet_size receiver.old.state.layout ≤ receiver.old.room }
    requires room { vec_len out.old + max_events (items_of receiver.old.state.layout)
        ≤ vec_capacity out.old }
    ensures outcome { result
        ≡ transfer_outcome (pipe_of_receiver packet_size receiver.old.state) bytes.now }
    ensures after { receiver.new.state
        ≡ receiving_after_transfer (pipe_of_receiver packet_size receiver.old.state) bytes.now }
    ensures grows { receiver.old.room ≤ receiver.new.room }
    ensures events { out.new.items ≡ out.old.items
        ++ transfer_events (pipe_of_receiver packet_size receiver.old.state) bytes.now }
    ensures few { vec_len out.new ≤ vec_len out.old + max_events (items_of receiver.old.state.layout) }
    ensures room { vec_capacity out.new ≡ vec_capacity out.old }
{
    let begun = length_with(receiver.layout(), receiver.collected(), bytes);
    if is_long(packet_size, begun, receiver, bytes) {
        receiver.forget();
        return Err(DriverFault::LongTransfer);
    }
    match receiver.take::<WordCodec>(full_size(packet_size, begun, bytes), bytes, out) {
        Ok(_) => Ok(()),
        Err(fault) => Err(DriverFault::Report(fault)),
    }
}

/// Receives a transfer, for which there is room where it isn't too long.
#[inline(always)]
fn receive(
    packet_size: u16,
    fixed_length: &Option<u16>,
    receiver: &mut Receiver,
    bytes: &[u8],
    out: &mut Vec<Event>,
) -> Result<(), DriverFault>
    requires size { 0 < packet_size }
    requires length { fixed_length.now ≡ unnumbered_length receiver.old.state.layout }
    requires place { transfer_room packet_size receiver.old.state.layout ≤ receiver.old.room }
    requires room { vec_len out.old + max_events (items_of receiver.old.state.layout)
        ≤ vec_capacity out.old }
    ensures outcome { result
        ≡ transfer_outcome (pipe_of_receiver packet_size receiver.old.state) bytes.now }
    ensures after { receiver.new.state
        ≡ receiving_after_transfer (pipe_of_receiver packet_size receiver.old.state) bytes.now }
    ensures grows { receiver.old.room ≤ receiver.new.room }
    ensures events { out.new.items ≡ out.old.items
        ++ transfer_events (pipe_of_receiver packet_size receiver.old.state) bytes.now }
    ensures few { vec_len out.new ≤ vec_len out.old + max_events (items_of receiver.old.state.layout) }
    ensures room { vec_capacity out.new ≡ vec_capacity out.old }
{
    if ends_at_once(packet_size, fixed_length, receiver, bytes) {
        return read(receiver, bytes, out);
    }
    join(packet_size, receiver, bytes, out)
}

/// Takes what came of an interrupt transfer, by the parts of a pipe. Bytes are taken as [`Receiver::take`] takes a packet: a transfer
/// of full packets alone of an Input report as a full one, any other as a short one. A STALL halts the endpoint, and nothing is kept
/// of a report then; a transfer that failed changes nothing. There is reserved room for `max_events` more; no memory is taken.
///
/// # Errors
/// [`DriverFault::NotRead`] where the endpoint is halted; [`DriverFault::LongTransfer`] where a whole packet or more lies past the
/// end of the report; [`DriverFault::Report`] where the report that ended is none of the layout. The view stays, and nothing is
/// kept of the report.
#[inline(always)]
fn hear(
    flow: &mut Flow,
    packet_size: u16,
    fixed_length: &Option<u16>,
    receiver: &mut Receiver,
    outcome: Outcome<'_>,
    out: &mut Vec<Event>,
) -> Result<(), DriverFault>
    requires size { 0 < packet_size }
    requires length { fixed_length.now ≡ unnumbered_length receiver.old.state.layout }
    requires place { transfer_room packet_size receiver.old.state.layout ≤ receiver.old.room }
    requires room { vec_len out.old + max_events (items_of receiver.old.state.layout)
        ≤ vec_capacity out.old }
    ensures outcome { result
        ≡ pipe_outcome (pipe_of_parts flow.old packet_size receiver.old.state) outcome.entry }
    ensures after { pipe_of_parts flow.new packet_size receiver.new.state
        ≡ pipe_after_outcome (pipe_of_parts flow.old packet_size receiver.old.state) outcome.entry }
    ensures layout { receiver.new.state.layout ≡ receiver.old.state.layout }
    ensures grows { receiver.old.room ≤ receiver.new.room }
    ensures events { out.new.items ≡ out.old.items
        ++ pipe_events (pipe_of_parts flow.old packet_size receiver.old.state) outcome.entry }
    ensures few { vec_len out.new ≤ vec_len out.old + max_events (items_of receiver.old.state.layout) }
    ensures room { vec_capacity out.new ≡ vec_capacity out.old }
{
    match *flow {
        Flow::Live => {}
        Flow::Halted | Flow::Stopped => return Err(DriverFault::NotRead),
    }
    match outcome {
        Outcome::Done(bytes) => receive(packet_size, fixed_length, receiver, bytes, out),
        Outcome::Stalled => {
            *flow = Flow::Halted;
            receiver.forget();
            Ok(())
        }
        Outcome::Failed => Ok(()),
    }
}

impl Pipe {
    /// The pipe of an endpoint of which no report came yet.
    ///
    /// # Errors
    /// [`AllocError`] where there is no memory for the view, the bytes of a report, or the events of one.
    pub(crate) fn new(alloc: Global, packet_size: u16, layout: Layout) -> Result<Pipe, AllocError>
        requires { 0 < packet_size }
        ensures { IfOk result (λ pipe. pipe ≡ pipe_at_start packet_size layout) }
    {
        let room = longest_report(&layout) + usize::from(packet_size);
        let Some((view, events)) = first_view(alloc, &layout) else {
            drop(layout);
            return Err(AllocError);
        };
        let receiver = Receiver::new(layout, view, Vec::new(alloc));
        Pipe::with_room(packet_size, room, receiver, events)
    }

    /// The pipe of an endpoint with this receiver, once it has room for n bytes. It takes what the receiver was made of,
    /// so that its proof has one early return.
    fn with_room(
        packet_size: u16,
        room: usize,
        receiver: Receiver,
        events: Vec<Event>,
    ) -> Result<Pipe, AllocError>
        requires size { 0 < packet_size }
        requires room { room ≡ transfer_room packet_size receiver.state.layout }
        requires events { max_events (items_of receiver.state.layout) ≤ vec_capacity events }
        ensures { IfOk result (λ pipe. pipe ≡ pipe_of_receiver packet_size receiver.state) }
    {
        let mut receiver = receiver;
        let fixed_length = unnumbered_length(receiver.layout());
        match receiver.reserve(room) {
            Ok(()) => Ok(Pipe {
                flow: Flow::Live,
                packet_size,
                fixed_length,
                receiver,
                events,
            }),
            Err(_) => {
                drop(receiver);
                drop(events);
                Err(AllocError)
            }
        }
    }

    /// Whether reports come out of the endpoint.
    pub(crate) fn flow(&self) -> Flow
        ensures { result ≡ self.now.flow }
    {
        self.flow
    }

    /// The layout of the reports.
    pub(crate) fn layout(&self) -> &Layout
        ensures layout { result.now ≡ self.now.receiving.layout }
        ensures laid { IsLayout self.now.receiving.layout }
    {
        self.receiver.layout()
    }

    /// The view of the controls.
    pub(crate) fn view(&self) -> &View
        ensures view { result.now ≡ self.now.receiving.view }
        ensures fits { FitsView (items_of self.now.receiving.layout) self.now.receiving.view }
    {
        self.receiver.view()
    }

    /// How many events a report gives at most.
    pub(crate) fn max_events(&self) -> usize
        ensures { result ≡ max_events (items_of self.now.receiving.layout) }
    {
        self.receiver.max_events()
    }

    /// The endpoint is halted, or not. What came of a report before is forgotten.
    pub(crate) fn turn(&mut self, flow: Flow)
        ensures { self.new ≡ pipe_with_flow flow self.old }
    {
        self.flow = flow;
        self.receiver.forget();
    }

    /// Takes what came of an interrupt transfer, and appends its events. There is reserved room for `max_events` more; no memory is
    /// taken.
    ///
    /// # Errors
    /// Those of [`hear`].
    pub(crate) fn hear(
        &mut self,
        outcome: Outcome<'_>,
        out: &mut Vec<Event>,
    ) -> Result<(), DriverFault>
        requires room { vec_len out.old + max_events (items_of self.old.receiving.layout)
            ≤ vec_capacity out.old }
        ensures outcome { result ≡ pipe_outcome self.old outcome.entry }
        ensures after { self.new ≡ pipe_after_outcome self.old outcome.entry }
        ensures events { out.new.items ≡ out.old.items ++ pipe_events self.old outcome.entry }
        ensures few { vec_len out.new
            ≤ vec_len out.old + max_events (items_of self.old.receiving.layout) }
        ensures room { vec_capacity out.new ≡ vec_capacity out.old }
    {
        hear(
            &mut self.flow,
            self.packet_size,
            &self.fixed_length,
            &mut self.receiver,
            outcome,
            out,
        )
    }

    /// Takes what came of an interrupt transfer, and appends its events with the place of the interface. There is reserved room
    /// for `max_events` more; no memory is taken.
    ///
    /// # Errors
    /// Those of [`hear`].
    pub(crate) fn report(
        &mut self,
        interface: usize,
        outcome: Outcome<'_>,
        out: &mut Vec<DriverEvent>,
    ) -> Result<(), DriverFault>
        requires room { vec_len out.old + max_events (items_of self.old.receiving.layout)
            ≤ vec_capacity out.old }
        ensures outcome { result ≡ pipe_outcome self.old outcome.entry }
        ensures after { self.new ≡ pipe_after_outcome self.old outcome.entry }
        ensures events { out.new.items
            ≡ out.old.items ++ map (event_of interface) (pipe_events self.old outcome.entry) }
        ensures few { vec_len out.new
            ≤ vec_len out.old + max_events (items_of self.old.receiving.layout) }
        ensures room { vec_capacity out.new ≡ vec_capacity out.old }
    {
        self.events.clear();
        let told = hear(
            &mut self.flow,
            self.packet_size,
            &self.fixed_length,
            &mut self.receiver,
            outcome,
            &mut self.events,
        );
        deliver(interface, &self.events, out);
        told
    }

    /// Appends the events that lead back to the initial view. There is reserved room for `max_events` more; no memory is
    /// taken.
    pub(crate) fn release(&mut self, interface: usize, out: &mut Vec<DriverEvent>)
        requires room { vec_len out.old + max_events (items_of self.old.receiving.layout)
            ≤ vec_capacity out.old }
        ensures stays { self.new ≡ self.old }
        ensures events { out.new.items ≡ out.old.items ++ map (event_of interface) (events_back self.old) }
        ensures few { vec_len out.new
            ≤ vec_len out.old + max_events (items_of self.old.receiving.layout) }
        ensures room { vec_capacity out.new ≡ vec_capacity out.old }
    {
        self.events.clear();
        let layout = self.receiver.layout();
        self.receiver.view().changes_back(layout, &mut self.events);
        deliver(interface, &self.events, out);
    }
}
