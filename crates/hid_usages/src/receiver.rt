//! The Input reports of one device, out of the packets in which they come.

ghost use Rattle.std.specs.Prelude.{◌≡◌, ◌<◌, ◌≤◌, ◌+◌, ◌++◌, false, [], length, vec_len, vec_capacity, OnOk, OnErr};
ghost use Rattle.hid_report_descriptor.specs.declared.limits.TheConstants.{MAX_REPORT_BYTES};
ghost use Rattle.hid_layout.specs.Controls.{items_of, max_events};
ghost use Rattle.hid_layout.specs.Reports.{IsLayout, IsOfBus};
ghost use Rattle.hid_snapshots.specs.ControlStates.{FitsView};
ghost use Rattle.hid_usages.specs.PlannedReports.{IsPlannedView};
ghost use Rattle.hid_usages.specs.Reading.{report_named};
ghost use Rattle.hid_usages.specs.Receiving.{after_packet, bytes_with, ends_with, events_of_report, events_with, is_whole, packet_outcome, view_after_report, whole_outcome, without_collected};
ghost use Rattle.hid_usages.specs.Taking.{TakesReport};

use crate::reader::Reader;
use crate::report_lookup::bytes_awaited;
use crate::report_plans::PlannedView;
use crate::view::View;
use hid_fields::FieldCodec;
use hid_layout::Layout;
use hid_snapshots::{Event, ReportFault};
use std::alloc::AllocError;
use std::marker::Model;

/// What a packet gives that isn't refused.
#[derive(Clone, Copy, Debug, PartialEq, Eq)]
pub enum Arrived {
    /// A part of a report that isn't whole yet.
    Part,
    /// The last of a report, which was read.
    Whole,
}

/// A [`Reader`], and what came of a report that isn't whole yet, in a room that its owner makes. A contract sees `state`, of
/// layout, view and collected bytes, and `room`, how many bytes of a report there is room for.
#[derive(Drop)]
pub struct Receiver {
    reader: Reader,
    collected: Vec<u8>,
}

impl Model for Receiver {
    ghost use Rattle.std.specs.Prelude.{vec_capacity};
    ghost use Rattle.hid_usages.specs.Receiving.{RoomyReceiver};

    ghost Value = { RoomyReceiver };

    ghost view = { λ r. record {
      state = record {
        layout = r.reader.layout;
        view = r.reader.view;
        collected = r.collected.items;
      };
      room = vec_capacity r.collected;
    } };
}

/// Whether a report ends with this packet, after the bytes that came of it before: it has its last byte, or the packet isn't
/// full (USB 2.0, 5.7.3). A full packet has `packet_size` bytes: wMaxPacketSize of the endpoint (9.6.6). For reports of any
/// length.
pub fn is_whole(packet_size: usize, layout: &Layout, collected: &[u8], packet: &[u8]) -> bool
    ensures whole { result
        ≡ is_whole packet_size layout.now (collected.now ++ packet.now) (length packet.now) }
    ensures goes_on { result ≡ false → IsOfBus layout.now
        → length (collected.now ++ packet.now) < MAX_REPORT_BYTES }
{
    if packet.len() < packet_size {
        return true;
    }
    let begin = if collected.is_empty() {
        packet
    } else {
        collected
    };
    bytes_awaited(layout, begin) <= collected.len() + packet.len()
}

/// Reads a report that has ended. One that is refused leaves the view.
fn read_report<C: FieldCodec>(
    reader: &mut Reader,
    bytes: &[u8],
    out: &mut Vec<Event>,
) -> Result<Arrived, ReportFault>
    requires room { vec_len out.old + max_events (items_of reader.old.layout) ≤ vec_capacity out.old }
    ensures outcome { result ≡ whole_outcome (report_named reader.old.layout bytes.now) }
    ensures layout { reader.new.layout ≡ reader.old.layout }
    ensures view { reader.new.view ≡ view_after_report reader.old.layout bytes.now reader.old.view }
    ensures events { out.new.items
        ≡ out.old.items ++ events_of_report reader.old.layout bytes.now reader.old.view }
    ensures few { length out.new.items
        ≤ length out.old.items + max_events (items_of reader.old.layout) }
    ensures room { vec_capacity out.new ≡ vec_capacity out.old }
{
    match reader.take_report::<C>(bytes, out) {
        Ok(()) => Ok(Arrived::Whole),
        Err(fault) => Err(fault),
    }
}

impl Receiver {
    /// A receiver of reports of this layout, of which nothing came yet, with a view and plans that suit the layout. `room` is
    /// empty, and has room for what is to be kept of a report.
    pub fn new(layout: Layout, view: PlannedView, room: Vec<u8>) -> Receiver
        requires planned { IsPlannedView layout view }
        requires empty { room.items ≡ [] }
        ensures state { result.state ≡ record { layout = layout; view = view.view; collected = [] } }
        ensures room { result.room ≡ vec_capacity room }
    {
        Receiver {
            reader: Reader::new(layout, view),
            collected: room,
        }
    }

    /// The layout of the reports.
    pub fn layout(&self) -> &Layout
        ensures layout { result.now ≡ self.now.state.layout }
        ensures laid { IsLayout self.now.state.layout }
    {
        self.reader.layout()
    }

    /// The view of the controls.
    pub fn view(&self) -> &View
        ensures view { result.now ≡ self.now.state.view }
        ensures fits { FitsView (items_of self.now.state.layout) self.now.state.view }
    {
        self.reader.view()
    }

    /// How many events a report gives at most, as [`Layout::max_events`] counts them.
    pub fn max_events(&self) -> usize
        ensures { result ≡ max_events (items_of self.now.state.layout) }
    {
        self.reader.max_events()
    }

    /// What came of a report that isn't whole yet.
    pub fn collected(&self) -> &[u8]
        ensures { result.now ≡ self.now.state.collected }
    {
        self.collected.as_slice()
    }

    /// Makes room for so many bytes more of a report.
    ///
    /// # Errors
    /// Out of memory: nothing changes.
    pub fn reserve(&mut self, count: usize) -> Result<(), AllocError>
        ensures room { OnOk result (length self.old.state.collected + count ≤ self.new.room) }
        ensures state { self.new.state ≡ self.old.state }
        ensures grows { self.old.room ≤ self.new.room }
        ensures err { OnErr result (self.new ≡ self.old) }
    {
        self.collected.reserve(count)
    }

    /// What came of a report that isn't whole yet is forgotten.
    pub fn forget(&mut self)
        ensures state { self.new.state ≡ without_collected self.old.state }
        ensures room { self.new.room ≡ self.old.room }
    {
        self.collected.clear();
    }

    /// Whether a report ends with this packet: it has its last byte, or the packet isn't full (USB 2.0, 5.7.3). A full packet
    /// has `packet_size` bytes: wMaxPacketSize of the endpoint (9.6.6).
    pub fn ends_with(&self, packet_size: usize, packet: &[u8]) -> bool
        ensures ends { result ≡ ends_with packet_size self.now.state packet.now }
        ensures goes_on { result ≡ false → IsOfBus self.now.state.layout
            → length (bytes_with self.now.state packet.now) < MAX_REPORT_BYTES }
    {
        is_whole(
            packet_size,
            self.reader.layout(),
            self.collected.as_slice(),
            packet,
        )
    }

    /// Keeps a packet with which its report doesn't end. No memory is taken.
    pub fn keep(&mut self, packet: &[u8])
        requires room { length (bytes_with self.old.state packet.now) ≤ self.old.room }
        ensures state { self.new.state
            ≡ record self.old.state { collected = bytes_with self.old.state packet.now } }
        ensures grows { self.old.room ≤ self.new.room }
    {
        self.collected.extend_from_slice(packet).unwrap();
    }

    /// Takes a packet: joins it to what came of its report before, and reads the report where it ends with it, as
    /// [`View::take_report`](crate::View::take_report) does. A report in one packet is read where it lies. A full packet has
    /// `packet_size` bytes: wMaxPacketSize of the endpoint (USB 2.0, 9.6.6). The caller has reserved room for `max_events`
    /// more, and for the packet ([`reserve`](Receiver::reserve)); no memory is taken.
    ///
    /// # Errors
    /// Those of [`View::take_report`](crate::View::take_report), of a report that ended: the view stays, and nothing is
    /// kept of the report.
    pub fn take<C: FieldCodec>(
        &mut self,
        packet_size: usize,
        packet: &[u8],
        out: &mut Vec<Event>,
    ) -> Result<Arrived, ReportFault>
        requires place { length (bytes_with self.old.state packet.now) ≤ self.old.room }
        requires room { vec_len out.old + max_events (items_of self.old.state.layout)
            ≤ vec_capacity out.old }
        // What the packet gives, what is known after it, and the events.
        ensures given { result ≡ packet_outcome packet_size self.old.state packet.now }
        ensures after { self.new.state ≡ after_packet packet_size self.old.state packet.now }
        ensures events { out.new.items
            ≡ out.old.items ++ events_with packet_size self.old.state packet.now }
        // At most `max_events` events, in the room that was there.
        ensures few { length out.new.items
            ≤ length out.old.items + max_events (items_of self.old.state.layout) }
        ensures room { vec_capacity out.new ≡ vec_capacity out.old }
        // Within the limits of a bus fewer bytes are kept than a report has.
        ensures short { IsOfBus self.old.state.layout
            → length self.new.state.collected < MAX_REPORT_BYTES }
        ensures grows { self.old.room ≤ self.new.room }
    {
        if !self.ends_with(packet_size, packet) {
            self.keep(packet);
            return Ok(Arrived::Part);
        }
        if self.collected.is_empty() {
            return read_report::<C>(&mut self.reader, packet, out);
        }
        self.collected.extend_from_slice(packet).unwrap();
        let read = read_report::<C>(&mut self.reader, self.collected.as_slice(), out);
        self.collected.clear();
        read
    }

    /// Takes the bytes of a report that came whole, as [`Reader::take_report`] does. What came of another stays.
    ///
    /// # Errors
    /// Those of [`Reader::take_report`], which leave the view as it was.
    pub fn take_report<C: FieldCodec>(
        &mut self,
        bytes: &[u8],
        out: &mut Vec<Event>,
    ) -> Result<(), ReportFault>
        requires room { vec_len out.old + max_events (items_of self.old.state.layout)
            ≤ vec_capacity out.old }
        ensures taken { TakesReport self.old.state.layout bytes.now self.old.state.view out.old.items
            result self.new.state.view out.new.items }
        ensures layout { self.new.state.layout ≡ self.old.state.layout }
        ensures collected { self.new.state.collected ≡ self.old.state.collected }
        ensures few { vec_len out.new ≤ vec_len out.old + max_events (items_of self.old.state.layout) }
        ensures room { vec_capacity out.new ≡ vec_capacity out.old }
        ensures kept { self.new.room ≡ self.old.room }
    {
        self.reader.take_report::<C>(bytes, out)
    }
}
