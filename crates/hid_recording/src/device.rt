//! A device of a recording: the receiver of its reports, and what a chunk of a dump makes of one.

ghost use Rattle.std.specs.Prelude.{◌≡◌, ◌≤◌, ◌++◌, ◌&&◌, true, false, Some, Ok, Err, IfOk, IfErr, IfSome, OnOk, is_ok, List, [], length, string_bytes};
ghost use Rattle.std.specs.Option.{IfNone};
ghost use Rattle.hid_report_descriptor.specs.Items.{EncodedItem};
ghost use Rattle.hid_report_descriptor.specs.Real.{Accepts, Explains};
ghost use Rattle.hid_layout.specs.Layout.{Contents, layout_of};
ghost use Rattle.hid_recording.specs.Session.{fresh_device};
ghost use Rattle.hid_report_descriptor.specs.declared.fault.Cause.TheVariants.{Memory};
ghost use Rattle.hid_recording.specs.Pieces.{Flows};
ghost use Rattle.hid_recording.specs.Playing.{PlaysMember};
ghost use Rattle.hid_recording.specs.Taking.{member_events_back};
ghost use Rattle.hid_recording.specs.EventLines.{event_lines};
ghost use Rattle.hid_recording.specs.MemoryUse.{RunsOutIf, is_joined};
ghost use Rattle.hid_recording.specs.Joining.{is_long, has_long, member_after_doubt, Joins, IsRefusedAs};
ghost use Rattle.hid_usages.specs.Reading.{report_named};

use super::event_line::{Source, print_events};
use super::fault::{Cause, Refusal, TextFault};
use super::values::print_asked;
use hid_fields::WordCodec;
use hid_layout::{Layout, LayoutFault, Limits, Report, ReportKind};
use hid_usages::{Event, MAX_PIECE, Receiver, first_view};
use std::alloc::{AllocError, Global};
use std::io::Write;
use std::marker::Model;

/// The receiver of a device's reports, and room for the events of one of them. A contract sees all but the room.
#[derive(Drop)]
pub struct RecordedDevice {
    /// With as much room as came: a descriptor alone takes no memory for reports.
    receiver: Receiver,
    events: Vec<Event>,
    /// Whether a part of a report may be missing in front of the next chunk.
    in_doubt: bool,
}

/// What a chunk of a dump makes of a report.
#[derive(Drop)]
pub enum Joined {
    /// The device has no descriptor.
    Unknown,
    /// A part of the report may be missing.
    Doubtful,
    /// More of the report comes.
    Begun,
    /// The report is whole, with its bytes.
    Whole(Vec<u8>),
}

impl Joined {
    /// The bytes of a report that is whole, none where more of it comes.
    ///
    /// # Errors
    /// R7 if the device has no descriptor, R15 if a part of the report may be missing.
    pub fn into_report(self) -> Result<Option<Vec<u8>>, Refusal>
        ensures whole { IfOk result (λ given. IfSome given (λ bytes. self ≡ Joined.Whole bytes)) }
        ensures begun { IfOk result (λ given. IfNone given (self ≡ Joined.Begun)) }
        ensures refused { IfErr result (λ refusal. IsRefusedAs self refusal) }
    {
        match self {
            Joined::Unknown => Err(Refusal::NoLayout),
            Joined::Doubtful => Err(Refusal::PartMissing),
            Joined::Begun => Ok(None),
            Joined::Whole(bytes) => Ok(Some(bytes)),
        }
    }
}

impl Model for RecordedDevice {
    ghost use Rattle.std.specs.Prelude.{◌≤◌, vec_capacity};
    ghost use Rattle.hid_layout.specs.Controls.{items_of, max_events};
    ghost use Rattle.hid_recording.specs.Session.{PlayedDevice};

    ghost Value = { PlayedDevice };

    ghost view = { λ r. record {
      layout = r.receiver.state.layout;
      states = r.receiver.state.view;
      collected = r.receiver.state.collected;
      in_doubt = r.in_doubt;
    } };

    ghost invariant = { λ r. max_events (items_of r.receiver.state.layout) ≤ vec_capacity r.events };
}

/// The bytes of a report that ends with a chunk.
fn join_bytes(alloc: Global, before: &[u8], chunk: &[u8]) -> Result<Vec<u8>, AllocError>
    ensures { IfOk result (λ bytes. bytes.items ≡ before.now ++ chunk.now) }
{
    let mut bytes = Vec::from_slice(alloc, before)?;
    bytes.extend_from_slice(chunk)?;
    Ok(bytes)
}

impl RecordedDevice {
    /// A device of which no report came yet.
    ///
    /// # Errors
    /// The faults of [`Layout::parse_within`] at [`Limits::Real`], L1 to L16, or L17 if memory runs out.
    pub fn new(alloc: Global, descriptor: &[u8]) -> Result<RecordedDevice, LayoutFault>
        ensures ok { IfOk result (λ recorded. (before : List EncodedItem) × Accepts descriptor.now before
            × (recorded ≡ fresh_device (layout_of before))) }
        ensures err { IfErr result (λ f. Explains descriptor.now f.cause f.at) }
    {
        RecordedDevice::of_layout(alloc, Layout::parse_within(alloc, Limits::Real, descriptor))
    }

    /// A device of this layout, of which no report came yet. It takes what parsing gave, so that its proof
    /// has one early return.
    fn of_layout(
        alloc: Global,
        laid: Result<Layout, LayoutFault>,
    ) -> Result<RecordedDevice, LayoutFault>
        ensures ok { IfOk result
            (λ recorded. (c : Contents) × (laid ≡ Ok c) × (recorded ≡ fresh_device c)) }
        ensures fault { (f : LayoutFault) → laid ≡ Err f → result ≡ Err f }
        ensures memory { (c : Contents) → laid ≡ Ok c → IfErr result (λ f. f ≡ record { cause = Memory; at = 0 }) }
    {
        let layout = match laid {
            Ok(layout) => layout,
            Err(fault) => return Err(fault),
        };
        match first_view(alloc, &layout) {
            Some((view, events)) => Ok(RecordedDevice {
                receiver: Receiver::new(layout, view, Vec::new(alloc)),
                events,
                in_doubt: false,
            }),
            None => {
                drop(layout);
                Err(LayoutFault::memory())
            }
        }
    }

    /// The layout of the device's reports.
    pub fn layout(&self) -> &Layout
        ensures { result.now ≡ self.now.layout }
    {
        self.receiver.layout()
    }

    /// A part of a report may have been left out in front of the next chunk.
    pub fn doubt(&mut self)
        ensures { self.new ≡ member_after_doubt self.old }
    {
        self.receiver.forget();
        self.in_doubt = has_long(self.receiver.layout());
    }

    /// Joins a chunk to what came of its report before, as a host joins packets of 64 bytes.
    ///
    /// # Errors
    /// [`AllocError`] if memory runs out for what came of the report; never where a part of it may be missing.
    pub fn join(&mut self, alloc: Global, chunk: &[u8]) -> Result<Joined, AllocError>
        ensures joined { IfOk result (λ joined. Joins (Some self.old) chunk.now joined (Some self.new)) }
        ensures memory { IfErr result (λ _. is_joined (Some self.old) ≡ true) }
    {
        if self.in_doubt {
            self.in_doubt = chunk.len() >= MAX_PIECE;
            return Ok(Joined::Doubtful);
        }
        if !self.receiver.ends_with(MAX_PIECE, chunk) {
            self.receiver.reserve(chunk.len())?;
            self.receiver.keep(chunk);
            return Ok(Joined::Begun);
        }
        let bytes = join_bytes(alloc, self.receiver.collected(), chunk)?;
        self.receiver.forget();
        Ok(Joined::Whole(bytes))
    }

    /// Plays a report: adds the text of its events, writes what is long, and returns how many events there were. A report that
    /// is refused leaves the view as it was, and nothing is written of it.
    ///
    /// # Errors
    /// U8 or U9 if the bytes are no Input report of the device, which takes no memory; R10 if memory runs out for the text of
    /// the events; R9 if the writer fails.
    pub fn play<W: Write>(
        &mut self,
        text: &mut String,
        writer: &mut W,
        source: &Source<'_>,
        bytes: &[u8],
    ) -> Result<u64, Cause>
        ensures played { PlaysMember source.now.options source.now.time.now source.now.device bytes.now self.old
            (W.contents writer.old) (W.contents writer.new) (string_bytes text.old) result self.new
            (string_bytes text.new) }
        ensures memory { RunsOutIf (is_ok (report_named self.old.layout bytes.now)) result }
    {
        self.events.clear();
        match self
            .receiver
            .take_report::<WordCodec>(bytes, &mut self.events)
        {
            Ok(()) => {}
            Err(fault) => return Err(Cause::Refused(Refusal::Report(fault))),
        }
        let layout = self.receiver.layout();
        let events = self.events.as_slice();
        print_asked(text, writer, layout, source, bytes)?;
        print_events(text, writer, source, layout, events)?;
        Ok(events.len() as u64)
    }

    /// Adds the events that lead back to the initial view, writes what is long, and returns how many events there are. The view
    /// stays.
    ///
    /// # Errors
    /// R10 if memory runs out for the text of the events; R9 if the writer fails.
    pub fn play_back<W: Write>(
        &mut self,
        text: &mut String,
        writer: &mut W,
        source: &Source<'_>,
    ) -> Result<u64, TextFault>
        ensures events { IfOk result (λ events. events ≡ length (member_events_back self.old)) }
        ensures text { Flows (W.contents writer.old) (W.contents writer.new) (string_bytes text.old)
            (event_lines source.now.time.now source.now.device source.now.options self.old.layout
            (member_events_back self.old)) result (string_bytes text.new) }
    {
        self.events.clear();
        let layout = self.receiver.layout();
        self.receiver.view().changes_back(layout, &mut self.events);
        let events = self.events.as_slice();
        print_events(text, writer, source, layout, events)?;
        Ok(events.len() as u64)
    }
}

/// Whether it is an Input report of over 64 bytes with its ID, which spans packets.
fn is_long(report: &Report, numbered: bool) -> bool
    ensures { result ≡ is_long numbered report.now }
{
    match report.kind {
        ReportKind::Input => report.bits > if numbered { 504 } else { 512 },
        ReportKind::Output | ReportKind::Feature => false,
    }
}

/// Whether a device has such a report.
fn has_long(layout: &Layout) -> bool
    ensures { result ≡ has_long layout.now }
{
    let numbered = layout.numbered();
    layout
        .reports()
        .iter()
        .any(|report| is_long(report, numbered))
}
