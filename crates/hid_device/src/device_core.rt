//! The core of a device: all that endpoint 0 reads and writes, and the pipe of its Input reports.

ghost use Rattle.std.specs.Prelude.{◌≡◌, ◌<◌, ◌≤◌, false, length, slice_get, None, IfSome, IfOk, IfErr};
ghost use Rattle.std.specs.Option.{option_copied};
ghost use Rattle.hid_layout.specs.Controls.{items_of};
ghost use Rattle.hid_snapshots.specs.ExactCapacity.{IsFull};
ghost use Rattle.hid_snapshots.specs.ControlStates.{FitsSnapshot};
ghost use Rattle.hid_snapshots.specs.Parts.{is_changed};
ghost use Rattle.hid_snapshots.specs.Snapshots.{Changes};
ghost use Rattle.usb_packet.specs.PacketRef.{to_owned, PayloadFits};
ghost use Rattle.usb_packet.specs.PacketEncoding.{Fits};
ghost use Rattle.hid_bus.specs.ReportState.{with_abort, is_due, due_where};
ghost use Rattle.hid_device.specs.Core.{IsSound, armed_bytes, core_with_round, core_at_poll, core_after_ack, configured_core, halted_core, cleared_core, piece_at, poll_response, reset_core, changed_core, framed_core, next_piece_of, round_of};
ghost use Rattle.hid_device.specs.declared.decisions.PendingWrite.TheVariants.{Keep, Nothing};
ghost use Rattle.hid_device.specs.RequestDecisions.{Reads, Refuses, Writes, reads_if, writes_if};
ghost use Rattle.hid_device.specs.RequestTable.{Decides, core_after_write, idle_time_of, output_of, reads_optional, report_now, row_decision, sets_idle, sets_report, still_bytes};
ghost use Rattle.hid_device.specs.Outputs.{kept_place};
ghost use Rattle.hid_device.specs.Creation.{no_memory, new_core, CanServe, RefusesDescriptor, MakesCore};

use crate::config::Config;
use crate::decisions::{Answer, PendingWrite};
use crate::frames::{count_frame, is_idle_over, set_idle};
use crate::outputs::{KeptReport, input_with, kept_place, reset_outputs};
use crate::storage::Room;
use arrayvec::ArrayVec;
use hid_fields::WordCodec;
use hid_layout::{Layout, ReportKind};
use hid_requests::{
    DeviceCause, DeviceFault, Protocol, RequestKind, configuration, device_descriptor,
    hid_descriptor, request_kind,
};
use hid_snapshots::{
    Change, ChangeFault, Shown, Snapshot, has_empty_codes, has_zeros, piece_of, pieces_of,
    write_report,
};
use std::alloc::Global;
use std::marker::Model;
use usb_control::{Requests, Setup};
use usb_packet::PacketRef;
use usb_transact::DevPipe;

/// The core of a device, which answers the requests of its endpoint 0. A contract sees it as a `CoreState`.
#[derive(Drop)]
pub struct Core {
    layout: Layout,
    config: Config,
    /// The bytes of the report descriptor.
    descriptor: Vec<u8>,
    /// Whether SET_CONFIGURATION took effect.
    is_configured: bool,
    snapshot: Snapshot,
    /// The parts that were fixed last, blank where none was since the configuration.
    fixed: Shown,
    /// For each Input report, the frames since its last round opened, or since the configuration, up to 1,020.
    frames: Vec<u16>,
    /// For each Input report, its idle time in units of four frames; 0 is none.
    idle: Vec<u8>,
    /// For each Input report, whether a halt or a clear aborted its last round, and none was opened since.
    aborted: Vec<bool>,
    pipe: DevPipe,
    /// The report of the open round.
    current: Option<usize>,
    /// The bytes of the open round, which go out in pieces.
    round: ArrayVec<u8, 256>,
    /// Which of them is armed, from 0; 0 where no round is open.
    piece: usize,
    /// Whether it was seen that no report's controls call for it, and nothing was changed, fixed or configured since.
    nothing_due: bool,
    /// In which form a boot device sends its reports.
    protocol: Protocol,
    /// The Output and Feature reports, in the order of the layout, as they were set last.
    outputs: Vec<KeptReport>,
    /// Room for the still part of a report that is asked for.
    still: Shown,
    /// The answer to the last request, where it was a read that was accepted.
    answer: Option<Answer>,
    /// Its bytes, where they aren't those of the report descriptor.
    written: ArrayVec<u8, 256>,
    /// What its status brings about.
    pending: PendingWrite,
    // Each list has room for its items alone.
    ghost full: { (IsFull descriptor) × (IsFull frames) × (IsFull idle) × (IsFull aborted) × IsFull outputs },
}

impl Model for Core {
    ghost use Rattle.std.specs.Prelude.{option_map};
    ghost use Rattle.hid_device.specs.Core.{CoreState, IsCore};
    ghost use Rattle.hid_device.specs.RequestDecisions.{answer_bytes};

    ghost Value = { CoreState };

    ghost view = { λ c. record {
      layout = c.layout;
      config = c.config;
      descriptor = c.descriptor.items;
      is_configured = c.is_configured;
      reports = record {
        snapshot = c.snapshot;
        fixed = c.fixed;
        frames = c.frames.items;
        idle = c.idle.items;
        aborted = c.aborted.items;
      };
      current = c.current;
      piece = c.piece;
      toggle = c.pipe.toggle;
      halted = c.pipe.halted;
      protocol = c.protocol;
      outputs = c.outputs.items;
      answer = option_map (answer_bytes c.descriptor.items c.written.items) c.answer;
      pending = c.pending;
    } };

    // What is armed is a piece of the part that was fixed, exactly while a round is open; there is room for a still part.
    ghost invariant = { λ c. IsCore (view c) c.nothing_due c.pipe.armed c.round.items c.still };
}

/// The layout of a descriptor, of which a device can send every report.
fn served_layout(alloc: Global, descriptor: &[u8]) -> Result<Layout, DeviceFault>
    ensures served { IfOk result (λ layout. CanServe descriptor.now layout) }
    ensures refused { IfErr result
        (λ fault. RefusesDescriptor descriptor.now fault.cause fault.at) }
{
    let layout = match Layout::parse(alloc, descriptor) {
        Ok(layout) => layout,
        Err(fault) => return Err(DeviceFault::from(fault)),
    };
    if !has_empty_codes(&layout) {
        drop(layout);
        return Err(DeviceFault {
            cause: DeviceCause::NoEmptyCode,
            at: 0,
        });
    }
    if !has_zeros(&layout) {
        drop(layout);
        return Err(DeviceFault {
            cause: DeviceCause::RelativeWithoutZero,
            at: 0,
        });
    }
    Ok(layout)
}

impl Core {
    /// The core of a device with this layout that isn't configured yet. All room is made here.
    #[tactic(auto, using(crate::proofs::InputLemmas::inputs_first))]
    fn with_layout(
        alloc: Global,
        layout: Layout,
        config: &Config,
        descriptor: &[u8],
    ) -> Result<Core, DeviceFault>
        requires { CanServe descriptor.now layout }
        ensures made { IfOk result (λ core. core ≡ new_core config.now descriptor.now layout) }
        ensures memory { IfErr result (λ fault. fault ≡ no_memory) }
    {
        let Room {
            descriptor,
            controls,
            counts,
            outputs,
        } = match Room::of(alloc, &layout, descriptor) {
            Ok(room) => room,
            Err(fault) => {
                drop(layout);
                return Err(fault);
            }
        };
        Ok(Core {
            layout,
            config: *config,
            descriptor,
            is_configured: false,
            snapshot: controls.snapshot,
            fixed: controls.fixed,
            frames: counts.frames,
            idle: counts.idle,
            aborted: counts.aborted,
            pipe: DevPipe::new(),
            current: None,
            round: ArrayVec::new(),
            piece: 0,
            nothing_due: false,
            protocol: Protocol::Report,
            outputs,
            still: controls.still,
            answer: None,
            written: ArrayVec::new(),
            pending: PendingWrite::Nothing,
        })
    }

    /// The core of a device that isn't configured yet.
    pub(crate) fn new(
        alloc: Global,
        config: &Config,
        descriptor: &[u8],
    ) -> Result<Core, DeviceFault>
        ensures { MakesCore config.now descriptor.now result }
    {
        match served_layout(alloc, descriptor) {
            Ok(layout) => Core::with_layout(alloc, layout, config, descriptor),
            Err(fault) => Err(fault),
        }
    }

    /// The layout of the reports.
    pub(crate) fn layout(&self) -> &Layout
        ensures layout { result.now ≡ self.now.layout }
        ensures sound { IsSound self.now }
    {
        &self.layout
    }

    /// The parts that were fixed when their rounds opened.
    pub(crate) fn fixed(&self) -> &Shown
        ensures { result.now ≡ self.now.reports.fixed }
    {
        &self.fixed
    }

    /// The pipe of the interrupt endpoint.
    pub(crate) fn pipe(&self) -> &DevPipe
        ensures toggle { result.now.toggle ≡ self.now.toggle }
        ensures halted { result.now.halted ≡ self.now.halted }
        ensures armed { result.now.armed ≡ armed_bytes self.now }
    {
        &self.pipe
    }

    /// Whether SET_CONFIGURATION took effect.
    pub(crate) fn is_configured(&self) -> bool
        ensures { result ≡ self.now.is_configured }
    {
        self.is_configured
    }

    /// The report of the open round, and whether its data go out as DATA1.
    pub(crate) fn open_round(&self) -> Option<(usize, bool)>
        ensures { result ≡ round_of self.now }
    {
        match self.current {
            Some(report) => Some((report, self.pipe.toggle())),
            None => None,
        }
    }

    /// Which piece of the open round goes out, from 0.
    pub(crate) fn piece(&self) -> Option<usize>
        ensures { result ≡ piece_at self.now }
    {
        match self.current {
            Some(_) => Some(self.piece),
            None => None,
        }
    }

    /// Changes a control.
    pub(crate) fn change(&mut self, change: Change) -> Result<(), ChangeFault>
        ensures changes { Changes
            (items_of self.old.layout) self.old.reports.snapshot change result
            self.new.reports.snapshot }
        ensures core { self.new ≡ changed_core self.old change }
        ensures sound { IsSound self.new }
    {
        self.nothing_due = false; // the control may call for its report
        change_snapshot(&mut self.snapshot, &self.layout, change)
    }

    /// Counts a frame for each report.
    pub(crate) fn frame(&mut self)
        ensures { self.new ≡ framed_core self.old }
    {
        count_frame(&mut self.frames);
    }

    /// SET_CONFIGURATION takes effect.
    pub(crate) fn configure(&mut self)
        ensures { self.new ≡ configured_core self.old }
    {
        self.is_configured = true;
        self.nothing_due = false; // no part is fixed any more
        self.fixed.reset(&self.layout);
        self.frames.fill(0);
        self.aborted.fill(false);
        self.pipe.restart(); // a halt ends with it
        self.current = None;
        self.piece = 0;
    }

    /// The endpoint is halted: the round that is open ends, and its report is due (USB 2.0, 9.4.5).
    pub(crate) fn halt(&mut self)
        ensures { self.new ≡ halted_core self.old }
    {
        self.abort_round();
        self.pipe.halt();
        self.current = None;
        self.piece = 0;
    }

    /// The report of the round that is open, where one is, is due until a round of it opens.
    fn abort_round(&mut self)
        ensures { self.new
            ≡ record self.old { reports = with_abort self.old.current self.old.reports } }
    {
        match self.current {
            Some(report) => {
                self.aborted[report] = true;
            }
            None => {}
        }
    }

    /// A halt ends, where there is one: a round that is open ends as by a halt, and data begin with DATA0 (USB 2.0, 9.4.5).
    fn clear(&mut self)
        ensures { self.new ≡ cleared_core self.old }
    {
        self.halt();
        self.pipe.restart(); // it ends here
    }

    /// The bus is reset: the device isn't configured, and but for its snapshot it is as it was at first. No memory is taken.
    pub(crate) fn reset(&mut self)
        ensures { self.new ≡ reset_core self.old }
    {
        self.configure(); // its rounds start again
        self.forget_request();
        self.is_configured = false;
        self.idle.fill(0);
        self.protocol = Protocol::Report;
        reset_outputs(&self.layout, &mut self.outputs);
    }

    /// Nothing is kept of the last request.
    fn forget_request(&mut self)
        ensures { self.new ≡ record self.old { answer = None; pending = Nothing } }
    {
        self.answer = None;
        self.pending = PendingWrite::Nothing;
    }

    /// Opens a round where none is open, the endpoint isn't halted and some report is due.
    pub(crate) fn open_if_due(&mut self)
        ensures { self.new ≡ core_at_poll self.old }
    {
        if self.current.is_none() {
            match self.first_due() {
                Some(report) => self.open(report),
                None => self.note_nothing_due(),
            }
        }
    }

    /// No report is due. Unless a halt hides it, none's controls call for it then, until something is changed: polls
    /// after this one needn't look at them.
    fn note_nothing_due(&mut self)
        requires { due_where (items_of self.old.layout) self.old.halted self.old.reports ≡ None }
        ensures { self.new ≡ self.old }
    {
        if !self.pipe.halted() {
            self.nothing_due = true;
        }
    }

    /// The answer to a poll: STALL while the endpoint is halted, else what is armed under the toggle, else NAK (USB 2.0,
    /// 8.4.6.1).
    pub(crate) fn poll_response(&self) -> PacketRef<'_>
        ensures answer { to_owned result ≡ poll_response self.now }
        ensures fits { Fits (to_owned result) }
        ensures short { PayloadFits result }
        ensures sound { IsSound self.now }
    {
        self.pipe.answer_ref()
    }

    /// An acknowledgement has arrived: the piece is closed (USB 2.0, 8.6.2). The next one is armed, and after the
    /// last one the round is closed.
    pub(crate) fn acknowledged(&mut self)
        ensures { self.new ≡ core_after_ack self.old }
    {
        let next = self.next_piece();
        self.pipe.acknowledged();
        match next {
            Some(piece) => {
                self.pipe.arm(piece_of(&self.round, piece));
                self.piece = piece;
            }
            None => {
                self.current = None;
                self.piece = 0;
            }
        }
    }

    /// The piece after the one that goes out, where there is one.
    fn next_piece(&self) -> Option<usize>
        ensures { result ≡ next_piece_of self.now }
    {
        match self.current {
            Some(report) => {
                let pieces = pieces_of(&self.layout, report);
                if self.piece + 1 < pieces {
                    Some(self.piece + 1)
                } else {
                    None
                }
            }
            None => None,
        }
    }

    /// Whether a report is due: its controls call for it, its idle time is over, or its last round was aborted short.
    fn is_due(&self, report: usize) -> bool
        requires { report < length self.now.reports.frames }
        ensures { result ≡ is_due (items_of self.now.layout) self.now.reports report }
    {
        self.calls_for(report)
            || is_idle_over(self.idle[report], self.frames[report])
            || self.aborted[report]
    }

    /// Whether a report's controls call for it.
    fn calls_for(&self, report: usize) -> bool
        requires { report < length self.now.reports.frames }
        ensures { result ≡ is_changed (items_of self.now.layout) report self.now.reports.snapshot
            self.now.reports.fixed }
    {
        !self.nothing_due && self.snapshot.due(&self.layout, report, &self.fixed)
    }

    /// The report whose round a poll opens: the due one of the lowest number, and none while the endpoint is halted.
    fn first_due(&self) -> Option<usize>
        ensures due { result
            ≡ due_where (items_of self.now.layout) self.now.halted self.now.reports }
        ensures input { IfSome result (λ report. report < length self.now.reports.frames) }
        ensures going { IfSome result (λ _. self.now.halted ≡ false) }
    {
        if self.pipe.halted() {
            return None;
        }
        for report in 0..self.frames.len() {
            if self.is_due(report) {
                return Some(report);
            }
        }
        None
    }

    /// Opens a round of a report: fixes its part, takes the part's motion out of the snapshot, counts its frames
    /// again, and arms the first piece of its bytes. The report's abort flag is cleared.
    fn open(&mut self, report: usize)
        requires input { report < length self.old.reports.frames }
        requires none { self.old.current ≡ None }
        requires going { self.old.halted ≡ false }
        ensures { self.new ≡ core_with_round self.old report }
    {
        self.nothing_due = false; // it was seen of the parts before
        self.snapshot.shown(&self.layout, report, &mut self.fixed);
        self.snapshot.take_motion(&self.layout, report, &self.fixed);
        self.frames[report] = 0;
        self.aborted[report] = false;
        write_report::<WordCodec>(&self.layout, report, &self.fixed, &mut self.round);
        self.pipe.arm(piece_of(&self.round, 0));
        self.current = Some(report);
        self.piece = 0;
    }
}

impl Core {
    /// In bytes, the report descriptor.
    fn report_length(&self) -> u16
        ensures { result ≡ length self.now.descriptor }
    {
        self.descriptor.len() as u16
    }

    /// The Output or Feature report of this kind and ID, as it was set last.
    pub(crate) fn output(&self, kind: ReportKind, id: u8) -> Option<&[u8]>
        ensures output { option_copied result ≡ output_of self.now kind id }
        ensures short { IfSome result (λ bytes. length bytes.now ≤ 256) }
    {
        match kept_place(&self.layout, kind, id) {
            Some(place) => Some(self.outputs[place].bytes()),
            None => None,
        }
    }

    /// A request is refused: STALL, in its data or status stage.
    fn refuse(&mut self) -> bool
        ensures { Decides self.old Refuses result self.new }
    {
        self.forget_request();
        false
    }

    /// A read has the report descriptor as its answer.
    fn read_descriptor(&mut self) -> bool
        ensures { Decides self.old (Reads self.old.descriptor) result self.new }
    {
        self.forget_request();
        self.answer = Some(Answer::Descriptor);
        true
    }

    /// A read has these bytes as its answer, which are written down.
    fn read(&mut self, bytes: &[u8]) -> bool
        requires { length bytes.now ≤ 256 }
        ensures { Decides self.old (Reads bytes.now) result self.new }
    {
        self.forget_request();
        self.written.clear();
        self.written.try_extend_from_slice(bytes).unwrap();
        self.answer = Some(Answer::Bytes);
        true
    }

    /// A read of these bytes where something holds; else it is refused.
    fn read_if(&mut self, holds: bool, bytes: &[u8]) -> bool
        requires { length bytes.now ≤ 256 }
        ensures { Decides self.old (reads_if holds bytes.now) result self.new }
    {
        if holds {
            self.read(bytes)
        } else {
            self.refuse()
        }
    }

    /// A write is to bring this about.
    fn write(&mut self, pending: PendingWrite) -> bool
        ensures { Decides self.old (Writes pending) result self.new }
    {
        self.forget_request();
        self.pending = pending;
        true
    }

    /// A write that brings this about where something holds; else it is refused.
    fn write_if(&mut self, holds: bool, pending: PendingWrite) -> bool
        ensures { Decides self.old (writes_if holds pending) result self.new }
    {
        if holds {
            self.write(pending)
        } else {
            self.refuse()
        }
    }

    /// A read has the bytes of an Input report as it is now, with every motion 0, as its answer.
    #[tactic(auto, using(crate::proofs::BusLemmas::short_report))]
    fn read_input(&mut self, report: usize) -> bool
        requires { report < length self.old.reports.frames }
        ensures { Decides self.old (Reads (still_bytes self.old report)) result self.new }
    {
        self.forget_request();
        self.still.reset(&self.layout);
        self.snapshot.still(&self.layout, report, &mut self.still);
        write_report::<WordCodec>(&self.layout, report, &self.still, &mut self.written);
        self.answer = Some(Answer::Bytes);
        true
    }

    /// A read has an Output or Feature report, as it was set last, as its answer.
    fn read_output(&mut self, kind: ReportKind, id: u8) -> bool
        ensures { Decides self.old (reads_optional (output_of self.old kind id)) result self.new }
    {
        match kept_place(&self.layout, kind, id) {
            Some(place) => self.read_kept(place),
            None => self.refuse(),
        }
    }

    /// A read has the Output or Feature report at this place, as it was set last, as its answer.
    fn read_kept(&mut self, place: usize) -> bool
        requires { place < length self.old.outputs }
        ensures { Decides self.old
            (reads_optional (slice_get self.old.outputs place)) result self.new }
    {
        self.forget_request();
        self.written.clear();
        self.written
            .try_extend_from_slice(self.outputs[place].bytes())
            .unwrap();
        self.answer = Some(Answer::Bytes);
        true
    }

    /// GET_REPORT is decided on (HID 1.11, 7.2.1).
    fn get_report(&mut self, kind: ReportKind, id: u8) -> bool
        ensures { Decides self.old (reads_optional (report_now self.old kind id)) result self.new }
    {
        match kind {
            ReportKind::Input => match input_with(&self.layout, id) {
                Some(report) => self.read_input(report),
                None => self.refuse(),
            },
            ReportKind::Output | ReportKind::Feature => self.read_output(kind, id),
        }
    }

    /// The idle time that GET_IDLE returns (HID 1.11, 7.2.3): of the Input report with this ID, or for 0 of the first.
    fn idle_time(&self, id: u8) -> Option<u8>
        ensures { result ≡ idle_time_of self.now id }
    {
        if id == 0 {
            self.idle.first().copied()
        } else {
            match input_with(&self.layout, id) {
                Some(report) => self.idle.get(report).copied(),
                None => None,
            }
        }
    }

    /// SET_REPORT is decided on (HID 1.11, 7.2.2): as many bytes come as the report has.
    fn set_report(&mut self, kind: ReportKind, id: u8, length: u16) -> bool
        ensures { Decides self.old
            (sets_report self.old length (kept_place self.old.layout.reports kind id)) result
            self.new }
    {
        match kept_place(&self.layout, kind, id) {
            Some(place) => {
                let suits = usize::from(length) == self.outputs[place].len();
                self.write_if(suits, PendingWrite::Keep { place })
            }
            None => self.refuse(),
        }
    }

    /// SET_IDLE is decided on (HID 1.11, 7.2.4): it is of an Input report, or with 0 of all.
    fn set_idle(&mut self, id: u8, time: u8) -> bool
        ensures { Decides self.old (sets_idle self.old id time) result self.new }
    {
        if id == 0 {
            return self.write(PendingWrite::Idle { report: None, time });
        }
        match input_with(&self.layout, id) {
            Some(report) => self.write(PendingWrite::Idle {
                report: Some(report),
                time,
            }),
            None => self.refuse(),
        }
    }

    /// SET_REPORT takes effect: the Output or Feature report at this place is set, where it has as many bytes.
    fn keep(&mut self, place: usize, bytes: &[u8])
        ensures { self.new ≡ core_after_write self.old bytes.now (Keep place) }
    {
        if place < self.outputs.len() {
            self.outputs[place].keep(bytes);
        }
    }

    /// A request is decided on by its row (USB 2.0, 9.4; HID 1.11, 7.1 and 7.2): whether it is accepted.
    fn decide(&mut self, asked: RequestKind) -> bool
        ensures { Decides self.old (row_decision self.old asked) result self.new }
    {
        let Config { interval, boot, .. } = self.config;
        let (length, is_configured) = (self.report_length(), self.is_configured);
        match asked {
            RequestKind::Status | RequestKind::ControlStatus => self.read(&[0, 0]),
            RequestKind::InterfaceStatus => self.read_if(is_configured, &[0, 0]),
            RequestKind::ReportStatus => {
                let halted = self.pipe.halted();
                self.read_if(is_configured, &[u8::from(halted), 0])
            }
            RequestKind::DeviceDescriptor => {
                let info = self.config.device_info();
                self.read(&device_descriptor(&info))
            }
            RequestKind::Configuration => {
                let info = self.config.config_info(length);
                self.read(&configuration(&info, interval))
            }
            RequestKind::HidDescriptor => self.read(&hid_descriptor(length)),
            RequestKind::ReportDescriptor => self.read_descriptor(),
            RequestKind::GetConfiguration => self.read(&[u8::from(is_configured)]),
            RequestKind::GetInterface => self.read_if(is_configured, &[0]),
            RequestKind::SetConfiguration => self.write(PendingWrite::Configure),
            RequestKind::ClearFeature => self.write_if(is_configured, PendingWrite::Clear),
            RequestKind::SetFeature => self.write_if(is_configured, PendingWrite::Halt),
            RequestKind::GetReport { kind, id } => self.get_report(kind, id),
            RequestKind::GetIdle { id } => match self.idle_time(id) {
                Some(time) => self.read(&[time]),
                None => self.refuse(),
            },
            RequestKind::GetProtocol => {
                let number = self.protocol.number();
                self.read_if(boot.is_boot(), &[number])
            }
            RequestKind::SetReport { kind, id, length } => self.set_report(kind, id, length),
            RequestKind::SetIdle { id, time } => self.set_idle(id, time),
            RequestKind::SetProtocol { protocol } => {
                let holds = boot.is_boot() && !is_configured;
                self.write_if(holds, PendingWrite::Protocol(protocol))
            }
        }
    }
}

impl Requests for Core {
    ghost use Rattle.usb_control.specs.TryFunctions.{AppliesBy, PreparesBy};
    ghost use Rattle.hid_device.specs.RequestTable.{core_table};
    ghost use Rattle.hid_device.specs.RequestTableLaws.{SameButRequest, read_has_answer, write_is_short, prepare_keeps, prepare_forgets, read_has_no_effect};

    ghost answer_of = { core_table.answer_of };

    ghost prepare_gives = { PreparesBy core_table };

    ghost apply_gives = { AppliesBy core_table };

    ghost same_but_request = { SameButRequest };

    ghost read_has_answer = { read_has_answer };

    ghost write_is_short = { write_is_short };

    ghost prepare_keeps = { prepare_keeps };

    ghost prepare_forgets = { prepare_forgets };

    ghost read_has_no_effect = { read_has_no_effect };

    #[tactic(auto, unfolding(crate::specs::RequestTable::decide))]
    fn prepare(&mut self, setup: &Setup) -> bool {
        match request_kind(setup) {
            Some(asked) => self.decide(asked),
            None => self.refuse(),
        }
    }

    fn answer(&self) -> Option<&[u8]> {
        match self.answer {
            None => None,
            Some(Answer::Bytes) => Some(self.written.as_slice()),
            Some(Answer::Descriptor) => Some(self.descriptor.as_slice()),
        }
    }

    fn apply(&mut self, bytes: &[u8]) {
        match self.pending {
            PendingWrite::Nothing => {}
            PendingWrite::Configure => self.configure(),
            PendingWrite::Keep { place } => self.keep(place, bytes),
            PendingWrite::Idle { report, time } => set_idle(&mut self.idle, report, time),
            PendingWrite::Protocol(protocol) => self.protocol = protocol,
            PendingWrite::Halt => self.halt(),
            PendingWrite::Clear => self.clear(),
        }
    }
}

/// Changes a control of a snapshot, unless the change is refused.
fn change_snapshot(
    snapshot: &mut Snapshot,
    layout: &Layout,
    change: Change,
) -> Result<(), ChangeFault>
    requires { FitsSnapshot (items_of layout.now) snapshot.old }
    ensures changes { Changes (items_of layout.now) snapshot.old change result snapshot.new }
    ensures fits { FitsSnapshot (items_of layout.now) snapshot.new }
{
    match change {
        Change::Press(control) => snapshot.press(layout, control),
        Change::Release(control) => snapshot.release(layout, control),
        Change::Set(control, value) => snapshot.set(layout, control, value),
        Change::Null(control) => snapshot.set_null(layout, control),
        Change::Move(control, by) => snapshot.shift(layout, control, by),
    }
}
