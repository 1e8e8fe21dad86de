//! One device that is exported: a gadget, and the submits that wait for its reports.
ghost use Rattle.std.specs.Prelude.{◌≡◌, ◌≤◌, ◌++◌, [], length, drop, false, Ok, IfOk, IfErr, is_some, slice_get};
ghost use Rattle.std.specs.Option.{option_copied};
ghost use Rattle.hid_device.specs.Core.{changed_core, framed_core, reset_core};
ghost use Rattle.hid_device.specs.RequestTable.{output_of};
ghost use Rattle.hid_layout.specs.Controls.{items_of};
ghost use Rattle.hid_snapshots.specs.Snapshots.{Changes};
ghost use Rattle.hid_gadget.specs.Gadgets.{FindsControl, MakesGadget, halted_gadget};
ghost use Rattle.hid_gadget.specs.Rooms.{with_front};
ghost use Rattle.usbip.specs.Messages.{data_length, reply_bytes};
ghost use Rattle.usbip_export.specs.Payloads.{payload_length};
ghost use Rattle.usbip_export.specs.ExportedDevices.{answer_of_report, answer_to_submit, answer_to_unlink, control_data, control_reply, core_after_control, device_after_end, device_after_import, device_after_report, device_after_submit, device_after_unlink, fits_setup, refused_reply, reply_at_report, reply_at_submit, report_data, status_of_reply, submit_data};

use crate::answer::Answer;
use hid_gadget::{Change, ChangeFault, Config, Control, DeviceFault, Gadget, Poll, Setup};
use hid_layout::{ControlId, Layout, ReportKind, Usage};
use std::alloc::Global;
use usbip::{
    Direction, HEADER, MAX_DATA, PendingSubmits, Reply, Status, Submit, SubmitReply, Unlink,
    encode_reply,
};

/// In bytes, the room for the data of one reply: as many as wLength can say.
pub const MAX_ROOM: usize = MAX_DATA as usize;

/// In bytes, the longest answer: a header, and the data after it.
pub const MAX_ANSWER: usize = HEADER + MAX_ROOM;

/// A device that is exported.
#[derive(Drop)]
pub struct ExportedDevice {
    config: Config,
    gadget: Gadget,
    pending: PendingSubmits,
    imported: bool,
}

/// The reply to a submit that moves no data.
fn refused(submit: &Submit, status: Status) -> SubmitReply
    ensures { result ≡ refused_reply submit.now status }
{
    SubmitReply {
        seqnum: submit.seqnum,
        status,
        length: 0,
    }
}

/// Whether the length and the direction of a control submit are those of its setup data.
fn is_of_setup(submit: &Submit, setup: &Setup) -> bool
    ensures { result ≡ fits_setup submit.now setup.now }
{
    let is_way = match submit.direction {
        Direction::Out => !setup.is_read(),
        Direction::In => setup.is_read(),
    };
    submit.length == u32::from(setup.length) && (setup.length == 0 || is_way)
}

/// Writes the header of a reply into the first 48 bytes of a room.
fn put_header(reply: &Reply, room: &mut [u8])
    requires { 48 ≤ length room.old }
    ensures { room.new ≡ reply_bytes reply.now ++ drop 48 room.old }
{
    let header = encode_reply(reply);
    room[..HEADER].copy_from_slice(&header);
}

impl ExportedDevice {
    /// A device that nobody has yet, of which nothing is asked.
    ///
    /// # Errors
    /// Those of [`Gadget::new`].
    pub fn new(
        alloc: Global,
        config: &Config,
        descriptor: &[u8],
    ) -> Result<ExportedDevice, DeviceFault>
        ensures made { IfOk result (λ device. (device.config ≡ config.now) × (device.pending ≡ [])
            × (device.imported ≡ false) × MakesGadget config.now descriptor.now (Ok device.gadget)) }
        ensures refused { IfErr result (λ fault. MakesGadget config.now descriptor.now (Err fault)) }
    {
        match Gadget::new(alloc, config, descriptor) {
            Ok(gadget) => Ok(ExportedDevice {
                config: *config,
                gadget,
                pending: PendingSubmits::new(),
                imported: false,
            }),
            Err(fault) => Err(fault),
        }
    }

    /// What it is beside its report descriptor.
    pub fn config(&self) -> Config
        ensures { result ≡ self.now.config }
    {
        self.config
    }

    /// Whether SET_CONFIGURATION took effect.
    pub fn is_configured(&self) -> bool
        ensures { result ≡ self.now.gadget.is_configured }
    {
        self.gadget.is_configured()
    }

    /// Whether a connection has it.
    pub fn is_imported(&self) -> bool
        ensures { result ≡ self.now.imported }
    {
        self.imported
    }

    /// Whether its host asks for a report: a submit waits.
    pub fn is_asked(&self) -> bool
        ensures { result ≡ is_some (slice_get self.now.pending 0) }
    {
        self.pending.oldest().is_some()
    }

    /// The layout of its reports.
    pub fn layout(&self) -> &Layout
        ensures { result.now ≡ self.now.gadget.layout }
    {
        self.gadget.layout()
    }

    /// The least control with a usage.
    pub fn find(&self, usage: Usage) -> Option<ControlId>
        ensures { FindsControl self.now.gadget.layout usage result }
    {
        self.gadget.find(usage)
    }

    /// The Output or Feature report of this kind and ID, as [`Gadget::outputs`] has it.
    pub fn outputs(&self, kind: ReportKind, id: u8) -> Option<&[u8]>
        ensures { option_copied result ≡ output_of self.now.gadget kind id }
    {
        self.gadget.outputs(kind, id)
    }

    /// Changes a control of the gadget.
    ///
    /// # Errors
    /// Those of [`Gadget::change`], U1 to U7. A change that is refused changes nothing.
    pub fn change(&mut self, change: Change) -> Result<(), ChangeFault>
        ensures changes { Changes (items_of self.old.gadget.layout) self.old.gadget.reports.snapshot change result
            self.new.gadget.reports.snapshot }
        ensures device { self.new ≡ record self.old { gadget = changed_core self.old.gadget change } }
    {
        self.gadget.change(change)
    }

    /// A frame of 1 ms passes, as [`Gadget::frame`] takes it.
    pub fn frame(&mut self)
        ensures { self.new ≡ record self.old { gadget = framed_core self.old.gadget } }
    {
        self.gadget.frame();
    }

    /// Halts the endpoint of the reports, as [`Gadget::halt`] does.
    pub fn halt(&mut self)
        ensures { self.new ≡ record self.old { gadget = halted_gadget self.old.gadget } }
    {
        self.gadget.halt();
    }

    /// A reset of the bus, as [`Gadget::reset`] takes it. What waits still waits.
    pub fn reset(&mut self)
        ensures { self.new ≡ record self.old { gadget = reset_core self.old.gadget } }
    {
        self.gadget.reset();
    }

    /// A connection has it from now on.
    pub(crate) fn import(&mut self)
        ensures { self.new ≡ device_after_import self.old }
    {
        self.imported = true;
    }

    /// Its connection is over: what waits is forgotten. The gadget stays as it is: a key that is held is held.
    pub(crate) fn end(&mut self)
        ensures { self.new ≡ device_after_end self.old }
    {
        self.pending.clear();
        self.imported = false;
    }
}

/// In bytes, the data after a reply of this length: as many where they go to the host, none where they went to the device.
fn payload_length(direction: Direction, length: u32) -> usize
    ensures { result ≡ payload_length direction length }
{
    match direction {
        Direction::Out => 0,
        Direction::In => length as usize,
    }
}

impl ExportedDevice {
    /// Takes a submit with its data, and gives the answer that stands at the front of the room; none where it waits for a report.
    pub(crate) fn submit(&mut self, submit: &Submit, sent: &[u8], room: &mut [u8]) -> Answer
        requires sent { length sent.now ≡ data_length submit.now.direction submit.now.length }
        requires room { MAX_ANSWER ≤ length room.old }
        ensures device { self.new ≡ device_after_submit self.old submit.now sent.now }
        ensures count { result.length ≡ length (answer_to_submit self.old submit.now) }
        ensures status { result.status ≡ status_of_reply (reply_at_submit self.old submit.now) }
        ensures room { room.new ≡ with_front (answer_to_submit self.old submit.now) room.old }
    {
        match self.carry_out(submit, sent, &mut room[HEADER..]) {
            Some(reply) => {
                put_header(&Reply::Submit(reply), room);
                Answer {
                    length: HEADER + payload_length(submit.direction, reply.length),
                    status: Some(reply.status),
                }
            }
            None => Answer {
                length: 0,
                status: None,
            },
        }
    }

    /// Takes a submit. A control transfer is carried out, and answered at once. A submit for a report waits. Any other is refused.
    /// What goes to the host stands at the front of the room.
    fn carry_out(&mut self, submit: &Submit, sent: &[u8], room: &mut [u8]) -> Option<SubmitReply>
        requires sent { length sent.now ≡ data_length submit.now.direction submit.now.length }
        requires room { MAX_ROOM ≤ length room.old }
        ensures reply { result ≡ reply_at_submit self.old submit.now }
        ensures device { self.new ≡ device_after_submit self.old submit.now sent.now }
        ensures payload { room.new ≡ with_front (submit_data self.old submit.now) room.old }
    {
        if submit.endpoint == 0 {
            return Some(self.control(submit, sent, room));
        }
        let is_input = submit.endpoint == 1 && submit.direction == Direction::In;
        if !is_input || !self.gadget.is_configured() {
            return Some(refused(submit, Status::Stalled));
        }
        self.pending.submit(submit)
    }

    /// Carries out the control transfer of a submit.
    fn control(&mut self, submit: &Submit, sent: &[u8], room: &mut [u8]) -> SubmitReply
        requires sent { length sent.now ≡ data_length submit.now.direction submit.now.length }
        requires room { MAX_ROOM ≤ length room.old }
        ensures reply { result ≡ control_reply self.old.gadget submit.now }
        ensures device { self.new ≡ record self.old {
          gadget = core_after_control self.old.gadget submit.now sent.now;
        } }
        ensures payload { room.new ≡ with_front (control_data self.old.gadget submit.now) room.old }
    {
        let setup = Setup::from_bytes(&submit.setup);
        if !is_of_setup(submit, &setup) {
            return refused(submit, Status::BadRequest);
        }
        match self.gadget.control(&setup, sent, room) {
            Control::Stalled => refused(submit, Status::Stalled),
            Control::Done(count) => SubmitReply {
                seqnum: submit.seqnum,
                status: Status::Success,
                length: if setup.is_read() {
                    count as u32
                } else {
                    submit.length
                },
            },
        }
    }

    /// Answers the oldest submit that waits, if a report is due, and gives how many bytes of the answer stand at the front of the
    /// room; 0 where nothing waits, or nothing is due.
    pub(crate) fn report(&mut self, room: &mut [u8]) -> usize
        requires { MAX_ANSWER ≤ length room.old }
        ensures device { self.new ≡ device_after_report self.old }
        ensures count { result ≡ length (answer_of_report self.old) }
        ensures room { room.new ≡ with_front (answer_of_report self.old) room.old }
    {
        match self.poll(&mut room[HEADER..]) {
            Some(reply) => {
                put_header(&Reply::Submit(reply), room);
                HEADER + reply.length as usize
            }
            None => 0,
        }
    }

    /// Answers the oldest submit that waits, if a report is due: the report, or as much of it as fits, stands at the front of the
    /// room.
    fn poll(&mut self, room: &mut [u8]) -> Option<SubmitReply>
        requires { MAX_ROOM ≤ length room.old }
        ensures reply { result ≡ reply_at_report self.old }
        ensures device { self.new ≡ device_after_report self.old }
        ensures payload { room.new ≡ with_front (report_data self.old) room.old }
    {
        let oldest = self.pending.oldest()?;
        let count = (oldest.length as usize).min(MAX_ROOM);
        let (status, length) = match self.gadget.report(&mut room[..count]) {
            Poll::Nothing => return None,
            Poll::Done(taken) => (Status::Success, taken as u32),
            Poll::Stalled => (Status::Stalled, 0),
            Poll::TooSmall => (Status::Overflow, 0),
        };
        self.pending.answer(status, length)
    }

    /// Takes a submit back, and gives how many bytes of the answer stand at the front of the room. One that waits does so no more,
    /// and gets no reply of its own.
    pub(crate) fn unlink(&mut self, unlink: &Unlink, room: &mut [u8]) -> usize
        requires { 48 ≤ length room.old }
        ensures device { self.new ≡ device_after_unlink self.old unlink.now }
        ensures count { result ≡ length (answer_to_unlink self.old unlink.now) }
        ensures room { room.new ≡ with_front (answer_to_unlink self.old unlink.now) room.old }
    {
        let reply = self.pending.unlink(unlink);
        put_header(&Reply::Unlink(reply), room);
        HEADER
    }
}
