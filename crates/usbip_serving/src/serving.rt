//! A connection to exported devices, the clock, and the actions that are done at them.
ghost use Rattle.std.specs.Prelude.{◌≡◌, ◌≤◌, ◌<◌, ◌^◌, max, length, OnOk, IfOk, IfErr, Some, None};
ghost use Rattle.usbip_export.specs.declared.description.TheConstants.{MAX_DEVICES};
ghost use Rattle.usbip_export.specs.declared.exported_device.TheConstants.{MAX_ANSWER};
ghost use Rattle.usbip_export.specs.Connections.{Takes, bytes_wanted, changed_device, devices_after_end, place_of_stage};
ghost use Rattle.usbip_serving.specs.SetReports.{count_of, report_set};
ghost use Rattle.usbip_serving.specs.Turns.{Turns, after_frames, asks, changed_if, device_at, device_if, devices_after_action, due_after, frames_over, may_act, move_of, refusal_at, refusal_of, with_change, with_halt, with_reset};

use crate::action::{Action, Turn};
use crate::set_report::{Taken, awaited_report, set_by};
use usbip_export::{Change, ChangeFault, Connection, ExportFault, ExportedDevice, Stage};

/// The most frames that pass at once: an idle time has at most 1,020 ms (HID 1.11, 7.2.4), so that more of them change nothing.
pub const MAX_FRAMES: u64 = 1_020;

/// A connection to devices that are served, and how far their actions have come.
#[derive(Drop)]
pub struct Serving {
    connection: Connection,
    /// In milliseconds by the clock, how much of it passed.
    passed: u64,
    /// In milliseconds by the clock, when the next action may come.
    due: u64,
    /// How many actions were done, or passed over.
    done: usize,
}

/// Lets frames pass at a device.
fn pass_frames(device: &mut ExportedDevice, count: u64)
    ensures { device.new ≡ after_frames count device.old }
{
    for passed in 0..count {
        device.frame();
    }
}

/// Whether the host of a device asks for a report: a submit waits, and the device is configured.
fn is_asked(devices: &[ExportedDevice], place: Option<usize>) -> bool
    ensures { result ≡ asks (device_at devices.now place) }
{
    match place {
        Some(place) if place < devices.len() => devices[place].is_configured()
            && devices[place].is_asked(),
        _ => false,
    }
}

impl Serving {
    /// A connection of which nothing came yet, and of whose clock nothing passed.
    pub fn new() -> Serving
        ensures stage { result.connection.stage ≡ Stage.Operation }
        ensures clock { (result.passed ≡ 0) × (result.due ≡ 0) × (result.done ≡ 0) }
    {
        Serving {
            connection: Connection::new(),
            passed: 0,
            due: 0,
            done: 0,
        }
    }

    /// How far the connection has come.
    pub fn stage(&self) -> Stage
        ensures { result ≡ self.now.connection.stage }
    {
        self.connection.stage()
    }

    /// How many actions were done, or passed over.
    pub fn done(&self) -> usize
        ensures { result ≡ self.now.done }
    {
        self.done
    }

    /// In milliseconds by the clock, when the next action may come.
    pub fn due(&self) -> u64
        ensures { result ≡ self.now.due }
    {
        self.due
    }

    /// Whether the next action may come: the host asks for a report, and the time of the last frames is over. A report that is due
    /// goes first.
    pub fn may_act(&self, devices: &[ExportedDevice], now: u64) -> bool
        ensures { result ≡ may_act self.now devices.now now }
    {
        is_asked(devices, self.connection.stage().place()) && self.due <= now
    }

    /// In bytes, what the connection takes next; 0 where it is over.
    pub fn wants(&self) -> usize
        ensures { result ≡ bytes_wanted self.now.connection.stage }
    {
        self.connection.wants()
    }

    /// Takes as many bytes as it [wants](Self::wants), for devices that are the same in each call, and gives what came of them.
    ///
    /// # Errors
    /// Those of [`Connection::take`]: the connection is over then.
    pub fn take(
        &mut self,
        devices: &mut [ExportedDevice],
        bytes: &[u8],
        room: &mut [u8],
    ) -> Result<Taken, ExportFault>
        requires few { length devices.old ≤ MAX_DEVICES }
        requires wanted { length bytes.now ≡ bytes_wanted self.old.connection.stage }
        requires room { MAX_ANSWER ≤ length room.old }
        // What comes of them at the connection, and the report that they set, exactly where that takes effect.
        ensures taken { Takes self.old.connection.stage devices.old bytes.now room.old (count_of result)
            self.new.connection.stage devices.new room.new }
        ensures told { IfOk result (λ taken. taken.set ≡ report_set devices.old self.old.connection.stage) }
        ensures clock { self.new ≡ record self.old { connection = self.new.connection } }
    {
        let awaited = awaited_report(&self.connection.stage());
        let answer = self.connection.answer(devices, bytes, room)?;
        Ok(Taken {
            length: answer.length,
            set: set_by(awaited, &answer),
        })
    }

    /// Lets the frames pass that are over by the clock, at the device that the host has.
    pub fn pass(&mut self, devices: &mut [ExportedDevice], now: u64)
        ensures devices { devices.new ≡ changed_device devices.old (after_frames (frames_over self.old.passed now))
            (place_of_stage self.old.connection.stage) }
        ensures passed { self.new ≡ record self.old { passed = max self.old.passed now } }
    {
        let count = now.saturating_sub(self.passed).min(MAX_FRAMES);
        if let Some(place) = self.connection.stage().place()
            && place < devices.len()
        {
            pass_frames(&mut devices[place], count);
        }
        self.passed = self.passed.max(now);
    }

    /// Does the one thing that is to be done: sends a report that is due and asked for; else, where the host asks for a report and
    /// the time of the last frames is over, carries out the next action. An action of a device that the host doesn't have is passed
    /// over.
    ///
    /// # Errors
    /// Those of [`ExportedDevice::change`]. An action that is refused isn't done, and comes again in the next turn.
    pub fn turn(
        &mut self,
        devices: &mut [ExportedDevice],
        actions: &[Action],
        now: u64,
        room: &mut [u8],
    ) -> Result<Turn, ChangeFault>
        requires { MAX_ANSWER ≤ length room.old }
        ensures { Turns self.old devices.old now room.old (move_of self.old devices.old actions.now now) result
            self.new devices.new room.new }
    {
        let place = self.connection.stage().place();
        let may_act = self.may_act(devices, now);
        let count = self.connection.report(devices, room);
        if count > 0 {
            return Ok(Turn::Sends(count));
        }
        if !may_act || self.done >= actions.len() {
            return Ok(Turn::Waits);
        }
        let action = actions[self.done];
        self.act(devices, place, action, now)?;
        self.done += 1;
        Ok(Turn::Acted)
    }

    /// The connection ends: what waits at its device is forgotten, and the device stays as it is.
    pub fn end(&mut self, devices: &mut [ExportedDevice])
        ensures stage { self.new.connection.stage ≡ Stage.Over }
        ensures devices { devices.new ≡ devices_after_end devices.old self.old.connection.stage }
        ensures clock { self.new ≡ record self.old { connection = self.new.connection } }
    {
        self.connection.end(devices);
    }

    /// Carries out an action. One that is refused changes nothing.
    fn act(
        &mut self,
        devices: &mut [ExportedDevice],
        place: Option<usize>,
        action: Action,
        now: u64,
    ) -> Result<(), ChangeFault>
        ensures devices { devices.new ≡ devices_after_action devices.old place action }
        ensures done { OnOk result ((refusal_of devices.old place action ≡ None)
            × (self.new ≡ record self.old { due = due_after self.old.due now action })) }
        ensures refused { IfErr result (λ fault. (refusal_of devices.old place action ≡ Some fault) × (self.new ≡ self.old)) }
    {
        match action {
            Action::Change(at, change) => change_at(devices, place, at, change)?,
            Action::Halt(at) => halt_at(devices, place, at),
            Action::Reset(at) => reset_at(devices, place, at),
            Action::Frames(count) => self.due = now.saturating_add(u64::from(count)),
        }
        Ok(())
    }
}

/// Changes a control of the device at a place, if the host has that, or gives why that is refused.
fn change_at(
    devices: &mut [ExportedDevice],
    place: Option<usize>,
    at: usize,
    change: Change,
) -> Result<(), ChangeFault>
    ensures devices { devices.new ≡ changed_if devices.old place at (with_change change) }
    ensures done { OnOk result (refusal_at (device_if devices.old place at) change ≡ None) }
    ensures refused { IfErr result (λ fault. refusal_at (device_if devices.old place at) change ≡ Some fault) }
{
    if place == Some(at) && at < devices.len() {
        devices[at].change(change)
    } else {
        Ok(())
    }
}

/// Halts the device at a place, if the host has that.
fn halt_at(devices: &mut [ExportedDevice], place: Option<usize>, at: usize)
    ensures { devices.new ≡ changed_if devices.old place at with_halt }
{
    if place == Some(at) && at < devices.len() {
        devices[at].halt();
    }
}

/// Resets the device at a place, if the host has that.
fn reset_at(devices: &mut [ExportedDevice], place: Option<usize>, at: usize)
    ensures { devices.new ≡ changed_if devices.old place at with_reset }
{
    if place == Some(at) && at < devices.len() {
        devices[at].reset();
    }
}
