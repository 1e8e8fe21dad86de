//! The devices of a recording.

ghost use Rattle.std.specs.Prelude.{◌≡◌, ◌<◌, ◌++◌, None, Option, is_some, length, map, set, slice_get, string_bytes, true, IfOk, IfErr, OnOk};
ghost use Rattle.std.specs.Option.{option_map};
ghost use Rattle.hid_recording.specs.Session.{PlayedDevice, no_devices};
ghost use Rattle.hid_recording.specs.Joining.{slot_after_doubt, Joins};
ghost use Rattle.hid_recording.specs.LineOutput.{member_in_slot, slot_events_back, slot_text_back};
ghost use Rattle.hid_recording.specs.Pieces.{Flows};
ghost use Rattle.hid_recording.specs.Playing.{PlaysAt, PlaysReport};
ghost use Rattle.hid_recording.specs.MemoryUse.{RunsOutIf, is_joined, names_report};
ghost use Rattle.hid_recording.specs.declared.line_fields.TheConstants.{MAX_DEVICES};

use super::device::{Joined, RecordedDevice};
use super::event_line::Source;
use super::fault::{Cause, Refusal, TextFault};
use super::line_fields::{DeviceNumber, MAX_DEVICES};
use super::options::Options;
use std::alloc::{AllocError, Global};
use std::io::Write;
use std::mem;

/// What is known of each device, and which one the next lines are of.
#[derive(Drop)]
pub struct Devices {
    slots: Vec<Option<RecordedDevice>>,
    current: u8,
    ghost places: { length slots.items ≡ MAX_DEVICES },
    ghost here: { current < MAX_DEVICES },
}

impl Devices {
    /// Nothing is known of any device.
    ///
    /// # Errors
    /// [`AllocError`] if memory runs out for the places of the devices.
    pub fn new(alloc: Global) -> Result<Self, AllocError>
        ensures { IfOk result (λ devices. (devices.slots.items ≡ no_devices)
            × (devices.current ≡ 0)) }
    {
        let slots = [
            None, None, None, None, None, None, None, None, None, None, None, None, None, None,
            None, None,
        ];
        let slots = Vec::from_array(alloc, slots)?;
        Ok(Devices { slots, current: 0 })
    }

    /// The number of the device that lines are for.
    pub fn current(&self) -> u8
        ensures { result ≡ self.now.current }
    {
        self.current
    }

    /// The next lines are of this device.
    pub fn select(&mut self, device: u8)
        requires { device < MAX_DEVICES }
        ensures { (self.new.current ≡ device) × (self.new.slots.items ≡ self.old.slots.items) }
    {
        self.current = device;
    }

    /// The current device is this one, or none, from now on.
    pub fn put(&mut self, recorded: Option<RecordedDevice>)
        ensures { (self.new.current ≡ self.old.current)
            × (self.new.slots.items ≡ set self.old.slots.items self.old.current recorded) }
    {
        let i = usize::from(self.current);
        put_in(&mut self.slots[i], recorded);
    }

    /// The device that lines are for.
    pub fn current_device(&self) -> DeviceNumber
        ensures { result.number ≡ self.now.current }
    {
        DeviceNumber {
            number: self.current,
        }
    }

    /// A part of a report may have been left out, of any device.
    pub fn doubt(&mut self)
        ensures { (self.new.current ≡ self.old.current)
            × (self.new.slots.items ≡ map slot_after_doubt self.old.slots.items) }
    {
        doubt_all(self.slots.as_mut_slice());
    }

    /// Joins a chunk of the current device to what came of its report before.
    ///
    /// # Errors
    /// [`AllocError`] if memory runs out for what came of a report: there is a device, and no part of its report may be
    /// missing.
    pub fn join(&mut self, alloc: Global, chunk: &[u8]) -> Result<Joined, AllocError>
        ensures joined { IfOk result (λ joined. (after : Option PlayedDevice)
            × Joins (member_in_slot
            (slice_get self.old.slots.items self.old.current)) chunk.now joined after
            × (self.new.slots.items ≡ set self.old.slots.items self.old.current after)) }
        ensures memory { IfErr result (λ _. is_joined
            (member_in_slot (slice_get self.old.slots.items self.old.current)) ≡ true) }
        ensures current { self.new.current ≡ self.old.current }
    {
        let i = usize::from(self.current);
        join_chunk(&mut self.slots[i], alloc, chunk)
    }

    /// A device lets go of what it holds, and has no descriptor then: adds the text of its events, writes what is long, and
    /// returns the number of events.
    ///
    /// # Errors
    /// R10 if memory runs out for the text of the events; R9 if the writer fails.
    pub fn release<W: Write>(
        &mut self,
        device: DeviceNumber,
        alloc: Global,
        text: &mut String,
        writer: &mut W,
        time: &str,
        options: Options,
    ) -> Result<u64, TextFault>
        ensures events { IfOk result (λ events. events ≡ length (slot_events_back
            (member_in_slot (slice_get self.old.slots.items device.number)))) }
        ensures text { Flows (W.contents writer.old) (W.contents writer.new) (string_bytes text.old)
            (slot_text_back time.now device.number options
            (member_in_slot (slice_get self.old.slots.items device.number))) result (string_bytes text.new) }
        ensures memory { IfErr result (λ _.
            is_some (member_in_slot (slice_get self.old.slots.items device.number)) ≡ true) }
        ensures slots { self.new.slots.items ≡ set self.old.slots.items device.number None }
        ensures current { self.new.current ≡ self.old.current }
    {
        let source = Source {
            alloc,
            time,
            device: device.number,
            options,
        };
        let i = usize::from(device.number);
        release_slot(&mut self.slots[i], text, writer, &source)
    }

    /// Plays a report of the current device, and returns its number of events.
    ///
    /// # Errors
    /// R7 if there is no device; U8 or U9 if the bytes are no report of it, as [`RecordedDevice::play`] says; R10 if memory
    /// runs out for the text of the events; R9 if the writer fails.
    pub fn play<W: Write>(
        &mut self,
        alloc: Global,
        text: &mut String,
        writer: &mut W,
        time: &str,
        options: Options,
        bytes: &[u8],
    ) -> Result<u64, Cause>
        ensures played { PlaysAt options time.now self.old.current bytes.now self.old.slots.items
            (W.contents writer.old) (W.contents writer.new) (string_bytes text.old) result self.new.slots.items
            (string_bytes text.new) }
        ensures memory { RunsOutIf (names_report bytes.now
            (member_in_slot (slice_get self.old.slots.items self.old.current))) result }
        ensures current { self.new.current ≡ self.old.current }
    {
        let source = Source {
            alloc,
            time,
            device: self.current,
            options,
        };
        let i = usize::from(self.current);
        play_report(&mut self.slots[i], text, writer, &source, bytes)
    }
}

/// The device in a slot, if there is one, is gone: adds the events that lead back to its initial view, and returns how many
/// there are.
fn release_slot<W: Write>(
    slot: &mut Option<RecordedDevice>,
    text: &mut String,
    writer: &mut W,
    source: &Source<'_>,
) -> Result<u64, TextFault>
    ensures events { IfOk result (λ events. events ≡ length (slot_events_back slot.old)) }
    ensures text { Flows (W.contents writer.old) (W.contents writer.new) (string_bytes text.old)
        (slot_text_back source.now.time.now source.now.device source.now.options slot.old) result
        (string_bytes text.new) }
    ensures memory { IfErr result (λ _. is_some slot.old ≡ true) }
    ensures gone { slot.new ≡ None }
{
    match mem::replace(slot, None) {
        None => Ok(0),
        Some(recorded) => {
            let mut recorded = recorded;
            let events = recorded.play_back(text, writer, source);
            drop(recorded);
            events
        }
    }
}

/// The device in a slot is this one, or none, from now on.
fn put_in(slot: &mut Option<RecordedDevice>, recorded: Option<RecordedDevice>)
    ensures { slot.new ≡ recorded }
{
    drop(mem::replace(slot, recorded));
}

/// A part of a report may have been left out, of the device in a slot.
fn doubt_slot(slot: &mut Option<RecordedDevice>)
    ensures { slot.new ≡ slot_after_doubt slot.old }
{
    if let Some(recorded) = slot {
        recorded.doubt();
    }
}

/// A part of a report may have been left out, of every device.
fn doubt_all(slots: &mut [Option<RecordedDevice>])
    ensures { slots.new ≡ map slot_after_doubt slots.old }
{
    for slot in slots.iter_mut() {
        doubt_slot(slot);
    }
}

/// Joins a chunk of the device in a slot.
fn join_chunk(
    slot: &mut Option<RecordedDevice>,
    alloc: Global,
    chunk: &[u8],
) -> Result<Joined, AllocError>
    ensures joined { IfOk result (λ joined. Joins slot.old chunk.now joined slot.new) }
    ensures memory { IfErr result (λ _. is_joined slot.old ≡ true) }
{
    match slot {
        None => Ok(Joined::Unknown),
        Some(recorded) => recorded.join(alloc, chunk),
    }
}

/// Plays a report of the device in a slot.
fn play_report<W: Write>(
    slot: &mut Option<RecordedDevice>,
    text: &mut String,
    writer: &mut W,
    source: &Source<'_>,
    bytes: &[u8],
) -> Result<u64, Cause>
    ensures played { PlaysReport source.now bytes.now slot.old (W.contents writer.old) (W.contents writer.new)
        (string_bytes text.old) result slot.new (string_bytes text.new) }
    ensures memory { RunsOutIf (names_report bytes.now slot.old) result }
{
    match slot {
        None => Err(Cause::Refused(Refusal::NoLayout)),
        Some(recorded) => recorded.play(text, writer, source, bytes),
    }
}
