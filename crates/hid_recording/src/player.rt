//! A session: what stands between two lines or frames, and how a line is played.

ghost use Rattle.std.specs.Prelude.{◌≡◌, ◌++◌, ◌||◌, [], ◌∷◌, true, None, Some, Option, IfOk, IfErr, OnOk, is_some, string_bytes};
ghost use Rattle.std.specs.Option.{option_map};
ghost use Rattle.hid_report_descriptor.specs.Real.{Explains};
ghost use Rattle.hid_recording.specs.Session.{at_first, at_time, with_options};
ghost use Rattle.hid_recording.specs.Records.{record_of, report_record, items_of};
ghost use Rattle.hid_recording.specs.LineOutput.{layout_shown, described_text, AfterRelease, with_descriptor, LineGives, LineBegins, MeaningGives, DescriptionGives, DumpEndGives, with_device, outcome_of_device, session_refusal_line, with_refusal, outcome_of_refusal, DescriptorIsRefused, named_text_back, without_named, with_dropped_dump, dropped_dump_text, outcome_of_dropped_dump, described_by, with_interface, outcome_of_unread_descriptor, outcome_of_dump_head, outcome_of_dump_bytes, outcome_of_stray_bytes, with_line_counted, chunk_outcome, stream_outcome, report_outcome};
ghost use Rattle.hid_recording.specs.Words.{time_of};
ghost use Rattle.hid_recording.specs.Player.{summary_of};
ghost use Rattle.hid_recording.specs.Refusals.{refusal_line};
ghost use Rattle.hid_recording.specs.Gathering.{Gathers, Outputs, IsCauseOfLine};
ghost use Rattle.hid_recording.specs.Pieces.{Flows};
ghost use Rattle.hid_recording.specs.MemoryUse.{RunsOutIf, refusal_allocates, layout_refusal_allocates, holds_named, description_allocates, report_allocates, dump_head_allocates, stray_bytes_allocate, dump_bytes_allocate, chunk_allocates, stream_allocates, dump_end_allocates, short_line_allocates, line_allocates};
ghost use Rattle.hid_recording.specs.Dumps.{number_of_address};
ghost use Rattle.hid_recording.specs.declared.fault.Refusal.TheVariants as refusals;
ghost use Rattle.hid_recording.specs.Place.{AppendsOutput};
ghost use Rattle.hid_recording.specs.Acts.{act_of, ActGives, AppendsActs, turned_to};

use super::act::Act;
use super::counted::Counted;
use super::device::{Joined, RecordedDevice};
use super::devices::Devices;
use super::dump::{Address, Addresses, Content, Dump, MAX_DUMP};
use super::event_json::{counted_word, print_refusal_json};
use super::fault::{Cause, Refusal, TextFault};
use super::line_fields::{DeviceNumber, read_time};
use super::options::Options;
use super::output::write_text;
use super::record::{Record, read_record, read_report};
use super::summary::Summary;
use hid_layout::{Layout, LayoutFault, Limits, long_report};
use hid_text::{print_layout, print_named_layout};
use std::alloc::{AllocError, Global};
use std::io::Write;
use std::mem;

/// The longest line, without its end (our choice): a report of 16,384 bytes has some 49,200.
pub const MAX_LINE: usize = 65_536;

/// The devices with what is known of them, counts, and room for the output of a line or of an act.
#[derive(Drop)]
pub struct Player {
    alloc: Global,
    options: Options,
    counted: Counted,
    devices: Devices,
    addresses: Addresses,
    dump: Dump,
    /// The time of the report that was read last; of a capture that of what it said last of a device.
    time: String,
    lines: u64,
    descriptors: u64,
    reports: u64,
    events: u64,
    refused: u64,
    text: String,
    /// Room for the bytes of a report, kept from one line to the next.
    room: Vec<u8>,
}

/// Adds the number of a device and its layout, where layouts are asked for.
fn print_described(
    text: &mut String,
    options: Options,
    device: u8,
    layout: &Layout,
) -> Result<(), AllocError>
    ensures printed { OnOk result (string_bytes text.new
        ≡ string_bytes text.old ++ described_text options device layout.now) }
    ensures memory { IfErr result (λ _. options.layout ≡ true) }
{
    if !options.layout {
        return Ok(());
    }
    writeln!(text, "device {device}")?;
    print_shown_layout(text, options.names, layout)
}

/// Adds a layout, with the name of each usage or without.
fn print_shown_layout(text: &mut String, names: bool, layout: &Layout) -> Result<(), AllocError>
    ensures { OnOk result (string_bytes text.new
        ≡ string_bytes text.old ++ layout_shown names layout.now) }
{
    if names {
        print_named_layout(text, layout)
    } else {
        print_layout(text, layout)
    }
}

/// Adds the line of a refusal.
fn print_refusal(
    text: &mut String,
    alloc: Global,
    options: Options,
    counted: Counted,
    place: u64,
    refusal: Refusal,
) -> Result<(), AllocError>
    ensures { OnOk result (string_bytes text.new
        ≡ string_bytes text.old ++ refusal_line options counted place refusal) }
{
    if options.json {
        return print_refusal_json(text, alloc, counted, place, refusal);
    }
    let word = counted_word(counted);
    writeln!(text, "{word} {place}: {refusal}")
}

impl Player {
    ghost use Rattle.std.specs.Prelude.{IfOk, IfErr, string_bytes};
    ghost use Rattle.hid_recording.specs.Player.{session_of};

    /// A player that has played nothing of what it counts.
    ///
    /// # Errors
    /// R10 if memory runs out for the places of the devices.
    pub fn new(alloc: Global, options: Options, counted: Counted) -> Result<Self, Cause>
        ensures new { IfOk result (λ player. session_of player ≡ at_first options counted) }
        ensures memory { IfErr result (λ cause. cause ≡ Cause.Memory) }
    {
        let devices = Devices::new(alloc)?;
        Ok(Player {
            alloc,
            options,
            counted,
            devices,
            addresses: Addresses::new(alloc),
            dump: Dump::none(alloc),
            time: String::new(alloc),
            lines: 0,
            descriptors: 0,
            reports: 0,
            events: 0,
            refused: 0,
            text: String::new(alloc),
            room: Vec::new(alloc),
        })
    }

    /// What was played, in n lines.
    pub fn summary(&self, lines: u64) -> Summary
        ensures { result ≡ summary_of (session_of self.now) lines }
    {
        Summary {
            lines,
            descriptors: self.descriptors,
            reports: self.reports,
            events: self.events,
            refused: self.refused,
        }
    }

    /// What was played, in as many lines or frames as were counted.
    pub fn summary_so_far(&self) -> Summary
        ensures { result ≡ summary_of (session_of self.now) (session_of self.now).lines }
    {
        self.summary(self.lines)
    }

    /// Plays a line, without its end, and writes its output.
    ///
    /// # Errors
    /// R2 if the line is too long; in a strict run the refusal of the line; R10 if memory runs out for the line or its
    /// output; R9 if the writer fails.
    pub fn line<W: Write>(&mut self, line: &[u8], writer: &mut W) -> Result<(), Cause>
        ensures outcome { AppendsOutput (W.contents writer.old) (W.contents writer.new)
            (LineGives (session_of self.old) line.now)
            (LineBegins (session_of self.old) line.now) result (session_of self.new) }
        ensures memory { RunsOutIf (line_allocates (session_of self.old) line.now) result }
        ensures cause { IfErr result (IsCauseOfLine (session_of self.old) line.now) }
    {
        if line.len() > MAX_LINE {
            return Err(Cause::LineTooLong);
        }
        self.lines = self.lines.saturating_add(1);
        self.play_line(line, writer)?;
        Ok(write_text(writer, self.text.as_bytes())?)
    }

    /// Gathers the output of a line, in place of that of the line before, and writes what is long. The bytes of a report are read
    /// into room that is kept.
    fn play_line<W: Write>(&mut self, line: &[u8], writer: &mut W) -> Result<(), Cause>
        ensures outcome { Outputs (W.contents writer.old) (W.contents writer.new)
            (MeaningGives (session_of self.old) (record_of line.now)) result
            (string_bytes self.new.text) (session_of self.new) }
        ensures memory { RunsOutIf (short_line_allocates (session_of self.old) line.now) result }
    {
        match line {
            [b'E', b':', words @ ..] => self.play_report(words, writer),
            _ => self.play_record(line, writer),
        }
    }

    /// Gathers the output of a report: of the text after `E:`.
    fn play_report<W: Write>(&mut self, text: &[u8], writer: &mut W) -> Result<(), Cause>
        ensures outcome { Outputs (W.contents writer.old) (W.contents writer.new)
            (MeaningGives (session_of self.old) (report_record text.now))
            result (string_bytes self.new.text) (session_of self.new) }
    {
        let mut bytes = mem::replace(&mut self.room, Vec::new(self.alloc));
        let played = self.play_words(&mut bytes, text, writer);
        self.room = bytes;
        played
    }

    /// Gathers the output of a report, whose bytes are put in place of those that were there.
    fn play_words<W: Write>(
        &mut self,
        bytes: &mut Vec<u8>,
        text: &[u8],
        writer: &mut W,
    ) -> Result<(), Cause>
        ensures outcome { Outputs (W.contents writer.old) (W.contents writer.new)
            (MeaningGives (session_of self.old) (report_record text.now))
            result (string_bytes self.new.text) (session_of self.new) }
    {
        match read_report(self.alloc, bytes, text) {
            Ok(time) => self.report(time, bytes.as_slice(), writer),
            Err(Cause::Refused(refusal)) => self.drop_dump(refusal, writer),
            Err(cause) => Err(cause),
        }
    }

    /// Gathers the output of a line of any kind.
    #[inline(never)] // so that the line of a report costs less
    fn play_record<W: Write>(&mut self, line: &[u8], writer: &mut W) -> Result<(), Cause>
        ensures outcome { Outputs (W.contents writer.old) (W.contents writer.new)
            (MeaningGives (session_of self.old) (record_of line.now)) result
            (string_bytes self.new.text) (session_of self.new) }
        ensures memory { RunsOutIf (short_line_allocates (session_of self.old) line.now) result }
    {
        match read_record(self.alloc, line) {
            Ok(Record::Nothing) => {
                self.text.clear();
                Ok(())
            }
            Ok(Record::Blank) => self.end_dump(writer),
            Ok(Record::Device(device)) => {
                self.text.clear();
                self.devices.select(device.number);
                Ok(())
            }
            Ok(Record::Descriptor(bytes)) => self.describe(bytes.as_slice(), writer),
            Ok(Record::Unread { interface, refusal }) => {
                self.lose_descriptor(interface, refusal, writer)
            }
            Ok(Record::Report { time, bytes }) => self.report(time, bytes.as_slice(), writer),
            Ok(
                Record::Begins {
                    address,
                    content,
                    time,
                },
            ) => self.begin_dump(address, content, time, writer),
            Ok(Record::Bytes(bytes)) => self.gather(bytes, writer),
            Err(Cause::Refused(refusal)) => self.drop_dump(refusal, writer),
            Err(cause) => Err(cause),
        }
    }

    /// A line is refused, and with it the dump in which it stands.
    fn drop_dump<W: Write>(&mut self, refusal: Refusal, writer: &mut W) -> Result<(), Cause>
        ensures outcome { Outputs (W.contents writer.old) (W.contents writer.new)
            (λ o. o ≡ outcome_of_dropped_dump (session_of self.old) refusal) result
            (string_bytes self.new.text) (session_of self.new) }
        ensures memory { RunsOutIf (refusal_allocates (session_of self.old)) result }
    {
        if self.options.strict {
            return Err(Cause::Refused(refusal));
        }
        self.text.clear();
        Ok(self.add_dropped_dump(refusal, writer)?)
    }

    /// Drops the dump that may be open, and adds what the device lets go of whose descriptor it was to be, and the refusal.
    fn add_dropped_dump<W: Write>(
        &mut self,
        refusal: Refusal,
        writer: &mut W,
    ) -> Result<(), TextFault>
        ensures text { Flows (W.contents writer.old) (W.contents writer.new) (string_bytes self.old.text)
            (dropped_dump_text (session_of self.old) refusal) result (string_bytes self.new.text) }
        ensures session { OnOk result (session_of self.new
            ≡ with_refusal (with_dropped_dump (session_of self.old))) }
    {
        let device = self.dump.described_device();
        self.let_go(device, writer)?;
        self.devices.doubt();
        self.dump = Dump::dropped_dump(self.alloc);
        Ok(self.add_refusal(refusal)?)
    }

    /// A descriptor can't be read: the device that it was for lets go of what it holds, and has none.
    fn lose_descriptor<W: Write>(
        &mut self,
        interface: Option<Address>,
        refusal: Refusal,
        writer: &mut W,
    ) -> Result<(), Cause>
        ensures outcome { Outputs (W.contents writer.old) (W.contents writer.new)
            (λ o. o ≡ outcome_of_unread_descriptor (session_of self.old) interface refusal) result
            (string_bytes self.new.text) (session_of self.new) }
        ensures memory { RunsOutIf (refusal_allocates (session_of self.old)) result }
    {
        if self.options.strict {
            return Err(Cause::Refused(refusal));
        }
        self.text.clear();
        let device = self.described_by(interface)?;
        self.let_go(device, writer)?;
        Ok(self.add_dropped_dump(refusal, writer)?)
    }

    /// The number of the device whose descriptor can't be read: the current one, or that of an interface, if it has one.
    fn described_by(
        &mut self,
        interface: Option<Address>,
    ) -> Result<Option<DeviceNumber>, AllocError>
        ensures number { IfOk result (λ found. option_map (λ device. device.number) found
            ≡ described_by (session_of self.old) interface) }
        ensures session { OnOk result (session_of self.new
            ≡ with_interface (session_of self.old) interface) }
        ensures text { string_bytes self.new.text ≡ string_bytes self.old.text }
    {
        match interface {
            None => Ok(Some(self.devices.current_device())),
            Some(address) => self.addresses.number(address),
        }
    }

    /// The device of a number that may be given lets go of what it holds, and has no descriptor then. What is long is written.
    fn let_go<W: Write>(
        &mut self,
        device: Option<DeviceNumber>,
        writer: &mut W,
    ) -> Result<(), TextFault>
        ensures text { Flows (W.contents writer.old) (W.contents writer.new) (string_bytes self.old.text)
            (named_text_back (session_of self.old) (option_map (λ some. some.number) device)) result
            (string_bytes self.new.text) }
        ensures session { OnOk result (session_of self.new
            ≡ without_named (session_of self.old) (option_map (λ some. some.number) device)) }
        ensures memory { IfErr result (λ _. holds_named (session_of self.old)
            (option_map (λ some. some.number) device) ≡ true) }
    {
        let Some(device) = device else {
            return Ok(());
        };
        let events = self.devices.release(
            device,
            self.alloc,
            &mut self.text,
            writer,
            self.time.as_str(),
            self.options,
        )?;
        self.events = self.events.saturating_add(events);
        Ok(())
    }

    /// What is reported is that a line is refused.
    fn refuse(&mut self, refusal: Refusal) -> Result<(), Cause>
        ensures outcome { Gathers (λ o. o ≡ outcome_of_refusal (session_of self.old) refusal) result
            (string_bytes self.new.text) (session_of self.new) }
        ensures memory { RunsOutIf (refusal_allocates (session_of self.old)) result }
    {
        if self.options.strict {
            return Err(Cause::Refused(refusal));
        }
        self.text.clear();
        Ok(self.add_refusal(refusal)?)
    }

    /// Adds the line of a refusal, and counts it.
    fn add_refusal(&mut self, refusal: Refusal) -> Result<(), AllocError>
        ensures text { OnOk result (string_bytes self.new.text ≡ string_bytes self.old.text
            ++ session_refusal_line (session_of self.old) refusal) }
        ensures session { OnOk result (session_of self.new ≡ with_refusal (session_of self.old)) }
    {
        let place = self.lines;
        self.refused = self.refused.saturating_add(1);
        print_refusal(
            &mut self.text,
            self.alloc,
            self.options,
            self.counted,
            place,
            refusal,
        )
    }

    /// Takes a report descriptor of the current device, which lets go of what it held by another one.
    fn describe<W: Write>(&mut self, descriptor: &[u8], writer: &mut W) -> Result<(), Cause>
        ensures outcome { Outputs (W.contents writer.old) (W.contents writer.new)
            (DescriptionGives descriptor.now (session_of self.old)) result
            (string_bytes self.new.text) (session_of self.new) }
        ensures memory { RunsOutIf
            (description_allocates (session_of self.old) descriptor.now) result }
    {
        match RecordedDevice::new(self.alloc, descriptor) {
            Ok(recorded) => self.replace(recorded, writer),
            Err(fault) => {
                if fault.cause.is_memory() {
                    return Err(Cause::Memory);
                }
                self.forget(descriptor, fault, writer)
            }
        }
    }

    /// The descriptor of the current device is refused: it has none.
    fn forget<W: Write>(
        &mut self,
        descriptor: &[u8],
        fault: LayoutFault,
        writer: &mut W,
    ) -> Result<(), Cause>
        requires { Explains descriptor.now fault.cause fault.at }
        ensures outcome { Outputs (W.contents writer.old) (W.contents writer.new)
            (AfterRelease (session_of self.old) (DescriptorIsRefused descriptor.now fault)) result
            (string_bytes self.new.text) (session_of self.new) }
        ensures memory { RunsOutIf (holds_named (session_of self.old) (Some self.old.devices.current)
            || layout_refusal_allocates (session_of self.old) fault.cause) result }
    {
        let report = long_report(self.alloc, Limits::Real, descriptor, fault)?;
        let refusal = Refusal::Layout(fault, report);
        if self.options.strict {
            return Err(Cause::Refused(refusal));
        }
        self.text.clear();
        let device = self.devices.current_device();
        self.let_go(Some(device), writer)?;
        Ok(self.add_refusal(refusal)?)
    }

    /// The current device lets go of what it held, and is this one from now on.
    fn replace<W: Write>(&mut self, recorded: RecordedDevice, writer: &mut W) -> Result<(), Cause>
        ensures outcome { Outputs (W.contents writer.old) (W.contents writer.new)
            (AfterRelease (session_of self.old) (λ session o. o ≡ outcome_of_device session recorded)) result
            (string_bytes self.new.text) (session_of self.new) }
        ensures memory { RunsOutIf (holds_named (session_of self.old) (Some self.old.devices.current)
            || self.old.options.layout) result }
    {
        self.text.clear();
        let device = self.devices.current_device();
        if let Err(fault) = self.let_go(Some(device), writer) {
            drop(recorded);
            return Err(Cause::from(fault));
        }
        Ok(self.install(recorded)?)
    }

    /// The current device is this one from now on.
    fn install(&mut self, recorded: RecordedDevice) -> Result<(), AllocError>
        ensures text { OnOk result (string_bytes self.new.text ≡ string_bytes self.old.text
            ++ described_text self.old.options self.old.devices.current recorded.layout) }
        ensures session { OnOk result (session_of self.new
            ≡ with_descriptor (session_of self.old) recorded) }
        ensures memory { IfErr result (λ _. self.old.options.layout ≡ true) }
    {
        let device = self.devices.current();
        let layout = recorded.layout();
        if let Err(error) = print_described(&mut self.text, self.options, device, layout) {
            drop(recorded);
            return Err(error);
        }
        self.devices.put(Some(recorded));
        self.descriptors = self.descriptors.saturating_add(1);
        Ok(())
    }

    /// Takes a report of the current device.
    fn report<W: Write>(&mut self, time: &str, bytes: &[u8], writer: &mut W) -> Result<(), Cause>
        ensures outcome { Outputs (W.contents writer.old) (W.contents writer.new)
            (λ o. o ≡ report_outcome time.now bytes.now (session_of self.old)) result
            (string_bytes self.new.text) (session_of self.new) }
        ensures memory { RunsOutIf (report_allocates (session_of self.old) bytes.now) result }
    {
        self.text.clear();
        match self.devices.play(
            self.alloc,
            &mut self.text,
            writer,
            time,
            self.options,
            bytes,
        ) {
            Ok(events) => {
                self.set_time(time)?;
                self.reports = self.reports.saturating_add(1);
                self.events = self.events.saturating_add(events);
                Ok(())
            }
            Err(Cause::Refused(refusal)) => self.refuse(refusal),
            Err(cause) => Err(cause),
        }
    }

    /// What is released from now on has this time.
    fn set_time(&mut self, time: &str) -> Result<(), AllocError>
        ensures session { OnOk result (session_of self.new ≡ at_time (session_of self.old) time.now) }
        ensures text { string_bytes self.new.text ≡ string_bytes self.old.text }
    {
        self.time.clear();
        self.time.push_str(time)
    }

    /// A dump begins.
    fn begin_dump<W: Write>(
        &mut self,
        address: Address,
        content: Content,
        time: &str,
        writer: &mut W,
    ) -> Result<(), Cause>
        ensures outcome { Outputs (W.contents writer.old) (W.contents writer.new)
            (λ o. o ≡ outcome_of_dump_head (session_of self.old) address content time.now) result
            (string_bytes self.new.text) (session_of self.new) }
        ensures memory { RunsOutIf (dump_head_allocates (session_of self.old)
            (number_of_address self.old.addresses.known.items address)) result }
    {
        let number = self.addresses.number(address)?;
        let device = match number.ok_or(Refusal::TooManyDevices) {
            Ok(device) => device,
            Err(refusal) => return self.drop_dump(refusal, writer),
        };
        let begun = Dump::begin(self.alloc, content, device, time)?;
        let before = mem::replace(&mut self.dump, begun);
        self.text.clear();
        if before.content.is_none() {
            return Ok(());
        }
        if self.options.strict {
            return Err(Cause::Refused(Refusal::Unended));
        }
        self.let_go(before.described_device(), writer)?;
        self.devices.doubt();
        Ok(self.add_refusal(Refusal::Unended)?)
    }

    /// Takes bytes of the dump that is open.
    fn gather<W: Write>(
        &mut self,
        bytes: Result<Vec<u8>, Refusal>,
        writer: &mut W,
    ) -> Result<(), Cause>
        ensures outcome { Outputs (W.contents writer.old) (W.contents writer.new)
            (λ o. o ≡ outcome_of_dump_bytes (session_of self.old)
            (items_of bytes) self.old.dump.content) result
            (string_bytes self.new.text) (session_of self.new) }
        ensures memory { RunsOutIf (dump_bytes_allocate (session_of self.old)
            (items_of bytes) self.old.dump.content) result }
    {
        if self.dump.content.is_none() {
            return self.gather_none(writer);
        }
        let bytes = match bytes {
            Ok(bytes) => bytes,
            Err(unread) => return self.drop_dump(unread, writer),
        };
        if self.dump.bytes.len().saturating_add(bytes.len()) > MAX_DUMP {
            return self.drop_dump(Refusal::DumpTooLong, writer);
        }
        self.dump.bytes.extend_from_slice(bytes.as_slice())?;
        self.text.clear();
        Ok(())
    }

    /// Bytes, and no dump is open: they are of one that was dropped, or of none.
    fn gather_none<W: Write>(&mut self, writer: &mut W) -> Result<(), Cause>
        ensures outcome { Outputs (W.contents writer.old) (W.contents writer.new)
            (λ o. o ≡ outcome_of_stray_bytes (session_of self.old)) result
            (string_bytes self.new.text) (session_of self.new) }
        ensures memory { RunsOutIf (stray_bytes_allocate (session_of self.old)) result }
    {
        if !self.dump.is_dropped {
            return self.drop_dump(Refusal::Syntax, writer);
        }
        self.text.clear();
        Ok(())
    }

    /// An empty line: it ends the dump that is open.
    fn end_dump<W: Write>(&mut self, writer: &mut W) -> Result<(), Cause>
        ensures outcome { Outputs (W.contents writer.old) (W.contents writer.new)
            (DumpEndGives (session_of self.old) self.old.dump.content) result
            (string_bytes self.new.text) (session_of self.new) }
        ensures memory { RunsOutIf
            (dump_end_allocates (session_of self.old) self.old.dump.content) result }
    {
        let dump = mem::replace(&mut self.dump, Dump::none(self.alloc));
        let Some(content) = dump.content else {
            self.text.clear();
            return Ok(());
        };
        self.devices.select(dump.device);
        match content {
            Content::Descriptor => self.describe(dump.bytes.as_slice(), writer),
            Content::Stream => { self.stream(dump.time.as_slice(), dump.bytes.as_slice(), writer) }
        }
    }

    /// Takes the bytes of a dump as a chunk of the current device.
    fn stream<W: Write>(&mut self, time: &[u8], bytes: &[u8], writer: &mut W) -> Result<(), Cause>
        ensures outcome { Outputs (W.contents writer.old) (W.contents writer.new)
            (λ o. o ≡ stream_outcome (time_of time.now) bytes.now (session_of self.old)) result
            (string_bytes self.new.text) (session_of self.new) }
        ensures memory { RunsOutIf
            (stream_allocates (session_of self.old) (time_of time.now)) result }
    {
        match read_time(time) {
            Some(time) => self.chunk(time, bytes, writer),
            None => self.refuse(Refusal::BadTime),
        }
    }

    /// Takes a chunk of the current device.
    fn chunk<W: Write>(&mut self, time: &str, chunk: &[u8], writer: &mut W) -> Result<(), Cause>
        ensures outcome { Outputs (W.contents writer.old) (W.contents writer.new)
            (λ o. o ≡ chunk_outcome time.now chunk.now (session_of self.old)) result
            (string_bytes self.new.text) (session_of self.new) }
        ensures memory { RunsOutIf (chunk_allocates (session_of self.old)) result }
    {
        let joined = self.devices.join(self.alloc, chunk)?;
        match joined.into_report() {
            Ok(Some(bytes)) => self.report(time, bytes.as_slice(), writer),
            Ok(None) => {
                self.text.clear();
                Ok(())
            }
            Err(refusal) => self.refuse(refusal),
        }
    }

    /// The next frame of a capture, or the next report of a live device, is counted.
    pub fn begin_frame(&mut self)
        ensures { session_of self.new ≡ with_line_counted (session_of self.old) }
    {
        self.lines = self.lines.saturating_add(1);
    }

    /// Plays what a capture says at a time, and writes its output.
    ///
    /// # Errors
    /// In a strict run the refusal; R10 if memory runs out; R9 if the writer fails.
    pub fn act<W: Write>(&mut self, time: &str, act: Act<'_>, writer: &mut W) -> Result<(), Cause>
        ensures { AppendsActs (W.contents writer.old) (W.contents writer.new) time.now
            (session_of self.old) (act_of act.entry ∷ []) result (session_of self.new) }
    {
        self.play_act(time, act, writer)?;
        Ok(write_text(writer, self.text.as_bytes())?)
    }

    /// Gathers the output of what a capture says, in place of what was gathered before.
    fn play_act<W: Write>(&mut self, time: &str, act: Act<'_>, writer: &mut W) -> Result<(), Cause>
        ensures { Outputs (W.contents writer.old) (W.contents writer.new)
            (ActGives time.now (session_of self.old) (act_of act.entry)) result
            (string_bytes self.new.text) (session_of self.new) }
    {
        match act {
            Act::Descriptor { device, bytes } => {
                self.turn_to(device, time)?;
                self.describe(bytes, writer)
            }
            Act::Report { device, bytes } => {
                self.turn_to(device, time)?;
                self.report(time, bytes, writer)
            }
            Act::RefusedFrame(refusal) => self.refuse(refusal),
            Act::Disconnection { device } => {
                self.turn_to(device, time)?;
                self.text.clear();
                Ok(self.let_go(Some(device), writer)?)
            }
        }
    }

    /// What comes next is of this device, at this time.
    fn turn_to(&mut self, device: DeviceNumber, time: &str) -> Result<(), AllocError>
        ensures { OnOk result (session_of self.new
            ≡ turned_to (session_of self.old) device.number time.now) }
    {
        self.devices.select(device.number);
        self.set_time(time)
    }

    /// What is printed from now on.
    pub fn set_options(&mut self, options: Options)
        ensures { session_of self.new ≡ with_options (session_of self.old) options }
    {
        self.options = options;
    }

    /// Whether a dump is open.
    pub fn is_open(&self) -> bool
        ensures { result ≡ is_some (session_of self.now).gathered.content }
    {
        self.dump.content.is_some()
    }
}
