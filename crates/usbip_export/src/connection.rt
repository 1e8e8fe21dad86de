//! A connection of a host to exported devices.
ghost use Rattle.std.specs.Prelude.{◌≡◌, ◌≤◌, ◌<◌, ◌==◌, IfOk, length, slice_get};
ghost use Rattle.hid_gadget.specs.Rooms.{with_front};
ghost use Rattle.usbip.specs.Messages.{data_length};
ghost use Rattle.usbip_export.specs.declared.description.TheConstants.{MAX_DEVICES};
ghost use Rattle.usbip_export.specs.declared.exported_device.TheConstants.{MAX_ANSWER};
ghost use Rattle.usbip_export.specs.Connections.{IsLeft, Takes, TakesHead, TakesHeader, after_bus_id, after_command, after_import_of, after_submit, after_unlink_of, bytes_wanted, devices_after_end, devices_after_report, length_of, named_device, place_of_stage, report_answer, status_at, status_at_data};
ghost use Rattle.usbip_export.specs.Descriptions.{device_number, refused_import_bytes};

use crate::answer::Answer;
use crate::description::{HEAD, import_reply, list, named_place};
use crate::exported_device::ExportedDevice;
use crate::fault::ExportFault;
use usbip::{
    Command, Direction, HEADER, Operation, OperationStatus, Submit, Unlink, decode_command,
    decode_operation, encode_operation_reply,
};

/// In bytes, a bus ID.
const BUS_ID: usize = 32;

/// The number by which commands name the first device.
const FIRST_NUMBER: usize = 65_538;

/// How far a connection has come.
/// ```text
///   stage       takes next                           leads on
///   Operation   8 bytes: an operation                of an import BusId, of a list Over
///   BusId       32 bytes: the bus ID of a device     Command; Over where the device isn't given
///   Command     48 bytes: a command for the device   Data, where a submit sends some; else Command
///   Data        the data of the submit               Command
///   Over        nothing
/// ```
/// Bytes that are refused lead to Over from everywhere.
#[derive(Clone, Copy, Debug, PartialEq, Eq)]
pub enum Stage {
    /// Nothing is imported.
    Operation,
    /// A device is asked for.
    BusId,
    /// The host has the device at this place.
    Command(usize),
    /// The host has the device at this place, and sends the data of this submit.
    Data(usize, Submit),
    /// It is over.
    Over,
}

impl Stage {
    /// The place of the device that a connection at this stage has, if it has one.
    pub fn place(&self) -> Option<usize>
        ensures { result ≡ place_of_stage self.now }
    {
        match self {
            Stage::Command(place) | Stage::Data(place, _) => Some(*place),
            Stage::Operation | Stage::BusId | Stage::Over => None,
        }
    }
}

/// A connection of a host to exported devices.
#[derive(Drop)]
pub struct Connection {
    stage: Stage,
}

/// Writes bytes to the front of a room, and gives how many.
fn put(bytes: &[u8], room: &mut [u8]) -> usize
    requires { length bytes.now ≤ length room.old }
    ensures count { result ≡ length bytes.now }
    ensures room { room.new ≡ with_front bytes.now room.old }
{
    room[..bytes.len()].copy_from_slice(bytes);
    bytes.len()
}

/// The number of the device that a command names.
fn named_device(command: &Command) -> u32
    ensures { result ≡ named_device command.now }
{
    match command {
        Command::Submit(submit) => submit.device,
        Command::Unlink(unlink) => unlink.device,
    }
}

/// Whether a command names the device at a place.
fn is_for(place: usize, command: &Command) -> bool
    ensures { result ≡ (named_device command.now == device_number place) }
{
    let number = named_device(command) as usize;
    number >= FIRST_NUMBER && number - FIRST_NUMBER == place
}

/// In bytes, the data that follow the header of a submit.
fn data_after(submit: &Submit) -> usize
    ensures { result ≡ data_length submit.now.direction submit.now.length }
{
    match submit.direction {
        Direction::Out => submit.length as usize,
        Direction::In => 0,
    }
}

impl Connection {
    /// A connection of which nothing came yet.
    pub fn new() -> Connection
        ensures { result.stage ≡ Stage.Operation }
    {
        Connection {
            stage: Stage::Operation,
        }
    }

    /// How far it has come.
    pub fn stage(&self) -> Stage
        ensures { result ≡ self.now.stage }
    {
        self.stage
    }

    /// In bytes, what it takes next; 0 where it is over.
    pub fn wants(&self) -> usize
        ensures { result ≡ bytes_wanted self.now.stage }
    {
        match self.stage {
            Stage::Operation => HEAD,
            Stage::BusId => BUS_ID,
            Stage::Command(_) => HEADER,
            Stage::Data(_, submit) => data_after(&submit),
            Stage::Over => 0,
        }
    }

    /// Takes as many bytes as it [wants](Self::wants), for devices that are the same in each call, and gives how many bytes of an
    /// answer stand at the front of the room. 0: nothing is to be sent yet. Where the list of devices got shorter, and that of the
    /// connection isn't in it any more, the connection is over at its next submit or unlink, and nothing is sent.
    ///
    /// # Errors
    /// Where the bytes are refused, the first [`ExportFault`] that stands. The connection is over then, and nothing is sent.
    pub fn take(
        &mut self,
        devices: &mut [ExportedDevice],
        bytes: &[u8],
        room: &mut [u8],
    ) -> Result<usize, ExportFault>
        requires few { length devices.old ≤ MAX_DEVICES }
        requires wanted { length bytes.now ≡ bytes_wanted self.old.stage }
        requires room { MAX_ANSWER ≤ length room.old }
        ensures taken { Takes self.old.stage devices.old bytes.now room.old result self.new.stage devices.new room.new }
    {
        match self.answer(devices, bytes, room) {
            Ok(answer) => Ok(answer.length),
            Err(fault) => Err(fault),
        }
    }

    /// As [`take`](Self::take), with the status of the answer beside its length.
    ///
    /// # Errors
    /// As [`take`](Self::take).
    pub fn answer(
        &mut self,
        devices: &mut [ExportedDevice],
        bytes: &[u8],
        room: &mut [u8],
    ) -> Result<Answer, ExportFault>
        requires few { length devices.old ≤ MAX_DEVICES }
        requires wanted { length bytes.now ≡ bytes_wanted self.old.stage }
        requires room { MAX_ANSWER ≤ length room.old }
        ensures taken { Takes self.old.stage devices.old bytes.now room.old (length_of result) self.new.stage
            devices.new room.new }
        ensures status { IfOk result (λ answer. answer.status ≡ status_at_data devices.old self.old.stage) }
    {
        let length = match self.stage {
            Stage::Operation => self.take_head(devices, bytes, room)?,
            Stage::BusId => self.take_bus_id(devices, bytes, room),
            Stage::Command(place) => self.take_header(devices, place, bytes, room)?,
            Stage::Data(place, submit) => return Ok(self.take_submit(
                devices, place, &submit, bytes, room,
            )),
            Stage::Over => 0,
        };
        Ok(Answer {
            length,
            status: None,
        })
    }

    /// Asks the device that it has for a report, and gives how many bytes of the answer stand at the front of the room. 0: no submit
    /// waits, or no report is due.
    pub fn report(&self, devices: &mut [ExportedDevice], room: &mut [u8]) -> usize
        requires { MAX_ANSWER ≤ length room.old }
        ensures devices { devices.new ≡ devices_after_report devices.old self.now.stage }
        ensures count { result ≡ length (report_answer devices.old self.now.stage) }
        ensures room { room.new ≡ with_front (report_answer devices.old self.now.stage) room.old }
    {
        match self.stage.place() {
            Some(place) if place < devices.len() => devices[place].report(room),
            _ => 0,
        }
    }

    /// It ends: what waits at its device is forgotten, and another connection may have that.
    pub fn end(&mut self, devices: &mut [ExportedDevice])
        ensures stage { self.new.stage ≡ Stage.Over }
        ensures devices { devices.new ≡ devices_after_end devices.old self.old.stage }
    {
        if let Some(place) = self.stage.place()
            && place < devices.len()
        {
            devices[place].end();
        }
        self.stage = Stage::Over;
    }
}

impl Connection {
    /// Takes the head of an operation.
    fn take_head(
        &mut self,
        devices: &[ExportedDevice],
        bytes: &[u8],
        room: &mut [u8],
    ) -> Result<usize, ExportFault>
        requires few { length devices.now ≤ MAX_DEVICES }
        requires wanted { length bytes.now ≡ 8 }
        requires room { MAX_ANSWER ≤ length room.old }
        ensures { TakesHead devices.now bytes.now room.old result self.new.stage devices.now room.new }
    {
        let mut head = [0; HEAD];
        head.copy_from_slice(bytes);
        self.stage = Stage::Over;
        match decode_operation(&head) {
            Ok(Operation::DeviceList) => Ok(put(&list(devices), room)),
            Ok(Operation::Import) => {
                self.stage = Stage::BusId;
                Ok(0)
            }
            Err(fault) => Err(ExportFault::Message(fault)),
        }
    }

    /// Takes a bus ID.
    fn take_bus_id(
        &mut self,
        devices: &mut [ExportedDevice],
        bytes: &[u8],
        room: &mut [u8],
    ) -> usize
        requires few { length devices.old ≤ MAX_DEVICES }
        requires wanted { length bytes.now ≡ 32 }
        requires room { MAX_ANSWER ≤ length room.old }
        ensures { IsLeft (after_bus_id devices.old bytes.now) room.old result self.new.stage devices.new room.new }
    {
        let mut id = [0; BUS_ID];
        id.copy_from_slice(bytes);
        match named_place(&id) {
            Some(place) if place < devices.len() => self.import(devices, place, room),
            _ => self.refuse(OperationStatus::NoDevice, room),
        }
    }

    /// Gives the host a device, if nobody has it.
    fn import(&mut self, devices: &mut [ExportedDevice], place: usize, room: &mut [u8]) -> usize
        requires few { length devices.old ≤ MAX_DEVICES }
        requires place { place < length devices.old }
        requires room { MAX_ANSWER ≤ length room.old }
        ensures { IsLeft (after_import_of devices.old place (slice_get devices.old place)) room.old result
            self.new.stage devices.new room.new }
    {
        if devices[place].is_imported() {
            return self.refuse(OperationStatus::Busy, room);
        }
        let reply = import_reply(place, &devices[place]);
        devices[place].import();
        self.stage = Stage::Command(place);
        put(&reply, room)
    }

    /// Refuses an import.
    fn refuse(&mut self, status: OperationStatus, room: &mut [u8]) -> usize
        requires room { MAX_ANSWER ≤ length room.old }
        ensures stage { self.new.stage ≡ Stage.Over }
        ensures count { result ≡ length (refused_import_bytes status) }
        ensures room { room.new ≡ with_front (refused_import_bytes status) room.old }
    {
        self.stage = Stage::Over;
        put(&encode_operation_reply(Operation::Import, status), room)
    }

    /// Takes the header of a command for the device at a place.
    fn take_header(
        &mut self,
        devices: &mut [ExportedDevice],
        place: usize,
        bytes: &[u8],
        room: &mut [u8],
    ) -> Result<usize, ExportFault>
        requires stage { self.old.stage ≡ Stage.Command place }
        requires wanted { length bytes.now ≡ 48 }
        requires room { MAX_ANSWER ≤ length room.old }
        ensures { TakesHeader place devices.old bytes.now room.old result self.new.stage devices.new room.new }
    {
        let mut header = [0; HEADER];
        header.copy_from_slice(bytes);
        match decode_command(&header) {
            Ok(command) if is_for(place, &command) => Ok(self.take_command(
                devices, place, &command, room,
            )),
            Ok(_) => {
                self.end(devices);
                Err(ExportFault::OtherDevice)
            }
            Err(fault) => {
                self.end(devices);
                Err(ExportFault::Message(fault))
            }
        }
    }

    /// Takes a command for the device at a place.
    fn take_command(
        &mut self,
        devices: &mut [ExportedDevice],
        place: usize,
        command: &Command,
        room: &mut [u8],
    ) -> usize
        requires { MAX_ANSWER ≤ length room.old }
        ensures { IsLeft (after_command devices.old place command.now) room.old result self.new.stage devices.new room.new }
    {
        match command {
            Command::Submit(submit) if data_after(submit) != 0 => {
                self.stage = Stage::Data(place, *submit);
                0
            }
            Command::Submit(submit) => self.take_submit(devices, place, submit, &[], room).length,
            Command::Unlink(unlink) => self.take_unlink(devices, place, unlink, room),
        }
    }

    /// Takes a submit with its data for the device at a place.
    fn take_submit(
        &mut self,
        devices: &mut [ExportedDevice],
        place: usize,
        submit: &Submit,
        sent: &[u8],
        room: &mut [u8],
    ) -> Answer
        requires sent { length sent.now ≡ data_length submit.now.direction submit.now.length }
        requires room { MAX_ANSWER ≤ length room.old }
        ensures left { IsLeft (after_submit devices.old place submit.now sent.now) room.old result.length self.new.stage
            devices.new room.new }
        ensures status { result.status ≡ status_at submit.now (slice_get devices.old place) }
    {
        if place >= devices.len() {
            self.stage = Stage::Over;
            return Answer {
                length: 0,
                status: None,
            };
        }
        self.stage = Stage::Command(place);
        devices[place].submit(submit, sent, room)
    }

    /// Takes an unlink for the device at a place.
    fn take_unlink(
        &mut self,
        devices: &mut [ExportedDevice],
        place: usize,
        unlink: &Unlink,
        room: &mut [u8],
    ) -> usize
        requires { MAX_ANSWER ≤ length room.old }
        ensures { IsLeft (after_unlink_of devices.old place unlink.now (slice_get devices.old place)) room.old result
            self.new.stage devices.new room.new }
    {
        if place >= devices.len() {
            self.stage = Stage::Over;
            return 0;
        }
        self.stage = Stage::Command(place);
        devices[place].unlink(unlink, room)
    }
}
