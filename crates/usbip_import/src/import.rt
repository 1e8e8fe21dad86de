//! The host's end of an imported device.
ghost use Rattle.std.specs.Prelude.{◌≡◌, ◌≤◌, ◌<◌, ◌+◌, ◌++◌, length, vec_len, vec_capacity, Ok, Err};
ghost use Rattle.hid_driver.specs.Driver.{ask_answer, ask_outcome, driver_after_ask};
ghost use Rattle.hid_driver.specs.Interfaces.{all_back_events, total_room};
ghost use Rattle.usbip_import.specs.Sending.{RequestSent, Sends, Sent, SubmitSent, control_sending, import_at_start, import_begun, report_sending};
ghost use Rattle.usbip_import.specs.Taking.{Answers, DescriptionCame, HeadCame, HeaderCame, IsOutcomeOf, ReplyTo, Takes, import_ended, is_gone, length_following, wants};

use crate::fault::ImportFault;
use crate::flight::{Flight, Flights, Purpose};
use crate::stage::{Stage, Told};
use crate::submits::{append, control_submit, payload_of, report_due, report_submit, room_of};
use hid_driver::{Ask, Driver, DriverEvent, DriverFault, Outcome, Todo};
use std::alloc::Global;
use usbip::{
    HEADER, Operation, OperationStatus, Reply, Status, Submit, SubmitReply, decode_device_number,
    decode_operation_reply, decode_reply, encode_operation,
};

/// In bytes, the head of a reply to an operation.
const HEAD: usize = 8;

/// In bytes, a device as it is described.
const DESCRIPTION: usize = 312;

/// The host's end of an imported device: one driver, and the submits that carry out what it has to do.
#[derive(Drop)]
pub struct Import {
    driver: Driver,
    stage: Stage,
    /// The number of the device in commands.
    device: u32,
    /// The number of the next submit.
    next: u32,
    flights: Flights,
}

/// What a driver is given of a transfer that ended so, with these bytes.
fn outcome_of<'a>(status: Status, bytes: &'a [u8]) -> Outcome<'a>
    ensures { IsOutcomeOf status bytes.now result }
{
    match status {
        Status::Success => Outcome::Done(bytes),
        Status::Stalled => Outcome::Stalled,
        _ => Outcome::Failed,
    }
}

/// In bytes, the data that follow a reply to a submit in flight.
fn length_following(flight: &Flight, reply: &SubmitReply) -> u32
    ensures { result ≡ length_following flight.now reply.now }
{
    if flight.room == 0 { 0 } else { reply.length }
}

/// Whether a transfer ended because the device is gone.
fn is_gone(status: Status) -> bool
    ensures { result ≡ is_gone status }
{
    matches!(status, Status::Shutdown)
}

impl Import {
    /// An import of the device with this bus ID: text, then zeros. Nothing is sent yet, and no memory is taken.
    pub fn new(alloc: Global, bus_id: &[u8; 32]) -> Import
        ensures { result ≡ import_at_start bus_id.now }
    {
        Import {
            driver: Driver::new(alloc),
            stage: Stage::Start { bus_id: *bus_id },
            device: 0,
            next: 1,
            flights: Flights::new(),
        }
    }

    /// The driver: its interfaces, and how far it has come.
    pub fn driver(&self) -> &Driver
        ensures { result.now ≡ self.now.driver }
    {
        &self.driver
    }

    /// How far the import has come.
    pub fn stage(&self) -> Stage
        ensures { result ≡ self.now.stage }
    {
        self.stage
    }

    /// The submits in flight.
    pub fn flights(&self) -> &Flights
        ensures { result.now ≡ self.now.flights }
    {
        &self.flights
    }

    /// In bytes, what is to be taken next; 0 where nothing comes.
    pub fn wants(&self) -> usize
        ensures { result ≡ wants self.now.stage }
    {
        match self.stage {
            Stage::Start { .. } | Stage::Over => 0,
            Stage::Requested => HEAD,
            Stage::Described => DESCRIPTION,
            Stage::Attached => HEADER,
            Stage::Answering { length, .. } => length as usize,
        }
    }

    /// A submit is in flight.
    fn begin(&mut self, purpose: Purpose, submit: &Submit)
        requires { length self.old.flights < 16 }
        ensures { self.new ≡ import_begun purpose submit.now self.old }
    {
        self.flights.begin(Flight {
            seqnum: submit.seqnum,
            purpose,
            room: room_of(submit),
        });
        self.next = self.next.wrapping_add(1);
    }

    /// Sends the request for the device.
    fn send_request(&mut self, bus_id: &[u8; 32], out: &mut Vec<u8>) -> Result<bool, ImportFault>
        ensures { RequestSent bus_id.now self.old result self.new out.old.items out.new.items }
    {
        if out.reserve(HEAD + bus_id.len()).is_err() {
            return Err(ImportFault::Memory);
        }
        out.extend_from_slice(&encode_operation(Operation::Import))
            .unwrap();
        out.extend_from_slice(bus_id).unwrap();
        self.stage = Stage::Requested;
        Ok(true)
    }

    /// Sends the control transfer that the driver waits for, unless one is in flight.
    fn send_control(&mut self, out: &mut Vec<u8>) -> Result<bool, ImportFault>
        requires { length self.old.flights < 16 }
        ensures { Sends (control_sending self.old) self.old result self.new out.old.items out.new.items }
    {
        if self.flights.asks(Purpose::Control) {
            return Ok(false);
        }
        let Todo::Control { setup, data } = self.driver.todo() else {
            return Ok(false);
        };
        let payload = payload_of(&setup, data);
        let submit = control_submit(self.device, self.next, &setup, payload);
        if append(out, &submit, payload).is_err() {
            return Err(ImportFault::Memory);
        }
        self.begin(Purpose::Control, &submit);
        Ok(true)
    }

    /// Asks for a report of the first interface that is live and isn't asked.
    fn send_report(&mut self, out: &mut Vec<u8>) -> Result<bool, ImportFault>
        requires { length self.old.flights < 16 }
        ensures { Sends (report_sending self.old) self.old result self.new out.old.items out.new.items }
    {
        let Some(due) = report_due(&self.flights, self.driver.interfaces()) else {
            return Ok(false);
        };
        let submit = report_submit(self.device, self.next, &due.endpoint);
        if append(out, &submit, &[]).is_err() {
            return Err(ImportFault::Memory);
        }
        let purpose = Purpose::Report {
            interface: due.interface,
        };
        self.begin(purpose, &submit);
        Ok(true)
    }

    /// Sends the next submit that the driver needs: its control transfer before the reports.
    fn send_submit(&mut self, out: &mut Vec<u8>) -> Result<bool, ImportFault>
        ensures { SubmitSent self.old result self.new out.old.items out.new.items }
    {
        if self.flights.is_full() {
            return Ok(false);
        }
        if self.flights.holds(self.next) {
            self.next = self.next.wrapping_add(1);
            return Ok(false);
        }
        if self.send_control(out)? {
            return Ok(true);
        }
        self.send_report(out)
    }

    /// Appends the bytes of what is to be sent next, and returns whether there was something: the request for the device, and then
    /// the submits that the driver needs. Where [`MAX_FLIGHTS`](crate::MAX_FLIGHTS) submits are in flight, nothing is sent until
    /// one is answered. A number that is in flight still is passed over, and nothing is sent then: the next call sends.
    ///
    /// # Errors
    /// [`ImportFault::Memory`], and nothing changes.
    pub fn send(&mut self, out: &mut Vec<u8>) -> Result<bool, ImportFault>
        ensures { Sent self.old.stage self.old result self.new out.old.items out.new.items }
    {
        match self.stage {
            Stage::Start { bus_id } => self.send_request(&bus_id, out),
            Stage::Attached => self.send_submit(out),
            Stage::Requested | Stage::Described | Stage::Answering { .. } | Stage::Over => {
                Ok(false)
            }
        }
    }

    /// It goes on to a stage.
    fn go(&mut self, stage: Stage) -> Result<Told, ImportFault>
        ensures result { result ≡ Ok Told.Onward }
        ensures after { self.new ≡ record self.old { stage = stage } }
    {
        self.stage = stage;
        Ok(Told::Onward)
    }

    /// It is over.
    fn fail(&mut self, fault: ImportFault) -> Result<Told, ImportFault>
        ensures result { result ≡ Err fault }
        ensures after { self.new ≡ record self.old { stage = Stage.Over } }
    {
        self.stage = Stage::Over;
        Err(fault)
    }

    /// The head of the reply to the request came.
    fn head_came(&mut self, head: &[u8; 8]) -> Result<Told, ImportFault>
        ensures { HeadCame head.now self.old result self.new }
    {
        match decode_operation_reply(Operation::Import, head) {
            Ok(OperationStatus::Success) => self.go(Stage::Described),
            Ok(OperationStatus::Failed) => self.fail(ImportFault::Refused),
            Ok(OperationStatus::Busy) => self.fail(ImportFault::Busy),
            Ok(OperationStatus::NoDevice) => self.fail(ImportFault::NoDevice),
            Err(fault) => self.fail(ImportFault::Message(fault)),
        }
    }

    /// The device came, as it is described.
    fn description_came(&mut self, description: &[u8; 312]) -> Result<Told, ImportFault>
        ensures { DescriptionCame description.now self.old result self.new }
    {
        self.device = decode_device_number(description);
        self.go(Stage::Attached)
    }

    /// A submit is answered: the driver is given its outcome.
    fn answer(
        &mut self,
        flight: &Flight,
        status: Status,
        bytes: &[u8],
        out: &mut Vec<DriverEvent>,
    ) -> Result<Told, ImportFault>
        requires room { vec_len out.old + total_room self.old.driver.interfaces ≤ vec_capacity out.old }
        ensures answers { Answers flight.now status bytes.now self.old result self.new out.old.items out.new.items }
        ensures few { vec_len out.new ≤ vec_len out.old + total_room self.old.driver.interfaces }
        ensures room { vec_capacity out.new ≡ vec_capacity out.old }
    {
        let outcome = outcome_of(status, bytes);
        self.stage = Stage::Attached;
        match flight.purpose {
            Purpose::Control => {
                let result = self.driver.done(outcome);
                Ok(Told::Control { status, result })
            }
            Purpose::Report { interface } => {
                let result = self.driver.report(interface, outcome, out);
                Ok(Told::Report {
                    interface,
                    status,
                    result,
                })
            }
        }
    }

    /// A reply to a submit that was in flight came.
    fn reply_to(
        &mut self,
        flight: &Flight,
        reply: &SubmitReply,
        out: &mut Vec<DriverEvent>,
    ) -> Result<Told, ImportFault>
        requires room { vec_len out.old + total_room self.old.driver.interfaces ≤ vec_capacity out.old }
        ensures reply { ReplyTo flight.now reply.now self.old result self.new out.old.items out.new.items }
        ensures few { vec_len out.new ≤ vec_len out.old + total_room self.old.driver.interfaces }
        ensures room { vec_capacity out.new ≡ vec_capacity out.old }
    {
        let SubmitReply { status, .. } = *reply;
        if is_gone(status) {
            return self.fail(ImportFault::Gone);
        }
        let length = length_following(flight, reply);
        if length > flight.room {
            return self.fail(ImportFault::TooLong);
        }
        if length > 0 {
            return self.go(Stage::Answering {
                flight: *flight,
                status,
                length,
            });
        }
        self.answer(flight, status, &[], out)
    }

    /// The header of a reply came.
    fn header_came(
        &mut self,
        header: &[u8; 48],
        out: &mut Vec<DriverEvent>,
    ) -> Result<Told, ImportFault>
        requires room { vec_len out.old + total_room self.old.driver.interfaces ≤ vec_capacity out.old }
        ensures header { HeaderCame header.now self.old result self.new out.old.items out.new.items }
        ensures few { vec_len out.new ≤ vec_len out.old + total_room self.old.driver.interfaces }
        ensures room { vec_capacity out.new ≡ vec_capacity out.old }
    {
        match decode_reply(header) {
            Ok(Reply::Submit(reply)) => match self.flights.finish(reply.seqnum) {
                Some(flight) => self.reply_to(&flight, &reply, out),
                None => self.fail(ImportFault::UnknownNumber),
            },
            Ok(Reply::Unlink(_)) => self.fail(ImportFault::UnknownNumber),
            Err(fault) => self.fail(ImportFault::Message(fault)),
        }
    }

    /// Takes the bytes that came: exactly [`Import::wants`] of them. There is reserved room for the events of a report,
    /// `max_events` of the driver; no memory is taken, but by the driver for its device.
    ///
    /// # Errors
    /// Why the import is over: nothing is sent and taken any more, and [`Import::end`] releases what is held.
    pub fn take(&mut self, bytes: &[u8], out: &mut Vec<DriverEvent>) -> Result<Told, ImportFault>
        requires exact { length bytes.now ≡ wants self.old.stage }
        requires room { vec_len out.old + total_room self.old.driver.interfaces ≤ vec_capacity out.old }
        ensures takes { Takes self.old.stage bytes.now self.old result self.new out.old.items out.new.items }
        ensures few { vec_len out.new ≤ vec_len out.old + total_room self.old.driver.interfaces }
        ensures room { vec_capacity out.new ≡ vec_capacity out.old }
    {
        match self.stage {
            Stage::Requested => self.head_came(<&[u8; 8]>::try_from(bytes).unwrap()),
            Stage::Described => self.description_came(<&[u8; 312]>::try_from(bytes).unwrap()),
            Stage::Attached => self.header_came(<&[u8; 48]>::try_from(bytes).unwrap(), out),
            Stage::Answering { flight, status, .. } => self.answer(&flight, status, bytes, out),
            Stage::Start { .. } | Stage::Over => Ok(Told::Onward),
        }
    }

    /// Asks something of the interface at this place, as LEDs, which [`Import::send`] sends. No memory is taken.
    ///
    /// # Errors
    /// As `ask` of the driver; it waits for nothing else, so one thing is asked at a time.
    pub fn ask(&mut self, interface: usize, ask: &Ask<'_>) -> Result<(), DriverFault>
        ensures result { result ≡ ask_outcome (ask_answer self.old.driver interface ask.now) }
        ensures after { self.new ≡ record self.old { driver = driver_after_ask self.old.driver interface ask.now } }
    {
        self.driver.ask(interface, ask)
    }

    /// The connection is over, for whatever cause: nothing is in flight any more, and what is held is released. There is reserved
    /// room for `max_events` of the driver more events; no memory is taken.
    pub fn end(&mut self, out: &mut Vec<DriverEvent>)
        requires room { vec_len out.old + total_room self.old.driver.interfaces ≤ vec_capacity out.old }
        ensures after { self.new ≡ import_ended self.old }
        ensures events { out.new.items ≡ out.old.items ++ all_back_events 0 self.old.driver.interfaces }
        ensures few { vec_len out.new ≤ vec_len out.old + total_room self.old.driver.interfaces }
        ensures room { vec_capacity out.new ≡ vec_capacity out.old }
    {
        self.driver.reset(out);
        self.flights.clear();
        self.stage = Stage::Over;
    }
}
