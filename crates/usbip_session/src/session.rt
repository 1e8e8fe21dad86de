//! What stands between two reads or writes of a program.
ghost use Rattle.std.specs.Prelude.{◌≡◌, ◌≤◌, length, drop, IfErr, OnOk};
ghost use Rattle.hid_driver.specs.Asking.{is_report};
ghost use Rattle.hid_driver.specs.Interfaces.{all_back_events};
ghost use Rattle.usbip_import.specs.Sending.{Sent};
ghost use Rattle.usbip_import.specs.Taking.{import_ended, wants};
ghost use Rattle.usbip_session.specs.Ends.{end_after, end_of_stream, has_live, is_live, is_refused, is_unread};
ghost use Rattle.usbip_session.specs.Notices.{notice_of};
ghost use Rattle.usbip_session.specs.Requests.{Asks, first_with_output, has_output, has_output_in, output_id, output_id_at, output_id_of, place_of};
ghost use Rattle.usbip_session.specs.Session.{Lays, TakesBytes, TakesMessage, awaits_answer, is_between, is_control, is_data, is_ready, lacks, session_at_end, session_at_start};
ghost use Rattle.usbip_session.specs.Timers.{answer_of};

use crate::end::End;
use crate::notice::{Notice, notice_of};
use crate::timer::{Answer, answer_of};
use hid_driver::{
    Ask, Driver, DriverEvent, DriverFault, DriverState, Interface, InterfaceState, Layout, Moved,
    ReportKind,
};
use hid_layout::{Limits, Report};
use std::alloc::Global;
use std::marker::Model;
use usbip_import::{Import, ImportFault, Purpose, Stage, Told};

/// The layout of an interface's reports. It outlives the interface, so that what is held at the end can be printed.
#[derive(Drop)]
pub struct Laid {
    /// The place of the interface in the list of the driver.
    pub interface: usize,
    /// The layout of its reports.
    pub layout: Layout,
}

/// A session: an import, what came of the next message, what is still to be sent, whether the last message was the data of an
/// answer, its events, and the layouts of the interfaces that are read.
#[derive(Drop)]
pub struct Session {
    alloc: Global,
    import: Import,
    came: Vec<u8>,
    unsent: Vec<u8>,
    has_data: bool,
    events: Vec<DriverEvent>,
    laid: Vec<Laid>,
}

impl Model for Session {
    ghost use Rattle.usbip_session.specs.Session.{SessionState};

    ghost Value = { SessionState };

    ghost view = { λ s. record {
      import = s.import;
      came = s.came.items;
      unsent = s.unsent.items;
      has_data = s.has_data;
      events = s.events.items;
      laid = s.laid.items;
    } };
}

/// Takes a message that came whole.
fn take_message(
    import: &mut Import,
    message: &[u8],
    events: &mut Vec<DriverEvent>,
) -> Result<Told, ImportFault>
    requires { length message.now ≡ wants import.old.stage }
    ensures { TakesMessage message.now import.old result import.new events.new.items }
{
    events.clear();
    if events.reserve(import.driver().max_events()).is_err() {
        return Err(ImportFault::Memory);
    }
    import.take(message, events)
}

/// Keeps the layout of an interface whose report descriptor was read.
fn lay(
    alloc: Global,
    told: Told,
    descriptor: &[u8],
    laid: &mut Vec<Laid>,
) -> Result<(), ImportFault>
    ensures { OnOk result (Lays told descriptor.now laid.old.items laid.new.items) }
{
    let Told::Control { result, .. } = told else {
        return Ok(());
    };
    let Ok(Moved::Live { interface }) = result else {
        return Ok(());
    };
    match Layout::parse_within(alloc, Limits::Real, descriptor) {
        Ok(layout) => match laid.push(Laid { interface, layout }) {
            Ok(()) => Ok(()),
            Err(_) => Err(ImportFault::Memory),
        },
        Err(_) => Err(ImportFault::Memory),
    }
}

/// Takes back what is held at the end.
fn end_import(import: &mut Import, events: &mut Vec<DriverEvent>) -> Result<(), ImportFault>
    ensures ok { OnOk result (events.new.items ≡ all_back_events 0 import.old.driver.interfaces) }
    ensures ended { OnOk result (import.new ≡ import_ended import.old) }
    ensures memory { IfErr result (λ fault. fault ≡ ImportFault.Memory) }
{
    events.clear();
    if events.reserve(import.driver().max_events()).is_err() {
        return Err(ImportFault::Memory);
    }
    import.end(events);
    Ok(())
}

/// Whether a submit of this purpose is a control transfer.
fn is_control(purpose: Purpose) -> bool
    ensures { result ≡ is_control purpose }
{
    match purpose {
        Purpose::Control => true,
        Purpose::Report { .. } => false,
    }
}

/// Whether what comes in this stage is the data of an answer.
fn is_data(stage: Stage) -> bool
    ensures { result ≡ is_data stage }
{
    match stage {
        Stage::Answering { .. } => true,
        Stage::Start { .. } | Stage::Requested | Stage::Described | Stage::Attached | Stage::Over =>
            false,
    }
}

/// Whether the reports of an interface are read.
fn is_live(interface: &Interface) -> bool
    ensures { result ≡ is_live interface.now }
{
    match interface.state() {
        InterfaceState::Live => true,
        InterfaceState::Waiting
        | InterfaceState::Halted
        | InterfaceState::Stopped
        | InterfaceState::Boot
        | InterfaceState::Refused(_) => false,
    }
}

/// The ID of an Output report with these bytes: the first one, where reports have one.
fn output_id(layout: &Layout, bytes: &[u8]) -> u8
    ensures { result ≡ output_id layout.now bytes.now }
{
    if !layout.numbered() {
        return 0;
    }
    match bytes.first() {
        Some(id) => *id,
        None => 0,
    }
}

/// The ID of an Output report of an interface with these bytes: 0 where its layout isn't known.
fn output_id_of(interface: &Interface, bytes: &[u8]) -> u8
    ensures { result ≡ output_id_of interface.now bytes.now }
{
    match interface.layout() {
        Some(layout) => output_id(layout, bytes),
        None => 0,
    }
}

/// The ID of an Output report of the interface at this place, if there is one.
fn output_id_at(driver: &Driver, place: usize, bytes: &[u8]) -> u8
    ensures { result ≡ output_id_at driver.now place bytes.now }
{
    match driver.interfaces().get(place) {
        Some(interface) => output_id_of(interface, bytes),
        None => 0,
    }
}

/// Whether a report is an Output report with this ID.
fn is_output(report: &Report, id: u8) -> bool
    ensures { result ≡ is_report ReportKind.Output id report.now }
{
    match report.kind {
        ReportKind::Output => report.id == id,
        ReportKind::Input | ReportKind::Feature => false,
    }
}

/// Whether a layout has an Output report with these bytes, by its ID.
fn has_output_in(layout: &Layout, bytes: &[u8]) -> bool
    ensures { result ≡ has_output_in layout.now bytes.now }
{
    let id = output_id(layout, bytes);
    layout.reports().iter().any(|report| is_output(report, id))
}

/// Whether an interface has an Output report with these bytes.
fn has_output(interface: &Interface, bytes: &[u8]) -> bool
    ensures { result ≡ has_output bytes.now interface.now }
{
    match interface.layout() {
        Some(layout) => has_output_in(layout, bytes),
        None => false,
    }
}

/// The place of the first interface that has an Output report with these bytes; 0 where none has.
fn first_with_output(interfaces: &[Interface], bytes: &[u8]) -> usize
    ensures { result ≡ first_with_output interfaces.now bytes.now }
{
    for (place, interface) in interfaces.iter().enumerate() {
        if has_output(interface, bytes) {
            return place;
        }
    }
    0
}

impl Session {
    /// A session about the device with this bus ID: text, then zeros. Nothing is sent yet, and no memory is taken.
    pub fn new(alloc: Global, bus_id: &[u8; 32]) -> Session
        ensures { result ≡ session_at_start bus_id.now }
    {
        Session {
            alloc,
            import: Import::new(alloc, bus_id),
            came: Vec::new(alloc),
            unsent: Vec::new(alloc),
            has_data: false,
            events: Vec::new(alloc),
            laid: Vec::new(alloc),
        }
    }

    /// The driver of the device.
    pub fn driver(&self) -> &Driver
        ensures { result.now ≡ self.now.import.driver }
    {
        self.import.driver()
    }

    /// The events of the last message, or of what was released.
    pub fn events(&self) -> &[DriverEvent]
        ensures { result.now ≡ self.now.events }
    {
        &self.events
    }

    /// The layouts of the interfaces that are read, or were.
    pub fn layouts(&self) -> &[Laid]
        ensures { result.now ≡ self.now.laid }
    {
        &self.laid
    }

    /// In bytes, what the next message lacks; 0 where none comes.
    pub fn lacks(&self) -> usize
        ensures { result ≡ lacks self.now }
    {
        self.import.wants().saturating_sub(self.came.len())
    }

    /// Takes bytes that came, at most as many as the next message lacks. A message that they end is taken as `take` of [`Import`]
    /// says, and what it led to is returned; its events are those of [`Session::events`].
    ///
    /// # Errors
    /// As `take` of [`Import`]; [`ImportFault::Memory`], and the import keeps what is held. The session is to be ended:
    /// [`Session::release`].
    pub fn take(&mut self, bytes: &[u8]) -> Result<Told, ImportFault>
        requires { length bytes.now ≤ lacks self.old }
        ensures { TakesBytes self.old bytes.now result self.new }
    {
        if self.came.extend_from_slice(bytes).is_err() {
            return Err(ImportFault::Memory);
        }
        if self.came.len() != self.import.wants() {
            self.events.clear();
            return Ok(Told::Onward);
        }
        self.has_data = is_data(self.import.stage());
        match take_message(&mut self.import, &self.came, &mut self.events) {
            Ok(told) => match lay(self.alloc, told, &self.came, &mut self.laid) {
                Ok(()) => {
                    self.came.clear();
                    Ok(told)
                }
                Err(_) => Err(ImportFault::Memory),
            },
            Err(fault) => {
                self.came.clear();
                Err(fault)
            }
        }
    }

    /// Adds the next message to what is to be sent, and returns whether there was one.
    ///
    /// # Errors
    /// [`ImportFault::Memory`], and nothing changes.
    pub fn fill(&mut self) -> Result<bool, ImportFault>
        ensures sent { Sent self.old.import.stage self.old.import result self.new.import self.old.unsent self.new.unsent }
        ensures rest { self.new ≡ record self.old { import = self.new.import; unsent = self.new.unsent } }
    {
        self.import.send(&mut self.unsent)
    }

    /// What is still to be sent.
    pub fn unsent(&self) -> &[u8]
        ensures { result.now ≡ self.now.unsent }
    {
        &self.unsent
    }

    /// This many bytes of it were sent.
    pub fn sent(&mut self, count: usize)
        requires { count ≤ length self.old.unsent }
        ensures { self.new ≡ record self.old { unsent = drop count self.old.unsent } }
    {
        self.unsent.drain(..count);
    }

    /// Whether an answer is awaited: that to the request for the device, or to a control transfer. One for a report may take as
    /// long as it will.
    pub fn awaits_answer(&self) -> bool
        ensures { result ≡ awaits_answer self.now }
    {
        let in_flight = self.import.flights().asks(Purpose::Control);
        match self.import.stage() {
            Stage::Start { .. } | Stage::Over => false,
            Stage::Requested | Stage::Described => true,
            Stage::Attached => in_flight,
            Stage::Answering { flight, .. } => is_control(flight.purpose) || in_flight,
        }
    }

    /// Whether nothing of a message came that isn't whole.
    pub fn is_between(&self) -> bool
        ensures { result ≡ is_between self.now }
    {
        match self.import.stage() {
            Stage::Answering { .. } => false,
            Stage::Start { .. }
            | Stage::Requested
            | Stage::Described
            | Stage::Attached
            | Stage::Over => self.came.is_empty(),
        }
    }

    /// Whether the driver waits for nothing, so that something may be asked.
    pub fn is_ready(&self) -> bool
        ensures { result ≡ is_ready self.now }
    {
        match self.import.driver().state() {
            DriverState::Ready => true,
            _ => false,
        }
    }

    /// Whether the device can't be read.
    fn is_refused(&self) -> bool
        ensures { result ≡ is_refused self.now.import.driver.state }
    {
        match self.import.driver().state() {
            DriverState::Refused => true,
            _ => false,
        }
    }

    /// Whether some interface is read.
    fn has_live(&self) -> bool
        ensures { result ≡ has_live self.now.import.driver }
    {
        self.import
            .driver()
            .interfaces()
            .iter()
            .any(|one| is_live(one))
    }

    /// Whether the driver waits for nothing, and no interface is read: nothing will come any more.
    fn is_unread(&self) -> bool
        ensures { result ≡ is_unread self.now.import.driver }
    {
        self.is_ready() && !self.has_live()
    }

    /// What ends the session after a message led to this: the device can't be read, memory ran out, no interface is read, or one is
    /// stopped. What is held of a stopped interface is released at the end alone.
    pub fn end_after(&self, told: Told) -> Option<End>
        ensures { result ≡ end_after told self.now.import.driver }
    {
        let Told::Control { result, .. } = told else {
            return None;
        };
        match result {
            Err(DriverFault::Memory) => Some(End::Import(ImportFault::Memory)),
            Err(fault) if self.is_refused() => Some(End::Device(fault)),
            _ if self.is_unread() => Some(End::Unread),
            Ok(Moved::Stopped { .. }) => Some(End::Stopped),
            _ => None,
        }
    }

    /// What ended the session where the server closed the connection.
    pub fn end_of_stream(&self) -> End
        ensures { result ≡ end_of_stream self.now }
    {
        if self.is_between() && self.is_ready() && !self.awaits_answer() {
            End::Closed
        } else {
            End::Early
        }
    }

    /// What is reported of what the last message led to. Of an answer without data nothing is, as with Linux: a device that ends
    /// its transfers by an empty packet sends one after each report that fills its packets.
    pub fn notice_of(&self, told: Told) -> Option<Notice>
        ensures { result ≡ notice_of told self.now.has_data self.now.import.driver }
    {
        notice_of(told, self.has_data, self.import.driver())
    }

    /// What the last message brought, which led to this: whether a transfer for a report failed, or brought a report that is read.
    pub fn answer_of(&self, told: Told) -> Answer
        ensures { result ≡ answer_of told self.now.has_data }
    {
        answer_of(told, self.has_data)
    }

    /// Asks the interface at this place to take these bytes as an Output report.
    ///
    /// # Errors
    /// As `ask` of `hid_driver`.
    fn request_at(&mut self, place: usize, bytes: &[u8]) -> Result<(), DriverFault>
        ensures { Asks place bytes.now self.old result self.new }
    {
        let ask = Ask::SetReport {
            kind: ReportKind::Output,
            id: output_id_at(self.import.driver(), place, bytes),
            bytes,
        };
        self.import.ask(place, &ask)
    }

    /// Asks an interface to take these bytes as an Output report, with its ID first where reports have one: the interface at this
    /// place, or the first that has such a report.
    ///
    /// # Errors
    /// As `ask` of `hid_driver`: H3 to H7 and H16, and nothing changes.
    pub fn request(&mut self, place: Option<usize>, bytes: &[u8]) -> Result<(), DriverFault>
        ensures { Asks (place_of place self.old.import.driver bytes.now) bytes.now self.old result
            self.new }
    {
        let place = match place {
            Some(place) => place,
            None => first_with_output(self.import.driver().interfaces(), bytes),
        };
        self.request_at(place, bytes)
    }

    /// The session is over: nothing is awaited and nothing is sent any more, and what is held is released, as the events say.
    ///
    /// # Errors
    /// [`ImportFault::Memory`] where there is no room for the events.
    pub fn release(&mut self) -> Result<(), ImportFault>
        ensures released { OnOk result (self.new ≡ session_at_end self.old) }
        ensures memory { IfErr result (λ fault. fault ≡ ImportFault.Memory) }
    {
        match end_import(&mut self.import, &mut self.events) {
            Ok(()) => {
                self.came.clear();
                self.unsent.clear();
                Ok(())
            }
            Err(fault) => Err(fault),
        }
    }
}
