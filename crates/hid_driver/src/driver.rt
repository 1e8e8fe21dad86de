//! The host's end of any real device.
ghost use Rattle.std.specs.Prelude.{◌≡◌, ◌≤◌, ◌<◌, ◌+◌, ◌++◌, length, slice_get, vec_len, vec_capacity, None, Ok, Err, IfOk, IfErr, OnOk, OnErr};
ghost use Rattle.hid_driver.specs.Driver.{IsTodo, data_awaited, state_after_outcome, ask_answer, ask_outcome, driver_after_ask, driver_after_protocol, driver_after_report, driver_at_start, driver_asking, events_asking, protocol_answer, protocol_events, protocol_outcome, received_events, report_events, report_outcome};
ghost use Rattle.hid_driver.specs.Interfaces.{AreUnread, SetsReading, all_back_events, pipe_of, total_room};
ghost use Rattle.hid_driver.specs.Requests.{next_state};
ghost use Rattle.hid_driver.specs.Moves.{AnswerMoves, ClearMoves, ConfigurationMoves, ConfigureMoves, DeviceMoves, IdleMoves, LengthMoves, Moves, ProtocolMoves, ReportMoves, answer_result, driver_refused, driver_settled, reading_after_protocol};
ghost use Rattle.hid_driver.specs.declared.interface.Reading.TheVariants.{Open, Refused};
ghost use Rattle.hid_driver.specs.declared.state.DriverState.TheVariants.{Configure};

use crate::answers::{
    NoPipe, configuration_answer, device_answer, interfaces_listed, length_answer, report_answer,
    status_answer,
};
use crate::ask::{Ask, ask_setup};
use crate::fault::{DriverFault, InterfaceCause};
use crate::interface::{Interface, Reading};
use crate::outcome::{DriverEvent, Outcome};
use crate::pipe::{Flow, Pipe, longest_report};
use crate::requests::{next_state, setup_awaited};
use crate::state::{DriverState, Moved};
use hid_snapshots::Event;
use std::alloc::Global;
use std::marker::Model;
use std::mem;
use usb_control::{DeviceInfo, Setup};

/// bInterfaceSubClass of an interface that has the boot protocol (HID 1.11, 4.2).
const BOOT_SUBCLASS: u8 = 1;

/// What a program is to do for a driver.
#[derive(Clone, Copy, Debug)]
pub enum Todo<'a> {
    /// A control transfer of endpoint 0; [`Driver::done`] takes its outcome.
    Control {
        /// The request. A read asks for as many bytes as its `length` says.
        setup: Setup,
        /// What a write sends: `length` bytes.
        data: &'a [u8],
    },
    /// No control transfer.
    Nothing,
}

/// The host's end of a device: it asks for what it needs to know, and reads the reports. A contract sees all but the room.
#[derive(Drop)]
pub struct Driver {
    alloc: Global,
    state: DriverState,
    device: Option<DeviceInfo>,
    interfaces: Vec<Interface>,
    /// How many events a transfer or a reset gives at most.
    max_events: usize,
    /// The data of what is asked for. There is room for the longest report.
    asked: Vec<u8>,
}

impl Model for Driver {
    ghost use Rattle.std.specs.Prelude.{◌≡◌, vec_capacity};
    ghost use Rattle.hid_driver.specs.Driver.{DriverValue};
    ghost use Rattle.hid_driver.specs.Interfaces.{AllFitRoom, total_room};

    ghost Value = { DriverValue };

    ghost view = { λ d. record {
      state = d.state;
      device = d.device;
      interfaces = d.interfaces.items;
      asked = d.asked.items;
    } };

    ghost invariant = { λ d. (total_room d.interfaces.items ≡ d.max_events)
        × AllFitRoom (vec_capacity d.asked) d.interfaces.items };
}

/// Appends the events that lead each interface back to its initial view.
fn release_all(interfaces: &mut Vec<Interface>, out: &mut Vec<DriverEvent>)
    requires room { vec_len out.old + total_room interfaces.old.items ≤ vec_capacity out.old }
    ensures stays { interfaces.new.items ≡ interfaces.old.items }
    ensures events { out.new.items ≡ out.old.items ++ all_back_events 0 interfaces.old.items }
    ensures few { vec_len out.new ≤ vec_len out.old + total_room interfaces.old.items }
    ensures room { vec_capacity out.new ≡ vec_capacity out.old }
{
    for place in 0..interfaces.len() {
        interfaces[place].release(place, out);
    }
}

/// An interface is read, or refused: what the driver waits for then.
fn settle(interfaces: &mut Vec<Interface>, place: usize, reading: Reading) -> DriverState
    requires { place < vec_len interfaces.old }
    ensures interfaces { SetsReading place reading interfaces.old.items interfaces.new.items }
    ensures next { result ≡ next_state interfaces.new.items }
{
    interfaces[place].settle(reading);
    next_state(interfaces)
}

/// A driver goes on after an interrupt transfer: a STALL is to be cleared, unless a request is made already.
#[inline(always)]
fn go_on(state: &mut DriverState, outcome: Outcome<'_>, interfaces: &[Interface])
    ensures { state.new ≡ state_after_outcome state.old outcome.entry interfaces.now }
{
    match outcome {
        Outcome::Stalled => match *state {
            DriverState::Ready => *state = next_state(interfaces),
            _ => {}
        },
        Outcome::Done(_) | Outcome::Failed => {}
    }
}

/// Whether an interface is asked for a protocol in this state.
fn protocol_answer(state: DriverState, interface: &Interface) -> Result<(), DriverFault>
    ensures { result ≡ protocol_answer state interface.now }
{
    if !interface.has_protocol() {
        return Err(DriverFault::NotRead);
    }
    match state {
        DriverState::Ready => {
            if interface.info.subclass != BOOT_SUBCLASS {
                return Err(DriverFault::NoBootProtocol);
            }
            Ok(())
        }
        _ => Err(DriverFault::Busy),
    }
}

/// What is known of an interface that was asked for a protocol.
fn reading_after_protocol(boot: bool, was_boot: bool, outcome: Outcome<'_>) -> Reading
    ensures reading { result ≡ reading_after_protocol boot was_boot outcome.entry }
    ensures shut { pipe_of result ≡ None }
{
    let is_boot = match outcome {
        Outcome::Done(_) => boot,
        Outcome::Stalled => was_boot,
        Outcome::Failed => true,
    };
    if is_boot {
        Reading::Boot
    } else {
        Reading::Waiting
    }
}

/// What is returned of what was asked for.
fn answer_result(status: Result<(), DriverFault>) -> Result<Moved, DriverFault>
    ensures { result ≡ answer_result status }
{
    match status {
        Ok(()) => Ok(Moved::Answered),
        Err(fault) => Err(fault),
    }
}

impl Driver {
    /// A driver that knows nothing of its device. No memory is taken.
    pub fn new(alloc: Global) -> Driver
        ensures { result ≡ driver_at_start }
    {
        Driver {
            alloc,
            state: DriverState::Device,
            device: None,
            interfaces: Vec::new(alloc),
            max_events: 0,
            asked: Vec::new(alloc),
        }
    }

    /// How far it has come with its device.
    pub fn state(&self) -> DriverState
        ensures { result ≡ self.now.state }
    {
        self.state
    }

    /// What the device descriptor says, once it is read.
    pub fn device(&self) -> Option<DeviceInfo>
        ensures { result ≡ self.now.device }
    {
        self.device
    }

    /// The HID interfaces of the configuration, in its order, once it is read.
    pub fn interfaces(&self) -> &[Interface]
        ensures { result.now ≡ self.now.interfaces }
    {
        &self.interfaces
    }

    /// How many events the interfaces give at most, of each as many as one of its reports: room for which [`Driver::receive`],
    /// [`Driver::report`], [`Driver::set_protocol`] and [`Driver::reset`] ask.
    pub fn max_events(&self) -> usize
        ensures { result ≡ total_room self.now.interfaces }
    {
        self.max_events
    }

    /// The data of what is asked for.
    fn data_awaited(&self) -> &[u8]
        ensures { result.now ≡ data_awaited self.now }
    {
        match self.state {
            DriverState::Asked { .. } => &self.asked,
            _ => &[],
        }
    }

    /// The control transfer that is to be made, if any. It stays the same until [`Driver::done`] or [`Driver::reset`].
    pub fn todo(&self) -> Todo<'_>
        ensures { IsTodo self.now result }
    {
        match setup_awaited(self.state, &self.interfaces) {
            Some(setup) => Todo::Control {
                setup,
                data: self.data_awaited(),
            },
            None => Todo::Nothing,
        }
    }

    /// Refuses the device. Where memory ran out it stays as it was.
    fn refuse(&mut self, fault: DriverFault) -> Result<Moved, DriverFault>
        ensures result { result ≡ Err fault }
        ensures after { self.new ≡ driver_refused fault self.old }
    {
        match fault {
            DriverFault::Memory => {}
            _ => self.state = DriverState::Refused,
        }
        Err(fault)
    }

    /// The answer for the device descriptor came.
    fn device_came(&mut self, outcome: Outcome<'_>) -> Result<Moved, DriverFault>
        ensures { DeviceMoves self.old outcome.entry result self.new }
    {
        match device_answer(outcome) {
            Ok(info) => {
                self.device = Some(info);
                self.state = DriverState::Length;
                Ok(Moved::Onward)
            }
            Err(fault) => self.refuse(fault),
        }
    }

    /// The first nine bytes of the configuration came.
    fn length_came(&mut self, outcome: Outcome<'_>) -> Result<Moved, DriverFault>
        ensures { LengthMoves self.old outcome.entry result self.new }
    {
        match length_answer(outcome) {
            Ok(length) => {
                self.state = DriverState::Configuration { length };
                Ok(Moved::Onward)
            }
            Err(fault) => self.refuse(fault),
        }
    }

    /// Its interfaces are these, and the device is to be configured with this number.
    fn list(&mut self, number: u8, interfaces: Vec<Interface>) -> Result<Moved, DriverFault>
        requires { AreUnread interfaces.items }
        ensures result { result ≡ Ok Moved.Onward }
        ensures after { self.new ≡ record self.old {
          state = Configure number;
          interfaces = interfaces.items;
        } }
    {
        drop(mem::replace(&mut self.interfaces, interfaces));
        self.max_events = 0;
        self.state = DriverState::Configure { number };
        Ok(Moved::Onward)
    }

    /// The configuration came.
    fn configuration_came(&mut self, outcome: Outcome<'_>) -> Result<Moved, DriverFault>
        ensures { ConfigurationMoves self.old outcome.entry result self.new }
    {
        let configuration = match configuration_answer(self.alloc, outcome) {
            Ok(configuration) => configuration,
            Err(fault) => return self.refuse(fault),
        };
        let number = configuration.number;
        let listed = interfaces_listed(self.alloc, &configuration.interfaces);
        drop(configuration);
        match listed {
            Ok(interfaces) => self.list(number, interfaces),
            Err(_) => Err(DriverFault::Memory),
        }
    }

    /// The status of SET_CONFIGURATION came.
    fn configured(&mut self, outcome: Outcome<'_>) -> Result<Moved, DriverFault>
        ensures { ConfigureMoves self.old outcome.entry result self.new }
    {
        match status_answer(outcome) {
            Ok(()) => {
                self.state = next_state(&self.interfaces);
                Ok(Moved::Onward)
            }
            Err(fault) => self.refuse(fault),
        }
    }

    /// The status of SET_IDLE came, or none: a device may refuse it (HID 1.11, 7.2.4).
    fn idle_set(&mut self, interface: usize) -> Result<Moved, DriverFault>
        ensures { IdleMoves interface self.old result self.new }
    {
        self.state = DriverState::Report { interface };
        Ok(Moved::Onward)
    }

    /// The reports of an interface are read from now on. The room for what is asked of it is made first.
    fn open(&mut self, interface: usize, pipe: Pipe) -> Result<Moved, DriverFault>
        requires place { interface < length self.old.interfaces }
        ensures ok { IfOk result (λ moved. moved ≡ Moved.Live interface) }
        ensures after { OnOk result (self.new ≡ driver_settled interface (Open pipe) self.old) }
        ensures memory { IfErr result (λ fault. fault ≡ DriverFault.Memory) }
        ensures err { OnErr result (self.new ≡ self.old) }
    {
        let longest = longest_report(pipe.layout());
        let others = self.max_events - self.interfaces[interface].max_events();
        let Some(most) = others.checked_add(pipe.max_events()) else {
            drop(pipe);
            return Err(DriverFault::Memory);
        };
        match self.asked.reserve(longest) {
            Ok(()) => {
                self.max_events = most;
                self.state = settle(&mut self.interfaces, interface, Reading::Open(pipe));
                Ok(Moved::Live { interface })
            }
            Err(_) => {
                drop(pipe);
                Err(DriverFault::Memory)
            }
        }
    }

    /// No reports of an interface are read; the others stay.
    fn close(&mut self, interface: usize, reading: Reading)
        requires place { interface < length self.old.interfaces }
        requires shut { pipe_of reading ≡ None }
        ensures after { self.new ≡ driver_settled interface reading self.old }
    {
        self.max_events -= self.interfaces[interface].max_events();
        self.state = settle(&mut self.interfaces, interface, reading);
    }

    /// An interface can't be read; the others stay.
    fn refuse_interface(
        &mut self,
        interface: usize,
        cause: InterfaceCause,
    ) -> Result<Moved, DriverFault>
        requires place { interface < length self.old.interfaces }
        ensures result { result ≡ Ok (Moved.Refused interface) }
        ensures after { self.new ≡ driver_settled interface (Refused cause) self.old }
    {
        self.close(interface, Reading::Refused(cause));
        Ok(Moved::Refused { interface })
    }

    /// The report descriptor of an interface came.
    fn report_came(&mut self, interface: usize, outcome: Outcome<'_>) -> Result<Moved, DriverFault>
        ensures { ReportMoves interface self.old outcome.entry result self.new }
    {
        if interface >= self.interfaces.len() {
            return Err(DriverFault::NoRequest);
        }
        let info = self.interfaces[interface].info;
        match report_answer(self.alloc, &info, outcome) {
            Ok(pipe) => self.open(interface, pipe),
            Err(NoPipe::Memory) => Err(DriverFault::Memory),
            Err(NoPipe::Refused(cause)) => self.refuse_interface(interface, cause),
        }
    }

    /// The status of CLEAR_FEATURE came.
    fn cleared(&mut self, interface: usize, outcome: Outcome<'_>) -> Result<Moved, DriverFault>
        ensures { ClearMoves interface self.old outcome.entry result self.new }
    {
        if interface >= self.interfaces.len() {
            return Err(DriverFault::NoRequest);
        }
        let (flow, moved) = match outcome {
            Outcome::Done(_) => (Flow::Live, Moved::Cleared { interface }),
            Outcome::Stalled | Outcome::Failed => (Flow::Stopped, Moved::Stopped { interface }),
        };
        self.interfaces[interface].turn(flow);
        self.state = next_state(&self.interfaces);
        Ok(moved)
    }

    /// The status of SET_PROTOCOL came.
    fn protocol_set(
        &mut self,
        interface: usize,
        boot: bool,
        was_boot: bool,
        outcome: Outcome<'_>,
    ) -> Result<Moved, DriverFault>
        ensures { ProtocolMoves interface boot was_boot self.old outcome.entry result self.new }
    {
        if interface >= self.interfaces.len() {
            return Err(DriverFault::NoRequest);
        }
        self.close(interface, reading_after_protocol(boot, was_boot, outcome));
        answer_result(status_answer(outcome))
    }

    /// What was asked for is done, or refused.
    fn answered(&mut self, outcome: Outcome<'_>) -> Result<Moved, DriverFault>
        ensures { AnswerMoves self.old outcome.entry result self.new }
    {
        self.asked.clear();
        self.state = next_state(&self.interfaces);
        answer_result(status_answer(outcome))
    }

    /// What came of the control transfer that was to be made: the driver goes on by the table of [`DriverState`].
    ///
    /// # Errors
    /// [`DriverFault::NoRequest`] where there was none; [`DriverFault::Memory`], and the same transfer is to be made again.
    /// Where the device is refused, the cause: [`DriverFault::Stalled`], [`DriverFault::Failed`],
    /// [`DriverFault::Device`] or [`DriverFault::Configuration`]. Of what was asked for, [`DriverFault::Stalled`] or
    /// [`DriverFault::Failed`].
    pub fn done(&mut self, outcome: Outcome<'_>) -> Result<Moved, DriverFault>
        ensures { Moves self.old outcome.entry result self.new }
    {
        match self.state {
            DriverState::Device => self.device_came(outcome),
            DriverState::Length => self.length_came(outcome),
            DriverState::Configuration { .. } => self.configuration_came(outcome),
            DriverState::Configure { .. } => self.configured(outcome),
            DriverState::Idle { interface } => self.idle_set(interface),
            DriverState::Report { interface } => self.report_came(interface, outcome),
            DriverState::Clear { interface } => self.cleared(interface, outcome),
            DriverState::Protocol {
                interface,
                boot,
                was_boot,
            } => self.protocol_set(interface, boot, was_boot, outcome),
            DriverState::Asked { .. } => self.answered(outcome),
            DriverState::Ready | DriverState::Refused => Err(DriverFault::NoRequest),
        }
    }

    /// Takes what came of an interrupt transfer of the interface at this place: its bytes are joined to what came of a
    /// report before, and a report that ends with them is read. A transfer that failed leaves what came. Its events are those of
    /// this interface alone. There is reserved room for [`Driver::max_events`] more events; no memory is taken. A transfer asks for
    /// a full packet: wMaxPacketSize bytes.
    ///
    /// # Errors
    /// [`DriverFault::NoInterface`]; [`DriverFault::BootProtocol`] where the interface may send boot reports;
    /// [`DriverFault::NotRead`] where it isn't live for another cause; [`DriverFault::LongTransfer`] and
    /// [`DriverFault::Report`] of a report that is thrown away. The view stays.
    pub fn receive(
        &mut self,
        interface: usize,
        outcome: Outcome<'_>,
        out: &mut Vec<Event>,
    ) -> Result<(), DriverFault>
        requires room { vec_len out.old + total_room self.old.interfaces ≤ vec_capacity out.old }
        ensures outcome { result ≡ report_outcome self.old interface outcome.entry }
        ensures after { self.new ≡ driver_after_report self.old interface outcome.entry }
        ensures events { out.new.items
            ≡ out.old.items ++ received_events self.old interface outcome.entry }
        ensures few { vec_len out.new ≤ vec_len out.old + total_room self.old.interfaces }
        ensures room { vec_capacity out.new ≡ vec_capacity out.old }
    {
        if interface >= self.interfaces.len() {
            return Err(DriverFault::NoInterface);
        }
        let told = self.interfaces[interface].hear(outcome, out);
        go_on(&mut self.state, outcome, &self.interfaces);
        told
    }

    /// Does what [`Driver::receive`] does, and gives each event with the place of the interface, so that those of several interfaces
    /// can stand in one list. There is reserved room for [`Driver::max_events`] more events; no memory is taken.
    ///
    /// # Errors
    /// Those of [`Driver::receive`].
    pub fn report(
        &mut self,
        interface: usize,
        outcome: Outcome<'_>,
        out: &mut Vec<DriverEvent>,
    ) -> Result<(), DriverFault>
        requires room { vec_len out.old + total_room self.old.interfaces ≤ vec_capacity out.old }
        ensures outcome { result ≡ report_outcome self.old interface outcome.entry }
        ensures after { self.new ≡ driver_after_report self.old interface outcome.entry }
        ensures events { out.new.items
            ≡ out.old.items ++ report_events self.old interface outcome.entry }
        ensures few { vec_len out.new ≤ vec_len out.old + total_room self.old.interfaces }
        ensures room { vec_capacity out.new ≡ vec_capacity out.old }
    {
        if interface >= self.interfaces.len() {
            return Err(DriverFault::NoInterface);
        }
        let told = self.interfaces[interface].report(interface, outcome, out);
        go_on(&mut self.state, outcome, &self.interfaces);
        told
    }

    /// The request of what is asked of the interface at this place.
    fn asked_setup(&self, interface: usize, ask: &Ask<'_>) -> Result<Setup, DriverFault>
        ensures setup { result ≡ ask_answer self.now interface ask.now }
    {
        let Some(asked) = self.interfaces.get(interface) else {
            return Err(DriverFault::NoInterface);
        };
        let Some(layout) = asked.layout() else {
            return Err(DriverFault::NotRead);
        };
        match self.state {
            DriverState::Ready => ask_setup(&asked.info, layout, ask),
            _ => Err(DriverFault::Busy),
        }
    }

    /// Asks something of the interface at this place, which [`Driver::todo`] gives from now on. The data of a report that is set
    /// are copied; no memory is taken.
    ///
    /// # Errors
    /// The first of these that stands, and nothing changes: [`DriverFault::NoInterface`]; [`DriverFault::NotRead`] where its
    /// report descriptor isn't read, as in the boot protocol; [`DriverFault::Busy`] in another state than `Ready`;
    /// [`DriverFault::NoReport`]; [`DriverFault::TooLong`]; [`DriverFault::WrongId`].
    pub fn ask(&mut self, interface: usize, ask: &Ask<'_>) -> Result<(), DriverFault>
        ensures result { result ≡ ask_outcome (ask_answer self.old interface ask.now) }
        ensures after { self.new ≡ driver_after_ask self.old interface ask.now }
    {
        match self.asked_setup(interface, ask) {
            Ok(setup) => {
                self.asked.clear();
                self.asked.extend_from_slice(ask.data()).unwrap();
                self.state = DriverState::Asked { setup };
                Ok(())
            }
            Err(fault) => Err(fault),
        }
    }

    /// Asks the interface at this place for the boot protocol, or the report protocol, which [`Driver::todo`] gives from now on
    /// (HID 1.11, 7.2.6). What is held of it is released, and its reports aren't read until it took the report protocol, or
    /// refused another one, and its report descriptor is read again. There is reserved room for [`Driver::max_events`] more
    /// events; no memory is taken.
    ///
    /// # Errors
    /// The first of these that stands, and nothing changes: [`DriverFault::NoInterface`]; [`DriverFault::NotRead`] where its
    /// report descriptor isn't read and it isn't in the boot protocol, or where its halt couldn't be cleared;
    /// [`DriverFault::Busy`] in another state than `Ready`; [`DriverFault::NoBootProtocol`].
    pub fn set_protocol(
        &mut self,
        interface: usize,
        boot: bool,
        out: &mut Vec<DriverEvent>,
    ) -> Result<(), DriverFault>
        requires room { vec_len out.old + total_room self.old.interfaces ≤ vec_capacity out.old }
        ensures outcome { result ≡ protocol_outcome self.old interface }
        ensures after { self.new ≡ driver_after_protocol self.old interface boot }
        ensures events { out.new.items ≡ out.old.items ++ protocol_events self.old interface }
        ensures few { vec_len out.new ≤ vec_len out.old + total_room self.old.interfaces }
        ensures room { vec_capacity out.new ≡ vec_capacity out.old }
    {
        if interface >= self.interfaces.len() {
            return Err(DriverFault::NoInterface);
        }
        match protocol_answer(self.state, &self.interfaces[interface]) {
            Ok(()) => {
                self.begin_protocol(interface, boot, out);
                Ok(())
            }
            Err(fault) => Err(fault),
        }
    }

    /// Asks an interface for a protocol: what is held of it is released.
    fn begin_protocol(&mut self, interface: usize, boot: bool, out: &mut Vec<DriverEvent>)
        requires place { interface < length self.old.interfaces }
        requires room { vec_len out.old + total_room self.old.interfaces ≤ vec_capacity out.old }
        ensures after { self.new
            ≡ driver_asking self.old interface boot (slice_get self.old.interfaces interface) }
        ensures events { out.new.items
            ≡ out.old.items ++ events_asking interface (slice_get self.old.interfaces interface) }
        ensures few { vec_len out.new ≤ vec_len out.old + total_room self.old.interfaces }
        ensures room { vec_capacity out.new ≡ vec_capacity out.old }
    {
        let was_boot = self.interfaces[interface].is_boot();
        self.interfaces[interface].release(interface, out);
        self.close(interface, Reading::Boot);
        self.state = DriverState::Protocol {
            interface,
            boot,
            was_boot,
        };
    }

    /// The device was unplugged, or its bus was reset: what is held is released, and values go back to those of the initial view.
    /// The driver knows nothing of its device then. There is reserved room for [`Driver::max_events`] more events; no memory is
    /// taken.
    pub fn reset(&mut self, out: &mut Vec<DriverEvent>)
        requires room { vec_len out.old + total_room self.old.interfaces ≤ vec_capacity out.old }
        ensures after { self.new ≡ driver_at_start }
        ensures events { out.new.items ≡ out.old.items ++ all_back_events 0 self.old.interfaces }
        ensures few { vec_len out.new ≤ vec_len out.old + total_room self.old.interfaces }
        ensures room { vec_capacity out.new ≡ vec_capacity out.old }
    {
        release_all(&mut self.interfaces, out);
        self.interfaces.clear();
        self.max_events = 0;
        self.asked.clear();
        self.device = None;
        self.state = DriverState::Device;
    }
}
