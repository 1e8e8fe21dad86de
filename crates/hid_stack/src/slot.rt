//! A device of the bus with its host.
ghost use Rattle.hid_device.specs.Device.{core_of};
ghost use Rattle.std.specs.Prelude.{◌≡◌, ◌≢◌, ◌⊎◌, ◌≤◌, ◌+◌, ◌++◌, ◌<◌, ℕ, List, map, length, Ok, Err, Some, None, IfOk, IfErr, OnOk, OnErr, vec_len, vec_capacity};
ghost use Rattle.hid_layout.specs.Controls.{items_of, max_events};
ghost use Rattle.hid_layout.specs.Layout.{Contents};
ghost use Rattle.hid_snapshots.specs.Snapshots.{Changes};
ghost use Rattle.hid_bus.specs.Motion.{HasMotions};
ghost use Rattle.hid_bus.specs.Rounds.{Polls, Changes as ChangeStep, Frame as FrameStep};
ghost use Rattle.hid_device.specs.declared.config.Config.{Config as ConfigValue};
ghost use Rattle.hid_device.specs.Core.{IsSound};
ghost use Rattle.hid_device.specs.Creation.{MakesDevice, Refuses};
ghost use Rattle.usb_packet.specs.declared.packet.TheConstants.{MAX_ADDRESS as GREATEST};
ghost use Rattle.hid_requests.specs.RequestSetup.{FitsRequest};
ghost use Rattle.hid_stack.specs.Attaching.{CanAttach, IsAttachFault, device_refusal, member_at_start};
ghost use Rattle.hid_host.specs.declared.fault.StackFault.{StackFault as Refusal};
ghost use Rattle.hid_host.specs.Host.{may_abort_round, running};
ghost use Rattle.hid_host.specs.declared.phase.HostState.TheVariants.{Ready as ReadyState};
ghost use Rattle.hid_stack.specs.Members.{Member, Scheduled, Begins, Controls, Halts, Resets, begin_refusal_at, cold_member, bus_event_of_step, events_of_event_if, fresh_member, member_after, polls_it};
ghost use Rattle.hid_stack.specs.HostInvariant.{IsConsistent};
ghost use Rattle.hid_stack.specs.Slot.{AreConsistentEnds, TriesTransfer, pair_member};
ghost use Rattle.hid_bus.specs.declared.step.Told.TheVariants as Tellings;
ghost use Rattle.hid_stack.specs.Rig.{HasRoomToTry, NeedsNoRoom, max_events_of_try, member_at, poll_refusal, with_device_number, with_member};
ghost use Rattle.hid_stack.specs.Steps.{HasReportedNothing, StepsTo, device_of_step};
ghost use Rattle.hid_stack.specs.Sums.{AbortsByRequest, IsBetween};
ghost use Rattle.hid_stack.specs.Accessors.{ShowsDevice, ShowsHost};
ghost use Rattle.hid_stack.specs.StepResult.{PollReturns};

use crate::halts::halt_pair;
use crate::polls::poll_pair;
use crate::resets::reset_pair;
use crate::transfers::control_pair;
use hid_bus::{Delivered, Start, Step, Told};
use hid_device::{Config, Device, DeviceCause, DeviceFault};
use hid_host::{DescriptorFault, HostDevice, StackFault};
use hid_layout::Layout;
use hid_layout::laws::{accepted_or_refused, one_reading};
use hid_requests::Request;
use hid_snapshots::{Change, ChangeFault, Event};
use std::alloc::Global;
use std::marker::Model;
use usb_control::Progress;
use usb_packet::MAX_ADDRESS;
use usb_transact::Fate;

/// A device, its host, and the room for what one poll gives. A contract sees it as one member of the bus.
#[derive(Drop)]
pub struct Slot {
    device: Device,
    host: HostDevice,
    events: Vec<Event>,
    /// How many events a step of the two gives at most.
    most_events: usize,
}

impl Model for Slot {
    ghost use Rattle.std.specs.Prelude.{◌≡◌, vec_capacity};
    ghost use Rattle.hid_layout.specs.Controls.{items_of, max_events};
    ghost use Rattle.hid_stack.specs.HostInvariant.{IsConsistent};
    ghost use Rattle.hid_stack.specs.Members.{Member};
    ghost use Rattle.hid_stack.specs.Slot.{AreConsistentEnds, pair_member};

    ghost Value = { Member };

    ghost view = { λ s. pair_member s.device s.host };

    ghost invariant = { λ s. AreConsistentEnds s.device s.host.clearing s.host.phase
        × IsConsistent s.host s.device.control
        × (s.host.addr ≡ s.device.addr)
        × (vec_capacity s.events ≡ max_events (items_of s.device.control.requests.layout))
        × (s.most_events ≡ max_events (items_of s.device.control.requests.layout)) };
}

/// The fault of a rig that can't make a device.
fn attach_fault(fault: DeviceFault) -> StackFault
    ensures told { result ≡ device_refusal fault }
    ensures explained { (addr : ℕ) (config : ConfigValue) (bytes : List ℕ)
        → Refuses addr config bytes fault.cause fault.at → IsAttachFault addr config bytes result }
{
    let is_memory = match fault.cause {
        DeviceCause::Memory => true,
        DeviceCause::Layout(cause) => cause.is_memory(),
        DeviceCause::BadConfig | DeviceCause::NoEmptyCode | DeviceCause::RelativeWithoutZero =>
            false,
    };
    if is_memory {
        StackFault::Memory
    } else {
        StackFault::BadDescriptor(DescriptorFault::Device(fault))
    }
}

/// A new device.
fn new_device(
    alloc: Global,
    addr: u8,
    config: &Config,
    descriptor: &[u8],
) -> Result<Device, StackFault>
    ensures made { IfOk result (λ device. MakesDevice addr config.now descriptor.now (Ok device)) }
    ensures sound { IfOk result (λ device. IsSound (core_of device)) }
    ensures address { IfOk result (λ _. (0 < addr) × (addr ≤ GREATEST)) }
    ensures refused { IfErr result (λ fault. IsAttachFault addr config.now descriptor.now fault) }
{
    match Device::new(alloc, addr, config, descriptor) {
        Ok(device) => {
            // For the prover: what holds of every device.
            is_sound(&device);

            Ok(device)
        }
        Err(fault) => Err(attach_fault(fault)),
    }
}

// For the prover: what holds of every device.
pub(crate) fn is_sound(device: &Device)
    ensures { IsSound (core_of device.now) }
{
    let _layout = device.layout();
}

impl Slot {
    /// A device at this address and its host, configured or cold as `start` says.
    pub(crate) fn new(
        alloc: Global,
        addr: u8,
        config: &Config,
        descriptor: &[u8],
        start: Start,
    ) -> Result<Slot, StackFault>
        ensures begins { IfOk result (λ slot. (layout : Contents)
            × CanAttach addr config.now descriptor.now layout
            × (slot ≡ member_at_start start addr config.now descriptor.now layout)) }
        ensures refused { IfErr result (λ fault. IsAttachFault addr config.now descriptor.now fault) }
    {
        match start {
            Start::Ready => Slot::ready(alloc, addr, config, descriptor),
            Start::Cold => Slot::cold(alloc, addr, config, descriptor),
        }
    }

    /// A device at this address and its host, both freshly configured.
    fn ready(
        alloc: Global,
        addr: u8,
        config: &Config,
        descriptor: &[u8],
    ) -> Result<Slot, StackFault>
        ensures ready { IfOk result (λ slot. (layout : Contents)
            × CanAttach addr config.now descriptor.now layout
            × (slot ≡ fresh_member addr config.now descriptor.now layout)) }
        ensures refused { IfErr result (λ fault. IsAttachFault addr config.now descriptor.now fault) }
    {
        // For the prover: both ends read the descriptor in one way.
        one_reading();
        accepted_or_refused();

        let mut device = new_device(alloc, addr, config, descriptor)?;
        device.configure();

        // For the prover: what holds of every device.
        is_sound(&device);

        match HostDevice::ready(alloc, addr, descriptor) {
            Ok(host) => Slot::of(alloc, device, host),
            Err(fault) => {
                drop(device);
                Err(fault)
            }
        }
    }

    /// A new device at this address, and a host that knows nothing of it yet.
    fn cold(alloc: Global, addr: u8, config: &Config, descriptor: &[u8]) -> Result<Slot, StackFault>
        ensures cold { IfOk result (λ slot. (layout : Contents)
            × CanAttach addr config.now descriptor.now layout
            × (slot ≡ cold_member addr config.now descriptor.now layout)) }
        ensures refused { IfErr result (λ fault. IsAttachFault addr config.now descriptor.now fault) }
    {
        let device = new_device(alloc, addr, config, descriptor)?;
        Slot::of(alloc, device, HostDevice::cold(alloc, addr))
    }

    /// A device and its host, with room for what a step of the two gives.
    fn of(alloc: Global, device: Device, host: HostDevice) -> Result<Slot, StackFault>
        requires together { AreConsistentEnds device host.clearing host.phase }
        requires knows { IsConsistent host device.control }
        requires home { host.addr ≡ device.addr }
        ensures joins { IfOk result (λ slot. slot ≡ pair_member device host) }
        ensures memory { IfErr result (λ fault. fault ≡ Refusal.Memory) }
    {
        let most_events = device.layout().max_events();
        match Vec::with_capacity(alloc, most_events) {
            Ok(events) => Ok(Slot {
                device,
                host,
                events,
                most_events,
            }),
            Err(_) => {
                drop(device);
                drop(host);
                Err(StackFault::Memory)
            }
        }
    }

    /// Changes a control of the device. A change that is refused changes nothing.
    pub(crate) fn change(&mut self, change: Change) -> Result<(), ChangeFault>
        ensures changes { Changes
            (items_of self.old.layout) self.old.link.reports.snapshot change result
            self.new.link.reports.snapshot }
        ensures after { self.new ≡ member_after self.old (Scheduled (ChangeStep change)) }
    {
        self.device.change(change)
    }

    /// A frame passes.
    pub(crate) fn frame(&mut self)
        ensures { self.new ≡ member_after self.old (Scheduled FrameStep) }
    {
        self.device.frame();
    }

    /// The layout of the device's reports.
    pub(crate) fn layout(&self) -> &Layout
        ensures { result.now ≡ self.now.layout }
    {
        self.device.layout()
    }

    /// The device.
    pub(crate) fn device(&self) -> &Device
        ensures { ShowsDevice self.now result.now }
    {
        &self.device
    }

    /// The host of the device.
    #[inline(always)] // as `Rig::step`
    pub(crate) fn host(&self) -> &HostDevice
        ensures shows { ShowsHost self.now result.now }
        // A host that isn't ready has reported nothing.
        ensures unready { self.now.host ≢ ReadyState → HasReportedNothing self.now }
    {
        &self.host
    }

    /// A step of the bus that names this device. In a step that names none a frame passes.
    #[inline(always)] // as `Rig::step`
    pub(crate) fn step(&mut self, step: &Step, out: &mut Vec<Delivered>) -> Result<Told, StackFault>
        ensures steps { (members : List Member) (dev : ℕ)
            → device_of_step step.now ≡ Some dev → member_at members dev ≡ Some self.old
            → StepsTo members (with_member members dev self.new) step.now result
            out.old.items out.new.items (vec_len out.old) (vec_len out.new)
            (vec_capacity out.old) (vec_capacity out.new) }
        ensures keeps { NeedsNoRoom step.now → vec_capacity out.new ≡ vec_capacity out.old }
        ensures motions { HasMotions (items_of self.old.layout) self.old.link
            → HasMotions (items_of self.new.layout) self.new.link }
    {
        match *step {
            Step::Change { change, .. } => match self.change(change) {
                Ok(()) => Ok(Told::Quiet),
                Err(fault) => Err(StackFault::Refused(fault)),
            },
            Step::Frame => {
                self.frame();
                Ok(Told::Quiet)
            }
            Step::Poll { dev, fate } => self.poll(dev, fate, out),
            Step::Begin { ref request, .. } => match self.begin(request) {
                Ok(()) => Ok(Told::Quiet),
                Err(fault) => Err(fault),
            },
            Step::Control { dev, fate } => match self.control(dev, fate, out) {
                Ok(progress) => Ok(Told::Transfer(progress)),
                Err(fault) => Err(fault),
            },
            Step::Halt { dev } => self.halt(dev, out),
            Step::Reset { dev } => self.reset(dev, out),
        }
    }

    // `inline(never)` below: so a step has only its own locals on the stack.

    /// The host polls the device, and the poll has this fate. The room for what it gives is reserved first.
    #[inline(never)]
    pub(crate) fn poll(
        &mut self,
        dev: u8,
        fate: Fate,
        out: &mut Vec<Delivered>,
    ) -> Result<Told, StackFault>
        ensures told { IfOk result (λ told. PollReturns self.old.layout self.old.link fate told) }
        ensures after { OnOk result (self.new ≡ member_after self.old (Scheduled (Polls fate))) }
        ensures events { OnOk result (out.new.items
            ≡ out.old.items
            ++ map (with_device_number dev)
            (events_of_event_if (items_of self.old.layout) self.old.link
            (bus_event_of_step self.old (Scheduled (Polls fate))))) }
        ensures refused { (e : Refusal) → poll_refusal (polls_it self.old) ≡ Some e → result ≡ Err e }
        ensures only { IfErr result (λ fault. (poll_refusal (polls_it self.old) ≡ Some fault)
            ⊎ ((poll_refusal (polls_it self.old) ≡ None) × (fault ≡ Refusal.Memory))) }
        ensures err { OnErr result ((self.new ≡ self.old) × (out.new.items ≡ out.old.items)) }
        ensures room { vec_len out.old + max_events (items_of self.old.layout)
            ≤ vec_capacity out.old → result ≢ Err Refusal.Memory }
        ensures few { vec_len out.new ≤ vec_len out.old + max_events (items_of self.old.layout) }
        ensures capacity { vec_capacity out.old ≤ vec_capacity out.new }
    {
        if !self.host.may_poll() {
            return Err(StackFault::NotReady);
        }
        if out.reserve(self.most_events).is_err() {
            return Err(StackFault::Memory);
        }
        let told = poll_pair(fate, &mut self.device, &mut self.host, &mut self.events);
        deliver(dev, &self.events, out);
        Ok(told)
    }

    /// The bus of the device is reset. The room for the events is reserved first.
    #[inline(never)]
    pub(crate) fn reset(&mut self, dev: u8, out: &mut Vec<Delivered>) -> Result<Told, StackFault>
        ensures told { IfOk result (λ told. told ≡ Tellings.Quiet) }
        ensures after { OnOk result (self.new ≡ member_after self.old Resets) }
        ensures events { OnOk result (out.new.items
            ≡ out.old.items
            ++ map (with_device_number dev)
            (events_of_event_if (items_of self.old.layout) self.old.link
            (bus_event_of_step self.old Resets))) }
        ensures only { IfErr result (λ fault. fault ≡ Refusal.Memory) }
        ensures err { OnErr result ((self.new ≡ self.old) × (out.new.items ≡ out.old.items)) }
        ensures room { vec_len out.old + max_events (items_of self.old.layout)
            ≤ vec_capacity out.old → result ≢ Err Refusal.Memory }
        ensures few { vec_len out.new ≤ vec_len out.old + max_events (items_of self.old.layout) }
        ensures capacity { vec_capacity out.old ≤ vec_capacity out.new }
    {
        if out.reserve(self.most_events).is_err() {
            return Err(StackFault::Memory);
        }
        reset_pair(&mut self.device, &mut self.host, &mut self.events);
        deliver(dev, &self.events, out);
        Ok(Told::Quiet)
    }

    /// The device halts its endpoint by itself. The room for what this drops is reserved first.
    #[inline(never)]
    pub(crate) fn halt(&mut self, dev: u8, out: &mut Vec<Delivered>) -> Result<Told, StackFault>
        ensures told { IfOk result (λ told. told ≡ Tellings.Quiet) }
        ensures after { OnOk result (self.new ≡ member_after self.old Halts) }
        ensures events { OnOk result (out.new.items
            ≡ out.old.items
            ++ map (with_device_number dev)
            (events_of_event_if (items_of self.old.layout) self.old.link
            (bus_event_of_step self.old Halts))) }
        ensures only { IfErr result (λ fault. fault ≡ Refusal.Memory) }
        ensures err { OnErr result ((self.new ≡ self.old) × (out.new.items ≡ out.old.items)) }
        ensures room { vec_len out.old + max_events (items_of self.old.layout)
            ≤ vec_capacity out.old → result ≢ Err Refusal.Memory }
        ensures few { vec_len out.new ≤ vec_len out.old + max_events (items_of self.old.layout) }
        ensures capacity { vec_capacity out.old ≤ vec_capacity out.new }
    {
        if out.reserve(self.most_events).is_err() {
            return Err(StackFault::Memory);
        }
        halt_pair(&mut self.device, &self.host, &mut self.events);
        deliver(dev, &self.events, out);
        Ok(Told::Quiet)
    }

    /// The host begins a request.
    #[inline(never)]
    pub(crate) fn begin(&mut self, request: &Request) -> Result<(), StackFault>
        ensures after { OnOk result (self.new ≡ member_after self.old (Begins request.now)) }
        ensures refused { (e : Refusal) → begin_refusal_at self.old request.now ≡ Some e → result ≡ Err e }
        ensures only { IfErr result (λ e. (begin_refusal_at self.old request.now ≡ Some e)
            ⊎ ((begin_refusal_at self.old request.now ≡ None) × (e ≡ Refusal.Memory))) }
        ensures err { OnErr result (self.new ≡ self.old) }
        ensures fits { IfOk result (λ _. FitsRequest request.now) }
    {
        self.host.begin(request)
    }

    /// The host makes a try of the transfer that runs, and this fate happens to it. Where a round may be ended by it,
    /// the room for what is dropped then is reserved first.
    #[inline(never)]
    pub(crate) fn control(
        &mut self,
        dev: u8,
        fate: Fate,
        out: &mut Vec<Delivered>,
    ) -> Result<Progress, StackFault>
        ensures tries { TriesTransfer fate self.old (running self.old.transfer) result self.new }
        ensures between { IsBetween self.old.link (bus_event_of_step self.old (Controls fate)) }
        ensures aborts { AbortsByRequest fate self.old (running self.old.transfer) }
        ensures events { OnOk result (out.new.items
            ≡ out.old.items
            ++ map (with_device_number dev)
            (events_of_event_if (items_of self.old.layout) self.old.link
            (bus_event_of_step self.old (Controls fate)))) }
        ensures err_events { OnErr result (out.new.items ≡ out.old.items) }
        ensures room { HasRoomToTry fate self.old (running self.old.transfer) (vec_len out.old)
            (vec_capacity out.old) → result ≢ Err Refusal.Memory }
        ensures few { vec_len out.new
            ≤ vec_len out.old + max_events_of_try self.old.layout
            (may_abort_round (running self.old.transfer)) }
        ensures capacity { vec_capacity out.old ≤ vec_capacity out.new }
    {
        if self.host.may_abort_round() && out.reserve(self.most_events).is_err() {
            return Err(StackFault::Memory);
        }
        let result = control_pair(fate, &mut self.device, &mut self.host, &mut self.events);
        deliver(dev, &self.events, out);
        result
    }
}

/// Hands events on under their device's number, into reserved room.
fn deliver(dev: u8, events: &[Event], out: &mut Vec<Delivered>)
    requires { vec_len out.old + length events.now ≤ vec_capacity out.old }
    ensures items { out.new.items ≡ out.old.items ++ map (with_device_number dev) events.now }
    ensures len { vec_len out.new ≡ vec_len out.old + length events.now }
    ensures capacity { vec_capacity out.new ≡ vec_capacity out.old }
{
    for event in events {
        out.push_reserved(Delivered { dev, event: *event });
    }
}
