//! The rig: the devices of a bus with their hosts, and the steps that happen to them.
ghost use Rattle.std.specs.Prelude.{ℕ, ◌≡◌, ◌≢◌, ◌≤◌, ◌+◌, ◌++◌, ◌<◌, List, [], ◌∷◌, Ok, Err, Some, length, map, IfOk, OnOk, IfErr, OnErr, vec_len, vec_capacity};
ghost use Rattle.std.specs.List.{All};
ghost use Rattle.hid_bus.specs.Rounds.{Frame as FrameStep};
ghost use Rattle.hid_bus.specs.declared.step.Step.{Step as BusStep};
ghost use Rattle.hid_host.specs.declared.fault.StackFault.{StackFault};
ghost use Rattle.hid_stack.specs.Attaching.{Attaches, IsAttached, Finds};
ghost use Rattle.hid_stack.specs.ExpectedToggles.{HostsExpectParity};
ghost use Rattle.hid_stack.specs.Agreement.{AgreeAtNak, ComeToRest};
ghost use Rattle.hid_stack.specs.Headline.{DeliversChanges, DevicesFollowHistories, KeepsToRounds};
ghost use Rattle.hid_stack.specs.Members.{Scheduled, member_after};
ghost use Rattle.hid_stack.specs.Rig.{AreScheduled, FitsStep, NoneIsRefused, member_at, bus_after, deliveries_of_step, bus_after_all, bus_after_done, deliveries_of_steps, steps_done, refusal, bus_after_refusal, bus_after_stop, IsRefusal, StopsAt, HasRoomAt, HasRoomFor, NeedsNoRoom, max_events_of_step, max_events_of_steps, IsIsolated};
ghost use Rattle.hid_stack.specs.Accessors.{MemberGives, ShowsDevice, ShowsHost, ShowsTransfer};
ghost use Rattle.hid_stack.specs.Steps.{UnreadyDeliversNothing, device_of_step};
ghost use Rattle.hid_stack.specs.Sums.{ConfiguresBetweenRounds, ConservesMotion, OnlyHaltsAbort};
ghost use Rattle.hid_stack.specs.StepResult.{StepReturns};

use crate::fault::RunFault;
use crate::slot::Slot;
use hid_bus::{Delivered, Start, Step, Told};
use hid_device::{Config, Device};
use hid_host::{HostDevice, StackFault};
use hid_layout::{ControlId, Usage};
use hid_snapshots::ChangeFault;
use std::alloc::Global;
use std::marker::Model;
use usb_control::Outcome;

/// How many devices a bus has room for (our choice).
pub const MAX_DEVICES: usize = 7;

/// The devices of a bus, each with its host. A contract sees the list of them, and of each how the two stand together.
#[derive(Drop)]
pub struct Rig {
    alloc: Global,
    slots: Vec<Slot>,
}

impl Model for Rig {
    ghost use Rattle.std.specs.Prelude.{List, ◌≡◌, ◌≤◌, length, vec_capacity};
    ghost use Rattle.hid_stack.specs.ExpectedToggles.{AllHoldToggles};
    ghost use Rattle.hid_stack.specs.Members.{Member};
    ghost use Rattle.hid_stack.specs.Sums.{AllHaveMotions};
    ghost use Rattle.hid_stack.specs.declared.rig.TheConstants.{MAX_DEVICES};

    ghost Value = { List Member };

    ghost view = { λ r. r.slots.items };

    ghost invariant = { λ r. (length r.slots.items ≤ MAX_DEVICES) × (vec_capacity r.slots ≡ MAX_DEVICES)
        × AllHaveMotions r.slots.items × AllHoldToggles r.slots.items };
}

impl Rig {
    /// A bus without devices. It takes the memory for [`MAX_DEVICES`] of them.
    ///
    /// # Errors
    /// [`StackFault::Memory`] where there is none.
    pub fn new(alloc: Global) -> Result<Rig, StackFault>
        ensures new { IfOk result (λ rig. rig ≡ []) }
        ensures memory { IfErr result (λ fault. fault ≡ StackFault.Memory) }
    {
        match Vec::with_capacity(alloc, MAX_DEVICES) {
            Ok(slots) => Ok(Rig { alloc, slots }),
            Err(_) => Err(StackFault::Memory),
        }
    }

    /// Attaches a device and gives its number: from 1, and its address too. A call that is refused changes nothing.
    ///
    /// # Errors
    /// [`StackFault::TooManyDevices`] where there is no room; then [`StackFault::BadDescriptor`] where there is no
    /// device of this configuration and descriptor, or [`StackFault::Memory`], which comes where address and configuration
    /// fit and the descriptor isn't too long.
    #[tactic(auto, using(crate::proofs::AttachLemmas::is_attached))]
    pub fn attach(
        &mut self,
        config: &Config,
        descriptor: &[u8],
        start: Start,
    ) -> Result<u8, StackFault>
        ensures attaches { Attaches MAX_DEVICES config.now descriptor.now start self.old result self.new }
        ensures attached { IfOk result
            (λ dev. IsAttached config.now descriptor.now start self.old dev self.new) }
    {
        if self.slots.len() >= MAX_DEVICES {
            return Err(StackFault::TooManyDevices);
        }
        let dev = self.slots.len() as u8 + 1;
        let slot = Slot::new(self.alloc, dev, config, descriptor, start)?;
        self.slots.push_reserved(slot);
        Ok(dev)
    }

    /// The place of a device among the slots.
    fn place(&self, dev: u8) -> Result<usize, StackFault>
        ensures place { IfOk result (λ i. (dev ≡ i + 1) × (i < length self.now)) }
        ensures none { IfErr result (λ fault. (fault ≡ StackFault.NoDevice)
            × (member_at self.now dev ≡ None)) }
    {
        let dev = dev as usize;
        if dev == 0 || dev > self.slots.len() {
            return Err(StackFault::NoDevice);
        }
        Ok(dev - 1)
    }

    /// The least control of a device with a usage.
    ///
    /// # Errors
    /// [`StackFault::NoDevice`] where no device has this number, and [`StackFault::Refused`] with
    /// [`ChangeFault::NoSuchControl`] where none of its controls has the usage.
    pub fn find(&self, dev: u8, usage: Usage) -> Result<ControlId, StackFault>
        ensures { Finds self.now dev usage result }
    {
        let i = self.place(dev)?;
        match self.slots[i].layout().find(usage) {
            Some(control) => Ok(control),
            None => Err(StackFault::Refused(ChangeFault::NoSuchControl)),
        }
    }

    /// A device.
    ///
    /// # Errors
    /// [`StackFault::NoDevice`] where no device has this number.
    pub fn device(&self, dev: u8) -> Result<&Device, StackFault>
        ensures shows { IfOk result (λ device. MemberGives ShowsDevice self.now dev device.now) }
        ensures none { IfErr result (λ fault. (fault ≡ StackFault.NoDevice)
            × (member_at self.now dev ≡ None)) }
    {
        let i = self.place(dev)?;
        Ok(self.slots[i].device())
    }

    /// The host of a device.
    ///
    /// # Errors
    /// [`StackFault::NoDevice`] where no device has this number.
    pub fn host(&self, dev: u8) -> Result<&HostDevice, StackFault>
        ensures shows { IfOk result (λ host. MemberGives ShowsHost self.now dev host.now) }
        ensures none { IfErr result (λ fault. (fault ≡ StackFault.NoDevice)
            × (member_at self.now dev ≡ None)) }
    {
        let i = self.place(dev)?;
        Ok(self.slots[i].host())
    }

    /// How far the transfer of a device's host has come that was begun last, with the bytes of a read that is done.
    ///
    /// # Errors
    /// [`StackFault::NoDevice`] where no device has this number, and [`StackFault::Control`] with
    /// [`ControlFault::NoTransfer`](usb_control::ControlFault::NoTransfer) where its host has begun none.
    pub fn transfer(&self, dev: u8) -> Result<Outcome<'_>, StackFault>
        ensures { ShowsTransfer (member_at self.now dev) result }
    {
        let i = self.place(dev)?;
        self.slots[i].host().outcome()
    }

    /// One step of the bus. A step that is refused sends nothing and changes nothing. Only a [`Step::Control`] that finds no
    /// memory for a layout or a view has made its try: the transfer is over, and the host stays in its state.
    ///
    /// # Errors
    /// [`StackFault::NoDevice`] where no device has this number. Of a change [`StackFault::Refused`]. Of a poll
    /// [`StackFault::NotReady`] where the host isn't ready, or has a clear pending; then [`StackFault::Memory`], but never
    /// with room for what it delivers; of a halt and a reset that alone. Of a request that begins [`StackFault::Control`]
    /// where another transfer runs; then [`StackFault::NotReady`] where the host is in another state; then
    /// [`StackFault::Memory`]. Of a try [`StackFault::Control`] where no transfer runs; then [`StackFault::Memory`], where a
    /// request to halt or to clear runs and there is no room for what it may drop: nothing is sent, and the transfer goes on;
    /// else where a layout or a view finds none.
    #[inline(always)] // so that a caller with a known kind of step compiles only that kind
    pub fn step(&mut self, step: &Step, out: &mut Vec<Delivered>) -> Result<Told, StackFault>
        // What a step returns, the bus after it, and what it delivers.
        ensures told { IfOk result (λ told. StepReturns self.old step.now told) }
        ensures after { OnOk result (self.new ≡ bus_after self.old step.now) }
        ensures events { OnOk result (out.new.items
            ≡ out.old.items ++ deliveries_of_step self.old step.now) }

        // A host that isn't ready has reported nothing, so a reset takes nothing back, and no other step of its device
        // delivers anything.
        ensures unready { UnreadyDeliversNothing self.old step.now out.old.items out.new.items }

        // The ID, the time and the report of a request that begins fit its setup.
        ensures fits { IfOk result (λ _. FitsStep step.now) }

        // Each refusal comes exactly where its cause stands, memory aside, and changes nothing but by a try.
        ensures refused { (e : StackFault) → refusal self.old step.now ≡ Some e → result ≡ Err e }
        ensures only { IfErr result (λ e. IsRefusal self.old step.now e) }
        ensures err { IfErr result (λ e. self.new ≡ bus_after_refusal self.old step.now e) }
        ensures err_events { OnErr result (out.new.items ≡ out.old.items) }

        // A configuration takes effect between the rounds of its device. Of all tries, only those of a request to halt or to
        // clear end a round.
        ensures between { ConfiguresBetweenRounds self.old (step.now ∷ []) }
        ensures aborts { OnlyHaltsAbort self.old step.now }

        // With room for what a poll, a halt, its end or a reset delivers, memory never runs out. A step fills no more
        // than that, and gives none back.
        ensures room { HasRoomFor self.old step.now (vec_len out.old) (vec_capacity out.old)
            → result ≢ Err StackFault.Memory }
        ensures few { vec_len out.new ≤ vec_len out.old + max_events_of_step self.old step.now }
        ensures capacity { vec_capacity out.old ≤ vec_capacity out.new }
        // A change and a frame take no memory: the room for what is delivered stays, and so does all that a rig keeps.
        ensures keeps { NeedsNoRoom step.now → vec_capacity out.new ≡ vec_capacity out.old }
    {
        match device_of(step) {
            None => {
                frame_all(&mut self.slots);
                Ok(Told::Quiet)
            }
            Some(dev) => {
                let i = self.place(dev)?;
                // For the prover: a host that isn't ready has reported nothing.
                let _ = self.slots[i].host();

                self.slots[i].step(step, out)
            }
        }
    }

    /// Steps of the bus, one after another, up to the first that is refused.
    ///
    /// # Errors
    /// Where and why a step was refused. The steps before it are done, and what they delivered stands.
    pub fn run(&mut self, steps: &[Step], out: &mut Vec<Delivered>) -> Result<(), RunFault>
        // Of a device that was just configured the events delivered are exactly the changes between the successive
        // parts that crossed, in order, none twice. No request of it is begun or tried meanwhile, and it is neither
        // halted nor reset.
        ensures headline { DeliversChanges self.old (steps_done result steps.now)
            out.old.items out.new.items }

        // A device that is polled, without an open round, stands as the rounds of its own steps say: with the open round,
        // the view of the parts that crossed, and toggles by the numbers of pieces closed and crossed.
        ensures rounds { KeepsToRounds self.old (steps_done result steps.now)
            (bus_after_done self.old result steps.now) }

        // A device without an open round delivers what its history says, whatever happens to it. A configuration that takes
        // effect restarts its rounds, its toggles and its view, and so does a reset, which delivers the changes of the view.
        // A halt and a clear end the open round, whose report is due then, and a clear restarts the toggles.
        ensures history { DevicesFollowHistories self.old (steps_done result steps.now)
            (bus_after_done self.old result steps.now) out.old.items out.new.items }

        // No key is left stuck: if a device has nothing to send after the steps, its host has what is pressed. If nothing
        // but enough polls happens to a device at the end of the steps, it has nothing to send then.
        ensures agrees { OnOk result (AgreeAtNak self.old steps.now self.new) }
        ensures rests { OnOk result ((most_lost : ℕ) (earlier later : List BusStep)
            → steps.now ≡ earlier ++ later → ComeToRest most_lost self.old earlier later self.new) }

        // The toggle of each host: while it may poll, also while the endpoint is halted, it expects the parity of the
        // pieces that crossed since the configuration or the last clear.
        ensures toggles { HostsExpectParity self.old (steps_done result steps.now)
            (bus_after_done self.old result steps.now) }

        // Each device and what is delivered of it is a function of its own steps. Motion is neither lost nor doubled.
        ensures isolated { IsIsolated self.old (bus_after_done self.old result steps.now)
            (steps_done result steps.now) out.old.items out.new.items }
        ensures conserves { ConservesMotion self.old self.new (steps_done result steps.now)
            out.old.items out.new.items }

        // What the steps that were done delivered. Each request that began fits its setup.
        ensures events { out.new.items
            ≡ out.old.items ++ deliveries_of_steps self.old (steps_done result steps.now) }
        ensures fits { All FitsStep (steps_done result steps.now) }

        // A run whose steps are all done had none that is refused. Else it stops at the first, and leaves the bus as that
        // one does.
        ensures goes_on { OnOk result (NoneIsRefused self.old steps.now) }
        ensures after { OnOk result (self.new ≡ bus_after_all self.old steps.now) }
        ensures stops { IfErr result (λ e. StopsAt self.old steps.now e.at e.fault) }
        ensures err_after { IfErr result
            (λ e. self.new ≡ bus_after_stop self.old steps.now e.at e.fault) }

        // Memory never runs out at a step for which there is room after all that the steps before it can deliver. With
        // room for all that the polls can deliver it never does where no request is begun or tried, and nothing is
        // halted or reset.
        ensures room { IfErr result (λ e. HasRoomAt self.old steps.now e.at
            (vec_len out.old) (vec_capacity out.old) → e.fault ≢ StackFault.Memory) }
        ensures room_for_all { AreScheduled steps.now
            → vec_len out.old + max_events_of_steps self.old steps.now ≤ vec_capacity out.old
            → IfErr result (λ e. e.fault ≢ StackFault.Memory) }
    {
        // For the prover: what holds of every rig.
        let _ = &self.slots;

        for (at, step) in steps.iter().enumerate() {
            match self.step(step, out) {
                Ok(_) => {}
                Err(fault) => return Err(RunFault { at, fault }),
            }
        }
        Ok(())
    }
}

/// A frame reaches every device.
fn frame_all(slots: &mut [Slot])
    ensures { slots.new ≡ map (λ m. member_after m (Scheduled FrameStep)) slots.old }
{
    for slot in slots.iter_mut() {
        slot.frame();
    }
}

/// The device that a step names.
#[inline(always)] // as `Rig::step`
fn device_of(step: &Step) -> Option<u8>
    ensures { result ≡ device_of_step step.now }
{
    match *step {
        Step::Frame => None,
        Step::Change { dev, .. } => Some(dev),
        Step::Poll { dev, .. } => Some(dev),
        Step::Begin { dev, .. } => Some(dev),
        Step::Control { dev, .. } => Some(dev),
        Step::Halt { dev } => Some(dev),
        Step::Reset { dev } => Some(dev),
    }
}
