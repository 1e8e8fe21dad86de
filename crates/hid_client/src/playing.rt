//! One device on a bus of its own, and what its host knows of it.
ghost use Rattle.std.specs.Prelude.{◌≡◌, IfErr, IfOk};
ghost use Rattle.hid_usages.specs.Snapshots.{state_at, is_pressed};
ghost use Rattle.hid_host.specs.Phase.{IfReady};
ghost use Rattle.hid_client.specs.Playing.{IsNotPlayed, IsPlayed};

use hid_device::Config;
use hid_layout::ControlId;
use hid_stack::{Delivered, HostDevice, HostState, Rig, StackFault, Start, Step};
use std::alloc::Global;

/// What a device gave over some steps, and whether its host holds a control after them.
#[derive(Debug, Drop)]
pub struct Played {
    pub events: Vec<Delivered>,
    pub is_held: bool,
}

/// Attaches a device to a bus of its own, as number 1, runs steps, and looks at a control in the host's view.
///
/// # Errors
/// Why the device is refused, or the first step that is; or out of memory.
pub fn play(
    alloc: Global,
    config: &Config,
    descriptor: &[u8],
    steps: &[Step],
    control: ControlId,
) -> Result<Played, StackFault>
    ensures played { IfOk result (λ played. IsPlayed config.now descriptor.now steps.now control
        played.events.items played.is_held) }
    ensures refused { IfErr result (λ fault. IsNotPlayed config.now descriptor.now steps.now fault) }
{
    let mut rig = Rig::new(alloc)?;
    let dev = rig.attach(config, descriptor, Start::Ready)?;
    let mut events = Vec::new(alloc);
    match rig.run(steps, &mut events) {
        Ok(()) => {}
        Err(stopped) => return Err(stopped.fault),
    }
    let is_held = holds(rig.host(dev)?, control);
    Ok(Played { events, is_held })
}

/// Whether a host holds a control in its view. One that isn't ready holds none.
fn holds(host: &HostDevice, control: ControlId) -> bool
    ensures { IfReady host.now.phase
        (λ known. result ≡ is_pressed (state_at known.view control.item) control.index) }
{
    match host.state() {
        HostState::Ready => host.view().held(control),
        HostState::Cold | HostState::Described | HostState::Parsed => false,
    }
}
