//! A device and a host that are polled without a rig (USB 2.0, 8.5.4).

ghost use Rattle.std.specs.Prelude.{IfOk};
ghost use Rattle.hid_host.specs.Phase.{IsReady};

use super::{A_PRESSED, Given, config, event_of, is_pipe, key, keyboard};
use hid_device::{Boot, Device};
use hid_layout::ControlId;
use hid_stack::{HostDevice, StackFault, Told, poll};
use hid_usages::{Change, ChangeFault, Event};
use std::test::Fail;
use test_rows::holds;
use usb_transact::{Fate, Took};

/// A boot keyboard at address 1.
fn new_keyboard(rt: &HostRuntime, descriptor: &[u8]) -> Result<Device, Fail> {
    Ok(Device::new(rt.alloc(), 1, &config(Boot::Keyboard), descriptor)?)
}

fn configure(device: &mut Device) {
    device.configure();
}

fn press(device: &mut Device, control: ControlId) -> Result<(), ChangeFault> {
    device.change(Change::Press(control))
}

/// A host of address 1 that is ready.
fn ready_host(rt: &HostRuntime, descriptor: &[u8]) -> Result<HostDevice, Fail>
    ensures { IfOk result (λ host. IsReady host.phase) }
{
    Ok(HostDevice::ready(rt.alloc(), 1, descriptor)?)
}

/// Whether a poll returned the report with the key a, as a fresh one.
fn is_reported(told: &Result<Told, StackFault>) -> bool {
    match told {
        Ok(
            Told::Polled {
                reply: Some(bytes),
                took: Took::Fresh(_),
            },
        ) => bytes.as_slice() == [0xC3, 0, 0, 0x04, 0, 0, 0, 0, 0].as_slice(),
        _ => false,
    }
}

/// Whether a poll of a host that is ready returns and delivers the key a, though its ACK is lost.
fn tells_the_key(rt: &HostRuntime, device: &mut Device, host: &mut HostDevice) -> Result<bool, Fail>
    requires { IsReady host.old.phase }
{
    let mut out = Vec::with_capacity(rt.alloc(), host.max_events())?;
    let told = poll(&Fate::AckLost, device, host, &mut out);
    Ok(is_reported(&told) && out.as_slice() == [event_of(Given::Down(4))].as_slice())
}

/// Whether a host that is made for the device gets the key.
fn tells_a_host(rt: &HostRuntime, device: &mut Device, descriptor: &[u8]) -> Result<bool, Fail> {
    let mut host = ready_host(rt, descriptor)?;
    tells_the_key(rt, device, &mut host)
}

/// Whether a device that is configured, with its key a pressed, is polled so.
fn is_polled(rt: &HostRuntime, device: &mut Device, descriptor: &[u8]) -> Result<(), Fail> {
    configure(device);
    press(device, key(4))?;
    let is_so = tells_a_host(rt, device, descriptor)?;
    holds(
        "a poll",
        is_so && is_pipe(device, false, Some(A_PRESSED.as_slice())),
    )
}

#[test]
fn two_ends_are_polled_without_a_rig(rt: HostRuntime) -> Result<(), Fail> {
    let mut device = new_keyboard(&rt, keyboard())?;
    is_polled(&rt, &mut device, keyboard())
}

/// Whether a host that knows nothing of a device polls nothing.
fn polls_nothing(rt: &HostRuntime, device: &mut Device) -> bool {
    let mut host = HostDevice::cold(rt.alloc(), 1);
    let mut out = Vec::new(rt.alloc());
    let told = poll(&Fate::Clean, device, &mut host, &mut out);
    matches!(&told, Err(StackFault::NotReady)) && out.is_empty()
}

/// Whether it polls nothing of a device that is configured, with its key a pressed.
fn leaves(rt: &HostRuntime, device: &mut Device) -> Result<(), Fail> {
    configure(device);
    press(device, key(4))?;
    let is_so = polls_nothing(rt, device);
    holds("no poll", is_so && device.open_round().is_none())
}

#[test]
fn a_cold_host_polls_nothing(rt: HostRuntime) -> Result<(), Fail> {
    let mut device = new_keyboard(&rt, keyboard())?;
    leaves(&rt, &mut device)
}
