//! What a driver reads of the answers to its requests.
ghost use Rattle.std.specs.Prelude.{◌≡◌, ◌≢◌, ◌≤◌, ◌<◌, ◌+◌, List, [], ℕ, length, vec_len, vec_capacity, Ok, Err, IfOk, IfErr};
ghost use Rattle.hid_report_descriptor.specs.Items.{EncodedItem};
ghost use Rattle.hid_report_descriptor.specs.Real.{Accepts, Explains};
ghost use Rattle.hid_layout.specs.Layout.{layout_of};
ghost use Rattle.hid_driver.specs.Answers.{ConfigurationCame, DescriptorRead, IsNoLayout, ReportCame, configuration_refusal, device_answer, length_answer, no_layout, status_answer};
ghost use Rattle.hid_interfaces.specs.Readable.{readable_with};
ghost use Rattle.hid_driver.specs.Interfaces.{interface_listed, interfaces_after};

use crate::fault::{DriverFault, InterfaceCause};
use crate::interface::{Interface, Reading};
use crate::outcome::Outcome;
use crate::pipe::Pipe;
use crate::requests::{length_of, packet_size_of};
use hid_interfaces::{
    Configuration, ConfigurationFault, InterfaceInfo, interface_fault, total_length,
};
use hid_layout::{Cause, Layout, LayoutFault, Limits};
use std::alloc::{AllocError, Global};
use usb_control::DeviceInfo;

/// Reads a device descriptor.
pub(crate) fn device_answer(outcome: Outcome<'_>) -> Result<DeviceInfo, DriverFault>
    ensures { result ≡ device_answer outcome.entry }
{
    match outcome {
        Outcome::Done(bytes) => match DeviceInfo::read(bytes) {
            Ok(info) => Ok(info),
            Err(fault) => Err(DriverFault::Device(fault)),
        },
        Outcome::Stalled => Err(DriverFault::Stalled),
        Outcome::Failed => Err(DriverFault::Failed),
    }
}

/// Reads the length of a configuration.
pub(crate) fn length_answer(outcome: Outcome<'_>) -> Result<u16, DriverFault>
    ensures { result ≡ length_answer outcome.entry }
{
    match outcome {
        Outcome::Done(bytes) => match total_length(bytes) {
            Ok(length) => Ok(length),
            Err(fault) => Err(DriverFault::Configuration(fault)),
        },
        Outcome::Stalled => Err(DriverFault::Stalled),
        Outcome::Failed => Err(DriverFault::Failed),
    }
}

/// Reads the status of a write.
pub(crate) fn status_answer(outcome: Outcome<'_>) -> Result<(), DriverFault>
    ensures { result ≡ status_answer outcome.entry }
{
    match outcome {
        Outcome::Done(_) => Ok(()),
        Outcome::Stalled => Err(DriverFault::Stalled),
        Outcome::Failed => Err(DriverFault::Failed),
    }
}

/// The fault of a configuration that can't be read.
fn no_configuration(fault: ConfigurationFault) -> DriverFault
    ensures { result ≡ configuration_refusal fault }
{
    match fault {
        ConfigurationFault::Memory => DriverFault::Memory,
        _ => DriverFault::Configuration(fault),
    }
}

/// Reads a configuration.
pub(crate) fn configuration_answer(
    alloc: Global,
    outcome: Outcome<'_>,
) -> Result<Configuration, DriverFault>
    ensures { ConfigurationCame outcome.entry result }
{
    match outcome {
        Outcome::Done(bytes) => match Configuration::read(alloc, bytes) {
            Ok(configuration) => Ok(configuration),
            Err(fault) => Err(no_configuration(fault)),
        },
        Outcome::Stalled => Err(DriverFault::Stalled),
        Outcome::Failed => Err(DriverFault::Failed),
    }
}

/// An interface whose descriptors are read; of those before it these can be read. It is one of them from then on, if it can be
/// read itself. There is reserved room for it.
fn interface_listed(readable: &mut Vec<InterfaceInfo>, info: &InterfaceInfo) -> Interface
    requires room { vec_len readable.old < vec_capacity readable.old }
    ensures listed { result ≡ interface_listed readable.old.items info.now }
    ensures readable { readable.new.items ≡ readable_with readable.old.items info.now }
    ensures few { vec_len readable.new ≤ vec_len readable.old + 1 }
    ensures room { vec_capacity readable.new ≡ vec_capacity readable.old }
{
    let reading = match interface_fault(readable, info) {
        Some(fault) => Reading::Refused(InterfaceCause::Descriptors(fault)),
        None => {
            readable.push_reserved(*info);
            Reading::Waiting
        }
    };
    Interface {
        info: *info,
        reading,
    }
}

/// The interfaces of a configuration, in order.
pub(crate) fn interfaces_listed(
    alloc: Global,
    infos: &[InterfaceInfo],
) -> Result<Vec<Interface>, AllocError>
    ensures { IfOk result (λ listed. listed.items ≡ interfaces_after [] infos.now) }
{
    let mut listed = Vec::with_capacity(alloc, infos.len())?;
    let mut readable = Vec::with_capacity(alloc, infos.len())?;
    for info in infos {
        listed.push_reserved(interface_listed(&mut readable, info));
    }
    Ok(listed)
}

/// Why there is no pipe of an interface.
pub enum NoPipe {
    /// Memory ran out.
    Memory,
    /// It can't be read.
    Refused(InterfaceCause),
}

/// The fault of an interface whose reports can't be laid out.
fn no_layout(fault: LayoutFault) -> NoPipe
    ensures outcome { result ≡ no_layout fault }
    ensures explained { (bytes : List ℕ) → Explains bytes fault.cause fault.at → IsNoLayout bytes result }
{
    match fault.cause {
        Cause::Memory => NoPipe::Memory,
        _ => NoPipe::Refused(InterfaceCause::Layout(fault)),
    }
}

/// The layout of a report descriptor.
fn layout_answer(alloc: Global, bytes: &[u8]) -> Result<Layout, NoPipe>
    ensures ok { IfOk result (λ layout. (items : List EncodedItem) × Accepts bytes.now items
        × (layout ≡ layout_of items)) }
    ensures err { IfErr result (λ fault. IsNoLayout bytes.now fault) }
{
    match Layout::parse_within(alloc, Limits::Real, bytes) {
        Ok(layout) => Ok(layout),
        Err(fault) => Err(no_layout(fault)),
    }
}

/// Reads a report descriptor, which should be as long as the HID descriptor says.
fn read_descriptor(alloc: Global, info: &InterfaceInfo, bytes: &[u8]) -> Result<Pipe, NoPipe>
    ensures { DescriptorRead info.now bytes.now result }
{
    if bytes.len() != usize::from(length_of(info)) {
        return Err(NoPipe::Refused(InterfaceCause::ReportLength));
    }
    match layout_answer(alloc, bytes) {
        Ok(layout) => match Pipe::new(alloc, packet_size_of(info), layout) {
            Ok(pipe) => Ok(pipe),
            Err(_) => Err(NoPipe::Memory),
        },
        Err(fault) => Err(fault),
    }
}

/// Reads the answer to GET_DESCRIPTOR for the report descriptor of an interface.
pub(crate) fn report_answer(
    alloc: Global,
    info: &InterfaceInfo,
    outcome: Outcome<'_>,
) -> Result<Pipe, NoPipe>
    ensures { ReportCame info.now outcome.entry result }
{
    match outcome {
        Outcome::Done(bytes) => read_descriptor(alloc, info, bytes),
        Outcome::Stalled => Err(NoPipe::Refused(InterfaceCause::Stalled)),
        Outcome::Failed => Err(NoPipe::Refused(InterfaceCause::Failed)),
    }
}
