//! What a host makes of the answer to a request that is done.
ghost use Rattle.std.specs.Prelude.{◌≡◌, ◌≤◌, ℕ, List, [], Ok, Err, IfOk, IfErr, OnOk, OnErr};
ghost use Rattle.hid_report_descriptor.specs.Bus.{Explains};
ghost use Rattle.usb_packet.specs.declared.packet.TheConstants.{MAX_ENDPOINT};
ghost use Rattle.hid_layout.specs.Parsing.{ParsesTo};
ghost use Rattle.hid_layout.specs.Reports.{IsOfBus};
ghost use Rattle.hid_requests.specs.declared.request.Request.TheVariants.{Config, Configure, Report};
ghost use Rattle.hid_host.specs.Conclusions.{Concludes, ConfigRead, DeviceRead, IsNoLayout, ReportRead, layout_refusal};
ghost use Rattle.hid_host.specs.Phase.{HasEndpoint};

use crate::fault::{DescriptorFault, StackFault};
use crate::phase::HostPhase;
use crate::ready::{ROOM, ReadyHost};
use hid_layout::{Cause, Layout, LayoutFault};
use hid_requests::Request;
use hid_usages::{PlannedView, Receiver};
use std::alloc::Global;
use std::mem;
use usb_control::{ConfigInfo, DeviceInfo};
use usb_packet::MAX_ADDRESS;

/// The fault of a host that has no layout.
fn no_layout(fault: LayoutFault) -> StackFault
    ensures outcome { result ≡ layout_refusal fault }
    ensures explained { (bytes : List ℕ) → Explains bytes fault.cause fault.at → IsNoLayout bytes result }
{
    match fault.cause {
        Cause::Memory => StackFault::Memory,
        _ => StackFault::BadDescriptor(DescriptorFault::Layout(fault)),
    }
}

/// The layout of a report descriptor.
pub(crate) fn layout_of(alloc: Global, descriptor: &[u8]) -> Result<Layout, StackFault>
    ensures lays { IfOk result (λ layout. ParsesTo descriptor.now layout) }
    ensures bus { IfOk result IsOfBus }
    ensures refused { IfErr result (λ fault. IsNoLayout descriptor.now fault) }
{
    match Layout::parse(alloc, descriptor) {
        Ok(layout) => Ok(layout),
        Err(fault) => Err(no_layout(fault)),
    }
}

/// Reads a device descriptor.
fn read_device(bytes: &[u8]) -> Result<(), StackFault>
    ensures { DeviceRead bytes.now result }
{
    DeviceInfo::read(bytes)?;
    Ok(())
}

/// Reads a configuration.
fn read_config(bytes: &[u8]) -> Result<ConfigInfo, StackFault>
    ensures reads { ConfigRead bytes.now result }
    ensures endpoint { IfOk result (λ info. info.endpoint ≤ MAX_ENDPOINT) }
{
    Ok(ConfigInfo::read(bytes)?)
}

/// Reads a report descriptor, which should be as long as the configuration says.
fn read_report(alloc: Global, info: &ConfigInfo, bytes: &[u8]) -> Result<Layout, StackFault>
    ensures reads { ReportRead info.now bytes.now result }
    ensures bus { IfOk result IsOfBus }
{
    if bytes.len() != usize::from(info.report_length) {
        return Err(StackFault::BadDescriptor(DescriptorFault::ReportLength));
    }
    layout_of(alloc, bytes)
}

// Each phase is made in a function of its own: else the end of any request makes room for all of them.

/// What a configuration says is kept.
#[inline(never)]
fn conclude_config(bytes: &[u8], phase: &mut HostPhase) -> Result<(), StackFault>
    requires endpoint { HasEndpoint phase.old }
    ensures makes { (addr : ℕ)
        → OnOk result (Concludes addr Config phase.old bytes.now (Ok phase.new)) }
    ensures refused { (addr : ℕ)
        → IfErr result (λ fault. Concludes addr Config phase.old bytes.now (Err fault)) }
    ensures err { OnErr result (phase.new ≡ phase.old) }
    ensures endpoint { HasEndpoint phase.new }
{
    phase.go_on(HostPhase::Described(read_config(bytes)?));
    Ok(())
}

/// The layout of a report descriptor is kept, with what the configuration said.
#[inline(never)]
fn conclude_report(alloc: Global, bytes: &[u8], phase: &mut HostPhase) -> Result<(), StackFault>
    requires endpoint { HasEndpoint phase.old }
    ensures makes { (addr : ℕ)
        → OnOk result (Concludes addr Report phase.old bytes.now (Ok phase.new)) }
    ensures refused { (addr : ℕ)
        → IfErr result (λ fault. Concludes addr Report phase.old bytes.now (Err fault)) }
    ensures err { OnErr result (phase.new ≡ phase.old) }
    ensures endpoint { HasEndpoint phase.new }
{
    if let HostPhase::Described(info) = &*phase {
        let info = *info;
        phase.go_on(HostPhase::Parsed(info, read_report(alloc, &info, bytes)?));
    }
    Ok(())
}

/// A host whose device was configured becomes ready. It keeps its layout where no memory is found.
#[inline(never)]
fn conclude_configure(alloc: Global, addr: u8, phase: &mut HostPhase) -> Result<(), StackFault>
    requires addr { addr ≤ MAX_ADDRESS }
    requires endpoint { HasEndpoint phase.old }
    ensures makes { OnOk result (Concludes addr Configure phase.old [] (Ok phase.new)) }
    ensures memory { IfErr result (λ fault. Concludes addr Configure phase.old [] (Err fault)) }
    ensures err { OnErr result (phase.new ≡ phase.old) }
{
    let HostPhase::Parsed(info, layout) = &*phase else {
        return Ok(());
    };
    let endpoint = info.endpoint;
    let Ok(room) = Vec::with_capacity(alloc, ROOM) else {
        return Err(StackFault::Memory);
    };
    let view = PlannedView::initial(alloc, layout)?;
    match mem::replace(phase, HostPhase::Cold) {
        HostPhase::Parsed(_, layout) => {
            let receiver = Receiver::new(layout, view, room);
            phase.go_on(HostPhase::Ready(ReadyHost::new(addr, endpoint, receiver)));
        }
        _ => unreachable!(),
    }
    Ok(())
}

/// Concludes on the answer to a request that is done: the next phase, or why the answer is refused.
#[inline(never)] // a try that ends no request makes no room for a phase
pub(crate) fn conclude(
    alloc: Global,
    addr: u8,
    request: &Request,
    bytes: &[u8],
    phase: &mut HostPhase,
) -> Result<(), StackFault>
    requires addr { addr ≤ MAX_ADDRESS }
    requires endpoint { HasEndpoint phase.old }
    ensures makes { OnOk result (Concludes addr request.now phase.old bytes.now (Ok phase.new)) }
    ensures refused { IfErr result
        (λ fault. Concludes addr request.now phase.old bytes.now (Err fault)) }
    ensures err { OnErr result (phase.new ≡ phase.old) }
    ensures endpoint { HasEndpoint phase.new }
{
    match request {
        Request::Device => read_device(bytes),
        Request::Config => conclude_config(bytes, phase),
        Request::Report => conclude_report(alloc, bytes, phase),
        Request::Configure => conclude_configure(alloc, addr, phase),
        Request::Clear => {
            if let HostPhase::Ready(host) = phase {
                host.restart();
            }
            Ok(())
        }
        _ => Ok(()), // it leads nowhere
    }
}
