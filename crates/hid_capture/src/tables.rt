//! What is kept of the devices of a capture.

ghost use Rattle.std.specs.Prelude.{◌≡◌, ◌<◌, ◌≤◌, not, filter, map, position, length, vec_len, IfSome, OnOk};
ghost use Rattle.std.specs.List.{find, list_any};
ghost use Rattle.hid_capture.specs.declared.tables.TheConstants.{MAX_INTERFACES};
ghost use Rattle.hid_capture.specs.Tracking.{has_id, is_of_device, is_of_configuration, is_configuration_on, is_boot_of, is_boot, is_interface, may_be_active, is_endpoint, is_endpoint_of, unread_interface, with_interface_in, source_of, leaves, interfaces_after_leaving, has_descriptor_of, is_described_on, without_descriptor_on, with_described, latest, is_free, next_number, interfaces_with, endpoints_with};

use super::configuration::{Configuration, InterruptEndpoint};
use std::alloc::AllocError;

/// Stands for the number of an interface of which only an endpoint is known, with the endpoint's number added to it: it is
/// over 255, the greatest number of an interface.
pub(crate) const UNREAD: u16 = 256;

/// How many interfaces have a number at most (our choice).
pub const MAX_INTERFACES: usize = 16;

/// How many requests, active configurations and interfaces in the boot protocol are kept at most (our choice).
pub(crate) const MAX_KEPT: usize = 128;

/// How many endpoints of all devices are kept.
const MAX_ENDPOINTS: usize = 256;

/// A request that has no answer yet.
#[derive(Clone, Copy, Debug, PartialEq, Eq)]
pub struct PendingRequest {
    pub bus: u16,
    pub device: u16,
    /// The URB's id.
    pub id: u64,
    pub setup: [u8; 8],
}

/// An interface in the boot protocol.
#[derive(Clone, Copy, Debug, PartialEq, Eq)]
pub struct BootInterface {
    pub bus: u16,
    pub device: u16,
    pub interface: u16,
}

/// An interface that has a number.
#[derive(Clone, Copy, Debug, PartialEq, Eq)]
pub struct TrackedInterface {
    pub bus: u16,
    /// The device's address.
    pub device: u16,
    /// The number of the interface; where no configuration was read that has it, its endpoint's number and 256.
    pub interface: u16,
    /// Whether its descriptor is known.
    pub is_described: bool,
}

/// Makes room for one more of at most `most`: the oldest is dropped.
pub(crate) fn keep_latest<T: Copy>(kept: &mut Vec<T>, most: usize)
    ensures { kept.new.items ≡ latest most kept.old.items }
{
    if kept.len() >= most && !kept.is_empty() {
        kept.remove(0);
    }
}

/// Whether a request has this id.
fn has_id(r: &PendingRequest, bus: u16, device: u16, id: u64) -> bool
    ensures { result ≡ has_id bus device id r.now }
{
    r.bus == bus && r.device == device && r.id == id
}

/// Drops a request.
pub(crate) fn drop_request(requests: &mut Vec<PendingRequest>, bus: u16, device: u16, id: u64)
    ensures { requests.new.items ≡ filter (λ r. not (has_id bus device id r)) requests.old.items }
{
    requests.retain(|r| !has_id(r, bus, device, id));
}

/// The request with this id.
pub(crate) fn request_at(
    requests: &[PendingRequest],
    bus: u16,
    device: u16,
    id: u64,
) -> Option<PendingRequest>
    ensures { result ≡ find (has_id bus device id) requests.now }
{
    requests
        .iter()
        .copied()
        .find(|r| has_id(r, bus, device, id))
}

/// Whether a configuration is one of this device.
fn is_configuration_on(c: &Configuration, bus: u16, device: u16) -> bool
    ensures { result ≡ is_configuration_on bus device c.now }
{
    c.bus == bus && c.device == device
}

/// The configuration that is set on a device.
pub(crate) fn active_configuration(
    active_configurations: &[Configuration],
    bus: u16,
    device: u16,
) -> Option<Configuration>
    ensures { result ≡ find (is_configuration_on bus device) active_configurations.now }
{
    active_configurations
        .iter()
        .copied()
        .find(|c| is_configuration_on(c, bus, device))
}

/// Forgets which configuration is set on a device.
pub(crate) fn forget_active_configuration(
    active_configurations: &mut Vec<Configuration>,
    bus: u16,
    device: u16,
)
    ensures { active_configurations.new.items ≡ filter (λ c. not (is_configuration_on bus device c)) active_configurations.old.items }
{
    active_configurations.retain(|c| !is_configuration_on(c, bus, device));
}

/// Whether a device leaves the configuration that is set for another one.
pub(crate) fn leaves(active: Option<Configuration>, value: u8) -> bool
    ensures { result ≡ leaves active value }
{
    match active {
        None => false,
        Some(c) => c.value != 0 && c.value != value,
    }
}

/// Whether a configuration may be the one that is set.
fn may_be_active(active: Option<Configuration>, c: &Configuration) -> bool
    ensures { result ≡ may_be_active active c.now }
{
    match active {
        None => true,
        Some(s) => s.value == c.value,
    }
}

/// Whether an endpoint is of this device.
fn is_of_device(e: &InterruptEndpoint, bus: u16, device: u16) -> bool
    ensures { result ≡ is_of_device bus device e.now }
{
    e.configuration.bus == bus && e.configuration.device == device
}

/// Whether an endpoint is of this configuration.
fn is_of_configuration(e: &InterruptEndpoint, c: Configuration) -> bool
    ensures { result ≡ is_of_configuration c e.now }
{
    is_of_device(e, c.bus, c.device) && e.configuration.value == c.value
}

/// Whether an endpoint of a device has this number, in the configuration that is set.
fn is_endpoint(
    e: &InterruptEndpoint,
    active: Option<Configuration>,
    bus: u16,
    device: u16,
    endpoint: u8,
) -> bool
    ensures { result ≡ is_endpoint active bus device endpoint e.now }
{
    is_of_device(e, bus, device)
        && e.endpoint == endpoint
        && may_be_active(active, &e.configuration)
}

/// Forgets the endpoints of a device.
pub(crate) fn forget_endpoints(endpoints: &mut Vec<InterruptEndpoint>, bus: u16, device: u16)
    ensures { endpoints.new.items ≡ filter (λ e. not (is_of_device bus device e)) endpoints.old.items }
{
    endpoints.retain(|e| !is_of_device(e, bus, device));
}

/// Forgets the endpoints of a configuration.
pub(crate) fn forget_configuration(endpoints: &mut Vec<InterruptEndpoint>, c: Configuration)
    ensures { endpoints.new.items ≡ filter (λ e. not (is_of_configuration c e)) endpoints.old.items }
{
    endpoints.retain(|e| !is_of_configuration(e, c));
}

/// Adds endpoints, if there is room for all of them.
pub(crate) fn add_endpoints(
    endpoints: &mut Vec<InterruptEndpoint>,
    found: &[InterruptEndpoint],
) -> Result<(), AllocError>
    ensures { OnOk result (endpoints.new.items ≡ endpoints_with endpoints.old.items found.now) }
{
    let room = MAX_ENDPOINTS.saturating_sub(endpoints.len());
    if found.len() > room {
        return Ok(());
    }
    endpoints.extend_from_slice(found)
}

/// The endpoint of a device that has this number in the configuration that is set.
fn endpoint_at(
    endpoints: &[InterruptEndpoint],
    active: Option<Configuration>,
    bus: u16,
    device: u16,
    endpoint: u8,
) -> Option<InterruptEndpoint>
    ensures { result ≡ find (is_endpoint active bus device endpoint) endpoints.now }
{
    endpoints
        .iter()
        .copied()
        .find(|e| is_endpoint(e, active, bus, device, endpoint))
}

/// Stands for the number of an interface of which only this endpoint is known.
fn unread_interface(endpoint: u8) -> u16
    ensures { result ≡ unread_interface endpoint }
{
    UNREAD + u16::from(endpoint)
}

/// The interface of an endpoint of a device: none, if it isn't of the class HID.
pub(crate) fn interface_of(
    endpoints: &[InterruptEndpoint],
    active: Option<Configuration>,
    bus: u16,
    device: u16,
    endpoint: u8,
) -> Option<u16>
    ensures { result ≡ source_of endpoint (find (is_endpoint active bus device endpoint) endpoints.now) }
{
    match endpoint_at(endpoints, active, bus, device, endpoint) {
        None => Some(unread_interface(endpoint)),
        Some(found) => found.interface,
    }
}

/// Whether an interface is of this device.
fn is_boot_of(b: &BootInterface, bus: u16, device: u16) -> bool
    ensures { result ≡ is_boot_of bus device b.now }
{
    b.bus == bus && b.device == device
}

/// Whether an interface in the boot protocol is this one.
fn is_boot(b: &BootInterface, bus: u16, device: u16, interface: u16) -> bool
    ensures { result ≡ is_boot bus device interface b.now }
{
    is_boot_of(b, bus, device) && b.interface == interface
}

/// Whether an interface is in the boot protocol.
pub(crate) fn is_in_boot(boots: &[BootInterface], bus: u16, device: u16, interface: u16) -> bool
    ensures { result ≡ list_any (is_boot bus device interface) boots.now }
{
    boots.iter().any(|b| is_boot(b, bus, device, interface))
}

/// No interface of a device is in the boot protocol.
pub(crate) fn forget_boots(boots: &mut Vec<BootInterface>, bus: u16, device: u16)
    ensures { boots.new.items ≡ filter (λ b. not (is_boot_of bus device b)) boots.old.items }
{
    boots.retain(|b| !is_boot_of(b, bus, device));
}

/// An interface isn't in the boot protocol.
pub(crate) fn forget_boot(boots: &mut Vec<BootInterface>, bus: u16, device: u16, interface: u16)
    ensures { boots.new.items ≡ filter (λ b. not (is_boot bus device interface b)) boots.old.items }
{
    boots.retain(|b| !is_boot(b, bus, device, interface));
}

/// Whether an interface with a number is this one.
fn is_interface(tracked: &TrackedInterface, bus: u16, device: u16, interface: u16) -> bool
    ensures { result ≡ is_interface bus device interface tracked.now }
{
    tracked.bus == bus && tracked.device == device && tracked.interface == interface
}

/// Whether an interface is this one, and has a descriptor.
fn has_descriptor_of(tracked: &TrackedInterface, bus: u16, device: u16, interface: u16) -> bool
    ensures { result ≡ has_descriptor_of bus device interface tracked.now }
{
    is_interface(tracked, bus, device, interface) && tracked.is_described
}

/// Whether an interface is of this device, and has a descriptor.
fn is_described_on(tracked: &TrackedInterface, bus: u16, device: u16) -> bool
    ensures { result ≡ is_described_on bus device tracked.now }
{
    tracked.bus == bus && tracked.device == device && tracked.is_described
}

/// Whether an interface of a device has a descriptor.
pub(crate) fn has_described(interfaces: &[TrackedInterface], bus: u16, device: u16) -> bool
    ensures { result ≡ list_any (is_described_on bus device) interfaces.now }
{
    interfaces
        .iter()
        .any(|tracked| is_described_on(tracked, bus, device))
}

/// The number of an interface.
pub(crate) fn number_of(
    interfaces: &[TrackedInterface],
    bus: u16,
    device: u16,
    interface: u16,
) -> Option<usize>
    ensures { result ≡ position (is_interface bus device interface) interfaces.now }
{
    interfaces
        .iter()
        .position(|tracked| is_interface(tracked, bus, device, interface))
}

/// The number of an interface that has a descriptor.
pub(crate) fn described_number_of(
    interfaces: &[TrackedInterface],
    bus: u16,
    device: u16,
    interface: u16,
) -> Option<usize>
    ensures { result ≡ position (has_descriptor_of bus device interface) interfaces.now }
{
    interfaces.iter().position(|tracked| has_descriptor_of(tracked, bus, device, interface))
}

/// Whether an interface has no descriptor, so that its number may be another's.
fn is_free(tracked: &TrackedInterface) -> bool
    ensures { result ≡ is_free tracked.now }
{
    !tracked.is_described
}

/// The number of the first interface without a descriptor.
fn free_number(interfaces: &[TrackedInterface]) -> Option<usize>
    ensures value { result ≡ position is_free interfaces.now }
    ensures within { IfSome result (λ number. number < length interfaces.now) }
{
    interfaces.iter().position(|tracked| is_free(tracked))
}

/// The number of one more interface: the next; or that of the first one without a descriptor, where no next is left.
pub(crate) fn next_number(interfaces: &[TrackedInterface]) -> Option<usize>
    requires { length interfaces.now ≤ MAX_INTERFACES }
    ensures value { result ≡ next_number interfaces.now }
    ensures within { IfSome result (λ number. number ≤ length interfaces.now) }
    ensures few { IfSome result (λ number. number < MAX_INTERFACES) }
{
    if interfaces.len() < MAX_INTERFACES {
        return Some(interfaces.len());
    }
    free_number(interfaces)
}

/// An interface has this number.
pub(crate) fn put_interface(
    interfaces: &mut Vec<TrackedInterface>,
    number: usize,
    tracked: TrackedInterface,
) -> Result<(), AllocError>
    requires { number ≤ vec_len interfaces.old }
    ensures items { OnOk result (interfaces.new.items ≡ interfaces_with interfaces.old.items number tracked) }
    ensures few { vec_len interfaces.old ≤ MAX_INTERFACES → number < MAX_INTERFACES → vec_len interfaces.new ≤ MAX_INTERFACES }
{
    if number < interfaces.len() {
        interfaces[number] = tracked;
        return Ok(());
    }
    interfaces.push(tracked)?;
    Ok(())
}

/// Forgets the descriptors of a device.
pub(crate) fn forget_descriptors(interfaces: &mut [TrackedInterface], bus: u16, device: u16)
    ensures { interfaces.new ≡ map (without_descriptor_on bus device) interfaces.old }
{
    for tracked in interfaces.iter_mut() {
        forget_descriptor_on(tracked, bus, device);
    }
}

/// Forgets the descriptors of a device, if it leaves its configuration.
pub(crate) fn forget_left(interfaces: &mut [TrackedInterface], is_left: bool, bus: u16, device: u16)
    ensures { interfaces.new ≡ interfaces_after_leaving is_left bus device interfaces.old }
{
    if is_left {
        forget_descriptors(interfaces, bus, device);
    }
}

/// Forgets the descriptor of an interface, if it is of this device.
fn forget_descriptor_on(tracked: &mut TrackedInterface, bus: u16, device: u16)
    ensures { tracked.new ≡ without_descriptor_on bus device tracked.old }
{
    if tracked.bus == bus && tracked.device == device {
        tracked.is_described = false;
    }
}

/// An interface has a descriptor, or has none.
pub(crate) fn set_described(
    interfaces: &mut [TrackedInterface],
    bus: u16,
    device: u16,
    interface: u16,
    is_described: bool,
)
    ensures { interfaces.new ≡ map (with_described bus device interface is_described) interfaces.old }
{
    for tracked in interfaces.iter_mut() {
        set_interface_described(tracked, bus, device, interface, is_described);
    }
}

/// An interface has a descriptor, or has none, if it is this one.
fn set_interface_described(
    tracked: &mut TrackedInterface,
    bus: u16,
    device: u16,
    interface: u16,
    is_described: bool,
)
    ensures { tracked.new ≡ with_described bus device interface is_described tracked.old }
{
    if is_interface(tracked, bus, device, interface) {
        tracked.is_described = is_described;
    }
}

/// Whether an endpoint is in the configuration that is set, and it alone was known of this interface.
fn is_endpoint_of(
    e: &InterruptEndpoint,
    active: Option<Configuration>,
    tracked: TrackedInterface,
) -> bool
    ensures { result ≡ is_endpoint_of active tracked e.now }
{
    is_of_device(e, tracked.bus, tracked.device)
        && unread_interface(e.endpoint) == tracked.interface
        && may_be_active(active, &e.configuration)
}

/// The endpoint, in the configuration that is set, that alone was known of this interface.
fn endpoint_of(
    endpoints: &[InterruptEndpoint],
    active: Option<Configuration>,
    tracked: TrackedInterface,
) -> Option<InterruptEndpoint>
    ensures { result ≡ find (is_endpoint_of active tracked) endpoints.now }
{
    endpoints
        .iter()
        .copied()
        .find(|e| is_endpoint_of(e, active, tracked))
}

/// An interface of which only an endpoint was known has its number, if a configuration was read that has the endpoint.
fn number_interface(
    tracked: &mut TrackedInterface,
    active_configurations: &[Configuration],
    endpoints: &[InterruptEndpoint],
)
    ensures { tracked.new ≡ with_interface_in active_configurations.now endpoints.now tracked.old }
{
    let active = active_configuration(active_configurations, tracked.bus, tracked.device);
    let Some(found) = endpoint_of(endpoints, active, *tracked) else {
        return;
    };
    if let Some(interface) = found.interface {
        tracked.interface = interface;
    }
}

/// Interfaces of which only endpoints were known have their numbers, as far as configurations were read.
pub(crate) fn number_interfaces(
    interfaces: &mut [TrackedInterface],
    active_configurations: &[Configuration],
    endpoints: &[InterruptEndpoint],
)
    ensures { interfaces.new ≡ map (with_interface_in active_configurations.now endpoints.now) interfaces.old }
{
    for tracked in interfaces.iter_mut() {
        number_interface(tracked, active_configurations, endpoints);
    }
}
