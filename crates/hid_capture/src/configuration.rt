//! The interrupt IN endpoints of a configuration, and the HID interfaces that have them (USB 2.0, 9.6.3, 9.6.5 and 9.6.6;
//! HID 1.11, 4.1 and 4.4).

ghost use Rattle.std.specs.Prelude.{◌≡◌, ◌++◌, ◌≤◌, true, None, length, IfOk, OnOk, IfSome};
ghost use Rattle.hid_capture.specs.Descriptors.{byte, has_descriptor, interface_after, is_interrupt_in, endpoint_at, endpoints_in, whole_configuration};

use std::alloc::{AllocError, Global};

/// The descriptor type of an interface.
const INTERFACE: u8 = 4;

/// The descriptor type of an endpoint.
const ENDPOINT: u8 = 5;

/// The interface class of HID.
const HID: u8 = 3;

/// The bytes of an interface descriptor.
const INTERFACE_LENGTH: u8 = 9;

/// The bytes of an endpoint descriptor.
const ENDPOINT_LENGTH: u8 = 7;

/// The bytes of a configuration descriptor without what belongs to it.
const CONFIGURATION_LENGTH: usize = 9;

/// A configuration of a device.
#[derive(Clone, Copy, Debug, PartialEq, Eq)]
pub struct Configuration {
    pub bus: u16,
    /// The device's address.
    pub device: u16,
    /// What SET_CONFIGURATION has for it.
    pub value: u8,
}

/// An interrupt IN endpoint.
#[derive(Clone, Copy, Debug, PartialEq, Eq)]
pub struct InterruptEndpoint {
    pub configuration: Configuration,
    /// The number of its interface, where that is of the class HID.
    pub interface: Option<u16>,
    /// The endpoint's number.
    pub endpoint: u8,
}

/// The byte at the place `at`, 0 where there is none.
fn byte_at(bytes: &[u8], at: usize) -> u8
    ensures { result ≡ byte bytes.now at }
{
    bytes.get(at).copied().unwrap_or(0)
}

/// The number of the HID interface to which the next endpoints belong, if they belong to one.
#[tactic(auto, unfolding(crate::specs::Descriptors::interface_after))]
fn interface_after(here: Option<u16>, bytes: &[u8]) -> Option<u16>
    ensures { result ≡ interface_after here bytes.now }
{
    if byte_at(bytes, 1) != INTERFACE {
        here
    } else if byte_at(bytes, 0) >= INTERFACE_LENGTH && byte_at(bytes, 5) == HID {
        Some(u16::from(byte_at(bytes, 2)))
    } else {
        None
    }
}

/// Whether these bytes begin with the descriptor of an interrupt IN endpoint.
#[tactic(auto, unfolding(crate::specs::Descriptors::is_interrupt_in))]
fn is_interrupt_in(bytes: &[u8]) -> bool
    ensures { result ≡ is_interrupt_in bytes.now }
{
    let is_whole = byte_at(bytes, 1) == ENDPOINT && byte_at(bytes, 0) >= ENDPOINT_LENGTH;
    is_whole && byte_at(bytes, 3) % 4 == 3 && byte_at(bytes, 2) >= 128
}

/// Whether these bytes begin with a whole descriptor.
#[tactic(auto, unfolding(crate::specs::Descriptors::has_descriptor))]
fn has_descriptor(bytes: &[u8]) -> bool
    ensures value { result ≡ has_descriptor bytes.now }
    ensures within { result ≡ true → byte bytes.now 0 ≤ length bytes.now }
    ensures more { result ≡ true → 2 ≤ byte bytes.now 0 }
{
    let length = byte_at(bytes, 0);
    length >= 2 && usize::from(length) <= bytes.len()
}

/// Adds the endpoint that a descriptor gives, if it gives one.
#[tactic(auto, unfolding(crate::specs::Descriptors::endpoint_at))]
fn add_endpoint(
    found: &mut Vec<InterruptEndpoint>,
    configuration: Configuration,
    here: Option<u16>,
    bytes: &[u8],
) -> Result<(), AllocError>
    ensures { OnOk result (found.new.items ≡ found.old.items ++ endpoint_at configuration here bytes.now) }
{
    if is_interrupt_in(bytes) {
        found.push(InterruptEndpoint {
            configuration,
            interface: here,
            endpoint: byte_at(bytes, 2) % 128,
        })?;
    }
    Ok(())
}

/// The interrupt IN endpoints among these descriptors.
///
/// # Errors
/// [`AllocError`] if memory runs out for them.
pub(crate) fn read_endpoints(
    alloc: Global,
    configuration: Configuration,
    bytes: &[u8],
) -> Result<Vec<InterruptEndpoint>, AllocError>
    ensures { IfOk result (λ found. found.items ≡ endpoints_in (length bytes.now) configuration None bytes.now) }
{
    let mut found = Vec::new(alloc);
    let mut here = None;
    let mut rest = bytes;
    'descriptors: while has_descriptor(rest) {
        here = interface_after(here, rest);
        add_endpoint(&mut found, configuration, here, rest)?;
        rest = &rest[usize::from(byte_at(rest, 0))..];
    }
    Ok(found)
}

/// The value and the length of the configuration that these bytes begin with. None where some of it is missing.
pub(crate) fn whole_configuration(bytes: &[u8]) -> Option<(u8, usize)>
    ensures value { result ≡ whole_configuration bytes.now }
    ensures within { IfSome result (λ found. found.1 ≤ length bytes.now) }
{
    let total = usize::from(byte_at(bytes, 2)) + usize::from(byte_at(bytes, 3)) * 256;
    if total < CONFIGURATION_LENGTH || bytes.len() < total {
        return None;
    }
    Some((byte_at(bytes, 5), total))
}
