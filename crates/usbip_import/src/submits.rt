//! The submits that carry out what a driver has to do.
ghost use Rattle.std.specs.Prelude.{◌≡◌, ◌++◌, ◌≤◌, ◌<◌, ◌+◌, length, vec_len, IfSome, OnOk, OnErr, option_map, IsOk};
ghost use Rattle.usb_control.specs.SetupBytes.{reads};
ghost use Rattle.usbip.specs.Messages.{command_bytes};
ghost use Rattle.usbip.specs.declared.message.TheConstants.{MAX_DATA};
ghost use Rattle.usbip_import.specs.Submits.{control_submit, direction_asked, endpoint_due, payload_of, report_due, report_submit, room_of};

use crate::flight::{Flights, Purpose};
use hid_driver::{EndpointInfo, Interface, InterfaceState, Setup};
use std::alloc::AllocError;
use usbip::{Command, Direction, HEADER, Submit, encode_command};

/// The transfer flag of a transfer to the host, as Linux sets it (URB_DIR_IN).
const TO_HOST: u32 = 0x200;

/// An interface of which a report is to be asked for.
#[derive(Clone, Copy, Debug)]
pub struct Due {
    /// Its place in the list of the driver.
    pub interface: usize,
    /// Its endpoint.
    pub endpoint: EndpointInfo,
}

/// Which way the data of a request go: one without data goes to the device.
fn direction_asked(setup: &Setup) -> Direction
    ensures { result ≡ direction_asked setup.now }
{
    if setup.is_read() && setup.length > 0 {
        Direction::In
    } else {
        Direction::Out
    }
}

/// The data that follow the submit of a request.
pub(crate) fn payload_of<'a>(setup: &Setup, given: &'a [u8]) -> &'a [u8]
    ensures payload { result.now ≡ payload_of setup.now given.now }
    ensures short { length result.now < 65536 }
{
    match direction_asked(setup) {
        Direction::In => &[],
        Direction::Out => &given[..given.len().min(usize::from(setup.length))],
    }
}

/// The submit of a request, which these data follow.
pub(crate) fn control_submit(device: u32, seqnum: u32, setup: &Setup, payload: &[u8]) -> Submit
    requires { length payload.now < 65536 }
    ensures { result ≡ control_submit device seqnum setup.now payload.now }
{
    let direction = direction_asked(setup);
    let (flags, length) = match direction {
        Direction::In => (TO_HOST, u32::from(setup.length)),
        Direction::Out => (0, payload.len() as u32),
    };
    Submit {
        seqnum,
        device,
        direction,
        endpoint: 0,
        flags,
        length,
        interval: 0,
        setup: setup.to_bytes(),
    }
}

/// The submit for a report of an endpoint.
pub(crate) fn report_submit(device: u32, seqnum: u32, endpoint: &EndpointInfo) -> Submit
    ensures { result ≡ report_submit device seqnum endpoint.now }
{
    Submit {
        seqnum,
        device,
        direction: Direction::In,
        endpoint: u32::from(endpoint.number),
        flags: TO_HOST,
        length: u32::from(endpoint.packet_size.max(1)),
        interval: u32::from(endpoint.interval.max(1)),
        setup: [0; 8],
    }
}

/// In bytes, the most that may follow the reply to a submit.
pub(crate) fn room_of(submit: &Submit) -> u32
    ensures { result ≡ room_of submit.now }
{
    match submit.direction {
        Direction::In => submit.length,
        Direction::Out => 0,
    }
}

/// The endpoint of an interface, if a report of it is to be asked for: it is live, and none is asked for yet.
fn endpoint_due(place: usize, flights: &Flights, interface: &Interface) -> Option<EndpointInfo>
    ensures { result ≡ endpoint_due place flights.now interface.now }
{
    match interface.state() {
        InterfaceState::Live => {
            if flights.asks(Purpose::Report { interface: place }) {
                return None;
            }
            interface.info().endpoint
        }
        _ => None,
    }
}

/// The first interface of which a report is to be asked for.
pub(crate) fn report_due(flights: &Flights, interfaces: &[Interface]) -> Option<Due>
    ensures { result ≡ report_due 0 flights.now interfaces.now }
{
    for (place, interface) in interfaces.iter().enumerate() {
        if let Some(endpoint) = endpoint_due(place, flights, interface) {
            return Some(Due {
                interface: place,
                endpoint,
            });
        }
    }
    None
}

/// Appends a submit and its data.
///
/// # Errors
/// Out of memory, and nothing is appended.
pub(crate) fn append(out: &mut Vec<u8>, submit: &Submit, payload: &[u8]) -> Result<(), AllocError>
    requires { length payload.now < 65536 }
    ensures ok { OnOk result (out.new.items
        ≡ out.old.items ++ command_bytes (Command.Submit submit.now) ++ payload.now) }
    ensures err { OnErr result (out.new.items ≡ out.old.items) }
{
    out.reserve(HEADER + payload.len())?;
    let header = encode_command(&Command::Submit(*submit));
    out.extend_from_slice(&header).unwrap();
    out.extend_from_slice(payload).unwrap();
    Ok(())
}
