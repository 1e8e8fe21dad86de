//! What is known of a device and of its interfaces, as records.
ghost use Rattle.std.specs.Prelude.{◌≡◌};
ghost use Rattle.hidstack_host.specs.Info.{host_info, interface_at, interface_record, laid_out, state_code, state_number, with_code, with_layout};

use crate::cause::{Code, cause_code};
use hid_driver::{Driver, DriverState, Interface, InterfaceState, Layout};

/// The host waits for the outcome of a request.
pub const HOST_WAITING: u32 = 0;

/// It reads reports, and waits for nothing.
pub const HOST_READY: u32 = 1;

/// Its device can't be read.
pub const HOST_REFUSED: u32 = 2;

/// The report descriptor of the interface wasn't read yet.
pub const INTERFACE_WAITING: u8 = 0;

/// Its reports are read.
pub const INTERFACE_LIVE: u8 = 1;

/// Its endpoint is halted until a CLEAR_FEATURE is done.
pub const INTERFACE_HALTED: u8 = 2;

/// Its endpoint is halted until a reset.
pub const INTERFACE_STOPPED: u8 = 3;

/// It sends boot reports, or may.
pub const INTERFACE_BOOT: u8 = 4;

/// It can't be read.
pub const INTERFACE_REFUSED: u8 = 5;

/// What is known of a device.
#[repr(C)]
#[derive(Clone, Copy, Debug)]
pub struct HidHostInfo {
    /// How many HID interfaces its configuration has, once it is read.
    pub interfaces: u64,
    /// How many events a transfer or a reset gives at most.
    pub room: u64,
    /// [`HOST_WAITING`], [`HOST_READY`] or [`HOST_REFUSED`].
    pub state: u32,
    /// idVendor, once the device descriptor is read; else 0.
    pub vendor: u16,
    /// idProduct, once the device descriptor is read; else 0.
    pub product: u16,
}

/// What is known of an interface.
#[repr(C)]
#[derive(Clone, Copy, Debug)]
pub struct HidInterface {
    /// Where the refused item begins, in bytes, of a cause L; else 0.
    pub at: u64,
    /// How many events one of its reports gives at most.
    pub room: u64,
    /// How many reports it has.
    pub reports: u64,
    /// How many listed items it has.
    pub items: u64,
    /// The number of the code of the cause for which it is refused; else 0.
    pub cause: u32,
    /// In bytes, a full packet of its endpoint: wMaxPacketSize; 0 without one.
    pub packet_size: u16,
    /// bInterfaceNumber.
    pub number: u8,
    /// The number of its interrupt-IN endpoint, 1 to 15; 0 without one.
    pub endpoint: u8,
    /// bInterval of the endpoint, at least 1; 0 without one.
    pub interval: u8,
    /// bInterfaceSubClass.
    pub subclass: u8,
    /// bInterfaceProtocol.
    pub protocol: u8,
    /// Whether the bytes of its reports begin with their ID: 1, else 0.
    pub numbered: u8,
    /// One of the six above, from [`INTERFACE_WAITING`] to [`INTERFACE_REFUSED`].
    pub state: u8,
    /// The letter of the code of its cause, in ASCII: B, L or H; 0 where it isn't refused.
    pub letter: u8,
    /// 0.
    pub spare: u16,
}

/// How far a driver has come with its device.
fn state_number(state: DriverState) -> u32
    ensures { result ≡ state_number state }
{
    match state {
        DriverState::Ready => HOST_READY,
        DriverState::Refused => HOST_REFUSED,
        _ => HOST_WAITING,
    }
}

/// The record of what is known of a device.
pub fn host_info(driver: &Driver) -> HidHostInfo
    ensures { result ≡ host_info driver.now }
{
    let (vendor, product) = match driver.device() {
        Some(device) => (device.vendor, device.product),
        None => (0, 0),
    };
    HidHostInfo {
        interfaces: driver.interfaces().len() as u64,
        room: driver.max_events() as u64,
        state: state_number(driver.state()),
        vendor,
        product,
    }
}

/// How far the driver has come with an interface, and the code of its cause.
fn state_code(state: InterfaceState) -> (u8, Code)
    ensures { result ≡ state_code state }
{
    let none = Code {
        letter: 0,
        number: 0,
        at: 0,
    };
    match state {
        InterfaceState::Waiting => (INTERFACE_WAITING, none),
        InterfaceState::Live => (INTERFACE_LIVE, none),
        InterfaceState::Halted => (INTERFACE_HALTED, none),
        InterfaceState::Stopped => (INTERFACE_STOPPED, none),
        InterfaceState::Boot => (INTERFACE_BOOT, none),
        InterfaceState::Refused(cause) => (INTERFACE_REFUSED, cause_code(cause)),
    }
}

/// The record with what a layout has.
fn with_layout(known: HidInterface, layout: &Layout) -> HidInterface
    ensures { result ≡ with_layout known layout.now }
{
    HidInterface {
        room: layout.max_events() as u64,
        reports: layout.reports().len() as u64,
        items: layout.items().len() as u64,
        numbered: if layout.numbered() { 1 } else { 0 },
        ..known
    }
}

/// The record of what the descriptors of an interface say, with its state.
fn interface_record(interface: &Interface) -> HidInterface
    ensures { result ≡ interface_record interface.now }
{
    let (state, code) = state_code(interface.state());
    let info = *interface.info();
    let (endpoint, packet_size, interval) = match info.endpoint {
        Some(endpoint) => (endpoint.number, endpoint.packet_size, endpoint.interval),
        None => (0, 0, 0),
    };
    HidInterface {
        at: code.at,
        room: 0,
        reports: 0,
        items: 0,
        cause: code.number,
        packet_size,
        number: info.number,
        endpoint,
        interval,
        subclass: info.subclass,
        protocol: info.protocol,
        numbered: 0,
        state,
        letter: code.letter,
        spare: 0,
    }
}

/// The record of the interface at a place; none past the last.
pub fn interface_at(driver: &Driver, place: usize) -> Option<HidInterface>
    ensures { result ≡ interface_at driver.now place }
{
    match driver.interfaces().get(place) {
        Some(interface) => {
            let known = interface_record(interface);
            match interface.layout() {
                Some(layout) => Some(with_layout(known, layout)),
                None => Some(known),
            }
        }
        None => None,
    }
}
