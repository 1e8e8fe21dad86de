//! How exported devices are described and named.
ghost use Rattle.std.specs.Prelude.{◌≡◌, ◌≤◌, ◌<◌, ◌+◌, ◌-◌, ◌++◌, length, replicate};
ghost use Rattle.usbip.specs.Operations.{description_bytes};
ghost use Rattle.usbip_export.specs.Descriptions.{bus_id_text, description, import_bytes, interface_bytes, list_bytes, listed_bytes, named_place, text_field, refused_import_bytes};

use crate::exported_device::ExportedDevice;
use arrayvec::ArrayVec;
use hid_gadget::Boot;
use usbip::{
    DeviceDescription, Operation, OperationStatus, Speed, encode_description,
    encode_operation_reply,
};

/// The most devices that are exported (our choice: as many as a bus of this stack has).
pub const MAX_DEVICES: usize = 7;

/// The number of their bus.
pub const BUS: u32 = 1;

/// In bytes, the head of an operation, and of the reply to one.
pub(crate) const HEAD: usize = 8;

/// In bytes, the description of a device.
const DESCRIPTION: usize = 312;

/// In bytes, a device in a list: its description, and its interface.
const LISTED: usize = DESCRIPTION + 4;

/// In bytes, the longest list: its head, how many devices there are, and these.
const MAX_LIST: usize = HEAD + 4 + MAX_DEVICES * LISTED;

/// In bytes, the reply to a request for a device that the host gets.
const IMPORT_REPLY: usize = HEAD + DESCRIPTION;

/// Text, then zeros.
fn text_field<const N: usize>(text: &[u8]) -> [u8; N]
    requires { length text.now ≤ N }
    ensures { result ≡ text_field N text.now }
{
    let mut bytes = [0; N];
    bytes[..text.len()].copy_from_slice(text);
    bytes
}

/// The digit of a bus ID.
fn digit(place: usize) -> u8
    requires { place < MAX_DEVICES }
    ensures { result ≡ 0x31 + place }
{
    b'1' + place as u8
}

/// How the device at a place is described.
fn describe(place: usize, device: &ExportedDevice) -> DeviceDescription
    requires { place < MAX_DEVICES }
    ensures { result ≡ description place device.now }
{
    let last = digit(place);
    let config = device.config();
    DeviceDescription {
        path: text_field(&[
            b'/', b'v', b'i', b'r', b't', b'u', b'a', b'l', b'/', b'1', b'-', last,
        ]),
        bus_id: text_field(&[b'1', b'-', last]),
        bus: BUS,
        number: place as u32 + 2,
        speed: Speed::Full,
        vendor: config.vendor,
        product: config.product,
        release: 0x0100,
        class: 0,
        subclass: 0,
        protocol: 0,
        configuration: u8::from(device.is_configured()),
        configurations: 1,
        interfaces: 1,
    }
}

/// The interface of a device in a list.
fn interface(boot: Boot) -> [u8; 4]
    ensures { result ≡ interface_bytes boot }
{
    [3, boot.subclass(), boot.protocol(), 0]
}

/// The description of the device at a place, as bytes.
fn described(place: usize, device: &ExportedDevice) -> ArrayVec<u8, DESCRIPTION>
    requires { place < MAX_DEVICES }
    ensures { result.items ≡ description_bytes (description place device.now) }
{
    encode_description(&describe(place, device))
}

/// Appends the device at a place to a list.
fn add_listed(bytes: &mut ArrayVec<u8, MAX_LIST>, place: usize, device: &ExportedDevice)
    requires place { place < MAX_DEVICES }
    requires room { length bytes.old.items + 316 ≤ 2224 }
    ensures bytes { bytes.new.items ≡ bytes.old.items ++ listed_bytes place device.now }
    ensures few { length bytes.new.items ≤ length bytes.old.items + 316 }
{
    let described = described(place, device);
    let interface = interface(device.config().boot);
    bytes.try_extend_from_slice(&described).unwrap();
    bytes.try_extend_from_slice(&interface).unwrap();
}

/// The reply to a request for the list of devices.
pub(crate) fn list(devices: &[ExportedDevice]) -> ArrayVec<u8, MAX_LIST>
    requires { length devices.now ≤ MAX_DEVICES }
    ensures { result.items ≡ list_bytes devices.now }
{
    let head = encode_operation_reply(Operation::DeviceList, OperationStatus::Success);
    let count = devices.len() as u32;
    let mut bytes = ArrayVec::new();
    bytes.try_extend_from_slice(&head).unwrap();
    bytes.try_extend_from_slice(&count.to_be_bytes()).unwrap();
    for (place, device) in devices.iter().enumerate() {
        add_listed(&mut bytes, place, device);
    }
    bytes
}

/// The reply to a request for a device that the host gets.
pub(crate) fn import_reply(place: usize, device: &ExportedDevice) -> ArrayVec<u8, IMPORT_REPLY>
    requires { place < MAX_DEVICES }
    ensures { result.items ≡ import_bytes place device.now }
{
    let head = encode_operation_reply(Operation::Import, OperationStatus::Success);
    let described = described(place, device);
    let mut bytes = ArrayVec::new();
    bytes.try_extend_from_slice(&head).unwrap();
    bytes.try_extend_from_slice(&described).unwrap();
    bytes
}

/// The place that a bus ID names, if it names one.
pub(crate) fn named_place(id: &[u8; 32]) -> Option<usize>
    ensures { result ≡ named_place id.now }
{
    match *id {
        [b'1', b'-', last @ b'1'..=b'7', 0, ..] => Some(usize::from(last - b'1')),
        _ => None,
    }
}
