//! What is asked before a device is imported, and its bytes.
ghost use Rattle.std.specs.Prelude.{◌≡◌, Ok, IfOk, IfErr};
ghost use Rattle.usbip.specs.Operations.{IsOperation, description_bytes, head_bytes, number_bytes, operation_bytes, operation_code, operation_status_word, reply_code, speed_word};
ghost use Rattle.usbip.specs.Faults.{IsOperationFault};

use crate::fault::UsbipFault;
use arrayvec::ArrayVec;

/// The version of the protocol: 1.1.1.
pub const VERSION: u16 = 0x0111;

/// What a host asks for before a device is imported.
#[derive(Clone, Copy, Debug, PartialEq, Eq)]
pub enum Operation {
    /// OP_REQ_DEVLIST: which devices there are. Nothing follows.
    DeviceList,
    /// OP_REQ_IMPORT: a device. Its bus ID follows, 32 bytes.
    Import,
}

/// How an operation ended, as the programs of Linux have it.
#[derive(Clone, Copy, Debug, PartialEq, Eq)]
pub enum OperationStatus {
    /// 0: it is done.
    Success,
    /// 1: it failed.
    Failed,
    /// 2: somebody else has the device.
    Busy,
    /// 4: there is no such device.
    NoDevice,
}

/// How fast a device is (USB 2.0, 5.3), by the numbers of Linux.
#[derive(Clone, Copy, Debug, PartialEq, Eq)]
pub enum Speed {
    /// 1: low speed.
    Low,
    /// 2: full speed.
    Full,
    /// 3: high speed.
    High,
}

/// A device as it is described to a host (USB 2.0, 9.6.1).
#[derive(Clone, Copy, Debug)]
pub struct DeviceDescription {
    /// Where it stands in the server's system: text, then zeros.
    pub path: [u8; 256],
    /// Its bus ID, by which it is asked for: text, then zeros.
    pub bus_id: [u8; 32],
    /// The number of its bus.
    pub bus: u32,
    /// Its number on the bus.
    pub number: u32,
    /// How fast it is.
    pub speed: Speed,
    /// idVendor.
    pub vendor: u16,
    /// idProduct.
    pub product: u16,
    /// bcdDevice.
    pub release: u16,
    /// bDeviceClass.
    pub class: u8,
    /// bDeviceSubClass.
    pub subclass: u8,
    /// bDeviceProtocol.
    pub protocol: u8,
    /// bConfigurationValue of the configuration that is set, else 0.
    pub configuration: u8,
    /// bNumConfigurations.
    pub configurations: u8,
    /// bNumInterfaces of the configuration.
    pub interfaces: u8,
}

impl Operation {
    /// The code of a request for the operation.
    pub fn code(self) -> u16
        ensures { result ≡ operation_code self }
    {
        match self {
            Operation::DeviceList => 0x8005,
            Operation::Import => 0x8003,
        }
    }

    /// The code of a reply to it.
    pub fn reply_code(self) -> u16
        ensures { result ≡ reply_code self }
    {
        match self {
            Operation::DeviceList => 0x0005,
            Operation::Import => 0x0003,
        }
    }
}

impl OperationStatus {
    /// The word of a status.
    pub fn word(self) -> u32
        ensures { result ≡ operation_status_word self }
    {
        match self {
            OperationStatus::Success => 0,
            OperationStatus::Failed => 1,
            OperationStatus::Busy => 2,
            OperationStatus::NoDevice => 4,
        }
    }
}

impl Speed {
    /// The word of a speed.
    pub fn word(self) -> u32
        ensures { result ≡ speed_word self }
    {
        match self {
            Speed::Low => 1,
            Speed::Full => 2,
            Speed::High => 3,
        }
    }
}

/// The head of an operation: version, code and status.
fn head(code: u16, status: u32) -> [u8; 8]
    ensures { result ≡ head_bytes code status }
{
    let [code_high, code_low] = code.to_be_bytes();
    let [first, second, third, fourth] = status.to_be_bytes();
    [
        0x01, 0x11, code_high, code_low, first, second, third, fourth,
    ]
}

/// The head of a request for an operation. Of an import the bus ID follows.
pub fn encode_operation(operation: Operation) -> [u8; 8]
    ensures encoded { result ≡ operation_bytes operation }
    ensures read { IsOperation result operation }
{
    head(operation.code(), 0)
}

/// The head of a reply to an operation. Of a list that is done the number of devices follows, of an import that is done the
/// device.
pub fn encode_operation_reply(operation: Operation, status: OperationStatus) -> [u8; 8]
    ensures { result ≡ head_bytes (reply_code operation) (operation_status_word status) }
{
    head(operation.reply_code(), status.word())
}

/// The operation that a head asks for.
///
/// # Errors
/// Where it is none, the first [`UsbipFault`] that stands.
pub fn decode_operation(head: &[u8; 8]) -> Result<Operation, UsbipFault>
    // What is read stands at its offsets, and whatever stands so is read.
    ensures found { IfOk result (λ operation. IsOperation head.now operation) }
    ensures complete { (operation : Operation) → IsOperation head.now operation → result ≡ Ok operation }
    // Each refusal has its cause.
    ensures fault { IfErr result (λ fault. IsOperationFault fault head.now) }
{
    if u16::from_be_bytes([head[0], head[1]]) != VERSION {
        return Err(UsbipFault::BadVersion);
    }
    match u16::from_be_bytes([head[2], head[3]]) {
        0x8005 => Ok(Operation::DeviceList),
        0x8003 => Ok(Operation::Import),
        _ => Err(UsbipFault::UnknownOperation),
    }
}

/// What is described of a device after its path and its bus ID.
fn numbers(description: &DeviceDescription) -> [u8; 24]
    ensures { result ≡ number_bytes description.now }
{
    let [bus_a, bus_b, bus_c, bus_d] = description.bus.to_be_bytes();
    let [number_a, number_b, number_c, number_d] = description.number.to_be_bytes();
    let [speed_a, speed_b, speed_c, speed_d] = description.speed.word().to_be_bytes();
    let [vendor_high, vendor_low] = description.vendor.to_be_bytes();
    let [product_high, product_low] = description.product.to_be_bytes();
    let [release_high, release_low] = description.release.to_be_bytes();
    [
        bus_a,
        bus_b,
        bus_c,
        bus_d,
        number_a,
        number_b,
        number_c,
        number_d,
        speed_a,
        speed_b,
        speed_c,
        speed_d,
        vendor_high,
        vendor_low,
        product_high,
        product_low,
        release_high,
        release_low,
        description.class,
        description.subclass,
        description.protocol,
        description.configuration,
        description.configurations,
        description.interfaces,
    ]
}

/// A device as it follows the head of a reply to an import, and of each device of a list.
pub fn encode_description(description: &DeviceDescription) -> ArrayVec<u8, 312>
    ensures { result.items ≡ description_bytes description.now }
{
    let path = description.path;
    let bus_id = description.bus_id;
    let mut bytes = ArrayVec::new();
    bytes.try_extend_from_slice(&path).unwrap();
    bytes.try_extend_from_slice(&bus_id).unwrap();
    bytes.try_extend_from_slice(&numbers(description)).unwrap();
    bytes
}
