//! Dumps, as usbhid-dump writes them: whose they are, and what came of the one that is open.

ghost use Rattle.std.specs.Prelude.{◌≡◌, ◌≤◌, ◌<◌, false, true, [], Some, None, IfOk, IfErr, OnOk, length, position};
ghost use Rattle.std.specs.Option.{option_map};
ghost use Rattle.hid_recording.specs.Dumps.{is_same_address, described_device, number_of_address, with_address};
ghost use Rattle.hid_recording.specs.declared.line_fields.TheConstants.{MAX_DEVICES};

use super::line_fields::{DeviceNumber, MAX_DEVICES};
use std::alloc::{AllocError, Global};

/// The most bytes of a dump (our choice): as many as the longest report has.
pub const MAX_DUMP: usize = 16_384;

/// An interface of a device on a bus, by the numbers that the system gave them.
#[derive(Clone, Copy, Debug, PartialEq, Eq)]
pub struct Address {
    pub bus: u64,
    pub device: u64,
    pub interface: u64,
}

/// What a dump is of.
#[derive(Clone, Copy, Debug, PartialEq, Eq)]
pub enum Content {
    Descriptor,
    Stream,
}

/// What came of a dump that no empty line has ended.
#[derive(Drop)]
pub struct Dump {
    /// None where no dump is open.
    pub content: Option<Content>,
    /// Whether one was dropped, whose bytes are passed over.
    pub is_dropped: bool,
    pub device: u8,
    pub time: Vec<u8>,
    pub bytes: Vec<u8>,
    ghost small: { device < MAX_DEVICES },
}

impl Dump {
    /// No dump is open.
    pub fn none(alloc: Global) -> Self
        ensures closed { (result.content ≡ None) × (result.is_dropped ≡ false) }
        ensures empty { (result.device ≡ 0) × (result.time.items ≡ []) × (result.bytes.items ≡ []) }
    {
        Dump {
            content: None,
            is_dropped: false,
            device: 0,
            time: Vec::new(alloc),
            bytes: Vec::new(alloc),
        }
    }

    /// No dump is open, and bytes that come are of one that was dropped.
    pub fn dropped_dump(alloc: Global) -> Self
        ensures closed { (result.content ≡ None) × (result.is_dropped ≡ true) }
        ensures empty { (result.device ≡ 0) × (result.time.items ≡ []) × (result.bytes.items ≡ []) }
    {
        let mut dump = Dump::none(alloc);
        dump.is_dropped = true;
        dump
    }

    /// A dump of which no byte came yet.
    ///
    /// # Errors
    /// [`AllocError`] if memory runs out for the time.
    pub fn begin(
        alloc: Global,
        content: Content,
        device: DeviceNumber,
        time: &str,
    ) -> Result<Self, AllocError>
        ensures open { IfOk result (λ dump. (dump.content ≡ Some content) × (dump.is_dropped ≡ false)) }
        ensures device { IfOk result (λ dump. dump.device ≡ device.number) }
        ensures time { IfOk result (λ dump. dump.time.items ≡ time.now) }
        ensures empty { IfOk result (λ dump. dump.bytes.items ≡ []) }
    {
        let time = Vec::from_slice(alloc, time.as_bytes())?;
        Ok(Dump {
            content: Some(content),
            is_dropped: false,
            device: device.number,
            time,
            bytes: Vec::new(alloc),
        })
    }

    /// The device whose descriptor it is to be, if it is to be one.
    pub fn described_device(&self) -> Option<DeviceNumber>
        ensures { option_map (λ device. device.number) result
            ≡ described_device self.now.content self.now.device }
    {
        match self.content {
            Some(Content::Descriptor) => Some(DeviceNumber {
                number: self.device,
            }),
            Some(Content::Stream) | None => None,
        }
    }
}

/// The interfaces of which dumps came, in the order in which they came first.
#[derive(Drop)]
pub struct Addresses {
    known: Vec<Address>,
    ghost few: { length known.items ≤ MAX_DEVICES },
}

/// Whether two addresses are the same.
fn is_same(a: &Address, b: &Address) -> bool
    ensures { result ≡ is_same_address a.now b.now }
{
    a.bus == b.bus && a.device == b.device && a.interface == b.interface
}

impl Addresses {
    /// No addresses yet.
    pub fn new(alloc: Global) -> Self
        ensures { result.known.items ≡ [] }
    {
        Addresses {
            known: Vec::new(alloc),
        }
    }

    /// The place of an address among the known ones.
    fn place(&self, address: &Address) -> Option<usize>
        ensures { result ≡ position (is_same_address address.now) self.now.known.items }
    {
        self.known.iter().position(|known| is_same(address, known))
    }

    /// The number of an interface's device: how many interfaces came before it; none where there are too many.
    ///
    /// # Errors
    /// [`AllocError`] if memory runs out for a new interface. One that came before, and one too many, take no memory.
    pub fn number(&mut self, address: Address) -> Result<Option<DeviceNumber>, AllocError>
        ensures number { IfOk result (λ found. option_map (λ device. device.number) found
            ≡ number_of_address self.old.known.items address) }
        ensures known { OnOk result (self.new.known.items ≡ with_address self.old.known.items address) }
        // Memory runs out for a new interface alone, which gets the next number.
        ensures memory { IfErr result (λ _. number_of_address self.old.known.items address
            ≡ Some (length self.old.known.items)) }
    {
        if let Some(place) = self.place(&address) {
            return Ok(Some(DeviceNumber {
                number: place as u8,
            }));
        }
        let count = self.known.len();
        if count == MAX_DEVICES {
            return Ok(None);
        }
        self.known.push(address)?;
        Ok(Some(DeviceNumber {
            number: count as u8,
        }))
    }
}
