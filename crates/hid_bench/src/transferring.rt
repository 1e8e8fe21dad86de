//! The requests of a host, as whole transfers or by their tries.

ghost use Rattle.std.specs.Prelude.{◌≡◌, None};
ghost use Rattle.usb_control.specs.Host.{IsRunning, sent_length};

use crate::fault::BenchFault;
use crate::stepping::CONFIG;
use hid_device::{Device, DeviceCause, DeviceFault};
use hid_gadget::{ADDRESS, Control, Gadget, Setup};
use std::alloc::Global;
use usb_control::{HostTransfer, Outcome};
use usb_transact::Fate;

/// More tries than a transfer takes of which nothing is lost: SETUP, the pieces of 65,535 bytes, and the status.
const MOST_TRIES: usize = 8_195;

/// A request, and the data that its host sends.
#[derive(Drop)]
struct Request {
    setup: Setup,
    sends: Vec<u8>,
}

/// The request that a word in hex names: eight bytes of SETUP, and of a write its data.
fn request_of(alloc: Global, word: &[u8]) -> Result<Request, BenchFault> {
    let Some((setup, sent)) = word.split_first_chunk::<8>() else {
        return Err(BenchFault::Usage);
    };
    let mut sends = Vec::new(alloc);
    sends.extend_from_slice(sent)?;
    Ok(Request {
        setup: Setup::from_bytes(setup),
        sends,
    })
}

/// The requests that words in hex name.
fn requests_of(alloc: Global, words: &[Vec<u8>]) -> Result<Vec<Request>, BenchFault> {
    let mut requests = Vec::new(alloc);
    for word in words {
        if requests.push(request_of(alloc, word)?).is_err() {
            return Err(BenchFault::Memory);
        }
    }
    Ok(requests)
}

/// In bytes, what a host sends with a request.
fn sent_length(setup: &Setup) -> usize
    ensures { result ≡ sent_length setup.now }
{
    if setup.is_read() {
        0
    } else {
        usize::from(setup.length)
    }
}

/// A control transfer with a gadget. None where the data aren't as long as the request says, or the room is shorter than the
/// answer can be.
pub(crate) fn transferred(
    gadget: &mut Gadget,
    setup: &Setup,
    sends: &[u8],
    room: &mut [u8],
) -> Option<Control> {
    if sends.len() != sent_length(setup) || room.len() < usize::from(setup.length) {
        return None;
    }
    Some(gadget.control(setup, sends, room))
}

/// A gadget whose host makes whole transfers.
#[derive(Drop)]
pub struct Transferring {
    gadget: Gadget,
    requests: Vec<Request>,
    room: Vec<u8>,
}

impl Transferring {
    /// A gadget of this descriptor, and requests to it.
    ///
    /// # Errors
    /// [`BenchFault::Descriptor`] where no gadget can be made of it, [`BenchFault::Usage`] where a word is no request, and
    /// [`BenchFault::Memory`].
    pub fn open(
        alloc: Global,
        descriptor: &[u8],
        words: &[Vec<u8>],
    ) -> Result<Transferring, BenchFault> {
        let requests = requests_of(alloc, words)?;
        let mut room = Vec::new(alloc);
        room.resize(usize::from(u16::MAX), 0)?;
        let gadget = Gadget::new(alloc, &CONFIG, descriptor)?;
        Ok(Transferring {
            gadget,
            requests,
            room,
        })
    }

    /// Makes each request once, and returns how many bytes were answered.
    ///
    /// # Errors
    /// [`BenchFault::Usage`] where the data of one aren't as long as it says.
    pub fn turn(&mut self) -> Result<usize, BenchFault> {
        let mut answered: usize = 0;
        for request in &self.requests {
            let room = self.room.as_mut_slice();
            match transferred(&mut self.gadget, &request.setup, &request.sends, room) {
                Some(Control::Done(count)) => answered = answered.wrapping_add(count),
                Some(Control::Stalled) => {}
                None => return Err(BenchFault::Usage),
            }
        }
        Ok(answered)
    }
}

/// The transfer of a request.
fn begun(alloc: Global, request: &Request) -> Result<HostTransfer, BenchFault> {
    if request.sends.len() != sent_length(&request.setup) {
        return Err(BenchFault::Usage);
    }
    match HostTransfer::begin(alloc, ADDRESS, request.setup, &request.sends) {
        Ok(transfer) => Ok(transfer),
        Err(_) => Err(BenchFault::Memory),
    }
}

/// How many bytes were answered by a transfer, once it is over.
fn answered(transfer: &HostTransfer) -> Option<usize>
    ensures { result ≡ None → IsRunning transfer.now.stage }
{
    match transfer.outcome() {
        Outcome::Running => None,
        Outcome::Done(bytes) => Some(bytes.len()),
        Outcome::Failed(_) => Some(0),
    }
}

/// Makes the tries of a transfer, of which nothing is lost, and returns how many bytes were answered.
fn play(transfer: &mut HostTransfer, device: &mut Device) -> usize {
    for _ in 0..MOST_TRIES {
        match answered(transfer) {
            Some(count) => return count,
            None => transfer.step(device.control(), Fate::Clean),
        };
    }
    0
}

/// A device whose host makes the tries of its transfers.
#[derive(Drop)]
pub struct Trying {
    device: Device,
    requests: Vec<Request>,
    alloc: Global,
}

impl Trying {
    /// A device of this descriptor, and requests to it.
    ///
    /// # Errors
    /// Those of [`Transferring::open`].
    pub fn open(alloc: Global, descriptor: &[u8], words: &[Vec<u8>]) -> Result<Trying, BenchFault> {
        let requests = requests_of(alloc, words)?;
        let device = Device::new(alloc, ADDRESS, &CONFIG, descriptor)?;
        Ok(Trying {
            device,
            requests,
            alloc,
        })
    }

    /// Makes each request once, and returns how many bytes were answered.
    ///
    /// # Errors
    /// [`BenchFault::Usage`] where the data of one aren't as long as it says, and [`BenchFault::Memory`].
    pub fn turn(&mut self) -> Result<usize, BenchFault> {
        let mut told: usize = 0;
        for request in &self.requests {
            let mut transfer = begun(self.alloc, request)?;
            told = told.wrapping_add(play(&mut transfer, &mut self.device));
        }
        Ok(told)
    }
}

impl From<DeviceFault> for BenchFault {
    fn from(fault: DeviceFault) -> BenchFault {
        match fault.cause {
            DeviceCause::Memory => BenchFault::Memory,
            _ => BenchFault::Descriptor,
        }
    }
}
