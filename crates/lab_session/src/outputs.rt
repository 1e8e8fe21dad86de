//! Output reports that a host sets, as they take effect.

ghost use Rattle.std.specs.Prelude.{◌≡◌, ◌≢◌, ◌<◌, ℕ, None, Some, IfNone, IfOk, IfSome, is_some};
ghost use Rattle.lab_session.specs.Outputs.{IsAwaited, after_id, output_of_pending, output_set_by, output_text};

use arrayvec::ArrayVec;
use hid_layout::ReportKind;
use hid_notation::print_bytes;
use hid_stack::{Request, Rig};
use hid_text::Line;
use std::alloc::{AllocError, Global};

/// One more than the greatest number of a device: they count from 1.
const NUMBERS: usize = 8;

/// An Output report that a running request is to set.
#[derive(Drop)]
struct PendingOutput {
    id: u8,
    bytes: ArrayVec<u8, 256>,
    /// Whether the device had these bytes before.
    is_held: bool,
}

/// The Output report of a device.
fn output_of(rig: &Rig, dev: u8, id: u8) -> &[u8] {
    match rig.device(dev) {
        Ok(device) => match device.outputs(ReportKind::Output, id) {
            Some(bytes) => bytes,
            None => &[],
        },
        Err(_) => &[],
    }
}

/// The Output report that a request of a device is to set, if it is such a request.
fn pending_output(rig: &Rig, dev: u8, request: &Request) -> Option<PendingOutput>
    ensures { output_of_pending result ≡ output_set_by request.now }
{
    let Request::SetReport {
        kind: ReportKind::Output,
        id,
        bytes,
    } = request
    else {
        return None;
    };
    let is_held = output_of(rig, dev, *id) == bytes.as_slice();
    Some(PendingOutput {
        id: *id,
        bytes: ArrayVec::try_from(bytes.as_slice()).unwrap(),
        is_held,
    })
}

/// Whether a request is to set an Output report.
fn sets_output(request: &Request) -> bool
    ensures { result ≡ is_some (output_set_by request.now) }
{
    match request {
        Request::SetReport {
            kind: ReportKind::Output,
            ..
        } => true,
        _ => false,
    }
}

/// The bytes after the ID byte, where reports have IDs.
fn after_id(id: u8, bytes: &[u8]) -> &[u8]
    ensures { result.now ≡ after_id id bytes.now }
{
    match bytes {
        [_, more @ ..] if id > 0 => more,
        _ => bytes,
    }
}

impl PendingOutput {
    ghost use Rattle.std.specs.Prelude.{string_bytes};

    /// Whether it took effect on its device, by a try that ended the transfer as this says: the device has the bytes now and
    /// hadn't before, or the transfer is done.
    fn took_effect(&self, rig: &Rig, dev: u8, is_done: bool) -> bool {
        is_done || (!self.is_held && output_of(rig, dev, self.id) == self.bytes.as_slice())
    }

    /// `D output ID HEX`, with its end: the bytes after the ID byte, where reports have one.
    ///
    /// # Errors
    /// Out of memory.
    fn text(&self, alloc: Global, dev: u8) -> Result<String, AllocError>
        ensures { IfOk result (λ text. string_bytes text
            ≡ output_text dev self.now.id self.now.bytes.items) }
    {
        let id = self.id;
        let mut text = format!(in alloc; "{dev} output {id}")?;
        print_bytes(&mut text, after_id(id, self.bytes.as_slice()))?;
        text.push_str("\n")?;
        Ok(text)
    }
}

/// The Output report that the request of each device is to set that began last, by the number of the device, if one is.
#[derive(Drop)]
pub struct Outputs {
    pending: [Option<PendingOutput>; NUMBERS],
}

impl Outputs {
    ghost use Rattle.std.specs.Prelude.{string_bytes};
    ghost use Rattle.hid_requests.specs.declared.request.Request.{Request};
    ghost use Rattle.hid_text.specs.declared.line.Line.TheVariants as Lines;
    ghost use Rattle.lab_session.specs.Outputs.{BeginsRequestOf, awaited_at};

    /// None is to be set.
    pub fn new() -> Self
        ensures { (dev : ℕ) → awaited_at result dev ≡ None }
    {
        Outputs {
            pending: [None, None, None, None, None, None, None, None],
        }
    }

    /// Keeps which Output report a line is to set, if it begins a request. Of other devices nothing changes.
    pub fn note(&mut self, rig: &Rig, line: &Line)
        ensures its { (dev : ℕ) → (request : Request) → dev < 8 → line.now ≡ Lines.Begin dev request
            → awaited_at self.new dev ≡ output_set_by request }
        ensures others { (dev : ℕ) → (BeginsRequestOf line.now dev → ⊥)
            → awaited_at self.new dev ≡ awaited_at self.old dev }
    {
        if let Line::Begin { dev, request } = line {
            if sets_output(request) || self.awaits(*dev) {
                self.keep(rig, *dev, request);
            }
        }
    }

    /// Keeps which Output report a request of a device is to set.
    #[inline(never)] // most requests set none, and make no room for its bytes
    fn keep(&mut self, rig: &Rig, dev: u8, request: &Request)
        ensures its { dev < 8 → awaited_at self.new dev ≡ output_set_by request.now }
        ensures others { (other : ℕ) → other ≢ dev
            → awaited_at self.new other ≡ awaited_at self.old other }
    {
        let number = usize::from(dev);
        if number < NUMBERS {
            self.pending[number] = pending_output(rig, dev, request);
        }
    }

    /// Whether an Output report of a device is awaited.
    pub fn awaits(&self, dev: u8) -> bool
        ensures { result ≡ is_some (awaited_at self.now dev) }
    {
        match self.pending.get(usize::from(dev)) {
            Some(Some(_)) => true,
            Some(None) | None => false,
        }
    }

    /// The line of the Output report that took effect by a try of a device, if one did: it isn't awaited any more then. Of other
    /// devices nothing changes.
    ///
    /// # Errors
    /// Out of memory.
    pub fn take_effect(
        &mut self,
        alloc: Global,
        rig: &Rig,
        dev: u8,
        is_done: bool,
    ) -> Result<Option<String>, AllocError>
        ensures its { IfOk result (λ told. IfSome told
            (λ text. IsAwaited (awaited_at self.old dev) dev (string_bytes text))) }
        ensures once { IfOk result (λ told. IfSome told (λ _. awaited_at self.new dev ≡ None)) }
        ensures none { IfOk result (λ told. IfNone told (self.new ≡ self.old)) }
        ensures others { (other : ℕ) → other ≢ dev
            → awaited_at self.new other ≡ awaited_at self.old other }
    {
        let number = usize::from(dev);
        if number >= NUMBERS {
            return Ok(None);
        }
        let text = match &self.pending[number] {
            Some(pending) if pending.took_effect(rig, dev, is_done) => pending.text(alloc, dev)?,
            _ => return Ok(None),
        };
        self.pending[number] = None;
        Ok(Some(text))
    }
}
