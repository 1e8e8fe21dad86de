//! The script: its devices, and what is done at them while they are served.

ghost use Rattle.std.specs.Prelude.{◌≡◌, ◌≢◌, ◌⊎◌, ◌<◌, ◌∷◌, [], length, ℕ, OnOk, IfOk, IfErr, Ok, Err, vec_len};
ghost use Rattle.std.specs.Str.Lines.{lines, strip_carriage_return};
ghost use Rattle.usbip_script.specs.Scripts.{Read as ReadScript, AllGive, Attaches, Changes, Does, Finds, Gives, IsRefusedAt, LineGives, nothing_read, place_of, read_of, with_action};
ghost use Rattle.usbip_script.specs.declared.fault.LineCause.{LineCause as RefusalCause};

use crate::fault::{LineCause, ServeFault};
use hid_text::{Line, ShortLine, read_line, split_line};
use std::alloc::Global;
use usbip_export::{
    Boot, Change, ChangeFault, Config, ControlId, DeviceCause, DeviceFault, ExportedDevice,
    MAX_DEVICES, Usage,
};
use usbip_serving::Action;

/// The most bytes of a script: it is read before anything is served (our choice).
pub const MAX_SCRIPT: usize = 1 << 24;

/// The devices of a script, and what its other lines do.
#[derive(Drop)]
pub struct Script {
    pub devices: Vec<ExportedDevice>,
    pub actions: Vec<Action>,
    /// Of each action the line that it stands on, from 1.
    pub lines: Vec<usize>,
}

/// The place of a device by its number.
///
/// # Errors
/// No device has this number.
pub fn place_of(devices: &[ExportedDevice], dev: u8) -> Result<usize, LineCause>
    ensures { result ≡ place_of (length devices.now) dev }
{
    let number = usize::from(dev);
    if number == 0 || number > devices.len() {
        return Err(LineCause::NoDevice);
    }
    Ok(number - 1)
}

/// The place of a device by its number, and its least control with a usage.
fn control_of(
    devices: &[ExportedDevice],
    dev: u8,
    usage: Usage,
) -> Result<(usize, ControlId), LineCause>
    ensures { Finds devices.now dev usage result }
{
    let place = place_of(devices, dev)?;
    match devices[place].find(usage) {
        Some(control) => Ok((place, control)),
        None => Err(LineCause::Change(ChangeFault::NoSuchControl)),
    }
}

/// What a short line does.
fn action_of(devices: &[ExportedDevice], line: &ShortLine) -> Result<Action, LineCause>
    ensures { Does devices.now line.now result }
{
    match line {
        ShortLine::Press { dev, usage } => {
            let (place, control) = control_of(devices, *dev, *usage)?;
            Ok(Action::Change(place, Change::Press(control)))
        }
        ShortLine::Release { dev, usage } => {
            let (place, control) = control_of(devices, *dev, *usage)?;
            Ok(Action::Change(place, Change::Release(control)))
        }
        ShortLine::Null { dev, usage } => {
            let (place, control) = control_of(devices, *dev, *usage)?;
            Ok(Action::Change(place, Change::Null(control)))
        }
        ShortLine::Set { dev, usage, value } => {
            let (place, control) = control_of(devices, *dev, *usage)?;
            Ok(Action::Change(place, Change::Set(control, *value)))
        }
        ShortLine::Move { dev, usage, by } => {
            let (place, control) = control_of(devices, *dev, *usage)?;
            Ok(Action::Change(place, Change::Move(control, *by)))
        }
        ShortLine::Frame { count } => Ok(Action::Frames(*count)),
        ShortLine::Halt { dev } => Ok(Action::Halt(place_of(devices, *dev)?)),
        ShortLine::Reset { dev } => Ok(Action::Reset(place_of(devices, *dev)?)),
        ShortLine::Poll { .. } | ShortLine::Control { .. } => Err(LineCause::NotServed),
    }
}

/// What ends the reading where a device can't be: memory, or the cause of its line.
fn device_fault(number: usize, fault: DeviceFault) -> ServeFault
    ensures { (result ≡ ServeFault.Memory) ⊎ (result ≡ ServeFault.Line number (LineCause.Device fault)) }
{
    match fault.cause {
        DeviceCause::Memory | DeviceCause::Layout(hid_layout::Cause::Memory) => ServeFault::Memory,
        _ => ServeFault::Line(number, LineCause::Device(fault)),
    }
}

/// The first line of some bytes, without its end, and the bytes after it.
#[tactic(auto, using(crate::proofs::ScriptLemmas::first_of, crate::proofs::ScriptLemmas::only_of))]
fn first_line(bytes: &[u8]) -> (&[u8], &[u8])
    requires { 0 < length bytes.now }
    ensures lines { lines bytes.now ≡ result.0.now ∷ lines result.1.now }
    ensures shorter { length result.1.now < length bytes.now }
{
    match split_line(bytes) {
        Some((line, later)) => (without_return(line), later),
        None => (bytes, &[]),
    }
}

/// A line without the one return at its end, if it has one.
fn without_return(line: &[u8]) -> &[u8]
    ensures { result.now ≡ strip_carriage_return line.now }
{
    match line {
        [shorter @ .., b'\r'] => shorter,
        _ => line,
    }
}

impl Script {
    /// A script of which no line came.
    pub fn new(alloc: Global) -> Script
        ensures { read_of result ≡ nothing_read }
    {
        Script {
            devices: Vec::new(alloc),
            actions: Vec::new(alloc),
            lines: Vec::new(alloc),
        }
    }

    /// Adds a device with this descriptor, by the number of its line.
    ///
    /// # Errors
    /// There are seven devices already, or there can be no such device; or memory ran out.
    pub fn attach(
        &mut self,
        alloc: Global,
        number: usize,
        boot: Boot,
        descriptor: &[u8],
    ) -> Result<(), ServeFault>
        ensures ok { OnOk result (Attaches (read_of self.old) boot descriptor.now (Ok (read_of self.new))) }
        ensures err { IfErr result (λ fault. (fault ≡ ServeFault.Memory) ⊎ ((cause : RefusalCause)
            × (fault ≡ ServeFault.Line number cause) × Attaches (read_of self.old) boot descriptor.now (Err cause))) }
    {
        if self.devices.len() >= MAX_DEVICES {
            return Err(ServeFault::Line(number, LineCause::TooManyDevices));
        }
        let config = Config {
            vendor: 0xFFFF,
            product: 0x0001,
            interval: 10,
            boot,
        };
        match ExportedDevice::new(alloc, &config, descriptor) {
            Ok(device) => match self.devices.push(device) {
                Ok(()) => Ok(()),
                Err(_) => Err(ServeFault::Memory),
            },
            Err(fault) => Err(device_fault(number, fault)),
        }
    }

    /// Adds an action, by the number of its line.
    ///
    /// # Errors
    /// Memory ran out.
    pub fn add(&mut self, number: usize, action: Action) -> Result<(), ServeFault>
        ensures ok { OnOk result (with_action (read_of self.old) number (Ok action) ≡ Ok (read_of self.new)) }
        ensures memory { IfErr result (λ fault. fault ≡ ServeFault.Memory) }
    {
        if self.actions.push(action).is_err() || self.lines.push(number).is_err() {
            return Err(ServeFault::Memory);
        }
        Ok(())
    }

    /// Takes a line, without its end, by its number.
    ///
    /// # Errors
    /// The line is refused, or memory ran out.
    pub fn take(&mut self, alloc: Global, number: usize, line: &[u8]) -> Result<(), ServeFault>
        ensures ok { OnOk result (LineGives (read_of self.old) number line.now (Ok (read_of self.new))) }
        ensures err { IfErr result (λ fault. (fault ≡ ServeFault.Memory) ⊎ ((cause : RefusalCause)
            × (fault ≡ ServeFault.Line number cause) × LineGives (read_of self.old) number line.now (Err cause))) }
    {
        match &read_line(line) {
            Ok(line) => self.take_meaning(alloc, number, line),
            Err(fault) => Err(ServeFault::Line(number, LineCause::Text(*fault))),
        }
    }

    /// Takes what a line says.
    fn take_meaning(&mut self, alloc: Global, number: usize, line: &Line) -> Result<(), ServeFault>
        ensures ok { OnOk result (Gives (read_of self.old) number line.now (Ok (read_of self.new))) }
        ensures err { IfErr result (λ fault. (fault ≡ ServeFault.Memory) ⊎ ((cause : RefusalCause)
            × (fault ≡ ServeFault.Line number cause) × Gives (read_of self.old) number line.now (Err cause))) }
    {
        match line {
            Line::Nothing => Ok(()),
            Line::Device { boot, bytes, .. } => self.attach(alloc, number, *boot, bytes.as_slice()),
            Line::Step(short) => self.take_step(number, short),
            Line::Layout { .. } | Line::Values { .. } | Line::Begin { .. } => Err(ServeFault::Line(
                number,
                LineCause::NotServed,
            )),
        }
    }

    /// Takes a short line, by its number.
    ///
    /// # Errors
    /// The line is refused, or memory ran out.
    pub fn take_step(&mut self, number: usize, line: &ShortLine) -> Result<(), ServeFault>
        ensures ok { OnOk result (Gives (read_of self.old) number (Line.Step line.now) (Ok (read_of self.new))) }
        ensures err { IfErr result (λ fault. (fault ≡ ServeFault.Memory) ⊎ ((cause : RefusalCause)
            × (fault ≡ ServeFault.Line number cause) × Gives (read_of self.old) number (Line.Step line.now) (Err cause))) }
    {
        match action_of(self.devices.as_slice(), line) {
            Ok(action) => self.add(number, action),
            Err(cause) => Err(ServeFault::Line(number, cause)),
        }
    }

    /// Takes all lines.
    fn take_all(&mut self, alloc: Global, bytes: &[u8]) -> Result<(), ServeFault>
        ensures ok { OnOk result (AllGive (read_of self.old) 1 (lines bytes.now) (read_of self.new)) }
        ensures err { IfErr result (λ fault. (fault ≡ ServeFault.Memory) ⊎ ((at : ℕ) × (cause : RefusalCause)
            × (fault ≡ ServeFault.Line at cause) × IsRefusedAt (read_of self.old) 1 (lines bytes.now) at cause)) }
    {
        let mut rest = bytes;
        let mut number: usize = 0;
        while !rest.is_empty() {
            let (line, later) = first_line(rest);
            number += 1;
            self.take(alloc, number, line)?;
            rest = later;
        }
        Ok(())
    }
}

/// The script of these bytes.
///
/// # Errors
/// The first line that is refused, by its number; E2 where there is no device; E5 where memory runs out. Of changes those of a
/// control that isn't there are refused here (U1), and all others once they come: [`usbip_serving::Serving::turn`] says which (U2 to U7).
pub fn read_script(alloc: Global, bytes: &[u8]) -> Result<Script, ServeFault>
    ensures ok { IfOk result (λ script. AllGive nothing_read 1 (lines bytes.now) (read_of script)
        × ((read_of script).devices ≢ [])) }
    ensures err { IfErr result (λ fault. (fault ≡ ServeFault.Memory)
        ⊎ (((fault ≡ ServeFault.NoDevices) × ((after : ReadScript) × AllGive nothing_read 1 (lines bytes.now) after × (after.devices ≡ [])))
        ⊎ ((at : ℕ) × (cause : RefusalCause) × (fault ≡ ServeFault.Line at cause)
        × IsRefusedAt nothing_read 1 (lines bytes.now) at cause))) }
{
    let mut script = Script::new(alloc);
    match script.take_all(alloc, bytes) {
        Ok(()) if script.devices.is_empty() => {
            drop(script);
            Err(ServeFault::NoDevices)
        }
        Ok(()) => Ok(script),
        Err(fault) => {
            drop(script);
            Err(fault)
        }
    }
}
