//! The lines of the bench: devices, what is done at them, and what is expected of the host.

ghost use Rattle.std.specs.Prelude.{◌≡◌, ◌⊎◌, [], ◌∷◌, ◌++◌, OnOk, IfErr, Ok, Err};
ghost use Rattle.hid_text.specs.Words.{words_of, hex_of};
ghost use Rattle.lab_lines.specs.ControlNames.{named_of};
ghost use Rattle.lab_lines.specs.Keys.{key_of};
ghost use Rattle.lab_lines.specs.LabLines.{said_of};
ghost use Rattle.lab_lines.specs.LabLines as lab;
ghost use Rattle.lab_lines.specs.Typing.{characters_of};
ghost use Rattle.lab_serving.specs.Parts.{character_lines, parts_of, plain_lines, shifted_lines, typed_lines};
ghost use Rattle.lab_serving.specs.Reading.{AttachesHex, ExpectsMore, PartGives, PartsGive, Reads, SaidGives, change_of, control_meant, is_over, lab_read_of, nothing_read_yet};
ghost use Rattle.usbip_script.specs.Scripts.{read_of};
ghost use Rattle.usbip_script.specs.declared.fault.LineCause.{LineCause as RefusalCause};

use crate::expecting::{ExpectedKind, Expecting, expected_refusal};
use hid_layout::{ControlId, Usage};
use hid_requests::Boot;
use hid_snapshots::{Change, ChangeFault};
use hid_text::{ChangeKind, LineFault, ShortLine};
use lab_lines::{ControlName, LEFT_SHIFT, LabLine, TypedText, find_control, key_of, read_hex};
use std::alloc::Global;
use usbip_export::ExportedDevice;
use usbip_script::{LineCause, Script, ServeFault, place_of};
use usbip_serving::Action;

/// How many actions are read at most: all lines are read before anything is served.
pub const MAX_ACTIONS: usize = 1 << 20;

/// How many expectations are read at most.
pub const MAX_EXPECTATIONS: usize = 1 << 14;

/// The devices of a script of the bench, what is done at them, and what is expected of the host.
#[derive(Drop)]
pub struct LabScript {
    pub script: Script,
    pub expectations: Vec<Expecting>,
}

/// The change of this control.
fn change_of(wanted: ChangeKind, control: ControlId) -> Change
    ensures { result ≡ change_of wanted control }
{
    match wanted {
        ChangeKind::Press => Change::Press(control),
        ChangeKind::Release => Change::Release(control),
        ChangeKind::Null => Change::Null(control),
        ChangeKind::Set(value) => Change::Set(control, value),
        ChangeKind::Move(by) => Change::Move(control, by),
    }
}

/// The place of a device by its number, and its control that is named.
fn control_meant(
    devices: &[ExportedDevice],
    dev: u8,
    control: &ControlName<'_>,
) -> Result<(usize, ControlId), LineCause>
    ensures { result ≡ control_meant devices.now dev (named_of control.now) }
{
    let place = place_of(devices, dev)?;
    match find_control(devices[place].layout(), control) {
        Some(control) => Ok((place, control)),
        None => Err(LineCause::Change(ChangeFault::NoSuchControl)),
    }
}

impl LabScript {
    /// A script of which no line came.
    pub fn new(alloc: Global) -> LabScript
        ensures { lab_read_of result ≡ nothing_read_yet }
    {
        LabScript {
            script: Script::new(alloc),
            expectations: Vec::new(alloc),
        }
    }

    /// Whether too much was read.
    fn is_over(&self) -> bool
        ensures { result ≡ is_over (lab_read_of self.now) }
    {
        self.script.actions.len() > MAX_ACTIONS || self.expectations.len() > MAX_EXPECTATIONS
    }

    /// Takes a short line of a script.
    fn take_short(&mut self, number: usize, line: &ShortLine) -> Result<(), ServeFault>
        ensures ok { OnOk result (PartGives (lab_read_of self.old) number (lab.Short line.now) (Ok (lab_read_of self.new))) }
        ensures err { IfErr result (λ fault. (fault ≡ ServeFault.Memory) ⊎ ((cause : RefusalCause)
            × (fault ≡ ServeFault.Line number cause) × PartGives (lab_read_of self.old) number (lab.Short line.now) (Err cause))) }
    {
        self.script.take_step(number, line)
    }

    /// Takes the lines of a key that goes down and up.
    fn take_plain(&mut self, number: usize, dev: u8, usage: Usage) -> Result<(), ServeFault>
        ensures ok { OnOk result (PartsGive (lab_read_of self.old) number (plain_lines dev usage) (Ok (lab_read_of self.new))) }
        ensures err { IfErr result (λ fault. (fault ≡ ServeFault.Memory) ⊎ ((cause : RefusalCause)
            × (fault ≡ ServeFault.Line number cause) × PartsGive (lab_read_of self.old) number (plain_lines dev usage) (Err cause))) }
    {
        self.take_short(number, &ShortLine::Press { dev, usage })?;
        self.take_short(number, &ShortLine::Release { dev, usage })?;
        Ok(())
    }

    /// Takes the lines of a key that goes down and up while Shift is held.
    fn take_shifted(&mut self, number: usize, dev: u8, usage: Usage) -> Result<(), ServeFault>
        ensures ok { OnOk result (PartsGive (lab_read_of self.old) number (shifted_lines dev usage) (Ok (lab_read_of self.new))) }
        ensures err { IfErr result (λ fault. (fault ≡ ServeFault.Memory) ⊎ ((cause : RefusalCause)
            × (fault ≡ ServeFault.Line number cause) × PartsGive (lab_read_of self.old) number (shifted_lines dev usage) (Err cause))) }
    {
        let shift = LEFT_SHIFT;
        self.take_short(number, &ShortLine::Press { dev, usage: shift })?;
        self.take_short(number, &ShortLine::Press { dev, usage })?;
        self.take_short(number, &ShortLine::Release { dev, usage })?;
        self.take_short(number, &ShortLine::Release { dev, usage: shift })?;
        Ok(())
    }

    /// Takes the lines of a character that is typed.
    fn take_character(&mut self, number: usize, dev: u8, character: u8) -> Result<(), ServeFault>
        ensures ok { OnOk result (PartsGive (lab_read_of self.old) number (character_lines dev (key_of character)) (Ok (lab_read_of self.new))) }
        ensures err { IfErr result (λ fault. (fault ≡ ServeFault.Memory) ⊎ ((cause : RefusalCause)
            × (fault ≡ ServeFault.Line number cause) × PartsGive (lab_read_of self.old) number (character_lines dev (key_of character)) (Err cause))) }
    {
        match key_of(character) {
            Some(key) if key.is_shifted => self.take_shifted(number, dev, key.usage),
            Some(key) => self.take_plain(number, dev, key.usage),
            None => Ok(()),
        }
    }

    /// Takes the lines of a text that is typed.
    fn take_text(&mut self, number: usize, dev: u8, text: TypedText<'_>) -> Result<(), ServeFault>
        ensures ok { OnOk result (PartsGive (lab_read_of self.old) number (typed_lines dev (characters_of text.entry.rest.now)) (Ok (lab_read_of self.new))) }
        ensures err { IfErr result (λ fault. (fault ≡ ServeFault.Memory) ⊎ ((cause : RefusalCause)
            × (fault ≡ ServeFault.Line number cause) × PartsGive (lab_read_of self.old) number (typed_lines dev (characters_of text.entry.rest.now)) (Err cause))) }
    {
        let mut text = text;
        while let Some(character) = text.next_character() {
            self.take_character(number, dev, character)?;
        }
        Ok(())
    }

    /// Takes the change of a control that a line names.
    fn take_change(
        &mut self,
        number: usize,
        dev: u8,
        control: &ControlName<'_>,
        wanted: ChangeKind,
    ) -> Result<(), ServeFault>
        ensures ok { OnOk result (PartGives (lab_read_of self.old) number (lab.Change dev (named_of control.now) wanted)
            (Ok (lab_read_of self.new))) }
        ensures err { IfErr result (λ fault. (fault ≡ ServeFault.Memory) ⊎ ((cause : RefusalCause)
            × (fault ≡ ServeFault.Line number cause)
            × PartGives (lab_read_of self.old) number (lab.Change dev (named_of control.now) wanted) (Err cause))) }
    {
        match control_meant(self.script.devices.as_slice(), dev, control) {
            Ok((place, control)) => self
                .script
                .add(number, Action::Change(place, change_of(wanted, control))),
            Err(cause) => Err(ServeFault::Line(number, cause)),
        }
    }

    /// Takes the click of a control: it is pressed and let go.
    fn take_click(
        &mut self,
        number: usize,
        dev: u8,
        control: &ControlName<'_>,
    ) -> Result<(), ServeFault>
        ensures ok { OnOk result (PartsGive (lab_read_of self.old) number (parts_of (lab.Click dev (named_of control.now)))
            (Ok (lab_read_of self.new))) }
        ensures err { IfErr result (λ fault. (fault ≡ ServeFault.Memory) ⊎ ((cause : RefusalCause)
            × (fault ≡ ServeFault.Line number cause)
            × PartsGive (lab_read_of self.old) number (parts_of (lab.Click dev (named_of control.now))) (Err cause))) }
    {
        self.take_change(number, dev, control, ChangeKind::Press)?;
        self.take_change(number, dev, control, ChangeKind::Release)
    }

    /// Takes a device whose descriptor stands in words of hex.
    fn take_device(
        &mut self,
        alloc: Global,
        number: usize,
        boot: Boot,
        hex: &[u8],
    ) -> Result<(), ServeFault>
        ensures ok { OnOk result (Reads (AttachesHex (read_of self.old.script) boot (hex_of (words_of hex.now)))
            (lab_read_of self.old) (Ok (lab_read_of self.new))) }
        ensures err { IfErr result (λ fault. (fault ≡ ServeFault.Memory) ⊎ ((cause : RefusalCause)
            × (fault ≡ ServeFault.Line number cause)
            × AttachesHex (read_of self.old.script) boot (hex_of (words_of hex.now)) (Err cause))) }
    {
        match read_hex(alloc, hex) {
            Ok(Some(bytes)) => self.script.attach(alloc, number, boot, bytes.as_slice()),
            Ok(None) => Err(ServeFault::Line(number, LineCause::Text(LineFault::BadHex))),
            Err(_) => Err(ServeFault::Memory),
        }
    }

    /// Adds an expectation.
    fn keep(&mut self, expecting: Expecting) -> Result<(), ServeFault>
        ensures ok { OnOk result (lab_read_of self.new
            ≡ record (lab_read_of self.old) { expected = (lab_read_of self.old).expected ++ expecting ∷ [] }) }
        ensures memory { IfErr result (λ fault. fault ≡ ServeFault.Memory) }
    {
        if self.expectations.push(expecting).is_err() {
            return Err(ServeFault::Memory);
        }
        Ok(())
    }

    /// Adds an expectation, once the actions so far were done.
    fn add_expectation(
        &mut self,
        alloc: Global,
        number: usize,
        line: &[u8],
        kind: ExpectedKind,
    ) -> Result<(), ServeFault>
        ensures ok { OnOk result (ExpectsMore (lab_read_of self.old) number (words_of line.now) kind (Ok (lab_read_of self.new))) }
        ensures memory { IfErr result (λ fault. fault ≡ ServeFault.Memory) }
    {
        let Ok(line) = Vec::from_slice(alloc, line) else {
            return Err(ServeFault::Memory);
        };
        let expecting = Expecting {
            at: self.script.actions.len(),
            number,
            kind,
            line,
        };
        self.keep(expecting)
    }

    /// Takes an expectation of a line.
    fn take_expectation(
        &mut self,
        alloc: Global,
        number: usize,
        line: &[u8],
    ) -> Result<(), ServeFault>
        ensures ok { OnOk result (PartGives (lab_read_of self.old) number (lab.Expect (words_of line.now))
            (Ok (lab_read_of self.new))) }
        ensures err { IfErr result (λ fault. (fault ≡ ServeFault.Memory) ⊎ ((cause : RefusalCause)
            × (fault ≡ ServeFault.Line number cause)
            × PartGives (lab_read_of self.old) number (lab.Expect (words_of line.now)) (Err cause))) }
    {
        match expected_refusal(self.script.devices.len(), line) {
            Some(cause) => Err(ServeFault::Line(number, cause)),
            None => self.add_expectation(alloc, number, line, ExpectedKind::Report),
        }
    }

    /// Takes what a line says, by the number of the line. A device whose descriptor is in a file, `repeat`, `end` and `include` give
    /// nothing by themselves.
    ///
    /// # Errors
    /// The line is refused, by its number: E1 where the host does it, and E11 where too much is read with it; or memory ran out.
    pub fn take(
        &mut self,
        alloc: Global,
        number: usize,
        line: LabLine<'_>,
    ) -> Result<(), ServeFault>
        ensures ok { OnOk result (SaidGives (lab_read_of self.old) number (said_of line.entry) (Ok (lab_read_of self.new))) }
        ensures err { IfErr result (λ fault. (fault ≡ ServeFault.Memory) ⊎ ((cause : RefusalCause)
            × (fault ≡ ServeFault.Line number cause)
            × SaidGives (lab_read_of self.old) number (said_of line.entry) (Err cause))) }
    {
        self.take_said(alloc, number, line)?;
        if self.is_over() {
            return Err(ServeFault::Line(number, LineCause::TooLong));
        }
        Ok(())
    }

    /// Takes what a line says, however much that is.
    fn take_said(
        &mut self,
        alloc: Global,
        number: usize,
        line: LabLine<'_>,
    ) -> Result<(), ServeFault>
        ensures ok { OnOk result (PartsGive (lab_read_of self.old) number (parts_of (said_of line.entry)) (Ok (lab_read_of self.new))) }
        ensures err { IfErr result (λ fault. (fault ≡ ServeFault.Memory) ⊎ ((cause : RefusalCause)
            × (fault ≡ ServeFault.Line number cause)
            × PartsGive (lab_read_of self.old) number (parts_of (said_of line.entry)) (Err cause))) }
    {
        match line {
            LabLine::Script(bytes) => self.script.take(alloc, number, bytes),
            LabLine::Short(short) => self.take_short(number, &short),
            LabLine::Device { boot, hex, .. } => self.take_device(alloc, number, boot, hex),
            LabLine::Change {
                dev,
                control,
                wanted,
            } => self.take_change(number, dev, &control, wanted),
            LabLine::Click { dev, control } => self.take_click(number, dev, &control),
            LabLine::Type { dev, text } => self.take_text(number, dev, text),
            LabLine::Wait { count } => self.take_short(number, &ShortLine::Frame { count }),
            LabLine::Expect(line) => self.take_expectation(alloc, number, line),
            LabLine::ExpectNone => self.add_expectation(alloc, number, b"", ExpectedKind::Nothing),
            LabLine::ExpectAny => self.add_expectation(alloc, number, b"", ExpectedKind::Anything),
            LabLine::Layout(_) | LabLine::Values(_) | LabLine::Lose { .. } => Err(ServeFault::Line(
                number,
                LineCause::NotServed,
            )),
            LabLine::Nothing
            | LabLine::DeviceFile { .. }
            | LabLine::Repeat { .. }
            | LabLine::End
            | LabLine::Include(_) => Ok(()),
        }
    }
}
