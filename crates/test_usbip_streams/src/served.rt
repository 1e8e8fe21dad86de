//! Streams of a host, given to a server with three devices.

use crate::dice::Dice;
use crate::host_stream::write_stream;
use crate::ledger::Ledger;
use crate::messages::{Messages, word};
use crate::stop::{Stop, right};
use crate::tally::Tally;
use std::alloc::Global;
use usbip_export::{
    Boot, Change, Config, ControlId, ExportFault, ExportedDevice, KEYBOARD, MAX_ANSWER,
    MAX_DEVICES, MOUSE, Usage,
};
use usbip_serving::{Action, Serving, Taken, Turn};

/// Report 1: eight keys and X; report 2: Y; Output report 2 of a byte, Feature report 3 of two.
pub const NUMBERED: [u8; 74] = [
    0x05, 0x01, 0x09, 0x02, 0xA1, 0x01, 0x85, 0x01, 0x05, 0x09, 0x19, 0x01, 0x29, 0x08, 0x15, 0x00,
    0x25, 0x01, 0x75, 0x01, 0x95, 0x08, 0x81, 0x02, 0x05, 0x01, 0x09, 0x30, 0x15, 0x81, 0x25, 0x7F,
    0x75, 0x08, 0x95, 0x01, 0x81, 0x06, 0x85, 0x02, 0x09, 0x31, 0x81, 0x06, 0x05, 0x08, 0x19, 0x01,
    0x29, 0x08, 0x15, 0x00, 0x25, 0x01, 0x75, 0x01, 0x95, 0x08, 0x91, 0x02, 0x85, 0x03, 0x06, 0x00,
    0xFF, 0x09, 0x01, 0x75, 0x08, 0x95, 0x02, 0xB1, 0x02, 0xC0,
];

/// Devices that are served, and what is kept from one stream to the next.
#[derive(Drop)]
pub struct Served {
    devices: Vec<ExportedDevice>,
    keys: Vec<Action>,
    actions: Vec<Action>,
    room: Vec<u8>,
    messages: Messages,
    stream: Vec<u8>,
    ledger: Ledger,
}

/// A device of a report descriptor. It promises nothing, so that what it does is before the prover here alone.
fn device_of(alloc: Global, boot: Boot, descriptor: &[u8]) -> Result<ExportedDevice, Stop> {
    let config = Config {
        vendor: 0xFFFF,
        product: 1,
        interval: 10,
        boot,
    };
    match ExportedDevice::new(alloc, &config, descriptor) {
        Ok(device) => Ok(device),
        Err(_) => Err(Stop::Wrong("a device that can't be made")),
    }
}

/// What may be done at a device: its keys go down and up, its buttons too, and X moves.
fn add_changes(keys: &mut Vec<Action>, place: usize, device: &ExportedDevice) -> Result<(), Stop> {
    for id in 1..8u16 {
        for page in [7, 9] {
            let usage = Usage {
                page,
                id: if page == 7 { id + 3 } else { id },
            };
            if let Some(control) = control_of(device, usage) {
                keys.push(Action::Change(place, Change::Press(control)))?;
                keys.push(Action::Change(place, Change::Release(control)))?;
            }
        }
    }
    Ok(())
}

/// Gives a server a message, if that is as long as it wants.
fn take(
    serving: &mut Serving,
    devices: &mut [ExportedDevice],
    bytes: &[u8],
    room: &mut [u8],
) -> Option<Result<Taken, ExportFault>> {
    if bytes.len() != serving.wants() || devices.len() > MAX_DEVICES || room.len() < MAX_ANSWER {
        return None;
    }
    Some(serving.take(devices, bytes, room))
}

/// Does one thing that is to be done.
fn turn(
    serving: &mut Serving,
    devices: &mut [ExportedDevice],
    actions: &[Action],
    now: u64,
    room: &mut [u8],
) -> Result<Turn, Stop> {
    if room.len() < MAX_ANSWER {
        return Err(Stop::Memory);
    }
    match serving.turn(devices, actions, now, room) {
        Ok(turn) => Ok(turn),
        Err(_) => Err(Stop::Wrong("a change that is refused")),
    }
}

/// Time passes.
fn pass(serving: &mut Serving, devices: &mut [ExportedDevice], now: u64) {
    serving.pass(devices, now);
}

/// The connection ends.
fn end(serving: &mut Serving, devices: &mut [ExportedDevice]) {
    serving.end(devices);
}

/// Each device is reset, so that it isn't configured.
fn reset(devices: &mut [ExportedDevice]) {
    for device in devices {
        device.reset();
    }
}

/// The control of a usage.
fn control_of(device: &ExportedDevice, usage: Usage) -> Option<ControlId> {
    device.find(usage)
}

/// Whether no connection has a device, and no submit waits at it.
fn is_free(device: &ExportedDevice) -> bool {
    !device.is_imported() && !device.is_asked()
}

impl Served {
    pub fn new(alloc: Global) -> Result<Served, Stop> {
        let mut devices = Vec::new(alloc);
        devices.push(device_of(alloc, Boot::Keyboard, &KEYBOARD)?)?;
        devices.push(device_of(alloc, Boot::Mouse, &MOUSE)?)?;
        devices.push(device_of(alloc, Boot::No, &NUMBERED)?)?;
        let mut keys = Vec::new(alloc);
        for (place, device) in devices.iter().enumerate() {
            add_changes(&mut keys, place, device)?;
        }
        let mut room = Vec::new(alloc);
        room.resize(MAX_ANSWER, 0)?;
        Ok(Served {
            ledger: Ledger::new(alloc, devices.len()),
            devices,
            keys,
            actions: Vec::new(alloc),
            room,
            messages: Messages::new(alloc)?,
            stream: Vec::new(alloc),
        })
    }

    /// The bytes of the last stream.
    pub fn stream(&self) -> &[u8] {
        &self.stream
    }

    /// Chooses what is done at the devices while a stream is played.
    fn choose_actions(&mut self, dice: &mut Dice) -> Result<(), Stop> {
        self.actions.clear();
        let count = dice.below(30);
        for _ in 0..count {
            let place = dice.below(3);
            let action = match dice.below(20) {
                0 => Action::Halt(place),
                1 => Action::Reset(place),
                2 | 3 => Action::Frames(u16::from(dice.byte() % 20)),
                _ => match self.keys.get(dice.below(self.keys.len())) {
                    Some(key) => *key,
                    None => Action::Frames(1),
                },
            };
            self.actions.push(action)?;
        }
        Ok(())
    }

    /// Plays one stream.
    pub fn play(&mut self, dice: &mut Dice, tally: &mut Tally) -> Result<(), Stop> {
        write_stream(&mut self.stream, &mut self.messages, dice)?;
        self.choose_actions(dice)?;
        reset(&mut self.devices);
        self.ledger.begin();
        let mut serving = Serving::new();
        let played = self.play_pieces(&mut serving, dice, tally);
        end(&mut serving, &mut self.devices);
        played?;
        right(serving.wants() == 0, "something is awaited after the end")?;
        self.is_quiet(&mut serving, 1_000_000)?;
        right(self.are_free(), "a device that isn't free after the end")
    }

    /// Gives the server the stream in pieces, and time after each.
    fn play_pieces(
        &mut self,
        serving: &mut Serving,
        dice: &mut Dice,
        tally: &mut Tally,
    ) -> Result<(), Stop> {
        let most = [2, 20, 60, 200, 5_000]
            .get(dice.below(5))
            .copied()
            .unwrap_or(1);
        let length = self.stream.len();
        let mut came = 0usize;
        let mut taken = 0usize;
        let mut now = 0u64;
        for _ in 0..length {
            came = came
                .saturating_add(1)
                .saturating_add(dice.below(most))
                .min(length);
            taken = self.take(serving, taken, came, tally)?;
            now = now.saturating_add(u64::from(dice.byte() % 6));
            pass(serving, &mut self.devices, now);
            self.turn(serving, now)?;
            if dice.one_in(40) {
                self.ask_again()?;
            }
            if came == length || serving.wants() == 0 {
                return Ok(());
            }
        }
        Ok(())
    }

    /// Gives the server all messages that came whole, and gives how far it took the stream.
    fn take(
        &mut self,
        serving: &mut Serving,
        from: usize,
        to: usize,
        tally: &mut Tally,
    ) -> Result<usize, Stop> {
        let mut taken = from;
        for _ in 0..=self.stream.len() {
            let wanted = serving.wants();
            right(wanted == self.ledger.wants(), "another length is awaited")?;
            let next = taken.saturating_add(wanted);
            if wanted == 0 || next > to {
                break;
            }
            let fault = self.take_message(serving, taken, next)?;
            taken = next;
            if let Some(fault) = fault {
                tally.refuse(&fault)?;
                right(
                    serving.wants() == 0 && self.are_free(),
                    "a refusal that doesn't end it",
                )?;
                self.is_quiet(serving, 1_000_000)?;
            }
        }
        Ok(taken)
    }

    /// Gives the server a message, and judges its answer.
    fn take_message(
        &mut self,
        serving: &mut Serving,
        from: usize,
        to: usize,
    ) -> Result<Option<ExportFault>, Stop> {
        let Some(bytes) = self.stream.get(from..to) else {
            return Ok(None);
        };
        match take(serving, &mut self.devices, bytes, &mut self.room) {
            Some(Ok(taken)) => {
                let answer = self.room.get(..taken.length).unwrap_or(&[]);
                self.ledger.took(bytes, Some(answer))?;
                Ok(None)
            }
            Some(Err(fault)) => {
                self.ledger.took(bytes, None)?;
                Ok(Some(fault))
            }
            None => Ok(None),
        }
    }

    /// Does one thing that is to be done.
    fn turn_once(&mut self, serving: &mut Serving, now: u64) -> Result<Turn, Stop> {
        turn(
            serving,
            &mut self.devices,
            &self.actions,
            now,
            &mut self.room,
        )
    }

    /// Does what is to be done until the server waits.
    fn turn(&mut self, serving: &mut Serving, now: u64) -> Result<(), Stop> {
        for _ in 0..100 {
            match self.turn_once(serving, now)? {
                Turn::Sends(length) => {
                    let report = self.room.get(..length).unwrap_or(&[]);
                    self.ledger.sent_report(report)?;
                }
                Turn::Acted => {}
                Turn::Waits => return Ok(()),
            }
        }
        Err(Stop::Wrong("turns without an end"))
    }

    /// Nothing is sent and nothing is done after the end.
    fn is_quiet(&mut self, serving: &mut Serving, now: u64) -> Result<(), Stop> {
        match self.turn_once(serving, now)? {
            Turn::Waits => Ok(()),
            _ => Err(Stop::Wrong("something is sent after the end")),
        }
    }

    /// Whether no device has a connection, and no submit waits.
    fn are_free(&self) -> bool {
        self.devices.iter().all(|device| is_free(device))
    }

    /// Another host asks for the device that this one has: it is busy.
    fn ask_again(&mut self) -> Result<(), Stop> {
        let Some(place) = self.ledger.place() else {
            return Ok(());
        };
        let mut id = [0; 32];
        id[..3].copy_from_slice(&[b'1', b'-', b'1'.wrapping_add(place.to_le_bytes()[0])]);
        let mut other = Serving::new();
        let head = [1, 0x11, 0x80, 3, 0, 0, 0, 0];
        let asked = take(&mut other, &mut self.devices, &head, &mut self.room);
        right(matches!(asked, Some(Ok(_))), "an import that is refused")?;
        let Some(Ok(told)) = take(&mut other, &mut self.devices, &id, &mut self.room) else {
            return Err(Stop::Wrong("a bus ID that is refused"));
        };
        let answer = self.room.get(..told.length).unwrap_or(&[]);
        let is_busy = answer.len() == 8
            && word(answer, 0) == 0x0111_0003
            && matches!(word(answer, 4), 1 | 2);
        right(is_busy && other.wants() == 0, "a device with two hosts")
    }

    pub fn ledger(&self) -> &Ledger {
        &self.ledger
    }
}
