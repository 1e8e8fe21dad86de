//! A server with a device of three interfaces, which answers what a session asks: as it should, and every part of it changed.

use crate::dice::Dice;
use crate::messages::{HEADER, add_mutated, add_words, word};
use crate::served::NUMBERED;
use crate::stop::{Stop, right};
use std::alloc::Global;
use usbip_export::{KEYBOARD, MOUSE};

/// A device of USB 2.0 whose class is that of its interfaces.
const DEVICE: [u8; 18] = [18, 1, 0, 2, 0, 0, 0, 64, 0xFF, 0xFF, 1, 0, 0, 1, 0, 0, 0, 1];

/// In bytes, an interface descriptor, a HID descriptor and an endpoint descriptor.
const INTERFACE: u8 = 25;

/// A submit in flight.
#[derive(Clone, Copy)]
pub struct Flight {
    pub seqnum: u32,
    pub is_read: bool,
    pub endpoint: u32,
    pub length: u32,
}

/// A server, as far as it has come.
#[derive(Drop)]
pub struct Answering {
    /// How many interfaces its device has.
    interfaces: u8,
    /// Once in so many messages one is changed.
    rate: usize,
    /// How many reports are still to come.
    reports: usize,
    /// The submits that aren't answered yet.
    asked: Vec<Flight>,
    message: Vec<u8>,
    last: Vec<u8>,
    /// What was sent, as it comes to the session.
    pub sent: Vec<u8>,
}

/// In bytes, as a header has it.
fn length_of(data: &[u8]) -> u32 {
    u32::try_from(data.len()).unwrap_or(0)
}

/// The report descriptor of an interface.
fn report_descriptor(interface: u8) -> &'static [u8] {
    match interface {
        0 => &KEYBOARD,
        1 => &MOUSE,
        _ => &NUMBERED,
    }
}

/// Adds the configuration of so many interfaces: a boot keyboard, a boot mouse, and one with numbered reports (USB 2.0, 9.6.3 to
/// 9.6.6; HID 1.11, 6.2.1).
fn add_configuration(out: &mut Vec<u8>, interfaces: u8) -> Result<(), Stop> {
    let total = interfaces.wrapping_mul(INTERFACE).wrapping_add(9);
    out.extend_from_slice(&[9, 2, total, 0, interfaces, 1, 0, 0xA0, 50])?;
    for number in 0..interfaces.min(3) {
        let protocol = if number < 2 { number + 1 } else { 0 };
        let boot = u8::from(protocol != 0);
        let [length, ..] = report_descriptor(number).len().to_le_bytes();
        out.extend_from_slice(&[9, 4, number, 0, 1, 3, boot, protocol, 0])?;
        out.extend_from_slice(&[9, 0x21, 0x11, 1, 0, 1, 0x22, length, 0])?;
        out.extend_from_slice(&[7, 5, 0x81 + number, 3, 8, 0, 10])?;
    }
    Ok(())
}

impl Answering {
    pub fn new(alloc: Global) -> Answering {
        Answering {
            interfaces: 1,
            rate: 1,
            reports: 0,
            asked: Vec::new(alloc),
            message: Vec::new(alloc),
            last: Vec::new(alloc),
            sent: Vec::new(alloc),
        }
    }

    /// A new connection.
    pub fn begin(&mut self, dice: &mut Dice) {
        self.interfaces = dice.byte() % 3 + 1;
        self.rate = [1_000_000, 60, 30, 12, 3]
            .get(dice.below(5))
            .copied()
            .unwrap_or(1);
        self.reports = dice.below(30);
        self.asked.clear();
        self.last.clear();
        self.sent.clear();
    }

    /// Sends the message that was made, as it is or changed.
    fn send(&mut self, dice: &mut Dice) -> Result<(), Stop> {
        add_mutated(&mut self.sent, &self.message, &self.last, dice, self.rate)?;
        self.last.clear();
        self.last.extend_from_slice(&self.message)?;
        Ok(())
    }

    /// Answers the request for the device, in two messages.
    fn import(&mut self, dice: &mut Dice) -> Result<(), Stop> {
        let status = match dice.below(60) {
            0 => 1,
            1 => 2,
            2 => 4,
            _ => 0,
        };
        self.message.clear();
        add_words(&mut self.message, &[0x0111_0003, status])?;
        self.send(dice)?;
        self.message.clear();
        self.message.resize(288, 0)?;
        add_words(
            &mut self.message,
            &[1, 2, 2, 0xFFFF_0001, 0x0100_0000, 0x0000_0101],
        )?;
        self.send(dice)
    }

    /// Begins RET_SUBMIT.
    fn reply(&mut self, seqnum: u32, status: u32, length: u32) -> Result<(), Stop> {
        self.message.clear();
        add_words(
            &mut self.message,
            &[3, seqnum, 0, 0, 0, status, length, 0, 0, 0, 0, 0],
        )?;
        Ok(())
    }

    /// The data of a control read: a descriptor, or a single 0.
    fn answer_of(&self, alloc: Global, setup: u32, index: u8) -> Result<Vec<u8>, Stop> {
        let mut data = Vec::new(alloc);
        match setup {
            0x8006_0001 => data.extend_from_slice(&DEVICE)?,
            0x8006_0002 => add_configuration(&mut data, self.interfaces)?,
            0x8106_0022 => data.extend_from_slice(report_descriptor(index))?,
            _ => data.push(0)?,
        }
        Ok(data)
    }

    /// Takes a message of the session: it is whole, and of the device.
    pub fn hear(&mut self, alloc: Global, bytes: &[u8], dice: &mut Dice) -> Result<(), Stop> {
        if word(bytes, 0) == 0x0111_8003 {
            right(
                bytes.len() == 40,
                "a request for a device of another length",
            )?;
            return self.import(dice);
        }
        let flight = Flight {
            seqnum: word(bytes, 4),
            is_read: word(bytes, 12) == 1,
            endpoint: word(bytes, 16),
            length: word(bytes, 24),
        };
        let data = if flight.is_read {
            0
        } else {
            flight.length as usize
        };
        right(word(bytes, 0) == 1, "no submit")?;
        right(
            bytes.len().wrapping_sub(data) == HEADER,
            "a submit of another length",
        )?;
        if flight.endpoint != 0 {
            right(word(bytes, 36) > 0, "an interval of 0")?;
            self.asked.push(flight)?;
            return Ok(());
        }
        let setup = word(bytes, 40);
        self.control(alloc, &flight, setup, word(bytes, 44), dice)
    }

    /// Answers a control transfer; once in forty times by STALL or a failure.
    fn control(
        &mut self,
        alloc: Global,
        flight: &Flight,
        setup: u32,
        rest: u32,
        dice: &mut Dice,
    ) -> Result<(), Stop> {
        let [index, _, low, high] = rest.to_be_bytes();
        let limit = u32::from(u16::from_le_bytes([low, high]));
        right(flight.length == limit, "a length that isn't wLength")?;
        if dice.one_in(40) {
            let status = if dice.one_in(2) {
                0xFFFF_FFE0
            } else {
                0xFFFF_FFB9
            };
            self.reply(flight.seqnum, status, 0)?;
        } else if flight.is_read {
            let data = self.answer_of(alloc, setup, index)?;
            let data = data.get(..flight.length as usize).unwrap_or(&data);
            self.reply(flight.seqnum, 0, length_of(data))?;
            self.message.extend_from_slice(data)?;
        } else {
            self.reply(flight.seqnum, 0, flight.length)?;
        }
        self.send(dice)
    }

    /// Adds a report of the interface that an endpoint has: keys, buttons and motions, some of them held over.
    fn add_report(&mut self, endpoint: u32, dice: &mut Dice) -> Result<(), Stop> {
        let few = dice.byte() & 3;
        let key = if few == 0 { 0 } else { 3 + few };
        match endpoint {
            1 => self
                .message
                .extend_from_slice(&[dice.byte() & 2, 0, key, 0, 0, 0, 0, 0])?,
            2 => self.message.extend_from_slice(&[few, dice.byte(), 0])?,
            _ if few == 3 => self.message.extend_from_slice(&[2, dice.byte()])?,
            _ => self.message.extend_from_slice(&[1, few, dice.byte()])?,
        }
        Ok(())
    }

    /// Sends a report to one of the submits that wait, if it has more to send. Gives whether it did.
    pub fn report(&mut self, dice: &mut Dice) -> Result<bool, Stop> {
        let place = dice.below(self.asked.len());
        if self.reports == 0 || place >= self.asked.len() {
            return Ok(false);
        }
        self.reports -= 1;
        let flight = self.asked.remove(place);
        let status = match dice.below(40) {
            0 => 0xFFFF_FFE0,
            1 => 0xFFFF_FFB9,
            2 if dice.one_in(4) => 0xFFFF_FF94,
            _ => 0,
        };
        self.reply(flight.seqnum, status, 0)?;
        if status == 0 {
            self.add_report(flight.endpoint, dice)?;
            let length = length_of(self.message.get(HEADER..).unwrap_or(&[]));
            for (to, byte) in self.message.iter_mut().skip(24).zip(length.to_be_bytes()) {
                *to = byte;
            }
        }
        self.send(dice)?;
        Ok(true)
    }
}
