//! What a host may send to a server: what Linux sends, and every part of it changed.

use crate::dice::Dice;
use crate::messages::{Messages, add_mutated, add_noise, add_words};
use crate::stop::Stop;

/// The requests of Linux that bring up a keyboard, and those after it: LEDs, reports, halts and what the devices refuse.
const REQUESTS: [[u8; 8]; 20] = [
    [0x80, 6, 0, 1, 0, 0, 0x40, 0],
    [0x80, 6, 0, 1, 0, 0, 0x12, 0],
    [0x80, 6, 0, 6, 0, 0, 0x0A, 0],
    [0x80, 6, 0, 2, 0, 0, 0x09, 0],
    [0x80, 6, 0, 2, 0, 0, 0x22, 0],
    [0x00, 9, 1, 0, 0, 0, 0, 0],
    [0x21, 0x0A, 0, 0, 0, 0, 0, 0],
    [0x81, 6, 0, 0x22, 0, 0, 0x3F, 0],
    [0x21, 9, 0, 2, 0, 0, 1, 0],
    [0xA1, 1, 0, 1, 0, 0, 8, 0],
    [0xA1, 1, 3, 3, 0, 0, 0x40, 0],
    [0x21, 9, 3, 3, 0, 0, 3, 0],
    [0x21, 9, 2, 2, 0, 0, 2, 0],
    [0x02, 1, 0, 0, 0x81, 0, 0, 0],
    [0x02, 3, 0, 0, 0x81, 0, 0, 0],
    [0x80, 0, 0, 0, 0, 0, 2, 0],
    [0x80, 8, 0, 0, 0, 0, 1, 0],
    [0x21, 0x0A, 0, 1, 0, 0, 0, 0],
    [0xA1, 3, 0, 0, 0, 0, 1, 0],
    [0x00, 9, 0, 0, 0, 0, 0, 0],
];

/// How many of them bring up a keyboard.
const BRING_UP: usize = 9;

/// What a host sends: its messages, and how it numbers them.
#[derive(Drop)]
struct Host<'a> {
    messages: &'a mut Messages,
    seqnum: u32,
    /// The number of the device in commands.
    device: u32,
}

impl Host<'_> {
    fn next_number(&mut self, dice: &mut Dice) -> u32 {
        let gap = if dice.one_in(20) { dice.word() } else { 1 };
        self.seqnum = self.seqnum.wrapping_add(gap);
        self.seqnum
    }

    /// A submit: `is_read` where its data go to the host, and the data that go to the device.
    fn submit(
        &mut self,
        dice: &mut Dice,
        is_read: bool,
        endpoint: u32,
        length: u32,
        setup: &[u8; 8],
    ) -> Result<(), Stop> {
        self.messages.begin()?;
        let seqnum = self.next_number(dice);
        let head = [
            1,
            seqnum,
            self.device,
            u32::from(is_read),
            endpoint,
            0,
            length,
            0,
            0,
            8,
        ];
        add_words(&mut self.messages.bytes, &head)?;
        self.messages.bytes.extend_from_slice(setup)?;
        if is_read {
            return Ok(());
        }
        for _ in 0..length {
            self.messages.bytes.push(dice.byte() % 4)?;
        }
        Ok(())
    }

    /// The control transfer of a request.
    fn control(&mut self, dice: &mut Dice, setup: &[u8; 8]) -> Result<(), Stop> {
        let [way, .., low, high] = *setup;
        let length = u32::from(u16::from_le_bytes([low, high]));
        self.submit(dice, way >= 0x80 && length > 0, 0, length, setup)
    }

    /// A submit for a report, often of the room that Linux gives.
    fn report(&mut self, dice: &mut Dice) -> Result<(), Stop> {
        let length = match dice.below(8) {
            0 => dice.odd_word(),
            1 => 1,
            2 => 64,
            _ => 8,
        };
        self.submit(dice, true, 1, length, &[0; 8])
    }

    /// An unlink of one of the last submits, of itself, or of none.
    fn unlink(&mut self, dice: &mut Dice) -> Result<(), Stop> {
        self.messages.begin()?;
        let back = u32::from(dice.byte() % 6);
        let of = self.seqnum.wrapping_sub(back).wrapping_add(1);
        let seqnum = self.next_number(dice);
        add_words(
            &mut self.messages.bytes,
            &[2, seqnum, self.device, 0, 0, of, 0, 0, 0, 0, 0, 0],
        )
    }

    /// One of what a host sends once the device is there.
    fn command(&mut self, dice: &mut Dice) -> Result<(), Stop> {
        match dice.below(12) {
            0 | 1 | 2 => self.unlink(dice),
            3 | 4 => {
                let at = dice.below(REQUESTS.len());
                self.control(dice, &REQUESTS.get(at).copied().unwrap_or([0; 8]))
            }
            5 => {
                let endpoint = u32::from(dice.byte() % 17);
                let is_read = dice.one_in(2);
                let length = u32::from(dice.byte() % 70);
                self.submit(dice, is_read, endpoint, length, &[0; 8])
            }
            _ => self.report(dice),
        }
    }
}

/// Adds what a host sends first: the request for a device, in one message or two, or that for the list. Gives the device's place.
fn begin(messages: &mut Messages, dice: &mut Dice) -> Result<u32, Stop> {
    let place = dice.byte() % 3;
    let code = if dice.one_in(30) { 5 } else { 3 };
    messages.begin()?;
    messages
        .bytes
        .extend_from_slice(&[1, 0x11, 0x80, code, 0, 0, 0, 0])?;
    if dice.one_in(2) {
        messages.begin()?;
    }
    messages
        .bytes
        .extend_from_slice(&[b'1', b'-', b'1'.wrapping_add(place)])?;
    messages.bytes.extend_from_slice(&[0; 29])?;
    Ok(u32::from(place))
}

/// What a host sends where nothing goes wrong.
fn speak(messages: &mut Messages, dice: &mut Dice) -> Result<(), Stop> {
    messages.clear();
    let place = begin(messages, dice)?;
    let mut host = Host {
        messages,
        seqnum: if dice.one_in(4) { dice.word() } else { 0 },
        device: place.wrapping_add(0x1_0002),
    };
    let known = dice.below(BRING_UP * 3).min(BRING_UP);
    for setup in REQUESTS.iter().take(known) {
        host.control(dice, setup)?;
    }
    let count = dice.below(24);
    for _ in 0..count {
        host.command(dice)?;
    }
    Ok(())
}

/// Writes the bytes of a stream: one in sixteen is as Linux has it, one in sixteen is noise, and the others are changed, doubled, left
/// out, put in another order or cut, many of them seldom and some of them often.
pub fn write_stream(
    out: &mut Vec<u8>,
    messages: &mut Messages,
    dice: &mut Dice,
) -> Result<(), Stop> {
    out.clear();
    speak(messages, dice)?;
    let kind = dice.below(16);
    if kind == 0 {
        return add_noise(out, dice, 400);
    }
    let rate = match kind {
        1 => 1_000_000,
        2..=7 => 40,
        8..=12 => 12,
        _ => 4,
    };
    let count = messages.len();
    for number in 0..count {
        let other = dice.below(count);
        add_mutated(
            out,
            messages.message(number),
            messages.message(other),
            dice,
            rate,
        )?;
    }
    if kind % 4 == 3 {
        out.truncate(dice.below(out.len()));
    }
    Ok(())
}
