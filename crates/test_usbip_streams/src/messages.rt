//! Messages of USB/IP as bytes, by the tables of docs/FORMATS.md: written and read here without the crates that are tried.

use crate::dice::Dice;
use crate::stop::Stop;
use std::alloc::Global;

/// In bytes, the header of a command or a reply.
pub const HEADER: usize = 48;

/// Most streams are this long at most, in bytes.
const USUAL: usize = 2_048;

/// The word at an offset, its highest byte first; 0 past the end.
pub fn word(bytes: &[u8], at: usize) -> u32 {
    let mut word = 0u32;
    for byte in bytes.iter().skip(at).take(4) {
        word = word.wrapping_mul(256).wrapping_add(u32::from(*byte));
    }
    word
}

/// Adds words, the highest byte of each first.
pub fn add_words(bytes: &mut Vec<u8>, words: &[u32]) -> Result<(), Stop> {
    for word in words {
        bytes.extend_from_slice(&word.to_be_bytes())?;
    }
    Ok(())
}

/// Messages one after the other, and where each begins.
#[derive(Drop)]
pub struct Messages {
    pub bytes: Vec<u8>,
    starts: Vec<usize>,
}

impl Messages {
    pub fn new(alloc: Global) -> Result<Messages, Stop> {
        let mut bytes = Vec::new(alloc);
        bytes.reserve(USUAL)?;
        Ok(Messages {
            bytes,
            starts: Vec::new(alloc),
        })
    }

    pub fn clear(&mut self) {
        self.bytes.clear();
        self.starts.clear();
    }

    pub fn len(&self) -> usize {
        self.starts.len()
    }

    /// A message begins after the others.
    pub fn begin(&mut self) -> Result<(), Stop> {
        self.starts.push(self.bytes.len())?;
        Ok(())
    }

    /// The message of this number.
    pub fn message(&self, number: usize) -> &[u8] {
        let start = self.starts.get(number).copied().unwrap_or(0);
        let end = match self.starts.get(number.saturating_add(1)) {
            Some(next) => *next,
            None => self.bytes.len(),
        };
        self.bytes.get(start..end).unwrap_or(&[])
    }
}

/// Adds bytes of no meaning.
pub fn add_noise(out: &mut Vec<u8>, dice: &mut Dice, most: usize) -> Result<(), Stop> {
    let count = dice.below(most);
    for _ in 0..count {
        out.push(dice.byte())?;
    }
    Ok(())
}

/// Writes bytes over those at an offset.
fn put(out: &mut [u8], at: usize, bytes: &[u8]) {
    for (to, byte) in out.iter_mut().skip(at).zip(bytes) {
        *to = *byte;
    }
}

/// Changes a bit, a byte or a word of a header in the message that begins at `start`.
fn change(out: &mut [u8], start: usize, dice: &mut Dice) {
    let at = start.saturating_add(dice.below(out.len().saturating_sub(start)));
    let old = out.get(at).copied().unwrap_or(0);
    match dice.below(4) {
        0 => put(out, at, &[old ^ dice.bit()]),
        1 => put(out, at, &[dice.byte()]),
        _ => {
            let field = dice.below(12).wrapping_mul(4);
            let word = dice.odd_word();
            put(out, start.saturating_add(field), &word.to_be_bytes());
        }
    }
}

/// Adds a message as it may come: as it is, or once in `rate` times changed, doubled, left out, cut, lengthened, after another one
/// or after noise.
pub fn add_mutated(
    out: &mut Vec<u8>,
    message: &[u8],
    other: &[u8],
    dice: &mut Dice,
    rate: usize,
) -> Result<(), Stop> {
    let start = out.len();
    if !dice.one_in(rate) {
        return Ok(out.extend_from_slice(message)?);
    }
    match dice.below(10) {
        0 => out.extend_from_slice(message)?,
        1 => return Ok(()),
        2 => out.extend_from_slice(other)?,
        3 => add_noise(out, dice, 100)?,
        4 => {
            let count = dice.below(message.len());
            out.extend_from_slice(message.get(..count).unwrap_or(&[]))?;
            return Ok(());
        }
        5 => {
            out.extend_from_slice(message)?;
            return add_noise(out, dice, 9);
        }
        _ => {
            out.extend_from_slice(message)?;
            change(out, start, dice);
            return Ok(());
        }
    }
    Ok(out.extend_from_slice(message)?)
}
