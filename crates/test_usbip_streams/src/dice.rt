//! What is chosen by the seed of a stream.

use rand_core::utils::NextWord;
use rand_pcg::Pcg32;

/// Chooses, by a seed and the number of a stream: each stream is the same wherever it stands.
#[derive(Drop)]
pub struct Dice {
    words: Pcg32,
}

impl Dice {
    pub fn new(seed: u64, stream: u64) -> Dice {
        Dice {
            words: Pcg32::new(seed, stream),
        }
    }

    pub fn word(&mut self) -> u32 {
        self.words.next_word()
    }

    pub fn byte(&mut self) -> u8 {
        self.word().to_be_bytes()[0]
    }

    /// A byte with one bit set.
    pub fn bit(&mut self) -> u8 {
        const BITS: [u8; 8] = [1, 2, 4, 8, 16, 32, 64, 128];
        BITS.get(self.below(8)).copied().unwrap_or(1)
    }

    /// A number under this count; 0 where that is 0.
    pub fn below(&mut self, count: usize) -> usize {
        let word = self.word() as usize;
        if count == 0 { 0 } else { word % count }
    }

    /// Once in so many times.
    pub fn one_in(&mut self, count: usize) -> bool {
        self.below(count) == 0
    }

    /// A word as they stand in wrong headers: small, at a bound, or any.
    pub fn odd_word(&mut self) -> u32 {
        match self.below(8) {
            0 => 0,
            1 => 1,
            2 => 0xFFFF_FFFF,
            3 => 0x8000_0000,
            4 => 65_535,
            5 => 65_536,
            6 => u32::from(self.byte() % 80),
            _ => self.word(),
        }
    }
}
