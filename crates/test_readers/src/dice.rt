//! What is chosen by the seed.

use rand_core::utils::NextWord;
use rand_pcg::Pcg32;

/// Chooses, by a seed and the number of a device: each device is the same wherever it stands.
#[derive(Drop)]
pub struct Dice {
    words: Pcg32,
}

impl Dice {
    pub fn new(seed: u64, device: u64) -> Dice {
        Dice {
            words: Pcg32::new(seed, device),
        }
    }

    pub fn word(&mut self) -> u32 {
        self.words.next_word()
    }

    pub fn byte(&mut self) -> u8 {
        self.word().to_be_bytes()[0]
    }

    /// A number under this count; 0 where that is 0.
    pub fn below(&mut self, count: u32) -> u32 {
        self.word().checked_rem(count).unwrap_or(0)
    }

    /// A number from the least to the greatest.
    pub fn within(&mut self, least: u32, greatest: u32) -> u32 {
        let count = greatest.saturating_sub(least).saturating_add(1);
        least.saturating_add(self.below(count))
    }

    /// A place under this length; 0 where that is 0.
    pub fn place(&mut self, length: usize) -> usize {
        (self.word() as usize).checked_rem(length).unwrap_or(0)
    }

    /// Once in so many times.
    pub fn one_in(&mut self, count: u32) -> bool {
        self.below(count) == 0
    }

    /// A number of a range that has at most 2^32.
    pub fn between(&mut self, least: i64, greatest: i64) -> i64 {
        let count = greatest.wrapping_sub(least).wrapping_add(1);
        let more = i64::from(self.word()).checked_rem(count).unwrap_or(0);
        least.wrapping_add(more)
    }

    /// One of these numbers; 0 where there is none.
    pub fn one_of(&mut self, numbers: &[u32]) -> u32 {
        numbers.get(self.place(numbers.len())).copied().unwrap_or(0)
    }
}
