//! The fates that a line `lose` draws.

ghost use Rattle.std.specs.Prelude.{◌≡◌};
ghost use Rattle.lab_lines.specs.Fates.{fate_of_word};

use rand_core::utils::NextWord;
use rand_pcg::Pcg32;
use usb_transact::Fate;

/// How many numbers are drawn from: three for each percent.
const DRAWN_FROM: u32 = 300;

/// The fate of a word of the generator, where so many percent are lost: of three losses each is as likely.
#[tactic(auto, unfolding(crate::specs::Fates::fate_of_word))]
pub fn fate_of_word(percent: u8, word: u32) -> Fate
    ensures { result ≡ fate_of_word percent word }
{
    let drawn = word % DRAWN_FROM;
    if drawn >= 3 * u32::from(percent) {
        return Fate::Clean;
    }
    match drawn % 3 {
        0 => Fate::TokenLost,
        1 => Fate::ReplyLost,
        _ => Fate::AckLost,
    }
}

/// What a line `lose` says of a device, and how far its fates were drawn.
#[derive(Clone, Copy, Debug, PartialEq, Eq)]
pub struct Losses {
    percent: u8,
    stream: u64,
    state: u64,
}

impl Losses {
    ghost use Rattle.rand_pcg.specs.Pcg.{pcg32};
    ghost use Rattle.lab_lines.specs.Losses.{generator_at_first, generator_of};

    /// So many percent are lost, from 0 to 100, by a seed. Each device has fates of its own.
    pub fn new(dev: u8, percent: u8, seed: u64) -> Self
        ensures percent { result.percent ≡ percent }
        ensures generator { generator_of result ≡ generator_at_first dev seed }
    {
        let stream = u64::from(dev);
        Losses {
            percent,
            stream,
            state: Pcg32::new(seed, stream).state(),
        }
    }

    /// Draws the next fate.
    pub fn draw(&mut self) -> Fate
        ensures fate { result ≡ fate_of_word self.old.percent (pcg32 (generator_of self.old)).0 }
        ensures generator { generator_of self.new ≡ (pcg32 (generator_of self.old)).1 }
        ensures percent { self.new.percent ≡ self.old.percent }
    {
        let mut generator = Pcg32::from_state(self.state, self.stream);
        let word = generator.next_word();
        self.state = generator.state();
        fate_of_word(self.percent, word)
    }
}
