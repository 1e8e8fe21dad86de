//! What is lost of the polls and tries of each device, by what its line `lose` says.

ghost use Rattle.std.specs.Prelude.{◌≡◌, ◌≢◌, ◌<◌, ℕ, None, Some, is_some};

use lab_lines::Losses;
use usb_transact::Fate;

/// One more than the greatest number of a device: they count from 1.
const NUMBERS: usize = 8;

/// The losses of each device, by its number, where they are drawn.
#[derive(Clone, Copy)]
pub struct Draws {
    losses: [Option<Losses>; NUMBERS],
}

impl Draws {
    ghost use Rattle.lab_lines.specs.Losses.{generator_at_first};
    ghost use Rattle.lab_session.specs.Chances.{chance_at, chance_after, fate_by};

    /// Nothing is drawn.
    pub fn new() -> Self
        ensures { (dev : ℕ) → chance_at result dev ≡ None }
    {
        Draws {
            losses: [None; NUMBERS],
        }
    }

    /// From now on so many percent of the polls and tries of a device lose a packet, by a seed. Of a number that no device has,
    /// nothing changes.
    pub fn lose(&mut self, dev: u8, percent: u8, seed: u64)
        ensures its { dev < 8 → chance_at self.new dev
            ≡ Some (record { percent = percent; generator = generator_at_first dev seed }) }
        ensures others { (other : ℕ) → other ≢ dev
            → chance_at self.new other ≡ chance_at self.old other }
    {
        let number = usize::from(dev);
        if number < NUMBERS {
            self.losses[number] = Some(Losses::new(dev, percent, seed));
        }
    }

    /// Whether losses of a device are drawn.
    pub fn are_drawn(&self, dev: u8) -> bool
        ensures { result ≡ is_some (chance_at self.now dev) }
    {
        let number = usize::from(dev);
        if number >= NUMBERS {
            return false;
        }
        match self.losses[number] {
            Some(_) => true,
            None => false,
        }
    }

    /// What is lost of the next poll or try of a device: what its line says, or what is drawn where that says nothing.
    pub fn next_fate(&mut self, dev: u8, said: Fate) -> Fate
        ensures fate { result ≡ fate_by (chance_at self.old dev) said }
        ensures its { chance_at self.new dev ≡ chance_after (chance_at self.old dev) said }
        ensures others { (other : ℕ) → other ≢ dev
            → chance_at self.new other ≡ chance_at self.old other }
    {
        let number = usize::from(dev);
        if number >= NUMBERS {
            return said;
        }
        let Some(mut losses) = self.losses[number] else {
            return said;
        };
        let Fate::Clean = said else {
            return said;
        };
        let fate = losses.draw();
        self.losses[number] = Some(losses);
        fate
    }
}
