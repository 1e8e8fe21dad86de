//! Which lines of a file were read as its descriptor.

ghost use Rattle.std.specs.Prelude.{◌≡◌};
ghost use Rattle.command_words.specs.ReadLines.{plural};

use std::fmt;

/// How many bytes were read from which lines of a text. Lines count from 1.
#[derive(Clone, Copy, Debug)]
pub struct ReadLines {
    pub count: usize,
    pub first: u64,
    pub last: u64,
}

/// The ending of a word for more than one thing.
fn plural(count: usize) -> &'static str
    ensures { result.now ≡ plural count }
{
    if count == 1 { "" } else { "s" }
}

impl fmt::Display for ReadLines {
    ghost use Rattle.std.specs.Prelude.{Some};
    ghost use Rattle.command_words.specs.ReadLines.{read_text};

    ghost output = { λ read. Some (read_text read) };

    fn fmt<W: fmt::Write>(&self, f: &mut fmt::Formatter<W>) -> fmt::Result {
        let ReadLines { count, first, last } = *self;
        let ending = plural(count);
        if first == last {
            write!(f, "{count} byte{ending} from line {first}")
        } else {
            write!(f, "{count} byte{ending} from lines {first} to {last}")
        }
    }
}
