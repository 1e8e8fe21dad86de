//! Lines without hex words: a type without room for the bytes of a descriptor.

ghost use Rattle.std.specs.Prelude.{◌≡◌, Ok, IfSome};
ghost use Rattle.hid_text.specs.declared.line.Line.TheVariants.{Step};
ghost use Rattle.hid_text.specs.Line.{line_meaning, meaning_of, short_of};
ghost use Rattle.hid_text.specs.Short.{short_meaning};
ghost use Rattle.hid_text.specs.Words.{words_of};

use super::arguments::{read_control, read_move, read_one_device, read_poll, read_set, read_times};
use super::line::{Keyword, MAX_LINE, read_keyword};
use super::words::first_word;
use hid_report_descriptor::Usage;
use usb_transact::Fate;

/// What a line says that has no hex words and begins no request, with its words as values. A usage names the least control
/// that has it. A `Line` has room for the bytes of a descriptor too, and costs more to move.
#[derive(Clone, Copy)]
pub enum ShortLine {
    /// `press D U`
    Press {
        /// The device, from 1.
        dev: u8,
        /// The usage of the control that is pressed.
        usage: Usage,
    },
    /// `release D U`
    Release {
        /// The device, from 1.
        dev: u8,
        /// The usage of the control that is released.
        usage: Usage,
    },
    /// `null D U`
    Null {
        /// The device, from 1.
        dev: u8,
        /// The usage of the control that is set to null.
        usage: Usage,
    },
    /// `set D U N`
    Set {
        /// The device, from 1.
        dev: u8,
        /// The usage of the control that is set.
        usage: Usage,
        /// The value that it is set to.
        value: i64,
    },
    /// `move D U N`
    Move {
        /// The device, from 1.
        dev: u8,
        /// The usage of the control that moves.
        usage: Usage,
        /// How far it moves.
        by: i32,
    },
    /// `frame [COUNT]`: COUNT frames, 1 to 10,000.
    Frame {
        /// How many frames pass, 1 to 10,000.
        count: u16,
    },
    /// `poll D [FATE [COUNT]]`: COUNT polls, 1 to 10,000.
    Poll {
        /// The device, from 1.
        dev: u8,
        /// What is lost of each poll.
        fate: Fate,
        /// How many polls, 1 to 10,000.
        count: u16,
    },
    /// `control D [FATE [COUNT]]`: COUNT tries of the transfer that runs, 1 to 10,000 (USB 2.0, 8.5.3).
    Control {
        /// The device, from 1.
        dev: u8,
        /// What is lost of each try.
        fate: Fate,
        /// How many tries, 1 to 10,000.
        count: u16,
    },
    /// `reset D`: the bus resets a device (USB 2.0, 7.1.7.5), and its host forgets it.
    Reset {
        /// The device, from 1.
        dev: u8,
    },
    /// `halt D`: a device halts the endpoint that is polled (USB 2.0, 8.4.5 and 9.4.5).
    Halt {
        /// The device, from 1.
        dev: u8,
    },
}

/// What the words after a keyword say, where no hex word may stand there; none where they are no such line.
#[tactic(auto, unfolding(crate::specs::Short::short_meaning))]
pub(super) fn read_short_words(keyword: Keyword, text: &[u8]) -> Option<ShortLine>
    ensures { result ≡ short_meaning keyword (words_of text.now) }
{
    match keyword {
        Keyword::Layout | Keyword::Values | Keyword::Device | Keyword::Begin => None,
        Keyword::Press => {
            let (dev, usage) = read_control(text)?;
            Some(ShortLine::Press { dev, usage })
        }
        Keyword::Release => {
            let (dev, usage) = read_control(text)?;
            Some(ShortLine::Release { dev, usage })
        }
        Keyword::Null => {
            let (dev, usage) = read_control(text)?;
            Some(ShortLine::Null { dev, usage })
        }
        Keyword::Set => {
            let (dev, usage, value) = read_set(text)?;
            Some(ShortLine::Set { dev, usage, value })
        }
        Keyword::Move => {
            let (dev, usage, by) = read_move(text)?;
            Some(ShortLine::Move { dev, usage, by })
        }
        Keyword::Frame => {
            let count = read_times(text)?;
            Some(ShortLine::Frame { count })
        }
        Keyword::Poll => {
            let (dev, fate, count) = read_poll(text)?;
            Some(ShortLine::Poll { dev, fate, count })
        }
        Keyword::Control => {
            let (dev, fate, count) = read_poll(text)?;
            Some(ShortLine::Control { dev, fate, count })
        }
        Keyword::Reset => {
            let dev = read_one_device(text)?;
            Some(ShortLine::Reset { dev })
        }
        Keyword::Halt => {
            let dev = read_one_device(text)?;
            Some(ShortLine::Halt { dev })
        }
    }
}

/// What all words of a line say, where it is short.
fn read_words(text: &[u8]) -> Option<ShortLine>
    ensures short { IfSome result (λ short. line_meaning (words_of text.now) ≡ Ok (Step short)) }
    ensures exact { result ≡ short_of (line_meaning (words_of text.now)) }
{
    let (first, rest) = first_word(text)?;
    if first[0] == b'#' {
        return None;
    }
    read_short_words(read_keyword(first)?, rest)
}

/// Reads a line, without its end, where it is short; none where it is another one, or none of the script's. No memory is
/// taken.
#[tactic(auto, unfolding(crate::specs::Line::meaning_of))]
pub fn read_short(line: &[u8]) -> Option<ShortLine>
    ensures short { IfSome result (λ short. meaning_of line.now ≡ Ok (Step short)) }
    ensures exact { result ≡ short_of (meaning_of line.now) }
{
    if MAX_LINE < line.len() {
        return None;
    }
    read_words(line)
}
