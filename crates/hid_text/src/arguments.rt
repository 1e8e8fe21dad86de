//! What the words after a line's first one say.

ghost use Rattle.std.specs.Prelude.{◌≡◌};
ghost use Rattle.hid_text.specs.Words.{words_of};
ghost use Rattle.hid_text.specs.Arguments.{all_three, fate_of, boot_of, start_of, control_meaning, set_meaning, move_meaning, frame_meaning, tries_meaning, poll_meaning, one_device_meaning};

use super::numbers::{read_amount, read_count, read_device, read_signed, read_usage};
use super::words::{first_word, look_up, three_words, two_words};
use hid_bus::Start;
use hid_report_descriptor::Usage;
use hid_requests::Boot;
use usb_transact::Fate;

/// START: what the two ends know of each other at first.
pub fn read_start(word: &[u8]) -> Option<Start>
    ensures { result ≡ start_of word.now }
{
    look_up(&[(b"ready", Start::Ready), (b"cold", Start::Cold)], word)
}

/// KIND: whether a device's reports are those of the boot protocol.
pub fn read_boot(word: &[u8]) -> Option<Boot>
    ensures { result ≡ boot_of word.now }
{
    look_up(
        &[
            (b"plain", Boot::No),
            (b"keyboard", Boot::Keyboard),
            (b"mouse", Boot::Mouse),
        ],
        word,
    )
}

/// FATE: which packet of a transaction is lost.
fn read_fate(word: &[u8]) -> Option<Fate>
    ensures { result ≡ fate_of word.now }
{
    look_up(
        &[
            (b"clean", Fate::Clean),
            (b"token", Fate::TokenLost),
            (b"reply", Fate::ReplyLost),
            (b"ack", Fate::AckLost),
        ],
        word,
    )
}

/// What three words say; nothing where one of them isn't understood.
fn all_three<A: Copy, B: Copy, C: Copy>(
    first: Option<A>,
    second: Option<B>,
    third: Option<C>,
) -> Option<(A, B, C)>
    ensures { result ≡ all_three first second third }
{
    match (first, second, third) {
        (Some(first), Some(second), Some(third)) => Some((first, second, third)),
        _ => None,
    }
}

/// `D U`: a control of a device, by its usage.
#[tactic(auto, unfolding(crate::specs::Arguments::control_meaning, crate::specs::Words::two_words))]
pub fn read_control(text: &[u8]) -> Option<(u8, Usage)>
    ensures { result ≡ control_meaning (words_of text.now) }
{
    let (dev, usage) = two_words(text)?;
    read_device(dev).zip(read_usage(usage))
}

/// `D U N`: a control, and what it is set to.
#[tactic(auto, unfolding(crate::specs::Arguments::set_meaning, crate::specs::Words::three_words))]
pub fn read_set(text: &[u8]) -> Option<(u8, Usage, i64)>
    ensures { result ≡ set_meaning (words_of text.now) }
{
    let (dev, usage, value) = three_words(text)?;
    all_three(read_device(dev), read_usage(usage), read_signed(value))
}

/// `D U N`: a control, and by how much it moves.
#[tactic(auto, unfolding(crate::specs::Arguments::move_meaning, crate::specs::Words::three_words))]
pub fn read_move(text: &[u8]) -> Option<(u8, Usage, i32)>
    ensures { result ≡ move_meaning (words_of text.now) }
{
    let (dev, usage, by) = three_words(text)?;
    all_three(read_device(dev), read_usage(usage), read_amount(by))
}

/// `[COUNT]`: how often; once where no count stands.
#[tactic(auto, unfolding(crate::specs::Arguments::frame_meaning))]
pub fn read_times(text: &[u8]) -> Option<u16>
    ensures { result ≡ frame_meaning (words_of text.now) }
{
    let Some((count, text)) = first_word(text) else {
        return Some(1);
    };
    if first_word(text).is_some() {
        return None;
    }
    read_count(count)
}

/// `[FATE [COUNT]]`: what is lost, and how often.
#[tactic(auto, unfolding(crate::specs::Arguments::tries_meaning, crate::specs::Arguments::frame_meaning))]
fn read_tries(text: &[u8]) -> Option<(Fate, u16)>
    ensures { result ≡ tries_meaning (words_of text.now) }
{
    let Some((fate, text)) = first_word(text) else {
        return Some((Fate::Clean, 1));
    };
    read_fate(fate).zip(read_times(text))
}

/// `D [FATE [COUNT]]`: a device, what is lost, and how often it is polled, or a transfer tried.
#[tactic(auto, unfolding(crate::specs::Arguments::poll_meaning, crate::specs::Arguments::tries_meaning))]
pub fn read_poll(text: &[u8]) -> Option<(u8, Fate, u16)>
    ensures { result ≡ poll_meaning (words_of text.now) }
{
    let (dev, text) = first_word(text)?;
    let (dev, (fate, count)) = read_device(dev).zip(read_tries(text))?;
    Some((dev, fate, count))
}

/// `D`: a device alone, which is reset or halted.
#[tactic(auto, unfolding(crate::specs::Arguments::one_device_meaning))]
pub fn read_one_device(text: &[u8]) -> Option<u8>
    ensures { result ≡ one_device_meaning (words_of text.now) }
{
    let (dev, more) = first_word(text)?;
    if first_word(more).is_some() {
        return None;
    }
    read_device(dev)
}
