//! What a line of the bench says.

ghost use Rattle.std.specs.Prelude.{◌≡◌, IfOk, IsTrue, None, Ok, Err, codes, length, slice_index};
ghost use Rattle.hid_text.specs.Arguments.{start_of, boot_of};
ghost use Rattle.hid_text.specs.Numbers.{count_of, short_number_of, signed_of_word, amount_of};
ghost use Rattle.hid_text.specs.Line.{meaning_of, short_of};
ghost use Rattle.hid_text.specs.Words.{words_of, after_word};
ghost use Rattle.lab_lines.specs.ControlNames.{named_of, control_name_of};
ghost use Rattle.lab_lines.specs.LabLines.{Repeat, Wait, said_of, refusal_of, reading, first_of, at_place, said_at_end, device_at, click_meaning, typing, type_meaning, percent_of, lose_meaning, count_meaning, expect_meaning, include_meaning, lab_keyword_of, new_meaning, change_word_of, wanted_at, change_meaning, descriptor, attachment_meaning, script_meaning, old_meaning, by_keyword, other_meaning, lab_meaning, IsWordOfHidrun, Script};
ghost use Rattle.lab_lines.specs.Typing.{trim, text_in_quotes};

use super::control_name::{ControlName, read_control_name};
use super::expected::Expected;
use super::typing::{TypedText, quoted, trimmed, untyped};
use hid_bus::Start;
use hid_requests::Boot;
use hid_text::{
    ChangeKind, ShortLine, first_word, look_up, read_amount, read_boot, read_count, read_device,
    read_number, read_short, read_signed, read_start,
};

/// The most bytes of a line, without its end.
pub const MAX_LAB_LINE: usize = 16_384;

/// The most bytes of a line of `hidrun`.
const MAX_LINE: usize = 1024;

/// How many `repeat` may stand in one another.
pub const MAX_REPEATS: usize = 8;

/// How many files that are included may stand in one another.
pub const MAX_INCLUDES: usize = 8;

/// The most digits of a seed.
const MAX_SEED_DIGITS: usize = 18;

/// What a line says. A line that `hidrun` reads says the same here.
#[derive(Clone, Copy)]
pub enum LabLine<'a> {
    /// An empty line, or a comment.
    Nothing,
    /// A line of `hidrun` that isn't short: it is carried out as it stands.
    Script(&'a [u8]),
    /// A short line of `hidrun`.
    Short(ShortLine),
    /// `layout HEX`, of over 1,024 bytes.
    Layout(&'a [u8]),
    /// `values HEX`, of over 1,024 bytes.
    Values(&'a [u8]),
    /// `device START KIND HEX`, of over 1,024 bytes.
    Device {
        /// How device and host begin.
        start: Start,
        /// Whether its reports are those of the boot protocol.
        boot: Boot,
        /// The words of hex.
        hex: &'a [u8],
    },
    /// `device START KIND @FILE`: a device whose descriptor is in a file.
    DeviceFile {
        /// How device and host begin.
        start: Start,
        /// Whether its reports are those of the boot protocol.
        boot: Boot,
        /// The name of the file.
        name: &'a [u8],
    },
    /// `press`, `release`, `null`, `set` or `move` of a control by its name, its place, or as the n-th with a usage.
    Change {
        /// The device, from 1.
        dev: u8,
        /// The control.
        control: ControlName<'a>,
        /// What is done with it.
        wanted: ChangeKind,
    },
    /// `click D U`: a control is pressed, polled, let go and polled.
    Click {
        /// The device, from 1.
        dev: u8,
        /// The control.
        control: ControlName<'a>,
    },
    /// `type D "TEXT"`: keys of a US keyboard are clicked.
    Type {
        /// The device, from 1.
        dev: u8,
        /// What is typed.
        text: TypedText<'a>,
    },
    /// `lose D PERCENT SEED`: from now on fates are drawn.
    Lose {
        /// The device, from 1.
        dev: u8,
        /// How many of a hundred polls and tries lose a packet, 0 to 100.
        percent: u8,
        /// What the generator begins with.
        seed: u64,
    },
    /// `repeat N`: the lines up to its `end` are carried out so often.
    Repeat {
        /// How often, 1 to 10,000.
        count: u16,
    },
    /// `end` of a `repeat`.
    End,
    /// `expect LINE`: the next line that was printed is this one, where `*` is any word.
    Expect(&'a [u8]),
    /// `expect none`: all that was printed has been expected.
    ExpectNone,
    /// `expect any`: all that was printed is passed over.
    ExpectAny,
    /// `wait MS`: so many frames of 1 ms pass.
    Wait {
        /// How many milliseconds, 1 to 10,000.
        count: u16,
    },
    /// `include FILE`: the lines of the file come next.
    Include(&'a [u8]),
}

/// Why a line can't be read.
#[derive(Clone, Copy, Debug, PartialEq, Eq)]
pub enum Unread<'a> {
    /// X2: the line has over 16,384 bytes, or over 1,024 where it holds no descriptor.
    TooLong,
    /// X1: a word isn't what is expected in its place; none where the line ends there.
    Word(&'a [u8], Expected),
}

#[derive(Clone, Copy)]
pub(crate) enum LabKeyword {
    Click,
    Type,
    Lose,
    Repeat,
    End,
    Expect,
    Wait,
    Include,
}

/// The keyword of a line that `hidrun` doesn't have.
fn read_lab_keyword(word: &[u8]) -> Option<LabKeyword>
    ensures { result ≡ lab_keyword_of word.now }
{
    look_up(
        &[
            (b"click", LabKeyword::Click),
            (b"type", LabKeyword::Type),
            (b"lose", LabKeyword::Lose),
            (b"repeat", LabKeyword::Repeat),
            (b"end", LabKeyword::End),
            (b"expect", LabKeyword::Expect),
            (b"wait", LabKeyword::Wait),
            (b"include", LabKeyword::Include),
        ],
        word,
    )
}

/// The first word, which has to be there, and the text after it.
fn next_word(text: &[u8], expected: Expected) -> Result<(&[u8], &[u8]), Unread<'_>>
    ensures word { reading (λ found. found.0.now) result ≡ first_of expected (words_of text.now) }
    ensures rest { IfOk result (λ found. found.1.now ≡ after_word text.now) }
{
    match first_word(text) {
        Some((word, rest)) => Ok((word, rest)),
        None => Err(Unread::Word(b"", expected)),
    }
}

/// Nothing but blanks after a line that says this.
fn end<'a>(said: LabLine<'a>, text: &'a [u8]) -> Result<LabLine<'a>, Unread<'a>>
    ensures { reading said_of result ≡ said_at_end (said_of said.entry) (words_of text.now) }
{
    match first_word(text) {
        None => Ok(said),
        Some((word, _)) => Err(Unread::Word(word, Expected::End)),
    }
}

/// A device, and the text after it.
fn next_device(text: &[u8]) -> Result<(u8, &[u8]), Unread<'_>>
    ensures said { reading (λ found. found.0) result ≡ device_at text.now }
    ensures rest { IfOk result (λ found. found.1.now ≡ after_word text.now) }
{
    let (word, rest) = next_word(text, Expected::Device)?;
    match read_device(word) {
        Some(dev) => Ok((dev, rest)),
        None => Err(Unread::Word(word, Expected::Device)),
    }
}

/// A control, and the text after it.
fn next_control(text: &[u8]) -> Result<(ControlName<'_>, &[u8]), Unread<'_>>
    ensures said { reading (λ found. named_of found.0) result
        ≡ at_place Expected.Control control_name_of text.now }
    ensures rest { IfOk result (λ found. found.1.now ≡ after_word text.now) }
{
    let (word, rest) = next_word(text, Expected::Control)?;
    match read_control_name(word) {
        Some(control) => Ok((control, rest)),
        None => Err(Unread::Word(word, Expected::Control)),
    }
}

/// A count, and the text after it.
fn next_count(text: &[u8]) -> Result<(u16, &[u8]), Unread<'_>>
    ensures said { reading (λ found. found.0) result ≡ at_place Expected.Count count_of text.now }
    ensures rest { IfOk result (λ found. found.1.now ≡ after_word text.now) }
{
    let (word, rest) = next_word(text, Expected::Count)?;
    match read_count(word) {
        Some(count) => Ok((count, rest)),
        None => Err(Unread::Word(word, Expected::Count)),
    }
}

/// `D U`: a control of a device.
#[tactic(auto, unfolding(crate::specs::LabLines::click_meaning))]
fn read_click(text: &[u8]) -> Result<LabLine<'_>, Unread<'_>>
    ensures { reading said_of result ≡ click_meaning text.now }
{
    let (dev, text) = next_device(text)?;
    let (control, text) = next_control(text)?;
    end(LabLine::Click { dev, control }, text)
}

/// What a device types, which stands between quotes.
fn read_typing(dev: u8, text: &[u8]) -> Result<LabLine<'_>, Unread<'_>>
    ensures { reading said_of result ≡ typing dev text.now (text_in_quotes text.now) }
{
    let Some((bytes, rest)) = quoted(text) else {
        return Err(Unread::Word(text, Expected::Text));
    };
    if let Some(rest) = untyped(bytes) {
        return Err(Unread::Word(rest, Expected::Character));
    }
    match first_word(rest) {
        None => Ok(LabLine::Type {
            dev,
            text: TypedText::new(bytes),
        }),
        Some((word, _)) => Err(Unread::Word(word, Expected::TextEnd)),
    }
}

/// `D "TEXT"`: what is typed.
#[tactic(auto, unfolding(crate::specs::LabLines::type_meaning))]
fn read_type(text: &[u8]) -> Result<LabLine<'_>, Unread<'_>>
    ensures { reading said_of result ≡ type_meaning text.now }
{
    let (dev, text) = next_device(text)?;
    read_typing(dev, trimmed(text))
}

/// A percentage, 0 to 100.
fn read_percent(word: &[u8]) -> Option<u8>
    ensures { result ≡ percent_of word.now }
{
    match read_number(10, word) {
        Some(percent @ 0..=100) => Some(percent as u8),
        _ => None,
    }
}

/// A percentage, and the text after it.
fn next_percent(text: &[u8]) -> Result<(u8, &[u8]), Unread<'_>>
    ensures said { reading (λ found. found.0) result ≡ at_place Expected.Percent percent_of text.now }
    ensures rest { IfOk result (λ found. found.1.now ≡ after_word text.now) }
{
    let (word, rest) = next_word(text, Expected::Percent)?;
    match read_percent(word) {
        Some(percent) => Ok((percent, rest)),
        None => Err(Unread::Word(word, Expected::Percent)),
    }
}

/// A seed.
fn read_seed(word: &[u8]) -> Option<u64>
    ensures { result ≡ short_number_of word.now }
{
    if word.len() > MAX_SEED_DIGITS {
        return None;
    }
    let seed = read_number(10, word)?;
    Some(seed)
}

/// A seed, and the text after it.
fn next_seed(text: &[u8]) -> Result<(u64, &[u8]), Unread<'_>>
    ensures said { reading (λ found. found.0) result ≡ at_place Expected.Seed short_number_of text.now }
    ensures rest { IfOk result (λ found. found.1.now ≡ after_word text.now) }
{
    let (word, rest) = next_word(text, Expected::Seed)?;
    match read_seed(word) {
        Some(seed) => Ok((seed, rest)),
        None => Err(Unread::Word(word, Expected::Seed)),
    }
}

/// `D PERCENT SEED`: how fates are drawn.
#[tactic(auto, unfolding(crate::specs::LabLines::lose_meaning))]
fn read_lose(text: &[u8]) -> Result<LabLine<'_>, Unread<'_>>
    ensures { reading said_of result ≡ lose_meaning text.now }
{
    let (dev, text) = next_device(text)?;
    let (percent, text) = next_percent(text)?;
    let (seed, text) = next_seed(text)?;
    end(LabLine::Lose { dev, percent, seed }, text)
}

/// `N` of `repeat`.
#[tactic(auto, unfolding(crate::specs::LabLines::count_meaning))]
fn read_repeat(text: &[u8]) -> Result<LabLine<'_>, Unread<'_>>
    ensures { reading said_of result ≡ count_meaning Repeat text.now }
{
    let (count, text) = next_count(text)?;
    end(LabLine::Repeat { count }, text)
}

/// `MS` of `wait`.
#[tactic(auto, unfolding(crate::specs::LabLines::count_meaning))]
fn read_wait(text: &[u8]) -> Result<LabLine<'_>, Unread<'_>>
    ensures { reading said_of result ≡ count_meaning Wait text.now }
{
    let (count, text) = next_count(text)?;
    end(LabLine::Wait { count }, text)
}

/// `LINE`, `none` or `any`.
#[tactic(auto, unfolding(crate::specs::LabLines::expect_meaning))]
fn read_expect(text: &[u8]) -> Result<LabLine<'_>, Unread<'_>>
    ensures { reading said_of result ≡ expect_meaning (words_of text.now) }
{
    let Some((word, rest)) = first_word(text) else {
        return Err(Unread::Word(b"", Expected::Line));
    };
    if word == b"none".as_slice() {
        return end(LabLine::ExpectNone, rest);
    }
    if word == b"any".as_slice() {
        return end(LabLine::ExpectAny, rest);
    }
    Ok(LabLine::Expect(text))
}

/// `FILE`: a name, which may have blanks inside.
fn read_include(text: &[u8]) -> Result<LabLine<'_>, Unread<'_>>
    ensures { reading said_of result ≡ include_meaning text.now }
{
    let name = trimmed(text);
    if name.is_empty() {
        return Err(Unread::Word(b"", Expected::File));
    }
    Ok(LabLine::Include(name))
}

/// The text after a keyword that `hidrun` doesn't have.
#[tactic(auto, unfolding(crate::specs::LabLines::new_meaning))]
fn read_new(keyword: LabKeyword, text: &[u8]) -> Result<LabLine<'_>, Unread<'_>>
    ensures { reading said_of result ≡ new_meaning keyword text.now }
{
    match keyword {
        LabKeyword::Click => read_click(text),
        LabKeyword::Type => read_type(text),
        LabKeyword::Lose => read_lose(text),
        LabKeyword::Expect => read_expect(text),
        LabKeyword::Include => read_include(text),
        LabKeyword::Repeat => read_repeat(text),
        LabKeyword::Wait => read_wait(text),
        LabKeyword::End => end(LabLine::End, text),
    }
}

#[derive(Clone, Copy)]
pub(crate) enum ChangeWord {
    Press,
    Release,
    Null,
    Set,
    Move,
}

/// The keyword of a change.
fn read_change_word(word: &[u8]) -> Option<ChangeWord>
    ensures { result ≡ change_word_of word.now }
{
    look_up(
        &[
            (b"press", ChangeWord::Press),
            (b"release", ChangeWord::Release),
            (b"null", ChangeWord::Null),
            (b"set", ChangeWord::Set),
            (b"move", ChangeWord::Move),
        ],
        word,
    )
}

/// A value that is set, and the text after it.
fn next_value(text: &[u8]) -> Result<(i64, &[u8]), Unread<'_>>
    ensures said { reading (λ found. found.0) result ≡ at_place Expected.Number signed_of_word text.now }
    ensures rest { IfOk result (λ found. found.1.now ≡ after_word text.now) }
{
    let (word, rest) = next_word(text, Expected::Number)?;
    match read_signed(word) {
        Some(value) => Ok((value, rest)),
        None => Err(Unread::Word(word, Expected::Number)),
    }
}

/// An amount of a motion, and the text after it.
fn next_amount(text: &[u8]) -> Result<(i32, &[u8]), Unread<'_>>
    ensures said { reading (λ found. found.0) result ≡ at_place Expected.Amount amount_of text.now }
    ensures rest { IfOk result (λ found. found.1.now ≡ after_word text.now) }
{
    let (word, rest) = next_word(text, Expected::Amount)?;
    match read_amount(word) {
        Some(by) => Ok((by, rest)),
        None => Err(Unread::Word(word, Expected::Amount)),
    }
}

/// What is done with a control, and the text after it.
fn next_wanted(word: ChangeWord, text: &[u8]) -> Result<(ChangeKind, &[u8]), Unread<'_>>
    ensures { reading (λ found. (found.0, found.1.now)) result ≡ wanted_at word text.now }
{
    match word {
        ChangeWord::Press => Ok((ChangeKind::Press, text)),
        ChangeWord::Release => Ok((ChangeKind::Release, text)),
        ChangeWord::Null => Ok((ChangeKind::Null, text)),
        ChangeWord::Set => {
            let (value, rest) = next_value(text)?;
            Ok((ChangeKind::Set(value), rest))
        }
        ChangeWord::Move => {
            let (by, rest) = next_amount(text)?;
            Ok((ChangeKind::Move(by), rest))
        }
    }
}

/// `D U` or `D U N`: a control that changes.
#[tactic(auto, unfolding(crate::specs::LabLines::change_meaning))]
fn read_change(word: ChangeWord, text: &[u8]) -> Result<LabLine<'_>, Unread<'_>>
    ensures { reading said_of result ≡ change_meaning word text.now }
{
    let (dev, text) = next_device(text)?;
    let (control, text) = next_control(text)?;
    let (wanted, text) = next_wanted(word, text)?;
    end(
        LabLine::Change {
            dev,
            control,
            wanted,
        },
        text,
    )
}

/// `START`, and the text after it.
fn next_start(text: &[u8]) -> Result<(Start, &[u8]), Unread<'_>>
    ensures said { reading (λ found. found.0) result ≡ at_place Expected.Start start_of text.now }
    ensures rest { IfOk result (λ found. found.1.now ≡ after_word text.now) }
{
    let (word, rest) = next_word(text, Expected::Start)?;
    match read_start(word) {
        Some(start) => Ok((start, rest)),
        None => Err(Unread::Word(word, Expected::Start)),
    }
}

/// `KIND`, and the text after it.
fn next_kind(text: &[u8]) -> Result<(Boot, &[u8]), Unread<'_>>
    ensures said { reading (λ found. found.0) result ≡ at_place Expected.Kind boot_of text.now }
    ensures rest { IfOk result (λ found. found.1.now ≡ after_word text.now) }
{
    let (word, rest) = next_word(text, Expected::Kind)?;
    match read_boot(word) {
        Some(boot) => Ok((boot, rest)),
        None => Err(Unread::Word(word, Expected::Kind)),
    }
}

/// `HEX` or `@FILE`: a descriptor.
fn read_descriptor<'a>(
    line: &'a [u8],
    start: Start,
    boot: Boot,
    text: &'a [u8],
) -> Result<LabLine<'a>, Unread<'a>>
    ensures { reading said_of result ≡ descriptor line.now start boot text.now }
{
    if text.first() == Some(&b'@') {
        if text.len() == 1 {
            return Err(Unread::Word(b"", Expected::File));
        }
        let name = &text[1..];
        return Ok(LabLine::DeviceFile { start, boot, name });
    }
    if line.len() > MAX_LINE {
        Ok(LabLine::Device {
            start,
            boot,
            hex: text,
        })
    } else {
        Ok(LabLine::Script(line))
    }
}

/// `START KIND HEX` or `START KIND @FILE`.
#[tactic(auto, unfolding(crate::specs::LabLines::attachment_meaning))]
fn read_attachment<'a>(line: &'a [u8], text: &'a [u8]) -> Result<LabLine<'a>, Unread<'a>>
    ensures { reading said_of result ≡ attachment_meaning line.now text.now }
{
    let (start, text) = next_start(text)?;
    let (boot, text) = next_kind(text)?;
    read_descriptor(line, start, boot, trimmed(text))
}

/// A line of `hidrun` that is read as there, or one of over 1,024 bytes.
fn read_script<'a>(
    line: &'a [u8],
    first: &'a [u8],
    text: &'a [u8],
) -> Result<LabLine<'a>, Unread<'a>>
    ensures { reading said_of result ≡ script_meaning line.now first.now text.now }
{
    if line.len() <= MAX_LINE {
        return Ok(LabLine::Script(line));
    }
    if first == b"layout".as_slice() {
        return Ok(LabLine::Layout(text));
    }
    if first == b"values".as_slice() {
        return Ok(LabLine::Values(text));
    }
    Err(Unread::TooLong)
}

/// A line of `hidrun` that isn't short, or one that only names controls otherwise.
fn read_old<'a>(line: &'a [u8], first: &'a [u8], text: &'a [u8]) -> Result<LabLine<'a>, Unread<'a>>
    ensures { reading said_of result ≡ old_meaning line.now first.now text.now (change_word_of first.now) }
{
    if let Some(word) = read_change_word(first) {
        return read_change(word, text);
    }
    if first == b"device".as_slice() {
        return read_attachment(line, text);
    }
    read_script(line, first, text)
}

/// A line that isn't short.
#[tactic(auto, unfolding(crate::specs::LabLines::other_meaning))]
fn read_other(line: &[u8]) -> Result<LabLine<'_>, Unread<'_>>
    ensures { reading said_of result ≡ other_meaning line.now (words_of line.now) }
{
    let Some((first, text)) = first_word(line) else {
        return Ok(LabLine::Nothing);
    };
    if first[0] == b'#' {
        return Ok(LabLine::Nothing);
    }
    match read_lab_keyword(first) {
        Some(keyword) => read_new(keyword, text),
        None => read_old(line, first, text),
    }
}

/// Reads a line, without its end. No memory is taken.
///
/// # Errors
/// [`Unread`]: the line is too long, or a word isn't what is expected there. A line of `hidrun` is given as [`LabLine::Script`]
/// before it is read: [`diagnose`](crate::diagnose) says what is wrong with one that is refused.
#[tactic(auto, unfolding(crate::specs::LabLines::lab_meaning))]
pub fn read_lab_line(line: &[u8]) -> Result<LabLine<'_>, Unread<'_>>
    ensures exact { reading said_of result ≡ lab_meaning line.now }
{
    if line.len() > MAX_LAB_LINE {
        return Err(Unread::TooLong);
    }
    // Most lines are short, and no new line is.
    if let Some(short) = read_short(line) {
        return Ok(LabLine::Short(short));
    }
    read_other(line)
}

/// Reads a line, without its end, which isn't one of the short lines of `hidrun`. No memory is taken.
///
/// # Errors
/// As of [`read_lab_line`].
#[tactic(auto, unfolding(crate::specs::LabLines::lab_meaning))]
pub fn read_longer(line: &[u8]) -> Result<LabLine<'_>, Unread<'_>>
    ensures exact { short_of (meaning_of line.now) ≡ None → reading said_of result ≡ lab_meaning line.now }
{
    if line.len() > MAX_LAB_LINE {
        return Err(Unread::TooLong);
    }
    read_other(line)
}

/// Whether a line begins with this word only if `hidrun` alone reads it, as it stands.
fn is_word_of_hidrun(word: &[u8]) -> bool
    ensures { IsTrue result → IsWordOfHidrun word.now }
{
    word == b"begin".as_slice() || word == b"layout".as_slice() || word == b"values".as_slice()
}

/// Whether a line, without its end, begins as a line that `hidrun` alone reads, and isn't longer than those are: if it isn't short,
/// [`read_lab_line`] gives it as it stands.
#[tactic(auto, unfolding(crate::specs::LabLines::lab_meaning, crate::specs::LabLines::other_meaning))]
pub fn begins_line_of_hidrun(line: &[u8]) -> bool
    ensures { IsTrue result → short_of (meaning_of line.now) ≡ None → lab_meaning line.now ≡ Ok (Script line.now) }
{
    if line.len() > MAX_LINE {
        return false;
    }
    match first_word(line) {
        Some((first, _)) => is_word_of_hidrun(first),
        None => false,
    }
}
