//! The words of the command line.

ghost use Rattle.std.specs.Prelude.{◌≡◌, ◌⊎◌, ◌∷◌, [], ◌++◌, None, Some, true, false, IsOk, IfOk, OnOk, IfErr, map, string_bytes};
ghost use Rattle.std.specs.Str.{IsUtf8, is_utf8};
ghost use Rattle.std.specs.Option.{option_copied, option_map};
ghost use Rattle.command_words.specs.Opened.{path_at, opened_word, word_text, shown_word};

use crate::names::{FileName, ShownBytes};
use crate::opened::{OPENED_FILES, file_of, opened_path};
use std::alloc::{AllocError, Global};
use std::env::{self, Env, FillError};

/// The command line is wrong.
pub const WRONG_USAGE: u8 = 2;

/// Memory or standard output failed.
pub const OUTSIDE: u8 = 3;

/// In bytes, the room for a word at first.
const ROOM: usize = 256;

/// Why the words can't be read.
#[derive(Debug, Drop)]
pub enum WordsFault {
    /// Memory ran out.
    Memory,
    /// A word isn't UTF-8: its bytes.
    NotText(Vec<u8>),
}

impl From<AllocError> for WordsFault {
    ghost use Rattle.command_words.specs.declared.words.WordsFault.TheVariants.{Memory};

    ghost from_gives = { λ _ fault. fault ≡ Memory };

    fn from(_error: AllocError) -> WordsFault {
        WordsFault::Memory
    }
}

/// What room for a word came to.
#[derive(Drop)]
enum WordEnd {
    /// The word.
    Word(Vec<u8>),
    /// The word is longer.
    TooLong,
    /// There is no such word.
    NoWord,
}

/// The word of this place, if it has up to so many bytes.
fn read_within(rt: &HostRuntime, place: usize, room: usize) -> Result<WordEnd, AllocError> {
    let mut bytes = Vec::new(rt.alloc());
    bytes.resize(room, 0)?;
    match rt.arg(place, bytes.as_mut_slice()) {
        Ok(count) => {
            bytes.truncate(count);
            Ok(WordEnd::Word(bytes))
        }
        Err(FillError::TooLong) => Ok(WordEnd::TooLong),
        Err(FillError::NotPresent) => Ok(WordEnd::NoWord),
    }
}

/// The word of this place, if there is one.
fn read_word(rt: &HostRuntime, place: usize) -> Result<Option<Vec<u8>>, AllocError> {
    let mut room = ROOM;
    for _ in 0..usize::BITS {
        match read_within(rt, place, room)? {
            WordEnd::Word(bytes) => return Ok(Some(bytes)),
            WordEnd::TooLong => room = room.saturating_mul(2),
            WordEnd::NoWord => return Ok(None),
        }
    }
    Err(AllocError)
}

/// A word as text, if its bytes are UTF-8.
///
/// # Errors
/// [`WordsFault::NotText`], with the bytes.
pub fn word_of(bytes: Vec<u8>) -> Result<String, WordsFault>
    ensures text { IsUtf8 bytes.items → IsOk result }
    ensures bytes { IfOk result (λ word. (is_utf8 bytes.items ≡ true) × (string_bytes word ≡ bytes.items)) }
    ensures fault { IfErr result (λ fault. (is_utf8 bytes.items ≡ false) × (fault ≡ WordsFault.NotText bytes)) }
{
    match String::from_utf8(bytes) {
        Ok(word) => Ok(word),
        Err(error) => Err(WordsFault::NotText(error.into_bytes())),
    }
}

/// The words of a command line, of which the first is the name of the program.
#[derive(Drop)]
pub struct Words {
    /// As they were given.
    pub given: Vec<String>,
    /// As they are printed: with control characters as numbers.
    pub shown: Vec<String>,
}

impl Words {
    /// No word.
    fn new(alloc: Global) -> Words
        ensures given { result.given.items ≡ [] }
        ensures shown { result.shown.items ≡ [] }
    {
        Words {
            given: Vec::new(alloc),
            shown: Vec::new(alloc),
        }
    }

    /// Adds a word.
    fn push(&mut self, alloc: Global, word: String) -> Result<(), AllocError>
        ensures given { OnOk result (self.new.given.items ≡ self.old.given.items ++ word ∷ []) }
        ensures shown { OnOk result (map string_bytes self.new.shown.items ≡ map string_bytes self.old.shown.items ++ shown_word (string_bytes word) ∷ []) }
    {
        let name = FileName(file_of(word.as_str()).name);
        let shown = format!(in alloc; "{name}")?;
        self.shown.push(shown).map_err(AllocError::from)?;
        self.given.push(word).map_err(AllocError::from)
    }
}

/// The word of bytes that aren't UTF-8, by the path that leads to its file, if the launcher gave one.
///
/// # Errors
/// A [`WordsFault`]: memory ran out, or the bytes where there is no path.
fn opened_word(alloc: Global, path: Option<&str>, bytes: Vec<u8>) -> Result<String, WordsFault>
    ensures word { IfOk result (λ word. option_map (opened_word bytes.items) (option_copied path.entry) ≡ Some (string_bytes word)) }
    ensures fault { IfErr result (λ fault. (fault ≡ WordsFault.Memory) ⊎ ((fault ≡ WordsFault.NotText bytes) × (option_copied path.entry ≡ None))) }
{
    match path {
        Some(path) => {
            let name = ShownBytes(bytes.as_slice());
            let word = format!(in alloc; "{name}\0{path}")?;
            Ok(word)
        }
        None => Err(WordsFault::NotText(bytes)),
    }
}

/// The path that the launcher gave for the word at a place, if it gave one.
///
/// # Errors
/// Out of memory.
fn path_at(alloc: Global, files: Option<&str>, place: usize) -> Result<Option<&str>, AllocError>
    ensures { IfOk result (λ path. option_copied path ≡ path_at (option_copied files.entry) place) }
{
    let Some(files) = files else {
        return Ok(None);
    };
    let place = format!(in alloc; "{place}")?;
    Ok(opened_path(files, place.as_str()))
}

/// A word of the command line, by what the launcher says of files, if it may name one.
fn word_at(
    alloc: Global,
    files: Option<&str>,
    place: usize,
    bytes: Vec<u8>,
) -> Result<String, WordsFault>
    ensures text { IsUtf8 bytes.items → IsOk result }
    ensures word { IfOk result (λ word. word_text (option_copied files.entry) place bytes.items ≡ Some (string_bytes word)) }
    ensures fault { IfErr result (λ fault. (fault ≡ WordsFault.Memory) ⊎ ((fault ≡ WordsFault.NotText bytes) × (word_text (option_copied files.entry) place bytes.items ≡ None))) }
{
    match word_of(bytes) {
        Err(WordsFault::NotText(bytes)) => {
            let path = path_at(alloc, files, place)?;
            opened_word(alloc, path, bytes)
        }
        read => read,
    }
}

/// The words of the command line, by what the launcher says of files, if they may name some.
fn read_words(rt: &HostRuntime, files: Option<&str>) -> Result<Words, WordsFault>
    ensures shown { IfOk result (λ words. map string_bytes words.shown.items ≡ map (λ word. shown_word (string_bytes word)) words.given.items) }
{
    let mut words = Words::new(rt.alloc());
    for place in 0..usize::MAX {
        let Some(bytes) = read_word(rt, place)? else {
            break;
        };
        words.push(rt.alloc(), word_at(rt.alloc(), files, place, bytes)?)?;
    }
    Ok(words)
}

/// The words of the command line.
///
/// # Errors
/// A [`WordsFault`]: memory ran out, or the first word that isn't UTF-8.
pub fn words_of(rt: &HostRuntime) -> Result<Words, WordsFault>
    ensures shown { IfOk result (λ words. map string_bytes words.shown.items ≡ map (λ word. shown_word (string_bytes word)) words.given.items) }
{
    read_words(rt, None)
}

/// The words of the command line, of a program that may be given files with names that aren't UTF-8. Such a word is what
/// [`file_of`](crate::file_of) takes apart, if the launcher says something of its file.
///
/// # Errors
/// A [`WordsFault`]: memory ran out, or the first word that isn't UTF-8 and of whose file nothing is said.
pub fn words_of_files(rt: &HostRuntime) -> Result<Words, WordsFault>
    ensures shown { IfOk result (λ words. map string_bytes words.shown.items ≡ map (λ word. shown_word (string_bytes word)) words.given.items) }
{
    let files = env::var(rt, OPENED_FILES).ok();
    read_words(rt, files.as_ref().map(|files| files.as_str()))
}

/// Says on standard error why the words can't be read: the program, the word, and what can be done, as `give the file by < FILE`.
/// The exit status is 2 for a word that isn't UTF-8. It is 3, without a line, where memory ran out.
pub fn print_unread_words(rt: &HostRuntime, program: &str, fault: &WordsFault, advice: &str) -> u8 {
    match fault {
        WordsFault::Memory => OUTSIDE,
        WordsFault::NotText(bytes) => {
            let word = ShownBytes(bytes.as_slice());
            let _ = eprintln!(rt; "{program}: {word}: not UTF-8{advice}");
            WRONG_USAGE
        }
    }
}
