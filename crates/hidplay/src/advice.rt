//! What can be done about a word of the command line that isn't UTF-8.

use command_words::WordsFault;
use std::alloc::AllocError;
use std::env::Env;

/// Of a file that is played.
const OF_FILE: &str = ": give the file by < FILE";

/// Of a descriptor.
const OF_DESCRIPTOR: &str = ": give the file by --descriptor - < FILE";

/// Of a folder.
const OF_FOLDER: &str = ": give --sysfs a link to the folder";

/// How many words are looked at.
const MAX_WORDS: usize = 100_000;

/// Whether the word at a place of the command line is this one.
fn is_at(rt: &HostRuntime, place: usize, word: &[u8], room: &mut [u8]) -> bool {
    match rt.arg(place, room) {
        Ok(count) => room.get(..count) == Some(word),
        Err(_) => false,
    }
}

/// The place of the first word that is this one.
///
/// # Errors
/// Out of memory.
fn place_of(rt: &HostRuntime, word: &[u8]) -> Result<Option<usize>, AllocError> {
    let mut room = Vec::new(rt.alloc());
    room.resize(word.len(), 0)?;
    for place in 0..MAX_WORDS {
        if is_at(rt, place, word, room.as_mut_slice()) {
            return Ok(Some(place));
        }
    }
    Ok(None)
}

/// Whether a word is the value of an option: it stands after it, or after its `=`.
fn is_value_of(rt: &HostRuntime, word: &[u8], place: usize, option: &str) -> bool {
    let mut room = [0u8; 16];
    let name = option.as_bytes();
    if place > 0 && is_at(rt, place - 1, name, &mut room) {
        return true;
    }
    match word.strip_prefix(name) {
        Some([b'=', ..]) => true,
        _ => false,
    }
}

/// What can be done about the first word that isn't UTF-8, by what it names.
pub fn advice_of(rt: &HostRuntime, fault: &WordsFault) -> &'static str {
    let WordsFault::NotText(word) = fault else {
        return OF_FILE;
    };
    let Ok(Some(place)) = place_of(rt, word.as_slice()) else {
        return OF_FILE;
    };
    if is_value_of(rt, word.as_slice(), place, "--descriptor") {
        OF_DESCRIPTOR
    } else if is_value_of(rt, word.as_slice(), place, "--sysfs") {
        OF_FOLDER
    } else {
        OF_FILE
    }
}
