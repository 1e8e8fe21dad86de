//! Files whose names aren't UTF-8: the launcher opens them, and the program reads them by paths that lead to what is open.

ghost use Rattle.std.specs.Prelude.{◌≡◌, IsErr, IfErr, None, Some, pos};
ghost use Rattle.std.specs.List.{find, slice_split};
ghost use Rattle.std.specs.Option.{option_copied};
ghost use Rattle.std.specs.IoError.{raw_os_error};
ghost use Rattle.command_words.specs.Opened.{shown_name, path_of, is_blank, is_at, opened_path};

use std::fs::{self, File};
use std::io;

/// The variable in which the launcher names what it opened: words with one blank between them, each the place of a name on the
/// command line, `=`, and a path, or nothing where the file may not be read.
pub const OPENED_FILES: &str = "HID_OPEN_FILES";

/// What stands between a name and the path of its file. No word of a command line has this character.
const END: char = '\0';

/// The error of a file that may not be read (EACCES of Linux).
const DENIED: i32 = 13;

/// Whether what the launcher says of a file is of the name at a place, which is given in decimal.
fn is_at(file: &str, place: &str) -> bool
    ensures { result ≡ is_at place.now file.now }
{
    match file.split_once('=') {
        Some((number, _)) => number == place,
        None => false,
    }
}

/// What the launcher says of the file whose name has this place.
fn file_at<'a>(files: &'a str, place: &str) -> Option<&'a str>
    ensures { option_copied result ≡ find (is_at place.now) (slice_split is_blank files.now) }
{
    files.split(' ').find(|file| is_at(file, place))
}

/// The path that leads to the file whose name has this place, which is given in decimal, if the launcher says something of it; an
/// empty one where the file may not be read.
pub fn opened_path<'a>(files: &'a str, place: &str) -> Option<&'a str>
    ensures { option_copied result ≡ opened_path files.now place.now }
{
    let file = file_at(files, place)?;
    let (_, path) = file.split_once('=')?;
    Some(path)
}

/// A file that a word of the command line names.
#[derive(Clone, Copy, Debug)]
pub struct NamedFile<'a> {
    /// Its name as it is printed, before control characters are escaped: other bytes than UTF-8 are escapes in it.
    pub name: &'a str,
    /// The path by which it is opened; none where it may not be read.
    pub path: Option<&'a str>,
}

/// The file that a word names.
pub fn file_of(word: &str) -> NamedFile<'_>
    ensures name { result.name.now ≡ shown_name word.now }
    ensures path { option_copied result.path ≡ path_of word.now }
{
    match word.split_once(END) {
        Some((name, "")) => NamedFile { name, path: None },
        Some((name, path)) => NamedFile {
            name,
            path: Some(path),
        },
        None => NamedFile {
            name: word,
            path: Some(word),
        },
    }
}

impl NamedFile<'_> {
    /// Opens the file.
    ///
    /// # Errors
    /// That of the system.
    pub fn open(&self, rt: &HostRuntime) -> io::Result<File>
        ensures denied { option_copied self.now.path ≡ None → IsErr result × IfErr result (λ error. raw_os_error error ≡ Some (pos 13)) }
    {
        match self.path {
            Some(path) => fs::open(rt, path),
            None => Err(io::Error::from_raw_os_error(DENIED)),
        }
    }
}
