//! What a file is: the text of a recording, a capture, or a report descriptor in any of its forms.

ghost use Rattle.std.specs.Prelude.{◌≡◌, [], IfOk, OnOk, drop};
ghost use Rattle.hidplay.specs.Source.{ReadsPiece, ReadsUpTo, IsAfterPassed, ReadsBeginning};

use super::fault::{FileFault, before_all, other_file, unread_descriptor};
use super::other::{OtherFile, is_script, is_umockdev, other_of, says_nothing};
use command_words::ReadLines;
use hid_capture::UndescribedEndpoint;
use hid_input::{Found, InputCause, begins_recording, descriptor_in, is_recording};
use hid_recording::{
    Cause, GivenDescriptor, Options, Summary, Watch, descriptor_line, play, play_capture,
};
use hid_text::split_line;
use std::alloc::Global;
use std::io::{BufRead, BufReader, ErrorKind, Read, Write};
use usb_capture::is_capture;

/// What a file is taken for.
#[derive(Clone, Copy, Debug, PartialEq, Eq)]
pub enum Kind {
    /// What it begins with says.
    Detected,
    Text,
    Binary,
    /// A live device.
    Live,
}

/// More bytes than a descriptor has: it is refused for its length, whatever comes after them.
const TOO_MANY: usize = 4097;

/// As much of a file as has its descriptor: one of 4,096 bytes takes some 400,000 in what lsusb prints.
const LONGEST: usize = 1 << 20;

/// The bytes by which a capture is known, and a byte order mark. They are gathered, however few a read brings.
const START: usize = 4;

/// The byte order mark of UTF-8.
const MARK: [u8; 3] = [0xEF, 0xBB, 0xBF];

/// How often a reader is asked at most.
const MAX_READS: u32 = 1_000_000;

/// The first byte, if there is one. A read that is interrupted is tried again.
fn first_byte<R: Read>(reader: &mut BufReader<R>) -> Result<Option<u8>, FileFault> {
    for _ in 0..MAX_READS {
        match reader.fill_buf() {
            Ok(front) => return Ok(front.first().copied()),
            Err(error) if error.kind() == ErrorKind::Interrupted => {}
            Err(_) => return Err(before_all(Cause::Read)),
        }
    }
    Err(before_all(Cause::TooManyReads))
}

/// Adds what a read brings, of 8,192 bytes at most. Whether it brought anything: nothing stands after the file's end.
///
/// # Errors
/// [`Cause::Memory`], [`Cause::Read`] and [`Cause::TooManyReads`], before anything is played.
fn read_piece<R: Read>(bytes: &mut Vec<u8>, reader: &mut R) -> Result<bool, FileFault>
    ensures read { IfOk result (ReadsPiece (R.remaining reader.old) (R.remaining reader.new) bytes.old.items bytes.new.items) }
{
    let mut piece = [0u8; 8192];
    for _ in 0..MAX_READS {
        match reader.read(&mut piece) {
            Ok(count) => {
                return match bytes.extend_from_slice(&piece[..count]) {
                    Ok(()) => Ok(count > 0),
                    Err(_) => Err(before_all(Cause::Memory)),
                };
            }
            Err(error) if error.kind() == ErrorKind::Interrupted => {}
            Err(_) => return Err(before_all(Cause::Read)),
        }
    }
    Err(before_all(Cause::TooManyReads))
}

/// Adds what follows in a file, up to the read with which there are so many bytes or more.
///
/// # Errors
/// Those of [`read_piece`].
fn read_on<R: Read>(bytes: &mut Vec<u8>, reader: &mut R, most: usize) -> Result<(), FileFault>
    ensures read { OnOk result (ReadsUpTo most (R.remaining reader.old) (R.remaining reader.new) bytes.old.items bytes.new.items) }
{
    for _ in 0..MAX_READS {
        if most <= bytes.len() || !read_piece(bytes, reader)? {
            return Ok(());
        }
    }
    Err(before_all(Cause::TooManyReads))
}

/// The first bytes of a file, up to the read that brings so many or more.
///
/// # Errors
/// Those of [`read_piece`].
fn read_front<R: Read>(alloc: Global, reader: &mut R, most: usize) -> Result<Vec<u8>, FileFault>
    ensures read { IfOk result (λ bytes. ReadsUpTo most (R.remaining reader.old) (R.remaining reader.new) [] bytes.items) }
{
    let mut bytes = Vec::new(alloc);
    read_on(&mut bytes, reader, most)?;
    Ok(bytes)
}

/// What stands in a text after its first lines, each with its end, that say nothing.
fn after_passed(text: &[u8]) -> &[u8]
    ensures { IsAfterPassed text.now result.now }
{
    let mut rest = text;
    while let Some((line, behind)) = split_line(rest) {
        if !says_nothing(line) {
            return rest;
        }
        rest = behind;
    }
    rest
}

/// Whether several lines of a text say something. One alone is refused as a line.
fn says_more(text: &[u8]) -> bool {
    match split_line(after_passed(text)) {
        Some((_, behind)) => !says_nothing(after_passed(behind)),
        None => false,
    }
}

/// What stands in a text from a place on; nothing after its end.
fn text_from(text: &[u8], place: usize) -> &[u8]
    ensures { result.now ≡ drop place text.now }
{
    if place < text.len() {
        &text[place..]
    } else {
        &[]
    }
}

/// The first bytes of a file, up to the read that brings the end of a line that says something, so that however a file is
/// read it is taken for the same; or up to as many as a descriptor can take.
///
/// # Errors
/// Those of [`read_piece`].
fn read_beginning<R: Read>(alloc: Global, reader: &mut R) -> Result<Vec<u8>, FileFault>
    ensures read { IfOk result (λ bytes. ReadsBeginning (R.remaining reader.old) (R.remaining reader.new) bytes.items) }
{
    let mut bytes = Vec::new(alloc);
    let mut passed = 0;
    for _ in 0..MAX_READS {
        let rest = after_passed(text_from(bytes.as_slice(), passed));
        if LONGEST <= bytes.len() || split_line(rest).is_some() {
            return Ok(bytes);
        }
        passed = bytes.len().saturating_sub(rest.len());
        if !read_piece(&mut bytes, reader)? {
            return Ok(bytes);
        }
    }
    Err(before_all(Cause::TooManyReads))
}

/// The report descriptor in a file, whatever form it has.
///
/// # Errors
/// Those of reading, and why the file has no descriptor.
pub fn read_descriptor<R: Read>(alloc: Global, reader: &mut R) -> Result<Found, FileFault> {
    let bytes = read_front(alloc, reader, LONGEST)?;
    match descriptor_in(alloc, bytes.as_slice()) {
        Ok(found) => known_for_itself(alloc, found),
        Err(fault) => Err(unread_descriptor(fault)),
    }
}

/// A descriptor, if its bytes aren't those of another file.
fn known_for_itself(alloc: Global, found: Found) -> Result<Found, FileFault> {
    match other_of(alloc, found.bytes.as_slice()) {
        None => Ok(found),
        Some(other) => Err(other_file(other)),
    }
}

/// Which lines were read, of a text that doesn't name them itself.
pub fn lines_of(found: &Found) -> Option<ReadLines> {
    let (first, last) = found.lines?;
    Some(ReadLines {
        count: found.bytes.len(),
        first,
        last,
    })
}

/// Plays a binary descriptor.
fn play_binary<R: Read, W: Write, H: Watch>(
    alloc: Global,
    reader: &mut R,
    out: &mut W,
    options: Options,
    watch: &mut H,
) -> Result<Summary, FileFault> {
    let bytes = read_front(alloc, reader, TOO_MANY)?;
    play_descriptor(alloc, bytes.as_slice(), out, options, watch)
}

/// Plays a descriptor as the line that has its bytes.
fn play_descriptor<W: Write, H: Watch>(
    alloc: Global,
    descriptor: &[u8],
    out: &mut W,
    options: Options,
    watch: &mut H,
) -> Result<Summary, FileFault> {
    let front = &descriptor[..descriptor.len().min(TOO_MANY)];
    let Ok(line) = descriptor_line(alloc, front) else {
        return Err(before_all(Cause::Memory));
    };
    let mut recording = line.as_bytes();
    Ok(play(alloc, &mut recording, out, options, watch)?)
}

/// Passes over a byte order mark.
fn skip_mark<R: Read>(reader: &mut BufReader<R>) -> Result<(), FileFault> {
    if let Some(0xEF) = first_byte(reader)? {
        if reader.buffer().starts_with(&MARK) {
            reader.consume(MARK.len());
        }
    }
    Ok(())
}

/// Whether a file is a capture, by its first four bytes.
fn begins_capture<R: Read>(reader: &mut BufReader<R>) -> Result<bool, FileFault> {
    match first_byte(reader)? {
        None => Ok(false),
        Some(_) => Ok(is_capture(reader.buffer())),
    }
}

/// How a file is played.
#[derive(Clone, Copy)]
pub struct Manner<'a> {
    /// What it is taken for.
    pub kind: Kind,
    pub options: Options,
    /// The descriptor of a capture's interfaces that have none in it, if one is given.
    pub given: Option<GivenDescriptor<'a>>,
}

/// What is said of a file after it was played.
#[derive(Drop)]
pub struct Notes {
    /// Of a capture the endpoints whose reports have no descriptor.
    pub undescribed: Vec<UndescribedEndpoint>,
    /// Whether it has its own descriptors: it is no capture.
    pub has_own: bool,
    /// Of a text that is a descriptor alone the lines that were read.
    pub lines: Option<ReadLines>,
}

/// Plays a file, as what it is.
///
/// # Errors
/// Before anything is played: [`Cause::Memory`] where there is none to read with, [`Cause::Read`] and [`Cause::TooManyReads`]
/// where the first bytes, or those of a descriptor, can't be read; at its line, why a descriptor can't be read. Later what [`play`] and
/// [`play_capture`] give.
pub fn play_source<R: Read + Drop, W: Write, H: Watch>(
    alloc: Global,
    reader: R,
    manner: Manner<'_>,
    notes: &mut Notes,
    out: &mut W,
    watch: &mut H,
) -> Result<Summary, FileFault> {
    let mut reader = reader;
    let start = read_front(alloc, &mut reader, START)?;
    match BufReader::new(alloc, start.as_slice().chain(reader)) {
        Ok(mut reader) => play_buffered(alloc, &mut reader, manner, notes, out, watch),
        Err(_) => Err(before_all(Cause::Memory)),
    }
}

/// Plays the descriptor that was found in a text.
fn play_found<W: Write, H: Watch>(
    alloc: Global,
    found: Found,
    manner: Manner<'_>,
    notes: &mut Notes,
    out: &mut W,
    watch: &mut H,
) -> Result<Summary, FileFault> {
    let found = known_for_itself(alloc, found)?;
    notes.lines = lines_of(&found);
    play_descriptor(alloc, found.bytes.as_slice(), out, manner.options, watch)
}

/// Plays the descriptor in a recording of umockdev, whose lines `E:` are properties and no reports.
fn play_umockdev<R: Read, W: Write, H: Watch>(
    alloc: Global,
    beginning: Vec<u8>,
    reader: &mut BufReader<R>,
    manner: Manner<'_>,
    notes: &mut Notes,
    out: &mut W,
    watch: &mut H,
) -> Result<Summary, FileFault> {
    let mut front = beginning;
    read_on(&mut front, reader, LONGEST)?;
    match descriptor_in(alloc, front.as_slice()) {
        Ok(found) => play_found(alloc, found, manner, notes, out, watch),
        Err(fault) if is_missing(fault.cause) => Err(other_file(OtherFile::Umockdev)),
        Err(fault) => Err(unread_descriptor(fault)),
    }
}

/// Whether a text has no descriptor: it may be a script.
fn is_missing(cause: InputCause) -> bool {
    matches!(
        cause,
        InputCause::NoByte { .. } | InputCause::NotWhole(_) | InputCause::NoDescriptor
    )
}

/// Plays a file that doesn't begin as a recording: as one if it has a line of a recording, or is longer than what is read of it; else
/// its descriptor.
fn play_other<R: Read, W: Write, H: Watch>(
    alloc: Global,
    beginning: Vec<u8>,
    reader: &mut BufReader<R>,
    manner: Manner<'_>,
    notes: &mut Notes,
    out: &mut W,
    watch: &mut H,
) -> Result<Summary, FileFault> {
    let mut front = beginning;
    read_on(&mut front, reader, LONGEST)?;
    if !is_recording(front.as_slice()) {
        match descriptor_in(alloc, front.as_slice()) {
            Ok(found) => return play_found(alloc, found, manner, notes, out, watch),
            Err(fault) => {
                if !is_missing(fault.cause) {
                    return Err(unread_descriptor(fault));
                }
                if is_script(front.as_slice()) {
                    return Err(other_file(OtherFile::Script));
                }
                if front.len() < LONGEST && fault.cause != InputCause::NoDescriptor {
                    return Err(unread_descriptor(fault));
                }
            }
        }
        // (lines of a recording may come after what was read of a longer file)
        if front.len() < LONGEST && says_more(front.as_slice()) {
            return Err(other_file(OtherFile::NoRecording));
        }
    }
    let mut recording = front.as_slice().chain(reader);
    Ok(play(alloc, &mut recording, out, manner.options, watch)?)
}

/// Plays a file that is a capture, a recording or a descriptor, by what it begins with.
fn play_detected<R: Read, W: Write, H: Watch>(
    alloc: Global,
    reader: &mut BufReader<R>,
    manner: Manner<'_>,
    notes: &mut Notes,
    out: &mut W,
    watch: &mut H,
) -> Result<Summary, FileFault> {
    if begins_capture(reader)? {
        let played = play_capture(alloc, reader, out, manner.options, manner.given, watch);
        notes.undescribed = played.undescribed;
        return Ok(played.end?);
    }
    notes.has_own = true;
    skip_mark(reader)?;
    let beginning = read_beginning(alloc, reader)?;
    if is_umockdev(after_passed(beginning.as_slice())) {
        return play_umockdev(alloc, beginning, reader, manner, notes, out, watch);
    }
    if begins_recording(beginning.as_slice()) {
        let mut recording = beginning.as_slice().chain(reader);
        Ok(play(alloc, &mut recording, out, manner.options, watch)?)
    } else {
        play_other(alloc, beginning, reader, manner, notes, out, watch)
    }
}

/// Plays a text.
fn play_text<R: Read, W: Write, H: Watch>(
    alloc: Global,
    reader: &mut BufReader<R>,
    out: &mut W,
    options: Options,
    watch: &mut H,
) -> Result<Summary, FileFault> {
    skip_mark(reader)?;
    Ok(play(alloc, reader, out, options, watch)?)
}

/// Plays a file by its buffered reader.
fn play_buffered<R: Read, W: Write, H: Watch>(
    alloc: Global,
    reader: &mut BufReader<R>,
    manner: Manner<'_>,
    notes: &mut Notes,
    out: &mut W,
    watch: &mut H,
) -> Result<Summary, FileFault> {
    match manner.kind {
        Kind::Binary => {
            notes.has_own = true;
            play_binary(alloc, reader, out, manner.options, watch)
        }
        Kind::Text => {
            notes.has_own = true;
            play_text(alloc, reader, out, manner.options, watch)
        }
        Kind::Detected | Kind::Live => { play_detected(alloc, reader, manner, notes, out, watch) }
    }
}
