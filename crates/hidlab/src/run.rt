//! A run: the sources of lines, and the bench that carries them out.

ghost use Rattle.std.specs.Prelude.{◌<◌, vec_len};

use super::progress::Progress;
use super::source::{LabSource, name_beside};
use super::words::{
    expected_of, hex_words, left_words, mark_words, name_words, syntax_words, unmet_words,
    word_shown,
};
use command_words::{FileName, ReadLines};
use hid_input::{Found, InputCause, InputFault, KnownFile, descriptor_in, known_file};
use hid_layout::{Layout, Limits};
use hid_script::{Cause, StepFault};
use hid_snapshots::ChangeFault;
use hid_stack::StackFault;
use lab_lines::{Added, Body, LabLine, MAX_INCLUDES, MAX_REPEATS, Unread, read_lab_line};
use lab_session::{Bench, LabCause, LabFault, Need, RunEnd, cause_words};
use std::alloc::{AllocError, Global};
use std::io::{self, Read, Write};
use std::{fmt, fs};

/// How many lines a run has at most, those of a body in each round, and a round of a body without lines as one.
const MAX_LINES: u64 = 100_000_000;

/// The most bytes of a file with a descriptor.
const LONGEST: usize = 1 << 24;

/// Why a line is not carried out, and words that say more than those of the cause, if there are any.
#[derive(Drop)]
pub struct Trouble {
    /// The line of its file; 0 where nothing of the script itself can be read.
    pub line: usize,
    pub cause: LabCause,
    pub words: Option<String>,
}

/// A cause without words of its own.
pub fn bare(line: usize, cause: LabCause) -> Trouble {
    Trouble {
        line,
        cause,
        words: None,
    }
}

/// A cause, in words that say more than its own.
fn in_words(alloc: Global, line: usize, cause: LabCause, words: &str) -> Trouble {
    match String::from_str(alloc, words) {
        Ok(words) => Trouble {
            line,
            cause,
            words: Some(words),
        },
        Err(_) => no_memory(line),
    }
}

/// X11: the lines of a `repeat` are too long.
fn too_long(alloc: Global, line: usize) -> Trouble {
    in_words(
        alloc,
        line,
        LabCause::TooDeep,
        "over 1 MiB between repeat and end",
    )
}

/// Memory ran out.
fn no_memory(line: usize) -> Trouble {
    bare(line, LabCause::Script(Cause::Memory))
}

/// A cause in these words, or in those of its own.
fn with_words(alloc: Global, number: usize, cause: Cause, words: Option<&'static str>) -> Trouble {
    let cause = LabCause::Script(cause);
    match words {
        Some(words) => in_words(alloc, number, cause, words),
        None => bare(number, cause),
    }
}

/// X2, of a line that begins so: a byte order mark is named, since it hides the line's first word.
pub fn long_trouble(alloc: Global, number: usize, line: &[u8]) -> Trouble {
    with_words(alloc, number, Cause::LineTooLong, mark_words(line))
}

/// X3, of a line.
pub fn hex_trouble(alloc: Global, number: usize, line: &[u8]) -> Trouble {
    with_words(alloc, number, Cause::BadHex, hex_words(line))
}

/// Why a line can't be read: it is too long (X2), or which word of it is wrong (X1), and what was expected there.
pub fn unread_trouble(alloc: Global, number: usize, line: &[u8]) -> Trouble {
    if matches!(read_lab_line(line), Err(Unread::TooLong)) {
        return long_trouble(alloc, number, line);
    }
    match syntax_words(alloc, line) {
        Ok(words) => Trouble {
            line: number,
            cause: LabCause::Script(Cause::Syntax),
            words,
        },
        Err(_) => no_memory(number),
    }
}

/// The words of a cause, with the control that the line meant if one is known.
fn bench_words(
    alloc: Global,
    bench: &Bench,
    cause: LabCause,
) -> Result<Option<String>, AllocError> {
    let words = cause_words(cause, bench.control());
    Ok(Some(format!(in alloc; "{words}")?))
}

/// The cause of a control that isn't there.
pub fn no_control() -> Cause {
    Cause::Step(StepFault::Stack(StackFault::Refused(ChangeFault::NoSuchControl)))
}

/// Whether a control isn't there.
fn is_no_control(cause: LabCause) -> bool {
    cause == LabCause::Script(no_control())
}

/// Why the bench refuses a line, in words.
fn refusal_words(
    alloc: Global,
    bench: &Bench,
    cause: LabCause,
    line: &[u8],
) -> Result<Option<String>, AllocError> {
    match cause {
        LabCause::Script(Cause::Syntax) => syntax_words(alloc, line),
        LabCause::Unmet => {
            let words = unmet_words(alloc, bench.came(), expected_of(line), bench.poll_count())?;
            Ok(Some(words))
        }
        _ if is_no_control(cause) => match name_words(alloc, line)? {
            Some(words) => Ok(Some(words)),
            None => bench_words(alloc, bench, cause),
        },
        _ => bench_words(alloc, bench, cause),
    }
}

/// Why the bench refuses a line.
fn bench_trouble(alloc: Global, bench: &Bench, source: &LabSource, fault: &LabFault) -> Trouble {
    let cause = fault.cause;
    let line = source.refused_line(fault);
    let number = source.number(fault.line);
    let words = match cause {
        LabCause::Script(Cause::LineTooLong) => return long_trouble(alloc, number, line),
        LabCause::Script(Cause::BadHex) => return hex_trouble(alloc, number, line),
        _ => refusal_words(alloc, bench, cause, line),
    };
    match words {
        Ok(words) => Trouble {
            line: number,
            cause,
            words,
        },
        Err(_) => no_memory(number),
    }
}

/// Why a file can't be used.
fn file_trouble<T: fmt::Display>(
    alloc: Global,
    line: usize,
    cause: LabCause,
    name: &[u8],
    why: &T,
) -> Trouble {
    match word_shown(alloc, name) {
        Ok(name) => Trouble {
            line,
            cause,
            words: format!(in alloc; "{name}: {why}").ok(),
        },
        Err(_) => no_memory(line),
    }
}

/// Why a source gives no more lines: of a file that can't be read with the system's words.
fn read_trouble(alloc: Global, source: &LabSource, fault: &LabFault) -> Trouble {
    let number = source.number(fault.line);
    match source.file_failure() {
        Some(error) => file_trouble(
            alloc,
            number,
            LabCause::Unreadable,
            source.name.as_bytes(),
            &error,
        ),
        None if fault.cause == LabCause::Script(Cause::LineTooLong) => {
            long_trouble(alloc, number, source.refused_line(fault))
        }
        None => bare(number, fault.cause),
    }
}

/// Why nothing of the script itself can be read.
fn script_trouble(alloc: Global, path: &str, error: &io::Error) -> Trouble {
    Trouble {
        line: 0,
        cause: LabCause::Unreadable,
        words: format!(in alloc; "{path}: it can't be read: {error}").ok(),
    }
}

/// Why nothing can be read of the last source, as of a folder. An included one is taken away: the line that names it is refused then.
fn drop_unread(alloc: Global, sources: &mut Vec<LabSource>) -> Option<Trouble> {
    let count = sources.len();
    if count == 0 || !sources[count - 1].is_unread() {
        return None;
    }
    let error = sources[count - 1].file_failure()?;
    if count == 1 {
        return Some(script_trouble(alloc, sources[0].name.as_str(), &error));
    }
    let line = sources[count - 2].last_number();
    let source = sources.pop()?;
    Some(file_trouble(
        alloc,
        line,
        LabCause::Unreadable,
        source.name.as_bytes(),
        &error,
    ))
}

/// Why the last source gives no more lines.
pub fn last_trouble(alloc: Global, sources: &mut Vec<LabSource>, fault: &LabFault) -> Trouble {
    match drop_unread(alloc, sources) {
        Some(trouble) => trouble,
        None => match sources.last() {
            Some(source) => read_trouble(alloc, source, fault),
            None => bare(fault.line, fault.cause),
        },
    }
}

/// Why the last source gives no more lines, or a line of it is refused.
fn source_trouble(
    alloc: Global,
    bench: &Bench,
    sources: &mut Vec<LabSource>,
    fault: &LabFault,
) -> Trouble {
    match sources.last() {
        Some(source) if source.file_failure().is_none() => {
            bench_trouble(alloc, bench, source, fault)
        }
        _ => last_trouble(alloc, sources, fault),
    }
}

/// How many of the sources are bodies, or files.
fn count_sources(sources: &[LabSource], is_body: bool) -> usize {
    sources
        .iter()
        .filter(|source| source.is_body() == is_body)
        .count()
}

/// Takes the lines up to the `end` of a `repeat`, which stands on a line with this number.
fn take_body<W: Write>(
    alloc: Global,
    source: &mut LabSource,
    count: u16,
    writer: &mut W,
) -> Result<Body, Trouble> {
    let before = source.last_number();
    let mut body = Body::new(alloc, count);
    let mut line = Vec::new(alloc);
    for _ in 0..MAX_LINES {
        match source.next_line(&mut line, writer) {
            Err(fault) => return Err(read_trouble(alloc, source, &fault)),
            Ok(false) => return Err(bare(before, LabCause::Unpaired)),
            Ok(true) => {}
        }
        let number = source.last_number();
        match body.add(line.as_slice()) {
            Err(_) => return Err(no_memory(number)),
            Ok(Added::Open) => {}
            Ok(Added::Whole) => return Ok(body),
            Ok(Added::TooLong) => return Err(too_long(alloc, number)),
            Ok(Added::Malformed) => return Err(unread_trouble(alloc, number, line.as_slice())),
        }
    }
    Err(too_long(alloc, before))
}

/// Adds a source, which comes first from now on.
fn push(sources: &mut Vec<LabSource>, source: LabSource, line: usize) -> Result<(), Trouble> {
    match sources.push(source) {
        Ok(()) => Ok(()),
        Err(_) => Err(no_memory(line)),
    }
}

/// The lines of a `repeat`, which is the last line of a source, come next, so often.
///
/// # Errors
/// X11 where too many stand in one another or the lines are too long; X10 without an `end`; X1, X2 and X5 to X8 of a line between.
pub fn repeat<W: Write>(
    alloc: Global,
    sources: &mut Vec<LabSource>,
    last: usize,
    count: u16,
    writer: &mut W,
) -> Result<(), Trouble>
    requires { last < vec_len sources.old }
{
    let line = sources[last].last_number();
    if count_sources(sources.as_slice(), true) >= MAX_REPEATS {
        let words = "over eight repeat in one another";
        return Err(in_words(alloc, line, LabCause::TooDeep, words));
    }
    let body = take_body(alloc, &mut sources[last], count, writer)?;
    let Ok(name) = sources[last].name.clone() else {
        return Err(no_memory(line));
    };
    push(
        sources,
        LabSource::body(alloc, body, count, name, line),
        line,
    )
}

/// The name of a file that the last line of a source names.
///
/// # Errors
/// X14 of a name that isn't UTF-8; X7.
pub fn path_of(alloc: Global, source: &LabSource, name: &[u8]) -> Result<String, Trouble> {
    let Ok(name) = std::str::from_utf8(name) else {
        let line = source.last_number();
        return Err(file_trouble(alloc, line, LabCause::Unreadable, name, &"not UTF-8"));
    };
    match name_beside(alloc, source.name.as_str(), name) {
        Ok(path) => Ok(path),
        Err(cause) => Err(bare(source.last_number(), cause)),
    }
}

/// The lines of a file, which the last line of a source names, come next.
///
/// # Errors
/// X11 where too many files stand in one another; X14 of a file that can't be opened; X7.
pub fn include(
    rt: &HostRuntime,
    sources: &mut Vec<LabSource>,
    last: usize,
    name: &[u8],
) -> Result<(), Trouble>
    requires { last < vec_len sources.old }
{
    let alloc = rt.alloc();
    let line = sources[last].last_number();
    if count_sources(sources.as_slice(), false) > MAX_INCLUDES {
        let words = "over eight files in one another";
        return Err(in_words(alloc, line, LabCause::TooDeep, words));
    }
    let path = path_of(alloc, &sources[last], name)?;
    match fs::open(rt, path.as_str()) {
        Ok(file) => push(sources, LabSource::file(alloc, file, path), line),
        Err(error) => Err(file_trouble(alloc, line, LabCause::Unreadable, path.as_bytes(), &error)),
    }
}

/// The bytes of a file, up to one more than are taken.
fn read_file(rt: &HostRuntime, path: &str) -> io::Result<Vec<u8>> {
    let mut bytes = Vec::new(rt.alloc());
    fs::open(rt, path)?
        .take(LONGEST as u64 + 1)
        .read_to_end(&mut bytes)?;
    Ok(bytes)
}

/// What a file is whose descriptor is refused or has no reports, if it is known for another one.
fn known_as(alloc: Global, descriptor: &[u8]) -> Option<KnownFile> {
    let known = known_file(descriptor)?;
    match Layout::parse_within(alloc, Limits::Real, descriptor) {
        Ok(layout) if !layout.reports().is_empty() => None,
        _ => Some(known),
    }
}

/// Prints which lines of a file were read, if it doesn't name them itself.
fn print_lines(rt: &HostRuntime, path: &str, found: &Found) {
    let Some((first, last)) = found.lines else {
        return;
    };
    let name = FileName(path);
    let count = found.bytes.len();
    let read = ReadLines { count, first, last };
    let _ = eprintln!(rt; "hidlab: {name}: {read}");
}

/// The descriptor in a file, which a line names.
///
/// # Errors
/// X14 of a file that can't be read; X15 of one without a descriptor; X7.
pub fn read_descriptor(rt: &HostRuntime, line: usize, path: &str) -> Result<Vec<u8>, Trouble> {
    let alloc = rt.alloc();
    let name = path.as_bytes();
    let bytes = match read_file(rt, path) {
        Ok(bytes) => bytes,
        Err(error) => {
            return Err(file_trouble(alloc, line, LabCause::Unreadable, name, &error));
        }
    };
    match descriptor_in(alloc, bytes.as_slice()) {
        Ok(found) if found.bytes.is_empty() => Err(file_trouble(
            alloc,
            line,
            LabCause::NoDescriptor,
            name,
            &"no descriptor",
        )),
        Ok(found) => match known_as(alloc, found.bytes.as_slice()) {
            Some(known) => Err(file_trouble(alloc, line, LabCause::NoDescriptor, name, &known)),
            None => {
                print_lines(rt, path, &found);
                Ok(found.bytes)
            }
        },
        Err(
            InputFault {
                cause: InputCause::Memory,
                ..
            },
        ) => Err(no_memory(line)),
        Err(fault) => Err(file_trouble(alloc, line, LabCause::NoDescriptor, name, &fault)),
    }
}

/// Why the device of a file is not attached.
fn attach_trouble(alloc: Global, bench: &Bench, line: usize, cause: LabCause) -> Trouble {
    match bench_words(alloc, bench, cause) {
        Ok(words) => Trouble { line, cause, words },
        Err(_) => no_memory(line),
    }
}

/// Gives what the last line of a source asks for: the lines that come next, or a device.
fn give<W: Write>(
    rt: &HostRuntime,
    sources: &mut Vec<LabSource>,
    bench: &mut Bench,
    last: usize,
    need: Need,
    writer: &mut W,
) -> Result<(), Trouble>
    requires { last < vec_len sources.old }
{
    let alloc = rt.alloc();
    let line = sources[last].last_number();
    match need {
        Need::End => Err(bare(line, LabCause::Unpaired)),
        Need::Repeat { count } => repeat(alloc, sources, last, count, writer),
        Need::Include(name) => include(rt, sources, last, name.as_slice()),
        Need::Device { start, boot, name } => {
            let path = path_of(alloc, &sources[last], name.as_slice())?;
            let descriptor = read_descriptor(rt, line, path.as_str())?;
            match bench.attach(start, boot, descriptor.as_slice(), writer) {
                Ok(()) => Ok(()),
                Err(cause) => Err(attach_trouble(alloc, bench, line, cause)),
            }
        }
    }
}

/// X8: a run has too many lines.
fn no_end(alloc: Global, line: usize) -> Trouble {
    let cause = LabCause::Script(Cause::TooManyReads);
    in_words(
        alloc,
        line,
        cause,
        "over 100000000 lines, those of a repeat in each round",
    )
}

/// How many lines a source counts at its end: a body without lines counts its rounds.
fn rounds_without_lines(source: &LabSource) -> u64 {
    if source.taken() == 0 {
        source.rounds()
    } else {
        0
    }
}

/// A test that fails at its end, in these words.
fn end_trouble(line: usize, cause: LabCause, words: Result<String, AllocError>) -> Trouble {
    match words {
        Ok(words) => Trouble {
            line,
            cause,
            words: Some(words),
        },
        Err(_) => no_memory(line),
    }
}

/// That nothing is tested, in words.
fn untested_words(alloc: Global, source: &LabSource) -> Result<String, AllocError> {
    let name = source.shown_name();
    let words = "nothing is tested: no line attaches a device, prints or expects anything";
    format!(in alloc; "{name}: X13: {words}")
}

/// What is wrong at the end of a test: that printed lines were not expected, or that nothing was tested.
fn end_of_test<W: Write>(
    alloc: Global,
    source: &LabSource,
    bench: &mut Bench,
    lines: usize,
    writer: &mut W,
) -> Result<(), Trouble> {
    let is_test = bench.is_test();
    match bench.carry_out(&LabLine::ExpectNone, writer) {
        Err(cause) if is_test => Err(end_trouble(lines, cause, left_words(alloc, bench.came()))),
        Ok(()) if !is_test && !bench.has_device() => {
            Err(end_trouble(0, LabCause::Unmet, untested_words(alloc, source)))
        }
        Ok(()) | Err(_) => Ok(()),
    }
}

/// Carries out all lines of the sources. How many lines the first one has, which is the last that ends.
///
/// # Errors
/// Why a line is not carried out, which is one of the last source; or why the test fails at its end.
pub fn run_all<W: Write, T: Write>(
    rt: &HostRuntime,
    sources: &mut Vec<LabSource>,
    bench: &mut Bench,
    writer: &mut W,
    progress: &mut Progress<T>,
) -> Result<usize, Trouble> {
    let mut all: u64 = 0;
    for _ in 0..=MAX_LINES {
        let count = sources.len();
        if count == 0 {
            return Ok(0);
        }
        let last = count - 1;
        let before = sources[last].taken();
        if all > MAX_LINES {
            return Err(no_end(rt.alloc(), sources[last].last_number()));
        }
        progress.begin(before);
        let end = sources[last].run(bench, writer, progress);
        all = all.saturating_add(sources[last].taken().saturating_sub(before) as u64);
        match end {
            Ok(RunEnd::All(summary)) if last == 0 => {
                let lines = summary.lines as usize;
                end_of_test(rt.alloc(), &sources[0], bench, lines, writer)?;
                return Ok(lines);
            }
            Ok(RunEnd::All(_)) => {
                all = all.saturating_add(rounds_without_lines(&sources[last]));
                drop(sources.pop());
            }
            Ok(RunEnd::Asks(need)) => give(rt, sources, bench, last, need, writer)?,
            Err(fault) => return Err(source_trouble(rt.alloc(), bench, sources, &fault)),
        }
    }
    Err(no_end(rt.alloc(), 0))
}
