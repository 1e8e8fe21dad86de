//! Plays recordings of devices: prints the events that a host reads in their reports.
//! ```text
//!   hidplay [OPTIONS] [FILE]...
//!
//!   each FILE, or standard input --> text, or a report descriptor --> hid_recording::play --> a buffer --> standard output
//!                                --> a capture --> hid_recording::play_capture ^  |
//!                                --> /dev/hidraw0 --> hid_recording::play_live ^  |
//!                                                                                 |
//!                                           progress, what ended a run, a summary --> standard error
//! ```
//! R9 ends all files, and so does a refusal with --strict; anything else ends one file.
//! The exit status is 0; 1 if a line was refused; 2 for a wrong command line; 3 if a file can't be read, standard output can't
//! be written, or memory runs out.
#![tactic(auto)]

mod advice;
mod args;
mod codes;
mod end_line;
mod fault;
mod file_line;
mod hidraw;
mod named_lines;
mod other;
mod progress;
mod source;
mod status;
mod total;
mod undescribed_line;
mod watched_reader;

use advice::advice_of;
use args::{CliArgs, parse_args};
use command_words::{
    FileName, NamedFile, ReadLines, file_of, print_refused_words, print_unread_words,
    words_of_files,
};
use end_line::end_line;
use fault::{FileFault, Why, before_all};
use file_line::file_line;
use hid_capture::UndescribedEndpoint;
use hid_input::Found;
use hid_recording::{Cause, GivenDescriptor, Summary, play_live};
use hidraw::{ReportFile, descriptor_name, may_have_descriptor, node_of};
use named_lines::NamedLines;
use progress::Progress;
use source::{Kind, Manner, Notes, lines_of, play_source, read_descriptor};
use status::{
    FINE, OUTSIDE, WRONG_USAGE, ends_all, exit_of, has_descriptor, lack_status, lacks_descriptor,
    worse,
};
use std::alloc::{AllocError, Global};
use std::fs::File;
use std::io::{self, BufWriter, IsTerminal, Read, Stderr, Write};
use std::process::ExitCode;
use total::Total;
use undescribed_line::UndescribedLine;
use watched_reader::WatchedReader;

/// The name of standard input.
const STANDARD_INPUT: &str = "-";

/// What is said of a file that is no capture and no live device, where a descriptor is given.
const OWN: &str = "it has its own descriptors: --descriptor isn't used";

/// Whether a file is standard input.
fn is_standard_input(file: NamedFile<'_>) -> bool {
    file.name == STANDARD_INPUT
}

fn main(rt: HostRuntime) -> ExitCode {
    let alloc = rt.alloc();
    let words = match words_of_files(&rt) {
        Ok(words) => words,
        Err(fault) => {
            let advice = advice_of(&rt, &fault);
            return ExitCode::from(print_unread_words(&rt, "hidplay", &fault, advice));
        }
    };
    match parse_args(alloc, &words) {
        Ok(asked) => ExitCode::from(play_with_descriptor(&rt, &asked)),
        Err(error) => ExitCode::from(print_refused_words(&rt, "hidplay", &error)),
    }
}

/// What ended a file, and the system's words for it, if it has some.
#[derive(Clone, Copy)]
struct FileEnd {
    fault: FileFault,
    system: Option<io::Error>,
}

/// A file that can't be opened or read.
fn unread(error: io::Error) -> FileEnd {
    FileEnd {
        fault: before_all(Cause::Read),
        system: Some(error),
    }
}

/// What ended a file by a cause that the system has no words for.
fn without_words(fault: FileFault) -> FileEnd {
    FileEnd {
        fault,
        system: None,
    }
}

/// What ended a file whose reader failed so last, if it did.
fn end_of_file(fault: FileFault, failure: Option<io::Error>) -> FileEnd {
    match fault.why {
        Why::Recording(Cause::Read) => FileEnd {
            fault,
            system: failure,
        },
        _ => without_words(fault),
    }
}

/// Whether standard input is one of the files.
fn plays_standard_input(asked: &CliArgs<'_>) -> bool {
    asked.files.is_empty()
        || asked
            .files
            .iter()
            .any(|word| is_standard_input(file_of(*word)))
}

/// Reads the descriptor that is given, if one is, and plays each file.
fn play_with_descriptor(rt: &HostRuntime, asked: &CliArgs<'_>) -> u8 {
    let Some(file) = asked.descriptor else {
        return play_without_descriptor(rt, asked);
    };
    if is_standard_input(file) && plays_standard_input(asked) {
        let _ = eprintln!(rt; "hidplay: -: standard input can't be the descriptor and a file too");
        return WRONG_USAGE;
    }
    match open_descriptor(rt, file) {
        Ok(found) => {
            print_lines(rt, file.name, lines_of(&found));
            let given = GivenDescriptor {
                bytes: found.bytes.as_slice(),
                endpoint: asked.endpoint,
            };
            play_all(rt, asked, Some(given))
        }
        Err(end) => {
            print_fault(rt, file.name, &end);
            exit_of(&Err(end.fault))
        }
    }
}

/// Plays each file, if each that is taken for a device may have a descriptor of the system.
fn play_without_descriptor(rt: &HostRuntime, asked: &CliArgs<'_>) -> u8 {
    if asked.kind == Kind::Live {
        if asked.files.is_empty() {
            return print_no_node(rt, STANDARD_INPUT);
        }
        for word in &asked.files {
            let file = file_of(*word);
            // (one that may not be read is refused later)
            if !file.path.is_none_or(|path| may_have_descriptor(rt, path)) {
                return print_no_node(rt, file.name);
            }
        }
    }
    play_all(rt, asked, None)
}

/// Says on standard error that a file can't be played live without a descriptor.
fn print_no_node(rt: &HostRuntime, name: &str) -> u8 {
    let name = FileName(name);
    let _ = eprintln!(rt; "hidplay: {name}: no hidraw node: --live needs --descriptor");
    WRONG_USAGE
}

/// The report descriptor that a reader gives.
fn take_descriptor<R: Read + Drop>(alloc: Global, reader: R) -> Result<Found, FileEnd> {
    let mut watched = WatchedReader::new(reader);
    let read = read_descriptor(alloc, &mut watched);
    read.map_err(|fault| end_of_file(fault, watched.failure))
}

/// The report descriptor in a file, or in standard input.
fn open_descriptor(rt: &HostRuntime, file: NamedFile<'_>) -> Result<Found, FileEnd> {
    if is_standard_input(file) {
        return take_descriptor(rt.alloc(), rt.stdin());
    }
    match file.open(rt) {
        Ok(file) => take_descriptor(rt.alloc(), file),
        Err(error) => Err(unread(error)),
    }
}

/// Says on standard error what ended a file: its name, its place if it has one, the code, and the system's words.
fn print_fault(rt: &HostRuntime, name: &str, end: &FileEnd) {
    let name = FileName(name);
    let FileFault { place, why, .. } = end.fault;
    let _ = match (place.counted(), end.system) {
        (Some((word, number)), Some(system)) => {
            eprintln!(rt; "{name}: {word} {number}: {why}: {system}")
        }
        (Some((word, number)), None) => eprintln!(rt; "{name}: {word} {number}: {why}"),
        (None, Some(system)) => eprintln!(rt; "{name}: {why}: {system}"),
        (None, None) => eprintln!(rt; "{name}: {why}"),
    };
}

/// Plays each file, or standard input where none is named, and prints the summary.
fn play_all(rt: &HostRuntime, asked: &CliArgs<'_>, given: Option<GivenDescriptor<'_>>) -> u8 {
    let manner = Manner {
        kind: asked.kind,
        options: asked.options,
        given,
    };
    let Ok(mut out) = BufWriter::new(rt.alloc(), rt.stdout()) else {
        let cause = Cause::Memory;
        let _ = eprintln!(rt; "hidplay: {cause}");
        return OUTSIDE;
    };
    let mut total = Total::default();
    let mut status = FINE;
    if asked.files.is_empty() {
        let file = file_of(STANDARD_INPUT);
        status = play_next(rt, asked, manner, file, &mut out, &mut total).status;
    }
    for word in &asked.files {
        let next = play_next(rt, asked, manner, file_of(*word), &mut out, &mut total);
        status = worse(status, next.status);
        if next.is_last {
            break;
        }
    }
    let _ = eprintln!(rt; "{total}");
    status
}

/// The exit status of a file, and whether it is the last one that is played.
#[derive(Clone, Copy)]
struct Next {
    status: u8,
    is_last: bool,
}

/// Plays the next file, adds what was played to the total, and names the endpoints whose reports have no descriptor.
fn play_next<W: Write>(
    rt: &HostRuntime,
    asked: &CliArgs<'_>,
    manner: Manner<'_>,
    file: NamedFile<'_>,
    out: &mut W,
    total: &mut Total,
) -> Next {
    let mut notes = Notes {
        undescribed: Vec::new(rt.alloc()),
        has_own: false,
        lines: None,
    };
    let end = play_one(rt, asked, manner, file, &mut notes, out);
    print_lines(rt, file.name, notes.lines);
    print_undescribed(rt, file.name, notes.undescribed.as_slice());
    if notes.has_own && manner.given.is_some() && has_descriptor(&end) {
        print_own(rt, file.name);
    }
    total.add(&end);
    let strict = asked.options.strict;
    let lacks = lacks_descriptor(strict, notes.undescribed.as_slice());
    Next {
        status: worse(exit_of(&end), lack_status(lacks)),
        is_last: ends_all(strict, &end) || lacks,
    }
}

/// Prints which lines of a text were read as a descriptor.
fn print_lines(rt: &HostRuntime, name: &str, lines: Option<ReadLines>) {
    if let Some(lines) = lines {
        let name = FileName(name);
        let _ = eprintln!(rt; "{name}: {lines}");
    }
}

/// Says on standard error which endpoints sent reports that have no descriptor, and what can be done.
fn print_undescribed(rt: &HostRuntime, name: &str, undescribed: &[UndescribedEndpoint]) {
    let name = FileName(name);
    for endpoint in undescribed {
        let line = UndescribedLine {
            endpoint: *endpoint,
        };
        let _ = eprintln!(rt; "{name}: {line}");
    }
}

/// Says on standard error that the descriptor that is given isn't used for a file.
fn print_own(rt: &HostRuntime, name: &str) {
    let name = FileName(name);
    let _ = eprintln!(rt; "{name}: {OWN}");
}

/// Plays one file, and prints what ended it early.
fn play_one<W: Write>(
    rt: &HostRuntime,
    asked: &CliArgs<'_>,
    manner: Manner<'_>,
    file: NamedFile<'_>,
    notes: &mut Notes,
    out: &mut W,
) -> Result<Summary, FileFault> {
    let Ok(member) = member_of(rt.alloc(), asked, file.name) else {
        let end = without_words(before_all(Cause::Memory));
        print_fault(rt, file.name, &end);
        return Err(end.fault);
    };
    let begun = print_file(rt.alloc(), asked, file.name, out);
    let mut out = NamedLines::new(out, member.as_slice());
    let end = match begun {
        Ok(()) => play_named(rt, asked, manner, file, notes, &mut out),
        Err(cause) => Err(without_words(before_all(cause))),
    };
    match end {
        Ok(summary) => Ok(summary),
        Err(end) => {
            let end = print_end(rt.alloc(), asked, end, &mut out);
            print_fault(rt, file.name, &end);
            Err(end.fault)
        }
    }
}

/// The line of JSON that names a file, as it is printed.
fn json_name(alloc: Global, name: &str) -> Result<Vec<u8>, AllocError> {
    let name = FileName(name);
    let shown = format!(in alloc; "{name}")?;
    file_line(alloc, shown.as_str())
}

/// The member that names a file in each line of its JSON, with its comma, if there are several files.
fn member_of(alloc: Global, asked: &CliArgs<'_>, name: &str) -> Result<Vec<u8>, AllocError> {
    let mut member = Vec::new(alloc);
    if asked.options.json && asked.files.len() >= 2 {
        let line = json_name(alloc, name)?;
        if let [b'{', inside @ .., b'}', b'\n'] = line.as_slice() {
            member.extend_from_slice(inside)?;
            member.push(b',')?;
        }
    }
    Ok(member)
}

/// The line of JSON of what ended a file.
fn json_end(alloc: Global, end: &FileEnd) -> Result<Vec<u8>, AllocError> {
    let system = system_words(alloc, end.system)?;
    end_line(alloc, &end.fault, system.as_str())
}

/// With JSON, prints what ended a file too. Where that fails, it is what ended the file.
fn print_end<W: Write>(alloc: Global, asked: &CliArgs<'_>, end: FileEnd, out: &mut W) -> FileEnd {
    if !asked.options.json || matches!(end.fault.why, Why::Recording(Cause::Write)) {
        return end;
    }
    let cause = match json_end(alloc, &end) {
        Ok(line) => {
            if out.write_all(line.as_slice()).is_ok() && out.flush().is_ok() {
                return end;
            }
            Cause::Write
        }
        Err(_) => Cause::Memory,
    };
    without_words(FileFault {
        why: Why::Recording(cause),
        ..end.fault
    })
}

/// The system's words after a colon, or none.
fn system_words(alloc: Global, system: Option<io::Error>) -> Result<String, AllocError> {
    match system {
        Some(error) => format!(in alloc; ": {error}"),
        None => Ok(String::new(alloc)),
    }
}

/// Prints the name of a file before its output, if there are several files.
fn print_file<W: Write>(
    alloc: Global,
    asked: &CliArgs<'_>,
    name: &str,
    out: &mut W,
) -> Result<(), Cause> {
    if asked.files.len() < 2 {
        return Ok(());
    }
    let told = if asked.options.json {
        let Ok(line) = json_name(alloc, name) else {
            return Err(Cause::Memory);
        };
        out.write_all(line.as_slice())
    } else {
        let name = FileName(name);
        writeln!(out, "file {name}")
    };
    told.map_err(|_| Cause::Write)
}

/// Where the progress is printed: on standard error, if it is a terminal and events go elsewhere.
fn terminal(rt: &HostRuntime) -> Option<Stderr> {
    if rt.stderr().is_terminal() && !rt.stdout().is_terminal() {
        Some(rt.stderr())
    } else {
        None
    }
}

/// Plays a file, or standard input where the name is `-`.
fn play_named<W: Write>(
    rt: &HostRuntime,
    asked: &CliArgs<'_>,
    manner: Manner<'_>,
    named: NamedFile<'_>,
    notes: &mut Notes,
    out: &mut W,
) -> Result<Summary, FileEnd> {
    if is_standard_input(named) {
        return play_standard_input(rt, manner, notes, out);
    }
    let file = match named.open(rt) {
        Ok(file) => file,
        Err(error) => return Err(unread(error)),
    };
    // (what was opened has a path)
    let path = named.path.unwrap_or(named.name);
    let Ok(metadata) = file.metadata() else {
        return play_stream(rt, file, None, manner, notes, out);
    };
    match node_of(rt, path, metadata.file_type()) {
        Some(node) if matches!(manner.kind, Kind::Detected | Kind::Live) => {
            play_node(rt, asked, manner, node.as_str(), file, out)
        }
        _ if manner.kind == Kind::Live => play_node(rt, asked, manner, path, file, out),
        // (a pipe has no size)
        _ => play_stream(rt, file, Some(metadata.len()), manner, notes, out),
    }
}

/// Plays standard input: as a live device, if that is asked for with a descriptor.
fn play_standard_input<W: Write>(
    rt: &HostRuntime,
    manner: Manner<'_>,
    notes: &mut Notes,
    out: &mut W,
) -> Result<Summary, FileEnd> {
    match manner.given {
        Some(given) if manner.kind == Kind::Live => {
            play_reports(rt, manner, given.bytes, rt.stdin(), out)
        }
        _ => play_stream(rt, rt.stdin(), None, manner, notes, out),
    }
}

/// Plays a file of this size, if it is known.
fn play_stream<R: Read + Drop, W: Write>(
    rt: &HostRuntime,
    reader: R,
    size: Option<u64>,
    manner: Manner<'_>,
    notes: &mut Notes,
    out: &mut W,
) -> Result<Summary, FileEnd> {
    let mut watched = WatchedReader::new(reader);
    let mut progress = Progress::new(terminal(rt), size.filter(|size| *size > 0));
    let end = play_source(rt.alloc(), &mut watched, manner, notes, out, &mut progress);
    progress.clear();
    end.map_err(|fault| end_of_file(fault, watched.failure))
}

/// The descriptor that the system's folder has for a node.
fn system_descriptor(
    rt: &HostRuntime,
    system: NamedFile<'_>,
    node: &str,
) -> Result<Found, FileEnd> {
    let Some(folder) = system.path else {
        // (the folder may not be read)
        return open_descriptor(rt, system);
    };
    match descriptor_name(rt.alloc(), folder, node) {
        Ok(path) => open_descriptor(rt, file_of(path.as_str())),
        Err(_) => Err(without_words(before_all(Cause::Memory))),
    }
}

/// Plays a live device, by the descriptor that is given, or that the system has for its node.
fn play_node<W: Write>(
    rt: &HostRuntime,
    asked: &CliArgs<'_>,
    manner: Manner<'_>,
    node: &str,
    file: File,
    out: &mut W,
) -> Result<Summary, FileEnd> {
    if let Some(given) = manner.given {
        return play_reports(rt, manner, given.bytes, file, out);
    }
    match system_descriptor(rt, asked.system, node) {
        Ok(found) => play_reports(rt, manner, found.bytes.as_slice(), file, out),
        Err(end) => {
            if let Ok(name) = descriptor_name(rt.alloc(), asked.system.name, node) {
                print_fault(rt, name.as_str(), &end);
            }
            Err(end)
        }
    }
}

/// Plays the reports of a live device.
fn play_reports<R: Read + Drop, W: Write>(
    rt: &HostRuntime,
    manner: Manner<'_>,
    descriptor: &[u8],
    file: R,
    out: &mut W,
) -> Result<Summary, FileEnd> {
    let mut device = ReportFile::new(rt, file);
    let end = play_live(rt.alloc(), descriptor, &mut device, out, manner.options);
    end.map_err(|fault| end_of_file(FileFault::from(fault), device.failure))
}
