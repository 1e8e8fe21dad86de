//! `--usbip`: the devices of the script are those of a real machine, whose connection standard input and output are.

ghost use Rattle.std.specs.Prelude.{◌<◌, vec_len};

use super::printing::{print_last_place, print_place, print_trouble};
use super::run::{
    Trouble, bare, hex_trouble, include, last_trouble, long_trouble, no_control, path_of,
    read_descriptor, repeat, unread_trouble,
};
use super::source::LabSource;
use super::words::{ended_words, name_words, unmet_words};
use command_words::FileName;
use hid_requests::Boot;
use hid_script::Cause;
use hid_snapshots::ChangeFault;
use hid_text::{LineFault, first_word};
use lab_lines::{LabLine, read_lab_line};
use lab_serving::{LabScript, Watching};
use lab_session::LabCause;
use std::alloc::{AllocError, Global};
use std::io::Stderr;
use usbip_script::{FINE, LineCause, MAX_SCRIPT, OUTSIDE, REFUSED, ServeFault, exit_of, serve};

/// How many lines are read at most, those of bodies each time: all are read before anything is served.
const MAX_LINES: usize = 1 << 20;

/// Where a line stands.
#[derive(Clone, Copy)]
struct Place {
    /// The index of its file's name.
    file: usize,
    line: usize,
}

/// Why nothing is served.
#[derive(Drop)]
enum Refusal {
    /// For a cause that the bench has too.
    Line(Trouble),
    /// For one that only a script has that is served.
    Served(ServeFault),
    /// E1: the host does it, in words.
    Unserved(&'static str),
}

impl From<Trouble> for Refusal {
    fn from(trouble: Trouble) -> Refusal {
        Refusal::Line(trouble)
    }
}

impl From<AllocError> for Refusal {
    fn from(_error: AllocError) -> Refusal {
        Refusal::Served(ServeFault::Memory)
    }
}

/// A script that is read, and where its lines stand, by their numbers.
#[derive(Drop)]
struct Reading {
    script: LabScript,
    names: Vec<String>,
    places: Vec<Place>,
}

impl Reading {
    /// No line was read.
    fn new(alloc: Global) -> Reading {
        Reading {
            script: LabScript::new(alloc),
            names: Vec::new(alloc),
            places: Vec::new(alloc),
        }
    }

    /// The index of the name of the file in which the last source is.
    fn file(&mut self, sources: &[LabSource]) -> Result<usize, AllocError> {
        let Some(source) = sources.last() else {
            return Ok(0);
        };
        let name = source.name.as_str();
        if let Some(known) = self.names.iter().position(|other| other.as_str() == name) {
            return Ok(known);
        }
        self.names.push(source.name.clone()?)?;
        Ok(self.names.len().saturating_sub(1))
    }

    /// Keeps where the line is that was read last. Returns the number of the line.
    fn keep_place(&mut self, sources: &[LabSource]) -> Result<usize, AllocError> {
        let file = self.file(sources)?;
        let line = match sources.last() {
            Some(source) => source.last_number(),
            None => 0,
        };
        let number = self.places.len();
        self.places.push(Place { file, line })?;
        Ok(number)
    }
}

/// Why a line isn't served, in words: the host does what it asks for.
fn unserved_words(line: &[u8]) -> &'static str {
    match first_word(line) {
        Some((b"lose", _)) => {
            "lose works without --usbip alone: nothing is lost on the way to a real host"
        }
        Some((b"expect", _)) => {
            "events of a real host can't be expected; output and feature can"
        }
        Some((b"layout" | b"values", _)) => "layouts and values are printed without --usbip",
        _ => "not with a real host, which polls and asks by itself",
    }
}

/// The refusal of a line for a control that isn't there, with the name that no usage has where the line has one.
fn control_refusal(alloc: Global, number: usize, line: &[u8], fault: ServeFault) -> Refusal {
    match name_words(alloc, line) {
        Ok(Some(words)) => Refusal::Line(Trouble {
            line: number,
            cause: LabCause::Script(no_control()),
            words: Some(words),
        }),
        Ok(None) => Refusal::Served(fault),
        Err(_) => Refusal::Served(ServeFault::Memory),
    }
}

/// The cause of a line that the bench refuses too, by its number in its file; else that of one that isn't served.
fn refusal_of(alloc: Global, number: usize, line: &[u8], fault: ServeFault) -> Refusal {
    match fault {
        ServeFault::Line(_, LineCause::Text(LineFault::Syntax)) => {
            Refusal::Line(unread_trouble(alloc, number, line))
        }
        ServeFault::Line(_, LineCause::Change(ChangeFault::NoSuchControl)) => {
            control_refusal(alloc, number, line, fault)
        }
        ServeFault::Line(_, LineCause::Text(LineFault::LineTooLong)) => {
            Refusal::Line(long_trouble(alloc, number, line))
        }
        ServeFault::Line(_, LineCause::Text(LineFault::BadHex)) => {
            Refusal::Line(hex_trouble(alloc, number, line))
        }
        ServeFault::Line(_, LineCause::NotServed) => Refusal::Unserved(unserved_words(line)),
        _ => Refusal::Served(fault),
    }
}

/// Takes the next line of the last source that has one, without its end; those that are at their end go. Whether there is one.
fn take_line(
    alloc: Global,
    sources: &mut Vec<LabSource>,
    line: &mut Vec<u8>,
) -> Result<bool, Trouble> {
    let mut quiet = Vec::new(alloc);
    for _ in 0..MAX_LINES {
        let count = sources.len();
        if count == 0 {
            return Ok(false);
        }
        match sources[count - 1].next_line(line, &mut quiet) {
            Ok(true) => return Ok(true),
            Ok(false) => drop(sources.pop()),
            Err(fault) => return Err(last_trouble(alloc, sources, &fault)),
        }
    }
    Ok(false)
}

/// Takes a device whose descriptor is in a file, which the last line of a source names.
fn take_device(
    rt: &HostRuntime,
    source: &LabSource,
    script: &mut LabScript,
    number: usize,
    boot: Boot,
    name: &[u8],
) -> Result<(), Refusal> {
    let alloc = rt.alloc();
    let path = path_of(alloc, source, name)?;
    let descriptor = read_descriptor(rt, source.last_number(), path.as_str())?;
    match script
        .script
        .attach(alloc, number, boot, descriptor.as_slice())
    {
        Ok(()) => Ok(()),
        Err(fault) => Err(Refusal::Served(fault)),
    }
}

/// Takes what the last line of a source says: lines that come next, a device, or what happens at the devices.
fn take_said(
    rt: &HostRuntime,
    sources: &mut Vec<LabSource>,
    last: usize,
    reading: &mut Reading,
    bytes: &[u8],
) -> Result<(), Refusal>
    requires { last < vec_len sources.old }
{
    let alloc = rt.alloc();
    let number = reading.keep_place(sources.as_slice())?;
    let line = sources[last].last_number();
    let Ok(said) = read_lab_line(bytes) else {
        return Err(Refusal::Line(unread_trouble(alloc, line, bytes)));
    };
    match said {
        LabLine::End => Err(Refusal::Line(bare(line, LabCause::Unpaired))),
        LabLine::Repeat { count } => {
            let mut quiet = Vec::new(alloc);
            Ok(repeat(alloc, sources, last, count, &mut quiet)?)
        }
        LabLine::Include(name) => Ok(include(rt, sources, last, name)?),
        LabLine::DeviceFile { boot, name, .. } => {
            take_device(rt, &sources[last], &mut reading.script, number, boot, name)
        }
        _ => match reading.script.take(alloc, number, said) {
            Ok(()) => Ok(()),
            Err(fault) => Err(refusal_of(alloc, line, bytes, fault)),
        },
    }
}

/// Reads all lines.
fn read_lines(
    rt: &HostRuntime,
    sources: &mut Vec<LabSource>,
    reading: &mut Reading,
) -> Result<(), Refusal> {
    let mut line = Vec::new(rt.alloc());
    let mut bytes: usize = 0;
    for _ in 0..MAX_LINES + 1 {
        if !take_line(rt.alloc(), sources, &mut line)? {
            return Ok(());
        }
        bytes = bytes.saturating_add(line.len());
        if bytes > MAX_SCRIPT {
            return Err(Refusal::Served(ServeFault::TooLong));
        }
        let count = sources.len();
        if count > 0 {
            take_said(rt, sources, count - 1, reading, line.as_slice())?;
        }
    }
    Err(Refusal::Served(ServeFault::Line(reading.places.len(), LineCause::TooLong)))
}

/// Reads all lines, which have to attach a device.
fn read_script(
    rt: &HostRuntime,
    sources: &mut Vec<LabSource>,
    reading: &mut Reading,
) -> Result<(), Refusal> {
    read_lines(rt, sources, reading)?;
    if reading.script.script.devices.is_empty() {
        return Err(Refusal::Served(ServeFault::NoDevices));
    }
    Ok(())
}

/// Prints what is wrong with the script as a whole, or with the connection.
fn print_whole(rt: &HostRuntime, file: &str, fault: &ServeFault) {
    let file = FileName(file);
    let _ = eprintln!(rt; "hidlab: {file}: {fault}");
}

/// Prints why nothing is served.
fn print_refusal(rt: &HostRuntime, file: &str, sources: &[LabSource], refusal: &Refusal) -> u8 {
    match refusal {
        Refusal::Line(trouble) => print_trouble(rt, sources, trouble),
        Refusal::Unserved(words) => {
            print_last_place(
                rt,
                sources,
                sources.last().map_or(0, |source| source.last_number()),
            );
            let _ = eprintln!(rt; "E1: {words}");
            REFUSED
        }
        Refusal::Served(fault) => {
            match (fault, sources.last()) {
                (ServeFault::Line(_, cause), Some(source)) => {
                    print_last_place(rt, sources, source.last_number());
                    let _ = eprintln!(rt; "{cause}");
                }
                _ => print_whole(rt, file, fault),
            }
            exit_of(fault)
        }
    }
}

/// Prints where a line stands by its number.
fn print_place_of(rt: &HostRuntime, names: &[String], places: &[Place], number: usize) {
    let Some(place) = places.get(number) else {
        return;
    };
    let name = names.get(place.file).map_or("", |name| name.as_str());
    print_place(rt, name, place.line);
}

/// Prints that an expectation isn't met: what came in its place, if anything did before the connection ended, and what it is.
fn print_unmet(rt: &HostRuntime, came: &[u8], expected: &[u8]) {
    let words = if came.is_empty() {
        ended_words(rt.alloc(), expected)
    } else {
        unmet_words(rt.alloc(), came, expected, 1)
    };
    match words {
        Ok(words) => {
            let words = FileName(words.as_str());
            let _ = eprintln!(rt; "X13: {words}");
        }
        Err(_) => {
            let _ = eprintln!(rt; "X13");
        }
    }
}

/// Prints that an expectation isn't met, which is on the line with this number. If the connection ended before anything came in its
/// place, it is that of the next report.
fn print_left(
    rt: &HostRuntime,
    names: &[String],
    places: &[Place],
    watching: &Watching<Stderr>,
    number: usize,
) {
    match watching.awaited() {
        Some(next) if watching.came().is_empty() => {
            print_place_of(rt, names, places, next.number);
            print_unmet(rt, b"", next.line.as_slice());
        }
        _ => {
            print_place_of(rt, names, places, number);
            print_unmet(rt, watching.came(), watching.expected());
        }
    }
}

/// Prints why serving ended early: at the line that has to do with it, if one has.
fn print_fault(
    rt: &HostRuntime,
    file: &str,
    names: &[String],
    places: &[Place],
    watching: &Watching<Stderr>,
    fault: &ServeFault,
) -> u8 {
    match fault {
        ServeFault::Line(number, LineCause::Unmet) => {
            print_left(rt, names, places, watching, *number);
        }
        ServeFault::Line(number, cause) => {
            print_place_of(rt, names, places, *number);
            let _ = eprintln!(rt; "{cause}");
        }
        _ => print_whole(rt, file, fault),
    }
    exit_of(fault)
}

/// Serves a script that was read from a file.
fn serve_reading(rt: &HostRuntime, file: &str, reading: Reading, told: Option<Stderr>) -> u8 {
    let Reading {
        script,
        names,
        places,
    } = reading;
    let LabScript {
        mut script,
        expectations,
    } = script;
    let mut watching = Watching::new(rt.alloc(), expectations, told);
    let end = serve(
        rt,
        &mut script,
        &mut rt.stdin(),
        &mut rt.stdout(),
        &mut watching,
    );
    drop(script);
    match end {
        Ok(()) => FINE,
        Err(fault) => {
            print_fault(
                rt,
                file,
                names.as_slice(),
                places.as_slice(),
                &watching,
                &fault,
            )
        }
    }
}

/// Serves the devices of a script, which is in this file, until the connection ends. What the host sets is printed to standard error
/// where that is asked for.
pub fn serve_source(rt: &HostRuntime, file: &str, source: LabSource, is_told: bool) -> u8 {
    let mut sources = Vec::new(rt.alloc());
    if sources.push(source).is_err() {
        return OUTSIDE;
    }
    let mut reading = Reading::new(rt.alloc());
    match read_script(rt, &mut sources, &mut reading) {
        Ok(()) => serve_reading(
            rt,
            file,
            reading,
            if is_told { Some(rt.stderr()) } else { None },
        ),
        Err(refusal) => print_refusal(rt, file, sources.as_slice(), &refusal),
    }
}
