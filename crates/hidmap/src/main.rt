//! Draws the reports of a device: a page with a picture of each report's bits.
//! ```text
//!   hidmap [OPTIONS] [FILE]
//!
//!   FILE, or standard input --> descriptor_in --> Layout::parse_within --> hid_page::draw --> standard output
//!     in any shape: hid_input                        |
//!                                                    +-- refused --> draw_refused --> standard output
//!                                                                    and in words --> standard error
//! ```
//! The exit status is 0; 1 if the descriptor or the text around it is refused; 2 for a wrong command line, and for a report
//! that doesn't exist; 3 if a file can't be read, standard output can't be written, or memory runs out.
#![tactic(auto)]

ghost use Rattle.std.specs.Prelude.{◌≤◌, length};
ghost use Rattle.hidmap.specs.declared.TheConstants.{MOST};

mod args;
mod columns;
mod status;

use args::{CliArgs, parse_args};
use columns::{COLUMNS, columns_of};
use command_words::{
    FileName, NamedFile, ReadLines, print_refused_words, print_unread_words, words_of_files,
};
use hid_input::{
    Found, InputCause, InputFault, KnownFile, Shape, begins_text, descriptor_fault, descriptor_in,
    known_file,
};
use hid_layout::{Cause, Layout, LayoutFault, Limits, MAX_DESCRIPTOR, long_report};
use hid_notation::RefusalText;
use hid_page::{Form, MAX_DRAWN, draw, draw_refused};
use status::{FINE, OUTSIDE, REFUSED, WRONG_USAGE};
use std::alloc::Global;
use std::env;
use std::io::{self, IsTerminal, Read, Write};
use std::process::ExitCode;

/// What is reported where memory runs out.
const NO_MEMORY: &str = "out of memory";

/// What is reported where standard output doesn't take all.
const UNWRITTEN: &str = "standard output can't be written";

/// The longest input: a descriptor of 4,096 bytes takes 12,300 in an R: line, and what lies after it is of no use.
const LONGEST: usize = 1 << 24;

/// The most bytes of a descriptor that are read. One that is longer is refused at byte 4,096, and the item that begins there
/// has 258 at most.
const MOST: usize = MAX_DESCRIPTOR + 258;

/// What is reported of characters that are read as bytes: text with control characters, in which no descriptor is looked for.
const CONTROLS: &str = "text, not a descriptor: write it without control characters, as UTF-8";

/// What can be done where a name isn't UTF-8.
const ADVICE: &str = ": give the file by < FILE";

fn main(rt: HostRuntime) -> ExitCode {
    let alloc = rt.alloc();
    let words = match words_of_files(&rt) {
        Ok(words) => words,
        Err(fault) => return ExitCode::from(print_unread_words(&rt, "hidmap", &fault, ADVICE)),
    };
    match parse_args(alloc, &words, terminal_columns(&rt)) {
        Ok(asked) => ExitCode::from(draw_file(&rt, &asked)),
        Err(error) => ExitCode::from(print_refused_words(&rt, "hidmap", &error)),
    }
}

/// The columns of pictures where none are asked for: those that COLUMNS gives, where standard output is a terminal; else 80.
fn terminal_columns(rt: &HostRuntime) -> u16 {
    if !rt.stdout().is_terminal() {
        return COLUMNS;
    }
    match env::var(rt, "COLUMNS") {
        Ok(text) => columns_of(text.as_str()),
        Err(_) => COLUMNS,
    }
}

/// What went wrong outside: `hidmap` and words, on standard error.
fn print_outside_fault(rt: &HostRuntime, words: &str) -> u8 {
    let _ = eprintln!(rt; "hidmap: {words}");
    OUTSIDE
}

/// Why a file can't be read.
fn print_unread_fault(rt: &HostRuntime, name: &str, error: &io::Error) -> u8 {
    if error.kind() == io::ErrorKind::OutOfMemory {
        return print_outside_fault(rt, NO_MEMORY);
    }
    let name = FileName(name);
    let _ = eprintln!(rt; "hidmap: {name}: it can't be read: {error}");
    OUTSIDE
}

/// The bytes of a reader, up to one more than are taken.
fn read_some<R: Read + Drop>(rt: &HostRuntime, reader: R) -> io::Result<Vec<u8>> {
    let mut bytes = Vec::new(rt.alloc());
    reader.take(LONGEST as u64 + 1).read_to_end(&mut bytes)?;
    Ok(bytes)
}

/// The bytes of a file, or of standard input where the name is `-`.
fn read_named(rt: &HostRuntime, file: NamedFile<'_>) -> io::Result<Vec<u8>> {
    if file.name == "-" {
        read_some(rt, rt.stdin())
    } else {
        read_some(rt, file.open(rt)?)
    }
}

/// Draws the descriptor of a file, or prints why it can't.
fn draw_file(rt: &HostRuntime, asked: &CliArgs<'_>) -> u8 {
    let name = asked.file.name;
    let bytes = match read_named(rt, asked.file) {
        Ok(bytes) => bytes,
        Err(error) => return print_unread_fault(rt, name, &error),
    };
    if bytes.len() > LONGEST {
        let name = FileName(name);
        let _ = eprintln!(rt; "hidmap: {name}: over {LONGEST} bytes");
        return REFUSED;
    }
    match descriptor_in(rt.alloc(), bytes.as_slice()) {
        Ok(found) => {
            print_lines(rt, name, &found);
            draw_found(rt, asked, &found)
        }
        Err(
            InputFault {
                cause: InputCause::Memory,
                ..
            },
        ) => print_outside_fault(rt, NO_MEMORY),
        Err(fault) => {
            let name = FileName(name);
            let _ = eprintln!(rt; "hidmap: {name}: {fault}");
            REFUSED
        }
    }
}

/// Prints which lines were read, of a text that doesn't name them itself.
fn print_lines(rt: &HostRuntime, name: &str, found: &Found) {
    let Some((first, last)) = found.lines else {
        return;
    };
    let name = FileName(name);
    let count = found.bytes.len();
    let read = ReadLines { count, first, last };
    let _ = eprintln!(rt; "hidmap: {name}: {read}");
}

/// What a file is that has no descriptor, if it is known: by its first bytes, or as text with control characters.
fn known_words(rt: &HostRuntime, name: &str, bytes: &[u8]) -> Option<u8> {
    if let Some(known) = known_file(bytes) {
        return Some(print_known(rt, name, known));
    }
    if begins_text(bytes) {
        let name = FileName(name);
        let _ = eprintln!(rt; "hidmap: {name}: {CONTROLS}");
        return Some(REFUSED);
    }
    None
}

/// Prints why the bytes of a binary file are no whole descriptor, if they aren't. Text with such bytes is refused, or has its own mark.
fn print_not_whole(rt: &HostRuntime, name: &str, found: &Found) {
    if found.shape != Shape::Binary {
        return;
    }
    if let Some(fault) = descriptor_fault(found.bytes.as_slice()) {
        let name = FileName(name);
        let _ = eprintln!(rt; "hidmap: {name}: no whole descriptor: {fault}");
    }
}

/// Draws a descriptor, or what it is refused for.
fn draw_found(rt: &HostRuntime, asked: &CliArgs<'_>, found: &Found) -> u8 {
    let descriptor = found.bytes.as_slice();
    let descriptor = &descriptor[..descriptor.len().min(MOST)];
    match Layout::parse_within(rt.alloc(), Limits::Real, descriptor) {
        Ok(layout) => {
            if layout.reports().is_empty() {
                if let Some(status) = known_words(rt, asked.file.name, descriptor) {
                    return status;
                }
                let name = FileName(asked.file.name);
                let _ = eprintln!(rt; "hidmap: {name}: no reports");
            } else {
                print_not_whole(rt, asked.file.name, found);
            }
            draw_layout(rt, &layout, descriptor, asked.form)
        }
        Err(
            LayoutFault {
                cause: Cause::Memory,
                ..
            },
        ) => print_outside_fault(rt, NO_MEMORY),
        Err(fault) => match long_report(rt.alloc(), Limits::Real, descriptor, fault) {
            Ok(report) => draw_refusal(rt, asked, descriptor, RefusalText { fault, report }),
            Err(_) => print_outside_fault(rt, NO_MEMORY),
        },
    }
}

/// What a file is that has no descriptor.
fn print_known(rt: &HostRuntime, name: &str, known: KnownFile) -> u8 {
    let name = FileName(name);
    let _ = eprintln!(rt; "hidmap: {name}: {known}");
    REFUSED
}

/// Writes what is drawn of a layout.
fn draw_layout(rt: &HostRuntime, layout: &Layout, descriptor: &[u8], form: Form) -> u8
    requires { length descriptor.now ≤ MOST }
{
    match draw(rt.alloc(), layout, descriptor, form) {
        Ok(Some(text)) => write_out(rt, &text, FINE),
        Ok(None) => {
            print_no_picture(rt, layout, form);
            WRONG_USAGE
        }
        Err(_) => print_outside_fault(rt, NO_MEMORY),
    }
}

/// Why there is no picture of a report alone: there is no such report, or it has too many bytes.
fn print_no_picture(rt: &HostRuntime, layout: &Layout, form: Form) {
    let count = layout.reports().len();
    match form {
        Form::Svg(r) if r < count => {
            let bytes = layout.report_bytes(r);
            let _ = eprintln!(rt;
                "hidmap: report {r} has {bytes} bytes: a picture has up to {MAX_DRAWN}"
            );
        }
        _ => {
            if count > 0 {
                let _ = eprintln!(rt;
                    "hidmap: there is no such report: of {count}, the first is 0"
                );
            }
        }
    }
}

/// Writes why a descriptor is refused, and its page, where a page is asked for; of a file that is known for another one what it is.
fn draw_refusal(
    rt: &HostRuntime,
    asked: &CliArgs<'_>,
    descriptor: &[u8],
    refusal: RefusalText,
) -> u8
    requires { length descriptor.now ≤ MOST }
{
    if let Some(status) = known_words(rt, asked.file.name, descriptor) {
        return status;
    }
    let name = FileName(asked.file.name);
    let _ = eprintln!(rt; "hidmap: {name}: {refusal}");
    match asked.form {
        Form::Svg(_) | Form::Characters(_) => REFUSED,
        Form::Page => match draw_refused(rt.alloc(), descriptor, refusal) {
            Ok(text) => write_out(rt, &text, REFUSED),
            Err(_) => print_outside_fault(rt, NO_MEMORY),
        },
    }
}

/// Writes a text to standard output: the status, or that it failed.
fn write_out(rt: &HostRuntime, text: &String, status: u8) -> u8 {
    match rt.stdout().write_all(text.as_bytes()) {
        Ok(()) => status,
        Err(_) => print_outside_fault(rt, UNWRITTEN),
    }
}
