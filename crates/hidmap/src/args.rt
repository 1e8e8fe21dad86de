//! The words of the command line.

use clap::{Arg, ArgAction, ArgMatches, Command, Error, value_parser};
use command_words::{NamedFile, Words, file_of, matches_of};
use hid_page::Form;
use std::alloc::{AllocError, Global};

/// What the words ask for.
#[derive(Clone, Copy)]
pub struct CliArgs<'a> {
    pub form: Form,
    /// The file; `-` is standard input.
    pub file: NamedFile<'a>,
}

const CODES: &str =
    "A whole descriptor is read from binary, or from text: a line R: of hid-recorder,\nwhat usbhid-dump, lsusb -v, xxd, hexdump -C, od -t x1 or Wireshark print, hex, a\nlist in brackets, or strings of escapes: docs/INPUT-FORMS.md.\nL1 to L16 are why it is refused: docs/RECORDINGS.md. The pictures:\ndocs/PICTURES.md. All are installed in share/doc/rulohevian.";

/// The option `--svg N`.
fn svg<'a>(alloc: Global) -> Result<Arg<'a>, AllocError> {
    Arg::new(alloc, "svg")
        .long("svg")
        .value_name("N")
        .value_parser(value_parser!(u16))
        .help("Draw the picture of report N alone, as SVG, from 0")
        .conflicts_with("text")
}

/// The option `--text`.
fn text<'a>(alloc: Global) -> Arg<'a> {
    Arg::new(alloc, "text")
        .long("text")
        .action(ArgAction::SetTrue)
        .help("Draw the pictures in characters")
}

/// The option `--width N`.
fn width<'a>(alloc: Global) -> Result<Arg<'a>, AllocError> {
    Arg::new(alloc, "width")
        .long("width")
        .value_name("N")
        .value_parser(value_parser!(u16))
        .help("Draw characters for N columns (the terminal's, else 80)")
        .conflicts_with("svg")
}

/// The argument FILE.
fn file<'a>(alloc: Global) -> Arg<'a> {
    Arg::new(alloc, "FILE").help("The report descriptor; - and no FILE are standard input")
}

/// The program, and the report that it may draw alone.
fn drawing<'a>(alloc: Global) -> Result<Command<'a>, AllocError> {
    let svg = svg(alloc)?;
    Command::new(alloc, "hidmap")
        .version("0.2.0")
        .about("Draws where each field stands in the reports of a USB HID device, as HTML")
        .after_help(CODES)
        .arg(svg)
}

/// The command line.
fn command<'a>(alloc: Global) -> Result<Command<'a>, AllocError> {
    let command = drawing(alloc)?.arg(text(alloc))?;
    match width(alloc) {
        Ok(width) => command.arg(width)?.arg(file(alloc)),
        Err(error) => {
            drop(command);
            Err(error)
        }
    }
}

/// What the words after the first ask for, which is the program's name. Characters are drawn for a terminal of so many columns,
/// where no other width is asked for.
///
/// # Errors
/// The error of clap: words that it refuses, help or version that they ask for, or out of memory.
pub fn parse_args<'a>(alloc: Global, words: &'a Words, columns: u16) -> Result<CliArgs<'a>, Error> {
    let matches = matches_of(command(alloc)?, words)?;
    let asked = read_matches(&matches, columns);
    drop(matches);
    Ok(asked)
}

/// The arguments of the words that clap found.
fn read_matches<'a>(matches: &ArgMatches<'a>, columns: u16) -> CliArgs<'a> {
    let width = matches.get_one::<u16>("width");
    let form = match matches.get_one::<u16>("svg") {
        Some(report) => Form::Svg(usize::from(report)),
        None if matches.get_flag("text") => Form::Characters(width.unwrap_or(columns)),
        None => match width {
            Some(width) => Form::Characters(width),
            None => Form::Page,
        },
    };
    let file = file_of(matches.get_str("FILE").unwrap_or("-"));
    CliArgs { form, file }
}
