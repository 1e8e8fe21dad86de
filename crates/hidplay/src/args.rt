//! The words of the command line.

use super::codes::CODES;
use super::source::Kind;
use clap::error::ErrorKind;
use clap::{Arg, ArgAction, ArgMatches, Command, Error};
use command_words::{NamedFile, Words, file_of, matches_of};
use hid_recording::{EndpointAddress, Options};
use std::alloc::{AllocError, Global};

/// The greatest number of an endpoint (USB 2.0, 9.6.6).
const MAX_ENDPOINT: u8 = 15;

/// Where Linux has what it knows of hidraw nodes.
const SYSTEM: &str = "/sys/class/hidraw";

/// What the words ask for.
#[derive(Drop)]
pub struct CliArgs<'a> {
    pub options: Options,
    /// What the files are taken for.
    pub kind: Kind,
    /// The file with the descriptor of a capture's interfaces that have none in it, if one is given.
    pub descriptor: Option<NamedFile<'a>>,
    /// The endpoint whose interface that descriptor is of, if one is named.
    pub endpoint: Option<EndpointAddress>,
    /// Where the system has what it knows of hidraw nodes.
    pub system: NamedFile<'a>,
    /// The words of the files in their order; `-` is standard input. (Structs would take more room: of the heap, and so of each line of
    /// JSON, some 680 instructions.)
    pub files: Vec<&'a str>,
}

/// An option without a value.
fn flag<'a>(alloc: Global, name: &'a str, help: &'a str) -> Arg<'a> {
    Arg::new(alloc, name)
        .long(name)
        .action(ArgAction::SetTrue)
        .help(help)
}

/// The arguments FILE.
fn files<'a>(alloc: Global) -> Arg<'a> {
    Arg::new(alloc, "FILE")
        .action(ArgAction::Append)
        .num_args(0..)
        .help("Recordings, captures, devices or descriptors; - is standard input")
}

/// The option `--json`.
fn json<'a>(alloc: Global) -> Result<Arg<'a>, AllocError> {
    flag(
        alloc,
        "json",
        "Print each event and refusal as a line of JSON",
    )
    .conflicts_with("layout")?
    .conflicts_with("values")
}

/// The option `--text`.
fn text<'a>(alloc: Global) -> Result<Arg<'a>, AllocError> {
    flag(
        alloc,
        "text",
        "Take each file for text, whatever it begins with",
    )
    .conflicts_with("binary")?
    .conflicts_with("live")
}

/// The option `--live`.
fn live<'a>(alloc: Global) -> Result<Arg<'a>, AllocError> {
    flag(
        alloc,
        "live",
        "Take each file for a device: a read is a report",
    )
    .conflicts_with("binary")
}

/// The option `--sysfs FOLDER`.
fn sysfs<'a>(alloc: Global) -> Arg<'a> {
    Arg::new(alloc, "sysfs")
        .long("sysfs")
        .value_name("FOLDER")
        .help("Use FOLDER in place of /sys/class/hidraw")
}

/// The option `--descriptor FILE`.
fn descriptor<'a>(alloc: Global) -> Arg<'a> {
    Arg::new(alloc, "descriptor")
        .long("descriptor")
        .value_name("FILE")
        .help("Use FILE's descriptor where a device has none")
}

/// The option `--endpoint BUS.DEV.EP`.
fn endpoint<'a>(alloc: Global) -> Result<Arg<'a>, AllocError> {
    Arg::new(alloc, "endpoint")
        .long("endpoint")
        .value_name("BUS.DEV.EP")
        .help("Use it for the device of this endpoint, as 1.4.1")
        .requires_arg("descriptor")
}

/// Adds an argument, if memory was there for the command and for it.
fn add<'a>(
    command: Result<Command<'a>, AllocError>,
    made: Result<Arg<'a>, AllocError>,
) -> Result<Command<'a>, AllocError> {
    match command {
        Ok(command) => match made {
            Ok(arg) => command.arg(arg),
            Err(error) => {
                drop(command);
                Err(error)
            }
        },
        Err(error) => {
            drop(made);
            Err(error)
        }
    }
}

/// The program, and what it prints beside the events.
fn printing<'a>(alloc: Global) -> Result<Command<'a>, AllocError> {
    let command = Command::new(alloc, "hidplay")
        .version("0.2.0")
        .about("Plays recordings of USB HID devices: prints the events that a host sees")
        .after_help(CODES)
        .arg(flag(
            alloc,
            "layout",
            "Print the layout of each report descriptor",
        ));
    let command = add(
        command,
        Ok(flag(alloc, "values", "Print the values of each report")),
    );
    let command = add(
        command,
        Ok(flag(
            alloc,
            "places",
            "Print the control of each event, as @ITEM.INDEX",
        )),
    );
    add(
        command,
        Ok(flag(alloc, "names", "Print the names of usages")),
    )
}

/// The command line.
fn command<'a>(alloc: Global) -> Result<Command<'a>, AllocError> {
    let command = add(printing(alloc), json(alloc));
    let command = add(
        command,
        Ok(flag(
            alloc,
            "strict",
            "End all files at the first line that is refused",
        )),
    );
    let command = add(command, text(alloc));
    let command = add(
        command,
        Ok(flag(
            alloc,
            "binary",
            "Take each file for a binary report descriptor",
        )),
    );
    let command = add(command, live(alloc));
    let command = add(command, Ok(sysfs(alloc)));
    let command = add(command, Ok(descriptor(alloc)));
    let command = add(command, endpoint(alloc));
    add(command, Ok(files(alloc)))
}

/// What files are taken for; one of the three at most is asked for.
fn kind_of(is_text: bool, is_binary: bool, is_live: bool) -> Kind {
    if is_text {
        Kind::Text
    } else if is_binary {
        Kind::Binary
    } else if is_live {
        Kind::Live
    } else {
        Kind::Detected
    }
}

/// What the words after the first ask for, which is the program's name.
///
/// # Errors
/// The error of clap: words that it refuses, help or version that they ask for, or out of memory.
pub fn parse_args<'a>(alloc: Global, words: &'a Words) -> Result<CliArgs<'a>, Error> {
    let matches = matches_of(command(alloc)?, words)?;
    let asked = read_matches(alloc, &matches);
    drop(matches);
    asked
}

/// The endpoint that a word names: numbers of a bus, of a device and of an endpoint, with points between them.
fn read_endpoint(word: &str) -> Option<EndpointAddress> {
    let mut parts = word.split('.');
    let bus = parts.next()?.parse::<u16>().ok()?;
    let device = parts.next()?.parse::<u16>().ok()?;
    let endpoint = parts.next()?.parse::<u8>().ok()?;
    if parts.next().is_some() || endpoint > MAX_ENDPOINT {
        return None;
    }
    Some(EndpointAddress {
        bus,
        device,
        endpoint,
    })
}

/// The endpoint that is named, if one is.
fn named_endpoint(alloc: Global, word: Option<&str>) -> Result<Option<EndpointAddress>, Error> {
    let Some(word) = word else {
        return Ok(None);
    };
    match read_endpoint(word) {
        Some(endpoint) => Ok(Some(endpoint)),
        None => Err(command(alloc)?.error(
            ErrorKind::ValueValidation,
            "--endpoint is the numbers of a bus, a device and an endpoint, as 1.4.1",
        )?),
    }
}

/// The arguments of the words that clap found.
fn read_matches<'a>(alloc: Global, matches: &ArgMatches<'a>) -> Result<CliArgs<'a>, Error> {
    let endpoint = named_endpoint(alloc, matches.get_str("endpoint"))?;
    let mut files = Vec::new(alloc);
    if let Some(names) = matches.get_strs("FILE") {
        for name in names {
            files.push(*name)?;
        }
    }
    Ok(CliArgs {
        options: Options {
            layout: matches.get_flag("layout"),
            values: matches.get_flag("values"),
            names: matches.get_flag("names"),
            places: matches.get_flag("places"),
            strict: matches.get_flag("strict"),
            json: matches.get_flag("json"),
        },
        descriptor: matches.get_str("descriptor").map(|word| file_of(word)),
        endpoint,
        kind: kind_of(
            matches.get_flag("text"),
            matches.get_flag("binary"),
            matches.get_flag("live"),
        ),
        system: file_of(matches.get_str("sysfs").unwrap_or(SYSTEM)),
        files,
    })
}
