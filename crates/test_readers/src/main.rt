//! Reads random reports twice, by a `Reader`, which has plans, and by the plain program of `View::take_report`, and compares
//! the events, what is refused, and the views.
//! ```text
//!   test_readers --seed 1 --reports 1000000          a million reports of made devices
//!   test_readers --descriptor FILE --descriptor ..   every second device has a descriptor of these files, in turn
//!
//!   a descriptor --> Layout --> a device
//!                               its reports --> Reader::take_report<WordCodec> --> events, a view
//!                                           --> View::take_report<BitCodec> -----> events, a view
//! ```
//! A device sends a hundred reports or releases: the last one again, a bit or a field changed, all random, cut off, or of an
//! ID that it doesn't have. At the first difference what it sent is printed as a recording, which `hidplay` plays: a release is
//! its descriptor again.
//!
//! The exit status is 0; 1 if there is a difference; 2 for a wrong command line, for a file that has no descriptor, and if
//! memory runs out or standard output can't be written.
#![tactic(auto)]

mod args;
mod descriptor;
mod device;
mod dice;
mod recording;
mod sender;
mod stop;
mod tally;
mod writer;

use args::{CliArgs, parse_args};
use descriptor::some_descriptor;
use device::{Device, Difference};
use dice::Dice;
use hid_input::descriptor_in;
use hid_layout::{Layout, Limits};
use recording::Recording;
use sender::{Sender, Turn};
use std::alloc::Global;
use std::io::Read;
use std::process::ExitCode;
use std::{env, fs};
use stop::Stop;
use tally::Tally;

/// Nothing was compared to its end.
const OUTSIDE: u8 = 2;

/// How many reports and releases a device sends.
const TURNS: u32 = 100;

/// More bytes than a file with a descriptor has.
const LONGEST: u64 = 1 << 20;

fn main(rt: HostRuntime) -> ExitCode {
    match compare(&rt) {
        Ok(true) => ExitCode::SUCCESS,
        Ok(false) => ExitCode::FAILURE,
        Err(stop) => {
            let words = stop.words();
            let _ = eprintln!(rt; "test_readers: {words}");
            ExitCode::from(OUTSIDE)
        }
    }
}

/// Compares what the words of the command line ask for. Gives whether all is alike.
fn compare(rt: &HostRuntime) -> Result<bool, Stop> {
    let Ok(args) = env::args(rt) else {
        return Err(Stop::Usage);
    };
    let words: Result<Vec<String>, _> = args.collect(rt.alloc());
    let Ok(words) = words else {
        return Err(Stop::Memory);
    };
    let asked = parse_args(rt.alloc(), words.as_slice())?;
    let given = read_files(rt, &asked)?;
    compare_all(rt, &asked, &given)
}

/// The descriptors of the files that are named.
fn read_files(rt: &HostRuntime, asked: &CliArgs<'_>) -> Result<Vec<Vec<u8>>, Stop> {
    let mut given = Vec::new(rt.alloc());
    for name in &asked.files {
        given.push(read_file(rt, *name)?)?;
    }
    Ok(given)
}

/// The descriptor of a file, whatever form it has.
fn read_file(rt: &HostRuntime, name: &str) -> Result<Vec<u8>, Stop> {
    let Ok(file) = fs::open(rt, name) else {
        return Err(Stop::File);
    };
    let mut bytes = Vec::new(rt.alloc());
    if file.take(LONGEST).read_to_end(&mut bytes).is_err() {
        return Err(Stop::File);
    }
    match descriptor_in(rt.alloc(), bytes.as_slice()) {
        Ok(found) => Ok(found.bytes),
        Err(_) => Err(Stop::File),
    }
}

/// Plays devices until so many reports were read, and prints what came of it. Counts that nothing depends on go to standard
/// error.
fn compare_all(rt: &HostRuntime, asked: &CliArgs<'_>, given: &[Vec<u8>]) -> Result<bool, Stop> {
    let mut tally = Tally::default();
    for number in 0..asked.reports {
        if tally.reports >= asked.reports {
            break;
        }
        if !compare_device(rt, asked.seed, number, given, &mut tally)? {
            return Ok(false);
        }
    }
    let _ = eprintln!(rt; "{tally}");
    let Tally { reports, .. } = tally;
    let seed = asked.seed;
    println!(rt; "seed {seed}: {reports} reports, 0 differences")?;
    Ok(true)
}

/// The descriptor that is given for a device, if one is.
fn given_descriptor(given: &[Vec<u8>], number: u64) -> Option<&[u8]> {
    if number % 2 == 0 {
        return None;
    }
    let place = (number / 2).checked_rem(given.len() as u64)?;
    let descriptor = given.get(place as usize)?;
    Some(descriptor.as_slice())
}

/// Plays a device. Gives whether all is alike.
fn compare_device(
    rt: &HostRuntime,
    seed: u64,
    number: u64,
    given: &[Vec<u8>],
    tally: &mut Tally,
) -> Result<bool, Stop> {
    let mut dice = Dice::new(seed, number);
    match given_descriptor(given, number) {
        Some(descriptor) => {
            let is_alike = compare_descriptor(rt, &mut dice, descriptor, tally)?;
            is_alike.ok_or(Stop::File)
        }
        None => {
            let made = some_descriptor(rt.alloc(), &mut dice)?;
            let is_alike = compare_descriptor(rt, &mut dice, made.bytes(), tally)?;
            Ok(is_alike.unwrap_or(true))
        }
    }
}

/// Plays the device of a descriptor. Gives whether all is alike; none where the descriptor is refused.
fn compare_descriptor(
    rt: &HostRuntime,
    dice: &mut Dice,
    descriptor: &[u8],
    tally: &mut Tally,
) -> Result<Option<bool>, Stop> {
    let Ok(layout) = Layout::parse_within(rt.alloc(), Limits::Real, descriptor) else {
        tally.refuse();
        return Ok(None);
    };
    tally.accept();
    let mut recording = Recording::new(rt.alloc());
    recording.describe(descriptor)?;
    let mut sender = Sender::new(rt.alloc(), &layout)?;
    let Some(mut device) = Device::open(rt.alloc(), layout) else {
        return Err(Stop::Memory);
    };
    for _ in 0..TURNS {
        let difference = match sender.next(dice, device.layout())? {
            Turn::Report => {
                recording.add(sender.bytes())?;
                device.take(sender.bytes())
            }
            Turn::Release => {
                recording.describe(descriptor)?;
                device.release()
            }
        };
        tally.report(device.actual().len());
        if let Some(difference) = difference {
            tell(rt, &recording, &device, difference)?;
            return Ok(Some(false));
        }
    }
    Ok(Some(true))
}

/// Prints a difference, and what the device sent up to it.
fn tell(
    rt: &HostRuntime,
    recording: &Recording,
    device: &Device,
    difference: Difference,
) -> Result<(), Stop> {
    let text = recording.text();
    print!(rt; "{text}")?;
    println!(rt; "# {difference:?}: they differ in this")?;
    for event in device.actual() {
        println!(rt; "# by the reader: {event:?}")?;
    }
    for event in device.expected() {
        println!(rt; "# by the plain program: {event:?}")?;
    }
    for event in device.apart() {
        println!(rt; "# from the reader's view: {event:?}")?;
    }
    Ok(())
}
