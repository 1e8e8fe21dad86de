//! What is done with devices and two connections to them, in words, and the result:
//! ```text
//!   take 01 11 80 05 00*4      bytes come on the first connection, which takes as many as it wants as often as it can: its answers,
//!                              or why it refuses them; `left` and how many, where it doesn't take all; other take .. on the second
//!   report, other report       a report is asked for: the answer, if there is one
//!   end, other end             the connection ends
//!   wants, other wants         in bytes, what it takes next
//!   1 press 4 4                a control of device 1-1 by its item and index: nothing, or why it can't be; so release, move, set
//!   1 frame, 1 frames 4, 1 halt, 1 reset, 1 kept output 0
//! ```
//! A room is filled with FF before an answer. Where one of the 64 bytes after it isn't FF any more, that is appended.

use crate::printed::{add_bytes, add_word};
use crate::words::{bytes_in, change_of, kind_of, words_in};
use std::alloc::Global;
use test_rows::{
    Answers, Asked, Row, RowFault, Subject, Table, Verdict, add_shown, bytes_of, judge_steps,
};
use usbip_export::{
    Boot, Config, Connection, DeviceFault, ExportFault, ExportedDevice, MAX_ANSWER, MAX_DEVICES,
};

/// The questions of the tables.
pub struct Questions;

impl Answers for Questions {
    fn answer(&self, _printed: &mut String, _asked: &Asked<'_>) -> Result<(), RowFault> {
        Err(RowFault::Unread)
    }

    fn play(
        &self,
        verdict: &mut Verdict,
        table: &Table<'_>,
        row: &Row<'_>,
    ) -> Result<(), RowFault> {
        if row.question != "served" {
            return Err(RowFault::Unread);
        }
        let mut served = Served {
            devices: devices_of(table, row.given)?,
            first: Connection::new(),
            second: Connection::new(),
            room: room_of(table.alloc)?,
        };
        let end = judge_steps(&mut served, verdict, table, row);
        drop(served);
        end
    }
}

/// Devices, two connections to them, and room for an answer.
#[derive(Drop)]
struct Served {
    devices: Vec<ExportedDevice>,
    first: Connection,
    second: Connection,
    room: Vec<u8>,
}

/// The device of a descriptor. It promises nothing, so that what [`ExportedDevice::new`] does is before the prover here alone.
fn device_of(alloc: Global, boot: Boot, descriptor: &[u8]) -> Result<ExportedDevice, DeviceFault> {
    let config = Config {
        vendor: 0xFFFF,
        product: 0x0001,
        interval: 10,
        boot,
    };
    ExportedDevice::new(alloc, &config, descriptor)
}

/// Adds a device by its kind and the name of its descriptor.
fn add_device(
    devices: &mut Vec<ExportedDevice>,
    table: &Table<'_>,
    given: &str,
) -> Result<(), RowFault> {
    let (boot, name) = match given.split_once(' ') {
        Some(("keyboard", name)) => (Boot::Keyboard, name),
        Some(("mouse", name)) => (Boot::Mouse, name),
        Some(("plain", name)) => (Boot::No, name),
        _ => return Err(RowFault::Unread),
    };
    let descriptor = bytes_of(table, name)?;
    match device_of(table.alloc, boot, &descriptor) {
        Ok(device) => match devices.push(device) {
            Ok(()) => Ok(()),
            Err(_) => Err(RowFault::Memory),
        },
        Err(_) => Err(RowFault::Unread),
    }
}

/// The devices that are given, by commas.
fn devices_of(table: &Table<'_>, given: &str) -> Result<Vec<ExportedDevice>, RowFault> {
    let mut devices = Vec::new(table.alloc);
    for one in given.split(", ") {
        add_device(&mut devices, table, one)?;
    }
    Ok(devices)
}

/// Appends what came into a room, and whether other bytes were written; fills it again.
fn print_room(printed: &mut String, room: &mut [u8], count: usize) -> Result<(), RowFault> {
    add_bytes(printed, room.get(..count).unwrap_or(&[]))?;
    for byte in room.iter_mut().take(count) {
        *byte = 0xFF;
    }
    for byte in room.iter().skip(count).take(64) {
        if *byte != 0xFF {
            return add_word(printed, "and more");
        }
    }
    Ok(())
}

/// A room for an answer.
fn room_of(alloc: Global) -> Result<Vec<u8>, RowFault> {
    let mut room = Vec::new(alloc);
    room.resize(MAX_ANSWER, 0xFF)?;
    Ok(room)
}

/// Gives a connection as many bytes as it wants, if there are so many. Gives how many it took, and its answer.
fn take(
    devices: &mut [ExportedDevice],
    connection: &mut Connection,
    bytes: &[u8],
    room: &mut [u8],
) -> Option<(usize, Result<usize, ExportFault>)> {
    let wanted = connection.wants();
    if wanted == 0
        || wanted > bytes.len()
        || devices.len() > MAX_DEVICES
        || room.len() < MAX_ANSWER
    {
        return None;
    }
    Some((wanted, connection.take(devices, &bytes[..wanted], room)))
}

/// Gives a connection bytes as they come, and appends what is left of them.
fn feed(
    printed: &mut String,
    devices: &mut [ExportedDevice],
    connection: &mut Connection,
    bytes: &[u8],
    room: &mut [u8],
) -> Result<(), RowFault> {
    let mut rest = bytes;
    for _ in 0..bytes.len() {
        let Some((taken, answer)) = take(devices, connection, rest, room) else {
            break;
        };
        rest = rest.get(taken..).unwrap_or(&[]);
        match answer {
            Ok(count) => print_room(printed, room, count)?,
            Err(fault) => {
                add_word(printed, "")?;
                add_shown(printed, &fault)?;
                print_room(printed, room, 0)?;
            }
        }
    }
    if !rest.is_empty() {
        add_word(printed, "left ")?;
        add_shown(printed, &rest.len())?;
    }
    Ok(())
}

/// Asks for a report.
fn print_report(
    printed: &mut String,
    devices: &mut [ExportedDevice],
    connection: &Connection,
    room: &mut [u8],
) -> Result<(), RowFault> {
    if room.len() < MAX_ANSWER {
        return Err(RowFault::Unread);
    }
    let count = connection.report(devices, room);
    print_room(printed, room, count)
}

/// Does what these words mean with a connection.
fn print_connection(
    printed: &mut String,
    table: &Table<'_>,
    devices: &mut [ExportedDevice],
    connection: &mut Connection,
    words: &[&str],
    room: &mut [u8],
) -> Result<(), RowFault> {
    match *words {
        ["take", ref rest @ ..] => {
            let bytes = bytes_in(table, rest)?;
            feed(printed, devices, connection, &bytes, room)
        }
        ["report"] => print_report(printed, devices, connection, room),
        ["end"] => {
            connection.end(devices);
            Ok(())
        }
        ["wants"] => add_shown(printed, &connection.wants()),
        _ => Err(RowFault::Unread),
    }
}

/// Appends a report that was set last.
fn print_kept(
    printed: &mut String,
    device: &ExportedDevice,
    kind: &str,
    id: &str,
) -> Result<(), RowFault> {
    let kind = kind_of(kind).ok_or(RowFault::Unread)?;
    match device.outputs(kind, id.parse()?) {
        Some(bytes) => add_bytes(printed, bytes),
        None => add_word(printed, "none"),
    }
}

/// Does what these words mean with a device.
fn print_device(
    printed: &mut String,
    device: &mut ExportedDevice,
    words: &[&str],
) -> Result<(), RowFault> {
    match *words {
        ["frame"] => device.frame(),
        ["frames", count] => {
            let count: usize = count.parse()?;
            for _ in 0..count {
                device.frame();
            }
        }
        ["halt"] => device.halt(),
        ["reset"] => device.reset(),
        ["kept", kind, id] => return print_kept(printed, device, kind, id),
        _ => {
            let change = change_of(words).ok_or(RowFault::Unread)?;
            if let Err(fault) = device.change(change) {
                return add_shown(printed, &fault);
            }
        }
    }
    Ok(())
}

/// The device of a number, from 1.
fn print_numbered(
    printed: &mut String,
    devices: &mut [ExportedDevice],
    words: &[&str],
) -> Result<(), RowFault> {
    let [number, ref rest @ ..] = *words else {
        return Err(RowFault::Unread);
    };
    let number: usize = number.parse()?;
    match devices.get_mut(number.wrapping_sub(1)) {
        Some(device) => print_device(printed, device, rest),
        None => Err(RowFault::Unread),
    }
}

impl Subject for Served {
    fn step(
        &mut self,
        printed: &mut String,
        table: &Table<'_>,
        given: &str,
    ) -> Result<(), RowFault> {
        let words = words_in(table.alloc, given)?;
        let mut text = String::new(table.alloc);
        match *words {
            ["other", ref rest @ ..] => print_connection(
                &mut text,
                table,
                &mut self.devices,
                &mut self.second,
                rest,
                &mut self.room,
            )?,
            ["take" | "report" | "end" | "wants", ..] => print_connection(
                &mut text,
                table,
                &mut self.devices,
                &mut self.first,
                &words,
                &mut self.room,
            )?,
            _ => print_numbered(&mut text, &mut self.devices, &words)?,
        }
        test_rows::add(printed, text.as_str().trim())
    }
}
