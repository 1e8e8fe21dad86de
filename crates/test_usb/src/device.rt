//! The device's end against packets of any host.

use crate::keyboard::Keyboard;
use crate::packets::read;
use arrayvec::ArrayVec;
use test_rows::{RowFault, Table, bytes_of, print_bytes, print_shown, print_whether};
use usb_control::DevControl;
use usb_packet::encode;

/// The bytes that answer a packet in these bytes: none where there is no answer.
fn answer(control: &mut DevControl<Keyboard>, packet: &[u8]) -> ArrayVec<u8, 65> {
    match read(packet) {
        Ok(packet) => match control.on_packet(&packet) {
            Some(answer) => encode(&answer),
            None => ArrayVec::new(),
        },
        Err(_) => ArrayVec::new(),
    }
}

/// Takes a packet, and appends its answer if it isn't this one.
fn print_other(
    printed: &mut String,
    control: &mut DevControl<Keyboard>,
    packet: &[u8],
    wanted: &[u8],
) -> Result<(), RowFault> {
    let answer = answer(control, packet);
    if answer.as_slice() == wanted {
        return Ok(());
    }
    print_bytes(printed, &answer)
}

fn hear(
    printed: &mut String,
    table: &Table<'_>,
    control: &mut DevControl<Keyboard>,
    word: &str,
) -> Result<(), RowFault> {
    let (packet, wanted) = word.split_once('=').unwrap_or((word, ""));
    let packet = bytes_of(table, packet)?;
    let wanted = bytes_of(table, wanted)?;
    print_other(printed, control, &packet, &wanted)
}

/// How often a write took effect, and the output report that is kept.
fn print_effects(printed: &mut String, keyboard: &Keyboard) -> Result<(), RowFault> {
    print_shown(printed, &keyboard.effects)?;
    if keyboard.output.is_empty() {
        return Ok(());
    }
    print_bytes(printed, &keyboard.output)
}

fn hear_all(
    printed: &mut String,
    table: &Table<'_>,
    control: &mut DevControl<Keyboard>,
    words: &str,
) -> Result<(), RowFault> {
    for word in words.split_whitespace() {
        hear(printed, table, control, word)?;
    }
    print_effects(printed, control.requests())
}

/// Packets that a new device hears, each with its answer after `=` where it has one: each answer that is another one;
/// and then how often a write took effect in them, and the output report that is kept.
pub fn print_heard(printed: &mut String, table: &Table<'_>, words: &str) -> Result<(), RowFault> {
    hear_all(printed, table, &mut DevControl::new(Keyboard::new()), words)
}

fn print_answer(
    printed: &mut String,
    control: &mut DevControl<Keyboard>,
    packet: &[u8],
) -> Result<(), RowFault> {
    print_bytes(printed, &answer(control, packet))
}

/// A device's answer to what it hears, where `configure` and `reset` are done to it.
fn answer_to(
    printed: &mut String,
    table: &Table<'_>,
    control: &mut DevControl<Keyboard>,
    word: &str,
) -> Result<(), RowFault> {
    match word {
        "configure" => control.requests_mut().configured = true, // the token stays heard
        "reset" => control.reset(),
        _ => {
            let packet = bytes_of(table, word)?;
            print_answer(printed, control, &packet)?;
        }
    }
    Ok(())
}

fn print_all(
    printed: &mut String,
    table: &Table<'_>,
    control: &mut DevControl<Keyboard>,
    words: &str,
) -> Result<(), RowFault> {
    for word in words.split_whitespace() {
        answer_to(printed, table, control, word)?;
    }
    let keyboard = control.requests();
    print_whether(printed, keyboard.configured, "configured", "not configured")?;
    print_shown(printed, &keyboard.decisions)
}

/// What a new device answers to each packet, whether it is configured then, and how often it decided.
pub fn print_reset(printed: &mut String, table: &Table<'_>, words: &str) -> Result<(), RowFault> {
    print_all(printed, table, &mut DevControl::new(Keyboard::new()), words)
}
