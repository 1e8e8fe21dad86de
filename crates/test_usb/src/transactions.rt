//! Transactions of `usb_transact`: both ends of a pipe play steps with `;` between them, and the last is printed, with both
//! toggles, the host's and the device's, the bytes that are armed, and whether the device is halted. A try is written by what is
//! lost in it: `lost` the token, `reply`, `late` the ACK, or `clean`; `hear HEX` gives the host a packet, or nothing; `answer` and
//! `ask` print what the device and the host send.

use crate::packets::{print_packet, read};
use arrayvec::ArrayVec;
use test_rows::{RowFault, Table, bytes_of, print, print_bytes, print_numbers, split};
use usb_packet::Packet;
use usb_transact::{Bus, DevPipe, Fate, HostPipe, Phase, Took, exchange, send_packet, send_reply};

/// The fate of a try by what is lost in it.
pub fn fate_of(word: &str) -> Option<Fate> {
    match word {
        "clean" => Some(Fate::Clean),
        "lost" => Some(Fate::TokenLost),
        "reply" => Some(Fate::ReplyLost),
        "late" => Some(Fate::AckLost),
        _ => None,
    }
}

/// What the host takes.
fn print_took(printed: &mut String, took: &Took) -> Result<(), RowFault> {
    match took {
        Took::Fresh(bytes) => {
            print(printed, "fresh")?;
            print_bytes(printed, bytes)
        }
        Took::Again => print(printed, "again"),
        Took::Nak => print(printed, "nak"),
        Took::Silent => print(printed, "silent"),
        Took::Stall => print(printed, "stall"),
    }
}

fn digit(toggle: bool) -> i64 {
    if toggle { 1 } else { 0 }
}

/// How both ends stand.
fn print_stand(printed: &mut String, host: &HostPipe, device: &DevPipe) -> Result<(), RowFault> {
    print_numbers(printed, &[digit(host.expects()), digit(device.toggle())])?;
    if let Some(bytes) = device.armed() {
        print(printed, "armed")?;
        print_bytes(printed, bytes)?;
    }
    if device.halted() {
        return print(printed, "halted");
    }
    Ok(())
}

/// Arms the device where it may be.
fn arm(device: &mut DevPipe, bytes: &[u8]) {
    if device.armed().is_none() && !device.halted() && bytes.len() <= 64 {
        device.arm(bytes);
    }
}

/// A step of one end of which nothing is printed.
fn act(host: &mut HostPipe, device: &mut DevPipe, step: &str) -> Result<(), RowFault> {
    match step {
        "halt" => device.halt(),
        "acknowledged" => device.acknowledged(),
        "restart host" => host.restart(),
        "restart device" => device.restart(),
        _ => return Err(RowFault::Unread),
    }
    Ok(())
}

fn try_once(host: &mut HostPipe, device: &mut DevPipe, fate: Fate) -> Took {
    exchange(host, device, fate)
}

fn heard(host: &mut HostPipe, packet: &[u8]) -> Took {
    host.take(read(packet).ok().as_ref())
}

/// A step with bytes.
fn step_with_bytes(
    printed: &mut String,
    host: &mut HostPipe,
    device: &mut DevPipe,
    verb: &str,
    bytes: &[u8],
) -> Result<(), RowFault> {
    if verb == "hear" {
        return print_took(printed, &heard(host, bytes));
    }
    arm(device, bytes);
    Ok(())
}

fn play_words(
    printed: &mut String,
    table: &Table<'_>,
    host: &mut HostPipe,
    device: &mut DevPipe,
    step: &str,
) -> Result<(), RowFault> {
    let (verb, words) = split(step, ' ');
    let bytes = bytes_of(table, words)?;
    step_with_bytes(printed, host, device, verb, &bytes)
}

fn play_step(
    printed: &mut String,
    table: &Table<'_>,
    host: &mut HostPipe,
    device: &mut DevPipe,
    step: &str,
) -> Result<(), RowFault> {
    if let Some(fate) = fate_of(step) {
        return print_took(printed, &try_once(host, device, fate));
    }
    match step {
        "answer" => print_packet(printed, &device.answer()),
        "ask" => print_packet(printed, &host.token()),
        _ if step.starts_with("hear") || step.starts_with("arm") => {
            play_words(printed, table, host, device, step)
        }
        _ => act(host, device, step),
    }
}

/// Plays steps, and appends the result of the last one.
fn play(
    printed: &mut String,
    table: &Table<'_>,
    host: &mut HostPipe,
    device: &mut DevPipe,
    steps: &str,
) -> Result<(), RowFault> {
    for step in steps.split(';') {
        printed.clear();
        play_step(printed, table, host, device, step.trim())?;
    }
    print_stand(printed, host, device)
}

/// Appends the result of two new ends, by an address and an endpoint and, after `|`, steps.
pub fn print_ends(printed: &mut String, table: &Table<'_>, words: &str) -> Result<(), RowFault> {
    let (names, steps) = split(words, '|');
    let (addr, endp) = split(names, ' ');
    let (addr, endp) = (addr.parse()?, endp.parse()?);
    if addr > 127 || endp > 15 {
        return Err(RowFault::Unread);
    }
    play(
        printed,
        table,
        &mut HostPipe::new(addr, endp),
        &mut DevPipe::new(),
        steps,
    )
}

/// Appends the answers of a device's default end to steps.
pub fn print_answers(printed: &mut String, table: &Table<'_>, steps: &str) -> Result<(), RowFault> {
    play(
        printed,
        table,
        &mut HostPipe::new(1, 1),
        &mut DevPipe::default(),
        steps,
    )
}

fn phase_of(word: &str) -> Result<Phase, RowFault> {
    Ok(match word {
        "token" => Phase::Token,
        "data" => Phase::HostData,
        "reply" => Phase::Reply,
        "handshake" => Phase::Handshake,
        "acknowledgement" => Phase::Acknowledgement,
        _ => return Err(RowFault::Unread),
    })
}

/// A packet that arrives, or `lost`.
fn print_arrived(printed: &mut String, packet: Option<Packet>) -> Result<(), RowFault> {
    match packet {
        Some(packet) => print_packet(printed, &packet),
        None => print(printed, "lost"),
    }
}

/// Whether NAK arrives, by a fate and a phase.
pub fn print_fate(printed: &mut String, words: &str) -> Result<(), RowFault> {
    let (fate, phase) = split(words, ' ');
    let Some(fate) = fate_of(fate) else {
        return Err(RowFault::Unread);
    };
    print_arrived(printed, send_packet(&fate, phase_of(phase)?, &Packet::Nak))
}

/// A bus on which ACK arrives, whatever is sent.
struct Stuck;

impl Bus for Stuck {
    ghost use Rattle.std.specs.Prelude.{Some, ◌∷◌, []};

    ghost arrives = { λ bus phase bytes. Some (0xD2 ∷ []) };

    fn transmit(&self, _phase: Phase, bytes: &mut ArrayVec<u8, 65>) -> bool {
        bytes.clear();
        bytes.push(0xD2);
        true
    }
}

/// What arrives on that bus of a NAK that is sent, one that is replied, or of nothing.
pub fn print_stuck(printed: &mut String, word: &str) -> Result<(), RowFault> {
    let arrived = match word {
        "sent" => send_packet(&Stuck, Phase::Reply, &Packet::Nak),
        "replied" => send_reply(&Stuck, Phase::Reply, Some(&Packet::Nak)),
        "nothing" => send_reply(&Stuck, Phase::Reply, None),
        _ => return Err(RowFault::Unread),
    };
    print_arrived(printed, arrived)
}
