//! Whole transfers between both ends, under fates.

use crate::keyboard::Keyboard;
use crate::requests::{begin, print_outcome, print_refused, request_in};
use crate::transactions::fate_of;
use std::alloc::Global;
use test_rows::{RowFault, add, add_shown, print, print_numbers, print_shown};
use usb_control::{ControlFault, DevControl, HostTransfer, Outcome};
use usb_transact::Fate;

/// The greatest of the data.
const MOST: u8 = 250;

/// SET_CONFIGURATION of the configuration 1.
const CONFIGURE: [u8; 8] = [0x00, 0x09, 0x01, 0x00, 0x00, 0x00, 0x00, 0x00];

/// The data of writes, of which each sends the first: 257 bytes that count up, and begin again after 250.
fn push_data(data: &mut Vec<u8>) -> Result<(), RowFault> {
    let mut byte = 0u8;
    for _ in 0..257 {
        data.extend_from_slice(&[byte])?;
        byte = if byte < MOST { byte + 1 } else { 0 };
    }
    Ok(())
}

fn data(alloc: Global) -> Result<Vec<u8>, RowFault> {
    let mut data = Vec::new(alloc);
    push_data(&mut data)?;
    Ok(data)
}

/// Plays the fates in turn, and then clean tries until the transfer ends: how many tries it took.
fn play(transfer: &mut HostTransfer, control: &mut DevControl<Keyboard>, fates: &str) -> usize {
    let mut fates = fates.split_whitespace();
    for at in 0..100 {
        if !matches!(transfer.outcome(), Outcome::Running) {
            return at;
        }
        let fate = fates.next().unwrap_or("clean");
        transfer.step(control, fate_of(fate).unwrap_or(Fate::Clean));
    }
    100
}

/// Appends what a device kept: how often it decided, how often a write took effect, and how many of the data it keeps. Of a
/// write it keeps the first of its data.
fn print_kept(printed: &mut String, keyboard: &Keyboard, data: &[u8]) -> Result<(), RowFault> {
    let Keyboard {
        decisions,
        effects,
        output,
        ..
    } = keyboard;
    print_numbers(printed, &[i64::from(*decisions), i64::from(*effects)])?;
    add(printed, " ")?;
    add_shown(printed, &output.len())?;
    if data.starts_with(output) {
        Ok(())
    } else {
        print(printed, "of other data")
    }
}

/// Plays a transfer that has begun: how many tries it takes, what the device kept, and how it ends.
fn print_played(
    printed: &mut String,
    transfer: &mut HostTransfer,
    control: &mut DevControl<Keyboard>,
    fates: &str,
    data: &[u8],
) -> Result<(), RowFault> {
    let tries = play(transfer, control, fates);
    print_shown(printed, &tries)?;
    print_kept(printed, control.requests(), data)?;
    print_outcome(printed, transfer)
}

fn play_request(
    printed: &mut String,
    alloc: Global,
    request: &[u8; 8],
    fates: &str,
    data: &[u8],
) -> Result<(), RowFault> {
    let mut control = DevControl::new(Keyboard::new());
    match begin(alloc, 1, request, data) {
        Ok(mut transfer) => print_played(printed, &mut transfer, &mut control, fates, data),
        Err(fault) => print_refused(printed, fault),
    }
}

/// Appends the course of a transfer with a new device, by the fates of its first tries.
pub fn print_transfer(
    printed: &mut String,
    alloc: Global,
    request: &[u8],
    fates: &str,
) -> Result<(), RowFault> {
    let request = request_in(request)?;
    let data = data(alloc)?;
    play_request(printed, alloc, &request, fates, &data)
}

/// How a transfer with a device ends.
fn print_end(
    printed: &mut String,
    alloc: Global,
    control: &mut DevControl<Keyboard>,
    request: &[u8; 8],
) -> Result<(), RowFault> {
    match begin(alloc, 1, request, &[]) {
        Ok(mut transfer) => {
            play(&mut transfer, control, "");
            print_outcome(printed, &transfer)
        }
        Err(fault) => print_refused(printed, fault),
    }
}

fn configure(alloc: Global, control: &mut DevControl<Keyboard>) -> Result<(), ControlFault> {
    let mut transfer = begin(alloc, 1, &CONFIGURE, &[])?;
    play(&mut transfer, control, "");
    Ok(())
}

fn print_both(
    printed: &mut String,
    alloc: Global,
    control: &mut DevControl<Keyboard>,
    request: &[u8; 8],
) -> Result<(), RowFault> {
    print_end(printed, alloc, control, request)?;
    let _ = configure(alloc, control);
    print_end(printed, alloc, control, request)
}

/// How a read ends before SET_CONFIGURATION, and after it.
pub fn print_state(printed: &mut String, alloc: Global, request: &[u8]) -> Result<(), RowFault> {
    let request = request_in(request)?;
    print_both(
        printed,
        alloc,
        &mut DevControl::new(Keyboard::new()),
        &request,
    )
}
