//! What the host sends in each try of a request to address 5.

use crate::foreign::hears;
use crate::requests::{begin, print_outcome, print_refused, request_in};
use arrayvec::ArrayVec;
use test_rows::{RowFault, Table, bytes_of, print_bytes, split};
use usb_control::{HostTransfer, Outcome};
use usb_packet::{Packet, encode, fits};

/// The bytes of a packet that is sent.
fn encoded(packet: &Packet) -> ArrayVec<u8, 65> {
    if fits(packet) {
        encode(packet)
    } else {
        ArrayVec::new()
    }
}

/// What the host sends in a try: a token, and the data packet that goes with it; nothing where the transfer doesn't run.
fn print_try(printed: &mut String, transfer: &HostTransfer) -> Result<(), RowFault> {
    if !matches!(transfer.outcome(), Outcome::Running) {
        return print_bytes(printed, &[]);
    }
    print_bytes(printed, &encoded(&transfer.token()))?;
    match transfer.payload() {
        Some(packet) => print_bytes(printed, &encoded(&packet)),
        None => Ok(()),
    }
}

/// It sends what it does, and then this comes.
fn play_try(
    printed: &mut String,
    table: &Table<'_>,
    transfer: &mut HostTransfer,
    came: &str,
) -> Result<(), RowFault> {
    print_try(printed, transfer)?;
    let packet = bytes_of(table, came)?;
    hears(transfer, &packet);
    Ok(())
}

fn print_tries(
    printed: &mut String,
    table: &Table<'_>,
    transfer: &mut HostTransfer,
    words: &str,
) -> Result<(), RowFault> {
    for came in words.split_whitespace() {
        play_try(printed, table, transfer, came)?;
    }
    print_outcome(printed, transfer)
}

/// What the host sends in each try of a request with these data, where this comes in each; and how it ends. Words are the data,
/// and after `|` what comes.
pub fn print_sent(
    printed: &mut String,
    table: &Table<'_>,
    request: &[u8],
    words: &str,
) -> Result<(), RowFault> {
    let (data, words) = split(words, '|');
    let request = request_in(request)?;
    let data = bytes_of(table, data)?;
    match begin(table.alloc, 5, &request, &data) {
        Ok(mut transfer) => print_tries(printed, table, &mut transfer, words),
        Err(fault) => print_refused(printed, fault),
    }
}
