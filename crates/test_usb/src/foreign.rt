//! The host's end against packets of a foreign device.

use crate::packets::read;
use crate::requests::{begin, print_outcome, print_refused, request_in, runs};
use test_rows::{RowFault, Table, bytes_of, print};
use usb_control::{HostTransfer, Outcome};

/// It hears a packet in these bytes, or nothing, if it runs: whether it sends ACK.
pub fn hears(transfer: &mut HostTransfer, packet: &[u8]) -> bool {
    matches!(transfer.outcome(), Outcome::Running) && transfer.take(read(packet).ok().as_ref())
}

/// Whether it sends ACK for what comes.
fn hears_word(
    table: &Table<'_>,
    transfer: &mut HostTransfer,
    word: &str,
) -> Result<bool, RowFault> {
    let packet = bytes_of(table, word)?;
    Ok(hears(transfer, &packet))
}

/// It takes what comes in each try: whether it sends ACK for the last, and where it stands then. It runs before each.
fn print_taken(
    printed: &mut String,
    table: &Table<'_>,
    transfer: &mut HostTransfer,
    words: &str,
) -> Result<(), RowFault> {
    let mut sent = false;
    for word in words.split_whitespace() {
        if !runs(transfer) {
            return print(printed, "it ended before");
        }
        sent = hears_word(table, transfer, word)?;
    }
    if sent {
        print(printed, "ACK")?;
    }
    print_outcome(printed, transfer)
}

/// Appends what a request sends, and the answer. A write sends 02.
pub fn print_foreign(
    printed: &mut String,
    table: &Table<'_>,
    request: &[u8],
    words: &str,
) -> Result<(), RowFault> {
    let request = request_in(request)?;
    match begin(table.alloc, 5, &request, &[2]) {
        Ok(mut transfer) => print_taken(printed, table, &mut transfer, words),
        Err(fault) => print_refused(printed, fault),
    }
}
