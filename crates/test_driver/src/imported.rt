//! What is done with an import, in words, and the result:
//! ```text
//!   send                     the bytes that are sent next; or `nothing`
//!   wants                    in bytes, what is to be taken next
//!   take 01 11 00 03 00*4    bytes that came: `more`; of a control transfer what the driver made of it, as `onward` and `live 0`;
//!                            of a report its events, as `0 down 07:04`, and a refusal; or why the import is over, as `A2`
//!   ask 0 set output 0 02    what is asked of interface 0: nothing, or a refusal; so `get`, `idle`
//!   flights                  how many submits are in flight
//!   end                      the connection is over: its events
//! ```

ghost use Rattle.std.specs.Prelude.{◌≡◌, ◌≤◌, IfOk, vec_len, vec_capacity};
ghost use Rattle.hid_driver.specs.Interfaces.{total_room};

use crate::printed::{print_events, print_moved, print_refusal};
use crate::words::{ask_of, bytes_in, words_in};
use hid_driver::{Driver, DriverEvent};
use std::alloc::Global;
use test_rows::{Row, RowFault, Subject, Table, Verdict, add, add_shown, judge_steps, print_bytes};
use usbip_import::{Import, ImportFault, Told};

/// An import of a row.
#[derive(Drop)]
struct Imported {
    import: Import,
}

/// A bus ID: its text, then zeros. The rest of a longer one is cut off.
fn bus_id_of(text: &str) -> [u8; 32] {
    let mut bus_id = [0; 32];
    for (place, byte) in bus_id.iter_mut().zip(text.as_bytes()) {
        *place = *byte;
    }
    bus_id
}

/// Plays the steps of a row with an import of the device of this bus ID.
pub fn play_import(
    verdict: &mut Verdict,
    table: &Table<'_>,
    row: &Row<'_>,
) -> Result<(), RowFault> {
    let mut imported = Imported {
        import: Import::new(table.alloc, &bus_id_of(row.given)),
    };
    let end = judge_steps(&mut imported, verdict, table, row);
    drop(imported);
    end
}

/// Room for the events of a call.
fn room(alloc: Global, driver: &Driver) -> Result<Vec<DriverEvent>, RowFault>
    ensures { IfOk result (λ events. (vec_len events ≡ 0)
        × (total_room driver.now.interfaces ≤ vec_capacity events)) }
{
    Ok(Vec::with_capacity(alloc, driver.max_events())?)
}

fn print_sent(
    printed: &mut String,
    table: &Table<'_>,
    import: &mut Import,
) -> Result<(), RowFault> {
    let mut bytes = Vec::new(table.alloc);
    match import.send(&mut bytes) {
        Ok(true) => print_bytes(printed, &bytes),
        Ok(false) => add(printed, "nothing"),
        Err(fault) => add_shown(printed, &fault),
    }
}

fn print_told(printed: &mut String, told: Result<Told, ImportFault>) -> Result<(), RowFault> {
    match told {
        Ok(Told::Onward) => add(printed, "more"),
        Ok(Told::Control { result, .. }) => print_moved(printed, result),
        Ok(Told::Report { result, .. }) => print_refusal(printed, result),
        Err(fault) => add_shown(printed, &fault),
    }
}

/// Takes bytes, if so many are wanted.
fn print_taken(
    printed: &mut String,
    table: &Table<'_>,
    import: &mut Import,
    bytes: &[u8],
) -> Result<(), RowFault> {
    if bytes.len() != import.wants() {
        return Err(RowFault::Unread);
    }
    let mut events = room(table.alloc, import.driver())?;
    let told = import.take(bytes, &mut events);
    print_events(printed, &events)?;
    print_told(printed, told)
}

fn print_end(printed: &mut String, table: &Table<'_>, import: &mut Import) -> Result<(), RowFault> {
    let mut events = room(table.alloc, import.driver())?;
    import.end(&mut events);
    print_events(printed, &events)
}

fn print_asked(
    printed: &mut String,
    table: &Table<'_>,
    import: &mut Import,
    place: &str,
    words: &[&str],
) -> Result<(), RowFault> {
    let place = place.parse()?;
    let bytes = bytes_in(table, words.get(3..).unwrap_or(&[]))?;
    match ask_of(words, &bytes) {
        Some(ask) => print_refusal(printed, import.ask(place, &ask)),
        None => Err(RowFault::Unread),
    }
}

impl Subject for Imported {
    fn step(
        &mut self,
        printed: &mut String,
        table: &Table<'_>,
        given: &str,
    ) -> Result<(), RowFault> {
        let words = words_in(table.alloc, given)?;
        let import = &mut self.import;
        match *words {
            ["send"] => print_sent(printed, table, import),
            ["wants"] => add_shown(printed, &import.wants()),
            ["flights"] => add_shown(printed, &import.flights().len()),
            ["end"] => print_end(printed, table, import),
            ["take", ref rest @ ..] => {
                let bytes = bytes_in(table, rest)?;
                print_taken(printed, table, import, &bytes)
            }
            ["ask", place, ref rest @ ..] => print_asked(printed, table, import, place, rest),
            _ => Err(RowFault::Unread),
        }
    }
}
