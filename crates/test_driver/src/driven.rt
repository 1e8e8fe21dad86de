//! What is done with a driver, in words, and the result:
//! ```text
//!   todo                     the request that is to be made: its bytes, and `with` its data; or `nothing`
//!   done 12 01 00 02         it is done, with these bytes: `onward`, `live 0`, `refused 0`, `cleared 0`, `stopped 0`,
//!                            `answered`, or a refusal; so `stalled` and `failed`
//!   report 0 00 00 04        an interrupt transfer of interface 0: its events, as `0 down 07:04`, and a refusal; so
//!                            `report 0 stalled` and `report 0 failed`
//!   ask 0 set output 0 02    what is asked of interface 0: nothing, or a refusal; so `get`, `idle`
//!   protocol 0 boot          asks interface 0 for a protocol: its events, and a refusal; so `protocol 0 report`
//!   state                    how far the driver has come
//!   interfaces               of each: number, subclass and protocol; number, packet size and interval of its endpoint; state
//!   reset                    its events
//! ```

ghost use Rattle.std.specs.Prelude.{◌≡◌, ◌≤◌, IfOk, vec_len, vec_capacity};
ghost use Rattle.hid_driver.specs.Interfaces.{total_room};

use crate::imported::play_import;
use crate::printed::{
    print_events, print_interface, print_moved, print_refusal, print_state, print_todo,
};
use crate::words::{ask_of, bytes_in, words_in};
use hid_driver::{Driver, DriverEvent, DriverFault, Moved, Outcome};
use test_rows::{Answers, Asked, Row, RowFault, Subject, Table, Verdict, add, judge_steps};

/// The questions of the tables.
pub struct Questions;

impl Answers for Questions {
    fn answer(&self, _printed: &mut String, _asked: &Asked<'_>) -> Result<(), RowFault> {
        Err(RowFault::Unread)
    }

    fn play(
        &self,
        verdict: &mut Verdict,
        table: &Table<'_>,
        row: &Row<'_>,
    ) -> Result<(), RowFault> {
        if row.question == "import" {
            return play_import(verdict, table, row);
        }
        if row.question != "driver" || row.given != "new" {
            return Err(RowFault::Unread);
        }
        let mut driven = Driven {
            driver: Driver::new(table.alloc),
        };
        let end = judge_steps(&mut driven, verdict, table, row);
        drop(driven);
        end
    }
}

/// A driver of a row.
#[derive(Drop)]
struct Driven {
    driver: Driver,
}

/// Gives a driver the outcome of its request. It promises nothing, so that what [`Driver::done`] does is before the prover here
/// alone.
fn done(driver: &mut Driver, outcome: Outcome<'_>) -> Result<Moved, DriverFault> {
    driver.done(outcome)
}

fn print_done(
    printed: &mut String,
    driver: &mut Driver,
    outcome: Outcome<'_>,
) -> Result<(), RowFault> {
    print_moved(printed, done(driver, outcome))
}

/// Room for the events of a call.
fn room(table: &Table<'_>, driver: &Driver) -> Result<Vec<DriverEvent>, RowFault>
    ensures { IfOk result (λ events. (vec_len events ≡ 0)
        × (total_room driver.now.interfaces ≤ vec_capacity events)) }
{
    Ok(Vec::with_capacity(table.alloc, driver.max_events())?)
}

fn print_report(
    printed: &mut String,
    table: &Table<'_>,
    driver: &mut Driver,
    place: &str,
    outcome: Outcome<'_>,
) -> Result<(), RowFault> {
    let place = place.parse()?;
    let mut events = room(table, driver)?;
    let told = driver.report(place, outcome, &mut events);
    print_events(printed, &events)?;
    print_refusal(printed, told)
}

fn print_protocol(
    printed: &mut String,
    table: &Table<'_>,
    driver: &mut Driver,
    place: &str,
    boot: bool,
) -> Result<(), RowFault> {
    let place = place.parse()?;
    let mut events = room(table, driver)?;
    let told = driver.set_protocol(place, boot, &mut events);
    print_events(printed, &events)?;
    print_refusal(printed, told)
}

fn print_reset(
    printed: &mut String,
    table: &Table<'_>,
    driver: &mut Driver,
) -> Result<(), RowFault> {
    let mut events = room(table, driver)?;
    driver.reset(&mut events);
    print_events(printed, &events)
}

fn print_asked(
    printed: &mut String,
    table: &Table<'_>,
    driver: &mut Driver,
    place: &str,
    words: &[&str],
) -> Result<(), RowFault> {
    let place = place.parse()?;
    let bytes = bytes_in(table, words.get(3..).unwrap_or(&[]))?;
    match ask_of(words, &bytes) {
        Some(ask) => print_refusal(printed, driver.ask(place, &ask)),
        None => Err(RowFault::Unread),
    }
}

fn print_interfaces(printed: &mut String, driver: &Driver) -> Result<(), RowFault> {
    for (at, interface) in driver.interfaces().iter().enumerate() {
        if at > 0 {
            add(printed, ", ")?;
        }
        print_interface(printed, interface)?;
    }
    Ok(())
}

/// Does what these words mean, with bytes that came.
fn print_came(
    printed: &mut String,
    table: &Table<'_>,
    driver: &mut Driver,
    words: &[&str],
) -> Result<(), RowFault> {
    match *words {
        ["done", ref rest @ ..] => {
            let bytes = bytes_in(table, rest)?;
            print_done(printed, driver, Outcome::Done(&bytes))
        }
        ["report", place, ref rest @ ..] => {
            let bytes = bytes_in(table, rest)?;
            print_report(printed, table, driver, place, Outcome::Done(&bytes))
        }
        ["ask", place, ref rest @ ..] => print_asked(printed, table, driver, place, rest),
        _ => Err(RowFault::Unread),
    }
}

impl Subject for Driven {
    fn step(
        &mut self,
        printed: &mut String,
        table: &Table<'_>,
        given: &str,
    ) -> Result<(), RowFault> {
        let words = words_in(table.alloc, given)?;
        let driver = &mut self.driver;
        match *words {
            ["todo"] => print_todo(printed, &driver.todo()),
            ["state"] => print_state(printed, driver.state()),
            ["interfaces"] => print_interfaces(printed, driver),
            ["stalled"] => print_done(printed, driver, Outcome::Stalled),
            ["failed"] => print_done(printed, driver, Outcome::Failed),
            ["report", place, "stalled"] => print_report(
                printed,
                table,
                driver,
                place,
                Outcome::Stalled,
            ),
            ["report", place, "failed"] => print_report(
                printed,
                table,
                driver,
                place,
                Outcome::Failed,
            ),
            ["protocol", place, "boot"] => print_protocol(printed, table, driver, place, true),
            ["protocol", place, "report"] => print_protocol(printed, table, driver, place, false),
            ["reset"] => print_reset(printed, table, driver),
            _ => print_came(printed, table, driver, &words),
        }
    }
}
