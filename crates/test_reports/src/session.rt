//! A session of `hidstack_session`, as steps with `;` between them: `feed N HEX` gives a report and a table of N places, and
//! prints the events or the fault, and `release N` lets go of all that is held; `room` prints how many events come at most, and
//! `held C` whether a switch is held. `blank K ID` prints a report of zeros and the byte after it, and `put C V HEX` a report
//! with the number V of an element.

use crate::words::control_of;
use hid_usages::ReportFault;
use hidstack_session::{
    FeedFault, HidElement, HidEvent, PutFault, Session, element_at, list_elements, number_in,
    put_blank_report, put_number, report_with,
};
use std::alloc::Global;
use test_rows::{
    RowFault, Table, bytes_of, number_of, print, print_bytes, print_debug, print_number,
    print_numbers, print_shown, print_whether, signed_of, split,
};

/// The most places of a table.
const PLACES: usize = 128;

const NO_EVENT: HidEvent = HidEvent {
    value: 0,
    item: 0,
    index: 0,
    page: 0,
    id: 0,
    kind: 0,
};

/// Its kind, its control's item and place, its usage's page and ID, and its value.
fn print_event(printed: &mut String, event: &HidEvent) -> Result<(), RowFault> {
    let HidEvent {
        value,
        item,
        index,
        page,
        id,
        kind,
    } = *event;
    let item = i64::try_from(item).unwrap_or(-1);
    let index = i64::try_from(index).unwrap_or(-1);
    let (kind, page, id) = (i64::from(kind), i64::from(page), i64::from(id));
    print_numbers(printed, &[kind, item, index, page, id, value])
}

fn print_first(printed: &mut String, events: &[HidEvent], count: usize) -> Result<(), RowFault> {
    for event in events.iter().take(count) {
        print_event(printed, event)?;
    }
    Ok(())
}

/// Feeds a report with a table of n places.
fn feed(
    printed: &mut String,
    session: &mut Session,
    places: usize,
    report: &[u8],
) -> Result<(), RowFault> {
    let mut events = [NO_EVENT; PLACES];
    let Some(out) = events.get_mut(..places) else {
        return Err(RowFault::Unread);
    };
    match session.feed(report, out) {
        Ok(count) => print_first(printed, out, count),
        Err(FeedFault::NoRoom) => print(printed, "no room"),
        Err(FeedFault::Refused(fault)) => print_shown(printed, &fault),
    }
}

fn feed_words(
    printed: &mut String,
    table: &Table<'_>,
    session: &mut Session,
    words: &str,
) -> Result<(), RowFault> {
    let (places, report) = split(words, ' ');
    let places = number_of(places)?;
    let report = bytes_of(table, report)?;
    feed(printed, session, places, &report)
}

/// Lets go of all that is held, with a table of n places.
fn release(printed: &mut String, session: &mut Session, places: usize) -> Result<(), RowFault> {
    let mut events = [NO_EVENT; PLACES];
    let Some(out) = events.get_mut(..places) else {
        return Err(RowFault::Unread);
    };
    match session.release(out) {
        Some(count) => print_first(printed, out, count),
        None => print(printed, "no room"),
    }
}

/// The report of zeros at a place, and the byte after it.
fn print_zeros(printed: &mut String, session: &Session, report: usize) -> Result<(), RowFault> {
    let layout = session.layout();
    let mut bytes = [0xEE; PLACES];
    if report >= layout.reports().len() || layout.report_bytes(report) >= bytes.len() {
        return Err(RowFault::Unread);
    }
    put_blank_report(layout, report, &mut bytes);
    match bytes.get(..=layout.report_bytes(report)) {
        Some(shown) => print_bytes(printed, shown),
        None => Err(RowFault::Unread),
    }
}

fn print_blank(printed: &mut String, session: &Session, words: &str) -> Result<(), RowFault> {
    let (kind, id) = split(words, ' ');
    let (kind, id) = (
        u32::try_from(number_of(kind)?),
        u8::try_from(number_of(id)?),
    );
    let (Ok(kind), Ok(id)) = (kind, id) else {
        return Err(RowFault::Unread);
    };
    match report_with(session.layout(), kind, id) {
        Some(report) => print_zeros(printed, session, report),
        None => print(printed, "none"),
    }
}

fn put(element: &HidElement, bytes: &mut [u8], value: i64) -> Result<(), PutFault> {
    put_number(element, bytes, value)
}

fn print_put(
    printed: &mut String,
    table: &Table<'_>,
    session: &Session,
    words: &str,
) -> Result<(), RowFault> {
    let (control, words) = split(words, ' ');
    let (value, report) = split(words, ' ');
    let place = control_of(control)?;
    let Some(element) = element_at(session.layout(), place.item, place.index) else {
        return print(printed, "none");
    };
    let mut bytes = bytes_of(table, report)?;
    match put(&element, bytes.as_mut_slice(), signed_of(value)?) {
        Ok(()) => print_bytes(printed, &bytes),
        Err(PutFault::Refused(fault)) => print_shown(printed, &fault),
        Err(PutFault::OutOfRange) => print(printed, "out of range"),
    }
}

fn play_step(
    printed: &mut String,
    table: &Table<'_>,
    session: &mut Session,
    step: &str,
) -> Result<(), RowFault> {
    let (verb, words) = split(step, ' ');
    match verb {
        "feed" => feed_words(printed, table, session, words),
        "release" => release(printed, session, number_of(words)?),
        "blank" => print_blank(printed, session, words),
        "put" => print_put(printed, table, session, words),
        "room" => print_shown(printed, &session.room()),
        "held" => print_whether(
            printed,
            session.held(control_of(words)?),
            "held",
            "not held",
        ),
        _ => Err(RowFault::Unread),
    }
}

fn play(
    printed: &mut String,
    table: &Table<'_>,
    session: &mut Session,
    steps: &str,
) -> Result<(), RowFault> {
    for step in steps.split(';') {
        play_step(printed, table, session, step.trim())?;
    }
    Ok(())
}

/// Appends the results of the steps of a session.
pub fn print_session(
    printed: &mut String,
    table: &Table<'_>,
    descriptor: &[u8],
    steps: &str,
) -> Result<(), RowFault> {
    match Session::open(table.alloc, descriptor) {
        Ok(mut session) => play(printed, table, &mut session, steps),
        Err(fault) => print_shown(printed, &fault),
    }
}

fn elements_of(alloc: Global, session: &Session) -> Result<Vec<HidElement>, RowFault> {
    Ok(list_elements(alloc, session.layout())?)
}

fn number(element: &HidElement, bytes: &[u8]) -> Result<i64, ReportFault> {
    number_in(element, bytes)
}

/// An element, and its number in these bytes.
fn print_element(printed: &mut String, element: &HidElement, bytes: &[u8]) -> Result<(), RowFault> {
    print_debug(printed, element)?;
    match number(element, bytes) {
        Ok(number) => print_number(printed, Some(number)),
        Err(fault) => print_shown(printed, &fault),
    }
}

/// How many elements there are, and the last of them.
fn print_last(printed: &mut String, elements: &[HidElement], bytes: &[u8]) -> Result<(), RowFault> {
    print_shown(printed, &elements.len())?;
    match elements.last() {
        Some(element) => print_element(printed, element, bytes),
        None => Ok(()),
    }
}

fn print_elements(
    printed: &mut String,
    alloc: Global,
    session: &Session,
    bytes: &[u8],
) -> Result<(), RowFault> {
    let elements = elements_of(alloc, session)?;
    print_last(printed, &elements, bytes)
}

fn print_elements_in(
    printed: &mut String,
    table: &Table<'_>,
    session: &Session,
    words: &str,
) -> Result<(), RowFault> {
    let bytes = bytes_of(table, words)?;
    print_elements(printed, table.alloc, session, &bytes)
}

/// How many elements are listed, the last of them, and its number in the bytes of a report.
pub fn print_table(
    printed: &mut String,
    table: &Table<'_>,
    descriptor: &[u8],
    words: &str,
) -> Result<(), RowFault> {
    match Session::open(table.alloc, descriptor) {
        Ok(session) => print_elements_in(printed, table, &session, words),
        Err(fault) => print_shown(printed, &fault),
    }
}
