//! A host of a foreign device, which answers with any bytes:
//! ```text
//!   configuration 09 02 22        what it answers from now on where it is asked for its configuration; nothing is told
//!   report 05 01*9                the same of its report descriptor
//!   foreign config                a request to it, each try clean, up to its end: what the last one tells, the bytes that came,
//!                                 and where the host stands then
//!   front 9                       a new host asks for both where this many bytes of its configuration come and no more, as far as
//!                                 it is answered: why it is refused, if it is, and where it stands then
//!   changed 25 00 FF              the same where byte 25 of its configuration is another, for each of these
//! ```
//! A foreign device refuses what else it is asked to give, and takes a write without data.

use super::{begin, print_came, print_progress, print_state, step};
use crate::ends::{Answers, Ends, cold};
use crate::output::Output;
use crate::words::{number, read_bytes, request_of};
use arrayvec::ArrayVec;
use hid_host::{HostDevice, StackFault};
use hid_requests::Request;
use std::alloc::Global;
use usb_control::{DevControl, Progress, Requests, Setup};
use usb_transact::Fate;

/// A device that answers with these bytes, whatever they are, and refuses what it has none for. It takes a write without data.
#[derive(Clone, Copy)]
struct Foreign<'a> {
    configuration: &'a [u8],
    report: &'a [u8],
    answer: &'a [u8],
}

impl<'a> Foreign<'a> {
    fn new(configuration: &'a [u8], report: &'a [u8]) -> DevControl<Foreign<'a>> {
        DevControl::new(Foreign {
            configuration,
            report,
            answer: &[],
        })
    }
}

impl<'a> Requests for Foreign<'a> {
    ghost use Rattle.std.specs.Prelude.{◌≡◌, Some, true, false};
    ghost use Rattle.std.proofs.Common.{rules};
    ghost use Rattle.usb_control.specs.SetupBytes.{reads};

    ghost answer_of = { λ f. Some f.answer.now };

    ghost prepare_gives = { λ s r said t. (t ≡ record s { answer = t.answer })
        × (said ≡ true → reads r ≡ false → r.length ≡ 0) };

    ghost apply_gives = { λ s bytes t. t ≡ s };

    ghost same_but_request = { λ s t. t ≡ record s { answer = t.answer } };

    ghost read_has_answer = { Prim.search rules };

    ghost write_is_short = { Prim.search rules };

    ghost prepare_keeps = { Prim.search rules };

    ghost prepare_forgets = { Prim.search rules };

    ghost read_has_no_effect = { Prim.search rules };

    fn prepare(&mut self, setup: &Setup) -> bool {
        if !setup.is_read() {
            return setup.length == 0;
        }
        self.answer = match setup.value {
            0x0200 => self.configuration,
            0x2200 => self.report,
            _ => return false,
        };
        true
    }

    fn answer(&self) -> Option<&[u8]> {
        Some(self.answer)
    }

    fn apply(&mut self, _bytes: &[u8]) {}
}

/// Plays a request without losses, up to its end or through n tries: the result of its last try.
fn asked(
    host: &mut HostDevice,
    control: &mut DevControl<Foreign>,
    request: &Request,
) -> Result<Progress, StackFault> {
    begin(host, request)?;
    for _ in 0..8_200 {
        match step(host, control, Fate::Clean)? {
            Progress::Running => {}
            ended => return Ok(ended),
        }
    }
    Ok(Progress::Running)
}

/// Asks a device with these descriptors, until the transfer ends.
fn asked_of(
    host: &mut HostDevice,
    configuration: &[u8],
    report: &[u8],
    request: &Request,
) -> Result<Progress, StackFault> {
    let mut control = Foreign::new(configuration, report);
    asked(host, &mut control, request)
}

fn print_asked(
    host: &mut HostDevice,
    answers: &Answers,
    request: Option<Request>,
    printed: &mut Output,
) {
    let Some(request) = request else {
        return printed.unread();
    };
    let progress = asked_of(host, &answers.configuration, &answers.report, &request);
    print_progress(progress, printed);
    print_came(host, printed);
    print_state(host, printed);
}

/// Asks for both descriptors.
fn asked_for_both(
    host: &mut HostDevice,
    configuration: &[u8],
    report: &[u8],
) -> Result<Progress, StackFault> {
    asked_of(host, configuration, report, &Request::Config)?;
    asked_of(host, configuration, report, &Request::Report)
}

fn print_both_of(host: &mut HostDevice, configuration: &[u8], report: &[u8], printed: &mut Output) {
    if let Err(fault) = asked_for_both(host, configuration, report) {
        printed.show(fault);
    }
    print_state(host, printed);
}

/// Appends the state of a new host that has asked for both descriptors.
fn print_both(alloc: Global, configuration: &[u8], report: &[u8], printed: &mut Output) {
    let mut host = cold(alloc);
    print_both_of(&mut host, configuration, report, printed);
    drop(host);
}

fn print_front(alloc: Global, answers: &Answers, end: Option<usize>, printed: &mut Output) {
    match end {
        Some(end) if end <= answers.configuration.len() => print_both(
            alloc,
            &answers.configuration[..end],
            &answers.report,
            printed,
        ),
        _ => printed.unread(),
    }
}

/// A configuration, of which one byte is another.
fn changed(configuration: &[u8], at: usize, byte: u8) -> Option<ArrayVec<u8, 64>> {
    let mut bytes: ArrayVec<u8, 64> = ArrayVec::try_from(configuration).ok()?;
    *bytes.get_mut(at)? = byte;
    Some(bytes)
}

fn print_changed(alloc: Global, answers: &Answers, at: usize, byte: u8, printed: &mut Output) {
    match changed(&answers.configuration, at, byte) {
        Some(bytes) => print_both(alloc, &bytes, &answers.report, printed),
        None => printed.unread(),
    }
}

fn print_each_changed(
    alloc: Global,
    answers: &Answers,
    at: Option<usize>,
    bytes: &[u8],
    printed: &mut Output,
) {
    let Some(at) = at else {
        return printed.unread();
    };
    for byte in bytes {
        print_changed(alloc, answers, at, *byte, printed);
    }
}

/// Keeps what a foreign device answers; false where these words mean something else.
fn keep_answers(answers: &mut Answers, words: &[&str]) -> bool {
    match *words {
        ["configuration", ref rest @ ..] => read_bytes(&mut answers.configuration, rest),
        ["report", ref rest @ ..] => read_bytes(&mut answers.report, rest),
        _ => false,
    }
}

/// Does what these words mean with a host of a foreign device; false where they mean nothing of one.
pub fn print_foreign(
    alloc: Global,
    ends: &mut Ends,
    words: &[&str],
    bytes: &mut Vec<u8>,
    printed: &mut Output,
) -> bool {
    match *words {
        ["foreign", ref rest @ ..] => print_asked(
            &mut ends.host,
            &ends.answers,
            request_of(rest, bytes),
            printed,
        ),
        ["front", end] => print_front(alloc, &ends.answers, number(end), printed),
        ["changed", at, ref rest @ ..] if read_bytes(bytes, rest) => print_each_changed(
            alloc,
            &ends.answers,
            number(at),
            bytes,
            printed,
        ),
        _ => return keep_answers(&mut ends.answers, words),
    }
    true
}
