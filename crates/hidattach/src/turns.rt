//! The turns of a run: what is to be sent is sent, what came is taken, and where there is neither it waits a little. A report
//! costs a read, a write of its event, and a write of the next submit.

use super::args::CliArgs;
use super::event_lines::{Printing, print_driver_events};
use super::output_lines::{LineFault, Lines, OutputLine, read_line};
use std::alloc::Global;
use std::fs::File;
use std::io::{ErrorKind, Read, Stdin, Stdout, Write};
use std::time::{Duration, Instant};
use std::{fs, thread};
use usbip_session::{
    Answer, End, FailedRow, ImportFault, Session, Timer, Told, driver_words, is_endless, is_late,
    notice_of_row, row_after,
};

const MEMORY: End = End::Import(ImportFault::Memory);

/// In bytes, how much a read is asked for at most.
const PIECE: usize = 4096;

/// How many messages a turn adds to what is to be sent at most: as many submits as can be in flight, and one more.
const MAX_SENT: u32 = 17;

/// In milliseconds, how long the next submit waits after a transfer that failed.
const AFTER_ERROR: u64 = 20;

/// The files of a run.
#[derive(Drop)]
pub struct Files {
    /// Events are written here.
    pub output: File,
    /// Output reports are read from here, once the file is there.
    pub requests: Option<File>,
}

/// A run: its session, and its times since the start.
#[derive(Drop)]
struct Run<'a> {
    asked: &'a CliArgs<'a>,
    alloc: Global,
    session: Session,
    /// The lines of events that aren't written yet.
    text: String,
    lines: Lines,
    /// The number of the line of Output reports that was read last.
    line: u64,
    start: Instant,
    /// The time of this turn, since the start.
    time: Duration,
    answer: Timer,
    incoming: Timer,
    outgoing: Timer,
    /// Of each interface, by its place, the transfers that failed since a report came.
    rows: Vec<Option<FailedRow>>,
    /// Whether the server takes nothing any more.
    is_shut: bool,
    /// Whether a transfer failed in this turn.
    has_failed: bool,
    /// How many turns went by since bytes went over.
    idle: u32,
}

/// How long a turn without bytes waits: the longer nothing came, the longer.
fn pause(idle: u32) -> Duration {
    if idle < 20 {
        Duration::from_micros(1)
    } else if idle < 200 {
        Duration::from_millis(1)
    } else {
        Duration::from_millis(10)
    }
}

/// A time in milliseconds.
fn milliseconds(time: Duration) -> u64 {
    time.as_secs()
        .saturating_mul(1000)
        .saturating_add(u64::from(time.subsec_millis()))
}

/// Opens the file of Output reports, if one is named, and is there.
///
/// # Errors
/// [`End::Requests`] where it is there, and can't be opened.
pub fn open_requests(rt: &HostRuntime, name: Option<&str>) -> Result<Option<File>, End> {
    let Some(name) = name else {
        return Ok(None);
    };
    match fs::open(rt, name) {
        Ok(file) => Ok(Some(file)),
        Err(error) if error.kind() == ErrorKind::NotFound => Ok(None),
        Err(_) => Err(End::Requests),
    }
}

/// Reads the device until the session ends, releases what is held, and returns what ended it.
pub fn attach(rt: &HostRuntime, asked: &CliArgs<'_>, bus_id: &[u8; 32], files: &mut Files) -> End {
    let Ok(start) = Instant::now(rt) else {
        return End::Connection;
    };
    let mut run = Run {
        asked,
        alloc: rt.alloc(),
        session: Session::new(rt.alloc(), bus_id),
        text: String::new(rt.alloc()),
        lines: Lines::new(rt.alloc()),
        line: 0,
        start,
        time: Duration::ZERO,
        answer: Timer::default(),
        incoming: Timer::default(),
        outgoing: Timer::default(),
        rows: Vec::new(rt.alloc()),
        is_shut: false,
        has_failed: false,
        idle: 0,
    };
    let end = run.go_on(rt, files);
    let end = run.finish(rt, files, end);
    drop(run);
    end
}

impl Run<'_> {
    /// Looks at the clock; where there is none any more, a limit is over.
    fn look(&mut self, rt: &HostRuntime) {
        self.time = match self.start.elapsed(rt) {
            Ok(time) => time,
            Err(_) => Duration::MAX,
        };
    }

    /// Turn after turn, until the session ends.
    fn go_on(&mut self, rt: &HostRuntime, files: &mut Files) -> End {
        let mut input = rt.stdin();
        let mut output = rt.stdout();
        for _ in 0..u64::MAX {
            if let Err(end) = self.turn(rt, &mut input, &mut output, files) {
                return end;
            }
        }
        End::Late
    }

    /// Releases what is held, and writes what isn't written yet.
    fn finish(&mut self, rt: &HostRuntime, files: &mut Files, end: End) -> End {
        if self.session.release().is_err() {
            return MEMORY;
        }
        self.look(rt);
        match self.print().and_then(|()| self.write_events(files)) {
            Ok(()) => end,
            Err(other) => other,
        }
    }

    /// Adds the lines of the last message's events to those that aren't written yet.
    fn print(&mut self) -> Result<(), End> {
        if self.session.events().is_empty() {
            return Ok(());
        }
        let seconds = self.time.as_secs();
        let micros = self.time.subsec_micros();
        let Ok(time) = format!(in self.alloc; "{seconds:06}.{micros:06}") else {
            return Err(MEMORY);
        };
        let printing = Printing {
            alloc: self.alloc,
            time: time.as_str(),
            options: self.asked.options,
        };
        let laid = self.session.layouts();
        if print_driver_events(&mut self.text, &printing, laid, self.session.events()).is_err() {
            return Err(MEMORY);
        }
        Ok(())
    }

    /// Writes the lines of events.
    fn write_events(&mut self, files: &mut Files) -> Result<(), End> {
        if self.text.is_empty() {
            return Ok(());
        }
        let written = files.output.write_all(self.text.as_bytes());
        self.text.clear();
        match written {
            Ok(()) => Ok(()),
            Err(_) => Err(End::Output),
        }
    }

    /// One turn.
    fn turn(
        &mut self,
        rt: &HostRuntime,
        input: &mut Stdin,
        output: &mut Stdout,
        files: &mut Files,
    ) -> Result<(), End> {
        self.request(rt, files)?;
        let has_sent = self.send(output)?;
        let has_come = self.receive(rt, input)?;
        self.write_events(files)?;
        self.see()?;
        self.wait(rt, has_sent || has_come);
        Ok(())
    }

    /// Sends what is to be sent, as far as the connection takes it. Whether some bytes went over.
    fn send<W: Write>(&mut self, output: &mut W) -> Result<bool, End> {
        for _ in 0..MAX_SENT {
            if !self.fill()? {
                break;
            }
        }
        Ok(self.write(output)? > 0)
    }

    /// Adds the next message to what is to be sent. Whether there was one.
    fn fill(&mut self) -> Result<bool, End> {
        match self.session.fill() {
            Ok(filled) => Ok(filled),
            Err(fault) => Err(End::Import(fault)),
        }
    }

    /// Writes some of what is to be sent: how many bytes went over. Where the server takes nothing any more, what it sent before
    /// is still read.
    fn write<W: Write>(&mut self, output: &mut W) -> Result<usize, End> {
        if self.is_shut || self.session.unsent().is_empty() {
            return Ok(0);
        }
        match output.write(self.session.unsent()) {
            Ok(count) => {
                let count = count.min(self.session.unsent().len());
                self.session.sent(count);
                Ok(count)
            }
            Err(error) => match error.kind() {
                ErrorKind::WouldBlock | ErrorKind::Interrupted => Ok(0),
                ErrorKind::BrokenPipe | ErrorKind::ConnectionReset => {
                    self.is_shut = true;
                    Ok(0)
                }
                _ => Err(End::Connection),
            },
        }
    }

    /// Reads what came. Whether there was something.
    fn receive<R: Read>(&mut self, rt: &HostRuntime, input: &mut R) -> Result<bool, End> {
        if self.session.lacks() == 0 {
            self.look(rt);
            return Ok(false);
        }
        let mut piece = [0u8; PIECE];
        let read = input.read(&mut piece);
        self.look(rt);
        match read {
            Ok(0) => Err(self.session.end_of_stream()),
            Ok(count) => {
                self.take_all(rt, &piece[..count])?;
                Ok(true)
            }
            Err(error) => match error.kind() {
                ErrorKind::WouldBlock | ErrorKind::Interrupted => Ok(false),
                ErrorKind::ConnectionReset => Err(self.session.end_of_stream()),
                _ => Err(End::Connection),
            },
        }
    }

    /// Takes bytes that came, message by message.
    fn take_all(&mut self, rt: &HostRuntime, bytes: &[u8]) -> Result<(), End> {
        let mut rest = bytes;
        for _ in 0..bytes.len() {
            if rest.is_empty() {
                break;
            }
            let (first, others) = rest.split_at(self.session.lacks().min(rest.len()));
            self.take(rt, first)?;
            rest = others;
        }
        Ok(())
    }

    /// Takes some of a message, adds the lines of its events, and reports what it led to.
    fn take(&mut self, rt: &HostRuntime, bytes: &[u8]) -> Result<(), End> {
        if bytes.is_empty() || bytes.len() > self.session.lacks() {
            return Err(End::Connection);
        }
        let told = match self.session.take(bytes) {
            Ok(told) => told,
            Err(fault) => return Err(End::Import(fault)),
        };
        self.print()?;
        if let Told::Report { interface, .. } = told {
            let answer = self.session.answer_of(told);
            self.count_answer(rt, interface, answer)?;
        }
        self.judge(rt, told)
    }

    /// In milliseconds, how long an answer may take.
    fn limit(&self) -> u64 {
        u64::from(self.asked.seconds).saturating_mul(1000)
    }

    /// Counts an answer for a report. The first failure of a burst is reported, and failures without an end end the session.
    fn count_answer(
        &mut self,
        rt: &HostRuntime,
        interface: usize,
        answer: Answer,
    ) -> Result<(), End> {
        self.has_failed = self.has_failed || answer == Answer::Failed;
        let count = interface.saturating_add(1);
        if self.rows.len() < count && self.rows.resize(count, None).is_err() {
            return Err(MEMORY);
        }
        let Some(row) = self.rows.get_mut(interface) else {
            return Ok(());
        };
        let before = *row;
        let after = row_after(answer, milliseconds(self.time), before);
        *row = after;
        if let Some(notice) = notice_of_row(interface, before, after) {
            let _ = eprintln!(rt; "{notice}");
        }
        if is_endless(after, self.limit()) {
            return Err(End::Late);
        }
        Ok(())
    }

    /// Reports what a message led to, unless it is what ends the session.
    fn judge(&mut self, rt: &HostRuntime, told: Told) -> Result<(), End> {
        let end = self.session.end_after(told);
        if let Some(notice) = self.session.notice_of(told) {
            if !matches!(end, Some(End::Device(_) | End::Import(_))) {
                let _ = eprintln!(rt; "{notice}");
            }
        }
        match end {
            Some(end) => Err(end),
            None => Ok(()),
        }
    }

    /// Asks what the next line of the file of Output reports says, if the driver waits for nothing. More of the file is read
    /// where no whole line is left.
    fn request(&mut self, rt: &HostRuntime, files: &mut Files) -> Result<(), End> {
        if !self.session.is_ready() {
            return Ok(());
        }
        if self.request_next(rt)? {
            return Ok(());
        }
        if files.requests.is_none() {
            files.requests = open_requests(rt, self.asked.leds)?;
        }
        let Some(file) = &mut files.requests else {
            return Ok(());
        };
        self.read_requests(file)?;
        self.request_next(rt)?;
        Ok(())
    }

    /// Asks what the next line says that came whole. Whether there was one.
    fn request_next(&mut self, rt: &HostRuntime) -> Result<bool, End> {
        match self.lines.next_line(self.alloc) {
            Ok(Some(line)) => {
                self.request_line(rt, &line)?;
                Ok(true)
            }
            Ok(None) => Ok(false),
            Err(_) => Err(MEMORY),
        }
    }

    /// Reads more of the file of Output reports.
    fn read_requests(&mut self, file: &mut File) -> Result<(), End> {
        let mut piece = [0u8; 512];
        let count = match file.read(&mut piece) {
            Ok(count) => count,
            Err(_) => return Err(End::Requests),
        };
        match self.lines.add(&piece[..count]) {
            Ok(()) => Ok(()),
            Err(LineFault::Unread) => Err(End::Requests),
            Err(LineFault::Memory) => Err(MEMORY),
        }
    }

    /// Asks what a line says.
    fn request_line(&mut self, rt: &HostRuntime, line: &[u8]) -> Result<(), End> {
        self.line = self.line.saturating_add(1);
        let number = self.line;
        match read_line(self.alloc, line) {
            Ok(OutputLine::Nothing) => Ok(()),
            Ok(OutputLine::Bytes { interface, bytes }) => {
                if let Err(fault) = self.session.request(interface, &bytes) {
                    let words = driver_words(fault);
                    let _ = eprintln!(rt; "output line {number}: {fault}: {words}");
                }
                Ok(())
            }
            Err(LineFault::Unread) => {
                let _ = eprintln!(rt;
                    "output line {number}: neither bytes in hex nor an interface and bytes"
                );
                Ok(())
            }
            Err(LineFault::Memory) => Err(MEMORY),
        }
    }

    /// Sees whether something is awaited for too long.
    fn see(&mut self) -> Result<(), End> {
        let now = milliseconds(self.time);
        let limit = self.limit();
        self.answer.see(self.session.awaits_answer(), now);
        self.incoming.see(!self.session.is_between(), now);
        self.outgoing.see(!self.session.unsent().is_empty(), now);
        for timer in [self.answer, self.incoming, self.outgoing] {
            if is_late(&timer, now, limit) {
                return Err(End::Late);
            }
        }
        Ok(())
    }

    /// Waits, unless bytes went over; and where a transfer failed, so that it isn't asked for at once.
    fn wait(&mut self, rt: &HostRuntime, has_moved: bool) {
        if self.has_failed {
            self.has_failed = false;
            thread::sleep(rt, Duration::from_millis(AFTER_ERROR));
        }
        if has_moved {
            self.idle = 0;
        } else {
            thread::sleep(rt, pause(self.idle));
            self.idle = self.idle.saturating_add(1);
        }
    }
}
