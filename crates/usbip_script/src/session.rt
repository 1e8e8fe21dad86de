//! The session: what comes and goes, and the clock.

use crate::fault::{LineCause, ServeFault};
use crate::output_text::print_output;
use crate::script::Script;
use crate::watch::Watch;
use std::io::{ErrorKind, Read, Write};
use std::thread;
use std::time::{Duration, Instant};
use usbip_export::{ExportedDevice, MAX_ANSWER, MAX_DEVICES, Stage};
use usbip_serving::{Serving, SetReport, Turn};

/// How often a write is tried that would block, a millisecond apart: ten seconds.
const MAX_WAITS: u32 = 10_000;

/// In microseconds, the first rest where nothing is to be done; each one after it is twice as long.
const FIRST_REST: u64 = 20;

/// In microseconds, the longest rest: a frame.
const LONGEST_REST: u64 = 1_000;

/// What came of a part of a round.
#[derive(Clone, Copy, PartialEq, Eq)]
enum Came {
    /// Bytes were read, or something was done.
    Some,
    /// Nothing is there yet, or was to be done.
    Nothing,
    /// The stream is at its end, or the connection is over.
    End,
}

/// A connection that is served, with room for what comes and goes.
#[derive(Drop)]
struct Service {
    serving: Serving,
    /// Room for a message, as long as the longest that came, and how much of the next one came.
    message: Vec<u8>,
    filled: usize,
    /// Room for an answer, once one was needed.
    room: Vec<u8>,
    /// Room for the line of a report that was set.
    text: String,
    /// When the clock began.
    start: Instant,
    /// In microseconds, how long to rest where nothing is to be done.
    rest: u64,
}

/// Writes some of these bytes, one at least; 0 where the host is gone. Where the stream would block, that is tried again each
/// millisecond, for ten seconds.
fn send_some<W: Write>(rt: &HostRuntime, to: &mut W, bytes: &[u8]) -> Result<usize, ServeFault> {
    for _ in 0..MAX_WAITS {
        match to.write(bytes) {
            Ok(0) => return Err(ServeFault::Output),
            Ok(count) => return Ok(count),
            Err(error) => match error.kind() {
                ErrorKind::WouldBlock => thread::sleep(rt, Duration::from_millis(1)),
                ErrorKind::Interrupted => {}
                ErrorKind::BrokenPipe | ErrorKind::ConnectionReset => return Ok(0),
                _ => return Err(ServeFault::Output),
            },
        }
    }
    Err(ServeFault::Full)
}

/// Writes bytes, all of them. False where the host is gone.
fn send<W: Write>(rt: &HostRuntime, to: &mut W, bytes: &[u8]) -> Result<bool, ServeFault> {
    let mut rest = bytes;
    for _ in 0..bytes.len() {
        if rest.is_empty() {
            return Ok(true);
        }
        let count = send_some(rt, to, rest)?;
        if count == 0 {
            return Ok(false);
        }
        rest = rest.get(count..).unwrap_or(&[]);
    }
    Ok(true)
}

/// Lets the line of a report be heard that a host set.
fn tell<T: Watch>(
    text: &mut String,
    device: &ExportedDevice,
    set: &SetReport,
    watch: &mut T,
) -> Result<(), ServeFault> {
    let bytes = device.outputs(set.kind, set.id).unwrap_or(&[]);
    text.clear();
    if print_output(text, set, bytes).is_err() {
        return Err(ServeFault::Memory);
    }
    watch.hear(text.as_str())
}

impl Service {
    /// A connection of which nothing came.
    fn new(rt: &HostRuntime) -> Result<Service, ServeFault> {
        let Ok(start) = Instant::now(rt) else {
            return Err(ServeFault::Clock);
        };
        Ok(Service {
            serving: Serving::new(),
            message: Vec::new(rt.alloc()),
            filled: 0,
            room: Vec::new(rt.alloc()),
            text: String::new(rt.alloc()),
            start,
            rest: FIRST_REST,
        })
    }

    /// What the end of the stream is: it may come between two messages alone.
    fn end_of_stream(&self) -> Result<Came, ServeFault> {
        match self.serving.stage() {
            Stage::Operation | Stage::Command(_) | Stage::Over if self.filled == 0 => Ok(Came::End),
            _ => Err(ServeFault::HalfMessage),
        }
    }

    /// Reads what is there of the message that comes.
    fn read<R: Read>(&mut self, from: &mut R) -> Result<Came, ServeFault> {
        let wanted = self.serving.wants();
        if wanted == 0 {
            return Ok(Came::End);
        }
        let filled = self.filled;
        if filled >= wanted {
            return Ok(Came::Some);
        }
        if self.message.len() < wanted && self.message.resize(wanted, 0).is_err() {
            return Err(ServeFault::Memory);
        }
        match from.read(&mut self.message[filled..wanted]) {
            Ok(0) => self.end_of_stream(),
            Ok(count) => {
                self.filled = filled.saturating_add(count);
                Ok(Came::Some)
            }
            Err(error) => match error.kind() {
                ErrorKind::WouldBlock | ErrorKind::Interrupted => Ok(Came::Nothing),
                ErrorKind::ConnectionReset | ErrorKind::BrokenPipe => self.end_of_stream(),
                _ => Err(ServeFault::Input),
            },
        }
    }

    /// Takes the message that came, if it is whole, sends its answer, and passes on the report that it set.
    fn answer<W: Write, T: Watch>(
        &mut self,
        rt: &HostRuntime,
        devices: &mut [ExportedDevice],
        to: &mut W,
        watch: &mut T,
    ) -> Result<Came, ServeFault> {
        let wanted = self.serving.wants();
        if self.filled < wanted || self.message.len() < wanted {
            return Ok(Came::Some);
        }
        if self.room.resize(MAX_ANSWER, 0).is_err() {
            return Err(ServeFault::Memory);
        }
        self.filled = 0;
        let count = devices.len().min(MAX_DEVICES);
        let devices = &mut devices[..count];
        let taken = match self
            .serving
            .take(devices, &self.message[..wanted], &mut self.room)
        {
            Ok(taken) => taken,
            Err(fault) => return Err(ServeFault::Message(fault)),
        };
        if let Some(set) = taken.set
            && let Some(device) = devices.get(set.place)
        {
            tell(&mut self.text, device, &set, watch)?;
        }
        self.send(rt, to, taken.length)
    }

    /// Sends so many bytes at the front of the room.
    fn send<W: Write>(
        &self,
        rt: &HostRuntime,
        to: &mut W,
        count: usize,
    ) -> Result<Came, ServeFault> {
        if send(rt, to, self.room.get(..count).unwrap_or(&[]))? {
            Ok(Came::Some)
        } else {
            self.end_of_stream()
        }
    }

    /// Whether the script goes on after the actions that may come so far, where nothing else is to be done.
    fn goes_on<T: Watch>(
        &self,
        script: &Script,
        watch: &mut T,
        count: usize,
        now: u64,
    ) -> Result<bool, ServeFault> {
        if self.serving.done() < count || !self.serving.may_act(script.devices.as_slice(), now) {
            return Ok(false);
        }
        watch.go_on(self.serving.stage().place(), now)
    }

    /// Does all that is to be done now.
    fn act<W: Write, T: Watch>(
        &mut self,
        rt: &HostRuntime,
        script: &mut Script,
        to: &mut W,
        watch: &mut T,
        now: u64,
    ) -> Result<Came, ServeFault> {
        let mut came = Came::Nothing;
        for _ in 0..u64::MAX {
            if self.room.resize(MAX_ANSWER, 0).is_err() {
                return Err(ServeFault::Memory);
            }
            let count = watch.allowed().min(script.actions.len());
            let actions = &script.actions.as_slice()[..count];
            match self.serving.turn(script.devices.as_mut_slice(), actions, now, &mut self.room) {
                Ok(Turn::Waits) if self.goes_on(script, watch, count, now)? => came = Came::Some,
                Ok(Turn::Waits) => break,
                Ok(Turn::Acted) => came = Came::Some,
                Ok(Turn::Sends(count)) => came = self.send(rt, to, count)?,
                Err(fault) => {
                    let line = script.lines.get(self.serving.done()).copied().unwrap_or(0);
                    return Err(ServeFault::Line(line, LineCause::Change(fault)));
                }
            }
            if came == Came::End {
                break;
            }
        }
        Ok(came)
    }
}

/// In milliseconds, how long serving lasts.
fn millis(rt: &HostRuntime, start: &Instant) -> Result<u64, ServeFault> {
    match start.elapsed(rt) {
        Ok(time) => Ok(u64::try_from(time.as_millis()).unwrap_or(u64::MAX)),
        Err(_) => Err(ServeFault::Clock),
    }
}

/// One round: what came, the frames, and what is to be done; a rest, where there was nothing. False at the end.
fn go_round<R: Read, W: Write, T: Watch>(
    rt: &HostRuntime,
    service: &mut Service,
    script: &mut Script,
    from: &mut R,
    to: &mut W,
    watch: &mut T,
) -> Result<bool, ServeFault> {
    let read = service.read(from)?;
    let came = match read {
        Came::Some => service.answer(rt, script.devices.as_mut_slice(), to, watch)?,
        Came::Nothing | Came::End => read,
    };
    if came == Came::End {
        return Ok(false);
    }
    // (a read that blocks takes time)
    let now = millis(rt, &service.start)?;
    service.serving.pass(script.devices.as_mut_slice(), now);
    let done = service.act(rt, script, to, watch, now)?;
    if done == Came::End {
        return Ok(false);
    }
    if done == Came::Some || came == Came::Some {
        service.rest = FIRST_REST;
        return Ok(true);
    }
    thread::sleep(rt, Duration::from_micros(service.rest));
    service.rest = service.rest.saturating_mul(2).min(LONGEST_REST);
    Ok(true)
}

/// Rounds, until the connection ends.
fn go_on<R: Read, W: Write, T: Watch>(
    rt: &HostRuntime,
    service: &mut Service,
    script: &mut Script,
    from: &mut R,
    to: &mut W,
    watch: &mut T,
) -> Result<(), ServeFault> {
    for _ in 0..u64::MAX {
        if !go_round(rt, service, script, from, to, watch)? {
            break;
        }
    }
    Ok(())
}

/// Serves the devices of a script until the connection ends: the bytes that come from the host are read, and those that go to it
/// written.
///
/// # Errors
/// A message of the host or a change of the script that is refused; a stream, the clock or memory that fails; or what the watch says.
pub fn serve<R: Read, W: Write, T: Watch>(
    rt: &HostRuntime,
    script: &mut Script,
    from: &mut R,
    to: &mut W,
    watch: &mut T,
) -> Result<(), ServeFault> {
    let mut service = Service::new(rt)?;
    let end = go_on(rt, &mut service, script, from, to, watch);
    let place = service.serving.stage().place();
    service.serving.end(script.devices.as_mut_slice());
    drop(service);
    end?;
    watch.end(place)
}
