//! Streams of a server, given to a session.

use crate::answering::Answering;
use crate::dice::Dice;
use crate::heard::{Heard, Leads};
use crate::stop::{Stop, right};
use crate::tally::Tally;
use std::alloc::Global;
use usbip_session::{End, ImportFault, Session, Told};

/// A bound on the turns of a stream: each takes a byte at least, or sends something.
const MOST_TURNS: usize = 60_000;

/// The bus ID that is asked for.
const BUS_ID: &[u8; 3] = b"1-1";

/// A session's server, and what is kept from one stream to the next.
#[derive(Drop)]
pub struct Attached {
    alloc: Global,
    server: Answering,
    heard: Heard,
    /// How many bytes of what the server sent came, and how many bytes of the next message.
    taken: usize,
    half: usize,
}

/// Gives a session bytes, if it lacks so many.
fn take(session: &mut Session, bytes: &[u8]) -> Option<Result<Told, ImportFault>> {
    if bytes.len() > session.lacks() {
        return None;
    }
    Some(session.take(bytes))
}

/// Adds the next message to what is to be sent. Whether there was one.
fn fill(session: &mut Session) -> Result<bool, Stop> {
    match session.fill() {
        Ok(is_filled) => Ok(is_filled),
        Err(_) => Err(Stop::Memory),
    }
}

/// All that was to be sent was sent.
fn clear(session: &mut Session) {
    session.sent(session.unsent().len());
}

/// The session is over.
fn release(session: &mut Session) -> Result<(), Stop> {
    match session.release() {
        Ok(()) => Ok(()),
        Err(_) => Err(Stop::Memory),
    }
}

/// What ends the session after a message.
fn end_after(session: &Session, told: Told) -> Option<End> {
    session.end_after(told)
}

/// Asks for LEDs. A refusal changes nothing.
fn request(session: &mut Session, leds: u8) {
    let _ = session.request(None, &[leds]);
}

/// Whether the session takes the stream's end for a good one.
fn is_good_end(session: &Session) -> bool {
    matches!(session.end_of_stream(), End::Closed)
}

/// Whether a session that is over waits for something.
fn is_waiting(session: &Session) -> bool {
    session.lacks() != 0 || !session.unsent().is_empty() || session.awaits_answer()
}

impl Attached {
    pub fn new(alloc: Global) -> Attached {
        Attached {
            alloc,
            server: Answering::new(alloc),
            heard: Heard::new(alloc),
            taken: 0,
            half: 0,
        }
    }

    /// The bytes of the last stream.
    pub fn stream(&self) -> &[u8] {
        &self.server.sent
    }

    pub fn heard(&self) -> &Heard {
        &self.heard
    }

    /// Plays one stream.
    pub fn play(&mut self, dice: &mut Dice, tally: &mut Tally) -> Result<(), Stop> {
        let mut id = [0; 32];
        id[..3].copy_from_slice(BUS_ID);
        self.server.begin(dice);
        self.heard.begin();
        self.taken = 0;
        self.half = 0;
        let mut session = Session::new(self.alloc, &id);
        let played = self.play_pieces(&mut session, dice, tally);
        let ended = self.finish(&mut session);
        drop(session);
        played?;
        ended
    }

    /// Turns, until the session ends or the server has no more to send.
    fn play_pieces(
        &mut self,
        session: &mut Session,
        dice: &mut Dice,
        tally: &mut Tally,
    ) -> Result<(), Stop> {
        let most = [1, 9, 60, 400].get(dice.below(4)).copied().unwrap_or(1);
        let is_cut = dice.one_in(4);
        for _ in 0..MOST_TURNS {
            self.send(session, dice)?;
            if self.taken >= self.server.sent.len() && !self.server.report(dice)? {
                return self.judge_close(session);
            }
            if is_cut && dice.one_in(200) {
                return self.judge_close(session);
            }
            if dice.one_in(50) {
                request(session, dice.byte() & 7);
            }
            let count = dice.below(most).saturating_add(1);
            if self.receive(session, count, tally)? {
                return Ok(());
            }
        }
        Err(Stop::Wrong("a stream without an end"))
    }

    /// Gives the server all that the session sends.
    fn send(&mut self, session: &mut Session, dice: &mut Dice) -> Result<(), Stop> {
        for _ in 0..40 {
            if !fill(session)? {
                return Ok(());
            }
            self.heard.asked(session.unsent())?;
            self.server.hear(self.alloc, session.unsent(), dice)?;
            clear(session);
        }
        Err(Stop::Wrong("submits without an end"))
    }

    /// Gives the session this many bytes of what the server sent, if there are so many. Gives whether it is over.
    fn receive(
        &mut self,
        session: &mut Session,
        count: usize,
        tally: &mut Tally,
    ) -> Result<bool, Stop> {
        let to = self.taken.saturating_add(count).min(self.server.sent.len());
        for _ in 0..count {
            if self.taken >= to {
                return Ok(false);
            }
            let lacks = session.lacks();
            right(
                lacks == self.heard.wants().wrapping_sub(self.half),
                "another length is awaited",
            )?;
            if lacks == 0 {
                return Err(Stop::Wrong("nothing is awaited"));
            }
            if self.take(session, to, tally)? {
                return Ok(true);
            }
        }
        Ok(false)
    }

    /// Gives the session what its next message lacks, as far as it came. Gives whether it is over.
    fn take(&mut self, session: &mut Session, to: usize, tally: &mut Tally) -> Result<bool, Stop> {
        let lacks = session.lacks();
        let next = self.taken.saturating_add(lacks).min(to);
        let is_whole = next.saturating_sub(self.taken) == lacks;
        let told = match self.server.sent.get(self.taken..next) {
            Some(bytes) => take(session, bytes),
            None => None,
        };
        match told {
            Some(told) => {
                let leads = self.hear(next, is_whole);
                self.judge(session, told, leads, tally)
            }
            None => Err(Stop::Wrong("bytes that nobody takes")),
        }
    }

    /// The session took bytes up to here: what their message may lead to.
    fn hear(&mut self, next: usize, is_whole: bool) -> Leads {
        let start = self.taken.saturating_sub(self.half);
        self.taken = next;
        if !is_whole {
            self.half = next.saturating_sub(start);
            return Leads::On;
        }
        self.half = 0;
        match self.server.sent.get(start..next) {
            Some(message) => self.heard.took(message),
            None => Leads::On,
        }
    }

    /// Compares what came of a message with what it may lead to. Gives whether it is over.
    fn judge(
        &mut self,
        session: &Session,
        told: Result<Told, ImportFault>,
        leads: Leads,
        tally: &mut Tally,
    ) -> Result<bool, Stop> {
        match told {
            Ok(told) => {
                right(leads != Leads::Refused, "an answer that should be refused")?;
                self.heard.tell(session.events(), leads)?;
                let Some(end) = end_after(session, told) else {
                    return Ok(false);
                };
                tally.refuse(&code_of(end))?;
                Ok(true)
            }
            Err(ImportFault::Memory) => Err(Stop::Memory),
            Err(fault) => {
                right(leads == Leads::Refused, "a refusal without a cause")?;
                tally.refuse(&fault)?;
                Ok(true)
            }
        }
    }

    /// The server closed the connection: a good end is one between two messages.
    fn judge_close(&mut self, session: &Session) -> Result<(), Stop> {
        let is_fine = self.half == 0 && self.heard.is_between();
        right(
            is_fine || !is_good_end(session),
            "half a message at a good end",
        )
    }

    /// The session is over: what is held is released, and nothing is sent or awaited any more.
    fn finish(&mut self, session: &mut Session) -> Result<(), Stop> {
        release(session)?;
        self.heard.tell(session.events(), Leads::Release)?;
        self.heard.is_released()?;
        right(!is_waiting(session), "something is awaited after the end")?;
        let sends = fill(session)?;
        right(!sends, "something is sent after the end")?;
        release(session)?;
        right(session.events().is_empty(), "events after the end")
    }
}

/// The code of an end, without its words.
fn code_of(end: End) -> &'static str {
    match end {
        End::Unread => "A10",
        End::Stopped => "A14",
        End::Device(_) => "device",
        _ => "import",
    }
}
