//! What a server must do with the bytes of a host: read here a second time, and held against what it answered.

use crate::messages::{HEADER, word};
use crate::stop::{Stop, right};
use std::alloc::Global;

/// The most submits that wait at a device, and the statuses of docs/FORMATS.md.
const MAX_PENDING: usize = 16;

const STALLED: u32 = 0xFFFF_FFE0;

const UNLINKED: u32 = 0xFFFF_FF98;

const OVERFLOW: u32 = 0xFFFF_FFB5;

const NO_MEMORY: u32 = 0xFFFF_FFF4;

const BAD_REQUEST: u32 = 0xFFFF_FFCB;

/// A submit, as far as its answer depends on it.
#[derive(Clone, Copy)]
struct Asked {
    seqnum: u32,
    is_read: bool,
    endpoint: u32,
    length: u32,
    /// wLength of its setup data.
    limit: u32,
}

/// What comes next.
#[derive(Clone, Copy)]
enum Awaited {
    Operation,
    BusId,
    Command,
    Data(Asked),
    Nothing,
}

/// What a server must do.
#[derive(Drop)]
pub struct Ledger {
    awaited: Awaited,
    /// How many devices there are, and the place of the one that is imported.
    devices: usize,
    place: Option<usize>,
    /// The submits that wait, oldest first.
    pending: Vec<Asked>,
    /// How many commands came, and how many answers.
    pub commands: u64,
    pub answers: u64,
}

/// Whether bytes are all 0.
fn is_blank(bytes: &[u8]) -> bool {
    bytes.iter().all(|byte| *byte == 0)
}

/// Whether an answer is a header of this kind and number, and these statuses, with zeros where the table has zeros.
fn judge_header(answer: &[u8], kind: u32, seqnum: u32, statuses: &[u32]) -> Result<(), Stop> {
    right(answer.len() >= HEADER, "an answer that is no message")?;
    right(word(answer, 0) == kind, "an answer of another kind")?;
    right(word(answer, 4) == seqnum, "an answer of another number")?;
    right(
        statuses.contains(&word(answer, 20)),
        "a status that can't be",
    )?;
    let is_fine = match (answer.get(8..20), answer.get(28..HEADER)) {
        (Some(first), Some(last)) => is_blank(first) && is_blank(last),
        _ => false,
    };
    right(is_fine, "an answer with bytes that are no zeros")
}

/// Whether an answer is RET_SUBMIT of a submit, with its payload.
fn judge_reply(asked: &Asked, answer: &[u8], statuses: &[u32]) -> Result<(), Stop> {
    judge_header(answer, 3, asked.seqnum, statuses)?;
    let length = word(answer, 24);
    let payload = if asked.is_read { length as usize } else { 0 };
    right(length <= asked.length, "more bytes than the submit has")?;
    right(
        asked.endpoint != 0 || length <= asked.limit,
        "more bytes than wLength",
    )?;
    right(
        answer.len().wrapping_sub(HEADER) == payload,
        "a payload of another length",
    )?;
    right(word(answer, 20) == 0 || length == 0, "bytes with a refusal")
}

impl Ledger {
    pub fn new(alloc: Global, devices: usize) -> Ledger {
        Ledger {
            awaited: Awaited::Operation,
            devices,
            place: None,
            pending: Vec::new(alloc),
            commands: 0,
            answers: 0,
        }
    }

    /// A new connection.
    pub fn begin(&mut self) {
        self.awaited = Awaited::Operation;
        self.place = None;
        self.pending.clear();
    }

    /// The place of the device that is imported.
    pub fn place(&self) -> Option<usize> {
        self.place
    }

    /// In bytes, what comes next.
    pub fn wants(&self) -> usize {
        match self.awaited {
            Awaited::Operation => 8,
            Awaited::BusId => 32,
            Awaited::Command => HEADER,
            Awaited::Data(asked) => asked.length as usize,
            Awaited::Nothing => 0,
        }
    }

    /// These bytes were taken, and this was answered; `None` where they were refused.
    pub fn took(&mut self, bytes: &[u8], answer: Option<&[u8]>) -> Result<(), Stop> {
        let Some(sent) = answer else {
            let is_wrong = match self.awaited {
                Awaited::Operation => !is_operation(bytes),
                Awaited::Command => !self.is_command(bytes),
                Awaited::BusId | Awaited::Data(_) | Awaited::Nothing => false,
            };
            self.awaited = Awaited::Nothing;
            self.place = None;
            self.pending.clear();
            return right(is_wrong, "a refusal without a cause");
        };
        if !sent.is_empty() {
            self.answers = self.answers.wrapping_add(1);
        }
        match self.awaited {
            Awaited::Operation => self.took_operation(bytes, sent),
            Awaited::BusId => self.took_bus_id(bytes, sent),
            Awaited::Command => self.took_command(bytes, sent),
            Awaited::Data(asked) => self.took_submit(&asked, sent),
            Awaited::Nothing => Err(Stop::Wrong("bytes taken after the end")),
        }
    }

    /// Whether a header is a command for the device.
    fn is_command(&self, header: &[u8]) -> bool {
        let is_read = word(header, 12) == 1;
        let fits = match word(header, 0) {
            1 => is_read || (word(header, 12) == 0 && word(header, 24) <= 65_535),
            2 => true,
            _ => false,
        };
        let number = (word(header, 8) as usize).wrapping_sub(0x1_0002);
        fits && self.place == Some(number)
    }

    fn took_operation(&mut self, bytes: &[u8], sent: &[u8]) -> Result<(), Stop> {
        right(is_operation(bytes), "an operation that should be refused")?;
        if word(bytes, 0) == 0x0111_8003 {
            self.awaited = Awaited::BusId;
            return right(sent.is_empty(), "an answer before the bus ID");
        }
        self.awaited = Awaited::Nothing;
        right(
            word(sent, 0) == 0x0111_0005 && word(sent, 4) == 0,
            "no list of devices",
        )?;
        right(
            word(sent, 8) as usize == self.devices,
            "another number of devices",
        )?;
        right(
            sent.len() == self.devices.wrapping_mul(316).wrapping_add(12),
            "a list of another length",
        )
    }

    fn took_bus_id(&mut self, bytes: &[u8], sent: &[u8]) -> Result<(), Stop> {
        right(word(sent, 0) == 0x0111_0003, "no reply to an import")?;
        let number = (word(bytes, 0) as usize).wrapping_sub(0x312D_3100) / 256;
        let is_named = word(bytes, 0) >= 0x312D_3100 && word(bytes, 0) % 256 == 0;
        if is_named && number < self.devices {
            self.awaited = Awaited::Command;
            self.place = Some(number);
            right(word(sent, 4) == 0, "a free device that is refused")?;
            return right(sent.len() == 320, "a description of another length");
        }
        self.awaited = Awaited::Nothing;
        right(
            word(sent, 4) != 0 && sent.len() == 8,
            "a device that isn't there",
        )
    }

    fn took_command(&mut self, bytes: &[u8], sent: &[u8]) -> Result<(), Stop> {
        right(self.is_command(bytes), "a command that should be refused")?;
        self.commands = self.commands.wrapping_add(1);
        if word(bytes, 0) == 2 {
            return self.took_unlink(word(bytes, 4), word(bytes, 20), sent);
        }
        let asked = Asked {
            seqnum: word(bytes, 4),
            is_read: word(bytes, 12) == 1,
            endpoint: word(bytes, 16),
            length: word(bytes, 24),
            limit: word(bytes, 44) % 0x1_0000 / 256 + word(bytes, 44) % 256 * 256,
        };
        if !asked.is_read && asked.length > 0 {
            self.awaited = Awaited::Data(asked);
            return right(sent.is_empty(), "an answer before the data");
        }
        self.took_submit(&asked, sent)
    }

    /// A submit and its data came: it is answered at once, or waits for a report.
    fn took_submit(&mut self, asked: &Asked, sent: &[u8]) -> Result<(), Stop> {
        self.awaited = Awaited::Command;
        let may_wait = asked.endpoint == 1 && asked.is_read;
        if may_wait && sent.is_empty() {
            self.pending.push(*asked)?;
            return right(
                self.pending.len() <= MAX_PENDING,
                "too many submits that wait",
            );
        }
        let fault = if asked.endpoint == 0 {
            BAD_REQUEST
        } else {
            STALLED
        };
        let other = if may_wait && self.pending.len() == MAX_PENDING {
            NO_MEMORY
        } else {
            STALLED
        };
        let fine = if asked.endpoint == 0 { 0 } else { STALLED };
        judge_reply(asked, sent, &[fine, fault, other])
    }

    fn took_unlink(&mut self, seqnum: u32, of: u32, sent: &[u8]) -> Result<(), Stop> {
        right(
            sent.len() == HEADER && word(sent, 24) == 0,
            "an unlink that is no header",
        )?;
        match self.pending.iter().position(|asked| asked.seqnum == of) {
            Some(place) if place < self.pending.len() => {
                self.pending.remove(place);
                judge_header(sent, 4, seqnum, &[UNLINKED])
            }
            _ => judge_header(sent, 4, seqnum, &[0]),
        }
    }

    /// A report was sent: to the oldest submit that waits.
    pub fn sent_report(&mut self, sent: &[u8]) -> Result<(), Stop> {
        self.answers = self.answers.wrapping_add(1);
        if self.pending.is_empty() {
            return Err(Stop::Wrong("a report that nobody asked for"));
        }
        let asked = self.pending.remove(0);
        judge_reply(&asked, sent, &[0, STALLED, OVERFLOW])
    }
}

/// Whether the head of an operation is one of version 1.1.1, for the list or for a device.
fn is_operation(head: &[u8]) -> bool {
    matches!(word(head, 0), 0x0111_8003 | 0x0111_8005)
}
