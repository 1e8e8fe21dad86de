//! What a message of USB/IP says.
ghost use Rattle.std.specs.Prelude.{◌≡◌};
ghost use Rattle.usbip.specs.Messages.{direction_of, direction_word, status_of, status_word};

/// In bytes, the header of a command or a reply.
pub const HEADER: usize = 48;

/// In bytes, the most data that a submit may send (our choice: as many as wLength can say).
pub const MAX_DATA: u32 = 65_535;

/// Which way the data of a transfer go.
#[derive(Clone, Copy, Debug, PartialEq, Eq)]
pub enum Direction {
    /// To the device.
    Out,
    /// To the host.
    In,
}

/// CMD_SUBMIT: the host asks for a transfer. Where it goes to the device, `length` bytes of data follow.
#[derive(Clone, Copy, Debug, PartialEq, Eq)]
pub struct Submit {
    /// The number of the command: the reply has the same.
    pub seqnum: u32,
    /// The number of the device: that of its bus times 65,536, and its own.
    pub device: u32,
    /// Which way the data go.
    pub direction: Direction,
    /// The number of the endpoint, without the direction.
    pub endpoint: u32,
    /// The transfer flags, as Linux has them.
    pub flags: u32,
    /// In bytes, the room for the data, or the data that follow.
    pub length: u32,
    /// In frames or microframes, how often an interrupt endpoint is asked.
    pub interval: u32,
    /// The setup data of a control transfer, else zeros.
    pub setup: [u8; 8],
}

/// CMD_UNLINK: the host takes a submit back.
#[derive(Clone, Copy, Debug, PartialEq, Eq)]
pub struct Unlink {
    /// The number of the command: the reply has the same.
    pub seqnum: u32,
    /// The number of the device.
    pub device: u32,
    /// The number of the submit that is taken back.
    pub submit: u32,
}

/// What a host sends once a device is imported.
#[derive(Clone, Copy, Debug, PartialEq, Eq)]
pub enum Command {
    /// CMD_SUBMIT.
    Submit(Submit),
    /// CMD_UNLINK.
    Unlink(Unlink),
}

/// How a transfer ended, by the numbers of Linux's errors.
#[derive(Clone, Copy, Debug, PartialEq, Eq)]
pub enum Status {
    /// 0: it is done. Of an unlink: its submit was answered before.
    Success,
    /// EPIPE, -32: the endpoint answered STALL, or there is no such endpoint.
    Stalled,
    /// ECONNRESET, -104: the submit was taken back.
    Unlinked,
    /// EOVERFLOW, -75: more came than there is room for.
    Overflow,
    /// ENOMEM, -12: too many submits are pending.
    NoMemory,
    /// EBADR, -53: the length or the direction isn't that of the setup data.
    BadRequest,
    /// ESHUTDOWN, -108: the device is gone.
    Shutdown,
    /// Any other, as its word.
    Other(u32),
}

/// RET_SUBMIT: how a submit ended. Where its data go to the host, `length` bytes of them follow.
#[derive(Clone, Copy, Debug, PartialEq, Eq)]
pub struct SubmitReply {
    /// The number of the submit.
    pub seqnum: u32,
    /// How it ended.
    pub status: Status,
    /// In bytes, the data that were taken, or that follow.
    pub length: u32,
}

/// RET_UNLINK: what came of an unlink.
#[derive(Clone, Copy, Debug, PartialEq, Eq)]
pub struct UnlinkReply {
    /// The number of the unlink.
    pub seqnum: u32,
    /// [`Status::Unlinked`] where its submit was pending, and gets no reply of its own.
    pub status: Status,
}

/// What a server answers once a device is imported.
#[derive(Clone, Copy, Debug, PartialEq, Eq)]
pub enum Reply {
    /// RET_SUBMIT.
    Submit(SubmitReply),
    /// RET_UNLINK.
    Unlink(UnlinkReply),
}

impl Direction {
    /// The word of a direction: 0 or 1.
    pub fn word(self) -> u32
        ensures { result ≡ direction_word self }
    {
        match self {
            Direction::Out => 0,
            Direction::In => 1,
        }
    }

    /// The direction of a word, if it is one.
    pub fn of_word(word: u32) -> Option<Direction>
        ensures { result ≡ direction_of word }
    {
        match word {
            0 => Some(Direction::Out),
            1 => Some(Direction::In),
            _ => None,
        }
    }
}

impl Status {
    /// The word of a status: in two's complement, so that EPIPE is `0xFFFF_FFE0`.
    pub fn word(self) -> u32
        ensures { result ≡ status_word self }
    {
        match self {
            Status::Success => 0,
            Status::Stalled => 0xFFFF_FFE0,
            Status::Unlinked => 0xFFFF_FF98,
            Status::Overflow => 0xFFFF_FFB5,
            Status::NoMemory => 0xFFFF_FFF4,
            Status::BadRequest => 0xFFFF_FFCB,
            Status::Shutdown => 0xFFFF_FF94,
            Status::Other(word) => word,
        }
    }

    /// The status of a word.
    pub fn of_word(word: u32) -> Status
        ensures { result ≡ status_of word }
    {
        match word {
            0 => Status::Success,
            0xFFFF_FFE0 => Status::Stalled,
            0xFFFF_FF98 => Status::Unlinked,
            0xFFFF_FFB5 => Status::Overflow,
            0xFFFF_FFF4 => Status::NoMemory,
            0xFFFF_FFCB => Status::BadRequest,
            0xFFFF_FF94 => Status::Shutdown,
            other => Status::Other(other),
        }
    }
}
