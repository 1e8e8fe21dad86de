//! How long something is awaited, and how long transfers fail.
ghost use Rattle.std.specs.Prelude.{◌≡◌};
ghost use Rattle.usbip_session.specs.Timers.{answer_of, answer_with, is_endless, is_late, notice_of_row, row_after, row_from, row_with, since_after};

use crate::notice::Notice;
use hid_driver::DriverFault;
use usbip::Status;
use usbip_import::Told;

/// Since when something is awaited, if it is.
#[derive(Clone, Copy, Debug, Default)]
pub struct Timer {
    /// In milliseconds of the program's clock.
    pub since: Option<u64>,
}

impl Timer {
    /// Something is awaited at this time, or not: a timer that runs goes on, and one that doesn't begins.
    pub fn see(&mut self, is_awaited: bool, now: u64)
        ensures { self.new.since ≡ since_after is_awaited now self.old.since }
    {
        self.since = match self.since {
            _ if !is_awaited => None,
            None => Some(now),
            Some(since) => Some(since),
        };
    }
}

/// Whether something is awaited for longer than a limit, in milliseconds.
pub fn is_late(timer: &Timer, now: u64, limit: u64) -> bool
    ensures { result ≡ is_late timer.now.since now limit }
{
    match timer.since {
        Some(since) => now.saturating_sub(since) > limit,
        None => false,
    }
}

/// How many bursts of failures end a session (our choice).
pub const MAX_BURSTS: u32 = 16;

/// In milliseconds, how far apart two failures of a burst are at most (our choice: Linux retries as long before it resets a device).
const BURST_GAP: u64 = 1000;

/// What the answer to a transfer for a report brought.
#[derive(Clone, Copy, Debug, PartialEq, Eq)]
pub enum Answer {
    /// It failed.
    Failed,
    /// No byte, or bytes that aren't read.
    Nothing,
    /// A report that is read, or a packet of one.
    Report,
}

/// What an answer brought whose transfer ended so, with data or without.
fn answer_with(status: Status, has_data: bool, read: Result<(), DriverFault>) -> Answer
    ensures { result ≡ answer_with status has_data read }
{
    match status {
        Status::Success => match read {
            Ok(()) if has_data => Answer::Report,
            _ => Answer::Nothing,
        },
        _ => Answer::Failed,
    }
}

/// What a message brought that led to this, and was the data of an answer or not.
pub(crate) fn answer_of(told: Told, has_data: bool) -> Answer
    ensures { result ≡ answer_of told has_data }
{
    match told {
        Told::Report { status, result, .. } => answer_with(status, has_data, result),
        Told::Onward | Told::Control { .. } => Answer::Nothing,
    }
}

/// Transfers for reports of one interface that failed, with no report between them. Those at most a second apart are a burst.
#[derive(Clone, Copy, Debug, PartialEq, Eq)]
pub struct FailedRow {
    /// When the first one of the last burst was answered, in milliseconds of the program's clock.
    pub first: u64,
    /// When the last one was.
    pub last: u64,
    /// How many bursts there are, up to [`MAX_BURSTS`].
    pub bursts: u32,
}

/// A row that begins with a failure at this time.
fn row_from(now: u64) -> FailedRow
    ensures { result ≡ row_from now }
{
    FailedRow {
        first: now,
        last: now,
        bursts: 1,
    }
}

/// The row with a failure at this time.
fn row_with(now: u64, row: Option<FailedRow>) -> FailedRow
    ensures { result ≡ row_with now row }
{
    match row {
        None => row_from(now),
        Some(row) if now.saturating_sub(row.last) > BURST_GAP => FailedRow {
            first: now,
            last: now,
            bursts: row.bursts.saturating_add(1).min(MAX_BURSTS),
        },
        Some(row) => FailedRow {
            first: row.first,
            last: now,
            bursts: row.bursts,
        },
    }
}

/// The row of failures of an interface after an answer at this time. A report ends it, and an answer without one leaves it as it is.
pub fn row_after(answer: Answer, now: u64, row: Option<FailedRow>) -> Option<FailedRow>
    ensures { result ≡ row_after answer now row }
{
    match answer {
        Answer::Failed => Some(row_with(now, row)),
        Answer::Nothing => row,
        Answer::Report => None,
    }
}

/// Whether transfers fail without an end: for longer than a limit in a burst, in milliseconds, or in [`MAX_BURSTS`] bursts.
pub fn is_endless(row: Option<FailedRow>, limit: u64) -> bool
    ensures { result ≡ is_endless row limit }
{
    match row {
        Some(row) => row.last.saturating_sub(row.first) > limit || row.bursts >= MAX_BURSTS,
        None => false,
    }
}

/// What is reported of an answer that makes the row `after` of the row `before`: the first failure of a burst.
pub fn notice_of_row(
    interface: usize,
    before: Option<FailedRow>,
    after: Option<FailedRow>,
) -> Option<Notice>
    ensures { result ≡ notice_of_row interface before after }
{
    let after = after?;
    match before {
        Some(before) if before.first == after.first => None,
        _ => Some(Notice::Report {
            interface,
            fault: DriverFault::Failed,
        }),
    }
}
