//! Exit statuses.

ghost use Rattle.std.specs.Prelude.{◌≡◌, max};
ghost use Rattle.std.specs.List.{list_any};
ghost use Rattle.hidplay.specs.Status.{cause_status, status_of, ends_all_by, ends_all, lacks_descriptor, lack_status, has_descriptor};

use super::fault::{FileFault, Why};
use hid_capture::UndescribedEndpoint;
use hid_recording::{Cause, Summary};

/// Nothing was refused.
pub const FINE: u8 = 0;

/// A line was refused.
pub const REFUSED: u8 = 1;

/// The command line is wrong.
pub const WRONG_USAGE: u8 = 2;

/// A file, standard output or memory failed.
pub const OUTSIDE: u8 = 3;

/// The exit status of a cause.
fn cause_status(cause: Cause) -> u8
    ensures { result ≡ cause_status cause }
{
    match cause {
        Cause::Refused(_) | Cause::LineTooLong | Cause::Unended => REFUSED,
        Cause::Read | Cause::Write | Cause::Memory | Cause::TooManyReads => OUTSIDE,
    }
}

/// The exit status of a run.
pub fn exit_of(end: &Result<Summary, FileFault>) -> u8
    ensures { result ≡ status_of end.now }
{
    match end {
        Ok(summary) if summary.refused > 0 => REFUSED,
        Ok(_) => FINE,
        Err(fault) => match fault.why {
            Why::Recording(cause) => cause_status(cause),
            Why::Capture(_) | Why::Descriptor(_) | Why::Other(_) => REFUSED,
        },
    }
}

/// Whether a cause ends all files.
fn ends_all_by(strict: bool, cause: Cause) -> bool
    ensures { result ≡ ends_all_by strict cause }
{
    match cause {
        Cause::Refused(_) | Cause::LineTooLong | Cause::Unended => strict,
        Cause::Write => true,
        Cause::Read | Cause::Memory | Cause::TooManyReads => false,
    }
}

/// Whether no further file is begun: standard output failed, or a strict run met a refusal.
pub fn ends_all(strict: bool, end: &Result<Summary, FileFault>) -> bool
    ensures { result ≡ ends_all strict end.now }
{
    match end {
        Ok(_) => false,
        Err(fault) => match fault.why {
            Why::Recording(cause) => ends_all_by(strict, cause),
            Why::Capture(_) | Why::Descriptor(_) | Why::Other(_) => strict,
        },
    }
}

/// Whether an endpoint is of a HID interface.
fn is_hid(endpoint: &UndescribedEndpoint) -> bool
    ensures { result ≡ endpoint.now.is_hid }
{
    endpoint.is_hid
}

/// Whether one of these endpoints is of a HID interface.
fn has_hid(undescribed: &[UndescribedEndpoint]) -> bool
    ensures { result ≡ list_any (λ one. one.is_hid) undescribed.now }
{
    undescribed.iter().any(|one| is_hid(one))
}

/// Whether a strict run met reports of HID interfaces without a descriptor: they are like a refusal.
pub fn lacks_descriptor(strict: bool, undescribed: &[UndescribedEndpoint]) -> bool
    ensures { result ≡ lacks_descriptor strict undescribed.now }
{
    strict && has_hid(undescribed)
}

/// The exit status of such reports.
pub fn lack_status(lacks: bool) -> u8
    ensures { result ≡ lack_status lacks }
{
    if lacks { REFUSED } else { FINE }
}

/// Whether a file that was played to its end had a descriptor.
pub fn has_descriptor(end: &Result<Summary, FileFault>) -> bool
    ensures { result ≡ has_descriptor end.now }
{
    match end {
        Ok(summary) => summary.descriptors > 0,
        Err(_) => false,
    }
}

/// Of two runs the status of the one that went worse.
pub fn worse(a: u8, b: u8) -> u8
    ensures { result ≡ max a b }
{
    if a < b { b } else { a }
}
