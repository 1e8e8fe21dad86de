//! The line of JSON that says what ended a file early, and what was played of it.

ghost use Rattle.std.specs.Prelude.{◌≡◌, ◌++◌, IfOk, OnOk};
ghost use Rattle.std.specs.Option.{option_map};
ghost use Rattle.hidplay.specs.EndLine.{with_cause, count_tokens, place_tokens, cause_tokens, played_tokens, end_tokens, refusals_of};
ghost use Rattle.hid_recording.specs.EventJson.{json_text};
ghost use Rattle.hidplay.specs.FileFault.{why_text, place_of_file};

use super::fault::{FileFault, Place, Why};
use hid_recording::Cause;
use json::Writer;
use std::alloc::{AllocError, Global};

/// A count of refusals, one more if the cause is one, or the file can't be read.
fn with_cause(cause: Cause, count: u64) -> u64
    ensures { result ≡ with_cause cause count }
{
    match cause {
        Cause::Refused(_) | Cause::LineTooLong | Cause::Unended | Cause::Read => {
            count.saturating_add(1)
        }
        Cause::Write | Cause::Memory | Cause::TooManyReads => count,
    }
}

/// How many lines and frames were refused, with what ended the file if it is a refusal, or it can't be read.
pub fn refusals_of(fault: &FileFault) -> u64
    ensures { result ≡ refusals_of fault.now }
{
    match fault.why {
        Why::Recording(cause) => with_cause(cause, fault.played.refused),
        Why::Capture(_) | Why::Descriptor(_) | Why::Other(_) => {
            fault.played.refused.saturating_add(1)
        }
    }
}

/// Writes a count with its name.
fn put_count(json: &mut Writer, name: &str, count: u64) -> Result<(), AllocError>
    ensures tokens { OnOk result (json.new.tokens ≡ json.old.tokens ++ count_tokens name.now count) }
    ensures before { json.new.before ≡ json.old.before }
{
    json.key(name)?;
    json.u64(count)
}

/// Writes where a file ended, if that has a number.
fn put_place(json: &mut Writer, place: &Place) -> Result<(), AllocError>
    ensures tokens { OnOk result (json.new.tokens ≡ json.old.tokens
        ++ place_tokens (place_of_file place.now)) }
    ensures before { json.new.before ≡ json.old.before }
{
    match place.counted() {
        Some((word, number)) => put_count(json, word, number),
        None => Ok(()),
    }
}

/// Writes where and why a file ended.
fn put_cause(json: &mut Writer, place: &Place, words: &str) -> Result<(), AllocError>
    ensures tokens { OnOk result (json.new.tokens ≡ json.old.tokens
        ++ cause_tokens (place_of_file place.now) words.now) }
    ensures before { json.new.before ≡ json.old.before }
{
    put_place(json, place)?;
    json.key("ended")?;
    json.string(words)
}

/// Writes what was played of a file.
fn put_played(json: &mut Writer, fault: &FileFault) -> Result<(), AllocError>
    ensures tokens { OnOk result (json.new.tokens ≡ json.old.tokens ++ played_tokens fault.now) }
    ensures before { json.new.before ≡ json.old.before }
{
    put_count(json, "descriptors", fault.played.descriptors)?;
    put_count(json, "reports", fault.played.reports)?;
    put_count(json, "events", fault.played.events)?;
    put_count(json, "refusals", refusals_of(fault))
}

/// Writes what ended a file and what was played of it, as an object.
fn put_end(
    json: &mut Writer,
    fault: &FileFault,
    system: &str,
    words: &str,
) -> Result<(), AllocError>
    requires { words.now ≡ why_text fault.now.why ++ system.now }
    ensures tokens { OnOk result (json.new.tokens ≡ json.old.tokens ++ end_tokens fault.now system.now) }
    ensures before { json.new.before ≡ json.old.before }
{
    json.begin_object()?;
    put_cause(json, &fault.place, words)?;
    put_played(json, fault)?;
    json.end_object()
}

/// `{"line":N,"ended":"CODE: WORDS","descriptors":..,"reports":..,"events":..,"refusals":..}`, and the end of the line. The
/// system's words stand after the others.
///
/// # Errors
/// Out of memory.
pub fn end_line(alloc: Global, fault: &FileFault, system: &str) -> Result<Vec<u8>, AllocError>
    ensures { IfOk result (λ line. line.items ≡ json_text (end_tokens fault.now system.now)) }
{
    let why = fault.why;
    let words = format!(in alloc; "{why}{system}")?;
    let mut json = Writer::new(Vec::new(alloc));
    match put_end(&mut json, fault, system, words.as_str()) {
        Ok(()) => {
            let mut line = json.into_inner();
            line.push(b'\n')?;
            Ok(line)
        }
        Err(error) => Err(error),
    }
}
