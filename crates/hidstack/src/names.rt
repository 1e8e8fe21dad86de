//! Causes, refusals and usages as text: codes, and words.

ghost use Rattle.std.specs.Prelude.{◌≡◌, ◌≤◌, ◌⊎◌, ◌++◌, length, drop, None, IfOk, string_bytes};
ghost use Rattle.hid_report_descriptor.specs.Real.{Explains};
ghost use Rattle.hid_report_descriptor.specs.declared.long_reports.LongReport.{LongReport};
ghost use Rattle.hid_names.specs.Names.{name_of};
ghost use Rattle.hid_notation.specs.Causes.{layout_refusal_text};
ghost use Rattle.hid_notation.specs.Text.{usage_text};
ghost use Rattle.hidstack.specs.declared.status.TheConstants as status;
ghost use Rattle.hidstack.specs.Texts.{TextIsReturned, CauseIsReturned, NameIsReturned, FaultIsReturned, RefusalIsReturned, IsRefusalText, Leaves, UsageIsReturned, WordsAreReturned, no_byte};

use crate::status::{MEMORY, NO_ROOM, NONE, OK};
use hid_layout::{Cause, Layout, LayoutFault, Limits, Usage, long_report};
use hid_names::usage_name;
use hid_notation::{RefusalText, UsageText, layout_words};
use hidstack_session::cause_with;
use std::alloc::{AllocError, Global};

/// Writes a text over the first bytes of a room.
pub(crate) fn put_text(text: &[u8], out: &mut [u8])
    requires { length text.now ≤ length out.old }
    ensures { out.new ≡ text.now ++ drop (length text.now) out.old }
{
    for i in 0..text.len() {
        out[i] = text[i];
    }
}

/// Writes a text where there is room, and its length.
pub(crate) fn write_text(text: &[u8], out: &mut [u8], len: &mut u64) -> u32
    ensures { TextIsReturned text.now out.old result out.new len.new }
{
    *len = text.len() as u64;
    if text.len() > out.len() {
        return NO_ROOM;
    }
    put_text(text, out);
    OK
}

/// The code of a cause: `L10` of 10.
#[unsafe(no_mangle)]
pub extern "C" fn hidstack_cause_text(
    alloc: Global,
    cause: u32,
    out: &mut [u8],
    len: &mut u64,
) -> u32
    ensures { CauseIsReturned cause out.old result out.new len.new }
{
    *len = 0;
    let Some(found) = cause_with(cause) else {
        return NONE;
    };
    match found.to_string(alloc) {
        Ok(text) => write_text(text.as_bytes(), out, len),
        Err(_) => MEMORY,
    }
}

/// A usage, as page and ID in hex: `01:30`.
#[unsafe(no_mangle)]
pub extern "C" fn hidstack_usage_text(
    alloc: Global,
    page: u16,
    id: u16,
    out: &mut [u8],
    len: &mut u64,
) -> u32
    ensures { UsageIsReturned
        (usage_text (record { page = page; id = id })) out.old result out.new len.new }
{
    *len = 0;
    match UsageText(Usage { page, id }).to_string(alloc) {
        Ok(text) => write_text(text.as_bytes(), out, len),
        Err(_) => MEMORY,
    }
}

/// A cause in words: `a Pop without a Push` of 3.
#[unsafe(no_mangle)]
pub extern "C" fn hidstack_cause_words(cause: u32, out: &mut [u8], len: &mut u64) -> u32
    ensures { WordsAreReturned cause out.old result out.new len.new }
{
    *len = 0;
    match cause_with(cause) {
        Some(found) => write_text(layout_words(found).as_bytes(), out, len),
        None => NONE,
    }
}

/// The text of the refusal of a descriptor.
fn refusal_text(alloc: Global, descriptor: &[u8], fault: LayoutFault) -> Result<String, AllocError>
    requires { Explains descriptor.now fault.cause fault.at }
    ensures { IfOk result (λ text. IsRefusalText descriptor.now fault (string_bytes text)) }
{
    let report = long_report(alloc, Limits::Real, descriptor, fault)?;
    RefusalText { fault, report }.to_string(alloc)
}

/// The refusal of a descriptor of no byte, as text.
fn write_no_byte(alloc: Global, out: &mut [u8], len: &mut u64) -> u32
    ensures { TextIsReturned (layout_refusal_text no_byte None) out.old result out.new len.new
        ⊎ Leaves status.MEMORY out.old result out.new len.new }
{
    *len = 0;
    let fault = LayoutFault {
        cause: Cause::Truncated,
        at: 0,
    };
    match (RefusalText {
        fault,
        report: None,
    })
    .to_string(alloc)
    {
        Ok(text) => write_text(text.as_bytes(), out, len),
        Err(_) => MEMORY,
    }
}

/// The one refusal of a descriptor, as text.
fn write_fault(alloc: Global, descriptor: &[u8], out: &mut [u8], len: &mut u64) -> u32
    ensures { FaultIsReturned descriptor.now out.old result out.new len.new }
{
    *len = 0;
    let Err(fault) = Layout::parse_within(alloc, Limits::Real, descriptor) else {
        return NONE;
    };
    if fault.cause.is_memory() {
        return MEMORY;
    }
    match refusal_text(alloc, descriptor, fault) {
        Ok(text) => write_text(text.as_bytes(), out, len),
        Err(_) => MEMORY,
    }
}

/// Why a descriptor is refused, and where: `L15 at 326: Feature report 68 has 20000 bytes, over 16384`.
#[unsafe(no_mangle)]
pub extern "C" fn hidstack_refusal_text(
    alloc: Global,
    descriptor: &[u8],
    out: &mut [u8],
    len: &mut u64,
) -> u32
    ensures { RefusalIsReturned descriptor.now out.old result out.new len.new }
{
    if descriptor.is_empty() {
        return write_no_byte(alloc, out, len);
    }
    write_fault(alloc, descriptor, out, len)
}

/// The name of a usage in the HID Usage Tables: `X`, `Button 1`.
#[unsafe(no_mangle)]
pub extern "C" fn hidstack_usage_name(
    alloc: Global,
    page: u16,
    id: u16,
    out: &mut [u8],
    len: &mut u64,
) -> u32
    ensures { NameIsReturned (name_of page id) out.old result out.new len.new }
{
    *len = 0;
    let Some(name) = usage_name(page, id) else {
        return NONE;
    };
    match name.to_string(alloc) {
        Ok(text) => write_text(text.as_bytes(), out, len),
        Err(_) => MEMORY,
    }
}
