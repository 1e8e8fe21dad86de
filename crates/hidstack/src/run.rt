//! A whole script, as `hidrun` runs it.

ghost use Rattle.std.specs.Prelude.{◌≡◌, [], IfOk, IsErr};
ghost use Rattle.std.specs.Bool.{OnTrue, OnFalse};
ghost use Rattle.hidstack.specs.Texts.{Written};
ghost use Rattle.hidstack.specs.Running.{options_of, fault_line, RunsScript, AnswersRun, PutsWhole, PutsRefused, PutsNone, PutsMemory, RunsWhole, RunsRefused, Misses, RunsOutOfMemory, HasTooLittleRoom};

use crate::names::put_text;
use crate::status::{MEMORY, NO_ROOM, OK, REFUSED};
use hid_script::{Options, ScriptFault, Summary, fault_line, run};
use std::alloc::Global;

/// An option: the layout of each device that is attached.
pub const LAYOUTS: u32 = 1;

/// An option: a line for each poll, and for each try of a transfer.
pub const POLLS: u32 = 2;

/// How a run ended.
#[repr(C)]
#[derive(Clone, Copy)]
pub struct HidRan {
    /// The line that was refused, from 1; 0 where none was.
    pub line: u64,
    /// The length of the script's output in bytes.
    pub length: u64,
    /// The bytes of the line that names the fault.
    pub fault: u64,
}

/// Each option has a bit of its own; the other bits do nothing.
fn options_of(options: u32) -> Options
    ensures { result ≡ options_of options }
{
    Options {
        layout: options / LAYOUTS % 2 == 1,
        trace: options / POLLS % 2 == 1,
    }
}

/// Runs a script over a text of its own.
fn run_script(
    alloc: Global,
    script: &[u8],
    options: Options,
    told: &mut Vec<u8>,
) -> Result<Summary, ScriptFault>
    requires { told.old.items ≡ [] }
    ensures { RunsScript options script.now told.new.items result }
{
    let mut reader = script;
    run(alloc, &mut reader, told, options)
}

/// Writes both texts, where there is room for both.
fn put_both(told: &[u8], text: &[u8], out: &mut [u8], fault: &mut [u8]) -> bool
    ensures done { OnTrue result (Written told.now out.old out.new × Written text.now fault.old fault.new) }
    ensures missed { OnFalse result ((out.new ≡ out.old) × (fault.new ≡ fault.old)
        × HasTooLittleRoom told.now out.old text.now fault.old) }
{
    if told.len() > out.len() || text.len() > fault.len() {
        return false;
    }
    put_text(told, out);
    put_text(text, fault);
    true
}

/// The line that names a run's fault, and no text where all lines were run.
fn text_of(alloc: Global, ended: &Result<Summary, ScriptFault>) -> Result<Vec<u8>, ScriptFault>
    ensures text { IfOk result (λ text. text.items ≡ fault_line ended.now) }
    ensures memory { IsErr result → IsErr ended.now }
{
    match ended {
        Ok(_) => Ok(Vec::new(alloc)),
        Err(wrong) => fault_line(alloc, wrong),
    }
}

/// Writes the output of a run and the line that names its fault, and returns how it ended. Only a run that ended early takes
/// memory here.
fn put_run(
    alloc: Global,
    ended: &Result<Summary, ScriptFault>,
    told: &[u8],
    out: &mut [u8],
    fault: &mut [u8],
    ran: &mut HidRan,
) -> u32
    ensures status { AnswersRun result }
    ensures whole { result ≡ OK → PutsWhole ended.now told.now out.old out.new fault.old fault.new ran.new }
    ensures refused { result ≡ REFUSED → PutsRefused ended.now told.now out.old out.new fault.old fault.new ran.new }
    ensures missed { result ≡ NO_ROOM → PutsNone ended.now told.now out.old out.new fault.old fault.new ran.new }
    ensures memory { result ≡ MEMORY → PutsMemory ended.now out.old out.new fault.old fault.new ran.new }
{
    *ran = HidRan {
        line: 0,
        length: 0,
        fault: 0,
    };
    let Ok(text) = text_of(alloc, ended) else {
        return MEMORY;
    };
    ran.length = told.len() as u64;
    ran.fault = text.len() as u64;
    if let Err(wrong) = ended {
        ran.line = wrong.line as u64;
    }
    if !put_both(told, &text, out, fault) {
        return NO_ROOM;
    }
    if ended.is_ok() { OK } else { REFUSED }
}

/// Runs the script, and writes its output over the first bytes of `out`, and the line that names its fault over the
/// first of `fault`.
#[unsafe(no_mangle)]
pub extern "C" fn hidstack_run(
    alloc: Global,
    script: &[u8],
    options: u32,
    out: &mut [u8],
    fault: &mut [u8],
    ran: &mut HidRan,
) -> u32
    ensures status { AnswersRun result }
    ensures whole { result ≡ OK → RunsWhole (options_of options) script.now out.old out.new
        fault.old fault.new ran.new }
    ensures refused { result ≡ REFUSED → RunsRefused (options_of options) script.now out.old out.new
        fault.old fault.new ran.new }
    ensures missed { result ≡ NO_ROOM → Misses (options_of options) script.now out.old out.new
        fault.old fault.new ran.new }
    ensures memory { result ≡ MEMORY → RunsOutOfMemory (options_of options) script.now out.old out.new
        fault.old fault.new ran.new }
{
    let mut told = Vec::new(alloc);
    let ended = run_script(alloc, script, options_of(options), &mut told);
    put_run(alloc, &ended, &told, out, fault, ran)
}
