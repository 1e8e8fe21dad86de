//! A whole script, from a reader to a writer.

ghost use Rattle.std.specs.Prelude.{◌≡◌, ◌≤◌, ◌*◌, [], IfOk};
ghost use Rattle.hid_script.specs.Runs.{AppendsScript, line_of};
ghost use Rattle.hid_script.specs.Place.{AppendsFrom};
ghost use Rattle.hid_script.specs.Script.{place_of};
ghost use Rattle.hid_script.specs.Streams.{ReadsTo, EndsByReads, EndsByWrites, TurnsTo, EndsByTurns};

use super::fault::{Cause, ScriptFault};
use super::interpreter::Interpreter;
use super::options::Options;
use super::script::Script;
use super::streams::{ReadResult, Sink, Source, WriteFailed};
use super::summary::Summary;
use std::alloc::Global;

/// How many reads a run makes at most.
pub const MAX_READS: u32 = 1_000_000;

/// How many bytes a read is asked for.
const PIECE: usize = 4096;

/// Runs the script and writes its output. A read of 0 bytes ends the script, and so does the first line that is refused. An
/// interrupted read is tried again. The output is flushed before each read and at the end, also at a fault, so `writer` may
/// be a buffer.
///
/// # Errors
/// The first fault, at its line. If the last flush fails, X6 at that line, whatever the fault was: else output would be lost
/// without notice. In a script that is accepted that line is the one after the last.
pub fn run<R: Source, W: Sink>(
    alloc: Global,
    reader: &mut R,
    writer: &mut W,
    options: Options,
) -> Result<Summary, ScriptFault>
    ensures ran { AppendsScript options (R.remaining reader.old) (W.contents writer.old)
        (W.contents writer.new) result }
    // What the calls of the reader and of the writer answered: where a read failed it is X5, where a write or a flush
    // failed it is X6, and each read came after a flush.
    ensures reads { EndsByReads R.reads reader.old reader.new result }
    ensures writes { EndsByWrites W.calls writer.old writer.new result }
    ensures turns { EndsByTurns R.reads W.calls reader.old writer.old reader.new writer.new result }
{
    let end = run_lines(alloc, reader, writer, options);
    match writer.flush() {
        Ok(()) => end,
        Err(WriteFailed) => Err(ScriptFault {
            line: line_of(&end),
            cause: Cause::Write,
        }),
    }
}

/// The line at which a run ended: after the last one, where all were run.
fn line_of(end: &Result<Summary, ScriptFault>) -> usize
    requires { IfOk end.now (λ summary. summary.lines ≤ 4096 * 1000000) }
    ensures { result ≡ line_of end.now }
{
    match end {
        Ok(summary) => summary.lines as usize + 1,
        Err(fault) => fault.line,
    }
}

/// Runs a script from its first line on, without the last flush.
fn run_lines<R: Source, W: Sink>(
    alloc: Global,
    reader: &mut R,
    writer: &mut W,
    options: Options,
) -> Result<Summary, ScriptFault>
    ensures ran { AppendsScript options (R.remaining reader.old) (W.contents writer.old)
        (W.contents writer.new) result }
    ensures count { IfOk result (λ summary. summary.lines ≤ 4096 * 1000000) }
    ensures reads { ReadsTo R.reads reader.old reader.new result }
    ensures turns { TurnsTo R.reads W.calls reader.old writer.old reader.new writer.new result }
{
    match Interpreter::new(alloc, options) {
        Ok(interpreter) => {
            let mut script = Script::new(interpreter);
            let end = run_pieces(&mut script, reader, writer);
            drop(script);
            end
        }
        Err(cause) => Err(ScriptFault { line: 1, cause }),
    }
}

/// Runs the lines that the reader gives, without the last flush.
fn run_pieces<R: Source, W: Sink>(
    script: &mut Script,
    reader: &mut R,
    writer: &mut W,
) -> Result<Summary, ScriptFault>
    requires first { script.old.lines ≡ 0 }
    requires none { script.old.buffer.bytes.items ≡ [] }
    ensures ran { AppendsFrom (place_of script.old) (R.remaining reader.old) (W.contents writer.old)
        (W.contents writer.new) result }
    ensures count { IfOk result (λ summary. summary.lines ≤ 4096 * 1000000) }
    ensures reads { ReadsTo R.reads reader.old reader.new result }
    ensures turns { TurnsTo R.reads W.calls reader.old writer.old reader.new writer.new result }
{
    let mut piece = [0u8; PIECE];
    for _ in 0..MAX_READS {
        if writer.flush().is_err() {
            return Err(script.fault(Cause::Write));
        }
        match reader.read(&mut piece) {
            ReadResult::Bytes(0) => return script.finish(writer),
            ReadResult::Bytes(n) => script.feed(&piece[..n], writer)?,
            ReadResult::Interrupted => {}
            ReadResult::Failed => return Err(script.fault(Cause::Read)),
        }
    }
    Err(script.fault(Cause::TooManyReads))
}
