//! Texts and readers, line by line.

ghost use Rattle.std.specs.Prelude.{◌≡◌, ℕ, ◌+◌, ◌-◌, ◌^◌, ◌<◌, ◌≤◌, ◌++◌, List, [], All, IfOk, IfErr, IfSome, IfNone, IsTrue, Some, Ok};
ghost use Rattle.std.specs.Option.{option_map};
ghost use Rattle.std.specs.Str.Lines.{lines, strip_carriage_return};
ghost use Rattle.hid_script.specs.Interpreter.{session_of};
ghost use Rattle.hid_text.specs.declared.line.Line.TheVariants as Line;
ghost use Rattle.hid_text.specs.Line.{meaning_of};
ghost use Rattle.hid_text.specs.Lines.{IsUnbroken};
ghost use Rattle.lab_session.specs.Bench.{moment_of};
ghost use Rattle.lab_session.specs.Printed.{IsPlain};
ghost use Rattle.lab_session.specs.Ahead.{unread};
ghost use Rattle.lab_session.specs.Scripts.{AheadRan, IsScripts, IsUndrawn, Leaves, LineRan, LinesRan, RunsAsScript, RunsFed};
ghost use Rattle.lab_session.specs.Asking.{asked_said};
ghost use Rattle.lab_session.specs.Calls.{EndsAhead, EndsLines, EndsRun};
ghost use Rattle.lab_session.specs.Carrying.{AheadLines, AsksLast, CameLines, CarriesLine, FedLines, RanLines, RefusesLine};
ghost use Rattle.lab_session.specs.Feeds.{need_said};

use super::ahead::Ahead;
use super::asked::Asked;
use super::bench::Bench;
use super::fault::LabCause;
use super::feed::Feed;
use super::need::Need;
use super::watch::Watch;
use hid_script::{Cause, Sink, Summary};
use hid_text::{says_nothing, split_line};

/// How many lines a source has at most.
pub const MAX_LINES: usize = 100_000_000;

/// The most bytes of a comment that is known by its first byte.
const MAX_COMMENT: usize = 1024;

/// How many reads a run makes at most.
pub const MAX_READS: u64 = 1 << 40;

/// Why a text is not carried out to its end.
#[derive(Clone, Copy, Debug, PartialEq, Eq)]
pub struct LabFault {
    /// The line that is not carried out, from 1.
    pub line: usize,
    /// Why.
    pub cause: LabCause,
}

/// What came of a text.
#[derive(Clone, Copy)]
pub enum Ran<'a> {
    /// All lines were carried out.
    All(Summary),
    /// A line asks for what the bench doesn't have.
    Asks {
        /// What it asks for.
        asked: Asked<'a>,
        /// Which line it is, from 1. Those before it were carried out.
        line: usize,
        /// The lines after it.
        rest: &'a [u8],
    },
}

/// What came of a run.
#[derive(Drop)]
pub enum RunEnd {
    /// All lines were carried out.
    All(Summary),
    /// A line asks for what the bench doesn't have. Those before it were carried out.
    Asks(Need),
}

/// What came of the lines that end in a text.
#[derive(Clone, Copy)]
pub(crate) enum Done<'a> {
    /// All were carried out.
    Lines {
        /// How many there were, with those before the text.
        lines: usize,
        /// What stands after the last line feed.
        rest: &'a [u8],
    },
    /// A line asks for what the bench doesn't have.
    Asks {
        /// What it asks for.
        asked: Asked<'a>,
        /// Which line it is, from 1.
        lines: usize,
        /// What stands after it.
        rest: &'a [u8],
    },
}

/// A line without the one carriage return at its end, if it has one.
pub(crate) fn without_return(line: &[u8]) -> &[u8]
    ensures { result.now ≡ strip_carriage_return line.now }
{
    match line {
        [shorter @ .., b'\r'] => shorter,
        _ => line,
    }
}

/// Whether a line that a line feed ended is a comment from its first byte on. Other lines that say nothing are found as they are
/// read.
#[inline(always)] // a few comparisons
#[tactic(auto, using(crate::proofs::NothingLemmas::first_comment))]
fn is_comment(line: &[u8]) -> bool
    ensures { IsTrue result → meaning_of (strip_carriage_return line.now) ≡ Ok Line.Nothing }
{
    line.len() <= MAX_COMMENT && !line.is_empty() && line[0] == b'#'
}

/// Carries out a line, with so many lines before it.
#[inline(always)] // most lines do little
fn run_line<'a, W: Sink>(
    bench: &mut Bench,
    before: usize,
    line: &'a [u8],
    writer: &mut W,
) -> Result<Option<Asked<'a>>, LabFault>
    requires { before < 2 ^ 64 - 1 }
    ensures script { IsPlain bench.old.options → IsUndrawn (moment_of bench.old) → IsScripts line.now
        → LineRan bench.old bench.new (W.contents writer.old) (W.contents writer.new) line.now before
        result }
    ensures carries { IfOk result (λ asked. CarriesLine line.now (option_map asked_said asked) bench.old
        bench.new (W.contents writer.old) (W.contents writer.new)) }
    ensures refused { IfErr result (λ fault. (fault.line ≡ before + 1)
        × RefusesLine line.now fault.cause bench.old bench.new (W.contents writer.old)
        (W.contents writer.new)) }
    ensures calls { EndsLines W.calls writer.old writer.new result }
{
    if says_nothing(line) {
        return Ok(None);
    }
    match bench.line(line, writer) {
        Ok(asked) => Ok(asked),
        Err(cause) => Err(LabFault {
            line: before + 1,
            cause,
        }),
    }
}

/// Carries out a line that a line feed ended, with so many lines before it.
#[inline(always)] // a comment makes no room for what another line does
fn run_whole_line<'a, W: Sink>(
    bench: &mut Bench,
    before: usize,
    line: &'a [u8],
    writer: &mut W,
) -> Result<Option<Asked<'a>>, LabFault>
    requires { before < 2 ^ 64 - 1 }
    ensures script { IsPlain bench.old.options → IsUndrawn (moment_of bench.old)
        → IsScripts (strip_carriage_return line.now)
        → LineRan bench.old bench.new (W.contents writer.old) (W.contents writer.new)
        (strip_carriage_return line.now) before result }
    ensures carries { IfOk result (λ asked. CarriesLine (strip_carriage_return line.now)
        (option_map asked_said asked) bench.old bench.new (W.contents writer.old)
        (W.contents writer.new)) }
    ensures refused { IfErr result (λ fault. (fault.line ≡ before + 1)
        × RefusesLine (strip_carriage_return line.now) fault.cause bench.old bench.new
        (W.contents writer.old) (W.contents writer.new)) }
    ensures calls { EndsLines W.calls writer.old writer.new result }
{
    if is_comment(line) {
        return Ok(None);
    }
    run_line(bench, before, without_return(line), writer)
}

/// All lines were carried out, so many.
fn whole(bench: &Bench, lines: usize) -> Ran<'static>
    ensures { result ≡ Ran.All (record { lines = lines; events = (session_of bench.now.interpreter).events }) }
{
    Ran::All(Summary {
        lines: lines as u64,
        events: bench.events(),
    })
}

/// Carries out what stands after the last line feed, if anything does.
fn run_last<'a, W: Sink>(
    bench: &mut Bench,
    before: usize,
    line: &'a [u8],
    writer: &mut W,
) -> Result<Ran<'a>, LabFault>
    requires room { before < 2 ^ 64 - 1 }
    requires unbroken { IsUnbroken line.now }
    ensures script { IsPlain bench.old.options → IsUndrawn (moment_of bench.old)
        → All IsScripts (lines line.now)
        → RunsAsScript (W.contents writer.old) (W.contents writer.new)
        (session_of bench.old.interpreter) (lines line.now) before result }
    ensures carries { RanLines (lines line.now) before bench.old bench.new (W.contents writer.old)
        (W.contents writer.new) result }
    ensures last { AsksLast before result }
    ensures calls { EndsLines W.calls writer.old writer.new result }
{
    if line.is_empty() {
        return Ok(whole(bench, before));
    }
    match run_line(bench, before, line, writer)? {
        Some(asked) => Ok(Ran::Asks {
            asked,
            line: before + 1,
            rest: b"",
        }),
        None => Ok(whole(bench, before + 1)),
    }
}

/// Carries out the lines that end in a text, with so many lines before it, up to the first that asks for something.
fn run_lines<'a, W: Sink>(
    bench: &mut Bench,
    before: usize,
    text: &'a [u8],
    writer: &mut W,
) -> Result<Done<'a>, LabFault>
    requires { before ≤ 1000000000000 }
    ensures script { IsPlain bench.old.options → IsUndrawn (moment_of bench.old) → (more : List ℕ)
        → All IsScripts (lines (text.now ++ more))
        → LinesRan bench.old bench.new (W.contents writer.old) (W.contents writer.new) text.now
        before more result }
    ensures carries { (more : List ℕ) → CameLines text.now before more bench.old bench.new
        (W.contents writer.old) (W.contents writer.new) result }
    ensures rest { IfOk result (λ done. Leaves text.now before done) }
    ensures calls { EndsLines W.calls writer.old writer.new result }
{
    let mut rest = text;
    let mut count = before;
    while let Some((last, behind)) = split_line(rest) {
        match run_whole_line(bench, count, last, writer) {
            Ok(None) => {}
            Ok(Some(asked)) => {
                return Ok(Done::Asks {
                    asked,
                    lines: count + 1,
                    rest: behind,
                });
            }
            Err(fault) => return Err(fault),
        }
        count += 1;
        rest = behind;
    }
    Ok(Done::Lines { lines: count, rest })
}

/// Carries out the lines of a text, up to the first that asks for what the bench doesn't have: a `repeat`, an `end`, an `include`,
/// or a device with its descriptor in a file.
///
/// # Errors
/// The first line that is not carried out, and why. What was printed before stands.
pub fn run_text<'a, W: Sink>(
    bench: &mut Bench,
    text: &'a [u8],
    writer: &mut W,
) -> Result<Ran<'a>, LabFault>
    // A script of hidrun is carried out as there: this is what `run` of hid_script ensures of such a text.
    ensures script { IsPlain bench.old.options → IsUndrawn (moment_of bench.old)
        → All IsScripts (lines text.now)
        → RunsAsScript (W.contents writer.old) (W.contents writer.new)
        (session_of bench.old.interpreter) (lines text.now) 0 result }
    // Each line of any text is carried out in turn, up to one that asks for something or ends the run.
    ensures carries { RanLines (lines text.now) 0 bench.old bench.new (W.contents writer.old)
        (W.contents writer.new) result }
    // It ends by X6 exactly if a call of the writer failed, and never by X5 or X8, which are of reads.
    ensures calls { EndsLines W.calls writer.old writer.new result }
{
    match run_lines(bench, 0, text, writer)? {
        Done::Lines { lines, rest } => run_last(bench, lines, rest, writer),
        Done::Asks { asked, lines, rest } => Ok(Ran::Asks {
            asked,
            line: lines,
            rest,
        }),
    }
}

/// What a line asks for, which is the last one that was taken.
fn need_of(ahead: &Ahead, asked: Asked<'_>, line: usize) -> Result<Need, LabFault>
    ensures need { IfOk result (λ need. need_said need ≡ asked_said asked.entry) }
    ensures err { IfErr result (λ fault. (fault.line ≡ line)
        × (fault.cause ≡ LabCause.Script Cause.Memory)) }
{
    match Need::of(ahead.alloc(), asked) {
        Ok(need) => Ok(need),
        Err(_) => Err(LabFault {
            line,
            cause: LabCause::Script(Cause::Memory),
        }),
    }
}

/// Carries out the lines that have come whole, up to the first that asks for something.
fn run_ahead<W: Sink>(
    bench: &mut Bench,
    ahead: &mut Ahead,
    writer: &mut W,
) -> Result<Option<Need>, LabFault>
    ensures script { IsPlain bench.old.options → IsUndrawn (moment_of bench.old) → (more : List ℕ)
        → All IsScripts (lines (unread ahead.old ++ more))
        → AheadRan bench.old bench.new (W.contents writer.old) (W.contents writer.new) ahead.old
        ahead.new more result }
    ensures carries { (more : List ℕ) → AheadLines ahead.old ahead.new more bench.old bench.new
        (W.contents writer.old) (W.contents writer.new) result }
    ensures unbroken { IfOk result (λ need. IfNone need (IsUnbroken (unread ahead.new))) }
    ensures few { IfOk result (λ need. IfNone need (ahead.new.lines < 2 ^ 64 - 2)) }
    ensures calls { EndsAhead W.calls writer.old writer.new ahead.new.lines result }
{
    if ahead.lines() > MAX_LINES {
        return Err(ahead.fault(Cause::TooManyReads));
    }
    match run_lines(bench, ahead.lines(), ahead.unread(), writer)? {
        Done::Lines { lines, rest } => {
            let left = rest.len();
            ahead.advance(lines, left);
            Ok(None)
        }
        Done::Asks { asked, lines, rest } => {
            let left = rest.len();
            let need = need_of(ahead, asked, lines)?;
            ahead.advance(lines, left);
            Ok(Some(need))
        }
    }
}

/// Carries out the last line, which no line feed ends.
fn run_rest<W: Sink>(
    bench: &mut Bench,
    ahead: &mut Ahead,
    writer: &mut W,
) -> Result<RunEnd, LabFault>
    requires unbroken { IsUnbroken (unread ahead.old) }
    requires few { ahead.old.lines < 2 ^ 64 - 2 }
    ensures script { IsPlain bench.old.options → IsUndrawn (moment_of bench.old)
        → All IsScripts (lines (unread ahead.old))
        → RunsFed (W.contents writer.old) (W.contents writer.new)
        (session_of bench.old.interpreter) (lines (unread ahead.old)) ahead.old.lines result }
    ensures carries { FedLines (lines (unread ahead.old)) ahead.old.lines ahead.new (Some []) bench.old
        bench.new (W.contents writer.old) (W.contents writer.new) result }
    ensures calls { EndsLines W.calls writer.old writer.new result }
{
    match run_last(bench, ahead.lines(), ahead.unread(), writer)? {
        Ran::All(summary) => Ok(RunEnd::All(summary)),
        Ran::Asks { asked, .. } => {
            let line = ahead.lines() + 1;
            let need = need_of(ahead, asked, line)?;
            ahead.advance(line, 0);
            Ok(RunEnd::Asks(need))
        }
    }
}

/// Carries out the lines of a feed, from those on that were read ahead, up to its end or to the first that asks for what the bench
/// doesn't have. What was printed is handed on before each read that may have to wait.
///
/// # Errors
/// The first line that is not carried out, and why. What was printed before stands.
pub fn run<F: Feed, W: Sink, T: Watch>(
    bench: &mut Bench,
    ahead: &mut Ahead,
    feed: &mut F,
    writer: &mut W,
    watch: &mut T,
) -> Result<RunEnd, LabFault>
    // A script of hidrun is carried out as there, in whatever pieces it comes: this is what `run` of hid_script ensures of it.
    ensures script { IsPlain bench.old.options → IsUndrawn (moment_of bench.old)
        → IfSome (F.remaining feed.old) (λ more. All IsScripts (lines (unread ahead.old ++ more))
        → RunsFed (W.contents writer.old) (W.contents writer.new)
        (session_of bench.old.interpreter) (lines (unread ahead.old ++ more)) ahead.old.lines
        result) }
    // Each line of any bytes is carried out in turn, up to one that asks for something or ends the run. Who goes on with what is left
    // then carries out the lines after it.
    ensures carries { IfSome (F.remaining feed.old) (λ more. FedLines (lines (unread ahead.old ++ more))
        ahead.old.lines ahead.new (F.remaining feed.new) bench.old bench.new (W.contents writer.old)
        (W.contents writer.new) result) }
    // It ends by X5 only if a read failed, by X6 exactly if a call of the writer failed, and by X8 only after so many reads or lines.
    ensures calls { EndsRun F.feeds W.calls feed.old feed.new writer.old writer.new ahead.new.lines result }
{
    for _ in 0..MAX_READS {
        if let Some(need) = run_ahead(bench, ahead, writer)? {
            return Ok(RunEnd::Asks(need));
        }
        watch.tell(ahead.lines(), bench.poll_count());
        if !ahead.read_on(feed, writer)? {
            return run_rest(bench, ahead, writer);
        }
    }
    Err(ahead.fault(Cause::TooManyReads))
}
