//! Readers and writers that give and take little, or fail, and the codes of what no script shows. Worked out by hand from
//! docs/SCRIPT.md.

use crate::play::{QUIET, TRACED, play};
use hid_script::{Cause, Options, ScriptFault, Summary, fault_line};
use std::alloc::Global;
use std::io;
use std::io::{BufWriter, ErrorKind, Read, Write};
use std::test::Fail;
use test_rows::{holds, none_is_wrong};

/// A script in five lines, the last without its end.
#[derive(Clone, Copy)]
struct Sample {
    options: Options,
    script: &'static str,
    /// What it prints.
    text: &'static str,
    /// Where the text of each of its lines ends.
    ends: [usize; 5],
    /// Where its text begins, and where the text of each line ends that a line feed ends.
    breaks: [usize; 5],
}

/// Two layouts with their values, with both kinds of line ends; and a keyboard whose first report is acknowledged in vain.
#[rattlefmt::skip]
const SAMPLES: [Sample; 2] = [
    Sample {
        options: QUIET,
        script: "layout 05 01 09 30 25 7F 75 08 95 01 81 02\r\nvalues 05\n# 9\nlayout 05 09 09 01 25 01 75 01 95 02 81 02\nvalues 02",
        text: "report input 0 bytes 1\nitem 0 input 0 at 0 8x1 variable 0..127 01:30\nvalue 0.0 5 01:30\nreport input 0 bytes 1\nitem 0 input 0 at 0 1x2 variable 0..1 09:01\nvalue 0.0 0 09:01\nvalue 0.1 1 09:01\n",
        ends: [69, 87, 87, 154, 190],
        breaks: [0, 69, 87, 87, 154],
    },
    Sample {
        options: TRACED,
        script: "device ready keyboard 05 01 09 06 A1 01 05 07 19 E0 29 E7 15 00 25 01 75 01 95 08 81 02 95 01 75 08 81 01 95 05 75 01 05 08 19 01 29 05 91 02 95 01 75 03 91 01 95 06 75 08 15 00 25 65 05 07 19 00 29 65 81 00 C0\npress 1 07:04\npoll 1 ack\npress 1 07:05\npoll 1 clean 2",
        text: "1 poll DATA0 00 00 04 00 00 00 00 00 fresh\n1 down 07:04\n1 poll DATA0 00 00 04 00 00 00 00 00 again\n1 poll DATA1 00 00 04 05 00 00 00 00 fresh\n1 down 07:05\n",
        ends: [0, 0, 56, 56, 155],
        breaks: [0, 0, 0, 56, 56],
    },
];

/// Gives a byte at a time, and an error in place of the byte after n.
#[derive(Drop)]
struct Trickle<'a> {
    bytes: &'a [u8],
    left: usize,
}

impl Read for Trickle<'_> {
    fn read(&mut self, buf: &mut [u8]) -> io::Result<usize> {
        if self.left == 0 {
            return Err(io::Error::from(ErrorKind::Other));
        }
        self.left -= 1;
        match (self.bytes, buf) {
            ([first, rest @ ..], [place, ..]) => {
                *place = *first;
                self.bytes = rest;
                Ok(1)
            }
            _ => Ok(0),
        }
    }
}

/// Takes a byte at a time, and then an error or no byte.
#[derive(Drop)]
struct Narrow {
    taken: Vec<u8>,
    room: usize,
    fails: bool,
}

impl Write for Narrow {
    fn write(&mut self, buf: &[u8]) -> io::Result<usize> {
        let [first, ..] = buf else {
            return Ok(0);
        };
        if self.room == 0 {
            if self.fails {
                return Err(io::Error::from(ErrorKind::Other));
            }
            return Ok(0);
        }
        self.room -= 1;
        self.taken.push(*first)?;
        Ok(1)
    }

    fn flush(&mut self) -> io::Result<()> {
        Ok(())
    }
}

/// Gives a line feed at each read, for ever.
#[derive(Drop)]
struct Endless;

impl Read for Endless {
    fn read(&mut self, buf: &mut [u8]) -> io::Result<usize> {
        match buf {
            [place, ..] => {
                *place = b'\n';
                Ok(1)
            }
            [] => Ok(0),
        }
    }
}

/// Whether a run ended at this line, for this cause.
fn is_fault(end: &Result<Summary, ScriptFault>, line: usize, cause: Cause) -> bool {
    *end == Err(ScriptFault { line, cause })
}

/// Whether so much of a sample's text was taken.
fn is_front(sample: &Sample, taken: &[u8], length: usize) -> bool {
    taken.len() == length && sample.text.as_bytes().starts_with(taken)
}

/// Whether a byte at a time gives the text of a sample.
fn is_little_by_little(alloc: Global, sample: &Sample) -> bool {
    let mut reader = Trickle {
        bytes: sample.script.as_bytes(),
        left: usize::MAX,
    };
    let mut writer = Narrow {
        taken: Vec::new(alloc),
        room: usize::MAX,
        fails: true,
    };
    match play(alloc, &mut reader, &mut writer, sample.options) {
        Ok(summary) => summary.lines == 5 && writer.taken.as_slice() == sample.text.as_bytes(),
        Err(_) => false,
    }
}

/// The first sample whose text it doesn't give.
fn first_otherwise(alloc: Global, samples: &[Sample]) -> Option<usize> {
    for (at, sample) in samples.iter().enumerate() {
        if !is_little_by_little(alloc, sample) {
            return Some(at);
        }
    }
    None
}

#[test]
fn a_byte_at_a_time_at_both_ends_gives_the_same_text(rt: HostRuntime) -> Result<(), Fail> {
    none_is_wrong(first_otherwise(rt.alloc(), &SAMPLES))
}

/// How many lines have ended in the first bytes of a script: as many as line feeds were read.
fn ended_in(script: &[u8], left: usize) -> usize {
    script.iter().take(left).filter(|b| **b == b'\n').count()
}

/// Whether a read that fails after n bytes leaves the text of the lines before.
fn is_left(alloc: Global, sample: &Sample, left: usize) -> bool {
    let mut reader = Trickle {
        bytes: sample.script.as_bytes(),
        left,
    };
    let mut written = Vec::new(alloc);
    let end = play(alloc, &mut reader, &mut written, sample.options);
    let ended = ended_in(sample.script.as_bytes(), left);
    match sample.breaks.get(ended) {
        Some(text) => {
            is_fault(&end, ended + 1, Cause::Read) && is_front(sample, &written, *text)
        }
        None => false,
    }
}

/// The first number of bytes after which it leaves something else.
fn first_not_left(alloc: Global, sample: &Sample) -> Option<usize> {
    for left in 0..=sample.script.len() {
        if !is_left(alloc, sample, left) {
            return Some(left);
        }
    }
    None
}

#[test]
fn a_read_that_fails_leaves_the_text_of_the_lines_before(rt: HostRuntime) -> Result<(), Fail> {
    for sample in &SAMPLES {
        none_is_wrong(first_not_left(rt.alloc(), sample))?;
    }
    Ok(())
}

/// Whether a write that fails, or takes nothing, after n bytes leaves them, and its line is reported.
fn is_taken(alloc: Global, sample: &Sample, room: usize, fails: bool) -> bool {
    let mut reader = sample.script.as_bytes();
    let mut writer = Narrow {
        taken: Vec::new(alloc),
        room,
        fails,
    };
    let end = play(alloc, &mut reader, &mut writer, sample.options);
    let ended = sample.ends.iter().filter(|end| **end <= room).count();
    is_fault(&end, ended + 1, Cause::Write) && is_front(sample, &writer.taken, room)
}

/// The first number of bytes after which it leaves others.
fn first_not_taken(alloc: Global, sample: &Sample) -> Option<usize> {
    for room in 0..sample.text.len() {
        if !is_taken(alloc, sample, room, true) || !is_taken(alloc, sample, room, false) {
            return Some(room);
        }
    }
    None
}

#[test]
fn a_write_that_fails_leaves_what_was_taken(rt: HostRuntime) -> Result<(), Fail> {
    for sample in &SAMPLES {
        none_is_wrong(first_not_taken(rt.alloc(), sample))?;
    }
    Ok(())
}

/// A run into a buffer that nothing else flushes: how it ends.
fn buffered(
    alloc: Global,
    script: &str,
    options: Options,
    writer: &mut BufWriter<Vec<u8>>,
) -> Result<Summary, ScriptFault> {
    let mut reader = script.as_bytes();
    play(alloc, &mut reader, writer, options)
}

/// Whether it gives the text of a sample.
fn is_flushed(alloc: Global, sample: &Sample) -> io::Result<bool> {
    let mut writer = BufWriter::new(alloc, Vec::new(alloc))?;
    let end = buffered(alloc, sample.script, sample.options, &mut writer);
    Ok(end.is_ok() && writer.get_ref().as_slice() == sample.text.as_bytes())
}

#[test]
fn what_a_buffer_holds_is_flushed(rt: HostRuntime) -> Result<(), Fail> {
    for sample in &SAMPLES {
        holds("the text", is_flushed(rt.alloc(), sample)?)?;
    }
    Ok(())
}

/// Whether a script is refused at its second line, after this text.
fn is_refused_after(alloc: Global, script: &str, text: &str) -> io::Result<bool> {
    let mut writer = BufWriter::new(alloc, Vec::new(alloc))?;
    let end = buffered(alloc, script, QUIET, &mut writer);
    Ok(is_fault(&end, 2, Cause::Syntax) && writer.get_ref().as_slice() == text.as_bytes())
}

#[test]
fn what_comes_before_a_fault_is_flushed(rt: HostRuntime) -> Result<(), Fail> {
    let script = "layout 75 08 95 01 81 01\nx\n";
    let text = "report input 0 bytes 1\nitem 0 input 0 at 0 8x1 padding\n";
    holds("the text", is_refused_after(rt.alloc(), script, text)?)
}

/// Whether a buffer that can't be flushed after n bytes is reported at the line where the run stands.
fn is_lost(alloc: Global, sample: &Sample, room: usize) -> io::Result<bool> {
    let mut reader = sample.script.as_bytes();
    let narrow = Narrow {
        taken: Vec::new(alloc),
        room,
        fails: true,
    };
    let mut writer = BufWriter::new(alloc, narrow)?;
    let end = play(alloc, &mut reader, &mut writer, sample.options);
    // One read gives all bytes, so that the fifth line is the one that is read on before the second.
    let line = if room < sample.breaks[4] { 5 } else { 6 };
    Ok(is_fault(&end, line, Cause::Write) && writer.get_ref().taken.len() == room)
}

/// The first number of bytes after which it is reported otherwise.
fn first_not_lost(alloc: Global, sample: &Sample) -> io::Result<Option<usize>> {
    for room in 0..sample.text.len() {
        if !is_lost(alloc, sample, room)? {
            return Ok(Some(room));
        }
    }
    Ok(None)
}

#[test]
fn a_buffer_that_cannot_be_flushed_is_a_fault_where_the_run_stands(
    rt: HostRuntime,
) -> Result<(), Fail> {
    for sample in &SAMPLES {
        none_is_wrong(first_not_lost(rt.alloc(), sample)?)?;
    }
    Ok(())
}

/// Whether a script without end is given up after a million reads.
fn is_given_up(alloc: Global) -> bool {
    let mut written = Vec::new(alloc);
    let end = play(alloc, &mut Endless, &mut written, QUIET);
    is_fault(&end, 1_000_001, Cause::TooManyReads)
}

#[test]
fn a_script_without_end_is_given_up(rt: HostRuntime) -> Result<(), Fail> {
    holds("a million reads", is_given_up(rt.alloc()))
}

/// Causes that no row of tests/scripts shows, and the lines that name them.
const CAUSES: [Cause; 4] = [
    Cause::Read,
    Cause::Write,
    Cause::Memory,
    Cause::TooManyReads,
];

const NAMED: &str = "line 7: X5\nline 7: X6\nline 7: X7\nline 7: X8\n";

/// The lines that name these causes, at line 7.
fn name_all(alloc: Global, causes: &[Cause], text: &mut Vec<u8>) -> Result<(), Fail> {
    for cause in causes {
        let fault = ScriptFault {
            line: 7,
            cause: *cause,
        };
        text.extend_from_slice(&fault_line(alloc, &fault)?)?;
    }
    Ok(())
}

fn are_named(
    alloc: Global,
    causes: &[Cause],
    wanted: &str,
    text: &mut Vec<u8>,
) -> Result<(), Fail> {
    name_all(alloc, causes, text)?;
    holds("the lines", text.as_slice() == wanted.as_bytes())
}

#[test]
fn a_fault_is_named_by_its_line_and_codes(rt: HostRuntime) -> Result<(), Fail> {
    let mut text = Vec::new(rt.alloc());
    are_named(rt.alloc(), &CAUSES, NAMED, &mut text)
}
