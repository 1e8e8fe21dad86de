//! Where lines come from: standard input, files, and the bodies of `repeat`.

use command_words::FileName;
use hid_script::Sink;
use lab_lines::Body;
use lab_session::{Ahead, Bench, Incoming, LabCause, LabFault, RunEnd, Watch, run};
use std::alloc::Global;
use std::fs::File;
use std::io::{self, Stdin};

/// Who gives lines.
#[derive(Drop)]
enum Lines {
    Input(Incoming<Stdin>),
    File(Incoming<File>),
    Repeated(Body),
}

/// A source of lines: a script, a file that is included, or a body. Its lines are counted for those who read a fault.
#[derive(Drop)]
pub struct LabSource {
    lines: Lines,
    ahead: Ahead,
    /// As it was named; of a body that of the file in which it stands.
    pub name: String,
    /// The line of its file before the first one of a body.
    before: usize,
    /// How often a body comes; 0 of another source.
    rounds: u16,
    /// The line that ended the run of the source, of those that it gave; 0 before.
    ended: usize,
}

impl LabSource {
    /// The lines of standard input.
    pub fn input(alloc: Global, reader: Stdin, name: String) -> Self {
        LabSource {
            lines: Lines::Input(Incoming::new(alloc, reader)),
            ahead: Ahead::new(alloc, true),
            name,
            before: 0,
            rounds: 0,
            ended: 0,
        }
    }

    /// The lines of a file.
    pub fn file(alloc: Global, reader: File, name: String) -> Self {
        LabSource {
            lines: Lines::File(Incoming::new(alloc, reader)),
            ahead: Ahead::new(alloc, true),
            name,
            before: 0,
            rounds: 0,
            ended: 0,
        }
    }

    /// The lines of a body, which come so often and stand in a file after this line.
    pub fn body(alloc: Global, body: Body, rounds: u16, name: String, before: usize) -> Self {
        LabSource {
            lines: Lines::Repeated(body),
            ahead: Ahead::new(alloc, false),
            name,
            before,
            rounds,
            ended: 0,
        }
    }

    /// Whether it is the body of a `repeat`.
    pub fn is_body(&self) -> bool {
        matches!(&self.lines, Lines::Repeated(_))
    }

    /// What the system said where a read of a file failed; none of standard input.
    pub fn file_failure(&self) -> Option<io::Error> {
        match &self.lines {
            Lines::File(incoming) => incoming.failure(),
            Lines::Input(_) | Lines::Repeated(_) => None,
        }
    }

    /// The line of its file at which the source stands when it has given so many lines.
    pub fn number(&self, lines: usize) -> usize {
        match &self.lines {
            Lines::Input(_) | Lines::File(_) => lines,
            Lines::Repeated(body) => {
                let each = (body.lines() as usize).max(1);
                self.before
                    .saturating_add(lines.saturating_sub(1) % each)
                    .saturating_add(1)
            }
        }
    }

    /// Of a body that comes several times the round at which it stands, and how many there are.
    pub fn round(&self) -> Option<(usize, u16)> {
        let Lines::Repeated(body) = &self.lines else {
            return None;
        };
        if self.rounds < 2 {
            return None;
        }
        let each = (body.lines() as usize).max(1);
        let lines = if self.ended > 0 {
            self.ended
        } else {
            self.ahead.lines()
        };
        Some((lines.saturating_sub(1) / each + 1, self.rounds))
    }

    /// The line of its file that was taken last.
    pub fn last_number(&self) -> usize {
        self.number(self.ahead.lines())
    }

    /// Whether nothing of it was read.
    pub fn is_unread(&self) -> bool {
        self.ahead.lines() == 0 && self.ahead.line_at(1).is_empty()
    }

    /// How often a body comes; 0 of another source.
    pub fn rounds(&self) -> u64 {
        u64::from(self.rounds)
    }

    /// The name of the file as it is printed.
    pub fn shown_name(&self) -> FileName<'_> {
        FileName(if self.name.is_empty() {
            "standard input"
        } else {
            self.name.as_str()
        })
    }

    /// How many lines were taken.
    pub fn taken(&self) -> usize {
        self.ahead.lines()
    }

    /// The line that was refused.
    pub fn refused_line(&self, fault: &LabFault) -> &[u8] {
        self.ahead.line_at(fault.line)
    }

    /// Carries out the lines, up to the first that asks for something.
    ///
    /// # Errors
    /// The first line that is not carried out.
    pub fn run<W: Sink, T: Watch>(
        &mut self,
        bench: &mut Bench,
        writer: &mut W,
        watch: &mut T,
    ) -> Result<RunEnd, LabFault> {
        let end = match &mut self.lines {
            Lines::Input(input) => run(bench, &mut self.ahead, input, writer, watch),
            Lines::File(file) => run(bench, &mut self.ahead, file, writer, watch),
            Lines::Repeated(body) => run(bench, &mut self.ahead, body, writer, watch),
        };
        if let Err(fault) = &end {
            self.ended = fault.line;
        }
        end
    }

    /// Takes the next line. Whether there is one.
    ///
    /// # Errors
    /// X2, X5 to X8, at the line that was to come.
    pub fn next_line<W: Sink>(
        &mut self,
        line: &mut Vec<u8>,
        writer: &mut W,
    ) -> Result<bool, LabFault> {
        match &mut self.lines {
            Lines::Input(input) => self.ahead.next_line(input, line, writer),
            Lines::File(file) => self.ahead.next_line(file, line, writer),
            Lines::Repeated(body) => self.ahead.next_line(body, line, writer),
        }
    }
}

/// The name of a file that another file names: in the folder of that file, unless it begins with `/`.
///
/// # Errors
/// X7.
pub fn name_beside(alloc: Global, of: &str, name: &str) -> Result<String, LabCause> {
    let mut path = String::new(alloc);
    if !name.starts_with('/') {
        if let Some(slash) = of.rfind('/') {
            path.push_str(&of[..slash + 1])?;
        }
    }
    path.push_str(name)?;
    Ok(path)
}
