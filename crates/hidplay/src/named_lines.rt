//! Lines of JSON that name their file, where there are several.

use std::io::{self, Write};

/// A writer of objects, a line each: after the brace that begins one it writes a member more, if there is one.
#[derive(Drop)]
pub struct NamedLines<'a, W> {
    to: &'a mut W,
    /// The member with its comma, as `"file":"a.hid",`; nothing where lines stay as they are.
    member: &'a [u8],
    /// Whether the next byte begins a line.
    is_start: bool,
}

impl<'a, W: Write> NamedLines<'a, W> {
    /// Lines that get this member.
    pub fn new(to: &'a mut W, member: &'a [u8]) -> Self {
        NamedLines {
            to,
            member,
            is_start: true,
        }
    }
}

impl<W: Write> Write for NamedLines<'_, W> {
    fn write(&mut self, buf: &[u8]) -> io::Result<usize> {
        if self.member.is_empty() {
            return self.to.write(buf);
        }
        if self.is_start
            && let [b'{', ..] = buf
        {
            self.to.write_all(b"{")?;
            self.to.write_all(self.member)?;
            self.is_start = false;
            return Ok(1);
        }
        let end = match buf.iter().position(|byte| *byte == b'\n') {
            Some(at) => at + 1,
            None => buf.len(),
        };
        let count = self.to.write(&buf[..end])?;
        self.is_start = count > 0 && buf.get(count - 1) == Some(&b'\n');
        Ok(count)
    }

    fn flush(&mut self) -> io::Result<()> {
        self.to.flush()
    }
}
