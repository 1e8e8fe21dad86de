//! A reader that keeps why its last read failed, which a run leaves out.

use std::io::{self, Read};

/// A reader, and why its last read failed, if one did.
#[derive(Drop)]
pub struct WatchedReader<R> {
    reader: R,
    pub failure: Option<io::Error>,
}

impl<R: Read> WatchedReader<R> {
    /// No read failed yet.
    pub fn new(reader: R) -> Self {
        WatchedReader {
            reader,
            failure: None,
        }
    }
}

impl<R: Read> Read for WatchedReader<R> {
    fn read(&mut self, buf: &mut [u8]) -> io::Result<usize> {
        let count = self.reader.read(buf);
        if let Err(error) = &count {
            self.failure = Some(*error);
        }
        count
    }
}
