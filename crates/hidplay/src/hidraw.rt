//! Live devices: hidraw nodes of Linux, and what is played as one by `--live`.
//! ```text
//!   /dev/hidraw0 --> /sys/class/hidraw/hidraw0/device/report_descriptor --> the descriptor
//!                --> read, a report each --> play_live
//! ```

use hid_recording::{LiveDevice, Received};
use std::alloc::Global;
use std::fs::{self, FileType};
use std::io::{self, ErrorKind, Read};
use std::os::unix::fs::FileTypeExt;
use std::time::SystemTime;

/// How often a read is tried again that was interrupted.
const MAX_TRIES: u32 = 1_000_000;

/// The error of a read where the device is gone (EIO of Linux).
const GONE: i32 = 5;

/// What the names of nodes begin with, before their number.
const NODE: &str = "hidraw";

/// The folder of nodes.
const FOLDER: &str = "/dev/";

/// Whether a name is `hidraw` and digits.
fn is_node(name: &str) -> bool {
    match name.strip_prefix(NODE) {
        Some(number) => !number.is_empty() && number.bytes().all(|byte| byte.is_ascii_digit()),
        None => false,
    }
}

/// The name of a hidraw node: `hidraw0` of `/dev/hidraw0`, or of a link to it. None where the file is no such node.
pub fn node_of(rt: &HostRuntime, name: &str, file_type: FileType) -> Option<String> {
    if !file_type.is_char_device() {
        return None;
    }
    let path = fs::canonicalize(rt, name).ok()?;
    let node = path.as_path().file_name()?;
    if !is_node(node) {
        return None;
    }
    String::from_str(rt.alloc(), node).ok()
}

/// Whether the system may have a descriptor for a file that is played as a device: a hidraw node under `/dev`, a link to one, or
/// `hidraw` and digits alone. So a name that leaves the system's folder is none, and neither is standard input. A file that isn't
/// there is refused later.
pub fn may_have_descriptor(rt: &HostRuntime, name: &str) -> bool {
    if name == "-" {
        return false;
    }
    if is_node(name) {
        return true;
    }
    match fs::canonicalize(rt, name) {
        Ok(path) => match path
            .as_path()
            .to_str()
            .and_then(|text| text.strip_prefix(FOLDER))
        {
            Some(node) => is_node(node),
            None => false,
        },
        Err(_) => true,
    }
}

/// The file in which the system has the report descriptor of a node.
///
/// # Errors
/// Out of memory.
pub fn descriptor_name(
    alloc: Global,
    system: &str,
    node: &str,
) -> Result<String, std::alloc::AllocError> {
    format!(in alloc; "{system}/{node}/device/report_descriptor")
}

/// A file or standard input, of which each read is a report, read by the system's clock.
#[derive(Drop)]
pub struct ReportFile<'a, R> {
    rt: &'a HostRuntime,
    file: R,
    /// Why it can't be read, if that is known.
    pub failure: Option<io::Error>,
    /// The time that the clock gave last.
    time: u64,
}

impl<'a, R: Read> ReportFile<'a, R> {
    /// No report was read yet.
    pub fn new(rt: &'a HostRuntime, file: R) -> Self {
        ReportFile {
            rt,
            file,
            failure: None,
            time: 0,
        }
    }

    /// The time, in nanoseconds since 1970; if the clock can't be read, what it gave last.
    fn now(&mut self) -> u64 {
        if let Ok(now) = SystemTime::now(self.rt) {
            if let Ok(since) = now.duration_since(SystemTime::UNIX_EPOCH) {
                self.time = u64::try_from(since.as_nanos()).unwrap_or(self.time);
            }
        }
        self.time
    }
}

impl<R: Read> LiveDevice for ReportFile<'_, R> {
    fn receive(&mut self, buffer: &mut [u8]) -> Received {
        for _ in 0..MAX_TRIES {
            match self.file.read(buffer) {
                Ok(0) => return Received::Gone { time: self.now() },
                Ok(length) => {
                    return Received::Report {
                        length,
                        time: self.now(),
                    };
                }
                Err(error) if error.kind() == ErrorKind::Interrupted => {}
                Err(error) if error.raw_os_error() == Some(GONE) => {
                    return Received::Gone { time: self.now() };
                }
                Err(error) => {
                    self.failure = Some(error);
                    return Received::Failed;
                }
            }
        }
        Received::Failed
    }
}
