//! The captures of files, a line for each frame, in the columns of `tools/compare/tshark-lines`.

use hid_capture::{Content, Tracker};
use std::alloc::Global;
use std::io::{Read, Write};
use std::{env, fs};
use usb_capture::{Capture, Direction, Frame, Transfer, Urb, UrbEvent, read_urb};

/// How often a file is read at most.
const MAX_READS: u32 = 1_000_000;

/// Lines can't be printed, for whatever reason: the program fails.
#[derive(Drop)]
pub struct Unprinted;

/// Prints the lines of each file that the arguments name.
pub fn print_files(rt: &HostRuntime) -> Result<(), Unprinted> {
    let alloc = rt.alloc();
    let args = env::args(rt).map_err(|_| Unprinted)?;
    let words: Vec<String> = args.collect(alloc).map_err(|_| Unprinted)?;
    for (index, word) in words.iter().enumerate() {
        if index > 0 {
            let mut text = String::new(alloc);
            add_file(rt, &mut text, word)?;
            print!(rt; "{text}").map_err(|_| Unprinted)?;
        }
    }
    Ok(())
}

/// Appends the lines of a file.
fn add_file(rt: &HostRuntime, text: &mut String, name: &str) -> Result<(), Unprinted> {
    writeln!(text, "{name}").map_err(|_| Unprinted)?;
    let mut file = fs::open(rt, name).map_err(|_| Unprinted)?;
    let mut lines = Lines {
        capture: Capture::new(rt.alloc()),
        tracker: Tracker::new(rt.alloc()),
        count: 0,
    };
    let mut piece = [0u8; 4096];
    for _ in 0..MAX_READS {
        let count = file.read(&mut piece).map_err(|_| Unprinted)?;
        if count == 0 {
            return lines.end(text);
        }
        lines.add_piece(text, &piece[..count])?;
    }
    Err(Unprinted)
}

/// A capture, what is known of the HID devices in it, and how many frames came.
#[derive(Drop)]
struct Lines {
    capture: Capture,
    tracker: Tracker,
    count: u64,
}

impl Lines {
    /// Appends the lines of the frames that a piece completes.
    fn add_piece(&mut self, text: &mut String, piece: &[u8]) -> Result<(), Unprinted> {
        let mut rest = piece;
        for _ in 0..piece.len() {
            let Ok(taken) = self.capture.take(rest) else {
                return Err(Unprinted);
            };
            rest = rest.get(taken..).unwrap_or(&[]);
            if let Some(frame) = self.capture.frame() {
                self.count = self.count.saturating_add(1);
                add_line(text, &mut self.tracker, self.count, &frame)?;
            }
            if rest.is_empty() {
                break;
            }
        }
        Ok(())
    }

    /// Appends what ends the capture early.
    fn end(&self, text: &mut String) -> Result<(), Unprinted> {
        match self.capture.finish() {
            Ok(()) => Ok(()),
            Err(fault) => writeln!(text, "{fault}").map_err(|_| Unprinted),
        }
    }
}

/// Appends a frame: its number, time, captured length and length, its URB, and what that says of HID devices.
fn add_line(
    text: &mut String,
    tracker: &mut Tracker,
    number: u64,
    frame: &Frame<'_>,
) -> Result<(), Unprinted> {
    let time = frame.time.unwrap_or(0);
    let seconds = time / 1_000_000_000;
    let nanoseconds = time % 1_000_000_000;
    write!(text, "{number} {seconds}.{nanoseconds:09}").map_err(|_| Unprinted)?;
    let captured = frame.bytes.len();
    write!(text, " {captured} {}", frame.original_length).map_err(|_| Unprinted)?;
    match read_urb(frame) {
        Ok(urb) => {
            add_urb(text, &urb)?;
            let content = tracker.take(&urb).map_err(|_| Unprinted)?;
            add_content(text, content)?;
        }
        Err(fault) => write!(text, " {fault}").map_err(|_| Unprinted)?,
    }
    writeln!(text).map_err(|_| Unprinted)
}

/// The number that usbmon and USBPcap have for a type of transfer.
fn number_of(transfer: Transfer) -> u8 {
    match transfer {
        Transfer::Isochronous => 0,
        Transfer::Interrupt => 1,
        Transfer::Control => 2,
        Transfer::Bulk => 3,
    }
}

/// What came of a URB.
fn word_of(event: UrbEvent) -> &'static str {
    match event {
        UrbEvent::Submitted => "submitted",
        UrbEvent::Completed => "completed",
        UrbEvent::Stalled => "stalled",
        UrbEvent::Failed { .. } => "failed",
    }
}

/// Appends a URB: its bus, device, endpoint and its address, transfer and event; its SETUP packet; and the
/// data of an interrupt transfer.
fn add_urb(text: &mut String, urb: &Urb<'_>) -> Result<(), Unprinted> {
    let way = match urb.direction {
        Direction::Out => 0u8,
        Direction::In => 128,
    };
    let address = way | urb.endpoint;
    write!(text, " {}.{}", urb.bus, urb.device).map_err(|_| Unprinted)?;
    write!(text, " {address:02x} {}", number_of(urb.transfer)).map_err(|_| Unprinted)?;
    write!(text, " {}", word_of(urb.event)).map_err(|_| Unprinted)?;
    if let Some(setup) = urb.setup {
        add_bytes(text, &setup)?;
    }
    if urb.transfer == Transfer::Interrupt && !urb.payload.is_empty() {
        add_bytes(text, urb.payload)?;
    }
    Ok(())
}

/// Appends what a URB says of HID devices.
fn add_content(text: &mut String, content: Content) -> Result<(), Unprinted> {
    let added = match content {
        Content::Nothing => Ok(()),
        Content::Descriptor { interface } => write!(text, " descriptor {interface}"),
        Content::TruncatedDescriptor => write!(text, " truncated descriptor"),
        Content::TooManyInterfaces => write!(text, " too many interfaces"),
        Content::Report { interface } => write!(text, " report {interface}"),
        Content::TruncatedReport { interface } => write!(text, " truncated report {interface}"),
        Content::Undescribed => write!(text, " undescribed"),
        Content::Unknown => write!(text, " unknown"),
        Content::BootReport => write!(text, " boot report"),
        Content::InterfaceDisconnected { interface } => {
            write!(text, " interface {interface} disconnected")
        }
        Content::DeviceDisconnected { bus, device } => {
            write!(text, " device {bus}.{device} disconnected")
        }
    };
    added.map_err(|_| Unprinted)
}

/// Appends bytes.
fn add_bytes(text: &mut String, bytes: &[u8]) -> Result<(), Unprinted> {
    text.push_str(" ").map_err(|_| Unprinted)?;
    for byte in bytes {
        write!(text, "{byte:02x}").map_err(|_| Unprinted)?;
    }
    Ok(())
}
