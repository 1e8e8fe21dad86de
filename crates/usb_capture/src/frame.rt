//! A frame, as a capture has it.

ghost use Rattle.std.specs.Prelude.{◌≡◌};
ghost use Rattle.usb_capture.specs.FrameRecord.{frame_record};
ghost use Rattle.usb_capture.specs.Urbs.{is_truncated};

use super::field::ByteOrder;

/// What was captured at one moment.
#[derive(Clone, Copy, Debug)]
pub struct Frame<'a> {
    /// The place of its block in the file, in bytes from 0.
    pub at: u64,
    /// In nanoseconds since 1970. None where its block has no time, or one before 1970 or after 2554.
    pub time: Option<u64>,
    /// The link type, which says what its bytes are: 220 and 189 are usbmon's, 249 is USBPcap's.
    pub link: u16,
    /// The order of the numbers of the capture, and so of usbmon's headers.
    pub order: ByteOrder,
    /// How many bytes it had; only some of them may have been captured.
    pub original_length: u32,
    /// The bytes that were captured.
    pub bytes: &'a [u8],
}

impl<'a> Frame<'a> {
    /// Whether fewer bytes were captured than it had.
    pub fn is_truncated(&self) -> bool
        ensures { result ≡ is_truncated (frame_record self.now) }
    {
        self.bytes.len() < self.original_length as usize
    }
}
