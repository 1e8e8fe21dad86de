//! The pieces in which data go (USB 2.0, 8.5.3.2).
ghost use Rattle.std.specs.Prelude.{◌≡◌, ◌≤◌, ◌+◌, length, take};
ghost use Rattle.usb_control.specs.Pieces.{piece_from};

/// In bytes, the largest payload of endpoint 0 (USB 2.0, 5.5.3; our choice of 8, 16, 32 and 64).
pub const MAX_PACKET: usize = 8;

/// At most [`MAX_PACKET`] bytes, from that place on.
pub fn piece_from(bytes: &[u8], start: usize) -> &[u8]
    ensures value { result.now ≡ piece_from bytes.now start }
    ensures short { length result.now ≤ MAX_PACKET }
    ensures within { start ≤ length bytes.now → start + length result.now ≤ length bytes.now }
    ensures none { length bytes.now ≤ start → length result.now ≡ 0 }
{
    let rest = &bytes[start.min(bytes.len())..];
    &rest[..rest.len().min(MAX_PACKET)]
}

/// The bytes, cut to that length.
pub fn cut_to_length(bytes: &[u8], length: usize) -> &[u8]
    ensures { result.now ≡ take length bytes.now }
{
    &bytes[..length.min(bytes.len())]
}
