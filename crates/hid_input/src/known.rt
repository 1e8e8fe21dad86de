//! Files that are known by their first bytes, and are no report descriptors.

ghost use Rattle.std.specs.Prelude.{◌≡◌};
ghost use Rattle.std.specs.List.{list_all};
ghost use Rattle.hid_input.specs.Known.{known_file, is_printed, is_written, begins_text};

use std::fmt;

/// How many of the first bytes are looked at for characters.
const FIRST: usize = 8;

/// What a file is that is no report descriptor.
#[derive(Clone, Copy, Debug, PartialEq, Eq)]
pub enum KnownFile {
    /// A capture of pcap or pcapng.
    Capture,
    /// Descriptors of a device or of a configuration (USB 2.0, 9.6).
    UsbDescriptors,
}

impl fmt::Display for KnownFile {
    ghost use Rattle.std.specs.Prelude.{Some};
    ghost use Rattle.hid_input.specs.Known.{known_text};

    ghost output = { λ known. Some (known_text known) };

    fn fmt<W: fmt::Write>(&self, f: &mut fmt::Formatter<W>) -> fmt::Result {
        let words = match *self {
            KnownFile::Capture => "a capture of a bus: hidplay reads it",
            KnownFile::UsbDescriptors => {
                "USB descriptors: /sys/class/hidraw has report descriptors"
            }
        };
        f.write_str(words)
    }
}

/// What a file is by its first bytes, if it is none that has a report descriptor: pcap and pcapng, or descriptors of a device or of a
/// configuration (USB 2.0, 9.6). A descriptor may begin with these bytes too: one that can be read is one.
pub fn known_file(bytes: &[u8]) -> Option<KnownFile>
    ensures { result ≡ known_file bytes.now }
{
    match bytes {
        [0xD4, 0xC3, 0xB2, 0xA1, ..]
        | [0xA1, 0xB2, 0xC3, 0xD4, ..]
        | [0x4D, 0x3C, 0xB2, 0xA1, ..]
        | [0xA1, 0xB2, 0x3C, 0x4D, ..]
        | [0x0A, 0x0D, 0x0D, 0x0A, ..] => Some(KnownFile::Capture),
        [0x12, 0x01, ..] if bytes.len() >= 18 => Some(KnownFile::UsbDescriptors),
        [0x09, 0x02, ..] if bytes.len() >= 18 && bytes[9] == 0x09 && bytes[10] == 0x04 => {
            Some(KnownFile::UsbDescriptors)
        }
        _ => None,
    }
}

/// Whether a byte is a character of ASCII that is printed.
fn is_printed(byte: u8) -> bool
    ensures { result ≡ is_printed byte }
{
    b' ' <= byte && byte <= b'~'
}

/// Whether a byte may stand in text with control characters: a character, white space, ESC, or a zero as UTF-16 has it.
fn is_written(byte: u8) -> bool
    ensures { result ≡ is_written byte }
{
    is_printed(byte) || byte.is_ascii_whitespace() || byte == 0 || byte == 0x1B
}

/// Whether each byte may stand in such text.
fn are_written(bytes: &[u8]) -> bool
    ensures { result ≡ list_all is_written bytes.now }
{
    bytes.iter().all(|byte| is_written(*byte))
}

/// Whether one of the first two bytes is printed, and each of the first eight is of a text. A descriptor may begin so too: one that
/// can be read is one.
pub fn begins_text(bytes: &[u8]) -> bool
    ensures { result ≡ begins_text bytes.now }
{
    if bytes.len() < FIRST {
        return false;
    }
    (is_printed(bytes[0]) || is_printed(bytes[1])) && are_written(&bytes[..FIRST])
}
