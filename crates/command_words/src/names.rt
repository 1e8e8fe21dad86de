//! Names and words as they are printed: no character that isn't seen reaches a terminal.

ghost use Rattle.std.specs.Prelude.{◌≡◌, Some};
ghost use Rattle.std.specs.List.{list_any};
ghost use Rattle.command_words.specs.Names.{is_between, is_escaped, character_text, name_text, byte_text, bytes_text, shown_bytes};

use std::fmt;

/// The first and the last of each range of characters that aren't seen by themselves: controls (Cc), format characters (Cf), and the
/// ends of lines and paragraphs (Zl, Zp) (Unicode 15.1, 4.5).
#[rattlefmt::skip]
const UNSEEN: [(u32, u32); 23] = [
    (0x00, 0x1F), (0x7F, 0x9F), (0xAD, 0xAD), (0x600, 0x605), (0x61C, 0x61C), (0x6DD, 0x6DD), (0x70F, 0x70F), (0x890, 0x891),
    (0x8E2, 0x8E2), (0x180E, 0x180E), (0x200B, 0x200F), (0x2028, 0x202E), (0x2060, 0x2064), (0x2066, 0x206F), (0xFEFF, 0xFEFF),
    (0xFFF9, 0xFFFB), (0x110BD, 0x110BD), (0x110CD, 0x110CD), (0x13430, 0x1343F), (0x1BCA0, 0x1BCA3), (0x1D173, 0x1D17A),
    (0xE0001, 0xE0001), (0xE0020, 0xE007F),
];

/// Whether a number is in one of some ranges.
fn is_in(ranges: &[(u32, u32)], number: u32) -> bool
    ensures { result ≡ list_any (λ range. is_between range number) ranges.now }
{
    ranges
        .iter()
        .any(|range| range.0 <= number && number <= range.1)
}

/// Whether a character is printed as its number: it isn't seen by itself, as controls, U+202E, which turns text round, and U+200B.
#[tactic(auto, unfolding(crate::specs::Names::is_escaped))]
pub fn is_escaped(character: char) -> bool
    ensures escaped { result ≡ is_escaped character }
{
    is_in(&UNSEEN, u32::from(character))
}

/// A character of a name, printed as its number where it is escaped.
#[derive(Clone, Copy)]
struct ShownCharacter(char);

impl fmt::Display for ShownCharacter {
    ghost output = { λ shown. Some (character_text shown.0) };

    fn fmt<W: fmt::Write>(&self, f: &mut fmt::Formatter<W>) -> fmt::Result {
        let character = self.0;
        if is_escaped(character) {
            let code = u32::from(character);
            write!(f, "\\x{code:02X}")
        } else {
            write!(f, "{character}")
        }
    }
}

/// A name, in which each character that isn't seen by itself is printed as its number, as in `\x1B[31mred` and `a\x202Eb`. Anything
/// else is printed as it is.
#[derive(Clone, Copy, Debug)]
pub struct FileName<'a>(pub &'a str);

impl fmt::Display for FileName<'_> {
    ghost output = { λ shown. Some (name_text shown.0.now) };

    fn fmt<W: fmt::Write>(&self, f: &mut fmt::Formatter<W>) -> fmt::Result {
        for character in self.0.chars() {
            let shown = ShownCharacter(character);
            write!(f, "{shown}")?;
        }
        Ok(())
    }
}

/// A byte, printed as its number.
#[derive(Clone, Copy)]
struct ShownByte(u8);

impl fmt::Display for ShownByte {
    ghost output = { λ shown. Some (byte_text shown.0) };

    fn fmt<W: fmt::Write>(&self, f: &mut fmt::Formatter<W>) -> fmt::Result {
        let byte = self.0;
        write!(f, "\\x{byte:02X}")
    }
}

/// Bytes, each printed as its number.
#[derive(Clone, Copy)]
struct EscapedBytes<'a>(&'a [u8]);

impl fmt::Display for EscapedBytes<'_> {
    ghost output = { λ shown. Some (bytes_text shown.0.now) };

    fn fmt<W: fmt::Write>(&self, f: &mut fmt::Formatter<W>) -> fmt::Result {
        for byte in self.0 {
            let shown = ShownByte(*byte);
            write!(f, "{shown}")?;
        }
        Ok(())
    }
}

/// Bytes that need not be UTF-8: text is printed as a [`FileName`], and each other byte as its number, as in `caf\xE9.hid`.
#[derive(Clone, Copy, Debug)]
pub struct ShownBytes<'a>(pub &'a [u8]);

impl fmt::Display for ShownBytes<'_> {
    ghost output = { λ shown. Some (shown_bytes shown.0.now) };

    fn fmt<W: fmt::Write>(&self, f: &mut fmt::Formatter<W>) -> fmt::Result {
        for chunk in self.0.utf8_chunks() {
            let text = FileName(chunk.valid());
            let others = EscapedBytes(chunk.invalid());
            write!(f, "{text}{others}")?;
        }
        Ok(())
    }
}
