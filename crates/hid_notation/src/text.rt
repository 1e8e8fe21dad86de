//! Numbers in hex and usages, as they are shown among other words.

ghost use Rattle.std.specs.Prelude.{Some};
ghost use Rattle.hid_notation.specs.Text.{hex_text, usage_text};

use hid_layout::Usage;
use std::fmt;

/// A number in upper-case hex, of two digits at least.
#[derive(Clone, Copy)]
pub struct HexText(pub u16);

impl fmt::Display for HexText {
    ghost output = { λ shown. Some (hex_text shown.0) };

    fn fmt<W: fmt::Write>(&self, f: &mut fmt::Formatter<W>) -> fmt::Result {
        let HexText(number) = *self;
        write!(f, "{number:02X}")
    }
}

/// A usage, as page and ID: `01:30`.
#[derive(Clone, Copy)]
pub struct UsageText(pub Usage);

impl fmt::Display for UsageText {
    ghost output = { λ shown. Some (usage_text shown.0) };

    fn fmt<W: fmt::Write>(&self, f: &mut fmt::Formatter<W>) -> fmt::Result {
        let page = HexText(self.0.page);
        let id = HexText(self.0.id);
        write!(f, "{page}:{id}")
    }
}
