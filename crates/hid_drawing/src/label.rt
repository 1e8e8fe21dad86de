//! What a usage is called.

ghost use Rattle.std.specs.Prelude.{Some};
ghost use Rattle.hid_drawing.specs.Label.{usage_label};

use hid_layout::Usage;
use hid_names::usage_name;
use hid_notation::UsageText;
use std::fmt;

/// The name of a usage, or page and ID where it has none: `Button 1`, `FF00:01`.
#[derive(Clone, Copy)]
pub struct UsageLabel(pub Usage);

impl fmt::Display for UsageLabel {
    ghost output = { λ shown. Some (usage_label shown.0) };

    fn fmt<W: fmt::Write>(&self, f: &mut fmt::Formatter<W>) -> fmt::Result {
        let UsageLabel(usage) = *self;
        match usage_name(usage.page, usage.id) {
            Some(name) => write!(f, "{name}"),
            None => {
                let code = UsageText(usage);
                write!(f, "{code}")
            }
        }
    }
}
