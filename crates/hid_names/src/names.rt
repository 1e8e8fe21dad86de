//! The name of a usage.

ghost use Rattle.std.specs.Prelude.{◌≡◌, Some};
ghost use Rattle.std.specs.Option.{option_map};
ghost use Rattle.hid_names.specs.Names.{name_of_value, name_of, name_text};

use crate::pages::in_page;
use std::fmt;

/// Buttons are numbered by their ID (HID Usage Tables, 12).
const BUTTON: u16 = 0x09;

/// Instances are numbered by their ID (HID Usage Tables, 13).
const ORDINAL: u16 = 0x0A;

/// What a usage is called.
#[derive(Clone, Copy, Debug, PartialEq, Eq)]
pub enum UsageName {
    /// A name of the tables.
    Known(&'static str),
    /// `Button 5`.
    Button(u16),
    /// `Instance 5`.
    Instance(u16),
}

impl fmt::Display for UsageName {
    ghost output = { λ name. Some (name_text (name_of_value name)) };

    fn fmt<W: fmt::Write>(&self, f: &mut fmt::Formatter<W>) -> fmt::Result {
        match *self {
            UsageName::Known(name) => write!(f, "{name}"),
            UsageName::Button(number) => write!(f, "Button {number}"),
            UsageName::Instance(number) => write!(f, "Instance {number}"),
        }
    }
}

/// What a usage is called, if it has a name.
#[tactic(auto, unfolding(crate::specs::Names::name_of))]
pub fn usage_name(page: u16, id: u16) -> Option<UsageName>
    ensures name { option_map (λ name. name_of_value name) result ≡ name_of page id }
{
    if page == BUTTON && id != 0 {
        return Some(UsageName::Button(id));
    }
    if page == ORDINAL && id != 0 {
        return Some(UsageName::Instance(id));
    }
    match in_page(page, id) {
        Some(name) => Some(UsageName::Known(name)),
        None => None,
    }
}
