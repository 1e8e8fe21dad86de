//! The lines of the test bench, and what each new one is in lines of a script (docs/LAB.md).
//! ```text
//!                    read_lab_line
//!   line, up to 16,384 bytes --> LabLine, or Unread: the word, and what was expected there
//!
//!   poll 1 ack                     Short: a line of a script, as hid_text reads it
//!   press 1 Keyboard_A             Change: of a control by its name, found by find_control in a layout
//!   press 1 0D:42#2                Change: of the second control with this usage
//!   device ready plain @pad.hid    DeviceFile: the descriptor is in a file
//!   type 1 "Hi"                    Type: keys_of gives the keys of a US keyboard
//!   lose 1 5 7                     Lose: Losses gives the fate of each poll and try
//!   repeat 3 .. end                Body: the lines between, and the text that comes of them
//! ```
//! The rule to know: a line that `hidrun` reads says the same here. A line is read alone, and no memory is taken.
//!
//! The promise: a control that is named is the n-th with the usage or the name, in the order of the layout (`find_control`);
//! a character is typed by the key of the US table (`key_of`); a fate follows from the generator's word (`fate_of_word`); the text of
//! a body is that of its lines, so often (`text_to_come`).
#![tactic(auto)]

mod body;
mod control_name;
mod diagnosis;
mod expected;
mod hex_words;
mod keys;
mod lab_line;
mod losses;
mod names;
mod ranges;
mod typing;

pub use body::{Added, Body, MAX_BODY};
pub use control_name::{ControlName, find_control, read_control_name};
pub use diagnosis::diagnose;
pub use expected::Expected;
pub use hex_words::read_hex;
pub use keys::{Key, LEFT_SHIFT, key_of};
pub use lab_line::{
    LabLine, MAX_INCLUDES, MAX_LAB_LINE, MAX_REPEATS, Unread, begins_line_of_hidrun, read_lab_line,
    read_longer,
};
pub use losses::{Losses, fate_of_word};
pub use names::{is_any_name, is_name_of};
pub use typing::TypedText;
