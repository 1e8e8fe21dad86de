//! What a line says by itself, or the cause for which a script ends there.

ghost use Rattle.std.specs.Prelude.{◌≡◌};
ghost use Rattle.hid_text.specs.Line.{meaning_of};
ghost use Rattle.hid_script.specs.LineOutput.{line_or_cause};

use super::fault::Cause;
use hid_text::{Line, read_line};

/// Reads one line, without its end. No memory is taken.
///
/// # Errors
/// Of several causes the first that is looked for: X2, X1, X3.
pub fn parse_line(line: &[u8]) -> Result<Line, Cause>
    ensures exact { result ≡ line_or_cause (meaning_of line.now) }
{
    match read_line(line) {
        Ok(said) => Ok(said),
        Err(fault) => Err(Cause::from(fault)),
    }
}
