//! Text to a writer, in pieces. A write may take some of the bytes, or none.

ghost use Rattle.std.specs.Prelude.{◌≡◌, [], OnOk, IfErr, string_bytes};
ghost use Rattle.std.specs.Io.KnownBytes.{Appends};
ghost use Rattle.hid_text.specs.Output.{AppendsPrefix};
ghost use Rattle.hid_recording.specs.Pieces.{Flows};

use super::fault::TextFault;
use std::io::Write;

/// So many bytes of text are written before more is made (our choice).
const LONG: usize = 32_768;

/// Writes the text if it is long, and clears it. It stands at the end of a line, since only whole lines are written before a line
/// of the recording is played to its end.
///
/// # Errors
/// R9 if the writer fails.
#[inline(always)]
pub fn write_long<W: Write>(text: &mut String, writer: &mut W) -> Result<(), TextFault>
    ensures { Flows (W.contents writer.old) (W.contents writer.new) (string_bytes text.old) [] result
        (string_bytes text.new) }
{
    if text.len() < LONG {
        return Ok(());
    }
    write_lines(text, writer)
}

/// Writes the text and clears it, where it ends with a line.
fn write_lines<W: Write>(text: &mut String, writer: &mut W) -> Result<(), TextFault>
    ensures { Flows (W.contents writer.old) (W.contents writer.new) (string_bytes text.old) [] result
        (string_bytes text.new) }
{
    let [.., b'\n'] = text.as_bytes() else {
        return Ok(());
    };
    write_text(writer, text.as_bytes())?;
    text.clear();
    Ok(())
}

/// Writes all the bytes. At a fault a prefix of them is written.
/// `hid_script` has one of its own, over a trait of that crate: its contract also names what each call answered.
///
/// # Errors
/// R9 if the writer fails, or takes no byte; never for no bytes.
pub fn write_text<W: Write>(writer: &mut W, text: &[u8]) -> Result<(), TextFault>
    ensures ok { OnOk result (Appends (W.contents writer.old) (W.contents writer.new) text.now) }
    ensures cause { IfErr result (λ fault. fault ≡ TextFault.Write) }
    ensures nothing { text.now ≡ [] → result ≡ Ok tt }
    ensures prefix { AppendsPrefix (W.contents writer.old) (W.contents writer.new) text.now }
{
    let mut rest = text;
    while !rest.is_empty() {
        match writer.write(rest) {
            Ok(0) | Err(_) => return Err(TextFault::Write),
            Ok(n) => rest = &rest[n..],
        }
    }
    Ok(())
}
