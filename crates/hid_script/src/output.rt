//! Bytes to a writer that may take some of them, or none.

ghost use Rattle.std.specs.Prelude.{◌≡◌, [], OnOk, IfErr};
ghost use Rattle.std.specs.Io.KnownBytes.{Appends};
ghost use Rattle.hid_text.specs.Output.{AppendsPrefix};
ghost use Rattle.hid_script.specs.Streams.{EndsText};

use super::fault::Cause;
use super::streams::{Sink, WriteFailed};

/// Writes all bytes of a text. Of a text of no bytes no call is made.
///
/// # Errors
/// X6 at the first write that fails or takes no byte. A prefix of the text is written then.
pub fn write_text<W: Sink>(writer: &mut W, text: &[u8]) -> Result<(), Cause>
    ensures ok { OnOk result (Appends (W.contents writer.old) (W.contents writer.new) text.now) }
    ensures cause { IfErr result (λ cause. cause ≡ Cause.Write) }
    ensures outside { EndsText W.calls writer.old writer.new result }
    ensures nothing { text.now ≡ [] → result ≡ Ok tt }
    ensures prefix { AppendsPrefix (W.contents writer.old) (W.contents writer.new) text.now }
{
    let mut rest = text;
    while !rest.is_empty() {
        match writer.write(rest) {
            Ok(n) => rest = &rest[n..],
            Err(WriteFailed) => return Err(Cause::Write),
        }
    }
    Ok(())
}
