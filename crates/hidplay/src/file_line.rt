//! The line of JSON before the output of a file, if there are several.

ghost use Rattle.std.specs.Prelude.{◌≡◌, ◌++◌, IfOk, OnOk};
ghost use Rattle.hidplay.specs.FileLine.{file_tokens};
ghost use Rattle.hid_recording.specs.EventJson.{json_text};

use json::Writer;
use std::alloc::{AllocError, Global};

/// Writes the name of a file, as an object.
fn put_file(json: &mut Writer, name: &str) -> Result<(), AllocError>
    ensures tokens { OnOk result (json.new.tokens ≡ json.old.tokens ++ file_tokens name.now) }
    ensures before { json.new.before ≡ json.old.before }
{
    json.begin_object()?;
    json.key("file")?;
    json.string(name)?;
    json.end_object()
}

/// `{"file":NAME}`, and the end of the line.
///
/// # Errors
/// Out of memory.
pub fn file_line(alloc: Global, name: &str) -> Result<Vec<u8>, AllocError>
    ensures { IfOk result (λ line. line.items ≡ json_text (file_tokens name.now)) }
{
    let mut json = Writer::new(Vec::new(alloc));
    match put_file(&mut json, name) {
        Ok(()) => {
            let mut line = json.into_inner();
            line.push(b'\n')?;
            Ok(line)
        }
        Err(error) => Err(error),
    }
}
