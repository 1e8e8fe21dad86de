//! The descriptor of a file, whatever its shape.

ghost use Rattle.std.specs.Prelude.{◌≡◌, ◌⊎◌, Err, IfErr, IfOk, None, Some, [], false, true};
ghost use Rattle.hid_input.specs.declared.fault.InputCause.TheVariants.{Utf16, NoDescriptor, Memory};
ghost use Rattle.hid_input.specs.Answer.{Reads, names_itself};
ghost use Rattle.hid_input.specs.Descriptor.{IsDescriptor};
ghost use Rattle.hid_input.specs.Faults.{of_text};
ghost use Rattle.hid_input.specs.Named.{HasFault};
ghost use Rattle.hid_input.specs.Plain.{plain, is_bare, without_quotes};
ghost use Rattle.hid_input.specs.Shapes.{IsEmpty, IsTextFile, answer_in, other_answer, plain_answer, record_fault_in, text_answer, text_of};
ghost use Rattle.hid_input.specs.Spelled.{spelled_bytes};
ghost use Rattle.hid_input.specs.Text.{is_text, is_utf16, without_mark};

use crate::dump::{is_dump, read_dump};
use crate::enclosed::read_list;
use crate::fault::{InputCause, InputFault};
use crate::found::{Found, Shape};
use crate::named::{mark_place, read_named};
use crate::plain::{
    comment_sign, has_directive, has_open_line, is_clear, is_quoted, without_comments,
    without_marks,
};
use crate::spelled::{found_whole, read_spelled, unread};
use crate::strings::read_strings;
use crate::text::{is_text, is_utf16, place_of, without_mark};
use std::alloc::Global;

/// The descriptor in text without comments: of bytes alone, in strings, or in a list.
fn read_plain(alloc: Global, plain: &[u8]) -> Result<Found, InputFault>
    ensures answer { Reads (plain_answer plain.now) result }
    ensures empty { spelled_bytes plain.now ≡ Some [] → IfErr result (λ fault. (fault ≡ of_text Memory) ⊎ (fault ≡ of_text NoDescriptor)) }
{
    match read_spelled(alloc, plain)? {
        Ok(bytes) => found_whole(bytes, Shape::Hex, None),
        Err(size) => match place_of(plain, b'\\') {
            Some(place) => read_strings(alloc, plain, place),
            None => read_list(alloc, plain, unread(plain, 0, size)),
        },
    }
}

/// The descriptor in text that is no dump and in which no line names one.
fn read_bare(alloc: Global, text: &[u8]) -> Result<Found, InputFault>
    ensures answer { Reads (other_answer text.now None) result }
    ensures empty { spelled_bytes (plain text.now) ≡ Some [] → is_bare text.now ≡ true
        → IfErr result (λ fault. (fault ≡ of_text Memory) ⊎ (fault ≡ of_text NoDescriptor)) }
{
    let sign = comment_sign(text);
    let (plain, end) = without_comments(alloc, sign, text)?;
    if !is_clear(end)
        || (sign == b'#' && has_directive(text))
        || (sign == b'/' && has_open_line(plain.as_slice()))
    {
        return Err(InputFault::of_text(InputCause::Unclear));
    }
    read_plain(alloc, plain.as_slice())
}

/// The descriptor in text that nothing quotes.
#[tactic(auto, unfolding(crate::specs::Shapes::text_answer, crate::specs::Shapes::record_fault_in))]
fn read_text(alloc: Global, text: &[u8]) -> Result<Found, InputFault>
    ensures answer { Reads (text_answer text.now) result }
    ensures recorded { HasFault (record_fault_in text.now) result }
    ensures empty { IsEmpty text.now → IfErr result (λ fault. (fault ≡ of_text Memory) ⊎ (fault ≡ of_text NoDescriptor)) }
{
    if is_dump(text) {
        return read_dump(alloc, text);
    }
    match mark_place(text) {
        Some(place) => read_named(alloc, text, place),
        None => read_bare(alloc, text),
    }
}

/// The descriptor in text that mail or a patch may quote.
fn read_quoted(alloc: Global, text: &[u8]) -> Result<Found, InputFault>
    ensures answer { Reads (text_answer (without_quotes text.now)) result }
    ensures recorded { HasFault (record_fault_in (without_quotes text.now)) result }
    ensures empty { IsEmpty (without_quotes text.now) → IfErr result (λ fault. (fault ≡ of_text Memory) ⊎ (fault ≡ of_text NoDescriptor)) }
{
    if is_quoted(text) {
        return read_text(alloc, without_marks(alloc, text)?.as_slice());
    }
    read_text(alloc, text)
}

/// The descriptor in the bytes of a file: text is read in the first shape that it has, and other bytes are the descriptor.
///
/// # Errors
/// An [`InputFault`]: the line and the character that isn't explained, or why the bytes aren't one whole descriptor.
#[tactic(auto, using(crate::proofs::AnswerLemmas::whole_if_read))]
pub fn descriptor_in(alloc: Global, bytes: &[u8]) -> Result<Found, InputFault>
    // What the file spells is read, with its shape and its lines, and nothing else; memory aside.
    ensures read { Reads (answer_in bytes.now) result }
    // The bytes are one whole report descriptor, where the shape doesn't name itself.
    ensures whole { IfOk result (λ found. names_itself found.shape ≡ false → IsDescriptor found.bytes.items) }
    // Other bytes than text are the descriptor, and are refused for memory alone.
    ensures binary { is_text (without_mark bytes.now) ≡ false → IfOk result (λ found. found.bytes.items ≡ bytes.now) }
    ensures refused { is_utf16 bytes.now ≡ false → is_text (without_mark bytes.now) ≡ false
        → IfErr result (λ fault. fault ≡ of_text Memory) }
    // Why other files are refused.
    ensures utf16 { is_utf16 bytes.now ≡ true → result ≡ Err (of_text Utf16) }
    ensures recorded { IsTextFile bytes.now → HasFault (record_fault_in (text_of bytes.now)) result }
    ensures empty { IsTextFile bytes.now → IsEmpty (text_of bytes.now)
        → IfErr result (λ fault. (fault ≡ of_text Memory) ⊎ (fault ≡ of_text NoDescriptor)) }
{
    if is_utf16(bytes) {
        return Err(InputFault::of_text(InputCause::Utf16));
    }
    let text = without_mark(bytes);
    if !is_text(text) {
        return Ok(Found {
            bytes: Vec::from_slice(alloc, bytes)?,
            shape: Shape::Binary,
            lines: None,
        });
    }
    read_quoted(alloc, text)
}
