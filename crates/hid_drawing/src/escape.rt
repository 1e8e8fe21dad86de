//! Words that stand for themselves in a page, whatever their bytes are.

ghost use Rattle.std.specs.Prelude.{◌≡◌, ◌∷◌, [], ◌++◌, ℕ, List, true, OnOk, string_bytes};
ghost use Rattle.std.specs.List.{list_all};
ghost use Rattle.hid_drawing.specs.Escape.{printable_byte, escape_of, escaped_words, is_inert};

use std::alloc::AllocError;

/// Adds a byte, or `?` for one that is no ASCII that prints.
///
/// # Errors
/// Out of memory.
pub fn push_printed(text: &mut String, byte: u8) -> Result<(), AllocError>
    ensures { OnOk result
        (string_bytes text.new ≡ string_bytes text.old ++ printable_byte byte ∷ []) }
{
    if 32 <= byte && byte <= 126 {
        text.push(char::from(byte))
    } else {
        text.push_str("?")
    }
}

/// Adds a byte by its reference where it could end text, a tag or an attribute.
fn push_byte(text: &mut String, byte: u8) -> Result<(), AllocError>
    ensures { OnOk result (string_bytes text.new ≡ string_bytes text.old ++ escape_of byte) }
{
    match byte {
        b'&' => text.push_str("&amp;"),
        b'<' => text.push_str("&lt;"),
        b'>' => text.push_str("&gt;"),
        b'\'' => text.push_str("&#39;"),
        b'"' => text.push_str("&#34;"),
        _ => push_printed(text, byte),
    }
}

/// Adds words so that they stand for themselves in a page.
///
/// # Errors
/// Out of memory; part of the text may be added then.
pub fn push_escaped(text: &mut String, words: &[u8]) -> Result<(), AllocError>
    ensures { OnOk result
        (string_bytes text.new ≡ string_bytes text.old ++ escaped_words words.now) }
{
    for byte in words {
        push_byte(text, *byte)?;
    }
    Ok(())
}

/// No words end the text, the tag or the attribute in which they stand.
pub fn words_are_inert()
    ensures { (words : List ℕ) → list_all is_inert (escaped_words words) ≡ true }
{}
