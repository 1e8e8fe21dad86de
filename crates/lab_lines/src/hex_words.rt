//! Bytes in hex, as many as there are.

ghost use Rattle.std.specs.Prelude.{◌≡◌, ◌≢◌, Ok, Some, None, false, IfOk, MatchOption, OnOk, is_ok};
ghost use Rattle.hex.specs.Hex.{decode_of};
ghost use Rattle.hid_text.specs.Words.{words_of, hex_of};

use hex::FromHexError;
use hid_text::first_word;
use std::alloc::{AllocError, Global};

/// Why a word wasn't decoded: none of what it encodes, unless memory ran out.
fn undecoded(error: FromHexError) -> Result<(), AllocError>
    ensures { OnOk result (error ≢ FromHexError.OutOfMemory) }
{
    match error {
        FromHexError::OutOfMemory => Err(AllocError),
        _ => Ok(()),
    }
}

/// The bytes that a word of hex encodes; none where it has a bad digit, or an odd number of digits.
fn read_word(alloc: Global, word: &[u8]) -> Result<Option<Vec<u8>>, AllocError>
    ensures { IfOk result (λ read. MatchOption read (is_ok (decode_of word.now) ≡ false)
        (λ bytes. decode_of word.now ≡ Ok bytes.items)) }
{
    match hex::decode(alloc, word) {
        Ok(bytes) => Ok(Some(bytes)),
        Err(error) => {
            undecoded(error)?;
            Ok(None)
        }
    }
}

/// The bytes that words of hex encode, as many as there are; none where a word has a bad digit, or an odd number of digits.
///
/// # Errors
/// Out of memory.
pub fn read_hex(alloc: Global, text: &[u8]) -> Result<Option<Vec<u8>>, AllocError>
    ensures { IfOk result (λ read. MatchOption read (hex_of (words_of text.now) ≡ None)
        (λ bytes. hex_of (words_of text.now) ≡ Some bytes.items)) }
{
    let mut bytes = Vec::new(alloc);
    let mut rest = text;
    loop {
        match first_word(rest) {
            None => return Ok(Some(bytes)),
            Some((word, more)) => match read_word(alloc, word)? {
                None => return Ok(None),
                Some(decoded) => {
                    bytes.extend_from_slice(decoded.as_slice())?;
                    rest = more;
                }
            },
        }
    }
}
