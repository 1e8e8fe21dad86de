//! Which bytes are text, and the parts of a text.

ghost use Rattle.std.specs.Prelude.{◌≡◌, ◌∷◌, ◌==◌, ◌+◌, position, IfSome, length, ◌<◌};
ghost use Rattle.std.specs.List.{slice_split, list_all, list_any, position_or_len};
ghost use Rattle.std.specs.Option.{option_map, option_copied};
ghost use Rattle.std.specs.Str.{bytes_eq};
ghost use Rattle.std.specs.Char.{is_ascii_whitespace};
ghost use Rattle.hid_input.specs.Text.{is_text_byte, is_text, without_mark, is_utf16, without_space, trimmed_text, is_empty_line, behind_part, before_space, from_space, first_word, is_newline, lines_of, parts_below, line_at, split_at};

/// Whether a byte may stand in text: any but control bytes, of which white space may.
fn is_text_byte(byte: u8) -> bool
    ensures { result ≡ is_text_byte byte }
{
    byte.is_ascii_whitespace() || (b' ' <= byte && byte != 127)
}

/// Whether each byte may stand in text.
fn are_text_bytes(bytes: &[u8]) -> bool
    ensures { result ≡ list_all is_text_byte bytes.now }
{
    bytes.iter().all(|byte| is_text_byte(*byte))
}

/// Whether there are bytes, all of text. They need not be UTF-8.
pub fn is_text(bytes: &[u8]) -> bool
    ensures { result ≡ is_text bytes.now }
{
    !bytes.is_empty() && are_text_bytes(bytes)
}

/// The bytes after a byte order mark of UTF-8, or all where there is none.
pub fn without_mark(bytes: &[u8]) -> &[u8]
    ensures { result.now ≡ without_mark bytes.now }
{
    if bytes.len() >= 3 && bytes[0] == 0xEF && bytes[1] == 0xBB && bytes[2] == 0xBF {
        &bytes[3..]
    } else {
        bytes
    }
}

/// Whether the bytes begin with the mark of UTF-16, in either order of bytes, and a character below 256.
pub fn is_utf16(bytes: &[u8]) -> bool
    ensures { result ≡ is_utf16 bytes.now }
{
    bytes.len() >= 4
        && ((bytes[0] == 0xFF && bytes[1] == 0xFE && bytes[3] == 0)
            || (bytes[0] == 0xFE && bytes[1] == 0xFF && bytes[2] == 0))
}

/// A text without the white space before it.
pub fn without_space(text: &[u8]) -> &[u8]
    ensures { result.now ≡ without_space text.now }
{
    text.trim_ascii_start()
}

/// A text without the white space at both of its ends.
pub fn trimmed_text(text: &[u8]) -> &[u8]
    ensures { result.now ≡ trimmed_text text.now }
{
    text.trim_ascii()
}

/// Whether a line has nothing but white space.
pub fn is_empty_line(line: &[u8]) -> bool
    ensures { result ≡ is_empty_line line.now }
{
    line.iter().all(|byte| byte.is_ascii_whitespace())
}

/// What stands after a part with which a text begins.
pub fn behind_part<'a>(text: &'a [u8], part: &[u8]) -> Option<&'a [u8]>
    ensures { option_copied result ≡ behind_part part.now text.now }
{
    if text.starts_with(part) {
        Some(&text[part.len()..])
    } else {
        None
    }
}

/// Whether a word is one of these names.
pub fn is_one_of(word: &[u8], names: &[&[u8]]) -> bool
    ensures { result ≡ list_any (λ name. bytes_eq name.now word.now) names.now }
{
    names.iter().any(|name| *name == word)
}

/// Where white space stands first.
fn space_place(text: &[u8]) -> Option<usize>
    ensures place { result ≡ position is_ascii_whitespace text.now }
    ensures bound { IfSome result (λ place. place < length text.now) }
{
    text.iter().position(|byte| byte.is_ascii_whitespace())
}

/// What stands before the first white space of a text, and what stands from it on.
pub fn split_word(text: &[u8]) -> (&[u8], &[u8])
    ensures word { result.0.now ≡ before_space text.now }
    ensures rest { result.1.now ≡ from_space text.now }
{
    let end = space_place(text).unwrap_or(text.len());
    (&text[..end], &text[end..])
}

/// The first word of a text, up to white space.
pub fn first_word(text: &[u8]) -> &[u8]
    ensures { result.now ≡ first_word text.now }
{
    let (word, _) = split_word(without_space(text));
    word
}

/// Where a character stands first.
pub fn place_of(text: &[u8], wanted: u8) -> Option<usize>
    ensures place { result ≡ position (λ byte. byte == wanted) text.now }
    ensures bound { IfSome result (λ place. place < length text.now) }
{
    text.iter().position(|byte| *byte == wanted)
}

/// What stands before the first such character of a text, and what stands after it; none where it isn't there.
pub fn split_at_character(text: &[u8], wanted: u8) -> Option<(&[u8], &[u8])>
    ensures parts { option_map (λ parts. (parts.0.now, parts.1.now)) result ≡ split_at wanted text.now }
    ensures room { IfSome result (λ parts. length parts.1.now < length text.now) }
{
    let place = place_of(text, wanted)?;
    Some((&text[..place], &text[place + 1..]))
}

/// The first line of a text, without its end, and the text below it, if a line feed ends it.
pub fn split_line(text: &[u8]) -> (&[u8], Option<&[u8]>)
    ensures lines { lines_of text.now ≡ result.0.now ∷ parts_below is_newline (option_copied result.1) }
    ensures room { IfSome result.1 (λ below. length result.0.now + 1 + length below.now ≡ length text.now) }
{
    match place_of(text, b'\n') {
        Some(end) => (&text[..end], Some(&text[end + 1..])),
        None => (text, None),
    }
}

/// The number of the line at a place of a text, from 1 on.
pub fn line_at(text: &[u8], place: usize) -> u64
    ensures { result ≡ line_at text.now place }
{
    let front = &text[..place.min(text.len())];
    let ends = front.iter().filter(|byte| **byte == b'\n').count();
    (ends as u64).saturating_add(1)
}

/// The column of a place in its line, from 1 on.
pub fn column_at(text: &[u8], place: usize) -> u64 {
    let mut column = 1u64;
    for byte in &text[..place.min(text.len())] {
        column = if *byte == b'\n' {
            1
        } else {
            column.saturating_add(1)
        };
    }
    column
}
