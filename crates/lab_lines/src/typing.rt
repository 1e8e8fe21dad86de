//! Texts between quotes, which are typed.

ghost use Rattle.std.specs.Prelude.{◌≡◌, ◌<◌, ◌≤◌, [], ◌∷◌, length, IfSome, IfNone, MatchOption, is_some};
ghost use Rattle.std.specs.List.{prefix_len, suffix_len};
ghost use Rattle.std.specs.Option.{option_map};
ghost use Rattle.hid_text.specs.Words.{is_blank};
ghost use Rattle.lab_lines.specs.Keys.{key_of};
ghost use Rattle.lab_lines.specs.Typing.{escape_of, next_typed, characters_of, untyped_rest, trim, quote_at, text_in_quotes};

use super::keys::key_of;

/// Whether a byte is a space or a tab.
fn is_blank(byte: u8) -> bool
    ensures { result ≡ is_blank byte }
{
    byte == b' ' || byte == b'\t'
}

/// What a byte stands for after a backslash.
fn escaped(byte: u8) -> u8
    ensures { result ≡ escape_of byte }
{
    match byte {
        b'n' => b'\n',
        b't' => b'\t',
        _ => byte,
    }
}

/// The first character of a text, and the text after it.
fn next_typed(text: &[u8]) -> Option<(u8, &[u8])>
    ensures { option_map (λ next. (next.0, next.1.now)) result ≡ next_typed text.now }
{
    if text.is_empty() {
        return None;
    }
    if text.len() == 1 {
        return Some((text[0], &text[1..]));
    }
    if text[0] == b'\\' {
        Some((escaped(text[1]), &text[2..]))
    } else {
        Some((text[0], &text[1..]))
    }
}

/// A text between quotes: characters, and `\n`, `\t`, `\"` and `\\` for Enter, Tab, a quote and a backslash.
#[derive(Clone, Copy, Debug)]
pub struct TypedText<'a> {
    rest: &'a [u8],
}

impl<'a> TypedText<'a> {
    /// The text of these bytes, which stand between quotes.
    pub fn new(bytes: &'a [u8]) -> Self
        ensures { result.rest.now ≡ bytes.now }
    {
        TypedText { rest: bytes }
    }

    /// How many bytes are left.
    pub fn len(&self) -> usize
        ensures { result ≡ length self.now.rest.now }
    {
        self.rest.len()
    }

    /// Whether nothing is left.
    pub fn is_empty(&self) -> bool {
        self.rest.is_empty()
    }

    /// The next character.
    pub fn next_character(&mut self) -> Option<u8>
        ensures next { MatchOption result (characters_of self.old.rest.now ≡ [])
            (λ character. characters_of self.old.rest.now ≡ character ∷ characters_of self.new.rest.now) }
        ensures shorter { IfSome result (λ _. length self.new.rest.now < length self.old.rest.now) }
        ensures none { IfNone result (self.new.rest.now ≡ self.old.rest.now) }
    {
        let (character, rest) = next_typed(self.rest)?;
        self.rest = rest;
        Some(character)
    }
}

/// Whether a key types a character.
fn has_key(character: u8) -> bool
    ensures { result ≡ is_some (key_of character) }
{
    key_of(character).is_some()
}

/// The text from the first character on that no key types; none where each has a key.
pub(crate) fn untyped(text: &[u8]) -> Option<&[u8]>
    ensures { option_map (λ rest. rest.now) result ≡ untyped_rest text.now }
{
    let mut rest = text;
    loop {
        match next_typed(rest) {
            None => return None,
            Some((character, more)) => {
                if !has_key(character) {
                    return Some(rest);
                }
                rest = more;
            }
        }
    }
}

/// How many blanks a text begins with.
fn blanks_before(text: &[u8]) -> usize
    ensures value { result ≡ prefix_len is_blank text.now }
    ensures room { result ≤ length text.now }
{
    for at in 0..text.len() {
        if !is_blank(text[at]) {
            return at;
        }
    }
    text.len()
}

/// How many blanks a text ends with.
fn blanks_behind(text: &[u8]) -> usize
    ensures value { result ≡ suffix_len is_blank text.now }
    ensures room { result ≤ length text.now }
{
    let length = text.len();
    for at in 0..length {
        if !is_blank(text[length - 1 - at]) {
            return at;
        }
    }
    length
}

/// A text without the blanks before and after it.
pub(crate) fn trimmed(text: &[u8]) -> &[u8]
    ensures { result.now ≡ trim text.now }
{
    let start = blanks_before(text);
    let front = &text[start..];
    let end = front.len() - blanks_behind(front);
    &front[..end]
}

/// How many bytes stand before the first quote that no backslash escapes; all of them where there is none.
fn quote_at(text: &[u8]) -> usize
    ensures value { result ≡ quote_at text.now }
    ensures room { result ≤ length text.now }
{
    let mut rest = text;
    loop {
        match next_typed(rest) {
            None => return text.len(),
            Some((_, more)) => {
                if rest[0] == b'"' {
                    return text.len() - rest.len();
                }
                rest = more;
            }
        }
    }
}

/// What stands between quotes, and what stands after them, where a text begins with one and another closes it.
pub(crate) fn quoted(text: &[u8]) -> Option<(&[u8], &[u8])>
    ensures { option_map (λ parts. (parts.0.now, parts.1.now)) result ≡ text_in_quotes text.now }
{
    if text.is_empty() || text[0] != b'"' {
        return None;
    }
    let inner = &text[1..];
    let end = quote_at(inner);
    if end >= inner.len() {
        return None;
    }
    Some((&inner[..end], &inner[end + 1..]))
}
