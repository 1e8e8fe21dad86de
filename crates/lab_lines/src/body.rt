//! The lines between `repeat N` and its `end`, and the text that comes of them.

ghost use Rattle.std.specs.Prelude.{◌≡◌, ◌≢◌, ◌+◌, ◌^◌, ◌≤◌, ◌<◌, [], ◌∷◌, ◌++◌, true, false, length, IfOk, OnOk, vec_len};
ghost use Rattle.hid_text.specs.Words.{words_of};
ghost use Rattle.lab_lines.specs.Copies.{copies};
ghost use Rattle.lab_lines.specs.Roles.{repeat_role, role_of, depth_after, added_by};

use hid_text::{first_word, read_count};
use std::alloc::{AllocError, Global};
use std::mem::swap;

/// The most bytes of a body, line feeds included.
pub const MAX_BODY: usize = 1 << 20;

/// How many bytes of the text are given at a time.
const PIECE: usize = 4096;

/// What came of a line that was added.
#[derive(Clone, Copy, Debug, PartialEq, Eq)]
pub enum Added {
    /// The body goes on.
    Open,
    /// It was the `end` of the body, which doesn't belong to it.
    Whole,
    /// Words stand after an `end`, or after `repeat` not just a count: no line of the bench is so (X1).
    Malformed,
    /// The body would have over [`MAX_BODY`] bytes.
    TooLong,
}

/// What a line is to the body in which it stands.
#[derive(Clone, Copy)]
pub(crate) enum Role {
    Opens,
    Ends,
    Malformed,
    Stays,
}

/// What a `repeat` is, by what stands after it: a count, and nothing else.
fn repeat_role(rest: &[u8]) -> Role
    ensures { result ≡ repeat_role (words_of rest.now) }
{
    let Some((count, more)) = first_word(rest) else {
        return Role::Malformed;
    };
    if first_word(more).is_some() {
        return Role::Malformed;
    }
    if read_count(count).is_some() {
        Role::Opens
    } else {
        Role::Malformed
    }
}

/// What a line is to the body in which it stands, by its words.
fn role_of(line: &[u8]) -> Role
    ensures { result ≡ role_of (words_of line.now) }
{
    let Some((first, rest)) = first_word(line) else {
        return Role::Stays;
    };
    if first == b"repeat".as_slice() {
        return repeat_role(rest);
    }
    if first != b"end".as_slice() {
        return Role::Stays;
    }
    match first_word(rest) {
        None => Role::Ends,
        Some(_) => Role::Malformed,
    }
}

/// How many bodies are open in the body after a line that belongs to it.
fn depth_after(depth: usize, role: Role) -> usize
    requires { depth < 2 ^ 20 }
    ensures { result ≡ depth_after depth role }
{
    match role {
        Role::Opens => depth + 1,
        Role::Ends => depth.saturating_sub(1),
        Role::Malformed | Role::Stays => depth,
    }
}

/// A text so often, as fits into a piece and most: twice, four times and on. How often.
fn rounds_of(alloc: Global, text: &[u8], most: u16) -> Result<(Vec<u8>, u16), AllocError>
    requires most { 0 < most }
    requires text { (0 < length text.now) × (length text.now ≤ 4096) }
    ensures text { IfOk result (λ r. r.0.items ≡ copies r.1 text.now) }
    ensures count { IfOk result (λ r. (0 < r.1) × (r.1 ≤ most)) }
    ensures room { IfOk result (λ r. (0 < length r.0.items) × (length r.0.items ≤ 4096)) }
{
    let mut rounds = Vec::with_capacity(alloc, PIECE)?;
    let mut twice = Vec::with_capacity(alloc, PIECE)?;
    rounds.extend_from_slice(text)?;
    let mut count = 1;
    while count <= most / 2 && rounds.len() <= PIECE / 2 {
        twice.clear();
        twice.extend_from_slice(rounds.as_slice())?;
        twice.extend_from_slice(rounds.as_slice())?;
        swap(&mut rounds, &mut twice);
        count += count;
    }
    Ok((rounds, count))
}

/// The lines of a body, with their line feeds, and where it goes on.
#[derive(Debug, Drop)]
pub struct Body {
    text: Vec<u8>,
    lines: u64,
    depth: usize,
    at: usize,
    left: u16,
    /// The text so often, as it was given last; none where a line came since.
    rounds: (Vec<u8>, u16),
    ghost whole: { rounds.0.items ≡ copies rounds.1 text.items },
    ghost fitting: { length rounds.0.items ≤ 4096 },
    ghost short: { vec_len text ≤ 2 ^ 20 },
    ghost nested: { depth ≤ vec_len text },
    ghost within: { at ≤ vec_len text },
}

impl Body {
    ghost use Rattle.lab_lines.specs.Bodies.{text_to_come, Gives};

    /// No line yet, to be carried out so often.
    #[tactic(auto, unfolding(crate::specs::Copies::copies))]
    pub fn new(alloc: Global, count: u16) -> Self
        ensures none { result.text.items ≡ [] }
        ensures closed { result.depth ≡ 0 }
        ensures at { result.at ≡ 0 }
        ensures count { result.left ≡ count }
    {
        Body {
            text: Vec::new(alloc),
            lines: 0,
            depth: 0,
            at: 0,
            left: count,
            rounds: (Vec::new(alloc), 0),
        }
    }

    /// How many lines it has, each counted once.
    pub fn lines(&self) -> u64 {
        self.lines
    }

    /// Adds a line, or ends the body.
    ///
    /// # Errors
    /// Out of memory.
    #[tactic(auto, unfolding(crate::specs::Copies::copies))]
    pub fn add(&mut self, line: &[u8]) -> Result<Added, AllocError>
        // What comes of the line, by what it is to the body and by the room that is left.
        ensures added { IfOk result (λ added. added ≡ added_by self.old.depth
            (role_of (words_of line.now)) (vec_len self.old.text) (length line.now)) }
        // A line that belongs to the body stands after the others; any other changes nothing.
        ensures text { IfOk result (λ added. added ≡ Added.Open
            → self.new.text.items ≡ self.old.text.items ++ line.now ++ 10 ∷ []) }
        ensures depth { IfOk result (λ added. added ≡ Added.Open
            → self.new.depth ≡ depth_after self.old.depth (role_of (words_of line.now))) }
        ensures others { IfOk result (λ added. added ≢ Added.Open → self.new ≡ self.old) }

        // How often it comes, and from where on.
        ensures count { self.new.left ≡ self.old.left }
        ensures at { self.new.at ≡ self.old.at }
    {
        let role = role_of(line);
        match role {
            Role::Malformed => return Ok(Added::Malformed),
            Role::Ends if self.depth == 0 => return Ok(Added::Whole),
            Role::Ends | Role::Opens | Role::Stays => {}
        }
        if line.len() >= MAX_BODY - self.text.len() {
            return Ok(Added::TooLong);
        }
        let depth = depth_after(self.depth, role);
        self.rounds = (Vec::new(*self.text.allocator()), 0);
        self.text.extend_from_slice(line)?;
        self.text.push(b'\n')?;
        self.depth = depth;
        self.lines = self.lines.saturating_add(1);
        Ok(Added::Open)
    }

    /// Whether text is to come, which stands at the place of the body then: of this round, else of the next one.
    fn has_more(&mut self) -> bool
        ensures same { text_to_come self.new ≡ text_to_come self.old }
        ensures more { result ≡ true → self.new.at < vec_len self.new.text }
        ensures none { result ≡ false → text_to_come self.new ≡ [] }
        ensures text { self.new.text ≡ self.old.text }
    {
        if self.at < self.text.len() {
            return true;
        }
        if self.left <= 1 {
            return false;
        }
        if self.text.is_empty() {
            return false;
        }
        self.left -= 1;
        self.at = 0;
        true
    }

    /// Whether several short rounds are to come, from the first byte of one on.
    fn has_rounds(&self) -> bool
        ensures { result ≡ true → (self.now.at ≡ 0) × (1 < self.now.left)
            × (0 < vec_len self.now.text) × (vec_len self.now.text ≤ 2048) }
    {
        self.at == 0 && self.left > 2 && !self.text.is_empty() && self.text.len() <= PIECE / 2
    }

    /// Makes a text of whole rounds, fewer than are to come. That of the last time is used again where it has fewer, too.
    fn keep_rounds(&mut self) -> Result<(), AllocError>
        requires { (1 < self.old.left) × (0 < vec_len self.old.text) × (vec_len self.old.text ≤ 2048) }
        ensures text { self.new.text ≡ self.old.text }
        ensures at { self.new.at ≡ self.old.at }
        ensures left { self.new.left ≡ self.old.left }
        ensures some { OnOk result ((0 < self.new.rounds.1) × (self.new.rounds.1 < self.new.left)) }
    {
        if self.rounds.1 > 0 && self.rounds.1 < self.left {
            return Ok(());
        }
        let alloc = *self.text.allocator();
        self.rounds = rounds_of(alloc, self.text.as_slice(), self.left - 1)?;
        Ok(())
    }

    /// Gives whole rounds, of which several are to come.
    fn give_rounds(&mut self, room: &mut Vec<u8>) -> Result<(), AllocError>
        requires { (self.old.at ≡ 0) × (1 < self.old.left) × (0 < vec_len self.old.text)
            × (vec_len self.old.text ≤ 2048) }
        ensures { OnOk result (Gives (text_to_come self.old) (text_to_come self.new)
            room.old.items room.new.items true) }
    {
        self.keep_rounds()?;
        room.extend_from_slice(self.rounds.0.as_slice())?;
        self.left -= self.rounds.1;
        Ok(())
    }

    /// Gives the text that comes next, after that of a room: its lines, as often as they come, 4,096 bytes at a time. Whether any
    /// came: none comes where the body was carried out as often as it is to be.
    ///
    /// # Errors
    /// Out of memory.
    pub fn give(&mut self, room: &mut Vec<u8>) -> Result<bool, AllocError>
        ensures { IfOk result (λ some. Gives (text_to_come self.old) (text_to_come self.new)
            room.old.items room.new.items some) }
    {
        if self.has_rounds() {
            self.give_rounds(room)?;
            return Ok(true);
        }
        self.give_part(room)
    }

    /// Gives the text that comes next, round by round.
    fn give_part(&mut self, room: &mut Vec<u8>) -> Result<bool, AllocError>
        ensures { IfOk result (λ some. Gives (text_to_come self.old) (text_to_come self.new)
            room.old.items room.new.items some) }
    {
        let mut left = PIECE;
        let mut some = false;
        while left > 0 && self.has_more() {
            let count = left.min(self.text.len() - self.at);
            let end = self.at + count;
            room.extend_from_slice(&self.text.as_slice()[self.at..end])?;
            self.at = end;
            left -= count;
            some = true;
        }
        Ok(some)
    }
}
