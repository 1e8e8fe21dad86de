//! Pressed places, kept as words of 64 bits (our choice).

ghost use Rattle.std.specs.Prelude.{◌≡◌, ◌≢◌, ◌+◌, ◌<◌, ◌*◌, ◌/◌, ◌^◌, ◌==◌, ◌≤◌, ◌&&◌, ℕ, Bool, List, true, false, length, slice_get, slice_set, take, drop, replicate, Some, IfOk, IfSome, unwrap_or, if◌then◌else◌};
ghost use Rattle.std.specs.Int.{bit_at, div_ceil};
ghost use Rattle.hid_snapshots.specs.ExactCapacity.{IsFull};
ghost use Rattle.hid_snapshots.specs.Words.{bits_in, switch_words, word_at, is_on, is_alone, is_unlike, is_bit, are_alone, FindsFirst, FindsGroup, HasNotes, AreGroups, AreNoted};

use crate::exact_capacity::full_of;
use std::alloc::{AllocError, Global};
use std::marker::Model;

/// Which elements, or which keys of an array, are pressed. A search skips words of which none is, so that it takes time by the
/// pressed places and not by all.
#[derive(Drop)]
pub struct Flags {
    /// A bit for each place, and after these words a bit for each of them, which is 0 only where the word is. That of the first word
    /// isn't kept: a search looks at that word in any case.
    words: Vec<u64>,
    /// How many places there are.
    len: usize,
    /// A bit for each of the words after those of the places, which is 0 only where the word is. The last bit is for all from there on.
    top: u64,
    ghost full: { IsFull words },
}

impl Model for Flags {
    ghost use Rattle.std.specs.Prelude.{List, Bool};
    ghost use Rattle.hid_snapshots.specs.Words.{places_in, words_of, AreFlags};

    ghost Value = { List Bool };

    ghost view = { λ f. places_in (words_of f.words.items f.len) f.len };

    ghost invariant = { λ f. AreFlags f.words.items f.len f.top };
}

impl Flags {
    ghost use Rattle.hid_snapshots.specs.ControlStates.{switch_count};
    ghost use Rattle.hid_snapshots.specs.Parts.{same_flags};

    /// Flags for `count` places, none of them pressed.
    ///
    /// # Errors
    /// Out of memory.
    pub fn clear(alloc: Global, count: usize) -> Result<Self, AllocError>
        ensures { IfOk result (λ f. f ≡ replicate count false) }
    {
        let words = count.div_ceil(64);
        Ok(Flags {
            words: full_of(alloc, 0, words + words.div_ceil(64))?,
            len: count,
            top: 0,
        })
    }

    /// How many places there are.
    pub fn len(&self) -> usize
        ensures { result ≡ length self.now }
    {
        self.len
    }

    /// Whether the one at an index is pressed.
    pub fn get(&self, index: usize) -> bool
        requires { index < length self.now }
        ensures { slice_get self.now index ≡ Some result }
    {
        is_bit(&self.words, index)
    }

    /// Whether one is pressed; false past the last.
    pub fn get_or_false(&self, index: usize) -> bool
        ensures { result ≡ unwrap_or (slice_get self.now index) false }
    {
        index < self.len && self.get(index)
    }

    /// Presses or releases the one at an index.
    #[inline(always)]
    pub fn set(&mut self, index: usize, pressed: bool)
        requires { index < length self.old }
        ensures { self.new ≡ slice_set self.old index pressed }
    {
        let k = index / 64;
        let word = with_bit(self.words[k], index % 64, pressed);
        replace_word(
            &mut self.words,
            &mut self.top,
            self.len.div_ceil(64),
            k,
            word,
        );
    }

    /// How many words the places have.
    pub fn word_count(&self) -> usize
        ensures value { result ≡ div_ceil (length self.now) 64 }
        ensures few { 64 * result < 2 ^ 64 + 64 }
    {
        self.len.div_ceil(64)
    }

    /// The word at an index, whose bits are 1 where its places are pressed.
    #[inline(always)]
    pub fn word(&self, k: usize) -> u64
        requires { k < div_ceil (length self.now) 64 }
        ensures { (b : ℕ) → b < 64 → (bit_at result b == 1) ≡ is_on self.now (64 * k + b) }
    {
        self.words[k]
    }

    /// A word whose bits are 1 where the places of the word at an index are pressed here and not in the other.
    #[inline(always)]
    pub fn alone(&self, k: usize, other: &Flags) -> u64
        requires here { k < div_ceil (length self.now) 64 }
        requires there { k < div_ceil (length other.now) 64 }
        ensures { (b : ℕ) → b < 64
            → (bit_at result b == 1) ≡ is_alone self.now other.now (64 * k + b) }
    {
        self.word(k) & !other.word(k)
    }

    /// A word whose bits are 1 where the places of the word at an index are pressed here and in the other.
    #[inline(always)]
    pub fn common(&self, k: usize, other: &Flags) -> u64
        requires here { k < div_ceil (length self.now) 64 }
        requires there { k < div_ceil (length other.now) 64 }
        ensures { (b : ℕ) → b < 64 → (bit_at result b == 1)
            ≡ (is_on self.now (64 * k + b) && is_on other.now (64 * k + b)) }
    {
        self.word(k) & other.word(k)
    }

    /// Presses exactly those of the word at an index whose bits are 1 in this one, which has no bit beyond the last place.
    #[inline(always)]
    pub fn put(&mut self, k: usize, word: u64)
        requires k { k < div_ceil (length self.old) 64 }
        requires fits { (b : ℕ) → b < 64 → length self.old ≤ 64 * k + b
            → (bit_at word b == 1) ≡ false }
        ensures here { (b : ℕ) → b < 64 → is_on self.new (64 * k + b) ≡ (bit_at word b == 1) }
        ensures others { (i : ℕ) → i / 64 ≢ k → is_on self.new i ≡ is_on self.old i }
        ensures len { length self.new ≡ length self.old }
    {
        write_word(
            &mut self.words,
            &mut self.top,
            self.len.div_ceil(64),
            k,
            word,
        );
    }

    /// The next word, from one on, of which a place may be pressed; the count of words, or more, where none is.
    #[inline(always)]
    pub fn next_filled(&self, from: usize) -> usize
        requires low { 0 < from }
        requires high { from ≤ div_ceil (length self.now) 64 }
        ensures low { from ≤ result }
        ensures none { (i : ℕ) → 64 * from ≤ i → i < 64 * result → is_on self.now i ≡ false }
    {
        next_filled(&self.words, self.top, self.len.div_ceil(64), from)
    }

    /// Presses exactly those whose bits are 1 in the word, the first one lowest. There are at most 64, and the word has no
    /// bit beyond the last.
    pub fn set_word(&mut self, word: u64)
        requires few { length self.old ≤ 64 }
        requires fits { word < 2 ^ length self.old }
        ensures { self.new ≡ bits_in (length self.old) word }
    {
        if !self.words.is_empty() {
            self.words[0] = word;
        }
    }

    /// Releases all of them.
    #[inline(always)]
    pub fn release_all(&mut self)
        ensures { self.new ≡ replicate (length self.old) false }
    {
        clear_words(&mut self.words, &mut self.top, self.len.div_ceil(64));
    }

    /// How many are pressed.
    pub fn count(&self) -> usize
        ensures { result ≡ switch_count self.now }
    {
        // For the prover: how many places there are at most.
        let _ = self.len();

        let mut count = 0;
        for word in self.words() {
            count += word.count_ones() as usize;
        }
        count
    }

    /// Copies the other's, which has the same length.
    pub(crate) fn copy_from(&mut self, other: &Flags)
        requires { length self.old ≡ length other.now }
        ensures { self.new ≡ other.now }
    {
        self.words.copy_from_slice(&other.words);
        self.top = other.top;
    }

    /// Whether both have the same values and length.
    pub(crate) fn is_same(&self, other: &Flags) -> bool
        ensures { result ≡ same_flags self.now other.now }
    {
        self.len == other.len && self.words() == other.words()
    }

    /// The words: bit i mod 64 of word i div 64 is 1 exactly where place i is pressed.
    pub fn words(&self) -> &[u64]
        ensures { result.now ≡ switch_words self.now }
    {
        &self.words[..self.len.div_ceil(64)]
    }

    /// The first pressed place from one on; a number is left after it.
    pub fn next(&self, from: usize) -> Option<usize>
        ensures first { FindsFirst (is_on self.now) from (length self.now) result }
        ensures behind { IfSome result (λ place. place + 1 < 2 ^ 64) }
    {
        first_alone(&self.words, self.top, self.len.div_ceil(64), &[], from)
    }

    /// The first place from one on that is pressed here and not in the other; a number is left after it.
    #[inline(always)]
    pub fn next_alone(&self, other: &Flags, from: usize) -> Option<usize>
        ensures first { FindsFirst (is_alone self.now other.now) from (length self.now) result }
        ensures behind { IfSome result (λ place. place + 1 < 2 ^ 64) }
    {
        first_alone(
            &self.words,
            self.top,
            self.len.div_ceil(64),
            other.words(),
            from,
        )
    }

    /// The first bit from one on that isn't the same in a word of these and in another one.
    #[inline(always)]
    pub fn first_unlike(&self, index: usize, word: u64, from: usize) -> Option<usize>
        requires { from < 64 }
        ensures { FindsFirst (is_unlike self.now index word) from 64 result }
    {
        lowest_from(self.unlike(index, word), from)
    }

    /// A word whose bits are 1 where those of a word of these and of another one aren't the same.
    #[inline(always)]
    pub fn unlike(&self, index: usize, word: u64) -> u64
        ensures { (b : ℕ) → b < 64 → (bit_at result b == 1) ≡ is_unlike self.now index word b }
    {
        word_or_zero(self.words(), index) ^ word
    }
}

/// Notes whether a word is filled, in the words after a count of them.
#[inline(always)]
fn note_word(words: &mut [u64], top: &mut u64, count: usize, k: usize, is_filled: bool)
    requires notes { HasNotes words.old count }
    requires k { k < count }
    ensures words { take count words.new ≡ take count words.old }
    ensures here { is_bit (drop count words.new) k ≡ is_filled }
    ensures others { (i : ℕ) → i ≢ k
        → is_bit (drop count words.new) i ≡ is_bit (drop count words.old) i }
    ensures groups { AreGroups (drop count words.old) top.old
        → AreGroups (drop count words.new) top.new }
{
    let group = k / 64;
    let noted = with_bit(words[count + group], k % 64, is_filled);
    words[count + group] = noted;
    *top = with_bit(*top, group.min(63), noted != 0 || 63 <= group);
}

/// Makes one of the first words 0, and takes back its note.
#[inline(always)]
fn clear_word(words: &mut [u64], top: &mut u64, count: usize, k: usize)
    requires notes { HasNotes words.old count }
    requires k { k < count }
    requires noted { AreNoted (take count words.old) (drop count words.old) top.old }
    ensures words { take count words.new ≡ slice_set (take count words.old) k 0 }
    ensures noted { AreNoted (take count words.new) (drop count words.new) top.new }
{
    words[k] = 0;
    if k != 0 {
        note_word(words, top, count, k, false);
    }
}

/// Writes one of the first words, and notes it where it was empty. One that becomes empty keeps its note.
#[inline(always)]
fn replace_word(words: &mut [u64], top: &mut u64, count: usize, k: usize, word: u64)
    requires notes { HasNotes words.old count }
    requires k { k < count }
    requires noted { AreNoted (take count words.old) (drop count words.old) top.old }
    ensures words { take count words.new ≡ slice_set (take count words.old) k word }
    ensures noted { AreNoted (take count words.new) (drop count words.new) top.new }
{
    let before = words[k];
    words[k] = word;
    if k != 0 && before == 0 {
        note_word(words, top, count, k, word != 0);
    }
}

/// Writes one of the first words, and notes whether it is filled where that may change.
#[inline(always)]
fn write_word(words: &mut [u64], top: &mut u64, count: usize, k: usize, word: u64)
    requires notes { HasNotes words.old count }
    requires k { k < count }
    requires noted { AreNoted (take count words.old) (drop count words.old) top.old }
    ensures words { take count words.new ≡ slice_set (take count words.old) k word }
    ensures noted { AreNoted (take count words.new) (drop count words.new) top.new }
{
    if word == 0 {
        clear_word(words, top, count, k);
    } else {
        replace_word(words, top, count, k, word);
    }
}

/// The next group of words after one that may have a filled word; none where no later one has.
#[inline(always)]
fn next_group(top: u64, group: usize) -> Option<usize>
    requires { group + 1 < 2 ^ 64 }
    ensures { FindsGroup top group result }
{
    if 63 <= group {
        return Some(group + 1);
    }
    lowest_from(top, group + 1)
}

/// The next of the first words, from one on, that may be filled; their count, or more, where none is. The first of all isn't asked.
#[inline(always)]
fn next_filled(words: &[u64], top: u64, count: usize, from: usize) -> usize
    requires notes { HasNotes words.now count }
    requires noted { AreNoted (take count words.now) (drop count words.now) top }
    requires few { 64 * count < 2 ^ 64 + 64 }
    requires from { 0 < from }
    requires last { from ≤ count }
    ensures low { from ≤ result }
    ensures none { (k : ℕ) → from ≤ k → k < result → word_at (take count words.now) k ≡ 0 }
{
    if top == 0 {
        return count;
    }
    let mut k = from;
    while k < count {
        match lowest_from(words[count + k / 64], k % 64) {
            Some(bit) => return 64 * (k / 64) + bit,
            None => {}
        }
        match next_group(top, k / 64) {
            Some(group) => k = 64 * group,
            None => return count,
        }
    }
    k
}

/// Makes the first words 0.
#[inline(always)]
fn clear_words(words: &mut [u64], top: &mut u64, count: usize)
    requires notes { HasNotes words.old count }
    requires noted { AreNoted (take count words.old) (drop count words.old) top.old }
    requires few { 64 * count < 2 ^ 64 + 64 }
    ensures words { take count words.new ≡ replicate count 0 }
    ensures noted { AreNoted (take count words.new) (drop count words.new) top.new }
{
    let mut k = 0;
    while k < count {
        clear_word(words, top, count, k);
        k = next_filled(words, *top, count, k + 1);
    }
}

/// Whether a bit is 1, counted through the words.
fn is_bit(words: &[u64], index: usize) -> bool
    requires { index / 64 < length words.now }
    ensures { result ≡ is_bit words.now index }
{
    words[index / 64] >> (index % 64) & 1 == 1
}

/// The word with one bit set or cleared.
fn with_bit(word: u64, at: usize, is_set: bool) -> u64
    requires { at < 64 }
    ensures bit { bit_at result at ≡ (if is_set then 1 else 0) }
    ensures others { (b : ℕ) → b < 64 → b ≢ at → bit_at result b ≡ bit_at word b }
{
    if is_set {
        word | 1 << at
    } else {
        word & !(1 << at)
    }
}

/// The lowest bit of a word, from one on, that is 1.
#[inline(always)]
pub fn lowest_from(word: u64, from: usize) -> Option<usize>
    requires { from < 64 }
    ensures { FindsFirst (λ b. bit_at word b == 1) from 64 result }
{
    let rest = word >> from;
    if rest == 0 {
        None
    } else {
        Some(from + rest.trailing_zeros() as usize)
    }
}

/// The lowest bit of a word, from one on, that is 1; none from 64 on.
#[inline(always)]
pub fn next_bit(word: u64, from: usize) -> Option<usize>
    ensures { FindsFirst (λ b. bit_at word b == 1) from 64 result }
{
    if from < 64 {
        lowest_from(word, from)
    } else {
        None
    }
}

/// The bits of a word that are 1 here and not in the other, which may have fewer words.
fn word_alone(words: &[u64], others: &[u64], k: usize) -> u64
    requires { k < length words.now }
    ensures { (b : ℕ) → b < 64
        → (bit_at result b == 1) ≡ are_alone words.now others.now (64 * k + b) }
{
    words[k] & !word_or_zero(others, k)
}

/// The word at an index; 0 past the last.
fn word_or_zero(words: &[u64], k: usize) -> u64
    ensures { result ≡ unwrap_or (slice_get words.now k) 0 }
{
    words.get(k).copied().unwrap_or(0)
}

/// The first bit from one on, counted through the first words, that is 1 here and not in the other.
#[inline(always)]
fn first_alone(words: &[u64], top: u64, count: usize, others: &[u64], from: usize) -> Option<usize>
    requires notes { HasNotes words.now count }
    requires noted { AreNoted (take count words.now) (drop count words.now) top }
    requires few { 64 * count < 2 ^ 64 + 64 }
    requires short { (i : ℕ) → are_alone (take count words.now) others.now i ≡ true → i < 2 ^ 64 }
    ensures { FindsFirst (are_alone (take count words.now) others.now) from (64 * count) result }
{
    let mut k = from / 64;
    let mut start = from % 64;
    while k < count {
        match lowest_from(word_alone(words, others, k), start) {
            Some(bit) => return Some(64 * k + bit),
            None => {}
        }
        k = next_filled(words, top, count, k + 1);
        start = 0;
    }
    None
}
