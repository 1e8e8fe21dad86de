//! The words of a command line, and names as they are printed.
//! ```text
//!   the system --> words_of --> Words: as given, and as printed --> matches_of --> what clap finds in them
//!                     |                                                |
//!                     |                                                +-- a word that is refused --> print_refused_words
//!                     +-- WordsFault: out of memory, or the first word that isn't UTF-8 --> print_unread_words
//! ```
//! The rule to know: paths are text, so a file whose name isn't UTF-8 can't be opened by its name. A launcher opens it, and gives a
//! path that leads to it (`words_of_files`); else standard input can have it.
//!
//! The promise: bytes that are UTF-8 are a word, the word has them, and others are refused with them (`text`, `bytes` and `fault` on
//! [`word_of`]). A name is printed with its control characters as numbers, and so are bytes that aren't UTF-8 (`output` of [`FileName`]
//! and [`ShownBytes`], `shown` on [`words_of`]).
#![tactic(auto)]

mod names;
mod opened;
mod read_lines;
mod refused;
mod words;

pub use names::{FileName, ShownBytes, is_escaped};
pub use opened::{NamedFile, OPENED_FILES, file_of, opened_path};
pub use read_lines::ReadLines;
pub use refused::{matches_of, print_refused_words};
pub use words::{Words, WordsFault, print_unread_words, word_of, words_of, words_of_files};
