//! Drawings of reports, as SVG and in characters: where each field stands, which items of the descriptor made it, its words.
//! ```text
//!   Layout           ---- pieces_of -------> pieces    what of a field lies in one byte
//!   descriptor       ---- read_items ------> items     by their places, up to where it is cut off
//!   items            ---- brackets --------> brackets  the bytes of each collection
//!   pieces, brackets ---- print_picture ---> SVG: a cell for each piece, in its area
//!   pieces, brackets ---- print_terminal --> the picture in characters
//!
//!      ┌─────────────────────────────────────────────────┬─────────┬─────────┬─────────┐╮╮
//!    0 │padding                                          │Button 3 │Button 2 │Button 1 │││
//!      │5 bits                                           │0..1     │0..1     │0..1     │││
//!      ├─────────────────────────────────────────────────┴─────────┴─────────┴─────────┤││
//! ```
//! The rule to know: the layout says where a piece lies (`pieces_of` of `specs/Pieces.antt` takes `element_of` of the layout),
//! and the piece says where its cell stands (`piece_area` of `specs/Areas.antt`): a row for each byte, bit 7 at the left. The
//! descriptor gives only places: those of the items that made a field, and of the collections around it.
//!
//! The promise: the pieces of a report have each of its bits once, and are those of all its fields ([`laws`]). Each `print_`
//! call appends exactly the text that `specs/` states (`Words.antt`, `picture_at`, `terminal_at`). Words that a device's bytes
//! choose are escaped, and can't end a tag or an attribute ([`words_are_inert`]).
#![tactic(auto)]

mod areas;
mod bracket_names;
mod brackets;
mod captions;
mod escape;
mod glyphs;
mod items;
mod label;
pub mod laws;
mod lines;
mod lookups;
mod origins;
mod pieces;
mod svg;
mod terminal;

pub use areas::{RIGHT, gap_of, name_left, row_top};
pub use brackets::{Bracket, Drawn, bracket_depth, main_at, round_at};
pub use captions::{
    collection_name, is_input_item, print_bit, print_collection, print_count, print_entry,
    print_flags, print_padding_name, print_report_name,
};
pub use escape::{push_escaped, words_are_inert};
pub use items::{place_of, prefix_of, read_items};
pub use label::UsageLabel;
pub use lines::rows_of;
pub use lookups::{first_bit_of, item_at, report_at};
pub use origins::{
    InForce, global_place, is_field, is_main, is_origin, listed_places, origins_in_force,
};
pub use pieces::{BitSource, ByteSlice, pieces_of};
pub use svg::print_picture;
pub use terminal::{MAX_DRAWN, print_terminal};
