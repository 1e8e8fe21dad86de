//! Laws of the definitions: what is drawn is what the descriptor lists.

ghost use Rattle.hid_drawing.specs.Laws.{ListsAllFields, ListsAllItems, FillReports, HaveBitsOnce};

use hid_items::laws::{one_reading, truncation_is_no_reading};

/// The places that [`listed_places`](crate::listed_places) gives are those of the fields that a descriptor lists, in order,
/// and so of the listed items of its layout.
pub fn places_are_fields()
    ensures fields { ListsAllFields }
    ensures items { ListsAllItems }
{
    one_reading();
    truncation_is_no_reading();
}

/// The pieces that [`pieces_of`](crate::pieces_of) gives lie one after the other, from the first bit of a report to the
/// last one of its last byte, so each bit is in one piece, and in one alone.
pub fn pieces_fill_reports()
    ensures order { FillReports }
    ensures once { HaveBitsOnce }
{}
