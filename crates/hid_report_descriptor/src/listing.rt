//! The fields that a report descriptor lists, or why it is refused (HID 1.11, 6.2.2).

ghost use Rattle.std.specs.Prelude.{List, length, IfOk, IfErr, OnOk};
ghost use Rattle.hid_report_descriptor.specs.declared.limits.Limits.{Limits};
ghost use Rattle.hid_report_descriptor.specs.Items.{EncodedItem};
ghost use Rattle.hid_report_descriptor.specs.Faults.{Reaches, Accepts, Explains};
ghost use Rattle.hid_report_descriptor.specs.Parser.{HasStateAfter};
ghost use Rattle.hid_report_descriptor.specs.Listing.{ListsFields};

use crate::fault::{Cause, LayoutFault};
use crate::field::KeptField;
use crate::field_list::KeptFields;
use crate::item_lists::ItemLists;
use crate::limits::{Limits, MAX_DESCRIPTOR};
use crate::parse::parse_items;
use crate::parser::Parser;
use crate::report::Report;
use std::alloc::Global;

/// The fields that a report descriptor lists: those of the Input, Output and Feature items that have bits.
#[derive(Drop)]
pub struct ListedFields {
    /// The reports that have bits, by kind and then by ID (HID 1.11, 5.6).
    pub reports: Vec<Report>,
    /// In descriptor order, those of each item together.
    pub fields: Vec<KeptField>,
    /// The usages and the open collections of each.
    pub lists: ItemLists,
    /// Whether some item sets a Report ID, so that each report begins with its ID (HID 1.11, 5.6).
    pub numbered: bool,
}

/// The fields of a parser that has taken all items.
fn into_fields(parser: Parser) -> ListedFields
    ensures { (before : List EncodedItem) → HasStateAfter before parser
        → ListsFields before result }
{
    let Parser {
        fields,
        numbered,
        ..
    } = parser;
    let KeptFields {
        list,
        lists,
        reports,
        ..
    } = fields;
    ListedFields {
        reports: reports.list,
        fields: list,
        lists,
        numbered,
    }
}

/// Refuses a descriptor whose items leave a collection open, or of which only some have a report ID.
fn check_end(parser: &Parser, descriptor: &[u8]) -> Result<(), LayoutFault>
    ensures ok { (limits : Limits) (before : List EncodedItem)
        → Reaches limits descriptor.now (length descriptor.now) before
        → HasStateAfter before parser.now → OnOk result (Accepts limits descriptor.now before) }
    ensures err { (limits : Limits) (before : List EncodedItem)
        → Reaches limits descriptor.now (length descriptor.now) before
        → HasStateAfter before parser.now
        → IfErr result (λ f. Explains limits descriptor.now f.cause f.at) }
{
    let at = descriptor.len();
    if parser.collections.open.len() != 0 {
        return Err(LayoutFault {
            cause: Cause::Unclosed,
            at,
        });
    }
    if parser.mixes_ids() {
        return Err(LayoutFault {
            cause: Cause::MixedReportId,
            at,
        });
    }
    Ok(())
}

/// The fields that a report descriptor lists within limits.
///
/// # Errors
/// A descriptor that is too long is refused before its items are looked at. Otherwise the first item with a cause decides,
/// by the first of its causes in the order in which an item is looked at ([`Cause`]); after the last item Unclosed
/// comes before MixedReportId. Where memory runs out the cause is Memory, at 0.
pub fn list_fields(
    alloc: Global,
    limits: Limits,
    descriptor: &[u8],
) -> Result<ListedFields, LayoutFault>
    // The descriptor's items are accepted, and the fields are theirs.
    ensures ok { IfOk result (λ listed. (before : List EncodedItem) × Accepts limits descriptor.now before
        × ListsFields before listed) }
    // Memory ran out, or this is the one refusal.
    ensures err { IfErr result (λ f. Explains limits descriptor.now f.cause f.at) }
{
    if descriptor.len() > MAX_DESCRIPTOR {
        return Err(LayoutFault {
            cause: Cause::TooLong,
            at: MAX_DESCRIPTOR,
        });
    }
    let parser = parse_items(alloc, limits, descriptor)?;
    match check_end(&parser, descriptor) {
        Ok(()) => Ok(into_fields(parser)),
        Err(f) => Err(f),
    }
}
