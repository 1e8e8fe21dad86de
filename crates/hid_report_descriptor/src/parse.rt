//! The parser after all items of a descriptor.

ghost use Rattle.std.specs.Prelude.{◌≡◌, List, [], ◌≤◌, length, IfOk, IfErr, OnOk};
ghost use Rattle.hid_report_descriptor.specs.Items.{EncodedItem};
ghost use Rattle.hid_report_descriptor.specs.Faults.{Reaches, Explains};
ghost use Rattle.hid_report_descriptor.specs.Parser.{HasStateAfter, cut_item_place, fault_place};

use crate::fault::{Cause, LayoutFault};
use crate::limits::{Limits, MAX_DESCRIPTOR};
use crate::parser::Parser;
use hid_items::{Item, ItemFault, Items};
use std::alloc::Global;

/// The refusal for a cause at a place; running out of memory is at 0.
fn fault(cause: Cause, at: usize) -> LayoutFault
    ensures cause { result.cause ≡ cause }
    ensures at { result.at ≡ fault_place cause at }
{
    let at = match cause {
        Cause::Memory => 0,
        _ => at,
    };
    LayoutFault { cause, at }
}

/// The place of the item that is cut off.
fn truncated_at(e: ItemFault) -> usize
    ensures { result ≡ cut_item_place e }
{
    match e {
        ItemFault::Truncated { at } => at,
    }
}

/// Takes all items, by a parser that has taken none.
fn take_items(parser: &mut Parser, limits: Limits, descriptor: &[u8]) -> Result<(), LayoutFault>
    requires short { length descriptor.now ≤ MAX_DESCRIPTOR }
    requires fresh { HasStateAfter [] parser.old }
    ensures ok { OnOk result ((before : List EncodedItem)
        × Reaches limits descriptor.now (length descriptor.now) before × HasStateAfter before parser.new) }
    ensures err { IfErr result (λ f. Explains limits descriptor.now f.cause f.at) }
{
    if parser.make_room(descriptor.len()).is_err() {
        return Err(fault(Cause::Memory, 0));
    }
    for next in Items::new(descriptor) {
        match next {
            Ok(item) => {
                match parser.take(limits, &item) {
                    Ok(()) => {}
                    Err(cause) => return Err(fault(cause, item.at)),
                }
            }
            Err(e) => return Err(fault(Cause::Truncated, truncated_at(e))),
        }
    }
    Ok(())
}

/// The parser after all items.
pub(crate) fn parse_items(
    alloc: Global,
    limits: Limits,
    descriptor: &[u8],
) -> Result<Parser, LayoutFault>
    requires { length descriptor.now ≤ MAX_DESCRIPTOR }
    ensures ok { IfOk result (λ parser. (before : List EncodedItem)
        × Reaches limits descriptor.now (length descriptor.now) before × HasStateAfter before parser) }
    ensures err { IfErr result (λ f. Explains limits descriptor.now f.cause f.at) }
{
    let mut parser = match Parser::new(alloc) {
        Ok(parser) => parser,
        Err(_) => return Err(LayoutFault::memory()),
    };
    match take_items(&mut parser, limits, descriptor) {
        Ok(()) => Ok(parser),
        Err(f) => Err(f),
    }
}
