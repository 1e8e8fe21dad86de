//! What is drawn of a descriptor.

ghost use Rattle.std.specs.Prelude.{◌≡◌, ◌++◌, ◌<◌, ◌≤◌, ◌^◌, All, length, IfOk, OnOk, string_bytes};
ghost use Rattle.std.specs.Option.{option_map};
ghost use Rattle.hid_drawing.specs.Items.{IsWholeItem};
ghost use Rattle.hid_page.specs.Drawing.{all_characters, form_text, IsDrawn, begin_count, IsDrawingRefusal};

use crate::page::{is_drawn, print_characters, print_page, print_refused, print_svg};
use hid_drawing::{listed_places, place_of, read_items};
use hid_items::Item;
use hid_layout::Layout;
use hid_notation::RefusalText;
use std::alloc::{AllocError, Global};

/// What is asked for.
#[derive(Clone, Copy, Debug)]
pub enum Form {
    /// An HTML page.
    Page,
    /// The picture of a report alone, by its place among the reports.
    Svg(usize),
    /// The pictures of all reports in characters, for a terminal of so many columns.
    Characters(u16),
}

/// Adds the pictures of all reports in characters.
#[tactic(auto, unfolding(crate::specs::Drawing::all_characters))]
fn print_all_characters(
    alloc: Global,
    text: &mut String,
    layout: &Layout,
    items: &[Item],
    mains: &[usize],
    width: u16,
) -> Result<(), AllocError>
    ensures { OnOk result (string_bytes text.new
        ≡ string_bytes text.old ++ all_characters width layout.now items.now mains.now) }
{
    for r in 0..layout.reports().len() {
        print_characters(alloc, text, width, layout, items, mains, r)?;
        text.push_str("\n")?;
    }
    Ok(())
}

/// What is drawn by the items and the places of the main items.
fn draw_form(
    alloc: Global,
    layout: &Layout,
    form: Form,
    items: &[Item],
    mains: &[usize],
) -> Result<Option<String>, AllocError>
    requires { All IsWholeItem items.now }
    ensures { IfOk result (λ text. option_map (λ t. string_bytes t) text
        ≡ form_text form layout.now items.now mains.now) }
{
    let mut text = String::new(alloc);
    match form {
        Form::Page => print_page(alloc, &mut text, layout, items, mains)?,
        Form::Characters(width) => {
            print_all_characters(alloc, &mut text, layout, items, mains, width)?
        }
        Form::Svg(r) => {
            if r >= layout.reports().len() || !is_drawn(layout, r) {
                return Ok(None);
            }
            print_svg(alloc, &mut text, layout, items, mains, r)?
        }
    }
    Ok(Some(text))
}

/// What is drawn of a layout and its descriptor. There is no picture alone of a report that there isn't, or that has over
/// [`MAX_DRAWN`](crate::MAX_DRAWN) bytes.
///
/// # Errors
/// Out of memory.
pub fn draw(
    alloc: Global,
    layout: &Layout,
    descriptor: &[u8],
    form: Form,
) -> Result<Option<String>, AllocError>
    requires { length descriptor.now < 2 ^ 64 }
    ensures { IfOk result (λ text. IsDrawn descriptor.now form layout.now
        (option_map (λ t. string_bytes t) text)) }
{
    let items = read_items(alloc, descriptor)?;
    let mains = listed_places(alloc, &items)?;
    draw_form(alloc, layout, form, &items, &mains)
}

/// How many of the items begin up to a place.
fn begun_below(items: &[Item], at: usize) -> usize
    ensures value { result ≡ begin_count items.now at (length items.now) }
    ensures few { result ≤ length items.now }
{
    let mut count = 0;
    for k in 0..items.len() {
        if place_of(items, k) <= at {
            count = k + 1;
        }
    }
    count
}

/// The page of a descriptor that is refused: the items up to the place of the refusal, and why.
///
/// # Errors
/// Out of memory.
pub fn draw_refused(
    alloc: Global,
    descriptor: &[u8],
    refusal: RefusalText,
) -> Result<String, AllocError>
    requires { length descriptor.now < 2 ^ 64 }
    ensures { IfOk result (λ text. IsDrawingRefusal descriptor.now refusal (string_bytes text)) }
{
    let items = read_items(alloc, descriptor)?;
    let words = refusal.to_string(alloc)?;
    let count = begun_below(&items, refusal.fault.at);
    let mut text = String::new(alloc);
    print_refused(alloc, &mut text, &items, count, words.as_str())?;
    Ok(text)
}
