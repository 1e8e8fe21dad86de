//! Descriptors that a line of the text names: of hid-recorder, umockdev, usbhid-dump, lsusb and libinput.

ghost use Rattle.std.specs.Prelude.{◌≡◌, ◌≤◌, [], Ok, Some, None, IfOk, IfSome, MatchResult, false, true, is_none, length, drop};
ghost use Rattle.std.specs.Option.{option_copied, option_and_then};
ghost use Rattle.hid_input.specs.declared.found.Shape.TheVariants.{List as InList};
ghost use Rattle.hid_input.specs.Spelled.{spelled_bytes, some_answer};
ghost use Rattle.std.specs.Result.{result_ok};
ghost use Rattle.hid_input.specs.Answer.{Reads, names_itself};
ghost use Rattle.hid_input.specs.Recorded.{IsFault};
ghost use Rattle.hid_input.specs.Text.{is_newline, lines_of, parts_below, split_at};
ghost use Rattle.hid_input.specs.Named.{mark_of, mark_place, is_hex, is_heading, may_stand, stand, line_bytes, shape_bytes, ends_rows, rows_from, record_answer, below_answer, end_line, yaml_to, yaml_answer, named_answer, fault_of, record_fault, HasFault};

use crate::fault::{InputCause, InputFault};
use crate::found::{Found, Shape};
use crate::items::{add_item_line, is_lsusb, is_unavailable, length_in};
use crate::recorded::{
    RecordedFault, after_letter, after_property, has_time, is_beside, is_descriptor, is_libinput,
    is_stream, read_hex, read_recorded,
};
use crate::spelled::{found_whole, read_spelled};
use crate::text::{is_empty_line, line_at, split_at_character, split_line, without_space};
use crate::words::{Parting, Reading, add_words};
use std::alloc::{AllocError, Global};

/// The shape of the descriptor that a line names.
fn mark_of(line: &[u8]) -> Option<Shape>
    ensures { result ≡ mark_of line.now }
{
    if after_letter(line).is_some() || after_property(line).is_some() {
        Some(Shape::Recording)
    } else if is_descriptor(line) {
        Some(Shape::Block)
    } else if length_in(line).is_some() || is_unavailable(line) {
        Some(Shape::Items)
    } else if without_space(line).starts_with(b"hid: [") {
        Some(Shape::List)
    } else {
        None
    }
}

/// Where the first line begins that names a descriptor.
pub fn mark_place(text: &[u8]) -> Option<usize>
    ensures place { result ≡ mark_place 0 (lines_of text.now) }
    ensures bound { IfSome result (λ place. place ≤ length text.now) }
{
    let mut rest = text;
    let mut at = 0usize;
    loop {
        let (line, below) = split_line(rest);
        if mark_of(line).is_some() {
            return Some(at);
        }
        at = at + line.len() + 1;
        rest = below?;
    }
}

/// Whether a line has hex and white space alone.
fn is_hex(line: &[u8]) -> bool
    ensures { result ≡ is_hex line.now }
{
    line.iter().all(|byte| byte.is_ascii_hexdigit() || byte.is_ascii_whitespace())
}

/// Whether a line is a heading of usbhid-dump: its word, and a time.
fn is_heading(line: &[u8]) -> bool
    ensures { result ≡ is_heading line.now }
{
    (is_descriptor(line) || is_stream(line)) && has_time(line)
}

/// Whether a line may stand in a text with a descriptor of a shape, perhaps below a heading of usbhid-dump. Those of a libinput record
/// are YAML, and aren't looked at.
fn may_stand(line: &[u8], shape: Shape, is_block: bool) -> bool
    ensures { result ≡ may_stand shape is_block line.now }
{
    match shape {
        Shape::Recording => is_beside(line),
        Shape::Block => (is_block && is_hex(line)) || is_empty_line(line) || is_heading(line),
        Shape::Items => is_lsusb(line),
        _ => true,
    }
}

/// The fault of the first line of a text that may not stand there: another one that names a descriptor than that of this number, or one
/// that the program doesn't print that wrote that.
fn fault_beside(text: &[u8], first: u64, shape: Shape) -> Option<InputFault>
    ensures { is_none result ≡ stand shape text.now }
{
    let mut rest = text;
    let mut number = 1u64;
    let mut has_mark = false;
    let mut is_block = false;
    loop {
        let (line, below) = split_line(rest);
        let is_mark = mark_of(line).is_some();
        if is_mark && has_mark {
            let second = number;
            return Some(InputFault::of_text(InputCause::Several { first, second }));
        }
        if !may_stand(line, shape, is_block) {
            return Some(InputFault::of_line(number, InputCause::OtherLine));
        }
        has_mark = has_mark || is_mark;
        is_block = is_heading(line) || (is_block && !is_empty_line(line));
        rest = below?;
        number = number.saturating_add(1);
    }
}

/// The bytes of a line that has them after its mark.
fn read_line(alloc: Global, line: &[u8]) -> Result<Vec<u8>, RecordedFault>
    ensures { MatchResult result (λ bytes. line_bytes line.now ≡ Ok bytes.items) (λ fault. IsFault fault (line_bytes line.now)) }
{
    if let Some(text) = after_letter(line) {
        return read_recorded(alloc, text);
    }
    match after_property(line) {
        Some(text) => read_hex(alloc, text),
        None => read_hex(alloc, &[]),
    }
}

/// The descriptor that a line has by `R:` or `H:`.
fn read_record(alloc: Global, text: &[u8], number: u64, line: &[u8]) -> Result<Found, InputFault>
    ensures answer { Reads (record_answer text.now (line_bytes line.now)) result }
    ensures fault { HasFault (fault_of (line_bytes line.now)) result }
{
    let bytes = match read_line(alloc, line) {
        Ok(bytes) => bytes,
        Err(RecordedFault::Memory) => return Err(InputFault::of_text(InputCause::Memory)),
        Err(fault) => return Err(InputFault::of_line(number, InputCause::Recorded(fault))),
    };
    match fault_beside(text, number, Shape::Recording) {
        Some(fault) => Err(fault),
        None => Ok(Found {
            bytes,
            shape: Shape::Recording,
            lines: None,
        }),
    }
}

/// The bytes of a line below one that names a descriptor; or how many stand before what is none.
fn read_row(alloc: Global, line: &[u8], shape: Shape) -> Result<Result<Vec<u8>, u64>, AllocError>
    ensures { IfOk result (λ read. MatchResult read (λ bytes. shape_bytes shape line.now ≡ Some bytes.items) (λ _. shape_bytes shape line.now ≡ None)) }
{
    let mut bytes = Vec::new(alloc);
    let is_read = match shape {
        Shape::Items => add_item_line(alloc, &mut bytes, line)?,
        _ => add_words(&mut bytes, line, Reading::Runs, Parting::Space)?.is_none(),
    };
    if is_read {
        Ok(Ok(bytes))
    } else {
        Ok(Err(bytes.len() as u64))
    }
}

/// Whether a line ends the lines of a descriptor of usbhid-dump: an empty one.
fn ends_rows(line: &[u8], shape: Shape) -> bool
    ensures { result ≡ ends_rows shape line.now }
{
    match shape {
        Shape::Items => false,
        _ => is_empty_line(line),
    }
}

/// The fault of a line with this many bytes before what is none.
fn bad_line(number: u64, shape: Shape, at: u64) -> InputFault {
    let cause = match shape {
        Shape::Items => InputCause::OtherLine,
        _ => InputCause::Recorded(RecordedFault::BadHex { at }),
    };
    InputFault::of_line(number, cause)
}

/// The bytes of the lines below one with this number, and the number of the last line that has some. usbhid-dump writes 16 in each line
/// but the last, and an empty line below it.
fn read_rows(
    alloc: Global,
    text: Option<&[u8]>,
    first: u64,
    shape: Shape,
) -> Result<Result<(Vec<u8>, u64), InputFault>, AllocError>
    ensures { IfOk result (λ read. MatchResult read (λ rows. rows_from shape false [] first first (parts_below is_newline (option_copied text.entry)) ≡ Some (rows.0.items, rows.1)) (λ _. rows_from shape false [] first first (parts_below is_newline (option_copied text.entry)) ≡ None)) }
{
    let mut bytes = Vec::new(alloc);
    let mut number = first;
    let mut last = first;
    let mut was_short = false;
    let mut below = text;
    while let Some(rest) = below {
        let (line, more) = split_line(rest);
        if ends_rows(line, shape) {
            return Ok(Ok((bytes, last)));
        }
        number = number.saturating_add(1);
        let row = match read_row(alloc, line, shape)? {
            Ok(row) if !was_short => row,
            Ok(_) => return Ok(Err(bad_line(number, Shape::Items, 0))),
            Err(at) => return Ok(Err(bad_line(number, shape, at))),
        };
        was_short = shape == Shape::Block && row.len() != 16;
        last = if row.is_empty() { last } else { number };
        bytes.extend_from_slice(row.as_slice())?;
        below = more;
    }
    Ok(Ok((bytes, last)))
}

/// The descriptor in the lines below one with this number, which may say how many bytes it has.
fn read_below(
    alloc: Global,
    text: &[u8],
    number: u64,
    said: Option<u64>,
    below: Option<&[u8]>,
    shape: Shape,
) -> Result<Found, InputFault>
    requires { names_itself shape ≡ true }
    ensures { Reads (below_answer shape text.now number said (parts_below is_newline (option_copied below.entry))) result }
{
    let (bytes, last) = match read_rows(alloc, below, number, shape)? {
        Ok(rows) => rows,
        Err(fault) => return Err(fault),
    };
    let found = bytes.len() as u64;
    if let Some(said) = said {
        if said != found {
            let cause = RecordedFault::BadCount { said, found };
            return Err(InputFault::of_line(number, InputCause::Recorded(cause)));
        }
    }
    if found == 0 {
        return Err(InputFault::of_line(number, InputCause::NoDescriptor));
    }
    match fault_beside(text, number, shape) {
        Some(fault) => Err(fault),
        None => Ok(Found {
            bytes,
            shape,
            lines: Some((number.saturating_add(1), last)),
        }),
    }
}

/// The descriptor that the elements of a list are, from these lines.
#[tactic(auto, using(crate::proofs::AnswerLemmas::out_of_memory))]
fn read_elements(alloc: Global, list: &[u8], lines: (u64, u64)) -> Result<Found, InputFault>
    ensures { Reads (option_and_then (some_answer InList (Some lines)) (spelled_bytes list.now)) result }
{
    match read_spelled(alloc, list)? {
        Ok(bytes) => found_whole(bytes, Shape::List, Some(lines)),
        Err(_) => Err(InputFault::of_line(lines.0, InputCause::NoDescriptor)),
    }
}

/// The number of the line in which a list ends that begins in a line of this number.
fn end_line(number: u64, list: &[u8]) -> u64
    ensures { result ≡ end_line number list.now }
{
    number.saturating_add(line_at(list, list.len()).saturating_sub(1))
}

/// The descriptor in this list of a libinput record, which begins in a line with this number. Behind it nothing stands in its last line.
fn read_inside(
    alloc: Global,
    text: &[u8],
    number: u64,
    list: &[u8],
    behind: &[u8],
) -> Result<Found, InputFault>
    ensures { Reads (yaml_to text.now number (Some (list.now, behind.now))) result }
{
    let (end, _) = split_line(behind);
    if !is_empty_line(end) || !is_libinput(text) {
        return Err(InputFault::of_line(number, InputCause::Beside));
    }
    if let Some(fault) = fault_beside(text, number, Shape::List) {
        return Err(fault);
    }
    read_elements(alloc, list, (number, end_line(number, list)))
}

/// The descriptor in the list of a libinput record, which begins in a line with this number.
fn read_yaml(alloc: Global, text: &[u8], number: u64, rest: &[u8]) -> Result<Found, InputFault>
    ensures { Reads (yaml_answer text.now number (split_at 91 rest.now)) result }
{
    let Some((_, list)) = split_at_character(rest, b'[') else {
        return Err(InputFault::of_line(number, InputCause::NoDescriptor));
    };
    let Some((inside, behind)) = split_at_character(list, b']') else {
        return Err(InputFault::of_line(number, InputCause::NoDescriptor));
    };
    read_inside(alloc, text, number, inside, behind)
}

/// The descriptor that a line of a text names, which begins at this place.
///
/// # Errors
/// [`InputCause::Recorded`], [`InputCause::Several`], [`InputCause::OtherLine`], [`InputCause::Beside`],
/// [`InputCause::Unavailable`], [`InputCause::NotWhole`], [`InputCause::Memory`].
pub fn read_named(alloc: Global, text: &[u8], place: usize) -> Result<Found, InputFault>
    requires { place ≤ length text.now }
    ensures answer { Reads (named_answer text.now place) result }
    ensures fault { HasFault (record_fault (lines_of (drop place text.now))) result }
{
    let number = line_at(text, place);
    let rest = &text[place..];
    let (line, below) = split_line(rest);
    match mark_of(line) {
        Some(Shape::Recording) => read_record(alloc, text, number, line),
        Some(Shape::Block) => read_below(alloc, text, number, None, below, Shape::Block),
        Some(Shape::Items) => match length_in(line) {
            Some(said) => read_below(alloc, text, number, Some(said), below, Shape::Items),
            None => Err(InputFault::of_text(InputCause::Unavailable)),
        },
        _ => read_yaml(alloc, text, number, rest),
    }
}
