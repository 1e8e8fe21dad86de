//! The bytes by which a report shows its part.

ghost use Rattle.std.specs.Prelude.{◌≡◌, ◌<◌, ◌≤◌, ℕ, List, ◌+◌, ◌*◌, ◌++◌, replicate, length, slice_get, Some, true, ◌&&◌};
ghost use Rattle.arrayvec.specs.ArrayVec.{array_vec_len};
ghost use Rattle.hid_snapshots.specs.Numbers.{KeepsOutside};
ghost use Rattle.hid_layout.specs.Reports.{first_bit, HasElements, IsLayout, report_bytes, report_id};
ghost use Rattle.hid_report_descriptor.specs.declared.limits.TheConstants.{MAX_REPORT_BYTES, MAX_REAL_REPORT_BYTES};
ghost use Rattle.hid_report_descriptor.specs.Usages.{usage_list};
ghost use Rattle.hid_layout.specs.Controls.{items_of};
ghost use Rattle.hid_snapshots.specs.ControlStates.{FitsShown};
ghost use Rattle.hid_snapshots.specs.Parts.{IsInput, has_zeros};
ghost use Rattle.hid_layout.specs.Codes.{AreCodes};
ghost use Rattle.hid_snapshots.specs.Codes.{has_empty_codes};
ghost use Rattle.hid_snapshots.specs.Encoding.{is_data_in, field_place, bare_report, numbers_at, item_numbers, numbers_of_shape, part_numbers, CanSend, CanSendAll, HasFewPlaces, AreBytes, IsEncoding, IsOnlyEncoding, Shows};
ghost use Rattle.hid_snapshots.specs.PartBytes.{part_bytes};

use crate::control_state::ControlState;
use crate::items::{item_at, plan_of};
use crate::numbers::put_all;
use crate::sent_numbers::Sending;
use crate::shown::Shown;
use arrayvec::ArrayVec;
use hid_fields::FieldCodec;
use hid_layout::{Codes, Layout, MainItem, Shape, Usage, null_number};

/// Appends this many bytes of 0.
fn push_zeros(bytes: &mut ArrayVec<u8, 256>, count: usize)
    requires { array_vec_len bytes.old + count ≤ 256 }
    ensures items { bytes.new.items ≡ bytes.old.items ++ replicate count 0 }
    ensures len { array_vec_len bytes.new ≡ array_vec_len bytes.old + count }
{
    for k in 0..count {
        bytes.push(0);
    }
}

/// The Report ID of a report.
fn id_of(layout: &Layout, report: usize) -> u8
    requires { report < length layout.now.reports }
    ensures { result ≡ report_id layout.now report }
{
    layout.reports()[report].id
}

/// A report of at most 256 bytes, all of them zeros after its ID where there are IDs, in the place of other bytes.
pub fn bare_report(layout: &Layout, report: usize, bytes: &mut ArrayVec<u8, 256>)
    requires layout { IsLayout layout.now }
    requires report { report < length layout.now.reports }
    requires short { report_bytes layout.now report ≤ MAX_REPORT_BYTES }
    ensures items { bytes.new.items ≡ bare_report layout.now report }
    ensures len { array_vec_len bytes.new ≡ report_bytes layout.now report }
    ensures bytes { AreBytes bytes.new.items }
{
    let count = layout.report_bytes(report);
    bytes.clear();
    if layout.numbered() {
        bytes.push(id_of(layout, report));
        push_zeros(bytes, count - 1);
    } else {
        push_zeros(bytes, count);
    }
}

/// Whether an item has data elements in the report.
fn is_data(item: &MainItem, report: usize) -> bool
    ensures { result ≡ is_data_in report item.now }
{
    let padding = match item.shape {
        Shape::Padding => true,
        Shape::Variable | Shape::Array => false,
    };
    item.report == report && !padding
}

/// The first bit after a report's ID, where reports are numbered (HID 1.11, 5.6).
pub fn first_bit(layout: &Layout) -> usize
    ensures value { result ≡ first_bit layout.now }
    ensures small { result ≤ 8 }
{
    if layout.numbered() { 8 } else { 0 }
}

/// Writes the elements of an item.
#[tactic(auto, using(crate::proofs::EncodingLemmas::sending))]
fn write_item<C: FieldCodec>(
    layout: &Layout,
    i: usize,
    item: &MainItem,
    state: &ControlState,
    bytes: &mut [u8],
)
    requires listed { slice_get layout.now.items i ≡ Some item.now }
    requires elements { HasElements item.now }
    requires layout { IsLayout layout.now }
    requires places { HasFewPlaces state.now }
    requires can { CanSend item.now (numbers_at layout.now i state.now) }
    requires short { length bytes.old ≤ MAX_REAL_REPORT_BYTES }
    requires room { field_place layout.now item.now + item.now.size * item.now.count
        ≤ 8 * length bytes.old }
    ensures written { item_numbers layout.now bytes.new item.now
        ≡ numbers_at layout.now i state.now }
    ensures others { KeepsOutside (field_place layout.now item.now) (item.now.size * item.now.count)
        bytes.old bytes.new }
{
    let numbers = send_item(layout, i, item, state);
    put_all::<C>(
        bytes,
        first_bit(layout) + item.offset,
        item.size,
        item.count as usize,
        numbers,
    );
}

/// The state of the item at a place in the parts.
fn state_at(shown: &Shown, i: usize) -> &ControlState
    requires { i < length shown.now }
    ensures { slice_get shown.now i ≡ Some result.now }
{
    &shown.states[i]
}

/// Writes the elements of an item, where it has some in the report.
fn show_item<C: FieldCodec>(
    layout: &Layout,
    report: usize,
    i: usize,
    shown: &Shown,
    bytes: &mut [u8],
)
    requires layout { IsLayout layout.now }
    requires part { CanSendAll layout.now report shown.now }
    requires listed { i < length layout.now.items }
    requires whole { length bytes.old ≡ report_bytes layout.now report }
    ensures shows { (before : List ℕ)
        → Shows layout.now report (part_numbers layout.now shown.now) i before bytes.old
        → Shows layout.now report (part_numbers layout.now shown.now) (i + 1) before bytes.new }
    ensures bytes { AreBytes bytes.new }
{
    let item = item_at(layout, i);
    if is_data(item, report) {
        write_item::<C>(layout, i, item, state_at(shown, i), bytes);
    }
}

/// The bytes of an Input report that show its part: the report's ID first where there are IDs, then each element with its
/// number, and 0 in every bit that no data element covers (HID 1.11, 5.6, 5.8, 5.10 and 8). They are as many as the report
/// has, which are at most 256. The parts suit the layout, every array of an Input report has a code for an empty element, and every
/// relative control can send 0. No memory is taken.
pub fn encode_report<C: FieldCodec>(
    layout: &Layout,
    report: usize,
    shown: &Shown,
) -> ArrayVec<u8, 256>
    requires input { IsInput layout.now report }
    requires short { report_bytes layout.now report ≤ MAX_REPORT_BYTES }
    requires fits { FitsShown (items_of layout.now) shown.now }
    requires empty_codes { has_empty_codes layout.now ≡ true }
    requires zeros { has_zeros (items_of layout.now) ≡ true }
    // These bytes, and no others, show the part.
    ensures shows { IsEncoding layout.now report (part_numbers layout.now shown.now) result.items }
    ensures only { IsOnlyEncoding layout.now report (part_numbers layout.now shown.now)
        result.items }
    ensures bytes { result.items ≡ part_bytes layout.now report shown.now }
{
    let mut bytes = ArrayVec::new();
    write_report::<C>(layout, report, shown, &mut bytes);
    bytes
}

/// Writes the bytes of [`encode_report`], under its conditions, in the place of other bytes: a caller that keeps the room
/// copies no report.
#[tactic(auto, using(crate::proofs::EncodingLemmas::whole_report))]
pub fn write_report<C: FieldCodec>(
    layout: &Layout,
    report: usize,
    shown: &Shown,
    bytes: &mut ArrayVec<u8, 256>,
)
    requires input { IsInput layout.now report }
    requires short { report_bytes layout.now report ≤ MAX_REPORT_BYTES }
    requires fits { FitsShown (items_of layout.now) shown.now }
    requires empty_codes { has_empty_codes layout.now ≡ true }
    requires zeros { has_zeros (items_of layout.now) ≡ true }
    // These bytes, and no others, show the part.
    ensures shows { IsEncoding layout.now report (part_numbers layout.now shown.now) bytes.new.items }
    ensures only { IsOnlyEncoding layout.now report (part_numbers layout.now shown.now)
        bytes.new.items }
    ensures bytes { bytes.new.items ≡ part_bytes layout.now report shown.now }
    ensures small { AreBytes bytes.new.items }
{
    let places = plan_of(layout, report);
    bare_report(layout, report, bytes);
    for place in places {
        show_item::<C>(layout, report, *place, shown, bytes);
    }
}

/// The numbers of an item's elements.
fn send_item<'a>(layout: &Layout, i: usize, item: &MainItem, state: &'a ControlState) -> Sending<'a>
    requires listed { slice_get layout.now.items i ≡ Some item.now }
    requires layout { IsLayout layout.now }
    requires elements { HasElements item.now }
    requires can { CanSend item.now (numbers_at layout.now i state.now) }
    requires places { HasFewPlaces state.now }
    ensures { result ≡ numbers_at layout.now i state.now }
{
    let entries = layout.entries(i);
    match item.shape {
        Shape::Padding => Sending::none(),
        Shape::Variable => send_elements(item, entries, state),
        Shape::Array => send_array(item, entries, &layout.codes(i), state),
    }
}

/// The numbers of a variable item's elements, by its state.
fn send_elements<'a>(
    item: &MainItem,
    entries: &[(Usage, Usage)],
    state: &'a ControlState,
) -> Sending<'a>
    requires elements { HasElements item.now }
    requires can { CanSend item.now (numbers_of_shape item.now entries.now Shape.Variable state.now) }
    ensures { result ≡ numbers_of_shape item.now entries.now Shape.Variable state.now }
{
    match state {
        ControlState::Switches(flags) => Sending::switches(flags),
        ControlState::Values(values) => Sending::values(values, null_number(item).unwrap_or(0)),
        ControlState::Motions(motions) => Sending::motions(motions),
        ControlState::Absent | ControlState::RollOver(_) => Sending::none(),
    }
}

/// The numbers of an array's elements, by its state.
#[tactic(auto, using(crate::proofs::EncodingLemmas::keys_sent))]
fn send_array<'a>(
    item: &MainItem,
    entries: &[(Usage, Usage)],
    codes: &Codes,
    state: &'a ControlState,
) -> Sending<'a>
    requires codes { AreCodes item.now (usage_list entries.now) codes.now }
    requires elements { HasElements item.now }
    requires few_entries { length entries.now ≤ 64 }
    requires can { CanSend item.now (numbers_of_shape item.now entries.now Shape.Array state.now) }
    requires places { HasFewPlaces state.now }
    ensures { result ≡ numbers_of_shape item.now entries.now Shape.Array state.now }
{
    match state {
        ControlState::Switches(flags) => {
            let rest = item.count as usize - flags.count();
            Sending::keys(flags, item.min, rest, codes.empty.unwrap_or(0))
        }
        ControlState::RollOver(_) => Sending::same(
            item.count as usize,
            codes.rollover.unwrap_or(0),
        ),
        _ => Sending::none(),
    }
}
