//! What a handle's view shows: held switches and keys, and values.

ghost use Rattle.std.specs.Prelude.{◌≡◌, Some};
ghost use Rattle.hid_snapshots.specs.Snapshots.{is_pressed, state_at};
ghost use Rattle.hid_snapshots.specs.Views.{value_in};
ghost use Rattle.hidstack_session.specs.Elements.{one_of};
ghost use Rattle.hidstack.specs.Accessors.{ShowsView};

use crate::handle::Handle;
use crate::status::{CLOSED, NONE, OK};
use hidstack_session::ControlId;
use std::alloc::Global;

/// Whether a switch or a key is held: 1, else 0; 0 of another control too, and where there is none.
#[unsafe(no_mangle)]
pub extern "C" fn hidstack_held(
    alloc: Global,
    handle: &mut Handle,
    item: u64,
    index: u64,
    held: &mut u32,
) -> u32
    ensures kept { handle.new.kept ≡ handle.old.kept }
    ensures shown { ShowsView (λ view. Some (one_of (is_pressed (state_at view item) index)))
        handle.old.kept held.old result held.new }
{
    let Some(session) = handle.take(alloc) else {
        return CLOSED;
    };
    let is_held = session.held(ControlId {
        item: item as usize,
        index: index as usize,
    });
    *handle = Handle::of(session);
    *held = if is_held { 1 } else { 0 };
    OK
}

/// The value of an absolute control. It has none where it is null, and neither has another control.
#[unsafe(no_mangle)]
pub extern "C" fn hidstack_value(
    alloc: Global,
    handle: &mut Handle,
    item: u64,
    index: u64,
    value: &mut i64,
) -> u32
    ensures kept { handle.new.kept ≡ handle.old.kept }
    ensures shown { ShowsView (λ view. value_in (state_at view item) index) handle.old.kept value.old
        result value.new }
{
    let Some(session) = handle.take(alloc) else {
        return CLOSED;
    };
    let now = session.value(ControlId {
        item: item as usize,
        index: index as usize,
    });
    *handle = Handle::of(session);
    match now {
        Some(number) => {
            *value = number;
            OK
        }
        None => NONE,
    }
}
