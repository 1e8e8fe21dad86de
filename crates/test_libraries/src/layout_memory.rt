//! Out of memory, where a descriptor is read: each test is also run with each of its allocations refused in turn.

use hid_layout::boot::{KEYBOARD, MOUSE};
use hid_layout::{Layout, LayoutFault};
use std::alloc::Global;

/// Whether a layout has n items, or memory runs out, which is reported at 0.
fn is_whole_or_wants(alloc: Global, descriptor: &[u8], items: usize) -> bool {
    match Layout::parse(alloc, descriptor) {
        Ok(layout) => layout.items().len() == items,
        Err(fault) => fault == LayoutFault::memory(),
    }
}

/// Where memory runs out, that is reported; else the layout is whole.
#[test]
fn out_of_memory_is_reported(rt: HostRuntime) {
    assert!(rt; is_whole_or_wants(rt.alloc(), &KEYBOARD, 5));
    assert!(rt; is_whole_or_wants(rt.alloc(), &MOUSE, 3));
}
