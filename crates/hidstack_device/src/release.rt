//! All that is pressed is let go of at once.

ghost use Rattle.std.specs.Prelude.{◌≡◌, ◌<◌, length};
ghost use Rattle.hid_layout.specs.Controls.{items_of};
ghost use Rattle.hidstack_device.specs.Releasing.{core_with_item_let_go, core_with_release, released_core};

use crate::find::place_count;
use hid_gadget::{Change, Gadget};
use hid_layout::ControlId;

/// Releases the switch or the key at a place of a listed item, where one is there.
fn release_at(gadget: &mut Gadget, item: usize, index: usize)
    ensures { gadget.new ≡ core_with_release gadget.old item index }
{
    // For the prover: what holds of every device.
    let _ = gadget.layout();

    // A control that can't be released isn't pressed.
    let _ = gadget.change(Change::Release(ControlId { item, index }));
}

/// Releases each switch and key of a listed item.
fn release_item(gadget: &mut Gadget, item: usize)
    requires { item < length (items_of gadget.old.layout) }
    ensures { gadget.new ≡ core_with_item_let_go gadget.old item }
{
    for index in 0..place_count(gadget.layout(), item) {
        release_at(gadget, item, index);
    }
}

/// Releases each switch and key that is pressed. Values stay, and so does motion that isn't reported yet.
pub fn release_all(gadget: &mut Gadget)
    ensures { gadget.new ≡ released_core gadget.old }
{
    for item in 0..gadget.layout().items().len() {
        release_item(gadget, item);
    }
}
