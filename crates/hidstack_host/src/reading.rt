//! What an interface's layout and view show.
ghost use Rattle.std.specs.Prelude.{◌≡◌, option_map};
ghost use Rattle.std.specs.Option.{option_copied};
ghost use Rattle.hid_driver.specs.Holding.{pipe_at};
ghost use Rattle.hidstack_host.specs.Reading.{element_shown, held_shown, layout_shown, value_shown};

use hid_driver::{Driver, Layout, View};
use hid_layout::ControlId;
use hidstack_session::HidElement;

/// The layout of the interface at a place, once its report descriptor is read.
pub fn layout_at(driver: &Driver, place: usize) -> Option<&Layout>
    ensures { option_copied result ≡ layout_shown driver.now place }
{
    match driver.interfaces().get(place) {
        Some(interface) => interface.layout(),
        None => None,
    }
}

/// The view of the interface at a place, once its report descriptor is read.
fn view_at(driver: &Driver, place: usize) -> Option<&View>
    ensures { option_copied result ≡ option_map (λ pipe. pipe.receiving.view) (pipe_at driver.now.interfaces place) }
{
    match driver.interfaces().get(place) {
        Some(interface) => interface.view(),
        None => None,
    }
}

/// The record of the data element at a place of a listed item of an interface; none past the last, of padding, and where no
/// report descriptor is read.
pub fn element_at(driver: &Driver, place: usize, item: usize, index: usize) -> Option<HidElement>
    ensures { result ≡ element_shown driver.now place item index }
{
    match layout_at(driver, place) {
        Some(layout) => hidstack_session::element_at(layout, item, index),
        None => None,
    }
}

/// Whether a switch or a key of an interface is held; false for another control, and where there is none. None where no report
/// descriptor is read.
pub fn held_at(driver: &Driver, place: usize, control: ControlId) -> Option<bool>
    ensures { result ≡ held_shown driver.now place control.item control.index }
{
    match view_at(driver, place) {
        Some(view) => Some(view.held(control)),
        None => None,
    }
}

/// The value of an absolute control of an interface; none where it is null, of another control, where there is none, and where no
/// report descriptor is read.
pub fn value_at(driver: &Driver, place: usize, control: ControlId) -> Option<i64>
    ensures { result ≡ value_shown driver.now place control.item control.index }
{
    match view_at(driver, place) {
        Some(view) => view.value(control),
        None => None,
    }
}
