//! The line that names an endpoint whose reports have no descriptor.

ghost use Rattle.std.specs.Prelude.{◌≡◌, Some};
ghost use Rattle.hidplay.specs.UndescribedLine.{plural, undescribed_text};

use hid_capture::UndescribedEndpoint;
use std::fmt;

/// An endpoint whose reports have no descriptor, and what can be done.
#[derive(Clone, Copy, Debug)]
pub struct UndescribedLine {
    pub endpoint: UndescribedEndpoint,
}

/// What stands after the word for more than one of a thing.
fn plural(count: u64) -> &'static str
    ensures { result.now ≡ plural count }
{
    if count == 1 { "" } else { "s" }
}

/// The address of an endpoint, as `1.4.1`.
#[derive(Clone, Copy)]
struct AddressText(UndescribedEndpoint);

impl fmt::Display for AddressText {
    ghost use Rattle.hidplay.specs.UndescribedLine.{address_text};

    ghost output = { λ shown. Some (address_text shown.0) };

    fn fmt<W: fmt::Write>(&self, f: &mut fmt::Formatter<W>) -> fmt::Result {
        let UndescribedEndpoint {
            bus,
            device,
            endpoint,
            ..
        } = self.0;
        write!(f, "{bus}.{device}.{endpoint}")
    }
}

impl fmt::Display for UndescribedLine {
    ghost output = { λ line. Some (undescribed_text line.endpoint) };

    fn fmt<W: fmt::Write>(&self, f: &mut fmt::Formatter<W>) -> fmt::Result {
        let address = AddressText(self.endpoint);
        let count = self.endpoint.transfers;
        let ending = plural(count);
        if self.endpoint.is_hid {
            write!(
                f,
                "endpoint {address}: {count} report{ending} without a descriptor: give it by --descriptor FILE"
            )
        } else {
            write!(
                f,
                "endpoint {address}: {count} report{ending}, if it is HID: --descriptor FILE --endpoint {address}"
            )
        }
    }
}
