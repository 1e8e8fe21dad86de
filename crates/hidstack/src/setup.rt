//! A request as a record (USB 2.0, 9.3).

ghost use Rattle.std.specs.Prelude.{◌≡◌};
ghost use Rattle.hidstack.specs.Setups.{setup_of, setup_record};

use hidstack_device::Setup;

/// The setup data of a control transfer, by their fields (USB 2.0, table 9-2).
#[repr(C)]
#[derive(Clone, Copy)]
pub struct HidSetup {
    /// bmRequestType: bit 7 is the direction of the data.
    pub request_type: u8,
    /// bRequest.
    pub request: u8,
    /// wValue.
    pub value: u16,
    /// wIndex.
    pub index: u16,
    /// wLength: in bytes, what a read asks for at most, and what a write sends.
    pub length: u16,
}

/// The request of a record.
pub(crate) fn setup_of(given: &HidSetup) -> Setup
    ensures { result ≡ setup_of given.now }
{
    let HidSetup {
        request_type,
        request,
        value,
        index,
        length,
    } = *given;
    Setup {
        request_type,
        request,
        value,
        index,
        length,
    }
}

/// The record of a request.
pub(crate) fn setup_record(setup: Setup) -> HidSetup
    ensures { result ≡ setup_record setup }
{
    let Setup {
        request_type,
        request,
        value,
        index,
        length,
    } = setup;
    HidSetup {
        request_type,
        request,
        value,
        index,
        length,
    }
}
