//! The endpoints whose data came while no report descriptor was known for them.

ghost use Rattle.std.specs.Prelude.{◌≡◌, not, filter, map, OnOk};
ghost use Rattle.std.specs.List.{list_any};
ghost use Rattle.hid_capture.specs.Undescribed.{is_undescribed, with_transfer, with_endpoint, with_transfer_of, is_on_hub};

use std::alloc::AllocError;

/// How many endpoints without a report descriptor are kept at most (our choice).
pub const MAX_UNDESCRIBED: usize = 16;

/// An endpoint whose data came while no report descriptor was known for them.
#[derive(Clone, Copy, Debug, PartialEq, Eq)]
pub struct UndescribedEndpoint {
    pub bus: u16,
    /// The device's address.
    pub device: u16,
    /// The endpoint's number.
    pub endpoint: u8,
    /// Whether its interface is known to be of the class HID.
    pub is_hid: bool,
    /// How many transfers with data came. It stops at the greatest `u64`.
    pub transfers: u64,
}

/// Whether an endpoint is this one.
fn is_undescribed(known: &UndescribedEndpoint, bus: u16, device: u16, endpoint: u8) -> bool
    ensures { result ≡ is_undescribed bus device endpoint known.now }
{
    known.bus == bus && known.device == device && known.endpoint == endpoint
}

/// Whether an endpoint is among these.
fn has_undescribed(known: &[UndescribedEndpoint], bus: u16, device: u16, endpoint: u8) -> bool
    ensures { result ≡ list_any (is_undescribed bus device endpoint) known.now }
{
    known
        .iter()
        .any(|known| is_undescribed(known, bus, device, endpoint))
}

/// Counts a transfer, if it is of this endpoint.
fn count_at(known: &mut UndescribedEndpoint, bus: u16, device: u16, endpoint: u8, is_hid: bool)
    ensures { known.new ≡ with_transfer bus device endpoint is_hid known.old }
{
    if is_undescribed(known, bus, device, endpoint) {
        known.is_hid = known.is_hid || is_hid;
        known.transfers = known.transfers.saturating_add(1);
    }
}

/// Counts a transfer of an endpoint that is among these.
fn count_known(known: &mut [UndescribedEndpoint], bus: u16, device: u16, endpoint: u8, is_hid: bool)
    ensures { known.new ≡ map (with_transfer bus device endpoint is_hid) known.old }
{
    for one in known.iter_mut() {
        count_at(one, bus, device, endpoint, is_hid);
    }
}

/// Adds an endpoint, if there is room for it.
fn add_undescribed(
    known: &mut Vec<UndescribedEndpoint>,
    one: UndescribedEndpoint,
) -> Result<(), AllocError>
    ensures { OnOk result (known.new.items ≡ with_endpoint known.old.items one) }
{
    if known.len() < MAX_UNDESCRIBED {
        known.push(one)?;
    }
    Ok(())
}

/// Counts a transfer of an endpoint.
///
/// # Errors
/// [`AllocError`] if memory runs out for the endpoint.
pub(crate) fn count_transfer(
    known: &mut Vec<UndescribedEndpoint>,
    bus: u16,
    device: u16,
    endpoint: u8,
    is_hid: bool,
) -> Result<(), AllocError>
    ensures { OnOk result (known.new.items ≡ with_transfer_of known.old.items bus device endpoint is_hid) }
{
    if has_undescribed(known, bus, device, endpoint) {
        count_known(known, bus, device, endpoint, is_hid);
        return Ok(());
    }
    add_undescribed(
        known,
        UndescribedEndpoint {
            bus,
            device,
            endpoint,
            is_hid,
            transfers: 1,
        },
    )
}

/// Forgets an endpoint: a descriptor is given for it.
pub(crate) fn forget_undescribed(
    known: &mut Vec<UndescribedEndpoint>,
    bus: u16,
    device: u16,
    endpoint: u8,
)
    ensures { known.new.items ≡ filter (λ one. not (is_undescribed bus device endpoint one)) known.old.items }
{
    known.retain(|one| !is_undescribed(one, bus, device, endpoint));
}

/// Whether an endpoint is of this device, and not known as one of a HID interface: that was another device at the address.
fn is_on_hub(known: &UndescribedEndpoint, bus: u16, device: u16) -> bool
    ensures { result ≡ is_on_hub bus device known.now }
{
    known.bus == bus && known.device == device && !known.is_hid
}

/// Forgets the endpoints of a device that is a hub: they say which ports changed.
pub(crate) fn forget_hub(known: &mut Vec<UndescribedEndpoint>, bus: u16, device: u16)
    ensures { known.new.items ≡ filter (λ one. not (is_on_hub bus device one)) known.old.items }
{
    known.retain(|one| !is_on_hub(one, bus, device));
}
