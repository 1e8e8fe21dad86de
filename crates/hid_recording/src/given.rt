//! A report descriptor that isn't in a capture.

/// An endpoint of a device on a bus.
#[derive(Clone, Copy, Debug, PartialEq, Eq)]
pub struct EndpointAddress {
    pub bus: u16,
    /// The device's address.
    pub device: u16,
    /// The number of the endpoint, without its direction.
    pub endpoint: u8,
}

/// A report descriptor for interfaces that have none in a capture.
#[derive(Clone, Copy, Debug)]
pub struct GivenDescriptor<'a> {
    pub bytes: &'a [u8],
    /// The endpoint whose interface it is of, if one is named; else it is of each HID interface without a descriptor.
    pub endpoint: Option<EndpointAddress>,
}
