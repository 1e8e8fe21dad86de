//! A request, and the bytes that encode it (USB 2.0, 9.3).
ghost use Rattle.std.specs.Prelude.{◌≡◌};
ghost use Rattle.usb_control.specs.SetupBytes.{setup_bytes, setup_of, reads};

/// A request: the eight bytes of setup data, by their fields (USB 2.0, table 9-2).
#[derive(Clone, Copy, Debug, PartialEq, Eq)]
pub struct Setup {
    /// bmRequestType: bit 7 is the direction of the data, bits 6 and 5 the type, the low bits the recipient.
    pub request_type: u8,
    /// bRequest.
    pub request: u8,
    /// wValue.
    pub value: u16,
    /// wIndex.
    pub index: u16,
    /// wLength: in bytes, what a read asks for at most, and what a write sends.
    pub length: u16,
}

impl Setup {
    /// The bytes that encode the request: its fields in order, words with their low byte first (USB 2.0, 8.1).
    pub fn to_bytes(&self) -> [u8; 8]
        ensures value { result ≡ setup_bytes self.now }
        ensures back { setup_of result ≡ self.now }
    {
        let Setup {
            request_type,
            request,
            value,
            index,
            length,
        } = *self;
        let [value_low, value_high] = value.to_le_bytes();
        let [index_low, index_high] = index.to_le_bytes();
        let [length_low, length_high] = length.to_le_bytes();
        [
            request_type,
            request,
            value_low,
            value_high,
            index_low,
            index_high,
            length_low,
            length_high,
        ]
    }

    /// The request that the bytes encode: any eight bytes encode one.
    pub fn from_bytes(bytes: &[u8; 8]) -> Setup
        ensures value { result ≡ setup_of bytes.now }
        ensures back { setup_bytes result ≡ bytes.now }
    {
        let [
            request_type,
            request,
            value_low,
            value_high,
            index_low,
            index_high,
            length_low,
            length_high,
        ] = *bytes;
        Setup {
            request_type,
            request,
            value: u16::from_le_bytes([value_low, value_high]),
            index: u16::from_le_bytes([index_low, index_high]),
            length: u16::from_le_bytes([length_low, length_high]),
        }
    }

    /// Whether the request reads: its data go to the host. Else it writes.
    pub fn is_read(&self) -> bool
        ensures { result ≡ reads self.now }
    {
        self.request_type >= 0x80
    }
}
