//! Descriptors one after another (USB 2.0, 9.5): each begins with its length and its type.
ghost use Rattle.std.specs.Prelude.{◌≡◌, ◌↔◌, ◌++◌, List, ℕ, IsTrue, IfSome, IfNone, find, option_copied};
ghost use Rattle.usb_control.specs.Descriptors.{HasWalk, IsDescriptor, IsWalk, is_interface, report_length};
ghost use Rattle.hid_interfaces.specs.Interfaces.{is_listed, is_wanted, own_descriptors};

/// The type of an interface descriptor (USB 2.0, table 9-5).
const INTERFACE: u8 = 0x04;

/// The type of an endpoint descriptor (USB 2.0, table 9-5).
const ENDPOINT: u8 = 0x05;

/// The type of a HID descriptor (HID 1.11, 7.1).
const HID: u8 = 0x21;

/// The type of a report descriptor, in the entries of a HID descriptor (HID 1.11, 7.1).
const REPORT: u8 = 0x22;

/// The class of human interface devices (HID 1.11, 4.1).
const HID_CLASS: u8 = 0x03;

/// A descriptor that is looked for among those of an interface.
#[derive(Clone, Copy)]
pub enum Wanted {
    /// A HID descriptor of nine bytes at least.
    Hid,
    /// An endpoint of seven bytes at least: interrupt, to the host, of a number other than 0.
    InterruptIn,
}

impl Wanted {
    /// Whether this descriptor is one that is looked for.
    fn is(self, descriptor: &[u8]) -> bool
        ensures { result ≡ is_wanted self descriptor.now }
    {
        match self {
            Wanted::Hid => descriptor.len() >= 9 && descriptor[1] == HID,
            Wanted::InterruptIn => {
                descriptor.len() >= 7
                    && descriptor[1] == ENDPOINT
                    && descriptor[2] >= 0x80
                    && descriptor[3] % 4 == 3
                    && descriptor[2] % 16 != 0
            }
        }
    }
}

/// Whether it is an interface.
fn is_interface(descriptor: &[u8]) -> bool
    ensures { result ≡ is_interface descriptor.now }
{
    descriptor.len() > 1 && descriptor[1] == INTERFACE
}

/// Whether it is a whole interface of the class of human interface devices, in its first setting.
pub fn is_listed(descriptor: &[u8]) -> bool
    ensures { result ≡ is_listed descriptor.now }
{
    descriptor.len() >= 9
        && descriptor[1] == INTERFACE
        && descriptor[5] == HID_CLASS
        && descriptor[3] == 0
}

/// The first descriptor of these bytes, and what is after it.
pub fn next_descriptor(bytes: &[u8]) -> Option<(&[u8], &[u8])>
    ensures found { IfSome result (λ parts. IsDescriptor parts.0.now
        × (bytes.now ≡ parts.0.now ++ parts.1.now)) }
    ensures none { IfNone result ((descriptor behind : List ℕ) → IsDescriptor descriptor
        → bytes.now ≡ descriptor ++ behind → ⊥) }
{
    let [first, ..] = bytes else {
        return None;
    };
    let size = usize::from(*first);
    if size < 2 || bytes.len() < size {
        return None;
    }
    Some(bytes.split_at(size))
}

/// Whether the bytes are descriptors, each as long as its first byte says.
pub fn is_walk(bytes: &[u8]) -> bool
    ensures { IsTrue result ↔ HasWalk bytes.now }
{
    let mut rest = bytes;
    while let Some((_, behind)) = next_descriptor(rest) {
        rest = behind;
    }
    rest.is_empty()
}

/// The first descriptor of an interface that is wanted, by the descriptors after it.
pub fn first_own(behind: &[u8], wanted: Wanted) -> Option<&[u8]>
    ensures finds { (descriptors : List (List ℕ)) → IsWalk behind.now descriptors
        → option_copied result ≡ find (is_wanted wanted) (own_descriptors descriptors) }
    ensures wanted { IfSome result (λ found. IsTrue (is_wanted wanted found.now)) }
{
    let mut rest = behind;
    while let Some((found, more)) = next_descriptor(rest) {
        if is_interface(found) {
            return None;
        }
        if wanted.is(found) {
            return Some(found);
        }
        rest = more;
    }
    None
}

/// The length that a HID descriptor gives its report descriptor: of the entries of three bytes from byte 6 on, a type
/// and a word, the first of type 22.
pub fn report_length(hid: &[u8]) -> Option<u16>
    ensures { result ≡ report_length hid.now }
{
    let mut entries = &hid[hid.len().min(6)..];
    while let [kind, low, high, rest @ ..] = entries {
        if *kind == REPORT {
            return Some(u16::from_le_bytes([*low, *high]));
        }
        entries = rest;
    }
    None
}
