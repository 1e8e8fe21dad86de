//! Descriptors one after another (USB 2.0, 9.5): each begins with its length and its type.
ghost use Rattle.std.specs.Prelude.{◌≡◌, ◌↔◌, ◌++◌, List, ℕ, true, IsTrue, IfSome, IfNone};
ghost use Rattle.usb_control.specs.Descriptors.{HasWalk, IsDescriptor, IsWalk};
ghost use Rattle.usb_control.specs.Search.{FindsDescriptor, is_wanted};

/// A descriptor that a host looks for.
#[derive(Clone, Copy)]
pub enum Wanted {
    /// An interface.
    Interface,
    /// An interface of class 03, of nine bytes at least.
    HidInterface,
    /// A HID descriptor of nine bytes at least.
    Hid,
    /// An endpoint of seven bytes at least: interrupt, to the host.
    InterruptIn,
}

/// The type of an interface descriptor (USB 2.0, table 9-5).
const INTERFACE: u8 = 0x04;

/// The type of an endpoint descriptor (USB 2.0, table 9-5).
const ENDPOINT: u8 = 0x05;

/// The type of a HID descriptor (HID 1.11, 7.1).
const HID: u8 = 0x21;

/// The class of human interface devices (HID 1.11, 4.1).
const HID_CLASS: u8 = 0x03;

impl Wanted {
    /// Whether this descriptor is one that is looked for.
    fn is(self, descriptor: &[u8]) -> bool
        ensures { result ≡ is_wanted self descriptor.now }
    {
        match self {
            Wanted::Interface => descriptor.len() > 1 && descriptor[1] == INTERFACE,
            Wanted::HidInterface => {
                descriptor.len() >= 9 && descriptor[1] == INTERFACE && descriptor[5] == HID_CLASS
            }
            Wanted::Hid => descriptor.len() >= 9 && descriptor[1] == HID,
            Wanted::InterruptIn => {
                descriptor.len() >= 7
                    && descriptor[1] == ENDPOINT
                    && descriptor[2] >= 0x80
                    && descriptor[3] % 4 == 3
            }
        }
    }
}

/// The first descriptor of these bytes, and what is after it.
fn next_descriptor(bytes: &[u8]) -> Option<(&[u8], &[u8])>
    ensures found { IfSome result (λ parts. IsDescriptor parts.0.now
        × (bytes.now ≡ parts.0.now ++ parts.1.now)) }
    ensures none { IfNone result ((descriptor behind : List ℕ) → IsDescriptor descriptor
        → bytes.now ≡ descriptor ++ behind → ⊥) }
{
    let [first, ..] = bytes else {
        return None;
    };
    let size = usize::from(*first);
    if size < 2 || bytes.len() < size {
        return None;
    }
    Some(bytes.split_at(size))
}

/// Whether the bytes are descriptors, each as long as its first byte says.
pub fn is_walk(bytes: &[u8]) -> bool
    ensures { IsTrue result ↔ HasWalk bytes.now }
{
    let mut rest = bytes;
    while let Some((_, behind)) = next_descriptor(rest) {
        rest = behind;
    }
    rest.is_empty()
}

/// Bytes cut at a descriptor.
#[derive(Clone, Copy)]
pub struct Split<'a> {
    /// The descriptors before it.
    pub before: &'a [u8],
    /// The descriptor.
    pub found: &'a [u8],
    /// The descriptors after it.
    pub behind: &'a [u8],
}

/// The bytes cut at the first descriptor that is wanted.
pub fn first(bytes: &[u8], wanted: Wanted) -> Option<Split<'_>>
    ensures walks { (descriptors : List (List ℕ)) → IsWalk bytes.now descriptors
        → FindsDescriptor (is_wanted wanted) descriptors result }
    ensures found { IfSome result (λ split. is_wanted wanted split.found.now ≡ true) }
{
    let mut at = 0;
    let mut rest = bytes;
    while let Some((found, behind)) = next_descriptor(rest) {
        if wanted.is(found) {
            let before = &bytes[..at];
            return Some(Split {
                before,
                found,
                behind,
            });
        }
        at += found.len();
        rest = behind;
    }
    None
}
