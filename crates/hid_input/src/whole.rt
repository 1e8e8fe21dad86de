//! Whether bytes are one whole report descriptor (HID 1.11, 6.2.2).

ghost use Rattle.std.specs.Prelude.{◌≡◌, ◌==◌, ◌≤◌, drop, length, Some, IfErr, MatchOption, ℕ, List};
ghost use Rattle.hid_input.specs.declared.whole.DescriptorFault.{DescriptorFault};
ghost use Rattle.std.specs.List.{list_all};
ghost use Rattle.std.specs.Result.{result_ok};
ghost use Rattle.hid_items.specs.Reading.{first_kind};
ghost use Rattle.hid_input.specs.Descriptor.{IsDescriptor, IsFault, cut_place, is_first};

use hid_items::{Item, ItemFault, ItemKind, Items};
use std::fmt;

/// Why bytes aren't one whole report descriptor.
#[derive(Clone, Copy, Debug, PartialEq, Eq)]
pub enum DescriptorCause {
    /// The bytes end in the middle of an item.
    Truncated,
    /// An End Collection that no Collection matches.
    EndWithout,
    /// A Collection is open at the end.
    Unclosed,
    /// No descriptor goes on so: an item that HID 1.11 doesn't have, or not there; or the end without a Collection.
    Other,
}

/// Why bytes aren't one whole report descriptor, and how many of them are before that.
#[derive(Clone, Copy, Debug, PartialEq, Eq)]
pub struct DescriptorFault {
    /// How many bytes are before it.
    pub at: usize,
    /// What is wrong there.
    pub cause: DescriptorCause,
}

impl fmt::Display for DescriptorFault {
    ghost use Rattle.std.specs.Prelude.{Some};
    ghost use Rattle.hid_input.specs.Faults.{descriptor_text};

    ghost output = { λ fault. Some (descriptor_text fault) };

    fn fmt<W: fmt::Write>(&self, f: &mut fmt::Formatter<W>) -> fmt::Result {
        let at = self.at;
        match self.cause {
            DescriptorCause::Truncated => write!(f, "L1 at {at}: an item is cut off"),
            DescriptorCause::EndWithout => {
                write!(f, "L6 at {at}: an End Collection without its Collection")
            }
            DescriptorCause::Unclosed => write!(f, "L7 at {at}: a Collection is open at the end"),
            DescriptorCause::Other => write!(f, "byte {at}: no report descriptor goes on so"),
        }
    }
}

/// What stands so far, after some items.
#[derive(Clone, Copy, Debug, PartialEq, Eq)]
pub struct Progress {
    /// How many collections are open.
    pub depth: u64,
    /// Whether there was an item.
    pub is_begun: bool,
    /// Whether a Usage was there since the last Main item.
    pub has_usage: bool,
    /// Whether the last item is a Usage Page.
    pub is_page: bool,
    /// Whether the last item is an End Collection that closes all collections.
    pub is_closed: bool,
}

/// Nothing stands before the first item.
const START: Progress = Progress {
    depth: 0,
    is_begun: false,
    has_usage: false,
    is_page: false,
    is_closed: false,
};

/// Whether a descriptor may begin with a short item: a Usage Page of one or two bytes, or a Usage of four. The high byte of a page is 0,
/// or F0 or over, as makers' pages have it.
fn is_first(prefix: u8, item: &[u8]) -> bool
    ensures { result ≡ is_first prefix item.now }
{
    let length = item.len();
    (prefix == 0x04 && length == 2)
        || (((prefix == 0x04 && length == 3) || (prefix == 0x08 && length == 5))
            && (item[length - 1] == 0 || item[length - 1] >= 0xF0))
}

impl Progress {
    ghost use Rattle.hid_items.specs.ItemEncoding.{prefix_of};
    ghost use Rattle.hid_input.specs.Descriptor.{may_follow, after_prefix, after_item, item_cause};

    /// Whether a short item may come next. Outside of collections each has data, and no Usage Page follows another.
    fn may_follow(self, prefix: u8, item: &[u8]) -> bool
        ensures { result ≡ may_follow self prefix item.now }
    {
        if !self.is_begun {
            return is_first(prefix, item);
        }
        let length = item.len();
        let is_inside = self.depth > 0;
        if !is_inside && length == 1 {
            return false;
        }
        match prefix {
            0x80 | 0x90 | 0xB0 | 0xC0 => is_inside,
            0xA0 => is_inside || self.has_usage,
            0xA4 | 0xB4 => length == 1,
            0x04 => is_inside || !self.is_page,
            0x08
            | 0x14
            | 0x18
            | 0x24
            | 0x28
            | 0x34
            | 0x38
            | 0x44
            | 0x48
            | 0x54
            | 0x58
            | 0x64
            | 0x74
            | 0x78
            | 0x84
            | 0x88
            | 0x94
            | 0x98
            | 0xA8 => true,
            _ => false,
        }
    }

    /// After a short item.
    fn after_prefix(self, prefix: u8) -> Progress
        ensures { result ≡ after_prefix self prefix }
    {
        let depth = match prefix {
            0xA0 => self.depth.saturating_add(1),
            0xC0 => self.depth.saturating_sub(1),
            _ => self.depth,
        };
        Progress {
            depth,
            is_begun: true,
            has_usage: prefix % 16 != 0 && (self.has_usage || prefix == 0x08 || prefix == 0x18),
            is_page: prefix == 0x04,
            is_closed: prefix == 0xC0 && depth == 0,
        }
    }

    /// After an item, or why it can't come next. Long items (HID 1.11, 6.2.2.3) have no meaning yet.
    fn after(self, item: &Item<'_>) -> Result<Progress, DescriptorCause>
        requires { item.now.kind ≡ first_kind item.now.bytes.now }
        ensures next { result_ok result ≡ after_item self item.now.bytes.now }
        ensures cause { IfErr result (λ cause. cause ≡ item_cause (prefix_of item.now.bytes.now)) }
    {
        match item.kind {
            ItemKind::Short { prefix } if self.may_follow(prefix, item.bytes) => {
                Ok(self.after_prefix(prefix))
            }
            ItemKind::Short { prefix: 0xC0 } => Err(DescriptorCause::EndWithout),
            _ => Err(DescriptorCause::Other),
        }
    }
}

/// Whether each byte is zero.
fn all_zero(bytes: &[u8]) -> bool
    ensures { result ≡ list_all (λ byte. byte == 0) bytes.now }
{
    bytes.iter().all(|byte| *byte == 0)
}

/// Whether each byte from a place on is zero.
fn are_zeros(bytes: &[u8], from: usize) -> bool
    requires { from ≤ length bytes.now }
    ensures { result ≡ list_all (λ byte. byte == 0) (drop from bytes.now) }
{
    all_zero(&bytes[from..])
}

/// How many bytes are before an item that is cut off.
fn cut_place(fault: ItemFault) -> usize
    ensures { result ≡ cut_place fault }
{
    let ItemFault::Truncated { at } = fault;
    at
}

/// A fault at a place.
fn fault(at: usize, cause: DescriptorCause) -> Option<DescriptorFault>
    ensures { result ≡ Some (record { at = at; cause = cause }) }
{
    Some(DescriptorFault { at, cause })
}

/// Why bytes aren't one whole report descriptor, if they aren't.
pub fn descriptor_fault(bytes: &[u8]) -> Option<DescriptorFault>
    ensures { MatchOption result (IsDescriptor bytes.now) (λ fault. IsFault bytes.now fault) }
{
    let length = bytes.len();
    let mut progress = START;
    for next in Items::new(bytes) {
        let item = match next {
            Ok(item) => item,
            Err(cut) => return fault(cut_place(cut), DescriptorCause::Truncated),
        };
        progress = match progress.after(&item) {
            Ok(progress) => progress,
            Err(cause) => return fault(item.at, cause),
        };
        if progress.is_closed && are_zeros(bytes, item.at + item.bytes.len()) {
            return None;
        }
    }
    if progress.depth > 0 {
        return fault(length, DescriptorCause::Unclosed);
    }
    fault(length, DescriptorCause::Other)
}

/// Bytes with a fault are no whole descriptor.
pub fn faults_are_true()
    ensures { (bytes : List ℕ) (fault : DescriptorFault) → IsFault bytes fault → IsDescriptor bytes → ⊥ }
{
    hid_items::laws::prefix_free();
}
