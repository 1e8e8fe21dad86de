//! Why a frame is no URB.

/// Why a frame is no URB. It is printed as its code, and in words.
#[derive(Clone, Copy, Debug, PartialEq, Eq)]
pub enum UrbFault {
    /// Q1: its link type is none of 220, 189 and 249.
    OtherLink,
    /// Q2: it has fewer bytes than its header, or than the SETUP packet or the isochronous packets that it says it has.
    TooShort,
    /// Q3: it is neither a submission nor a completion nor an error of usbmon.
    BadEvent,
    /// Q4: its transfer is neither isochronous nor interrupt nor control nor bulk.
    BadTransfer,
}
