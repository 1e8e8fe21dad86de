//! How far a driver has come with its device: what it waits for.
use usb_control::Setup;

/// How far a driver has come with its device: the request that is to be made next (USB 2.0, 9.1.1, 9.2.6 and 9.4; HID 1.11,
/// 7.1 and 7.2; the states are our choice).
///
/// | state | request | done | STALL or failed |
/// |---|---|---|---|
/// | `Device` | GET_DESCRIPTOR: the device, 18 bytes | read: `Length` | `Refused` |
/// | `Length` | GET_DESCRIPTOR: the configuration, 9 bytes | its length: `Configuration` | `Refused` |
/// | `Configuration` | GET_DESCRIPTOR: the configuration, all of it | its HID interfaces: `Configure` | `Refused` |
/// | `Configure` | SET_CONFIGURATION with its number | next | `Refused` |
/// | `Idle` | SET_IDLE 0 of an interface | `Report` | `Report` |
/// | `Report` | GET_DESCRIPTOR: the report descriptor of the interface | the interface is live, or refused; next | it is refused; next |
/// | `Clear` | CLEAR_FEATURE: ENDPOINT_HALT of an interface | the interface is live; next | it is stopped; next |
/// | `Protocol` | SET_PROTOCOL of an interface | the report protocol: it waits for its report descriptor; the boot protocol: it stays without; next | STALL: as before the request; failed: it stays without; next |
/// | `Asked` | what was asked for | next | next |
/// | `Ready` | none | - | - |
/// | `Refused` | none, until a reset | - | - |
///
/// Next is the SET_IDLE of the first interface whose report descriptor wasn't asked for; else the CLEAR_FEATURE of the first
/// one whose endpoint is halted; else `Ready`. Bytes that can't be read refuse the device, or the interface that they are of.
/// Where memory runs out the state stays, and the request is to be made again. A STALL to an interrupt transfer of a live
/// interface halts it, and leads from `Ready` to `Clear`. An ask leads from `Ready` to `Asked`. A protocol that is asked for
/// leads from `Ready` to `Protocol`; the reports of that interface aren't read from then on. A reset leads to `Device`.
#[derive(Clone, Copy, Debug, PartialEq, Eq)]
pub enum DriverState {
    /// It waits for the device descriptor.
    Device,
    /// It waits for the first nine bytes of the configuration.
    Length,
    /// It waits for the configuration.
    Configuration {
        /// In bytes, with all descriptors that belong to it: wTotalLength.
        length: u16,
    },
    /// It waits for the device to be configured.
    Configure {
        /// bConfigurationValue.
        number: u8,
    },
    /// It waits for an interface to report on change alone (HID 1.11, 7.2.4).
    Idle {
        /// Its place in the list.
        interface: usize,
    },
    /// It waits for the report descriptor of an interface.
    Report {
        /// Its place in the list.
        interface: usize,
    },
    /// It waits for the halt of an interface's endpoint to be cleared (USB 2.0, 9.4.1 and 9.4.5).
    Clear {
        /// Its place in the list.
        interface: usize,
    },
    /// It waits for an interface to take a protocol (HID 1.11, 7.2.6).
    Protocol {
        /// Its place in the list.
        interface: usize,
        /// Whether the boot protocol is asked for.
        boot: bool,
        /// Whether the interface may have sent boot reports before.
        was_boot: bool,
    },
    /// It waits for what was asked for.
    Asked {
        /// The request.
        setup: Setup,
    },
    /// It reads reports, and waits for nothing.
    Ready,
    /// Its device can't be read.
    Refused,
}

/// What a request that was done led to.
#[derive(Clone, Copy, Debug, PartialEq, Eq)]
pub enum Moved {
    /// The next step of bringing the device up.
    Onward,
    /// The reports of the interface at this place are read from now on.
    Live {
        /// Its place in the list.
        interface: usize,
    },
    /// The interface at this place is refused; its state has the cause.
    Refused {
        /// Its place in the list.
        interface: usize,
    },
    /// The halt of an endpoint is cleared: the reports of its interface are read again.
    Cleared {
        /// The place of the interface in the list.
        interface: usize,
    },
    /// The halt of an endpoint couldn't be cleared: no reports of its interface are read until a reset.
    Stopped {
        /// The place of the interface in the list.
        interface: usize,
    },
    /// What was asked for is done.
    Answered,
}
