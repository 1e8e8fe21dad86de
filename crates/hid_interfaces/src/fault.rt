//! Why a configuration, or one of its interfaces, is refused.
use std::alloc::AllocError;
use std::fmt;

/// Why a configuration can't be read: the first of these that stands. It is printed as its code.
#[derive(Clone, Copy, Debug, PartialEq, Eq)]
pub enum ConfigurationFault {
    /// B1: there are under nine bytes, or the first descriptor has fewer (USB 2.0, 9.6.3).
    TooShort,
    /// B2: the first descriptor isn't that of a configuration (USB 2.0, table 9-5).
    WrongType,
    /// B7: wTotalLength is under 9 or over 4,096 (our choice), or another number of bytes came (USB 2.0, 9.6.3).
    TotalLength,
    /// B11: the bytes are no descriptors one after another, each as long as its first byte says (USB 2.0, 9.5).
    NoDescriptors,
    /// B12: bConfigurationValue is 0, by which SET_CONFIGURATION chooses no configuration (USB 2.0, 9.4.7).
    NoNumber,
    /// B3: no interface, in its first setting, has the class of human interface devices (USB 2.0, 9.6.5; HID 1.11, 4.1).
    NoHidInterface,
    /// B10: there was no memory for the list of interfaces.
    Memory,
}

impl fmt::Display for ConfigurationFault {
    ghost use Rattle.std.specs.Prelude.{Some};
    ghost use Rattle.hid_interfaces.specs.Fault.{configuration_code_of};

    ghost output = { λ fault. Some (configuration_code_of fault) };

    fn fmt<W: fmt::Write>(&self, f: &mut fmt::Formatter<W>) -> fmt::Result {
        f.write_str(match self {
            ConfigurationFault::TooShort => "B1",
            ConfigurationFault::WrongType => "B2",
            ConfigurationFault::TotalLength => "B7",
            ConfigurationFault::NoDescriptors => "B11",
            ConfigurationFault::NoNumber => "B12",
            ConfigurationFault::NoHidInterface => "B3",
            ConfigurationFault::Memory => "B10",
        })
    }
}

impl From<AllocError> for ConfigurationFault {
    ghost use Rattle.std.specs.Prelude.{◌≡◌};
    ghost use Rattle.hid_interfaces.specs.declared.fault.ConfigurationFault.TheVariants.{Memory};

    ghost from_gives = { λ _ fault. fault ≡ Memory };

    fn from(_: AllocError) -> ConfigurationFault {
        ConfigurationFault::Memory
    }
}

/// Why an interface can't be read: the first of these that stands. It is printed as its code.
#[derive(Clone, Copy, Debug, PartialEq, Eq)]
pub enum InterfaceFault {
    /// B13: an earlier interface that can be read has its number: no request names one of them alone (USB 2.0, 9.3.4 and 9.6.5).
    SharedNumber,
    /// B4: its HID descriptor is missing, or names no report descriptor, or an empty one (HID 1.11, 6.2.1).
    NoReportDescriptor,
    /// B5: it has no interrupt-IN endpoint of a number other than 0 (USB 2.0, 9.6.6).
    NoEndpoint,
    /// B8: wMaxPacketSize of the endpoint is 0 or over 1,024 (USB 2.0, 5.7.3 and 9.6.6).
    PacketSize,
    /// B9: an earlier interface that can be read has the endpoint (USB 2.0, 9.6.6).
    SharedEndpoint,
}

impl fmt::Display for InterfaceFault {
    ghost use Rattle.std.specs.Prelude.{Some};
    ghost use Rattle.hid_interfaces.specs.Fault.{interface_code_of};

    ghost output = { λ fault. Some (interface_code_of fault) };

    fn fmt<W: fmt::Write>(&self, f: &mut fmt::Formatter<W>) -> fmt::Result {
        f.write_str(match self {
            InterfaceFault::SharedNumber => "B13",
            InterfaceFault::NoReportDescriptor => "B4",
            InterfaceFault::NoEndpoint => "B5",
            InterfaceFault::PacketSize => "B8",
            InterfaceFault::SharedEndpoint => "B9",
        })
    }
}
