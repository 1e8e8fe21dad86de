//! The causes of refusals as numbers: those of their codes.
ghost use Rattle.std.specs.Prelude.{◌≡◌};
ghost use Rattle.hidstack_host.specs.Causes.{cause_code, configuration_number, detail_number, fault_number, info_number, interface_number, report_number};

use hid_driver::{
    ConfigurationFault, DriverFault, InfoFault, InterfaceCause, InterfaceFault, ReportFault,
};
use hidstack_session::cause_number;

/// The code of a cause: `B13`, `L10` with its place, `H8`.
#[derive(Clone, Copy, Debug)]
pub struct Code {
    /// The letter, in ASCII.
    pub letter: u8,
    /// The number after it.
    pub number: u32,
    /// Where the refused item begins in the report descriptor, in bytes, of an L; else 0.
    pub at: u64,
}

/// The number of the code of a refusal: 1 for H1 to 16 for H16.
pub fn fault_number(fault: DriverFault) -> u32
    ensures { result ≡ fault_number fault }
{
    match fault {
        DriverFault::NoRequest => 1,
        DriverFault::Memory => 2,
        DriverFault::NoInterface => 3,
        DriverFault::NotRead => 4,
        DriverFault::Busy => 5,
        DriverFault::NoReport => 6,
        DriverFault::TooLong => 7,
        DriverFault::Stalled => 8,
        DriverFault::Failed => 9,
        DriverFault::Device(_) => 10,
        DriverFault::Configuration(_) => 11,
        DriverFault::Report(_) => 12,
        DriverFault::LongTransfer => 13,
        DriverFault::BootProtocol => 14,
        DriverFault::NoBootProtocol => 15,
        DriverFault::WrongId => 16,
    }
}

/// The number of a B of a device descriptor.
fn info_number(fault: InfoFault) -> u32
    ensures { result ≡ info_number fault }
{
    match fault {
        InfoFault::TooShort => 1,
        InfoFault::WrongType => 2,
        InfoFault::NoHidInterface => 3,
        InfoFault::NoReportDescriptor => 4,
        InfoFault::NoEndpoint => 5,
    }
}

/// The number of a B of a configuration.
fn configuration_number(fault: ConfigurationFault) -> u32
    ensures { result ≡ configuration_number fault }
{
    match fault {
        ConfigurationFault::TooShort => 1,
        ConfigurationFault::WrongType => 2,
        ConfigurationFault::TotalLength => 7,
        ConfigurationFault::NoDescriptors => 11,
        ConfigurationFault::NoNumber => 12,
        ConfigurationFault::NoHidInterface => 3,
        ConfigurationFault::Memory => 10,
    }
}

/// The number of a U.
fn report_number(fault: ReportFault) -> u32
    ensures { result ≡ report_number fault }
{
    match fault {
        ReportFault::Short => 8,
        ReportFault::UnknownReport => 9,
    }
}

/// The number of the inner code of a refusal: of H10 and H11 a B, of H12 a U; else 0.
pub fn detail_number(fault: DriverFault) -> u32
    ensures { result ≡ detail_number fault }
{
    match fault {
        DriverFault::Device(fault) => info_number(fault),
        DriverFault::Configuration(fault) => configuration_number(fault),
        DriverFault::Report(fault) => report_number(fault),
        _ => 0,
    }
}

/// The number of a B of an interface.
fn interface_number(fault: InterfaceFault) -> u32
    ensures { result ≡ interface_number fault }
{
    match fault {
        InterfaceFault::SharedNumber => 13,
        InterfaceFault::NoReportDescriptor => 4,
        InterfaceFault::NoEndpoint => 5,
        InterfaceFault::PacketSize => 8,
        InterfaceFault::SharedEndpoint => 9,
    }
}

/// The code of the cause for which an interface isn't read.
pub fn cause_code(cause: InterfaceCause) -> Code
    ensures { result ≡ cause_code cause }
{
    match cause {
        InterfaceCause::Descriptors(fault) => Code {
            letter: b'B',
            number: interface_number(fault),
            at: 0,
        },
        InterfaceCause::ReportLength => Code {
            letter: b'B',
            number: 6,
            at: 0,
        },
        InterfaceCause::Layout(fault) => Code {
            letter: b'L',
            number: cause_number(fault.cause),
            at: fault.at as u64,
        },
        InterfaceCause::Stalled => Code {
            letter: b'H',
            number: 8,
            at: 0,
        },
        InterfaceCause::Failed => Code {
            letter: b'H',
            number: 9,
            at: 0,
        },
    }
}
