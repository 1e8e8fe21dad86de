//! How far a host has come with its device.
ghost use Rattle.std.specs.Prelude.{◌≡◌};
ghost use Rattle.hid_host.specs.Phase.{asking_at, may_begin, may_poll, state_of};

use crate::ready::ReadyHost;
use hid_layout::Layout;
use hid_requests::{Asking, Request};
use std::mem;
use usb_control::ConfigInfo;

/// How far a host has come with its device (USB 2.0, 9.1.1; the states are our choice).
///
/// | state | what is known | what may begin | leads on |
/// |---|---|---|---|
/// | `Cold` | nothing | `Config` | a configuration, to `Described` |
/// | `Described` | what the configuration says | `Report` | a report descriptor, to `Parsed` |
/// | `Parsed` | the layout of the reports | `Configure`, `Protocol` | the status of `Configure`, to `Ready` |
/// | `Ready` | the pipe and the view of the controls | polls, `Halt`, `Clear`, `EndpointStatus` | nothing |
///
/// `Device`, `Status` and `GetConfiguration` may begin in each; `Idle`, `GetIdle`, `GetProtocol`, `GetReport` and
/// `SetReport` in `Parsed` and `Ready`. They lead nowhere, and an answer that is refused doesn't either. From the begin of a
/// `Clear` no poll begins until one is done (USB 2.0, 9.4.5). A reset of the bus leads back to `Cold`.
#[derive(Clone, Copy, Debug, PartialEq, Eq)]
pub enum HostState {
    /// It knows nothing of the device.
    Cold,
    /// It has read the configuration.
    Described,
    /// It has read the report descriptor, and laid the reports out.
    Parsed,
    /// It has configured the device and polls it.
    Ready,
}

/// The state of a host, with what it knows there.
#[derive(Drop)]
pub enum HostPhase {
    Cold,
    Described(ConfigInfo),
    Parsed(ConfigInfo, Layout),
    Ready(ReadyHost),
}

impl HostPhase {
    /// The phase without what is known there.
    pub(crate) fn state(&self) -> HostState
        ensures { result ≡ state_of self.now }
    {
        match self {
            HostPhase::Cold => HostState::Cold,
            HostPhase::Described(_) => HostState::Described,
            HostPhase::Parsed(..) => HostState::Parsed,
            HostPhase::Ready(_) => HostState::Ready,
        }
    }

    /// Goes on to another phase, and drops what was known.
    #[inline(always)]
    pub(crate) fn go_on(&mut self, next: HostPhase)
        ensures { self.new ≡ next }
    {
        drop(mem::replace(self, next));
    }

    /// What a request is asked with.
    pub(crate) fn asking(&self) -> Asking
        ensures { result ≡ asking_at self.now }
    {
        let (report_length, endpoint) = match self {
            HostPhase::Cold => (0, 0),
            HostPhase::Described(info) | HostPhase::Parsed(info, _) => {
                (info.report_length, info.endpoint)
            }
            HostPhase::Ready(host) => (0, host.endpoint()),
        };
        Asking {
            report_length,
            endpoint,
        }
    }
}

impl HostState {
    /// Whether a request may begin here.
    pub(crate) fn allows(self, request: &Request) -> bool
        ensures { result ≡ may_begin request.now self }
    {
        match request {
            Request::Device | Request::Status | Request::GetConfiguration => true,
            Request::Config => matches!(self, HostState::Cold),
            Request::Report => matches!(self, HostState::Described),
            Request::Configure | Request::Protocol { .. } => matches!(self, HostState::Parsed),
            Request::Idle { .. }
            | Request::GetIdle { .. }
            | Request::GetProtocol
            | Request::GetReport { .. }
            | Request::SetReport { .. } => matches!(self, HostState::Parsed | HostState::Ready),
            Request::Halt | Request::Clear | Request::EndpointStatus => {
                matches!(self, HostState::Ready)
            }
        }
    }

    /// Whether a host polls here, by whether a `Clear` is pending.
    pub(crate) fn polls(self, clearing: bool) -> bool
        ensures { result ≡ may_poll self clearing }
    {
        matches!(self, HostState::Ready) && !clearing
    }
}
