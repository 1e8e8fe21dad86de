//! What follows for both ends: the requests of a host and the rows of a device, the bytes of one and what the other reads.
ghost use Rattle.std.specs.Prelude.{◌≡◌, ℕ, ◌<◌, ◌^◌, Some, Ok, length};
ghost use Rattle.usb_control.specs.declared.setup.Setup.{Setup};
ghost use Rattle.usb_control.specs.declared.descriptors.ConfigInfo.{ConfigInfo};
ghost use Rattle.usb_control.specs.declared.descriptors.DeviceInfo.{DeviceInfo};
ghost use Rattle.usb_control.specs.SetupBytes.{IsEncoded};
ghost use Rattle.usb_control.specs.Host.{sent_length};
ghost use Rattle.usb_control.specs.Descriptors.{IsDevice, ReadsConfig, device_info_of};
ghost use Rattle.hid_requests.specs.declared.request_kinds.RequestKind.{RequestKind};
ghost use Rattle.hid_requests.specs.declared.request.Request.{Request};
ghost use Rattle.hid_requests.specs.declared.request.Asking.{Asking};
ghost use Rattle.hid_requests.specs.RequestKinds.{IsSorted, request_kind_of};
ghost use Rattle.hid_requests.specs.RequestSetup.{FitsRequest, IsOfReports, row_of, sends_of, setup_for};
ghost use Rattle.hid_requests.specs.Descriptors.{FitsConfig, FitsDevice, configuration_bytes, device_bytes};

/// A request reads or writes as its row does, and a write has as many bytes as its row.
#[tactic(auto, using(crate::proofs::RequestKindLemmas::sorted))]
pub fn rows_are_sorted()
    ensures { (setup : Setup) (asked : RequestKind) → request_kind_of setup ≡ Some asked
        → IsSorted setup asked }
{}

/// The setup data of a host's request are of the row that the request means. Those of a request for an endpoint are so where
/// that is the endpoint of Input reports.
#[tactic(auto, using(crate::proofs::RequestKindLemmas::asked_so))]
pub fn requests_have_rows()
    ensures { (request : Request) (asking : Asking) → FitsRequest request → IsOfReports request asking
        → request_kind_of (setup_for request asking) ≡ Some (row_of request) }
{}

/// The data that go with a request are as long as its setup data say, and there are none with a read.
#[tactic(auto, using(crate::proofs::RequestKindLemmas::sends_so))]
pub fn data_are_announced()
    ensures { (request : Request) (asking : Asking)
        → length (sends_of request) ≡ sent_length (setup_for request asking) }
{}

/// What a host asks can be encoded.
#[tactic(auto, using(crate::proofs::RequestKindLemmas::encoded_so))]
pub fn requests_are_encoded()
    ensures { (request : Request) (asking : Asking) → FitsRequest request → asking.report_length < 2 ^ 16
        → asking.endpoint < 2 ^ 8 → IsEncoded (setup_for request asking) }
{}

/// What a host reads of a configuration is what it was made of.
pub fn configurations_are_read()
    ensures { (info : ConfigInfo) (interval : ℕ) → FitsConfig info
        → ReadsConfig (configuration_bytes info interval) (Ok info) }
{}

/// What a host reads of a device descriptor is what it was made of.
#[tactic(auto, using(crate::proofs::DescriptorLemmas::device_read))]
pub fn devices_are_read()
    ensures kind { (info : DeviceInfo) → IsDevice (device_bytes info) }
    ensures info { (info : DeviceInfo) → FitsDevice info
        → device_info_of (device_bytes info) ≡ info }
{}
