//! What the URBs of a capture say of HID devices.

ghost use Rattle.std.specs.Prelude.{◌≤◌, vec_len};
ghost use Rattle.hid_capture.specs.declared.tables.TheConstants.{MAX_INTERFACES};

use super::configuration::{Configuration, InterruptEndpoint, read_endpoints, whole_configuration};
use super::request::{Request, request_of};
use super::tables::{
    BootInterface, MAX_KEPT, PendingRequest, TrackedInterface, UNREAD, active_configuration,
    add_endpoints, described_number_of, drop_request, forget_active_configuration, forget_boot,
    forget_boots, forget_configuration, forget_descriptors, forget_endpoints, forget_left,
    has_described, interface_of, is_in_boot, keep_latest, leaves, next_number, number_interfaces,
    number_of, put_interface, request_at, set_described,
};
use super::undescribed::{UndescribedEndpoint, count_transfer, forget_hub, forget_undescribed};
use std::alloc::{AllocError, Global};
use usb_capture::{Direction, Transfer, Urb, UrbEvent};

/// Linux's -ESHUTDOWN in two's complement: the device is gone, or its endpoints are disabled.
const SHUTDOWN: u32 = 0xFFFF_FF94;

/// Windows' USBD_STATUS_DEVICE_GONE.
const DEVICE_GONE: u32 = 0xC000_7000;

/// What a URB says of reports.
#[derive(Clone, Copy, Debug, PartialEq, Eq)]
pub enum Content {
    /// Nothing.
    Nothing,
    /// The data are a report descriptor of the interface with this number.
    Descriptor { interface: u8 },
    /// The data are a report descriptor of which some bytes weren't captured; the interface keeps the one that it has.
    TruncatedDescriptor,
    /// The data are a report descriptor of a seventeenth interface.
    TooManyInterfaces,
    /// The data are a report of the interface with this number.
    Report { interface: u8 },
    /// The data are a report of the interface with this number, of which some bytes weren't captured.
    TruncatedReport { interface: u8 },
    /// The data came from a HID interface of which no descriptor is known.
    Undescribed,
    /// The data came by an interrupt transfer, and aren't known to be a report: no configuration was read that has the endpoint.
    Unknown,
    /// The data came from an interface in the boot protocol: they are no report of its descriptor.
    BootReport,
    /// The interface with this number has no descriptor any more: its endpoint is gone.
    InterfaceDisconnected { interface: u8 },
    /// No interface of this device has a descriptor any more, and some had: another device has the address, or the device has
    /// another configuration.
    DeviceDisconnected { bus: u16, device: u16 },
}

/// What is known of the HID devices of a capture.
#[derive(Drop)]
pub struct Tracker {
    alloc: Global,
    requests: Vec<PendingRequest>,
    endpoints: Vec<InterruptEndpoint>,
    /// The configuration that is set on each device.
    active_configurations: Vec<Configuration>,
    /// The interfaces in the boot protocol.
    boots: Vec<BootInterface>,
    /// The interfaces that have a number, each at that place.
    interfaces: Vec<TrackedInterface>,
    /// The endpoints whose data came while no descriptor was known for them.
    undescribed: Vec<UndescribedEndpoint>,
    ghost few: { vec_len interfaces ≤ MAX_INTERFACES },
}

impl Tracker {
    ghost use Rattle.std.specs.Prelude.{◌≡◌, ◌++◌, ◌≤◌, true, false, IfOk, OnOk, position, take, vec_len};
    ghost use Rattle.std.specs.List.{find};
    ghost use Rattle.hid_capture.specs.Descriptors.{whole_configuration};
    ghost use Rattle.hid_capture.specs.Tracking.{has_id, is_interface, nothing_known, outcome_as, tracking_of, outcome, outcome_of_given, outcome_of_answer, outcome_of_address, outcome_of_configuration, outcome_of_description, outcome_of_descriptor, outcome_of_completion, outcome_of_submission, outcome_of_stall, outcome_of_failure, outcome_of_shutdown, disconnection, content_of_leaving, with_protocol, with_endpoints, with_answer, content_of_bytes, lacks_descriptor, outcome_of_bytes, has_data, source};
    ghost use Rattle.usb_capture.specs.UrbRecord.{urb_record};

    /// A tracker of a capture of which nothing has come.
    pub fn new(alloc: Global) -> Self
        ensures { tracking_of result ≡ nothing_known }
    {
        Tracker {
            alloc,
            requests: Vec::new(alloc),
            endpoints: Vec::new(alloc),
            active_configurations: Vec::new(alloc),
            boots: Vec::new(alloc),
            interfaces: Vec::new(alloc),
            undescribed: Vec::new(alloc),
        }
    }

    /// The interfaces that have a number, each at that place.
    pub fn interfaces(&self) -> &[TrackedInterface]
        ensures { result.now ≡ (tracking_of self.now).interfaces }
    {
        self.interfaces.as_slice()
    }

    /// The endpoints whose data came while no descriptor was known for them, and that weren't given one: the first sixteen, in
    /// the order in which they came.
    pub fn undescribed(&self) -> &[UndescribedEndpoint]
        ensures { result.now ≡ (tracking_of self.now).undescribed }
    {
        self.undescribed.as_slice()
    }

    /// What [`Tracker::undescribed`] has, at the end of a capture.
    pub fn into_undescribed(self) -> Vec<UndescribedEndpoint>
        ensures { result.items ≡ (tracking_of self).undescribed }
    {
        self.undescribed
    }

    /// Takes the next URB, and answers what it says of reports.
    ///
    /// # Errors
    /// [`AllocError`] if memory runs out for what is to be kept.
    #[tactic(auto, unfolding(crate::specs::Tracking::outcome))]
    pub fn take(&mut self, urb: &Urb<'_>) -> Result<Content, AllocError>
        ensures content { IfOk result (λ content.
            outcome_as content self.new ≡ outcome (tracking_of self.old) (urb_record urb.now)) }
    {
        match urb.event {
            UrbEvent::Submitted => self.submit(urb),
            UrbEvent::Completed => match urb.transfer {
                Transfer::Control => self.complete(urb),
                Transfer::Interrupt => self.receive(urb),
                Transfer::Isochronous | Transfer::Bulk => Ok(Content::Nothing),
            },
            UrbEvent::Stalled => Ok(self.stall(urb)),
            UrbEvent::Failed { status } => Ok(self.fail(urb, status)),
        }
    }

    /// A transfer is submitted: its request is kept, if it has one.
    fn submit(&mut self, urb: &Urb<'_>) -> Result<Content, AllocError>
        ensures { IfOk result (λ content. outcome_as content self.new
            ≡ outcome_of_submission (tracking_of self.old) (urb_record urb.now) urb.now.setup) }
    {
        let Some(setup) = urb.setup else {
            return Ok(Content::Nothing);
        };
        drop_request(&mut self.requests, urb.bus, urb.device, urb.id);
        keep_latest(&mut self.requests, MAX_KEPT);
        self.requests.push(PendingRequest {
            bus: urb.bus,
            device: urb.device,
            id: urb.id,
            setup,
        })?;
        Ok(Content::Nothing)
    }

    /// A transfer is stalled.
    fn stall(&mut self, urb: &Urb<'_>) -> Content
        ensures { outcome_as result self.new
            ≡ outcome_of_stall (tracking_of self.old) (urb_record urb.now) urb.now.transfer }
    {
        if urb.transfer == Transfer::Control {
            drop_request(&mut self.requests, urb.bus, urb.device, urb.id);
        }
        Content::Nothing
    }

    /// A transfer failed.
    fn fail(&mut self, urb: &Urb<'_>, status: u32) -> Content
        ensures { outcome_as result self.new
            ≡ outcome_of_failure (tracking_of self.old) (urb_record urb.now) status urb.now.transfer }
    {
        match urb.transfer {
            Transfer::Control => drop_request(&mut self.requests, urb.bus, urb.device, urb.id),
            Transfer::Interrupt if status == SHUTDOWN || status == DEVICE_GONE => {
                return self.disconnect(urb);
            }
            _ => {}
        }
        Content::Nothing
    }

    /// The endpoint of an interface is gone: its descriptor is forgotten.
    fn disconnect(&mut self, urb: &Urb<'_>) -> Content
        ensures { outcome_as result self.new ≡ outcome_of_shutdown
            (tracking_of self.old) (urb_record urb.now)
            (source (tracking_of self.old) urb.now.bus urb.now.device urb.now.endpoint) }
    {
        let Some(interface) = self.source(urb.bus, urb.device, urb.endpoint) else {
            return Content::Nothing;
        };
        let number = described_number_of(&self.interfaces, urb.bus, urb.device, interface);
        set_described(&mut self.interfaces, urb.bus, urb.device, interface, false);
        match number {
            Some(number) => Content::InterfaceDisconnected {
                interface: number as u8,
            },
            None => Content::Nothing,
        }
    }

    /// A control transfer is completed.
    fn complete(&mut self, urb: &Urb<'_>) -> Result<Content, AllocError>
        ensures { IfOk result (λ content. outcome_as content self.new
            ≡ outcome_of_completion (tracking_of self.old) (urb_record urb.now)
            (find (has_id urb.now.bus urb.now.device urb.now.id) self.old.requests.items)) }
    {
        let Some(found) = request_at(&self.requests, urb.bus, urb.device, urb.id) else {
            return Ok(Content::Nothing);
        };
        drop_request(&mut self.requests, urb.bus, urb.device, urb.id);
        self.answer(request_of(found.setup), urb)
    }

    /// A request is answered.
    fn answer(&mut self, request: Request, urb: &Urb<'_>) -> Result<Content, AllocError>
        ensures { IfOk result (λ content. outcome_as content self.new
            ≡ outcome_of_answer (tracking_of self.old) (urb_record urb.now) request) }
    {
        match request {
            Request::SetAddress { address } => {
                return Ok(self.forget_device(urb.bus, u16::from(address)));
            }
            Request::SetConfiguration { value } => {
                return self.set_configuration(Configuration {
                    bus: urb.bus,
                    device: urb.device,
                    value,
                });
            }
            Request::GetConfigurationDescriptor => self.read_configuration(urb)?,
            Request::GetReportDescriptor { interface } => {
                return self.take_descriptor(urb, u16::from(interface));
            }
            Request::SetProtocol { interface, is_boot } => {
                self.set_protocol(urb, u16::from(interface), is_boot)?;
            }
            Request::HubPort => forget_hub(&mut self.undescribed, urb.bus, urb.device),
            Request::Other => {}
        }
        Ok(Content::Nothing)
    }

    /// What is said where the descriptors of a device are forgotten.
    fn disconnection(&self, bus: u16, device: u16) -> Content
        ensures { result ≡ disconnection (tracking_of self.now) bus device }
    {
        if has_described(&self.interfaces, bus, device) {
            return Content::DeviceDisconnected { bus, device };
        }
        Content::Nothing
    }

    /// What is said of a device that leaves its configuration, if it does.
    fn content_of_leaving(&self, is_left: bool, bus: u16, device: u16) -> Content
        ensures { result ≡ content_of_leaving (tracking_of self.now) is_left bus device }
    {
        if is_left {
            return self.disconnection(bus, device);
        }
        Content::Nothing
    }

    /// A device gets an address: nothing is known of the device there.
    fn forget_device(&mut self, bus: u16, device: u16) -> Content
        ensures { outcome_as result self.new ≡ outcome_of_address (tracking_of self.old) bus device }
    {
        let content = self.disconnection(bus, device);
        forget_endpoints(&mut self.endpoints, bus, device);
        forget_active_configuration(&mut self.active_configurations, bus, device);
        forget_boots(&mut self.boots, bus, device);
        forget_descriptors(&mut self.interfaces, bus, device);
        content
    }

    /// A configuration is set.
    fn set_configuration(&mut self, configuration: Configuration) -> Result<Content, AllocError>
        ensures { IfOk result (λ content. outcome_as content self.new
            ≡ outcome_of_configuration (tracking_of self.old) configuration) }
    {
        let Configuration { bus, device, value } = configuration;
        let active = active_configuration(&self.active_configurations, bus, device);
        let is_left = leaves(active, value);
        let content = self.content_of_leaving(is_left, bus, device);
        forget_left(&mut self.interfaces, is_left, bus, device);
        forget_boots(&mut self.boots, bus, device);
        forget_active_configuration(&mut self.active_configurations, bus, device);
        keep_latest(&mut self.active_configurations, MAX_KEPT);
        self.active_configurations.push(configuration)?;
        number_interfaces(
            &mut self.interfaces,
            &self.active_configurations,
            &self.endpoints,
        );
        Ok(content)
    }

    /// An interface is put into the boot protocol, or into the report protocol.
    fn set_protocol(
        &mut self,
        urb: &Urb<'_>,
        interface: u16,
        is_boot: bool,
    ) -> Result<(), AllocError>
        ensures { OnOk result (tracking_of self.new
            ≡ with_protocol (tracking_of self.old) urb.now.bus urb.now.device interface is_boot) }
    {
        forget_boot(&mut self.boots, urb.bus, urb.device, interface);
        if is_boot {
            keep_latest(&mut self.boots, MAX_KEPT);
            self.boots.push(BootInterface {
                bus: urb.bus,
                device: urb.device,
                interface,
            })?;
        }
        Ok(())
    }

    /// A configuration is read.
    fn read_configuration(&mut self, urb: &Urb<'_>) -> Result<(), AllocError>
        ensures { OnOk result (tracking_of self.new ≡ with_answer (tracking_of self.old)
            (urb_record urb.now) (whole_configuration urb.now.payload.now)) }
    {
        let Some((value, total)) = whole_configuration(urb.payload) else {
            return Ok(());
        };
        let configuration = Configuration {
            bus: urb.bus,
            device: urb.device,
            value,
        };
        self.put_endpoints(configuration, &urb.payload[..total])
    }

    /// A configuration has the endpoints of these descriptors.
    fn put_endpoints(
        &mut self,
        configuration: Configuration,
        bytes: &[u8],
    ) -> Result<(), AllocError>
        ensures { OnOk result (tracking_of self.new
            ≡ with_endpoints (tracking_of self.old) configuration bytes.now) }
    {
        let found = read_endpoints(self.alloc, configuration, bytes)?;
        forget_configuration(&mut self.endpoints, configuration);
        add_endpoints(&mut self.endpoints, found.as_slice())?;
        number_interfaces(
            &mut self.interfaces,
            &self.active_configurations,
            &self.endpoints,
        );
        Ok(())
    }

    /// A report descriptor of an interface came.
    fn take_descriptor(&mut self, urb: &Urb<'_>, interface: u16) -> Result<Content, AllocError>
        ensures { IfOk result (λ content. outcome_as content self.new
            ≡ outcome_of_description (tracking_of self.old) (urb_record urb.now) interface urb.now.is_truncated) }
    {
        if urb.is_truncated {
            return Ok(Content::TruncatedDescriptor);
        }
        self.describe(urb.bus, urb.device, interface)
    }

    /// An interface has a descriptor: it has this number, if there is one for it.
    fn describe(&mut self, bus: u16, device: u16, interface: u16) -> Result<Content, AllocError>
        ensures { IfOk result (λ content. outcome_as content self.new
            ≡ outcome_of_descriptor (tracking_of self.old) bus device interface
            (position (is_interface bus device interface) self.old.interfaces.items)) }
    {
        if let Some(number) = number_of(&self.interfaces, bus, device, interface) {
            set_described(&mut self.interfaces, bus, device, interface, true);
            return Ok(Content::Descriptor {
                interface: number as u8,
            });
        }
        let Some(number) = next_number(&self.interfaces) else {
            return Ok(Content::TooManyInterfaces);
        };
        put_interface(
            &mut self.interfaces,
            number,
            TrackedInterface {
                bus,
                device,
                interface,
                is_described: true,
            },
        )?;
        Ok(Content::Descriptor {
            interface: number as u8,
        })
    }

    /// The interface of an interrupt IN endpoint; none, if it isn't of the class HID.
    fn source(&self, bus: u16, device: u16, endpoint: u8) -> Option<u16>
        ensures { result ≡ source (tracking_of self.now) bus device endpoint }
    {
        let active = active_configuration(&self.active_configurations, bus, device);
        interface_of(&self.endpoints, active, bus, device, endpoint)
    }

    /// Whether a transfer had data: of a truncated frame they may be missing.
    fn has_data(urb: &Urb<'_>) -> bool
        ensures { result ≡ has_data (urb_record urb.now) }
    {
        !urb.payload.is_empty() || urb.is_truncated
    }

    /// Whether the interface of data without a descriptor is known to be of the class HID; none of other contents.
    fn lacks_descriptor(content: Content) -> Option<bool>
        ensures { result ≡ lacks_descriptor content }
    {
        match content {
            Content::Undescribed => Some(true),
            Content::Unknown => Some(false),
            _ => None,
        }
    }

    /// Bytes came by an interrupt transfer: they are counted where no descriptor is known for them.
    fn receive(&mut self, urb: &Urb<'_>) -> Result<Content, AllocError>
        ensures { IfOk result (λ content. outcome_as content self.new
            ≡ outcome_of_bytes (tracking_of self.old) (urb_record urb.now)) }
    {
        let content = self.content_of(urb);
        if let Some(is_hid) = Tracker::lacks_descriptor(content) {
            count_transfer(
                &mut self.undescribed,
                urb.bus,
                urb.device,
                urb.endpoint,
                is_hid,
            )?;
        }
        Ok(content)
    }

    /// What bytes are that came by an interrupt transfer.
    fn content_of(&self, urb: &Urb<'_>) -> Content
        ensures { result ≡ content_of_bytes (tracking_of self.now) (urb_record urb.now) urb.now.direction }
    {
        if urb.direction == Direction::Out || !Tracker::has_data(urb) {
            return Content::Nothing;
        }
        let Some(interface) = self.source(urb.bus, urb.device, urb.endpoint) else {
            return Content::Nothing;
        };
        if is_in_boot(&self.boots, urb.bus, urb.device, interface) {
            return Content::BootReport;
        }
        match described_number_of(&self.interfaces, urb.bus, urb.device, interface) {
            Some(number) if urb.is_truncated => Content::TruncatedReport {
                interface: number as u8,
            },
            Some(number) => Content::Report {
                interface: number as u8,
            },
            None if interface < UNREAD => Content::Undescribed,
            None => Content::Unknown,
        }
    }

    /// The interface of an interrupt IN endpoint has a descriptor that is given for it: [`Content::Descriptor`] where it has a
    /// number then, else [`Content::TooManyInterfaces`]; [`Content::Nothing`] if it isn't of the class HID, or is in the boot
    /// protocol. Where no configuration was read that has the endpoint, it is taken for one of a HID interface: only the user
    /// can know that.
    ///
    /// # Errors
    /// [`AllocError`] if memory runs out for what is to be kept.
    #[tactic(auto, unfolding(crate::specs::Tracking::outcome_of_given))]
    pub fn adopt(&mut self, bus: u16, device: u16, endpoint: u8) -> Result<Content, AllocError>
        ensures content { IfOk result (λ content.
            outcome_as content self.new ≡ outcome_of_given (tracking_of self.old) bus device endpoint) }
    {
        forget_undescribed(&mut self.undescribed, bus, device, endpoint);
        let Some(interface) = self.source(bus, device, endpoint) else {
            return Ok(Content::Nothing);
        };
        if is_in_boot(&self.boots, bus, device, interface) {
            return Ok(Content::Nothing);
        }
        self.describe(bus, device, interface)
    }
}
