//! The devices of a capture, and how a frame is played.

ghost use Rattle.std.specs.Prelude.{◌≡◌, ◌++◌, [], true, false, slice_get};
ghost use Rattle.std.specs.Option.{option_map};
ghost use Rattle.usb_capture.specs.FrameRecord.{frame_record};
ghost use Rattle.usb_capture.specs.UrbRecord.{urb_record};
ghost use Rattle.hid_capture.specs.Tracking.{tracking_of, nothing_known};
ghost use Rattle.hid_recording.specs.Acts.{AppendsActs};
ghost use Rattle.hid_recording.specs.FrameActs.{given_record, given_of, acts_in, acts_of_content, disconnection_in, disconnections, is_meant_by, content_of_data, described_number, handling_of, acts_of_given, said_of_stray, said_of_content, AppendsSaid, AppendsFrame};
ghost use Rattle.hid_recording.specs.Moments.{time_text};
ghost use Rattle.hid_recording.specs.Player.{session_of, summary_of};

use super::act::Act;
use super::fault::{Cause, Refusal};
use super::given::{EndpointAddress, GivenDescriptor};
use super::line_fields::{DeviceNumber, device_of};
use super::moment::put_time;
use super::player::Player;
use super::summary::Summary;
use hid_capture::{Content, TrackedInterface, Tracker, UndescribedEndpoint};
use std::alloc::Global;
use std::io::Write;
use usb_capture::{Frame, Urb, read_urb};

/// How many devices have numbers: 0 to 15.
const NUMBERS: u8 = 16;

/// What is known of the devices of a capture, and what was played of them.
#[derive(Drop)]
pub struct CapturePlayer<'a> {
    player: Player,
    tracker: Tracker,
    /// The descriptor of interfaces that have none in the capture, if one is given.
    given: Option<GivenDescriptor<'a>>,
    /// The time of the frame that is played.
    time: String,
}

/// How a content is played.
#[derive(Clone, Copy)]
enum Handling {
    /// The content says something by itself, or nothing.
    Alone,
    /// Data of an interface without a descriptor, which may be of the class HID.
    Stray { is_hid: bool },
    /// A device is gone, with its interfaces.
    Departure { bus: u16, device: u16 },
}

/// What the content of a URB with these data says by itself.
fn act_of_content<'a>(content: Content, payload: &'a [u8]) -> Option<Act<'a>>
    ensures { acts_in result ≡ acts_of_content payload.now content }
{
    match content {
        Content::Descriptor { interface } => device_of(interface).map(|device| Act::Descriptor {
            device,
            bytes: payload,
        }),
        Content::Report { interface } => device_of(interface).map(|device| Act::Report {
            device,
            bytes: payload,
        }),
        Content::InterfaceDisconnected { interface } => {
            device_of(interface).map(|device| Act::Disconnection { device })
        }
        Content::TruncatedDescriptor | Content::TruncatedReport { .. } => {
            Some(Act::RefusedFrame(Refusal::Truncated))
        }
        Content::TooManyInterfaces => Some(Act::RefusedFrame(Refusal::TooManyDevices)),
        Content::Nothing
        | Content::Undescribed
        | Content::Unknown
        | Content::BootReport
        | Content::DeviceDisconnected { .. } => None,
    }
}

/// Whether a descriptor is of the interface that has the endpoint of this URB.
fn is_meant(named: Option<EndpointAddress>, is_hid: bool, urb: &Urb<'_>) -> bool
    ensures { result ≡ is_meant_by named is_hid (urb_record urb.now) }
{
    match named {
        None => is_hid,
        Some(named) => {
            named.bus == urb.bus && named.device == urb.device && named.endpoint == urb.endpoint
        }
    }
}

/// The content of data, once their interface has a number.
fn content_of_data(is_truncated: bool, interface: u8) -> Content
    ensures { result ≡ content_of_data is_truncated interface }
{
    if is_truncated {
        Content::TruncatedReport { interface }
    } else {
        Content::Report { interface }
    }
}

/// The number of an interface that has a descriptor now.
fn described_number(content: Content) -> Option<u8>
    ensures { result ≡ described_number content }
{
    match content {
        Content::Descriptor { interface } => Some(interface),
        _ => None,
    }
}

/// How a content is played.
fn handling_of(content: Content) -> Handling
    ensures { result ≡ handling_of content }
{
    match content {
        Content::Undescribed => Handling::Stray { is_hid: true },
        Content::Unknown => Handling::Stray { is_hid: false },
        Content::DeviceDisconnected { bus, device } => Handling::Departure { bus, device },
        _ => Handling::Alone,
    }
}

/// What is said of an interface with a number, where a device is gone.
fn disconnection(tracked: Option<&TrackedInterface>, bus: u16, device: u16, number: u8) -> Content
    ensures { acts_of_content [] result
        ≡ disconnection_in bus device number (option_map (λ some. some.now) tracked.entry) }
{
    match tracked {
        Some(tracked) if tracked.bus == bus && tracked.device == device => {
            Content::InterfaceDisconnected { interface: number }
        }
        _ => Content::Nothing,
    }
}

impl<'a> CapturePlayer<'a> {
    /// A player of a capture of which no frame came.
    pub fn new(alloc: Global, player: Player, given: Option<GivenDescriptor<'a>>) -> Self
        ensures player { session_of result.player ≡ session_of player }
        ensures tracker { tracking_of result.tracker ≡ nothing_known }
        ensures given { result.given ≡ given.entry }
    {
        CapturePlayer {
            player,
            tracker: Tracker::new(alloc),
            given,
            time: String::new(alloc),
        }
    }

    /// What was played so far, in as many frames as came.
    pub fn summary(&self) -> Summary
        ensures { result ≡ summary_of (session_of self.now.player) (session_of self.now.player).lines }
    {
        self.player.summary_so_far()
    }

    /// The endpoints whose data came without a report descriptor.
    pub fn into_undescribed(self) -> Vec<UndescribedEndpoint>
        ensures { result.items ≡ (tracking_of self.entry.tracker).undescribed }
    {
        self.tracker.into_undescribed()
    }

    /// Plays the next frame, and writes its output.
    ///
    /// # Errors
    /// In a strict run the refusal of the frame; R10 if memory runs out for it; R9 if the writer fails.
    pub fn frame<W: Write>(&mut self, frame: &Frame<'_>, writer: &mut W) -> Result<(), Cause>
        ensures told { AppendsFrame (W.contents writer.old) (W.contents writer.new)
            (given_of self.old.given) (tracking_of self.old.tracker) (session_of self.old.player)
            (frame_record frame.now) result
            (tracking_of self.new.tracker) (session_of self.new.player) }
        ensures given { self.new.given ≡ self.old.given }
    {
        self.player.begin_frame();
        let Ok(urb) = read_urb(frame) else {
            return Ok(());
        };
        let content = self.tracker.take(&urb)?;
        self.play(content, &urb, frame.time.unwrap_or(0), writer)
    }

    /// Plays what a URB says.
    fn play<W: Write>(
        &mut self,
        content: Content,
        urb: &Urb<'_>,
        time: u64,
        writer: &mut W,
    ) -> Result<(), Cause>
        ensures told { AppendsSaid (W.contents writer.old) (W.contents writer.new) (time_text time)
            (session_of self.old.player)
            (said_of_content (given_of self.old.given) (urb_record urb.now) (tracking_of self.old.tracker) content)
            result (tracking_of self.new.tracker) (session_of self.new.player) }
        ensures given { self.new.given ≡ self.old.given }
    {
        match handling_of(content) {
            Handling::Stray { is_hid } => self.play_stray(is_hid, urb, time, writer),
            Handling::Departure { bus, device } => self.disconnect(bus, device, time, writer),
            Handling::Alone => self.tell(time, content, urb.payload, writer),
        }
    }

    /// Plays data of an interface without a descriptor: by the descriptor that is given, if it is meant for them.
    fn play_stray<W: Write>(
        &mut self,
        is_hid: bool,
        urb: &Urb<'_>,
        time: u64,
        writer: &mut W,
    ) -> Result<(), Cause>
        ensures told { AppendsSaid (W.contents writer.old) (W.contents writer.new) (time_text time)
            (session_of self.old.player)
            (said_of_stray (given_of self.old.given) is_hid (urb_record urb.now) (tracking_of self.old.tracker))
            result (tracking_of self.new.tracker) (session_of self.new.player) }
        ensures given { self.new.given ≡ self.old.given }
    {
        let Some(given) = self.given else {
            return Ok(());
        };
        if !is_meant(given.endpoint, is_hid, urb) {
            return Ok(());
        }
        let content = self.tracker.adopt(urb.bus, urb.device, urb.endpoint)?;
        self.play_given(content, given.bytes, urb, time, writer)
    }

    /// Plays data whose interface has the given descriptor from now on.
    fn play_given<W: Write>(
        &mut self,
        content: Content,
        descriptor: &[u8],
        urb: &Urb<'_>,
        time: u64,
        writer: &mut W,
    ) -> Result<(), Cause>
        ensures told { AppendsActs (W.contents writer.old) (W.contents writer.new) (time_text time)
            (session_of self.old.player) (acts_of_given descriptor.now (urb_record urb.now) content)
            result (session_of self.new.player) }
        ensures tracker { tracking_of self.new.tracker ≡ tracking_of self.old.tracker }
        ensures given { self.new.given ≡ self.old.given }
    {
        let Some(interface) = described_number(content) else {
            return self.tell(time, content, urb.payload, writer);
        };
        self.tell(time, Content::Descriptor { interface }, descriptor, writer)?;
        self.tell(
            time,
            content_of_data(urb.is_truncated, interface),
            urb.payload,
            writer,
        )
    }

    /// A device is gone: each of its interfaces lets go of what it holds.
    fn disconnect<W: Write>(
        &mut self,
        bus: u16,
        device: u16,
        time: u64,
        writer: &mut W,
    ) -> Result<(), Cause>
        ensures told { AppendsActs (W.contents writer.old) (W.contents writer.new) (time_text time)
            (session_of self.old.player)
            (disconnections bus device (tracking_of self.old.tracker).interfaces)
            result (session_of self.new.player) }
        ensures tracker { tracking_of self.new.tracker ≡ tracking_of self.old.tracker }
        ensures given { self.new.given ≡ self.old.given }
    {
        for number in 0..NUMBERS {
            self.disconnect_number(bus, device, number, time, writer)?;
        }
        Ok(())
    }

    /// The interface with a number is gone, if it is of this device.
    fn disconnect_number<W: Write>(
        &mut self,
        bus: u16,
        device: u16,
        number: u8,
        time: u64,
        writer: &mut W,
    ) -> Result<(), Cause>
        ensures told { AppendsActs (W.contents writer.old) (W.contents writer.new) (time_text time)
            (session_of self.old.player)
            (disconnection_in bus device number
            (slice_get (tracking_of self.old.tracker).interfaces number))
            result (session_of self.new.player) }
        ensures tracker { tracking_of self.new.tracker ≡ tracking_of self.old.tracker }
        ensures given { self.new.given ≡ self.old.given }
    {
        let content = disconnection(
            self.tracker.interfaces().get(usize::from(number)),
            bus,
            device,
            number,
        );
        self.tell(time, content, &[], writer)
    }

    /// Plays what the content of a URB says by itself.
    fn tell<W: Write>(
        &mut self,
        time: u64,
        content: Content,
        payload: &[u8],
        writer: &mut W,
    ) -> Result<(), Cause>
        ensures told { AppendsActs (W.contents writer.old) (W.contents writer.new) (time_text time)
            (session_of self.old.player) (acts_of_content payload.now content)
            result (session_of self.new.player) }
        ensures tracker { tracking_of self.new.tracker ≡ tracking_of self.old.tracker }
        ensures given { self.new.given ≡ self.old.given }
    {
        let Some(act) = act_of_content(content, payload) else {
            return Ok(());
        };
        put_time(&mut self.time, time)?;
        self.player.act(self.time.as_str(), act, writer)
    }
}
