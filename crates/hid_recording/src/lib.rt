//! Recordings of devices, as hid-recorder and usbhid-dump write them, captures of the bus (pcap and pcapng), and the events that a
//! host reads in their reports.
//! ```text
//!   reader --> pieces --> lines --read_record--> Record --played--> text --> writer
//!   reader --> pieces --> frames of usb_capture --hid_capture--> descriptor, report, end --played--> text --> writer
//!   device --> a report a read, its end --played--> text --> writer
//!
//!   # a mouse                                  nothing, as of lines that begin with N:, P: or I:
//!   D: 0                                       what follows is of the device 0
//!   R: 52 05 01 09 02 A1 01 .. C0              its report descriptor
//!   E: 000000.010000 4 01 05 00 00             000000.010000 0 down 09:01
//!                                              000000.010000 0 motion 01:30 5
//!   E: 000000.020000 4 01 00                   line 5: R4: the count says 4, there are 2 bytes
//!
//!   001:003:000:STREAM      1263214174.456     a dump of usbhid-dump, of the interface that came first
//!    01 05 00 00                               its bytes
//!                                              1263214174.456 0 down 09:01, at the empty line that ends it
//! ```
//! A line is read whole and played, and its text is written as it is made, in pieces of some 32 KB. A refused line prints its number and the reason, and
//! the next ones go on; in a strict run it is the end. A line that can't be read drops the dump in which it stands. A device
//! whose descriptor is refused or can't be read has none up to its next one. A report that comes in chunks is reassembled as
//! a host reassembles packets (`specs/Joining.antt`).
//!
//! A capture is played a frame at a time, by the same devices: a refused frame prints its number and the reason. An interface
//! without a descriptor may be given one ([`GivenDescriptor`]); else its endpoints are named at the end ([`PlayedCapture`]). A
//! device that is gone, or whose descriptor is read again, lets go of what it holds. Where no frame can be found any more, the run
//! ends ([`CaptureRunFault`]).
//!
//! A live device is played a report at a time, each at the time when it was read ([`LiveDevice`]). Where it is gone, it lets go of
//! what it holds.
//!
//! Several controls may have one usage, as the fingers of a touch screen do. With the option `places` the text of an event has
//! its control after the usage, `down 0D:42 @7.0`; its JSON has the control and the collections around it in any case.
//!
//! The rule to know: each device has a view of its own, and an event is a change of the view that its earlier reports made.
//!
//! The promise: [`play`] writes exactly the text of the recording, [`play_capture`] that of the capture's frames, and [`play_live`] that
//! of the reports that came, by their clauses.
#![tactic(auto)]

mod act;
mod binary;
mod capture_fault;
mod capture_player;
mod capture_run;
mod counted;
mod device;
mod devices;
mod dump;
mod event_json;
mod event_line;
mod fault;
mod fault_text;
mod given;
mod line_fields;
mod live;
mod moment;
mod options;
mod output;
mod played_capture;
mod player;
mod record;
mod recording;
mod runs;
mod spelled;
mod summary;
mod values;

pub use binary::descriptor_line;
pub use capture_fault::{CaptureCause, CaptureRunFault};
pub use capture_run::play_capture;
pub use event_line::{Source, print_event};
pub use fault::{Cause, RecordingFault, Refusal};
pub use given::{EndpointAddress, GivenDescriptor};
pub use line_fields::read_bytes;
pub use live::{LiveDevice, LiveFault, Received, play_live};
pub use options::Options;
pub use played_capture::PlayedCapture;
pub use runs::{Watch, play};
pub use summary::Summary;
