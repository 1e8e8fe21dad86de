//! What is done with a host, in words, and the result:
//! ```text
//!   begin config                  a request, encoded as in docs/SCRIPT.md: nothing, or why it doesn't begin
//!   try clean 6                   this many tries with the device, of one fate; the result of the last one: `running`, `done`,
//!                                 `failed C2`, or a refusal
//!   outcome                       of the transfer that was begun last: one of these, and after `done` the bytes
//!   state                         `Cold`, `Described`, `Parsed` or `Ready`
//!   token                         the packet of a poll
//!   reply 4B 00 05                what comes to a poll, a packet or `none`: what it is taken as, the toggle that is expected
//!                                 then, and each event, as `down 4.4 07:04`: the control by item and index, and its usage
//!   held 4 4                      `yes` where the control is held in the view
//!   reset after C3 05*64          a new host, ready for the descriptor of the row, takes this packet and is reset, while no
//!                                 round is open: what it is taken as, and the events of both
//! ```
//! Fates and refusals are those of docs/SCRIPT.md.

ghost use Rattle.std.specs.Prelude.{IfOk, List};
ghost use Rattle.hid_report_descriptor.specs.Items.{EncodedItem};
ghost use Rattle.hid_report_descriptor.specs.Bus.{Accepts};
ghost use Rattle.hid_layout.specs.Layout.{layout_of};
ghost use Rattle.hid_layout.specs.Controls.{items_of};
ghost use Rattle.hid_usages.specs.ControlStates.{FitsShown};

mod foreign;
mod packets;

use crate::ends::{Ends, ready};
use crate::output::Output;
use crate::words::{control_of, fate_of, number, read_bytes, request_of};
use hid_device::Device;
use hid_host::{HostDevice, StackFault};
use hid_layout::laws::one_reading;
use hid_layout::{ControlId, Layout, Usage};
use hid_requests::Request;
use hid_usages::{Event, Shown};
use std::alloc::{AllocError, Global};
use std::mem;
use usb_control::{DevControl, Outcome, Progress, Requests};
use usb_packet::{Packet, decode, encode};
use usb_transact::{Fate, Took};

/// Begins a request. It promises nothing, so that what [`HostDevice::begin`] does is before the prover here alone.
fn begin(host: &mut HostDevice, request: &Request) -> Result<(), StackFault> {
    host.begin(request)
}

/// Makes a try. It promises nothing, as [`begin`].
fn step<R: Requests>(
    host: &mut HostDevice,
    control: &mut DevControl<R>,
    fate: Fate,
) -> Result<Progress, StackFault> {
    host.control_step(control, fate)
}

fn print_begun(host: &mut HostDevice, request: Option<Request>, printed: &mut Output) {
    match request {
        Some(request) => {
            if let Err(fault) = begin(host, &request) {
                printed.show(fault);
            }
        }
        None => printed.unread(),
    }
}

/// Makes n tries, at least one: the result of the last one.
fn try_times(
    host: &mut HostDevice,
    device: &mut Device,
    fate: Fate,
    count: usize,
) -> Result<Progress, StackFault> {
    for _ in 1..count {
        let _ = step(host, device.control(), fate);
    }
    step(host, device.control(), fate)
}

/// Appends how far a transfer has come, or its refusal.
fn print_progress(progress: Result<Progress, StackFault>, printed: &mut Output) {
    match progress {
        Ok(Progress::Running) => printed.add("running "),
        Ok(Progress::Done) => printed.add("done "),
        Ok(Progress::Failed(fault)) => printed.show(format_args!("failed {fault}")),
        Err(fault) => printed.show(fault),
    }
}

fn print_tries(ends: &mut Ends, fate: Option<Fate>, count: Option<usize>, printed: &mut Output) {
    match (fate, count) {
        (Some(fate), Some(count)) => {
            print_progress(
                try_times(&mut ends.host, &mut ends.device, fate, count),
                printed,
            );
        }
        _ => printed.unread(),
    }
}

/// Appends the bytes of a read that is done, by the transfer that was begun last; else how far that has come.
fn print_came(host: &HostDevice, printed: &mut Output) {
    match host.outcome() {
        Ok(Outcome::Running) => printed.add("running "),
        Ok(Outcome::Done(bytes)) => printed.hex(bytes),
        Ok(Outcome::Failed(fault)) => printed.show(format_args!("failed {fault}")),
        Err(fault) => printed.show(fault),
    }
}

/// Appends the outcome of the transfer, with a word before the bytes of one that is done.
fn print_outcome(host: &HostDevice, printed: &mut Output) {
    if let Ok(Outcome::Done(_)) = host.outcome() {
        printed.add("done ");
    }
    print_came(host, printed);
}

fn print_state(host: &HostDevice, printed: &mut Output) {
    printed.show(format_args!("{:?}", host.state()));
}

fn print_token(host: &HostDevice, printed: &mut Output) {
    match host.token() {
        Ok(token) => printed.hex(&encode(&token)),
        Err(fault) => printed.show(fault),
    }
}

fn print_control(word: &str, control: ControlId, usage: Usage, printed: &mut Output) {
    printed.show(format_args!(
        "{word} {}.{} {:02X}:{:02X}",
        control.item, control.index, usage.page, usage.id
    ));
}

fn print_event(event: &Event, printed: &mut Output) {
    match *event {
        Event::Down { control, usage } => print_control("down", control, usage, printed),
        Event::Up { control, usage } => print_control("up", control, usage, printed),
        Event::Null { control, usage } => print_control("null", control, usage, printed),
        Event::Value {
            control,
            usage,
            value,
        } => {
            print_control("value", control, usage, printed);
            printed.show(value);
        }
        Event::Motion { control, usage, by } => {
            print_control("motion", control, usage, printed);
            printed.show(by);
        }
        Event::Dropped { control, usage, by } => {
            print_control("dropped", control, usage, printed);
            printed.show(by);
        }
    }
}

fn print_events(events: &[Event], printed: &mut Output) {
    for event in events {
        print_event(event, printed);
    }
}

/// Appends how a host took the reply to a poll.
fn print_took(took: &Result<Took, StackFault>, printed: &mut Output) {
    match took {
        Ok(Took::Fresh(_)) => printed.add("fresh "),
        Ok(Took::Again) => printed.add("again "),
        Ok(Took::Nak) => printed.add("nak "),
        Ok(Took::Stall) => printed.add("stall "),
        Ok(Took::Silent) => printed.add("silent "),
        Err(fault) => printed.show(*fault),
    }
}

/// What a host that polls takes that for which comes, whether it expects DATA1 then, and the events.
type Replied = (Result<Took, StackFault>, bool, Vec<Event>);

fn replied(
    alloc: Global,
    host: &mut HostDevice,
    packet: Option<&Packet>,
) -> Result<Replied, StackFault> {
    host.token()?;
    let Ok(mut events) = Vec::with_capacity(alloc, host.max_events()) else {
        return Err(StackFault::Memory);
    };
    let took = host.reply(packet, &mut events);
    Ok((took, host.pipe().expects(), events))
}

fn print_replied(replied: &Result<Replied, StackFault>, printed: &mut Output) {
    match replied {
        Ok((took, expects, events)) => {
            print_took(took, printed);
            printed.add(if *expects { "DATA1 " } else { "DATA0 " });
            print_events(events, printed);
        }
        Err(fault) => printed.show(*fault),
    }
}

fn print_reply(
    alloc: Global,
    host: &mut HostDevice,
    packet: Option<&Packet>,
    printed: &mut Output,
) {
    let replied = replied(alloc, host, packet);
    print_replied(&replied, printed);
}

/// Appends what a host makes of a packet that these bytes encode.
fn print_reply_of(alloc: Global, host: &mut HostDevice, bytes: &[u8], printed: &mut Output) {
    match decode(bytes) {
        Ok(packet) => print_reply(alloc, host, Some(&packet), printed),
        Err(_) => printed.unread(),
    }
}

/// Appends whether a control is held in the view of a host that polls.
fn print_held(host: &HostDevice, control: Option<ControlId>, printed: &mut Output) {
    match (control, host.token()) {
        (Some(control), Ok(_)) => printed.add(if host.view().held(control) {
            "yes"
        } else {
            "no"
        }),
        (Some(_), Err(fault)) => printed.show(fault),
        (None, _) => printed.unread(),
    }
}

/// A host that took a packet and was reset after it, what it took it for, how many events it gave, and those of the
/// reset.
type Reset = (HostDevice, Took, usize, Vec<Event>);

/// What a device of this descriptor shows before anything has changed.
fn blank_of(alloc: Global, descriptor: &[u8]) -> Result<Shown, StackFault>
    ensures { IfOk result (λ shown. (before : List EncodedItem) × Accepts descriptor.now before
        × FitsShown (items_of (layout_of before)) shown) }
{
    match Layout::parse(alloc, descriptor) {
        Ok(layout) => {
            let shown = Shown::blank(alloc, &layout);
            drop(layout);
            Ok(shown?)
        }
        Err(_) => Err(StackFault::Memory),
    }
}

/// A new host that was reset once it had taken this packet, with no round open at its device then.
fn reset_after(
    alloc: Global,
    descriptor: &[u8],
    packet: Option<&Packet>,
) -> Result<Reset, StackFault> {
    let fixed = blank_of(alloc, descriptor)?;
    let mut host = match HostDevice::ready(alloc, 1, descriptor) {
        Ok(host) => host,
        Err(fault) => {
            drop(fixed);
            return Err(fault);
        }
    };
    let Ok(mut out) = Vec::with_capacity(alloc, host.max_events()) else {
        drop(host);
        drop(fixed);
        return Err(StackFault::Memory);
    };
    let took = match host.reply(packet, &mut out) {
        Ok(took) => took,
        Err(fault) => {
            drop(out);
            drop(host);
            drop(fixed);
            return Err(fault);
        }
    };
    let given = out.len();
    out.clear();
    one_reading();
    host.reset(None, None, &fixed, &mut out);
    drop(fixed);
    Ok((host, took, given, out))
}

/// Makes the host one that was reset in this way, and appends its events.
fn print_reset(alloc: Global, ends: &mut Ends, packet: Option<&Packet>, printed: &mut Output) {
    match reset_after(alloc, &ends.descriptor, packet) {
        Ok((host, took, given, events)) => {
            drop(mem::replace(&mut ends.host, host));
            print_took(&Ok(took), printed);
            printed.show(format_args!("{given} events, reset"));
            print_events(&events, printed);
            drop(events);
        }
        Err(fault) => printed.show(fault),
    }
}

/// Appends the events of a reset after a packet that these bytes encode.
fn print_reset_of(alloc: Global, ends: &mut Ends, bytes: &[u8], printed: &mut Output) {
    match decode(bytes) {
        Ok(packet) => print_reset(alloc, ends, Some(&packet), printed),
        Err(_) => printed.unread(),
    }
}

/// Does what these words mean with packets that come to a host; false where they mean nothing of that.
fn print_replies(
    alloc: Global,
    ends: &mut Ends,
    words: &[&str],
    bytes: &mut Vec<u8>,
    printed: &mut Output,
) -> bool {
    match *words {
        ["reply", "none"] => print_reply(alloc, &mut ends.host, None, printed),
        ["reply", ref rest @ ..] if read_bytes(bytes, rest) => print_reply_of(
            alloc,
            &mut ends.host,
            bytes,
            printed,
        ),
        ["reset", "after", ref rest @ ..] if read_bytes(bytes, rest) => print_reset_of(
            alloc, ends, bytes, printed,
        ),
        _ => return false,
    }
    true
}

/// Does what these words mean with a host, and appends the result; false if they mean nothing for a host.
pub fn print_host(
    alloc: Global,
    ends: &mut Ends,
    words: &[&str],
    bytes: &mut Vec<u8>,
    printed: &mut Output,
) -> bool {
    match *words {
        ["begin", ref rest @ ..] => print_begun(&mut ends.host, request_of(rest, bytes), printed),
        ["try", fate, count] => print_tries(ends, fate_of(fate), number(count), printed),
        ["outcome"] => print_outcome(&ends.host, printed),
        ["state"] => print_state(&ends.host, printed),
        ["token"] => print_token(&ends.host, printed),
        ["held", item, index] => print_held(&ends.host, control_of(item, index), printed),
        _ => return print_replies(alloc, ends, words, bytes, printed)
            || foreign::print_foreign(alloc, ends, words, bytes, printed)
            || packets::print_packets(ends, words, bytes, printed),
    }
    true
}
