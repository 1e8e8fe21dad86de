//! The transfers of a host by single packets, as a controller carries them:
//! ```text
//!   control token          the token of the next try, or why there is none
//!   control payload        the data packet that goes with it, or `none`
//!   control take 5A        what came after them, a packet or `none`: as of `try`, and `ack` where ACK is sent
//!   carry 5 config         a request, from its begin to its end, over a bus that loses each fifth of all packets that either
//!                          end sends; 0 loses none. What the last try reports, how many packets were sent, and where the host
//!                          stands then
//! ```

use super::{begin, print_progress, print_state};
use crate::ends::Ends;
use crate::output::Output;
use crate::words::{number, read_bytes, request_of};
use arrayvec::ArrayVec;
use hid_device::Device;
use hid_host::{HostDevice, StackFault};
use hid_requests::Request;
use usb_control::Progress;
use usb_packet::{Packet, decode, encode};

/// The PID of an IN token (USB 2.0, table 8-1).
const IN: u8 = 0x69;

/// ACK.
const ACK: [u8; 1] = [0xD2];

/// More tries than any request of a row makes.
const MAX_TRIES: usize = 400;

/// The bytes of a packet.
type Encoded = ArrayVec<u8, 65>;

/// How far a transfer has come, and whether ACK is sent.
type Taken = Result<(Progress, bool), StackFault>;

/// A bus that loses each packet whose number, from 1, is a multiple of `lost`; none where that is 0.
#[derive(Drop)]
struct Line {
    lost: usize,
    sent: usize,
}

impl Line {
    /// Sends the bytes of a packet: what the other end reads.
    fn send(&mut self, bytes: &[u8]) -> Option<Packet> {
        self.sent = self.sent.saturating_add(1);
        if self.lost != 0 && self.sent % self.lost == 0 {
            return None;
        }
        decode(bytes).ok()
    }

    /// Sends the bytes of a packet to a device: those of its answer.
    fn send_to(&mut self, device: &mut Device, bytes: &[u8]) -> Option<Encoded> {
        let packet = self.send(bytes)?;
        let answer = device.on_packet(&packet)?;
        Some(encode(&answer))
    }
}

/// The token of the next try. It promises nothing, as [`begin`].
fn control_token(host: &HostDevice) -> Result<Encoded, StackFault> {
    let token = host.control_token()?;
    Ok(encode(&token))
}

/// The data that go with it. It promises nothing, as [`begin`].
fn control_payload(host: &HostDevice) -> Option<Encoded> {
    let payload = host.control_payload()?;
    Some(encode(&payload))
}

/// Takes what came after them. It promises nothing, as [`begin`].
fn control_take(host: &mut HostDevice, packet: Option<&Packet>) -> Taken {
    host.control_take(packet)
}

/// Sends what a try begins with: what arrives of the answer.
fn ask(line: &mut Line, host: &HostDevice, device: &mut Device, token: &[u8]) -> Option<Packet> {
    let mut answer = line.send_to(device, token);
    if let Some(payload) = control_payload(host) {
        answer = line.send_to(device, &payload);
    }
    line.send(&answer?)
}

/// Makes a try.
fn carry_try(
    line: &mut Line,
    host: &mut HostDevice,
    device: &mut Device,
) -> Result<Progress, StackFault> {
    let token = control_token(host)?;
    let reply = ask(line, host, device, &token);
    let taken = control_take(host, reply.as_ref());
    let is_ack_sent = match &taken {
        Ok((_, is_ack_sent)) => *is_ack_sent,
        Err(_) => token.first() == Some(&IN),
    };
    if is_ack_sent {
        line.send_to(device, &ACK);
    }
    match taken {
        Ok((progress, _)) => Ok(progress),
        Err(fault) => Err(fault),
    }
}

/// Makes tries until the request is at its end: what the last one reports.
fn carry(
    line: &mut Line,
    host: &mut HostDevice,
    device: &mut Device,
    request: &Request,
) -> Result<Progress, StackFault> {
    begin(host, request)?;
    for _ in 0..MAX_TRIES {
        match carry_try(line, host, device) {
            Ok(Progress::Running) => {}
            end => return end,
        }
    }
    Ok(Progress::Running)
}

fn print_carried(
    ends: &mut Ends,
    lost: Option<usize>,
    request: Option<Request>,
    printed: &mut Output,
) {
    let (Some(lost), Some(request)) = (lost, request) else {
        return printed.unread();
    };
    let mut line = Line { lost, sent: 0 };
    let end = carry(&mut line, &mut ends.host, &mut ends.device, &request);
    print_progress(end, printed);
    printed.show(format_args!("{} packets,", line.sent));
    print_state(&ends.host, printed);
}

fn print_control_token(host: &HostDevice, printed: &mut Output) {
    match control_token(host) {
        Ok(token) => printed.hex(&token),
        Err(fault) => printed.show(fault),
    }
}

fn print_control_payload(host: &HostDevice, printed: &mut Output) {
    match control_payload(host) {
        Some(payload) => printed.hex(&payload),
        None => printed.add("none"),
    }
}

/// Appends what a host makes of what came to a try.
fn print_taken(host: &mut HostDevice, packet: Option<&Packet>, printed: &mut Output) {
    match control_take(host, packet) {
        Ok((progress, is_ack_sent)) => {
            print_progress(Ok(progress), printed);
            printed.add(if is_ack_sent { "ack" } else { "" });
        }
        Err(fault) => printed.show(fault),
    }
}

/// Appends what a host makes of a packet that these bytes encode.
fn print_taken_of(host: &mut HostDevice, bytes: &[u8], printed: &mut Output) {
    match decode(bytes) {
        Ok(packet) => print_taken(host, Some(&packet), printed),
        Err(_) => printed.unread(),
    }
}

/// Does what these words mean with single packets of a transfer; false where they mean nothing of that.
pub fn print_packets(
    ends: &mut Ends,
    words: &[&str],
    bytes: &mut Vec<u8>,
    printed: &mut Output,
) -> bool {
    match *words {
        ["control", "token"] => print_control_token(&ends.host, printed),
        ["control", "payload"] => print_control_payload(&ends.host, printed),
        ["control", "take", "none"] => print_taken(&mut ends.host, None, printed),
        ["control", "take", ref rest @ ..] if read_bytes(bytes, rest) => {
            print_taken_of(&mut ends.host, bytes, printed);
        }
        ["carry", lost, ref rest @ ..] => {
            print_carried(ends, number(lost), request_of(rest, bytes), printed);
        }
        _ => return false,
    }
    true
}
