//! One poll: the host's token, the device's answer, and ACK for data, each packet as its bytes (USB 2.0, 8.5.4).
ghost use Rattle.hid_device.specs.Device.{core_of, is_poll};
ghost use Rattle.std.specs.Prelude.{◌≡◌, ◌≤◌, ◌+◌, true, false, [], Some, None, if◌then◌else◌, length, IfSome, vec_len, vec_capacity};
ghost use Rattle.std.specs.Option.{option_map};
ghost use Rattle.hid_layout.specs.Controls.{items_of, max_events};
ghost use Rattle.hid_snapshots.specs.Encoding.{AreBytes};
ghost use Rattle.usb_packet.specs.PacketRef.{to_owned, PayloadFits};
ghost use Rattle.usb_packet.specs.PacketEncoding.{Fits};
ghost use Rattle.usb_transact.specs.Bus.{received_bytes};
ghost use Rattle.usb_transact.specs.declared.bus.Phase.TheVariants.{Reply};
ghost use Rattle.hid_bus.specs.Rounds.{Polls};
ghost use Rattle.hid_host.specs.Phase.{IfReady};
ghost use Rattle.hid_stack.specs.Slot.{IsPair, link_of, pair_member};
ghost use Rattle.hid_stack.specs.HostInvariant.{IsConsistent};
ghost use Rattle.hid_stack.specs.Members.{Scheduled, member_after};
ghost use Rattle.hid_stack.specs.Polls.{Receives, ReceivesAck, HasBytes, Acknowledges, IsPollByPackets, TokenIsAnswered, Responds};
ghost use Rattle.hid_bus.specs.LinkState.{events_of_step};
ghost use Rattle.hid_stack.specs.StepResult.{PollReturns};

use crate::laws::hosts_know_their_devices;
use arrayvec::ArrayVec;
use hid_bus::Told;
use hid_device::Device;
use hid_host::{HostDevice, StackFault};
use hid_snapshots::Event;
use usb_packet::{Packet, PacketRef, encode_into, encode_ref_into};
use usb_transact::{Bus, Fate, Phase, Took, decode_received};

// For the prover: the numbers of a byte string are bytes.
fn are_bytes(bytes: &[u8])
    ensures { AreBytes bytes.now }
{
    let _bytes = bytes;
}

/// Gives the device a packet, where one came, and returns its answer.
fn receive_packet(device: &mut Device, packet: Option<PacketRef>) -> Option<Packet>
    requires { IfSome packet PayloadFits }
    ensures receives { Receives device.old (option_map to_owned packet.entry) result device.new }
    ensures fits { IfSome result Fits }
    ensures bytes { IfSome result HasBytes }
{
    let packet = packet?.to_owned();
    let answer = device.on_packet(&packet);
    if let Some(Packet::Data { payload, .. }) = &answer {
        // For the prover: its payload is bytes.
        are_bytes(payload.as_slice());
    }
    answer
}

// For the prover: the payload of a packet is bytes.
fn has_bytes(packet: PacketRef)
    ensures { HasBytes (to_owned packet.entry) }
{
    if let PacketRef::Data { payload, .. } = packet {
        // For the prover: its payload is bytes.
        are_bytes(payload);
    }
}

/// Gives the device a poll, and writes the bytes of its answer.
#[tactic(auto, using(hid_device::proofs::DeviceLemmas::polled_configured, hid_device::proofs::DeviceLemmas::opening_configured))]
fn answer_poll(device: &mut Device, packet: PacketRef, bytes: &mut ArrayVec<u8, 65>)
    requires polls { is_poll device.old (to_owned packet) ≡ true }
    requires empty { bytes.old.items ≡ [] }
    ensures { Responds device.old (Some (to_owned packet.entry)) true bytes.new.items device.new }
{
    device.receive_poll();
    let answer = device.poll_response();
    // For the prover: its payload is bytes.
    has_bytes(answer);
    encode_ref_into(answer, bytes);
}

/// Gives the device a packet, where one came, and writes the bytes of its answer, where it gives one.
#[inline(never)] // it makes room for packets that polls don't need
fn answer_packet(
    device: &mut Device,
    packet: Option<PacketRef>,
    bytes: &mut ArrayVec<u8, 65>,
) -> bool
    requires short { IfSome packet PayloadFits }
    requires empty { bytes.old.items ≡ [] }
    ensures { Responds device.old
        (option_map to_owned packet.entry) result bytes.new.items device.new }
{
    match receive_packet(device, packet) {
        Some(answer) => {
            encode_into(&answer, bytes);
            true
        }
        None => false,
    }
}

/// Gives the device a packet, by whether it is a poll, and writes the bytes of its answer.
fn respond(device: &mut Device, packet: Option<PacketRef>, bytes: &mut ArrayVec<u8, 65>) -> bool
    requires short { IfSome packet PayloadFits }
    requires empty { bytes.old.items ≡ [] }
    ensures { Responds device.old
        (option_map to_owned packet.entry) result bytes.new.items device.new }
{
    if let Some(token) = packet {
        if device.is_poll(token) {
            answer_poll(device, token, bytes);
            return true;
        }
    }
    answer_packet(device, packet, bytes)
}

/// Sends a token, gives the device what arrives of it, and writes the bytes of its answer, where it gives one.
fn send_token<B: Bus>(
    bus: &B,
    token: &Packet,
    device: &mut Device,
    bytes: &mut ArrayVec<u8, 65>,
) -> bool
    requires fits { Fits token.now }
    requires empty { bytes.old.items ≡ [] }
    ensures { TokenIsAnswered
        (B.arrives bus.now) token.now device.old result bytes.new.items device.new }
{
    let mut sent = ArrayVec::new();
    encode_into(token, &mut sent);
    let has_come = bus.transmit(Phase::Token, &mut sent);
    let came = decode_received(has_come, &sent);
    respond(device, came, bytes)
}

/// Transmits the bytes of an answer, where there is one.
fn transmit_answer<B: Bus>(bus: &B, answers: bool, bytes: &mut ArrayVec<u8, 65>) -> bool
    ensures { received_bytes result bytes.new.items
        ≡ (if answers then B.arrives bus.now Reply bytes.old.items else None) }
{
    answers && bus.transmit(Phase::Reply, bytes)
}

/// Sends ACK for data, fresh or not, and gives the device what arrives of it.
fn acknowledge<B: Bus>(bus: &B, took: &Took, device: &mut Device)
    ensures { Acknowledges (B.arrives bus.now) took.now device.old device.new }
{
    match took {
        Took::Fresh(_) | Took::Again => send_ack(bus, device),
        Took::Nak | Took::Stall | Took::Silent => {}
    }
}

/// Sends ACK, and gives the device what arrives of it.
fn send_ack<B: Bus>(bus: &B, device: &mut Device)
    ensures { ReceivesAck (B.arrives bus.now) device.old device.new }
{
    let mut bytes = ArrayVec::new();
    encode_ref_into(PacketRef::Ack, &mut bytes);
    let has_arrived = bus.transmit(Phase::Acknowledgement, &mut bytes);
    let _ = receive_packet(device, decode_received(has_arrived, &bytes));
}

/// One poll over any bus: the host's IN token, the device's answer, and ACK for data, fresh or not. Each packet goes as
/// its bytes, and each end acts on what it reads of those that arrive. The events are appended; there is reserved room
/// for `max_events` more, and no memory is taken.
///
/// # Errors
/// [`StackFault::NotReady`] where the host isn't ready, or has a clear pending: it sends nothing. [`StackFault::Report`]
/// where fresh data are no Input report: no ACK is sent for them.
pub fn poll<B: Bus>(
    bus: &B,
    device: &mut Device,
    host: &mut HostDevice,
    out: &mut Vec<Event>,
) -> Result<Told, StackFault>
    requires room { IfReady host.old.phase (λ known. vec_len out.old
        + max_events (items_of known.layout) ≤ vec_capacity out.old) }
    // Each packet is the one that is due, and each end acts on the bytes that arrive of it.
    ensures packets { IsPollByPackets (B.arrives bus.now) device.old host.old host.old.clearing
        host.old.phase result device.new host.new out.old.items out.new.items }

    ensures few { IfReady host.old.phase (λ known. length out.new.items
        ≤ length out.old.items + max_events (items_of known.layout)) }
    ensures capacity { vec_capacity out.new ≡ vec_capacity out.old }
{
    let token = host.token()?;
    let mut reply = ArrayVec::new();
    let answers = send_token(bus, &token, device, &mut reply);
    let mut back = ArrayVec::new();
    back.try_extend_from_slice(&reply).unwrap();
    let is_back = transmit_answer(bus, answers, &mut back);
    let took = host.reply_ref(decode_received(is_back, &back), out)?;
    acknowledge(bus, &took, device);
    Ok(Told::Polled {
        reply: if answers { Some(reply) } else { None },
        took,
    })
}

/// A poll of a device by its own host, whose packets have this fate.
pub(crate) fn poll_pair(
    fate: Fate,
    device: &mut Device,
    host: &mut HostDevice,
    events: &mut Vec<Event>,
) -> Told
    requires pair { IsPair device.old false host.old.phase }
    requires free { host.old.clearing ≡ false }
    requires room { max_events (items_of (core_of device.old).layout) ≤ vec_capacity events.old }
    ensures told { PollReturns (core_of device.old).layout
        (link_of (core_of device.old) host.old.phase) fate result }
    ensures after { pair_member device.new host.new
        ≡ member_after (pair_member device.old host.old) (Scheduled (Polls fate)) }
    ensures pair { IsPair device.new host.new.clearing host.new.phase }
    ensures knows { IsConsistent host.old device.old.control
        → IsConsistent host.new device.new.control }
    ensures home { host.new.addr ≡ host.old.addr }
    ensures events { events.new.items
        ≡ events_of_step (items_of (core_of device.old).layout)
        (link_of (core_of device.old) host.old.phase)
        (Polls fate) }
    ensures few { length events.new.items ≤ max_events (items_of (core_of device.old).layout) }
    ensures capacity { vec_capacity events.new ≡ vec_capacity events.old }
{
    // For the prover: the answer to a poll leaves what a host knows of its device.
    hosts_know_their_devices();

    events.clear();
    match poll(&fate, device, host, events) {
        Ok(told) => told,
        Err(_) => unreachable!(),
    }
}
