//! A host that reads what comes of a device, whatever that is.
ghost use Rattle.std.specs.Prelude.{◌≡◌, ◌⊎◌, ◌<◌, ◌≤◌, ◌++◌, IfErr, IfOk, OnOk};
ghost use Rattle.std.specs.Option.{option_copied};
ghost use Rattle.hid_layout.specs.Layout.{Contents};
ghost use Rattle.hid_layout.specs.Parsing.{ParsesTo};
ghost use Rattle.hid_host.specs.declared.fault.StackFault.TheVariants.{Memory};
ghost use Rattle.hid_host.specs.Conclusions.{IsNoLayout};
ghost use Rattle.hid_host.specs.Phase.{IsReady};
ghost use Rattle.hid_host.specs.Ready.{ready_host_at_start};
ghost use Rattle.hid_any_device.specs.Replies.{AreEventsOfDevice, events_of_replies, device_host_after, device_host_events, device_host_events_all};

use hid_host::{HostDevice, StackFault};
use hid_snapshots::Event;
use std::alloc::Global;
use usb_packet::{MAX_ADDRESS, Packet};

/// Takes what came at one poll, with the room for its events.
fn take_reply(
    host: &mut HostDevice,
    reply: Option<&Packet>,
    events: &mut Vec<Event>,
) -> Result<(), StackFault>
    requires { IsReady host.old.phase }
    ensures after { OnOk result (host.new ≡ device_host_after host.old (option_copied reply.entry)) }
    ensures events { OnOk result (events.new.items
        ≡ events.old.items ++ device_host_events host.old (option_copied reply.entry)) }
    ensures ready { OnOk result (IsReady host.new.phase) }
    ensures only { IfErr result (λ fault. fault ≡ Memory) }
{
    if events.reserve(host.max_events()).is_err() {
        return Err(StackFault::Memory);
    }
    let _taken = host.reply(reply, events); // a report that is refused gives no events
    Ok(())
}

/// Takes all that came, one after another.
fn take_replies(
    host: &mut HostDevice,
    replies: &[Option<Packet>],
    events: &mut Vec<Event>,
) -> Result<(), StackFault>
    requires { IsReady host.old.phase }
    ensures events { OnOk result (events.new.items
        ≡ events.old.items ++ device_host_events_all host.old replies.now) }
    ensures only { IfErr result (λ fault. fault ≡ Memory) }
{
    for reply in replies {
        take_reply(host, reply.as_ref(), events)?;
    }
    Ok(())
}

/// The events of all that came at the polls of a device with this report descriptor, at this address, from 1 to
/// [`MAX_ADDRESS`], since its configuration; `None` stands for a poll at which nothing came. The size of a full packet is 64.
///
/// # Errors
/// Why there is no layout, or out of memory.
pub fn read_replies(
    alloc: Global,
    addr: u8,
    descriptor: &[u8],
    replies: &[Option<Packet>],
) -> Result<Vec<Event>, StackFault>
    requires above { 0 < addr }
    requires addr { addr ≤ MAX_ADDRESS }
    // The events of the replies, one after another; of any device that may have sent them, those of its reports.
    ensures events { IfOk result (λ events. (layout : Contents) × ParsesTo descriptor.now layout
        × (events.items ≡ events_of_replies (ready_host_at_start addr 1 layout) replies.now)
        × AreEventsOfDevice addr layout replies.now events.items) }
    ensures refused { IfErr result (λ fault. (fault ≡ Memory) ⊎ IsNoLayout descriptor.now fault) }
{
    let mut host = HostDevice::ready(alloc, addr, descriptor)?;
    let mut events = Vec::new(alloc);
    take_replies(&mut host, replies, &mut events)?;
    Ok(events)
}
