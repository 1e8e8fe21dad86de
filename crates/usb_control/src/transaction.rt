//! One transaction of endpoint 0 over a bus that may lose packets (USB 2.0, 8.5.3).
ghost use Rattle.std.specs.Prelude.{◌≡◌, List, ℕ, IfSome};
ghost use Rattle.std.specs.Option.{option_copied};
ghost use Rattle.usb_packet.specs.PacketEncoding.{Fits};
ghost use Rattle.usb_control.specs.Host.{IsRunning, progress_of};
ghost use Rattle.usb_transact.specs.Fate.{arrives_under};
ghost use Rattle.usb_control.specs.Crossing.{Acknowledges, Crosses, PacketReaches, Receives, TokenIsAnswered, asks_for_data, phase_of};
ghost use Rattle.usb_control.specs.Transaction.{Transacts};
ghost use Rattle.usb_control.specs.Transfer.{Place, transfer_shape};
ghost use Rattle.usb_control.specs.Positions.{TransferIsAt, TryLeadsOn};

use crate::device::DevControl;
use crate::host::{HostTransfer, Progress};
use crate::requests::Requests;
use usb_packet::{Packet, TokenKind};
use usb_transact::{Bus, Fate, Phase, send_packet, send_reply};

impl<R: Requests> DevControl<R> {
    /// Hears the packet that came, if one did, and gives the answer to it.
    #[inline(never)] // it stands where its caller wants it
    fn receive(&mut self, packet: Option<&Packet>) -> Option<Packet>
        ensures receives { Receives R.prepare_gives R.apply_gives R.answer_of
            (option_copied packet.entry)
            self.old self.new result }
        ensures fits { IfSome result Fits }
    {
        match packet {
            Some(packet) => self.on_packet(packet),
            None => None,
        }
    }
}

/// Sends a token, and the data that go with it. Gives the device's answer to what arrives.
fn reach<B: Bus, R: Requests>(
    bus: &B,
    token: &Packet,
    payload: Option<&Packet>,
    control: &mut DevControl<R>,
) -> Option<Packet>
    requires token { Fits token.now }
    requires payload { IfSome (option_copied payload) Fits }
    ensures reaches { PacketReaches R.prepare_gives R.apply_gives R.answer_of
        (B.arrives bus.now)
        token.now (option_copied payload.entry) control.old control.new result }
    ensures fits { IfSome result Fits }
{
    let token = send_packet(bus, Phase::Token, token);
    let answer = control.receive(token.as_ref());
    match payload {
        Some(payload) => {
            let data = send_packet(bus, Phase::HostData, payload);
            control.receive(data.as_ref())
        }
        None => answer,
    }
}

/// The phase in which a device answers a token, or the data after it.
fn answer_phase(token: &Packet) -> Phase
    ensures { result ≡ phase_of (asks_for_data token.now) }
{
    match token {
        Packet::Token {
            kind: TokenKind::In,
            ..
        } => Phase::Reply,
        _ => Phase::Handshake,
    }
}

/// Sends a token to a device over any bus, and the data that go with it (USB 2.0, 8.5.3). Gives what arrives of the device's
/// answer. [`HostTransfer::token`] and [`HostTransfer::payload`] are the two, and [`HostTransfer::take`] takes the answer.
pub fn send_token<B: Bus, R: Requests>(
    bus: &B,
    token: &Packet,
    payload: Option<&Packet>,
    control: &mut DevControl<R>,
) -> Option<Packet>
    requires token { Fits token.now }
    requires payload { IfSome (option_copied payload) Fits }
    ensures { TokenIsAnswered R.prepare_gives R.apply_gives R.answer_of (B.arrives bus.now)
        token.now (option_copied payload.entry) control.old control.new result }
{
    let answer = reach(bus, token, payload, control);
    send_reply(bus, answer_phase(token), answer.as_ref())
}

/// Sends ACK to a device over any bus, where the host sends one, as [`HostTransfer::take`] says.
pub fn send_ack<B: Bus, R: Requests>(bus: &B, is_sent: bool, control: &mut DevControl<R>)
    ensures { Acknowledges R.prepare_gives R.apply_gives R.answer_of (B.arrives bus.now) is_sent
        control.old control.new }
{
    if is_sent {
        let ack = send_packet(bus, Phase::Acknowledgement, &Packet::Ack);
        control.receive(ack.as_ref());
    }
}

impl HostTransfer {
    /// One transaction over any bus.
    fn transact<B: Bus, R: Requests>(&mut self, bus: &B, control: &mut DevControl<R>)
        requires { IsRunning self.old.stage }
        ensures crosses { Crosses R.prepare_gives R.apply_gives R.answer_of (B.arrives bus.now)
            self.old control.old self.new control.new }
        ensures same { (self.new.setup ≡ self.old.setup) × (self.new.addr ≡ self.old.addr) }
    {
        let reply = send_token(bus, &self.token(), self.payload().as_ref(), control);
        let acknowledges = self.take(reply.as_ref());
        send_ack(bus, acknowledges, control);
    }

    /// One try of the transfer with the device: what is next goes over the bus, each packet as its bytes, and one of them
    /// may be lost (USB 2.0, 8.5.3).
    ///
    /// A transfer is a list of pieces: SETUP, the data cut in eights, the status. Host and device each stand at one of
    /// them, and a try moves them on so:
    ///
    /// | piece | `TokenLost` | `ReplyLost` | `AckLost` | `Clean` |
    /// |---|---|---|---|---|
    /// | SETUP | neither | device, which decides | as `ReplyLost` | both |
    /// | data of a write, status of a read | neither | device | as `ReplyLost` | both |
    /// | data of a read | neither | neither | host | host, and device |
    /// | status of a write | neither | neither, but it takes effect | host, and it takes effect | both, and it takes effect |
    /// | status of a read of no bytes | neither | neither | host | both |
    /// | any but SETUP, of a refused request | no answer | no answer | C1 where it came by IN, else no answer | C1 |
    ///
    /// An end that has the piece already stays where it is. A write takes effect at the first try of its status that
    /// arrives, and not again. Where the host gets no answer it counts the try: the third in a row is C2.
    pub fn step<R: Requests>(&mut self, control: &mut DevControl<R>, fate: Fate) -> Progress
        requires { IsRunning self.old.stage }
        ensures progress { result ≡ progress_of self.new.stage }
        ensures same { (self.new.setup ≡ self.old.setup) × (self.new.addr ≡ self.old.addr) }

        // Packet by packet: as bytes, and as what each end makes of them.
        ensures packets { Crosses R.prepare_gives R.apply_gives R.answer_of (arrives_under fate)
            self.old control.old self.new control.new }
        ensures transacts { Transacts R.prepare_gives R.apply_gives R.answer_of fate
            self.old control.old self.new control.new }

        // From any place at which both ends stand, the try goes on as two positions in one list of pieces do.
        ensures tried { (sends : List ℕ) (place : Place)
            → TransferIsAt R.answer_of
            (transfer_shape self.old.setup) sends place self.old control.old
            → TryLeadsOn R.prepare_gives R.apply_gives R.answer_of self.old.setup sends fate
            place control.old.requests self.new control.new }
    {
        self.transact(&fate, control);
        self.progress()
    }
}
