//! A session: what stands between two lines, and how a line is carried out.

ghost use Rattle.std.specs.Prelude.{◌≡◌};
ghost use Rattle.hid_script.specs.Session.{at_first, Repeats};
ghost use Rattle.hid_script.specs.Steps.{LayoutPrints, ValuesPrint, DevicePrints, StepPrints, ChangePrints, change_of, finished_read};
ghost use Rattle.hid_script.specs.LineOutput.{ShortLinePrints, LineOutcomeOnce, short_times, times, CarriesOut, Begins, LinePrints, LineBegins};
ghost use Rattle.hid_script.specs.Place.{AppendsOutput, AppendsOnce, end_of};
ghost use Rattle.hid_script.specs.Streams.{EndsText};
ghost use Rattle.hid_bus.specs.declared.step.Step.TheVariants as Taking;

use super::change_kind::change_of;
use super::fault::Cause;
use super::options::Options;
use super::output::write_text;
use super::streams::Sink;
use hid_device::{Boot, Config};
use hid_layout::{ControlId, Layout, Usage};
use hid_stack::{Delivered, Request, Rig, Start, Step, Told};
use hid_text::{
    ChangeKind, Line, ShortLine, print_layout, print_step, print_values, read_line, read_short,
    says_nothing,
};
use hid_usages::input_report;
use std::alloc::Global;
use usb_control::Outcome;
use usb_transact::Fate;

/// idVendor of a script's devices (USB 2.0, 9.6.1; our choice).
const VENDOR: u16 = 0xFFFF;

/// idProduct of a script's devices.
const PRODUCT: u16 = 0x0001;

/// bInterval of a script's devices, in frames (USB 2.0, 9.6.6).
const INTERVAL: u8 = 10;

/// The devices with their hosts and the last layout that was accepted, and room that is used again: for what a step
/// delivers, and for what is printed.
#[derive(Drop)]
pub struct Interpreter {
    alloc: Global,
    options: Options,
    rig: Rig,
    layout: Option<Layout>,
    events: u64,
    delivered: Vec<Delivered>,
    text: String,
}

/// How many times a short line is carried out.
#[tactic(auto, unfolding(crate::specs::LineOutput::short_times))]
fn short_times(line: &ShortLine) -> u16
    ensures { result ≡ short_times line.now }
{
    match line {
        ShortLine::Frame { count } => *count,
        ShortLine::Poll { count, .. } => *count,
        ShortLine::Control { count, .. } => *count,
        ShortLine::Press { .. }
        | ShortLine::Release { .. }
        | ShortLine::Null { .. }
        | ShortLine::Set { .. }
        | ShortLine::Move { .. }
        | ShortLine::Reset { .. }
        | ShortLine::Halt { .. } => 1,
    }
}

/// The bytes of a read that a step ended; none where it ended no read.
#[inline(always)]
#[tactic(auto, unfolding(crate::specs::Steps::finished_read))]
fn finished_read<'a>(rig: &'a Rig, step: &Step) -> &'a [u8]
    ensures { result.now ≡ finished_read rig.now step.now }
{
    let Step::Control { dev, .. } = *step else {
        return &[];
    };
    match rig.transfer(dev) {
        Ok(Outcome::Done(bytes)) => bytes,
        Ok(Outcome::Running) | Ok(Outcome::Failed(_)) | Err(_) => &[],
    }
}

impl Interpreter {
    ghost use Rattle.std.specs.Prelude.{IfOk, IfErr, OnOk};
    ghost use Rattle.hid_stack.specs.Rig.{deliveries_of_step};
    ghost use Rattle.hid_stack.specs.StepResult.{StepReturns};
    ghost use Rattle.hid_script.specs.Interpreter.{session_of, last_events};

    /// An interpreter that has carried out no line.
    ///
    /// # Errors
    /// X7, if memory runs out.
    pub fn new(alloc: Global, options: Options) -> Result<Self, Cause>
        ensures new { IfOk result (λ interpreter. session_of interpreter ≡ at_first options) }
        ensures memory { IfErr result (λ cause. cause ≡ Cause.Memory) }
    {
        let Ok(rig) = Rig::new(alloc) else {
            return Err(Cause::Memory);
        };
        Ok(Interpreter {
            alloc,
            options,
            rig,
            layout: None,
            events: 0,
            delivered: Vec::new(alloc),
            text: String::new(alloc),
        })
    }

    /// How many events were delivered.
    pub fn events(&self) -> u64
        ensures { result ≡ (session_of self.now).events }
    {
        self.events
    }

    /// The devices with their hosts.
    pub fn rig(&self) -> &Rig
        ensures { result.now ≡ (session_of self.now).members }
    {
        &self.rig
    }

    /// The events of the last step that was taken, each with its control.
    pub fn delivered(&self) -> &[Delivered]
        ensures { result.now ≡ last_events self.now }
    {
        self.delivered.as_slice()
    }

    /// Carries out a line, without its end.
    ///
    /// # Errors
    /// The cause for which the line is refused, X6 if its text was not written whole, or X7.
    pub fn line<W: Sink>(&mut self, line: &[u8], writer: &mut W) -> Result<(), Cause>
        ensures prints { AppendsOutput (W.contents writer.old) (W.contents writer.new)
            (LinePrints (session_of self.old) line.now)
            (LineBegins (session_of self.old) line.now) result (session_of self.new) }
        ensures outside { EndsText W.calls writer.old writer.new result }
    {
        if says_nothing(line) {
            return Ok(());
        }
        self.run_line(line, writer)
    }

    /// Carries out any line, without its end.
    #[inline(never)] // an empty line makes no room for what a line says
    fn run_line<W: Sink>(&mut self, line: &[u8], writer: &mut W) -> Result<(), Cause>
        ensures prints { AppendsOutput (W.contents writer.old) (W.contents writer.new)
            (LinePrints (session_of self.old) line.now)
            (LineBegins (session_of self.old) line.now) result (session_of self.new) }
        ensures outside { EndsText W.calls writer.old writer.new result }
    {
        match read_short(line) {
            Some(line) => self.repeat(&line, writer),
            None => self.run_any(line, writer),
        }
    }

    /// Carries out a line that isn't short, with room for the bytes of hex words.
    #[inline(never)] // a short line makes none
    fn run_any<W: Sink>(&mut self, line: &[u8], writer: &mut W) -> Result<(), Cause>
        ensures prints { AppendsOutput (W.contents writer.old) (W.contents writer.new)
            (LinePrints (session_of self.old) line.now)
            (LineBegins (session_of self.old) line.now) result (session_of self.new) }
        ensures outside { EndsText W.calls writer.old writer.new result }
    {
        match &read_line(line) {
            Ok(line) => self.carry_out(line, writer),
            Err(fault) => Err(Cause::from(*fault)),
        }
    }

    /// Carries out a line that was read as often as it says, up to the first time that it is refused. The output of each time is
    /// written before the next.
    ///
    /// # Errors
    /// As [`Interpreter::line`].
    pub fn carry_out<W: Sink>(&mut self, line: &Line, writer: &mut W) -> Result<(), Cause>
        ensures prints { AppendsOutput (W.contents writer.old) (W.contents writer.new)
            (CarriesOut (session_of self.old) line.now)
            (Begins (times line.now) (LineOutcomeOnce line.now) (session_of self.old)) result
            (session_of self.new) }
        ensures outside { EndsText W.calls writer.old writer.new result }
    {
        match line {
            Line::Nothing => Ok(()),
            Line::Layout { bytes } => self.lay_out(bytes.as_slice(), writer),
            Line::Values { bytes } => self.print_values_of(bytes.as_slice(), writer),
            Line::Device { start, boot, bytes } => self.attach(
                *start,
                *boot,
                bytes.as_slice(),
                writer,
            ),
            Line::Begin { dev, request } => self.begin(*dev, request, writer),
            // `read_short` takes these first, which its contract doesn't promise
            Line::Step(line) => self.repeat(line, writer),
        }
    }

    /// Carries out a short line as often as it says.
    ///
    /// # Errors
    /// As [`Interpreter::line`].
    pub fn repeat<W: Sink>(&mut self, line: &ShortLine, writer: &mut W) -> Result<(), Cause>
        ensures prints { AppendsOutput (W.contents writer.old) (W.contents writer.new)
            (Repeats (short_times line.now) (ShortLinePrints line.now) (session_of self.old))
            (Begins (short_times line.now) (ShortLinePrints line.now) (session_of self.old)) result
            (session_of self.new) }
        ensures outside { EndsText W.calls writer.old writer.new result }
    {
        for _ in 0..short_times(line) {
            self.carry_out_once(line, writer)?;
        }
        Ok(())
    }

    /// The output of a short line each time.
    #[tactic(auto, unfolding(crate::specs::LineOutput::ShortLinePrints))]
    fn carry_out_once<W: Sink>(&mut self, line: &ShortLine, writer: &mut W) -> Result<(), Cause>
        ensures prints { AppendsOnce (W.contents writer.old) (W.contents writer.new)
            (ShortLinePrints line.now (session_of self.old)) result (session_of self.new) }
        ensures outside { EndsText W.calls writer.old writer.new result }
    {
        match line {
            ShortLine::Press { dev, usage } => self.change(*dev, *usage, ChangeKind::Press, writer),
            ShortLine::Release { dev, usage } => self.change(
                *dev,
                *usage,
                ChangeKind::Release,
                writer,
            ),
            ShortLine::Null { dev, usage } => self.change(*dev, *usage, ChangeKind::Null, writer),
            ShortLine::Set { dev, usage, value } => self.change(
                *dev,
                *usage,
                ChangeKind::Set(*value),
                writer,
            ),
            ShortLine::Move { dev, usage, by } => self.change(
                *dev,
                *usage,
                ChangeKind::Move(*by),
                writer,
            ),
            ShortLine::Frame { .. } => self.frame(writer),
            ShortLine::Poll { dev, fate, .. } => self.poll(*dev, *fate, writer),
            ShortLine::Control { dev, fate, .. } => self.control(*dev, *fate, writer),
            ShortLine::Reset { dev } => self.reset(*dev, writer),
            ShortLine::Halt { dev } => self.halt(*dev, writer),
        }
    }

    /// Prints the layout that a descriptor of any length gives, and keeps it.
    ///
    /// # Errors
    /// X4 where the descriptor is refused; X6 or X7.
    #[inline(never)]
    pub fn lay_out<W: Sink>(&mut self, descriptor: &[u8], writer: &mut W) -> Result<(), Cause>
        ensures prints { AppendsOnce (W.contents writer.old) (W.contents writer.new)
            (LayoutPrints descriptor.now (session_of self.old)) result (session_of self.new) }
        ensures outside { EndsText W.calls writer.old writer.new result }
    {
        let layout = Layout::parse(self.alloc, descriptor)?;
        self.text.clear();
        if print_layout(&mut self.text, &layout).is_err() {
            drop(layout);
            return Err(Cause::Memory);
        }
        drop(self.layout.replace(layout));
        write_text(writer, self.text.as_bytes())
    }

    /// Prints the values of a report of the layout that is kept.
    ///
    /// # Errors
    /// X9 where none is kept, X4 where the report is refused; X6 or X7.
    #[inline(never)]
    pub fn print_values_of<W: Sink>(&mut self, bytes: &[u8], writer: &mut W) -> Result<(), Cause>
        ensures prints { AppendsOnce (W.contents writer.old) (W.contents writer.new)
            (ValuesPrint bytes.now (session_of self.old)) result (session_of self.new) }
        ensures outside { EndsText W.calls writer.old writer.new result }
    {
        let Some(layout) = &self.layout else {
            return Err(Cause::NoLayout);
        };
        let report = input_report(layout, bytes)?;
        self.text.clear();
        print_values(&mut self.text, layout, report, bytes)?;
        write_text(writer, self.text.as_bytes())
    }

    /// Attaches a device with a descriptor of any length, and prints its layout where layouts are asked for.
    ///
    /// # Errors
    /// X4 where the rig refuses it; X6 or X7.
    #[inline(never)]
    pub fn attach<W: Sink>(
        &mut self,
        start: Start,
        boot: Boot,
        descriptor: &[u8],
        writer: &mut W,
    ) -> Result<(), Cause>
        ensures prints { AppendsOnce (W.contents writer.old) (W.contents writer.new)
            (DevicePrints start boot descriptor.now (session_of self.old)) result
            (session_of self.new) }
        ensures outside { EndsText W.calls writer.old writer.new result }
    {
        let config = Config {
            vendor: VENDOR,
            product: PRODUCT,
            interval: INTERVAL,
            boot,
        };
        let dev = self.rig.attach(&config, descriptor, start)?;
        if !self.options.layout {
            return Ok(());
        }
        let device = self.rig.device(dev)?;
        self.text.clear();
        print_layout(&mut self.text, device.layout())?;
        write_text(writer, self.text.as_bytes())
    }

    /// Changes the least control with a usage.
    #[inline(never)]
    fn change<W: Sink>(
        &mut self,
        dev: u8,
        usage: Usage,
        wanted: ChangeKind,
        writer: &mut W,
    ) -> Result<(), Cause>
        ensures prints { AppendsOnce (W.contents writer.old) (W.contents writer.new)
            (ChangePrints dev usage wanted (session_of self.old)) result (session_of self.new) }
        ensures outside { EndsText W.calls writer.old writer.new result }
    {
        let control = self.rig.find(dev, usage)?;
        let change = change_of(wanted, control);
        self.step(&Step::Change { dev, change }, writer)
    }

    /// Changes a control by its place: where several have one usage, a line names the least of them alone.
    ///
    /// # Errors
    /// X4 where the change is refused; X6 or X7.
    #[inline(never)]
    pub fn change_at<W: Sink>(
        &mut self,
        dev: u8,
        control: ControlId,
        wanted: ChangeKind,
        writer: &mut W,
    ) -> Result<(), Cause>
        ensures prints { AppendsOnce (W.contents writer.old) (W.contents writer.new)
            (StepPrints (Taking.Change dev (change_of wanted control)) (session_of self.old)) result
            (session_of self.new) }
        ensures outside { EndsText W.calls writer.old writer.new result }
    {
        let change = change_of(wanted, control);
        self.step(&Step::Change { dev, change }, writer)
    }

    // `inline(never)` below: so a step has only its own locals on the stack.

    /// A frame passes.
    #[inline(never)]
    fn frame<W: Sink>(&mut self, writer: &mut W) -> Result<(), Cause>
        ensures prints { AppendsOnce (W.contents writer.old) (W.contents writer.new)
            (StepPrints (Taking.Frame) (session_of self.old)) result (session_of self.new) }
        ensures outside { EndsText W.calls writer.old writer.new result }
    {
        self.step(&Step::Frame, writer)
    }

    /// The host polls a device.
    #[inline(never)]
    fn poll<W: Sink>(&mut self, dev: u8, fate: Fate, writer: &mut W) -> Result<(), Cause>
        ensures prints { AppendsOnce (W.contents writer.old) (W.contents writer.new)
            (StepPrints (Taking.Poll dev fate) (session_of self.old)) result (session_of self.new) }
        ensures outside { EndsText W.calls writer.old writer.new result }
    {
        self.step(&Step::Poll { dev, fate }, writer)
    }

    /// The host makes a try of the transfer that runs.
    #[inline(never)]
    fn control<W: Sink>(&mut self, dev: u8, fate: Fate, writer: &mut W) -> Result<(), Cause>
        ensures prints { AppendsOnce (W.contents writer.old) (W.contents writer.new)
            (StepPrints (Taking.Control dev fate) (session_of self.old)) result
            (session_of self.new) }
        ensures outside { EndsText W.calls writer.old writer.new result }
    {
        self.step(&Step::Control { dev, fate }, writer)
    }

    /// The host begins a request.
    #[inline(never)]
    fn begin<W: Sink>(&mut self, dev: u8, request: &Request, writer: &mut W) -> Result<(), Cause>
        ensures prints { AppendsOnce (W.contents writer.old) (W.contents writer.new)
            (StepPrints (Taking.Begin dev request.now) (session_of self.old)) result
            (session_of self.new) }
        ensures outside { EndsText W.calls writer.old writer.new result }
    {
        let request = request.copied();
        self.step(&Step::Begin { dev, request }, writer)
    }

    /// The bus resets a device.
    #[inline(never)]
    fn reset<W: Sink>(&mut self, dev: u8, writer: &mut W) -> Result<(), Cause>
        ensures prints { AppendsOnce (W.contents writer.old) (W.contents writer.new)
            (StepPrints (Taking.Reset dev) (session_of self.old)) result (session_of self.new) }
        ensures outside { EndsText W.calls writer.old writer.new result }
    {
        self.step(&Step::Reset { dev }, writer)
    }

    /// A device halts the endpoint that is polled.
    #[inline(never)]
    fn halt<W: Sink>(&mut self, dev: u8, writer: &mut W) -> Result<(), Cause>
        ensures prints { AppendsOnce (W.contents writer.old) (W.contents writer.new)
            (StepPrints (Taking.Halt dev) (session_of self.old)) result (session_of self.new) }
        ensures outside { EndsText W.calls writer.old writer.new result }
    {
        self.step(&Step::Halt { dev }, writer)
    }

    /// Takes a step of the bus, and prints its result.
    #[inline(always)] // each sort of step pays for no other
    fn step<W: Sink>(&mut self, step: &Step, writer: &mut W) -> Result<(), Cause>
        ensures prints { AppendsOnce (W.contents writer.old) (W.contents writer.new)
            (StepPrints step.now (session_of self.old)) result (session_of self.new) }
        ensures outside { EndsText W.calls writer.old writer.new result }
    {
        match self.take_step(step, writer) {
            Ok(_) => Ok(()),
            Err(cause) => Err(cause),
        }
    }

    /// Takes a step of the bus, prints its result, and gives it.
    ///
    /// # Errors
    /// X4 where the step is refused; X6 or X7.
    #[inline(always)] // each sort of step pays for no other
    pub fn take_step<W: Sink>(&mut self, step: &Step, writer: &mut W) -> Result<Told, Cause>
        ensures prints { AppendsOnce (W.contents writer.old) (W.contents writer.new)
            (StepPrints step.now (session_of self.old)) (end_of result) (session_of self.new) }
        ensures told { IfOk result
            (λ told. StepReturns (session_of self.old).members step.now told) }
        ensures events { OnOk result
            (last_events self.new ≡ deliveries_of_step (session_of self.old).members step.now) }
        ensures outside { EndsText W.calls writer.old writer.new (end_of result) }
    {
        self.delivered.clear();
        let told = self.rig.step(step, &mut self.delivered)?;
        self.text.clear();
        let delivered = self.delivered.as_slice();
        let got = finished_read(&self.rig, step);
        print_step(
            &mut self.text,
            self.options.trace,
            step,
            &told,
            got,
            delivered,
        )?;
        self.events = self.events.saturating_add(delivered.len() as u64);
        match write_text(writer, self.text.as_bytes()) {
            Ok(()) => Ok(told),
            Err(cause) => Err(cause),
        }
    }
}
