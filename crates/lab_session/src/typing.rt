//! Clicks, and text that is typed: each change is polled for until it has crossed.

ghost use Rattle.std.specs.Prelude.{◌≡◌, Err, OnOk};

use super::bench::Bench;
use super::fault::LabCause;
use hid_layout::ControlId;
use hid_script::{Cause, Sink};
use hid_text::ChangeKind;
use lab_lines::{Key, LEFT_SHIFT, TypedText, key_of};
use usb_transact::Fate;

/// How often a change is polled for until the device has nothing to send.
const MOST_POLLS: u16 = 100;

impl Bench {
    ghost use Rattle.lab_session.specs.Bench.{Does, moment_of};
    ghost use Rattle.lab_session.specs.Calls.{EndsLab};
    ghost use Rattle.lab_session.specs.Lines.{Clicks, ClicksKey, ClicksShifted, Settles, SettlesChange, StaysUnsettled, Types};

    /// Polls until the device answers that it has nothing to send: all its changes have crossed then.
    fn settle<W: Sink>(&mut self, dev: u8, writer: &mut W) -> Result<(), LabCause>
        ensures does { OnOk result (Does (Settles dev) self.old self.new
            (W.contents writer.old) (W.contents writer.new)) }
        ensures unsettled { result ≡ Err LabCause.Unsettled → StaysUnsettled dev (moment_of self.new) }
        ensures calls { EndsLab W.calls writer.old writer.new result }
    {
        for _ in 0..MOST_POLLS {
            if self.poll(dev, Fate::Clean, writer)? {
                return Ok(());
            }
        }
        Err(LabCause::Unsettled)
    }

    /// Changes a control, and polls until the device has nothing to send.
    fn settle_change<W: Sink>(
        &mut self,
        dev: u8,
        control: ControlId,
        wanted: ChangeKind,
        writer: &mut W,
    ) -> Result<(), LabCause>
        ensures does { OnOk result (Does (SettlesChange dev control wanted) self.old self.new
            (W.contents writer.old) (W.contents writer.new)) }
        ensures unsettled { result ≡ Err LabCause.Unsettled → StaysUnsettled dev (moment_of self.new) }
        ensures calls { EndsLab W.calls writer.old writer.new result }
    {
        self.change(dev, control, wanted, writer)?;
        self.settle(dev, writer)
    }

    /// Presses a control, and lets it go once that has crossed.
    pub(super) fn click<W: Sink>(
        &mut self,
        dev: u8,
        control: ControlId,
        writer: &mut W,
    ) -> Result<(), LabCause>
        ensures does { OnOk result (Does (Clicks dev control) self.old self.new
            (W.contents writer.old) (W.contents writer.new)) }
        ensures unsettled { result ≡ Err LabCause.Unsettled → StaysUnsettled dev (moment_of self.new) }
        ensures calls { EndsLab W.calls writer.old writer.new result }
    {
        self.settle_change(dev, control, ChangeKind::Press, writer)?;
        self.settle_change(dev, control, ChangeKind::Release, writer)
    }

    /// Clicks a key while Shift is held.
    fn click_shifted<W: Sink>(
        &mut self,
        dev: u8,
        shift: ControlId,
        control: ControlId,
        writer: &mut W,
    ) -> Result<(), LabCause>
        ensures does { OnOk result (Does (ClicksShifted dev shift control) self.old self.new
            (W.contents writer.old) (W.contents writer.new)) }
        ensures unsettled { result ≡ Err LabCause.Unsettled → StaysUnsettled dev (moment_of self.new) }
        ensures calls { EndsLab W.calls writer.old writer.new result }
    {
        self.settle_change(dev, shift, ChangeKind::Press, writer)?;
        self.click(dev, control, writer)?;
        self.settle_change(dev, shift, ChangeKind::Release, writer)
    }

    /// Clicks a key, with Shift around it where it is needed.
    fn click_key<W: Sink>(&mut self, dev: u8, key: Key, writer: &mut W) -> Result<(), LabCause>
        ensures does { OnOk result (Does (ClicksKey dev key) self.old self.new
            (W.contents writer.old) (W.contents writer.new)) }
        ensures unsettled { result ≡ Err LabCause.Unsettled → StaysUnsettled dev (moment_of self.new) }
        ensures calls { EndsLab W.calls writer.old writer.new result }
    {
        let control = self.find_usage(dev, key.usage)?;
        if key.is_shifted {
            let shift = self.find_usage(dev, LEFT_SHIFT)?;
            self.click_shifted(dev, shift, control, writer)
        } else {
            self.click(dev, control, writer)
        }
    }

    /// Types a text.
    pub(super) fn type_text<W: Sink>(
        &mut self,
        dev: u8,
        text: TypedText<'_>,
        writer: &mut W,
    ) -> Result<(), LabCause>
        ensures does { OnOk result (Does (Types dev text.entry.rest.now) self.old self.new
            (W.contents writer.old) (W.contents writer.new)) }
        ensures unsettled { result ≡ Err LabCause.Unsettled → StaysUnsettled dev (moment_of self.new) }
        ensures calls { EndsLab W.calls writer.old writer.new result }
    {
        let mut text = text;
        while let Some(character) = text.next_character() {
            let Some(key) = key_of(character) else {
                return Err(LabCause::Script(Cause::Syntax));
            };
            self.click_key(dev, key, writer)?;
        }
        Ok(())
    }
}
