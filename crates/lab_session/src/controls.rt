//! What a control of a device is, and the refusal of one that isn't there.

ghost use Rattle.lab_session.specs.Calls.{NeedsNoCall};

use hid_layout::{ControlId, ControlKind, Controls, Usage};
use hid_script::{Cause, StepFault};
use hid_snapshots::ChangeFault;
use hid_stack::{Rig, StackFault};
use hid_text::ShortLine;

/// The refusal of a control that isn't there.
pub fn no_control() -> Cause
    ensures { NeedsNoCall result }
{
    Cause::Step(StepFault::Stack(StackFault::Refused(ChangeFault::NoSuchControl)))
}

/// The control of a change that is refused.
#[derive(Clone, Copy, Debug, PartialEq, Eq)]
pub struct RefusedControl {
    /// What it is for.
    pub usage: Usage,
    /// What it reports.
    pub kind: ControlKind,
    /// The least and the greatest number that it takes, if it is no key of an array.
    pub range: Option<(i64, i64)>,
}

/// The control at an index, if there is such a control.
pub fn control_at(rig: &Rig, dev: u8, control: ControlId) -> Option<RefusedControl> {
    let device = rig.device(dev).ok()?;
    let layout = device.layout();
    let found = layout.control(control)?;
    if control.item >= layout.items().len() {
        return None;
    }
    let range = match layout.controls(control.item) {
        Controls::Elements {
            least,
            greatest,
            ..
        } => Some((least, greatest)),
        Controls::None | Controls::Keys { .. } => None,
    };
    Some(RefusedControl {
        usage: found.usage,
        kind: found.kind,
        range,
    })
}

/// The least control with a usage, if there is such a control.
fn control_with(rig: &Rig, dev: u8, usage: Usage) -> Option<RefusedControl> {
    let control = rig.find(dev, usage).ok()?;
    control_at(rig, dev, control)
}

/// What the control is that a line changes, if it changes one and there is such a control.
fn control_of(rig: &Rig, line: &ShortLine) -> Option<RefusedControl> {
    match *line {
        ShortLine::Press { dev, usage }
        | ShortLine::Release { dev, usage }
        | ShortLine::Null { dev, usage }
        | ShortLine::Set { dev, usage, .. }
        | ShortLine::Move { dev, usage, .. } => control_with(rig, dev, usage),
        ShortLine::Frame { .. }
        | ShortLine::Poll { .. }
        | ShortLine::Control { .. }
        | ShortLine::Reset { .. }
        | ShortLine::Halt { .. } => None,
    }
}

/// What the control is of a line that was refused, if it changes one and there is such a control.
pub fn refused_control(
    rig: &Rig,
    line: &ShortLine,
    end: &Result<(), Cause>,
) -> Option<RefusedControl> {
    match end {
        Ok(()) => None,
        Err(_) => control_of(rig, line),
    }
}
