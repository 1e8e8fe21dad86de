//! Events, as they are printed.

ghost use Rattle.std.specs.Prelude.{Some};
ghost use Rattle.hid_text.specs.EventText.{event_text, control_text, placed_event_text};

use hid_layout::ControlId;
use hid_notation::UsageText;
use hid_snapshots::Event;
use std::fmt;

/// An event with the number of its device, as one line without its end: `1 down 07:04`.
#[derive(Clone, Copy)]
pub struct EventText {
    pub dev: u8,
    pub event: Event,
}

impl fmt::Display for EventText {
    ghost output = { λ shown. Some (event_text shown.dev shown.event) };

    fn fmt<W: fmt::Write>(&self, f: &mut fmt::Formatter<W>) -> fmt::Result {
        let EventText { dev, event } = *self;
        match event {
            Event::Down { usage, .. } => {
                let usage = UsageText(usage);
                write!(f, "{dev} down {usage}")
            }
            Event::Up { usage, .. } => {
                let usage = UsageText(usage);
                write!(f, "{dev} up {usage}")
            }
            Event::Value { usage, value, .. } => {
                let usage = UsageText(usage);
                write!(f, "{dev} value {usage} {value}")
            }
            Event::Null { usage, .. } => {
                let usage = UsageText(usage);
                write!(f, "{dev} null {usage}")
            }
            Event::Motion { usage, by, .. } => {
                let usage = UsageText(usage);
                write!(f, "{dev} motion {usage} {by}")
            }
            Event::Dropped { usage, by, .. } => {
                let usage = UsageText(usage);
                write!(f, "{dev} dropped {usage} {by}")
            }
        }
    }
}

/// A control, as the places of its item and of itself: `@2.0`.
#[derive(Clone, Copy)]
struct ControlText(ControlId);

impl fmt::Display for ControlText {
    ghost output = { λ shown. Some (control_text shown.0) };

    fn fmt<W: fmt::Write>(&self, f: &mut fmt::Formatter<W>) -> fmt::Result {
        let ControlId { item, index } = self.0;
        write!(f, "@{item}.{index}")
    }
}

/// An event with the number of its device and its control, as one line without its end: `1 down 07:04 @2.4`.
#[derive(Clone, Copy)]
pub struct PlacedEventText {
    pub dev: u8,
    pub event: Event,
}

impl fmt::Display for PlacedEventText {
    ghost output = { λ shown. Some (placed_event_text shown.dev shown.event) };

    fn fmt<W: fmt::Write>(&self, f: &mut fmt::Formatter<W>) -> fmt::Result {
        let PlacedEventText { dev, event } = *self;
        match event {
            Event::Down { control, usage } => {
                let (usage, control) = (UsageText(usage), ControlText(control));
                write!(f, "{dev} down {usage} {control}")
            }
            Event::Up { control, usage } => {
                let (usage, control) = (UsageText(usage), ControlText(control));
                write!(f, "{dev} up {usage} {control}")
            }
            Event::Value {
                control,
                usage,
                value,
            } => {
                let (usage, control) = (UsageText(usage), ControlText(control));
                write!(f, "{dev} value {usage} {control} {value}")
            }
            Event::Null { control, usage } => {
                let (usage, control) = (UsageText(usage), ControlText(control));
                write!(f, "{dev} null {usage} {control}")
            }
            Event::Motion { control, usage, by } => {
                let (usage, control) = (UsageText(usage), ControlText(control));
                write!(f, "{dev} motion {usage} {control} {by}")
            }
            Event::Dropped { control, usage, by } => {
                let (usage, control) = (UsageText(usage), ControlText(control));
                write!(f, "{dev} dropped {usage} {control} {by}")
            }
        }
    }
}
