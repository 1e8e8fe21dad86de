//! A device whose reports are read twice.

use hid_fields::{BitCodec, WordCodec};
use hid_layout::Layout;
use hid_usages::{Event, PlannedView, Reader, View, changes};
use std::alloc::Global;
use std::marker::Model;

/// In what the reader and the plain program differ.
#[derive(Clone, Copy, Debug, PartialEq, Eq)]
pub enum Difference {
    /// Whether a report is refused, or why.
    Refusal,
    Events,
    View,
}

/// What is known of a device, twice: by a reader, which plans its reports, and by the plain program, a view that takes each
/// report item by item and bit by bit.
#[derive(Drop)]
pub struct Device {
    reader: Reader,
    plain: View,
    /// The events of the reader.
    actual: Vec<Event>,
    /// The events of the plain program.
    expected: Vec<Event>,
    /// What changes from one view to the other.
    apart: Vec<Event>,
}

impl Model for Device {
    ghost use Rattle.std.specs.Prelude.{◌≤◌, vec_capacity};
    ghost use Rattle.hid_layout.specs.Controls.{items_of, max_events};
    ghost use Rattle.hid_snapshots.specs.ControlStates.{FitsView};
    ghost use Rattle.hid_usages.specs.Reader.{ReaderState};

    ghost Value = { ReaderState };

    ghost view = { λ d. record { layout = d.reader.layout; view = d.reader.view } };

    ghost invariant = { λ d. FitsView (items_of d.reader.layout) d.plain
        × (max_events (items_of d.reader.layout) ≤ vec_capacity d.actual)
        × (max_events (items_of d.reader.layout) ≤ vec_capacity d.expected)
        × (max_events (items_of d.reader.layout) ≤ vec_capacity d.apart) };
}

/// A reader of this layout that has read nothing.
fn first_reader(alloc: Global, layout: Layout) -> Option<Reader> {
    match PlannedView::initial(alloc, &layout) {
        Ok(view) => Some(Reader::new(layout, view)),
        Err(_) => {
            drop(layout);
            None
        }
    }
}

impl Device {
    /// A device of this layout of which nothing came yet. None for lack of memory.
    pub fn open(alloc: Global, layout: Layout) -> Option<Device> {
        let reader = first_reader(alloc, layout)?;
        let room = reader.max_events();
        let Ok(plain) = View::initial(alloc, reader.layout()) else {
            return None;
        };
        let Ok(actual) = Vec::with_capacity(alloc, room) else {
            return None;
        };
        let Ok(expected) = Vec::with_capacity(alloc, room) else {
            return None;
        };
        let Ok(apart) = Vec::with_capacity(alloc, room) else {
            return None;
        };
        Some(Device {
            reader,
            plain,
            actual,
            expected,
            apart,
        })
    }

    pub fn layout(&self) -> &Layout {
        self.reader.layout()
    }

    /// The events of the reader at the last report.
    pub fn actual(&self) -> &[Event] {
        &self.actual
    }

    /// The events of the plain program at the last report.
    pub fn expected(&self) -> &[Event] {
        &self.expected
    }

    /// What changes from the reader's view to that of the plain program.
    pub fn apart(&self) -> &[Event] {
        &self.apart
    }

    /// Reads a report both ways.
    pub fn take(&mut self, bytes: &[u8]) -> Option<Difference> {
        self.actual.clear();
        self.expected.clear();
        let by_reader = self
            .reader
            .take_report::<WordCodec>(bytes, &mut self.actual);
        let layout = self.reader.layout();
        let by_plain = self
            .plain
            .take_report::<BitCodec>(layout, bytes, &mut self.expected);
        self.compare(by_reader == by_plain)
    }

    /// Lets go of all that is held, both ways.
    pub fn release(&mut self) -> Option<Difference> {
        self.actual.clear();
        self.expected.clear();
        self.reader.release(&mut self.actual);
        let layout = self.reader.layout();
        self.plain.changes_back(layout, &mut self.expected);
        self.plain.reset(layout);
        self.compare(true)
    }

    /// In what the two differ, if they do, after a report or a release.
    fn compare(&mut self, refuse_alike: bool) -> Option<Difference> {
        self.apart.clear();
        changes(
            self.reader.layout(),
            self.reader.view(),
            &self.plain,
            &mut self.apart,
        );
        if !refuse_alike {
            Some(Difference::Refusal)
        } else if self.actual.as_slice() != self.expected.as_slice() {
            Some(Difference::Events)
        } else if !self.apart.is_empty() {
            Some(Difference::View)
        } else {
            None
        }
    }
}
