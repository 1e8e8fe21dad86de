//! A device whose reports are read: its descriptor once, then one report at a time.

ghost use Rattle.std.specs.Prelude.{◌≡◌, Ok, Err, IfOk, IfErr};
ghost use Rattle.hid_report_descriptor.specs.Real.{Explains};
ghost use Rattle.hid_layout.specs.Layout.{Contents};
ghost use Rattle.hid_layout.specs.Controls.{items_of, max_events};
ghost use Rattle.hid_snapshots.specs.Snapshots.{is_pressed, state_at};
ghost use Rattle.hid_snapshots.specs.Views.{value_in};
ghost use Rattle.hidstack_session.specs.Sessions.{IsFirst, IsFirstOf, Feeds, Releases};

use crate::event::{HidEvent, put_events};
use hid_fields::WordCodec;
use hid_layout::{Cause, ControlId, Layout, LayoutFault, Limits};
use hid_usages::{Event, Reader, ReportFault, first_view};
use std::alloc::Global;
use std::marker::Model;

/// Why a report is not read, in the order in which causes are looked for.
#[derive(Clone, Copy, Debug)]
pub enum FeedFault {
    /// The table has fewer places than a report can have events.
    NoRoom,
    /// U8 or U9: the bytes are no Input report of the device.
    Refused(ReportFault),
}

/// A device's layout, and what a host has read of it.
#[derive(Drop)]
pub struct Session {
    reader: Reader,
    /// Room for the events of a report.
    events: Vec<Event>,
}

impl Model for Session {
    ghost use Rattle.std.specs.Prelude.{◌≤◌, vec_capacity};
    ghost use Rattle.hid_layout.specs.Controls.{items_of, max_events};
    ghost use Rattle.hidstack_session.specs.States.{SessionState};

    ghost Value = { SessionState };

    ghost view = { λ s. record { layout = s.reader.layout; view = s.reader.view } };

    ghost invariant = { λ s. max_events (items_of s.reader.layout) ≤ vec_capacity s.events };
}

impl Session {
    /// Reads a report descriptor. Nothing is held, and values are those of a blank snapshot.
    ///
    /// # Errors
    /// The cause and place of [`Layout::parse_within`] at [`Limits::Real`], or [`Cause::Memory`] at 0 where the session finds no memory.
    pub fn open(alloc: Global, descriptor: &[u8]) -> Result<Session, LayoutFault>
        ensures ok { IfOk result (λ session. IsFirst descriptor.now session) }
        // Memory ran out, or this is the one refusal.
        ensures err { IfErr result (λ f. Explains descriptor.now f.cause f.at) }
    {
        Session::of_layout(alloc, Layout::parse_within(alloc, Limits::Real, descriptor))
    }

    /// A session of the layout, with a blank view. It takes what parsing gave, so that its proof has one early
    /// return.
    fn of_layout(alloc: Global, laid: Result<Layout, LayoutFault>) -> Result<Session, LayoutFault>
        ensures ok { IfOk result (λ session. IsFirstOf laid session) }
        ensures fault { (f : LayoutFault) → laid ≡ Err f → result ≡ Err f }
        ensures memory { (c : Contents) → laid ≡ Ok c → IfErr result (λ f. f ≡ record { cause = Cause.Memory; at = 0 }) }
    {
        let layout = laid?;
        match first_view(alloc, &layout) {
            Some((view, events)) => Ok(Session {
                reader: Reader::new(layout, view),
                events,
            }),
            None => Err(LayoutFault::memory()),
        }
    }

    /// How many events a report has at most.
    pub fn room(&self) -> usize
        ensures { result ≡ max_events (items_of self.now.layout) }
    {
        self.reader.max_events()
    }

    /// Reads a report, and writes its events over the first places of the table. No memory is taken.
    ///
    /// # Errors
    /// [`FeedFault::NoRoom`] where the table has fewer places than [`Session::room`]; then [`FeedFault::Refused`] (U8,
    /// U9) where the bytes are no Input report. Table and session stay as they were.
    pub fn feed(&mut self, report: &[u8], out: &mut [HidEvent]) -> Result<usize, FeedFault>
        ensures { Feeds self.old report.now out.old result self.new out.new }
    {
        if out.len() < self.reader.max_events() {
            return Err(FeedFault::NoRoom);
        }
        self.events.clear();
        match self
            .reader
            .take_report::<WordCodec>(report, &mut self.events)
        {
            Ok(()) => {
                put_events(&self.events, out);
                Ok(self.events.len())
            }
            Err(fault) => Err(FeedFault::Refused(fault)),
        }
    }

    /// Lets go of all that is held, as of a device that was unplugged: writes the events until the view is the first one over
    /// the first places of the table, and makes it that. They are at most [`Session::room`]. No memory is taken.
    ///
    /// # Errors
    /// None where the table has fewer places than [`Session::room`]. Table and session stay as they were.
    pub fn release(&mut self, out: &mut [HidEvent]) -> Option<usize>
        ensures { Releases self.old out.old result self.new out.new }
    {
        if self.reader.max_events() > out.len() {
            return None;
        }
        let events = &mut self.events;
        events.clear();
        self.reader.release(events);
        put_events(events, out);
        Some(events.len())
    }

    /// The layout of the descriptor.
    pub fn layout(&self) -> &Layout
        ensures { result.now ≡ self.now.layout }
    {
        self.reader.layout()
    }

    /// Whether a switch or a key is held; false for another control, and where there is none.
    pub fn held(&self, control: ControlId) -> bool
        ensures { result ≡ is_pressed (state_at self.now.view control.item) control.index }
    {
        self.reader.view().held(control)
    }

    /// The value of an absolute control; none where it is null, for another control, and where there is none.
    pub fn value(&self, control: ControlId) -> Option<i64>
        ensures { result ≡ value_in (state_at self.now.view control.item) control.index }
    {
        self.reader.view().value(control)
    }
}
