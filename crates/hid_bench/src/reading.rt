//! A device whose reports are read.

ghost use Rattle.std.specs.Prelude.{◌<◌, IfOk};
ghost use Rattle.hid_layout.specs.Reports.{IsOfBus};

use crate::fault::BenchFault;
use hid_fields::WordCodec;
use hid_layout::{Cause, Layout};
use hid_usages::{Event, PlannedView, Reader};
use std::alloc::Global;
use std::marker::Model;

/// A device's layout with what a host has read of it, and room for the events of a report.
#[derive(Drop)]
pub struct Reading {
    reader: Reader,
    events: Vec<Event>,
}

impl Model for Reading {
    ghost use Rattle.std.specs.Prelude.{◌≤◌, vec_capacity};
    ghost use Rattle.hid_layout.specs.Controls.{items_of, max_events};
    ghost use Rattle.hid_bench.specs.Reading.{Seen};

    ghost Value = { Seen };

    ghost view = { λ r. record { layout = r.reader.layout; view = r.reader.view } };

    ghost invariant = { λ r. max_events (items_of r.reader.layout) ≤ vec_capacity r.events };
}

impl Reading {
    ghost use Rattle.hid_bench.specs.Reading.{Reads};

    /// Reads a report descriptor. Nothing is held, and values are those of a blank snapshot.
    ///
    /// # Errors
    /// As of [`parsed`], and [`BenchFault::Memory`] where a view or the room for events finds none.
    pub fn open(alloc: Global, descriptor: &[u8]) -> Result<Reading, BenchFault> {
        let layout = parsed(alloc, descriptor)?;
        let Ok(view) = PlannedView::initial(alloc, &layout) else {
            drop(layout);
            return Err(BenchFault::Memory);
        };
        let Ok(events) = Vec::with_capacity(alloc, layout.max_events()) else {
            drop(view);
            drop(layout);
            return Err(BenchFault::Memory);
        };
        let reader = Reader::new(layout, view);
        Ok(Reading { reader, events })
    }

    /// Reads an Input report, and returns its number of events.
    ///
    /// # Errors
    /// [`BenchFault::Report`] where the bytes are no Input report of the device: what was read of it stays.
    pub fn read(&mut self, report: &[u8]) -> Result<usize, BenchFault>
        ensures { Reads self.old report.now result self.new }
    {
        self.events.clear();
        match self
            .reader
            .take_report::<WordCodec>(report, &mut self.events)
        {
            Ok(()) => Ok(self.events.len()),
            Err(_) => Err(BenchFault::Report),
        }
    }
}

/// The layout of a virtual device's report descriptor.
///
/// # Errors
/// [`BenchFault::Descriptor`] where the descriptor is refused, and [`BenchFault::Memory`] where memory runs out.
pub fn parsed(alloc: Global, descriptor: &[u8]) -> Result<Layout, BenchFault>
    ensures { IfOk result IsOfBus }
{
    match Layout::parse(alloc, descriptor) {
        Ok(layout) => Ok(layout),
        Err(fault) => match fault.cause {
            Cause::Memory => Err(BenchFault::Memory),
            _ => Err(BenchFault::Descriptor),
        },
    }
}
