//! The Input reports of one device, read one after the other.

ghost use Rattle.std.specs.Prelude.{◌≡◌, ◌≤◌, ◌+◌, ◌++◌, vec_len, vec_capacity};
ghost use Rattle.hid_layout.specs.Controls.{items_of, max_events};
ghost use Rattle.hid_layout.specs.Reports.{IsLayout};
ghost use Rattle.hid_snapshots.specs.ControlStates.{FitsView, blank};
ghost use Rattle.hid_snapshots.specs.Views.{changes_between};
ghost use Rattle.hid_usages.specs.Appending.{Appends};
ghost use Rattle.hid_usages.specs.PlannedReports.{IsPlaceOf, IsPlannedReport, IsPlannedView};
ghost use Rattle.hid_usages.specs.Taking.{IsReceived, TakesReport, view_received, events_received};

use crate::changed_bits::one_word;
use crate::planned_report::PlannedReport;
use crate::report_index::{NO_REPORT, begun_report, place_by_index};
use crate::report_plans::{PlannedView, ReportPlans, forget_last};
use crate::take::{LastReport, ReportBytes};
use crate::view::View;
use hid_fields::FieldCodec;
use hid_layout::Layout;
use hid_snapshots::{Event, ReportFault};
use std::marker::Model;

/// The layout of a device's reports, and a host's view of its controls. A contract sees both.
///
/// Each Input report has a plan, and the bytes of the last one of its number are kept: of the next one the items are read whose
/// bits change, and those with motions. One with the bytes of the last one, which gave no event, isn't read.
#[derive(Drop)]
pub struct Reader {
    layout: Layout,
    view: View,
    /// How many events a report gives at most: `max_events` of the layout, which walks all of its items.
    max_events: usize,
    plans: ReportPlans,
}

impl Model for Reader {
    ghost use Rattle.hid_usages.specs.Reader.{ReaderState, IsReader};

    ghost Value = { ReaderState };

    ghost view = { λ r. record { layout = r.layout; view = r.view } };

    ghost invariant = { λ r. IsReader r.layout r.view r.max_events r.plans };
}

/// Reads a report by its plan, and keeps its bytes.
#[inline(always)]
fn take_one<C: FieldCodec>(
    received: &ReportBytes<'_>,
    planned: &mut PlannedReport,
    view: &mut View,
    out: &mut Vec<Event>,
)
    requires received { IsReceived received.now }
    requires planned { IsPlannedReport received.now.layout.now received.now.report view.old
        planned.old }
    requires fits { FitsView (items_of received.now.layout.now) view.old }
    requires room { vec_len out.old + max_events (items_of received.now.layout.now)
        ≤ vec_capacity out.old }
    ensures planned { IsPlannedReport received.now.layout.now received.now.report view.new
        planned.new }
    ensures view { view.new ≡ view_received received.now view.old }
    ensures appends { Appends out.old (events_received received.now view.old) out.new }
    ensures fits { FitsView (items_of received.now.layout.now) view.new }
    ensures few { vec_len out.new ≤ vec_len out.old + max_events (items_of received.now.layout.now) }
{
    // For the prover: what holds of every layout.
    let _ = received.layout.items();

    let bytes = &received.bytes[..planned.room];
    let word = one_word(bytes);
    let changed = planned.changed(bytes, word);
    let before = out.len();
    let last = LastReport {
        bytes: &planned.last,
        changed,
    };
    view.take_planned::<C>(received, &planned.plan, &last, out);
    planned.keep(received.bytes, word, out.len() == before);
}

impl Reader {
    /// A reader of reports of this layout, of which none came yet, with a view and plans that suit the layout.
    pub fn new(layout: Layout, view: PlannedView) -> Reader
        requires { IsPlannedView layout view }
        ensures { result ≡ record { layout = layout; view = view.view } }
    {
        // For the prover: what holds of every layout.
        let _ = layout.items();
        let max_events = layout.max_events();

        let PlannedView { view, plans } = view;
        Reader {
            layout,
            view,
            max_events,
            plans,
        }
    }

    /// The layout of the reports.
    pub fn layout(&self) -> &Layout
        ensures layout { result.now ≡ self.now.layout }
        ensures laid { IsLayout self.now.layout }
    {
        &self.layout
    }

    /// The view of the controls.
    pub fn view(&self) -> &View
        ensures view { result.now ≡ self.now.view }
        ensures fits { FitsView (items_of self.now.layout) self.now.view }
    {
        &self.view
    }

    /// How many events a report gives at most, as [`Layout::max_events`] counts them.
    pub fn max_events(&self) -> usize
        ensures { result ≡ max_events (items_of self.now.layout) }
    {
        self.max_events
    }

    /// Takes the bytes of an Input report into the view, as [`View::take_report`] does, and adds its events (HID 1.11, 5.6
    /// and 8). The caller has reserved room for `max_events` more; no memory is taken.
    ///
    /// # Errors
    /// Those of [`View::take_report`], which leave the view as it was.
    #[inline(always)]
    pub fn take_report<C: FieldCodec>(
        &mut self,
        bytes: &[u8],
        out: &mut Vec<Event>,
    ) -> Result<(), ReportFault>
        requires room { vec_len out.old + max_events (items_of self.old.layout)
            ≤ vec_capacity out.old }
        // The view read, and the events; the layout stays.
        ensures taken { TakesReport self.old.layout bytes.now self.old.view out.old.items result
            self.new.view out.new.items }
        ensures layout { self.new.layout ≡ self.old.layout }
        ensures fits { FitsView (items_of self.new.layout) self.new.view }
        // At most `max_events` events, in the room that was there.
        ensures few { vec_len out.new ≤ vec_len out.old + max_events (items_of self.old.layout) }
        ensures room { vec_capacity out.new ≡ vec_capacity out.old }
    {
        let place = place_by_index(&self.layout, &self.plans.index, bytes);
        if place < NO_REPORT && self.plans.reports[usize::from(place)].is_still(bytes) {
            return Ok(());
        }
        self.read_report::<C>(bytes, out, place)
    }

    /// Reads the report at this place of the index as [`take_report`](Reader::take_report) does. It isn't inlined, so that a
    /// report which changes nothing needs none of its room; the place comes last, so that the others stay where they are.
    ///
    /// # Errors
    /// Those of [`View::take_report`], which leave the view as it was.
    #[inline(never)]
    fn read_report<C: FieldCodec>(
        &mut self,
        bytes: &[u8],
        out: &mut Vec<Event>,
        place: u8,
    ) -> Result<(), ReportFault>
        requires place { IsPlaceOf self.old.layout bytes.now place }
        requires room { vec_len out.old + max_events (items_of self.old.layout)
            ≤ vec_capacity out.old }
        ensures taken { TakesReport self.old.layout bytes.now self.old.view out.old.items result
            self.new.view out.new.items }
        ensures layout { self.new.layout ≡ self.old.layout }
        ensures fits { FitsView (items_of self.new.layout) self.new.view }
        ensures few { vec_len out.new ≤ vec_len out.old + max_events (items_of self.old.layout) }
        ensures room { vec_capacity out.new ≡ vec_capacity out.old }
    {
        let report = match begun_report(&self.layout, place, bytes) {
            Ok(report) => report,
            Err(fault) => return Err(fault),
        };
        let planned = &mut self.plans.reports[report];
        if planned.is_short(bytes) {
            return Err(ReportFault::Short);
        }
        let received = ReportBytes {
            layout: &self.layout,
            report,
            bytes,
        };
        take_one::<C>(&received, planned, &mut self.view, out);
        Ok(())
    }

    /// Lets go of all that is held: adds the events until the view is the initial one, as [`View::changes_back`] does, and
    /// makes it that. For a device that was unplugged or reset. The caller has reserved room for `max_events` more; no
    /// memory is taken.
    pub fn release(&mut self, out: &mut Vec<Event>)
        requires room { vec_len out.old + max_events (items_of self.old.layout)
            ≤ vec_capacity out.old }
        ensures events { out.new.items ≡ out.old.items ++ changes_between (items_of self.old.layout)
            self.old.view (blank (items_of self.old.layout)) }
        ensures view { self.new.view ≡ blank (items_of self.old.layout) }
        ensures layout { self.new.layout ≡ self.old.layout }
        ensures few { vec_len out.new ≤ vec_len out.old + max_events (items_of self.old.layout) }
        ensures room { vec_capacity out.new ≡ vec_capacity out.old }
    {
        self.view.changes_back(&self.layout, out);
        self.view.reset(&self.layout);
        forget_last(&mut self.plans.reports);
    }
}
