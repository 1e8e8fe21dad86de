//! What follows for whole connections.
ghost use Rattle.std.specs.Prelude.{List, ℕ, []};
ghost use Rattle.usbip_import.specs.declared.flight.Flight.{Flight as InFlight};
ghost use Rattle.usbip_import.specs.declared.import.Import.{Import as AnImport};
ghost use Rattle.usbip_import.specs.Runs.{IsInOrder, IsRun};
ghost use Rattle.usbip_import.specs.Sending.{import_at_start};
ghost use Rattle.usbip_import.specs.Flights.{AreSingle, Happening, IsAnsweredOnce, IsInItsPlace, flights_after_all};

/// Of the submits in flight, taken as a list: each that was sent is answered once, or is in flight still, whatever replies come in
/// whatever order. A reply is to the submit of its number, and no number is in flight twice where none was.
#[tactic(auto, using(crate::proofs::FlightLemmas::answered_once, crate::proofs::FlightLemmas::in_place))]
pub fn each_submit_is_answered_once()
    ensures once { (flights : List InFlight) (happenings : List Happening) → IsAnsweredOnce flights happenings }
    ensures single { (flights : List InFlight) (happenings : List Happening) → AreSingle flights
        → AreSingle (flights_after_all flights happenings) }
    ensures in_place { (n : ℕ) (flights : List InFlight) → IsInItsPlace n flights }
{}

/// Whatever is sent, taken and asked, in whatever order, no number is in flight twice, and the driver asks for no descriptor that it
/// has read. So none of its calls forgets what is held (`nothing_is_forgotten` of `hid_driver`), and [`Import::end`](crate::Import::end)
/// releases it.
#[tactic(auto, using(crate::proofs::RunLemmas::runs_in_order))]
pub fn runs_stay_in_order()
    ensures { (count : ℕ) (bus_id : List ℕ) (after : AnImport) → IsRun count (import_at_start bus_id) after → IsInOrder after }
{}
