//! Laws of the definitions: what a reader of reports can rely on.

ghost use Rattle.std.specs.Prelude.{◌≡◌, ◌<◌, ℕ, List, length, take, true, false};
ghost use Rattle.std.specs.List.{list_any};
ghost use Rattle.usb_capture.specs.UrbRecord.{UrbRecord};
ghost use Rattle.hid_capture.specs.declared.configuration.Configuration.{Configuration};
ghost use Rattle.hid_capture.specs.Descriptors.{total_length};
ghost use Rattle.hid_capture.specs.InterfaceEndpoints.{Configures, HasEndpoint, HasRoom, IsActive, IsKnown, configuration_of, forgets};
ghost use Rattle.hid_capture.specs.Laws.{is_descriptor, is_report, IsUndescribed};
ghost use Rattle.hid_capture.specs.Reports.{NumberedInterface, IsRead, Describes, NoneEnds, reports_told, reports_sent};
ghost use Rattle.hid_capture.specs.declared.tracker.Content.TheVariants.{Descriptor};
ghost use Rattle.hid_capture.specs.Tracking.{Tracking, is_boot, outcome, with_address};

/// A truncated frame gives neither a report descriptor nor a report.
pub fn truncated_frames_are_not_read()
    ensures descriptors { (t : Tracking) (urb : UrbRecord) → urb.is_truncated ≡ true
        → is_descriptor (outcome t urb).content ≡ false }
    ensures reports { (t : Tracking) (urb : UrbRecord) → urb.is_truncated ≡ true
        → is_report (outcome t urb).content ≡ false }
{}

/// After a device gets an address, no data that come from there are a report until a URB has a descriptor.
pub fn an_address_ends_reports()
    ensures begins { (t : Tracking) (bus device : ℕ) → IsUndescribed (with_address t bus device) bus device }
    ensures stays { (t : Tracking) (urb : UrbRecord) (bus device : ℕ) → IsUndescribed t bus device
        → is_descriptor (outcome t urb).content ≡ false → IsUndescribed (outcome t urb).after bus device }
    ensures reports { (t : Tracking) (urb : UrbRecord) → IsUndescribed t urb.bus urb.device
        → is_report (outcome t urb).content ≡ false }
{}

/// The reports of an interface are read, from its report descriptor on, which gives it a number: the one that it has, or the next
/// of sixteen. The frame with the descriptor isn't truncated. The interface's interrupt IN endpoints are those that follow its
/// descriptor in the bytes of the configuration that was read. Each completed transfer of one of them is then a report of that
/// number, in order, if it has data and its frame isn't truncated; no other URB is one. This ends when another device gets the
/// address, a configuration of any device is set or read with all its bytes, the interface is put into the boot protocol, or one
/// of its endpoints is gone.
pub fn reports_are_read()
    ensures begins { (t : Tracking) (urb : UrbRecord) (interface : ℕ) → Describes t urb interface
        → list_any (is_boot urb.bus urb.device interface) t.boots ≡ false → length t.interfaces < 16
        → (n : ℕ) × ((outcome t urb).content ≡ Descriptor n) × IsRead (outcome t urb).after
        (record { bus = urb.bus; device = urb.device; interface = interface; number = n }) }
    ensures endpoints { (t : Tracking) (urb : UrbRecord) (interface endpoint : ℕ) → Configures t urb
        → IsActive t (configuration_of urb) → HasRoom t urb
        → HasEndpoint (take (total_length urb.payload) urb.payload) interface endpoint
        → IsKnown (outcome t urb).after (configuration_of urb) interface endpoint }
    ensures stays { (t : Tracking) (urb : UrbRecord) (c : Configuration) (interface endpoint : ℕ) → IsKnown t c interface endpoint
        → forgets t c urb ≡ false → IsKnown (outcome t urb).after c interface endpoint }
    ensures reports { (t : Tracking) (i : NumberedInterface) (urbs : List UrbRecord) → IsRead t i
        → NoneEnds t i urbs → reports_told t i.number urbs ≡ reports_sent t i urbs }
{}
