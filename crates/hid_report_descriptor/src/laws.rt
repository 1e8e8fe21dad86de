//! Laws of the definitions that the contract of `list_fields` cites: they pin its result, memory aside.

ghost use Rattle.hid_report_descriptor.specs.declared.limits.Limits.{Limits};
ghost use Rattle.hid_report_descriptor.specs.Laws.{HasOneReading, AcceptsNoRefused, HasOneCause, HasOnePlace, AcceptsAllOfBus, PopRestores};

use hid_items::laws::prefix_free;

/// A descriptor is accepted with one list of items at most, so it has one list of fields at most.
pub fn one_reading()
    ensures { (limits : Limits) → HasOneReading limits }
{
    prefix_free();
}

/// A descriptor that is accepted is not refused.
pub fn accepted_or_refused()
    ensures { (limits : Limits) → AcceptsNoRefused limits }
{
    prefix_free();
}

/// A descriptor is refused for one cause at most, at one place.
pub fn one_refusal()
    ensures cause { (limits : Limits) → HasOneCause limits }
    ensures place { (limits : Limits) → HasOnePlace limits }
{
    prefix_free();
}

/// What a virtual device's descriptor may be is accepted by readers of real devices, with the same items and so the same fields.
pub fn real_accepts_bus()
    ensures { AcceptsAllOfBus }
{}

/// The global in force after a Pop is the one before its matching Push (HID 1.11, 6.2.2.7).
pub fn pop_restores()
    ensures { PopRestores }
{}
