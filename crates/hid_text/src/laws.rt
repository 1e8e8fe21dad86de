//! Laws of what is printed.

ghost use Rattle.std.specs.Prelude.{Bool, List, [], ℕ};
ghost use Rattle.hid_layout.specs.Layout.{Contents};
ghost use Rattle.hid_bus.specs.declared.step.Step.{Step as BusStep};
ghost use Rattle.hid_bus.specs.declared.step.Told.{Told as BusTold};
ghost use Rattle.hid_bus.specs.declared.step.Delivered.{Delivered};
ghost use Rattle.hid_text.specs.EventLines.{HaveOneDigit, ShowsEvents};
ghost use Rattle.hid_text.specs.LayoutText.{layout_text};
ghost use Rattle.hid_text.specs.StepText.{step_text};
ghost use Rattle.hid_text.specs.ValuesText.{values_text};

/// Lines of events can be recognized by how they begin: what is printed of a step has one for each event that it
/// delivered, and what is printed of layouts and values has none.
pub fn event_lines_are_recognized()
    ensures steps { (trace : Bool) (step : BusStep) (told : BusTold) (got : List ℕ) (delivered : List Delivered)
        → HaveOneDigit delivered → ShowsEvents (step_text trace step told got delivered) delivered }
    ensures layouts { (layout : Contents) → ShowsEvents (layout_text layout) [] }
    ensures values { (layout : Contents) (report : ℕ) (bytes : List ℕ)
        → ShowsEvents (values_text layout report bytes) [] }
{}
