//! The change that a line makes.

ghost use Rattle.std.specs.Prelude.{◌≡◌};
ghost use Rattle.hid_script.specs.Steps.{change_of};

use hid_layout::ControlId;
use hid_snapshots::Change;
use hid_text::ChangeKind;

/// The change of this control.
pub fn change_of(wanted: ChangeKind, control: ControlId) -> Change
    ensures { result ≡ change_of wanted control }
{
    match wanted {
        ChangeKind::Press => Change::Press(control),
        ChangeKind::Release => Change::Release(control),
        ChangeKind::Null => Change::Null(control),
        ChangeKind::Set(value) => Change::Set(control, value),
        ChangeKind::Move(by) => Change::Move(control, by),
    }
}
