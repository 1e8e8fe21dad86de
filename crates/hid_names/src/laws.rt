//! Laws of the tables.

ghost use Rattle.std.specs.Prelude.{◌≡◌, true};
ghost use Rattle.hid_names.specs.Pages.{all_rise};

/// The IDs of each page rise from the first to the last: no usage is named twice.
pub fn rises()
    ensures { all_rise ≡ true }
{}
