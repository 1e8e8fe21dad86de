//! Laws of the definitions: bytes are blocks in one way at most, however they are cut.

ghost use Rattle.std.specs.Prelude.{◌≡◌, ℕ, List, [], ◌++◌, take, Ok, Err};
ghost use Rattle.usb_capture.specs.declared.fault.CaptureFault.{CaptureFault};
ghost use Rattle.usb_capture.specs.Blocks.{Advances, with_frame};
ghost use Rattle.usb_capture.specs.FrameRecord.{FrameRecord};
ghost use Rattle.usb_capture.specs.Gathering.{IsPartial};
ghost use Rattle.usb_capture.specs.Place.{Place, Taken, step};

/// Bytes give the same frames in each reading, and leave the capture at the same place.
pub fn one_reading()
    ensures frames { (here last end : Place) (bytes : List ℕ) (frames others : List FrameRecord)
        → Advances here bytes frames last → Advances here bytes others end → frames ≡ others }
    ensures place { (here last end : Place) (bytes : List ℕ) (frames others : List FrameRecord)
        → Advances here bytes frames last → Advances here bytes others end → last ≡ end }
{}

/// Bytes that come in two pieces give the frames of both.
pub fn any_cut()
    ensures { (here between last : Place) (bytes more : List ℕ) (frames others : List FrameRecord)
        → Advances here bytes frames between → Advances between more others last
        → Advances here (bytes ++ more) (frames ++ others) last }
{}

/// What a step takes gives its frame and no other.
pub fn a_step_advances()
    ensures { (here : Place) (bytes : List ℕ) (taken : Taken) → IsPartial here.known.format here.begun
        → step here bytes ≡ Ok taken
        → Advances here (take taken.count bytes) (with_frame taken.frame []) taken.place }
{}

/// Where a step is refused, no bytes that come later make it a reading.
pub fn a_refusal_stays()
    ensures { (here last : Place) (bytes more : List ℕ) (frames : List FrameRecord) (fault : CaptureFault)
        → step here bytes ≡ Err fault → Advances here (bytes ++ more) frames last → ⊥ }
{}
