//! The room for what a device keeps of its reports. It is made with the device, and no later call takes memory.

ghost use Rattle.std.specs.Prelude.{◌≡◌, replicate, false, IfOk, IfErr};
ghost use Rattle.hid_layout.specs.Controls.{items_of};
ghost use Rattle.hid_layout.specs.Reports.{IsOfBus};
ghost use Rattle.hid_snapshots.specs.ExactCapacity.{IsFull};
ghost use Rattle.hid_snapshots.specs.ControlStates.{blank, FitsSnapshot, FitsShown};
ghost use Rattle.hid_snapshots.specs.Parts.{blank_parts};
ghost use Rattle.hid_device.specs.Creation.{no_memory, IsRoom};

use crate::inputs::input_count;
use crate::outputs::{KeptReport, bare_outputs};
use hid_layout::Layout;
use hid_requests::{DeviceCause, DeviceFault};
use hid_snapshots::{MemoryFault, Shown, Snapshot, full_from, full_of};
use std::alloc::{AllocError, Global};

/// The controls of a device, and room for the parts that its reports show of them.
#[derive(Drop)]
pub(crate) struct Controls {
    pub(crate) snapshot: Snapshot,
    pub(crate) fixed: Shown,
    pub(crate) still: Shown,
}

impl Controls {
    /// The snapshot and the parts of a new device: nothing is pressed or has moved.
    fn blank(alloc: Global, layout: &Layout) -> Result<Controls, MemoryFault>
        ensures snapshot { IfOk result (λ made. made.snapshot ≡ blank (items_of layout.now)) }
        ensures fixed { IfOk result (λ made. made.fixed ≡ blank_parts (items_of layout.now)) }
        ensures fits { IfOk result (λ made. FitsSnapshot (items_of layout.now) made.snapshot) }
        ensures fits_fixed { IfOk result (λ made. FitsShown (items_of layout.now) made.fixed) }
        ensures fits_still { IfOk result (λ made. FitsShown (items_of layout.now) made.still) }
    {
        let snapshot = Snapshot::blank(alloc, layout)?;
        let fixed = Shown::blank(alloc, layout)?;
        let still = Shown::blank(alloc, layout)?;
        Ok(Controls {
            snapshot,
            fixed,
            still,
        })
    }
}

/// What is counted of each Input report.
#[derive(Drop)]
pub(crate) struct Counts {
    pub(crate) frames: Vec<u16>,
    pub(crate) idle: Vec<u8>,
    pub(crate) aborted: Vec<bool>,
}

impl Counts {
    /// The lists of a new device, with one entry of 0 or false for each Input report.
    fn zeros(alloc: Global, count: usize) -> Result<Counts, AllocError>
        ensures frames { IfOk result (λ made. made.frames.items ≡ replicate count 0) }
        ensures idle { IfOk result (λ made. made.idle.items ≡ replicate count 0) }
        ensures aborted { IfOk result (λ made. made.aborted.items ≡ replicate count false) }
        ensures full { IfOk result
            (λ made. (IsFull made.frames) × (IsFull made.idle) × IsFull made.aborted) }
    {
        let frames = full_of(alloc, 0, count)?;
        let idle = full_of(alloc, 0, count)?;
        let aborted = full_of(alloc, false, count)?;
        Ok(Counts {
            frames,
            idle,
            aborted,
        })
    }
}

/// All of it, with the bytes of the report descriptor.
#[derive(Drop)]
pub(crate) struct Room {
    pub(crate) descriptor: Vec<u8>,
    pub(crate) controls: Controls,
    pub(crate) counts: Counts,
    pub(crate) outputs: Vec<KeptReport>,
}

impl Room {
    /// Reserves what a device of this layout and descriptor needs, or reports that memory ran out.
    pub(crate) fn of(alloc: Global, layout: &Layout, descriptor: &[u8]) -> Result<Room, DeviceFault>
        requires bus { IsOfBus layout.now }
        ensures made { IfOk result (λ room. IsRoom descriptor.now layout.now room) }
        ensures memory { IfErr result (λ fault. fault ≡ no_memory) }
    {
        let descriptor = full_from(alloc, descriptor)?;
        let outputs = bare_outputs(alloc, layout)?;
        let counts = Counts::zeros(alloc, input_count(layout))?;
        let Ok(controls) = Controls::blank(alloc, layout) else {
            return Err(DeviceFault {
                cause: DeviceCause::Memory,
                at: 0,
            });
        };
        Ok(Room {
            descriptor,
            controls,
            counts,
            outputs,
        })
    }
}
