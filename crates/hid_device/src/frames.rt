//! Frames between two rounds of a report, and its idle time (HID 1.11, 7.2.3 and 7.2.4).

ghost use Rattle.std.specs.Prelude.{◌≡◌, ◌+◌, map, min};
ghost use Rattle.hid_device.specs.RequestTable.{with_idle_time};
ghost use Rattle.hid_bus.specs.ReportState.{is_idle_over, most_frames};

/// Frames are counted up to the longest idle time, 255 units of four frames (HID 1.11, 7.2.4).
pub(crate) const MAX_FRAMES: u16 = 1020;

/// Whether an idle time, in units of four frames, is over after n frames; 0 is none.
pub(crate) fn is_idle_over(idle: u8, frames: u16) -> bool
    ensures { result ≡ is_idle_over idle frames }
{
    idle > 0 && 4 * u16::from(idle) <= frames
}

/// Counts a frame for each report.
pub(crate) fn count_frame(frames: &mut [u16])
    ensures { frames.new ≡ map (λ n. min (n + 1) most_frames) frames.old }
{
    for count in frames.iter_mut() {
        *count = count.saturating_add(1).min(MAX_FRAMES);
    }
}

/// Sets the idle time of an Input report, by its number, or of all.
pub(crate) fn set_idle(idle: &mut [u8], report: Option<usize>, time: u8)
    ensures { idle.new ≡ with_idle_time idle.old report time }
{
    match report {
        None => idle.fill(time),
        Some(report) => {
            if report < idle.len() {
                idle[report] = time;
            }
        }
    }
}
