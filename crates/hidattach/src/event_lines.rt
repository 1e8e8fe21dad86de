//! Events of a driver, as hidplay prints them.

ghost use Rattle.std.specs.Prelude.{◌≡◌, ◌++◌, OnOk, string_bytes};
ghost use Rattle.std.specs.Option.{option_copied};
ghost use Rattle.hidattach.specs.EventLines.{driver_line, driver_lines, layout_of};

use hid_driver::{DriverEvent, Layout};
use hid_recording::{Options, Source, print_event};
use std::alloc::{AllocError, Global};
use usbip_session::Laid;

/// When events came, and how they are printed.
#[derive(Clone, Copy)]
pub struct Printing<'a> {
    pub alloc: Global,
    /// The time since the start, as hid-recorder writes it.
    pub time: &'a str,
    pub options: Options,
}

/// The layout of an interface's reports, if it is known.
fn layout_of(interface: usize, laid: &[Laid]) -> Option<&Layout>
    ensures { option_copied result ≡ layout_of interface laid.now }
{
    for one in laid {
        if one.interface == interface {
            return Some(&one.layout);
        }
    }
    None
}

/// Adds the line of an event.
fn print_driver_event(
    text: &mut String,
    printing: &Printing<'_>,
    laid: &[Laid],
    told: &DriverEvent,
) -> Result<(), AllocError>
    ensures { OnOk result (string_bytes text.new ≡ string_bytes text.old
        ++ driver_line printing.now.time.now printing.now.options laid.now told.now) }
{
    let source = Source {
        alloc: printing.alloc,
        time: printing.time,
        device: told.interface.min(255) as u8,
        options: printing.options,
    };
    match layout_of(told.interface, laid) {
        Some(layout) => print_event(text, &source, layout, &told.event),
        None => Ok(()),
    }
}

/// Adds the lines of events.
///
/// # Errors
/// [`AllocError`] if memory runs out for the lines.
pub fn print_driver_events(
    text: &mut String,
    printing: &Printing<'_>,
    laid: &[Laid],
    events: &[DriverEvent],
) -> Result<(), AllocError>
    ensures { OnOk result (string_bytes text.new ≡ string_bytes text.old
        ++ driver_lines printing.now.time.now printing.now.options laid.now events.now) }
{
    for told in events {
        print_driver_event(text, printing, laid, told)?;
    }
    Ok(())
}
