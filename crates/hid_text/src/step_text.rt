//! What is printed of a step of the bus.

ghost use Rattle.std.specs.Prelude.{◌≡◌, ◌++◌, OnOk, string_bytes};
ghost use Rattle.hid_text.specs.StepText.{result_text, events_text, step_text};

use super::event_text::EventText;
use super::poll_text::print_poll;
use super::transfer_text::print_transfer;
use hid_bus::{Delivered, Step, Told};
use std::alloc::AllocError;

/// Adds a line for each event.
fn print_events(text: &mut String, delivered: &[Delivered]) -> Result<(), AllocError>
    ensures { OnOk result (string_bytes text.new
        ≡ string_bytes text.old ++ events_text delivered.now) }
{
    for event in delivered {
        let Delivered { dev, event } = *event;
        let event = EventText { dev, event };
        writeln!(text, "{event}")?;
    }
    Ok(())
}

/// Adds the line of a poll, where lines of steps are asked for, or of a try of a transfer; other steps have none.
#[inline(always)]
fn print_result(
    text: &mut String,
    trace: bool,
    step: &Step,
    told: &Told,
    got: &[u8],
) -> Result<(), AllocError>
    ensures { OnOk result (string_bytes text.new
        ≡ string_bytes text.old ++ result_text trace step.now told.now got.now) }
{
    match (step, told) {
        (Step::Poll { dev, .. }, Told::Polled { reply, took }) => {
            if !trace {
                return Ok(());
            }
            match reply {
                None => print_poll(text, *dev, None, took),
                Some(bytes) => print_poll(text, *dev, Some(bytes.as_slice()), took),
            }
        }
        (Step::Control { dev, .. }, Told::Transfer(progress)) => print_transfer(
            text, trace, *dev, progress, got,
        ),
        _ => Ok(()),
    }
}

/// Adds what is printed of a step that was taken: its line, and its events. Lines of polls and of transfers that go on stand
/// where lines of steps are asked for. `got` are the bytes of a read that the step ended.
///
/// # Errors
/// [`AllocError`](std::alloc::AllocError) if memory runs out for the text.
#[inline(always)]
#[tactic(auto, unfolding(crate::specs::StepText::step_text))]
pub fn print_step(
    text: &mut String,
    trace: bool,
    step: &Step,
    told: &Told,
    got: &[u8],
    delivered: &[Delivered],
) -> Result<(), AllocError>
    ensures { OnOk result (string_bytes text.new
        ≡ string_bytes text.old ++ step_text trace step.now told.now got.now delivered.now) }
{
    print_result(text, trace, step, told, got)?;
    print_events(text, delivered)
}
