//! Transfers, as they are printed.

ghost use Rattle.std.specs.Prelude.{◌≡◌, ◌++◌, OnOk, string_bytes};
ghost use Rattle.hid_text.specs.TransferText.{progress_words, progress_text, transfer_text};

use hid_notation::print_bytes;
use std::alloc::AllocError;
use usb_control::Progress;

/// Adds how far a transfer has come, where it is done with the bytes that it got.
fn print_state(text: &mut String, progress: &Progress, got: &[u8]) -> Result<(), AllocError>
    ensures { OnOk result (string_bytes text.new
        ≡ string_bytes text.old ++ progress_words progress.now got.now) }
{
    match progress {
        Progress::Running => text.push_str("running"),
        Progress::Done => {
            text.push_str("done")?;
            print_bytes(text, got)
        }
        Progress::Failed(fault) => write!(text, "failed {fault}"),
    }
}

/// Adds the line of a transfer.
fn print_progress(
    text: &mut String,
    dev: u8,
    progress: &Progress,
    got: &[u8],
) -> Result<(), AllocError>
    ensures { OnOk result (string_bytes text.new
        ≡ string_bytes text.old ++ progress_text dev progress.now got.now) }
{
    write!(text, "{dev} control ")?;
    print_state(text, progress, got)?;
    writeln!(text)
}

/// Adds the line of a try: of a transfer that goes on where lines of steps are asked for, else in any case.
///
/// # Errors
/// Out of memory; part of the text may be added then.
#[tactic(auto, unfolding(crate::specs::TransferText::transfer_text))]
pub fn print_transfer(
    text: &mut String,
    trace: bool,
    dev: u8,
    progress: &Progress,
    got: &[u8],
) -> Result<(), AllocError>
    ensures { OnOk result (string_bytes text.new
        ≡ string_bytes text.old ++ transfer_text trace dev progress.now got.now) }
{
    match progress {
        Progress::Running if !trace => Ok(()),
        _ => print_progress(text, dev, progress, got),
    }
}
