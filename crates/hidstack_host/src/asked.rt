//! What is asked of an interface, as a record (HID 1.11, 7.2).
ghost use Rattle.std.specs.Prelude.{◌≡◌, IfSome, IfNone};
ghost use Rattle.hid_driver.specs.declared.ask.Ask.{Ask};
ghost use Rattle.hid_report_descriptor.specs.Kinds.{rank};
ghost use Rattle.hid_report_descriptor.specs.declared.report.ReportKind.{ReportKind};
ghost use Rattle.hidstack_host.specs.Asking.{IsAsk};

use hid_driver::{Ask, ReportKind};
use hidstack_session::{FEATURE, INPUT, OUTPUT};

/// bRequest: a report as it is now (HID 1.11, 7.2.1).
pub const GET_REPORT: u32 = 0x01;

/// bRequest: to take a report (HID 1.11, 7.2.2).
pub const SET_REPORT: u32 = 0x09;

/// bRequest: to send a report again when a time is over without a change (HID 1.11, 7.2.4).
pub const SET_IDLE: u32 = 0x0A;

/// What is asked of an interface.
#[repr(C)]
#[derive(Clone, Copy, Debug)]
pub struct HidAsk {
    /// [`GET_REPORT`], [`SET_REPORT`] or [`SET_IDLE`].
    pub request: u32,
    /// Of the first two, the kind of the report: [`INPUT`], [`OUTPUT`] or [`FEATURE`].
    pub kind: u8,
    /// The Report ID, 0 where reports have none; of [`SET_IDLE`], 0 for all.
    pub id: u8,
    /// Of [`SET_IDLE`], in units of 4 ms; 0 is none.
    pub time: u8,
    /// Not read.
    pub spare: u8,
}

/// The kind of a report by its number.
fn kind_with(number: u8) -> Option<ReportKind>
    ensures found { IfSome result (λ kind. rank kind ≡ number) }
    ensures none { IfNone result ((kind : ReportKind) → rank kind ≡ number → ⊥) }
{
    match number {
        INPUT => Some(ReportKind::Input),
        OUTPUT => Some(ReportKind::Output),
        FEATURE => Some(ReportKind::Feature),
        _ => None,
    }
}

/// What is asked, with these data; none where the request or the kind of the report is none.
pub fn ask_of<'a>(asked: &HidAsk, sent: &'a [u8]) -> Option<Ask<'a>>
    ensures found { IfSome result (λ ask. IsAsk asked.now sent.now ask) }
    ensures none { IfNone result ((ask : Ask) → IsAsk asked.now sent.now ask → ⊥) }
{
    let id = asked.id;
    match asked.request {
        GET_REPORT => match kind_with(asked.kind) {
            Some(kind) => Some(Ask::GetReport { kind, id }),
            None => None,
        },
        SET_REPORT => match kind_with(asked.kind) {
            Some(kind) => Some(Ask::SetReport {
                kind,
                id,
                bytes: sent,
            }),
            None => None,
        },
        SET_IDLE => Some(Ask::Idle {
            id,
            time: asked.time,
        }),
        _ => None,
    }
}
