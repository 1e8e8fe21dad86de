//! The causes of refusals as numbers.

ghost use Rattle.std.specs.Prelude.{◌≡◌, IfSome, IfNone};
ghost use Rattle.hid_report_descriptor.specs.declared.fault.Cause.{Cause};
ghost use Rattle.hidstack_session.specs.Causes.{cause_number};

use hid_layout::Cause;

/// 1 for L1 to 17 for L17.
pub fn cause_number(cause: Cause) -> u32
    ensures { result ≡ cause_number cause }
{
    match cause {
        Cause::Truncated => 1,
        Cause::TooLong => 2,
        Cause::PopEmpty => 3,
        Cause::PushDepth => 4,
        Cause::CollectionDepth => 5,
        Cause::EndWithout => 6,
        Cause::Unclosed => 7,
        Cause::BadReportId => 8,
        Cause::MixedReportId => 9,
        Cause::BadRange => 10,
        Cause::BadSize => 11,
        Cause::BadUsageRange => 12,
        Cause::UnpairedUsage => 13,
        Cause::Delimiter => 14,
        Cause::ReportTooLong => 15,
        Cause::TooMany => 16,
        Cause::Memory => 17,
    }
}

/// The cause with a number; none for 0 and over 17.
pub fn cause_with(number: u32) -> Option<Cause>
    ensures found { IfSome result (λ cause. cause_number cause ≡ number) }
    ensures none { IfNone result ((cause : Cause) → cause_number cause ≡ number → ⊥) }
{
    let cause = match number {
        1 => Cause::Truncated,
        2 => Cause::TooLong,
        3 => Cause::PopEmpty,
        4 => Cause::PushDepth,
        5 => Cause::CollectionDepth,
        6 => Cause::EndWithout,
        7 => Cause::Unclosed,
        8 => Cause::BadReportId,
        9 => Cause::MixedReportId,
        10 => Cause::BadRange,
        11 => Cause::BadSize,
        12 => Cause::BadUsageRange,
        13 => Cause::UnpairedUsage,
        14 => Cause::Delimiter,
        15 => Cause::ReportTooLong,
        16 => Cause::TooMany,
        17 => Cause::Memory,
        _ => return None,
    };
    Some(cause)
}
