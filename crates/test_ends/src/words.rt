//! The words of a row: bytes, numbers, controls and requests.

use arrayvec::ArrayVec;
use hid_layout::ControlId;
use hid_report_descriptor::ReportKind;
use hid_requests::Request;
use std::alloc::Global;
use test_rows::{RowFault, push_word};
use usb_transact::Fate;

/// The words of a text.
pub fn words_in(alloc: Global, text: &str) -> Result<Vec<&str>, RowFault> {
    let words: Result<Vec<&str>, _> = text.split_whitespace().collect(alloc);
    match words {
        Ok(words) => Ok(words),
        Err(_) => Err(RowFault::Memory),
    }
}

/// The number that is encoded by a word in decimal.
pub fn number(word: &str) -> Option<usize> {
    word.parse().ok()
}

/// The byte that is encoded by a word in decimal.
pub fn small(word: &str) -> Option<u8> {
    word.parse().ok()
}

/// Makes these the bytes that are encoded by words; false where one of them encodes none.
pub fn read_bytes(bytes: &mut Vec<u8>, words: &[&str]) -> bool {
    bytes.clear();
    for word in words {
        if push_word(bytes, "", word).is_err() {
            return false;
        }
    }
    true
}

/// The control that is meant by its item and index.
pub fn control_of(item: &str, index: &str) -> Option<ControlId> {
    Some(ControlId {
        item: number(item)?,
        index: number(index)?,
    })
}

pub fn kind_of(word: &str) -> Option<ReportKind> {
    match word {
        "input" => Some(ReportKind::Input),
        "output" => Some(ReportKind::Output),
        "feature" => Some(ReportKind::Feature),
        _ => None,
    }
}

pub fn fate_of(word: &str) -> Option<Fate> {
    match word {
        "clean" => Some(Fate::Clean),
        "token" => Some(Fate::TokenLost),
        "reply" => Some(Fate::ReplyLost),
        "ack" => Some(Fate::AckLost),
        _ => None,
    }
}

/// The request of one word, as docs/SCRIPT.md has it.
fn plain_request(word: &str) -> Option<Request> {
    match word {
        "device" => Some(Request::Device),
        "config" => Some(Request::Config),
        "report" => Some(Request::Report),
        "configure" => Some(Request::Configure),
        "status" => Some(Request::Status),
        "get-configuration" => Some(Request::GetConfiguration),
        "get-protocol" => Some(Request::GetProtocol),
        "halt" => Some(Request::Halt),
        "clear" => Some(Request::Clear),
        "endpoint-status" => Some(Request::EndpointStatus),
        _ => None,
    }
}

/// To set a report: its bytes are encoded by words.
fn set_report(kind: &str, id: &str, words: &[&str], bytes: &mut Vec<u8>) -> Option<Request> {
    if !read_bytes(bytes, words) {
        return None;
    }
    Some(Request::SetReport {
        kind: kind_of(kind)?,
        id: small(id)?,
        bytes: ArrayVec::try_from(bytes.as_slice()).ok()?,
    })
}

/// The request that is meant, as docs/SCRIPT.md has it. The bytes are room for those of a report.
pub fn request_of(words: &[&str], bytes: &mut Vec<u8>) -> Option<Request> {
    match *words {
        [word] => plain_request(word),
        ["idle", id, time] => Some(Request::Idle {
            id: small(id)?,
            time: small(time)?,
        }),
        ["get-idle", id] => Some(Request::GetIdle { id: small(id)? }),
        ["protocol", "boot"] => Some(Request::Protocol { boot: true }),
        ["protocol", "report"] => Some(Request::Protocol { boot: false }),
        ["get-report", kind, id] => Some(Request::GetReport {
            kind: kind_of(kind)?,
            id: small(id)?,
        }),
        ["set-report", kind, id, ref rest @ ..] => set_report(kind, id, rest, bytes),
        _ => None,
    }
}
