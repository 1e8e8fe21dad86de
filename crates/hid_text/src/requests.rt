//! What the words after `begin` say: a device, and what its host asks.

ghost use Rattle.std.specs.Prelude.{◌≡◌, ◌≤◌, length};
ghost use Rattle.hid_text.specs.Words.{words_of};
ghost use Rattle.hid_text.specs.Requests.{request_word_of, report_type_of, boot_protocol_of, bare_request as alone_said, idle_meaning, id_meaning, protocol_meaning, report_meaning, set_report_meaning, request_of_words, request_meaning, begin_meaning};

use super::fault::LineFault;
use super::line::Line;
use super::numbers::{read_byte, read_device};
use super::words::{count_bytes, first_two_words, first_word, look_up, read_hex, two_words};
use arrayvec::ArrayVec;
use hid_report_descriptor::ReportKind;
use hid_requests::Request;

/// The most bytes of a report that is set.
const REPORT_LIMIT: usize = 256;

#[derive(Clone, Copy)]
enum RequestWord {
    Device,
    Config,
    Report,
    Configure,
    Status,
    GetConfiguration,
    Idle,
    GetIdle,
    Protocol,
    GetProtocol,
    GetReport,
    SetReport,
    Halt,
    Clear,
    EndpointStatus,
}

/// The request that a word names.
fn read_request_word(word: &[u8]) -> Option<RequestWord>
    ensures { result ≡ request_word_of word.now }
{
    look_up(
        &[
            (b"device", RequestWord::Device),
            (b"config", RequestWord::Config),
            (b"report", RequestWord::Report),
            (b"configure", RequestWord::Configure),
            (b"status", RequestWord::Status),
            (b"get-configuration", RequestWord::GetConfiguration),
            (b"idle", RequestWord::Idle),
            (b"get-idle", RequestWord::GetIdle),
            (b"protocol", RequestWord::Protocol),
            (b"get-protocol", RequestWord::GetProtocol),
            (b"get-report", RequestWord::GetReport),
            (b"set-report", RequestWord::SetReport),
            (b"halt", RequestWord::Halt),
            (b"clear", RequestWord::Clear),
            (b"endpoint-status", RequestWord::EndpointStatus),
        ],
        word,
    )
}

/// TYPE: which of a device's reports are meant (HID 1.11, 7.2.1).
fn read_kind(word: &[u8]) -> Option<ReportKind>
    ensures { result ≡ report_type_of word.now }
{
    look_up(
        &[
            (b"input", ReportKind::Input),
            (b"output", ReportKind::Output),
            (b"feature", ReportKind::Feature),
        ],
        word,
    )
}

/// Whether a protocol is the boot protocol (7.2.6).
fn read_boot_protocol(word: &[u8]) -> Option<bool>
    ensures { result ≡ boot_protocol_of word.now }
{
    look_up(&[(b"boot", true), (b"report", false)], word)
}

/// A request with no words after it.
#[tactic(auto, unfolding(crate::specs::Requests::bare_request))]
fn bare_request(request: Request, text: &[u8]) -> Result<Request, LineFault>
    ensures { result ≡ alone_said request (words_of text.now) }
{
    if first_word(text).is_none() {
        Ok(request)
    } else {
        Err(LineFault::Syntax)
    }
}

/// `ID TIME`: an idle time that is set (7.2.4).
#[tactic(auto, unfolding(crate::specs::Requests::idle_meaning, crate::specs::Words::two_words))]
fn read_idle(text: &[u8]) -> Option<(u8, u8)>
    ensures { result ≡ idle_meaning (words_of text.now) }
{
    let (id, time) = two_words(text)?;
    read_byte(id).zip(read_byte(time))
}

/// `ID`: a report by its Report ID.
#[tactic(auto, unfolding(crate::specs::Requests::id_meaning))]
fn read_id(text: &[u8]) -> Option<u8>
    ensures { result ≡ id_meaning (words_of text.now) }
{
    let (id, text) = first_word(text)?;
    if first_word(text).is_some() {
        return None;
    }
    read_byte(id)
}

/// `boot` or `report`: whether a protocol that is set is the boot protocol.
#[tactic(auto, unfolding(crate::specs::Requests::protocol_meaning))]
fn read_protocol(text: &[u8]) -> Option<bool>
    ensures { result ≡ protocol_meaning (words_of text.now) }
{
    let (protocol, text) = first_word(text)?;
    if first_word(text).is_some() {
        return None;
    }
    read_boot_protocol(protocol)
}

/// `TYPE ID`: a report that is asked for (7.2.1).
#[tactic(auto, unfolding(crate::specs::Requests::report_meaning, crate::specs::Words::two_words))]
fn read_report(text: &[u8]) -> Option<(ReportKind, u8)>
    ensures { result ≡ report_meaning (words_of text.now) }
{
    let (kind, id) = two_words(text)?;
    read_kind(kind).zip(read_byte(id))
}

/// `TYPE ID HEX`: a report that is set (7.2.2). How many bytes there are is looked at before their digits.
#[tactic(auto, unfolding(crate::specs::Requests::set_report_meaning))]
fn read_set_report(text: &[u8]) -> Result<Request, LineFault>
    requires { length text.now ≤ 1024 }
    ensures { result ≡ set_report_meaning (words_of text.now) }
{
    let Some((kind, id, hex)) = first_two_words(text) else {
        return Err(LineFault::Syntax);
    };
    let Some((kind, id)) = read_kind(kind).zip(read_byte(id)) else {
        return Err(LineFault::Syntax);
    };
    if count_bytes(hex) > REPORT_LIMIT {
        return Err(LineFault::Syntax);
    }
    let report = read_hex(hex)?;
    let bytes = ArrayVec::try_from(report.as_slice()).unwrap();
    Ok(Request::SetReport { kind, id, bytes })
}

/// What the words after the first one of a request say.
#[tactic(auto, unfolding(crate::specs::Requests::request_of_words))]
fn read_asked(word: RequestWord, text: &[u8]) -> Result<Request, LineFault>
    requires { length text.now ≤ 1024 }
    ensures { result ≡ request_of_words word (words_of text.now) }
{
    match word {
        RequestWord::Device => bare_request(Request::Device, text),
        RequestWord::Config => bare_request(Request::Config, text),
        RequestWord::Report => bare_request(Request::Report, text),
        RequestWord::Configure => bare_request(Request::Configure, text),
        RequestWord::Status => bare_request(Request::Status, text),
        RequestWord::GetConfiguration => bare_request(Request::GetConfiguration, text),
        RequestWord::Idle => {
            let Some((id, time)) = read_idle(text) else {
                return Err(LineFault::Syntax);
            };
            Ok(Request::Idle { id, time })
        }
        RequestWord::GetIdle => {
            let Some(id) = read_id(text) else {
                return Err(LineFault::Syntax);
            };
            Ok(Request::GetIdle { id })
        }
        RequestWord::Protocol => {
            let Some(boot) = read_protocol(text) else {
                return Err(LineFault::Syntax);
            };
            Ok(Request::Protocol { boot })
        }
        RequestWord::GetProtocol => bare_request(Request::GetProtocol, text),
        RequestWord::GetReport => {
            let Some((kind, id)) = read_report(text) else {
                return Err(LineFault::Syntax);
            };
            Ok(Request::GetReport { kind, id })
        }
        RequestWord::SetReport => read_set_report(text),
        RequestWord::Halt => bare_request(Request::Halt, text),
        RequestWord::Clear => bare_request(Request::Clear, text),
        RequestWord::EndpointStatus => bare_request(Request::EndpointStatus, text),
    }
}

/// `REQUEST`: what a host asks of its device (USB 2.0, 9.4; HID 1.11, 7.2).
#[tactic(auto, unfolding(crate::specs::Requests::request_meaning))]
fn read_request(text: &[u8]) -> Result<Request, LineFault>
    requires { length text.now ≤ 1024 }
    ensures { result ≡ request_meaning (words_of text.now) }
{
    let Some((first, rest)) = first_word(text) else {
        return Err(LineFault::Syntax);
    };
    let Some(word) = read_request_word(first) else {
        return Err(LineFault::Syntax);
    };
    read_asked(word, rest)
}

/// `D REQUEST`: a device, and what its host asks.
///
/// # Errors
/// [`LineFault::Syntax`] where the words are no device and request, or a `set-report` has too many bytes; then
/// [`LineFault::BadHex`] where its bytes aren't pairs of hex digits.
#[inline(never)] // no other line makes room for a request
#[tactic(auto, unfolding(crate::specs::Requests::begin_meaning))]
pub fn read_begin(text: &[u8]) -> Result<Line, LineFault>
    requires { length text.now ≤ 1024 }
    ensures { result ≡ begin_meaning (words_of text.now) }
{
    let Some((dev, request)) = first_word(text) else {
        return Err(LineFault::Syntax);
    };
    let Some(dev) = read_device(dev) else {
        return Err(LineFault::Syntax);
    };
    let request = read_request(request)?;
    Ok(Line::Begin { dev, request })
}
