//! What a run counts and nothing prints: how many lines and events there were. Worked out by hand from docs/SCRIPT.md.

use crate::play::{QUIET, play};
use hid_script::Summary;
use std::alloc::Global;
use std::test::Fail;
use test_rows::none_is_wrong;

/// Scripts without events, and how many lines each has.
const LINES: [(&str, u64); 4] = [
    ("", 0),
    ("\n", 1),
    ("# one\n\nlayout\r\n\t", 4),
    ("layout\n", 1),
];

/// Whether a script has n lines, and no event.
fn has_lines(alloc: Global, script: &str, lines: u64) -> bool {
    let mut reader = script.as_bytes();
    let mut written = Vec::new(alloc);
    let wanted = Ok(Summary { lines, events: 0 });
    play(alloc, &mut reader, &mut written, QUIET) == wanted
}

/// The first script that has another number of lines.
fn first_miscounted(alloc: Global, rows: &[(&'static str, u64)]) -> Option<usize> {
    for (at, (script, lines)) in rows.iter().enumerate() {
        if !has_lines(alloc, script, *lines) {
            return Some(at);
        }
    }
    None
}

#[test]
fn a_summary_counts_all_lines(rt: HostRuntime) -> Result<(), Fail> {
    none_is_wrong(first_miscounted(rt.alloc(), &LINES))
}

/// A keyboard, a mouse, a hat switch, a device with two reports, one with 65,535 keys, and two whose reports go in two and in
/// four pieces. Events of each kind come, and polls without any.
const EVENTS: &str =
    "device ready keyboard 05 01 09 06 A1 01 05 07 19 E0 29 E7 15 00 25 01 75 01 95 08 81 02 95 01 75 08 81 01 95 05 75 01 05 08 19 01 29 05 91 02 95 01 75 03 91 01 95 06 75 08 15 00 25 65 05 07 19 00 29 65 81 00 C0
device ready mouse 05 01 09 02 A1 01 09 01 A1 00 05 09 19 01 29 03 15 00 25 01 95 03 75 01 81 02 95 01 75 05 81 01 05 01 09 30 09 31 15 81 25 7F 75 08 95 02 81 06 C0 C0
device ready plain 05 01 09 04 A1 01 09 39 15 00 25 07 75 04 95 01 81 42 75 04 95 01 81 03 C0
device ready plain 05 01 09 02 A1 01 85 01 09 30 15 81 25 7F 75 08 95 01 81 06 85 02 05 09 09 01 15 00 25 01 75 01 81 02 C0
device ready plain 05 09 19 01 2A FF FF 15 00 27 FF FF 00 00 75 10 95 02 81 00
device ready plain 05 01 09 30 15 00 26 FF 00 75 08 95 64 81 02
device ready plain 05 01 09 30 15 00 26 FF 00 75 08 96 00 01 81 02
press 1 07:04
release 1 07:04
poll 1
press 1 07:04
poll 1 reply
poll 1 ack
press 1 07:05
poll 1 clean 2
move 2 01:30 200
poll 2 clean 3
move 2 01:30 -200
poll 2 ack
poll 2 clean 2
press 1 07:06
press 1 07:07
press 1 07:08
press 1 07:09
press 1 07:0A
press 1 07:E1
poll 1
press 1 07:0B
poll 1
release 1 07:0A
release 1 07:0B
poll 1
press 1 07:0A
poll 1
poll 3
set 3 01:39 0
poll 3
null 3 01:39
poll 3
set 3 01:39 7
poll 3
press 4 09:01
move 4 01:30 -1
poll 4 token
poll 4 clean 3
press 5 09:FFFF
poll 5
set 6 01:30 7
poll 6 ack
set 6 01:30 9
poll 6 clean 2
poll 6 clean 3
set 7 01:30 1
poll 7 clean 4
poll 7
set 7 01:30 2
poll 7
move 2 01:30 5
poll 2 reply
reset 2
move 4 01:30 5
poll 4 reply
halt 4
reset 1
reset 3
";

/// How many lines these are.
fn count(bytes: &[u8]) -> u64 {
    bytes.iter().filter(|byte| **byte == b'\n').count() as u64
}

/// Whether as many events of a script are counted as it prints lines, and its lines are.
fn is_counted(alloc: Global, script: &[u8]) -> bool {
    let mut reader = script;
    let mut written = Vec::new(alloc);
    let end = play(alloc, &mut reader, &mut written, QUIET);
    let wanted = Summary {
        lines: count(script),
        events: count(&written),
    };
    end == Ok(wanted)
}

/// Where the first front of a script ends, of whole lines, that is counted otherwise.
fn first_front_miscounted(alloc: Global, script: &[u8]) -> Option<usize> {
    for (at, byte) in script.iter().enumerate() {
        if *byte == b'\n' && !is_counted(alloc, &script[..=at]) {
            return Some(at);
        }
    }
    None
}

#[test]
fn a_summary_counts_the_events(rt: HostRuntime) -> Result<(), Fail> {
    none_is_wrong(first_front_miscounted(rt.alloc(), EVENTS.as_bytes()))
}
