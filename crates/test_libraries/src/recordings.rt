//! Recordings over memory, and their output.
//! The mouse is that of HID 1.11, appendix E.10; its reports were worked out by hand from appendix B.2, and every expected
//! text from docs/RECORDINGS.md.

use hid_recording::{Cause, Options, RecordingFault, Refusal, Summary, play};
use std::alloc::{AllocError, Global};
use std::test::Fail;

const PLAIN: Options = Options {
    layout: false,
    values: false,
    names: false,
    places: false,
    strict: false,
    json: false,
};

const ALL: Options = Options {
    layout: true,
    values: true,
    names: true,
    places: false,
    strict: false,
    json: false,
};

const STRICT: Options = Options {
    layout: false,
    values: false,
    names: false,
    places: false,
    strict: true,
    json: false,
};

const JSON: Options = Options {
    layout: false,
    values: false,
    names: true,
    places: false,
    strict: false,
    json: true,
};

const NO_NAMES: Options = Options {
    layout: false,
    values: false,
    names: false,
    places: false,
    strict: false,
    json: true,
};

const PLACES: Options = Options {
    layout: false,
    values: false,
    names: true,
    places: true,
    strict: false,
    json: false,
};

/// What a recording is about, the options, the recording, and its output.
type Recorded = (&'static str, Options, &'static str, &'static str);

/// Recordings with their output.
#[rattlefmt::skip]
const TOLD: [Recorded; 31] = [
    ("a mouse that clicks and moves", PLAIN,
        "# a mouse\nD: 0\nR: 50 05 01 09 02 A1 01 09 01 A1 00 05 09 19 01 29 03 15 00 25 01 95 03 75 01 81 02 95 01 75 05 81 01 05 01 09 30 09 31 15 81 25 7F 75 08 95 02 81 06 C0 C0\nN: mouse\nI: 3 046d c077\nE: 000000.000000 3 01 05 00\nE: 000000.010000 3 00 00 FF\n",
        "000000.000000 0 down 09:01\n000000.000000 0 motion 01:30 5\n000000.010000 0 up 09:01\n000000.010000 0 motion 01:31 -1\n"),
    ("the same with its layout, its values and names", ALL,
        "R: 50 05 01 09 02 A1 01 09 01 A1 00 05 09 19 01 29 03 15 00 25 01 95 03 75 01 81 02 95 01 75 05 81 01 05 01 09 30 09 31 15 81 25 7F 75 08 95 02 81 06 C0 C0\nE: 000000.000000 3 01 05 00\n",
        "device 0\nreport input 0 bytes 3\nitem 0 input 0 at 0 1x3 variable 0..1 09:01 (Button 1)-09:03 (Button 3) in 1/01:02 (Mouse) 0/01:01 (Pointer)\nitem 1 input 0 at 3 5x1 padding in 1/01:02 (Mouse) 0/01:01 (Pointer)\nitem 2 input 0 at 8 8x2 relative -127..127 01:30 (X) 01:31 (Y) in 1/01:02 (Mouse) 0/01:01 (Pointer)\n000000.000000 0 report\nvalue 0.0 1 09:01 Button 1\nvalue 0.1 0 09:02 Button 2\nvalue 0.2 0 09:03 Button 3\nvalue 2.0 5 01:30 X\nvalue 2.1 0 01:31 Y\n000000.000000 0 down 09:01 Button 1\n000000.000000 0 motion 01:30 5 X\n"),
    ("two fingers by their places", PLACES,
        "R: 43 05 0D 09 04 A1 01 09 22 A1 02 09 42 15 00 25 01 75 01 95 01 81 02 95 07 81 01 C0 09 22 A1 02 09 42 95 01 81 02 95 07 81 01 C0 C0\nE: 1 2 01 00\nE: 2 2 01 01\nE: 3 2 00 01\nE: 4 2 00 00\n",
        "1 0 down 0D:42 @0.0 Tip Switch\n2 0 down 0D:42 @2.0 Tip Switch\n3 0 up 0D:42 @0.0 Tip Switch\n4 0 up 0D:42 @2.0 Tip Switch\n"),
    ("the keys of an array in a collection without a usage, as JSON", NO_NAMES,
        "R: 24 05 07 09 06 A1 01 A1 02 19 04 29 06 15 01 25 03 75 08 95 02 81 00 C0 C0\nE: 1 2 02 00\nE: 2 2 00 02\n",
        "{\"time\":\"1\",\"device\":0,\"event\":\"down\",\"page\":7,\"id\":5,\"item\":0,\"index\":1,\"path\":\"1/07:06 2/-\"}\n"),
    ("two devices, each with its view", PLAIN,
        "D:0\nR: 14 05 09 09 01 15 00 25 01 75 01 95 01 81 02\nD:1\nR: 14 05 09 09 02 15 00 25 01 75 01 95 01 81 02\nE: 1 1 01\nD:0\nE: 2 1 01\nD:1\nE: 3 1 01\nE: 4 1 00\n",
        "1 1 down 09:02\n2 0 down 09:01\n4 1 up 09:02\n"),
    ("a descriptor that is refused, and a report of it", PLAIN,
        "R: 2 05 01 \nE: 1 1 01\nR: 1 05\nE: 2 1 01\n",
        "line 2: U9: the device has no such Input report\nline 3: L1 at 0: the descriptor ends in the middle of an item\nline 4: R7: the device has no descriptor\n"),
    ("lines that say nothing known", PLAIN,
        "X: 1\nD: 16\nD: x\nD:\nR:\nR: 2 05\nR: 1 5\nR: 1 0g\nE: 1\nE: x 1 00\nE: 1 1 00\r\n\r\n\nR 1\n",
        "line 1: R1: no line of a recording\nline 2: R5: the device isn't a number from 0 to 15\nline 3: R5: the device isn't a number from 0 to 15\nline 4: R5: the device isn't a number from 0 to 15\nline 5: R4: the count is missing, or no number\nline 6: R4: the count says 2, there is 1 byte\nline 7: R3 at 0: a byte isn't two hex digits\nline 8: R3 at 0: a byte isn't two hex digits\nline 9: R4: the count is missing, or no number\nline 10: R6: the time isn't digits and points, 32 at most\nline 11: R7: the device has no descriptor\nline 14: R1: no line of a recording\n"),
    ("a report that is cut off changes nothing", PLAIN,
        "R: 14 05 09 09 01 15 00 25 01 75 01 95 09 81 02\nE: 1 2 01 00\nE: 2 1 00\nE: 3 2 00 00",
        "1 0 down 09:01\nline 3: U8: the report is too short\n3 0 up 09:01\n"),
    ("no lines", PLAIN, "", ""),
    ("the longest report, in one chunk", PLAIN,
        "1:1:0:DESCRIPTOR 1\n 75 08 96 FF 00 81 01 05 01 09 30 15 00 25 7F 95 01 81 02\n\n1:1:0:STREAM 2\n 00 00 00 00 00 00 00 00 00 00 00 00 00 00 00 00 00 00 00 00 00 00 00 00 00 00 00 00 00 00 00 00 00 00 00 00 00 00 00 00 00 00 00 00 00 00 00 00 00 00 00 00 00 00 00 00 00 00 00 00 00 00 00 00 00 00 00 00 00 00 00 00 00 00 00 00 00 00 00 00 00 00 00 00 00 00 00 00 00 00 00 00 00 00 00 00 00 00 00 00 00 00 00 00 00 00 00 00 00 00 00 00 00 00 00 00 00 00 00 00 00 00 00 00 00 00 00 00 00 00 00 00 00 00 00 00 00 00 00 00 00 00 00 00 00 00 00 00 00 00 00 00 00 00 00 00 00 00 00 00 00 00 00 00 00 00 00 00 00 00 00 00 00 00 00 00 00 00 00 00 00 00 00 00 00 00 00 00 00 00 00 00 00 00 00 00 00 00 00 00 00 00 00 00 00 00 00 00 00 00 00 00 00 00 00 00 00 00 00 00 00 00 00 00 00 00 00 00 00 00 00 00 00 00 00 00 00 00 00 00 00 00 00 00 00 00 00 00 00 00 00 00 00 00 00 07\n\n",
        "2 0 value 01:30 7\n"),
    ("dumps of two interfaces", PLAIN,
        "001:003:000:DESCRIPTOR 1.1\n 05 09 09 01 15 00 25 01 75 01 95 01 81 02\n\n001:003:001:DESCRIPTOR 1.2\n 05 09 09 02\n 15 00 25 01 75 01 95 01 81 02\n\n001:003:001:STREAM 2.1\n 01\n\n001:003:000:STREAM 2.2\r\n 01\r\n\r\n001:003:001:STREAM 2.3\n 00\n\n",
        "2.1 1 down 09:02\n2.2 0 down 09:01\n2.3 1 up 09:02\n"),
    ("dumps that are none", PLAIN,
        "001:003:STREAM 1\n001:003:000:NOISE 1\n001:003:000:STREAM x\n001:003:000:STREAM\n 00\n001:003:000:STREAM 1\n 0g\n001:003:000:STREAM 2\n 00\n\n",
        "line 1: R1: no line of a recording\nline 2: R1: no line of a recording\nline 3: R6: the time isn't digits and points, 32 at most\nline 4: R1: no line of a recording\nline 7: R3 at 0: a byte isn't two hex digits\nline 10: R7: the device has no descriptor\n"),
    ("a dump that no empty line ends", PLAIN,
        "1:1:0:STREAM 1\n 00\n1:1:0:STREAM 2\n 00\n\n",
        "line 3: R12: no empty line ends the dump before\nline 5: R7: the device has no descriptor\n"),
    ("a descriptor of which a line is refused", PLAIN,
        "1:1:0:DESCRIPTOR 1\n 05 09 09 01 15 00 25 01 75 01\n 95 01 8\n 95 01 81 02\n\n1:1:0:STREAM 2\n 01\n\n",
        "line 3: R3 at 2: a byte isn't two hex digits\nline 8: R7: the device has no descriptor\n"),
    ("a report of which a line is refused, and the next one", PLAIN,
        "1:1:0:DESCRIPTOR 1\n 05 09 09 01 15 00 25 01 75 01 95 01 81 02\n\n1:1:0:STREAM 2\n 0\n 01\n\n1:1:0:STREAM 3\n 01\n\n",
        "line 5: R3 at 0: a byte isn't two hex digits\n3 0 down 09:01\n"),
    ("a head that is refused after a dump that is open", PLAIN,
        "1:1:0:DESCRIPTOR 1\n 05 09 09 01 15 00 25 01 75 01 95 01 81 02\n\n1:1:0:STREAM 2\n1:1:1:STREAM x\n 01\n\n",
        "line 5: R6: the time isn't digits and points, 32 at most\n"),
    ("bytes, and no dump is open", PLAIN,
        " 00\n 01\nD: 0\n 02\n\n 03\n",
        "line 1: R1: no line of a recording\nline 6: R1: no line of a recording\n"),
    ("events and refusals as JSON", JSON,
        "R: 14 05 09 09 01 15 00 25 01 75 01 95 01 81 02\nE: 1.5 1 01\nE: 2 1\n",
        "{\"time\":\"1.5\",\"device\":0,\"event\":\"down\",\"page\":9,\"id\":1,\"item\":0,\"index\":0,\"path\":\"\",\"name\":\"Button 1\"}\n{\"line\":3,\"refused\":\"R4: the count says 1, there are 0 bytes\"}\n"),
    ("values and motions as JSON", NO_NAMES,
        "R: 33 05 01 09 30 15 00 26 FF 00 75 08 95 01 81 02 09 31 15 81 25 7F 81 06 09 39 15 01 25 08 75 08 81 42 C0\nR: 31 05 01 09 30 15 00 26 FF 00 75 08 95 01 81 02 09 31 15 81 25 7F 81 06 09 39 15 01 25 08 81 42\nE: .1 3 09 FF 01\nE: .2 3 09 00 00\n",
        "{\"line\":1,\"refused\":\"R4: the count says 33, there are 34 bytes\"}\n{\"time\":\".1\",\"device\":0,\"event\":\"value\",\"page\":1,\"id\":48,\"item\":0,\"index\":0,\"path\":\"\",\"value\":9}\n{\"time\":\".1\",\"device\":0,\"event\":\"motion\",\"page\":1,\"id\":49,\"item\":1,\"index\":0,\"path\":\"\",\"value\":-1}\n{\"time\":\".1\",\"device\":0,\"event\":\"value\",\"page\":1,\"id\":57,\"item\":2,\"index\":0,\"path\":\"\",\"value\":1}\n{\"time\":\".2\",\"device\":0,\"event\":\"null\",\"page\":1,\"id\":57,\"item\":2,\"index\":0,\"path\":\"\"}\n"),
    ("dumps of seventeen interfaces", PLAIN,
        "1:1:0:DESCRIPTOR 1\n\n1:1:1:DESCRIPTOR 1\n\n1:1:2:DESCRIPTOR 1\n\n1:1:3:DESCRIPTOR 1\n\n1:1:4:DESCRIPTOR 1\n\n1:1:5:DESCRIPTOR 1\n\n1:1:6:DESCRIPTOR 1\n\n1:1:7:DESCRIPTOR 1\n\n1:1:8:DESCRIPTOR 1\n\n1:1:9:DESCRIPTOR 1\n\n1:1:10:DESCRIPTOR 1\n\n1:1:11:DESCRIPTOR 1\n\n1:1:12:DESCRIPTOR 1\n\n1:1:13:DESCRIPTOR 1\n\n1:1:14:DESCRIPTOR 1\n\n1:1:15:DESCRIPTOR 1\n\n1:1:16:DESCRIPTOR 1\n 05 01\n 09 02\n\n",
        "line 33: R14: over 16 interfaces\n"),
    ("a device that a dump is of is that of the next lines", PLAIN,
        "D: 5\n1:1:0:DESCRIPTOR 1\n 05 09 09 01 15 00 25 01 75 01 95 01 81 02\n\nE: 2 1 01\nD: 1\nE: 3 1 01\n",
        "2 0 down 09:01\nline 7: R7: the device has no descriptor\n"),
    ("a report in two chunks", PLAIN,
        "1:1:0:DESCRIPTOR 1\n 85 01 05 01 09 30 15 00 26 FF 00 75 08 95 50 81 02 85 02 05 09 09 01 25 01 75 01 95 01 81 02\n\n1:1:0:STREAM 2\n 01 00 00 00 00 00 00 00 00 00 00 00 00 00 00 00 00 00 00 00 00 00 00 00 00 00 00 00 00 00 00 00\n 00 00 00 00 00 00 00 00 00 00 00 00 00 00 00 00 00 00 00 00 00 00 00 00 00 00 00 00 00 00 00 00\n\n1:1:0:STREAM 3\n 00 00 00 00 00 00 00 00 00 00 00 00 00 00 00 00 07\n\n1:1:0:STREAM 4\n 02 01\n\n",
        "3 0 value 01:30 7\n4 0 down 09:01\n"),
    ("a report of another interface between them", PLAIN,
        "1:1:0:DESCRIPTOR 1\n 85 01 05 01 09 30 15 00 26 FF 00 75 08 95 50 81 02 85 02 05 09 09 01 25 01 75 01 95 01 81 02\n\n1:1:1:DESCRIPTOR 1\n 05 09 09 01 15 00 25 01 75 01 95 01 81 02\n\n1:1:0:STREAM 2\n 01 00 00 00 00 00 00 00 00 00 00 00 00 00 00 00 00 00 00 00 00 00 00 00 00 00 00 00 00 00 00 00\n 00 00 00 00 00 00 00 00 00 00 00 00 00 00 00 00 00 00 00 00 00 00 00 00 00 00 00 00 00 00 00 00\n\n1:1:1:STREAM 2.5\n 01\n\n1:1:0:STREAM 3\n 00 00 00 00 00 00 00 00 00 00 00 00 00 00 00 00 07\n\n",
        "2.5 1 down 09:01\n3 0 value 01:30 7\n"),
    ("a chunk of under 64 bytes ends its report", PLAIN,
        "1:1:0:DESCRIPTOR 1\n 85 01 05 01 09 30 15 00 26 FF 00 75 08 95 50 81 02 85 02 05 09 09 01 25 01 75 01 95 01 81 02\n\n1:1:0:STREAM 2\n 01 00 00 00 00 00 00 00 00 00 00 00 00 00 00 00 00 00 00 00 00 00 00 00 00 00 00 00 00 00 00 00\n 00 00 00 00 00 00 00 00 00 00 00 00 00 00 00 00 00 00 00 00 00 00 00 00 00 00 00 00 00 00 00 00\n\n1:1:0:STREAM 3\n 07 07 07 07 07 07 07 07 07 07\n\n1:1:0:STREAM 4\n 02 01\n\n",
        "line 10: U8: the report is too short\n4 0 down 09:01\n"),
    ("a report with an ID that the device hasn't, in three chunks", PLAIN,
        "1:1:0:DESCRIPTOR 1\n 85 01 05 01 09 30 15 00 26 FF 00 75 08 95 50 81 02 85 02 05 09 09 01 25 01 75 01 95 01 81 02\n\n1:1:0:STREAM 2\n 09 00 00 00 00 00 00 00 00 00 00 00 00 00 00 00 00 00 00 00 00 00 00 00 00 00 00 00 00 00 00 00\n 00 00 00 00 00 00 00 00 00 00 00 00 00 00 00 00 00 00 00 00 00 00 00 00 00 00 00 00 00 00 00 00\n\n1:1:0:STREAM 3\n 02 01 00 00 00 00 00 00 00 00 00 00 00 00 00 00 00 00 00 00 00 00 00 00 00 00 00 00 00 00 00 00\n 00 00 00 00 00 00 00 00 00 00 00 00 00 00 00 00 00 00 00 00 00 00 00 00 00 00 00 00 00 00 00 00\n\n1:1:0:STREAM 4\n 02 01\n\n1:1:0:STREAM 5\n 02 01\n\n",
        "line 14: U9: the device has no such Input report\n5 0 down 09:01\n"),
    ("the rest of a report whose first chunk is refused", PLAIN,
        "1:1:0:DESCRIPTOR 1\n 85 01 05 01 09 30 15 00 26 FF 00 75 08 95 50 81 02 85 02 05 09 09 01 25 01 75 01 95 01 81 02\n\n1:1:0:STREAM 2\n 01 0\n 00 00 00 00 00 00 00 00 00 00 00 00 00 00 00 00 00 00 00 00 00 00 00 00 00 00 00 00 00 00 00 00\n 00 00 00 00 00 00 00 00 00 00 00 00 00 00 00 00 00 00 00 00 00 00 00 00 00 00 00 00 00 00\n\n1:1:0:STREAM 3\n 02 01 00 00 00 00 00 00 00 00 00 00 00 00 00 00 00\n\n1:1:0:STREAM 4\n 02 01\n\n",
        "line 5: R3 at 1: a byte isn't two hex digits\nline 11: R15: a part of the report may be missing\n4 0 down 09:01\n"),
    ("a report whose second chunk is refused, and the next one", PLAIN,
        "1:1:0:DESCRIPTOR 1\n 85 01 05 01 09 30 15 00 26 FF 00 75 08 95 50 81 02 85 02 05 09 09 01 25 01 75 01 95 01 81 02\n\n1:1:0:STREAM 2\n 01 00 00 00 00 00 00 00 00 00 00 00 00 00 00 00 00 00 00 00 00 00 00 00 00 00 00 00 00 00 00 00\n 00 00 00 00 00 00 00 00 00 00 00 00 00 00 00 00 00 00 00 00 00 00 00 00 00 00 00 00 00 00 00 00\n\n1:1:0:STREAM 3\n 0 0\n\n1:1:0:STREAM 4\n 01 00 00 00 00 00 00 00 00 00 00 00 00 00 00 00 00 00 00 00 00 00 00 00 00 00 00 00 00 00 00 00\n 00 00 00 00 00 00 00 00 00 00 00 00 00 00 00 00 00 00 00 00 00 00 00 00 00 00 00 00 00 00 00 00\n\n1:1:0:STREAM 5\n 02 01 00 00 00 00 00 00 00 00 00 00 00 00 00 00 00\n\n1:1:0:STREAM 6\n 02 01\n\n",
        "line 9: R3 at 0: a byte isn't two hex digits\nline 14: R15: a part of the report may be missing\nline 17: R15: a part of the report may be missing\n6 0 down 09:01\n"),
    ("the rest of a report whose first chunk no empty line ends", PLAIN,
        "1:1:0:DESCRIPTOR 1\n 85 01 05 01 09 30 15 00 26 FF 00 75 08 95 50 81 02 85 02 05 09 09 01 25 01 75 01 95 01 81 02\n\n1:1:0:STREAM 2\n 01 00 00 00 00 00 00 00 00 00 00 00 00 00 00 00 00 00 00 00 00 00 00 00 00 00 00 00 00 00 00 00\n 00 00 00 00 00 00 00 00 00 00 00 00 00 00 00 00 00 00 00 00 00 00 00 00 00 00 00 00 00 00 00 00\n1:1:0:STREAM 3\n 02 01 00 00 00 00 00 00 00 00 00 00 00 00 00 00 00\n\n1:1:0:STREAM 4\n 02 01\n\n",
        "line 7: R12: no empty line ends the dump before\nline 9: R15: a part of the report may be missing\n4 0 down 09:01\n"),
    ("spaces in front of what is no dump's", PLAIN,
        " # x\n\n R: 1 05\n\n\tE: 1\n",
        "line 1: R1: no line of a recording\nline 3: R1: no line of a recording\nline 5: R1: no line of a recording\n"),
    ("two refused lines in a dump", PLAIN,
        "1:1:0:STREAM 1\n 0g\n 0h\n\n",
        "line 2: R3 at 0: a byte isn't two hex digits\n"),
    ("a strict run of what isn't refused", STRICT,
        "R: 14 05 09 09 01 15 00 25 01 75 01 95 01 81 02\nE: 1 1 01",
        "1 0 down 09:01\n"),
];

/// Recordings of descriptors that can't be read, with their output.
#[rattlefmt::skip]
const UNREAD: [Recorded; 14] = [
    ("a descriptor with a wrong count, and reports after it", PLAIN,
        "R: 14 05 09 09 01 15 00 25 01 75 01 95 01 81 02\nE: 1 1 01\nR: 15 05 09 09 01 15 00 25 01 75 01 95 01 81 02\nE: 2 1 00\nR: 14 05 09 09 01 15 00 25 01 75 01 95 01 81 02\nE: 3 1 01\n",
        "1 0 down 09:01\n1 0 up 09:01\nline 3: R4: the count says 15, there are 14 bytes\nline 4: R7: the device has no descriptor\n3 0 down 09:01\n"),
    ("a descriptor with a word that is no byte, of one of two devices", PLAIN,
        "R: 14 05 09 09 01 15 00 25 01 75 01 95 01 81 02\nE: 1 1 01\nD: 1\nR: 14 05 09 09 01 15 00 25 01 75 01 95 01 81 02\nE: 2 1 01\nR: 14 05 09 09 01 15 00 25 01 75 01 95 01 81 0\nE: 3 1 00\nD: 0\nE: 4 1 00\n",
        "1 0 down 09:01\n2 1 down 09:01\n2 1 up 09:01\nline 6: R3 at 13: a byte isn't two hex digits\nline 7: R7: the device has no descriptor\n4 0 up 09:01\n"),
    ("an R with nothing after it", PLAIN,
        "R: 14 05 09 09 01 15 00 25 01 75 01 95 01 81 02\nR:\nE: 1 1 01\n",
        "line 2: R4: the count is missing, or no number\nline 3: R7: the device has no descriptor\n"),
    ("a letter that isn't R", PLAIN,
        "R: 14 05 09 09 01 15 00 25 01 75 01 95 01 81 02\nr: 14 05 09 09 01 15 00 25 01 75 01 95 01 81 02\nE: 1 1 01\n",
        "line 2: R1: no line of a recording\n1 0 down 09:01\n"),
    ("a second descriptor of which a line is refused, of one of two interfaces", PLAIN,
        "1:1:0:DESCRIPTOR 1\n 05 09 09 01 15 00 25 01 75 01 95 01 81 02\n\n1:1:1:DESCRIPTOR 1\n 05 09 09 01 15 00 25 01 75 01 95 01 81 02\n\n1:1:0:DESCRIPTOR 2\n 05 09 0\n 05\n\n1:1:0:STREAM 3\n 01\n\n1:1:1:STREAM 4\n 01\n\n",
        "line 8: R3 at 2: a byte isn't two hex digits\nline 13: R7: the device has no descriptor\n4 1 down 09:01\n"),
    ("a second descriptor that no empty line ends", PLAIN,
        "1:1:0:DESCRIPTOR 1\n 05 09 09 01 15 00 25 01 75 01 95 01 81 02\n\n1:1:1:DESCRIPTOR 1\n 05 09 09 01 15 00 25 01 75 01 95 01 81 02\n\n1:1:0:DESCRIPTOR 2\n 05 09 09 01 15 00 25 01 75 01 95 01 81 02\n1:1:1:STREAM 3\n 01\n\n1:1:0:STREAM 4\n 01\n\n",
        "line 9: R12: no empty line ends the dump before\n3 1 down 09:01\nline 14: R7: the device has no descriptor\n"),
    ("a line of another kind that is refused in a second descriptor", PLAIN,
        "1:1:0:DESCRIPTOR 1\n 05 09 09 01 15 00 25 01 75 01 95 01 81 02\n\n1:1:1:DESCRIPTOR 1\n 05 09 09 01 15 00 25 01 75 01 95 01 81 02\n\n1:1:0:DESCRIPTOR 2\nX\n 05 09 09 01 15 00 25 01 75 01 95 01 81 02\n\n1:1:0:STREAM 3\n 01\n\n1:1:1:STREAM 4\n 01\n\n",
        "line 8: R1: no line of a recording\nline 13: R7: the device has no descriptor\n4 1 down 09:01\n"),
    ("a head of a second descriptor whose time is no time", PLAIN,
        "1:1:0:DESCRIPTOR 1\n 05 09 09 01 15 00 25 01 75 01 95 01 81 02\n\n1:1:1:DESCRIPTOR 1\n 05 09 09 01 15 00 25 01 75 01 95 01 81 02\n\n1:1:0:DESCRIPTOR x\n 05 09 09 01 15 00 25 01 75 01 95 01 81 02\n\n1:1:0:STREAM 3\n 01\n\n1:1:1:STREAM 4\n 01\n\n",
        "line 7: R6: the time isn't digits and points, 32 at most\nline 12: R7: the device has no descriptor\n4 1 down 09:01\n"),
    ("a head of a second descriptor without its time", PLAIN,
        "1:1:0:DESCRIPTOR 1\n 05 09 09 01 15 00 25 01 75 01 95 01 81 02\n\n1:1:1:DESCRIPTOR 1\n 05 09 09 01 15 00 25 01 75 01 95 01 81 02\n\n1:1:0:DESCRIPTOR\n 05 09 09 01 15 00 25 01 75 01 95 01 81 02\n\n1:1:0:STREAM 3\n 01\n\n1:1:1:STREAM 4\n 01\n\n",
        "line 7: R1: no line of a recording\nline 12: R7: the device has no descriptor\n4 1 down 09:01\n"),
    ("heads of an interface that can't be known, and of chunks", PLAIN,
        "1:1:0:DESCRIPTOR 1\n 05 09 09 01 15 00 25 01 75 01 95 01 81 02\n\n1:1:1:DESCRIPTOR 1\n 05 09 09 01 15 00 25 01 75 01 95 01 81 02\n\n1:1:x:DESCRIPTOR 2\n 05 09 09 01 15 00 25 01 75 01 95 01 81 02\n\n1:1:0:DESCR 2\n 05 09 09 01 15 00 25 01 75 01 95 01 81 02\n\n1:1:0:STREAM\n 01\n\n1:1:0:STREAM 3\n 01\n\n1:1:1:STREAM 4\n 01\n\n",
        "line 7: R1: no line of a recording\nline 10: R1: no line of a recording\nline 13: R1: no line of a recording\n3 0 down 09:01\n4 1 down 09:01\n"),
    ("a head of a descriptor that is refused, and its interface comes first in it", PLAIN,
        "R: 14 05 09 09 01 15 00 25 01 75 01 95 01 81 02\nE: 1 1 01\n1:1:5:DESCRIPTOR x\n 05 09 09 01 15 00 25 01 75 01 95 01 81 02\n\n1:1:5:STREAM 2\n 01\n\n1:1:6:DESCRIPTOR 1\n 05 09 09 01 15 00 25 01 75 01 95 01 81 02\n\n1:1:6:STREAM 3\n 01\n\n",
        "1 0 down 09:01\n1 0 up 09:01\nline 3: R6: the time isn't digits and points, 32 at most\nline 8: R7: the device has no descriptor\n3 1 down 09:01\n"),
    ("a head of a seventeenth interface in a second descriptor", PLAIN,
        "1:1:0:DESCRIPTOR 1\n 05 09 09 01 15 00 25 01 75 01 95 01 81 02\n\n1:1:1:DESCRIPTOR 1\n\n1:1:2:DESCRIPTOR 1\n\n1:1:3:DESCRIPTOR 1\n\n1:1:4:DESCRIPTOR 1\n\n1:1:5:DESCRIPTOR 1\n\n1:1:6:DESCRIPTOR 1\n\n1:1:7:DESCRIPTOR 1\n\n1:1:8:DESCRIPTOR 1\n\n1:1:9:DESCRIPTOR 1\n\n1:1:10:DESCRIPTOR 1\n\n1:1:11:DESCRIPTOR 1\n\n1:1:12:DESCRIPTOR 1\n\n1:1:13:DESCRIPTOR 1\n\n1:1:14:DESCRIPTOR 1\n\n1:1:15:DESCRIPTOR 1\n\n1:1:0:DESCRIPTOR 2\n1:1:16:STREAM 3\n\n1:1:0:STREAM 4\n 01\n\n",
        "line 35: R14: over 16 interfaces\nline 39: R7: the device has no descriptor\n"),
    ("a head of a descriptor of a seventeenth interface that is refused", PLAIN,
        "1:1:0:DESCRIPTOR 1\n 05 09 09 01 15 00 25 01 75 01 95 01 81 02\n\n1:1:1:DESCRIPTOR 1\n\n1:1:2:DESCRIPTOR 1\n\n1:1:3:DESCRIPTOR 1\n\n1:1:4:DESCRIPTOR 1\n\n1:1:5:DESCRIPTOR 1\n\n1:1:6:DESCRIPTOR 1\n\n1:1:7:DESCRIPTOR 1\n\n1:1:8:DESCRIPTOR 1\n\n1:1:9:DESCRIPTOR 1\n\n1:1:10:DESCRIPTOR 1\n\n1:1:11:DESCRIPTOR 1\n\n1:1:12:DESCRIPTOR 1\n\n1:1:13:DESCRIPTOR 1\n\n1:1:14:DESCRIPTOR 1\n\n1:1:15:DESCRIPTOR 1\n\n1:1:16:DESCRIPTOR\n\n1:1:0:STREAM 4\n 01\n\n",
        "line 34: R1: no line of a recording\n4 0 down 09:01\n"),
    ("what came of a report in front of a descriptor that can't be read", PLAIN,
        "1:1:0:DESCRIPTOR 1\n 85 01 05 01 09 30 15 00 26 FF 00 75 08 95 50 81 02 85 02 05 09 09 01 25 01 75 01 95 01 81 02\n\n1:1:0:STREAM 2\n 01 00 00 00 00 00 00 00 00 00 00 00 00 00 00 00 00 00 00 00 00 00 00 00 00 00 00 00 00 00 00 00\n 00 00 00 00 00 00 00 00 00 00 00 00 00 00 00 00 00 00 00 00 00 00 00 00 00 00 00 00 00 00 00 00\n\nR: 1\n1:1:0:STREAM 3\n 02 01 00 00 00 00 00 00 00 00 00 00 00 00 00 00 00\n\n1:1:0:DESCRIPTOR 1\n 85 01 05 01 09 30 15 00 26 FF 00 75 08 95 50 81 02 85 02 05 09 09 01 25 01 75 01 95 01 81 02\n\n1:1:0:STREAM 4\n 02 01\n\n",
        "line 8: R4: the count says 1, there are 0 bytes\nline 11: R7: the device has no descriptor\n4 0 down 09:01\n"),
];

fn played(
    alloc: Global,
    options: Options,
    recording: &str,
    text: &mut Vec<u8>,
) -> Result<Summary, RecordingFault> {
    let mut reader = recording.as_bytes();
    play(alloc, &mut reader, text, options, &mut ())
}

/// What the first recording is about whose output is another.
fn first_wrong(alloc: Global, rows: &[Recorded]) -> Result<Option<&'static str>, Fail> {
    for (name, options, recording, want) in rows {
        let mut text = Vec::new(alloc);
        let result = played(alloc, *options, recording, &mut text);
        if result.is_err() || text.as_slice() != want.as_bytes() {
            return Ok(Some(*name));
        }
    }
    Ok(None)
}

#[test]
fn recordings_give_their_events(rt: HostRuntime) -> Result<(), Fail> {
    assert_eq!(rt; first_wrong(rt.alloc(), &TOLD)?, None);
    Ok(())
}

#[test]
fn descriptors_that_cannot_be_read_take_the_place_of_those_before(
    rt: HostRuntime,
) -> Result<(), Fail> {
    assert_eq!(rt; first_wrong(rt.alloc(), &UNREAD)?, None);
    Ok(())
}

/// Recordings that end early, the options, their output, and where and why they end: a button is pressed, and then comes
/// what ends them.
#[rattlefmt::skip]
const EARLY: [(&str, Options, &str, &str, u64, Cause); 4] = [
    ("a dump that is cut off", PLAIN,
        "R: 14 05 09 09 01 15 00 25 01 75 01 95 01 81 02\nE: 1 1 01\nX\n001:003:000:STREAM 1\n 00\n",
        "1 0 down 09:01\nline 3: R1: no line of a recording\n", 6, Cause::Unended),
    ("the first refusal of a strict run", STRICT,
        "R: 14 05 09 09 01 15 00 25 01 75 01 95 01 81 02\nE: 1 1 01\nE: 2 2 00\nE: 3 1 00\n",
        "1 0 down 09:01\n", 3, Cause::Refused(Refusal::BadCount { said: 2, found: 1 })),
    ("a descriptor of a strict run that can't be read", STRICT,
        "R: 14 05 09 09 01 15 00 25 01 75 01 95 01 81 02\nE: 1 1 01\nR: 2 05\nE: 2 1 00\n",
        "1 0 down 09:01\n", 3, Cause::Refused(Refusal::BadCount { said: 2, found: 1 })),
    ("a refused line in a dump of a strict run", STRICT,
        "R: 14 05 09 09 01 15 00 25 01 75 01 95 01 81 02\nE: 1 1 01\n001:003:000:STREAM 1\n 0\n\n",
        "1 0 down 09:01\n", 4, Cause::Refused(Refusal::BadHex { at: 0 })),
];

/// The faults have what was played before their lines.
#[test]
fn runs_that_end_early_tell_where_and_what_was_played(rt: HostRuntime) {
    for (name, options, recording, want, line, cause) in EARLY {
        let mut text = Vec::new(rt.alloc());
        let end = played(rt.alloc(), options, recording, &mut text);
        let played = Summary {
            lines: line - 1,
            descriptors: 1,
            reports: 1,
            events: 1,
            refused: u64::from(!options.strict),
        };
        let fault = RecordingFault {
            line,
            cause,
            played,
        };
        assert_eq!(rt; end, Err(fault), "{name}");
        assert_eq!(rt; text.as_slice(), want.as_bytes(), "{name}");
    }
}

/// Recordings of a head, a piece that is repeated, and a tail, with their output and the line at which they end, if they
/// end early.
#[rattlefmt::skip]
const LONG: [(&str, &str, &str, u32, &str, &str, Option<u64>); 5] = [
    ("a dump of 16,384 bytes", "1:1:0:STREAM 1\n", " 00\n", 16384, "\n", "line 16386: R7: the device has no descriptor\n", None),
    ("bytes more",            "1:1:0:STREAM 1\n", " 00\n", 16388, "\n", "line 16386: R13: a dump of over 16384 bytes\n", None),
    ("a second descriptor of as many", "1:1:0:DESCRIPTOR 1\n 05 09 09 01 15 00 25 01 75 01 95 01 81 02\n\n1:1:0:DESCRIPTOR 2\n", " 00\n", 16388, "\n1:1:0:STREAM 3\n 01\n\n", "line 16389: R13: a dump of over 16384 bytes\nline 16396: R7: the device has no descriptor\n", None),
    ("a line of 65,536 bytes", "#", "x", 65535, "\r\nX\n", "line 2: R1: no line of a recording\n", None),
    ("a byte more",            "#", "x", 65536, "\r\nX\n", "", Some(1)),
];

fn long_recording(
    alloc: Global,
    head: &str,
    piece: &str,
    times: u32,
    tail: &str,
) -> Result<String, AllocError> {
    let mut text = String::from_str(alloc, head)?;
    for _ in 0..times {
        text.push_str(piece)?;
    }
    text.push_str(tail)?;
    Ok(text)
}

#[test]
fn long_recordings_keep_to_their_limits(rt: HostRuntime) -> Result<(), Fail> {
    for (name, head, piece, times, tail, want, line) in LONG {
        let recording = long_recording(rt.alloc(), head, piece, times, tail)?;
        let mut text = Vec::new(rt.alloc());
        let early = match played(rt.alloc(), PLAIN, recording.as_str(), &mut text) {
            Ok(_) => None,
            Err(fault) => Some(fault.line),
        };
        let text = String::from_utf8(text)?;
        assert_eq!(rt; text.as_str(), want, "{name}");
        assert_eq!(rt; early, line, "{name}");
    }
    Ok(())
}
