//! What `--help` prints below the options: what files are, and the codes of refusals.

/// What a file may be, and each code with its words.
#[rattlefmt::skip]
pub const CODES: &str = "A file is text of hid-recorder or usbhid-dump, a capture (pcap, pcapng), a live
device (/dev/hidraw0) or a report descriptor: binary, hex, a list in brackets,
strings of escapes, or what lsusb -v, xxd, hexdump -C, od -t x1 or Wireshark
print (docs/INPUT-FORMS.md). Without a file, standard input is read.

Refusals are reported in place, with their line, and the rest goes on:
  R1: no line of a recording
  R3: a byte isn't two hex digits
  R4: the count is missing, or no number
  R4: the count says N, there are M bytes
  R4: the frame was cut off when it was captured
  R5: the device isn't a number from 0 to 15
  R6: the time isn't digits and points, 32 at most
  R7: the device has no descriptor
  R12: no empty line ends the dump before
  R13: a dump of over 16384 bytes
  R14: over 16 interfaces
  R15: a part of the report may be missing
  U8: the report is too short
  U9: the device has no such Input report
and, with the byte at which a report descriptor is refused:
  L1: the descriptor ends in the middle of an item
  L2: a descriptor of over 4096 bytes
  L3: a Pop without a Push
  L4: over 8 open Pushes
  L5: over 16 open collections
  L6: an End Collection without its Collection
  L7: a Collection is open at the end
  L8: a Report ID of 0, or over 255
  L9: some items have a Report ID, and some have none
  L10: no number is in the range of a field
  L11: a data field of 0 bits, or too wide
  L12: a Usage Minimum over its Maximum, or on another page
  L13: a Usage Minimum or Maximum without the other
  L14: a Delimiter
  L15: a report that is too long
  L16: too many items, fields, usages or Report IDs
These end a file, and R9 and the first refusal with --strict all of them:
  R2: a line of over 65536 bytes
  R8: the recording can't be read
  R9: its text can't be written
  R10: out of memory
  R11: the end didn't come in 1000000000000 reads
  R12: no empty line ends the last dump
These end a capture, at the byte where the block begins that can't be read:
  K2: a section without its byte order
  K3: the length of a block is under 12, or no multiple of 4
  K4: a block of over 16777216 bytes
  K5: the two lengths of a block differ
  K6: a block is too short for its fields
  K7: the version is neither pcap 2.4 nor pcapng 1.0 or 1.2
  K8: over 256 interfaces
  K9: an option of an interface has a wrong length
  K10: the ticks of an interface's clock are too short
  K11: a frame of an interface that isn't described
  K12: a frame is longer than its block
  K13: the file ends in the middle of a block";
