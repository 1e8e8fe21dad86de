//! The report descriptor in a file: binary, or text of one of eight shapes.
//! ```text
//!   bytes --> control bytes? --> binary: all of them
//!         --> text --> 00000000: 0501 0902 ..  ......      dump       xxd, hexdump -C, od, tshark
//!                  --> R: 50 05 01 09 02 ..                recording  hid-recorder, umockdev
//!                  --> 003:002:000:DESCRIPTOR              block      usbhid-dump
//!                  --> Report Descriptor: (length is 50)   items      lsusb -v
//!                  --> hid: [ 0x05, 0x01, .. ]             list       libinput record
//!                  --> 05 01 09 02 ..   0501..  0x05, ..   hex
//!                  --> u8 d[] = { 0x05, 0x01, .. };        list       in { }, [ ], ( ) or < >
//!                  --> "\x05\x01\t\x02 .."                 escapes
//! ```
//! Two rules replace all guesses. **The bytes are one whole report descriptor**: a text in which an offset, a line number or another
//! order of bytes was taken for the descriptor isn't one. **Every character of the text is explained** by a grammar that is so small
//! that nothing in it changes the bytes: what else stands beside them is refused.
//!
//! The promise: `read`, `whole`, `recorded`, `binary` and `refused` on [`descriptor_in`]. Time and memory are in proportion to the text.
#![tactic(auto)]

mod dump;
mod enclosed;
mod fault;
mod found;
mod head;
mod items;
mod known;
mod named;
mod plain;
mod reading;
mod recorded;
mod spelled;
mod strings;
mod text;
mod whole;
mod words;

pub use fault::{InputCause, InputFault};
pub use found::{Found, Shape};
pub use known::{KnownFile, begins_text, known_file};
pub use reading::descriptor_in;
pub use recorded::{RecordedFault, begins_recording, is_recording, read_recorded};
pub use whole::{DescriptorCause, DescriptorFault, descriptor_fault};
