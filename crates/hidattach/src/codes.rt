//! The codes of refusals, as `--help` prints them.

/// Each code with its words.
#[rattlefmt::skip]
pub const CODES: &str = "The connection is standard input and output, as socat, inetd or systemd hands it over:
  socat TCP:HOST:3240,nonblock,nodelay EXEC:'hidattach --output events 1-1',nofork
These end it, with exit status 1:
  A1: the server refused the device
  A2: somebody else has the device
  A3: the server has no such device
  A4: an answer to no submit that is in flight
  A5: an answer with more bytes than were asked for
  A6: the device is gone
  A8: the connection ended too early
  A9: an answer took too long, or transfers failed without an end
  A10: no interface of the device can be read
  A14: an interface's endpoint stays halted
  H8: the device refused the request
  H9: the transfer failed
  H10: the device descriptor can't be read
  H11: the configuration can't be read
  N1: another version of USB/IP than 1.1.1
  N2: an unknown operation
  N3: an unknown command
and these with exit status 3:
  A7: out of memory
  A11: the connection can't be read or written
  A12: the events can't be written
  A13: the file of Output reports can't be read
These are reported, and it goes on. Of an interface that can't be read:
  B4: it names no report descriptor
  B5: it has no interrupt-IN endpoint
  B6: a report descriptor of another length than was said
  B8: packets of 0 bytes, or of over 1024
  B9: another interface has its endpoint
  B13: another interface has its number
  H8, H9, L1 to L16: its report descriptor isn't given, or is refused
of a report that isn't read:
  H12: bytes that are no Input report
  H13: more bytes than the report has, by a packet
and of an Output report that isn't sent, or isn't taken:
  H3: there is no such interface
  H4: the interface isn't read
  H6: the interface has no such report
  H7: more bytes than the report has
  H8: the device refused the request
  H9: the transfer failed
  H16: the bytes don't begin with the Report ID";
