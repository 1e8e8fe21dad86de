//! What calls answer.

/// Done.
pub const OK: u32 = 0;

/// The descriptor, the device or the call is refused, or a script ended at a line; the cause is reported.
pub const REFUSED: u32 = 1;

/// The handle is open already.
pub const BUSY: u32 = 2;

/// The handle is closed.
pub const CLOSED: u32 = 3;

/// The caller's table or text is too small; the room that is needed is reported.
pub const NO_ROOM: u32 = 4;

/// U8: fewer bytes than the report has.
pub const SHORT: u32 = 5;

/// U9: the bytes are of no Input report that the device has, or of another report.
pub const UNKNOWN: u32 = 6;

/// Nothing stands at that place, or it has no value; no report is due, no transfer is to be made, or nothing is asked for.
pub const NONE: u32 = 7;

/// Memory ran out.
pub const MEMORY: u32 = 8;

/// The element has no pattern for the number.
pub const RANGE: u32 = 9;

/// The device refuses it: STALL (USB 2.0, 8.4.5). Of a transfer too, what came of it.
pub const STALLED: u32 = 10;

/// The transfer failed.
pub const FAILED: u32 = 11;

/// U2: the control is of a kind that can't change so.
pub const WRONG_KIND: u32 = 12;

/// U4: the control has no null.
pub const NO_NULL: u32 = 13;

/// U5: no value that can be sent has the sign of the amount.
pub const NO_DIRECTION: u32 = 14;

/// U6: the motion that isn't reported yet would no longer fit an `i32`; U7: all elements of the array are taken.
pub const FULL: u32 = 15;
