//! The URB of a frame.

use test_rows::{RowFault, add, add_shown, print, print_bytes, print_debug, print_shown, split};
use usb_capture::{ByteOrder, Frame, Urb, read_urb};

/// A URB: its id, bus, device, endpoint, direction, transfer and event; its SETUP packet, if it has one; its data; and `truncated`,
/// if it is.
fn print_urb(printed: &mut String, urb: &Urb<'_>) -> Result<(), RowFault> {
    print_shown(printed, &urb.id)?;
    for number in [urb.bus, urb.device, u16::from(urb.endpoint)] {
        add(printed, " ")?;
        add_shown(printed, &number)?;
    }
    print_debug(printed, &urb.direction)?;
    print_debug(printed, &urb.transfer)?;
    print_debug(printed, &urb.event)?;
    match urb.setup {
        Some(setup) => print_bytes(printed, &setup)?,
        None => print(printed, "no setup")?,
    }
    print_bytes(printed, urb.payload)?;
    if urb.is_truncated {
        print(printed, "truncated")?;
    }
    Ok(())
}

/// The URB of a frame with these bytes, of a link type, a byte order and a length, as in `220 big 100`; or why there is none. A
/// frame without a length has that of its bytes.
pub fn print_asked_urb(printed: &mut String, bytes: &[u8], words: &str) -> Result<(), RowFault> {
    let (link, rest) = split(words, ' ');
    let (order, length) = split(rest, ' ');
    let order = if order == "big" {
        ByteOrder::Big
    } else {
        ByteOrder::Little
    };
    let frame = Frame {
        at: 0,
        time: None,
        link: link.parse()?,
        order,
        original_length: if length.is_empty() {
            0
        } else {
            length.parse()?
        },
        bytes,
    };
    match read_urb(&frame) {
        Ok(urb) => print_urb(printed, &urb),
        Err(fault) => print_shown(printed, &fault),
    }
}
