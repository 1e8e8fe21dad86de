//! A field of over 32 bits, which readers of real devices take for padding: the numbers are those of its descriptor.

use hid_layout::{ControlId, Layout, Limits, Shape};
use std::test::Fail;

/// An Input report with a field of 88 bits, of a vendor's usage.
const WIDE: [u8; 20] = [
    0x06, 0x00, 0xFF, 0x09, 0x01, 0xA1, 0x01, 0x09, 0x02, 0x15, 0x00, 0x25, 0x01, 0x75, 0x58, 0x95,
    0x01, 0x81, 0x02, 0xC0,
];

#[test]
fn a_wide_field_is_no_control(rt: HostRuntime) -> Result<(), Fail> {
    let layout = Layout::parse_within(rt.alloc(), Limits::Real, &WIDE)?;
    let (Some(main), Some(report)) = (layout.items().first(), layout.reports().first()) else {
        return Err(Fail::new("it has an item and a report"));
    };
    assert!(rt; main.size == 88);
    assert!(rt; main.shape == Shape::Padding);
    assert!(rt; report.bits == 88);
    assert!(rt; layout.element(0, 0) == None);
    assert!(rt; layout.control(ControlId { item: 0, index: 0 }) == None);
    Ok(())
}
