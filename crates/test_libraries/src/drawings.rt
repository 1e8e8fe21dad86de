//! What is drawn of short descriptors: places by hand from HID 1.11, B.2 and 6.2.2, words from docs/PICTURES.md.

use hid_layout::Layout;
use hid_layout::boot::MOUSE;
use hid_notation::RefusalText;
use hid_page::{Form, draw, draw_refused};
use std::alloc::{AllocError, Global};
use std::test::Fail;

/// Usages and sizes at their ends: FFFF:FFFF in 32 bits, from the least number to the greatest, and every flag; then the
/// keys with angle brackets, an ampersand and quotes in their names.
#[rattlefmt::skip]
const EXTREMES: [u8; 56] = [
    0x06, 0xFF, 0xFF, 0x0B, 0xFF, 0xFF, 0xFF, 0xFF, 0xA1, 0xFF,
    0x0B, 0xFF, 0xFF, 0xFF, 0xFF, 0x17, 0x00, 0x00, 0x00, 0x80, 0x27, 0xFF, 0xFF, 0xFF, 0x7F,
    0x75, 0x20, 0x95, 0x0F, 0x82, 0xFE, 0x01,
    0x05, 0x07, 0x15, 0x00, 0x25, 0x01, 0x75, 0x01, 0x95, 0x04, 0x09, 0x34, 0x09, 0x36, 0x09, 0x24, 0x09, 0x37,
    0x81, 0x02, 0xC0, 0xFE, 0x00, 0x77,
];

/// A byte a hundred and one times: the number of the last one has three digits.
const LONG: [u8; 19] = [
    0x05, 0x01, 0x09, 0x30, 0xA1, 0x01, 0x15, 0x00, 0x25, 0x7F, 0x75, 0x08, 0x95, 0x65, 0x09, 0x30,
    0x81, 0x02, 0xC0,
];

/// What is drawn of a descriptor that is accepted.
fn drawn(alloc: Global, descriptor: &[u8], form: Form) -> Result<String, Fail> {
    let layout = Layout::parse(alloc, descriptor)?;
    let text = draw(alloc, &layout, descriptor, form)?;
    Ok(text.ok_or("no such report")?)
}

/// A descriptor, a form, and what stands in the drawing. The mouse has two collections, so its bits begin 52 + 2 * 6 from the
/// left; a bit has 112, a byte 48, the first one begins at 34.
#[rattlefmt::skip]
const HOLDS: [(&[u8], Form, &str); 25] = [
    (&MOUSE, Form::Svg(0),      "<a class='k0 f0' href='#f0'><svg x='848' y='34' width='112' height='36'>"),
    (&MOUSE, Form::Svg(0),      "<a class='p f1' href='#f1'><svg x='64' y='34' width='560' height='36'>"),
    (&MOUSE, Form::Svg(0),      "<a class='k2 f2' href='#f2'><svg x='64' y='130' width='896' height='36'>"),
    (&MOUSE, Form::Svg(0),      "<title>Button 1: byte 0, bit 0; 0..1; data, variable, absolute</title>"),
    (&MOUSE, Form::Svg(0),      "<title>padding: byte 0, bits 3 to 7; 5 bits; constant, array, absolute</title>"),
    (&MOUSE, Form::Svg(0),      "<title>Mouse (Application): bytes 0 to 2</title>"),
    (&MOUSE, Form::Page,        "<a href='#at24'>24</a> </td></tr>"),
    (&MOUSE, Form::Page,        "body:has(.f0:hover,.f0:focus,#f0:target) :is(#f0,#at4,#at8,#at10,#at12,#at14,#at16,#at18,#at20,#at22,#at24){"),
    (&MOUSE, Form::Page,        "&emsp;&emsp;Usage Maximum Button 3</td>"),
    (&MOUSE, Form::Page,        " C0</code></td><td>End Collection</td></tr>"),
    (&MOUSE, Form::Characters(100),  " 0 │padding                                          │Button 3 │Button 2 │Button 1 │││\n"),
    (&LONG,     Form::Characters(100), "\n  0│X      "),
    (&LONG,     Form::Characters(100), "\n 99│X      "),
    (&LONG,     Form::Characters(100), "\n100│X      "),
    (&EXTREMES, Form::Page,     "FFFF:FFFF (Vendor-defined)"),
    (&EXTREMES, Form::Page,     "<td>-2147483648 to 2147483647, signed</td>"),
    (&EXTREMES, Form::Page,     "data, variable, relative, wrap, nonlinear, no preferred, null state, reserved, buffered bytes"),
    (&EXTREMES, Form::Page,     "FFFF:FFFF, bits 24 to 31: byte 59, bits 0 to 7; -2147483648..2147483647 relative null; "),
    (&EXTREMES, Form::Page,     "Keyboard &#39; and &#34;"),
    (&EXTREMES, Form::Page,     "Keyboard , and &lt;"),
    (&EXTREMES, Form::Page,     "Keyboard 7 and &amp;"),
    (&EXTREMES, Form::Page,     "Keyboard . and &gt;"),
    (&EXTREMES, Form::Page,     "FE 00 77</code></td><td>Long item</td>"),
    (&[0x55, 0x0E], Form::Page, "<td><code> 55 0E</code></td><td>Unit Exponent -2</td>"),
    (&[],       Form::Page,     "<h1>Reports of a HID device</h1>\n<h2 id='items'>"),
];

#[test]
fn drawings_hold_what_they_should(rt: HostRuntime) -> Result<(), Fail> {
    for (descriptor, form, words) in HOLDS {
        let text = drawn(rt.alloc(), descriptor, form)?;
        assert!(rt; text.as_str().contains(words), "{words}");
    }
    Ok(())
}

#[test]
fn names_end_no_tag(rt: HostRuntime) -> Result<(), Fail> {
    let text = drawn(rt.alloc(), &EXTREMES, Form::Page)?;
    for words in [
        "and <:", "and <<", "and >:", "and ><", "and &:", "and \"", "' and",
    ] {
        assert!(rt; !text.as_str().contains(words), "{words}");
    }
    Ok(())
}

/// This many bytes in front; then 16 collections with the longest name and kind, and as many bytes in a field with the longest
/// words of flags and the longest range of names.
fn deepest(alloc: Global, front: u8) -> Result<Vec<u8>, AllocError> {
    let mut deep = Vec::from_slice(alloc, &[0x75, 0x08, 0x95, front, 0x81, 0x03])?;
    for _ in 0..16 {
        deep.extend_from_slice(&[0x05, 0x82, 0x09, 0x40, 0xA1, 0x80])?;
    }
    deep.extend_from_slice(&[
        0x1A, 0x40, 0x00, 0x2A, 0xA4, 0x00, 0x25, 0x01, 0x82, 0xFE, 0x01,
    ])?;
    for _ in 0..16 {
        deep.push(0xC0)?;
    }
    Ok(deep)
}

/// In characters of a terminal of 100 columns no line of a picture has more, and one under 16 collections has as many: in reports
/// of 64, 100, 102 and 256 bytes, whose collections take the bytes from 32, 50, 51 and 128 on.
#[test]
fn lines_fit_a_terminal(rt: HostRuntime) -> Result<(), Fail> {
    for front in [32, 50, 51, 128] {
        let deep = deepest(rt.alloc(), front)?;
        let text = drawn(rt.alloc(), deep.as_slice(), Form::Characters(100))?;
        assert_eq!(rt; widest(text.as_str()), 100, "{front}");
    }
    let text = drawn(rt.alloc(), &EXTREMES, Form::Characters(100))?;
    assert!(rt; widest(text.as_str()) <= 100);
    Ok(())
}

/// The columns of the longest line.
fn widest(text: &str) -> usize {
    let mut columns = 0;
    for line in text.lines() {
        columns = columns.max(line.chars().count());
    }
    columns
}

#[test]
fn other_reports_are_not_drawn(rt: HostRuntime) -> Result<(), Fail> {
    let layout = Layout::parse(rt.alloc(), &MOUSE)?;
    let text = draw(rt.alloc(), &layout, &MOUSE, Form::Svg(1))?;
    assert!(rt; text.is_none());
    Ok(())
}

/// A collection that nothing ends, and a Pop without a Push: why, the last item that is shown, and the next one. Where the
/// main item after a usage isn't shown, the page at the usage names it.
#[rattlefmt::skip]
const REFUSED: [(&[u8], &str, &str, &str); 3] = [
    (&[0x05, 0x01, 0xA1, 0x01],       "<p class='fault'>L7 at 4: a Collection is open at the end</p>", "id='at2'", "id='at4'"),
    (&[0x05, 0x01, 0xB4, 0x09, 0x02], "<p class='fault'>L3 at 2: a Pop without a Push</p>",            "id='at2'", "id='at3'"),
    (&[0x05, 0x09, 0x19, 0x01, 0xB4, 0x05, 0x01, 0x81, 0x02],
        "<td><code> 19 01</code></td><td>Usage Minimum Button 1</td>",                                "id='at4'", "id='at5'"),
];

#[test]
fn refusals_show_the_items_up_to_their_place(rt: HostRuntime) -> Result<(), Fail> {
    for (descriptor, words, last, next) in REFUSED {
        let refusal = match Layout::parse(rt.alloc(), descriptor) {
            Ok(_) => return Err(Fail::new("it is accepted")),
            Err(fault) => RefusalText {
                fault,
                report: None,
            },
        };
        let text = draw_refused(rt.alloc(), descriptor, refusal)?;
        assert!(rt; text.as_str().contains(words), "{words}");
        assert!(rt; text.as_str().contains(last), "{words}");
        assert!(rt; !text.as_str().contains(next), "{words}");
    }
    Ok(())
}
