//! The names of usage pages.

ghost use Rattle.std.specs.Prelude.{◌≡◌};
ghost use Rattle.std.specs.Option.{option_map};
ghost use Rattle.hid_names.specs.PageNames.{standard_pages, page_name};
ghost use Rattle.hid_names.specs.Pages.{name_under};

use crate::pages::look_up;

/// From here on pages are of vendors (HID Usage Tables, 3).
const FIRST_OF_VENDORS: u16 = 0xFF00;

/// The pages by rising number (HID Usage Tables, 3; F0 is Debian's list's).
#[rattlefmt::skip]
pub static PAGES: [(u16, &str); 36] = [
    (0x01, "Generic Desktop"), (0x02, "Simulation Controls"), (0x03, "VR Controls"), (0x04, "Sport Controls"),
    (0x05, "Game Controls"), (0x06, "Generic Device Controls"), (0x07, "Keyboard/Keypad"), (0x08, "LED"),
    (0x09, "Button"), (0x0A, "Ordinal"), (0x0B, "Telephony Device"), (0x0C, "Consumer"), (0x0D, "Digitizers"),
    (0x0E, "Haptics"), (0x0F, "Physical Input Device"), (0x10, "Unicode"), (0x11, "SoC"),
    (0x12, "Eye and Head Trackers"), (0x14, "Auxiliary Display"), (0x20, "Sensors"), (0x40, "Medical Instrument"),
    (0x41, "Braille Display"), (0x59, "Lighting And Illumination"), (0x80, "Monitor"), (0x81, "Monitor Enumerated"),
    (0x82, "VESA Virtual Controls"), (0x84, "Power"), (0x85, "Battery System"), (0x8C, "Barcode Scanner"),
    (0x8D, "Scales"), (0x8E, "Magnetic Stripe Reader"), (0x90, "Camera Control"), (0x91, "Arcade"),
    (0x92, "Gaming Device"), (0xF0, "Cash Device"), (0xF1D0, "FIDO Alliance"),
];

/// The name of a page of the tables.
#[tactic(auto, unfolding(crate::specs::PageNames::standard_pages))]
fn standard_page(page: u16) -> Option<&'static str>
    ensures { option_map (λ name. name.now) result ≡ name_under standard_pages page }
{
    look_up(&PAGES, page)
}

/// What a page is called, if it has a name.
#[tactic(auto, unfolding(crate::specs::PageNames::page_name))]
pub fn page_name(page: u16) -> Option<&'static str>
    ensures { option_map (λ name. name.now) result ≡ page_name page }
{
    if page >= FIRST_OF_VENDORS {
        return Some("Vendor-defined");
    }
    standard_page(page)
}
