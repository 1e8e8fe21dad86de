//! What the table of each page has under an ID.

ghost use Rattle.std.specs.Prelude.{◌≡◌};
ghost use Rattle.std.specs.Option.{option_map};
ghost use Rattle.hid_names.specs.Pages.{name_under, table_rows, in_page, desktop, simulation, vr, sport, game, keyboard, leds, telephony, consumer, application_controls, in_consumer, digitizers, physical_interface, auxiliary_display, sensors, sensor_fields, more_sensor_fields, sensor_values, in_sensors, monitor, vesa_controls, power, battery_system, cash_device};

use crate::table::{
    APPLICATION_CONTROLS, AUXILIARY_DISPLAY, BATTERY_SYSTEM, CASH_DEVICE, CONSUMER, DESKTOP,
    DIGITIZERS, GAME, KEYBOARD, LEDS, MONITOR, MORE_SENSOR_FIELDS, PHYSICAL_INTERFACE, POWER,
    SENSOR_FIELDS, SENSOR_VALUES, SENSORS, SIMULATION, SPORT, TELEPHONY, VESA_CONTROLS, VR,
};

/// What rows have under an ID.
pub(crate) fn look_up(rows: &[(u16, &'static str)], id: u16) -> Option<&'static str>
    ensures { option_map (λ name. name.now) result ≡ name_under (table_rows rows.now) id }
{
    for row in rows {
        let (of, name) = *row;
        if id == of {
            return Some(name);
        }
    }
    None
}

// One function for each page: each unfolds one table alone.

/// The name of the usage with this ID on page 01 (in hex).
#[tactic(auto, unfolding(crate::specs::Pages::desktop))]
fn in_desktop(id: u16) -> Option<&'static str>
    ensures { option_map (λ name. name.now) result ≡ name_under desktop id }
{
    look_up(&DESKTOP, id)
}

/// The name of the usage with this ID on page 02 (in hex).
#[tactic(auto, unfolding(crate::specs::Pages::simulation))]
fn in_simulation(id: u16) -> Option<&'static str>
    ensures { option_map (λ name. name.now) result ≡ name_under simulation id }
{
    look_up(&SIMULATION, id)
}

/// The name of the usage with this ID on page 03 (in hex).
#[tactic(auto, unfolding(crate::specs::Pages::vr))]
fn in_vr(id: u16) -> Option<&'static str>
    ensures { option_map (λ name. name.now) result ≡ name_under vr id }
{
    look_up(&VR, id)
}

/// The name of the usage with this ID on page 04 (in hex).
#[tactic(auto, unfolding(crate::specs::Pages::sport))]
fn in_sport(id: u16) -> Option<&'static str>
    ensures { option_map (λ name. name.now) result ≡ name_under sport id }
{
    look_up(&SPORT, id)
}

/// The name of the usage with this ID on page 05 (in hex).
#[tactic(auto, unfolding(crate::specs::Pages::game))]
fn in_game(id: u16) -> Option<&'static str>
    ensures { option_map (λ name. name.now) result ≡ name_under game id }
{
    look_up(&GAME, id)
}

/// The name of the usage with this ID on page 07 (in hex).
#[tactic(auto, unfolding(crate::specs::Pages::keyboard))]
fn in_keyboard(id: u16) -> Option<&'static str>
    ensures { option_map (λ name. name.now) result ≡ name_under keyboard id }
{
    look_up(&KEYBOARD, id)
}

/// The name of the usage with this ID on page 08 (in hex).
#[tactic(auto, unfolding(crate::specs::Pages::leds))]
fn in_leds(id: u16) -> Option<&'static str>
    ensures { option_map (λ name. name.now) result ≡ name_under leds id }
{
    look_up(&LEDS, id)
}

/// The name of the usage with this ID on page 0B (in hex).
#[tactic(auto, unfolding(crate::specs::Pages::telephony))]
fn in_telephony(id: u16) -> Option<&'static str>
    ensures { option_map (λ name. name.now) result ≡ name_under telephony id }
{
    look_up(&TELEPHONY, id)
}

/// The name of the usage with this ID, below 200, on page 0C (in hex).
#[tactic(auto, unfolding(crate::specs::Pages::consumer))]
fn in_consumer_controls(id: u16) -> Option<&'static str>
    ensures { option_map (λ name. name.now) result ≡ name_under consumer id }
{
    look_up(&CONSUMER, id)
}

/// The name of the usage with this ID, from 200 on, on page 0C (in hex).
#[tactic(auto, unfolding(crate::specs::Pages::application_controls))]
fn in_application_controls(id: u16) -> Option<&'static str>
    ensures { option_map (λ name. name.now) result ≡ name_under application_controls id }
{
    look_up(&APPLICATION_CONTROLS, id)
}

/// The name of the usage with this ID on page 0C (in hex).
fn in_consumer(id: u16) -> Option<&'static str>
    ensures { option_map (λ name. name.now) result ≡ in_consumer id }
{
    if id < 0x200 {
        in_consumer_controls(id)
    } else {
        in_application_controls(id)
    }
}

/// The name of the usage with this ID on page 0D (in hex).
#[tactic(auto, unfolding(crate::specs::Pages::digitizers))]
fn in_digitizers(id: u16) -> Option<&'static str>
    ensures { option_map (λ name. name.now) result ≡ name_under digitizers id }
{
    look_up(&DIGITIZERS, id)
}

/// The name of the usage with this ID on page 0F (in hex).
#[tactic(auto, unfolding(crate::specs::Pages::physical_interface))]
fn in_physical_interface(id: u16) -> Option<&'static str>
    ensures { option_map (λ name. name.now) result ≡ name_under physical_interface id }
{
    look_up(&PHYSICAL_INTERFACE, id)
}

/// The name of the usage with this ID on page 14 (in hex).
#[tactic(auto, unfolding(crate::specs::Pages::auxiliary_display))]
fn in_auxiliary_display(id: u16) -> Option<&'static str>
    ensures { option_map (λ name. name.now) result ≡ name_under auxiliary_display id }
{
    look_up(&AUXILIARY_DISPLAY, id)
}

/// The name of the usage with this ID, below 200, on page 20 (in hex).
#[tactic(auto, unfolding(crate::specs::Pages::sensors))]
fn in_sensor_kinds(id: u16) -> Option<&'static str>
    ensures { option_map (λ name. name.now) result ≡ name_under sensors id }
{
    look_up(&SENSORS, id)
}

/// The name of the usage with this ID, from 200 to 4FF, on page 20 (in hex).
#[tactic(auto, unfolding(crate::specs::Pages::sensor_fields))]
fn in_sensor_fields(id: u16) -> Option<&'static str>
    ensures { option_map (λ name. name.now) result ≡ name_under sensor_fields id }
{
    look_up(&SENSOR_FIELDS, id)
}

/// The name of the usage with this ID, from 500 to 7FF, on page 20 (in hex).
#[tactic(auto, unfolding(crate::specs::Pages::more_sensor_fields))]
fn in_more_sensor_fields(id: u16) -> Option<&'static str>
    ensures { option_map (λ name. name.now) result ≡ name_under more_sensor_fields id }
{
    look_up(&MORE_SENSOR_FIELDS, id)
}

/// The name of the usage with this ID, from 800 on, on page 20 (in hex).
#[tactic(auto, unfolding(crate::specs::Pages::sensor_values))]
fn in_sensor_values(id: u16) -> Option<&'static str>
    ensures { option_map (λ name. name.now) result ≡ name_under sensor_values id }
{
    look_up(&SENSOR_VALUES, id)
}

/// The name of the usage with this ID on page 20 (in hex).
fn in_sensors(id: u16) -> Option<&'static str>
    ensures { option_map (λ name. name.now) result ≡ in_sensors id }
{
    match id {
        0x000..=0x1FF => in_sensor_kinds(id),
        0x200..=0x4FF => in_sensor_fields(id),
        0x500..=0x7FF => in_more_sensor_fields(id),
        _ => in_sensor_values(id),
    }
}

/// The name of the usage with this ID on page 80 (in hex).
#[tactic(auto, unfolding(crate::specs::Pages::monitor))]
fn in_monitor(id: u16) -> Option<&'static str>
    ensures { option_map (λ name. name.now) result ≡ name_under monitor id }
{
    look_up(&MONITOR, id)
}

/// The name of the usage with this ID on page 82 (in hex).
#[tactic(auto, unfolding(crate::specs::Pages::vesa_controls))]
fn in_vesa_controls(id: u16) -> Option<&'static str>
    ensures { option_map (λ name. name.now) result ≡ name_under vesa_controls id }
{
    look_up(&VESA_CONTROLS, id)
}

/// The name of the usage with this ID on page 84 (in hex).
#[tactic(auto, unfolding(crate::specs::Pages::power))]
fn in_power(id: u16) -> Option<&'static str>
    ensures { option_map (λ name. name.now) result ≡ name_under power id }
{
    look_up(&POWER, id)
}

/// The name of the usage with this ID on page 85 (in hex).
#[tactic(auto, unfolding(crate::specs::Pages::battery_system))]
fn in_battery_system(id: u16) -> Option<&'static str>
    ensures { option_map (λ name. name.now) result ≡ name_under battery_system id }
{
    look_up(&BATTERY_SYSTEM, id)
}

/// The name of the usage with this ID on page F0 (in hex).
#[tactic(auto, unfolding(crate::specs::Pages::cash_device))]
fn in_cash_device(id: u16) -> Option<&'static str>
    ensures { option_map (λ name. name.now) result ≡ name_under cash_device id }
{
    look_up(&CASH_DEVICE, id)
}

/// What the table of a page has under an ID.
#[tactic(auto, unfolding(crate::specs::Pages::in_page))]
pub fn in_page(page: u16, id: u16) -> Option<&'static str>
    ensures { option_map (λ name. name.now) result ≡ in_page page id }
{
    match page {
        0x01 => in_desktop(id),
        0x02 => in_simulation(id),
        0x03 => in_vr(id),
        0x04 => in_sport(id),
        0x05 => in_game(id),
        0x07 => in_keyboard(id),
        0x08 => in_leds(id),
        0x0B => in_telephony(id),
        0x0C => in_consumer(id),
        0x0D => in_digitizers(id),
        0x0F => in_physical_interface(id),
        0x14 => in_auxiliary_display(id),
        0x20 => in_sensors(id),
        0x80 => in_monitor(id),
        0x82 => in_vesa_controls(id),
        0x84 => in_power(id),
        0x85 => in_battery_system(id),
        0xF0 => in_cash_device(id),
        _ => None,
    }
}
