//! Units in words (HID 1.11, 6.2.2.7).

ghost use Rattle.std.specs.Prelude.{◌≡◌, ◌++◌, ◌∷◌, [], ◌^◌, ◌<◌, OnOk, string_bytes};
ghost use Rattle.hid_page.specs.Units.{system_name, length_name, mass_name, temperature_name, power_text, factor_text, first_factors, last_factors, has_system, system_words, unit_words};

use crate::item_numbers::exponent_of;
use std::alloc::AllocError;

/// The prefix of a Unit.
pub const UNIT: u8 = 0x64;

/// The name of a system of units.
fn system_name(system: u64) -> &'static str
    ensures { result.now ≡ system_name system }
{
    match system {
        1 => "SI Linear",
        2 => "SI Rotation",
        3 => "English Linear",
        _ => "English Rotation",
    }
}

/// What length is measured in.
fn length_name(system: u64) -> &'static str
    ensures { result.now ≡ length_name system }
{
    match system {
        1 => "Centimeter",
        2 => "Radians",
        3 => "Inch",
        _ => "Degrees",
    }
}

/// What mass is measured in.
fn mass_name(system: u64) -> &'static str
    ensures { result.now ≡ mass_name system }
{
    if system <= 2 { "Gram" } else { "Slug" }
}

/// What temperature is measured in.
fn temperature_name(system: u64) -> &'static str
    ensures { result.now ≡ temperature_name system }
{
    if system <= 2 { "Kelvin" } else { "Fahrenheit" }
}

/// Adds the power of a unit, but for 1.
fn print_power(text: &mut String, code: u64) -> Result<(), AllocError>
    requires { code < 16 }
    ensures { OnOk result (string_bytes text.new ≡ string_bytes text.old ++ power_text code) }
{
    if code == 1 {
        return Ok(());
    }
    let power = exponent_of(code, code as i64);
    write!(text, "^{power}")
}

/// Adds a unit with its power, in front of a space; nothing where its code is 0.
#[tactic(auto, unfolding(crate::specs::Units::factor_text))]
fn print_factor(text: &mut String, name: &str, code: u64) -> Result<(), AllocError>
    requires { code < 16 }
    ensures { OnOk result (string_bytes text.new ≡ string_bytes text.old ++ factor_text name.now code) }
{
    if code == 0 {
        return Ok(());
    }
    text.push_str(name)?;
    print_power(text, code)?;
    text.push_str(" ")
}

/// Adds length, mass and time of a unit.
#[tactic(auto, unfolding(crate::specs::Units::first_factors))]
fn print_first_factors(text: &mut String, system: u64, number: u64) -> Result<(), AllocError>
    ensures { OnOk result (string_bytes text.new
        ≡ string_bytes text.old ++ first_factors system number) }
{
    print_factor(text, length_name(system), number / 0x10 % 0x10)?;
    print_factor(text, mass_name(system), number / 0x100 % 0x10)?;
    print_factor(text, "Seconds", number / 0x1000 % 0x10)
}

/// Adds temperature, current and luminous intensity of a unit.
#[tactic(auto, unfolding(crate::specs::Units::last_factors))]
fn print_last_factors(text: &mut String, system: u64, number: u64) -> Result<(), AllocError>
    ensures { OnOk result (string_bytes text.new
        ≡ string_bytes text.old ++ last_factors system number) }
{
    print_factor(text, temperature_name(system), number / 0x10000 % 0x10)?;
    print_factor(text, "Ampere", number / 0x10_0000 % 0x10)?;
    print_factor(text, "Candela", number / 0x100_0000 % 0x10)
}

/// Whether a unit is of one of the four systems, without reserved bits.
fn has_system(number: u64) -> bool
    ensures { result ≡ has_system number }
{
    number < 0x1000_0000 && (1 <= number % 0x10 && number % 0x10 <= 4)
}

/// Adds a unit of a system: `, Centimeter^2 Gram Seconds^-2 (SI Linear)`.
#[tactic(auto, unfolding(crate::specs::Units::system_words))]
fn print_system(text: &mut String, number: u64) -> Result<(), AllocError>
    ensures { OnOk result (string_bytes text.new ≡ string_bytes text.old ++ system_words number) }
{
    let system = number % 0x10;
    text.push_str(", ")?;
    print_first_factors(text, system, number)?;
    print_last_factors(text, system, number)?;
    let name = system_name(system);
    write!(text, "({name})")
}

/// Adds a unit in words; nothing where its system is reserved or a vendor's.
///
/// # Errors
/// Out of memory; part of the text may be added then.
pub fn print_unit(text: &mut String, number: u64) -> Result<(), AllocError>
    ensures { OnOk result (string_bytes text.new ≡ string_bytes text.old ++ unit_words number) }
{
    if number == 0 {
        return text.push_str(", None");
    }
    if has_system(number) {
        print_system(text, number)
    } else {
        Ok(())
    }
}
