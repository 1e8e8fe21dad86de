//! The columns of pictures in characters.

ghost use Rattle.hidmap.specs.Columns.{AreColumns};

/// The columns of a terminal that doesn't say how many it has.
pub const COLUMNS: u16 = 80;

/// The columns that a text gives; 80 where it is no number, or 0, as a terminal says that doesn't know its size.
pub fn columns_of(text: &str) -> u16
    ensures { AreColumns text.now result }
{
    match text.parse::<u16>() {
        Ok(0) | Err(_) => COLUMNS,
        Ok(columns) => columns,
    }
}
