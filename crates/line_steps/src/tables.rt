//! Tables, as lines number them.

ghost use Rattle.std.specs.Prelude.{◌≡◌};
ghost use Rattle.line_steps.specs.Tables.{table_of};

/// The last table that a component may own.
pub const LAST_TABLE: u64 = 255;

/// The table of a number, from 1 to 255. None exactly where there is none that a component may own.
pub fn table_of(number: u64) -> Option<u8>
    ensures { result ≡ table_of number }
{
    if 1 <= number && number <= LAST_TABLE {
        Some(number as u8)
    } else {
        None
    }
}
