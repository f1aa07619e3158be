//! Lines of one live call.

use crate::line::HexBytes;
use crash_base::ComponentName;

/// What a line does to the call of its caller, with what its further words say, in their order.
#[derive(Drop)]
pub enum CallLine {
    /// The component that is entered.
    Enter(ComponentName),
    /// The component that was entered last is left.
    Exit,
    /// The table and the key of a row that is read.
    Read(u64, u64),
    /// The table that is listed.
    List(u64),
    /// The table, the key and the bytes of a row that is put.
    Put(u64, u64, HexBytes),
}
