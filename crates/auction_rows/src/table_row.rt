//! Rows of one table.

ghost use Rattle.std.specs.Prelude.{◌≡◌, ◌≤◌, ℕ, List, Option, Some, Bool, true, length, IfOk, IfSome};
ghost use Rattle.crash_base.specs.declared.rows.TheConstants.{MAX_ROW_BYTES};

use crash_base::{OutOfMemory, RowBytes};
use std::alloc::Global;

/// Rows of one table, and the bytes that spell them. A function that reads or writes rows of any
/// table takes the kind of row as a parameter.
pub trait TableRow: Drop + Sized {
    /// The row that bytes spell.
    ghost spelled: { List ℕ → Option Self };

    /// The bytes that spell a row.
    ghost spelling: { Self → List ℕ };

    /// Whether a row is within its bounds: its text is UTF-8, and its bytes are at most 4,096.
    ghost is_within: { Self → Bool };

    /// The row that bytes spell, all of them. None exactly where no row does. Its text is copied once,
    /// and each byte is visited a few times.
    ///
    /// # Errors
    /// `OutOfMemory` where there was no memory for the text.
    fn decode(alloc: Global, bytes: &[u8]) -> Result<Option<Self>, OutOfMemory>
        ensures exact { IfOk result (λ found. found ≡ spelled bytes.now) }
        ensures within { IfOk result (λ found. IfSome found (λ row. is_within row ≡ true)) };

    /// The bytes that spell a row, which are decoded to it again.
    ///
    /// # Errors
    /// `OutOfMemory` where there was no memory for them.
    fn encode(&self, alloc: Global) -> Result<RowBytes, OutOfMemory>
        requires { is_within self.now ≡ true }
        ensures bytes { IfOk result (λ bytes. bytes ≡ spelling self.now) }
        ensures few { IfOk result (λ bytes. length bytes ≤ MAX_ROW_BYTES) }
        ensures back { IfOk result (λ bytes. spelled bytes ≡ Some self.now) };
}
