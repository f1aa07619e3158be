//! The key of the service.

ghost use Rattle.std.specs.Prelude.{◌≡◌, ◌≤◌, true, false, IfOk, IfSome, OnOk};
ghost use Rattle.outside.specs.Faults.{Rose};
ghost use Rattle.outside.specs.Source.{prepended, HasEnded};
ghost use Rattle.serve_command.specs.Keys.{is_key};

use crash_base::InputBytes;
use outside::{InputRefusal, Source, read_to_end};
use std::alloc::Global;

/// The fewest bytes of a key.
pub const MIN_KEY_BYTES: usize = 16;

/// The most bytes of a key.
pub const MAX_KEY_BYTES: usize = 1024;

/// Why there is no key.
#[derive(Clone, Copy, Debug, PartialEq)]
pub enum KeyFault {
    /// There are fewer than 16 bytes, or more than 1,024.
    Length,
    /// A read failed, and the source counted a fault.
    Failed,
    /// The allocator had no memory.
    OutOfMemory,
}

/// Whether bytes may be a key.
fn is_key(bytes: &[u8]) -> bool
    ensures { result ≡ is_key bytes.now }
{
    MIN_KEY_BYTES <= bytes.len() && bytes.len() <= MAX_KEY_BYTES
}

/// The key: all bytes that are left of a source.
///
/// # Errors
/// `Length` exactly where these are fewer than 16 or more than 1,024, as far as the source tells and no read fails.
/// `Failed` only where its count of faults rose.
pub fn read_key<S: Source>(alloc: Global, source: &mut S) -> Result<InputBytes, KeyFault>
    ensures key { IfOk result (λ key. is_key key ≡ true) }
    ensures read { IfOk result (λ key. S.left source.old ≡ prepended key (S.left source.new)) }
    ensures whole { OnOk result (HasEnded (S.left source.new)) }
    ensures refused { result ≡ Err KeyFault.Length → IfSome (S.left source.old) (λ bytes. is_key bytes ≡ false) }
    ensures failed { result ≡ Err KeyFault.Failed → Rose (S.faults source.old) (S.faults source.new) }
    ensures count { S.faults source.old ≤ S.faults source.new }
{
    match read_to_end(alloc, source, MAX_KEY_BYTES) {
        Ok(key) => {
            if is_key(key.as_slice()) {
                Ok(key)
            } else {
                Err(KeyFault::Length)
            }
        }
        Err(InputRefusal::TooLong) => Err(KeyFault::Length),
        Err(InputRefusal::Failed) => Err(KeyFault::Failed),
        Err(InputRefusal::OutOfMemory) => Err(KeyFault::OutOfMemory),
    }
}
