//! Whether two keys or two versions are the same.

ghost use Rattle.std.specs.Prelude.{◌≡◌};
ghost use Rattle.crash_base.specs.Same.{same_key, same_version};

use crate::numbers::{SessionKey, Version};

/// Whether both are the same key. It compares at most 16 bytes, and takes no memory.
pub fn is_same_key(a: SessionKey, b: SessionKey) -> bool
    ensures { result ≡ same_key a b }
{
    a.0 == b.0
}

/// Whether both are the same version. It takes no memory.
pub fn is_same_version(a: Version, b: Version) -> bool
    ensures { result ≡ same_version a b }
{
    a.node == b.node && (a.boot == b.boot && a.serial == b.serial)
}
