//! The nonces of a world's calls, in order.

ghost use Rattle.std.specs.Prelude.{◌≡◌, ◌||◌, OnOk, OnErr};
ghost use Rattle.crash_base.specs.declared.numbers.Version.{Version};
ghost use Rattle.crash_base.specs.Same.{same_version};
ghost use Rattle.ssm_world.specs.Nonces.{key_of, is_among};

use crash_base::{OutOfMemory, Version};
use std::collections::BTreeSet;

/// A nonce, ordered by node, of a node by boot, and of a boot by serial.
#[derive(Clone, Copy, PartialEq, Eq, PartialOrd, Ord)]
pub(crate) struct Nonce {
    node: u16,
    boot: u32,
    serial: u64,
}

/// A version as a nonce.
fn key_of(version: Version) -> Nonce
    ensures { result ≡ key_of version }
{
    Nonce {
        node: version.node,
        boot: version.boot,
        serial: version.serial,
    }
}

/// Whether a version is among these nonces. Its cost is the logarithm of their number.
pub(crate) fn is_among(nonces: &BTreeSet<Nonce>, version: Version) -> bool
    ensures { result ≡ is_among nonces.now version }
{
    nonces.contains(&key_of(version))
}

/// Adds a version to these nonces. Its cost is the logarithm of their number.
pub(crate) fn add(nonces: &mut BTreeSet<Nonce>, version: Version) -> Result<(), OutOfMemory>
    ensures ok { OnOk result ((other : Version)
        → is_among nonces.new other ≡ (same_version version other || is_among nonces.old other)) }
    ensures err { OnErr result ((other : Version) → is_among nonces.new other ≡ is_among nonces.old other) }
{
    nonces.insert(key_of(version))?;
    Ok(())
}
