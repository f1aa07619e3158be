//! When a restart is planned.

ghost use Rattle.std.specs.Prelude.{◌≡◌, ◌≤◌};
ghost use Rattle.container_server.specs.Planning.{is_full_to, is_restart_due};

use container_core::{FullAt, MAX_ENTRIES, MAX_JOURNAL_BYTES};

/// Whether a journal has so many parts or more of 32 of what it may have, in entries or in bytes.
fn is_full_to(full: FullAt, parts: u64) -> bool
    requires { parts ≤ 32 }
    ensures { result ≡ is_full_to full parts }
{
    full.entries >= MAX_ENTRIES / 32 * parts || full.bytes >= MAX_JOURNAL_BYTES / 32 * parts
}

/// Whether the container is to be stopped, to be started again with an empty journal, by how full its journal is and
/// how many requests are inside: from 7/8 of its entries or bytes on once no request is inside, and from 31/32 on at
/// once.
pub fn is_restart_due(full: FullAt, inside: u64) -> bool
    ensures { result ≡ is_restart_due full inside }
{
    is_full_to(full, 31) || (is_full_to(full, 28) && inside == 0)
}
