//! How long a session lasts, and when it is written anew.

ghost use Rattle.std.specs.Prelude.{◌≡◌, ◌<◌, ◌^◌, IfOk};
ghost use Rattle.std.specs.Option.{option_map};
ghost use Rattle.session_way.specs.Lease.{expiry_at, is_due, value_to_write};

use crash_base::{Moment, OutOfMemory, SessionBytes, SessionKey};
use std::alloc::{AllocFailed, Global};

/// How long a cookie may be used after its value was written, in milliseconds.
pub const LEASE: u64 = 1_800_000;

/// A session that an action keeps is written again where less than this is left of its lease, in milliseconds.
pub const RENEWAL: u64 = 900_000;

/// A session as it was read: its value, and the key and the expiry of the cookie by which it was read.
#[derive(Drop)]
pub struct SessionLease {
    pub key: SessionKey,
    pub value: SessionBytes,
    pub expiry: Moment,
}

/// The expiry of a cookie whose value is written for a request of this moment.
pub fn expiry_at(now: Moment) -> Moment
    requires { now.0 < 2 ^ 62 }
    ensures { result ≡ expiry_at now }
{
    Moment(now.0 + LEASE)
}

/// Whether less than `RENEWAL` is left of a lease. It takes no memory.
fn is_due(now: Moment, expiry: Moment) -> bool
    ensures { result ≡ is_due now expiry }
{
    expiry.0.saturating_sub(now.0) < RENEWAL
}

/// A copy of a value.
fn copied(alloc: Global, value: &SessionBytes) -> Result<SessionBytes, OutOfMemory>
    ensures { IfOk result (λ copy. copy ≡ value.now) }
{
    let copy = Vec::from_slice(alloc, value.as_slice())?;
    Ok(SessionBytes::from_vec(copy))
}

/// A copy of the value that is written after an action, if one is: the value that the action sets; or where it sets
/// none, the value of the session that was read, where less than `RENEWAL` is left of its lease.
///
/// # Errors
/// There is no memory for the copy.
pub fn value_to_write(
    alloc: Global,
    set: Option<&SessionBytes>,
    now: Moment,
    lease: Option<&SessionLease>,
) -> Result<Option<SessionBytes>, OutOfMemory>
    ensures { IfOk result (λ value. value
        ≡ value_to_write (option_map (λ v. v.now) set.entry) now (option_map (λ l. l.now) lease.entry)) }
{
    match set {
        Some(value) => Ok(Some(copied(alloc, value)?)),
        None => match lease {
            None => Ok(None),
            Some(lease) => {
                if is_due(now, lease.expiry) {
                    Ok(Some(copied(alloc, &lease.value)?))
                } else {
                    Ok(None)
                }
            }
        },
    }
}
