//! The values of sessions.

ghost use Rattle.std.specs.Prelude.{◌≡◌, length, IfOk};
ghost use Rattle.auction_rows.specs.declared.session.TheConstants.{SESSION_BYTES};
ghost use Rattle.auction_rows.specs.Session.{session_bytes, session_user};

use crate::laws::sessions_read_back;
use byte_fields::{write_id, write_u64};
use crash_base::{Moment, OutOfMemory, SessionBytes, take_u64};
use std::alloc::Global;

/// How many bytes the value of a session has.
pub const SESSION_BYTES: usize = 16;

/// The value of a session of a user, which was set at this moment: the user and the moment in 8 bytes
/// each. User 0 is none.
///
/// # Errors
/// `OutOfMemory` where there was no memory for 16 bytes.
#[tactic(auto, unfolding(crate::specs::Session::session_bytes, crate::specs::Spelling::u64_bytes))]
pub fn encode_session(alloc: Global, user: u32, now: Moment) -> Result<SessionBytes, OutOfMemory>
    ensures bytes { IfOk result (λ value. value ≡ session_bytes user now.0) }
    ensures size { IfOk result (λ value. length value ≡ SESSION_BYTES) }
    ensures back { IfOk result (λ value. session_user value ≡ user) }
{
    let mut out = Vec::with_capacity(alloc, SESSION_BYTES)?;
    write_id(&mut out, user)?;
    write_u64(&mut out, now.0)?;
    sessions_read_back();
    Ok(SessionBytes::from_vec(out))
}

/// The user of a session with this value. A value of another size, or with a user over 4,294,967,295,
/// counts as that of user 0, which is none. It takes no memory.
#[tactic(auto, unfolding(crate::specs::Session::session_user))]
pub fn session_user(value: &[u8]) -> u32
    ensures { result ≡ session_user value.now }
{
    if value.len() != SESSION_BYTES {
        return 0;
    }
    match take_u64(value) {
        Some((user, _)) if user <= u64::from(u32::MAX) => user as u32,
        _ => 0,
    }
}
