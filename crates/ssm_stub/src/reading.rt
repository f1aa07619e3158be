//! A read over a link.

ghost use Rattle.std.specs.Prelude.{◌≡◌, ◌≢◌, ◌↔◌, ◌<◌, ◌≤◌, Some, Err, length, IfOk};
ghost use Rattle.crash_base.specs.declared.items.TheConstants.{MAX_FRAME_BYTES};
ghost use Rattle.ssm_frames.specs.Spelling.{encode_of};
ghost use Rattle.ssm_stub.specs.Ends.{ReadEnds, ReadStops};
ghost use Rattle.ssm_stub.specs.Reads.{read_start, read_ask, read_answer, read_next};

use crate::event::StubNext;
use crate::exchange::read_out;
use crate::read_call::{ReadCall, ReadRefusal, begin_read};
use crash_base::{FrameBytes, Moment, OutOfMemory, SessionBytes, Version};
use outside::Link;
use session_cookie::Cookie;
use std::alloc::Global;

/// A read of which nothing was sent, and the bytes of its ask.
#[derive(Drop)]
struct BegunRead {
    call: ReadCall,
    ask: FrameBytes,
}

fn begin(
    alloc: Global,
    now: Moment,
    nonce: Version,
    cookie: &Cookie,
) -> Result<BegunRead, OutOfMemory>
    ensures call { IfOk result (λ begun. begun.call ≡ read_start now nonce cookie.now) }
    ensures ask { IfOk result (λ begun. begun.ask ≡ encode_of (read_ask (read_start now nonce cookie.now))) }
    ensures some { IfOk result (λ begun. 1 ≤ length begun.ask) }
    ensures few { IfOk result (λ begun. length begun.ask ≤ MAX_FRAME_BYTES) }
{
    let call = begin_read(alloc, now, nonce, cookie)?;
    let ask = call.frame(alloc)?;
    Ok(BegunRead { call, ask })
}

/// The answer of a read that wants nothing more.
fn conclude_read(call: ReadCall) -> Result<SessionBytes, ReadRefusal>
    requires { read_next call ≡ StubNext.Ended }
    ensures { read_answer call ≡ Some result }
{
    match call.into_answer() {
        Some(answer) => answer,
        None => unreachable!(),
    }
}

/// Asks the bricks of a cookie and hears them, one after another, until one has the value. It copies the
/// value that was found twice.
///
/// # Errors
/// `Expired` exactly where the moment is past the expiry; nothing is sent then, and no memory taken.
/// `Lost` where each brick of the cookie has its cause. `OutOfMemory`.
pub fn read<L: Link>(
    alloc: Global,
    link: &mut L,
    now: Moment,
    nonce: Version,
    cookie: &Cookie,
) -> Result<SessionBytes, ReadRefusal>
    ensures expired { (result ≡ Err (ReadRefusal.Expired now cookie.now.expiry)) ↔ (cookie.now.expiry.0 < now.0) }
    ensures unsent { cookie.now.expiry.0 < now.0 → link.new ≡ link.old }
    ensures ends { result ≢ Err ReadRefusal.OutOfMemory
        → ReadEnds L.makes (read_start now nonce cookie.now) link.old link.new result }
    ensures stops { result ≡ Err ReadRefusal.OutOfMemory
        → ReadStops L.makes (read_start now nonce cookie.now) link.old link.new }
{
    if cookie.expiry.0 < now.0 {
        return Err(ReadRefusal::Expired {
            now,
            expiry: cookie.expiry,
        });
    }
    let mut begun = match begin(alloc, now, nonce, cookie) {
        Ok(begun) => begun,
        Err(OutOfMemory) => return Err(ReadRefusal::OutOfMemory),
    };
    match read_out(alloc, link, &mut begun.call, begun.ask.as_slice()) {
        Ok(()) => conclude_read(begun.call),
        Err(OutOfMemory) => Err(ReadRefusal::OutOfMemory),
    }
}
