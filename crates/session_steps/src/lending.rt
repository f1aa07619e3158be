//! Lending the bricks and the serials to connections.

ghost use Rattle.std.specs.Prelude.{◌≡◌, ◌≤◌};
ghost use Rattle.session_steps.specs.Kept.{HasSoundStore};
ghost use Rattle.session_steps.specs.Lent.{put_back, lent_out};

use crate::parts::Parts;
use crate::sessions::{MAX_MOMENT, Sessions};
use crash_base::Moment;
use session_cookie::Cookie;
use session_lanes::Lanes;
use std::marker::Model;

/// Sessions whose bricks and serials are lent: the present moment, the number of the boot, the key of the service, and
/// the cookie of each session key.
#[derive(Drop)]
pub struct LentSessions {
    moment: Moment,
    boot: u32,
    key: Vec<u8>,
    cookies: Vec<Option<Cookie>>,
}

impl Model for LentSessions {
    ghost use Rattle.session_steps.specs.Kept.{IsLent};
    ghost use Rattle.session_steps.specs.Lent.{LentSessionsState};

    ghost Value = { LentSessionsState };

    ghost view = { λ l. record { moment = l.moment; boot = l.boot; key = l.key.items; cookies = l.cookies.items } };

    ghost invariant = { λ l. IsLent (record { moment = l.moment; boot = l.boot; key = l.key.items; cookies = l.cookies.items }) };
}

impl Sessions {
    /// The bricks, if there are some, and the serial that is drawn next, so that they can be lent to connections, and
    /// the sessions without them. It takes no memory.
    pub fn lend(self) -> (LentSessions, Option<Lanes>, u64)
        ensures sessions { result.0 ≡ lent_out self }
        ensures store { result.1 ≡ self.store }
        ensures serial { result.2 ≡ self.serial }
        ensures sound { HasSoundStore result.1 }
    {
        let Sessions { parts } = self;
        let Parts {
            moment,
            boot,
            serial,
            key,
            cookies,
            store,
        } = parts;
        let lent = LentSessions {
            moment,
            boot,
            key,
            cookies,
        };
        (lent, store, serial)
    }
}

impl LentSessions {
    /// The present moment.
    pub fn moment(&self) -> Moment
        ensures moment { result ≡ self.now.moment }
        ensures in_time { result.0 ≤ MAX_MOMENT }
    {
        self.moment
    }

    /// The number of the boot, of which the nonces of connections are.
    pub fn boot(&self) -> u32
        ensures { result ≡ self.now.boot }
    {
        self.boot
    }

    /// The key of the service.
    pub fn key(&self) -> &[u8]
        ensures { result.now ≡ self.now.key }
    {
        &self.key
    }

    /// The sessions with sound bricks, if there are some, and the serial that is drawn next: what was lent, whatever
    /// connections did with it. Where they drew from `PlainSerials`, one more draw tells that serial, `Ok` or spent,
    /// and it is put back. It takes no memory.
    pub fn put_back(self, store: Option<Lanes>, serial: u64) -> Sessions
        requires { HasSoundStore store }
        ensures { result ≡ put_back self store serial }
    {
        let LentSessions {
            moment,
            boot,
            key,
            cookies,
        } = self;
        let parts = Parts {
            moment,
            boot,
            serial,
            key,
            cookies,
            store,
        };
        Sessions { parts }
    }
}
