//! The sessions of a scenario.

ghost use Rattle.std.specs.Prelude.{◌≡◌, ◌≤◌, true, [], None, IfOk, OnErr};
ghost use Rattle.scenario_text.specs.Answer.{KeepsRefused, answer_of};
ghost use Rattle.scenario_text.specs.Setup.{are_counts};
ghost use Rattle.session_lanes.specs.Lanes.{new_lanes};
ghost use Rattle.session_steps.specs.Sessions.{reopened, session_line};
ghost use Rattle.session_steps.specs.Setup.{service_key, set_up};

use crate::parts::Parts;
use crash_base::{Moment, OutOfMemory};
use scenario_text::{BrickCounts, HexBytes, LineAnswer, SessionLine, Setup};
use session_lanes::Lanes;
use std::alloc::Global;
use std::marker::Model;

/// How long a cookie may be used after its value was written, in milliseconds.
pub const LEASE: u64 = 1_800_000;

/// The last moment that a scenario may have.
pub const MAX_MOMENT: u64 = (1 << 62) - 1;

/// How many zero bytes the key of the service is where none is given.
pub const DEFAULT_KEY_BYTES: usize = 32;

/// The number of the node, which is part of each version.
pub const NODE: u16 = 1;

/// The sessions of a scenario: the present moment, the key of the service, the cookie of each session key, and the
/// bricks, if there are some.
#[derive(Drop)]
pub struct Sessions {
    pub(crate) parts: Parts,
}

impl Model for Sessions {
    ghost use Rattle.session_steps.specs.Kept.{IsSessions};
    ghost use Rattle.session_steps.specs.Sessions.{SessionsState};

    ghost Value = { SessionsState };

    ghost view = { λ s. s.parts };

    ghost invariant = { λ s. IsSessions s.parts };
}

/// The key of the service: 32 zero bytes where none is given.
fn service_key(alloc: Global, key: Option<HexBytes>) -> Result<Vec<u8>, OutOfMemory>
    ensures { IfOk result (λ bytes. bytes.items ≡ service_key key) }
{
    match key {
        Some(key) => Ok(key.into_vec()),
        None => Ok(Vec::from_slice(alloc, &[0; DEFAULT_KEY_BYTES])?),
    }
}

/// New bricks of these counts.
fn new_lanes(alloc: Global, counts: BrickCounts) -> Result<Lanes, OutOfMemory>
    requires { are_counts counts.bricks counts.most counts.least ≡ true }
    ensures { IfOk result (λ st. st ≡ new_lanes counts.bricks counts.most counts.least) }
{
    let BrickCounts {
        bricks,
        most,
        least,
    } = counts;
    let lanes = Lanes::new(alloc, bricks, most, least)?;
    Ok(lanes)
}

/// The parts of sessions before the first line about them.
fn set_up(alloc: Global, setup: Setup) -> Result<Parts, OutOfMemory>
    ensures { IfOk result (λ parts. parts ≡ set_up setup 0) }
{
    let (counts, key) = setup.into_parts();
    let key = service_key(alloc, key)?;
    let store = match counts {
        None => None,
        Some(counts) => Some(new_lanes(alloc, counts)?),
    };
    Ok(Parts {
        moment: Moment(0),
        boot: 0,
        serial: 0,
        key,
        cookies: Vec::new(alloc),
        store,
    })
}

impl Sessions {
    /// Sessions before the first line about them, in boot 0: no cookie, and the present moment is 0. It visits each
    /// brick.
    pub fn new(alloc: Global, setup: Setup) -> Result<Sessions, OutOfMemory>
        ensures { IfOk result (λ s. s ≡ set_up setup 0) }
    {
        let parts = set_up(alloc, setup)?;
        Ok(Sessions { parts })
    }

    /// The boot of this number has started: its serials begin at 0, and all else stays. It takes no memory.
    pub fn reopen(&mut self, boot: u32)
        ensures { self.new ≡ reopened self.old boot }
    {
        self.parts.boot = boot;
        self.parts.serial = 0;
    }

    /// The present moment.
    pub fn moment(&self) -> Moment
        ensures moment { result ≡ self.now.moment }
        ensures in_time { result.0 ≤ MAX_MOMENT }
    {
        self.parts.moment
    }

    /// The key of the service.
    pub fn key(&self) -> &[u8]
        ensures { result.now ≡ self.now.key }
    {
        &self.parts.key
    }

    /// A line about sessions. It visits each brick a few times; a write and a fetch cost what their turns do, of which
    /// there are at most 66 for each brick that is asked, and a sweep and a crash visit each value of the brick. What a
    /// write or a fetch costs grows with the logarithm of the number of writes and fetches before.
    ///
    /// # Errors
    /// Out of memory, after which the present moment is 0, and no bricks and no cookies are left.
    pub fn step(&mut self, alloc: Global, line: SessionLine) -> Result<LineAnswer, OutOfMemory>
        ensures answer { IfOk result (λ a. answer_of a self.new ≡ session_line self.old line) }
        ensures refused { IfOk result (λ a. KeepsRefused a self.old self.new) }
        ensures err { OnErr result ((self.new.moment.0 ≡ 0) × (self.new.cookies ≡ []) × (self.new.store ≡ None)) }
    {
        match self.parts.line(alloc, line) {
            Ok(answer) => Ok(answer),
            Err(OutOfMemory) => {
                self.parts.forget();
                Err(OutOfMemory)
            }
        }
    }
}
