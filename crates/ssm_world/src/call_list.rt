//! The calls of a world.

ghost use Rattle.std.specs.Prelude.{◌≡◌, ◌<◌, ◌++◌, ◌∷◌, [], length, not, option_map, slice_get, slice_set, Some, IfOk, OnOk, OnErr};
ghost use Rattle.std.specs.List.{list_any};
ghost use Rattle.crash_base.specs.Same.{same_version};
ghost use Rattle.ssm_world.specs.declared.call.Call.{Call};
ghost use Rattle.ssm_world.specs.Worlds.{nonce_of, ask_of, next_of, hear};

use crate::call::Call;
use crate::nonced_call::NoncedCall;
use crate::ordered_nonces::{Nonce, add, is_among};
use crash_base::{OutOfMemory, Version};
use ssm_frames::Frame;
use ssm_stub::{StubNext, Told};
use std::alloc::Global;
use std::collections::BTreeSet;
use std::marker::Model;

/// All calls, the first first, and their nonces.
#[derive(Drop)]
pub(crate) struct CallList {
    calls: Vec<NoncedCall>,
    nonces: BTreeSet<Nonce>,
}

impl Model for CallList {
    ghost use Rattle.std.specs.Prelude.{List};
    ghost use Rattle.ssm_world.specs.declared.call.Call.{Call};
    ghost use Rattle.ssm_world.specs.Nonces.{AreNonces};

    ghost Value = { List Call };

    ghost view = { λ l. l.calls.items };

    ghost invariant = { λ l. AreNonces l.nonces l.calls.items };
}

impl CallList {
    /// No call. It takes no memory.
    pub(crate) fn new(alloc: Global) -> CallList
        ensures { result ≡ [] }
    {
        CallList {
            calls: Vec::new(alloc),
            nonces: BTreeSet::new(alloc),
        }
    }

    /// How many calls there are. It takes no memory.
    pub(crate) fn len(&self) -> u64
        ensures { result ≡ length self.now }
    {
        self.calls.len() as u64
    }

    /// The call of this number, if there is one. It takes no memory.
    pub(crate) fn get(&self, call: u64) -> Option<&Call>
        ensures { option_map (λ c. c.now) result ≡ slice_get self.now call }
    {
        if call < self.calls.len() as u64 {
            Some(self.calls[call as usize].call())
        } else {
            None
        }
    }

    /// What the call of this number wants next, if there is one. It takes no memory.
    pub(crate) fn next_of(&self, call: u64) -> Option<StubNext>
        ensures { result ≡ option_map next_of (slice_get self.now call) }
    {
        if call < self.calls.len() as u64 {
            Some(self.calls[call as usize].next())
        } else {
            None
        }
    }

    /// Whether no call has this nonce. It takes no memory. Its cost is the logarithm of the number of calls.
    pub(crate) fn is_new(&self, nonce: Version) -> bool
        ensures { result ≡ not (list_any (λ (c : Call). same_version (nonce_of c) nonce) self.now) }
    {
        !is_among(&self.nonces, nonce)
    }

    /// A copy of the ask of the call of this number.
    pub(crate) fn ask(&self, alloc: Global, call: u64) -> Result<Frame, OutOfMemory>
        requires { call < length self.now }
        ensures { IfOk result (λ frame. (c : Call) → slice_get self.now call ≡ Some c → frame ≡ ask_of c) }
    {
        let frame = self.calls[call as usize].ask(alloc)?;
        Ok(frame)
    }

    /// Tells the call of this number what came. Where memory ran out, all are as they were.
    pub(crate) fn tell(&mut self, alloc: Global, call: u64, told: Told) -> Result<(), OutOfMemory>
        requires { call < length self.old }
        ensures ok { OnOk result ((c : Call) → slice_get self.old call ≡ Some c
            → self.new ≡ slice_set self.old call (hear c told)) }
        ensures err { OnErr result (self.new ≡ self.old) }
    {
        self.calls[call as usize].hear(alloc, told)
    }

    /// One call more, the last. Where memory ran out, all are as they were.
    pub(crate) fn push(&mut self, call: NoncedCall) -> Result<(), OutOfMemory>
        ensures ok { OnOk result (self.new ≡ self.old ++ call ∷ []) }
        ensures err { OnErr result (self.new ≡ self.old) }
    {
        self.calls.reserve(1)?;
        add(&mut self.nonces, call.nonce())?;
        self.calls.push_reserved(call);
        Ok(())
    }
}
