//! A call of a link at a time.

ghost use Rattle.std.specs.Prelude.{◌≡◌, ◌≢◌, ℕ, ◌≤◌, List, [], ◌∷◌, ◌++◌, length, OnOk, OnErr};
ghost use Rattle.crash_base.specs.declared.items.TheConstants.{MAX_FRAME_BYTES};
ghost use Rattle.outside.specs.declared.link.LinkEvent.{LinkEvent};
ghost use Rattle.outside.specs.Link.{Made};
ghost use Rattle.ssm_stub.specs.declared.event.StubEvent.{StubEvent};
ghost use Rattle.ssm_stub.specs.Reads.{ReadState, read_next, read_machine};
ghost use Rattle.ssm_stub.specs.Runs.{BreaksOff, Ran, Steps};
ghost use Rattle.ssm_stub.specs.Writes.{WriteState, write_next, write_machine, write_until};

use crate::event::StubNext;
use crate::exchange::{read_once, write_once};
use crate::read_call::ReadCall;
use crate::write_call::WriteCall;
use crash_base::{FrameBytes, OutOfMemory};
use outside::Link;
use std::alloc::Global;

/// Makes the call of the link that a write wants, and tells the write what came of it: one send of `ask`, which is to
/// be the bytes of `frame`, or one receive. `into` is room for what is received, and holds anything after. A write that
/// goes on so hears all its bricks, those too that are left at its answer, so that all its passes are settled where it
/// wants nothing more.
///
/// # Errors
/// There is no memory. The write is as it was; the link may have made the call.
pub fn write_step<L: Link>(
    alloc: Global,
    link: &mut L,
    call: &mut WriteCall,
    ask: &[u8],
    into: &mut FrameBytes,
) -> Result<(), OutOfMemory>
    requires wanted { write_next call.old ≢ StubNext.Ended }
    requires some { 1 ≤ length ask.now }
    requires few { length ask.now ≤ MAX_FRAME_BYTES }
    ensures step { OnOk result (Steps write_machine L.makes ask.now call.old link.old call.new link.new) }
    ensures same { OnErr result (call.new ≡ call.old) }
    ensures want { OnErr result (BreaksOff L.makes ask.now (write_next call.old) link.old link.new) }
{
    let next = call.next();
    write_once(alloc, link, call, next, ask, into)
}

/// Makes the call of the link that a read wants, and tells the read what came of it: one send of `ask`, which is to be
/// the bytes of `frame`, or one receive. `into` is room for what is received, and holds anything after.
///
/// # Errors
/// There is no memory. The read is as it was; the link may have made the call.
pub fn read_step<L: Link>(
    alloc: Global,
    link: &mut L,
    call: &mut ReadCall,
    ask: &[u8],
    into: &mut FrameBytes,
) -> Result<(), OutOfMemory>
    requires wanted { read_next call.old ≢ StubNext.Ended }
    requires some { 1 ≤ length ask.now }
    requires few { length ask.now ≤ MAX_FRAME_BYTES }
    ensures step { OnOk result (Steps read_machine L.makes ask.now call.old link.old call.new link.new) }
    ensures same { OnErr result (call.new ≡ call.old) }
    ensures want { OnErr result (BreaksOff L.makes ask.now (read_next call.old) link.old link.new) }
{
    let next = call.next();
    read_once(alloc, link, call, next, ask, into)
}

/// Runs join: a step is a run, a run that goes on where another ended makes one run with it, and a write's
/// run up to its answer is one of the write that goes on. So what steps come to is what the laws of runs say.
/// It refuses a run that forgets a call of the link or an event at the place where it was cut.
pub fn runs_join<L: Link>(_link: &L)
    ensures made { (old mid new : L) (first more : List LinkEvent)
        → Made L.makes old first mid → Made L.makes mid more new → Made L.makes old (first ++ more) new }
    ensures write_once { (ask : List ℕ) (start end : WriteState) (old new : L)
        → (step : Steps write_machine L.makes ask start old end new)
        → Ran write_machine L.makes ask start old (step.event ∷ []) end new }
    ensures write { (ask : List ℕ) (start mid end : WriteState) (old reached new : L) (first more : List StubEvent)
        → Ran write_machine L.makes ask start old first mid reached
        → Ran write_machine L.makes ask mid reached more end new
        → Ran write_machine L.makes ask start old (first ++ more) end new }
    ensures answered { (ask : List ℕ) (start end : WriteState) (old new : L) (events : List StubEvent)
        → Ran write_until L.makes ask start old events end new
        → Ran write_machine L.makes ask start old events end new }
    ensures read_once { (ask : List ℕ) (start end : ReadState) (old new : L)
        → (step : Steps read_machine L.makes ask start old end new)
        → Ran read_machine L.makes ask start old (step.event ∷ []) end new }
    ensures read { (ask : List ℕ) (start mid end : ReadState) (old reached new : L) (first more : List StubEvent)
        → Ran read_machine L.makes ask start old first mid reached
        → Ran read_machine L.makes ask mid reached more end new
        → Ran read_machine L.makes ask start old (first ++ more) end new }
{}
