//! What a thread works with.

ghost use Rattle.std.specs.Prelude.{◌≡◌, ◌+◌, ◌≤◌, IfOk, vec_len};

use crate::gate::Gate;
use crash_base::{OutOfMemory, WorkerNo};
use std::alloc::Global;
use std::sync::Mutex;

/// What a thread works with.
#[derive(Drop)]
pub(crate) struct Tools<L: Drop, C: Drop, R: Drop> {
    pub link: L,
    pub clock: C,
    pub random: R,
}

/// The tools of one thread, which has them for as long as a boot lasts.
pub(crate) type ToolBox<G> = Mutex<Tools<<G as Gate>::L, <G as Gate>::C, <G as Gate>::R>>;

/// The tools of one thread.
fn take_tool<G: Gate>(gate: &G, worker: WorkerNo) -> Result<ToolBox<G>, OutOfMemory> {
    let (link, clock, random) = gate.tools(worker)?;
    Ok(Mutex::new(Tools {
        link,
        clock,
        random,
    }))
}

/// The tools of the threads 1 to `threads`, in order.
pub(crate) fn take_tools<G: Gate>(
    alloc: Global,
    gate: &G,
    threads: u32,
) -> Result<Vec<ToolBox<G>>, OutOfMemory>
    ensures { IfOk result (λ tools. vec_len tools ≡ threads) }
{
    let mut tools = Vec::new(alloc);
    for number in 0..threads {
        tools.push(take_tool(gate, WorkerNo(number + 1))?)?;
    }
    Ok(tools)
}
