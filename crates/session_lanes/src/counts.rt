//! What is counted of all calls.

ghost use Rattle.std.specs.Prelude.{◌≡◌, IfOk};
ghost use lib.ListN.{replicate};
ghost use Rattle.session_lanes.specs.Counts.{new_counts, silences_of, silent_by, frame_got};

use crash_base::OutOfMemory;
use outside::LinkCounts;
use std::alloc::Global;
use std::marker::Model;

/// How often each brick was silent to a call, in order of number, and how often a number without a brick was; how often
/// any was; and how many frames calls heard.
#[derive(Drop)]
pub(crate) struct Counts {
    silences: Vec<u64>,
    unknown: u64,
    hushed: u64,
    got: u64,
}

impl Model for Counts {
    ghost use Rattle.session_lanes.specs.Counts.{CountsState};

    ghost Value = { CountsState };

    ghost view = { λ c. record { silences = c.silences.items; unknown = c.unknown; hushed = c.hushed; got = c.got } };
}

/// So many counts, each 0.
fn zeros(alloc: Global, bricks: u16) -> Result<Vec<u64>, OutOfMemory>
    ensures { IfOk result (λ counts. counts.items ≡ replicate bricks 0) }
{
    let mut counts = Vec::with_capacity(alloc, bricks as usize)?;
    for _ in 0..bricks {
        counts.push(0)?;
    }
    Ok(counts)
}

impl Counts {
    /// The counts of so many bricks before any call.
    pub(crate) fn new(alloc: Global, bricks: u16) -> Result<Counts, OutOfMemory>
        ensures { IfOk result (λ counts. counts ≡ new_counts bricks) }
    {
        let silences = zeros(alloc, bricks)?;
        Ok(Counts {
            silences,
            unknown: 0,
            hushed: 0,
            got: 0,
        })
    }

    /// How often the brick of a number was silent. All numbers without a brick have one count.
    pub(crate) fn silences(&self, brick: u64) -> u64
        ensures { result ≡ silences_of self.now brick }
    {
        if brick == 0 || brick > self.silences.len() as u64 {
            return self.unknown;
        }
        self.silences[brick as usize - 1]
    }

    /// The silences over all numbers, and the frames that calls heard.
    pub(crate) fn sums(&self) -> LinkCounts
        ensures hushed { result.hushed ≡ self.now.hushed }
        ensures got { result.got ≡ self.now.got }
    {
        LinkCounts {
            hushed: self.hushed,
            got: self.got,
        }
    }

    /// The brick of a number was silent once more.
    pub(crate) fn silence(&mut self, brick: u64)
        ensures { self.new ≡ silent_by brick self.old }
    {
        self.hushed = self.hushed.saturating_add(1);
        if brick == 0 || brick > self.silences.len() as u64 {
            self.unknown = self.unknown.saturating_add(1);
            return;
        }
        let place = brick as usize - 1;
        self.silences[place] = self.silences[place].saturating_add(1);
    }

    /// A call heard one frame more.
    pub(crate) fn frame(&mut self)
        ensures { self.new ≡ frame_got self.old }
    {
        self.got = self.got.saturating_add(1);
    }
}
