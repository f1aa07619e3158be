//! Windows on what is sent to each brick at once.

ghost use Rattle.std.specs.Prelude.{◌≡◌, ◌≤◌, [], ◌∷◌, ◌++◌, IsTrue, Some, IfOk, OnOk, OnErr, IfErr};
ghost use mathlib.Core.List.{IsPrefix};
ghost use Rattle.send_windows.specs.declared.fact.TheConstants.{MAX_BRICKS};
ghost use Rattle.send_windows.specs.declared.history.WindowMark.TheVariants.{Refused};
ghost use Rattle.send_windows.specs.declared.pass.PassMark.TheVariants.{Answered, Silent};
ghost use Rattle.send_windows.specs.Passes.{with_mark, AreHeard};
ghost use Rattle.send_windows.specs.Facts.{open_count, full_facts};
ghost use Rattle.send_windows.specs.Windows.{new_windows, HasBrick, KeepLimits, window_in, in_flight_in, pass_tried, after_try, chosen, taken, AreTaken, RefusedAs, after_pass, after_spend};

use crate::fact::{WindowFact, WindowList};
use crate::facts::{
    fact_of, first_facts, full_facts, give_all, open_pass, open_passes, spend_all, spend_one,
};
use crate::history::{MarkRoom, Marks, WindowMark};
use crate::pass::{Pass, PassMark};
use crate::pass_list::{PassList, PassParts};
use crash_base::{BrickNo, OutOfMemory};
use std::alloc::Global;
use std::marker::Model;

/// Why no passes were given.
#[derive(Drop)]
pub enum TakeRefusal {
    /// Fewer than `wq` windows are open. Each full brick is listed, in order of number.
    Overload(WindowList),
    /// There is no memory.
    OutOfMemory,
}

impl From<OutOfMemory> for TakeRefusal {
    ghost use Rattle.send_windows.specs.declared.windows.TakeRefusal.TheVariants.{OutOfMemory};

    ghost from_gives = { λ _ refusal. refusal ≡ OutOfMemory };

    fn from(_want: OutOfMemory) -> TakeRefusal {
        TakeRefusal::OutOfMemory
    }
}

/// Windows on bricks 1 to n.
#[derive(Drop)]
pub struct Windows {
    w: u16,
    wq: u16,
    holds: bool,
    facts: Vec<WindowFact>,
    history: Marks,
}

impl Model for Windows {
    ghost use Rattle.send_windows.specs.Windows.{WindowsValue, KeepLimits};

    ghost Value = { WindowsValue };

    ghost view = { λ a. record { w = a.w; wq = a.wq; holds = a.holds; facts = a.facts.items; history = a.history } };

    ghost invariant = { λ a. KeepLimits (record { w = a.w; wq = a.wq; holds = a.holds; facts = a.facts.items; history = a.history }) };
}

/// Those whose windows are full, after the history was told that passes were refused.
fn refuse(
    alloc: Global,
    facts: &[WindowFact],
    history: &mut Marks,
) -> Result<WindowList, OutOfMemory>
    ensures full { IfOk result (λ full. full ≡ full_facts facts.now) }
    ensures mark { OnOk result (history.new ≡ history.old ++ Refused ∷ []) }
    ensures err { OnErr result (history.new ≡ history.old) }
{
    let full = full_facts(alloc, facts)?;
    let room = MarkRoom::new(alloc)?;
    history.put(room, WindowMark::Refused);
    Ok(WindowList::from_vec(full))
}

impl Windows {
    /// Windows on bricks 1 to n, none of which was sent anything. `take` gives at most `w` passes and
    /// at least `wq`; `holds` says whether `try_pass` may be called. It touches each brick once.
    pub fn new(
        alloc: Global,
        bricks: u16,
        w: u16,
        wq: u16,
        holds: bool,
    ) -> Result<Windows, OutOfMemory>
        requires some { 1 ≤ wq }
        requires enough { wq ≤ w }
        requires within { w ≤ bricks }
        requires few { bricks ≤ MAX_BRICKS }
        ensures { IfOk result (λ windows. windows ≡ new_windows bricks w wq holds) }
    {
        let facts = first_facts(alloc, bricks)?;
        let room = MarkRoom::new(alloc)?;
        let mut history = Marks::new();
        let opened = WindowMark::Opened {
            bricks,
            w,
            wq,
            holds,
        };
        history.put(room, opened);
        Ok(Windows {
            w,
            wq,
            holds,
            facts,
            history,
        })
    }

    /// The most passes that `take` gives. It takes no memory.
    pub fn w(&self) -> u16
        ensures { result ≡ self.now.w }
    {
        self.w
    }

    /// The fewest passes that `take` gives. It takes no memory.
    pub fn wq(&self) -> u16
        ensures { result ≡ self.now.wq }
    {
        self.wq
    }

    /// Whether `try_pass` may be called. It takes no memory.
    pub fn holds(&self) -> bool
        ensures { result ≡ self.now.holds }
    {
        self.holds
    }

    /// Each brick with its window, in order of number. It takes no memory.
    pub fn facts(&self) -> &[WindowFact]
        ensures facts { result.now ≡ self.now.facts }
        ensures limits { KeepLimits self.now }
    {
        self.facts.as_slice()
    }

    /// The window of a brick. It visits the bricks up to it, and takes no memory.
    pub fn window(&self, brick: BrickNo) -> u64
        requires { HasBrick self.now brick }
        ensures { Some result ≡ window_in self.now brick }
    {
        match fact_of(&self.facts, brick) {
            Some(fact) => fact.window,
            None => 0,
        }
    }

    /// How many passes to a brick are in flight: given and not yet spent. It visits the bricks up to it, and takes no
    /// memory.
    pub fn in_flight(&self, brick: BrickNo) -> u64
        requires { HasBrick self.now brick }
        ensures { Some result ≡ in_flight_in self.now brick }
    {
        match fact_of(&self.facts, brick) {
            Some(fact) => fact.in_flight,
            None => 0,
        }
    }

    /// A pass to a brick; None exactly where its window is full: as many are in flight as it, or more. It
    /// adds no mark to the history. It visits each brick twice, and takes no memory.
    #[tactic(auto, using(crate::proofs::Growing::begins_itself, crate::proofs::Growing::begins_more))]
    pub fn try_pass(&mut self, brick: BrickNo) -> Option<Pass>
        requires held { IsTrue self.old.holds }
        requires known { HasBrick self.old brick }
        ensures pass { result ≡ pass_tried self.old brick }
        ensures after { self.new ≡ after_try self.old brick }
        ensures grown { IsPrefix self.old.history self.new.history }
    {
        match open_pass(&self.facts, brick) {
            Some(pass) => {
                give_all(&mut self.facts, &[pass]);
                Some(pass)
            }
            None => None,
        }
    }

    /// A pass to each of the first `w` bricks whose windows are open, gone round from number
    /// (`first` mod n) + 1. The history is told how many, or that they were refused. It visits each
    /// brick a few times.
    ///
    /// # Errors
    /// `Overload` exactly where fewer than `wq` windows are open. `OutOfMemory`, after which nothing
    /// changed.
    #[tactic(auto, using(crate::proofs::Growing::begins_itself, crate::proofs::Growing::begins_more))]
    pub fn take(&mut self, alloc: Global, first: u64) -> Result<PassList, TakeRefusal>
        ensures passes { IfOk result (λ passes. passes ≡ chosen self.old first) }
        ensures lawful { IfOk result (AreTaken self.old.wq self.old.w) }
        ensures after { OnOk result (self.new ≡ taken self.old (chosen self.old first)) }
        ensures enough { OnOk result (self.old.wq ≤ open_count self.old.facts) }
        ensures err { IfErr result (RefusedAs self.old self.new) }
        ensures grown { IsPrefix self.old.history self.new.history }
    {
        let mut passes = open_passes(alloc, &self.facts, first)?;
        if passes.len() < self.wq as usize {
            let full = refuse(alloc, &self.facts, &mut self.history)?;
            return Err(TakeRefusal::Overload(full));
        }
        passes.truncate(self.w as usize);
        let taken = MarkRoom::new(alloc)?;
        let room = MarkRoom::new(alloc)?;
        give_all(&mut self.facts, &passes);
        self.history
            .put(taken, WindowMark::Taken(passes.len() as u64));
        Ok(PassList::new(passes, room))
    }

    /// Spends a single pass that was answered, whatever its mark: the window grows by one, to at most
    /// 64, and one less is in flight. A pass of a brick that is not one of these changes nothing. It
    /// adds no mark to the history. It visits each brick, and takes no memory.
    #[tactic(auto, using(crate::proofs::Growing::begins_itself, crate::proofs::Growing::begins_more))]
    pub fn answered(&mut self, pass: Pass)
        ensures after { self.new ≡ after_pass self.old (with_mark pass Answered) }
        ensures grown { IsPrefix self.old.history self.new.history }
    {
        spend_one(
            &mut self.facts,
            Pass {
                brick: pass.brick,
                mark: PassMark::Answered,
            },
        );
    }

    /// Spends a single pass that met silence, whatever its mark: the window is halved, to at least 1,
    /// and one less is in flight. A pass of a brick that is not one of these changes nothing. It adds
    /// no mark to the history. It visits each brick, and takes no memory.
    #[tactic(auto, using(crate::proofs::Growing::begins_itself, crate::proofs::Growing::begins_more))]
    pub fn silent(&mut self, pass: Pass)
        ensures after { self.new ≡ after_pass self.old (with_mark pass Silent) }
        ensures grown { IsPrefix self.old.history self.new.history }
    {
        spend_one(
            &mut self.facts,
            Pass {
                brick: pass.brick,
                mark: PassMark::Silent,
            },
        );
    }

    /// Spends passes that were taken together, each by its mark, the first first, and marks in the
    /// history that they were spent. It visits each brick for each pass, and takes no memory.
    #[tactic(auto, using(crate::proofs::Growing::begins_itself, crate::proofs::Growing::begins_more))]
    pub fn spend(&mut self, passes: PassList)
        requires { AreHeard passes }
        ensures after { self.new ≡ after_spend self.old passes }
        ensures grown { IsPrefix self.old.history self.new.history }
    {
        let PassParts { passes, room } = passes.into_parts();
        spend_all(&mut self.facts, &passes);
        self.history.put(room, WindowMark::Spent);
    }
}
