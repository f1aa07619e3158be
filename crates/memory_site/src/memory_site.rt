//! The site with its connections.

ghost use Rattle.std.specs.Prelude.{◌≡◌, ◌<◌, ◌++◌, ◌∷◌, [], length, slice_get, true, Some, IfErr, IfOk, OnErr, OnOk};
ghost use Rattle.auction_rows.specs.Parts.{site_parts};
ghost use Rattle.container_core.specs.Container.{HasGrownBy};
ghost use Rattle.container_core.specs.Start.{IsStarted};
ghost use Rattle.memory_site.specs.Site.{GivesUp, MakesStep, WantsMemory, on_shepherd};
ghost use Rattle.memory_site.specs.Starting.{IsRefusedSite};
ghost use Rattle.outside.specs.Faults.{Rose};
ghost use Rattle.shepherd.specs.Shepherds.{fresh};

use crate::steps::StepEnd;
use crate::surroundings::{SiteShepherd, Surroundings};
use auction_actions::ActionProgram;
use container_core::{Container, JournalLimits, StartFail, StartRefusal, histories_grow};
use crash_base::{FaultList, OutOfMemory};
use link_memory::ScriptLink;
use outcome_items::Item;
use outside::MapKeeper;
use send_windows::{WindowFact, Windows};
use shepherd::connections_go_on;
use site_programs::SiteMaker;
use std::alloc::Global;
use std::marker::Model;
use std::mem;

/// The site in memory with its connections, each of which goes on there.
#[derive(Drop)]
pub struct MemorySite {
    pub(crate) around: Surroundings,
    pub(crate) shepherds: Vec<SiteShepherd>,
}

impl Model for MemorySite {
    ghost use Rattle.memory_site.specs.Going.{AllGoOn};
    ghost use Rattle.memory_site.specs.Site.{SiteValue};
    ghost use Rattle.memory_site.specs.Steps.{value_of};

    ghost Value = { SiteValue };

    ghost view = { λ a. record { around = value_of a.around; shepherds = a.shepherds.items } };

    ghost invariant = { λ a. AllGoOn a.around.container a.shepherds.items };
}

impl MemorySite {
    /// The site over this keeper, these windows and this link, with no connection. Its components fail by these plans.
    /// Its clock shows 0, its random words go from 1 on, and its serial numbers from this one.
    ///
    /// # Errors
    /// `StartRefusal` says why, and `IsRefusedSite` when: as of `Container::start`, which hands the keeper back.
    pub fn start(
        alloc: Global,
        keeper: MapKeeper,
        plans: FaultList,
        limits: JournalLimits,
        windows: Windows,
        link: ScriptLink,
        key: [u8; 32],
        serial: u64,
    ) -> Result<MemorySite, StartFail<MapKeeper>>
        ensures container { IfOk result (λ s. IsStarted site_parts plans limits (Some keeper.told) s.around.container) }
        ensures given { IfOk result (λ s. (s.around.windows ≡ windows) × (s.around.link ≡ link)
            × (s.around.key ≡ key)) }
        ensures drawn { IfOk result (λ s. (s.around.clock ≡ record {
          shown = record { 0 = 0 };
          told = record { 0 = 0 };
        }) × (s.around.random ≡ 1) × (s.around.serials ≡ serial)) }
        ensures alone { IfOk result (λ s. s.shepherds ≡ []) }
        ensures refused { IfErr result (λ fail. IsRefusedSite fail.refusal keeper fail.keeper) }
        ensures failed { IfErr result (λ fail. fail.refusal ≡ StartRefusal.KeeperFailed
            → Rose keeper.faults fail.keeper.faults) }
    {
        match Surroundings::start(alloc, keeper, plans, limits, windows, link, key, serial) {
            Ok(around) => Ok(MemorySite {
                around,
                shepherds: Vec::new(alloc),
            }),
            Err(fail) => Err(fail),
        }
    }

    /// Its container.
    pub fn container(&self) -> &Container<MapKeeper>
        ensures { result.now ≡ self.now.around.container }
    {
        &self.around.container
    }

    /// Each brick with its window. It takes no memory.
    pub fn windows(&self) -> &[WindowFact]
        ensures { result.now ≡ self.now.around.windows.facts }
    {
        self.around.windows.facts()
    }

    /// One connection more, of which nothing came yet. Its number: they are numbered from 0 on.
    ///
    /// # Errors
    /// There is no memory, and nothing changed.
    pub fn connect(&mut self, alloc: Global) -> Result<usize, OutOfMemory>
        ensures number { IfOk result (λ at. at ≡ length self.old.shepherds) }
        ensures joined { OnOk result (self.new
            ≡ record self.old { shepherds = self.old.shepherds ++ fresh ∷ [] }) }
        ensures want { OnErr result (self.new ≡ self.old) }
    {
        let at = self.shepherds.len();
        match self.shepherds.push(self.around.connect(alloc)) {
            Ok(()) => Ok(at),
            Err(unpushed) => {
                drop(unpushed);
                Err(OutOfMemory)
            }
        }
    }

    /// Bytes come over a connection. Where there is no such one, nothing happens.
    ///
    /// # Errors
    /// There is no memory: the connection has ended.
    pub fn feed(&mut self, at: usize, bytes: &[u8]) -> Result<(), OutOfMemory>
        ensures fed { OnOk result (self.new
            ≡ on_shepherd at (λ s. record s { received = s.received ++ bytes.now }) self.old) }
        ensures want { OnErr result (self.new ≡ on_shepherd at (λ s. record s { wants_memory = true }) self.old) }
        ensures there { OnErr result (at < length self.old.shepherds) }
    {
        if at < self.shepherds.len() {
            match self.around.feed(&mut self.shepherds[at], bytes) {
                Ok(()) => Ok(()),
                Err(OutOfMemory) => Err(OutOfMemory),
            }
        } else {
            Ok(())
        }
    }

    /// No more bytes come over a connection. Where there is no such one, nothing happens. It takes no memory.
    pub fn end(&mut self, at: usize)
        ensures { self.new ≡ on_shepherd at (λ s. record s { ended = true }) self.old }
    {
        if at < self.shepherds.len() {
            self.around.end(&mut self.shepherds[at]);
        }
    }

    /// Makes the next step of a connection. Where there is no such one, it waits.
    ///
    /// # Errors
    /// There is no memory: the connection has ended, and nothing else changed but what its turn calls.
    pub fn step(&mut self, alloc: Global, at: usize) -> Result<StepEnd, OutOfMemory>
        ensures told { IfOk result (λ end. MakesStep (slice_get self.old.shepherds at) self.old at end self.new) }
        ensures want { OnErr result (WantsMemory (slice_get self.old.shepherds at) self.old at self.new) }
        ensures grown { HasGrownBy self.old.around.container self.new.around.container }
    {
        connections_go_on::<ActionProgram, ScriptLink, SiteMaker>();
        histories_grow();
        if at < self.shepherds.len() {
            match self.around.step(alloc, &mut self.shepherds[at]) {
                Ok(end) => Ok(end),
                Err(OutOfMemory) => Err(OutOfMemory),
            }
        } else {
            Ok(StepEnd::Waits)
        }
    }

    /// Gives up what a connection holds, whatever its turn. Another one has its number then, of which nothing came yet.
    /// Its item, where nothing is left to be done for its request: its response has left. Where there is no such
    /// connection, nothing happens. It takes no memory.
    pub fn give_up(&mut self, alloc: Global, at: usize) -> Option<Item>
        ensures given { GivesUp (slice_get self.old.shepherds at) self.old at result self.new }
        ensures same { self.new.around.container ≡ self.old.around.container }
    {
        if at < self.shepherds.len() {
            let fresh = self.around.connect(alloc);
            let old = mem::replace(&mut self.shepherds[at], fresh);
            self.around.give_up(old)
        } else {
            None
        }
    }
}
