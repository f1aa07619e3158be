//! The steps of a connection of the site.

ghost use Rattle.std.specs.Prelude.{◌≡◌, ◌++◌, true, IfOk, OnErr, OnOk};
ghost use Rattle.container_core.specs.Container.{HasGrownBy};
ghost use Rattle.memory_site.specs.Going.{GoesOnAtSite};
ghost use Rattle.memory_site.specs.Steps.{IsGivenUp, IsItemLeft, StepsAt, WantsAt, value_of};
ghost use Rattle.shepherd.specs.Shepherds.{fresh, turn};

use crate::surroundings::{NODE, SiteShepherd, Surroundings, WORKER};
use auction_actions::ActionProgram;
use container_core::histories_grow;
use crash_base::{OutOfMemory, ResponseBytes};
use link_memory::ScriptLink;
use outcome_items::Item;
use outside::{PlainClock, PlainRandom, PlainSerials};
use request_intake::HomeBoot;
use shepherd::{
    EndKind, Shepherd, ShepherdTurn, connections_go_on, items_are_for_requests_in_order,
    taken_requests_go_on,
};
use site_programs::{SiteMaker, site_programs_are_accepted};
use std::alloc::Global;

/// What came of a step.
#[derive(Drop)]
pub enum StepEnd {
    /// A request was taken, or the link, the windows or the container were called.
    Called,
    /// Nobody else was asked.
    Alone,
    /// This response is to be put out.
    Response(ResponseBytes),
    /// The item of a request was taken.
    Item(Item),
    /// It waits for bytes.
    Waits,
    /// It has ended.
    Ended(EndKind),
}

/// The item of a connection, where nothing is left to be done for its request.
fn item_left(shepherd: &mut SiteShepherd) -> Option<Item>
    ensures { IsItemLeft shepherd.old.stage result }
{
    if shepherd.has_item() {
        Some(shepherd.take_item())
    } else {
        None
    }
}

impl Surroundings {
    /// A connection of which nothing came yet. It takes no memory.
    pub fn connect(&self, alloc: Global) -> SiteShepherd
        ensures fresh { result ≡ fresh }
        ensures goes { GoesOnAtSite self.now.container result }
    {
        connections_go_on::<ActionProgram, ScriptLink, SiteMaker>();
        Shepherd::new(alloc)
    }

    /// Bytes come over a connection.
    ///
    /// # Errors
    /// There is no memory: the connection has ended.
    pub fn feed(&self, shepherd: &mut SiteShepherd, bytes: &[u8]) -> Result<(), OutOfMemory>
        requires { GoesOnAtSite self.now.container shepherd.old }
        ensures goes { GoesOnAtSite self.now.container shepherd.new }
        ensures fed { OnOk result (shepherd.new
            ≡ record shepherd.old { received = shepherd.old.received ++ bytes.now }) }
        ensures want { OnErr result (shepherd.new ≡ record shepherd.old { wants_memory = true }) }
    {
        connections_go_on::<ActionProgram, ScriptLink, SiteMaker>();
        match shepherd.feed(bytes) {
            Ok(()) => Ok(()),
            Err(OutOfMemory) => Err(OutOfMemory),
        }
    }

    /// No more bytes come over a connection. It takes no memory.
    pub fn end(&self, shepherd: &mut SiteShepherd)
        requires { GoesOnAtSite self.now.container shepherd.old }
        ensures goes { GoesOnAtSite self.now.container shepherd.new }
        ensures ended { shepherd.new ≡ record shepherd.old { ended = true } }
    {
        connections_go_on::<ActionProgram, ScriptLink, SiteMaker>();
        shepherd.end();
    }

    fn take(&mut self, alloc: Global, shepherd: &mut SiteShepherd) -> Result<StepEnd, OutOfMemory>
        requires turn { turn shepherd.old ≡ ShepherdTurn.Request }
        requires goes { GoesOnAtSite self.old.container shepherd.old }
        ensures goes { GoesOnAtSite self.new.container shepherd.new }
        ensures same { self.new.container ≡ self.old.container }
        ensures told { IfOk result (λ end. StepsAt (turn shepherd.old) (value_of self.old) shepherd.old
            end (value_of self.new) shepherd.new) }
        ensures want { OnErr result (shepherd.new.wants_memory ≡ true) }
        ensures rest { OnErr result (WantsAt (turn shepherd.old) (value_of self.old) shepherd.old
            (value_of self.new) shepherd.new) }
    {
        connections_go_on::<ActionProgram, ScriptLink, SiteMaker>();
        taken_requests_go_on::<ActionProgram, ScriptLink, PlainClock, PlainRandom, PlainSerials>();
        let boot = self.container.boot();
        match shepherd.take_request(
            alloc,
            &self.router,
            &self.key,
            HomeBoot { node: NODE, boot },
            &self.link,
            &mut self.clock,
            &mut self.random,
            &mut self.serials,
        ) {
            Ok(()) => Ok(StepEnd::Called),
            Err(OutOfMemory) => Err(OutOfMemory),
        }
    }

    fn call_link(
        &mut self,
        alloc: Global,
        shepherd: &mut SiteShepherd,
    ) -> Result<StepEnd, OutOfMemory>
        requires turn { turn shepherd.old ≡ ShepherdTurn.Outside }
        requires goes { GoesOnAtSite self.old.container shepherd.old }
        ensures goes { GoesOnAtSite self.new.container shepherd.new }
        ensures same { self.new.container ≡ self.old.container }
        ensures told { IfOk result (λ end. StepsAt (turn shepherd.old) (value_of self.old) shepherd.old
            end (value_of self.new) shepherd.new) }
        ensures want { OnErr result (shepherd.new.wants_memory ≡ true) }
        ensures rest { OnErr result (WantsAt (turn shepherd.old) (value_of self.old) shepherd.old
            (value_of self.new) shepherd.new) }
    {
        connections_go_on::<ActionProgram, ScriptLink, SiteMaker>();
        match shepherd.step_outside(alloc, &mut self.link) {
            Ok(()) => Ok(StepEnd::Called),
            Err(OutOfMemory) => Err(OutOfMemory),
        }
    }

    fn call_windows(
        &mut self,
        alloc: Global,
        shepherd: &mut SiteShepherd,
    ) -> Result<StepEnd, OutOfMemory>
        requires turn { turn shepherd.old ≡ ShepherdTurn.Windows }
        requires goes { GoesOnAtSite self.old.container shepherd.old }
        ensures goes { GoesOnAtSite self.new.container shepherd.new }
        ensures same { self.new.container ≡ self.old.container }
        ensures told { IfOk result (λ end. StepsAt (turn shepherd.old) (value_of self.old) shepherd.old
            end (value_of self.new) shepherd.new) }
        ensures want { OnErr result (shepherd.new.wants_memory ≡ true) }
        ensures rest { OnErr result (WantsAt (turn shepherd.old) (value_of self.old) shepherd.old
            (value_of self.new) shepherd.new) }
    {
        connections_go_on::<ActionProgram, ScriptLink, SiteMaker>();
        // The windows keep their limits: 1 to 16 bricks are asked.
        let _ = self.windows.facts();
        match shepherd.step_windows(alloc, &mut self.windows) {
            Ok(()) => Ok(StepEnd::Called),
            Err(OutOfMemory) => Err(OutOfMemory),
        }
    }

    fn call_container(
        &mut self,
        alloc: Global,
        shepherd: &mut SiteShepherd,
    ) -> Result<StepEnd, OutOfMemory>
        requires turn { turn shepherd.old ≡ ShepherdTurn.Inside }
        requires goes { GoesOnAtSite self.old.container shepherd.old }
        ensures goes { GoesOnAtSite self.new.container shepherd.new }
        ensures grown { HasGrownBy self.old.container self.new.container }
        ensures told { IfOk result (λ end. StepsAt (turn shepherd.old) (value_of self.old) shepherd.old
            end (value_of self.new) shepherd.new) }
        ensures want { OnErr result (shepherd.new.wants_memory ≡ true) }
        ensures rest { OnErr result (WantsAt (turn shepherd.old) (value_of self.old) shepherd.old
            (value_of self.new) shepherd.new) }
    {
        connections_go_on::<ActionProgram, ScriptLink, SiteMaker>();
        match shepherd.step_inside(alloc, &mut self.container) {
            Ok(()) => Ok(StepEnd::Called),
            Err(OutOfMemory) => Err(OutOfMemory),
        }
    }

    fn make_program(
        &self,
        alloc: Global,
        shepherd: &mut SiteShepherd,
    ) -> Result<StepEnd, OutOfMemory>
        requires turn { turn shepherd.old ≡ ShepherdTurn.Program }
        requires goes { GoesOnAtSite self.now.container shepherd.old }
        ensures goes { GoesOnAtSite self.now.container shepherd.new }
        ensures told { IfOk result (λ end. StepsAt (turn shepherd.old) (value_of self.now) shepherd.old
            end (value_of self.now) shepherd.new) }
        ensures want { OnErr result (shepherd.new.wants_memory ≡ true) }
        ensures rest { OnErr result (WantsAt (turn shepherd.old) (value_of self.now) shepherd.old
            (value_of self.now) shepherd.new) }
    {
        connections_go_on::<ActionProgram, ScriptLink, SiteMaker>();
        site_programs_are_accepted();
        match shepherd.open(alloc, WORKER, &SiteMaker) {
            Ok(()) => Ok(StepEnd::Alone),
            Err(OutOfMemory) => Err(OutOfMemory),
        }
    }

    fn advance(&self, alloc: Global, shepherd: &mut SiteShepherd) -> Result<StepEnd, OutOfMemory>
        requires turn { turn shepherd.old ≡ ShepherdTurn.Own }
        requires goes { GoesOnAtSite self.now.container shepherd.old }
        ensures goes { GoesOnAtSite self.now.container shepherd.new }
        ensures told { IfOk result (λ end. StepsAt (turn shepherd.old) (value_of self.now) shepherd.old
            end (value_of self.now) shepherd.new) }
        ensures want { OnErr result (shepherd.new.wants_memory ≡ true) }
        ensures rest { OnErr result (WantsAt (turn shepherd.old) (value_of self.now) shepherd.old
            (value_of self.now) shepherd.new) }
    {
        connections_go_on::<ActionProgram, ScriptLink, SiteMaker>();
        match shepherd.advance(alloc, &self.key) {
            Ok(()) => Ok(StepEnd::Alone),
            Err(OutOfMemory) => Err(OutOfMemory),
        }
    }

    fn put_out(&self, shepherd: &mut SiteShepherd) -> StepEnd
        requires turn { turn shepherd.old ≡ ShepherdTurn.Output }
        requires goes { GoesOnAtSite self.now.container shepherd.old }
        ensures goes { GoesOnAtSite self.now.container shepherd.new }
        ensures told { StepsAt (turn shepherd.old) (value_of self.now) shepherd.old
            result (value_of self.now) shepherd.new }
    {
        connections_go_on::<ActionProgram, ScriptLink, SiteMaker>();
        StepEnd::Response(shepherd.output())
    }

    fn take_item(&self, shepherd: &mut SiteShepherd) -> StepEnd
        requires turn { turn shepherd.old ≡ ShepherdTurn.Item }
        requires goes { GoesOnAtSite self.now.container shepherd.old }
        ensures goes { GoesOnAtSite self.now.container shepherd.new }
        ensures told { StepsAt (turn shepherd.old) (value_of self.now) shepherd.old
            result (value_of self.now) shepherd.new }
    {
        connections_go_on::<ActionProgram, ScriptLink, SiteMaker>();
        items_are_for_requests_in_order::<ActionProgram>();
        StepEnd::Item(shepherd.take_item())
    }

    /// Makes the next step of a connection, and tells what came of it.
    ///
    /// # Errors
    /// There is no memory: the connection has ended, and nothing else changed but what its turn calls.
    pub fn step(
        &mut self,
        alloc: Global,
        shepherd: &mut SiteShepherd,
    ) -> Result<StepEnd, OutOfMemory>
        requires { GoesOnAtSite self.old.container shepherd.old }
        ensures goes { GoesOnAtSite self.new.container shepherd.new }
        ensures grown { HasGrownBy self.old.container self.new.container }
        ensures told { IfOk result (λ end. StepsAt (turn shepherd.old) (value_of self.old) shepherd.old
            end (value_of self.new) shepherd.new) }
        ensures want { OnErr result (shepherd.new.wants_memory ≡ true) }
        ensures rest { OnErr result (WantsAt (turn shepherd.old) (value_of self.old) shepherd.old
            (value_of self.new) shepherd.new) }
    {
        histories_grow();
        match shepherd.turn() {
            ShepherdTurn::Bytes => Ok(StepEnd::Waits),
            ShepherdTurn::Request => self.take(alloc, shepherd),
            ShepherdTurn::Outside => self.call_link(alloc, shepherd),
            ShepherdTurn::Windows => self.call_windows(alloc, shepherd),
            ShepherdTurn::Inside => self.call_container(alloc, shepherd),
            ShepherdTurn::Program => self.make_program(alloc, shepherd),
            ShepherdTurn::Own => self.advance(alloc, shepherd),
            ShepherdTurn::Output => Ok(self.put_out(shepherd)),
            ShepherdTurn::Item => Ok(self.take_item(shepherd)),
            ShepherdTurn::Ended(end) => Ok(StepEnd::Ended(end)),
        }
    }

    /// Gives up the call and the passes of a connection, whatever its turn, and drops it. Its item, where nothing is
    /// left to be done for its request then: its response has left. It takes no memory.
    pub fn give_up(&mut self, mut shepherd: SiteShepherd) -> Option<Item>
        ensures same { self.new.container ≡ self.old.container }
        ensures given { IsGivenUp (value_of self.old) shepherd result (value_of self.new) }
    {
        shepherd.drop_call(&mut self.container);
        shepherd.drop_passes(&mut self.windows);
        let item = item_left(&mut shepherd);
        drop(shepherd);
        item
    }
}
