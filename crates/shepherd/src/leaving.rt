//! How responses leave, and how items are taken.

ghost use Rattle.std.specs.Prelude.{◌≡◌, true};
ghost use Rattle.shepherd.specs.Shepherds.{has_item, is_over, turn};
ghost use Rattle.shepherd.specs.Steps.{GivesBack, MayPutOut, PutsOut, TakesItem, rested};

use crate::shepherd::{EndKind, Shepherd, ShepherdTurn, Stage};
use crash_base::ResponseBytes;
use outcome_items::Item;
use request_visit::Turn;
use send_windows::Windows;
use std::mem;

/// The stage behind a request.
fn rested<P>(close: bool) -> Stage<P>
    ensures { result ≡ rested close }
{
    if close {
        Stage::Over(EndKind::Closed)
    } else {
        Stage::Resting
    }
}

/// Whether nothing is left to be done for a request.
fn is_over(turn: Turn) -> bool
    ensures { result ≡ is_over turn }
{
    match turn {
        Turn::Over => true,
        Turn::Outside => false,
        Turn::Windows => false,
        Turn::Inside => false,
        Turn::Program => false,
        Turn::Own => false,
        Turn::Output => false,
    }
}

impl<P: Drop> Stage<P> {
    /// The response leaves.
    fn output(self) -> (ResponseBytes, Stage<P>)
        requires { MayPutOut self }
        ensures { PutsOut self result.0 result.1 }
    {
        match self {
            Stage::Serving(mut visit, call) => {
                let bytes = visit.leave();
                (bytes, Stage::Serving(visit, call))
            }
            Stage::Refusing(why, bytes) => (bytes, Stage::Over(EndKind::Refused(why))),
            Stage::Resting => unreachable!(),
            Stage::Over(_) => unreachable!(),
        }
    }

    /// Whether nothing is left to be done for the request that is open.
    fn has_item(&self) -> bool
        ensures { result ≡ has_item self.now }
    {
        match self {
            Stage::Serving(visit, _) => is_over(visit.turn()),
            Stage::Resting => false,
            Stage::Refusing(_, _) => false,
            Stage::Over(_) => false,
        }
    }

    /// Gives back the passes that are held, if some are.
    fn drop_passes(&mut self, windows: &mut Windows)
        ensures { GivesBack self.old windows.old self.new windows.new }
    {
        match self {
            Stage::Serving(visit, _) => visit.drop_passes(windows),
            Stage::Resting => {}
            Stage::Refusing(_, _) => {}
            Stage::Over(_) => {}
        }
    }

    /// The item of the request, and the stage behind it.
    fn into_item(self) -> (Item, Stage<P>)
        requires { has_item self ≡ true }
        ensures { TakesItem self result.0 result.1 }
    {
        match self {
            Stage::Serving(visit, _) => {
                let close = visit.facts.close;
                (visit.into_item(), rested(close))
            }
            Stage::Refusing(_, _) => unreachable!(),
            Stage::Resting => unreachable!(),
            Stage::Over(_) => unreachable!(),
        }
    }
}

impl<P: Drop> Shepherd<P> {
    /// The bytes that are to be put out: a response, or the last one. A write of a session is settled from now on. It
    /// takes no memory.
    pub fn output(&mut self) -> ResponseBytes
        requires { turn self.old ≡ ShepherdTurn.Output }
        ensures stage { PutsOut self.old.stage result self.new.stage }
        ensures rest { self.new ≡ record self.old { stage = self.new.stage } }
    {
        let (bytes, stage) = mem::replace(&mut self.stage, Stage::Resting).output();
        self.set_stage(stage);
        bytes
    }

    /// Whether nothing is left to be done for the request that is open, so that its item can be taken; also where the
    /// connection has ended, since memory was wanted, and its passes were given back. It takes no memory.
    pub fn has_item(&self) -> bool
        ensures { result ≡ has_item self.now.stage }
    {
        self.stage.has_item()
    }

    /// The item of the request, once nothing is left to be done for it. It takes no memory.
    pub fn take_item(&mut self) -> Item
        requires { has_item self.old.stage ≡ true }
        ensures stage { TakesItem self.old.stage result self.new.stage }
        ensures rest { self.new ≡ record self.old { front = result.holds.front; stage = self.new.stage } }
    {
        let (item, stage) = mem::replace(&mut self.stage, Stage::Resting).into_item();
        self.front = item.holds.front;
        self.set_stage(stage);
        item
    }

    /// Gives back the passes that are held for the request that is open, an unheard one as Silent, at any turn. Where
    /// its response has left, its item can be taken then. It takes no memory.
    pub fn drop_passes(&mut self, windows: &mut Windows)
        ensures stage { GivesBack self.old.stage windows.old self.new.stage windows.new }
        ensures rest { self.new ≡ record self.old { stage = self.new.stage } }
    {
        self.stage.drop_passes(windows);
    }
}
