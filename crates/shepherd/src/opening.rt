//! How the program of a request is made of its call.

ghost use Rattle.std.specs.Prelude.{◌≡◌, ◌≢◌, true, List, ℕ, IfOk, None, OnErr, OnOk};
ghost use Rattle.std.specs.Option.{option_map};
ghost use Rattle.auction_calls.specs.declared.action.ActionCall.{ActionCall};
ghost use Rattle.request_visit.specs.Advancing.{value_of};
ghost use Rattle.request_visit.specs.Visits.{turn as visit_turn};
ghost use Rattle.request_visit.specs.declared.visit.Turn.TheVariants as visit;
ghost use Rattle.shepherd.specs.Shepherds.{turn};
ghost use Rattle.shepherd.specs.Steps.{OnVisit, OpensBy, OpensStage};
ghost use Rattle.shepherd.specs.declared.shepherd.Stage.TheVariants.{Serving};

use crate::shepherd::{AskedCall, Shepherd, ShepherdTurn, Stage};
use auction_calls::CheckedCall;
use crash_base::{ActionText, OutOfMemory, SessionBytes, WorkerNo};
use request_decisions::call_by;
use request_tries::RequestTries;
use request_visit::Visit;
use session_way::SessionLease;
use std::alloc::Global;

/// What makes the programs of calls.
pub trait ProgramMaker<P> {
    /// This text and this program are made of a call.
    ghost makes: { Self → ActionCall → List ℕ → P → Type 0 };

    /// The text of a call, as the journal has it, and its program.
    fn make(&self, alloc: Global, call: CheckedCall) -> Result<(ActionText, P), OutOfMemory>
        ensures { IfOk result (λ made. makes self.now call made.0 made.1) };
}

/// The value of a session, if there is one.
fn value_of(lease: Option<&SessionLease>) -> Option<&SessionBytes>
    ensures { option_map (λ v. v.now) result ≡ option_map (λ l. value_of l.now) lease.entry }
{
    match lease {
        Some(lease) => Some(&lease.value),
        None => None,
    }
}

/// The program of a call is made, and its request is served in the container from now on.
fn open<P: Drop, M: ProgramMaker<P>>(
    alloc: Global,
    worker: WorkerNo,
    maker: &M,
    served: &mut Visit<P>,
    asked: AskedCall,
) -> Result<(), OutOfMemory>
    requires { visit_turn served.old ≡ visit.Program }
    ensures opened { OnOk result (OpensBy M.makes maker.now worker served.old asked served.new) }
    ensures same { OnErr result (served.new ≡ served.old) }
{
    let AskedCall { request, call } = asked;
    let call = call_by(call, value_of(served.lease.as_ref()));
    let (text, program) = maker.make(alloc, call)?;
    served.open(RequestTries::new(alloc, request, worker, text), program);
    Ok(())
}

impl<P: Drop> Stage<P> {
    /// The program of the request that is open is made.
    fn open<M: ProgramMaker<P>>(
        &mut self,
        alloc: Global,
        worker: WorkerNo,
        maker: &M,
    ) -> Result<(), OutOfMemory>
        requires turn { OnVisit self.old (λ v call. visit_turn v ≡ visit.Program) }
        requires asked { OnVisit self.old (λ v call. call ≢ None) }
        ensures opened { OnOk result (OpensStage M.makes maker.now worker self.old self.new) }
        ensures unmade { OnErr result (OnVisit self.old (λ v call. self.new ≡ Serving v None)) }
    {
        match self {
            Stage::Serving(visit, call) => match call.take() {
                Some(asked) => open(alloc, worker, maker, visit, asked),
                None => unreachable!(),
            },
            Stage::Resting => unreachable!(),
            Stage::Refusing(_, _) => unreachable!(),
            Stage::Over(_) => unreachable!(),
        }
    }
}

impl<P: Drop> Shepherd<P> {
    /// Makes the program of the request that is open, of its call as the user of its session makes it; and it is served
    /// in the container from now on, by tries that have not begun.
    ///
    /// # Errors
    /// There is no memory: the connection has ended.
    pub fn open<M: ProgramMaker<P>>(
        &mut self,
        alloc: Global,
        worker: WorkerNo,
        maker: &M,
    ) -> Result<(), OutOfMemory>
        requires turn { turn self.old ≡ ShepherdTurn.Program }
        requires asked { OnVisit self.old.stage (λ v call. call ≢ None) }
        ensures stage { OnOk result (OpensStage M.makes maker.now worker self.old.stage self.new.stage) }
        ensures rest { OnOk result (self.new ≡ record self.old { stage = self.new.stage }) }
        ensures unmade { OnErr result (OnVisit self.old.stage (λ v call. self.new.stage ≡ Serving v None)) }
        ensures want { OnErr result (self.new ≡ record self.old { stage = self.new.stage; wants_memory = true }) }
    {
        let answer = self.stage.open(alloc, worker, maker);
        self.heed(answer)
    }
}
