//! Calls of actions, as programs.

ghost use Rattle.std.specs.Prelude.{◌≡◌, true, List, Some, IfOk};
ghost use Rattle.crash_base.specs.declared.rows.RowWrite.{RowWrite};
ghost use Rattle.journal_model.specs.declared.entry.Mark.{Mark};
ghost use Rattle.call_ticket.specs.Runs.{run_of};
ghost use Rattle.action_plans.specs.Plans.{HasCome, walk};
ghost use Rattle.auction_calls.specs.Calls.{is_call};
ghost use Rattle.auction_rows.specs.Parts.{site_parts};
ghost use Rattle.auction_site.specs.Actions.{plan_of, site, steps_of, through, through_of};

use crate::bids::bid;
use crate::browsing::browse;
use crate::buying::{buy, close};
use crate::feedback::give_feedback;
use crate::items::show_item;
use crate::listing::categories;
use crate::new_categories::add_category;
use crate::offer::Offer;
use crate::own_items::show_own_items;
use crate::pages::{form_shown, home, signed_out};
use crate::selling::sell;
use crate::users::{register, show_user, sign_in};
use action_plans::{Outcome, Reads, Stop, Through, fixed_step, next_step, want_of};
use auction_calls::{Action, ActionCall, CheckedCall};
use auction_rows::{BIDS, BUY, CALL, FEEDBACK, PURCHASES, site_tables};
use auction_site::calls_run_as_the_site;
use call_ticket::{AnswerList, Next, Program};
use crash_base::{ComponentNo, OutOfMemory};
use std::alloc::Global;
use std::marker::Model;

/// A call of an action as a program: its next step depends on the call and the answers so far alone.
#[derive(Drop)]
pub struct ActionProgram {
    call: CheckedCall,
}

impl Model for ActionProgram {
    ghost use Rattle.auction_calls.specs.declared.action.ActionCall.{ActionCall};

    ghost Value = { ActionCall };

    ghost view = { λ program. program.call };
}

/// The component behind Web that an action goes through.
fn through_of(action: &Action) -> Option<Through>
    ensures { result ≡ through_of action.now }
{
    let (component, method) = match action {
        Action::Bid { .. } => (BIDS, CALL),
        Action::Buy { .. } => (PURCHASES, BUY),
        Action::Close { .. } => (PURCHASES, CALL),
        Action::Feedback { .. } => (FEEDBACK, CALL),
        _ => return None,
    };
    Some(Through {
        component: ComponentNo(component),
        method,
    })
}

/// How far a call comes with these reads.
#[tactic(auto, using(action_plans::proofs::Walking::walk_gives))]
fn come(alloc: Global, call: &ActionCall, reads: &mut Reads<'_>) -> Result<Outcome, Stop>
    requires { is_call call.now ≡ true }
    ensures { HasCome result reads.new (walk (plan_of call.entry.now) reads.old) }
{
    let user = call.user;
    let now = call.now;
    match &call.action {
        Action::Home => {
            let outcome = home(alloc, user)?;
            Ok(outcome)
        }
        Action::Register { name, password } => {
            register(
                alloc,
                name.as_slice(),
                password.as_slice(),
                call.fresh,
                now,
                reads,
            )
        }
        Action::SignIn { name, password } => {
            sign_in(alloc, name.as_slice(), password.as_slice(), now, reads)
        }
        Action::SignOut => {
            let outcome = signed_out(alloc, now)?;
            Ok(outcome)
        }
        Action::Categories => categories(alloc, reads),
        Action::AddCategory { name } => add_category(alloc, user, name.as_slice(), reads),
        Action::Browse { category, page } => browse(alloc, *category, *page, reads),
        Action::Item { item } => show_item(alloc, *item, reads),
        Action::User { user } => show_user(alloc, *user, reads),
        Action::About => show_own_items(alloc, user, reads),
        Action::Sell {
            title,
            category,
            start,
            buy_now,
            hours,
        } => {
            let offer = Offer {
                title: title.as_slice(),
                category: *category,
                start: *start,
                buy_now: *buy_now,
                hours: *hours,
            };
            sell(alloc, user, now, &offer, reads)
        }
        Action::Bid { item, amount } => bid(alloc, user, now, *item, *amount, reads),
        Action::Buy { item } => buy(alloc, user, now, *item, reads),
        Action::Close { item } => close(alloc, user, *item, reads),
        Action::Feedback { item, good, text } => {
            give_feedback(alloc, user, *item, *good, text, reads)
        }
        Action::Form { kind } => {
            let outcome = form_shown(alloc, user, now, call.form.as_slice(), *kind)?;
            Ok(outcome)
        }
    }
}

/// The next step of a call after these answers, by how far they bring its plan.
fn planned_step(alloc: Global, call: &ActionCall, answers: &AnswerList) -> Result<Next, OutOfMemory>
    requires { is_call call.now ≡ true }
    ensures { IfOk result (λ next. next ≡ steps_of call.entry.now answers.now) }
{
    let mut reads = Reads::new(answers.as_slice());
    let came = come(alloc, call, &mut reads);
    let want = want_of(alloc, came)?;
    let next = next_step(
        alloc,
        site_tables().as_slice(),
        through_of(&call.action),
        answers.as_slice(),
        want,
    )?;
    Ok(next)
}

/// The next step of a call after these answers. Its plan is followed only where it decides.
#[tactic(auto, using(action_plans::proofs::Fixing::fixed_runs))]
fn next_of(alloc: Global, call: &ActionCall, answers: &AnswerList) -> Result<Next, OutOfMemory>
    requires { is_call call.now ≡ true }
    ensures { IfOk result (λ next. next ≡ steps_of call.entry.now answers.now) }
{
    match fixed_step(through_of(&call.action), answers.as_slice()) {
        Some(next) => Ok(next),
        None => planned_step(alloc, call, answers),
    }
}

impl Program for ActionProgram {
    ghost use Rattle.std.specs.Prelude.{◌≡◌, true};
    ghost use Rattle.crash_base.specs.declared.rows.RowWrite.{RowWrite};
    ghost use Rattle.deployment.specs.declared.parts.Parts.{Parts};
    ghost use Rattle.auction_calls.specs.Calls.{is_call};
    ghost use Rattle.auction_rows.specs.Parts.{site_parts};
    ghost use Rattle.auction_site.specs.Actions.{steps_of};
    ghost use Rattle.auction_site.proofs.Meaning.{accepted_is_done};

    /// The steps of its call.
    ghost asks = { steps_of };

    /// The site's deployment, for a call whose fields are in their ranges.
    ghost accepts = { λ call parts. (parts ≡ site_parts) × (is_call call ≡ true) };

    /// The step after these answers. Each answer is visited at most ten times. Where the plan decides, each row that
    /// was read is decoded again; an enter of the home, or an exit of another owner, costs no more than the visits.
    fn next(&self, alloc: Global, answers: &AnswerList) -> Result<Next, OutOfMemory> {
        next_of(alloc, self.call.call(), answers)
    }

    ghost is_done = { accepted_is_done };
}

impl ActionProgram {
    /// The program of a call. Over any rows in the site's deployment, the run of its steps keeps the rules and limits
    /// of calls, and writes and answers what the site means by the call. It takes no memory.
    pub fn new(call: CheckedCall) -> ActionProgram
        ensures value { result ≡ call }
        ensures in_ranges { is_call result ≡ true }
        ensures runs { (rows : List RowWrite) → (marks : List Mark) × (run_of site_parts (steps_of result) rows
            ≡ Some (record { marks = marks; writes = (site result rows).writes; done = (site result rows).done })) }
    {
        calls_run_as_the_site();
        call.call();
        ActionProgram { call }
    }

    /// The call, as the text of its commit is made of it (`action_text`). It is lent, so that a refused commit, which
    /// drops the text and the answer, can be tried again.
    pub fn call(&self) -> &CheckedCall
        ensures value { result.now ≡ self.now }
        ensures in_ranges { is_call self.now ≡ true }
    {
        self.call.call();
        &self.call
    }
}
