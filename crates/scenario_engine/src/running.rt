//! Event lines, over a boot that is started.

ghost use Rattle.std.specs.Prelude.{◌≡◌, ◌≤◌, ◌+◌, ◌++◌, Bool, [], length, None, true, IfOk, IfErr, IfSome, MatchResult, is_some, option_map, string_bytes};
ghost use Rattle.auction_rows.specs.Parts.{site_parts};
ghost use Rattle.commit_journal.specs.Journal.{IsScope};
ghost use Rattle.deployment.specs.Refusals.{deploy_refusal};
ghost use Rattle.scenario_text.specs.Answer.{KeepsRefused, answer_of, within};
ghost use Rattle.journal_model.specs.Rows.{rows_after};
ghost use Rattle.line_steps.specs.Texts.{committed_text};
ghost use Rattle.line_steps.specs.Callers.{begin_step, call_step};
ghost use Rattle.line_steps.specs.Head.{IsOfSite};
ghost use Rattle.seat_lines.specs.Hearing.{report_line};
ghost use Rattle.seat_lines.specs.Site.{AllGoOn, no_seats, site_in};
ghost use Rattle.container_core.specs.Container.{HasGrownBy};
ghost use Rattle.scenario_engine.specs.Seats.{BreaksSite, DoesSite};
ghost use Rattle.boot_core.specs.Boot.{new_boot};
ghost use Rattle.component_pool.specs.Plans.{left_by_process};
ghost use Rattle.boot_core.specs.declared.boot.Start.{Start};
ghost use Rattle.outside.specs.Faults.{Rose};
ghost use Rattle.session_steps.specs.Sessions.{session_line};
ghost use Rattle.session_steps.specs.Setup.{set_up};
ghost use Rattle.scenario_engine.specs.declared.failure.LineFailure.{LineFailure};
ghost use Rattle.scenario_engine.specs.declared.failure.UnstartedCause.{UnstartedCause};
ghost use Rattle.scenario_engine.specs.KeeperCalls.{seen};
ghost use Rattle.scenario_engine.specs.Opening.{Opened};
ghost use Rattle.scenario_engine.specs.Running.{started, reopened_over, with_callers, with_called, with_seats, with_sessions, scope_of, drop_step, down_step, up_step, reboot_step, table_step, journal_step, boot_line};
ghost use Rattle.scenario_engine.specs.Telling.{Opens, FailsToOpen, Commits, CommitsPartly, AnswersSeat, EndsSeat, failure_of};

use crate::failure::{LineFailure, UnstartedCause, failure_of};
use boot_core::{Boot, JournalLimits};
use container_core::{Container, StartFail, histories_grow};
use crash_base::{
    APPLICATION, FaultList, LatestRows, OutOfMemory, Place, Scope, WordText, WorkerNo,
};
use deployment::Deployment;
use line_steps::{
    Callers, Head, commit_refusal_text, committed_text, down_text, journal_text,
    reboot_refusal_text, rebooted_text, request_of, table_text, up_text,
};
use outside::Keeper;
use scenario_text::{BootLine, CallLine, LineAnswer, MAX_CALLER, NameList, SeatLine, SessionLine};
use seat_lines::Seats;
use session_steps::Sessions;
use site_routes::SiteRouter;
use std::alloc::Global;
use std::marker::Model;

/// A boot that is started, in a container with its keeper, its callers, the sessions and the connections; and the
/// router of the site, where its deployment is that of the site.
#[derive(Drop)]
pub(crate) struct Running<K: Keeper + Drop> {
    container: Container<K>,
    callers: Callers,
    sessions: Sessions,
    seats: Seats,
    router: Option<SiteRouter>,
}

impl<K: Keeper + Drop> Model for Running<K> {
    ghost use Rattle.std.specs.Prelude.{is_some};
    ghost use Rattle.scenario_engine.specs.Going.{RunsOn};
    ghost use Rattle.scenario_engine.specs.State.{RunningValue, running_value};

    ghost Value = { RunningValue };

    ghost view = { λ a. running_value a.container a.callers a.sessions a.seats (is_some a.router) };

    ghost invariant = { λ a. RunsOn a.container a.callers a.seats (is_some a.router) };
}

/// A boot that was not opened: why, and its keeper.
#[derive(Drop)]
pub(crate) struct Unopened<K: Keeper + Drop> {
    pub(crate) failure: LineFailure,
    pub(crate) keeper: K,
}

/// A container that was not started, as a boot that was not opened.
fn not_opened<K: Keeper + Drop>(fail: StartFail<K>) -> Unopened<K>
    ensures failure { result.failure ≡ failure_of fail.refusal }
    ensures keeper { result.keeper ≡ fail.keeper }
{
    Unopened {
        failure: failure_of(fail.refusal),
        keeper: fail.keeper,
    }
}

/// What the next boot takes over of one.
#[derive(Drop)]
struct Parts<K: Keeper + Drop> {
    container: Container<K>,
    sessions: Sessions,
    seats: Seats,
    router: Option<SiteRouter>,
}

/// The router of the site, where the deployment is that of the site.
fn router_for(alloc: Global, site: bool) -> Result<Option<SiteRouter>, OutOfMemory>
    ensures { IfOk result (λ router. is_some router ≡ site) }
{
    if site {
        let router = SiteRouter::new(alloc)?;
        Ok(Some(router))
    } else {
        Ok(None)
    }
}

/// A line about connections over a container, with its sessions and connections. It is refused where there is no
/// router.
fn site_line<K: Keeper + Drop>(
    alloc: Global,
    router: &Option<SiteRouter>,
    seats: &mut Seats,
    container: &mut Container<K>,
    sessions: Sessions,
    line: SeatLine,
) -> (Sessions, Result<LineAnswer, OutOfMemory>)
    requires site { is_some router.now ≡ true → container.old.boot.start.deployment ≡ site_parts }
    requires goes { AllGoOn container.old seats.old }
    ensures answer { MatchResult result.1
        (λ a. DoesSite (is_some router.now) line container.old sessions seats.old
        (answer_of a (site_in container.new result.0 seats.new)) container.new)
        (λ _. BreaksSite (is_some router.now) line container.old sessions seats.old container.new) }
    ensures refused { IfOk result.1 (λ a. KeepsRefused a (site_in container.old sessions seats.old)
        (site_in container.new result.0 seats.new)) }
    ensures goes { AllGoOn container.new seats.new }
    ensures grown { HasGrownBy container.old container.new }
    ensures count { container.old.faults ≤ container.new.faults }
{
    histories_grow();
    match router {
        None => (sessions, Ok(LineAnswer::Refused)),
        Some(router) => match seats.line(alloc, router, container, sessions, line) {
            (sessions, Ok(answer)) => (sessions, Ok(answer)),
            (sessions, Err(OutOfMemory)) => (sessions, Err(OutOfMemory)),
        },
    }
}

/// The scope that a word names: the whole application by `app`, or the group of a component by its name. None exactly
/// where the word is neither. It visits each component up to that one.
fn scope_of(deployment: &Deployment, word: &WordText) -> Option<Scope>
    ensures scope { result ≡ scope_of deployment.now word.now }
    ensures known { IfSome result IsScope }
{
    if word.as_slice() == APPLICATION.as_bytes() {
        return Some(Scope::App);
    }
    let c = deployment.named(word.as_slice())?;
    Some(Scope::Group(deployment.group_of(c)))
}

/// The current rows, in order of id.
fn current_rows<'a>(alloc: Global, boot: &'a Boot) -> Result<LatestRows<'a>, OutOfMemory>
    ensures { IfOk result (λ rows. rows ≡ rows_after boot.now.start.base boot.now.entries) }
{
    let place = Place(boot.journal().len());
    let rows = boot.rows().all_at(alloc, place)?;
    Ok(rows)
}

impl<K: Keeper + Drop> Running<K> {
    /// A boot of the site or of another deployment that was just started over these sessions and connections, none of
    /// which is there, without callers.
    fn over(
        alloc: Global,
        container: Container<K>,
        mut sessions: Sessions,
        seats: Seats,
        router: Option<SiteRouter>,
    ) -> Running<K>
        requires none { seats.seats ≡ [] }
        requires site { is_some router ≡ true → container.boot.start.deployment ≡ site_parts }
        ensures started { (start : Start) → container.boot ≡ new_boot start → container.since ≡ []
            → result.running ≡ started sessions seats (is_some router) start }
        ensures keeper { result.keeper ≡ seen container.told container.faults }
    {
        sessions.reopen(container.boot());
        Running {
            callers: Callers::new(alloc),
            sessions,
            seats,
            router,
            container,
        }
    }

    /// Opens a boot over the rows of the keeper and these sessions, without callers and connections.
    fn open(
        alloc: Global,
        deployment: Deployment,
        plans: FaultList,
        limits: JournalLimits,
        sessions: Sessions,
        router: Option<SiteRouter>,
        keeper: K,
    ) -> Result<Running<K>, Unopened<K>>
        requires site { is_some router ≡ true → deployment ≡ site_parts }
        ensures opens { MatchResult result
            (λ r. (start : Start) × (r.running ≡ started sessions (no_seats deployment) (is_some router) start)
            × Opens deployment plans limits (Opened start) (seen (K.told keeper) (K.faults keeper)) r.keeper)
            (λ u. FailsToOpen u.failure deployment plans limits (seen (K.told keeper) (K.faults keeper))
            (seen (K.told u.keeper) (K.faults u.keeper))) }
        ensures failed { IfErr result (λ u.
            u.failure ≡ LineFailure.Unstarted UnstartedCause.KeeperFailed
            → Rose (K.faults keeper) (K.faults u.keeper)) }
        ensures count { MatchResult result (λ r. K.faults keeper ≤ r.keeper.faults)
            (λ u. K.faults keeper ≤ K.faults u.keeper) }
    {
        let Ok(seats) = Seats::new(alloc, &deployment) else {
            drop(deployment);
            drop(plans);
            drop(sessions);
            drop(router);
            return Err(Unopened {
                failure: LineFailure::OutOfMemory,
                keeper,
            });
        };
        match Container::start(alloc, deployment, keeper, plans, limits) {
            Ok(opened) => Ok(Running::over(alloc, opened, sessions, seats, router)),
            Err(fail) => {
                drop(sessions);
                drop(seats);
                drop(router);
                Err(not_opened(fail))
            }
        }
    }

    /// Starts the first boot, over the deployment, the fault plans and the limits of the head. Where it is not started,
    /// the keeper is handed back.
    pub(crate) fn start(alloc: Global, head: Head, keeper: K) -> Result<Running<K>, Unopened<K>>
        requires accepted { deploy_refusal head.parts ≡ None }
        requires of_site { IsOfSite head }
        ensures opens { MatchResult result
            (λ r. (start : Start) × (r.running ≡ started (set_up head.setup 0) (no_seats head.parts) head.site start)
            × Opens head.parts head.plans head.limits (Opened start) (seen (K.told keeper) (K.faults keeper)) r.keeper)
            (λ u. FailsToOpen u.failure head.parts head.plans head.limits (seen (K.told keeper) (K.faults keeper))
            (seen (K.told u.keeper) (K.faults u.keeper))) }
        ensures failed { IfErr result (λ u.
            u.failure ≡ LineFailure.Unstarted UnstartedCause.KeeperFailed
            → Rose (K.faults keeper) (K.faults u.keeper)) }
        ensures count { MatchResult result (λ r. K.faults keeper ≤ r.keeper.faults)
            (λ u. K.faults keeper ≤ K.faults u.keeper) }
    {
        let limits = head.limits;
        let plans = head.plans;
        let Ok(sessions) = Sessions::new(alloc, head.setup) else {
            drop(head.parts);
            drop(plans);
            return Err(Unopened {
                failure: LineFailure::OutOfMemory,
                keeper,
            });
        };
        let Ok(router) = router_for(alloc, head.site) else {
            drop(head.parts);
            drop(plans);
            drop(sessions);
            return Err(Unopened {
                failure: LineFailure::OutOfMemory,
                keeper,
            });
        };
        match Deployment::check(head.parts) {
            Ok(deployment) => {
                Running::open(alloc, deployment, plans, limits, sessions, router, keeper)
            }
            Err(_) => unreachable!(),
        }
    }

    /// What the next boot takes over. The callers are gone.
    fn into_parts(self) -> Parts<K>
        ensures boot { result.container.boot ≡ self.running.boot }
        ensures keeper { seen result.container.told result.container.faults ≡ self.keeper }
        ensures sessions { result.sessions ≡ self.running.sessions }
        ensures seats { result.seats ≡ self.running.seats }
        ensures router { is_some result.router ≡ self.running.site }
        ensures site { is_some result.router ≡ true → result.container.boot.start.deployment ≡ site_parts }
    {
        Parts {
            container: self.container,
            sessions: self.sessions,
            seats: self.seats,
            router: self.router,
        }
    }

    /// Starts the next boot, over the same deployment and limits, with the fault plans that a reboot of the process
    /// leaves. The callers and the connections of this one are gone, which gave back what they held, and the sessions
    /// and the manager stay. Where it is not started, the keeper is handed back.
    pub(crate) fn reopen(self, alloc: Global) -> Result<Running<K>, Unopened<K>>
        ensures opens { MatchResult result
            (λ r. (start : Start) × (r.running ≡ reopened_over self.running start)
            × Opens self.running.boot.start.deployment (left_by_process self.running.boot.start.plans)
            self.running.boot.start.limits (Opened start) self.keeper r.keeper)
            (λ u. FailsToOpen u.failure self.running.boot.start.deployment
            (left_by_process self.running.boot.start.plans) self.running.boot.start.limits self.keeper (seen (K.told u.keeper) (K.faults u.keeper))) }
        ensures failed { IfErr result (λ u.
            u.failure ≡ LineFailure.Unstarted UnstartedCause.KeeperFailed
            → Rose self.keeper.faults (K.faults u.keeper)) }
        ensures count { MatchResult result (λ r. self.keeper.faults ≤ r.keeper.faults)
            (λ u. self.keeper.faults ≤ K.faults u.keeper) }
    {
        let Parts {
            mut container,
            sessions,
            mut seats,
            router,
        } = self.into_parts();
        let sessions = seats.give_back(alloc, &mut container, sessions);
        let (opened, remains) = container.reopen(alloc);
        drop(remains);
        match opened {
            Ok(container) => Ok(Running::over(alloc, container, sessions, seats, router)),
            Err(fail) => {
                drop(sessions);
                drop(seats);
                drop(router);
                Err(not_opened(fail))
            }
        }
    }

    /// The keeper, with the rows of each commit that was answered.
    pub(crate) fn into_keeper(self) -> K
        ensures { seen (K.told result) (K.faults result) ≡ self.keeper }
    {
        let parts = self.into_parts();
        drop(parts.sessions);
        drop(parts.seats);
        drop(parts.router);
        parts.container.into_keeper()
    }

    /// The number of the boot.
    pub(crate) fn number(&self) -> u32
        ensures { result ≡ self.now.running.boot.start.boot }
    {
        self.container.boot()
    }

    /// What a caller's commit writes that comes next.
    fn next_committed_text(&self, alloc: Global, caller: u64) -> Result<String, OutOfMemory>
        ensures { IfOk result (λ text. string_bytes text
            ≡ committed_text caller (length self.now.running.boot.entries)) }
    {
        committed_text(alloc, caller, self.container.journal().len())
    }

    /// A live call joins the journal, or is refused. What it writes where it commits is made before the keeper is
    /// called, so no commit is kept that is not answered.
    #[tactic(auto, unfolding(crate::specs::Running::commit_step, crate::specs::Running::commit_calls))]
    pub(crate) fn commit_step(
        &mut self,
        alloc: Global,
        caller: u64,
    ) -> Result<LineAnswer, OutOfMemory>
        ensures answer { MatchResult result
            (λ a. Commits self.old.running caller (answer_of a self.new.running)
            self.old.keeper self.new.keeper)
            (λ _. CommitsPartly self.old.running caller self.old.keeper self.new.keeper) }
        ensures refused { IfOk result (λ a. KeepsRefused a self.old.running self.new.running) }
        ensures count { self.old.keeper.faults ≤ self.new.keeper.faults }
    {
        self.seats.stay();
        match self.next_committed_text(alloc, caller) {
            Err(OutOfMemory) => Err(OutOfMemory),
            Ok(text) => match self.callers.take(caller) {
                None => Ok(LineAnswer::Refused),
                Some(ticket) => match self.container.commit(alloc, ticket, None) {
                    Ok(_) => Ok(LineAnswer::Wrote(text)),
                    Err(refused) => match commit_refusal_text(alloc, caller, refused.cause) {
                        Ok(text) => Ok(LineAnswer::Wrote(text)),
                        Err(OutOfMemory) => Err(OutOfMemory),
                    },
                },
            },
        }
    }

    /// A live call is dropped.
    #[tactic(auto, unfolding(crate::specs::Running::drop_step))]
    fn drop_step(&mut self, caller: u64) -> LineAnswer
        ensures answer { answer_of result self.new.running ≡ drop_step self.old.running caller }
        ensures refused { KeepsRefused result self.old.running self.new.running }
        ensures kept { self.new.keeper ≡ self.old.keeper }
    {
        self.seats.stay();
        let Some(ticket) = self.callers.take(caller) else {
            return LineAnswer::Refused;
        };
        self.container.abandon(ticket);
        LineAnswer::Done
    }

    /// A scope goes down.
    #[tactic(auto, unfolding(crate::specs::Running::down_step))]
    fn down_step(&mut self, alloc: Global, word: WordText) -> Result<LineAnswer, OutOfMemory>
        ensures answer { IfOk result (λ a. answer_of a self.new.running ≡ down_step self.old.running word) }
        ensures refused { IfOk result (λ a. KeepsRefused a self.old.running self.new.running) }
        ensures kept { self.new.keeper ≡ self.old.keeper }
    {
        self.seats.stay();
        let Some(scope) = scope_of(self.container.deployment(), &word) else {
            return Ok(LineAnswer::Refused);
        };
        let text = match self.container.begin_reboot(scope) {
            Ok(place) => down_text(alloc, place.0)?,
            Err(refusal) => reboot_refusal_text(alloc, refusal)?,
        };
        Ok(LineAnswer::Wrote(text))
    }

    /// A scope comes up.
    #[tactic(auto, unfolding(crate::specs::Running::up_step))]
    fn up_step(&mut self, alloc: Global, word: WordText) -> Result<LineAnswer, OutOfMemory>
        ensures answer { IfOk result (λ a. answer_of a self.new.running ≡ up_step self.old.running word) }
        ensures refused { IfOk result (λ a. KeepsRefused a self.old.running self.new.running) }
        ensures kept { self.new.keeper ≡ self.old.keeper }
    {
        self.seats.stay();
        let Some(scope) = scope_of(self.container.deployment(), &word) else {
            return Ok(LineAnswer::Refused);
        };
        let Some(down) = self.container.as_boot().undone_of(scope) else {
            return Ok(LineAnswer::Refused);
        };
        let place = self.container.end_reboot(down);
        let text = up_text(alloc, place.0)?;
        Ok(LineAnswer::Wrote(text))
    }

    /// A scope goes down and comes up at once.
    #[tactic(auto, unfolding(crate::specs::Running::reboot_step))]
    fn reboot_step(&mut self, alloc: Global, word: WordText) -> Result<LineAnswer, OutOfMemory>
        ensures answer { IfOk result (λ a. answer_of a self.new.running ≡ reboot_step self.old.running word) }
        ensures refused { IfOk result (λ a. KeepsRefused a self.old.running self.new.running) }
        ensures kept { self.new.keeper ≡ self.old.keeper }
    {
        self.seats.stay();
        let Some(scope) = scope_of(self.container.deployment(), &word) else {
            return Ok(LineAnswer::Refused);
        };
        let text = match self.container.begin_reboot(scope) {
            Ok(down) => {
                let up = self.container.end_reboot(down);
                rebooted_text(alloc, down.0, up.0)?
            }
            Err(refusal) => reboot_refusal_text(alloc, refusal)?,
        };
        Ok(LineAnswer::Wrote(text))
    }

    /// The current rows.
    #[tactic(auto, unfolding(crate::specs::Running::table_step))]
    fn table_step(&mut self, alloc: Global) -> Result<LineAnswer, OutOfMemory>
        ensures answer { IfOk result (λ a. answer_of a self.new.running ≡ table_step self.old.running) }
        ensures refused { IfOk result (λ a. KeepsRefused a self.old.running self.new.running) }
        ensures kept { self.new.keeper ≡ self.old.keeper }
    {
        let rows = current_rows(alloc, self.container.as_boot())?;
        let text = table_text(alloc, rows.as_slice())?;
        Ok(LineAnswer::Wrote(text))
    }

    /// The journal.
    #[tactic(auto, unfolding(crate::specs::Running::journal_step))]
    fn journal_step(&mut self, alloc: Global) -> Result<LineAnswer, OutOfMemory>
        ensures answer { IfOk result (λ a. answer_of a self.new.running ≡ journal_step self.old.running) }
        ensures refused { IfOk result (λ a. KeepsRefused a self.old.running self.new.running) }
        ensures kept { self.new.keeper ≡ self.old.keeper }
    {
        let text = journal_text(alloc, self.container.journal())?;
        Ok(LineAnswer::Wrote(text))
    }

    /// A request is reported that failed: the manager hears of it, and its decision is written.
    fn report_step(&mut self, alloc: Global, names: &NameList) -> Result<LineAnswer, OutOfMemory>
        ensures answer { IfOk result (λ a. answer_of a self.new.running ≡ within (with_seats self.old.running)
            (report_line self.old.running.boot.start.deployment self.old.running.seats names.now self.old.running.sessions.moment)) }
        ensures refused { IfOk result (λ a. KeepsRefused a self.old.running self.new.running) }
        ensures kept { self.new.keeper ≡ self.old.keeper }
    {
        let now = self.sessions.moment();
        let deployment = self.container.deployment();
        self.seats.report_line(alloc, deployment, names, now)
    }

    /// A caller begins a call.
    #[tactic(auto, unfolding(line_steps::specs::Callers::begin_step))]
    fn begin_step(&mut self, alloc: Global, caller: u64) -> Result<LineAnswer, OutOfMemory>
        ensures answer { IfOk result (λ a. answer_of a self.new.running ≡ within (with_callers self.old.running)
            (begin_step self.old.running.boot self.old.running.callers caller)) }
        ensures refused { IfOk result (λ a. KeepsRefused a self.old.running self.new.running) }
        ensures kept { self.new.keeper ≡ self.old.keeper }
    {
        self.seats.stay();
        if !self.callers.can_begin(caller) {
            return Ok(LineAnswer::Refused);
        }
        self.callers.pad(caller)?;
        let request = request_of(self.container.boot(), caller);
        let ticket = self
            .container
            .begin(alloc, request, WorkerNo(caller as u32))?;
        self.callers.put(caller, ticket);
        Ok(LineAnswer::Done)
    }

    /// A line of a live call.
    pub(crate) fn call_step(
        &mut self,
        alloc: Global,
        caller: u64,
        line: CallLine,
    ) -> Result<LineAnswer, OutOfMemory>
        ensures answer { IfOk result (λ a. answer_of a self.new.running ≡ within (with_called self.old.running)
            (call_step self.old.running.boot self.old.running.callers caller line)) }
        ensures refused { IfOk result (λ a. KeepsRefused a self.old.running self.new.running) }
        ensures kept { self.new.keeper ≡ self.old.keeper }
    {
        self.seats.stay();
        self.callers
            .call_step(alloc, &mut self.container, caller, line)
    }

    /// A line over the boot.
    pub(crate) fn boot_line(
        &mut self,
        alloc: Global,
        line: BootLine,
    ) -> Result<LineAnswer, OutOfMemory>
        ensures answer { IfOk result (λ a. answer_of a self.new.running ≡ boot_line self.old.running line) }
        ensures refused { IfOk result (λ a. KeepsRefused a self.old.running self.new.running) }
        ensures kept { self.new.keeper ≡ self.old.keeper }
    {
        match line {
            BootLine::Begin(caller) => self.begin_step(alloc, caller),
            BootLine::Drop(caller) => Ok(self.drop_step(caller)),
            BootLine::Down(word) => self.down_step(alloc, word),
            BootLine::Up(word) => self.up_step(alloc, word),
            BootLine::Reboot(word) => self.reboot_step(alloc, word),
            BootLine::Table => self.table_step(alloc),
            BootLine::Journal => self.journal_step(alloc),
            BootLine::Report(names) => self.report_step(alloc, &names),
        }
    }

    /// A line about the sessions.
    pub(crate) fn session_line(
        &mut self,
        alloc: Global,
        line: SessionLine,
    ) -> Result<LineAnswer, OutOfMemory>
        ensures answer { IfOk result (λ a. answer_of a self.new.running ≡ within (with_sessions self.old.running)
            (session_line self.old.running.sessions line)) }
        ensures refused { IfOk result (λ a. KeepsRefused a self.old.running self.new.running) }
        ensures kept { self.new.keeper ≡ self.old.keeper }
    {
        self.sessions.step(alloc, line)
    }

    /// A line about connections. It is refused where the deployment is not that of the site.
    pub(crate) fn seat_line(
        self,
        alloc: Global,
        line: SeatLine,
    ) -> (Running<K>, Result<LineAnswer, OutOfMemory>)
        ensures answer { MatchResult result.1
            (λ a. AnswersSeat self.running line (answer_of a result.0.running) self.keeper result.0.keeper)
            (λ _. EndsSeat self.running line self.keeper result.0.keeper) }
        ensures refused { IfOk result.1 (λ a. KeepsRefused a self.running result.0.running) }
        ensures count { self.keeper.faults ≤ result.0.keeper.faults }
    {
        let Running {
            mut container,
            callers,
            sessions,
            mut seats,
            router,
        } = self;
        let (sessions, answer) = site_line(
            alloc,
            &router,
            &mut seats,
            &mut container,
            sessions,
            line,
        );
        let running = Running {
            container,
            callers,
            sessions,
            seats,
            router,
        };
        (running, answer)
    }
}
