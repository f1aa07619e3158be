//! What happens to the site besides.

ghost use Rattle.std.specs.Prelude.{◌≡◌, ◌↔◌, ◌-◌, ◌<◌, ◌≤◌, ◌^◌, Some, IfOk, IsFalse, IsSome, IsTrue, OnErr, slice_get};
ghost use Rattle.commit_journal.specs.Journal.{IsScope};
ghost use Rattle.container_core.specs.Container.{HasGrownBy, with_entry_event};
ghost use Rattle.crash_base.specs.declared.scope.Scope.{Scope};
ghost use Rattle.journal_model.specs.Reboots.{IsUndone};
ghost use Rattle.journal_model.specs.declared.entry.Entry.TheVariants.{Down, Up};
ghost use Rattle.link_lanes.specs.Lanes.{on_lane};
ghost use Rattle.link_memory.specs.Lane.{crashed_lane, dropping, losing, swept_lane};
ghost use Rattle.link_memory.specs.Script.{incarnation_of};
ghost use Rattle.memory_site.specs.Site.{IsBrickOf, MayCommit, MayGoDown, idle_entry, showing, with_container, with_link, with_windows};
ghost use Rattle.outside.specs.declared.clock.TheConstants.{MOMENTS_END};
ghost use Rattle.send_windows.specs.Windows.{HasBrick, after_try, pass_tried};

use crate::memory_site::MemorySite;
use auction_actions::ActionProgram;
use container_core::{CommitRefusal, Container, RebootRefusal, histories_grow};
use crash_base::{BrickNo, MAX_GROUPS, Moment, OutOfMemory, Place, RequestNo, Scope, WorkerNo};
use link_memory::ScriptLink;
use outside::{Clock, MOMENTS_END, MapKeeper};
use send_windows::Windows;
use shepherd::connections_go_on;
use site_programs::SiteMaker;
use std::alloc::Global;

/// Whether a scope is one: a group is there below `MAX_GROUPS`.
fn is_scope(scope: Scope) -> bool
    ensures { IsTrue result ↔ IsScope scope }
{
    match scope {
        Scope::Group(group) => group.0 < MAX_GROUPS,
        Scope::App => true,
    }
}

/// Whether the windows have such a brick, and a pass to it may be tried.
fn may_try(windows: &Windows, brick: BrickNo) -> bool
    ensures { IsTrue result ↔ (HasBrick windows.now brick × IsTrue windows.now.holds) }
{
    1 <= brick.0 && brick.0 as usize <= windows.facts().len() && windows.holds()
}

/// Whether the link has such a brick.
fn has_brick(link: &ScriptLink, brick: BrickNo) -> bool
    ensures { IsTrue result ↔ IsBrickOf link.now brick }
{
    1 <= brick.0 && brick.0 as usize <= link.bricks()
}

/// Whether the link has such a brick, and it has a further incarnation.
fn may_crash(link: &ScriptLink, brick: BrickNo) -> bool
    ensures { IsTrue result ↔ (IsBrickOf link.now brick × (incarnation_of link.now brick < 2 ^ 64 - 1)) }
{
    has_brick(link, brick) && link.incarnation(brick) < u64::MAX
}

/// Whether a reboot was refused for want of memory.
fn is_reboot_without_memory(refusal: RebootRefusal) -> bool
    ensures { IsTrue result ↔ (refusal ≡ RebootRefusal.OutOfMemory) }
{
    match refusal {
        RebootRefusal::OutOfMemory => true,
        RebootRefusal::Busy { group: _, down: _ } => false,
        RebootRefusal::JournalFull(_) => false,
    }
}

/// Whether a commit was refused for want of memory.
fn is_commit_without_memory(cause: CommitRefusal) -> bool
    ensures { IsTrue result ↔ (cause ≡ CommitRefusal.OutOfMemory) }
{
    match cause {
        CommitRefusal::OutOfMemory => true,
        CommitRefusal::Already { place: _ } => false,
        CommitRefusal::Revoked(_) => false,
        CommitRefusal::Conflict(_) => false,
        CommitRefusal::JournalFull(_) => false,
        CommitRefusal::KeeperFailed => false,
    }
}

/// Begins the reboot of a scope that there is. Whether it did.
fn begin_reboot(container: &mut Container<MapKeeper>, scope: Scope) -> Result<bool, OutOfMemory>
    requires { IsScope scope }
    ensures whether { IfOk result (λ did. IsTrue did ↔ MayGoDown scope container.old) }
    ensures down { IfOk result (λ did. IsTrue did
        → container.new ≡ with_entry_event container.old (Down scope)) }
    ensures same { IfOk result (λ did. IsFalse did → container.new ≡ container.old) }
    ensures want { OnErr result (container.new ≡ container.old) }
    ensures grown { HasGrownBy container.old container.new }
{
    match container.begin_reboot(scope) {
        Ok(_) => Ok(true),
        Err(refusal) => {
            if is_reboot_without_memory(refusal) {
                Err(OutOfMemory)
            } else {
                Ok(false)
            }
        }
    }
}

/// Commits a call that makes no action. Whether it was made.
fn commit_call(
    alloc: Global,
    container: &mut Container<MapKeeper>,
    request: RequestNo,
    worker: WorkerNo,
) -> Result<bool, OutOfMemory>
    ensures whether { IfOk result (λ did. IsTrue did ↔ MayCommit request worker container.old) }
    ensures committed { IfOk result (λ did. IsTrue did
        → container.new ≡ with_entry_event container.old (idle_entry request worker container.old)) }
    ensures same { IfOk result (λ did. IsFalse did → container.new ≡ container.old) }
    ensures want { OnErr result (container.new ≡ container.old) }
    ensures grown { HasGrownBy container.old container.new }
{
    match container.begin(alloc, request, worker) {
        Ok(ticket) => match container.commit(alloc, ticket, None) {
            Ok(_) => Ok(true),
            Err(refused) => {
                if is_commit_without_memory(refused.cause) {
                    Err(OutOfMemory)
                } else {
                    Ok(false)
                }
            }
        },
        Err(OutOfMemory) => Err(OutOfMemory),
    }
}

impl MemorySite {
    /// The clock is read, and shows this moment from now on, where it may. Whether it may: it is not before the one
    /// that was shown, and one of a clock.
    pub fn set_clock(&mut self, now: Moment) -> bool
        ensures whether { IsTrue result ↔ ((self.old.around.clock.shown.0 ≤ now.0) × (now.0 < MOMENTS_END)) }
        ensures set { IsTrue result → self.new ≡ showing now self.old }
        ensures read { IsFalse result → self.new ≡ showing self.old.around.clock.shown self.old }
    {
        let shown = self.around.clock.now();
        if shown.0 <= now.0 && now.0 < MOMENTS_END {
            self.around.clock.set(now);
            true
        } else {
            false
        }
    }

    /// The reboot of a scope begins: a group that is not there is none. Whether it did.
    ///
    /// # Errors
    /// There is no memory, and nothing changed.
    pub fn go_down(&mut self, scope: Scope) -> Result<bool, OutOfMemory>
        ensures whether { IfOk result (λ did. IsTrue did ↔ MayGoDown scope self.old.around.container) }
        ensures down { IfOk result (λ did. IsTrue did
            → self.new ≡ with_container (with_entry_event self.old.around.container (Down scope)) self.old) }
        ensures same { IfOk result (λ did. IsFalse did → self.new ≡ self.old) }
        ensures want { OnErr result (self.new ≡ self.old) }
        ensures grown { HasGrownBy self.old.around.container self.new.around.container }
    {
        connections_go_on::<ActionProgram, ScriptLink, SiteMaker>();
        histories_grow();
        if !is_scope(scope) {
            return Ok(false);
        }
        match begin_reboot(&mut self.around.container, scope) {
            Ok(did) => Ok(did),
            Err(OutOfMemory) => Err(OutOfMemory),
        }
    }

    /// The reboot that began at this place ends. Whether one was under way.
    pub fn come_up(&mut self, down: Place) -> bool
        ensures whether { IsTrue result
            ↔ ((s : Scope) × IsUndone self.old.around.container.boot.entries down.0 s) }
        ensures up { IsTrue result → (s : Scope)
            → slice_get self.old.around.container.boot.entries down.0 ≡ Some (Down s)
            → self.new ≡ with_container (with_entry_event self.old.around.container (Up s)) self.old }
        ensures same { IsFalse result → self.new ≡ self.old }
        ensures rest { self.new ≡ with_container self.new.around.container self.old }
        ensures grown { HasGrownBy self.old.around.container self.new.around.container }
    {
        connections_go_on::<ActionProgram, ScriptLink, SiteMaker>();
        histories_grow();
        if !self.around.container.is_undone(down) {
            return false;
        }
        self.around.container.end_reboot(down);
        true
    }

    /// A call of this request that makes no action and writes nothing is committed. Whether it was.
    ///
    /// # Errors
    /// There is no memory, and nothing changed.
    pub fn commit_call(
        &mut self,
        alloc: Global,
        request: RequestNo,
        worker: WorkerNo,
    ) -> Result<bool, OutOfMemory>
        ensures whether { IfOk result (λ did. IsTrue did ↔ MayCommit request worker self.old.around.container) }
        ensures committed { IfOk result (λ did. IsTrue did → self.new ≡ with_container (with_entry_event
            self.old.around.container (idle_entry request worker self.old.around.container)) self.old) }
        ensures same { IfOk result (λ did. IsFalse did → self.new ≡ self.old) }
        ensures want { OnErr result (self.new ≡ self.old) }
        ensures grown { HasGrownBy self.old.around.container self.new.around.container }
    {
        connections_go_on::<ActionProgram, ScriptLink, SiteMaker>();
        match commit_call(alloc, &mut self.around.container, request, worker) {
            Ok(did) => Ok(did),
            Err(OutOfMemory) => Err(OutOfMemory),
        }
    }

    /// A pass to a brick is taken, and never given back. Whether one was to be had.
    pub fn hold_pass(&mut self, brick: BrickNo) -> bool
        ensures whether { IsTrue result ↔ (HasBrick self.old.around.windows brick
            × IsTrue self.old.around.windows.holds × IsSome (pass_tried self.old.around.windows brick)) }
        ensures held { IsTrue result → self.new ≡ with_windows (after_try self.old.around.windows brick) self.old }
        ensures same { IsFalse result → self.new ≡ self.old }
    {
        if !may_try(&self.around.windows, brick) {
            return false;
        }
        match self.around.windows.try_pass(brick) {
            Some(_) => true,
            None => false,
        }
    }

    /// A brick crashes, if there is one of this number, and it has a further incarnation.
    pub fn crash(&mut self, brick: BrickNo) -> bool
        ensures whether { IsTrue result ↔ (IsBrickOf self.old.around.link brick
            × (incarnation_of self.old.around.link brick < 2 ^ 64 - 1)) }
        ensures crashed { IsTrue result
            → self.new ≡ with_link (on_lane brick crashed_lane self.old.around.link) self.old }
        ensures same { IsFalse result → self.new ≡ self.old }
    {
        if !may_crash(&self.around.link, brick) {
            return false;
        }
        self.around.link.crash(brick);
        true
    }

    /// A brick sweeps at this moment, if there is one of this number.
    pub fn sweep(&mut self, brick: BrickNo, now: Moment) -> bool
        ensures whether { IsTrue result ↔ IsBrickOf self.old.around.link brick }
        ensures swept { IsTrue result
            → self.new ≡ with_link (on_lane brick (swept_lane now) self.old.around.link) self.old }
        ensures same { IsFalse result → self.new ≡ self.old }
    {
        if !has_brick(&self.around.link, brick) {
            return false;
        }
        self.around.link.sweep(brick, now);
        true
    }

    /// So many further replies of a brick are lost, if there is one of this number.
    pub fn lose(&mut self, brick: BrickNo, more: u64) -> bool
        ensures whether { IsTrue result ↔ IsBrickOf self.old.around.link brick }
        ensures lost { IsTrue result
            → self.new ≡ with_link (on_lane brick (losing more) self.old.around.link) self.old }
        ensures same { IsFalse result → self.new ≡ self.old }
    {
        if !has_brick(&self.around.link, brick) {
            return false;
        }
        self.around.link.lose(brick, more);
        true
    }

    /// So many further frames do not reach a brick, if there is one of this number.
    pub fn drop_asks(&mut self, brick: BrickNo, more: u64) -> bool
        ensures whether { IsTrue result ↔ IsBrickOf self.old.around.link brick }
        ensures dropped { IsTrue result
            → self.new ≡ with_link (on_lane brick (dropping more) self.old.around.link) self.old }
        ensures same { IsFalse result → self.new ≡ self.old }
    {
        if !has_brick(&self.around.link, brick) {
            return false;
        }
        self.around.link.drop_asks(brick, more);
        true
    }
}
