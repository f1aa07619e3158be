//! Laws of pools that follow a journal, as contracts of functions that do nothing.

ghost use Rattle.std.specs.Prelude.{◌≡◌, ◌<◌, ℕ, ◌+◌, ◌^◌, List, [], ◌∷◌, ◌++◌, length};
ghost use Rattle.crash_base.specs.declared.fault_plans.FaultPlan.{FaultPlan};
ghost use Rattle.crash_base.specs.declared.numbers.Level.{Level};
ghost use Rattle.crash_base.specs.declared.scope.Scope.{Scope};
ghost use Rattle.deployment.specs.declared.parts.Parts.{Parts};
ghost use Rattle.deployment.specs.Groups.{group_of};
ghost use Rattle.journal_model.specs.declared.entry.CommitEntry.{CommitEntry};
ghost use Rattle.journal_model.specs.declared.entry.Entry.{Entry};
ghost use Rattle.journal_model.specs.declared.entry.Entry.TheVariants.{Commit, Down, Up};
ghost use Rattle.journal_model.specs.Reboots.{generation};
ghost use Rattle.component_pool.specs.Cures.{level_of};
ghost use Rattle.component_pool.specs.Journal.{reboots_in};
ghost use Rattle.component_pool.specs.Pool.{MayReboot, PoolValue, StandsFor, component_in, entered_in, rebooted_at, times};

use crash_base::MAX_GROUPS;

/// A pool whose scopes are rebooted at each Down of a journal follows it: a Down comes to what `drop_scope` makes of
/// the pool, and commits and Ups change nothing. Then the generation of a component is that of its group in the
/// journal, and each scope may be rebooted while a u64 counts one entry more. And a pool stands for the counts that it
/// keeps.
pub fn pools_follow_journals()
    ensures down { (pool : PoolValue) (parts : Parts) (given : List FaultPlan) (enterings : ℕ → ℕ) (es : List Entry) (s : Scope) →
        StandsFor pool parts given enterings (rebooted_at s (level_of s) (reboots_in es)) →
        StandsFor pool parts given enterings (reboots_in (es ++ Down s ∷ [])) }
    ensures commit { (pool : PoolValue) (parts : Parts) (given : List FaultPlan) (enterings : ℕ → ℕ) (es : List Entry) (e : CommitEntry) →
        StandsFor pool parts given enterings (reboots_in es) →
        StandsFor pool parts given enterings (reboots_in (es ++ Commit e ∷ [])) }
    ensures up { (pool : PoolValue) (parts : Parts) (given : List FaultPlan) (enterings : ℕ → ℕ) (es : List Entry) (s : Scope) →
        StandsFor pool parts given enterings (reboots_in es) →
        StandsFor pool parts given enterings (reboots_in (es ++ Up s ∷ [])) }
    ensures generation { (pool : PoolValue) (parts : Parts) (given : List FaultPlan) (enterings : ℕ → ℕ) (es : List Entry) (c : ℕ) →
        StandsFor pool parts given enterings (reboots_in es) → c < MAX_GROUPS →
        (component_in pool.components c).generation ≡ generation es (group_of parts c) }
    ensures few { (pool : PoolValue) (parts : Parts) (given : List FaultPlan) (enterings : ℕ → ℕ) (es : List Entry) (s : Scope) →
        StandsFor pool parts given enterings (reboots_in es) → length es + 1 < 2 ^ 64 →
        MayReboot pool.components s }
    ensures counted { (pool : PoolValue) (parts : Parts) (given : List FaultPlan) (enterings : ℕ → ℕ) (reboots : ℕ → List Level) →
        StandsFor pool parts given enterings reboots →
        StandsFor pool parts given (times (entered_in pool)) reboots }
{}
