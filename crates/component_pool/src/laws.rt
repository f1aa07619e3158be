//! Laws of plans, as contracts of functions that do nothing.

ghost use Rattle.std.specs.Prelude.{◌≡◌, ◌<◌, ◌≤◌, ◌⊎◌, ◌↔◌, ◌^◌, ℕ, List, [], ◌∷◌, ◌++◌, true, false, Some, None, All};
ghost use Rattle.crash_base.specs.declared.fault_plans.FaultKind.{FaultKind};
ghost use Rattle.crash_base.specs.declared.fault_plans.FaultPlan.{FaultPlan};
ghost use Rattle.crash_base.specs.declared.numbers.GroupNo.{GroupNo};
ghost use Rattle.crash_base.specs.declared.numbers.Level.{Level};
ghost use Rattle.crash_base.specs.declared.numbers.Level.TheVariants.{Group, App, Process, Human};
ghost use Rattle.crash_base.specs.declared.scope.Scope.TheVariants as scopes;
ghost use Rattle.component_pool.specs.Cures.{cures, level_of, one_cures};
ghost use Rattle.component_pool.specs.Plans.{IsFirstActive, active_plan, counted, is_active, makes_fail, outlives_process};

/// What is cured by a reboot of a group is cured by every reboot, whichever groups the two name; what is cured by one
/// of the application, by every reboot but that of a group; what is cured by one of the process, by no reboot of a
/// group or of the application; and what a person has to cure, by no reboot. A scope is rebooted at its own level: a
/// group at that of this group, and the application at that of the application.
pub fn reboots_cure_by_level()
    ensures group { (level : Level) (g : GroupNo) → cures level (Group g) ≡ true }
    ensures app { (level : Level) → (cures level App ≡ false) ↔ ((g : GroupNo) × (level ≡ Group g)) }
    ensures process { (level : Level) →
        (cures level Process ≡ true) ↔ ((level ≡ Process) ⊎ (level ≡ Human)) }
    ensures human { (level : Level) → (cures level Human ≡ true) ↔ (level ≡ Human) }
    ensures left { (plan : FaultPlan) → (outlives_process plan ≡ true) ↔ (plan.cured_by ≡ Human) }
    ensures scopes { ((g : GroupNo) → level_of (scopes.Group g) ≡ Group g) × (level_of scopes.App ≡ App) }
{}

/// A plan is active exactly where its component was entered as often as it says or more, and no reboot of its group
/// cured it. Once cured it stays so, whatever is rebooted later, and only a reboot that cures it ends it.
pub fn plans_are_active_until_cured()
    ensures active { (entered : ℕ) (reboots : List Level) (plan : FaultPlan) →
        (is_active entered reboots plan ≡ true)
        ↔ ((plan.after ≤ entered) × All (λ level. cures level plan.cured_by ≡ false) reboots) }
    ensures cured { (entered : ℕ) (before later : List Level) (level : Level) (plan : FaultPlan) →
        cures level plan.cured_by ≡ true →
        is_active entered (before ++ level ∷ later) plan ≡ false }
    ensures kept { (entered : ℕ) (before : List Level) (level : Level) (plan : FaultPlan) →
        cures level plan.cured_by ≡ false →
        is_active entered (before ++ level ∷ []) plan ≡ is_active entered before plan }
{}

/// The plan that is found for a component is the first of its plans that is active, and none is found exactly where
/// none is.
pub fn active_plans_are_found()
    ensures found { (plans : List FaultPlan) (c entered : ℕ) (reboots : List Level) (number : ℕ) (kind : FaultKind) →
        (active_plan plans c entered reboots ≡ Some (number, kind))
        ↔ ((plan : FaultPlan) × IsFirstActive plans c entered reboots number plan × (plan.kind ≡ kind)) }
    ensures none { (plans : List FaultPlan) (c entered : ℕ) (reboots : List Level) →
        (active_plan plans c entered reboots ≡ None)
        ↔ All (λ plan. makes_fail c entered reboots plan ≡ false) plans }
{}

/// That enterings are counted up to 2^64 − 1 changes nothing: no plan waits for more.
pub fn counts_reach_every_plan()
    ensures { (plans : List FaultPlan) (c enterings : ℕ) (reboots : List Level) →
        All (λ plan. plan.after < 2 ^ 64) plans →
        active_plan plans c (counted enterings) reboots ≡ active_plan plans c enterings reboots }
{}
